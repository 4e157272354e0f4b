// The blocks of a word at spans of its places.
ghost use Rattle.std.specs.Prelude.{◌≡◌, ◌≤◌, length};
ghost use Rattle.av_interval.specs.Intervals.{Tiles};
ghost use Rattle.av_decomp.specs.Blocks.{blocks_at};

use arrayvec::ArrayVec;
use av_decomp::block;
use av_interval::Spans;
use av_perm::{MAX_ROOT_LENGTH, Perm};
use std::marker::Model;

// A block, seen as its word. Its default, which an array vector needs, is the word 1.
#[derive(Drop)]
pub struct Block {
    word: Perm,
}

impl Model for Block {
    ghost use Rattle.std.specs.Prelude.{ℕ, List, IsTrue};

    ghost Value = { List ℕ };

    ghost use Rattle.av_perm.specs.Word.{is_perm};

    ghost view = { λ b. b.word };

    ghost invariant = { λ b. IsTrue (is_perm b.word) };
}

impl Default for Block {
    fn default() -> Block {
        Block { word: Perm::one() }
    }
}

impl Block {
    // Its word.
    pub fn word(&self) -> &Perm
        ensures { result.now ≡ self.now }
    {
        &self.word
    }
}

// The blocks of a word at spans, of which there are at most `MAX_ROOT_LENGTH`.
pub fn blocks_of(word: &Perm, spans: &Spans) -> ArrayVec<Block, MAX_ROOT_LENGTH>
    requires cover { Tiles 1 (length word.now) spans.now }
    requires few { length spans.now ≤ MAX_ROOT_LENGTH }
    ensures { result.items ≡ blocks_at word.now spans.now }
{
    let mut blocks = ArrayVec::new();
    for span in spans.as_slice() {
        blocks.push(Block {
            word: block(word, span),
        });
    }
    blocks
}
