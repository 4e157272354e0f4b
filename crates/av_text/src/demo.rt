// The demo scripts.
ghost use Rattle.std.specs.Prelude.{◌≡◌, ◌≤◌, ◌<◌, ◌++◌, length, slice_get, Some, OnOk, IfOk};
ghost use Rattle.av_perm.specs.Word.{words};
ghost use Rattle.av_text.specs.Demo.{demo_script, demo_text, digits_text};

use crate::limits::MAX_DEMO;
use av_perm::{Lex, Memory, Perm};
use itoa::Buffer;
use std::alloc::{AllocError, Global};

/// The word of length 4 at a place in lexicographic order, places from 0 on.
fn word_at(place: u32) -> Perm
    requires { place < 24 }
    ensures word { slice_get (words 4) place ≡ Some result }
    ensures short { length result ≡ 4 }
{
    let mut words = Lex::new(4);
    for _ in 0..place {
        let _before = words.next();
    }
    match words.next() {
        Some(word) => word,
        None => Perm::one(),
    }
}

/// Appends a word of at most 9 entries by its digits.
fn push_digits(text: &mut Vec<u8>, word: &Perm) -> Result<(), AllocError>
    requires { length word.now ≤ 9 }
    ensures { OnOk result (text.new.items ≡ text.old.items ++ digits_text word.now) }
{
    let _len = word.len();
    for entry in word.as_slice() {
        text.push(b'0' + *entry)?;
    }
    Ok(())
}

/// The parts of the script, one after another.
fn text_of(alloc: Global, word: &Perm, g: u32) -> Result<Vec<u8>, AllocError>
    requires { length word.now ≤ 9 }
    ensures { IfOk result (λ text. text.items ≡ demo_text word.now g) }
{
    let mut buffer = Buffer::new();
    let mut text = Vec::from_slice(
        alloc,
        b"basis 24153 25314 31524 35142 41352 42513 246135 362514 415263 531642 ",
    )?;
    push_digits(&mut text, word)?;
    text.extend_from_slice(b"\ncounts 160\ndrawstat inv 40 ")?;
    text.extend_from_slice(buffer.format(g).as_bytes())?;
    text.extend_from_slice(b" 1000\n")?;
    Ok(text)
}

/// The demo script of a number up to 99,999: eleven basis words, the counts up to length 160, and one line on a thousand
/// drawn members of length 40.
#[tactic(auto, unfolding(crate::specs::Demo::demo_script))]
pub fn demo_script(alloc: Global, g: u32) -> Result<Vec<u8>, Memory>
    requires { g ≤ MAX_DEMO }
    ensures { IfOk result (λ text. text.items ≡ demo_script g) }
{
    let word = word_at(g % 24);
    text_of(alloc, &word, g).map_err(|_| Memory)
}
