// Decomposition trees.
ghost use Rattle.std.specs.Prelude.{◌≤◌, ◌++◌, drop, flat_map, codes, OnOk, IsErrOf};
ghost use Rattle.std.specs.Io.KnownBytes.{Appends};
ghost use Rattle.av_io.specs.Causes.{Rose};
ghost use Rattle.av_print.specs.Wrote.{AppendsPart};
ghost use Rattle.av_print.specs.Text.{tree_text, tree_texts};

use crate::bytes::{Bytes, put};
use crate::text::Text;
use crate::words::put_word;
use av_decomp::DecTree;
use av_io::{Sink, SinkFault};
use av_perm::Perm;

/// A root, whose text is that of its word, in round brackets where it has more than nine entries.
#[derive(Clone, Copy)]
pub(crate) struct Root<'a>(pub(crate) &'a Perm);

impl Text for Root<'_> {
    ghost use Rattle.av_print.specs.Text.{root_text};

    ghost text = { λ root. root_text root.0.now };

    #[tactic(auto, unfolding(crate::specs::Text::root_text))]
    fn put_on<K: Sink>(&self, sink: &mut K) -> Result<(), SinkFault> {
        if self.0.len() <= 9 {
            put_word(sink, self.0)
        } else {
            (Bytes(b"("), self.0, Bytes(b")")).put_on(sink)
        }
    }
}

/// Writes the tree: `1` for the single point, else the root, and in square brackets the trees of its blocks joined by
/// commas. A root of more than nine entries stands in round brackets.
///
/// It calls itself as deep as the tree is, which is at most 159: a root has at least two blocks, and the tree at most 160
/// points.
#[cycle(tree)]
pub fn put_tree<K: Sink>(sink: &mut K, tree: &DecTree) -> Result<(), SinkFault>
    ensures whole { OnOk result (Appends (K.held sink.old) (K.held sink.new) (tree_text tree.now)) }
    ensures part { AppendsPart (K.held sink.old) (K.held sink.new) (tree_text tree.now) }
    ensures later { K.faults sink.old ≤ K.faults sink.new }
    ensures wants_later { K.wants sink.old ≤ K.wants sink.new }
    ensures failed { IsErrOf result SinkFault.Failed → Rose (K.faults sink.old) (K.faults sink.new) }
    ensures memory { IsErrOf result SinkFault.Memory → Rose (K.wants sink.old) (K.wants sink.new) }
{
    let Some(root) = tree.root() else {
        return put(sink, b"1");
    };
    (Root(root), Bytes(b"[")).put_on(sink)?;
    put_tree(sink, tree.child(1))?;
    put_others(sink, tree)?;
    put(sink, b"]")
}

/// Writes the trees of the blocks from the second on, each after a comma.
#[cycle(tree)]
fn put_others<K: Sink>(sink: &mut K, tree: &DecTree) -> Result<(), SinkFault>
    ensures whole { OnOk result (Appends (K.held sink.old) (K.held sink.new) (flat_map (λ text. codes "," ++ text) (drop 1 (tree_texts tree.now.blocks)))) }
    ensures part { AppendsPart (K.held sink.old) (K.held sink.new) (flat_map (λ text. codes "," ++ text) (drop 1 (tree_texts tree.now.blocks))) }
    ensures later { K.faults sink.old ≤ K.faults sink.new }
    ensures wants_later { K.wants sink.old ≤ K.wants sink.new }
    ensures failed { IsErrOf result SinkFault.Failed → Rose (K.faults sink.old) (K.faults sink.new) }
    ensures memory { IsErrOf result SinkFault.Memory → Rose (K.wants sink.old) (K.wants sink.new) }
{
    let Some(root) = tree.root() else {
        return Ok(());
    };
    for i in 2..root.len() + 1 {
        let block = tree.child(i);
        put(sink, b",")?;
        put_tree(sink, block)?;
    }
    Ok(())
}

impl Text for DecTree {
    ghost use Rattle.av_print.specs.Text.{tree_text};

    ghost text = { tree_text };

    fn put_on<K: Sink>(&self, sink: &mut K) -> Result<(), SinkFault> {
        put_tree(sink, self)
    }
}
