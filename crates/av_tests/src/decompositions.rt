// Decompositions that are known.
use crate::words::{word, word_of};
use av_decomp::{DecTree, Shape, block, decompose, tree};
use av_interval::Span;
use av_perm::Perm;
use std::alloc::Global;
use std::test::Fail;

// Whether the root at the top has these entries.
fn has_root(tree: &DecTree, entries: &[u8]) -> bool {
    match tree.root() {
        Some(root) => root.as_slice() == entries,
        None => false,
    }
}

#[test]
fn shapes(rt: HostRuntime) {
    assert!(rt; matches!(decompose(&Perm::one()), Shape::One));
    let Shape::Inflated { root, spans } = decompose(&word(&rt, &[2, 6, 1, 4, 5, 3])) else {
        assert!(rt; false);
        return;
    };
    assert!(rt; root.as_slice() == [2, 4, 1, 3].as_slice());
    let blocks = [
        Span { first: 1, last: 1 },
        Span { first: 2, last: 2 },
        Span { first: 3, last: 3 },
        Span { first: 4, last: 6 },
    ];
    assert!(rt; spans.as_slice() == blocks.as_slice());
}

#[test]
fn a_block(rt: HostRuntime) {
    let word = word(&rt, &[2, 6, 1, 4, 5, 3]);
    let block = block(&word, &Span { first: 4, last: 6 });
    assert!(rt; block.as_slice() == [2, 3, 1].as_slice());
}

// Tries the tree of a sum: 213 is 12[21, 1].
fn tree_of_a_sum(alloc: Global) -> Result<bool, Fail> {
    let tree = tree(alloc, &word_of(alloc, "213")?)?;
    let Some(root) = tree.root() else {
        return Ok(false);
    };
    if root.len() < 2 {
        return Ok(false);
    }
    let inner = has_root(tree.child(1), &[2, 1]);
    Ok(has_root(&tree, &[1, 2]) && inner && tree.child(2).root().is_none())
}

#[test]
fn trees(rt: HostRuntime) -> Result<(), Fail> {
    assert!(rt; tree_of_a_sum(rt.alloc())?);
    let word = word(&rt, &[2, 6, 1, 4, 5, 3]);
    let tree = tree(rt.alloc(), &word)?;
    assert!(rt; has_root(&tree, &[2, 4, 1, 3]));
    assert!(rt; tree.value() == word);
    Ok(())
}
