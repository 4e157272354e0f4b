// Embeddings that are known.
ghost use Rattle.std.specs.Prelude.{◌≡◌, ◌≤◌, length};

use crate::words::word;
use av_embed::{Embeddings, Map, fibre};
use av_perm::{MAX_PATTERN_LENGTH, MAX_ROOT_LENGTH, Memory, Perm};
use std::alloc::Global;

// Whether the children of the map are these.
fn is_map(map: &Map, children: &[u8]) -> bool {
    map.len() == children.len() && (0..children.len()).all(|i| map.child(i + 1) == children[i])
}

// Whether the next embedding is this one.
fn next_is(embeddings: &mut Embeddings, children: &[u8]) -> bool {
    match embeddings.next() {
        Some(map) => is_map(&map, children),
        None => false,
    }
}

// Whether the pattern of the fibre of a child has these entries; no entries stand for no pattern.
fn fibre_is(pattern: &Perm, map: &Map, child: usize, entries: &[u8]) -> bool
    requires { 1 ≤ child }
{
    map.len() == pattern.len()
        && match fibre(pattern, map, child) {
            Some(word) => word.as_slice() == entries,
            None => entries.is_empty(),
        }
}

// How many embeddings there are.
fn count(pattern: &Perm, root: &Perm) -> usize
    requires some { 1 ≤ length pattern.now }
    requires few { length pattern.now ≤ MAX_PATTERN_LENGTH }
    requires root { 2 ≤ length root.now }
    requires small { length root.now ≤ MAX_ROOT_LENGTH }
{
    let mut count: usize = 0;
    for _map in Embeddings::new(pattern, root) {
        count = count.saturating_add(1);
    }
    count
}

#[test]
fn embeddings_of_132_in_12(rt: HostRuntime) {
    let pattern = word(&rt, &[1, 3, 2]);
    let root = word(&rt, &[1, 2]);
    let mut embeddings = Embeddings::new(&pattern, &root);
    assert!(rt; next_is(&mut embeddings, &[1, 1, 1]));
    assert!(rt; next_is(&mut embeddings, &[1, 2, 2]));
    assert!(rt; next_is(&mut embeddings, &[2, 2, 2]));
    assert!(rt; embeddings.next().is_none());
    assert!(rt; embeddings.next().is_none());
}

#[test]
fn embeddings_of_2143_in_12(rt: HostRuntime) {
    let pattern = word(&rt, &[2, 1, 4, 3]);
    let root = word(&rt, &[1, 2]);
    let mut embeddings = Embeddings::new(&pattern, &root);
    assert!(rt; next_is(&mut embeddings, &[1, 1, 1, 1]));
    assert!(rt; next_is(&mut embeddings, &[1, 1, 2, 2]));
    assert!(rt; next_is(&mut embeddings, &[2, 2, 2, 2]));
    assert!(rt; embeddings.next().is_none());
}

// Whether two places of a pattern may go to two children of a root: the later one goes no further left, and their entries
// lie as the entries of the children do, where these differ.
fn may_go(root: &Perm, first: (u8, usize), later: (u8, usize)) -> bool {
    match (root.as_slice().get(first.1), root.as_slice().get(later.1)) {
        (Some(x), Some(y)) => first.1 == later.1
            || (first.1 < later.1 && (first.0 < later.0) == (*x < *y)),
        _ => false,
    }
}

// Whether the children, counted from 0, that the places go to are those of an embedding.
fn is_embedding(pattern: &Perm, root: &Perm, children: &[usize]) -> bool {
    for (s, first) in pattern.as_slice().iter().zip(children).enumerate() {
        for (t, later) in pattern.as_slice().iter().zip(children).enumerate() {
            if s < t && !may_go(root, (*first.0, *first.1), (*later.0, *later.1)) {
                return false;
            }
        }
    }
    true
}

// Map number `code` of those that take each place to one of some children.
fn map_of(
    alloc: Global,
    code: usize,
    places: usize,
    children: usize,
) -> Result<Vec<usize>, Memory> {
    let mut rest = code;
    let mut map = Vec::new(alloc);
    for _ in 0..places {
        if children > 0 {
            map.push(rest % children).map_err(|_| Memory)?;
            rest /= children;
        }
    }
    Ok(map)
}

// How many of all maps are embeddings.
fn count_by_filter(alloc: Global, pattern: &Perm, root: &Perm) -> Result<usize, Memory> {
    let mut maps: usize = 1;
    for _ in pattern.as_slice() {
        maps = maps.saturating_mul(root.len());
    }
    let mut count: usize = 0;
    for code in 0..maps {
        let map = map_of(alloc, code, pattern.len(), root.len())?;
        if is_embedding(pattern, root, &map) {
            count = count.saturating_add(1);
        }
    }
    Ok(count)
}

#[test]
fn embeddings_in_simple_roots(rt: HostRuntime) -> Result<(), Memory> {
    let root = word(&rt, &[2, 4, 1, 3]);
    let pattern = word(&rt, &[4, 1, 3, 5, 2]);
    assert_eq!(rt; count(&pattern, &root), 4);
    assert_eq!(rt; count_by_filter(rt.alloc(), &pattern, &root)?, 4);
    let pattern = word(&rt, &[2, 1, 4, 3, 6, 5]);
    assert_eq!(rt; count(&pattern, &root), 12);
    assert_eq!(rt; count_by_filter(rt.alloc(), &pattern, &root)?, 12);
    let root = word(&rt, &[2, 5, 3, 1, 4]);
    assert_eq!(rt; count(&pattern, &root), 20);
    assert_eq!(rt; count_by_filter(rt.alloc(), &pattern, &root)?, 20);
    let pattern = word(&rt, &[1, 2, 3, 4, 5, 6]);
    assert_eq!(rt; count(&pattern, &root), 40);
    assert_eq!(rt; count_by_filter(rt.alloc(), &pattern, &root)?, 40);
    Ok(())
}

#[test]
fn fibres_of_2143(rt: HostRuntime) {
    let pattern = word(&rt, &[2, 1, 4, 3]);
    let root = word(&rt, &[1, 2]);
    let mut embeddings = Embeddings::new(&pattern, &root);
    let constant = embeddings.next().expect(&rt, "1111");
    assert!(rt; fibre_is(&pattern, &constant, 1, &[2, 1, 4, 3]));
    assert!(rt; fibre_is(&pattern, &constant, 2, &[]));
    let split = embeddings.next().expect(&rt, "1122");
    assert!(rt; fibre_is(&pattern, &split, 1, &[2, 1]));
    assert!(rt; fibre_is(&pattern, &split, 2, &[2, 1]));
}
