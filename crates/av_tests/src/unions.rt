// Overlays, and bases of unions, that are known.
use crate::words::{word, words_of};
use av_perm::{Memory, Words};
use av_union::{MAX_OVERLAY_LENGTH, Overlays, are_short, unite};
use std::alloc::Global;
use std::test::Fail;

// Whether the basis of the union of two classes is this list.
fn is_union(alloc: Global, first: &Words, second: &Words, basis: &Words) -> Result<bool, Memory> {
    if !are_short(first, second) {
        return Ok(false);
    }
    Ok(unite(alloc, first, second)? == *basis)
}

#[test]
fn overlays_of_a_rise_and_a_fall(rt: HostRuntime) {
    let rise = word(&rt, &[1, 2]);
    let fall = word(&rt, &[2, 1]);
    let mut lengths: [bool; 5] = [false; 5];
    if rise.len() + fall.len() <= MAX_OVERLAY_LENGTH {
        for overlay in Overlays::new(&rise, &fall) {
            let len = overlay.len();
            if len < 5 {
                lengths[len] = true;
            }
        }
    }
    assert!(rt; lengths == [false, false, false, true, true]);
}

#[test]
fn bases_of_unions(rt: HostRuntime) -> Result<(), Fail> {
    let rise = words_of(rt.alloc(), "12")?;
    let fall = words_of(rt.alloc(), "21")?;
    let turns = words_of(rt.alloc(), "132 213 231 312")?;
    assert!(rt; is_union(rt.alloc(), &rise, &fall, &turns)?);
    let none = Words::empty(rt.alloc());
    assert!(rt; is_union(rt.alloc(), &rise, &none, &none)?);
    assert!(rt; is_union(rt.alloc(), &none, &rise, &none)?);
    Ok(())
}
