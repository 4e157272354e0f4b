// Lean systems that are known.
use crate::system_parts::{NameRow, TermRow, is_same_system, system_of};
use av_build::prune;
use av_perm::Memory;
use av_sys::{Sign, System};
use std::alloc::Global;
use std::test::Fail;

// Whether the first system is well formed and the second is its lean system.
fn is_pruned(alloc: Global, system: &System, lean: &System) -> Result<bool, Memory> {
    if !system.check() {
        return Ok(false);
    }
    Ok(is_same_system(&prune(alloc, system)?, lean))
}

// The canonical system of the words that avoid 21 and contain 123.
static INCREASING: [NameRow; 7] = [
    (Sign::C, "21", "123"),
    (Sign::P, "12 21", ""),
    (Sign::C, "21", "12"),
    (Sign::P, "21 123", "12"),
    (Sign::C, "21", ""),
    (Sign::P, "21", "123"),
    (Sign::P, "21", ""),
];

static INCREASING_TERMS: [TermRow; 8] = [
    (0, "12", "12"),
    (0, "12", "34"),
    (0, "12", "54"),
    (1, "", ""),
    (2, "12", "64"),
    (4, "", ""),
    (4, "12", "64"),
    (6, "", ""),
];

// Its lean system.
static LEAN: [NameRow; 5] = [
    (Sign::C, "21", "123"),
    (Sign::P, "12 21", ""),
    (Sign::C, "21", "12"),
    (Sign::P, "21", ""),
    (Sign::C, "21", ""),
];

static LEAN_TERMS: [TermRow; 6] = [
    (0, "12", "12"),
    (1, "", ""),
    (2, "12", "34"),
    (3, "", ""),
    (4, "", ""),
    (4, "12", "34"),
];

#[test]
fn equations_that_generate_nothing_are_left_out(rt: HostRuntime) -> Result<(), Fail> {
    let system = system_of(rt.alloc(), &INCREASING, &INCREASING_TERMS)?;
    let lean = system_of(rt.alloc(), &LEAN, &LEAN_TERMS)?;
    assert!(rt; is_pruned(rt.alloc(), &system, &lean)?);
    assert!(rt; is_pruned(rt.alloc(), &lean, &lean)?);
    Ok(())
}

// A name of all words, and twice the name of those that are no sums.
static NAMES: [NameRow; 3] = [(Sign::C, "", ""), (Sign::P, "", ""), (Sign::P, "", "")];

#[test]
fn equation_0_stays_where_it_generates_nothing(rt: HostRuntime) -> Result<(), Fail> {
    let system = system_of(rt.alloc(), &NAMES[..2], &[(0, "12", "01"), (1, "", "")])?;
    let lean = system_of(rt.alloc(), &NAMES[..1], &[])?;
    assert!(rt; is_pruned(rt.alloc(), &system, &lean)?);
    Ok(())
}

#[test]
fn equations_of_one_name_are_numbered_by_appearance(rt: HostRuntime) -> Result<(), Fail> {
    let terms = [(0, "12", "21"), (1, "", ""), (2, "", ""), (2, "12", "22")];
    let lean_terms = [(0, "12", "12"), (1, "", ""), (1, "12", "11"), (2, "", "")];
    let system = system_of(rt.alloc(), &NAMES, &terms)?;
    let lean = system_of(rt.alloc(), &NAMES, &lean_terms)?;
    assert!(rt; is_pruned(rt.alloc(), &system, &lean)?);
    Ok(())
}
