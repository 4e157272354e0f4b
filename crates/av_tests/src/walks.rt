// Leaves that are known, and the walk against a plain one.
use crate::plain_walk::{Seen, plain_leaves};
use crate::splits::{can_split, same_box};
use crate::system_parts::{NAMES_OF_132, NameRow, TERMS_OF_132, TermRow, system_of};
use crate::words::word_of;
use av_perm::{Memory, Perm};
use av_sys::{Sign, System};
use av_walk::{CellEnd, Leaves};
use std::alloc::Global;
use std::test::Fail;

// Notes the next leaf, and answers whether there was one.
fn note(leaves: &mut Leaves<'_>, seen: &mut Seen) -> Result<bool, Memory> {
    let Some(end) = leaves.next() else {
        return Ok(false);
    };
    let letter = match end? {
        CellEnd::Good => b'g',
        CellEnd::Bare { cell } => {
            seen.bare.push(cell).map_err(|_| Memory)?;
            b'b'
        }
        CellEnd::Twice => b't',
        CellEnd::Extra => b'x',
    };
    seen.ends.push(letter).map_err(|_| Memory)?;
    Ok(true)
}

// The leaves of a root and an equation, where the walk takes them and they are at most a thousand.
fn leaves_seen(
    alloc: Global,
    system: &System,
    i: usize,
    root: &Perm,
) -> Result<Option<Seen>, Memory> {
    if !system.check() || i >= system.equations.len() {
        return Ok(None);
    }
    let equation = system.equations.get(i);
    if !can_split(root, &equation.name) {
        return Ok(None);
    }
    let mut leaves = Leaves::new(alloc, system, equation, root)?;
    let mut seen = Seen {
        ends: Vec::new(alloc),
        bare: Vec::new(alloc),
    };
    for _ in 0..1000 {
        if !note(&mut leaves, &mut seen)? {
            return Ok(Some(seen));
        }
    }
    Ok(None)
}

// Whether the leaves end as these letters tell.
fn ends_as(
    alloc: Global,
    system: &System,
    i: usize,
    root: &Perm,
    letters: &str,
) -> Result<bool, Memory> {
    match leaves_seen(alloc, system, i, root)? {
        Some(seen) => Ok(seen.ends.as_slice() == letters.as_bytes()),
        None => Ok(false),
    }
}

// Whether the same leaves were seen.
fn same_leaves(a: &Seen, b: &Seen) -> bool {
    a.ends.as_slice() == b.ends.as_slice()
        && a.bare.len() == b.bare.len()
        && a.bare
            .iter()
            .zip(b.bare.as_slice())
            .all(|(a, b)| same_box(a, b))
}

// Whether the walk and the plain one have the same leaves.
fn agrees(alloc: Global, system: &System, i: usize, root: &Perm) -> Result<bool, Memory> {
    let Some(seen) = leaves_seen(alloc, system, i, root)? else {
        return Ok(false);
    };
    match plain_leaves(alloc, system, i, root)? {
        Some(plain) => Ok(same_leaves(&seen, &plain)),
        None => Ok(false),
    }
}

// Names that leave much open, and terms of several roots, some of which overlap. One list of words isn't in order.
static MIXED: [NameRow; 5] = [
    (Sign::C, "2143 2413 3142", ""),
    (Sign::C, "21", ""),
    (Sign::C, "132 3142", "21"),
    (Sign::C, "", "12 21"),
    (Sign::C, "123", "12"),
];

static OUT_OF_ORDER: [NameRow; 5] = [
    (Sign::C, "2143 2413 3142", ""),
    (Sign::C, "21 21", ""),
    (Sign::C, "3142 132 3142", "21"),
    (Sign::C, "", "21 12"),
    (Sign::C, "123", "12"),
];

static OVERLAPPING: [TermRow; 13] = [
    (0, "", ""),
    (0, "12", "12"),
    (0, "12", "21"),
    (0, "12", "03"),
    (0, "21", "34"),
    (0, "2413", "1234"),
    (1, "12", "11"),
    (2, "12", "20"),
    (2, "21", "13"),
    (3, "12", "33"),
    (3, "12", "34"),
    (4, "12", "14"),
    (4, "21", "24"),
];

// In the system of the words that avoid 132, the children of the terms of equation 0 with the root 12, and how the leaves of that
// root end then: as they are, without the sums, with the sums twice, and with sums whose second block may be a descent.
static KNOWN: [(&str, &str, &str); 4] = [
    ("12", "", "ggg"),
    ("", "", "bgg"),
    ("12", "12", "tgg"),
    ("10", "", "gxgg"),
];

// The terms of that system, with these in the place of those.
fn with_terms(
    alloc: Global,
    first: &'static str,
    second: &'static str,
) -> Result<Vec<TermRow>, Memory> {
    let mut rows: Vec<TermRow> = Vec::new(alloc);
    for row in &TERMS_OF_132 {
        if row.0 != 0 || row.1 != "12" {
            rows.push(*row).map_err(|_| Memory)?;
        }
    }
    for children in [first, second] {
        if !children.is_empty() {
            rows.push((0, "12", children)).map_err(|_| Memory)?;
        }
    }
    Ok(rows)
}

#[test]
fn the_known_leaves(rt: HostRuntime) -> Result<(), Fail> {
    let root = word_of(rt.alloc(), "12")?;
    for (first, second, letters) in &KNOWN {
        let rows = with_terms(rt.alloc(), first, second)?;
        let system = system_of(rt.alloc(), &NAMES_OF_132, &rows)?;
        assert!(rt; ends_as(rt.alloc(), &system, 0, &root, letters)?);
        assert!(rt; agrees(rt.alloc(), &system, 0, &root)?);
    }
    Ok(())
}

// Whether the walk and the plain one have the same leaves at each equation.
fn all_agree(alloc: Global, system: &System, root: &Perm) -> Result<bool, Memory> {
    for i in 0..system.equations.len() {
        if !agrees(alloc, system, i, root)? {
            return Ok(false);
        }
    }
    Ok(true)
}

// Whether the leaves of two systems are the same at an equation.
fn same_walk(
    alloc: Global,
    system: &System,
    other: &System,
    i: usize,
    root: &Perm,
) -> Result<bool, Memory> {
    let Some(seen) = leaves_seen(alloc, system, i, root)? else {
        return Ok(false);
    };
    match leaves_seen(alloc, other, i, root)? {
        Some(others) => Ok(same_leaves(&seen, &others)),
        None => Ok(false),
    }
}

#[test]
fn the_walk_and_the_plain_one(rt: HostRuntime) -> Result<(), Fail> {
    let mixed = system_of(rt.alloc(), &MIXED, &OVERLAPPING)?;
    let other = system_of(rt.alloc(), &OUT_OF_ORDER, &OVERLAPPING)?;
    for digits in ["12", "21", "2413"] {
        let root = word_of(rt.alloc(), digits)?;
        assert!(rt; all_agree(rt.alloc(), &mixed, &root)?);
        // The names of these two are the same.
        assert!(rt; same_walk(rt.alloc(), &mixed, &other, 0, &root)?);
        assert!(rt; same_walk(rt.alloc(), &mixed, &other, 4, &root)?);
    }
    Ok(())
}
