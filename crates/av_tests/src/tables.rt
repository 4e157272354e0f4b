// Counts that are known.
use crate::system_parts::{TermRow, system_of};
use av_count::{Count, Table};
use av_perm::MAX_LENGTH;
use av_sys::Sign;
use std::test::Fail;

#[test]
fn binary_trees_are_counted_by_the_catalan_numbers(rt: HostRuntime) -> Result<(), Fail> {
    // A tree of size n of this equation is a binary tree with n leaves.
    let system = system_of(
        rt.alloc(),
        &[(Sign::C, "", "")],
        &[(0, "", ""), (0, "12", "00")],
    )?;
    if !system.check() {
        return Err(Fail::new("not well formed"));
    }
    let table = Table::new(rt.alloc(), &system, MAX_LENGTH)?;
    assert_eq!(rt; table.largest(), MAX_LENGTH);
    assert!(rt; table.get(0, 0) == Count::Known(0));
    assert!(rt; table.get(0, 1) == Count::Known(1));
    assert!(rt; table.get(0, 5) == Count::Known(14));
    assert!(rt; table.get(0, 11) == Count::Known(16796));
    assert!(rt; table.get(0, MAX_LENGTH) == Count::Over);
    Ok(())
}

// The terms of the system of the class that avoids 123 and 132: its first equation is 1, 12[1, 2] or 21[3, 0].
static POWERS: [TermRow; 10] = [
    (0, "", ""),
    (0, "12", "12"),
    (0, "21", "30"),
    (1, "", ""),
    (1, "21", "24"),
    (2, "", ""),
    (3, "", ""),
    (3, "12", "12"),
    (4, "", ""),
    (4, "21", "24"),
];

#[test]
fn a_class_of_powers_of_two_is_over_from_length_129_on(rt: HostRuntime) -> Result<(), Fail> {
    let system = system_of(rt.alloc(), &[(Sign::C, "", ""); 5], &POWERS)?;
    if !system.check() {
        return Err(Fail::new("not well formed"));
    }
    let table = Table::new(rt.alloc(), &system, 129)?;
    assert!(rt; table.get(0, 1) == Count::Known(1));
    assert!(rt; table.get(0, 10) == Count::Known(512));
    assert!(rt; table.get(0, 128) == Count::Known(1 << 127));
    assert!(rt; table.get(0, 129) == Count::Over);
    Ok(())
}
