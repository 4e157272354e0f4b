// What is known of some patterns.
use crate::system_parts::name_of;
use crate::words::{word, words_of};
use av_name::{Known, add_avoid, add_require, free, known_of, satisfies};
use av_perm::{Memory, Perm};
use av_sys::{Constraint, Sign};
use std::alloc::Global;
use std::test::Fail;

#[test]
fn nothing_is_known_at_first(rt: HostRuntime) {
    let all = free(rt.alloc());
    assert_eq!(rt; all.avoid.len(), 0);
    assert_eq!(rt; all.require.len(), 0);
    assert!(rt; known_of(&all, &Perm::one()) == Known::Inside);
    assert!(rt; known_of(&all, &word(&rt, &[2, 1])) == Known::Open);
}

#[test]
fn patterns_of_a_constraint(rt: HostRuntime) -> Result<(), Fail> {
    let c = Constraint {
        avoid: words_of(rt.alloc(), "2143")?,
        require: words_of(rt.alloc(), "21")?,
    };
    assert!(rt; known_of(&c, &word(&rt, &[2, 1])) == Known::Inside);
    assert!(rt; known_of(&c, &word(&rt, &[3, 2, 5, 4, 1])) == Known::Outside);
    assert!(rt; known_of(&c, &word(&rt, &[1, 2])) == Known::Open);
    Ok(())
}

// The constraint that avoids the pattern too, or an equal one where something is known of it.
fn avoiding(alloc: Global, c: &Constraint, p: &Perm) -> Result<Constraint, Memory> {
    match known_of(c, p) {
        Known::Open => add_avoid(alloc, c, p),
        _ => c.copy(alloc),
    }
}

// The constraint that requires the pattern too, or an equal one where something is known of it.
fn requiring(alloc: Global, c: &Constraint, p: &Perm) -> Result<Constraint, Memory> {
    match known_of(c, p) {
        Known::Open => add_require(alloc, c, p),
        _ => c.copy(alloc),
    }
}

#[test]
fn the_constraint_of_a_worked_split(rt: HostRuntime) -> Result<(), Fail> {
    let mut c = avoiding(rt.alloc(), &free(rt.alloc()), &word(&rt, &[3, 1, 4, 2]))?;
    c = requiring(rt.alloc(), &c, &word(&rt, &[2, 1]))?;
    c = avoiding(rt.alloc(), &c, &word(&rt, &[2, 1, 4, 3]))?;
    assert!(rt; c.avoid == words_of(rt.alloc(), "2143 3142")?);
    assert!(rt; c.require == words_of(rt.alloc(), "21")?);
    Ok(())
}

#[test]
fn minimal_and_maximal_words_are_kept(rt: HostRuntime) -> Result<(), Fail> {
    let long = avoiding(rt.alloc(), &free(rt.alloc()), &word(&rt, &[2, 1, 4, 3]))?;
    let short = avoiding(rt.alloc(), &long, &word(&rt, &[1, 3, 2]))?;
    assert!(rt; short.avoid == words_of(rt.alloc(), "132")?);
    let less = requiring(rt.alloc(), &free(rt.alloc()), &word(&rt, &[2, 1]))?;
    let more = requiring(rt.alloc(), &less, &word(&rt, &[3, 2, 1]))?;
    assert!(rt; more.require == words_of(rt.alloc(), "321")?);
    Ok(())
}

#[test]
fn words_of_a_name(rt: HostRuntime) -> Result<(), Fail> {
    let any = name_of(rt.alloc(), Sign::C, "2143", "21")?;
    let indecomposable = name_of(rt.alloc(), Sign::P, "2143", "21")?;
    let skew_indecomposable = name_of(rt.alloc(), Sign::M, "2143", "21")?;
    assert!(rt; satisfies(&any, &word(&rt, &[1, 3, 2])));
    assert!(rt; !satisfies(&any, &word(&rt, &[1, 2, 3])));
    assert!(rt; !satisfies(&any, &word(&rt, &[2, 1, 4, 3])));
    assert!(rt; !satisfies(&indecomposable, &word(&rt, &[1, 3, 2])));
    assert!(rt; satisfies(&skew_indecomposable, &word(&rt, &[1, 3, 2])));
    assert!(rt; !satisfies(&skew_indecomposable, &word(&rt, &[2, 1])));
    Ok(())
}
