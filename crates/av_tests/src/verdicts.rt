// Claims that are read, and the verdicts on them.
ghost use Rattle.av_build.specs.Laws.{AreRoots};

use crate::words::{are_roots, words_of};
use av_check::{ClaimError, Flaw, Verdict, check, read_claim};
use av_perm::{Memory, Perm, Words};
use std::alloc::Global;
use std::test::Fail;

// What is answered to a text: the verdict, or the line in which it is refused. A root is told by its entries as digits.
#[derive(Clone, Copy, Debug, PartialEq, Eq)]
enum Told {
    Yes,
    Name(u32),
    Point(u32),
    Root(u32, u32),
    Cell(u32, u32, u64, Flaw),
    Refused(u32),
    Nothing,
}

// The entries of a root as digits.
fn digits(root: &Perm) -> u32 {
    let mut number: u32 = 0;
    for entry in root.as_slice() {
        number = number.saturating_mul(10).saturating_add(u32::from(*entry));
    }
    number
}

fn brief(found: Verdict) -> Told {
    match found {
        Verdict::Yes => Told::Yes,
        Verdict::Name { eq } => Told::Name(eq),
        Verdict::Point { eq } => Told::Point(eq),
        Verdict::Root { eq, root } => Told::Root(eq, digits(&root)),
        Verdict::Cell {
            eq,
            root,
            cell,
            flaw,
        } => Told::Cell(eq, digits(&root), cell, flaw),
    }
}

// What is answered to a text, with these simple roots.
#[tactic(auto, using(av_check::proofs::TakenClaims::claim_taken))]
fn told_of(alloc: Global, text: &str, roots: &Words) -> Told
    requires { AreRoots roots.now }
{
    match read_claim(alloc, text.as_bytes()) {
        Ok(claim) => match check(alloc, &claim, roots) {
            Ok(found) => brief(found),
            Err(Memory) => Told::Nothing,
        },
        Err(ClaimError::Refused { line, kind: _ }) => Told::Refused(line),
        Err(ClaimError::Memory) => Told::Nothing,
    }
}

/// The text of a claim for the class that avoids 132, which says that its system has so many terms, with these of equation 0.
pub fn claim_of_132(alloc: Global, count: u32, terms: &str) -> Result<String, Fail> {
    let text = format!(in alloc;
        "permspec 1
basis 132
simples 4:0 5:0
gap 4
system 2 equations 5 terms {count}
E0 C avoid 132 require none = {terms}
E1 P avoid 132 require none = 1 | 21[E3,E0]
E2 C avoid 21 require none = 1 | 12[E4,E2]
E3 M avoid 132 require none = 1 | 12[E1,E2]
E4 P avoid 21 require none = 1
end
"
    )?;
    Ok(text)
}

static ON_132: [(u32, &str, Told); 9] = [
    (10, "1 | 12[E1,E2] | 21[E3,E0]", Told::Yes),
    // The sums are left out, come twice, or may have a second block with a descent.
    (9, "1 | 21[E3,E0]", Told::Cell(0, 12, 0, Flaw::Lost)),
    (
        11,
        "1 | 12[E1,E2] | 12[E1,E2] | 21[E3,E0]",
        Told::Cell(0, 12, 0, Flaw::Twice),
    ),
    (
        10,
        "1 | 12[E1,E0] | 21[E3,E0]",
        Told::Cell(0, 12, 1, Flaw::Extra),
    ),
    // The first block of a sum is a sum, and a root is none of the class.
    (10, "1 | 12[E0,E2] | 21[E3,E0]", Told::Root(0, 12)),
    (
        11,
        "1 | 12[E1,E2] | 21[E3,E0] | 2413[E0,E0,E0,E0]",
        Told::Root(0, 2413),
    ),
    (9, "12[E1,E2] | 21[E3,E0]", Told::Point(0)),
    (11, "1 | 1 | 12[E1,E2] | 21[E3,E0]", Told::Point(0)),
    // The number of terms is wrong.
    (
        10,
        "1 | 12[E1,E2] | 12[E1,E2] | 21[E3,E0]",
        Told::Refused(11),
    ),
];

#[test]
fn systems_of_a_class(rt: HostRuntime) -> Result<(), Fail> {
    let roots = Words::empty(rt.alloc());
    for (count, terms, wanted) in &ON_132 {
        let text = claim_of_132(rt.alloc(), *count, terms)?;
        assert_eq!(rt; told_of(rt.alloc(), &text, &roots), *wanted, "{terms}");
    }
    Ok(())
}

static OTHERS: [(&str, Told); 6] = [
    // The canonical system of the words that avoid 21 and contain 123, and the lean one.
    (
        "permspec 1
basis 21
require 123
simples 4:0 5:0
gap 4
system 1 equations 7 terms 8
E0 C avoid 21 require 123 = 12[E1,E2] | 12[E3,E4] | 12[E5,E4]
E1 P avoid 12 21 require none = 1
E2 C avoid 21 require 12 = 12[E6,E4]
E3 P avoid 21 123 require 12 = none
E4 C avoid 21 require none = 1 | 12[E6,E4]
E5 P avoid 21 require 123 = none
E6 P avoid 21 require none = 1
end
counts 4 = 0 0 1 1
",
        Told::Yes,
    ),
    (
        "permspec 1
basis 21
require 123
simples 4:0 5:0
gap 4
system 2 equations 5 terms 6
E0 C avoid 21 require 123 = 12[E1,E2]
E1 P avoid 12 21 require none = 1
E2 C avoid 21 require 12 = 12[E3,E4]
E3 P avoid 21 require none = 1
E4 C avoid 21 require none = 1 | 12[E3,E4]
end
counts 4 = 0 0 1 1
",
        Told::Yes,
    ),
    // The name of equation 0 isn't that of the claim, and a name beside it isn't its own list of minimal words.
    (
        "basis 12
system 1 equations 1 terms 1
E0 C avoid 21 require none = 1
end
",
        Told::Name(0),
    ),
    (
        "basis 21
system 1 equations 3 terms 4
E0 C avoid 21 require none = 1 | 12[E1,E2]
E1 P avoid 21 321 require none = 1
E2 C avoid 21 require none = 1
end
",
        Told::Name(1),
    ),
    // No word avoids 21 and contains 321: one equation without terms is right, and nothing else.
    (
        "basis 21
require 321
system 2 equations 1 terms 0
E0 C avoid 21 require 321 = none
end
",
        Told::Yes,
    ),
    (
        "basis 21
require 321
system 2 equations 1 terms 1
E0 C avoid 21 require 321 = 1
end
",
        Told::Name(0),
    ),
];

#[test]
fn systems_of_other_classes(rt: HostRuntime) -> Result<(), Fail> {
    let roots = Words::empty(rt.alloc());
    for (text, wanted) in &OTHERS {
        assert_eq!(rt; told_of(rt.alloc(), text, &roots), *wanted, "{text}");
    }
    Ok(())
}

// What is answered to a text, with the simple roots 2413 and 3142.
fn told_with_roots(alloc: Global, text: &str) -> Result<Told, Fail> {
    let roots = words_of(alloc, "2413 3142")?;
    if are_roots(&roots) {
        Ok(told_of(alloc, text, &roots))
    } else {
        Ok(Told::Nothing)
    }
}

// With two simple roots, and with one of them left out.
static WITH_ROOTS: [(&str, Told); 2] = [
    (
        "basis 24153 25314 31524 35142 41352 42513 246135 362514 415263 531642
system 2 equations 3 terms 13
E0 C avoid 24153 25314 31524 35142 41352 42513 246135 362514 415263 531642 require none = 1 | 12[E1,E0] | 21[E2,E0] | 2413[E0,E0,E0,E0] | 3142[E0,E0,E0,E0]
E1 P avoid 24153 25314 31524 35142 41352 42513 246135 362514 415263 531642 require none = 1 | 21[E2,E0] | 2413[E0,E0,E0,E0] | 3142[E0,E0,E0,E0]
E2 M avoid 24153 25314 31524 35142 41352 42513 246135 362514 415263 531642 require none = 1 | 12[E1,E0] | 2413[E0,E0,E0,E0] | 3142[E0,E0,E0,E0]
end
",
        Told::Yes,
    ),
    (
        "basis 24153 25314 31524 35142 41352 42513 246135 362514 415263 531642
system 2 equations 3 terms 12
E0 C avoid 24153 25314 31524 35142 41352 42513 246135 362514 415263 531642 require none = 1 | 12[E1,E0] | 21[E2,E0] | 2413[E0,E0,E0,E0] | 3142[E0,E0,E0,E0]
E1 P avoid 24153 25314 31524 35142 41352 42513 246135 362514 415263 531642 require none = 1 | 21[E2,E0] | 2413[E0,E0,E0,E0]
E2 M avoid 24153 25314 31524 35142 41352 42513 246135 362514 415263 531642 require none = 1 | 12[E1,E0] | 2413[E0,E0,E0,E0] | 3142[E0,E0,E0,E0]
end
",
        Told::Cell(1, 3142, 0, Flaw::Lost),
    ),
];

#[test]
fn systems_with_simple_roots(rt: HostRuntime) -> Result<(), Fail> {
    for (text, wanted) in &WITH_ROOTS {
        assert_eq!(rt; told_with_roots(rt.alloc(), text)?, *wanted, "{text}");
    }
    Ok(())
}
