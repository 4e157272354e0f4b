// Claims that are checked, through whole runs.

use crate::Status;
use crate::tests::run_script;
use std::alloc::{AllocError, Global};
use std::test::Fail;

const HEADER: &[u8] = b"permspec 1\nbasis 132\nsimples 4:0 5:0\ngap 4\n";

// What equation 0 of a claim of the permutations that avoid 132 is, how many terms the claim says that there are, and the verdict.
static CLAIMS: [(&str, &str, &str); 9] = [
    (
        "avoid 132 require none = 1 | 12[E1,E2] | 21[E3,E0]",
        "10",
        "yes",
    ),
    (
        "avoid 132 require none = 1 | 21[E3,E0]",
        "9",
        "no E0 12 cell 0 lost",
    ),
    (
        "avoid 132 require none = 1 | 12[E1,E2]",
        "9",
        "no E0 21 cell 0 lost",
    ),
    (
        "avoid 132 require none = 1 | 12[E1,E2] | 12[E1,E2] | 21[E3,E0]",
        "11",
        "no E0 12 cell 0 twice",
    ),
    (
        "avoid 132 require none = 1 | 12[E1,E0] | 21[E3,E0]",
        "10",
        "no E0 12 cell 1 extra",
    ),
    (
        "avoid 132 require none = 12[E1,E2] | 21[E3,E0]",
        "9",
        "no E0 point",
    ),
    (
        "avoid 132 require none = 1 | 12[E0,E2] | 21[E3,E0]",
        "10",
        "no E0 12 root",
    ),
    (
        "avoid 132 require none = 1 | 12[E1,E2] | 21[E3,E0] | 2413[E0,E0,E0,E0]",
        "11",
        "no E0 2413 root",
    ),
    (
        "avoid 21 require none = 1 | 12[E1,E2] | 21[E3,E0]",
        "10",
        "no E0 name",
    ),
];

// The claim.
fn claim(alloc: Global, first: &str, terms: &str) -> Result<Vec<u8>, AllocError> {
    let mut text = Vec::from_slice(alloc, b"basis 132\nsystem 1 equations 5 terms ")?;
    text.extend_from_slice(terms.as_bytes())?;
    text.extend_from_slice(b"\nE0 C ")?;
    text.extend_from_slice(first.as_bytes())?;
    text.extend_from_slice(
        b"
E1 P avoid 132 require none = 1 | 21[E3,E0]
E2 C avoid 21 require none = 1 | 12[E4,E2]
E3 M avoid 132 require none = 1 | 12[E1,E2]
E4 P avoid 21 require none = 1
end
",
    )?;
    Ok(text)
}

// The text of a verdict on it.
fn judged(alloc: Global, verdict: &str) -> Result<Vec<u8>, AllocError> {
    let mut text = Vec::from_slice(alloc, HEADER)?;
    text.extend_from_slice(b"check ")?;
    text.extend_from_slice(verdict.as_bytes())?;
    text.extend_from_slice(b"\n")?;
    Ok(text)
}

#[test]
fn claims_are_judged(rt: HostRuntime) -> Result<(), Fail> {
    for (first, terms, verdict) in &CLAIMS {
        let ended = run_script(rt.alloc(), &["--check"], &claim(rt.alloc(), first, terms)?)?;
        let wanted = judged(rt.alloc(), verdict)?;
        assert!(rt; ended.status == Status::Done, "{first}");
        assert!(rt; ended.held.as_slice() == wanted.as_slice(), "{first}");
    }
    Ok(())
}

// The number of the line `end`, and of the first line that isn't as demanded before it.
static NO_CLAIMS: [(&str, &str); 12] = [
    ("", "fault 0 13\n"),
    ("permspec 1\n", "fault 0 13\n"),
    ("basis 132\n", "fault 0 13\n"),
    ("basis 132\ncount 7\n", "fault 2 13\n"),
    ("basis 122\n", "fault 1 13\n"),
    ("basis  132\n", "fault 1 13\n"),
    ("basis 1,3,2\n", "fault 1 13\n"),
    ("permspec 1\npermspec 1\n", "fault 2 13\n"),
    ("require 21\nbasis 132\n", "fault 1 13\n"),
    ("basis 132\nsystem 3 equations 1 terms 0\n", "fault 2 13\n"),
    (
        "basis 1\nsystem 2 equations 1 terms 0\nE0 C avoid 1 require none = none\n",
        "fault 0 13\n",
    ),
    (
        "basis 1\nsystem 2 equations 1 terms 1\nE0 C avoid 1 require none = none\nend\n",
        "fault 4 13\n",
    ),
];

#[test]
fn the_first_fault_of_a_claim_is_answered(rt: HostRuntime) -> Result<(), Fail> {
    for (text, line) in &NO_CLAIMS {
        let ended = run_script(rt.alloc(), &["--check"], text.as_bytes())?;
        assert!(rt; ended.status == Status::Refused, "{text}");
        assert!(rt; ended.held.as_slice() == line.as_bytes(), "{text}");
    }
    Ok(())
}

// Every simple permutation up to length 8 avoids no word of an empty list.
#[test]
fn a_claim_of_a_class_that_is_not_settled(rt: HostRuntime) -> Result<(), Fail> {
    let text =
        b"basis none\nrequire none\nsystem 1 equations 1 terms 0\nE0 C avoid none require none = none\nend\n";
    let ended = run_script(rt.alloc(), &["--check", "--max-simple=5"], text)?;
    assert!(rt; ended.status == Status::Unsettled);
    assert!(rt;
        ended.held.as_slice()
            == b"permspec 1\nbasis none\nrequire none\nsimples 4:2 5:6\nunsettled 5\n".as_slice()
    );
    Ok(())
}
