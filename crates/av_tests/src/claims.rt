// Texts that are claims, and texts that aren't.
use crate::verdicts::claim_of_132;
use av_check::{ClaimError, read_claim};
use av_text::{Kind, read_word};
use std::alloc::Global;
use std::test::Fail;

/// What a text is.
#[derive(Clone, Copy, Debug, PartialEq, Eq)]
enum Outcome {
    Claim,
    Fault(u32),
    TooLong,
    Other,
}

fn outcome_of(alloc: Global, bytes: &[u8]) -> Outcome {
    match read_claim(alloc, bytes) {
        Ok(_claim) => Outcome::Claim,
        Err(
            ClaimError::Refused {
                line,
                kind: Kind::BadClaim,
            },
        ) => Outcome::Fault(line),
        Err(
            ClaimError::Refused {
                line: 0,
                kind: Kind::TooLong,
            },
        ) => Outcome::TooLong,
        Err(_) => Outcome::Other,
    }
}

/// An output of an example as far as the line after its system, and other claims.
static ACCEPTED: [&str; 10] = [
    "permspec 1
union 231 312 with 132 213
basis 1342 1423 2314 2413 2431 3124 3142 3241 4132 4213
simples 4:0 5:0
gap 4
system 2 equations 9 terms 19
E0 C avoid 1342 1423 2314 2413 2431 3124 3142 3241 4132 4213 require none = 1 | 12[E1,E2] | 21[E3,E4]
E1 P avoid 231 312 require none = 1 | 21[E5,E6]
E2 C avoid 231 312 require none = 1 | 12[E1,E2] | 21[E5,E6]
E3 M avoid 132 213 require none = 1 | 12[E7,E8]
E4 C avoid 132 213 require none = 1 | 12[E7,E8] | 21[E3,E4]
E5 M avoid 12 require none = 1
E6 C avoid 12 require none = 1 | 21[E5,E6]
E7 P avoid 21 require none = 1
E8 C avoid 21 require none = 1 | 12[E7,E8]
end
counts 4 = 1 2 6 14
",
    // Nothing beside what has to be there, and no line feed at the end.
    "basis 21\nsystem 1 equations 1 terms 1\nE0 C avoid 21 require none = 1\nend",
    // One carriage return at the end of a line is dropped.
    "permspec 1\r\nbasis 21\r\nsystem 1 equations 1 terms 1\r\nE0 C avoid 21 require none = 1\r\nend\r",
    // Each line that may stand before others may stand there alone.
    "union \nbasis none\nsystem 1 equations 1 terms 0\nE0 C avoid none require none = none\nend\n",
    "basis none\nrequire none\nsystem 1 equations 1 terms 0\nE0 C avoid none require none = none\nend\n",
    "basis none\nsimples \nsystem 1 equations 1 terms 0\nE0 C avoid none require none = none\nend\n",
    "basis none\ngap \nsystem 1 equations 1 terms 0\nE0 C avoid none require none = none\nend\n",
    // Words and roots that are as long as they may be, in any order and more than once.
    "basis 12,11,10,9,8,7,6,5,4,3,2,1 1 1\nsystem 2 equations 1 terms 1\nE0 M avoid 1 21 1 require 1,2,3,4,5,6,7,8,9,10,11,12 = (2,4,6,8,10,1,3,5,7,9)[E0,E0,E0,E0,E0,E0,E0,E0,E0,E0]\nend\n",
    "basis 21\nsystem 2 equations 2 terms 3\nE0 P avoid none require none = 1 | 1 | 2413[E1,E0,E1,E1]\nE1 P avoid none require none = none\nend\n",
    // Whatever follows the end.
    "basis 21\nsystem 1 equations 1 terms 1\nE0 C avoid 21 require none = 1\nend\nend\n\n \nbasis 1\n\u{e4}",
];

/// Texts that are no claims, each with the first line that isn't as demanded in its place.
static REFUSED: [(&str, u32); 62] = [
    // The text ends before the claim does.
    ("", 0),
    ("permspec 1\n", 0),
    ("basis 21\nrequire 1", 0),
    ("basis 21\nsimples 4:0\ngap 4\n", 0),
    ("basis 21\nsystem 1 equations 65536 terms 0\n", 0),
    (
        "basis 21\nsystem 1 equations 1 terms 1\nE0 C avoid 21 require none = 1\n",
        0,
    ),
    // The first lines.
    ("\n", 1),
    (" permspec 1\n", 1),
    ("permspec 2\n", 1),
    ("permspec 1\r\r\n", 1),
    ("permspec 1\npermspec 1\n", 2),
    ("union\n", 1),
    ("union 1\npermspec 1\n", 2),
    ("union 1\nunion 1\n", 2),
    ("require 21\n", 1),
    ("simples 4:0\n", 1),
    ("system 1 equations 1 terms 1\n", 1),
    ("end\n", 1),
    // Lists of words.
    ("basis\n", 1),
    ("basis \n", 1),
    ("Basis 21\n", 1),
    ("basis\t21\n", 1),
    ("basis  21\n", 1),
    ("basis 21 \n", 1),
    ("basis 21 none\n", 1),
    ("basis 213 2,1\n", 1),
    ("basis 0\n", 1),
    ("basis 1224\n", 1),
    ("basis 1234567890\n", 1),
    ("basis 01,2,3,4,5,6,7,8,9,10\n", 1),
    ("basis 1,2,3,4,5,6,7,8,9,10,11,12,13\n", 1),
    ("basis (1,2,3,4,5,6,7,8,9,10)\n", 1),
    (
        "basis 1 1 1 1 1 1 1 1 1 1 1 1 1 1 1 1 1 1 1 1 1 1 1 1 1 1 1 1 1 1 1 1 1 1 1 1 1 1 1 1 1 1 1 1 1 1 1 1 1 1 1 1 1 1 1 1 1 1 1 1 1 1 1 1 1\n",
        1,
    ),
    // Lines twice, missing or in another order.
    ("basis 21\nbasis 21\n", 2),
    ("basis 21\npermspec 1\n", 2),
    ("basis 21\nrequire 21\nrequire 21\n", 3),
    ("basis 21\nrequire \n", 2),
    ("basis 21\nsimples\n", 2),
    ("basis 21\nsimples 4:0\nrequire 21\n", 3),
    ("basis 21\ngap 4\nsimples 4:0\n", 3),
    ("basis 21\ngap 4\ngap 4\n", 3),
    ("basis 21\nunsettled 8\n", 2),
    ("basis 21\n\n", 2),
    ("basis 21\nE0 C avoid 21 require none = 1\n", 2),
    (
        "basis 21\nsystem 1 equations 2 terms 2\nE1 C avoid 21 require none = 1\n",
        3,
    ),
    (
        "basis 21\nsystem 1 equations 2 terms 2\nE0 C avoid 21 require none = 1\nE0 C avoid 21 require none = 1\n",
        4,
    ),
    (
        "basis 21\nsystem 1 equations 2 terms 2\nE0 C avoid 21 require none = 1\nend\n",
        4,
    ),
    (
        "basis 21\nsystem 1 equations 1 terms 1\nE0 C avoid 21 require none = 1\nE1 C avoid 21 require none = 1\nend\n",
        4,
    ),
    // The numbers of equations and terms.
    ("basis 21\nsystem 0 equations 1 terms 1\n", 2),
    ("basis 21\nsystem 3 equations 1 terms 1\n", 2),
    ("basis 21\nsystem 1 equations 0 terms 1\n", 2),
    ("basis 21\nsystem 1 equations 70000 terms 0\n", 2),
    ("basis 21\nsystem 1 equations 65536 terms 1\n", 2),
    (
        "basis 21\nsystem 1 equations 1 terms 99999999999999999999999999999999999999999\n",
        2,
    ),
    ("basis 21\nsystem 1 equations 01 terms 1\n", 2),
    ("basis 21\nsystem 1 equations 1 terms 1 \n", 2),
    ("basis 21\nsystem 1 terms 1 equations 1\n", 2),
    // The end.
    (
        "basis 21\nsystem 1 equations 1 terms 1\nE0 C avoid 21 require none = 1\nEnd\n",
        4,
    ),
    (
        "basis 21\nsystem 1 equations 1 terms 1\nE0 C avoid 21 require none = 1\nend \n",
        4,
    ),
    (
        "basis 21\nsystem 1 equations 1 terms 1\nE0 C avoid 21 require none = 1\n\nend\n",
        4,
    ),
    (
        "basis 21\nsystem 1 equations 1 terms 2\nE0 C avoid 21 require none = 1\nend\n",
        4,
    ),
    (
        "basis 21\nsystem 1 equations 1 terms 0\nE0 C avoid 21 require none = 1\nend\n",
        4,
    ),
];

/// Lines that are no equation of a system of one.
static NO_EQUATIONS: [&str; 37] = [
    // They aren't as equations are written.
    "E0 Q avoid 21 require none = 1",
    "E00 C avoid 21 require none = 1",
    "0 C avoid 21 require none = 1",
    "E0 avoid 21 require none = 1",
    "E0 C avoid 21 = 1",
    "E0 C require none avoid 21 = 1",
    "E0 C avoid 2,1 require none = 1",
    "E0 C avoid  require none = 1",
    "E0 C avoid 21 require 122 = 1",
    "E0 C avoid 21 require 1,2,3,4,5,6,7,8,9,10,11,12,13 = 1",
    "E0 C avoid 1,2,3,4,5,6,7,8,9,10,11,12,13 require none = 1",
    "E0 C avoid 21 require none",
    "E0 C avoid 21 require none = ",
    "E0 C avoid 21 require none =  1",
    "E0 C avoid 21 require none = 1 |",
    "E0 C avoid 21 require none = 1 | none",
    "E0 C avoid 21 require none = 1|1",
    "E0 C avoid 21 require none = 1 1",
    // Their terms are none of the system.
    "E0 C avoid 21 require none = 12[E0,E1]",
    "E0 C avoid 21 require none = 12[E0,E4294967296]",
    "E0 C avoid 21 require none = 12[E0,E00]",
    "E0 C avoid 21 require none = 12[E0]",
    "E0 C avoid 21 require none = 12[E0,E0,E0]",
    "E0 C avoid 21 require none = 12[E0,]",
    "E0 C avoid 21 require none = 12",
    "E0 C avoid 21 require none = 12[E0,E0",
    "E0 C avoid 21 require none = 12[[E0,E0]",
    "E0 C avoid 21 require none = 12[E0,E0]]",
    "E0 C avoid 21 require none = 1,2[E0,E0]",
    "E0 C avoid 21 require none = (12)[E0,E0]",
    "E0 C avoid 21 require none = 1[E0]",
    "E0 C avoid 21 require none = 2",
    "E0 C avoid 21 require none = 11[E0,E0]",
    "E0 C avoid 21 require none = 132[E0,E0,E0]",
    "E0 C avoid 21 require none = 2,4,6,8,10,1,3,5,7,9[E0,E0,E0,E0,E0,E0,E0,E0,E0,E0]",
    "E0 C avoid 21 require none = (1,2,3,4,5,6,7,8,9,10)[E0,E0,E0,E0,E0,E0,E0,E0,E0,E0]",
    "E0 C avoid 21 require none = (2,4,6,8,10,1,3,5,11,7,9)[E0,E0,E0,E0,E0,E0,E0,E0,E0,E0,E0]",
];

#[test]
fn texts_that_are_claims(rt: HostRuntime) -> Result<(), Fail> {
    for text in &ACCEPTED {
        assert_eq!(rt;
            outcome_of(rt.alloc(), text.as_bytes()),
            Outcome::Claim,
            "{text}"
        );
    }
    Ok(())
}

#[test]
fn the_first_line_that_is_not_as_demanded(rt: HostRuntime) -> Result<(), Fail> {
    for (text, line) in &REFUSED {
        let wanted = Outcome::Fault(*line);
        assert_eq!(rt; outcome_of(rt.alloc(), text.as_bytes()), wanted, "{text}");
    }
    for line in &NO_EQUATIONS {
        let text = format!(in rt.alloc(); "basis 21\nsystem 1 equations 1 terms 1\n{line}\nend\n")?;
        assert_eq!(rt;
            outcome_of(rt.alloc(), text.as_bytes()),
            Outcome::Fault(3),
            "{line}"
        );
    }
    Ok(())
}

// A claim with five equations.
fn catalan(alloc: Global) -> Result<String, Fail> {
    claim_of_132(alloc, 10, "1 | 12[E1,E2] | 21[E3,E0]")
}

// The lines that first bytes of its lines are, but for the lines that are passed over.
static GOOD_FRONTS: [&[u8]; 11] = [
    b"basis 1",
    b"system 2 equations 5 terms 1",
    b"E0 C avoid 132 require none = 1",
    b"E0 C avoid 132 require none = 1 | 1",
    b"E0 C avoid 132 require none = 1 | 12[E1,E2]",
    b"E1 P avoid 132 require none = 1",
    b"E2 C avoid 21 require none = 1",
    b"E2 C avoid 21 require none = 1 | 1",
    b"E3 M avoid 132 require none = 1",
    b"E3 M avoid 132 require none = 1 | 1",
    b"end",
];

// Whether the first bytes of a line are as demanded in its place.
fn is_good_front(line: &[u8]) -> bool {
    line.starts_with(b"simples ")
        || line.starts_with(b"gap ")
        || GOOD_FRONTS.iter().any(|front| *front == line)
}

// What the first bytes of the claim are, of which this line, with this number, is the last one, where this byte comes next.
fn front_of(line: &[u8], number: u32, next: u8) -> Outcome {
    if line == b"end".as_slice() {
        Outcome::Claim
    } else if line.is_empty() || next == b'\n' || is_good_front(line) {
        Outcome::Fault(0)
    } else {
        Outcome::Fault(number)
    }
}

#[test]
fn a_claim_that_is_cut_short(rt: HostRuntime) -> Result<(), Fail> {
    let text = catalan(rt.alloc())?;
    let claim = text.as_bytes();
    let mut start = 0;
    let mut number: u32 = 1;
    for (end, byte) in claim.iter().enumerate() {
        let line = claim.get(start..end).expect(&rt, "a line");
        let front = claim.get(..end).expect(&rt, "a front");
        let wanted = front_of(line, number, *byte);
        assert_eq!(rt; outcome_of(rt.alloc(), front), wanted, "{end}");
        if *byte == b'\n' {
            start = end.saturating_add(1);
            number = number.saturating_add(1);
        }
    }
    assert_eq!(rt; outcome_of(rt.alloc(), claim), Outcome::Claim);
    Ok(())
}

// A claim with this byte in each line that is passed over.
fn text_with(alloc: Global, byte: u8) -> Result<Vec<u8>, Fail> {
    let mut text = Vec::from_slice(alloc, b"union ")?;
    text.push(byte)?;
    text.extend_from_slice(b"\nbasis 21\nsimples ")?;
    text.push(byte)?;
    text.extend_from_slice(b" \ngap ")?;
    text.push(byte)?;
    text.extend_from_slice(
        b"\nsystem 1 equations 1 terms 1\nE0 C avoid 21 require none = 1\nend\n",
    )?;
    text.push(byte)?;
    Ok(text)
}

#[test]
fn lines_that_are_passed_over_hold_any_bytes(rt: HostRuntime) -> Result<(), Fail> {
    for byte in 0..=255u8 {
        let wanted = if byte == b'\n' {
            Outcome::Fault(2)
        } else {
            Outcome::Claim
        };
        let text = text_with(rt.alloc(), byte)?;
        assert_eq!(rt; outcome_of(rt.alloc(), &text), wanted, "{byte}");
    }
    Ok(())
}

#[test]
fn a_claim_is_as_long_as_it_may_be(rt: HostRuntime) -> Result<(), Fail> {
    let mut text = Vec::from_slice(rt.alloc(), catalan(rt.alloc())?.as_bytes())?;
    let left = 1_048_576usize.saturating_sub(text.len());
    text.extend_from_slice(&vec![in rt.alloc(); b'\n'; left]?)?;
    assert_eq!(rt; outcome_of(rt.alloc(), &text), Outcome::Claim);
    text.push(b'\n')?;
    assert_eq!(rt; outcome_of(rt.alloc(), &text), Outcome::TooLong);
    Ok(())
}

// A claim of one equation with so many terms.
fn text_of_terms(alloc: Global, terms: usize) -> Result<Vec<u8>, Fail> {
    let mut text = Vec::from_slice(alloc, b"basis 21\nsystem 1 equations 1 terms ")?;
    text.extend_from_slice(format!(in alloc; "{terms}")?.as_bytes())?;
    text.extend_from_slice(b"\nE0 C avoid 21 require none = 1")?;
    for _ in 1..terms {
        text.extend_from_slice(b" | 1")?;
    }
    text.extend_from_slice(b"\nend\n")?;
    Ok(text)
}

#[test]
fn a_system_is_as_large_as_it_may_be(rt: HostRuntime) -> Result<(), Fail> {
    let most = text_of_terms(rt.alloc(), 65_535)?;
    assert_eq!(rt; outcome_of(rt.alloc(), &most), Outcome::Claim);
    let more = text_of_terms(rt.alloc(), 65_536)?;
    assert_eq!(rt; outcome_of(rt.alloc(), &more), Outcome::Fault(2));
    Ok(())
}

/// Words that are read up to a length, and what keeps others from being read.
static TOKENS: [(&str, usize, Result<usize, Kind>); 12] = [
    ("1", 1, Ok(1)),
    ("213", 3, Ok(3)),
    ("2,1,3", 3, Ok(3)),
    ("1,2,3,4,5,6,7,8,9,10,11,12", 12, Ok(12)),
    ("213", 2, Err(Kind::LongWord)),
    ("1,2,3,4,5,6,7,8,9,10,11,12,13", 12, Err(Kind::LongWord)),
    ("111", 2, Err(Kind::LongWord)),
    ("", 12, Err(Kind::BadWord)),
    ("212", 12, Err(Kind::BadWord)),
    ("2,01", 12, Err(Kind::BadWord)),
    ("2,1,", 12, Err(Kind::BadWord)),
    ("(21)", 12, Err(Kind::BadWord)),
];

#[test]
fn words_up_to_a_length(rt: HostRuntime) -> Result<(), Fail> {
    for (token, most, wanted) in &TOKENS {
        let found = read_word(token.as_bytes(), (*most).min(12)).map(|word| word.len());
        assert_eq!(rt; found, *wanted, "{token}");
    }
    Ok(())
}
