// Counts of classes of the literature to length 40, against the recurrences of their numbers.
use crate::Status;
use crate::tests::run_script;
use std::alloc::{AllocError, Global};
use std::test::Fail;

const LARGEST: u64 = 40;

// The Catalan numbers: the next is that of n times 4n + 2, by n + 2.
fn catalan_numbers(alloc: Global) -> Result<Vec<u128>, AllocError> {
    let mut numbers = Vec::new(alloc);
    let mut number: u128 = 1;
    for length in 1..LARGEST + 1 {
        numbers.push(number)?;
        let n = u128::from(length);
        number = number.saturating_mul(4 * n + 2) / (n + 2);
    }
    Ok(numbers)
}

// The large Schröder numbers: n + 1 times the next is 6n - 3 times that of n, less n - 2 times the one before.
fn large_schroeder_numbers(alloc: Global) -> Result<Vec<u128>, AllocError> {
    let mut numbers = Vec::new(alloc);
    numbers.push(1)?;
    let mut before: u128 = 1;
    let mut number: u128 = 2;
    for length in 2..LARGEST + 1 {
        numbers.push(number)?;
        let n = u128::from(length);
        let larger = number.saturating_mul(6 * n - 3);
        let next = larger.saturating_sub(before.saturating_mul(n - 2)) / (n + 1);
        before = number;
        number = next;
    }
    Ok(numbers)
}

// The powers of 2.
fn powers_of_two(alloc: Global) -> Result<Vec<u128>, AllocError> {
    let mut numbers = Vec::new(alloc);
    let mut number: u128 = 1;
    for _length in 0..LARGEST {
        numbers.push(number)?;
        number = number.saturating_mul(2);
    }
    Ok(numbers)
}

// The answer of `counts 40` with these numbers.
fn counts_line(alloc: Global, numbers: &[u128]) -> Result<Vec<u8>, AllocError> {
    let mut line = Vec::from_slice(alloc, b"\ncounts 40 =")?;
    for number in numbers {
        line.extend_from_slice(format!(in alloc; " {number}")?.as_bytes())?;
    }
    line.extend_from_slice(b"\n")?;
    Ok(line)
}

// Whether the counts of the class of a script are these numbers.
fn has_counts(alloc: Global, script: &[u8], numbers: &[u128]) -> Result<bool, AllocError> {
    let ended = run_script(alloc, &[], script)?;
    let line = counts_line(alloc, numbers)?;
    Ok(ended.status == Status::Done && ended.held.ends_with(line.as_slice()))
}

#[test]
fn counts_are_those_of_recurrences(rt: HostRuntime) -> Result<(), Fail> {
    let alloc = rt.alloc();
    let catalan = catalan_numbers(alloc)?;
    assert!(rt; has_counts(alloc, b"basis 132\ncounts 40\n", &catalan)?);
    let schroeder = large_schroeder_numbers(alloc)?;
    assert!(rt; has_counts(alloc, b"basis 2413 3142\ncounts 40\n", &schroeder)?);
    let powers = powers_of_two(alloc)?;
    assert!(rt; has_counts(alloc, b"basis 123 132\ncounts 40\n", &powers)?);
    Ok(())
}
