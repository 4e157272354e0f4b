// Claims.
ghost use Rattle.std.specs.Prelude.{◌≡◌, ◌↔◌, ◌<◌, ◌≤◌, ◌+◌, ◌-◌, ◌^◌, not, ◌==◌, [], ◌∷◌, ◌++◌, length, map, codes, IfOk, IsTrue};
ghost use Rattle.std.specs.List.{list_all};
ghost use Rattle.av_text.specs.Lines.{script_lines};
ghost use Rattle.av_print.specs.Text.{words_text};
ghost use Rattle.av_print.specs.Systems.{terms_count};
ghost use Rattle.av_check.specs.Claims.{TellsWords, TellsCounts, GivesClaim};
ghost use Rattle.av_check.specs.Reading.{Reads, list_tokens, IsFewPatterns, FirstIs, TakesLine, TellsEquation, TellsTheseCounts, ReadsEquations, ReadsFirst, ReadsCounts, ReadsSystem, ReadsClaim};

use crate::claim::Claim;
use crate::limits::MAX_CLAIM_BYTES;
use crate::reading::announced::{Counts, counts_of};
use crate::reading::equations::equation_of;
use crate::reading::lines::{is_next, pass_known, pass_over};
use crate::reading::pieces::{cut_at, is};
use crate::reading::words::words_of;
use av_perm::{Memory, Words};
use av_print::terms_count;
use av_sys::{Equation, Equations, System};
use av_text::{Kind, Lines, MAX_PATTERNS, count_lines};
use std::alloc::Global;

/// Why a claim isn't read.
#[derive(Clone, Copy, Debug, PartialEq, Eq, thiserror::Error)]
pub enum ClaimError {
    /// Memory is wanting.
    #[error("memory is wanting")]
    Memory,
    /// The text isn't a claim.
    #[error("line {line}: {kind}")]
    Refused {
        /// The first line that isn't as demanded in its place, counted from 1, or 0 where the text ends before the claim does, or
        /// is too long.
        line: u32,
        /// `TooLong` where the text has too many bytes, else `BadClaim`.
        kind: Kind,
    },
}

/// Why reading stops.
#[derive(Clone, Copy)]
enum Stop {
    /// Memory is wanting.
    Memory,
    /// The next line isn't as demanded in its place, or there is none.
    Here,
}

impl From<Memory> for Stop {
    ghost use Rattle.av_check.specs.declared.reading.claims.Stop.TheVariants.{Memory};

    ghost from_gives = { λ _ stop. stop ≡ Memory };

    fn from(_error: Memory) -> Stop {
        Stop::Memory
    }
}

/// The list of words whose text has these tokens, if it has 64 words at most.
fn few_words(alloc: Global, tokens: &[&[u8]]) -> Result<Option<Words>, Memory>
    ensures { IfOk result (Reads IsFewPatterns list_tokens (map (λ t. t.now) tokens.now)) }
{
    if tokens.len() <= MAX_PATTERNS {
        words_of(alloc, tokens)
    } else {
        Ok(None)
    }
}

/// The same after this key.
fn keyed_words(alloc: Global, key: &[u8], tokens: &[&[u8]]) -> Result<Option<Words>, Memory>
    ensures { IfOk result (Reads IsFewPatterns (λ ws. key.now ∷ list_tokens ws) (map (λ t. t.now) tokens.now)) }
{
    let [first, others @ ..] = tokens else {
        return Ok(None);
    };
    if is(first, key) {
        few_words(alloc, others)
    } else {
        Ok(None)
    }
}

/// The words of a line of this key.
fn told_words(alloc: Global, key: &[u8], line: &[u8]) -> Result<Option<Words>, Memory>
    requires { IsTrue (list_all (λ b. not (b == 32)) key.now) }
    ensures { IfOk result (Reads IsFewPatterns (λ ws. key.now ++ (codes " " ++ (words_text ws ++ codes "\n"))) (line.now ++ codes "\n")) }
{
    let tokens = cut_at(alloc, line, b' ')?;
    keyed_words(alloc, key, &tokens)
}

/// The words of the next line, which is passed, or none where it isn't one of this key.
fn words_line(alloc: Global, lines: &mut Lines, key: &[u8]) -> Result<Option<Words>, Memory>
    requires { IsTrue (list_all (λ b. not (b == 32)) key.now) }
    ensures { IfOk result (TakesLine (TellsWords key.now) lines.old lines.new) }
{
    let Some(line) = lines.first() else {
        return Ok(None);
    };
    let Some(words) = told_words(alloc, key, line)? else {
        return Ok(None);
    };
    lines.pass();
    Ok(Some(words))
}

/// The counts of the next line, which is passed, or none where it doesn't tell any.
fn counts_line(alloc: Global, lines: &mut Lines) -> Result<Option<Counts>, Memory>
    ensures { IfOk result (TakesLine TellsTheseCounts lines.old lines.new) }
{
    let Some(line) = lines.first() else {
        return Ok(None);
    };
    let Some(counts) = counts_of(alloc, line)? else {
        return Ok(None);
    };
    lines.pass();
    Ok(Some(counts))
}

/// Equation `number` of a system of so many from the next line, which is passed, or none where it isn't the line of such an
/// equation.
fn equation_line(
    alloc: Global,
    lines: &mut Lines,
    number: u32,
    count: u32,
) -> Result<Option<Equation>, Memory>
    requires { number < count }
    ensures { IfOk result (TakesLine (TellsEquation count number) lines.old lines.new) }
{
    let Some(line) = lines.first() else {
        return Ok(None);
    };
    let Some(equation) = equation_of(alloc, line, number, count)? else {
        return Ok(None);
    };
    lines.pass();
    Ok(Some(equation))
}

/// The equations of a system of so many.
fn told_equations(alloc: Global, lines: &mut Lines, count: u32) -> Result<Equations, Stop>
    ensures { ReadsEquations count lines.old lines.new result }
{
    let mut equations = Equations::empty(alloc);
    for number in 0..count {
        let Some(equation) = equation_line(alloc, lines, number, count)? else {
            return Err(Stop::Here);
        };
        equations.push(equation)?;
    }
    Ok(equations)
}

/// What the first lines of a claim tell.
#[derive(Drop)]
struct Front {
    basis: Words,
    require: Option<Words>,
}

/// The first lines of a claim: the basis and the required words.
fn told_front(alloc: Global, lines: &mut Lines) -> Result<Front, Stop>
    ensures { ReadsFirst lines.old lines.new result }
{
    pass_known(lines, b"permspec 1");
    pass_over(lines, b"union ");
    let Some(basis) = words_line(alloc, lines, b"basis")? else {
        return Err(Stop::Here);
    };
    let require = words_line(alloc, lines, b"require")?;
    Ok(Front { basis, require })
}

/// The lines before the equations of a system: their number, and that of their terms.
fn told_counts(alloc: Global, lines: &mut Lines) -> Result<Counts, Stop>
    ensures { ReadsCounts lines.old lines.new result }
{
    pass_over(lines, b"simples ");
    pass_over(lines, b"gap ");
    match counts_line(alloc, lines)? {
        Some(counts) => Ok(counts),
        None => Err(Stop::Here),
    }
}

/// Whether the next line ends a claim whose equations have so many terms.
fn is_at_end(lines: &Lines, equations: &Equations, terms: u32) -> bool
    ensures { IsTrue result ↔ ((terms ≡ terms_count equations.now) × FirstIs (λ line. line ≡ codes "end") lines.now) }
{
    terms_count(equations) == terms as u128 && is_next(lines, b"end")
}

/// The system of a claim, whose line `end` comes next.
fn told_system(alloc: Global, lines: &mut Lines) -> Result<System, Stop>
    ensures { ReadsSystem lines.old lines.new result }
{
    let counts = told_counts(alloc, lines)?;
    let equations = told_equations(alloc, lines, counts.equations)?;
    if is_at_end(lines, &equations, counts.terms) {
        Ok(System { equations })
    } else {
        Err(Stop::Here)
    }
}

/// The claim that the lines begin with.
fn told_claim(alloc: Global, lines: &mut Lines) -> Result<Claim, Stop>
    ensures { ReadsClaim lines.old lines.new result }
{
    let Front { basis, require } = told_front(alloc, lines)?;
    let system = told_system(alloc, lines)?;
    Ok(Claim {
        basis,
        require,
        system,
    })
}

/// The number of the first of the lines that are left of a text, counted from 1, or 0 where none is left.
fn line_number(all: usize, left: usize) -> u32
    requires within { left ≤ all }
    requires few { all + 1 < 2 ^ 32 }
    ensures none { left ≡ 0 → result ≡ 0 }
    ensures some { 0 < left → result ≡ all - left + 1 }
{
    if left == 0 {
        0
    } else {
        (all - left + 1) as u32
    }
}

/// The claim that a text is: its basis and its required words as they are written, neither sorted nor reduced, and its system.
///
/// A claim is a text of at most 1,048,576 bytes. Its lines are cut as those of a script: they end at line feeds, the last one also
/// at the end of the text, and one carriage return at the end of a line is dropped. They are in this order:
///
/// 1. optionally `permspec 1`; then optionally a line that begins with `union `, which is passed over;
/// 2. `basis ` and a list of 0 to 64 words; then optionally `require ` and such a list;
/// 3. optionally a line that begins with `simples `, then optionally one that begins with `gap `, both passed over;
/// 4. `system V equations X terms Y`, for V 1 or 2, X at least 1, and X and Y together at most 65,536;
/// 5. X equations in order of number, which make a well-formed system;
/// 6. `end`, which is as demanded only where the equations have Y terms. What follows is passed over.
///
/// All words have at most 12 entries, and each line that isn't passed over is spelt exactly as [`av_print`] writes it. So what a run
/// writes for a settled class is a claim, if it isn't too long.
///
/// `Refused` comes exactly where the text is no claim: with line 0 and `TooLong` where it has more bytes, else with `BadClaim` and the
/// first line that isn't as demanded in its place, or 0 where the text ends before the claim does. `Memory` comes only for want of
/// memory.
pub fn read_claim(alloc: Global, bytes: &[u8]) -> Result<Claim, ClaimError>
    ensures { GivesClaim bytes.now result }
{
    if bytes.len() > MAX_CLAIM_BYTES {
        return Err(ClaimError::Refused {
            line: 0,
            kind: Kind::TooLong,
        });
    }
    let mut lines = Lines::new(bytes);
    match told_claim(alloc, &mut lines) {
        Ok(claim) => Ok(claim),
        Err(Stop::Memory) => Err(ClaimError::Memory),
        Err(Stop::Here) => Err(ClaimError::Refused {
            line: line_number(count_lines(bytes), lines.len()),
            kind: Kind::BadClaim,
        }),
    }
}
