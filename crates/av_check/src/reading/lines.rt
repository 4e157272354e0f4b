// What the next line of a claim is.
ghost use Rattle.std.specs.Prelude.{◌≡◌, ◌↔◌, IsTrue};
ghost use Rattle.av_check.specs.Claims.{BeginsWith};
ghost use Rattle.av_check.specs.Reading.{FirstIs, Passes};

use crate::reading::pieces::{after, is};
use av_text::Lines;

/// Whether the next line is this one.
pub fn is_next(lines: &Lines, known: &[u8]) -> bool
    ensures { IsTrue result ↔ FirstIs (λ line. line ≡ known.now) lines.now }
{
    match lines.first() {
        Some(line) => is(line, known),
        None => false,
    }
}

/// Whether the next line begins so.
fn begins_next(lines: &Lines, front: &[u8]) -> bool
    ensures { IsTrue result ↔ FirstIs (BeginsWith front.now) lines.now }
{
    match lines.first() {
        Some(line) => after(line, front).is_some(),
        None => false,
    }
}

/// Passes the next line where it is this one.
pub fn pass_known(lines: &mut Lines, known: &[u8])
    ensures { Passes (λ line. line ≡ known.now) lines.old lines.new }
{
    if is_next(lines, known) {
        lines.pass();
    }
}

/// Passes the next line where it begins so.
pub fn pass_over(lines: &mut Lines, front: &[u8])
    ensures { Passes (BeginsWith front.now) lines.old lines.new }
{
    if begins_next(lines, front) {
        lines.pass();
    }
}
