// The search by length.
ghost use Rattle.std.specs.Prelude.{◌≡◌, ◌-◌, ◌≤◌, ◌↔◌, IfOk, true};
ghost use Rattle.av_perm.specs.Gap.{simples};
ghost use Rattle.av_simple.specs.Searched.{Searched, EndsEmpty, levels_to};

use crate::extension::extend_level;
use crate::found::Found;
use crate::level::level;
use crate::limits::LEAST_LIMIT;
use crate::outcome::Outcome;
use av_perm::{MAX_ROOT_LENGTH, Memory, Words};
use std::alloc::Global;

/// Searches the simple words of a class from length 4 on, until two lengths in turn have none or the limit is reached,
/// which is from `LEAST_LIMIT` to `MAX_ROOT_LENGTH`.
pub fn search(alloc: Global, basis: &Words, limit: usize) -> Result<Found, Memory>
    requires low { LEAST_LIMIT ≤ limit }
    requires high { limit ≤ MAX_ROOT_LENGTH }
    ensures { IfOk result (λ found. found ≡ record { basis = basis.now; limit = limit }) }
{
    let kept = basis.copy(alloc)?;
    let mut levels = Vec::new(alloc);
    for m in 4..limit + 1 {
        let words = next_level(alloc, basis, &levels, m)?;
        if levels.push(words).is_err() {
            return Err(Memory);
        }
        if ends_empty(&levels) {
            return Ok(Found::new(kept, limit, levels, Outcome::Gap(m - 1)));
        }
    }
    Ok(Found::new(kept, limit, levels, Outcome::Unsettled))
}

// The simple words of length m of the class, where those of the lengths from 4 to m - 1 are known. From length 6 on they come
// from the two levels below, unless a filter has fewer words to go through.
fn next_level(alloc: Global, basis: &Words, levels: &[Words], m: usize) -> Result<Words, Memory>
    requires low { 4 ≤ m }
    requires high { m ≤ MAX_ROOT_LENGTH }
    requires levels { levels.now ≡ levels_to basis.now (m - 1) }
    ensures { IfOk result (λ words. words ≡ simples basis.now m) }
{
    if m < 6 {
        return level(alloc, basis, m);
    }
    let two_below = &levels[m - 6];
    let one_below = &levels[m - 5];
    if is_filter_shorter(two_below.len(), one_below.len(), m) {
        return level(alloc, basis, m);
    }
    extend_level(alloc, two_below, one_below, basis, m)
}

// Whether there are fewer words of length m than an extension of lists of these lengths goes through. Either finds the same.
fn is_filter_shorter(two_below: usize, one_below: usize, m: usize) -> bool
    requires low { 6 ≤ m }
    requires high { m ≤ MAX_ROOT_LENGTH }
{
    let mut words: usize = 1;
    for k in 2..m + 1 {
        words = words.saturating_mul(k);
    }
    let with_point = m * m;
    let with_two_points = (m - 1) * (m - 1) * with_point;
    words
        < one_below
            .saturating_mul(with_point)
            .saturating_add(two_below.saturating_mul(with_two_points))
}

// Whether there are at least two levels, of which the last two have no words.
fn ends_empty(levels: &[Words]) -> bool
    ensures { (result ≡ true) ↔ EndsEmpty levels.now }
{
    let count = levels.len();
    count >= 2 && levels[count - 2].len() == 0 && levels[count - 1].len() == 0
}
