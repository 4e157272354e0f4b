// The search for an occurrence, by backtracking.
ghost use Rattle.std.specs.Prelude.{◌≡◌, ℕ, ◌+◌, ◌<◌, ◌≤◌, ◌↔◌, List, [], ◌∷◌, ◌++◌, length, true, false, IsTrue, IfSome};
ghost use Rattle.av_perm.specs.Word.{is_perm, entry};
ghost use Rattle.av_perm.specs.Contain.{contains, first_occurrence};
ghost use Rattle.av_match.specs.Narrow.{AreLines, Lies};
ghost use Rattle.av_match.specs.Search.{completed, places_from, GoesOn, IsBegun, IsWhole, some_if};

use crate::narrow::{Lines, Span, places_left};
use crate::places::Places;
use arrayvec::ArrayVec;
use av_perm::{MAX_LENGTH, Perm};

// The entries from `least` to `most`.
#[derive(Clone, Copy)]
struct Window {
    least: usize,
    most: usize,
}

// The entries that may stand for the pattern's next one, after the places chosen: those that lie to the entries there as the
// pattern's entries lie, with room between them for the entries of the pattern between. With less room no occurrence follows.
fn fitting(word: &[u8], pattern: &[u8], chosen: &[u8]) -> Window
    requires word { IsTrue (is_perm word.now) }
    requires pattern { IsTrue (is_perm pattern.now) }
    requires fits { length pattern.now ≤ length word.now }
    requires begun { IsBegun word.now pattern.now chosen.now }
    requires room { length chosen.now < length pattern.now }
    ensures begun { (place : ℕ) → 1 ≤ place → place ≤ length word.now → result.least ≤ entry word.now place → entry word.now place ≤ result.most → IsBegun word.now pattern.now (chosen.now ++ place ∷ []) }
    ensures whole { (place : ℕ) (rest : List ℕ) → IsWhole word.now pattern.now (chosen.now ++ place ∷ rest) → (result.least ≤ entry word.now place) × (entry word.now place ≤ result.most) }
{
    let next = pattern[chosen.len()] as usize;
    let mut least = next;
    let mut most = word.len() - pattern.len() + next;
    for i in 0..chosen.len() {
        let x = word[chosen[i] as usize - 1] as usize;
        let own = pattern[i] as usize;
        if own < next {
            least = least.max(x + (next - own));
        } else {
            most = most.min(x.saturating_sub(own - next));
        }
    }
    Window { least, most }
}

// The places to try for the pattern's next entry. In a short word that is searched sooner than narrowed, all that leave places
// for the rest of the pattern.
fn places_to_try(
    word: &[u8],
    pattern: &[u8],
    lines: Option<&Lines>,
    chosen: &[u8],
    from: usize,
) -> Span
    requires word { IsTrue (is_perm word.now) }
    requires pattern { IsTrue (is_perm pattern.now) }
    requires lines { IfSome lines (λ held. AreLines word.now pattern.now held.now) }
    requires begun { IsBegun word.now pattern.now chosen.now }
    requires fits { length pattern.now ≤ length word.now }
    requires room { length chosen.now < length pattern.now }
    ensures first { from ≤ result.least }
    ensures last { result.most ≤ length word.now }
    ensures kept { (place : ℕ) (rest : List ℕ) → GoesOn word.now pattern.now chosen.now from place rest → Lies result place }
{
    match lines {
        Some(lines) => places_left(word, pattern, lines, chosen, from),
        None => Span {
            least: from,
            most: word.len() + 1 - (pattern.len() - chosen.len()),
        },
    }
}

// Extends the places chosen to the first whole occurrence that goes on with places from `from` on. Where there is none,
// the places chosen are left.
fn extend(
    word: &[u8],
    pattern: &[u8],
    lines: Option<&Lines>,
    chosen: &mut ArrayVec<u8, MAX_LENGTH>,
    from: usize,
) -> bool
    requires word { IsTrue (is_perm word.now) }
    requires pattern { IsTrue (is_perm pattern.now) }
    requires lines { IfSome lines (λ held. AreLines word.now pattern.now held.now) }
    requires begun { IsBegun word.now pattern.now chosen.old.items }
    requires short { length chosen.old.items ≤ length pattern.now }
    requires fits { length pattern.now ≤ length word.now }
    requires first { 1 ≤ from }
    requires last { from ≤ length word.now + 1 }
    ensures found { some_if result chosen.new.items ≡ completed word.now pattern.now chosen.old.items (places_from word.now from) }
    ensures kept { result ≡ false → chosen.new.items ≡ chosen.old.items }
{
    if chosen.len() == pattern.len() {
        return true;
    }
    let window = fitting(word, pattern, chosen.as_slice());
    let span = places_to_try(word, pattern, lines, chosen.as_slice(), from);
    for place in span.least..span.most + 1 {
        let x = word[place - 1] as usize;
        if window.least <= x && x <= window.most {
            chosen.push(place as u8);
            if extend(word, pattern, lines, chosen, place + 1) {
                return true;
            }
            chosen.pop();
        }
    }
    false
}

// The length of a word from which on narrowing takes less time than it saves.
const LONG: usize = 24;

// The lines of the two, where the word is long.
fn lines_if_long(word: &[u8], pattern: &[u8]) -> Option<Lines>
    requires word { IsTrue (is_perm word.now) }
    requires pattern { IsTrue (is_perm pattern.now) }
    ensures { IfSome result (AreLines word.now pattern.now) }
{
    if word.len() < LONG {
        return None;
    }
    Some(Lines::of(word, pattern))
}

/// The lexicographically first occurrence of the pattern in the word: its places, from left to right. None exactly
/// where the word avoids the pattern.
pub fn find(word: &Perm, pattern: &Perm) -> Option<Places>
    ensures { result ≡ first_occurrence word.now pattern.now }
{
    if pattern.len() > word.len() {
        return None;
    }
    let entries = word.as_slice();
    let order = pattern.as_slice();
    let lines = lines_if_long(entries, order);
    let mut chosen = ArrayVec::new();
    if extend(entries, order, lines.as_ref(), &mut chosen, 1) {
        Some(Places::of(chosen))
    } else {
        None
    }
}

/// Whether the word contains the pattern.
pub fn contains(word: &Perm, pattern: &Perm) -> bool
    ensures { result ≡ contains word.now pattern.now }
{
    find(word, pattern).is_some()
}
