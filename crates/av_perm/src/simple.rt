// Simple words.
ghost use Rattle.std.specs.Prelude.{◌≡◌, ℕ, ◌<◌, ◌≤◌, ◌↔◌, IsTrue, length};
ghost use Rattle.av_perm.specs.Relations.{IsInterval};
ghost use Rattle.av_perm.specs.Simple.{is_simple};

use crate::perm::Perm;

/// Whether an interval of at least 2 places, but fewer than all, begins at index `i`.
fn begins_interval(entries: &[u8], i: usize) -> bool
    requires { i < length entries.now }
    ensures { IsTrue result ↔ ((m : ℕ) × (2 ≤ m) × (m < length entries.now) × IsInterval entries.now i m) }
{
    let mut least = entries[i];
    let mut greatest = entries[i];
    for j in i + 1..entries.len() {
        least = least.min(entries[j]);
        greatest = greatest.max(entries[j]);
        let places = j + 1 - i;
        if usize::from(greatest - least) < places && places < entries.len() {
            return true;
        }
    }
    false
}

/// Whether the word is simple: it has at least 4 entries, and none of its intervals has from 2 to n - 1 places.
pub fn is_simple(word: &Perm) -> bool
    ensures { result ≡ is_simple word.now }
{
    let entries = word.as_slice();
    if word.len() < 4 {
        return false;
    }
    for i in 0..entries.len() {
        if begins_interval(entries, i) {
            return false;
        }
    }
    true
}
