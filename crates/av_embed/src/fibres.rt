// The places of a pattern that go to one child.
ghost use Rattle.std.specs.Prelude.{◌≡◌, ◌≤◌, ◌↔◌, [], length, IsNone, IfSome, IsTrue};
ghost use Rattle.av_perm.specs.Word.{is_distinct};
ghost use Rattle.av_perm.specs.Pattern.{pattern_of};
ghost use Rattle.av_perm.specs.Fibre.{fibre};

use crate::map::Map;
use arrayvec::ArrayVec;
use av_perm::{MAX_LENGTH, Perm, pattern_of};

/// The pattern of the entries at the places that the map sends to a child of at least 1. None exactly where no place
/// goes there. The map has as many places as the pattern.
pub fn fibre(pattern: &Perm, map: &Map, child: usize) -> Option<Perm>
    requires places { length map.now ≡ length pattern.now }
    requires child { 1 ≤ child }
    ensures none { IsNone result ↔ fibre pattern.now map.now child ≡ [] }
    ensures pattern { IfSome result (λ word. word ≡ pattern_of (fibre pattern.now map.now child)) }
{
    let entries = entries_at(pattern, map, child);
    if entries.is_empty() {
        None
    } else {
        Some(pattern_of(entries.as_slice()))
    }
}

// The entries at the places that go to a child.
fn entries_at(pattern: &Perm, map: &Map, child: usize) -> ArrayVec<u8, MAX_LENGTH>
    requires { length map.now ≡ length pattern.now }
    ensures entries { result.items ≡ fibre pattern.now map.now child }
    ensures different { IsTrue (is_distinct result.items) }
{
    let mut entries = ArrayVec::new();
    for i in 0..pattern.len() {
        if map.child(i + 1) as usize == child {
            entries.push(pattern.entry(i + 1));
        }
    }
    entries
}
