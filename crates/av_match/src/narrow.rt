// The places that are left for a pattern's next entry, by narrowing where each of its entries may stand.
//
// An entry of an occurrence has a place and a value. Either tells the other, by a line: the word itself gives the value at a
// place, its inverse the place of a value. Places increase in the order of the pattern's places, values in that of its values.
ghost use Rattle.std.specs.Prelude.{◌≡◌, ℕ, ◌+◌, ◌-◌, ◌<◌, ◌≤◌, List, length, take, IsTrue};
ghost use Rattle.av_perm.specs.Word.{is_perm};
ghost use Rattle.av_perm.specs.Relations.{at};
ghost use Rattle.av_match.specs.Narrow.{AreLines, AreRoutes, Fit, IsInverse, IsOrder, IsRoute, IsStanding, Lies};
ghost use Rattle.av_match.specs.Search.{GoesOn, IsBegun};

use arrayvec::ArrayVec;
use av_perm::MAX_LENGTH;

// The numbers from `least` to `most`.
#[derive(Clone, Copy, Default)]
pub(crate) struct Span {
    pub(crate) least: usize,
    pub(crate) most: usize,
}

// What narrowing reads beside a word and a pattern, made once for a search: the place of each value of theirs, and the
// places in order.
#[derive(Clone, Copy)]
pub(crate) struct Lines {
    word: [u8; MAX_LENGTH],
    pattern: [u8; MAX_LENGTH],
    places: [u8; MAX_LENGTH],
}

impl Lines {
    // Those of the two.
    pub(crate) fn of(word: &[u8], pattern: &[u8]) -> Lines
        requires word { IsTrue (is_perm word.now) }
        requires pattern { IsTrue (is_perm pattern.now) }
        ensures { AreLines word.now pattern.now result }
    {
        Lines {
            word: inverse(word),
            pattern: inverse(pattern),
            places: in_order(),
        }
    }
}

// The place of each value of a word, and 0 from there on.
fn inverse(word: &[u8]) -> [u8; MAX_LENGTH]
    requires { IsTrue (is_perm word.now) }
    ensures { IsInverse word.now result }
{
    let mut places = [0; MAX_LENGTH];
    for i in 0..word.len() {
        places[word[i] as usize - 1] = (i + 1) as u8;
    }
    places
}

// 1, 2, .., `MAX_LENGTH`.
fn in_order() -> [u8; MAX_LENGTH]
    ensures { (s : ℕ) → s < MAX_LENGTH → at result s ≡ s + 1 }
{
    let mut places = [0; MAX_LENGTH];
    for i in 0..MAX_LENGTH {
        places[i] = (i + 1) as u8;
    }
    places
}

// The first number from `least` to `most` whose entry on the line lies in the span, and one past the line where there is none.
fn first_within(line: &[u8], least: usize, most: usize, other: Span) -> usize
    requires one { 1 ≤ least }
    requires short { length line.now ≤ MAX_LENGTH }
    ensures last { result ≤ length line.now + 1 }
    ensures first { (x : ℕ) → least ≤ x → x ≤ most → x ≤ length line.now → Lies other (at line.now (x - 1)) → result ≤ x }
{
    for x in least..most.min(line.len()) + 1 {
        let y = line[x - 1] as usize;
        if other.least <= y && y <= other.most {
            return x;
        }
    }
    line.len() + 1
}

// The last number from `least` to `most` whose entry on the line lies in the span, and 0 where there is none.
fn last_within(line: &[u8], least: usize, most: usize, other: Span) -> usize
    requires one { 1 ≤ least }
    requires most { most ≤ length line.now }
    requires short { length line.now ≤ MAX_LENGTH }
    ensures most { result ≤ most }
    ensures last { (x : ℕ) → least ≤ x → x ≤ most → Lies other (at line.now (x - 1)) → x ≤ result }
{
    for gone in 0..(most + 1).saturating_sub(least) {
        let x = most - gone;
        let y = line[x - 1] as usize;
        if other.least <= y && y <= other.most {
            return x;
        }
    }
    0
}

// Raises the least number of each entry, in an order in which they increase, to the first that is possible. False where
// an entry has none.
fn raise(line: &[u8], order: &[u8], main: &mut [Span], other: &[Span]) -> bool
    requires short { length line.now ≤ MAX_LENGTH }
    requires order { IsOrder (length main.old) order.now }
    requires alike { length other.now ≡ length main.old }
    ensures long { length main.new ≡ length main.old }
    ensures kept { (x y : ℕ → ℕ) → IsRoute line.now order.now (length main.old) x y → Fit main.old x → Fit other.now y → IsTrue result × Fit main.new x }
{
    let mut least: usize = 1;
    for t in 0..order.len() {
        let j = order[t] as usize - 1;
        let span = main[j];
        let x = first_within(line, least.max(span.least), span.most, other[j]);
        if x > line.len() {
            return false;
        }
        main[j] = Span {
            least: x,
            most: span.most,
        };
        least = x + 1;
    }
    true
}

// Lowers the greatest number of each entry, in the order from its end, to the last that is possible. False where an entry
// has none.
fn lower(line: &[u8], order: &[u8], main: &mut [Span], other: &[Span]) -> bool
    requires short { length line.now ≤ MAX_LENGTH }
    requires order { IsOrder (length main.old) order.now }
    requires alike { length other.now ≡ length main.old }
    ensures long { length main.new ≡ length main.old }
    ensures kept { (x y : ℕ → ℕ) → IsRoute line.now order.now (length main.old) x y → Fit main.old x → Fit other.now y → IsTrue result × Fit main.new x }
{
    let mut most: usize = line.len();
    for t in 0..order.len() {
        let j = order[order.len() - 1 - t] as usize - 1;
        let span = main[j];
        let x = last_within(line, span.least.max(1), most.min(span.most), other[j]);
        if x == 0 {
            return false;
        }
        main[j] = Span {
            least: span.least,
            most: x,
        };
        most = x - 1;
    }
    true
}

// Raises the least and lowers the greatest number of each entry. False where an entry has none.
fn tighten(line: &[u8], order: &[u8], main: &mut [Span], other: &[Span]) -> bool
    requires short { length line.now ≤ MAX_LENGTH }
    requires order { IsOrder (length main.old) order.now }
    requires alike { length other.now ≡ length main.old }
    ensures long { length main.new ≡ length main.old }
    ensures kept { (x y : ℕ → ℕ) → IsRoute line.now order.now (length main.old) x y → Fit main.old x → Fit other.now y → IsTrue result × Fit main.new x }
{
    if !raise(line, order, main, other) {
        return false;
    }
    lower(line, order, main, other)
}

// How often places and values tighten each other. With fewer rounds the hard searches take longer, with more the easy ones.
const ROUNDS: usize = 8;

// Where each entry of a pattern may stand: its places and its values.
#[derive(Drop)]
struct Stand {
    places: ArrayVec<Span, MAX_LENGTH>,
    values: ArrayVec<Span, MAX_LENGTH>,
}

impl Stand {
    // Those chosen at their places, and the others anywhere from a place on.
    fn of(word: &[u8], pattern: &[u8], chosen: &[u8], from: usize) -> Stand
        requires pattern { IsTrue (is_perm pattern.now) }
        requires begun { IsBegun word.now pattern.now chosen.now }
        ensures places { length result.places.items ≡ length pattern.now }
        ensures values { length result.values.items ≡ length pattern.now }
        ensures fit { (x y : ℕ → ℕ) → IsStanding word.now (length pattern.now) chosen.now from x y → Fit result.places.items x × Fit result.values.items y }
    {
        let mut places = ArrayVec::new();
        let mut values = ArrayVec::new();
        for j in 0..pattern.len() {
            if j < chosen.len() {
                let place = chosen[j] as usize;
                let value = word[place - 1] as usize;
                places.push(Span {
                    least: place,
                    most: place,
                });
                values.push(Span {
                    least: value,
                    most: value,
                });
            } else {
                places.push(Span {
                    least: from,
                    most: word.len(),
                });
                values.push(Span {
                    least: 1,
                    most: word.len(),
                });
            }
        }
        Stand { places, values }
    }

    // Tightens the values by the places, and the places of the entries after those chosen by the values. False where an
    // entry has none.
    fn tighten(&mut self, word: &[u8], lines: &Lines, chosen: usize) -> bool
        requires short { length word.now ≤ MAX_LENGTH }
        requires values { length self.old.values.items ≡ length self.old.places.items }
        requires order { IsOrder (length self.old.places.items) (take (length self.old.places.items) lines.now.pattern) }
        requires places { (s : ℕ) → s < MAX_LENGTH → at lines.now.places s ≡ s + 1 }
        requires chosen { chosen ≤ length self.old.places.items }
        ensures places { length self.new.places.items ≡ length self.old.places.items }
        ensures values { length self.new.values.items ≡ length self.old.places.items }
        ensures kept { (x y : ℕ → ℕ) → AreRoutes word.now lines.now chosen (length self.old.places.items) x y → Fit self.old.places.items x → Fit self.old.values.items y → IsTrue result × (Fit self.new.places.items x × Fit self.new.values.items y) }
    {
        let m = self.places.len();
        if !tighten(
            &lines.word,
            &lines.pattern[..m],
            self.values.as_mut_slice(),
            self.places.as_slice(),
        ) {
            return false;
        }
        tighten(
            word,
            &lines.places[chosen..m],
            self.places.as_mut_slice(),
            self.values.as_slice(),
        )
    }

    // The same in several rounds, since what is tightened tightens the rest.
    fn narrow(&mut self, word: &[u8], lines: &Lines, chosen: usize) -> bool
        requires short { length word.now ≤ MAX_LENGTH }
        requires values { length self.old.values.items ≡ length self.old.places.items }
        requires order { IsOrder (length self.old.places.items) (take (length self.old.places.items) lines.now.pattern) }
        requires places { (s : ℕ) → s < MAX_LENGTH → at lines.now.places s ≡ s + 1 }
        requires chosen { chosen ≤ length self.old.places.items }
        ensures places { length self.new.places.items ≡ length self.old.places.items }
        ensures values { length self.new.values.items ≡ length self.old.places.items }
        ensures kept { (x y : ℕ → ℕ) → AreRoutes word.now lines.now chosen (length self.old.places.items) x y → Fit self.old.places.items x → Fit self.old.values.items y → IsTrue result × (Fit self.new.places.items x × Fit self.new.values.items y) }
    {
        for _round in 0..ROUNDS {
            if !self.tighten(word, lines, chosen) {
                return false;
            }
        }
        true
    }
}

// The places at which an occurrence that begins with those chosen may go on, from a place on: none where the span is empty.
pub(crate) fn places_left(
    word: &[u8],
    pattern: &[u8],
    lines: &Lines,
    chosen: &[u8],
    from: usize,
) -> Span
    requires word { IsTrue (is_perm word.now) }
    requires pattern { IsTrue (is_perm pattern.now) }
    requires lines { AreLines word.now pattern.now lines.now }
    requires begun { IsBegun word.now pattern.now chosen.now }
    requires room { length chosen.now < length pattern.now }
    ensures first { from ≤ result.least }
    ensures last { result.most ≤ length word.now }
    ensures kept { (place : ℕ) (rest : List ℕ) → GoesOn word.now pattern.now chosen.now from place rest → Lies result place }
{
    let mut stand = Stand::of(word, pattern, chosen, from);
    if !stand.narrow(word, lines, chosen.len()) {
        return Span {
            least: from,
            most: 0,
        };
    }
    let span = stand.places.as_slice()[chosen.len()];
    Span {
        least: span.least.max(from),
        most: span.most.min(word.len()),
    }
}
