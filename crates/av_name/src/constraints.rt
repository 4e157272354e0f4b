// Constraints on words.
ghost use Rattle.std.specs.Prelude.{◌≡◌, [], ◌∷◌, ◌++◌, IfOk};
ghost use Rattle.std.specs.List.{list_any};
ghost use Rattle.av_perm.specs.Contain.{contains};
ghost use Rattle.av_name.specs.Constraints.{free, known_of, is_required, is_avoided, add_avoid, add_require};

use av_match::{contains, maximal, minimal};
use av_perm::{Memory, Perm, Words};
use av_sys::Constraint;
use std::alloc::Global;

/// What is known of a question about all words of a region.
#[derive(Clone, Copy, Debug, PartialEq, Eq)]
pub enum Known {
    /// It is true of each word.
    Inside,
    /// It is true of none.
    Outside,
    /// Neither is known.
    Open,
}

/// The constraint with nothing avoided and nothing required. It takes no memory.
pub fn free(alloc: Global) -> Constraint
    ensures { result ≡ free }
{
    Constraint {
        avoid: Words::empty(alloc),
        require: Words::empty(alloc),
    }
}

/// Whether the words of the constraint's region contain the pattern. `Inside` exactly where it is the word 1 or some required
/// word contains it. Else `Outside` exactly where it contains some avoided word. Where no required word contains an avoided
/// one, these are the patterns of at least two entries that contain an avoided word.
#[tactic(auto, unfolding(crate::specs::Constraints::known_of))]
pub fn known_of(c: &Constraint, p: &Perm) -> Known
    ensures { result ≡ known_of c.now p.now }
{
    if is_required(c, p) {
        Known::Inside
    } else if is_avoided(c, p) {
        Known::Outside
    } else {
        Known::Open
    }
}

// Whether the pattern is the word 1 or some required word contains it.
fn is_required(c: &Constraint, p: &Perm) -> bool
    ensures { result ≡ is_required c.now p.now }
{
    p.len() == 1 || is_within_some(p, &c.require)
}

// Whether the pattern contains some avoided word.
fn is_avoided(c: &Constraint, p: &Perm) -> bool
    ensures { result ≡ is_avoided c.now p.now }
{
    c.avoid.as_slice().iter().any(|word| contains(p, word))
}

// Whether some word of the list contains the pattern.
fn is_within_some(p: &Perm, words: &Words) -> bool
    ensures { result ≡ list_any (λ r. contains r p.now) words.now }
{
    words.as_slice().iter().any(|word| contains(word, p))
}

/// The constraint that avoids the pattern too, of which nothing is known: it joins the avoided words, of which the minimal
/// ones are kept, in shortlex order. The region is that of the words that avoid the pattern.
pub fn add_avoid(alloc: Global, c: &Constraint, p: &Perm) -> Result<Constraint, Memory>
    requires { known_of c.now p.now ≡ Known.Open }
    ensures { IfOk result (λ d. d ≡ add_avoid c.now p.now) }
{
    Ok(Constraint {
        avoid: minimal(alloc, &with_word_first(alloc, p, &c.avoid)?)?,
        require: c.require.copy(alloc)?,
    })
}

/// The constraint that requires the pattern too, of which nothing is known: it joins the required words, of which the
/// maximal ones are kept, in shortlex order. The region is that of the words that contain the pattern.
pub fn add_require(alloc: Global, c: &Constraint, p: &Perm) -> Result<Constraint, Memory>
    requires { known_of c.now p.now ≡ Known.Open }
    ensures { IfOk result (λ d. d ≡ add_require c.now p.now) }
{
    // Its length tells that it has entries.
    let _length = p.len();
    Ok(Constraint {
        avoid: c.avoid.copy(alloc)?,
        require: maximal(alloc, &with_word_first(alloc, p, &c.require)?)?,
    })
}

// The list with the word in front.
fn with_word_first(alloc: Global, word: &Perm, words: &Words) -> Result<Words, Memory>
    ensures { IfOk result (λ all. all ≡ word.now ∷ words.now) }
{
    let mut all = Words::empty(alloc);
    all.push(word.copy())?;
    for other in words.as_slice() {
        all.push(other.copy())?;
    }
    Ok(all)
}
