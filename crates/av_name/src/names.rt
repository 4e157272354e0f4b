// Names of classes of words.
ghost use Rattle.std.specs.Prelude.{◌≡◌, ◌↔◌, ◌&&◌, IsTrue};
ghost use Rattle.std.specs.List.{list_any};
ghost use Rattle.av_perm.specs.Lists.{same};
ghost use Rattle.av_perm.specs.Class.{avoids_all, contains_all};
ghost use Rattle.av_sys.specs.Names.{Means, means, meets_sign};

use av_interval::{skew_cut, sum_cut};
use av_match::{avoids_all, contains};
use av_perm::{Perm, Words};
use av_sys::{Name, Sign};

/// Whether the word means the name: it avoids every avoided word, contains every required one, and meets the sign.
pub fn satisfies(name: &Name, word: &Perm) -> bool
    ensures value { result ≡ means name.now word.now }
    ensures meaning { IsTrue result ↔ Means name.now word.now }
{
    let _len = word.len();
    passes(name, word)
}

/// The same of a word that is known to avoid some words, which are not looked for again.
pub fn satisfies_besides(name: &Name, known: &Words, word: &Perm) -> bool
    requires { IsTrue (avoids_all known.now word.now) }
    ensures value { result ≡ means name.now word.now }
    ensures meaning { IsTrue result ↔ Means name.now word.now }
{
    let _len = word.len();
    passes_besides(name, known, word)
}

// Whether the word passes the test of the name.
fn passes(name: &Name, word: &Perm) -> bool
    ensures { result ≡ means name.now word.now }
{
    meets_others(name, word) && avoids_all(word, &name.avoid)
}

// The same, where the word avoids those known.
fn passes_besides(name: &Name, known: &Words, word: &Perm) -> bool
    requires { IsTrue (avoids_all known.now word.now) }
    ensures { result ≡ means name.now word.now }
{
    meets_others(name, word) && avoids_others(word, &name.avoid, known)
}

// Whether the word meets the sign, which is tested fastest, and contains every required word.
fn meets_others(name: &Name, word: &Perm) -> bool
    ensures { result ≡ (contains_all name.now.require word.now && meets_sign name.now.sign word.now) }
{
    meets_sign(name.sign, word) && contains_all(word, &name.require)
}

// Whether the word, which avoids those known, avoids every pattern of the list.
fn avoids_others(word: &Perm, patterns: &Words, known: &Words) -> bool
    requires { IsTrue (avoids_all known.now word.now) }
    ensures { result ≡ avoids_all patterns.now word.now }
{
    for i in 0..patterns.len() {
        let pattern = patterns.get(i);
        if !is_among(pattern, known) && contains(word, pattern) {
            return false;
        }
    }
    true
}

// Whether the word is one of the list.
fn is_among(word: &Perm, words: &Words) -> bool
    ensures { result ≡ list_any (λ v. same v word.now) words.now }
{
    words.as_slice().iter().any(|other| other == word)
}

// Whether the word contains every pattern of the list.
fn contains_all(word: &Perm, patterns: &Words) -> bool
    ensures { result ≡ contains_all patterns.now word.now }
{
    patterns
        .as_slice()
        .iter()
        .all(|pattern| contains(word, pattern))
}

// Whether the word meets the sign.
fn meets_sign(sign: Sign, word: &Perm) -> bool
    ensures { result ≡ meets_sign sign word.now }
{
    match sign {
        Sign::C => true,
        Sign::P => sum_cut(word).is_none(),
        Sign::M => skew_cut(word).is_none(),
    }
}
