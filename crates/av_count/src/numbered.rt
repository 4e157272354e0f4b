// The terms of a system by their numbers.
ghost use Rattle.std.specs.Prelude.{◌≡◌, ◌<◌, length, Some};
ghost use Rattle.av_sys.specs.Terms.{terms_at, term_at};

use av_sys::{System, Term};

/// The number of terms of an equation.
pub fn terms(system: &System, eq: usize) -> usize
    requires { eq < length system.now.equations }
    ensures { result ≡ length (terms_at system.now eq) }
{
    system.equations.get(eq).terms.len()
}

/// A term of an equation.
pub fn term(system: &System, eq: usize, t: usize) -> &Term
    requires eq { eq < length system.now.equations }
    requires t { t < length (terms_at system.now eq) }
    ensures { term_at system.now eq t ≡ Some result.now }
{
    system.equations.get(eq).terms.get(t)
}
