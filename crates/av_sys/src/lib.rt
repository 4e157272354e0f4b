//! Names of classes of words, and systems of equations between them.
//!
//! A name is a class of words: words that are avoided, words that are required, and a condition on sums. A system gives
//! each name an equation, whose terms are the single point and inflations of roots by words of other equations. Its
//! derivation trees, which `specs/Trees.antt` defines, make words; `specs/Exact.antt` says when these are the words of a
//! class, each made once.
#![tactic(auto)]

mod check;
pub mod laws;
mod names;
mod terms;

pub use check::is_system_root;
pub use names::{Constraint, Name, Sign};
pub use terms::{Children, Equation, EquationNumber, Equations, System, Term, Terms};
