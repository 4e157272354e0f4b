// Names and constraints.
ghost use Rattle.std.specs.Prelude.{◌≡◌, IfOk};

use av_perm::{Memory, Words};
use std::alloc::Global;

/// What a name asks of a word besides its patterns.
#[derive(Clone, Copy, Debug, PartialEq, Eq, Hash)]
pub enum Sign {
    /// Nothing.
    C,
    /// The word is sum-indecomposable: it is not 12[α, β] for any words α, β.
    P,
    /// The word is skew-indecomposable: it is not 21[α, β] for any words α, β.
    M,
}

/// The words to avoid and the words to contain. Its region is the set of the words that avoid each of the first and contain
/// each of the second.
#[derive(PartialEq, Eq, Hash, Drop)]
pub struct Constraint {
    pub avoid: Words,
    pub require: Words,
}

/// The name of a class of words: those that avoid each word of `avoid`, contain each word of `require`, and meet the sign.
#[derive(PartialEq, Eq, Hash, Drop)]
pub struct Name {
    pub sign: Sign,
    pub avoid: Words,
    pub require: Words,
}

impl Constraint {
    /// An equal constraint.
    pub fn copy(&self, alloc: Global) -> Result<Constraint, Memory>
        ensures { IfOk result (λ copy. copy ≡ self.now) }
    {
        Ok(Constraint {
            avoid: self.avoid.copy(alloc)?,
            require: self.require.copy(alloc)?,
        })
    }
}

impl Name {
    /// An equal name.
    pub fn copy(&self, alloc: Global) -> Result<Name, Memory>
        ensures { IfOk result (λ copy. copy ≡ self.now) }
    {
        let avoid = self.avoid.copy(alloc)?;
        let require = self.require.copy(alloc)?;
        Ok(Name {
            sign: self.sign,
            avoid,
            require,
        })
    }
}
