// What is answered to a claim.
use av_perm::Perm;

/// What is wrong with the terms of a root in a cell.
#[derive(Clone, Copy, Debug, PartialEq, Eq)]
pub enum Flaw {
    /// No term generates its words, and there may be some.
    Lost,
    /// Two terms generate its words.
    Twice,
    /// A term generates its words, which the name doesn't describe.
    Extra,
    /// No term generates its words, and whether there are any would take too large a system to tell.
    Large,
}

/// The answer to a claim: that the system is exact, or the first equation that isn't as it has to be, and why.
#[derive(Drop)]
pub enum Verdict {
    /// The system is exact.
    Yes,
    /// The equation's name isn't one that it may have.
    Name {
        eq: u32,
    },
    /// The equation has the point too often or not at all.
    Point {
        eq: u32,
    },
    /// A term of this root isn't one that the equation may have.
    Root {
        eq: u32,
        root: Perm,
    },
    /// The terms of this root are wrong in this cell.
    Cell {
        eq: u32,
        root: Perm,
        cell: u64,
        flaw: Flaw,
    },
}
