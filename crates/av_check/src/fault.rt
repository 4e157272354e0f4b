// Where an equation isn't as it has to be.
use crate::verdict::Flaw;
use av_perm::Perm;

/// A fault of an equation.
#[derive(Drop)]
pub enum Fault {
    /// The name isn't one that the equation may have.
    Name,
    /// The point comes too often or not at all.
    Points,
    /// A term of this root isn't one that the equation may have.
    Root { root: Perm },
    /// The terms of this root are wrong in the cell with this number, or in one from `u64::MAX` on.
    Cell { root: Perm, cell: u64, flaw: Flaw },
}
