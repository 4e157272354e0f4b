// Whether lengths settle a class.

/// Whether the lengths searched settle the class.
#[derive(Clone, Copy, Debug, PartialEq, Eq)]
pub enum Outcome {
    /// The least length from 4 on such that the class has no simple word of this length or of the next.
    Gap(usize),
    /// There is no such length whose next one is within the limit. The class may have infinitely many simple words, or
    /// not: a larger limit may settle it.
    Unsettled,
}
