// The laws of simple words: what they contain, and where those of a class stop.
ghost use Rattle.av_interval.specs.Laws.{SeparableLaw, FourPointsLaw, TwoMorePointsLaw, LeavesSimpleLaw, SmallerSimplesLaw, TwoGapLaw};

/// Separable words: a word of length at least 2 that avoids 2413 and 3142 is a sum or a skew sum. Proved here, by induction
/// on the length.
pub fn separable_law()
    ensures { SeparableLaw }
{}

/// Every simple word contains 2413 or 3142.
pub fn four_points_law()
    ensures { FourPointsLaw }
{}

/// Where points of a simple word have a simple pattern and at least two points are left out, some two of these can be added
/// so that the pattern is simple again. The permutation case of a theorem of Schmerl and Trotter on indecomposable
/// structures (1993), in a weak form, which is proved here.
pub fn two_more_points_law()
    ensures { TwoMorePointsLaw }
{}

/// From every simple word of length at least 6 one point or two can be taken away so that a simple pattern is left. Begin
/// with the four points of a 2413 or 3142, and add two at a time.
pub fn leaves_simple_law()
    ensures { LeavesSimpleLaw }
{}

/// Every simple word of length n, from 6 on, contains a simple word of length n - 1 or n - 2. The weak form of a theorem of
/// J. H. Schmerl and W. T. Trotter, Critically indecomposable partially ordered sets, graphs, tournaments and other binary
/// relational structures, Discrete Mathematics 113 (1993), which is proved here. (The theorem itself also says which simple
/// words contain none of length n - 1.)
pub fn smaller_simples_law()
    ensures { SmallerSimplesLaw }
{}

/// A class that has no simple word of length g and none of length g + 1, for some g of at least 4, has none of length g or
/// more: a shortest one would contain one that is one or two shorter.
pub fn two_gap_law()
    ensures { TwoGapLaw }
{}
