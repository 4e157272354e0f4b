// The law of decomposition trees.
ghost use Rattle.av_decomp.specs.Laws.{TreeLaw};

/// Each word has exactly one decomposition tree: a tree of roots that stands for the word, in which each root is 12, 21 or
/// simple, the first block under 12 is sum-indecomposable, and that under 21 skew-indecomposable. It is the one computed.
pub fn tree_law()
    ensures { TreeLaw }
{}
