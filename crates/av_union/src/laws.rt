// The laws of overlays and of the union of two classes.
ghost use Rattle.av_union.specs.Laws.{OverlaysLaw, UnionLaw};

/// The words to which a word grows when a pattern is laid over it, entry by entry, are exactly those that the two cover.
pub fn overlays_law()
    ensures { OverlaysLaw }
{}

/// The basis of the union of two classes, which two lists of words give, holds exactly the words that contain a word of each
/// list and no other different such word, each once, in shortlex order. Each of them is covered by a word of the one list and
/// a word of the other, which have together at least as many entries. A word avoids the basis of the union exactly where it
/// avoids each word of the one list or each word of the other, so the class of the basis is the union of the two classes.
pub fn union_law()
    ensures { UnionLaw }
{}
