// The laws of words: the definitions that compute agree with the textbook.
ghost use Rattle.av_perm.specs.Decompose.{OneDecomposition, SomeDecomposition};
ghost use Rattle.av_perm.specs.Parts.{PartsLaw};
ghost use Rattle.av_perm.specs.StatLaws.{StatisticsLaw};
ghost use Rattle.av_perm.specs.Laws.{WordLaw, ContainsLaw, OccurrencesLaw, ClassLaw, ClassWithLaw, MinimalLaw, MaximalLaw, TopLaw, WordsLaw, ClassAtLaw, ClassWithAtLaw, PatternLaw, SimpleLaw, SumLaw, SkewLaw, SimplesLaw, SimplesBelowLaw, GapLaw, InflationLaw};

/// The test for words passes exactly the words: the lists of the numbers 1 to n, each once, for an n of at least 1.
pub fn word_law()
    ensures { WordLaw }
{}

/// The test for containment passes exactly where the pattern is contained: where places of the word, from left to right,
/// hold entries in the pattern's relative order.
pub fn contains_law()
    ensures { ContainsLaw }
{}

/// The list of occurrences of a pattern in a word holds exactly the occurrences, each once, in lexicographic order. The
/// first occurrence is the first of them, and there is none exactly where the word avoids the pattern.
pub fn occurrences_law()
    ensures { OccurrencesLaw }
{}

/// The test for the class of a basis passes exactly the words that avoid each word of the basis.
pub fn class_law()
    ensures { ClassLaw }
{}

/// The test for the class of a basis with required words passes exactly the words of the class that contain each required
/// word. Without required words it is the class itself.
pub fn class_with_law()
    ensures { ClassWithLaw }
{}

/// `minimal` lists the words of a list that contain no other different word of it, each once, in shortlex order. They are
/// their own minimal words. A list of words and its minimal words have the same class.
pub fn minimal_law()
    ensures { MinimalLaw }
{}

/// `maximal` lists the words of a list that are contained in no other different word of it, each once, in shortlex order.
/// They are their own maximal words. Of a list of words, what contains the maximal words contains all.
pub fn maximal_law()
    ensures { MaximalLaw }
{}

/// `top` lists the words of a list, other than the word 1, that are contained in no other different word of it, each once, in
/// shortlex order. They are their own. Of a list of words, the words of a class that contain these contain all.
pub fn top_law()
    ensures { TopLaw }
{}

/// The list of the words of a length, which is at least 1, holds exactly them, each once, in lexicographic order.
pub fn words_law()
    ensures { WordsLaw }
{}

/// The list of the words of a class of a length, which is at least 1, holds exactly them, each once, in lexicographic order.
pub fn class_at_law()
    ensures { ClassAtLaw }
{}

/// The list of the words of a class with required words of a length, which is at least 1, holds exactly them, each once, in
/// lexicographic order.
pub fn class_with_at_law()
    ensures { ClassWithAtLaw }
{}

/// The pattern of one or more different numbers is the word in their relative order, and the only one. A word is its own
/// pattern. Whether a list contains another depends on the relative order of either alone, so a word contains numbers
/// exactly where it contains their pattern.
pub fn pattern_law()
    ensures { PatternLaw }
{}

/// The test for simple words passes, of words, exactly the simple ones: those of four or more entries without an interval
/// of two or more places but the whole.
pub fn simple_law()
    ensures { SimpleLaw }
{}

/// The test for sum-indecomposable words passes, of words, exactly those that are not 12[α, β] for any words α, β.
pub fn sum_law()
    ensures { SumLaw }
{}

/// The test for skew-indecomposable words passes, of words, exactly those that are not 21[α, β] for any words α, β.
pub fn skew_law()
    ensures { SkewLaw }
{}

/// The list of the simple words of a class of a length holds exactly them, each once, in lexicographic order.
pub fn simples_law()
    ensures { SimplesLaw }
{}

/// The list of the simple words of a class of length below g holds exactly them, each once, in shortlex order.
pub fn simples_below_law()
    ensures { SimplesBelowLaw }
{}

/// A class is settled at a limit with gap g exactly where g is the least number of at least 4 such that the class has no
/// simple word of length g or g + 1, and g + 1 is at most the limit. It is unsettled exactly where no such number is.
pub fn gap_law()
    ensures { GapLaw }
{}

/// The inflation of a word by as many words is a word, as long as the blocks together.
pub fn inflation_law()
    ensures { InflationLaw }
{}

/// A word has at most one decomposition: one root that is 12, 21 or simple, and one list of blocks, of which the first is
/// sum-indecomposable under 12 and skew-indecomposable under 21.
pub fn one_decomposition()
    ensures { OneDecomposition }
{}

/// A word of length at least 2 has a decomposition.
pub fn some_decomposition()
    ensures { SomeDecomposition }
{}

/// Of a word of length at least 2, `parts` computes the root and the blocks of its decomposition.
pub fn parts_law()
    ensures { PartsLaw }
{}

/// The statistics count what they name. Inversions are the pairs of places of which the first holds the greater entry,
/// descents the places whose entry is greater than the next, left-to-right maxima the places whose entry is greater than
/// all before it.
pub fn statistics_law()
    ensures { StatisticsLaw }
{}
