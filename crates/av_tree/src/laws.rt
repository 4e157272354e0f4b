// The laws of ranks.
ghost use Rattle.av_tree.specs.Laws.{InverseLaw, UnrankLaw, RankLaw, StrangerLaw, PlacesLaw};

/// Below 2^128 `rank` and `unrank` are inverse, where each equation generates up to the word's length exactly what its name
/// says, each word by one tree.
pub fn inverse_law()
    ensures { InverseLaw }
{}

/// Of a system that describes a class, what is unranked is a word of the class of the length asked for, and there is none
/// exactly where the class has no more words of this length.
pub fn unrank_law()
    ensures { UnrankLaw }
{}

/// Of a system that describes a class, a rank is the one place at which the word, which is of the class, stands in the list
/// of words of its length.
pub fn rank_law()
    ensures { RankLaw }
{}

/// Of a system that describes a class, `rank` answers `Stranger` exactly for the words that are not of the class.
pub fn stranger_law()
    ensures { StrangerLaw }
{}

/// Two words of one length that have the same place are the same.
pub fn places_law()
    ensures { PlacesLaw }
{}
