// The law of counts.
ghost use Rattle.av_count.specs.Laws.{MembersLaw};

/// Of a system that describes a class, the trees of equation 0 of each size have as values the words of the class of that
/// length, each once; so their number is that of these words.
pub fn members_law()
    ensures { MembersLaw }
{}
