// The laws of constraints.
ghost use Rattle.av_name.specs.Laws.{KnownLaw, FreeLaw, GrowthLaw};

/// What is known of a pattern is true of each word of the region: `Inside` says that each contains it, and `Outside` that none
/// does. `Inside` comes exactly for the word 1 and for what a required word contains. Where no required word contains an
/// avoided one, `Outside` comes exactly for a pattern of at least two entries that contains an avoided word.
pub fn known_law()
    ensures { KnownLaw }
{}

/// The free constraint has all words for its region.
pub fn free_law()
    ensures { FreeLaw }
{}

/// Of a pattern of which nothing is known: once it is avoided, the region is that of the words that avoid it, and once it
/// is required, that of the words that contain it. No required word contains an avoided word then, if none did before. The
/// avoided words are minimal and the required ones maximal, in shortlex order.
pub fn growth_law()
    ensures { GrowthLaw }
{}
