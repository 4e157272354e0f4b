// The laws of histograms and of distributions.
ghost use Rattle.av_bars.specs.Laws.{HistogramLaw, DistributionLaw, SameHistogramLaw};

/// The histogram of a list of words has increasing values, each once; the count of a value is the number of words that have it,
/// and above 0; and each word's value is there.
pub fn histogram_law()
    ensures { HistogramLaw }
{}

/// The bars of the distribution over a list of words have increasing values. There is one for each value that some of the
/// words have, with the number of those that have it, and no other. No other list of bars is so.
pub fn distribution_law()
    ensures { DistributionLaw }
{}

/// The distribution over a list of words has the values and the counts of the histogram of the same statistic over it.
pub fn same_histogram_law()
    ensures { SameHistogramLaw }
{}
