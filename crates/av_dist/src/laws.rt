// The law of statistics of inflations.
ghost use Rattle.av_dist.specs.Laws.{InflationStatisticsLaw};

/// The inversions of an inflation are those of its blocks, and the sum of n_i * n_j over the places i < j of the root of which
/// the first holds the greater entry, where n_i is the size of block i. Its descents are those of its blocks and of the root.
pub fn inflation_statistics_law()
    ensures { InflationStatisticsLaw }
{}
