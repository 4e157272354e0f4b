// The histogram of a statistic over the items of a lister.
ghost use Rattle.std.specs.Prelude.{◌≡◌, ◌<◌, ◌+◌, ◌^◌, ℕ, [], IsTrue, IfOk, length};
ghost use Rattle.std.specs.Fn.{FnReturnsAt};
ghost use Rattle.av_perm.specs.Word.{is_perm};
ghost use Rattle.av_bars.specs.Histograms.{Tallied, bars};
ghost use Rattle.av_stat.specs.Listed.{ReturnsStatistic, words_of};

use crate::counts::{gather, raise, zeros};
use crate::stat::Stat;
use av_bars::Bars;
use av_list::Lister;
use av_perm::{MAX_STATISTIC, Memory, Perm};
use std::alloc::Global;

// Counts each item that is left in the lister at its value.
fn tally<F: Fn(&Perm) -> u64>(stat: &Stat<F>, lister: Lister<'_>, counts: &mut [u64])
    requires callable { (shown : _) → IsTrue (is_perm shown.now) → F.pre stat.now.call shown }
    requires statistic { ReturnsStatistic stat.now.kind (FnReturnsAt F.Fn stat.now.call) }
    requires few { length lister < 2 ^ 64 }
    requires width { length counts.old ≡ MAX_STATISTIC + 1 }
    requires none { Tallied stat.now.kind counts.old [] }
    ensures width { length counts.new ≡ MAX_STATISTIC + 1 }
    ensures tallied { Tallied stat.now.kind counts.new (words_of lister.entry) }
{
    for item in lister {
        raise(counts, stat.of(&item.1) as usize);
    }
}

/// For each value of the statistic that an item left in the lister has, in increasing order, how many items left in the lister
/// have it. `Memory` comes only where memory is refused; the lister is then dropped.
pub fn histogram<F: Fn(&Perm) -> u64>(
    alloc: Global,
    stat: &Stat<F>,
    lister: Lister<'_>,
) -> Result<Bars, Memory>
    requires callable { (shown : _) → IsTrue (is_perm shown.now) → F.pre stat.now.call shown }
    requires statistic { ReturnsStatistic stat.now.kind (FnReturnsAt F.Fn stat.now.call) }
    requires few { length lister < 2 ^ 64 }
    ensures { IfOk result (λ b. b ≡ bars stat.now.kind (words_of lister.entry)) }
{
    let mut counts = zeros(alloc, MAX_STATISTIC as usize + 1)?;
    tally(stat, lister, &mut counts);
    gather(alloc, &counts)
}
