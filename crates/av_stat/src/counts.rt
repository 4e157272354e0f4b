// A count for each value.
ghost use Rattle.std.specs.Prelude.{◌≡◌, ◌<◌, ◌≤◌, ◌+◌, ◌^◌, ℕ, [], ◌++◌, IfOk, OnOk, OnErr, length, replicate, slice_index, slice_set};
ghost use Rattle.av_bars.specs.Histograms.{bar_at, bars_of};

use av_bars::{Bar, Bars};
use av_perm::Memory;
use std::alloc::Global;

// Nothing but 0.
pub fn zeros(alloc: Global, width: usize) -> Result<Vec<u64>, Memory>
    ensures { IfOk result (λ counts. counts.items ≡ replicate width 0) }
{
    match vec![in alloc; 0u64; width] {
        Ok(counts) => Ok(counts),
        Err(_) => Err(Memory),
    }
}

// One more has the value.
pub fn raise(counts: &mut [u64], value: usize)
    requires within { value < length counts.old }
    requires fits { slice_index counts.old value + 1 < 2 ^ 64 }
    ensures { counts.new ≡ slice_set counts.old value (slice_index counts.old value + 1) }
{
    counts[value] += 1;
}

// Appends the bar of a value, where its count is above 0. After `Memory` the list is as before.
fn push_bar(bars: &mut Bars, value: u64, count: u64) -> Result<(), Memory>
    ensures ok { OnOk result (bars.new ≡ bars.old ++ bar_at value count) }
    ensures err { OnErr result (bars.new ≡ bars.old) }
{
    if count == 0 {
        return Ok(());
    }
    bars.push(Bar { value, count })
}

// A bar for each value with a count above 0.
pub fn gather(alloc: Global, counts: &[u64]) -> Result<Bars, Memory>
    ensures { IfOk result (λ bars. bars ≡ bars_of (slice_index counts.now) (length counts.now)) }
{
    let mut bars = Bars::empty(alloc);
    for value in 0..counts.len() {
        push_bar(&mut bars, value as u64, counts[value])?;
    }
    Ok(bars)
}
