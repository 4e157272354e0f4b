// The bars of a row.
ghost use Rattle.std.specs.Prelude.{◌≡◌, ◌++◌, length, IfOk, OnOk, OnErr};
ghost use Rattle.av_perm.specs.Relations.{at};
ghost use Rattle.av_bars.specs.Distributions.{dist_bar_at, dist_bars};

use crate::row::Row;
use av_bars::{DistBar, DistBars};
use av_perm::Memory;
use std::alloc::Global;

// Appends the bar of a value, where its count is above 0. After `Memory` the list is as before.
fn push_bar(bars: &mut DistBars, value: u64, count: u128) -> Result<(), Memory>
    ensures ok { OnOk result (bars.new ≡ bars.old ++ dist_bar_at value count) }
    ensures err { OnErr result (bars.new ≡ bars.old) }
{
    if count == 0 {
        return Ok(());
    }
    bars.push(DistBar { value, count })
}

// A bar for each value of a row with a number above 0, in increasing order.
pub fn gather(alloc: Global, row: &Row) -> Result<DistBars, Memory>
    ensures { IfOk result (λ bars. bars ≡ dist_bars (at row.now) (length row.now)) }
{
    let mut bars = DistBars::empty(alloc);
    for value in 0..row.len() {
        push_bar(&mut bars, value as u64, row.get(value))?;
    }
    Ok(bars)
}
