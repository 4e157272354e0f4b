// Bars of a statistic: values, each with how many words have it.

use crate::bytes::Bytes;
use crate::joined::JoinedOrNone;
use crate::numbers::Number;
use crate::text::Text;
use av_bars::{Bar, Bars, DistBar, DistBars};
use av_io::{Sink, SinkFault};

/// A value, and how many have it, with a colon between them.
#[derive(Clone, Copy)]
struct Tally {
    value: u64,
    count: u128,
}

impl Text for Tally {
    ghost use Rattle.av_print.specs.Text.{tally_text};

    ghost text = { λ tally. tally_text tally.value tally.count };

    fn put_on<K: Sink>(&self, sink: &mut K) -> Result<(), SinkFault> {
        let value = Number(u128::from(self.value));
        (value, Bytes(b":"), Number(self.count)).put_on(sink)
    }
}

/// A bar of a histogram.
impl Text for Bar {
    ghost use Rattle.av_print.specs.Text.{bar_text};

    ghost text = { bar_text };

    fn put_on<K: Sink>(&self, sink: &mut K) -> Result<(), SinkFault> {
        let count = u128::from(self.count);
        let value = self.value;
        Tally { value, count }.put_on(sink)
    }
}

/// A bar of a distribution.
impl Text for DistBar {
    ghost use Rattle.av_print.specs.Text.{dist_bar_text};

    ghost text = { dist_bar_text };

    fn put_on<K: Sink>(&self, sink: &mut K) -> Result<(), SinkFault> {
        let DistBar { value, count } = *self;
        Tally { value, count }.put_on(sink)
    }
}

/// The bars of a histogram are joined by single spaces; where there is none, their text is `none`.
impl Text for Bars {
    ghost use Rattle.av_print.specs.Text.{bars_text};

    ghost text = { bars_text };

    fn put_on<K: Sink>(&self, sink: &mut K) -> Result<(), SinkFault> {
        let items = self.as_slice();
        JoinedOrNone { items }.put_on(sink)
    }
}

/// The bars of a distribution likewise.
impl Text for DistBars {
    ghost use Rattle.av_print.specs.Text.{dist_bars_text};

    ghost text = { dist_bars_text };

    fn put_on<K: Sink>(&self, sink: &mut K) -> Result<(), SinkFault> {
        let items = self.as_slice();
        JoinedOrNone { items }.put_on(sink)
    }
}
