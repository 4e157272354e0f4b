// Members drawn by a seed.
ghost use Rattle.std.specs.Prelude.{◌≡◌, ◌+◌, ◌<◌, ◌≤◌, ◌^◌, [], length, get_or, min, max};
ghost use Rattle.av_perm.specs.declared.limits.TheConstants.{MAX_STATISTIC};
ghost use Rattle.av_perm.specs.Stat.{statistic_of};
ghost use Rattle.av_sys.specs.TreeLists.{members};
ghost use Rattle.av_text.specs.declared.limits.TheConstants.{MAX_DRAWN};
ghost use Rattle.av_session.specs.Drawing.{draw, draws, drawn_values, summary_text};
ghost use Rattle.av_session.specs.Shown.{summary_shown};

use av_count::Table;
use av_draw::Drawer;
use av_io::{Sink, SinkFault};
use av_perm::{MAX_STATISTIC, Perm, StatKind, statistic};
use av_print::{Bytes, Number, RankedWord, Text};
use av_sys::System;
use av_tree::unrank;

/// The members of length n, of which there is one at least, to draw from.
#[derive(Clone, Copy)]
pub struct Urn<'a> {
    pub system: &'a System,
    pub table: &'a Table,
    pub n: usize,
    pub count: u128,
    ghost stands: { table.now.system ≡ system.now },
    ghost least: { 1 ≤ n },
    ghost most: { n ≤ table.now.largest },
    ghost some: { 0 < count },
    ghost all: { count ≡ length (members system.now n) },
}

/// A member that was drawn, with its rank.
#[derive(Drop)]
struct Drawn {
    rank: u128,
    word: Perm,
}

impl Urn<'_> {
    /// The member at a rank.
    fn member(&self, rank: u128) -> Perm
        requires { rank < self.now.count }
        ensures { result ≡ get_or (members self.now.system.now self.now.n) rank [] }
    {
        match unrank(self.system, self.table, self.n, rank) {
            Some(word) => word,
            None => unreachable!(),
        }
    }

    /// The next draw.
    fn draw(&self, drawer: &mut Drawer) -> Drawn
        requires { drawer.old.made < 2 ^ 32 }
        ensures rank { result.rank ≡ (draw (members self.now.system.now self.now.n) drawer.old.seed drawer.old.made).0 }
        ensures word { result.word ≡ (draw (members self.now.system.now self.now.n) drawer.old.seed drawer.old.made).1 }
        ensures moved { drawer.new ≡ record drawer.old { made = drawer.old.made + 1 } }
    {
        let rank = drawer.next(self.count);
        let word = self.member(rank);
        Drawn { rank, word }
    }

    /// The statistic of the member that is drawn next.
    fn value(&self, kind: StatKind, drawer: &mut Drawer) -> u64
        requires { drawer.old.made < 2 ^ 32 }
        ensures value { result ≡ statistic_of kind (draw (members self.now.system.now self.now.n) drawer.old.seed drawer.old.made).1 }
        ensures few { result ≤ MAX_STATISTIC }
        ensures moved { drawer.new ≡ record drawer.old { made = drawer.old.made + 1 } }
    {
        let drawn = self.draw(drawer);
        statistic(kind, &drawn.word)
    }

    /// What a statistic is over the members that are drawn, one at least: a member that is drawn twice counts twice.
    pub fn summary(&self, kind: StatKind, seed: u64, many: u32) -> Summary
        requires some { 1 ≤ many }
        requires few { many ≤ MAX_DRAWN }
        ensures { summary_shown result ≡ summary_text (drawn_values kind (draws (members self.now.system.now self.now.n) seed many)) }
    {
        let mut drawer = Drawer::new(seed);
        let first = self.value(kind, &mut drawer);
        let mut summary = Summary::of(first);
        for d in 1..many {
            summary = summary.with(self.value(kind, &mut drawer));
        }
        summary
    }
}

/// The lines of the members that are drawn, each with its rank.
#[derive(Clone, Copy)]
pub struct DrawnRows<'a> {
    pub urn: Urn<'a>,
    pub seed: u64,
    pub many: u32,
}

impl Text for DrawnRows<'_> {
    ghost use Rattle.av_session.specs.Answers.{draws_text};

    ghost text = { λ rows. draws_text rows.urn.system.now rows.urn.n rows.seed rows.many };

    fn put_on<K: Sink>(&self, sink: &mut K) -> Result<(), SinkFault> {
        let mut drawer = Drawer::new(self.seed);
        for d in 0..self.many {
            let drawn = self.urn.draw(&mut drawer);
            let row = RankedWord {
                rank: drawn.rank,
                word: &drawn.word,
            };
            row.put_on(sink)?;
        }
        Ok(())
    }
}

/// The least, the greatest and the sum of the values of a statistic.
#[derive(Clone, Copy)]
pub struct Summary {
    least: u64,
    most: u64,
    total: u64,
}

impl Summary {
    /// That of one value.
    fn of(value: u64) -> Summary
        ensures { result ≡ record { least = value; most = value; total = value } }
    {
        Summary {
            least: value,
            most: value,
            total: value,
        }
    }

    /// With one value more.
    fn with(self, value: u64) -> Summary
        requires { self.total + value < 2 ^ 64 }
        ensures least { result.least ≡ min self.least value }
        ensures most { result.most ≡ max self.most value }
        ensures total { result.total ≡ self.total + value }
    {
        Summary {
            least: self.least.min(value),
            most: self.most.max(value),
            total: self.total + value,
        }
    }
}

impl Text for Summary {
    ghost use Rattle.av_session.specs.Shown.{summary_shown};

    ghost text = { summary_shown };

    fn put_on<K: Sink>(&self, sink: &mut K) -> Result<(), SinkFault> {
        let least = Number(u128::from(self.least));
        let most = Number(u128::from(self.most));
        let total = Number(u128::from(self.total));
        (
            Bytes(b"least "),
            least,
            Bytes(b" most "),
            (most, Bytes(b" total "), total),
        )
            .put_on(sink)
    }
}
