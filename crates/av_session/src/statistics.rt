// A statistic over the members of a length: how many members have each value, and the members that have one value.
ghost use Rattle.std.specs.Prelude.{◌≡◌, ◌≤◌, ◌++◌, ◌==◌, ℕ, List, Bool, IsTrue, IfOk, OnOk, IsErrOf, codes};
ghost use Rattle.std.specs.Fn.{FnReturnsAt};
ghost use Rattle.av_io.specs.Causes.{Rose};
ghost use Rattle.av_io.specs.Passed.{PassesOn};
ghost use Rattle.av_print.specs.Wrote.{AppendsPart};
ghost use Rattle.av_print.specs.Text.{◌⊹◌, query_text};
ghost use Rattle.av_perm.specs.Word.{is_perm};
ghost use Rattle.av_perm.specs.Stat.{statistic_of};
ghost use Rattle.av_sys.specs.TreeLists.{members};
ghost use Rattle.av_bars.specs.Histograms.{bars};
ghost use Rattle.av_dist.specs.Distributions.{dist};
ghost use Rattle.av_session.specs.Answers.{Tells, kept_text, picked_text};

use crate::solving::SettledClass;
use crate::stop::Stop;
use crate::waiting::put_text;
use av_count::Table;
use av_dist::{DistBars, DistTable, distribution};
use av_io::{Sink, SureSink};
use av_list::{Lister, Sieve};
use av_perm::{Memory, Perm, StatKind, statistic};
use av_print::{Bytes, RankedWord};
use av_stat::{Bars, Stat, histogram};
use av_text::{DistKind, MAX_DISTRIBUTION_LENGTH, MAX_STATISTIC_LENGTH, Query};
use std::alloc::Global;

/// How many members of length n have each value of a statistic.
pub fn histogram_of(
    alloc: Global,
    class: &SettledClass,
    table: &Table,
    kind: StatKind,
    n: usize,
) -> Result<Bars, Memory>
    requires stands { table.now.system ≡ class.now.system }
    requires least { 1 ≤ n }
    requires most { n ≤ table.now.largest }
    requires short { n ≤ MAX_STATISTIC_LENGTH }
    ensures { IfOk result (λ bs. bs ≡ bars kind (members class.now.system n)) }
{
    let stat = Stat::new(kind, move |word: &Perm| statistic(kind, word));
    let lister = Lister::new(alloc, class.system(), table, n, 0)?;
    histogram(alloc, &stat, lister)
}

/// How many members of length n have each number of inversions, or of descents.
pub fn distribution_of(
    alloc: Global,
    class: &SettledClass,
    kind: DistKind,
    n: usize,
) -> Result<DistBars, Memory>
    requires least { 1 ≤ n }
    requires most { n ≤ MAX_DISTRIBUTION_LENGTH }
    ensures { IfOk result (λ bs. bs ≡ dist kind class.now.system n) }
{
    let table = DistTable::new(alloc, class.system(), kind, n)?;
    distribution(alloc, &table, n)
}

/// Writes the lines of the members that a sieve gives, each with its rank.
fn put_kept<K: Sink, F: Fn(&Perm) -> bool + Drop>(
    sink: &mut K,
    waiting: &mut SureSink,
    sieve: Sieve<'_, F>,
) -> Result<(), Stop>
    requires { (shown : _) → IsTrue (is_perm shown.now) → F.pre sieve.keep shown }
    ensures whole { (p : List ℕ → Bool) → Tells (FnReturnsAt F.Fn sieve.entry.keep) p → OnOk result (PassesOn (K.held sink.old) (K.held sink.new) (waiting.old.held ++ kept_text p sieve.entry.lister) waiting.new.held) }
    ensures part { (p : List ℕ → Bool) → Tells (FnReturnsAt F.Fn sieve.entry.keep) p → AppendsPart (K.held sink.old) (K.held sink.new) (waiting.old.held ++ kept_text p sieve.entry.lister) }
    ensures later { K.faults sink.old ≤ K.faults sink.new }
    ensures failed { IsErrOf result Stop.WriteFault → Rose (K.faults sink.old) (K.faults sink.new) }
{
    let mut sieve = sieve;
    'rows: while let Some((rank, word)) = sieve.next() {
        put_text(sink, waiting, &RankedWord { rank, word: &word })?;
    }
    Ok(())
}

/// Writes the lines of the members of length n at which a statistic has a value, each with its rank.
#[tactic(auto, unfolding(crate::specs::Answers::picked_text))]
fn put_picked<K: Sink>(
    alloc: Global,
    sink: &mut K,
    waiting: &mut SureSink,
    class: &SettledClass,
    table: &Table,
    kind: StatKind,
    value: u64,
    n: usize,
) -> Result<(), Stop>
    requires stands { table.now.system ≡ class.now.system }
    requires least { 1 ≤ n }
    requires most { n ≤ table.now.largest }
    ensures whole { OnOk result (PassesOn (K.held sink.old) (K.held sink.new) (waiting.old.held ++ picked_text class.now.system kind value n) waiting.new.held) }
    ensures part { AppendsPart (K.held sink.old) (K.held sink.new) (waiting.old.held ++ picked_text class.now.system kind value n) }
    ensures later { K.faults sink.old ≤ K.faults sink.new }
    ensures failed { IsErrOf result Stop.WriteFault → Rose (K.faults sink.old) (K.faults sink.new) }
{
    let lister = Lister::new(alloc, class.system(), table, n, 0)?;
    let sieve = Sieve::new(lister, move |word: &Perm| statistic(kind, word) == value);
    put_kept(sink, waiting, sieve)
}

/// Writes the answer of `pick`: the query, the lines of the members at which a statistic has a value, and `end`.
pub fn put_pick<K: Sink>(
    alloc: Global,
    sink: &mut K,
    waiting: &mut SureSink,
    class: &SettledClass,
    table: &Table,
    query: &Query,
    kind: StatKind,
    value: u64,
    n: usize,
) -> Result<(), Stop>
    requires stands { table.now.system ≡ class.now.system }
    requires least { 1 ≤ n }
    requires most { n ≤ table.now.largest }
    ensures whole { OnOk result (PassesOn (K.held sink.old) (K.held sink.new) (waiting.old.held ++ (query_text query.now ⊹ codes " =\n" ⊹ picked_text class.now.system kind value n ⊹ codes "end\n")) waiting.new.held) }
    ensures part { AppendsPart (K.held sink.old) (K.held sink.new) (waiting.old.held ++ (query_text query.now ⊹ codes " =\n" ⊹ picked_text class.now.system kind value n ⊹ codes "end\n")) }
    ensures later { K.faults sink.old ≤ K.faults sink.new }
    ensures failed { IsErrOf result Stop.WriteFault → Rose (K.faults sink.old) (K.faults sink.new) }
{
    put_text(sink, waiting, &(query, Bytes(b" =\n")))?;
    put_picked(alloc, sink, waiting, class, table, kind, value, n)?;
    put_text(sink, waiting, &Bytes(b"end\n"))
}
