// The members of a list, which go on to the sink while the list runs.
ghost use Rattle.std.specs.Prelude.{◌≡◌, ◌≤◌, ◌++◌, OnOk, IsErrOf, codes};
ghost use Rattle.av_io.specs.Causes.{Rose};
ghost use Rattle.av_io.specs.Passed.{PassesOn};
ghost use Rattle.av_print.specs.Wrote.{AppendsPart};
ghost use Rattle.av_print.specs.Text.{◌⊹◌, query_text};
ghost use Rattle.av_session.specs.Answers.{rows_text};

use crate::solving::SettledClass;
use crate::stop::Stop;
use crate::waiting::put_text;
use av_count::Table;
use av_io::{Sink, SureSink};
use av_list::Lister;
use av_print::{Bytes, RankedWord};
use av_text::Query;
use std::alloc::Global;

/// Writes the lines of the members of length n from rank `start` on, at most so many, each with its rank.
fn put_rows<K: Sink>(
    alloc: Global,
    sink: &mut K,
    waiting: &mut SureSink,
    class: &SettledClass,
    table: &Table,
    n: usize,
    start: u128,
    many: u32,
) -> Result<(), Stop>
    requires stands { table.now.system ≡ class.now.system }
    requires least { 1 ≤ n }
    requires most { n ≤ table.now.largest }
    ensures whole { OnOk result (PassesOn (K.held sink.old) (K.held sink.new) (waiting.old.held ++ rows_text class.now.system n start many) waiting.new.held) }
    ensures part { AppendsPart (K.held sink.old) (K.held sink.new) (waiting.old.held ++ rows_text class.now.system n start many) }
    ensures later { K.faults sink.old ≤ K.faults sink.new }
    ensures failed { IsErrOf result Stop.WriteFault → Rose (K.faults sink.old) (K.faults sink.new) }
{
    let lister = Lister::new(alloc, class.system(), table, n, start)?;
    for (rank, word) in lister.take(many as usize) {
        put_text(sink, waiting, &RankedWord { rank, word: &word })?;
    }
    Ok(())
}

/// Writes the answer of `list`: the query, the lines of the members, and `end`.
pub fn put_list<K: Sink>(
    alloc: Global,
    sink: &mut K,
    waiting: &mut SureSink,
    class: &SettledClass,
    table: &Table,
    query: &Query,
    n: usize,
    start: u128,
    many: u32,
) -> Result<(), Stop>
    requires stands { table.now.system ≡ class.now.system }
    requires least { 1 ≤ n }
    requires most { n ≤ table.now.largest }
    ensures whole { OnOk result (PassesOn (K.held sink.old) (K.held sink.new) (waiting.old.held ++ (query_text query.now ⊹ codes " =\n" ⊹ rows_text class.now.system n start many ⊹ codes "end\n")) waiting.new.held) }
    ensures part { AppendsPart (K.held sink.old) (K.held sink.new) (waiting.old.held ++ (query_text query.now ⊹ codes " =\n" ⊹ rows_text class.now.system n start many ⊹ codes "end\n")) }
    ensures later { K.faults sink.old ≤ K.faults sink.new }
    ensures failed { IsErrOf result Stop.WriteFault → Rose (K.faults sink.old) (K.faults sink.new) }
{
    put_text(sink, waiting, &(query, Bytes(b" =\n")))?;
    put_rows(alloc, sink, waiting, class, table, n, start, many)?;
    put_text(sink, waiting, &Bytes(b"end\n"))
}
