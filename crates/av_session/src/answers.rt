// The answers of the queries.
ghost use Rattle.std.specs.Prelude.{◌≡◌, ◌≤◌, ◌++◌, IfOk, OnOk, IsErrOf, All, flat_map, codes};
ghost use Rattle.std.specs.Io.KnownBytes.{Appends};
ghost use Rattle.av_io.specs.Causes.{Rose};
ghost use Rattle.av_io.specs.Passed.{PassesOn};
ghost use Rattle.av_print.specs.Wrote.{AppendsPart};
ghost use Rattle.av_print.specs.Text.{◌⊹◌, query_text};
ghost use Rattle.av_text.specs.Queries.{IsInRange};
ghost use Rattle.av_sys.specs.TreeLists.{members};
ghost use Rattle.av_text.specs.declared.limits.TheConstants.{MAX_DRAWN};
ghost use Rattle.av_session.specs.Drawing.{draws, drawn_values, summary_text};
ghost use Rattle.av_session.specs.Answers.{one_line, counts_text, member_count, draws_text, drawn_answer, answer_text, length_needed};
ghost use Rattle.av_session.specs.Serving.{Serves, IsTableFor, greatest_needed};

use crate::draws::{DrawnRows, Urn};
use crate::listing::put_list;
use crate::members::{CountsTo, member_count};
use crate::ranks::{place_of, word_at};
use crate::solving::SettledClass;
use crate::statistics::{distribution_of, histogram_of, put_pick};
use crate::stop::Stop;
use crate::waiting::put_text;
use av_count::{Count, Table};
use av_decomp::tree;
use av_io::{Sink, SureSink};
use av_perm::{MAX_LENGTH, Memory, StatKind};
use av_print::{Bytes, Text};
use av_text::{Queries, Query};
use std::alloc::Global;

/// The greatest length at which a query asks of the members of the class, one by one or how many they are; 0 for the tree of a
/// word, and for a distribution.
fn length_needed(query: &Query) -> usize
    requires { IsInRange query.now }
    ensures value { result ≡ length_needed query.now }
    ensures few { result ≤ MAX_LENGTH }
{
    match query {
        Query::Count { n } | Query::Counts { n } => usize::from(*n),
        Query::List { n, .. } | Query::Unrank { n, .. } => usize::from(*n),
        Query::Rank { word } => word.len(),
        Query::Tree { .. } | Query::Dist { .. } => 0,
        Query::Draw { n, .. } | Query::DrawStat { n, .. } => usize::from(*n),
        Query::Stat { n, .. } | Query::Pick { n, .. } => usize::from(*n),
    }
}

/// The greatest length that a query needs; 0 where none needs any.
fn greatest_needed(queries: &Queries) -> usize
    ensures value { result ≡ greatest_needed queries.now }
    ensures all { All (λ q. length_needed q ≤ result) queries.now }
    ensures few { result ≤ MAX_LENGTH }
{
    let mut greatest: usize = 0;
    for query in queries.as_slice() {
        greatest = greatest.max(length_needed(query));
    }
    greatest
}

/// The numbers of the members of the class up to the greatest length that a query needs; none where none needs any.
fn table_for(
    alloc: Global,
    class: &SettledClass,
    queries: &Queries,
) -> Result<Option<Table>, Memory>
    ensures made { IfOk result (IsTableFor class.now.system (greatest_needed queries.now)) }
    ensures serves { IfOk result (λ table. All (λ q. Serves class.now.system (length_needed q) table) queries.now) }
{
    match greatest_needed(queries) {
        0 => Ok(None),
        n => Ok(Some(Table::new(alloc, class.system(), n)?)),
    }
}

/// The table, where a length of at least 1 is needed.
fn needed<'a>(class: &SettledClass, table: &'a Option<Table>, n: usize) -> &'a Table
    requires serves { Serves class.now.system n table.now }
    requires some { 1 ≤ n }
    ensures system { result.now.system ≡ class.now.system }
    ensures largest { n ≤ result.now.largest }
{
    match table {
        Some(table) => table,
        None => unreachable!(),
    }
}

/// Writes an answer of one line.
fn put_line<K: Sink, T: Text>(
    sink: &mut K,
    waiting: &mut SureSink,
    query: &Query,
    answer: &T,
) -> Result<(), Stop>
    ensures whole { OnOk result (PassesOn (K.held sink.old) (K.held sink.new) (waiting.old.held ++ one_line query.now (T.text answer.now)) waiting.new.held) }
    ensures part { AppendsPart (K.held sink.old) (K.held sink.new) (waiting.old.held ++ one_line query.now (T.text answer.now)) }
    ensures later { K.faults sink.old ≤ K.faults sink.new }
    ensures failed { IsErrOf result Stop.WriteFault → Rose (K.faults sink.old) (K.faults sink.new) }
{
    let line = (query, Bytes(b" = "), answer, Bytes(b"\n"));
    put_text(sink, waiting, &line)
}

/// Writes the answer of `counts`: the query, and the number of the members of each length up to n.
fn put_all_counts<K: Sink>(
    sink: &mut K,
    waiting: &mut SureSink,
    class: &SettledClass,
    table: &Table,
    query: &Query,
    n: usize,
) -> Result<(), Stop>
    requires stands { table.now.system ≡ class.now.system }
    requires most { n ≤ table.now.largest }
    ensures whole { OnOk result (PassesOn (K.held sink.old) (K.held sink.new) (waiting.old.held ++ (query_text query.now ⊹ codes " =" ⊹ counts_text class.now.system n ⊹ codes "\n")) waiting.new.held) }
    ensures part { AppendsPart (K.held sink.old) (K.held sink.new) (waiting.old.held ++ (query_text query.now ⊹ codes " =" ⊹ counts_text class.now.system n ⊹ codes "\n")) }
    ensures later { K.faults sink.old ≤ K.faults sink.new }
    ensures failed { IsErrOf result Stop.WriteFault → Rose (K.faults sink.old) (K.faults sink.new) }
{
    let counts = CountsTo { table, largest: n };
    let line = (query, Bytes(b" ="), counts, Bytes(b"\n"));
    put_text(sink, waiting, &line)
}

/// Writes the lines of the members that are drawn, after the query and before `end`.
fn put_drawn_rows<K: Sink>(
    sink: &mut K,
    waiting: &mut SureSink,
    query: &Query,
    rows: &DrawnRows<'_>,
) -> Result<(), Stop>
    ensures whole { OnOk result (PassesOn (K.held sink.old) (K.held sink.new) (waiting.old.held ++ (query_text query.now ⊹ codes " =\n" ⊹ draws_text rows.now.urn.system.now rows.now.urn.n rows.now.seed rows.now.many ⊹ codes "end\n")) waiting.new.held) }
    ensures part { AppendsPart (K.held sink.old) (K.held sink.new) (waiting.old.held ++ (query_text query.now ⊹ codes " =\n" ⊹ draws_text rows.now.urn.system.now rows.now.urn.n rows.now.seed rows.now.many ⊹ codes "end\n")) }
    ensures later { K.faults sink.old ≤ K.faults sink.new }
    ensures failed { IsErrOf result Stop.WriteFault → Rose (K.faults sink.old) (K.faults sink.new) }
{
    let answer = (query, Bytes(b" =\n"), rows, Bytes(b"end\n"));
    put_text(sink, waiting, &answer)
}

/// Writes the answer of `draw`: the query, the lines of the members that are drawn, and `end`, where the number of members is
/// known and isn't 0.
fn put_draws<K: Sink>(
    sink: &mut K,
    waiting: &mut SureSink,
    class: &SettledClass,
    table: &Table,
    query: &Query,
    n: usize,
    seed: u64,
    many: u32,
) -> Result<(), Stop>
    requires stands { table.now.system ≡ class.now.system }
    requires least { 1 ≤ n }
    requires most { n ≤ table.now.largest }
    ensures whole { OnOk result (PassesOn (K.held sink.old) (K.held sink.new) (waiting.old.held ++ (drawn_answer query.now (member_count class.now.system n) (query_text query.now ⊹ codes " =\n" ⊹ draws_text class.now.system n seed many ⊹ codes "end\n"))) waiting.new.held) }
    ensures part { AppendsPart (K.held sink.old) (K.held sink.new) (waiting.old.held ++ (drawn_answer query.now (member_count class.now.system n) (query_text query.now ⊹ codes " =\n" ⊹ draws_text class.now.system n seed many ⊹ codes "end\n"))) }
    ensures later { K.faults sink.old ≤ K.faults sink.new }
    ensures failed { IsErrOf result Stop.WriteFault → Rose (K.faults sink.old) (K.faults sink.new) }
{
    match member_count(table, n) {
        Count::Over => put_line(sink, waiting, query, &Bytes(b"over")),
        Count::Known(count) => {
            if count == 0 {
                return put_line(sink, waiting, query, &Bytes(b"none of 0"));
            }
            let urn = Urn {
                system: class.system(),
                table,
                n,
                count,
            };
            put_drawn_rows(sink, waiting, query, &DrawnRows { urn, seed, many })
        }
    }
}

/// Writes the answer of `drawstat`: what a statistic is over the members that are drawn, where their number is known and
/// isn't 0.
fn put_drawn_statistic<K: Sink>(
    sink: &mut K,
    waiting: &mut SureSink,
    class: &SettledClass,
    table: &Table,
    query: &Query,
    kind: StatKind,
    n: usize,
    seed: u64,
    many: u32,
) -> Result<(), Stop>
    requires stands { table.now.system ≡ class.now.system }
    requires least { 1 ≤ n }
    requires most { n ≤ table.now.largest }
    requires some { 1 ≤ many }
    requires few { many ≤ MAX_DRAWN }
    ensures whole { OnOk result (PassesOn (K.held sink.old) (K.held sink.new) (waiting.old.held ++ (drawn_answer query.now (member_count class.now.system n) (one_line query.now (summary_text (drawn_values kind (draws (members class.now.system n) seed many)))))) waiting.new.held) }
    ensures part { AppendsPart (K.held sink.old) (K.held sink.new) (waiting.old.held ++ (drawn_answer query.now (member_count class.now.system n) (one_line query.now (summary_text (drawn_values kind (draws (members class.now.system n) seed many)))))) }
    ensures later { K.faults sink.old ≤ K.faults sink.new }
    ensures failed { IsErrOf result Stop.WriteFault → Rose (K.faults sink.old) (K.faults sink.new) }
{
    match member_count(table, n) {
        Count::Over => put_line(sink, waiting, query, &Bytes(b"over")),
        Count::Known(count) => {
            if count == 0 {
                return put_line(sink, waiting, query, &Bytes(b"none of 0"));
            }
            let urn = Urn {
                system: class.system(),
                table,
                n,
                count,
            };
            put_line(sink, waiting, query, &urn.summary(kind, seed, many))
        }
    }
}

/// Writes the answer of a query about members of the class, with their numbers up to the length that it needs.
#[tactic(auto, unfolding(crate::specs::Answers::answer_text))]
fn put_by_table<K: Sink>(
    alloc: Global,
    sink: &mut K,
    waiting: &mut SureSink,
    class: &SettledClass,
    table: &Table,
    query: &Query,
) -> Result<(), Stop>
    requires range { IsInRange query.now }
    requires stands { table.now.system ≡ class.now.system }
    requires some { 1 ≤ length_needed query.now }
    requires most { length_needed query.now ≤ table.now.largest }
    ensures whole { OnOk result (PassesOn (K.held sink.old) (K.held sink.new) (waiting.old.held ++ answer_text class.now query.now) waiting.new.held) }
    ensures part { AppendsPart (K.held sink.old) (K.held sink.new) (waiting.old.held ++ answer_text class.now query.now) }
    ensures later { K.faults sink.old ≤ K.faults sink.new }
    ensures failed { IsErrOf result Stop.WriteFault → Rose (K.faults sink.old) (K.faults sink.new) }
{
    match query {
        Query::Count { n } => {
            let count = member_count(table, usize::from(*n));
            put_line(sink, waiting, query, &count)
        }
        Query::Counts { n } => {
            put_all_counts(sink, waiting, class, table, query, usize::from(*n))
        }
        Query::List { n, start, many } => {
            let n = usize::from(*n);
            put_list(alloc, sink, waiting, class, table, query, n, *start, *many)
        }
        Query::Unrank { n, r } => {
            let word = word_at(class, table, usize::from(*n), *r);
            put_line(sink, waiting, query, &word)
        }
        Query::Rank { word } => put_line(sink, waiting, query, &place_of(class, table, word)),
        Query::Draw { n, seed, many } => {
            let n = usize::from(*n);
            put_draws(sink, waiting, class, table, query, n, *seed, *many)
        }
        Query::DrawStat {
            kind,
            n,
            seed,
            many,
        } => {
            let n = usize::from(*n);
            put_drawn_statistic(sink, waiting, class, table, query, *kind, n, *seed, *many)
        }
        Query::Stat { kind, n } => {
            let bars = histogram_of(alloc, class, table, *kind, usize::from(*n))?;
            put_line(sink, waiting, query, &bars)
        }
        Query::Pick { kind, value, n } => {
            let n = usize::from(*n);
            put_pick(alloc, sink, waiting, class, table, query, *kind, *value, n)
        }
        Query::Tree { .. } | Query::Dist { .. } => unreachable!(),
    }
}

/// Writes the answer of a query about a settled class, with a table that serves it.
#[tactic(auto, unfolding(crate::specs::Answers::answer_text))]
fn put_answer<K: Sink>(
    alloc: Global,
    sink: &mut K,
    waiting: &mut SureSink,
    class: &SettledClass,
    table: &Option<Table>,
    query: &Query,
) -> Result<(), Stop>
    requires range { IsInRange query.now }
    requires serves { Serves class.now.system (length_needed query.now) table.now }
    ensures whole { OnOk result (PassesOn (K.held sink.old) (K.held sink.new) (waiting.old.held ++ answer_text class.now query.now) waiting.new.held) }
    ensures part { AppendsPart (K.held sink.old) (K.held sink.new) (waiting.old.held ++ answer_text class.now query.now) }
    ensures later { K.faults sink.old ≤ K.faults sink.new }
    ensures failed { IsErrOf result Stop.WriteFault → Rose (K.faults sink.old) (K.faults sink.new) }
{
    match query {
        Query::Tree { word } => put_line(sink, waiting, query, &tree(alloc, word)?),
        Query::Dist { kind, n } => {
            let bars = distribution_of(alloc, class, *kind, usize::from(*n))?;
            put_line(sink, waiting, query, &bars)
        }
        _ => {
            let table = needed(class, table, length_needed(query));
            put_by_table(alloc, sink, waiting, class, table, query)
        }
    }
}

/// Writes the answers of the queries in order, with a table that serves them. They wait in memory until they make a large
/// piece; a list passes such pieces on while it runs.
fn put_each<K: Sink>(
    alloc: Global,
    sink: &mut K,
    class: &SettledClass,
    table: &Option<Table>,
    queries: &Queries,
) -> Result<(), Stop>
    requires { All (λ q. Serves class.now.system (length_needed q) table.now) queries.now }
    ensures whole { OnOk result (Appends (K.held sink.old) (K.held sink.new) (flat_map (answer_text class.now) queries.now)) }
    ensures part { AppendsPart (K.held sink.old) (K.held sink.new) (flat_map (answer_text class.now) queries.now) }
    ensures later { K.faults sink.old ≤ K.faults sink.new }
    ensures failed { IsErrOf result Stop.WriteFault → Rose (K.faults sink.old) (K.faults sink.new) }
{
    let mut waiting = SureSink::new(alloc);
    for query in queries.as_slice() {
        put_answer(alloc, sink, &mut waiting, class, table, query)?;
    }
    waiting.pass_on(sink)?;
    Ok(())
}

/// Writes the answers of the queries in order.
pub fn put_answers<K: Sink>(
    alloc: Global,
    sink: &mut K,
    class: &SettledClass,
    queries: &Queries,
) -> Result<(), Stop>
    ensures whole { OnOk result (Appends (K.held sink.old) (K.held sink.new) (flat_map (answer_text class.now) queries.now)) }
    ensures part { AppendsPart (K.held sink.old) (K.held sink.new) (flat_map (answer_text class.now) queries.now) }
    ensures later { K.faults sink.old ≤ K.faults sink.new }
    ensures failed { IsErrOf result Stop.WriteFault → Rose (K.faults sink.old) (K.faults sink.new) }
{
    let table = table_for(alloc, class, queries)?;
    put_each(alloc, sink, class, &table, queries)
}
