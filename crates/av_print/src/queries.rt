// Queries.
ghost use Rattle.std.specs.Prelude.{◌≤◌, ◌++◌, codes, OnOk, IsErrOf};
ghost use Rattle.std.specs.Io.KnownBytes.{Appends};
ghost use Rattle.av_io.specs.Causes.{Rose};
ghost use Rattle.av_print.specs.Wrote.{AppendsPart};
ghost use Rattle.av_print.specs.Text.{query_text};

use crate::bytes::{Bytes, put};
use crate::numbers::Number;
use crate::text::Text;
use av_io::{Sink, SinkFault};
use av_perm::StatKind;
use av_text::{DistKind, Form, Query, statistic_name};

/// Texts with a single space between each two.
#[derive(Clone, Copy)]
struct Spaced<T>(T);

impl<A: Text, B: Text> Text for Spaced<(A, B)> {
    ghost text = { λ texts. A.text texts.0.0 ++ (codes " " ++ B.text texts.0.1) };

    fn put_on<K: Sink>(&self, sink: &mut K) -> Result<(), SinkFault> {
        (&self.0.0, Bytes(b" "), &self.0.1).put_on(sink)
    }
}

impl<A: Text, B: Text, C: Text> Text for Spaced<(A, B, C)> {
    ghost text = { λ texts. A.text texts.0.0 ++ (codes " " ++ (B.text texts.0.1 ++ (codes " " ++ C.text texts.0.2))) };

    fn put_on<K: Sink>(&self, sink: &mut K) -> Result<(), SinkFault> {
        let last = (Bytes(b" "), &self.0.2);
        (&self.0.0, Bytes(b" "), &self.0.1, last).put_on(sink)
    }
}

impl<A: Text, B: Text, C: Text, D: Text> Text for Spaced<(A, B, C, D)> {
    ghost text = { λ texts. A.text texts.0.0 ++ (codes " " ++ (B.text texts.0.1 ++ (codes " " ++ (C.text texts.0.2 ++ (codes " " ++ D.text texts.0.3))))) };

    fn put_on<K: Sink>(&self, sink: &mut K) -> Result<(), SinkFault> {
        let last = Spaced((&self.0.2, &self.0.3));
        Spaced((&self.0.0, &self.0.1, last)).put_on(sink)
    }
}

/// A form's text is its name.
impl Text for Form {
    ghost use Rattle.av_text.specs.Queries.{form_name};

    ghost text = { form_name };

    fn put_on<K: Sink>(&self, sink: &mut K) -> Result<(), SinkFault> {
        put(sink, self.name())
    }
}

/// A statistic's text is its name.
impl Text for StatKind {
    ghost use Rattle.av_text.specs.Queries.{statistic_name};

    ghost text = { statistic_name };

    fn put_on<K: Sink>(&self, sink: &mut K) -> Result<(), SinkFault> {
        put(sink, statistic_name(*self))
    }
}

/// The text of a kind of distribution is the name of its statistic.
impl Text for DistKind {
    ghost use Rattle.av_text.specs.Queries.{dist_kind_name};

    ghost text = { dist_kind_name };

    fn put_on<K: Sink>(&self, sink: &mut K) -> Result<(), SinkFault> {
        put(sink, statistic_name(self.statistic()))
    }
}

/// Writes the query's canonical text: its form with single spaces, with words in their text. Read as a line of a script it
/// is the query again, as [`crate::laws::query_text_law`] says.
#[tactic(auto, unfolding(crate::specs::Text::query_text, crate::specs::Text::query_tokens))]
pub fn put_query<K: Sink>(sink: &mut K, query: &Query) -> Result<(), SinkFault>
    ensures whole { OnOk result (Appends (K.held sink.old) (K.held sink.new) (query_text query.now)) }
    ensures part { AppendsPart (K.held sink.old) (K.held sink.new) (query_text query.now) }
    ensures later { K.faults sink.old ≤ K.faults sink.new }
    ensures wants_later { K.wants sink.old ≤ K.wants sink.new }
    ensures failed { IsErrOf result SinkFault.Failed → Rose (K.faults sink.old) (K.faults sink.new) }
    ensures memory { IsErrOf result SinkFault.Memory → Rose (K.wants sink.old) (K.wants sink.new) }
{
    match query {
        Query::Count { n } => Spaced((Form::Count, n)).put_on(sink),
        Query::Counts { n } => Spaced((Form::Counts, n)).put_on(sink),
        Query::List { n, start, many } => {
            let many = Spaced((Bytes(b"for"), Number(u128::from(*many))));
            let part = Spaced((Bytes(b"from"), Number(*start), many));
            Spaced((Form::List, n, part)).put_on(sink)
        }
        Query::Unrank { n, r } => Spaced((Form::Unrank, n, Number(*r))).put_on(sink),
        Query::Rank { word } => Spaced((Form::Rank, word)).put_on(sink),
        Query::Tree { word } => Spaced((Form::Tree, word)).put_on(sink),
        Query::Draw { n, seed, many } => {
            let draws = Spaced((Number(u128::from(*seed)), Number(u128::from(*many))));
            Spaced((Form::Draw, n, draws)).put_on(sink)
        }
        Query::DrawStat {
            kind,
            n,
            seed,
            many,
        } => {
            let draws = Spaced((Number(u128::from(*seed)), Number(u128::from(*many))));
            Spaced((Form::DrawStat, kind, n, draws)).put_on(sink)
        }
        Query::Stat { kind, n } => Spaced((Form::Stat, kind, n)).put_on(sink),
        Query::Pick { kind, value, n } => {
            let value = Number(u128::from(*value));
            Spaced((Form::Pick, kind, value, n)).put_on(sink)
        }
        Query::Dist { kind, n } => Spaced((Form::Dist, kind, n)).put_on(sink),
    }
}

impl Text for Query {
    ghost use Rattle.av_print.specs.Text.{query_text};

    ghost text = { query_text };

    fn put_on<K: Sink>(&self, sink: &mut K) -> Result<(), SinkFault> {
        put_query(sink, self)
    }
}
