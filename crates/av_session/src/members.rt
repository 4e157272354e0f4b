// The numbers of the members of a class.
ghost use Rattle.std.specs.Prelude.{◌≡◌, ◌≤◌};
ghost use Rattle.av_session.specs.Answers.{member_count};

use av_count::{Count, Table};
use av_io::{Sink, SinkFault};
use av_print::{Bytes, Text};

/// How many members of a length there are.
#[tactic(auto, unfolding(av_sys::specs::TreeLists::count_of))]
pub fn member_count(table: &Table, n: usize) -> Count
    requires { n ≤ table.now.largest }
    ensures { result ≡ member_count table.now.system n }
{
    let _largest = table.largest();
    table.get(0, n)
}

/// The numbers of the members of the lengths from 1 to the largest, each after a space.
#[derive(Clone, Copy)]
pub struct CountsTo<'a> {
    pub table: &'a Table,
    pub largest: usize,
    ghost within: { largest ≤ table.now.largest },
}

impl Text for CountsTo<'_> {
    ghost use Rattle.av_session.specs.Answers.{counts_text};

    ghost text = { λ counts. counts_text counts.table.now.system counts.largest };

    fn put_on<K: Sink>(&self, sink: &mut K) -> Result<(), SinkFault> {
        let _largest = self.table.largest();
        for m in 1..self.largest + 1 {
            (Bytes(b" "), member_count(self.table, m)).put_on(sink)?;
        }
        Ok(())
    }
}
