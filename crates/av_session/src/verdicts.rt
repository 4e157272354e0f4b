// The text of a verdict.
use av_check::{Flaw, Verdict};
use av_io::{Sink, SinkFault};
use av_perm::Perm;
use av_print::{Bytes, Number, Text, put, put_word};
use av_sys::EquationNumber;

/// A root, whose text is that of its word, in round brackets where it has more than nine entries.
#[derive(Clone, Copy)]
struct Root<'a>(&'a Perm);

impl Text for Root<'_> {
    ghost use Rattle.av_print.specs.Text.{root_text};

    ghost text = { λ root. root_text root.0.now };

    #[tactic(auto, unfolding(av_print::specs::Text::root_text))]
    fn put_on<K: Sink>(&self, sink: &mut K) -> Result<(), SinkFault> {
        if self.0.len() <= 9 {
            put_word(sink, self.0)
        } else {
            (Bytes(b"("), self.0, Bytes(b")")).put_on(sink)
        }
    }
}

/// What is wrong with the terms in a cell, whose text is one word.
#[derive(Clone, Copy)]
struct Wrong<'a>(&'a Flaw);

impl Text for Wrong<'_> {
    ghost use Rattle.av_session.specs.Checked.{flaw_text};

    ghost text = { λ wrong. flaw_text wrong.0.now };

    fn put_on<K: Sink>(&self, sink: &mut K) -> Result<(), SinkFault> {
        match self.0 {
            Flaw::Lost => put(sink, b"lost"),
            Flaw::Twice => put(sink, b"twice"),
            Flaw::Extra => put(sink, b"extra"),
            Flaw::Large => put(sink, b"large"),
        }
    }
}

/// The verdict on a claim, whose text is `yes`, or `no` with the equation and what is wrong with it.
#[derive(Clone, Copy)]
pub struct Judged<'a> {
    pub verdict: &'a Verdict,
}

impl Text for Judged<'_> {
    ghost use Rattle.av_session.specs.Checked.{verdict_text};

    ghost text = { λ judged. verdict_text judged.verdict.now };

    #[tactic(auto, unfolding(crate::specs::Checked::verdict_text))]
    fn put_on<K: Sink>(&self, sink: &mut K) -> Result<(), SinkFault> {
        match self.verdict {
            Verdict::Yes => put(sink, b"yes"),
            Verdict::Name { eq } => {
                let equation = EquationNumber(*eq);
                (Bytes(b"no "), equation, Bytes(b" name")).put_on(sink)
            }
            Verdict::Point { eq } => {
                let equation = EquationNumber(*eq);
                (Bytes(b"no "), equation, Bytes(b" point")).put_on(sink)
            }
            Verdict::Root { eq, root } => {
                let equation = EquationNumber(*eq);
                let wrong = (Root(root), Bytes(b" root"));
                (Bytes(b"no "), equation, Bytes(b" "), wrong).put_on(sink)
            }
            Verdict::Cell {
                eq,
                root,
                cell,
                flaw,
            } => {
                let place = (
                    Bytes(b" cell "),
                    Number(u128::from(*cell)),
                    Bytes(b" "),
                    Wrong(flaw),
                );
                let equation = EquationNumber(*eq);
                (Bytes(b"no "), equation, Bytes(b" "), (Root(root), place)).put_on(sink)
            }
        }
    }
}
