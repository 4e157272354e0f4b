// Systems.
ghost use Rattle.std.specs.Prelude.{◌≡◌, ◌≤◌, OnOk, IsErrOf};
ghost use Rattle.std.specs.Io.KnownBytes.{Appends};
ghost use Rattle.av_io.specs.Causes.{Rose};
ghost use Rattle.av_print.specs.Wrote.{AppendsPart};
ghost use Rattle.av_print.specs.Systems.{system_text, terms_count};

use crate::bytes::{Bytes, put};
use crate::joined::Joined;
use crate::numbers::Number;
use crate::text::Text;
use crate::trees::Root;
use av_io::{Sink, SinkFault};
use av_sys::{Children, Equation, EquationNumber, Equations, Name, Sign, System, Term, Terms};

/// The number of an equation, whose text is its numeral after an `E`.
#[derive(Clone, Copy)]
struct Label(u128);

impl Text for Label {
    ghost use Rattle.av_print.specs.Systems.{number_text};

    ghost text = { λ number. number_text number.0 };

    #[tactic(auto, unfolding(crate::specs::Systems::number_text))]
    fn put_on<K: Sink>(&self, sink: &mut K) -> Result<(), SinkFault> {
        (Bytes(b"E"), Number(self.0)).put_on(sink)
    }
}

impl Text for EquationNumber {
    ghost use Rattle.av_print.specs.Systems.{number_text};

    ghost text = { number_text };

    fn put_on<K: Sink>(&self, sink: &mut K) -> Result<(), SinkFault> {
        Label(u128::from(self.0)).put_on(sink)
    }
}

impl Text for Children {
    ghost use Rattle.av_print.specs.Systems.{children_text};

    ghost text = { children_text };

    #[tactic(auto, unfolding(crate::specs::Systems::children_text))]
    fn put_on<K: Sink>(&self, sink: &mut K) -> Result<(), SinkFault> {
        Joined {
            separator: b",",
            items: self.as_slice(),
        }
        .put_on(sink)
    }
}

impl Text for Term {
    ghost use Rattle.av_print.specs.Systems.{term_text};

    ghost text = { term_text };

    #[tactic(auto, unfolding(crate::specs::Systems::term_text))]
    fn put_on<K: Sink>(&self, sink: &mut K) -> Result<(), SinkFault> {
        match self {
            Term::Point => put(sink, b"1"),
            Term::Node { root, children } => {
                (Root(root), Bytes(b"["), children, Bytes(b"]")).put_on(sink)
            }
        }
    }
}

/// Terms are joined by bars. Without a term the text is `none`.
impl Text for Terms {
    ghost use Rattle.av_print.specs.Systems.{terms_text};

    ghost text = { terms_text };

    #[tactic(auto, unfolding(crate::specs::Systems::terms_text))]
    fn put_on<K: Sink>(&self, sink: &mut K) -> Result<(), SinkFault> {
        match self.as_slice() {
            [] => put(sink, b"none"),
            items => Joined {
                separator: b" | ",
                items,
            }
            .put_on(sink),
        }
    }
}

impl Text for Sign {
    ghost use Rattle.av_print.specs.Systems.{sign_text};

    ghost text = { sign_text };

    fn put_on<K: Sink>(&self, sink: &mut K) -> Result<(), SinkFault> {
        match self {
            Sign::C => put(sink, b"C"),
            Sign::P => put(sink, b"P"),
            Sign::M => put(sink, b"M"),
        }
    }
}

/// A name's text is its sign, the words that it avoids and those that it requires.
impl Text for Name {
    ghost use Rattle.av_print.specs.Systems.{name_text};

    ghost text = { name_text };

    #[tactic(auto, unfolding(crate::specs::Systems::name_text))]
    fn put_on<K: Sink>(&self, sink: &mut K) -> Result<(), SinkFault> {
        let required = (Bytes(b" require "), &self.require);
        (self.sign, Bytes(b" avoid "), &self.avoid, required).put_on(sink)
    }
}

/// An equation with its number, whose text is a line.
#[derive(Clone, Copy)]
struct Line<'a> {
    number: Label,
    equation: &'a Equation,
}

impl Text for Line<'_> {
    ghost use Rattle.av_print.specs.Systems.{equation_text};

    ghost text = { λ line. equation_text line.number.0 line.equation.now };

    #[tactic(auto, unfolding(crate::specs::Systems::equation_text))]
    fn put_on<K: Sink>(&self, sink: &mut K) -> Result<(), SinkFault> {
        let made = (Bytes(b" = "), &self.equation.terms, Bytes(b"\n"));
        (self.number, Bytes(b" "), &self.equation.name, made).put_on(sink)
    }
}

/// The lines of equations that are numbered from 0 on.
impl Text for Equations {
    ghost use Rattle.av_print.specs.Systems.{equations_text};

    ghost text = { equations_text 0 };

    fn put_on<K: Sink>(&self, sink: &mut K) -> Result<(), SinkFault> {
        let mut number: u128 = 0;
        for equation in self.as_slice() {
            let line = Line {
                number: Label(number),
                equation,
            };
            line.put_on(sink)?;
            number += 1;
        }
        Ok(())
    }
}

/// The version, and how many equations and how many terms there are, whose text is the first line.
#[derive(Clone, Copy)]
struct Counts {
    version: u8,
    equations: u128,
    terms: u128,
}

impl Text for Counts {
    ghost use Rattle.av_print.specs.Systems.{counts_text};

    ghost text = { λ counts. counts_text counts.version counts.equations counts.terms };

    #[tactic(auto, unfolding(crate::specs::Systems::counts_text))]
    fn put_on<K: Sink>(&self, sink: &mut K) -> Result<(), SinkFault> {
        let terms = (Bytes(b" terms "), Number(self.terms), Bytes(b"\n"));
        let equations = (Bytes(b" equations "), Number(self.equations), terms);
        (
            Bytes(b"system "),
            Number(u128::from(self.version)),
            equations,
        )
            .put_on(sink)
    }
}

/// The number of all terms of the equations.
pub fn terms_count(equations: &Equations) -> u128
    ensures { result ≡ terms_count equations.now }
{
    let mut count: u128 = 0;
    for equation in equations.as_slice() {
        count += equation.terms.len() as u128;
    }
    count
}

/// Writes the system: a line with the version, the number of its equations and that of all their terms, a line for each
/// equation, and the line `end`. Version 1 is that of a canonical system, and version 2 that of a pruned one. Two different
/// pairs of a version and a well-formed system have different texts, as [`crate::laws::system_text_law`] says.
#[tactic(auto, unfolding(crate::specs::Systems::system_text))]
pub fn put_system<K: Sink>(sink: &mut K, system: &System, version: u8) -> Result<(), SinkFault>
    ensures whole { OnOk result (Appends (K.held sink.old) (K.held sink.new) (system_text version system.now)) }
    ensures part { AppendsPart (K.held sink.old) (K.held sink.new) (system_text version system.now) }
    ensures later { K.faults sink.old ≤ K.faults sink.new }
    ensures wants_later { K.wants sink.old ≤ K.wants sink.new }
    ensures failed { IsErrOf result SinkFault.Failed → Rose (K.faults sink.old) (K.faults sink.new) }
    ensures memory { IsErrOf result SinkFault.Memory → Rose (K.wants sink.old) (K.wants sink.new) }
{
    let equations = &system.equations;
    let counts = Counts {
        version,
        equations: equations.len() as u128,
        terms: terms_count(equations),
    };
    (counts, equations, Bytes(b"end\n")).put_on(sink)
}
