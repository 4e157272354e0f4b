// The header.
ghost use Rattle.std.specs.Prelude.{◌≤◌, OnOk, IsErrOf};
ghost use Rattle.std.specs.Io.KnownBytes.{Appends};
ghost use Rattle.av_io.specs.Causes.{Rose};
ghost use Rattle.av_print.specs.Wrote.{AppendsPart};
ghost use Rattle.av_session.specs.Due.{levels_text, union_text, require_text, header_text};

use crate::subject::{Subject, United};
use av_io::{Sink, SinkFault};
use av_perm::Words;
use av_print::{Bytes, Number, Text};
use av_simple::Found;

/// The numbers of simple words of the lengths searched.
#[derive(Clone, Copy)]
struct Levels<'a> {
    found: &'a Found,
}

impl Text for Levels<'_> {
    ghost use Rattle.av_session.specs.Due.{levels_text};

    ghost text = { λ levels. levels_text levels.found.now };

    fn put_on<K: Sink>(&self, sink: &mut K) -> Result<(), SinkFault> {
        let found = self.found;
        for m in 4..found.last() + 1 {
            let count = found.level(m).len();
            (
                Bytes(b" "),
                Number(m as u128),
                Bytes(b":"),
                Number(count as u128),
            )
                .put_on(sink)?;
        }
        Ok(())
    }
}

/// The line of the two lists of a union, where there is one.
#[derive(Clone, Copy)]
struct Unites<'a> {
    united: &'a Option<United>,
}

impl Text for Unites<'_> {
    ghost use Rattle.av_session.specs.Due.{union_text};

    ghost text = { λ line. union_text line.united.now };

    fn put_on<K: Sink>(&self, sink: &mut K) -> Result<(), SinkFault> {
        match self.united {
            Some(united) => (
                Bytes(b"union "),
                &united.first,
                Bytes(b" with "),
                (&united.second, Bytes(b"\n")),
            )
                .put_on(sink),
            None => Ok(()),
        }
    }
}

/// The line of the required words, where there is one.
#[derive(Clone, Copy)]
struct Requires<'a> {
    require: &'a Option<Words>,
}

impl Text for Requires<'_> {
    ghost use Rattle.av_session.specs.Due.{require_text};

    ghost text = { λ line. require_text line.require.now };

    fn put_on<K: Sink>(&self, sink: &mut K) -> Result<(), SinkFault> {
        match self.require {
            Some(required) => (Bytes(b"require "), required, Bytes(b"\n")).put_on(sink),
            None => Ok(()),
        }
    }
}

/// The header: the version, the two lists of a union, the basis, the required words and the numbers of simple words of the lengths searched.
#[derive(Clone, Copy)]
pub struct Header<'a> {
    pub subject: &'a Subject,
}

impl Text for Header<'_> {
    ghost use Rattle.av_session.specs.Due.{header_text};

    ghost text = { λ header. header_text header.subject.now };

    #[tactic(auto, unfolding(crate::specs::Due::header_text))]
    fn put_on<K: Sink>(&self, sink: &mut K) -> Result<(), SinkFault> {
        let found = &self.subject.found;
        let united = &self.subject.united;
        let require = &self.subject.require;
        (
            Bytes(b"permspec 1\n"),
            Unites { united },
            Bytes(b"basis "),
            (
                found.basis(),
                Bytes(b"\n"),
                Requires { require },
                (Bytes(b"simples"), Levels { found }, Bytes(b"\n")),
            ),
        )
            .put_on(sink)
    }
}
