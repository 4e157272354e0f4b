// What the lines so far have said.
ghost use Rattle.std.specs.Prelude.{◌≡◌, OnOk};
ghost use Rattle.av_text.specs.Read.{unseen, is_short, union_words};
ghost use Rattle.av_text.specs.Heard.{unheard, noted, seen_of, script_said};
ghost use Rattle.av_text.specs.Results.{GivesScript};
ghost use Rattle.av_text.specs.Ranges.{AsksInRange};

use crate::Kind;
use crate::limits::DEFAULT_FORMAT;
use crate::says::{Says, Seen};
use crate::script::{Queries, Script, ScriptError};
use av_perm::{Memory, Words};
use av_union::are_short;
use std::alloc::Global;

/// A union line.
#[derive(Drop)]
pub struct UnionLine {
    /// Its number, counted from 1.
    pub line: u32,
    /// Its words, as written.
    pub words: Words,
}

/// The words of the basis line, the union line, the words of the line of required words and the number of the format line, where
/// there was one, and the queries in order.
#[derive(Drop)]
pub struct Heard {
    pub basis: Option<Words>,
    pub union_with: Option<UnionLine>,
    pub require: Option<Words>,
    pub format: Option<u8>,
    pub queries: Queries,
}

impl Heard {
    /// Before the first line.
    pub fn nothing(alloc: Global) -> Heard
        ensures { result ≡ unheard }
    {
        Heard {
            basis: None,
            union_with: None,
            require: None,
            format: None,
            queries: Queries::empty(alloc),
        }
    }

    /// What was seen.
    pub fn seen(&self) -> Seen
        ensures { result ≡ seen_of self.now }
    {
        Seen {
            basis: self.basis.is_some(),
            union_with: self.union_with.is_some(),
            require: self.require.is_some(),
            format: self.format.is_some(),
        }
    }

    /// The line with this number says this.
    pub fn note(&mut self, number: u32, said: Says) -> Result<(), Memory>
        requires { AsksInRange said }
        ensures { OnOk result (self.new ≡ noted number self.old said) }
    {
        match said {
            Says::Nothing => {}
            Says::Basis(words) => self.basis = Some(words),
            Says::Unites(words) => {
                self.union_with = Some(UnionLine {
                    line: number,
                    words,
                })
            }
            Says::Requires(words) => self.require = Some(words),
            Says::Formats(number) => self.format = Some(number),
            Says::Asks(query) => self.queries.push(query)?,
        }
        Ok(())
    }

    /// The script, once no line is left.
    pub fn script(self) -> Result<Script, ScriptError>
        ensures { GivesScript result (script_said self) }
    {
        let Heard {
            basis,
            union_with,
            require,
            format,
            queries,
        } = self;
        let Some(basis) = basis else {
            return Err(ScriptError::Refused {
                line: 0,
                kind: Kind::NoBasis,
            });
        };
        let union_with = union_words(&basis, union_with)?;
        Ok(Script {
            basis,
            union_with,
            require,
            format: format.unwrap_or(DEFAULT_FORMAT),
            queries,
        })
    }
}

/// Whether each word of the basis and each of the union line have together at most as many entries as an overlay.
fn is_short(basis: &Words, united: &Words) -> bool
    ensures { result ≡ is_short basis.now united.now }
{
    are_short(basis, united)
}

/// The words of the union line, where there is one: none of them and none of the basis are too long together.
#[tactic(auto, unfolding(crate::specs::Read::union_words))]
fn union_words(basis: &Words, union_with: Option<UnionLine>) -> Result<Option<Words>, ScriptError>
    ensures { GivesScript result (union_words basis.now union_with) }
{
    let Some(UnionLine { line, words }) = union_with else {
        return Ok(None);
    };
    if is_short(basis, &words) {
        Ok(Some(words))
    } else {
        Err(ScriptError::Refused {
            line,
            kind: Kind::LongUnion,
        })
    }
}
