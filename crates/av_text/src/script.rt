// Scripts.
ghost use Rattle.std.specs.Prelude.{◌≡◌, ◌<◌, List, [], ◌∷◌, ◌++◌, length, slice_get, Some, OnOk, OnErr, IfOk, All};
ghost use Rattle.av_text.specs.Read.{line_said, at_line, read};
ghost use Rattle.av_text.specs.Queries.{IsInRange};
ghost use Rattle.av_text.specs.Ranges.{AsksInRange, KeepsLimits};
ghost use Rattle.av_text.specs.Results.{GivesScript};

use crate::Kind;
use crate::heard::Heard;
use crate::limits::MAX_SCRIPT_BYTES;
use crate::lines::Lines;
use crate::queries::Query;
use crate::says::{LineFault, Says, Seen, line_said};
use av_perm::{Memory, Words};
use std::alloc::Global;
use std::marker::Model;

/// A list of queries, each in its range, on an allocator of its own.
#[derive(Drop)]
pub struct Queries {
    items: Vec<Query>,
}

impl Model for Queries {
    ghost use Rattle.std.specs.Prelude.{List, All};
    ghost use Rattle.av_text.specs.declared.queries.Query.{Query};

    ghost Value = { List Query };

    ghost use Rattle.av_text.specs.Queries.{IsInRange};

    ghost view = { λ q. q.items.items };

    ghost invariant = { λ q. All IsInRange q.items.items };
}

impl Queries {
    /// The empty list. It takes no memory.
    pub fn empty(alloc: Global) -> Queries
        ensures { result ≡ [] }
    {
        Queries {
            items: Vec::new(alloc),
        }
    }

    /// The number of queries.
    pub fn len(&self) -> usize
        ensures value { result ≡ length self.now }
        ensures range { All IsInRange self.now }
    {
        self.items.len()
    }

    /// The query at an index, from 0 on.
    pub fn get(&self, i: usize) -> &Query
        requires { i < length self.now }
        ensures value { slice_get self.now i ≡ Some result.now }
        ensures range { IsInRange result.now }
    {
        &self.items[i]
    }

    /// Its queries.
    pub fn as_slice(&self) -> &[Query]
        ensures value { result.now ≡ self.now }
        ensures range { All IsInRange self.now }
    {
        &self.items
    }

    /// Appends a query that is in its range. After `Memory` the list is as before, and the query is dropped.
    pub fn push(&mut self, query: Query) -> Result<(), Memory>
        requires { IsInRange query }
        ensures ok { OnOk result (self.new ≡ self.old ++ query ∷ []) }
        ensures err { OnErr result (self.new ≡ self.old) }
    {
        self.items.push(query).map_err(|_| Memory)
    }
}

/// What a script says.
#[derive(Drop)]
pub struct Script {
    /// The words of the basis line as they are written, neither sorted nor reduced: 0 to 64 words of 1 to 12 entries.
    pub basis: Words,
    /// The words of the union line as they are written, likewise; or none where there is no such line. A word of the basis and one
    /// of these have together at most 10 entries.
    pub union_with: Option<Words>,
    /// The required words of their line as they are written, neither sorted nor reduced: 0 to 64 words of 1 to 12 entries; or
    /// none where there is no such line.
    pub require: Option<Words>,
    /// The format of the system: 1, or 2, which it is where there is no format line.
    pub format: u8,
    /// The queries, in the order of their lines.
    pub queries: Queries,
}

/// Why a script isn't read.
#[derive(Clone, Copy, Debug, PartialEq, Eq, thiserror::Error)]
pub enum ScriptError {
    /// Memory is wanting.
    #[error("memory is wanting")]
    Memory,
    /// The text isn't a script.
    #[error("line {line}: {kind}")]
    Refused {
        /// The line of the first fault, counted from 1, or 0 for a fault of the text as a whole.
        line: u32,
        /// The kind of the first fault of that line.
        kind: Kind,
    },
}

impl From<Memory> for ScriptError {
    ghost use Rattle.av_text.specs.declared.script.ScriptError.TheVariants.{Memory};

    ghost from_gives = { λ _ error. error ≡ Memory };

    fn from(_error: Memory) -> ScriptError {
        ScriptError::Memory
    }
}

/// What a line with this number says, after lines that said what was seen.
fn line_at(alloc: Global, number: u32, seen: Seen, line: &[u8]) -> Result<Says, ScriptError>
    ensures value { GivesScript result (at_line number (line_said seen line.now)) }
    ensures range { IfOk result AsksInRange }
{
    match line_said(alloc, seen, line) {
        Ok(said) => Ok(said),
        Err(LineFault::Memory) => Err(ScriptError::Memory),
        Err(LineFault::Refused(kind)) => Err(ScriptError::Refused { line: number, kind }),
    }
}

/// The script that a text is. `Refused` comes exactly where the text is none, with the line and the kind of its first
/// fault. `Memory` comes only for want of memory. Every script that is read keeps the limits of the grammar: at most 64
/// basis words, at most 64 words of the union line and at most 64 required words, of at most 12 entries each, a basis word and one
/// of the union line with together at most 10, and, as [`Queries`] tells, each number and each word of a query in its range.
pub fn read_script(alloc: Global, bytes: &[u8]) -> Result<Script, ScriptError>
    ensures script { GivesScript result (read bytes.now) }
    ensures limits { IfOk result KeepsLimits }
{
    if bytes.len() > MAX_SCRIPT_BYTES {
        return Err(ScriptError::Refused {
            line: 0,
            kind: Kind::TooLong,
        });
    }
    let mut heard = Heard::nothing(alloc);
    let mut lines = Lines::new(bytes);
    let mut number: u32 = 0;
    while let Some(line) = lines.next_line() {
        number += 1;
        let said = line_at(alloc, number, heard.seen(), line)?;
        heard.note(number, said)?;
    }
    heard.script()
}
