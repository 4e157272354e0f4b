// What is known of the patterns in a box that is being split.
ghost use Rattle.std.specs.Prelude.{◌≡◌, ◌<◌, [], ◌∷◌, ◌++◌, length, get_or, set, true, false, IfOk, OnOk, OnErr};
ghost use Rattle.av_name.specs.declared.constraints.Known.{Known};
ghost use Rattle.av_split.specs.Marks.{once, next_mark, is_side, is_named, unmarked};

use av_name::Known;
use av_perm::Memory;
use std::alloc::Global;
use std::marker::Model;

/// What is known of a pattern at a child, and whether it is a word of the child's constraint.
#[derive(Clone, Copy, Debug)]
pub struct Mark {
    pub known: Known,
    pub named: bool,
}

// What is known of a pattern that a settled word tells of.
fn once(required: bool, known: Known) -> Known
    ensures { result ≡ once required true known }
{
    match known {
        Known::Open => {
            if required {
                Known::Inside
            } else {
                Known::Outside
            }
        }
        Known::Inside => Known::Inside,
        Known::Outside => Known::Outside,
    }
}

/// The mark once a word is settled, by whether the pattern is that word, and whether the word tells of it.
pub fn next_mark(required: bool, itself: bool, related: bool, mark: Mark) -> Mark
    ensures { result ≡ next_mark required itself related mark }
{
    if related {
        Mark {
            known: once(required, mark.known),
            named: itself,
        }
    } else {
        mark
    }
}

// Whether it is that of a required word, or of an avoided one.
fn is_side(required: bool, known: Known) -> bool
    ensures { result ≡ is_side required known }
{
    match known {
        Known::Open => false,
        Known::Inside => required,
        Known::Outside => !required,
    }
}

/// Whether the mark is that of a required word of the constraint, or of an avoided one.
pub fn is_named(required: bool, mark: Mark) -> bool
    ensures { result ≡ is_named required mark }
{
    mark.named && is_side(required, mark.known)
}

/// A mark for each pattern.
#[derive(Drop)]
pub struct Row {
    marks: Vec<Mark>,
}

impl Model for Row {
    ghost use Rattle.std.specs.Prelude.{List};
    ghost use Rattle.av_split.specs.declared.rows.Mark.{Mark};

    ghost Value = { List Mark };

    ghost view = { λ r. r.marks.items };
}

impl Row {
    /// The empty row.
    pub fn empty(alloc: Global) -> Row
        ensures { result ≡ [] }
    {
        Row {
            marks: Vec::new(alloc),
        }
    }

    /// The mark of a pattern, by its number.
    pub fn get(&self, i: usize) -> Mark
        requires { i < length self.now }
        ensures { result ≡ get_or self.now i unmarked }
    {
        self.marks[i]
    }

    /// Appends the mark of the next pattern.
    pub fn push(&mut self, mark: Mark) -> Result<(), Memory>
        ensures ok { OnOk result (self.new ≡ self.old ++ mark ∷ []) }
        ensures err { OnErr result (self.new ≡ self.old) }
    {
        match self.marks.push(mark) {
            Ok(()) => Ok(()),
            Err(_) => Err(Memory),
        }
    }

    /// Changes the mark of a pattern.
    pub fn set(&mut self, i: usize, mark: Mark)
        requires { i < length self.old }
        ensures { self.new ≡ set self.old i mark }
    {
        self.marks[i] = mark;
    }

    /// An equal row.
    pub fn copy(&self) -> Result<Row, Memory>
        ensures { IfOk result (λ copy. copy ≡ self.now) }
    {
        Ok(Row {
            marks: self.marks.clone().map_err(|_| Memory)?,
        })
    }
}
