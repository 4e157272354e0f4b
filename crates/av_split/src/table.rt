// The patterns, which of them contain which, and their order.
ghost use Rattle.std.specs.Prelude.{ℕ, ◌≡◌, ◌<◌, ◌==◌, [], map, length, get_or, set, replicate, false, IfOk, OnOk, ◌++◌};
ghost use Rattle.av_perm.specs.Contain.{contains};
ghost use Rattle.av_perm.specs.Class.{in_shortlex};
ghost use Rattle.av_split.specs.Marks.{relates, IsSettledRow, named, named_at, box_of, free_mark, IsOrder};
ghost use Rattle.av_split.specs.Cells.{containments_of};

use crate::boxes::SplitBox;
use crate::patterns::Patterns;
use crate::rows::{Mark, Row, is_named, next_mark};
use av_match::contains;
use av_name::Known;
use av_perm::{Memory, Perm, Words};
use av_sys::Constraint;
use std::alloc::Global;
use std::marker::Model;

/// Which of the patterns a word contains.
#[derive(Drop)]
pub struct ContainmentRow {
    items: Vec<bool>,
}

impl Model for ContainmentRow {
    ghost use Rattle.std.specs.Prelude.{List, Bool};

    ghost Value = { List Bool };

    ghost view = { λ a. a.items.items };
}

impl ContainmentRow {
    // Whether it contains the pattern at an index.
    fn get(&self, i: usize) -> bool
        requires { i < length self.now }
        ensures { result ≡ get_or self.now i false }
    {
        self.items[i]
    }
}

// Which patterns the word contains.
fn row_of(alloc: Global, word: &Perm, patterns: &Patterns) -> Result<ContainmentRow, Memory>
    ensures { IfOk result (λ a. a ≡ map (contains word.now) patterns.now) }
{
    let mut items = Vec::new(alloc);
    for pattern in patterns.as_slice() {
        items.push(contains(word, pattern)).map_err(|_| Memory)?;
    }
    Ok(ContainmentRow { items })
}

// A row for each pattern: which of them it contains.
fn containments_of(alloc: Global, patterns: &Patterns) -> Result<Vec<ContainmentRow>, Memory>
    ensures { IfOk result (λ rows. rows.items ≡ containments_of patterns.now) }
{
    let mut rows = Vec::new(alloc);
    for word in patterns.as_slice() {
        rows.push(row_of(alloc, word, patterns)?)
            .map_err(|_| Memory)?;
    }
    Ok(rows)
}

/// The patterns of a name at a root. Each two of them were compared once.
#[derive(Drop)]
pub struct Table {
    patterns: Patterns,
    // A row for each pattern: which of them it contains.
    rows: Vec<ContainmentRow>,
    // Their numbers in shortlex order.
    order: Vec<usize>,
}

impl Model for Table {
    ghost use Rattle.std.specs.Prelude.{ℕ, ◌≡◌, List};

    ghost Value = { List (List ℕ) };

    ghost use Rattle.av_split.specs.Cells.{containments_of};
    ghost use Rattle.av_split.specs.Marks.{IsOrder};

    ghost view = { λ t. t.patterns };

    ghost invariant = { λ t. (t.rows.items ≡ containments_of t.patterns) × IsOrder t.patterns t.order.items };
}

impl Table {
    /// The table of some patterns.
    pub fn of(alloc: Global, patterns: Patterns) -> Result<Table, Memory>
        ensures { IfOk result (λ t. t ≡ patterns) }
    {
        let rows = containments_of(alloc, &patterns)?;
        let order = patterns.order(alloc)?;
        Ok(Table {
            patterns,
            rows,
            order,
        })
    }

    // Whether pattern number `p`, once it is required or avoided, settles pattern number `i`.
    fn relates(&self, required: bool, p: usize, i: usize) -> bool
        requires settled { p < length self.now }
        requires pattern { i < length self.now }
        ensures { result ≡ relates required self.now p i }
    {
        if required {
            self.rows[p].get(i)
        } else {
            self.rows[i].get(p)
        }
    }

    // The row of a child in which nothing is avoided or required.
    fn free_row(&self, alloc: Global) -> Result<Row, Memory>
        ensures { IfOk result (λ row. row ≡ map free_mark self.now) }
    {
        let mut row = Row::empty(alloc);
        for word in self.patterns.as_slice() {
            row.push(free_mark(word))?;
        }
        Ok(row)
    }

    /// The rows of the box in which nothing is.
    pub fn free(&self, alloc: Global, children: usize) -> Result<Vec<Row>, Memory>
        ensures { IfOk result (λ rows. rows.items ≡ replicate children (map free_mark self.now)) }
    {
        let mut rows = Vec::new(alloc);
        for _ in 0..children {
            rows.push(self.free_row(alloc)?).map_err(|_| Memory)?;
        }
        Ok(rows)
    }

    /// Settles a pattern at a child: its word is required there, or avoided.
    pub fn settle(&self, required: bool, p: usize, row: &mut Row)
        requires pattern { p < length self.now }
        requires size { length row.old ≡ length self.now }
        ensures { IsSettledRow required self.now p row.old row.new }
    {
        for i in 0..self.patterns.as_slice().len() {
            let mark = next_mark(required, i == p, self.relates(required, p, i), row.get(i));
            row.set(i, mark);
        }
    }

    // Appends a pattern, where it is a required word of the constraint, or an avoided one.
    fn push_named(
        &self,
        required: bool,
        row: &Row,
        i: usize,
        found: &mut Words,
    ) -> Result<(), Memory>
        requires pattern { i < length self.now }
        requires size { length row.now ≡ length self.now }
        ensures { OnOk result (found.new ≡ found.old ++ named_at self.now required row.now i) }
    {
        if is_named(required, row.get(i)) {
            found.push(self.patterns.get(i).copy())?;
        }
        Ok(())
    }

    // The required words of a constraint, or the avoided ones, in shortlex order.
    fn named(&self, alloc: Global, required: bool, row: &Row) -> Result<Words, Memory>
        requires { length row.now ≡ length self.now }
        ensures { IfOk result (λ words. words ≡ in_shortlex (named required self.now row.now)) }
    {
        let mut found = Words::empty(alloc);
        for i in &self.order {
            self.push_named(required, row, *i, &mut found)?;
        }
        Ok(found)
    }

    /// The constraints of a box.
    pub fn constraints(&self, alloc: Global, rows: &[Row]) -> Result<SplitBox, Memory>
        requires { (i : ℕ) → i < length rows.now → length (get_or rows.now i []) ≡ length self.now }
        ensures { IfOk result (λ b. b ≡ box_of self.now rows.now) }
    {
        let mut constraints = SplitBox::empty(alloc);
        for row in rows {
            let avoid = self.named(alloc, false, row)?;
            let require = self.named(alloc, true, row)?;
            constraints.push(Constraint { avoid, require })?;
        }
        Ok(constraints)
    }
}

// The mark of a word where nothing is avoided or required.
fn free_mark(word: &Perm) -> Mark
    ensures { result ≡ free_mark word.now }
{
    let known = if word.len() == 1 {
        Known::Inside
    } else {
        Known::Open
    };
    Mark {
        known,
        named: false,
    }
}
