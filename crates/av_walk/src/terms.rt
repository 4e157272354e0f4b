// The terms of a root, with what they ask of the children as cells of a table of children by patterns.
ghost use Rattle.std.specs.Prelude.{◌≡◌, ◌<◌, [], ◌∷◌, ◌++◌, length, get_or, OnOk, OnErr};

use av_perm::Memory;
use av_split::cells::Cell;
use std::alloc::Global;
use std::marker::Model;

// What a term asks of a cell: that its child contains its pattern, or that it doesn't.
#[derive(Drop)]
pub struct CellLiteral {
    required: bool,
    cell: Cell,
}

impl Model for CellLiteral {
    ghost use Rattle.av_split.specs.declared.cells.Cell.{Cell};
    ghost use Rattle.av_walk.specs.Walk.{Literal};

    ghost Value = { Literal Cell };

    ghost view = { λ l. record { required = l.required; question = l.cell } };
}

impl CellLiteral {
    // What is asked of a cell.
    pub fn of(required: bool, cell: Cell) -> CellLiteral
        ensures { result ≡ record { required = required; question = cell } }
    {
        CellLiteral { required, cell }
    }

    // Whether it is to contain the pattern.
    pub fn is_required(&self) -> bool
        ensures { result ≡ self.now.required }
    {
        self.required
    }

    // The cell.
    pub fn cell(&self) -> Cell
        ensures { result ≡ self.now.question }
    {
        self.cell
    }
}

// What a term asks.
#[derive(Drop)]
pub struct CellTerm {
    items: Vec<CellLiteral>,
}

impl Model for CellTerm {
    ghost use Rattle.std.specs.Prelude.{List};
    ghost use Rattle.av_split.specs.declared.cells.Cell.{Cell};
    ghost use Rattle.av_walk.specs.Walk.{Literal};

    ghost Value = { List (Literal Cell) };

    ghost view = { λ t. t.items.items };
}

impl CellTerm {
    // The term that asks nothing.
    pub fn empty(alloc: Global) -> CellTerm
        ensures { result ≡ [] }
    {
        CellTerm {
            items: Vec::new(alloc),
        }
    }

    // All that it asks.
    pub fn as_slice(&self) -> &[CellLiteral]
        ensures { result.now ≡ self.now }
    {
        &self.items
    }

    // Appends what is asked of a cell.
    pub fn push(&mut self, literal: CellLiteral) -> Result<(), Memory>
        ensures ok { OnOk result (self.new ≡ self.old ++ literal ∷ []) }
        ensures err { OnErr result (self.new ≡ self.old) }
    {
        match self.items.push(literal) {
            Ok(()) => Ok(()),
            Err(_) => Err(Memory),
        }
    }
}

// The terms of a root, in their order.
#[derive(Drop)]
pub struct CellTerms {
    items: Vec<CellTerm>,
}

impl Model for CellTerms {
    ghost use Rattle.std.specs.Prelude.{List};
    ghost use Rattle.av_split.specs.declared.cells.Cell.{Cell};
    ghost use Rattle.av_walk.specs.Walk.{Literal};

    ghost Value = { List (List (Literal Cell)) };

    ghost view = { λ t. t.items.items };
}

impl CellTerms {
    // No term.
    pub fn empty(alloc: Global) -> CellTerms
        ensures { result ≡ [] }
    {
        CellTerms {
            items: Vec::new(alloc),
        }
    }

    // The number of terms.
    pub fn len(&self) -> usize
        ensures { result ≡ length self.now }
    {
        self.items.len()
    }

    // The term with a number.
    pub fn get(&self, i: usize) -> &CellTerm
        requires { i < length self.now }
        ensures { result.now ≡ get_or self.now i [] }
    {
        &self.items[i]
    }

    // Appends a term.
    pub fn push(&mut self, term: CellTerm) -> Result<(), Memory>
        ensures ok { OnOk result (self.new ≡ self.old ++ term ∷ []) }
        ensures err { OnErr result (self.new ≡ self.old) }
    {
        match self.items.push(term) {
            Ok(()) => Ok(()),
            Err(_) => Err(Memory),
        }
    }
}
