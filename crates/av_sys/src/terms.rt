// Terms, equations and systems.
ghost use Rattle.std.specs.Prelude.{◌≡◌, ◌<◌, [], ◌∷◌, ◌++◌, length, slice_get, Some, OnOk, OnErr, All};
ghost use Rattle.av_sys.specs.Names.{IsMadeOfWords};

use crate::names::Name;
use av_perm::{Memory, Perm};
use std::alloc::Global;
use std::marker::Model;

/// The number of an equation of a system. Equations are numbered from 0, in the order of the system.
#[derive(Clone, Copy, PartialEq, Eq)]
pub struct EquationNumber(pub u32);

impl Model for EquationNumber {
    ghost use Rattle.std.specs.Prelude.{ℕ};

    ghost Value = { ℕ };

    ghost view = { λ n. n.0 };

    ghost inverse = { λ n. record { 0 = n } };
}

/// The numbers of the equations of a root's children, in order.
#[derive(Drop)]
pub struct Children {
    items: Vec<EquationNumber>,
}

impl Model for Children {
    ghost use Rattle.std.specs.Prelude.{ℕ, List};

    ghost Value = { List ℕ };

    ghost view = { λ c. c.items.items };
}

impl Children {
    /// The empty list. It takes no memory.
    pub fn empty(alloc: Global) -> Children
        ensures { result ≡ [] }
    {
        Children {
            items: Vec::new(alloc),
        }
    }

    /// The number of children.
    pub fn len(&self) -> usize
        ensures { result ≡ length self.now }
    {
        self.items.len()
    }

    /// The index of a child's equation in its system, by the child's index from 0 on.
    pub fn equation(&self, i: usize) -> usize
        requires { i < length self.now }
        ensures { slice_get self.now i ≡ Some result }
    {
        self.items[i].0 as usize
    }

    /// The numbers.
    pub fn as_slice(&self) -> &[EquationNumber]
        ensures { result.now ≡ self.now }
    {
        &self.items
    }

    /// Appends a number. After `Memory` the list is as before.
    pub fn push(&mut self, child: EquationNumber) -> Result<(), Memory>
        ensures ok { OnOk result (self.new ≡ self.old ++ child ∷ []) }
        ensures err { OnErr result (self.new ≡ self.old) }
    {
        match self.items.push(child) {
            Ok(()) => Ok(()),
            Err(_) => Err(Memory),
        }
    }
}

/// A term of an equation.
#[derive(Drop)]
pub enum Term {
    /// The single point, the word 1.
    Point,
    /// The inflations of a root by words of its children's equations.
    Node { root: Perm, children: Children },
}

/// The terms of an equation, numbered from 0.
#[derive(Drop)]
pub struct Terms {
    items: Vec<Term>,
}

impl Model for Terms {
    ghost use Rattle.std.specs.Prelude.{List};
    ghost use Rattle.av_sys.specs.declared.terms.Term.{Term};

    ghost Value = { List Term };

    ghost view = { λ t. t.items.items };
}

impl Terms {
    /// The empty list. It takes no memory.
    pub fn empty(alloc: Global) -> Terms
        ensures { result ≡ [] }
    {
        Terms {
            items: Vec::new(alloc),
        }
    }

    /// The number of terms.
    pub fn len(&self) -> usize
        ensures { result ≡ length self.now }
    {
        self.items.len()
    }

    /// The term at an index, from 0 on.
    pub fn get(&self, i: usize) -> &Term
        requires { i < length self.now }
        ensures { slice_get self.now i ≡ Some result.now }
    {
        &self.items[i]
    }

    /// The terms.
    pub fn as_slice(&self) -> &[Term]
        ensures { result.now ≡ self.now }
    {
        &self.items
    }

    /// Appends a term. After `Memory` the list is as before, and the term is dropped.
    pub fn push(&mut self, term: Term) -> Result<(), Memory>
        ensures ok { OnOk result (self.new ≡ self.old ++ term ∷ []) }
        ensures err { OnErr result (self.new ≡ self.old) }
    {
        match self.items.push(term) {
            Ok(()) => Ok(()),
            Err(_) => Err(Memory),
        }
    }
}

/// A name with terms.
#[derive(Drop)]
pub struct Equation {
    pub name: Name,
    pub terms: Terms,
}

/// The equations of a system, numbered from 0. Their names are made of words.
#[derive(Drop)]
pub struct Equations {
    items: Vec<Equation>,
}

impl Model for Equations {
    ghost use Rattle.std.specs.Prelude.{List};
    ghost use Rattle.av_sys.specs.declared.terms.Equation.{Equation};
    ghost use Rattle.std.specs.Prelude.{All};
    ghost use Rattle.av_sys.specs.Names.{IsMadeOfWords};

    ghost Value = { List Equation };

    ghost view = { λ e. e.items.items };

    ghost invariant = { λ e. All (λ e. IsMadeOfWords e.name) e.items.items };
}

impl Equations {
    /// The empty list. It takes no memory.
    pub fn empty(alloc: Global) -> Equations
        ensures { result ≡ [] }
    {
        Equations {
            items: Vec::new(alloc),
        }
    }

    /// The number of equations.
    pub fn len(&self) -> usize
        ensures value { result ≡ length self.now }
        ensures names { All (λ e. IsMadeOfWords e.name) self.now }
    {
        self.items.len()
    }

    /// The equation with a number.
    pub fn get(&self, i: usize) -> &Equation
        requires { i < length self.now }
        ensures { slice_get self.now i ≡ Some result.now }
    {
        &self.items[i]
    }

    /// The equations.
    pub fn as_slice(&self) -> &[Equation]
        ensures { result.now ≡ self.now }
    {
        &self.items
    }

    /// Appends an equation. After `Memory` the list is as before, and the equation is dropped.
    pub fn push(&mut self, equation: Equation) -> Result<(), Memory>
        ensures ok { OnOk result (self.new ≡ self.old ++ equation ∷ []) }
        ensures err { OnErr result (self.new ≡ self.old) }
    {
        let _avoid = equation.name.avoid.len();
        let _require = equation.name.require.len();
        match self.items.push(equation) {
            Ok(()) => Ok(()),
            Err(_) => Err(Memory),
        }
    }
}

/// A system of equations.
#[derive(Drop)]
pub struct System {
    pub equations: Equations,
}
