// Which names are dead: those of which the canonical system generates nothing.
ghost use Rattle.std.specs.Prelude.{◌≡◌, [], IfOk, OnOk};
ghost use Rattle.std.specs.List.{list_any};
ghost use Rattle.av_build.specs.Drafts.{child_names};
ghost use Rattle.av_build.specs.Laws.{AreRoots};
ghost use Rattle.av_perm.specs.Members.{In};
ghost use Rattle.av_check.specs.Verdicts.{bare_flaw};
ghost use Rattle.av_check.specs.Outcomes.{outcome, AreOutcomes, IsGrowable};
ghost use Rattle.av_sys.specs.declared.names.Name.{Name};

use crate::verdict::Flaw;
use av_build::{Built, MAX_SIZE, build_from, generates};
use av_perm::{Memory, Words};
use av_split::SplitBox;
use av_sys::{Name, Sign};
use indexmap::IndexMap;
use std::alloc::Global;
use std::marker::Model;

// What the canonical system of a name is.
#[derive(Clone, Copy, Debug, PartialEq, Eq)]
pub enum Outcome {
    // It generates nothing.
    Dead,
    // It generates something.
    Alive,
    // It has more than `MAX_SIZE` equations and terms.
    TooLarge,
}

// What was found of names. The same names come again and again, and the system of each is grown once.
#[derive(Drop)]
pub struct Outcomes {
    found: IndexMap<Name, Outcome>,
}

impl Model for Outcomes {
    ghost use Rattle.std.specs.Prelude.{List};
    ghost use Rattle.av_sys.specs.declared.names.Name.{Name};
    ghost use Rattle.av_check.specs.declared.outcomes.Outcome.{Outcome};

    ghost Value = { List (Name × Outcome) };

    ghost view = { λ o. o.found.entries };
}

// Whether the canonical system of a name generates something, or is too large.
fn grown_outcome(
    alloc: Global,
    basis: &Words,
    simples: &Words,
    name: &Name,
) -> Result<Outcome, Memory>
    requires simples { AreRoots simples.now }
    requires name { IsGrowable basis.now name.now }
    ensures { IfOk result (λ found. found ≡ outcome simples.now name.now) }
{
    match build_from(alloc, basis, name, simples, MAX_SIZE)? {
        Built::TooLarge => Ok(Outcome::TooLarge),
        Built::Done(system) => {
            if generates(alloc, &system, 0)? {
                Ok(Outcome::Alive)
            } else {
                Ok(Outcome::Dead)
            }
        }
    }
}

impl Outcomes {
    // Nothing was found yet.
    pub fn new(alloc: Global) -> Outcomes
        ensures { result ≡ [] }
    {
        Outcomes {
            found: IndexMap::new(alloc),
        }
    }

    // That of a name, which is kept.
    fn find(
        &mut self,
        alloc: Global,
        basis: &Words,
        simples: &Words,
        name: Name,
    ) -> Result<Outcome, Memory>
        requires simples { AreRoots simples.now }
        requires name { IsGrowable basis.now name }
        requires known { AreOutcomes simples.now self.old }
        ensures found { IfOk result (λ found. found ≡ outcome simples.now name) }
        ensures known { OnOk result (AreOutcomes simples.now self.new) }
    {
        if let Some(found) = self.found.get(&name).copied() {
            return Ok(found);
        }
        let found = grown_outcome(alloc, basis, simples, &name)?;
        self.found.insert(name, found).map_err(|_| Memory)?;
        Ok(found)
    }

    // The flaw of a bare leaf of a root whose first child has this sign: none where the name of some child is dead.
    pub fn bare_flaw(
        &mut self,
        alloc: Global,
        basis: &Words,
        simples: &Words,
        first: Sign,
        cell: SplitBox,
    ) -> Result<Option<Flaw>, Memory>
        requires simples { AreRoots simples.now }
        requires names { (n : Name) → In n (child_names first cell) → IsGrowable basis.now n }
        requires known { AreOutcomes simples.now self.old }
        ensures flaw { IfOk result (λ flaw. flaw ≡ bare_flaw MAX_SIZE simples.now (child_names first cell)) }
        ensures known { OnOk result (AreOutcomes simples.now self.new) }
    {
        let mut flaw = Flaw::Lost;
        let mut sign = first;
        for constraint in cell.into_items() {
            let name = Name {
                sign,
                avoid: constraint.avoid,
                require: constraint.require,
            };
            match self.find(alloc, basis, simples, name)? {
                Outcome::Dead => return Ok(None),
                Outcome::TooLarge => flaw = Flaw::Large,
                Outcome::Alive => {}
            }
            sign = Sign::C;
        }
        Ok(Some(flaw))
    }
}
