// The cells of the roots that an equation may have.
ghost use Rattle.std.specs.Prelude.{◌≡◌, ℕ, List, [], IfOk, OnOk};
ghost use Rattle.av_perm.specs.Members.{In};
ghost use Rattle.av_sys.specs.Terms.{IsSystemRoot};
ghost use Rattle.av_build.specs.Laws.{AreRoots};
ghost use Rattle.av_check.specs.Verdicts.{first_some, root_fault, roots_for, cells_fault};
ghost use Rattle.av_check.specs.Outcomes.{AreOutcomes};
ghost use Rattle.av_check.specs.Ends.{end_flaw, IsGrowableEnd, IsTested};

use crate::fault::Fault;
use crate::outcomes::Outcomes;
use crate::roots::first_sign;
use crate::verdict::Flaw;
use av_build::MAX_SIZE;
use av_perm::{Memory, Perm, Words, skew_root, sum_root};
use av_sys::{Equation, Name, Sign, System};
use av_walk::{CellEnd, Leaves};
use std::alloc::Global;

// An equation of a claimed system, which is tested against the first name of the system's class and the simple roots.
#[derive(Clone, Copy)]
pub struct TestedEquation<'a> {
    pub first: &'a Name,
    pub system: &'a System,
    pub simples: &'a Words,
    pub equation: &'a Equation,
}

// The flaw of a cell of a root where a walk ends so.
fn end_flaw(
    alloc: Global,
    basis: &Words,
    simples: &Words,
    root: &Perm,
    end: CellEnd,
    outcomes: &mut Outcomes,
) -> Result<Option<Flaw>, Memory>
    requires simples { AreRoots simples.now }
    requires names { IsGrowableEnd basis.now root.now end }
    requires known { AreOutcomes simples.now outcomes.old }
    ensures flaw { IfOk result (λ flaw. flaw ≡ end_flaw simples.now root.now end) }
    ensures known { OnOk result (AreOutcomes simples.now outcomes.new) }
{
    match end {
        CellEnd::Good => Ok(None),
        CellEnd::Bare { cell } => {
            outcomes.bare_flaw(alloc, basis, simples, first_sign(root), cell)
        }
        CellEnd::Twice => Ok(Some(Flaw::Twice)),
        CellEnd::Extra => Ok(Some(Flaw::Extra)),
    }
}

// The fault of the first cell of a root that has a flaw.
fn root_fault(
    alloc: Global,
    tested: &TestedEquation,
    root: &Perm,
    outcomes: &mut Outcomes,
) -> Result<Option<Fault>, Memory>
    requires tested { IsTested tested.now }
    requires root { IsSystemRoot root.now }
    requires known { AreOutcomes tested.now.simples.now outcomes.old }
    ensures fault { IfOk result (λ fault. fault ≡ root_fault MAX_SIZE tested.now.system.now tested.now.simples.now tested.now.equation.now root.now) }
    ensures known { OnOk result (AreOutcomes tested.now.simples.now outcomes.new) }
{
    let basis = &tested.first.avoid;
    // Their number tells that their names are of words.
    let _equations = tested.system.equations.len();
    let mut leaves = Leaves::new(alloc, tested.system, tested.equation, root)?;
    let mut cell: u64 = 0;
    while let Some(end) = leaves.next() {
        let flaw = end_flaw(alloc, basis, tested.simples, root, end?, outcomes)?;
        if let Some(flaw) = flaw {
            let root = root.copy();
            return Ok(Some(Fault::Cell { root, cell, flaw }));
        }
        cell = cell.saturating_add(1);
    }
    Ok(None)
}

// That of the first of some roots that has one.
fn first_fault(
    alloc: Global,
    tested: &TestedEquation,
    roots: &Words,
    outcomes: &mut Outcomes,
) -> Result<Option<Fault>, Memory>
    requires tested { IsTested tested.now }
    requires roots { (root : List ℕ) → In root roots.now → IsSystemRoot root }
    requires known { AreOutcomes tested.now.simples.now outcomes.old }
    ensures fault { IfOk result (λ fault. fault ≡ first_some (root_fault MAX_SIZE tested.now.system.now tested.now.simples.now tested.now.equation.now) roots.now) }
    ensures known { OnOk result (AreOutcomes tested.now.simples.now outcomes.new) }
{
    for root in roots.as_slice() {
        let fault = root_fault(alloc, tested, root, outcomes)?;
        if fault.is_some() {
            return Ok(fault);
        }
    }
    Ok(None)
}

// 12 and 21, as far as the sign of a name lets them be roots of its equation.
fn sums_for(alloc: Global, sign: Sign) -> Result<Words, Memory>
    ensures { IfOk result (λ roots. roots ≡ roots_for sign []) }
{
    let mut roots = Words::empty(alloc);
    match sign {
        Sign::C => {
            roots.push(sum_root())?;
            roots.push(skew_root())?;
        }
        Sign::P => roots.push(skew_root())?,
        Sign::M => roots.push(sum_root())?,
    }
    Ok(roots)
}

// The fault of the first root that the equation may have and that has one.
pub fn cells_fault(
    alloc: Global,
    tested: &TestedEquation,
    outcomes: &mut Outcomes,
) -> Result<Option<Fault>, Memory>
    requires tested { IsTested tested.now }
    requires known { AreOutcomes tested.now.simples.now outcomes.old }
    ensures fault { IfOk result (λ fault. fault ≡ cells_fault MAX_SIZE tested.now.system.now tested.now.simples.now tested.now.equation.now) }
    ensures known { OnOk result (AreOutcomes tested.now.simples.now outcomes.new) }
{
    let sums = sums_for(alloc, tested.equation.name.sign)?;
    let fault = first_fault(alloc, tested, &sums, outcomes)?;
    if fault.is_some() {
        return Ok(fault);
    }
    first_fault(alloc, tested, tested.simples, outcomes)
}
