// The verdict on a claim.
ghost use Rattle.std.specs.Prelude.{◌≡◌, ◌<◌, ◌≤◌, All, length, nat_eq, IfOk, OnOk};
ghost use Rattle.av_perm.specs.Members.{In};
ghost use Rattle.av_build.specs.Laws.{AreRoots};
ghost use Rattle.av_check.specs.Verdicts.{required_of, equation_fault, verdict_of, verdict_from, is_bare, yes_if, verdict};
ghost use Rattle.av_check.specs.Laws.{HoldsAllSimples, IsRightClaim};
ghost use Rattle.av_check.specs.Outcomes.{AreOutcomes};
ghost use Rattle.av_check.specs.Checks.{AreShort, IsTaken};

use crate::cells::{TestedEquation, cells_fault};
use crate::claim::Claim;
use crate::fault::Fault;
use crate::names::{claim_name, is_void, is_wrong_name};
use crate::outcomes::Outcomes;
use crate::points::has_due_points;
use crate::roots::first_wrong_root;
use crate::verdict::Verdict;
use av_build::MAX_SIZE;
use av_perm::{Memory, Words};
use av_sys::{Equation, Equations, Name, System};
use std::alloc::Global;

// The first fault of an equation, which has this number.
fn equation_fault(
    alloc: Global,
    first: &Name,
    system: &System,
    simples: &Words,
    number: usize,
    equation: &Equation,
    outcomes: &mut Outcomes,
) -> Result<Option<Fault>, Memory>
    requires system { IsTaken system.now }
    requires listed { In equation.now system.now.equations }
    requires simples { AreRoots simples.now }
    requires known { AreOutcomes simples.now outcomes.old }
    ensures fault { IfOk result (λ fault. fault ≡ equation_fault MAX_SIZE first.now system.now simples.now number equation.now) }
    ensures known { OnOk result (AreOutcomes simples.now outcomes.new) }
{
    if is_wrong_name(alloc, first, number, &equation.name)? {
        return Ok(Some(Fault::Name));
    }
    if !has_due_points(equation) {
        return Ok(Some(Fault::Points));
    }
    if let Some(root) = first_wrong_root(system, simples, equation) {
        return Ok(Some(Fault::Root { root }));
    }
    let tested = TestedEquation {
        first,
        system,
        simples,
        equation,
    };
    cells_fault(alloc, &tested, outcomes)
}

// The verdict of a fault of the equation with this number.
fn verdict_of(eq: u32, fault: Fault) -> Verdict
    ensures { result ≡ verdict_of eq fault }
{
    match fault {
        Fault::Name => Verdict::Name { eq },
        Fault::Points => Verdict::Point { eq },
        Fault::Root { root } => Verdict::Root { eq, root },
        Fault::Cell { root, cell, flaw } => Verdict::Cell {
            eq,
            root,
            cell,
            flaw,
        },
    }
}

// The verdict of the first equation with a fault, or yes.
fn first_verdict(
    alloc: Global,
    first: &Name,
    system: &System,
    simples: &Words,
) -> Result<Verdict, Memory>
    requires system { IsTaken system.now }
    requires simples { AreRoots simples.now }
    ensures { IfOk result (λ found. found ≡ verdict_from (equation_fault MAX_SIZE first.now system.now simples.now) 0 system.now.equations) }
{
    let mut outcomes = Outcomes::new(alloc);
    for number in 0..system.equations.len() {
        let equation = system.equations.get(number);
        let fault = equation_fault(
            alloc,
            first,
            system,
            simples,
            number,
            equation,
            &mut outcomes,
        )?;
        if let Some(fault) = fault {
            return Ok(verdict_of(number as u32, fault));
        }
    }
    Ok(Verdict::Yes)
}

// Whether the equations are one of this name, without terms.
fn is_bare(first: &Name, equations: &Equations) -> bool
    ensures { result ≡ is_bare first.now equations.now }
{
    match equations.as_slice() {
        [equation] => equation.name == *first && equation.terms.len() == 0,
        _ => false,
    }
}

// Yes, or that the name of equation 0 is wrong.
fn yes_if(right: bool) -> Verdict
    ensures { result ≡ yes_if right }
{
    if right {
        Verdict::Yes
    } else {
        Verdict::Name { eq: 0 }
    }
}

/// Whether a claimed system is exact, or the first reason found why that isn't told. The system is well formed, and the words
/// of its names, of the basis and of the required words have at most `MAX_PATTERN_LENGTH` entries. The roots are simple words
/// of at most `MAX_ROOT_LENGTH` entries.
///
/// With roots that hold all simple words of the class that avoids the basis, a yes says that at every size the system
/// generates exactly the words that avoid the basis and contain the required words, each by one derivation tree, and each of
/// its equations exactly the words that its name describes. Yes is answered to the canonical system of the class, where it
/// has at most `MAX_SIZE` equations and terms, and to that system without the equations that generate nothing
/// ([`laws::complete_law`](crate::laws::complete_law)); any other verdict doesn't say that the system is wrong.
///
/// Equations are gone through in order of number: the name of each, its points, the roots of its terms, and for each root that
/// it may have the cells into which the blocks of the root are cut until the name and the terms are settled in each of them.
pub fn check(alloc: Global, claim: &Claim, roots: &Words) -> Result<Verdict, Memory>
    requires system { IsTaken claim.now.system }
    requires basis { AreShort claim.now.basis }
    requires required { AreShort (required_of claim.now) }
    requires roots { AreRoots roots.now }
    ensures verdict { IfOk result (λ found. found ≡ verdict claim.now roots.now) }
    ensures right { IfOk result (λ found. found ≡ Verdict.Yes → HoldsAllSimples claim.now.basis roots.now → IsRightClaim claim.now) }
{
    // Their number tells that their names are of words.
    let _equations = claim.system.equations.len();
    let first = claim_name(alloc, claim)?;
    if is_void(&first) {
        return Ok(yes_if(is_bare(&first, &claim.system.equations)));
    }
    first_verdict(alloc, &first, &claim.system, roots)
}
