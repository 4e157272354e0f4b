// What is known of a class within the limits.
ghost use Rattle.std.specs.Prelude.{◌≡◌, ◌≤◌, [], IfOk, Some, unwrap_or};
ghost use Rattle.av_perm.specs.Gap.{simples_below};
ghost use Rattle.av_simple.specs.Searched.{gap_of};
ghost use Rattle.av_sys.specs.Terms.{IsWellFormed};
ghost use Rattle.av_build.specs.Laws.{AreRoots};
ghost use Rattle.av_build.specs.Built.{IsSystemOf, IsBuilt};
ghost use Rattle.av_session.specs.Classes.{IsSettledClass, required_of, in_format};
ghost use Rattle.av_session.specs.Options.{IsAllowed};
ghost use Rattle.av_session.specs.Solved.{IsBasis, AreRequiredWords, grown_to, sized, solved, status_of};

use crate::options::Options;
use crate::status::Status;
use crate::subject::{Subject, United};
use av_build::{Built, MAX_SIZE, build, prune};
use av_perm::{Memory, Words};
use av_simple::{Found, Outcome, search};
use av_sys::System;
use std::alloc::Global;
use std::marker::Model;

/// A class whose basis has a gap, and whose canonical system is within the limit.
#[derive(Drop)]
pub struct SettledClass {
    subject: Subject,
    gap: usize,
    format: u8,
    system: System,
}

impl Model for SettledClass {
    ghost use Rattle.av_session.specs.Classes.{Class, IsSettledClass};

    ghost Value = { Class };

    ghost view = { λ c. record { subject = c.subject; gap = c.gap; format = c.format; system = c.system } };

    ghost invariant = { λ c. IsSettledClass (record { subject = c.subject; gap = c.gap; format = c.format; system = c.system }) };
}

impl SettledClass {
    /// The class with this gap, and with its system in this format.
    fn new(subject: Subject, gap: usize, format: u8, system: System) -> SettledClass
        requires { IsSettledClass (record { subject = subject; gap = gap; format = format; system = system }) }
        ensures { result ≡ record { subject = subject; gap = gap; format = format; system = system } }
    {
        SettledClass {
            subject,
            gap,
            format,
            system,
        }
    }

    /// What its script asks about.
    pub fn subject(&self) -> &Subject
        ensures { result.now ≡ self.now.subject }
    {
        &self.subject
    }

    /// The gap: the least length of which and of the next no simple word avoids the basis.
    pub fn gap(&self) -> usize
        ensures { result ≡ self.now.gap }
    {
        self.gap
    }

    /// The format of its system: 1 for the canonical one, 2 for the lean one.
    pub fn format(&self) -> u8
        ensures { result ≡ self.now.format }
    {
        self.format
    }

    /// The system of the class in its format.
    pub fn system(&self) -> &System
        ensures value { result.now ≡ self.now.system }
        ensures class { IsSettledClass self.now }
    {
        &self.system
    }
}

/// What is known of a class within the limits of lengths and of sizes.
#[derive(Drop)]
pub enum Solved {
    /// The basis has no gap within the limit of lengths.
    Unsettled {
        /// What the script asks about, its simple words searched up to that limit.
        subject: Subject,
    },
    /// The basis has a gap, and the canonical system of the class is larger than the limit of sizes.
    TooLarge {
        /// What the script asks about, its simple words searched up to one above the gap.
        subject: Subject,
        /// The gap.
        gap: usize,
    },
    /// The basis has a gap, and the canonical system of the class is within the limit of sizes.
    Settled {
        /// The class with its system.
        class: SettledClass,
    },
}

impl Solved {
    /// The status of a run whose whole text due was written.
    pub fn status(&self) -> Status
        ensures { result ≡ status_of self.now }
    {
        match self {
            Solved::Unsettled { .. } => Status::Unsettled,
            Solved::TooLarge { .. } => Status::TooLarge,
            Solved::Settled { .. } => Status::Done,
        }
    }
}

/// The simple words below the gap, of a basis that has this one.
pub fn roots_below(alloc: Global, found: &Found, gap: usize) -> Result<Words, Memory>
    requires { gap_of found.now ≡ Some gap }
    ensures value { IfOk result (λ roots. roots ≡ simples_below found.now.basis gap) }
    ensures roots { IfOk result AreRoots }
{
    // It tells that the gap is below `MAX_ROOT_LENGTH`.
    let _last = found.last();
    found.roots(alloc)
}

/// A canonical system in a format: itself, or pruned.
fn in_format(alloc: Global, system: System, format: u8) -> Result<System, Memory>
    requires { IsWellFormed system }
    ensures { IfOk result (λ s. s ≡ in_format format system) }
{
    if format == 1 {
        Ok(system)
    } else {
        prune(alloc, &system)
    }
}

/// The class with this gap whose canonical system, built up to the limit, is this one.
fn settled(
    alloc: Global,
    subject: Subject,
    gap: usize,
    format: u8,
    roots: &Words,
    limit: usize,
    system: System,
) -> Result<SettledClass, Memory>
    requires gap { gap_of subject.found ≡ Some gap }
    requires roots { roots.now ≡ simples_below subject.found.basis gap }
    requires system { IsSystemOf subject.found.basis (required_of subject) roots.now limit system }
    ensures { IfOk result (λ class. class ≡ record { subject = subject; gap = gap; format = format; system = in_format format system }) }
{
    let system = in_format(alloc, system, format)?;
    Ok(SettledClass::new(subject, gap, format, system))
}

/// What is known of a class with this gap, whose system is built up to the limit and put into a format.
fn sized(
    alloc: Global,
    subject: Subject,
    gap: usize,
    limit: usize,
    format: u8,
) -> Result<Solved, Memory>
    requires gap { gap_of subject.found ≡ Some gap }
    requires basis { IsBasis subject.found.basis }
    requires required { AreRequiredWords (required_of subject) }
    requires some { 1 ≤ limit }
    requires few { limit ≤ MAX_SIZE }
    ensures { IfOk result (λ s. s ≡ sized subject gap limit format (grown_to subject.found.basis (required_of subject) gap limit)) }
{
    let roots = roots_below(alloc, &subject.found, gap)?;
    match built(alloc, &subject, &roots, limit)? {
        Built::Done(system) => Ok(Solved::Settled {
            class: settled(alloc, subject, gap, format, &roots, limit, system)?,
        }),
        Built::TooLarge => Ok(Solved::TooLarge { subject, gap }),
    }
}

/// The canonical system of what a script asks about.
fn built(alloc: Global, subject: &Subject, roots: &Words, limit: usize) -> Result<Built, Memory>
    requires basis { IsBasis subject.now.found.basis }
    requires required { AreRequiredWords (required_of subject.now) }
    requires roots { AreRoots roots.now }
    requires some { 1 ≤ limit }
    requires few { limit ≤ MAX_SIZE }
    ensures { IfOk result (λ built. IsBuilt subject.now.found.basis (required_of subject.now) roots.now limit built) }
{
    match &subject.require {
        Some(required) => build(alloc, subject.basis(), required, roots, limit),
        None => build(alloc, subject.basis(), &Words::empty(alloc), roots, limit),
    }
}

/// What is known of the class of a basis, a list of minimal words, which is that of the union of two lists where there are such,
/// and of required words, where there are some, within the limits: the simple words that avoid the basis are searched, and where it has a gap the canonical system is built, and pruned
/// where the format isn't 1.
#[tactic(auto, unfolding(crate::specs::Solved::solved))]
pub fn solve(
    alloc: Global,
    options: &Options,
    united: Option<United>,
    basis: &Words,
    require: Option<Words>,
    format: u8,
) -> Result<Solved, Memory>
    requires options { IsAllowed options.now }
    requires basis { IsBasis basis.now }
    requires required { AreRequiredWords (unwrap_or require []) }
    ensures { IfOk result (λ s. s ≡ solved options.now united basis.now require format) }
{
    let found = search(alloc, basis, options.max_simple)?;
    let outcome = found.outcome();
    let subject = Subject {
        united,
        found,
        require,
    };
    match outcome {
        Outcome::Gap(gap) => sized(alloc, subject, gap, options.max_size, format),
        Outcome::Unsettled => Ok(Solved::Unsettled { subject }),
    }
}
