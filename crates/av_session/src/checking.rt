// The answer to a claim.
ghost use Rattle.std.specs.Prelude.{◌≡◌, ◌≤◌, OnOk, IfOk, IsErrOf, Some};
ghost use Rattle.std.specs.Io.KnownBytes.{Appends};
ghost use Rattle.av_io.specs.Causes.{Rose};
ghost use Rattle.av_perm.specs.Class.{minimal};
ghost use Rattle.av_perm.specs.Gap.{simples_below};
ghost use Rattle.av_simple.specs.Searched.{gap_of};
ghost use Rattle.av_print.specs.Wrote.{AppendsPart};
ghost use Rattle.av_check.specs.Verdicts.{verdict};
ghost use Rattle.av_session.specs.Options.{IsAllowed};
ghost use Rattle.av_session.specs.Status.{HoldsText, ComesAfterReading};
ghost use Rattle.av_session.specs.Checked.{IsTakenClaim, claim_subject, checked_text, claim_text_by, claim_text, claim_status_by, claim_status, FitsClaim};
ghost use Rattle.av_session.specs.Checks.{HoldsCheck, FitsCheck};

use crate::options::Options;
use crate::session::{reduced, refuse};
use crate::solving::roots_below;
use crate::status::Status;
use crate::stop::Stop;
use crate::subject::Subject;
use crate::texts::{put_settled_header, put_unsettled};
use crate::verdicts::Judged;
use av_check::{Claim, ClaimError, Verdict, check, read_claim};
use av_io::Sink;
use av_match::minimal;
use av_perm::Memory;
use av_print::{Bytes, put_gathered};
use av_simple::{Found, Outcome, search};
use std::alloc::Global;

/// What a claim is about, its simple words searched up to the limit of lengths.
fn subject(alloc: Global, options: &Options, claim: &Claim) -> Result<Subject, Memory>
    requires { IsAllowed options.now }
    ensures { IfOk result (λ s. s ≡ claim_subject options.now.max_simple claim.now) }
{
    let basis = minimal(alloc, &claim.basis)?;
    let require = reduced(alloc, &claim.require)?;
    let found = search(alloc, &basis, options.max_simple)?;
    Ok(Subject {
        united: None,
        found,
        require,
    })
}

/// The verdict on a claim whose basis has this gap, with the simple words below the gap for roots.
fn verdict(alloc: Global, claim: &Claim, found: &Found, gap: usize) -> Result<Verdict, Memory>
    requires claim { IsTakenClaim claim.now }
    requires basis { found.now.basis ≡ minimal claim.now.basis }
    requires gap { gap_of found.now ≡ Some gap }
    ensures { IfOk result (λ v. v ≡ verdict claim.now (simples_below claim.now.basis gap)) }
{
    let roots = roots_below(alloc, found, gap)?;
    check(alloc, claim, &roots)
}

/// Writes the header and the line of a verdict.
#[tactic(auto, using(av_print::proofs::Written::written), unfolding(crate::specs::Checked::checked_text))]
fn put_verdict<K: Sink>(
    alloc: Global,
    sink: &mut K,
    subject: &Subject,
    gap: usize,
    verdict: &Verdict,
) -> Result<(), Stop>
    ensures whole { OnOk result (Appends (K.held sink.old) (K.held sink.new) (checked_text subject.now gap verdict.now)) }
    ensures part { AppendsPart (K.held sink.old) (K.held sink.new) (checked_text subject.now gap verdict.now) }
    ensures later { K.faults sink.old ≤ K.faults sink.new }
    ensures failed { IsErrOf result Stop.WriteFault → Rose (K.faults sink.old) (K.faults sink.new) }
{
    put_settled_header(alloc, sink, subject, gap)?;
    let text = (Bytes(b"check "), Judged { verdict }, Bytes(b"\n"));
    put_gathered(alloc, sink, &text)?;
    Ok(())
}

/// Writes the text of a claim whose basis has this gap.
fn put_checked<K: Sink>(
    alloc: Global,
    sink: &mut K,
    claim: &Claim,
    subject: &Subject,
    gap: usize,
) -> Result<(), Stop>
    requires claim { IsTakenClaim claim.now }
    requires basis { subject.now.found.basis ≡ minimal claim.now.basis }
    requires gap { gap_of subject.now.found ≡ Some gap }
    ensures whole { OnOk result (Appends (K.held sink.old) (K.held sink.new) (checked_text subject.now gap (verdict claim.now (simples_below claim.now.basis gap)))) }
    ensures part { AppendsPart (K.held sink.old) (K.held sink.new) (checked_text subject.now gap (verdict claim.now (simples_below claim.now.basis gap))) }
    ensures later { K.faults sink.old ≤ K.faults sink.new }
    ensures failed { IsErrOf result Stop.WriteFault → Rose (K.faults sink.old) (K.faults sink.new) }
{
    let verdict = verdict(alloc, claim, &subject.found, gap)?;
    put_verdict(alloc, sink, subject, gap, &verdict)
}

/// Writes the text of what a claim is about: that its class isn't settled, or the verdict.
fn put_subject<K: Sink>(
    alloc: Global,
    sink: &mut K,
    claim: &Claim,
    subject: &Subject,
) -> Result<Status, Stop>
    requires claim { IsTakenClaim claim.now }
    requires basis { subject.now.found.basis ≡ minimal claim.now.basis }
    ensures whole { OnOk result (Appends (K.held sink.old) (K.held sink.new) (claim_text_by claim.now subject.now (gap_of subject.now.found))) }
    ensures part { AppendsPart (K.held sink.old) (K.held sink.new) (claim_text_by claim.now subject.now (gap_of subject.now.found)) }
    ensures status { IfOk result (λ s. s ≡ claim_status_by (gap_of subject.now.found)) }
    ensures later { K.faults sink.old ≤ K.faults sink.new }
    ensures failed { IsErrOf result Stop.WriteFault → Rose (K.faults sink.old) (K.faults sink.new) }
{
    match subject.found.outcome() {
        Outcome::Gap(gap) => {
            put_checked(alloc, sink, claim, subject, gap)?;
            Ok(Status::Done)
        }
        Outcome::Unsettled => {
            put_unsettled(alloc, sink, subject)?;
            Ok(Status::Unsettled)
        }
    }
}

/// Writes the text of a claim.
#[tactic(auto, unfolding(crate::specs::Checked::claim_text))]
fn put_claim<K: Sink>(
    alloc: Global,
    sink: &mut K,
    options: &Options,
    claim: &Claim,
) -> Result<Status, Stop>
    requires options { IsAllowed options.now }
    requires claim { IsTakenClaim claim.now }
    ensures whole { OnOk result (Appends (K.held sink.old) (K.held sink.new) (claim_text options.now claim.now)) }
    ensures part { AppendsPart (K.held sink.old) (K.held sink.new) (claim_text options.now claim.now) }
    ensures status { IfOk result (λ s. s ≡ claim_status options.now claim.now) }
    ensures later { K.faults sink.old ≤ K.faults sink.new }
    ensures failed { IsErrOf result Stop.WriteFault → Rose (K.faults sink.old) (K.faults sink.new) }
{
    let subject = subject(alloc, options, claim)?;
    put_subject(alloc, sink, claim, &subject)
}

/// Answers a claim.
#[tactic(auto, using(crate::proofs::Ends::claim_ends))]
fn answer_read<K: Sink>(alloc: Global, sink: &mut K, options: &Options, claim: &Claim) -> Status
    requires options { IsAllowed options.now }
    requires claim { IsTakenClaim claim.now }
    ensures text { HoldsText result (K.held sink.old) (K.held sink.new) (claim_text options.now claim.now) }
    ensures fits { FitsClaim result options.now claim.now }
    ensures answer { ComesAfterReading result }
    ensures later { K.faults sink.old ≤ K.faults sink.new }
    ensures write_fault { result ≡ Status.WriteFault → Rose (K.faults sink.old) (K.faults sink.new) }
{
    match put_claim(alloc, sink, options, claim) {
        Ok(status) => status,
        Err(Stop::Memory) => Status::Memory,
        Err(Stop::WriteFault) => Status::WriteFault,
    }
}

/// Writes the text due of these bytes, which are read as a claim.
pub fn answer_claim<K: Sink>(alloc: Global, sink: &mut K, options: &Options, bytes: &[u8]) -> Status
    requires { IsAllowed options.now }
    ensures text { HoldsCheck result (K.held sink.old) (K.held sink.new) options.now bytes.now }
    ensures fits { FitsCheck result options.now bytes.now }
    ensures answer { ComesAfterReading result }
    ensures later { K.faults sink.old ≤ K.faults sink.new }
    ensures write_fault { result ≡ Status.WriteFault → Rose (K.faults sink.old) (K.faults sink.new) }
{
    match read_claim(alloc, bytes) {
        Ok(claim) => answer_read(alloc, sink, options, &claim),
        Err(ClaimError::Refused { line, kind }) => refuse(alloc, sink, line, kind),
        Err(ClaimError::Memory) => Status::Memory,
    }
}
