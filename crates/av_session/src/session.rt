// The answer to given bytes.
ghost use Rattle.std.specs.Prelude.{◌≡◌, ◌≤◌, OnOk, IfOk, IsErrOf};
ghost use Rattle.std.specs.Option.{option_map};
ghost use Rattle.std.specs.Io.KnownBytes.{Appends};
ghost use Rattle.av_io.specs.Causes.{Rose};
ghost use Rattle.av_perm.specs.Class.{minimal, top};
ghost use Rattle.av_union.specs.Union.{AreShortTogether, union};
ghost use Rattle.av_text.specs.Ranges.{KeepsLimits};
ghost use Rattle.av_print.specs.Wrote.{AppendsPart};
ghost use Rattle.av_session.specs.Options.{IsAllowed};
ghost use Rattle.av_session.specs.Solved.{basis_of, lists_of, solved_script, status_of};
ghost use Rattle.av_session.specs.Due.{script_text, fault_text, text_due};
ghost use Rattle.av_session.specs.Status.{HoldsText, FitsScript, FitsFault, FitsText, ComesAfterReading};

use crate::options::Options;
use crate::solving::solve;
use crate::status::Status;
use crate::stop::Stop;
use crate::subject::United;
use crate::texts::{put_class, put_fault};
use av_io::{Sink, SinkFault};
use av_match::{maximal, minimal};
use av_perm::{Memory, Words};
use av_text::{Kind, Script, ScriptError, read_script};
use av_union::unite;
use std::alloc::Global;

/// The basis of the union of two classes, which is its own list of minimal words.
fn united_basis(alloc: Global, first: &Words, second: &Words) -> Result<Words, Memory>
    requires { AreShortTogether first.now second.now }
    ensures { IfOk result (λ words. words ≡ minimal (union first.now second.now)) }
{
    unite(alloc, first, second)
}

/// The minimal words of a script's basis, which is that of the union where it has a union line.
#[tactic(auto, using(crate::proofs::Systems::short_lists))]
fn basis(alloc: Global, script: &Script) -> Result<Words, Memory>
    requires { KeepsLimits script.now }
    ensures { IfOk result (λ words. words ≡ minimal (basis_of script.now)) }
{
    match &script.union_with {
        Some(second) => united_basis(alloc, &script.basis, second),
        None => minimal(alloc, &script.basis),
    }
}

/// The minimal words of the basis line and of the union line, where a script has one.
fn united(alloc: Global, script: &Script) -> Result<Option<United>, Memory>
    ensures { IfOk result (λ lists. lists ≡ lists_of script.now) }
{
    match &script.union_with {
        Some(words) => {
            let first = minimal(alloc, &script.basis)?;
            let second = minimal(alloc, words)?;
            Ok(Some(United { first, second }))
        }
        None => Ok(None),
    }
}

/// The maximal words of a line of required words but for the word 1, where there is such a line.
pub fn reduced(alloc: Global, require: &Option<Words>) -> Result<Option<Words>, Memory>
    ensures { IfOk result (λ reduced. reduced ≡ option_map top require.now) }
{
    match require {
        Some(words) => Ok(Some(maximal(alloc, words)?)),
        None => Ok(None),
    }
}

/// Writes the text of a script.
#[tactic(auto, unfolding(crate::specs::Due::script_text))]
fn put_script<K: Sink>(
    alloc: Global,
    sink: &mut K,
    options: &Options,
    script: &Script,
) -> Result<Status, Stop>
    requires options { IsAllowed options.now }
    requires script { KeepsLimits script.now }
    ensures whole { OnOk result (Appends (K.held sink.old) (K.held sink.new) (script_text options.now script.now)) }
    ensures part { AppendsPart (K.held sink.old) (K.held sink.new) (script_text options.now script.now) }
    ensures status { IfOk result (λ s. s ≡ status_of (solved_script options.now script.now)) }
    ensures later { K.faults sink.old ≤ K.faults sink.new }
    ensures failed { IsErrOf result Stop.WriteFault → Rose (K.faults sink.old) (K.faults sink.new) }
{
    let basis = basis(alloc, script)?;
    let lists = united(alloc, script)?;
    let require = reduced(alloc, &script.require)?;
    let solved = solve(alloc, options, lists, &basis, require, script.format)?;
    put_class(alloc, sink, options, &solved, &script.queries)?;
    Ok(solved.status())
}

/// Answers a script.
#[tactic(auto, using(crate::proofs::Ends::ends))]
fn answer_script<K: Sink>(alloc: Global, sink: &mut K, options: &Options, script: &Script) -> Status
    requires options { IsAllowed options.now }
    requires script { KeepsLimits script.now }
    ensures text { HoldsText result (K.held sink.old) (K.held sink.new) (script_text options.now script.now) }
    ensures fits { FitsScript result options.now script.now }
    ensures answer { ComesAfterReading result }
    ensures later { K.faults sink.old ≤ K.faults sink.new }
    ensures write_fault { result ≡ Status.WriteFault → Rose (K.faults sink.old) (K.faults sink.new) }
{
    match put_script(alloc, sink, options, script) {
        Ok(status) => status,
        Err(Stop::Memory) => Status::Memory,
        Err(Stop::WriteFault) => Status::WriteFault,
    }
}

/// Answers a text that is no script, or no claim.
pub fn refuse<K: Sink>(alloc: Global, sink: &mut K, line: u32, kind: Kind) -> Status
    ensures text { HoldsText result (K.held sink.old) (K.held sink.new) (fault_text (record { line = line; kind = kind })) }
    ensures fits { FitsFault result }
    ensures answer { ComesAfterReading result }
    ensures later { K.faults sink.old ≤ K.faults sink.new }
    ensures write_fault { result ≡ Status.WriteFault → Rose (K.faults sink.old) (K.faults sink.new) }
{
    match put_fault(alloc, sink, line, kind) {
        Ok(()) => Status::Refused,
        Err(SinkFault::Memory) => Status::Memory,
        Err(SinkFault::Failed) => Status::WriteFault,
    }
}

/// Writes the text due of these bytes.
#[tactic(auto, unfolding(crate::specs::Due::text_due))]
pub fn answer<K: Sink>(alloc: Global, sink: &mut K, options: &Options, bytes: &[u8]) -> Status
    requires { IsAllowed options.now }
    ensures text { HoldsText result (K.held sink.old) (K.held sink.new) (text_due options.now bytes.now) }
    ensures fits { FitsText result options.now bytes.now }
    ensures answer { ComesAfterReading result }
    ensures later { K.faults sink.old ≤ K.faults sink.new }
    ensures write_fault { result ≡ Status.WriteFault → Rose (K.faults sink.old) (K.faults sink.new) }
{
    match read_script(alloc, bytes) {
        Ok(script) => answer_script(alloc, sink, options, &script),
        Err(ScriptError::Refused { line, kind }) => refuse(alloc, sink, line, kind),
        Err(ScriptError::Memory) => Status::Memory,
    }
}
