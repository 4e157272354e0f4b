// The text of a class, by what is known of it.
ghost use Rattle.std.specs.Prelude.{◌≡◌, ◌≤◌, OnOk, IsErrOf, flat_map};
ghost use Rattle.std.specs.Io.KnownBytes.{Appends};
ghost use Rattle.av_io.specs.Causes.{Rose};
ghost use Rattle.av_print.specs.Wrote.{AppendsPart};
ghost use Rattle.av_print.specs.Text.{◌⊹◌};
ghost use Rattle.av_print.specs.Systems.{system_text};
ghost use Rattle.av_session.specs.Answers.{answer_text};
ghost use Rattle.av_session.specs.Due.{settled_header, settled_text, too_large_text, unsettled_text, class_text, fault_text};

use crate::answers::put_answers;
use crate::header::Header;
use crate::options::Options;
use crate::solving::{SettledClass, Solved};
use crate::stop::Stop;
use crate::subject::Subject;
use av_io::{Sink, SinkFault, SureSink};
use av_print::{Bytes, Number, put_gathered, put_system};
use av_sys::System;
use av_text::{Kind, Queries};
use std::alloc::Global;

/// Writes the line of a fault.
#[tactic(auto, unfolding(crate::specs::Due::fault_text))]
pub fn put_fault<K: Sink>(
    alloc: Global,
    sink: &mut K,
    line: u32,
    kind: Kind,
) -> Result<(), SinkFault>
    ensures whole { OnOk result (Appends (K.held sink.old) (K.held sink.new) (fault_text (record { line = line; kind = kind }))) }
    ensures part { AppendsPart (K.held sink.old) (K.held sink.new) (fault_text (record { line = line; kind = kind })) }
    ensures later { K.faults sink.old ≤ K.faults sink.new }
    ensures failed { IsErrOf result SinkFault.Failed → Rose (K.faults sink.old) (K.faults sink.new) }
{
    let text = (
        Bytes(b"fault "),
        Number(u128::from(line)),
        Bytes(b" "),
        (Number(u128::from(kind.number())), Bytes(b"\n")),
    );
    put_gathered(alloc, sink, &text)
}

/// Writes the text of a class whose basis has no gap within the limit.
#[tactic(auto, unfolding(crate::specs::Due::unsettled_text))]
pub fn put_unsettled<K: Sink>(alloc: Global, sink: &mut K, subject: &Subject) -> Result<(), Stop>
    ensures whole { OnOk result (Appends (K.held sink.old) (K.held sink.new) (unsettled_text subject.now)) }
    ensures part { AppendsPart (K.held sink.old) (K.held sink.new) (unsettled_text subject.now) }
    ensures later { K.faults sink.old ≤ K.faults sink.new }
    ensures failed { IsErrOf result Stop.WriteFault → Rose (K.faults sink.old) (K.faults sink.new) }
{
    let text = (
        Header { subject },
        Bytes(b"unsettled "),
        Number(subject.found.limit() as u128),
        Bytes(b"\n"),
    );
    put_gathered(alloc, sink, &text)?;
    Ok(())
}

/// Writes the header of a class with this gap.
#[tactic(auto, unfolding(crate::specs::Due::settled_header))]
pub fn put_settled_header<K: Sink>(
    alloc: Global,
    sink: &mut K,
    subject: &Subject,
    gap: usize,
) -> Result<(), SinkFault>
    ensures whole { OnOk result (Appends (K.held sink.old) (K.held sink.new) (settled_header subject.now gap)) }
    ensures part { AppendsPart (K.held sink.old) (K.held sink.new) (settled_header subject.now gap) }
    ensures later { K.faults sink.old ≤ K.faults sink.new }
    ensures failed { IsErrOf result SinkFault.Failed → Rose (K.faults sink.old) (K.faults sink.new) }
{
    let text = (
        Header { subject },
        Bytes(b"gap "),
        Number(gap as u128),
        Bytes(b"\n"),
    );
    put_gathered(alloc, sink, &text)
}

/// Writes the text of a class with this gap whose system is larger than the limit.
#[tactic(auto, using(av_print::proofs::Written::written), unfolding(crate::specs::Due::too_large_text))]
fn put_too_large<K: Sink>(
    alloc: Global,
    sink: &mut K,
    subject: &Subject,
    gap: usize,
    limit: usize,
) -> Result<(), Stop>
    ensures whole { OnOk result (Appends (K.held sink.old) (K.held sink.new) (too_large_text subject.now gap limit)) }
    ensures part { AppendsPart (K.held sink.old) (K.held sink.new) (too_large_text subject.now gap limit) }
    ensures later { K.faults sink.old ≤ K.faults sink.new }
    ensures failed { IsErrOf result Stop.WriteFault → Rose (K.faults sink.old) (K.faults sink.new) }
{
    put_settled_header(alloc, sink, subject, gap)?;
    let text = (Bytes(b"too large "), Number(limit as u128), Bytes(b"\n"));
    put_gathered(alloc, sink, &text)?;
    Ok(())
}

/// Writes the text of a system in one piece, which it gathers in memory first.
#[tactic(auto, using(av_print::proofs::Written::written, av_print::proofs::WaitingTexts::waiting))]
fn put_whole_system<K: Sink>(
    alloc: Global,
    sink: &mut K,
    system: &System,
    version: u8,
) -> Result<(), SinkFault>
    ensures whole { OnOk result (Appends (K.held sink.old) (K.held sink.new) (system_text version system.now)) }
    ensures part { AppendsPart (K.held sink.old) (K.held sink.new) (system_text version system.now) }
    ensures later { K.faults sink.old ≤ K.faults sink.new }
    ensures failed { IsErrOf result SinkFault.Failed → Rose (K.faults sink.old) (K.faults sink.new) }
{
    let mut waiting = SureSink::new(alloc);
    put_system(&mut waiting, system, version)?;
    waiting.pass_on(sink)
}

/// Writes the system of a settled class, and the answers.
#[tactic(auto, using(av_print::proofs::Written::written))]
fn put_system_and_answers<K: Sink>(
    alloc: Global,
    sink: &mut K,
    class: &SettledClass,
    queries: &Queries,
) -> Result<(), Stop>
    ensures whole { OnOk result (Appends (K.held sink.old) (K.held sink.new) (system_text class.now.format class.now.system ⊹ flat_map (answer_text class.now) queries.now)) }
    ensures part { AppendsPart (K.held sink.old) (K.held sink.new) (system_text class.now.format class.now.system ⊹ flat_map (answer_text class.now) queries.now) }
    ensures later { K.faults sink.old ≤ K.faults sink.new }
    ensures failed { IsErrOf result Stop.WriteFault → Rose (K.faults sink.old) (K.faults sink.new) }
{
    put_whole_system(alloc, sink, class.system(), class.format())?;
    put_answers(alloc, sink, class, queries)
}

/// Writes the text of a settled class: the header, the system and the answers.
#[tactic(auto, using(av_print::proofs::Written::written), unfolding(crate::specs::Due::settled_text))]
fn put_settled<K: Sink>(
    alloc: Global,
    sink: &mut K,
    class: &SettledClass,
    queries: &Queries,
) -> Result<(), Stop>
    ensures whole { OnOk result (Appends (K.held sink.old) (K.held sink.new) (settled_text class.now queries.now)) }
    ensures part { AppendsPart (K.held sink.old) (K.held sink.new) (settled_text class.now queries.now) }
    ensures later { K.faults sink.old ≤ K.faults sink.new }
    ensures failed { IsErrOf result Stop.WriteFault → Rose (K.faults sink.old) (K.faults sink.new) }
{
    put_settled_header(alloc, sink, class.subject(), class.gap())?;
    put_system_and_answers(alloc, sink, class, queries)
}

/// Writes the text of a class, by what is known of it.
pub fn put_class<K: Sink>(
    alloc: Global,
    sink: &mut K,
    options: &Options,
    solved: &Solved,
    queries: &Queries,
) -> Result<(), Stop>
    ensures whole { OnOk result (Appends (K.held sink.old) (K.held sink.new) (class_text options.now queries.now solved.now)) }
    ensures part { AppendsPart (K.held sink.old) (K.held sink.new) (class_text options.now queries.now solved.now) }
    ensures later { K.faults sink.old ≤ K.faults sink.new }
    ensures failed { IsErrOf result Stop.WriteFault → Rose (K.faults sink.old) (K.faults sink.new) }
{
    match solved {
        Solved::Unsettled { subject } => put_unsettled(alloc, sink, subject),
        Solved::TooLarge { subject, gap } => {
            put_too_large(alloc, sink, subject, *gap, options.max_size)
        }
        Solved::Settled { class } => put_settled(alloc, sink, class, queries),
    }
}
