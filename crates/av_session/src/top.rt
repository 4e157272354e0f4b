// The top call.
ghost use Rattle.std.specs.Prelude.{◌≡◌, ◌≤◌, List, ℕ, IfSome, Some, None, true, false, Result, Ok, map, string_bytes};
ghost use Rattle.std.specs.Io.KnownBytes.{Keeps};
ghost use Rattle.av_io.specs.Causes.{Rose};
ghost use Rattle.av_text.specs.Demo.{demo_script};
ghost use Rattle.av_text.specs.Read.{Fault, read};
ghost use Rattle.av_text.specs.declared.script.Script.{Script};
ghost use Rattle.av_session.specs.Options.{options, IsAllowed};
ghost use Rattle.av_session.specs.Taken.{TakesUpTo};
ghost use Rattle.av_session.specs.Status.{HoldsText, FitsText, ComesAfterReading};
ghost use Rattle.av_session.specs.Due.{text_due};
ghost use Rattle.av_session.specs.Runs.{demo_asked, script_by, script_bytes, most_by, most_read, due, FitsRun, ReadsWhole, IsComplete, IsAbout, HasCases, WritesSystem};
ghost use Rattle.av_check.specs.declared.claim.Claim.{Claim};
ghost use Rattle.av_check.specs.Claims.{IsClaim};
ghost use Rattle.av_session.specs.Checks.{IsTold, HasTold, claimed_by, claim_bytes, HoldsCheck, FitsCheck, HoldsTold, FitsWords, IsAboutClaim, IsCheckComplete};

use crate::checking::answer_claim;
use crate::options::{Options, WordsError, read_words};
use crate::reading::{MOST_CLAIMED, MOST_READ, ReadError, read_all};
use crate::session::answer;
use crate::status::Status;
use av_io::{Sink, Source};
use av_perm::Memory;
use av_text::{MAX_DEMO, demo_script};
use std::alloc::Global;

/// How many bytes are read at most where the options are these.
fn most_bytes(options: &Options) -> usize
    ensures { result ≡ most_by (Some options.now) }
{
    match options.check {
        true => MOST_CLAIMED,
        false => MOST_READ,
    }
}

/// Writes the text due of these options where the source has these bytes, which for a check are read as a claim, and else as a
/// script.
fn answer_bytes<K: Sink>(alloc: Global, options: &Options, bytes: &[u8], sink: &mut K) -> Status
    requires { IsAllowed options.now }
    ensures answer { ComesAfterReading result }
    ensures write_fault { result ≡ Status.WriteFault → Rose (K.faults sink.old) (K.faults sink.new) }
    ensures fits { options.now.check ≡ false → FitsText result options.now bytes.now }
    ensures text { options.now.check ≡ false → HoldsText result (K.held sink.old) (K.held sink.new) (text_due options.now bytes.now) }
    ensures check_fits { options.now.check ≡ true → FitsCheck result options.now bytes.now }
    ensures check_text { options.now.check ≡ true → HoldsCheck result (K.held sink.old) (K.held sink.new) options.now bytes.now }
    ensures later { K.faults sink.old ≤ K.faults sink.new }
{
    if options.check {
        answer_claim(alloc, sink, options, bytes)
    } else {
        answer(alloc, sink, options, bytes)
    }
}

/// Writes the text due of these options and of the demo script of a number.
fn run_demo<K: Sink>(alloc: Global, options: &Options, g: u32, sink: &mut K) -> Status
    requires options { IsAllowed options.now }
    requires number { g ≤ MAX_DEMO }
    ensures answer { ComesAfterReading result }
    ensures write_fault { result ≡ Status.WriteFault → Rose (K.faults sink.old) (K.faults sink.new) }
    ensures fits { FitsText result options.now (demo_script g) }
    ensures text { HoldsText result (K.held sink.old) (K.held sink.new) (text_due options.now (demo_script g)) }
    ensures later { K.faults sink.old ≤ K.faults sink.new }
{
    match demo_script(alloc, g) {
        Ok(bytes) => answer(alloc, sink, options, &bytes),
        Err(Memory) => Status::Memory,
    }
}

/// Writes the text due of these options: of the demo script, where they have its number, and else of the bytes that the source
/// has.
fn run_with<S: Source, K: Sink>(
    alloc: Global,
    options: &Options,
    source: &mut S,
    sink: &mut K,
) -> Status
    requires { IsAllowed options.now }
    ensures not_words { result ≡ Status.Words → ⊥ }
    ensures read_fault { result ≡ Status.ReadFault → Rose (S.faults source.old) (S.faults source.new) }
    ensures write_fault { result ≡ Status.WriteFault → Rose (K.faults sink.old) (K.faults sink.new) }
    ensures fits { IfSome (script_by (Some options.now) (S.left source.old)) (λ bytes. FitsText result options.now bytes) }
    ensures text { IfSome (script_by (Some options.now) (S.left source.old)) (λ bytes. HoldsText result (K.held sink.old) (K.held sink.new) (text_due options.now bytes)) }
    ensures check_fits { IfSome (claimed_by (Some options.now) (S.left source.old)) (λ bytes. FitsCheck result options.now bytes) }
    ensures check_text { IfSome (claimed_by (Some options.now) (S.left source.old)) (λ bytes. HoldsCheck result (K.held sink.old) (K.held sink.new) options.now bytes) }
    ensures unread_demo { IfSome options.now.demo (λ _. source.new ≡ source.old) }
    ensures no_read_fault { IfSome options.now.demo (λ _. result ≡ Status.ReadFault → ⊥) }
    ensures unwritten { result ≡ Status.ReadFault → sink.new ≡ sink.old }
    ensures took { TakesUpTo (most_by (Some options.now)) (S.left source.old) (S.left source.new) }
    ensures input { options.now.demo ≡ None → ReadsWhole (most_by (Some options.now)) result (S.left source.old) (S.left source.new) }
    ensures source_later { S.faults source.old ≤ S.faults source.new }
    ensures sink_later { K.faults sink.old ≤ K.faults sink.new }
{
    match options.demo {
        Some(g) => run_demo(alloc, options, g, sink),
        None => match read_all(alloc, source, most_bytes(options)) {
            Ok(bytes) => answer_bytes(alloc, options, &bytes, sink),
            Err(ReadError::Failed) => Status::ReadFault,
            Err(ReadError::Memory) => Status::Memory,
        },
    }
}

/// Reads the words of the command line and the script that the source has, or with `--demo` the demo script, or with `--check`
/// the claim that the source has, and writes the text due to the sink.
///
/// The text due is a function of the words and of all the bytes of the source, however its reads cut them. With `--demo` the
/// bytes are those of the demo script, whatever the source has, and the source isn't read. Each status
/// other than `Memory` has its cause: the words (`Words`), a count of faults that rose in this call or stands at its
/// last value (`ReadFault`, `WriteFault`), the bytes (`Refused`, `Unsettled`, `TooLarge`). `Memory` is free.
///
/// Where the text due has a system, the values of its derivation trees of each size are exactly the permutations of that
/// length that avoid the basis and contain the required words, each once (`exact`), and the answers are those of the class. With a
/// union line a permutation avoids the basis exactly where it avoids each word of the basis line or each word of that one (`about`).
///
/// With `--check` the text due ends in `check yes` only where the derivation trees of the claimed system have for values exactly
/// the permutations of the claimed class, each once (`about_claim`).
pub fn run<S: Source, K: Sink>(
    alloc: Global,
    words: &[String],
    source: &mut S,
    sink: &mut K,
) -> Status
    // When each status comes.
    ensures words { result ≡ Status.Words → options (map string_bytes words.now) ≡ None }
    ensures refused_words { options (map string_bytes words.now) ≡ None → (result ≡ Status.Memory → ⊥) → result ≡ Status.Words }
    ensures read_fault { result ≡ Status.ReadFault → Rose (S.faults source.old) (S.faults source.new) }
    ensures no_read_fault { IfSome (demo_asked (map string_bytes words.now)) (λ _. result ≡ Status.ReadFault → ⊥) }
    ensures write_fault { result ≡ Status.WriteFault → Rose (K.faults sink.old) (K.faults sink.new) }
    ensures fits { IfSome (script_bytes (map string_bytes words.now) (S.left source.old)) (λ bytes. FitsRun result (map string_bytes words.now) bytes) }
    ensures check_fits { IfSome (claim_bytes (map string_bytes words.now) (S.left source.old)) (λ bytes. FitsWords result (map string_bytes words.now) bytes) }

    // What the sink holds then, and what was read.
    ensures text { IfSome (script_bytes (map string_bytes words.now) (S.left source.old)) (λ bytes. HoldsText result (K.held sink.old) (K.held sink.new) (due (map string_bytes words.now) bytes)) }
    ensures check_text { IfSome (claim_bytes (map string_bytes words.now) (S.left source.old)) (λ bytes. HoldsTold result (K.held sink.old) (K.held sink.new) (map string_bytes words.now) bytes) }
    ensures unread { result ≡ Status.Words → source.new ≡ source.old }
    ensures unread_demo { IfSome (demo_asked (map string_bytes words.now)) (λ _. source.new ≡ source.old) }
    ensures unwritten { result ≡ Status.Words → sink.new ≡ sink.old }
    ensures unwritten_words { options (map string_bytes words.now) ≡ None → sink.new ≡ sink.old }
    ensures unwritten_fault { result ≡ Status.ReadFault → sink.new ≡ sink.old }
    ensures took { TakesUpTo (most_read (map string_bytes words.now)) (S.left source.old) (S.left source.new) }
    ensures input { demo_asked (map string_bytes words.now) ≡ None → ReadsWhole (most_read (map string_bytes words.now)) result (S.left source.old) (S.left source.new) }
    ensures source_later { S.faults source.old ≤ S.faults source.new }
    ensures sink_later { K.faults sink.old ≤ K.faults sink.new }
    ensures complete { IsComplete result (script_bytes (map string_bytes words.now) (S.left source.old)) (map string_bytes words.now) (Rose (S.faults source.old) (S.faults source.new)) (Rose (K.faults sink.old) (K.faults sink.new)) }
    ensures check_complete { IsCheckComplete result (claim_bytes (map string_bytes words.now) (S.left source.old)) (map string_bytes words.now) (Rose (S.faults source.old) (S.faults source.new)) (Rose (K.faults sink.old) (K.faults sink.new)) }

    // What the text says, in the words of the textbook.
    ensures about { (bytes : List ℕ) (script : Script) → read bytes ≡ Ok script → IsAbout script }
    ensures cases { (bytes : List ℕ) (o : Options) (script : Script) → read bytes ≡ Ok script → HasCases o script }
    ensures exact { WritesSystem (map string_bytes words.now) }

    // What it says of a claim.
    ensures told { (bytes : List ℕ) → HasTold bytes }
    ensures about_claim { (bytes : List ℕ) (o : Options) (claim : Claim) → options (map string_bytes words.now) ≡ Some o → IsClaim bytes claim → IsAboutClaim o claim }
{
    match read_words(alloc, words) {
        Ok(options) => run_with(alloc, &options, source, sink),
        Err(WordsError::Words) => Status::Words,
        Err(WordsError::Memory) => Status::Memory,
    }
}
