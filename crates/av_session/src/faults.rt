// Whole runs over sources and sinks that fail, over scripts that are cut short, and over scripts with one fault.
ghost use Rattle.std.specs.Prelude.{◌≡◌, ◌≤◌, length, None};

use crate::tests::{CATALAN, CATALAN_ANSWER, Ended, LAST_LINE, run_over, run_script};
use crate::{Status, run};
use av_io::{Failed, MemSink, MemSource, Source, SureSource};
use av_text::demo_script;
use std::alloc::{AllocError, Global};
use std::test::Fail;

// A run over a source of one byte a call whose call of this number fails, and a sink that never does.
fn run_with_failing_read(alloc: Global, call: u64) -> Result<Ended, AllocError> {
    let mut source = MemSource::new(Vec::from_slice(alloc, CATALAN)?, 1, vec![in alloc; call]?);
    run_over(alloc, &[], &mut source)
}

// The script has 18 bytes, and call 19 gives none: no call comes after that.
#[test]
fn each_read_that_fails_ends_the_run(rt: HostRuntime) -> Result<(), Fail> {
    for call in 1..20u64 {
        let ended = run_with_failing_read(rt.alloc(), call)?;
        assert!(rt; ended.status == Status::ReadFault, "{call}");
        assert!(rt; ended.held.is_empty(), "{call}");
    }
    let whole = run_with_failing_read(rt.alloc(), 20)?;
    assert!(rt; whole.status == Status::Done);
    assert!(rt; whole.held.as_slice() == CATALAN_ANSWER);
    Ok(())
}

// A run over a source that never fails, and a sink of one byte a call whose call of this number fails.
fn run_with_failing_write(alloc: Global, call: usize) -> Result<Ended, AllocError> {
    let mut source = SureSource::new(Vec::from_slice(alloc, CATALAN)?);
    let mut sink = MemSink::new(alloc, 1, vec![in alloc; call as u64]?);
    let status = run(alloc, &[], &mut source, &mut sink);
    let held = Vec::from_slice(alloc, sink.bytes())?;
    Ok(Ended { status, held })
}

// The sink then holds what it took before.
#[test]
fn each_write_that_fails_ends_the_run(rt: HostRuntime) -> Result<(), Fail> {
    for call in 1..CATALAN_ANSWER.len() + 1 {
        let ended = run_with_failing_write(rt.alloc(), call)?;
        assert!(rt; ended.status == Status::WriteFault, "{call}");
        assert!(rt;
            ended.held.as_slice() == &CATALAN_ANSWER[..call - 1],
            "{call}"
        );
    }
    let whole = run_with_failing_write(rt.alloc(), CATALAN_ANSWER.len() + 1)?;
    assert!(rt; whole.status == Status::Done);
    assert!(rt; whole.held.as_slice() == CATALAN_ANSWER);
    Ok(())
}

const UNSETTLED: &[u8] =
    b"permspec 1\nbasis none\nsimples 4:2 5:6 6:46 7:338 8:2926\nunsettled 8\n";

const EMPTY_CLASS: &[u8] = b"permspec 1
basis 1
simples 4:0 5:0
gap 4
system 2 equations 1 terms 0
E0 C avoid 1 require none = none
end
";

// How a run over the first k bytes of the script ends.
fn status_of_front(k: usize) -> Status {
    match k {
        5 | 6 => Status::Unsettled,
        7 | 9 | 10 | 17 | 18 => Status::Done,
        _ => Status::Refused,
    }
}

// What it writes.
fn text_of_front(k: usize) -> &'static [u8] {
    match k {
        0 => b"fault 0 1\n",
        1..=4 => b"fault 1 5\n",
        5 | 6 => UNSETTLED,
        7 => EMPTY_CLASS,
        8 => b"fault 1 2\n",
        9 | 10 => &CATALAN_ANSWER[..CATALAN_ANSWER.len() - LAST_LINE],
        11..=16 => b"fault 2 5\n",
        _ => CATALAN_ANSWER,
    }
}

#[test]
fn scripts_that_are_cut_short(rt: HostRuntime) -> Result<(), Fail> {
    for k in 0..CATALAN.len() + 1 {
        let ended = run_script(rt.alloc(), &[], &CATALAN[..k])?;
        assert!(rt; ended.status == status_of_front(k), "{k}");
        assert!(rt; ended.held.as_slice() == text_of_front(k), "{k}");
    }
    Ok(())
}

static FAULTS: [(&str, &str); 30] = [
    ("BASIS 132\n", "fault 1 5\n"),
    ("basis 0\n", "fault 1 2\n"),
    ("basis 1224\n", "fault 1 2\n"),
    ("basis 1234567890\n", "fault 1 2\n"),
    ("basis 2,1,3,\n", "fault 1 2\n"),
    ("basis 1111111111111\n", "fault 1 3\n"),
    ("count 7\n", "fault 0 1\n"),
    ("basis 132\r\r\ncount 7\n", "fault 1 9\n"),
    ("basis 132\n# note\nbasis 21\n", "fault 3 10\n"),
    ("basis 132\nlist 3 from\n", "fault 2 5\n"),
    ("basis 132\nlist 3 for 2 from 1\n", "fault 2 5\n"),
    ("basis 132\nstat foo 3\n", "fault 2 5\n"),
    ("basis 132\ndist lrm 3\n", "fault 2 5\n"),
    ("basis 132\ncount x\n", "fault 2 6\n"),
    ("basis 132\nlist 3 for 0\n", "fault 2 7\n"),
    ("basis 132\ndraw 3 18446744073709551616 1\n", "fault 2 7\n"),
    ("basis 132\nstat inv 13\n", "fault 2 7\n"),
    ("basis 132\npick inv 12721 3\n", "fault 2 7\n"),
    ("basis 132\ndist inv 25\n", "fault 2 7\n"),
    ("basis 132\nrank 122\n", "fault 2 2\n"),
    ("basis 132\nrank 1,2,,3\n", "fault 2 2\n"),
    ("basis 21\nrequire 321\nrequire 12\n", "fault 3 11\n"),
    ("require 122\nbasis 21\n", "fault 1 2\n"),
    (
        "basis 21\nrequire 1,2,3,4,5,6,7,8,9,10,11,12,13\n",
        "fault 2 3\n",
    ),
    ("basis 21\nformat\n", "fault 2 5\n"),
    ("basis 21\nformat 2\nformat 1\n", "fault 3 12\n"),
    ("basis 21\nformat 3\n", "fault 2 7\n"),
    ("basis 132\nunion 12345678\n", "fault 2 14\n"),
    ("union 12345678\n", "fault 0 1\n"),
    ("basis 12\nunion 21\nunion 21\n", "fault 3 15\n"),
];

// Nothing but the line of the fault is written.
#[test]
fn the_first_fault_of_a_script_is_answered(rt: HostRuntime) -> Result<(), Fail> {
    for (script, line) in &FAULTS {
        let ended = run_script(rt.alloc(), &[], script.as_bytes())?;
        assert!(rt; ended.status == Status::Refused, "{script}");
        assert!(rt; ended.held.as_slice() == line.as_bytes(), "{script}");
    }
    Ok(())
}

// The longest words of the two lists have together ten entries, as many as may be.
#[test]
fn a_union_of_words_as_long_as_can_be(rt: HostRuntime) -> Result<(), Fail> {
    let ended = run_script(
        rt.alloc(),
        &["--max-simple=5"],
        b"basis 132\nunion 1234567\n",
    )?;
    assert!(rt; ended.status != Status::Refused);
    assert!(rt;
        ended
            .held
            .starts_with(b"permspec 1\nunion 132 with 1234567\n")
    );
    Ok(())
}

// Other spellings of the script.
#[test]
fn scripts_that_are_accepted(rt: HostRuntime) -> Result<(), Fail> {
    let spellings = [
        "basis 1,3,2\ncount 7",
        "basis 132\r\ncount 7\r\n",
        "\tbasis\t132 \n\n#\ncount  7\r",
    ];
    for script in spellings {
        let ended = run_script(rt.alloc(), &[], script.as_bytes())?;
        assert!(rt; ended.status == Status::Done, "{script}");
        assert!(rt; ended.held.as_slice() == CATALAN_ANSWER, "{script}");
    }
    Ok(())
}

// What the second read of a source does.
#[derive(Clone, Copy, Drop)]
enum Second {
    Fails,
    Ends,
}

// A source that gives the basis line of 132 at its first read and at each from the third on.
#[derive(Drop)]
struct Resuming {
    second: Second,
    calls: u64,
}

impl Resuming {
    fn new(second: Second) -> Resuming {
        Resuming { second, calls: 0 }
    }
}

impl Source for Resuming {
    ghost left = { λ _. None };

    ghost faults = { λ s. s.calls };

    fn read(&mut self, buf: &mut [u8]) -> Result<usize, Failed> {
        self.calls = self.calls.saturating_add(1);
        match (self.calls, self.second) {
            (2, Second::Fails) => Err(Failed),
            (2, Second::Ends) => Ok(0),
            _ => Ok(copy_front(b"basis 132\n", buf)),
        }
    }
}

// Copies as many bytes as there is room for.
fn copy_front(bytes: &[u8], buf: &mut [u8]) -> usize
    ensures within { result ≤ length buf.new }
    ensures long { length buf.new ≡ length buf.old }
{
    let count = bytes.len().min(buf.len());
    buf[..count].copy_from_slice(&bytes[..count]);
    count
}

// A source that would fail isn't read: the answer is that of the demo script.
#[test]
fn a_demo_reads_no_source(rt: HostRuntime) -> Result<(), Fail> {
    let alloc = rt.alloc();
    let mut source = Resuming::new(Second::Fails);
    let ended = run_over(alloc, &["--demo", "10", "--max-simple=6"], &mut source)?;
    let Ok(script) = demo_script(alloc, 10) else {
        assert!(rt; false);
        return Ok(());
    };
    let wanted = run_script(alloc, &["--max-simple=6"], &script)?;
    assert!(rt; ended.status == wanted.status);
    assert!(rt; ended.held.as_slice() == wanted.held.as_slice());
    assert_eq!(rt; source.calls, 0);
    Ok(())
}

// The second read of a source fails: nothing is written, and there is no third read.
#[test]
fn the_first_read_that_fails_ends_the_run(rt: HostRuntime) -> Result<(), Fail> {
    let mut source = Resuming::new(Second::Fails);
    let ended = run_over(rt.alloc(), &[], &mut source)?;
    assert!(rt; ended.status == Status::ReadFault);
    assert!(rt; ended.held.is_empty());
    assert_eq!(rt; source.calls, 2);
    Ok(())
}

// A source would give more after its end: it isn't read any more.
#[test]
fn the_first_read_that_gives_none_ends_the_reading(rt: HostRuntime) -> Result<(), Fail> {
    let mut source = Resuming::new(Second::Ends);
    let ended = run_over(rt.alloc(), &[], &mut source)?;
    assert!(rt; ended.status == Status::Done);
    assert!(rt; ended.held.as_slice() == &CATALAN_ANSWER[..CATALAN_ANSWER.len() - LAST_LINE]);
    assert_eq!(rt; source.calls, 2);
    Ok(())
}
