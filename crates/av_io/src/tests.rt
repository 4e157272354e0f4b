use crate::{
    Failed, MemSink, MemSource, Sink, SinkFault, Source, StdSink, StdSource, SureSink, SureSource,
};
use std::alloc::Global;
use std::io;
use std::io::{Read, Write};
use std::test::Fail;

#[test]
fn a_source_in_memory_fails_at_its_first_call_and_then_gives_a_byte_a_call(
    rt: HostRuntime,
) -> Result<(), Fail> {
    let bytes = Vec::from_slice(rt.alloc(), b"count 7")?;
    let mut source = MemSource::new(bytes, 1, vec![in rt.alloc(); 1u64]?);
    let mut buf = [0u8; 4];
    assert_eq!(rt; source.read(&mut buf), Err(Failed));
    for byte in b"count 7" {
        assert_eq!(rt; source.read(&mut buf), Ok(1));
        assert_eq!(rt; buf[0], *byte);
    }
    assert_eq!(rt; source.read(&mut buf), Ok(0));
    Ok(())
}

#[test]
fn a_sink_whose_third_call_fails_holds_the_first_two_bytes(rt: HostRuntime) -> Result<(), Fail> {
    let mut sink = MemSink::new(rt.alloc(), 1, vec![in rt.alloc(); 3u64]?);
    assert_eq!(rt; sink.write(b"permspec"), Ok(1));
    assert_eq!(rt; sink.write(b"ermspec"), Ok(1));
    assert_eq!(rt; sink.write(b"rmspec"), Err(SinkFault::Failed));
    assert_eq!(rt; sink.bytes(), &b"pe"[..]);
    assert_eq!(rt; sink.write(b"rmspec"), Ok(1));
    assert_eq!(rt; sink.bytes(), &b"per"[..]);
    Ok(())
}

#[test]
fn what_never_fails_gives_all_and_takes_all(rt: HostRuntime) -> Result<(), Fail> {
    let mut source = SureSource::new(Vec::from_slice(rt.alloc(), b"basis")?);
    let mut buf = [0u8; 3];
    assert_eq!(rt; source.read(&mut buf), Ok(3));
    assert_eq!(rt; buf, *b"bas");
    assert_eq!(rt; source.read(&mut buf), Ok(2));
    assert_eq!(rt; buf[..2], b"is"[..]);
    assert_eq!(rt; source.read(&mut buf), Ok(0));
    let mut sink = SureSink::new(rt.alloc());
    assert_eq!(rt; sink.write(b"basis "), Ok(6));
    assert_eq!(rt; sink.write(b"132"), Ok(3));
    assert_eq!(rt; sink.bytes(), &b"basis 132"[..]);
    Ok(())
}

#[test]
fn what_a_failing_sink_did_not_take_still_waits(rt: HostRuntime) -> Result<(), Fail> {
    let mut waiting = SureSink::new(rt.alloc());
    assert_eq!(rt; waiting.write(b"permspec"), Ok(8));
    let mut sink = MemSink::new(rt.alloc(), 1, vec![in rt.alloc(); 4u64]?);
    assert_eq!(rt; waiting.pass_on(&mut sink), Err(SinkFault::Failed));
    assert_eq!(rt; sink.bytes(), &b"per"[..]);
    assert_eq!(rt; waiting.bytes(), &b"mspec"[..]);
    assert_eq!(rt; waiting.pass_on(&mut sink), Ok(()));
    assert_eq!(rt; sink.bytes(), &b"permspec"[..]);
    assert_eq!(rt; waiting.bytes(), &b""[..]);
    Ok(())
}

// Passes on 1,000 pieces of 20 bytes each: two pieces of 8,200 bytes and one of 3,600.
fn pass_on_in_large_pieces(alloc: Global, sink: &mut MemSink) -> Result<(), SinkFault> {
    let mut waiting = SureSink::new(alloc);
    for _ in 0..1000 {
        waiting.write(b"twenty bytes a piece")?;
        waiting.pass_on_large(sink)?;
    }
    waiting.pass_on(sink)
}

#[test]
fn small_pieces_go_on_in_three_large_ones(rt: HostRuntime) -> Result<(), Fail> {
    let mut sink = MemSink::new(rt.alloc(), 10_000, vec![in rt.alloc(); 4u64]?);
    assert_eq!(rt; pass_on_in_large_pieces(rt.alloc(), &mut sink), Ok(()));
    assert_eq!(rt; sink.bytes().len(), 20_000);
    let mut sink = MemSink::new(rt.alloc(), 10_000, vec![in rt.alloc(); 3u64]?);
    let result = pass_on_in_large_pieces(rt.alloc(), &mut sink);
    assert_eq!(rt; result, Err(SinkFault::Failed));
    assert_eq!(rt; sink.bytes().len(), 16_400);
    Ok(())
}

// Gives one byte a call, and fails once, before the second.
#[derive(Drop)]
struct Stumbling {
    bytes: &'static [u8],
    calls: u8,
}

impl Read for Stumbling {
    fn read(&mut self, buf: &mut [u8]) -> io::Result<usize> {
        self.calls = self.calls.saturating_add(1);
        if self.calls == 2 {
            return Err(io::ErrorKind::Other.into());
        }
        if self.bytes.is_empty() || buf.is_empty() {
            return Ok(0);
        }
        buf[0] = self.bytes[0];
        self.bytes = &self.bytes[1..];
        Ok(1)
    }
}

#[test]
fn a_source_over_a_reader_gives_its_bytes_and_its_failure(rt: HostRuntime) {
    let mut source = StdSource::new(Stumbling {
        bytes: b"ab",
        calls: 0,
    });
    let mut buf = [0u8; 4];
    assert_eq!(rt; source.read(&mut buf), Ok(1));
    assert_eq!(rt; buf[0], b'a');
    assert_eq!(rt; source.read(&mut buf), Err(Failed));
    assert_eq!(rt; source.read(&mut buf), Ok(1));
    assert_eq!(rt; buf[0], b'b');
    assert_eq!(rt; source.read(&mut buf), Ok(0));
}

// Takes at most two bytes a call. The second write fails, the third takes nothing, and the flush after the fourth
// fails.
#[derive(Drop)]
struct Reluctant {
    got: Vec<u8>,
    calls: u8,
}

impl Write for Reluctant {
    fn write(&mut self, piece: &[u8]) -> io::Result<usize> {
        self.calls = self.calls.saturating_add(1);
        if self.calls == 2 {
            return Err(io::ErrorKind::Other.into());
        }
        let count = if self.calls == 3 {
            0
        } else {
            piece.len().min(2)
        };
        self.got.extend_from_slice(&piece[..count])?;
        Ok(count)
    }

    fn flush(&mut self) -> io::Result<()> {
        if self.calls == 4 {
            return Err(io::ErrorKind::Other.into());
        }
        Ok(())
    }
}

#[test]
fn a_sink_over_a_writer_fails_where_a_write_or_a_flush_does(rt: HostRuntime) {
    let mut writer = Reluctant {
        got: Vec::new(rt.alloc()),
        calls: 0,
    };
    let mut sink = StdSink::new(&mut writer);
    assert_eq!(rt; sink.write(b"permspec"), Ok(2));
    assert_eq!(rt; sink.write(b"rmspec"), Err(SinkFault::Failed));
    assert_eq!(rt; sink.write(b"rmspec"), Err(SinkFault::Failed));
    assert_eq!(rt; sink.write(b"rmspec"), Err(SinkFault::Failed));
    assert_eq!(rt; sink.write(b"ec"), Ok(2));
    assert_eq!(rt; writer.got.as_slice(), &b"permec"[..]);
}
