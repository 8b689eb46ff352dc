//! Facts that no contract states: the adapters work over real readers and writers. Each call of a source or sink in
//! memory is made to fail once.
ghost use Rattle.std.specs.Prelude.{◌≤◌, length};

use io_edges::{
    Failed, MemSink, MemSource, NoFaultSink, NoFaultSource, ReadError, Sink, Source, StdSink,
    StdSource, put_all, read_to_limit,
};
use std::alloc::{AllocError, Global};
use std::io::{self, BufWriter, ErrorKind, Read, Write};
use std::process::Abort;
use std::test::Fail;

const TEXT: &[u8] = b"rngtranscript 1\n0.0 read EAGAIN ~0 -\n";

const STEPS: [usize; 3] = [1, 7, 4096];

fn source_of(
    rt: &impl Abort,
    alloc: Global,
    step: usize,
    failing: u64,
) -> Result<MemSource, AllocError> {
    assert!(rt; step > 0);
    Ok(MemSource::of(TEXT.to_vec(alloc)?, step, [failing].to_vec(alloc)?))
}

fn sink_of(
    rt: &impl Abort,
    alloc: Global,
    step: usize,
    failing: u64,
) -> Result<MemSink, AllocError> {
    assert!(rt; step > 0);
    MemSink::of(alloc, step, [failing].to_vec(alloc)?, TEXT.len())
}

// The position in `TEXT` after `calls` calls of `step` bytes each.
fn place(calls: u64, step: usize) -> usize
    ensures { result ≤ length TEXT.now }
{
    (calls as usize).saturating_mul(step).min(TEXT.len())
}

#[test]
fn a_source_in_memory_fails_at_each_call_in_turn(rt: HostRuntime) -> Result<(), Fail> {
    let alloc = rt.alloc();
    for step in STEPS {
        assert!(rt; step > 0);
        // The last call finds the end of `TEXT`.
        let calls = TEXT.len().div_ceil(step) as u64 + 1;
        for failing in 1..=calls {
            let mut source = source_of(&rt, alloc, step, failing)?;
            assert_eq!(rt;
                read_to_limit(alloc, &mut source, 100),
                Err(ReadError::Fault),
                "call {failing}"
            );
            let rest = read_to_limit(alloc, &mut source, 100)?;
            assert_eq!(rt;
                rest.as_slice(),
                &TEXT[place(failing - 1, step)..],
                "step {step}, call {failing}"
            );
        }
        let mut source = source_of(&rt, alloc, step, calls + 1)?;
        assert_eq!(rt;
            read_to_limit(alloc, &mut source, 100)?.as_slice(),
            TEXT,
            "step {step}"
        );
        assert_eq!(rt;
            read_to_limit(alloc, &mut source, 100),
            Err(ReadError::Fault),
            "step {step}"
        );
    }
    Ok(())
}

#[test]
fn a_sink_in_memory_fails_at_each_call_in_turn(rt: HostRuntime) -> Result<(), Fail> {
    let alloc = rt.alloc();
    for step in STEPS {
        assert!(rt; step > 0);
        let calls = TEXT.len().div_ceil(step) as u64;
        for failing in 1..=calls {
            let mut sink = sink_of(&rt, alloc, step, failing)?;
            assert_eq!(rt;
                put_all(&mut sink, TEXT),
                Err(Failed),
                "step {step}, call {failing}"
            );
            let at = place(failing - 1, step);
            assert_eq!(rt; sink.held(), &TEXT[..at], "step {step}, call {failing}");
            assert_eq!(rt;
                put_all(&mut sink, &TEXT[at..]),
                Ok(()),
                "step {step}, call {failing}"
            );
            assert_eq!(rt; sink.held(), TEXT, "step {step}, call {failing}");
        }
        let mut sink = sink_of(&rt, alloc, step, calls + 1)?;
        assert_eq!(rt; put_all(&mut sink, TEXT), Ok(()), "step {step}");
        assert_eq!(rt; sink.held(), TEXT, "step {step}");
    }
    Ok(())
}

#[test]
fn a_sink_without_room_takes_what_fits(rt: HostRuntime) -> Result<(), Fail> {
    let alloc = rt.alloc();
    let mut sink = MemSink::of(alloc, 4096, Vec::new(alloc), 10)?;
    assert_eq!(rt; sink.put(TEXT), Ok(10));
    assert_eq!(rt; sink.put(TEXT), Err(Failed));
    assert_eq!(rt; sink.put(&[]), Ok(0));
    assert_eq!(rt; sink.held(), b"rngtranscr".as_slice());
    Ok(())
}

#[test]
fn a_read_stops_one_byte_past_its_limit(rt: HostRuntime) -> Result<(), Fail> {
    let alloc = rt.alloc();
    let mut source = NoFaultSource::of(TEXT.to_vec(alloc)?);
    assert_eq!(rt;
        read_to_limit(alloc, &mut source, 15)?.as_slice(),
        b"rngtranscript 1\n".as_slice()
    );
    let mut front = [0; 3];
    assert_eq!(rt; source.take(&mut front), Ok(3));
    assert_eq!(rt; front.as_slice(), b"0.0".as_slice());
    assert_eq!(rt;
        read_to_limit(alloc, &mut source, 100)?.as_slice(),
        b" read EAGAIN ~0 -\n".as_slice()
    );
    Ok(())
}

#[test]
fn a_sink_that_keeps_nothing_takes_all(rt: HostRuntime) {
    let mut sink = NoFaultSink::of();
    assert_eq!(rt; sink.put(TEXT), Ok(37));
    assert_eq!(rt; put_all(&mut sink, TEXT), Ok(()));
}

// A reader that is interrupted, then fails, then gives three bytes, and then ends.
#[derive(Drop)]
struct Flaky {
    calls: u8,
}

impl Read for Flaky {
    fn read(&mut self, buf: &mut [u8]) -> io::Result<usize> {
        self.calls = self.calls.saturating_add(1);
        match self.calls {
            1 => Err(ErrorKind::Interrupted.into()),
            2 => Err(ErrorKind::BrokenPipe.into()),
            3 if buf.len() >= 3 => {
                buf[..3].copy_from_slice(b"abc");
                Ok(3)
            }
            _ => Ok(0),
        }
    }
}

// A writer that is interrupted, then fails, then takes no byte, and then takes all.
impl Write for Flaky {
    fn write(&mut self, buf: &[u8]) -> io::Result<usize> {
        self.calls = self.calls.saturating_add(1);
        match self.calls {
            1 => Err(ErrorKind::Interrupted.into()),
            2 => Err(ErrorKind::BrokenPipe.into()),
            3 => Ok(0),
            _ => Ok(buf.len()),
        }
    }

    fn flush(&mut self) -> io::Result<()> {
        Ok(())
    }
}

#[test]
fn a_reader_is_a_source(rt: HostRuntime) -> Result<(), Fail> {
    let alloc = rt.alloc();
    let mut source = StdSource::of(TEXT);
    assert_eq!(rt; read_to_limit(alloc, &mut source, 100)?.as_slice(), TEXT);
    let mut flaky = StdSource::of(Flaky { calls: 0 });
    assert_eq!(rt;
        read_to_limit(alloc, &mut flaky, 100),
        Err(ReadError::Fault)
    );
    assert_eq!(rt;
        read_to_limit(alloc, &mut flaky, 100)?.as_slice(),
        b"abc".as_slice()
    );
    Ok(())
}

#[test]
fn a_writer_is_a_sink(rt: HostRuntime) -> Result<(), Fail> {
    let alloc = rt.alloc();
    let mut text = Vec::new(alloc);
    let mut sink = StdSink::of(BufWriter::with_capacity(alloc, 0, &mut text)?);
    assert_eq!(rt; put_all(&mut sink, TEXT), Ok(()));
    drop(sink);
    assert_eq!(rt; text.as_slice(), TEXT);
    let mut flaky = StdSink::of(BufWriter::with_capacity(alloc, 0, Flaky { calls: 0 })?);
    assert_eq!(rt; flaky.put(TEXT), Err(Failed));
    assert_eq!(rt; flaky.put(TEXT), Err(Failed));
    assert_eq!(rt; flaky.put(TEXT), Ok(37));
    Ok(())
}
