//! Whole runs over sources and sinks in memory, which fail at each of their calls in turn; and the calls of the gate.
//! `.ci/program_checks` and `.ci/check_checks` check the answers of the built program.

use crate::run::run;
use io_edges::{Gate, MemSink, MemSource, OpenGate};
use std::alloc::{AllocError, Global};
use std::process::Abort;
use std::sync::Wait;
use std::sync::atomic::{AtomicU64, Ordering};
use std::test::Fail;
use std::thread;
use std::thread::Threads;
use tool_ends::Status;

const READY_SCRIPT: &[u8] = b"rngscript 1\n\
    cpus 1\n\
    caller 0\n\
    read 8 1\n\
    read 8 6\n\
    read 8 8\n\
    read 0 0\n\
    reseed\n\
    bits\n\
    credit 100\n\
    bits\n\
    end\n";

const READY_TRANSCRIPT: &[u8] = b"rngtranscript 1\n\
    0.0 read EAGAIN ~0 -\n\
    0.1 read EINVAL - -\n\
    0.2 read EINVAL - -\n\
    0.3 read EINTR ~0,b:0@1,b:1@2 -\n\
    0.4 reseed ENODATA ~0 -\n\
    0.5 bits ok p:0@3 0\n\
    0.6 credit ok p:1@4 -\n\
    0.7 bits ok p:2@5 100\n\
    0.8 end ok b:2@6 -\n\
    end\n";

const PAIR: &[u8] = b"rngscript 1\n\
    cpus 1\n\
    caller 0\n\
    write 616263\n\
    read 16 4\n\
    end\n\
    rngtranscript 1\n\
    0.0 write ok p:0@1 -\n\
    0.1 read ok ~0,p:1@2,b:0@3 2e6bb5ff0fe262f66131c5e063550e5e\n\
    0.2 end ok b:1@4 -\n\
    end\n";

// `PAIR` with another answer and without the bytes of the read.
const BLANKED_PAIR: &[u8] = b"rngscript 1\n\
    cpus 1\n\
    caller 0\n\
    write 616263\n\
    read 16 4\n\
    end\n\
    rngtranscript 1\n\
    0.0 write ok p:0@1 -\n\
    0.1 read EINVAL ~0,p:1@2,b:0@3 -\n\
    0.2 end ok b:1@4 -\n\
    end\n";

const FIRST_TRANSCRIPT: &[u8] = b"rngtranscript 1\n\
    0.0 write ok p:0@1 -\n\
    0.1 read ok ~0,p:1@2,b:0@3 2e6bb5ff0fe262f66131c5e063550e5e\n\
    0.2 end ok b:1@4 -\n\
    end\n";

const READS_SCRIPT: &[u8] = b"rngscript 1\n\
    cpus 2\n\
    caller 0\n\
    credit 256\n\
    fork 1\n\
    read 8 0\n\
    caller 1\n\
    on 1\n\
    read 8 0\n\
    end\n";

// More bytes than any output here has.
const ROOM: usize = 1000;

// How a source and a sink behave: `step` is the most bytes that each of them moves in one call. `failing_take` is the
// number of the source's call that fails, and `failing_put` of the sink's call; 0 means none.
#[derive(Clone, Copy)]
struct Edges {
    step: usize,
    failing_take: u64,
    failing_put: u64,
    flush_fails: bool,
}

const WHOLE: Edges = Edges {
    step: 4096,
    failing_take: 0,
    failing_put: 0,
    flush_fails: false,
};

// The source gives, and the sink takes, one byte in each call; no call fails.
const SMALL: Edges = Edges { step: 1, ..WHOLE };

// The status of a run with these words over a source and a sink in memory, and the content of the sink.
fn run_over<R: Abort + Threads + Wait + Sync, G: Gate>(
    rt: &R,
    alloc: Global,
    texts: &[&str],
    input: &[u8],
    edges: Edges,
    gate: &G,
) -> Result<(Status, MemSink), AllocError> {
    assert!(rt; edges.step > 0);
    let mut words = Vec::new(alloc);
    for text in texts {
        words.push(String::from_str(alloc, text)?)?;
    }
    let fails = [edges.failing_take].to_vec(alloc)?;
    let mut source = MemSource::of(input.to_vec(alloc)?, edges.step, fails);
    let fails = [edges.failing_put].to_vec(alloc)?;
    let mut sink = MemSink::of(alloc, edges.step, fails, ROOM)?;
    if edges.flush_fails {
        sink = sink.failing_at_flush();
    }
    let status = run(rt, alloc, &words, &mut source, &mut sink, gate);
    Ok((status, sink))
}

// Words and an input, with the status and the output for them.
type UsageRow = (
    &'static [&'static str],
    &'static [u8],
    Status,
    &'static [u8],
);

// Another implementation gave the bytes of transcripts, draws and forks; verdicts were worked out by hand.
const ROWS: [UsageRow; 10] = [
    (&["run"], READY_SCRIPT, Status::Done, READY_TRANSCRIPT),
    (&["run"], b"nonsense\n", Status::Refused, b"refused 1 3\n"),
    (&["check"], PAIR, Status::Done, b"yes\n"),
    (&["check"], BLANKED_PAIR, Status::No, b"no 5\n"),
    (&["check"], b"nonsense\n", Status::Refused, b"refused 1 3\n"),
    (&["replay"], BLANKED_PAIR, Status::Done, FIRST_TRANSCRIPT),
    (
        &["load", "1", "1", "8"],
        b"",
        Status::Done,
        b"callers 1 events 10 bytes 137 check yes\n",
    ),
    (
        &["draw", "6", "10"],
        b"",
        Status::Done,
        b"1\n1\n5\n1\n0\n0\n0\n4\n2\n0\n",
    ),
    (
        &["vfork", "3", "1", "40"],
        b"",
        Status::Done,
        b"parent 3accf3fdd01cf3df1072692f43f9c73cc50311f58125957a620ae47b19f142c34d140e013e09434b\n\
        child 3bdb3a458300809577cac095ee7d7b7e9c5e0774717ef19150549f16e551017bcebb28d0fc4fa8db\n",
    ),
    (
        &["feed", "1", "4", "1000"],
        b"",
        Status::Done,
        b"feeders 4 samples 4000 dumps 3 bits 48\n",
    ),
];

// The source gives one byte a call, and one more call finds the end of the input. A command without input never calls
// the source.
#[test]
fn a_source_that_fails_at_each_call(rt: HostRuntime) -> Result<(), Fail> {
    for (row, (words, input, status, output)) in ROWS.iter().enumerate() {
        let calls = if input.is_empty() {
            0
        } else {
            input.len() as u64 + 1
        };
        for failing_take in 1..=calls + 1 {
            let edges = Edges {
                failing_take,
                ..SMALL
            };
            let (ended, sink) = run_over(&rt, rt.alloc(), words, input, edges, &OpenGate)?;
            let (wanted, held) = if failing_take <= calls {
                (Status::ReadFault, b"".as_slice())
            } else {
                (*status, *output)
            };
            assert_eq!(rt; ended, wanted, "row {row}, call {failing_take}");
            assert_eq!(rt; sink.held(), held, "row {row}, call {failing_take}");
        }
    }
    Ok(())
}

// The sink takes one byte a call. The flush comes after the last put.
#[test]
fn a_sink_that_fails_at_each_call(rt: HostRuntime) -> Result<(), Fail> {
    for (row, (words, input, status, output)) in ROWS.iter().enumerate() {
        for puts in 0..=output.len() {
            let edges = Edges {
                failing_put: puts as u64 + 1,
                flush_fails: false,
                ..SMALL
            };
            let (ended, sink) = run_over(&rt, rt.alloc(), words, input, edges, &OpenGate)?;
            let wanted = if puts < output.len() {
                Status::WriteFault
            } else {
                *status
            };
            assert_eq!(rt; ended, wanted, "row {row}, {puts} puts");
            assert_eq!(rt;
                Some(sink.held()),
                output.get(..puts),
                "row {row}, {puts} puts"
            );
        }
        let edges = Edges {
            flush_fails: true,
            ..WHOLE
        };
        let (ended, sink) = run_over(&rt, rt.alloc(), words, input, edges, &OpenGate)?;
        assert_eq!(rt; ended, Status::WriteFault, "row {row}");
        assert_eq!(rt; sink.held(), *output, "row {row}");
    }
    Ok(())
}

// The first lines of a text.
fn first_lines(text: &[u8], lines: usize) -> &[u8] {
    let mut ends: usize = 0;
    for (place, byte) in text.iter().enumerate() {
        if *byte == b'\n' {
            ends = ends.wrapping_add(1);
            if ends == lines {
                let (front, _) = text.split_at(place + 1);
                return front;
            }
        }
    }
    b""
}

// The source gives one byte in each call, and fails at call 1 in the first run, at call 9 in the second, and so on. The
// output has the transcript's lines up to the last event that was read.
#[test]
fn a_session_whose_source_fails(rt: HostRuntime) -> Result<(), Fail> {
    for eighth in 0..=READY_SCRIPT.len() / 8 {
        let bytes = 8 * eighth;
        let failing_take = bytes as u64 + 1;
        let edges = Edges {
            failing_take,
            ..SMALL
        };
        let (ended, sink) = run_over(&rt, rt.alloc(), &["live"], READY_SCRIPT, edges, &OpenGate)?;
        let (read, _) = READY_SCRIPT.split_at(bytes);
        let lines = read.iter().filter(|byte| **byte == b'\n').count();
        let emitted = match lines {
            0..=2 => 0,
            12 => 11,
            _ => lines - 2,
        };
        assert_eq!(rt; ended, Status::ReadFault, "call {failing_take}");
        assert_eq!(rt;
            sink.held(),
            first_lines(READY_TRANSCRIPT, emitted),
            "call {failing_take}"
        );
    }
    Ok(())
}

// The sink takes one byte in each call. The first run fails at call 1. In each later run the failing call is twenty
// calls later. In a last run only the flush fails.
#[test]
fn a_session_whose_sink_fails(rt: HostRuntime) -> Result<(), Fail> {
    for twentieth in 0..=READY_TRANSCRIPT.len() / 20 {
        let puts = 20 * twentieth;
        let edges = Edges {
            failing_put: puts as u64 + 1,
            ..SMALL
        };
        let (ended, sink) = run_over(&rt, rt.alloc(), &["live"], READY_SCRIPT, edges, &OpenGate)?;
        let wanted = if puts < READY_TRANSCRIPT.len() {
            Status::WriteFault
        } else {
            Status::Done
        };
        assert_eq!(rt; ended, wanted, "{puts} puts");
        assert_eq!(rt;
            Some(sink.held()),
            READY_TRANSCRIPT.get(..puts),
            "{puts} puts"
        );
    }
    let edges = Edges {
        flush_fails: true,
        ..WHOLE
    };
    let (ended, sink) = run_over(&rt, rt.alloc(), &["live"], READY_SCRIPT, edges, &OpenGate)?;
    assert_eq!(rt; ended, Status::WriteFault);
    assert_eq!(rt; sink.held(), READY_TRANSCRIPT);
    Ok(())
}

// The ends of the pieces in which a sink takes a text: each line in its own put, and at most `step` bytes in each call.
fn piece_ends(alloc: Global, text: &[u8], step: usize) -> Result<Vec<usize>, AllocError> {
    let mut ends = Vec::new(alloc);
    let mut begin = 0;
    for (place, byte) in text.iter().enumerate() {
        let end = place + 1;
        if *byte == b'\n' || end.saturating_sub(begin) >= step {
            ends.push(end)?;
            begin = end;
        }
    }
    Ok(ends)
}

// If the sink takes a whole line in each call and fails at call k, it holds the first k - 1 lines. If it takes less in
// each call, it holds the pieces before call k.
#[test]
fn a_sink_that_fails_at_each_line(rt: HostRuntime) -> Result<(), Fail> {
    for (step, puts) in [(4096, 11), (7, 36)] {
        let ends = piece_ends(rt.alloc(), READY_TRANSCRIPT, step)?;
        assert_eq!(rt; ends.len(), puts, "pieces of {step}");
        let mut held = 0;
        for (before, end) in ends.iter().enumerate() {
            let edges = Edges {
                step,
                failing_put: before as u64 + 1,
                ..WHOLE
            };
            let (ended, sink) = run_over(
                &rt,
                rt.alloc(),
                &["run"],
                READY_SCRIPT,
                edges,
                &OpenGate,
            )?;
            assert_eq!(rt;
                ended,
                Status::WriteFault,
                "pieces of {step}, {before} puts"
            );
            assert_eq!(rt;
                Some(sink.held()),
                READY_TRANSCRIPT.get(..held),
                "pieces of {step}, {before} puts"
            );
            held = *end;
        }
        assert_eq!(rt; held, READY_TRANSCRIPT.len(), "pieces of {step}");
        let edges = Edges {
            step,
            failing_put: puts as u64 + 1,
            ..WHOLE
        };
        let (ended, sink) = run_over(&rt, rt.alloc(), &["run"], READY_SCRIPT, edges, &OpenGate)?;
        assert_eq!(rt; ended, Status::Done, "pieces of {step}");
        assert_eq!(rt; sink.held(), READY_TRANSCRIPT, "pieces of {step}");
    }
    Ok(())
}

// A gate that counts the events before which it was called.
#[derive(Drop)]
struct Counter {
    calls: AtomicU64,
}

impl Gate for Counter {
    fn before<R: Wait>(&self, _rt: &R, _caller: u32, _event: u32) {
        self.calls.fetch_add(1, Ordering::SeqCst);
    }
}

// If a command wrote its line but skipped calls or samples, it would call the gate less often.
#[test]
fn the_gate_is_called_before_each_event(rt: HostRuntime) -> Result<(), Fail> {
    let rows: [(&[&str], &[u8], u64, Status, u64); 9] = [
        (&["run"], READS_SCRIPT, 0, Status::Done, 5),
        (&["run"], READS_SCRIPT, 1, Status::ReadFault, 0),
        (
            &["run"],
            b"rngscript 1\ncpus 1\ncaller 0\nbits\nfork 1\nend\n",
            0,
            Status::Refused,
            0,
        ),
        (&["live"], READY_SCRIPT, 0, Status::Done, 8),
        (&["live"], READY_SCRIPT, 2, Status::ReadFault, 8),
        (&["live"], READS_SCRIPT, 0, Status::Refused, 1),
        (&["load", "1", "1", "8"], b"", 0, Status::Done, 10),
        (&["load", "1", "8", "400"], b"", 0, Status::Done, 3216),
        (&["feed", "1", "4", "1000"], b"", 0, Status::Done, 4000),
    ];
    for (row, (words, input, failing_take, status, calls)) in rows.iter().enumerate() {
        let gate = Counter {
            calls: AtomicU64::new(0),
        };
        let edges = Edges {
            failing_take: *failing_take,
            ..WHOLE
        };
        let (ended, _) = run_over(&rt, rt.alloc(), words, input, edges, &gate)?;
        assert_eq!(rt; ended, *status, "row {row}");
        assert_eq!(rt; gate.calls.load(Ordering::SeqCst), *calls, "row {row}");
    }
    Ok(())
}

// Holds each of two callers before its read until the other caller also reaches its read.
#[derive(Drop)]
struct CallerMeeting {
    parent: AtomicU64,
    child: AtomicU64,
    late: AtomicU64,
}

impl CallerMeeting {
    fn meet(&self, mine: &AtomicU64, other: &AtomicU64) {
        mine.store(1, Ordering::SeqCst);
        for _ in 0..100_000_000u32 {
            if other.load(Ordering::SeqCst) == 1 {
                return;
            }
            thread::yield_now();
        }
        self.late.fetch_add(1, Ordering::SeqCst);
    }
}

impl Gate for CallerMeeting {
    fn before<R: Wait>(&self, _rt: &R, caller: u32, event: u32) {
        if caller == 0 && event == 2 {
            self.meet(&self.parent, &self.child);
        }
        if caller == 1 && event == 1 {
            self.meet(&self.child, &self.parent);
        }
    }
}

#[test]
fn two_callers_are_inside_their_reads_at_once(rt: HostRuntime) -> Result<(), Fail> {
    let gate = CallerMeeting {
        parent: AtomicU64::new(0),
        child: AtomicU64::new(0),
        late: AtomicU64::new(0),
    };
    let (status, _) = run_over(&rt, rt.alloc(), &["run"], READS_SCRIPT, WHOLE, &gate)?;
    assert_eq!(rt; status, Status::Done);
    assert_eq!(rt; gate.parent.load(Ordering::SeqCst), 1);
    assert_eq!(rt; gate.child.load(Ordering::SeqCst), 1);
    assert_eq!(rt; gate.late.load(Ordering::SeqCst), 0);
    Ok(())
}
