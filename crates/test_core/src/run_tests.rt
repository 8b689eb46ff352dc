//! Runs with forks, in threads and without threads. Another implementation gave the bytes of these runs. It also gave
//! the bytes of a first read after a credit of 256 bits without any input.
ghost use Rattle.key_names.specs.Texts.ScriptGrammar.{WellFormed};

use caller_run::{Children, run_new, run_on_new_table};
use event_script::{Script, read};
use io_edges::{Gate, MemSink, OpenGate};
use std::alloc::Global;
use std::process::Abort;
use std::sync::Wait;
use std::sync::atomic::{AtomicU64, Ordering};
use std::test::Fail;
use std::thread;
use transcript_text::{Transcript, write_all};

const FORK_SCRIPT: &[u8] = b"rngscript 1\n\
    cpus 1\n\
    caller 0\n\
    credit 256\n\
    vread 40 0\n\
    fork 1\n\
    vread 40 0\n\
    caller 1\n\
    vread 40 0\n\
    end\n";

const WAKES_SCRIPT: &[u8] = b"rngscript 1\n\
    cpus 1\n\
    caller 0\n\
    fork 1\n\
    read 4 0\n\
    caller 1\n\
    credit 256\n\
    end\n";

const WAITS_SCRIPT: &[u8] = b"rngscript 1\n\
    cpus 1\n\
    caller 0\n\
    fork 1\n\
    read 4 0\n\
    caller 1\n\
    read 4 0\n\
    end\n";

// The child runs in its parent's thread. Afterwards the parent finds the core ready.
const WAKES_HERE: &[u8] = b"rngtranscript 1\n\
    0.0 fork ok b:0@1,b:1@2,b:4@6 -\n\
    0.1 read ok ~1,~1,b:5@7,c0:0@8 93271463\n\
    0.2 end ok b:6@9 -\n\
    1.0 credit ok p:0@2,p:1@3,b:2@4 -\n\
    1.1 end ok b:3@5 -\n\
    end\n";

// The stalled parent does not count as running, so its child is interrupted, and later the parent is too.
const WAITS_HERE: &[u8] = b"rngtranscript 1\n\
    0.0 fork ok b:0@1,b:1@2,b:5@6 -\n\
    0.1 read EINTR ~0,b:6@7,b:7@8 -\n\
    0.2 end ok b:8@9 -\n\
    1.0 read EINTR ~0,b:2@3,b:3@4 -\n\
    1.1 end ok b:4@5 -\n\
    end\n";

// The child starts with a wiped state.
const FORK_HERE: &[u8] = b"rngtranscript 1\n\
    0.0 credit ok p:0@1,p:1@2,b:0@3 -\n\
    0.1 vread ok ~1,~1,~1,~1,b:1@4,c0:0@5,~1 \
e075b16b0c4452a518eca3ab47632384e594d8d16878e30fbdc2dd5f21bd4ce02c16be73d82f3107\n\
    0.2 fork ok b:2@6,b:3@7,b:5@9 -\n\
    0.3 vread ok ~1 88d46304e1bb3ad98e2f9e1c279b5a3f74567d0f498d570538395a332c27435cc73f7317729c1235\n\
    0.4 end ok b:6@10 -\n\
    1.0 vread ok ~1,~1,~1,~1,c0:1@7,~1 \
223f1a93c3ab801c80b3bd773ec991fe8e669d8a1a244d0e108dd1221c8b9c27088f786b2ea8fd14\n\
    1.1 end ok b:4@8 -\n\
    end\n";

// The text of the transcript, up to the mark of caller 0's event `end`. Up to this mark no caller's steps depend on
// another's.
const IN_THREADS: &[u8] = b"rngtranscript 1\n\
    0.0 credit ok p:0@1,p:1@2,b:0@3 -\n\
    0.1 vread ok ~1,~1,~1,~1,b:1@4,c0:0@5,~1 \
e075b16b0c4452a518eca3ab47632384e594d8d16878e30fbdc2dd5f21bd4ce02c16be73d82f3107\n\
    0.2 fork ok b:2@6 -\n\
    0.3 vread ok ~1 88d46304e1bb3ad98e2f9e1c279b5a3f74567d0f498d570538395a332c27435cc73f7317729c1235\n\
    0.4 end ok b:";

// The bytes that the child reads, from its own batch.
const CHILDS_BYTES: &[u8] =
    b"223f1a93c3ab801c80b3bd773ec991fe8e669d8a1a244d0e108dd1221c8b9c27088f786b2ea8fd14";

// After the fork, each caller waits before its read until the other caller has reached its own read.
#[derive(Drop)]
struct ReadMeeting {
    parent: AtomicU64,
    child: AtomicU64,
    late: AtomicU64,
}

impl ReadMeeting {
    fn meet(&self, mine: &AtomicU64, other: &AtomicU64) {
        mine.store(1, Ordering::SeqCst);
        for _ in 0..100_000_000u32 {
            if other.load(Ordering::SeqCst) == 1 {
                return;
            }
            thread::yield_now();
        }
        self.late.fetch_add(1, Ordering::SeqCst);
    }
}

impl Gate for ReadMeeting {
    fn before<R: Wait>(&self, _rt: &R, caller: u32, event: u32) {
        if caller == 0 && event == 3 {
            self.meet(&self.parent, &self.child);
        }
        if caller == 1 && event == 0 {
            self.meet(&self.child, &self.parent);
        }
    }
}

fn script_of(rt: &impl Abort, alloc: Global, text: &[u8]) -> Script
    ensures { WellFormed result }
{
    let Ok(script) = read(alloc, text) else {
        panic!(rt; "no script");
    };
    script
}

fn text_of(rt: &impl Abort, alloc: Global, transcript: &Transcript) -> Result<MemSink, Fail> {
    let mut sink = MemSink::of(alloc, 4096, Vec::new(alloc), 8192)?;
    assert!(rt; write_all(&mut sink, transcript).is_ok());
    Ok(sink)
}

#[test]
fn a_fork_wipes_the_childs_state(rt: HostRuntime) -> Result<(), Fail> {
    let script = script_of(&rt, rt.alloc(), FORK_SCRIPT);
    let gate = ReadMeeting {
        parent: AtomicU64::new(0),
        child: AtomicU64::new(0),
        late: AtomicU64::new(0),
    };
    let transcript = run_on_new_table(&rt, rt.alloc(), &script, &gate)?;
    assert_eq!(rt; gate.late.load(Ordering::SeqCst), 0);
    let sink = text_of(&rt, rt.alloc(), &transcript)?;
    let text = sink.held();
    assert!(rt; text.starts_with(IN_THREADS), "caller 0");
    assert!(rt;
        text.windows(CHILDS_BYTES.len())
            .any(|part| part == CHILDS_BYTES),
        "caller 1"
    );
    Ok(())
}

#[test]
fn a_fork_that_is_run_here(rt: HostRuntime) -> Result<(), Fail> {
    let rows = [
        (FORK_SCRIPT, FORK_HERE),
        (WAKES_SCRIPT, WAKES_HERE),
        (WAITS_SCRIPT, WAITS_HERE),
    ];
    for (row, (text, wanted)) in rows.iter().enumerate() {
        let script = script_of(&rt, rt.alloc(), text);
        let transcript = run_new(&rt, rt.alloc(), &script, &OpenGate, Children::Here)?;
        let sink = text_of(&rt, rt.alloc(), &transcript)?;
        assert_eq!(rt; sink.held(), *wanted, "row {row}");
    }
    Ok(())
}

// A script in which each caller but the last forks the next.
fn chain_script(alloc: Global) -> Result<String, Fail> {
    let mut text = String::new(alloc);
    text.push_str("rngscript 1\ncpus 1\n")?;
    for caller in 0..63u32 {
        text.push_str(&format!(in alloc; "caller {caller}\nfork {}\n", caller + 1)?)?;
    }
    text.push_str("caller 63\nend\n")?;
    Ok(text)
}

// All visits are of the base. There are two for each fork on the way down, then the last caller's end, and two for each
// parent on the way up.
fn chain_transcript(alloc: Global) -> Result<String, Fail> {
    let mut text = String::new(alloc);
    text.push_str("rngtranscript 1\n")?;
    for caller in 0..63u32 {
        let down = 2 * caller;
        let up = 251 - 2 * caller;
        text.push_str(&format!(in alloc;
            "{caller}.0 fork ok b:{down}@{},b:{}@{},b:{up}@{} -\n",
            down + 1,
            down + 1,
            down + 2,
            up + 1
        )?)?;
        text.push_str(&format!(in alloc; "{caller}.1 end ok b:{}@{} -\n", up + 1, up + 2)?)?;
    }
    text.push_str("63.0 end ok b:126@127 -\nend\n")?;
    Ok(text)
}

#[test]
fn sixty_four_callers_each_forked_by_the_one_before(rt: HostRuntime) -> Result<(), Fail> {
    let alloc = rt.alloc();
    let text = chain_script(alloc)?;
    let script = script_of(&rt, alloc, text.as_bytes());
    let transcript = run_new(&rt, alloc, &script, &OpenGate, Children::Here)?;
    let sink = text_of(&rt, alloc, &transcript)?;
    let wanted = chain_transcript(alloc)?;
    assert_eq!(rt; sink.held(), wanted.as_bytes());
    Ok(())
}
