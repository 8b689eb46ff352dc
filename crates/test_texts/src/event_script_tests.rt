//! Facts that no contract states: an ordinary text is read, a reader shows each event once its line is whole, and a
//! load has the expected content. `.ci/program_checks` tries each fault on the built program.
ghost use Rattle.std.specs.Prelude.{◌≡◌, ℕ, List, OnOk};
ghost use Rattle.event_script.specs.Feeding.{HasFed};

use event_script::{Script, ScriptProgress, ScriptReader, read, read_front};
use key_names::{Event, Text};
use std::alloc::{AllocError, Global};
use std::test::Fail;

#[test]
fn a_script_is_read(rt: HostRuntime) -> Result<(), Fail> {
    let text =
        b"rngscript 3\ncpus 256\ncaller 0\non 255\nstate 15\nfork 1\ncaller 1\nwrite -\nend\n0.0 on ok - -\n";
    let (script, len) = read_front(rt.alloc(), text).ok().ok_or("no script")?;
    assert_eq!(rt; len, 74);
    assert_eq!(rt; script.version(), 3);
    assert_eq!(rt; script.cpus(), 256);
    assert_eq!(rt; script.callers(), 2);
    Ok(())
}

/// Whether two events of a load are the same.
fn is_same(event: &Event, other: &Event) -> bool {
    match (event, other) {
        (
            Event::Add { text, bits },
            Event::Add {
                text: bytes,
                bits: credit,
            },
        ) => { text.bytes() == bytes.bytes() && bits == credit }
        (Event::Write { text }, Event::Write { text: bytes }) => text.bytes() == bytes.bytes(),
        (Event::On { cpu }, Event::On { cpu: on }) => cpu == on,
        (
            Event::Read { len, flags },
            Event::Read {
                len: most,
                flags: with,
            },
        ) => { len == most && flags == with }
        (
            Event::Vread { len, flags },
            Event::Vread {
                len: most,
                flags: with,
            },
        ) => { len == most && flags == with }
        (Event::Kread { len }, Event::Kread { len: most }) => len == most,
        (Event::Uread { len }, Event::Uread { len: most }) => len == most,
        (
            Event::Irq { v1, v2 },
            Event::Irq {
                v1: first,
                v2: second,
            },
        ) => { v1 == first && v2 == second }
        (Event::Int64, Event::Int64) | (Event::Reseed, Event::Reseed) => true,
        _ => false,
    }
}

#[test]
fn a_load_has_the_events_of_its_text(rt: HostRuntime) -> Result<(), Fail> {
    let text = b"rngscript 1\ncpus 1\ncaller 0\n\
        add 000102030405060708090a0b0c0d0e0f101112131415161718191a1b1c1d1e1f 256\n\
        on 0\nvread 2 0\nkread 19\nint64\nirq 3 0\nwrite 0400000000000000\nuread 87\nreseed\nread 21 0\nend\n";
    let script = read(rt.alloc(), text).ok().ok_or("no script")?;
    let load = Script::load(rt.alloc(), 1, 1, 8)?;
    assert_eq!(rt; load.version(), script.version());
    assert_eq!(rt; load.cpus(), script.cpus());
    assert_eq!(rt; load.callers(), 1);
    assert_eq!(rt; script.callers(), 1);
    let (events, others) = (load.events(0), script.events(0));
    assert_eq!(rt; events.len(), others.len());
    for (event, other) in events.iter().zip(others) {
        assert!(rt; is_same(event, other));
    }
    Ok(())
}

#[test]
fn loads_at_their_limits(rt: HostRuntime) -> Result<(), Fail> {
    let text = Text::of(rt.alloc(), [0x8f, 1, 0, 0, 0, 0, 0, 0].to_vec(rt.alloc())?)?;
    // The number of events and the last event in each row were computed by another program.
    let rows = [
        (1, 8, 400, 3216, Event::Write { text }),
        (u32::MAX, 64, 1000, 64_128, Event::Int64),
        (u32::MAX, 1, 2, 4, Event::Read { len: 13, flags: 0 }),
        (99, 1, 2, 4, Event::Irq { v1: 1, v2: 0 }),
    ];
    for (start, callers, events, count, last) in &rows {
        assert!(rt; *callers >= 1 && *callers <= 64 && *events >= 1 && *events <= 1000);
        let load = Script::load(rt.alloc(), *start, *callers, *events)?;
        assert_eq!(rt; load.callers(), *callers);
        let mut sum: u64 = 0;
        for caller in 0..load.callers() {
            sum = sum.wrapping_add(load.events(caller).len() as u64);
        }
        assert_eq!(rt; sum, *count);
        let found = load.events(*callers - 1).last().ok_or("no event")?;
        assert!(rt; is_same(found, last));
    }
    Ok(())
}

/// A summary of what `progress` returns: the number of finished blocks, the number of events in the last block, and the
/// number of the next or the faulty line.
#[derive(Clone, Copy, Debug, PartialEq, Eq)]
enum Summary {
    Waits,
    Open(u32, usize, u32),
    Ended(u32, usize, u32),
    Faulty(u32),
}

fn summary_of(progress: ScriptProgress<'_>) -> Summary {
    match progress {
        ScriptProgress::Waits => Summary::Waits,
        ScriptProgress::Open(view) => Summary::Open(view.blocks, view.events.len(), view.number),
        ScriptProgress::Ended(view) => Summary::Ended(view.blocks, view.events.len(), view.number),
        ScriptProgress::Faulty(fault) => Summary::Faulty(fault.line),
    }
}

const LINES: [(&[u8], Summary); 9] = [
    (b"rngscript 3", Summary::Waits),
    (b"cpus 256", Summary::Waits),
    (b"caller 0", Summary::Open(0, 0, 4)),
    (b"reseed", Summary::Open(0, 1, 5)),
    (b"fork 1", Summary::Open(0, 2, 6)),
    (b"caller 1", Summary::Open(1, 0, 7)),
    (b"read 21 0", Summary::Open(1, 1, 8)),
    (b"end", Summary::Ended(1, 1, 9)),
    (b"bits", Summary::Faulty(9)),
];

/// Feeds a piece. Returns the summary of the reader's progress after this piece.
fn next(alloc: Global, reader: &mut ScriptReader, piece: &[u8]) -> Result<Summary, AllocError>
    requires { (text : List ℕ) × HasFed text reader.old }
    ensures { OnOk result ((text : List ℕ) × HasFed text reader.new) }
{
    reader.feed(alloc, piece)?;
    Ok(summary_of(reader.progress()))
}

#[test]
fn events_are_shown_once_their_line_is_whole(rt: HostRuntime) -> Result<(), Fail> {
    let alloc = rt.alloc();
    let mut by_bytes = ScriptReader::new(alloc);
    let mut by_lines = ScriptReader::new(alloc);
    for (line, shown) in LINES {
        for byte in line {
            assert_eq!(rt; next(alloc, &mut by_bytes, &[*byte])?, Summary::Waits);
        }
        assert_eq!(rt; next(alloc, &mut by_bytes, b"\n")?, shown);
        next(alloc, &mut by_lines, line)?;
        assert_eq!(rt; next(alloc, &mut by_lines, b"\n")?, shown);
    }
    assert_eq!(rt; next(alloc, &mut by_lines, b"x")?, Summary::Faulty(9));
    Ok(())
}

#[test]
fn a_view_has_the_head_and_the_events(rt: HostRuntime) -> Result<(), Fail> {
    let mut reader = ScriptReader::new(rt.alloc());
    reader.feed(
        rt.alloc(),
        b"rngscript 2\ncpus 3\ncaller 0\nuread 4\nkread 5\n",
    )?;
    let open = match reader.progress() {
        ScriptProgress::Open(view) => Some(view),
        _ => None,
    };
    let view = open.ok_or("not open")?;
    assert_eq!(rt; (view.version, view.cpus), (2, 3));
    assert!(rt;
        matches!(
            view.events,
            [Event::Uread { len: 4 }, Event::Kread { len: 5 }]
        )
    );
    Ok(())
}
