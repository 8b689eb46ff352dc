//! Published texts, lines that are built by hand, a sink that fails at each line, and each kind of fault once.
ghost use Rattle.std.specs.Prelude.{◌≡◌, ◌<◌, ◌^◌, [], length};
ghost use Rattle.transcript_text.specs.Views.{bytes_of, seen, seen_shown};

use io_edges::{Failed, MemSink, Sink};
use key_names::{Answer, Data, LaneId, Mark, Step, Word};
use std::alloc::{AllocError, Global};
use std::process::Abort;
use std::test::Fail;
use transcript_text::{
    CallerLines, LineView, LineWriter, Shown, TextError, Transcript, read, write_all,
};

const BEFORE_READINESS: &[u8] = b"rngtranscript 1
0.0 read EAGAIN ~0 -
0.1 read EINVAL - -
0.2 read EINVAL - -
0.3 read EINTR ~0,b:0@1,b:1@2 -
0.4 reseed ENODATA ~0 -
0.5 bits ok p:0@3 0
0.6 credit ok p:1@4 -
0.7 bits ok p:2@5 100
0.8 end ok b:2@6 -
end
";

const FORK: &[u8] = b"rngtranscript 1
0.0 credit ok p:0@1,p:1@2,b:0@3 -
0.1 vread ok ~1,~1,~1,~1,b:1@4,c0:0@5,~1 e075b16b0c4452a518eca3ab47632384e594d8d16878e30fbdc2dd5f21bd4ce02c16be73d82f3107
0.2 fork ok b:2@6 -
0.3 vread ok ~1 88d46304e1bb3ad98e2f9e1c279b5a3f74567d0f498d570538395a332c27435cc73f7317729c1235
0.4 end ok b:3@7 -
1.0 vread ok ~1,~1,~1,~1,c0:1@7,~1 223f1a93c3ab801c80b3bd773ec991fe8e669d8a1a244d0e108dd1221c8b9c27088f786b2ea8fd14
1.1 end ok b:4@8 -
end
";

/// A transcript with numbers of every length.
const NUMBERS: &[u8] = b"rngtranscript 1
0.0 read ok ~0,~9,~10,~99,~100,~999,~1000,~9999,~10000,~99999,~100000,~999999,~1000000,~9999999,~10000000 -
0.1 read ok ~99999999,~100000000,~999999999,~1000000000,~9999999999,~10000000000,~99999999999,~100000000000,~999999999999,~1000000000000,~9999999999999,~10000000000000,~99999999999999,~100000000000000,~999999999999999 -
0.2 read ok ~1000000000000000,~9999999999999999,~10000000000000000,~99999999999999999,~100000000000000000,~999999999999999999,~1000000000000000000,~9223372036854775807,~7,~57,~357,~1357,~24680 -
0.3 read ok ~246801,~1234567,~12345678,~123456789,~1234567890,~12030405,~70000000,~10010203,~90909,~101,~1001,~10101,~100001,~1000100,~2020 -
0.4 bits ok c0:1234@5678901 4294967295
end
";

fn sink(alloc: Global, step: usize, failing: u64) -> Result<MemSink, AllocError>
    requires { 0 < step }
{
    MemSink::of(alloc, step, [failing].to_vec(alloc)?, 1 << 16)
}

/// The two ways to write a transcript: as a whole, or line by line.
#[derive(Clone, Copy, Debug)]
enum Writing {
    Whole,
    ByLines,
}

const WRITINGS: [Writing; 2] = [Writing::Whole, Writing::ByLines];

impl Writing {
    fn write<K: Sink>(self, sink: &mut K, transcript: &Transcript) -> Result<(), Failed> {
        if let Writing::Whole = self {
            return write_all(sink, transcript);
        }
        let mut writer = LineWriter::new();
        LineWriter::begin(sink)?;
        for caller in 0..transcript.callers() {
            let lines = transcript.caller(caller);
            for number in 0..lines.len() {
                writer.write(sink, lines.line(number))?;
            }
        }
        LineWriter::end(sink)
    }
}

#[test]
fn each_line_is_one_put_and_a_failed_put_leaves_the_lines_before(
    rt: HostRuntime,
) -> Result<(), Fail> {
    assert!(rt; BEFORE_READINESS.len() < 1 << 20);
    let transcript = read(rt.alloc(), BEFORE_READINESS)
        .ok()
        .ok_or("a transcript")?;
    let mut whole = 0;
    for put in 1..12 {
        assert!(rt; whole <= BEFORE_READINESS.len());
        for writing in WRITINGS {
            let mut sink = sink(rt.alloc(), 4096, put)?;
            let written = writing.write(&mut sink, &transcript);
            assert_eq!(rt; written, Err(Failed), "put {put}, {writing:?}");
            assert_eq!(rt;
                sink.held(),
                &BEFORE_READINESS[..whole],
                "put {put}, {writing:?}"
            );
        }
        let rest = &BEFORE_READINESS[whole..];
        whole += rest.iter().position(|byte| *byte == b'\n').ok_or("a line")? + 1;
    }
    assert_eq!(rt; whole, BEFORE_READINESS.len());
    Ok(())
}

/// A sink that counts the puts, and keeps the length of the longest.
#[derive(Drop)]
struct Pieces {
    puts: u32,
    longest: usize,
    bytes: usize,
}

impl Sink for Pieces {
    ghost use Rattle.std.specs.Prelude.{[], None};

    ghost held = { λ _. None };

    ghost kept_back = { λ _. [] };

    ghost faults = { λ _. 0 };

    fn flush(&mut self) -> Result<(), Failed> {
        Ok(())
    }

    fn put(&mut self, piece: &[u8]) -> Result<usize, Failed> {
        self.puts = self.puts.saturating_add(1);
        self.longest = self.longest.max(piece.len());
        self.bytes = self.bytes.saturating_add(piece.len());
        Ok(piece.len())
    }
}

/// A line of caller 0 without steps.
fn plain(event: u32, word: Word, answer: Answer, shown: Shown<'_>) -> LineView<'_>
    ensures line { seen result ≡ record {
      caller = 0;
      event = event;
      word = word;
      answer = answer;
      steps = [];
      shown = seen_shown shown.entry;
    } }
    ensures bytes { bytes_of result.shown ≡ bytes_of shown.entry }
{
    LineView {
        caller: 0,
        event,
        word,
        answer,
        steps: &[],
        shown,
    }
}

fn one_read(alloc: Global, bytes: &[u8]) -> Result<Transcript, AllocError>
    requires { (0 < length bytes.now) × (length bytes.now < 2 ^ 32) }
{
    let mut lines = CallerLines::with_room(alloc, 1, 0, bytes.len())?;
    lines.push(plain(0, Word::Read, Answer::Ok, Shown::Bytes(bytes)));
    let mut callers = Vec::new(alloc);
    callers.push(lines)?;
    Ok(Transcript::of(callers))
}

#[test]
fn a_long_line_is_put_in_pieces_of_at_most_4096_bytes(rt: HostRuntime) -> Result<(), Fail> {
    // `0.0 read ok - ` has 14 bytes, and the line feed is one more.
    for (len, puts) in [(2040, 1), (2041, 2), (4088, 2), (4089, 3), (1 << 20, 513)] {
        let bytes = Vec::from_elem(rt.alloc(), 171u8, len)?;
        assert!(rt; bytes.len() > 0 && bytes.len() < 1 << 21);
        let transcript = one_read(rt.alloc(), &bytes)?;
        for writing in WRITINGS {
            let mut pieces = Pieces {
                puts: 0,
                longest: 0,
                bytes: 0,
            };
            assert_eq!(rt; writing.write(&mut pieces, &transcript), Ok(()));
            assert!(rt; pieces.longest <= 4096, "{len} bytes, {writing:?}");
            assert_eq!(rt; pieces.puts, puts + 2, "{len} bytes, {writing:?}");
            assert!(rt; len < 1 << 21);
            assert_eq!(rt;
                pieces.bytes,
                16 + 4 + 15 + 2 * len,
                "{len} bytes, {writing:?}"
            );
        }
    }
    Ok(())
}

#[test]
fn a_long_line_has_its_bytes_in_their_order(rt: HostRuntime) -> Result<(), Fail> {
    for len in [2040, 2041, 4089, 1 << 20] {
        let mut bytes = Vec::with_capacity(rt.alloc(), len)?;
        for place in 0..len {
            bytes.push((place % 251) as u8)?;
        }
        assert!(rt; bytes.len() > 0 && bytes.len() < 1 << 21);
        let transcript = one_read(rt.alloc(), &bytes)?;
        let mut text = b"rngtranscript 1\n0.0 read ok - ".to_vec(rt.alloc())?;
        text.extend_from_slice(hex::encode(rt.alloc(), &bytes)?.as_bytes())?;
        text.extend_from_slice(b"\nend\n")?;
        for writing in WRITINGS {
            let mut sink = MemSink::of(rt.alloc(), 1000, Vec::new(rt.alloc()), 1 << 22)?;
            assert_eq!(rt; writing.write(&mut sink, &transcript), Ok(()));
            assert!(rt; sink.held() == text.as_slice(), "{len} bytes, {writing:?}");
        }
    }
    Ok(())
}

#[test]
fn a_line_is_filled_in_after_a_later_one(rt: HostRuntime) -> Result<(), Fail> {
    let mut lines = CallerLines::with_room(rt.alloc(), 3, 0, 7)?;
    lines.push(plain(0, Word::Read, Answer::Ok, Shown::Bytes(&[1, 2])));
    lines.push(plain(1, Word::Inside, Answer::Unused, Shown::None));
    lines.push(plain(2, Word::Vread, Answer::Ok, Shown::Bytes(&[3])));
    lines.replace(
        1,
        plain(1, Word::Inside, Answer::Ok, Shown::Bytes(&[4, 5, 6, 171])),
    );
    assert_eq!(rt; lines.bytes(), [1, 2, 3, 4, 5, 6, 171].as_slice());
    for (number, (start, len)) in [(0, 2), (3, 4), (2, 1)].iter().enumerate() {
        assert_eq!(rt;
            lines.lines().get(number).map(|line| line.shown),
            Some(Data::Bytes {
                len: *len,
                start: *start
            }),
            "line {number}"
        );
    }
    let mut callers = Vec::new(rt.alloc());
    callers.push(lines)?;
    let mut sink = sink(rt.alloc(), 100, 0)?;
    assert_eq!(rt; write_all(&mut sink, &Transcript::of(callers)), Ok(()));
    assert_eq!(rt;
        sink.held(),
        b"rngtranscript 1\n\
            0.0 read ok - 0102\n\
            0.1 inside ok - 040506ab\n\
            0.2 vread ok - 03\n\
            end\n"
            .as_slice()
    );
    Ok(())
}

/// Reads a text and writes the transcript again.
fn again(
    rt: &impl Abort,
    alloc: Global,
    text: &[u8],
    writing: Writing,
) -> Result<Vec<u8>, AllocError> {
    assert!(rt; text.len() < 1 << 20);
    let Ok(transcript) = read(alloc, text) else {
        return Err(AllocError);
    };
    let mut sink = sink(alloc, 100, 0)?;
    assert_eq!(rt; writing.write(&mut sink, &transcript), Ok(()));
    sink.held().to_vec(alloc)
}

#[test]
fn published_texts_are_read_and_written_again(rt: HostRuntime) -> Result<(), Fail> {
    for text in [BEFORE_READINESS, FORK, NUMBERS, b"rngtranscript 1\nend\n"] {
        for writing in WRITINGS {
            assert_eq!(rt;
                again(&rt, rt.alloc(), text, writing)?.as_slice(),
                text,
                "{writing:?}"
            );
        }
    }
    Ok(())
}

#[test]
fn the_number_of_bits_is_read(rt: HostRuntime) -> Result<(), Fail> {
    let transcript = read(rt.alloc(), b"rngtranscript 1\n0.0 bits ok p:0@1 7\nend\n")
        .ok()
        .ok_or("a transcript")?;
    assert_eq!(rt; transcript.callers(), 1);
    let caller = transcript.caller(0);
    assert_eq!(rt; caller.len(), 1);
    let line = caller.line(0);
    assert_eq!(rt; line.shown, Shown::Count(7));
    assert_eq!(rt; line.word, Word::Bits);
    assert_eq!(rt;
        line.steps,
        [Step::Visit(Mark {
            lane: LaneId::Pool,
            place: 0,
            stamp: 1,
        })]
        .as_slice()
    );
    assert_eq!(rt; caller.bytes().len(), 0);
    Ok(())
}

/// The number of the first faulty line of the text `head`, then `rest`; 0 if this text has no fault.
fn fault(rt: &impl Abort, alloc: Global, head: &str, rest: &str) -> Result<u32, AllocError> {
    let text = format!(in alloc; "{head}{rest}")?;
    assert!(rt; text.len() < 1 << 20);
    match read(alloc, text.as_bytes()) {
        Ok(_) => Ok(0),
        Err(TextError::Fault { line }) => Ok(line),
        Err(TextError::TooManyLines | TextError::NoMemory) => Err(AllocError),
    }
}

#[test]
fn the_first_faulty_line_is_named(rt: HostRuntime) -> Result<(), Fail> {
    for (rest, line) in [
        ("", 2),
        ("end", 2),
        ("end\n", 0),
        ("end\n\n", 3),
        ("end\n0.0 end ok b:0@1 -\n", 3),
        ("end\nx", 3),
        ("\nend\n", 2),
        ("0.0 bits ok p:0@1 07\nend\n", 2),
        ("0.0 bits ok p:0@1 -\nend\n", 0),
        ("0.0 bits ok p:0@1 0a\nend\n", 2),
        ("0.0 bits ok p:0@1 4294967295\nend\n", 0),
        ("0.0 bits ok p:0@1 4294967296\nend\n", 2),
        ("0.0 read ok - 0a\nend\n", 0),
        ("0.0 read ok - 0A\nend\n", 2),
        ("0.0 read ok - 0\nend\n", 2),
        ("0.0 read ok - \nend\n", 2),
        ("0.0 read ok -\nend\n", 2),
        ("0.0 read ok  -\nend\n", 2),
        ("0.0 Read ok - -\nend\n", 2),
        ("0.0 state ok - -\nend\n", 0),
        ("0.0 read EPERM - -\nend\n", 2),
        ("00.0 read ok - -\nend\n", 2),
        ("0.4294967295 read ok - -\nend\n", 0),
        ("0.4294967296 read ok - -\nend\n", 2),
        ("63.0 read ok - -\nend\n", 0),
        ("64.0 read ok - -\nend\n", 2),
        ("1.0 read ok - -\n0.0 read ok - -\nend\n", 3),
        ("1.0 read ok - -\n1.0 read ok - -\nend\n", 0),
        ("0.0 read ok ~1,c4294967295:0@1 -\nend\n", 0),
        ("0.0 read ok ~1,c4294967296:0@1 -\nend\n", 2),
        ("0.0 read ok ~9223372036854775807 -\nend\n", 0),
        ("0.0 read ok ~9223372036854775808 -\nend\n", 2),
        ("0.0 read ok ~1c0:0@1 -\nend\n", 2),
        ("0.0 read ok ~1, -\nend\n", 2),
        ("0.0 read ok ~1,,~1 -\nend\n", 2),
        ("0.0 read ok p0@1 -\nend\n", 2),
        (
            "0.0 read ok ~0,~1,~2,~3,~4,~5,~6,~7,~8,~9,~10,~11,~12,~13,~14,~15,~16,~17,~18,~19 -\nend\n",
            0,
        ),
        (
            "0.0 read ok ~0,~1,~2,~3,~4,~5,~6,~7,~8,~9,~10,~11,~12,~13,~14,~15,~16,~17,~18,~19,~20 -\nend\n",
            2,
        ),
        ("0.0 read ok - -\r\nend\n", 2),
        ("0.0 read ok - -\nend", 3),
    ] {
        assert_eq!(rt;
            fault(&rt, rt.alloc(), "rngtranscript 1\n", rest)?,
            line,
            "{rest}"
        );
    }
    for head in [
        "",
        "end\n",
        "rngtranscript 1",
        "rngtranscript 2\nend\n",
        "rngtranscript 1 \nend\n",
    ] {
        assert_eq!(rt; fault(&rt, rt.alloc(), head, "")?, 1, "{head}");
    }
    Ok(())
}
