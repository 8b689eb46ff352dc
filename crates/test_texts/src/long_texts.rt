//! Long texts that make little sense. The fault of each text is found in one pass, with no memory for more than the
//! text itself.
ghost use Rattle.std.specs.Prelude.{◌≤◌, ◌^◌, length};

use std::alloc::{AllocError, Global};
use std::test::Fail;
use transcript_text::{TextError, read};

const HEAD: &[u8] = b"rngtranscript 1\n";

const LONG: usize = 16 << 20;

/// A text in which a byte is repeated `times` times between `front` and `back`.
fn text_of(
    alloc: Global,
    front: &[u8],
    byte: u8,
    times: usize,
    back: &[u8],
) -> Result<Vec<u8>, AllocError> {
    let mut text = front.to_vec(alloc)?;
    text.extend_from_slice(&vec![in alloc; byte; times]?)?;
    text.extend_from_slice(back)?;
    Ok(text)
}

/// The number of the text's first faulty line; 0 if the text is a transcript; `u32::MAX` if memory ran out.
fn fault(alloc: Global, text: &[u8]) -> u32 {
    if text.len() > 1 << 31 {
        return u32::MAX;
    }
    match read(alloc, text) {
        Ok(_) => 0,
        Err(TextError::Fault { line }) => line,
        Err(TextError::TooManyLines | TextError::NoMemory) => u32::MAX,
    }
}

#[test]
fn one_byte_without_end(rt: HostRuntime) -> Result<(), Fail> {
    for byte in [0, b'\n', b' ', b',', b'0', b'~', 0xff] {
        let text = text_of(rt.alloc(), b"", byte, LONG, b"")?;
        assert_eq!(rt; fault(rt.alloc(), &text), 1, "byte {byte}");
        let text = text_of(rt.alloc(), HEAD, byte, LONG, b"")?;
        assert_eq!(rt; fault(rt.alloc(), &text), 2, "byte {byte}");
    }
    Ok(())
}

#[test]
fn one_long_field(rt: HostRuntime) -> Result<(), Fail> {
    let rows: [(&[u8], u8, &[u8], u32); 7] = [
        (b"0", b'0', b".0 read ok - -\nend\n", 2),
        (b"0.", b'9', b" read ok - -\nend\n", 2),
        (b"0.0 ", b'a', b" ok - -\nend\n", 2),
        (b"0.0 read ok ~0", b',', b" -\nend\n", 2),
        (b"0.0 bits ok - 1", b'0', b"\nend\n", 2),
        (b"0.0 read ok - 0", b'0', b"\nend\n", 2),
        (b"0.0 read ok - ", b'0', b"\nend\n", 0),
    ];
    for (row, (front, byte, back, line)) in rows.iter().enumerate() {
        let mut whole = HEAD.to_vec(rt.alloc())?;
        whole.extend_from_slice(front)?;
        let text = text_of(rt.alloc(), &whole, *byte, LONG, back)?;
        assert_eq!(rt; fault(rt.alloc(), &text), *line, "row {row}");
    }
    Ok(())
}

#[test]
fn many_lines(rt: HostRuntime) -> Result<(), Fail> {
    let mut text = HEAD.to_vec(rt.alloc())?;
    for _ in 0..70_000 {
        text.extend_from_slice(b"0.0 read ok ~0 -\n")?;
    }
    let lines = text.len();
    text.extend_from_slice(b"end\n")?;
    assert_eq!(rt; fault(rt.alloc(), &text), 0);
    text.truncate(lines);
    text.extend_from_slice(b"0.0 read ok ~0 0\nend\n")?;
    assert_eq!(rt; fault(rt.alloc(), &text), 70_002);
    Ok(())
}
