//! A buffer for the part of a transcript's text that one put writes to the sink.
ghost use Rattle.std.specs.Prelude.{◌≡◌, ◌+◌, ◌*◌, ◌<◌, ◌≤◌, ◌∷◌, ◌++◌, [], length, decimal};
ghost use Rattle.hex.specs.Hex.{encode_lower};

use hex::encode_to_slice;
use itoa::write_digits;
use std::marker::Model;

/// The most bytes of a piece.
pub(crate) const MOST_BYTES: usize = 4096;

/// At most 4,096 bytes of text, on the stack.
#[derive(Drop)]
pub(crate) struct Piece {
    bytes: [u8; MOST_BYTES],
    len: usize,
}

impl Model for Piece {
    ghost use Rattle.std.specs.Prelude.{ℕ, List, take, length, ◌≤◌, ◌≡◌};

    ghost Value = { List ℕ };

    ghost view = { λ p. take p.len p.bytes };

    ghost invariant = { λ p. (p.len ≤ 4096) × (length p.bytes ≡ 4096) };
}

impl Piece {
    pub(crate) fn empty() -> Piece
        ensures { result ≡ [] }
    {
        Piece {
            bytes: [0; MOST_BYTES],
            len: 0,
        }
    }

    pub(crate) fn clear(&mut self)
        ensures { self.new ≡ [] }
    {
        self.len = 0;
    }

    /// The bytes that the piece contains.
    pub(crate) fn text(&self) -> &[u8]
        ensures { result.now ≡ self.now }
    {
        &self.bytes[..self.len]
    }

    /// How many more bytes fit.
    pub(crate) fn room(&self) -> usize
        ensures { result + length self.now ≡ 4096 }
    {
        MOST_BYTES - self.len
    }

    #[inline(always)]
    pub(crate) fn push(&mut self, byte: u8)
        requires { length self.old < 4096 }
        ensures { self.new ≡ self.old ++ byte ∷ [] }
    {
        // The length is kept in a variable. Otherwise it would be loaded again after the byte is stored.
        let len = self.len;
        self.bytes[len] = byte;
        self.len = len + 1;
    }

    #[inline(always)]
    pub(crate) fn append(&mut self, text: &[u8])
        requires { length self.old + length text.now ≤ 4096 }
        ensures { self.new ≡ self.old ++ text.now }
    {
        let end = self.len + text.len();
        self.bytes[self.len..end].copy_from_slice(text);
        self.len = end;
    }

    /// Appends a number in decimal.
    // `itoa` writes the number in place, from its end. The hint keeps the length in a register.
    #[inline(always)]
    pub(crate) fn append_number(&mut self, number: u64)
        requires { length self.old + 20 ≤ 4096 }
        ensures text { self.new ≡ self.old ++ decimal number }
        ensures short { length (decimal number) ≤ 20 }
    {
        let end = self.len + count_digits(number);
        write_digits(number, &mut self.bytes, end);
        self.len = end;
    }

    /// Appends a word of a few bytes, without a call.
    #[inline(always)]
    pub(crate) fn append_word(&mut self, text: &[u8])
        requires { length self.old + length text.now ≤ 4096 }
        ensures { self.new ≡ self.old ++ text.now }
    {
        match text {
            [a, b] => self.append(&[*a, *b]),
            [a, b, c] => self.append(&[*a, *b, *c]),
            [a, b, c, d] => self.append(&[*a, *b, *c, *d]),
            [a, b, c, d, e] => self.append(&[*a, *b, *c, *d, *e]),
            _ => self.append(text),
        }
    }

    /// Appends bytes in hex.
    pub(crate) fn append_hex(&mut self, bytes: &[u8])
        requires { length self.old + 2 * length bytes.now ≤ 4096 }
        ensures { self.new ≡ self.old ++ encode_lower bytes.now }
    {
        let end = self.len + 2 * bytes.len();
        let Ok(()) = encode_to_slice(bytes, &mut self.bytes[self.len..end]) else {
            unreachable!()
        };
        self.len = end;
    }
}

/// The number of decimal digits of a number.
#[inline(always)]
fn count_digits(number: u64) -> usize
    ensures count { result ≡ length (decimal number) }
    ensures few { result ≤ 20 }
{
    if number < 10 {
        return 1;
    }
    number.ilog10() as usize + 1
}
