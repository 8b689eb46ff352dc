// The compression function F (RFC 7693, section 3.2).

ghost use Rattle.std.specs.Prelude.{◌≡◌, ℕ, length};
ghost use Rattle.key_names.specs.Kernel.Blake2s.{Block, compressed, folded, message_words, mixed, round, rounds, start_vector};

use byteorder::{ByteOrder, LittleEndian};

// The initialization vector (RFC 7693, section 2.6).
pub(crate) const IV: [u32; 8] = [
    0x6A09E667, 0xBB67AE85, 0x3C6EF372, 0xA54FF53A, 0x510E527F, 0x9B05688C, 0x1F83D9AB, 0x5BE0CD19,
];

// The mixing function G (RFC 7693, section 3.1).
#[inline(always)]
fn mix(a: u32, b: u32, c: u32, d: u32, x: u32, y: u32) -> (u32, u32, u32, u32)
    ensures { result ≡ mixed a b c d x y }
{
    let a = a.wrapping_add(b).wrapping_add(x);
    let d = (d ^ a).rotate_right(16);
    let c = c.wrapping_add(d);
    let b = (b ^ c).rotate_right(12);
    let a = a.wrapping_add(b).wrapping_add(y);
    let d = (d ^ a).rotate_right(8);
    let c = c.wrapping_add(d);
    let b = (b ^ c).rotate_right(7);
    (a, b, c, d)
}

// One round, with the message words in this round's order. The round works first on the columns of the vector, seen as
// a square, and then on the diagonals.
#[inline(always)]
fn round(v: [u32; 16], m: [u32; 16]) -> [u32; 16]
    ensures { result ≡ round v m }
{
    let (a0, b0, c0, d0) = mix(v[0], v[4], v[8], v[12], m[0], m[1]);
    let (a1, b1, c1, d1) = mix(v[1], v[5], v[9], v[13], m[2], m[3]);
    let (a2, b2, c2, d2) = mix(v[2], v[6], v[10], v[14], m[4], m[5]);
    let (a3, b3, c3, d3) = mix(v[3], v[7], v[11], v[15], m[6], m[7]);
    let (a0, b1, c2, d3) = mix(a0, b1, c2, d3, m[8], m[9]);
    let (a1, b2, c3, d0) = mix(a1, b2, c3, d0, m[10], m[11]);
    let (a2, b3, c0, d1) = mix(a2, b3, c0, d1, m[12], m[13]);
    let (a3, b0, c1, d2) = mix(a3, b0, c1, d2, m[14], m[15]);
    [
        a0, a1, a2, a3, b0, b1, b2, b3, c0, c1, c2, c3, d0, d1, d2, d3,
    ]
}

// Rounds written out, so that the index of each message word is a constant. A loop over the schedule takes a third
// longer.
macro_rules! rounds {
    ($words:ident, $start:ident, $([$($place:literal)*])*) => {{
        let v = $start;
        $(let v = round(v, [$($words[$place]),*]);)*
        v
    }};
}

// The ten rounds, each with the message words in the order of its schedule (RFC 7693, section 2.7).
#[inline(always)]
fn all_rounds(words: &[u32; 16], start: [u32; 16]) -> [u32; 16]
    ensures { result ≡ rounds words.now start }
{
    rounds!(
        words, start,
        [0 1 2 3 4 5 6 7 8 9 10 11 12 13 14 15]
        [14 10 4 8 9 15 13 6 1 12 0 2 11 7 5 3]
        [11 8 12 0 5 2 15 13 10 14 3 6 7 1 9 4]
        [7 9 3 1 13 12 11 14 2 6 5 10 4 0 15 8]
        [9 0 5 7 2 4 10 15 14 1 11 12 6 8 3 13]
        [2 12 6 10 0 11 8 3 4 13 7 5 15 14 1 9]
        [12 5 1 15 14 13 4 10 0 7 6 3 9 2 8 11]
        [13 11 7 14 12 1 3 9 5 0 15 4 8 6 2 10]
        [6 15 14 9 11 3 0 8 12 2 13 7 1 4 10 5]
        [10 2 8 4 7 6 1 5 15 11 9 14 3 12 13 0]
    )
}

// The vector before the rounds. `count` is the number of the message's bytes up to the end of the block.
#[inline(always)]
fn start_vector(h: [u32; 8], count: u64, is_last: bool) -> [u32; 16]
    ensures { result ≡ start_vector h count is_last }
{
    let v12 = IV[4] ^ (count % (1 << 32)) as u32;
    let v13 = IV[5] ^ (count >> 32) as u32;
    let v14 = if is_last { !IV[6] } else { IV[6] };
    [
        h[0], h[1], h[2], h[3], h[4], h[5], h[6], h[7], IV[0], IV[1], IV[2], IV[3], v12, v13, v14,
        IV[7],
    ]
}

// The words of a block, low byte first.
#[inline(always)]
fn message_words(block: &[u8; 64]) -> [u32; 16]
    ensures { result ≡ message_words block.now }
{
    let mut words = [0; 16];
    LittleEndian::read_u32_into(block, &mut words);
    words
}

// The hash words after one more block.
pub(crate) fn compress(h: [u32; 8], block: &[u8; 64], count: u64, is_last: bool) -> [u32; 8]
    ensures { result ≡ compressed h (record { bytes = block.now; count = count; is_last = is_last }) }
{
    let words = message_words(block);
    let v = all_rounds(&words, start_vector(h, count, is_last));
    [
        h[0] ^ v[0] ^ v[8],
        h[1] ^ v[1] ^ v[9],
        h[2] ^ v[2] ^ v[10],
        h[3] ^ v[3] ^ v[11],
        h[4] ^ v[4] ^ v[12],
        h[5] ^ v[5] ^ v[13],
        h[6] ^ v[6] ^ v[14],
        h[7] ^ v[7] ^ v[15],
    ]
}
