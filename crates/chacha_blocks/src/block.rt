//! The block function (RFC 8439, section 2.3), for one block and for two.

ghost use Rattle.std.specs.Prelude.{◌≡◌, ℕ, ◌+◌, ◌*◌, ◌/◌, ◌%◌, ◌^◌, ◌<◌, ◌≤◌, [], ◌∷◌, slice_index};
ghost use Rattle.rand_chacha.specs.Block.{add32, xor_rotate, column_round, diagonal_round, initial_state};
ghost use Rattle.std.specs.Simd.Lanes.{zip2};
ghost use Rattle.rand_chacha.specs.ChaCha.{key_of};
ghost use Rattle.rand_core.specs.Steps.{u32_at};
ghost use Rattle.key_names.specs.Kernel.Keystream.{keystream};
ghost use Rattle.chacha_blocks.specs.Rows.{state_of, turned, turned_back};

use byteorder::{ByteOrder, LittleEndian};
use rand_core::utils::read_u32;
use std::simd::u32x4;

/// The number of bytes in a block.
pub(crate) const BLOCK_BYTES: usize = 64;

// "expand 32-byte k", low byte first.
const CONSTANTS: [u32; 4] = [0x6170_7865, 0x3320_646e, 0x7962_2d32, 0x6b20_6574];

const DOUBLE_ROUNDS: u32 = 10;

// The 16 words of the state as four rows, so that one vector operation works on all four columns.
type Rows = [u32x4; 4];

#[inline(always)]
fn add(a: u32x4, b: u32x4) -> u32x4
    ensures { (j : ℕ) → j < 4 → slice_index result j ≡ add32 (slice_index a j) (slice_index b j) }
{
    a + b
}

#[inline(always)]
fn xor_rotate(a: u32x4, b: u32x4, k: u32) -> u32x4
    requires { (0 < k) × (k < 32) }
    ensures { (j : ℕ) → j < 4 → slice_index result j ≡ xor_rotate (slice_index a j) (slice_index b j) k }
{
    let x = a ^ b;
    (x << u32x4::splat(k)) | (x >> u32x4::splat(32 - k))
}

// A round on the columns: the quarter round on all four columns at once.
#[inline(always)]
fn column_round(rows: Rows) -> Rows
    ensures { state_of result ≡ column_round (state_of rows) }
{
    let [a, b, c, d] = rows;
    let a1 = add(a, b);
    let d1 = xor_rotate(d, a1, 16);
    let c1 = add(c, d1);
    let b1 = xor_rotate(b, c1, 12);
    let a2 = add(a1, b1);
    let d2 = xor_rotate(d1, a2, 8);
    let c2 = add(c1, d2);
    let b2 = xor_rotate(b1, c2, 7);
    [a2, b2, c2, d2]
}

// A row with its first word moved to the end.
#[inline(always)]
fn turned_once(row: u32x4) -> u32x4
    ensures { result ≡ slice_index row 1 ∷ slice_index row 2 ∷ slice_index row 3 ∷ slice_index row 0 ∷ [] }
{
    row.rotate_elements_left::<1>()
}

// Turns row i to the left by i words, so that each diagonal becomes a column.
#[inline(always)]
fn turned(rows: Rows) -> Rows
    ensures { state_of result ≡ turned (state_of rows) }
{
    let [a, b, c, d] = rows;
    [
        a,
        turned_once(b),
        turned_once(turned_once(c)),
        turned_once(turned_once(turned_once(d))),
    ]
}

// Turns the rows back. Four turns leave a row as it was.
#[inline(always)]
fn turned_back(rows: Rows) -> Rows
    ensures { state_of result ≡ turned_back (state_of rows) }
{
    let [a, b, c, d] = rows;
    [
        a,
        turned_once(turned_once(turned_once(b))),
        turned_once(turned_once(c)),
        turned_once(d),
    ]
}

// A round on the diagonals, which are columns while the rows are turned.
#[inline(always)]
fn diagonal_round(rows: Rows) -> Rows
    ensures { state_of result ≡ diagonal_round (state_of rows) }
{
    turned_back(column_round(turned(rows)))
}

// Four words of the key, from word `first` on.
#[inline(always)]
fn key_row(key: &[u8; 32], first: usize) -> u32x4
    requires { first ≤ 4 }
    ensures { result
        ≡ u32_at key.now first ∷ u32_at key.now (first + 1)
        ∷ u32_at key.now (first + 2) ∷ u32_at key.now (first + 3) ∷ [] }
{
    u32x4::from_array([
        read_u32(key, first),
        read_u32(key, first + 1),
        read_u32(key, first + 2),
        read_u32(key, first + 3),
    ])
}

// The rows before the rounds, with the nonce zero.
#[inline(always)]
fn start_rows(key: &[u8; 32], number: u64) -> Rows
    ensures { state_of result ≡ initial_state (key_of key.now) number 0 }
{
    let low = (number & 0xffff_ffff) as u32;
    let high = (number >> 32) as u32;
    [
        u32x4::from_array(CONSTANTS),
        key_row(key, 0),
        key_row(key, 4),
        u32x4::from_array([low, high, 0, 0]),
    ]
}

// Each word of the rows, plus the word that was at its place before the rounds.
#[inline(always)]
fn summed(rows: Rows, start: Rows) -> [u32; 16]
    ensures { result ≡ zip2 add32 (state_of rows) (state_of start) }
{
    let [a, b, c, d] = rows;
    let [start_a, start_b, start_c, start_d] = start;
    let [a0, a1, a2, a3] = add(a, start_a).to_array();
    let [b0, b1, b2, b3] = add(b, start_b).to_array();
    let [c0, c1, c2, c3] = add(c, start_c).to_array();
    let [d0, d1, d2, d3] = add(d, start_d).to_array();
    [
        a0, a1, a2, a3, b0, b1, b2, b3, c0, c1, c2, c3, d0, d1, d2, d3,
    ]
}

/// Block `number` of the key's stream.
pub(crate) fn block(key: &[u8; 32], number: u64) -> [u8; BLOCK_BYTES]
    ensures { result ≡ keystream key.now (64 * number) 64 }
{
    let start = start_rows(key, number);
    let mut rows = start;
    'rounds: for _round in 0..DOUBLE_ROUNDS {
        rows = diagonal_round(column_round(rows));
    }
    let mut bytes = [0; BLOCK_BYTES];
    LittleEndian::write_u32_into(&summed(rows, start), &mut bytes);
    bytes
}

/// Block `number` and the next block. Neither depends on the other, so a processor makes both in little more time than
/// one.
pub(crate) fn two_blocks(key: &[u8; 32], number: u64) -> [u8; 2 * BLOCK_BYTES]
    requires { number + 1 < 2 ^ 64 }
    ensures { result ≡ keystream key.now (64 * number) 128 }
{
    let start = start_rows(key, number);
    let next_start = start_rows(key, number + 1);
    let mut rows = start;
    let mut next_rows = next_start;
    'rounds: for _round in 0..DOUBLE_ROUNDS {
        rows = diagonal_round(column_round(rows));
        next_rows = diagonal_round(column_round(next_rows));
    }
    let mut bytes = [0; 2 * BLOCK_BYTES];
    let (front, back) = bytes.split_at_mut(BLOCK_BYTES);
    LittleEndian::write_u32_into(&summed(rows, start), front);
    LittleEndian::write_u32_into(&summed(next_rows, next_start), back);
    bytes
}
