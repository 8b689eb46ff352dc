//! Notes: entries of the pool's list that only refer to their bytes. The caller keeps the bytes.

/// A note: an entry of the pool's list that refers to its bytes. The caller hands the note over after a visit of the
/// pool. `specs/Lanes/PoolNotes` defines the entry of each note.
#[derive(Clone, Copy)]
pub enum PoolNote<'a> {
    Mix {
        text: &'a [u8],
        bits: u32,
    },
    /// A sample of a device: a word, low byte first, and then a text. It credits no bits (`add_device_randomness`).
    Device {
        word: u64,
        text: &'a [u8],
    },
    Input {
        word: u64,
        kind: u16,
        code: u16,
        value: u8,
        now: u64,
    },
    Bits,
    Extract {
        hw: [u8; 32],
        base_place: u64,
    },
}
