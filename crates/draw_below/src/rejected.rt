//! The words that a draw rejected.
ghost use Rattle.std.specs.Prelude.{◌≡◌, ◌<◌, ◌++◌, ◌∷◌, [], length, slice_get, Some};

use std::marker::Model;

/// The most words that one draw can reject.
pub const MOST_REJECTED: u32 = 128;

/// The words that a draw rejected, in order: at most 128.
#[derive(Drop)]
pub struct Rejected {
    words: [u32; 128],
    len: u32,
}

impl Model for Rejected {
    ghost use Rattle.std.specs.Prelude.{List, ℕ, take, length, ◌≤◌, ◌≡◌};

    ghost Value = { List ℕ };

    ghost view = { λ r. take r.len r.words };

    ghost invariant = { λ r. (r.len ≤ 128) × (length r.words ≡ 128) };
}

impl Rejected {
    /// The empty list of words.
    pub fn empty() -> Rejected
        ensures { result ≡ [] }
    {
        Rejected {
            words: [0; 128],
            len: 0,
        }
    }

    /// The number of rejected words.
    pub fn len(&self) -> u32
        ensures { result ≡ length self.now }
    {
        self.len
    }

    /// The rejected word with the index `i`.
    pub fn get(&self, i: u32) -> u32
        requires { i < length self.now }
        ensures { slice_get self.now i ≡ Some result }
    {
        self.words[i as usize]
    }

    pub(crate) fn clear(&mut self)
        ensures { self.new ≡ [] }
    {
        self.len = 0;
    }

    pub(crate) fn push(&mut self, word: u32)
        requires { length self.old < 128 }
        ensures { self.new ≡ self.old ++ word ∷ [] }
    {
        self.words[self.len as usize] = word;
        self.len += 1;
    }
}
