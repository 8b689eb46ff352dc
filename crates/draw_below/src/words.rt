//! Sources of words for draws.
ghost use Rattle.std.specs.Prelude.{◌≡◌, ℕ, slice_index, drop};

use std::marker::Model;
use std::sync::Wait;

/// A source of 32-bit words.
pub trait Words {
    /// How a call of `next` relates the source before it, the word, and the source after it.
    ghost gives: { Self → ℕ → Self → Type 0 };

    /// Takes the next word.
    fn next<R: Wait>(&mut self, rt: &R) -> u32
        ensures { gives self.old result self.new };
}

/// The words of a list in order, and then 0 for ever.
#[derive(Drop)]
pub struct ListWords {
    words: Vec<u32>,
    taken: usize,
}

impl Model for ListWords {
    ghost use Rattle.std.specs.Prelude.{List, ℕ, drop};

    ghost Value = { List ℕ };

    ghost view = { λ w. drop w.taken w.words.items };
}

impl ListWords {
    /// A source that gives the words of the list `words`.
    pub fn of(words: Vec<u32>) -> ListWords
        ensures { result ≡ words.items }
    {
        ListWords { words, taken: 0 }
    }
}

impl Words for ListWords {
    ghost gives = { λ before word after. (word ≡ slice_index before 0) × (after ≡ drop 1 before) };

    fn next<R: Wait>(&mut self, _rt: &R) -> u32 {
        match self.words.get(self.taken) {
            Some(word) => {
                self.taken += 1;
                *word
            }
            None => 0,
        }
    }
}
