//! A place in a key's keystream, from which bytes are read.

ghost use Rattle.std.specs.Prelude.{◌≡◌, ◌+◌, ◌*◌, ◌/◌, ◌^◌, ◌<◌, length};
ghost use Rattle.key_names.specs.Kernel.Keystream.{keystream};

use rand_chacha::ChaCha20Rng;
use rand_core::SeedableRng;
use rand_core::utils::fill_bytes_via_u32;
use std::marker::Model;

/// A key and a place in its keystream: the number, from 0, of the word of 4 bytes at which the next read begins.
///
/// The cipher makes four blocks at a time. A caller that needs several runs of one key's bytes, one after another,
/// should read them all from one reader.
#[derive(Drop)]
pub(crate) struct KeystreamReader {
    key: [u8; 32],
    rng: ChaCha20Rng,
}

impl Model for KeystreamReader {
    ghost use Rattle.std.specs.Prelude.{◌≡◌};
    ghost use Rattle.chacha_blocks.specs.Place.{Place, generator_at};

    ghost Value = { Place };

    ghost view = { λ r. record { key = r.key; word = r.rng.word_pos } };

    ghost invariant = { λ r. r.rng ≡ generator_at r.key r.rng.word_pos };
}

impl KeystreamReader {
    /// A reader of the key's keystream from word number `word` on. Nothing is computed before the first read, unless
    /// that word is inside a block.
    #[inline]
    pub(crate) fn at(key: &[u8; 32], word: u64) -> KeystreamReader
        ensures { result ≡ record { key = key.now; word = word } }
    {
        let mut rng = ChaCha20Rng::from_seed(*key);
        if word > 0 {
            rng.set_word_pos(u128::from(word));
        }
        KeystreamReader { key: *key, rng }
    }

    /// Fills `buf` with the next bytes of the keystream. The next read begins at the next whole word, so unused bytes
    /// of the last word are lost.
    #[inline]
    pub(crate) fn read(&mut self, buf: &mut [u8])
        requires { self.old.word + length buf.old < 2 ^ 66 }
        ensures bytes { buf.new ≡ keystream self.old.key (4 * self.old.word) (length buf.old) }
        ensures place { self.new ≡ record self.old { word = self.old.word + (length buf.old + 3) / 4 } }
    {
        fill_bytes_via_u32(&mut self.rng, buf);
    }
}
