//! Shuffles a list. If all words are equally likely, so are all orders.
ghost use Rattle.std.specs.Prelude.{◌≡◌, ◌≤◌, ◌^◌, length};
ghost use Rattle.std.specs.List.Sorted.{IsPermutation};
ghost use Rattle.draw_below.specs.Orders.{IsShuffle};

use crate::draws::{DrawSpent, below};
use crate::rejected::Rejected;
use crate::words::Words;
use std::sync::Wait;

/// Shuffles a list of at most 65,536 items. If all words are equally likely, so are all orders of different items.
///
/// For each place from the last down to the second, the function draws one of the places up to this place. It then
/// exchanges the items at the two places. `rejected` is empty after success: the last of these draws has the bound 2,
/// and rejects no word.
///
/// # Errors
///
/// A draw rejected its first 128 words. `rejected` then holds them, and the exchanges made before this draw stay.
pub fn shuffle<W: Words, R: Wait>(
    rt: &R,
    words: &mut W,
    list: &mut [u32],
    rejected: &mut Rejected,
) -> Result<(), DrawSpent>
    requires { length list.old ≤ 65536 }
    ensures permutes { IsPermutation list.old list.new }
    ensures shuffles { IsShuffle W.gives list.old words.old rejected.new result list.new words.new }
{
    rejected.clear();
    let count = list.len();
    for done in 1..count {
        let last = count - done;
        let place = below(rt, words, last as u32 + 1, rejected)?;
        list.swap(last, place as usize);
    }
    Ok(())
}
