//! Successive draws below one bound, from any source of words and from a new table.
ghost use Rattle.std.specs.Prelude.{◌≡◌, ◌^◌, ◌<◌, ◌≤◌, ℕ, [], List, Some, IfOk};
ghost use Rattle.lane_table.specs.Calls.{view};
ghost use Rattle.lane_table.specs.Hands.{HoldsLanes};
ghost use Rattle.draw_below.specs.Draws.{Takes};
ghost use Rattle.draw_below.specs.LaneWords.{ReadsWord, SameSource};
ghost use Rattle.draw_below.specs.TableDraws.{AreTableDraws, draws_in, ends_of};

use crate::draws::{DrawSpent, below};
use crate::lane_words::LaneWords;
use crate::rejected::Rejected;
use crate::words::Words;
use arrayvec::ArrayVec;
use lane_table::{Lanes, Pass};
use rng_core::{Setting, add_first_sample};
use std::alloc::{AllocError, Global};
use std::sync::Wait;

/// The most draws of one [`draw_each`].
pub const MOST_DRAWS: usize = 1000;

/// The answers of successive draws, in order, and whether the next draw after them was spent (`DrawSpent`).
#[derive(Drop)]
pub struct Drawn {
    pub answers: ArrayVec<u32, MOST_DRAWS>,
    pub spent: bool,
}

/// Draws `count` numbers below `c`; `count` is at most 1,000. If `c` is 0, the words themselves are the numbers. If a
/// draw is spent (`DrawSpent`), it is the last one.
pub fn draw_each<W: Words, R: Wait>(rt: &R, words: &mut W, c: u32, count: u32) -> Drawn
    requires { count ≤ 1000 }
    ensures { (taken : List ℕ) × Takes W.gives words.old taken words.new
        × (draws_in c count 0 taken ≡ Some (ends_of result)) }
{
    let mut answers = ArrayVec::new();
    let mut rejected = Rejected::empty();
    for _ in 0..count {
        match below(rt, words, c, &mut rejected) {
            Ok(answer) => answers.push(answer),
            Err(DrawSpent) => {
                return Drawn {
                    answers,
                    spent: true,
                };
            }
        }
    }
    Drawn {
        answers,
        spent: false,
    }
}

// Does the work of `draw_each` with the words that a pass reads.
fn draw_from<R: Wait>(rt: &R, words: &mut LaneWords<'_>, c: u32, count: u32) -> Drawn
    requires { count ≤ 1000 }
    ensures source { SameSource words.old words.new }
    ensures drawn { (taken : List ℕ)
        × Takes (ReadsWord words.old.set) (view words.old.pass.now) taken (view words.new.pass.now)
        × (draws_in c count 0 taken ≡ Some (ends_of result)) }
{
    draw_each(rt, words, c, count)
}

fn draw_by_pass<R: Wait>(
    rt: &R,
    lanes: &Lanes,
    pass: &mut Pass,
    set: Setting,
    c: u32,
    count: u32,
) -> Drawn
    requires has { HoldsLanes lanes.now set.caller [] pass.old }
    requires cpu { set.cpu < lanes.now.cpus }
    requires count { count ≤ 1000 }
    ensures has { HoldsLanes lanes.now set.caller [] pass.new }
    ensures drawn { (taken : List ℕ) × Takes (ReadsWord set) (view pass.old) taken (view pass.new)
        × (draws_in c count 0 taken ≡ Some (ends_of result)) }
{
    let mut words = LaneWords::over(lanes, pass, set);
    draw_from(rt, &mut words, c, count)
}

/// Makes a core with one CPU, and adds a first sample that makes the core ready: 32 bytes that count up from 0, with a
/// credit of 256 bits. Then it draws `count` numbers below `c`; `count` is at most 1,000. The words are the integers of
/// 4 bytes that caller 0 reads. If `c` is 0, the integers themselves are the numbers. If a draw is spent (`DrawSpent`),
/// it is the last one. All calls have CPU 0, the moment 0 and hardware words 0.
///
/// # Errors
///
/// Memory for the table ran out. The call allocates no other memory.
pub fn draw_on_new_table<R: Wait>(
    rt: &R,
    alloc: Global,
    c: u32,
    count: u32,
) -> Result<Drawn, AllocError>
    requires { count ≤ 1000 }
    ensures { IfOk result (λ drawn. AreTableDraws c count (ends_of drawn)) }
{
    let (lanes, mut pass) = Lanes::start(alloc, 1, 0)?;
    let set = Setting::first(0);
    add_first_sample(rt, &lanes, &mut pass, set);
    let drawn = draw_by_pass(rt, &lanes, &mut pass, set, c, count);
    let _visits = lanes.close(pass);
    Ok(drawn)
}
