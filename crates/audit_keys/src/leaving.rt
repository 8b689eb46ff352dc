//! One call on a vgetrandom state, step by step: the state's outline, and the entries that the call has left.
ghost use Rattle.std.specs.Prelude.{◌≡◌, None, Some, [], true, MatchOption, map};
ghost use Rattle.key_names.specs.Callers.VreadSteps.{is_wiped};
ghost use Rattle.judge_lines.specs.Called.{seen_act};
ghost use Rattle.audit_keys.specs.Left.{key_read, second_key, key_in_front};

use crate::outline::Outline;
use judge_lines::called::ActLine;
use key_names::{InsideAct, LaneId, Point, Step, VEntry, flags};
use std::alloc::{AllocError, Global};
use std::marker::Model;

/// The number of bytes of a batch.
const BATCH_BYTES: u8 = 96;

/// The number of bytes of a block of keystream.
const BLOCK_BYTES: u32 = 64;

/// A visit of a CPU that reads a key.
#[derive(Clone, Copy)]
pub(crate) struct KeyRead {
    pub(crate) cpu: u32,
    pub(crate) place: u64,
}

/// The end of an attempt: the key's next block, whether the attempt held, and the steps after the attempt. An attempt
/// holds if the generation published at its end is still that of the state.
#[derive(Clone, Copy)]
pub(crate) struct AttemptOutcome<'a> {
    pub(crate) next_block: u64,
    pub(crate) holds: bool,
    pub(crate) rest: &'a [Step],
}

impl<'a> AttemptOutcome<'a> {
    // The end of an attempt whose steps end too early.
    fn cut_short(block: u64) -> AttemptOutcome<'a>
        ensures next { result.next_block ≡ block }
        ensures holds { result.holds ≡ true }
        ensures rest { result.rest.now ≡ [] }
    {
        AttemptOutcome {
            next_block: block,
            holds: true,
            rest: &[],
        }
    }
}

// Whether an act at this point wipes the state.
fn wipes(acts: &[ActLine<'_>], point: Point) -> bool
    ensures { result ≡ is_wiped (map seen_act acts.now) point }
{
    for bound in acts {
        if bound.point.is(point) && matches!(bound.act, InsideAct::Wipe) {
            return true;
        }
    }
    false
}

fn key_read(step: Step) -> Option<KeyRead>
    ensures { result ≡ key_read step }
{
    match step {
        Step::Look(_) => None,
        Step::Visit(mark) => match mark.lane {
            LaneId::Pool | LaneId::Base => None,
            LaneId::Cpu(cpu) => Some(KeyRead {
                cpu,
                place: mark.place,
            }),
        },
    }
}

// If `steps` begin with a system call that reads 32 bytes: the key that it reads, and the steps after the call.
fn key_in_front(steps: &[Step]) -> Option<(KeyRead, &[Step])>
    ensures { MatchOption result (key_in_front steps.now ≡ None)
        (λ r. key_in_front steps.now ≡ Some (record { key = r.0; rest = r.1.now })) }
{
    match steps {
        [Step::Look(_), Step::Look(_), first, rest @ ..] => match key_read(*first) {
            Some(key) => Some((key, rest)),
            None => second_key(rest),
        },
        _ => None,
    }
}

// The key that a system call reads, and the steps after the call, if the call visits the base before the CPU. `steps`
// begin after the visit of the base.
fn second_key(steps: &[Step]) -> Option<(KeyRead, &[Step])>
    ensures { MatchOption result (second_key steps.now ≡ None)
        (λ r. second_key steps.now ≡ Some (record { key = r.0; rest = r.1.now })) }
{
    match steps {
        [] => None,
        [second, rest @ ..] => Some((key_read(*second)?, rest)),
    }
}

/// A vgetrandom state in a call: its outline, and the entries that the call has left.
#[derive(Drop)]
pub(crate) struct Leaving {
    outline: Outline,
    entries: Vec<VEntry>,
}

impl Model for Leaving {
    ghost use Rattle.audit_keys.specs.Left.{Left};

    ghost Value = { Left };

    ghost view = { λ s. record { outline = s.outline; entries = s.entries.items } };
}

impl Leaving {
    ghost use Rattle.std.specs.Prelude.{◌≡◌, ◌+◌, ◌^◌, ◌<◌, ◌≤◌, IfOk, OnOk, map};
    ghost use Rattle.key_names.specs.Kernel.BatchCopy.{serve_entry, blocks_entry, block_after_copy};
    ghost use Rattle.key_names.specs.Callers.VreadSteps.{is_wiped};
    ghost use Rattle.judge_lines.specs.Called.{seen_act};
    ghost use Rattle.audit_keys.specs.Outline.{outlined};
    ghost use Rattle.audit_keys.specs.Left.{Left, nothing_left, left_more, pushed, wiped, met, refilled};
    ghost use Rattle.audit_keys.specs.Left.{copied, keyed, from_serve, from_written, attempted, tried_twice};
    ghost use Rattle.audit_keys.specs.Left.{from_look, vread_left};

    /// Begins a call on a state with this outline.
    pub(crate) fn begin(alloc: Global, outline: Outline) -> Leaving
        ensures { result ≡ nothing_left outline }
    {
        Leaving {
            outline,
            entries: Vec::new(alloc),
        }
    }

    /// The current outline of the state.
    pub(crate) fn outline(&self) -> Outline
        ensures { result ≡ self.now.outline }
    {
        self.outline
    }

    /// The entries that the call has left.
    pub(crate) fn entries(&self) -> &[VEntry]
        ensures { result.now ≡ self.now.entries }
    {
        &self.entries
    }

    fn push(&mut self, entry: VEntry) -> Result<(), AllocError>
        ensures { OnOk result (self.new ≡ pushed entry self.old) }
    {
        self.entries.push(entry)?;
        Ok(())
    }

    /// Wipes the state: its memory becomes zeros.
    ///
    /// # Errors
    ///
    /// `AllocError` if there is no memory for the entry of the wipe.
    pub(crate) fn wipe(&mut self) -> Result<(), AllocError>
        ensures { OnOk result (self.new ≡ wiped self.old) }
    {
        self.push(VEntry::Wipe)?;
        self.outline = Outline::wiped();
        Ok(())
    }

    // Replays the acts at a point: the state is wiped if one of them wipes.
    fn meet(&mut self, acts: &[ActLine<'_>], point: Point) -> Result<(), AllocError>
        ensures { OnOk result (self.new ≡ met (is_wiped (map seen_act acts.now) point) self.old) }
    {
        if wipes(acts, point) {
            self.wipe()?;
        }
        Ok(())
    }

    fn serve(&mut self, pos: u8, len: u8) -> Result<(), AllocError>
        ensures { OnOk result (self.new ≡ left_more (serve_entry pos len) self.old) }
    {
        if len > 0 {
            self.push(VEntry::Serve { pos, len })?;
        }
        Ok(())
    }

    fn serve_blocks(&mut self, from: u64, count: u64) -> Result<(), AllocError>
        ensures { OnOk result (self.new ≡ left_more (blocks_entry from count) self.old) }
    {
        if count > 0 {
            self.push(VEntry::Blocks { from, count })?;
        }
        Ok(())
    }

    // Serves `whole` blocks of the key from block `from` on. Then begins a new batch, of which `last` bytes are served.
    fn refill(&mut self, from: u64, whole: u64, last: u8) -> Result<(), AllocError>
        requires { from + whole < 2 ^ 64 }
        ensures { OnOk result (self.new ≡ refilled from whole last self.old) }
    {
        self.serve_blocks(from, whole)?;
        self.push(VEntry::Refill { from: from + whole })?;
        self.serve(0, last)?;
        self.outline.served = last;
        Ok(())
    }

    // Copies `len` bytes; `block` is the key's next block. Returns the next block after the copy.
    fn copy(&mut self, block: u64, len: u32) -> Result<u64, AllocError>
        requires near { block ≤ 2 ^ 32 }
        ensures next { IfOk result (λ next. next ≡ block_after_copy (outlined self.old.outline) block len) }
        ensures near { IfOk result (λ next. next ≤ block + 2 ^ 26 + 2) }
        ensures left { OnOk result (self.new ≡ copied len block self.old) }
    {
        let served = self.outline.served;
        let left = BATCH_BYTES.saturating_sub(served);
        if len <= u32::from(left) {
            self.serve(served, len as u8)?;
            self.outline.served = served + len as u8;
            return Ok(block);
        }
        self.serve(served, left)?;
        let beyond = len - u32::from(left);
        let whole = u64::from(beyond / BLOCK_BYTES);
        self.refill(block, whole, (beyond % BLOCK_BYTES) as u8)?;
        Ok(block + whole + 2)
    }

    // Replays an attempt from its point Serve on.
    fn from_serve<'a>(
        &mut self,
        acts: &[ActLine<'_>],
        len: u32,
        block: u64,
        steps: &'a [Step],
    ) -> Result<AttemptOutcome<'a>, AllocError>
        requires near { block ≤ 2 ^ 32 }
        ensures tries { IfOk result (λ t. from_serve (map seen_act acts.now) len block self.old steps.now
            ≡ record { next_block = t.next_block; holds = t.holds; rest = t.rest.now; left = self.new }) }
        ensures near { IfOk result (λ t. t.next_block ≤ block + 2 ^ 26 + 2) }
    {
        match steps {
            [Step::Look(found), rest @ ..] => {
                self.meet(acts, Point::Serve)?;
                let next_block = self.copy(block, len)?;
                self.meet(acts, Point::End)?;
                Ok(AttemptOutcome {
                    next_block,
                    holds: self.outline.found == *found,
                    rest,
                })
            }
            _ => Ok(AttemptOutcome::cut_short(block)),
        }
    }

    fn take_key(&mut self, key: KeyRead) -> Result<(), AllocError>
        ensures { OnOk result (self.new ≡ keyed key self.old) }
    {
        self.outline.served = BATCH_BYTES;
        self.push(VEntry::Rekey {
            cpu: key.cpu,
            cpu_place: key.place,
        })
    }

    // Replays an attempt from its point Written on.
    fn from_written<'a>(
        &mut self,
        acts: &[ActLine<'_>],
        len: u32,
        block: u64,
        steps: &'a [Step],
    ) -> Result<AttemptOutcome<'a>, AllocError>
        requires near { block ≤ 2 ^ 32 }
        ensures tries { IfOk result (λ t. from_written (map seen_act acts.now) len block self.old steps.now
            ≡ record { next_block = t.next_block; holds = t.holds; rest = t.rest.now; left = self.new }) }
        ensures near { IfOk result (λ t. t.next_block ≤ block + 2 ^ 26 + 2) }
    {
        self.meet(acts, Point::Written)?;
        match key_in_front(steps) {
            Some((key, rest)) => {
                self.take_key(key)?;
                self.from_serve(acts, len, block, rest)
            }
            None => Ok(AttemptOutcome::cut_short(block)),
        }
    }

    // Replays an attempt to copy `len` bytes; `block` is the key's next block.
    fn attempt<'a>(
        &mut self,
        acts: &[ActLine<'_>],
        len: u32,
        block: u64,
        steps: &'a [Step],
    ) -> Result<AttemptOutcome<'a>, AllocError>
        requires near { block ≤ 2 ^ 32 }
        ensures tries { IfOk result (λ t. attempted (map seen_act acts.now) len block self.old steps.now
            ≡ record { next_block = t.next_block; holds = t.holds; rest = t.rest.now; left = self.new }) }
        ensures near { IfOk result (λ t. t.next_block ≤ block + 2 ^ 26 + 2) }
    {
        match steps {
            [Step::Look(found), rest @ ..] => {
                self.meet(acts, Point::Start)?;
                if self.outline.found == *found {
                    return self.from_serve(acts, len, block, rest);
                }
                self.outline.found = *found;
                self.from_written(acts, len, block, rest)
            }
            _ => Ok(AttemptOutcome::cut_short(block)),
        }
    }

    // Replays an attempt, and a second one without acts if the first does not hold.
    fn try_twice(
        &mut self,
        acts: &[ActLine<'_>],
        len: u32,
        steps: &[Step],
    ) -> Result<(), AllocError>
        ensures { OnOk result (self.new ≡ tried_twice (map seen_act acts.now) len self.old steps.now) }
    {
        let tried = self.attempt(acts, len, 0, steps)?;
        if !tried.holds {
            self.attempt(&[], len, tried.next_block, tried.rest)?;
        }
        Ok(())
    }

    // Replays a `vread` after its first look. The `vread` wants at least one byte, and its flags are good.
    fn look(
        &mut self,
        acts: &[ActLine<'_>],
        len: u32,
        found: u64,
        steps: &[Step],
    ) -> Result<(), AllocError>
        ensures { OnOk result (self.new ≡ from_look (map seen_act acts.now) len found self.old steps.now) }
    {
        if found == 0 {
            return Ok(());
        }
        let left = BATCH_BYTES.saturating_sub(self.outline.served);
        if acts.is_empty() && self.outline.found == found && len <= u32::from(left) {
            self.copy(0, len)?;
            return Ok(());
        }
        self.try_twice(acts, len, steps)
    }

    /// Replays a `vread` of `len` bytes with these flags and acts, by the steps of its line.
    ///
    /// # Errors
    ///
    /// `AllocError` if there is no memory for the entries of the `vread`.
    pub(crate) fn vread(
        &mut self,
        len: u32,
        flags: u32,
        acts: &[ActLine<'_>],
        steps: &[Step],
    ) -> Result<(), AllocError>
        ensures { OnOk result (self.new ≡ vread_left len flags (map seen_act acts.now) self.old steps.now) }
    {
        if flags::are_bad(flags) || len == 0 {
            return Ok(());
        }
        match steps {
            [Step::Look(found), rest @ ..] => self.look(acts, len, *found, rest),
            _ => Ok(()),
        }
    }
}
