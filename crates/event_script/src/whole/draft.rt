//! A script that is still being read.

ghost use Rattle.std.specs.Prelude.{◌≡◌, ◌<◌, ◌≤◌, ◌+◌, [], IfOk, map, vec_len};
ghost use Rattle.std.specs.Bool.{OnTrue};
ghost use Rattle.std.specs.List.{list_any};
ghost use Rattle.event_script.specs.Progress.{IsViewOf};
ghost use Rattle.event_script.specs.Tally.{IsLight, Tallied, blocks_in, fork_in, is_over};
ghost use Rattle.event_script.specs.Views.{Gives};
ghost use Rattle.key_names.specs.Texts.ScriptFaults.{SaysEvent, SaysCaller, GoesOn, after, blocks_of, has_orphan, is_bad_fork, is_past_limits};
ghost use Rattle.key_names.specs.Texts.ScriptGrammar.{InRange, acts_after};

use crate::progress::DraftView;
use crate::reads::bytes_read;
use crate::statements::head::Head;
use crate::whole::error::LineError;
use key_names::{Event, FaultKind};
use std::alloc::{AllocError, Global};
use std::mem;

const MOST_EVENTS: usize = 65_536;

const MOST_READ: u64 = 16_777_216;

const MOST_ACTS: u32 = 8;

/// A block has room for this many events before it grows. To grow a list of this size, the system moves its pages; to
/// grow a smaller list, it copies the events.
const FIRST_ROOM: usize = 6144;

/// The script so far: its finished blocks, the events of its last block, and counts over all blocks.
#[derive(Drop)]
pub(crate) struct Draft {
    pub(crate) head: Head,
    pub(crate) done: Vec<Vec<Event>>,
    pub(crate) events: Vec<Event>,
    event_count: usize,
    bytes_read: u64,
    acts: u32,
    forked: [bool; 64],
    ghost tallied: { Tallied (blocks_in done.items events.items) events.items event_count bytes_read acts forked },
    ghost few_blocks: { vec_len done < 64 },
}

/// The empty list of events of a new block.
fn no_events(alloc: Global) -> Result<Vec<Event>, AllocError>
    ensures { IfOk result (λ events. events.items ≡ []) }
{
    Vec::with_capacity(alloc, FIRST_ROOM)
}

/// The number of acts that wait for the next `vread` once this event is added.
fn waiting_after(waiting: u32, event: &Event) -> u32
    requires { waiting ≤ 8 }
    ensures { result ≡ acts_after waiting event.now }
{
    match event {
        Event::Inside { .. } => waiting + 1,
        Event::Vread { .. } => 0,
        _ => waiting,
    }
}

/// The number of the caller that an event forks.
fn fork_of(event: &Event) -> Option<u32>
    ensures { result ≡ fork_in event.now }
{
    match event {
        Event::Fork { child } => Some(*child),
        _ => None,
    }
}

/// If the result is true, the event reads nothing, forks no caller and leaves the number of waiting acts as it is.
fn is_light(event: &Event) -> bool
    ensures { OnTrue result (IsLight event.now) }
{
    matches!(
        event,
        Event::At { .. }
            | Event::Irq { .. }
            | Event::Credit { .. }
            | Event::Bits
            | Event::Int8
            | Event::Int16
            | Event::Int32
            | Event::Int64
            | Event::Reseed
            | Event::Tick
            | Event::Drop
    )
}

impl Draft {
    ghost use Rattle.event_script.specs.Drafts.{draft_as};

    /// A draft that has only the empty block of caller 0.
    pub(crate) fn new(alloc: Global, head: Head) -> Result<Draft, AllocError>
        ensures { IfOk result (λ draft.
            draft_as draft ≡ record { version = head.version; cpus = head.cpus; done = []; events = [] }) }
    {
        Ok(Draft {
            head,
            done: Vec::new(alloc),
            events: no_events(alloc)?,
            event_count: 0,
            bytes_read: 0,
            acts: 0,
            forked: [false; 64],
        })
    }

    /// Whether an event forks a caller that was forked before, or a caller whose number is at most the forking
    /// caller's.
    fn is_bad_fork(&self, event: &Event) -> bool
        requires { InRange self.now.head.version self.now.head.cpus event.now }
        ensures { result ≡ is_bad_fork (draft_as self.now) event.now }
    {
        match event {
            Event::Fork { child } => {
                let child = *child as usize;
                child <= self.done.len() || self.forked[child]
            }
            _ => false,
        }
    }

    /// Whether one more event would exceed a limit. The event reads `bytes` bytes, and `acts` acts wait after it.
    fn is_past_limits(&self, bytes: u32, acts: u32) -> bool
        ensures { result ≡ is_over self.now.event_count (self.now.bytes_read + bytes) acts }
    {
        self.event_count >= MOST_EVENTS
            || self.bytes_read + u64::from(bytes) > MOST_READ
            || acts > MOST_ACTS
    }

    /// Adds an event to the last block. The event reads nothing, forks no caller and leaves the number of waiting acts
    /// as it is.
    #[inline(always)]
    pub(crate) fn add_light(&mut self, event: Event) -> Result<(), LineError>
        requires range { InRange self.old.head.version self.old.head.cpus event }
        requires light { IsLight event }
        ensures next { Gives (λ _. GoesOn (draft_as self.new)) result (after (draft_as self.old) (SaysEvent event)) }
        ensures same { self.new.head ≡ self.old.head }
    {
        if self.event_count >= MOST_EVENTS {
            return Err(LineError::Kind(FaultKind::TooMany));
        }
        self.events.push(event)?;
        self.event_count += 1;
        Ok(())
    }

    /// Adds an event to the last block.
    pub(crate) fn add_event(&mut self, event: Event) -> Result<(), LineError>
        requires { InRange self.old.head.version self.old.head.cpus event }
        ensures next { Gives (λ _. GoesOn (draft_as self.new)) result (after (draft_as self.old) (SaysEvent event)) }
        ensures same { self.new.head ≡ self.old.head }
    {
        if is_light(&event) {
            return self.add_light(event);
        }
        if self.is_bad_fork(&event) {
            return Err(LineError::Kind(FaultKind::BadFork));
        }
        let bytes = bytes_read(&event);
        let acts = waiting_after(self.acts, &event);
        if self.is_past_limits(bytes, acts) {
            return Err(LineError::Kind(FaultKind::TooMany));
        }
        let child = fork_of(&event);
        self.events.push(event)?;
        self.event_count += 1;
        self.bytes_read += u64::from(bytes);
        self.acts = acts;
        if let Some(child) = child {
            self.forked[child as usize] = true;
        }
        Ok(())
    }

    /// Begins the next block, if `number` is that block's number and a caller with this number was forked.
    pub(crate) fn add_block(&mut self, alloc: Global, number: u32) -> Result<(), LineError>
        requires { number < 64 }
        ensures next { Gives (λ _. GoesOn (draft_as self.new)) result (after (draft_as self.old) (SaysCaller number)) }
        ensures same { self.new.head ≡ self.old.head }
    {
        if number as usize != self.done.len() + 1 {
            return Err(LineError::Kind(FaultKind::BadCaller));
        }
        if !self.forked[number as usize] {
            return Err(LineError::Kind(FaultKind::Unforked));
        }
        self.done.reserve(1)?;
        let events = mem::replace(&mut self.events, no_events(alloc)?);
        self.done.push_reserved(events);
        self.acts = 0;
        Ok(())
    }

    /// Whether a forked caller has no block yet.
    pub(crate) fn has_orphan(&self) -> bool
        ensures { result ≡ has_orphan (draft_as self.now) }
    {
        is_any_set(&self.forked[self.done.len() + 1..])
    }

    /// A view of the draft, with the number of the next line.
    pub(crate) fn view(&self, number: u32) -> DraftView<'_>
        ensures seen { IsViewOf result (draft_as self.now) }
        ensures number { result.number ≡ number }
    {
        DraftView {
            version: self.head.version,
            cpus: self.head.cpus,
            blocks: self.done.len() as u32,
            events: &self.events,
            number,
            has_orphan: self.has_orphan(),
        }
    }

    /// All blocks, including the last one.
    pub(crate) fn into_blocks(self) -> Result<Vec<Vec<Event>>, AllocError>
        ensures { IfOk result (λ blocks. map (λ block. block.items) blocks.items ≡ blocks_of (draft_as self)) }
    {
        let Draft {
            mut done,
            events,
            ..
        } = self;
        done.push(events)?;
        Ok(done)
    }
}

fn is_any_set(flags: &[bool]) -> bool
    ensures { result ≡ list_any (λ flag. flag) flags.now }
{
    flags.iter().any(|flag| *flag)
}
