//! The lines of one caller of a transcript, with the lines' steps and bytes.
ghost use Rattle.std.specs.Prelude.{◌≡◌, ◌==◌, ◌+◌, ◌<◌, ◌≤◌, ◌^◌, ◌∷◌, ◌++◌, [], Some, length, All, vec_len, vec_capacity, slice_get, slice_set, IfOk, OnOk, MatchBool};
ghost use Rattle.std.specs.List.{AllByRecursion};
ghost use Rattle.key_names.specs.Transcripts.SeenLine.{seen_lines, shown_in};
ghost use Rattle.key_names.specs.Texts.TranscriptGrammar.{LineFits};
ghost use Rattle.transcript_text.specs.Gathered.{bytes_from, data_from, kept_line, IsWithin, LineWithin};
ghost use Rattle.transcript_text.specs.ReadLines.{FitsShowing, PushesRead};
ghost use Rattle.transcript_text.specs.Shows.{SpellsNoData};
ghost use Rattle.transcript_text.specs.Views.{bytes_of, seen, seen_shown};

use crate::parsing::data::keep_data;
use crate::parsing::line::ReadLine;
use crate::view::{LineView, Shown};
use key_names::{Data, Line, Step};
use std::alloc::{AllocError, Global};
use std::marker::Model;

/// The lines that were added for one caller, and memory for more. The steps and bytes of all lines are kept in two more
/// lists, in the order in which they were added. In contracts, each line contains its own steps and bytes.
#[derive(Drop)]
pub struct CallerLines {
    lines: Vec<Line>,
    steps: Vec<Step>,
    bytes: Vec<u8>,
}

impl Model for CallerLines {
    ghost use Rattle.std.specs.Prelude.{◌-◌, vec_len, vec_capacity};
    ghost use Rattle.key_names.specs.Transcripts.SeenLine.{seen_lines};
    ghost use Rattle.transcript_text.specs.Gathered.{Gathered, IsKept};

    ghost Value = { Gathered };

    ghost view = { λ c. record {
      lines = seen_lines c.bytes.items c.steps.items c.lines.items;
      bytes = c.bytes.items;
      steps = c.steps.items;
      line_room = vec_capacity c.lines - vec_len c.lines;
      byte_room = vec_capacity c.bytes - vec_len c.bytes;
      step_room = vec_capacity c.steps - vec_len c.steps;
    } };

    ghost invariant = { λ c. IsKept c.bytes.items c.steps.items c.lines.items };
}

// Appends the bytes `shown` to `kept`, and returns the data of a line with these bytes. The caller must have made room
// for them in `kept`.
fn keep_bytes(kept: &mut Vec<u8>, shown: &[u8]) -> Data
    requires room { vec_len kept.old + length shown.now ≤ vec_capacity kept.old }
    requires short { length shown.now < 2 ^ 32 }
    ensures data { result ≡ bytes_from (length kept.old.items) shown.now }
    ensures items { kept.new.items ≡ kept.old.items ++ shown.now }
    ensures capacity { vec_capacity kept.old ≤ vec_capacity kept.new }
    ensures len { vec_len kept.new ≡ vec_len kept.old + length shown.now }
{
    let start = kept.len() as u64;
    let _fits = kept.extend_from_slice(shown);
    if shown.is_empty() {
        return Data::None;
    }
    Data::Bytes {
        len: shown.len() as u32,
        start,
    }
}

// Appends the bytes of a line's data `shown` to `kept`, if there are any. Returns the data, which refer to the kept
// bytes by place.
#[inline(always)]
fn keep_shown(kept: &mut Vec<u8>, shown: Shown<'_>) -> Data
    requires room { vec_len kept.old + length (bytes_of shown) ≤ vec_capacity kept.old }
    requires short { length (bytes_of shown) < 2 ^ 32 }
    ensures data { result ≡ data_from (length kept.old.items) shown.entry }
    ensures items { kept.new.items ≡ kept.old.items ++ bytes_of shown.entry }
    ensures capacity { vec_capacity kept.old ≤ vec_capacity kept.new }
    ensures len { vec_len kept.new ≡ vec_len kept.old + length (bytes_of shown.entry) }
{
    match shown {
        Shown::None => Data::None,
        Shown::Bytes(bytes) => keep_bytes(kept, bytes),
        Shown::Count(number) => Data::Count(number),
    }
}

// Appends `steps` to `kept`, and returns the place of the first. The caller must have made room for them in `kept`. A
// line has few steps, so they are pushed one by one.
#[inline(always)]
fn keep_steps(kept: &mut Vec<Step>, steps: &[Step]) -> u64
    requires room { vec_len kept.old + length steps.now ≤ vec_capacity kept.old }
    ensures start { result ≡ length kept.old.items }
    ensures items { kept.new.items ≡ kept.old.items ++ steps.now }
    ensures capacity { vec_capacity kept.old ≤ vec_capacity kept.new }
    ensures len { vec_len kept.new ≡ vec_len kept.old + length steps.now }
{
    let start = kept.len() as u64;
    for step in steps {
        kept.push_reserved(*step);
    }
    start
}

impl CallerLines {
    /// A list of no lines, with memory allocated for this many lines, steps and bytes.
    ///
    /// # Errors
    ///
    /// `AllocError` if there is no memory for them.
    pub fn with_room(
        alloc: Global,
        lines: usize,
        steps: usize,
        bytes: usize,
    ) -> Result<CallerLines, AllocError>
        ensures lines { IfOk result (λ c. c.lines ≡ []) }
        ensures bytes { IfOk result (λ c. c.bytes ≡ []) }
        ensures steps { IfOk result (λ c. c.steps ≡ []) }
        ensures line_room { IfOk result (λ c. c.line_room ≡ lines) }
        ensures step_room { IfOk result (λ c. c.step_room ≡ steps) }
        ensures byte_room { IfOk result (λ c. c.byte_room ≡ bytes) }
    {
        Ok(CallerLines {
            lines: Vec::with_capacity(alloc, lines)?,
            steps: Vec::with_capacity(alloc, steps)?,
            bytes: Vec::with_capacity(alloc, bytes)?,
        })
    }

    /// Makes room for this line, its steps and its bytes. Room that was made earlier stays.
    ///
    /// # Errors
    ///
    /// `AllocError` if there is no memory for this room.
    pub fn reserve(&mut self, line: LineView<'_>) -> Result<(), AllocError>
        ensures lines { self.new.lines ≡ self.old.lines }
        ensures bytes { self.new.bytes ≡ self.old.bytes }
        ensures steps { self.new.steps ≡ self.old.steps }
        ensures line_room_stays { self.old.line_room ≤ self.new.line_room }
        ensures step_room_stays { self.old.step_room ≤ self.new.step_room }
        ensures byte_room_stays { self.old.byte_room ≤ self.new.byte_room }
        ensures line_room { OnOk result (0 < self.new.line_room) }
        ensures step_room { OnOk result (length line.entry.steps.now ≤ self.new.step_room) }
        ensures byte_room { OnOk result (length (bytes_of line.entry.shown) ≤ self.new.byte_room) }
    {
        self.lines.reserve(1)?;
        self.steps.reserve(line.steps.len())?;
        self.bytes.reserve(line.shown.bytes().len())
    }

    // Appends the steps and bytes of `line`, and returns a `Line` that refers to them by place.
    #[inline(always)]
    fn keep(&mut self, line: LineView<'_>) -> Line
        requires step_room { length line.steps.now ≤ self.old.step_room }
        requires byte_room { length (bytes_of line.shown) ≤ self.old.byte_room }
        requires few { length line.steps.now ≤ 20 }
        requires short { length (bytes_of line.shown) < 2 ^ 32 }
        ensures line { result ≡ kept_line (length self.old.steps) (length self.old.bytes) line.entry }
        ensures lines { self.new.lines ≡ self.old.lines }
        ensures bytes { self.new.bytes ≡ self.old.bytes ++ bytes_of line.entry.shown }
        ensures steps { self.new.steps ≡ self.old.steps ++ line.entry.steps.now }
        ensures line_room { self.new.line_room ≡ self.old.line_room }
        ensures step_room { self.old.step_room ≤ self.new.step_room + length line.entry.steps.now }
        ensures byte_room { self.old.byte_room ≤ self.new.byte_room + length (bytes_of line.entry.shown) }
    {
        Line {
            caller: line.caller,
            event: line.event,
            word: line.word,
            answer: line.answer,
            step_count: line.steps.len() as u32,
            first_step: keep_steps(&mut self.steps, line.steps),
            shown: keep_shown(&mut self.bytes, line.shown),
        }
    }

    /// Adds a line of at most 20 steps and fewer than 2^32 bytes. The call allocates nothing: `with_room` or `reserve`
    /// must have made room for the line, its steps and its bytes.
    #[inline(always)]
    pub fn push(&mut self, line: LineView<'_>)
        requires line_room { 0 < self.old.line_room }
        requires step_room { length line.steps.now ≤ self.old.step_room }
        requires byte_room { length (bytes_of line.shown) ≤ self.old.byte_room }
        requires short { length (bytes_of line.shown) < 2 ^ 32 }
        requires fits { LineFits (seen line) }
        ensures lines { self.new.lines ≡ self.old.lines ++ seen line.entry ∷ [] }
        ensures bytes { self.new.bytes ≡ self.old.bytes ++ bytes_of line.entry.shown }
        ensures steps { self.new.steps ≡ self.old.steps ++ line.entry.steps.now }
        ensures line_room { self.new.line_room + 1 ≡ self.old.line_room }
        ensures step_room { self.old.step_room ≤ self.new.step_room + length line.entry.steps.now }
        ensures byte_room { self.old.byte_room ≤ self.new.byte_room + length (bytes_of line.entry.shown) }
    {
        let kept = self.keep(line);
        self.lines.push_reserved(kept);
    }

    /// Adds a line that was read, and decodes the hex digits of its last field directly into the kept bytes. Returns
    /// false, and adds no line, if the last field spells no data.
    pub(crate) fn push_read(
        &mut self,
        alloc: Global,
        read: &ReadLine<'_>,
    ) -> Result<bool, AllocError>
        requires fits { FitsShowing read.now }
        requires short { length read.now.shown.now < 2 ^ 32 }
        ensures { IfOk result (λ is_line. MatchBool is_line (PushesRead read.now self.old.lines self.new.lines)
            (SpellsNoData read.now.word read.now.shown.now)) }
    {
        self.lines.reserve(1)?;
        self.steps.reserve(read.steps.len())?;
        let Some(shown) = keep_data(alloc, &mut self.bytes, read.word, read.shown)? else {
            return Ok(false);
        };
        let first_step = keep_steps(&mut self.steps, read.steps);
        self.lines.push_reserved(Line {
            caller: read.caller,
            event: read.event,
            word: read.word,
            answer: read.answer,
            step_count: read.steps.len() as u32,
            first_step,
            shown,
        });
        Ok(true)
    }

    /// Replaces line `number`, counted from 0, without allocating. The old line's steps and bytes stay where they are,
    /// so the new line's steps and bytes need room, as for `push`.
    pub fn replace(&mut self, number: usize, line: LineView<'_>)
        requires number { number < length self.old.lines }
        requires step_room { length line.steps.now ≤ self.old.step_room }
        requires byte_room { length (bytes_of line.shown) ≤ self.old.byte_room }
        requires short { length (bytes_of line.shown) < 2 ^ 32 }
        requires fits { LineFits (seen line) }
        ensures lines { self.new.lines ≡ slice_set self.old.lines number (seen line.entry) }
        ensures bytes { self.new.bytes ≡ self.old.bytes ++ bytes_of line.entry.shown }
        ensures steps { self.new.steps ≡ self.old.steps ++ line.entry.steps.now }
        ensures line_room { self.new.line_room ≡ self.old.line_room }
        ensures step_room { self.old.step_room ≤ self.new.step_room + length line.entry.steps.now }
        ensures byte_room { self.old.byte_room ≤ self.new.byte_room + length (bytes_of line.entry.shown) }
    {
        let kept = self.keep(line);
        self.lines[number] = kept;
    }

    /// The number of lines.
    pub fn len(&self) -> usize
        ensures { result ≡ length self.now.lines }
    {
        self.lines.len()
    }

    /// Whether there are no lines.
    pub fn is_empty(&self) -> bool
        ensures { result ≡ (length self.now.lines == 0) }
    {
        self.lines.is_empty()
    }

    // The data of a line, from its stored form `named`: bytes are found by their place in the kept bytes.
    fn shown(&self, named: Data) -> Shown<'_>
        requires { IsWithin (length self.now.bytes) named }
        ensures { seen_shown result ≡ shown_in self.now.bytes named }
    {
        match named {
            Data::None => Shown::None,
            Data::Bytes { len, start } => {
                let start = start as usize;
                Shown::Bytes(&self.bytes[start..start + len as usize])
            }
            Data::Count(number) => Shown::Count(number),
        }
    }

    /// Line `number`, from 0.
    pub fn line(&self, number: usize) -> LineView<'_>
        requires { number < length self.now.lines }
        ensures line { slice_get self.now.lines number ≡ Some (seen result) }
        ensures fits { LineFits (seen result) }
    {
        let line = self.lines[number];
        let start = line.first_step as usize;
        LineView {
            caller: line.caller,
            event: line.event,
            word: line.word,
            answer: line.answer,
            steps: &self.steps[start..start + line.step_count as usize],
            shown: self.shown(line.shown),
        }
    }

    /// The lines. A line refers to its steps by their place in `steps`, and to its bytes by their place in `bytes`.
    pub fn lines(&self) -> &[Line]
        ensures seen { seen_lines self.now.bytes self.now.steps result.now ≡ self.now.lines }
        ensures fit { AllByRecursion LineFits self.now.lines }
        ensures within { All (LineWithin (length self.now.bytes) (length self.now.steps)) result.now }
    {
        &self.lines
    }

    /// The steps of the lines, in the order in which they were added. The steps of replaced lines are among them.
    pub fn steps(&self) -> &[Step]
        ensures { result.now ≡ self.now.steps }
    {
        &self.steps
    }

    /// The bytes of the lines, in the order in which they were added. The bytes of replaced lines are among them.
    pub fn bytes(&self) -> &[u8]
        ensures { result.now ≡ self.now.bytes }
    {
        &self.bytes
    }
}
