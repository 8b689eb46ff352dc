//! Writes the texts of names, entries and rows into a buffer.
ghost use Rattle.std.specs.Prelude.{◌≡◌, ◌++◌, ◌∷◌, [], OnOk, decimal};
ghost use Rattle.key_audit.specs.Texts.{name_text, call_text, holder_text, line_text, origin_text, at_text, entry_text};
ghost use Rattle.key_audit.specs.Texts.{span_text, fate_text, piece_text, end_text, key_text, row_text, rows_text, moment_at};

use audit_keys::lives::Holder;
use audit_keys::moments::{LineOf, Moment, Moments};
use audit_keys::rows::{Fate, KeyPiece, KeyRow};
use audit_keys::used::Origin;
use itoa::Buffer;
use key_names::{KeyName, LaneId, Span};
use std::alloc::{AllocError, Global};

/// The moment that is printed for an entry for which no moment is listed.
const NO_MOMENT: Moment = Moment {
    stamp: 0,
    line: LineOf {
        caller: 0,
        event: 0,
    },
};

/// The bytes of the output that were written so far.
#[derive(Drop)]
pub(crate) struct TextBuffer {
    pub(crate) bytes: Vec<u8>,
}

pub(crate) fn moment_at(moments: &Moments, at: Origin) -> Moment
    ensures { result ≡ moment_at moments.now at }
{
    moments.at(at).unwrap_or(NO_MOMENT)
}

impl TextBuffer {
    pub(crate) fn new(alloc: Global) -> TextBuffer
        ensures { result.bytes.items ≡ [] }
    {
        TextBuffer {
            bytes: Vec::new(alloc),
        }
    }

    pub(crate) fn word(&mut self, word: &str) -> Result<(), AllocError>
        ensures { OnOk result (self.new.bytes.items ≡ self.old.bytes.items ++ word.now) }
    {
        self.bytes.extend_from_slice(word.as_bytes())
    }

    /// Adds a word and a number after it.
    pub(crate) fn number(&mut self, word: &str, number: u64) -> Result<(), AllocError>
        ensures { OnOk result (self.new.bytes.items ≡ self.old.bytes.items ++ (word.now ++ decimal number)) }
    {
        let mut digits = Buffer::new();
        self.word(word)?;
        self.word(digits.format(number))
    }

    fn call(&mut self, lane: LaneId, place: u64) -> Result<(), AllocError>
        ensures { OnOk result (self.new.bytes.items ≡ self.old.bytes.items ++ call_text lane place) }
    {
        match lane {
            LaneId::Pool => self.number("Call(Pool,", place)?,
            LaneId::Base => self.number("Call(Base,", place)?,
            LaneId::Cpu(cpu) => {
                self.number("Call(Cpu(", u64::from(cpu))?;
                self.number("),", place)?;
            }
        }
        self.word(")")
    }

    /// Adds the name of a key, such as `Root(3)`, `Cpu(0,2)`, `Call(Base,4)` or `Vdso(0,0,1)`.
    pub(crate) fn name(&mut self, key: KeyName) -> Result<(), AllocError>
        ensures { OnOk result (self.new.bytes.items ≡ self.old.bytes.items ++ name_text key) }
    {
        match key {
            KeyName::Root(place) => self.number("Root(", place)?,
            KeyName::Base(place) => self.number("Base(", place)?,
            KeyName::Cpu(cpu, place) => {
                self.number("Cpu(", u64::from(cpu))?;
                self.number(",", place)?;
            }
            KeyName::Call(lane, place) => return self.call(lane, place),
            KeyName::Vdso(caller, state, number) => {
                self.number("Vdso(", u64::from(caller))?;
                self.number(",", u64::from(state))?;
                self.number(",", number)?;
            }
        }
        self.word(")")
    }

    /// Adds the holder of a key (where the key is kept in memory), such as `base`, `cpu0`, `state0.3` or `call`.
    pub(crate) fn holder(&mut self, holder: Holder) -> Result<(), AllocError>
        ensures { OnOk result (self.new.bytes.items ≡ self.old.bytes.items ++ holder_text holder) }
    {
        match holder {
            Holder::Base => self.word("base"),
            Holder::Cpu(cpu) => self.number("cpu", u64::from(cpu)),
            Holder::State(of) => {
                self.number("state", u64::from(of.caller))?;
                self.number(".", u64::from(of.state))
            }
            Holder::Read => self.word("call"),
        }
    }

    /// Adds the caller and the event of a line, such as `0.4`.
    pub(crate) fn line(&mut self, line: LineOf) -> Result<(), AllocError>
        ensures { OnOk result (self.new.bytes.items ≡ self.old.bytes.items ++ line_text line) }
    {
        self.number("", u64::from(line.caller))?;
        self.number(".", u64::from(line.event))
    }

    fn origin(&mut self, at: Origin) -> Result<(), AllocError>
        ensures { OnOk result (self.new.bytes.items ≡ self.old.bytes.items ++ origin_text at) }
    {
        match at {
            Origin::Lane(LaneId::Pool, place) => self.number("p:", place),
            Origin::Lane(LaneId::Base, place) => self.number("b:", place),
            Origin::Lane(LaneId::Cpu(cpu), place) => {
                self.number("c", u64::from(cpu))?;
                self.number(":", place)
            }
            Origin::State {
                caller,
                state,
                place,
            } => {
                self.number("v", u64::from(caller))?;
                self.number(".", u64::from(state))?;
                self.number(":", place)
            }
        }
    }

    /// Adds an entry with its stamp, such as `c0:3@12` or `v0.3:1@12`.
    pub(crate) fn at(&mut self, at: Origin, moment: Moment) -> Result<(), AllocError>
        ensures { OnOk result (self.new.bytes.items ≡ self.old.bytes.items ++ at_text at moment) }
    {
        self.origin(at)?;
        self.number("@", moment.stamp)
    }

    /// Adds an entry with its stamp and the line that left it.
    pub(crate) fn entry(&mut self, moments: &Moments, at: Origin) -> Result<(), AllocError>
        ensures { OnOk result (self.new.bytes.items ≡ self.old.bytes.items ++ entry_text moments.now at) }
    {
        let moment = moment_at(moments, at);
        self.at(at, moment)?;
        self.word(" ")?;
        self.line(moment.line)
    }

    /// Adds a span of a keystream, such as `32+8`: the position of its first byte, and the number of its bytes.
    pub(crate) fn span(&mut self, span: Span) -> Result<(), AllocError>
        ensures { OnOk result (self.new.bytes.items ≡ self.old.bytes.items ++ span_text span) }
    {
        self.number("", span.from)?;
        self.number("+", span.len)
    }

    fn fate(&mut self, moments: &Moments, fate: Fate) -> Result<(), AllocError>
        ensures { OnOk result (self.new.bytes.items ≡ self.old.bytes.items ++ fate_text moments.now fate) }
    {
        match fate {
            Fate::Became(key) => {
                self.word("=")?;
                self.name(key)
            }
            Fate::Served(by) => {
                self.word(">")?;
                self.line(moment_at(moments, by).line)
            }
            Fate::GivenUp(by) => {
                self.word("!")?;
                self.at(by, moment_at(moments, by))
            }
            Fate::Held => self.word("?"),
        }
    }

    /// Adds a space, and a piece of a row: a span of the key's keystream, and what became of its bytes.
    pub(crate) fn piece(&mut self, moments: &Moments, piece: KeyPiece) -> Result<(), AllocError>
        ensures { OnOk result (self.new.bytes.items ≡ self.old.bytes.items ++ piece_text moments.now piece) }
    {
        self.word(" ")?;
        self.span(piece.span)?;
        self.fate(moments, piece.fate)
    }

    fn end(&mut self, moments: &Moments, ended: Option<Origin>) -> Result<(), AllocError>
        ensures { OnOk result (self.new.bytes.items ≡ self.old.bytes.items ++ end_text moments.now ended) }
    {
        match ended {
            Some(by) => {
                self.word(" ")?;
                self.entry(moments, by)
            }
            None => self.word(" held"),
        }
    }

    /// Adds a row up to its pieces: the key, its holder, and the entries that made and ended the key.
    pub(crate) fn key(&mut self, moments: &Moments, row: &KeyRow) -> Result<(), AllocError>
        ensures { OnOk result (self.new.bytes.items ≡ self.old.bytes.items ++ key_text moments.now row.now) }
    {
        self.name(row.key)?;
        self.word(" ")?;
        self.holder(row.holder)?;
        self.word(" ")?;
        self.entry(moments, row.made)?;
        self.end(moments, row.ended)
    }

    /// Adds the output line of a row: the key, its holder, the entries that made and ended it, and its pieces.
    pub(crate) fn row(&mut self, moments: &Moments, row: &KeyRow) -> Result<(), AllocError>
        ensures { OnOk result (self.new.bytes.items ≡ self.old.bytes.items ++ row_text moments.now row.now) }
    {
        self.key(moments, row)?;
        for piece in &row.pieces {
            self.piece(moments, *piece)?;
        }
        self.word("\n")
    }

    /// Adds the output line of each row.
    pub(crate) fn rows(&mut self, moments: &Moments, rows: &[KeyRow]) -> Result<(), AllocError>
        ensures { OnOk result (self.new.bytes.items ≡ self.old.bytes.items ++ rows_text moments.now rows.now) }
    {
        for row in rows {
            self.row(moments, row)?;
        }
        Ok(())
    }
}
