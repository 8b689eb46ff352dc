//! The events of a script, and the words and answers of a transcript.
ghost use Rattle.std.specs.Prelude.{◌≡◌, ◌≤◌, length};
ghost use Rattle.key_names.specs.Texts.ScriptGrammar.{event_word};
ghost use Rattle.key_names.specs.Texts.Spelling.{word_text};

use crate::hardware::HardwareWords;
use crate::point::Point;
use crate::text::Text;

/// The action of an act inside a call.
#[derive(Clone, Copy, Debug, PartialEq, Eq)]
pub enum InsideAct {
    /// The memory of the state becomes zeros.
    Wipe,
    /// Another vgetrandom call for this number of bytes, on the same state.
    Vread(u32),
    /// A reseed.
    Reseed,
}

/// One event of a script. In a read, `len` counts bytes, at most 2^20, and `flags` are those of getrandom(2).
#[derive(Drop)]
pub enum Event {
    /// The caller's moment becomes this one, in milliseconds and below 2^40.
    At {
        moment: u64,
    },
    /// The caller moves to another CPU.
    On {
        cpu: u32,
    },
    /// The bytes that the hardware gives to the caller's later extractions (`arch_get_random_seed_longs`).
    Hw {
        bytes: HardwareWords,
    },
    /// `word` (in the kernel the cycle counter) and `text` are mixed into the pool (`add_device_randomness`).
    Device {
        word: u64,
        text: Text,
    },
    /// `text` is mixed into the pool (`write_pool_user`).
    Write {
        text: Text,
    },
    /// `text` is mixed into the pool, and `bits` (below 2^31) are credited (ioctl `RNDADDENTROPY`).
    Add {
        text: Text,
        bits: u32,
    },
    /// `bits` (below 2^31) are credited (ioctl `RNDADDTOENTCNT`).
    Credit {
        bits: u32,
    },
    /// The number of credited bits is read (ioctl `RNDGETENTCNT`).
    Bits,
    /// An interrupt on the caller's CPU. In the kernel `v1` is the cycle counter, and `v2` combines the instruction
    /// pointer with the interrupt's number (`add_interrupt_randomness`).
    Irq {
        v1: u64,
        v2: u64,
    },
    /// An input event. In the kernel `word` is the cycle counter (`add_input_randomness`).
    Input {
        word: u64,
        kind: u16,
        code: u16,
        value: u8,
    },
    /// getrandom(2).
    Read {
        len: u32,
        flags: u32,
    },
    /// getrandom(2) through the vDSO, on the caller's current vgetrandom state (`__cvdso_getrandom_data`).
    Vread {
        len: u32,
        flags: u32,
    },
    /// A read inside the kernel (`get_random_bytes`).
    Kread {
        len: u32,
    },
    /// A read of /dev/random. `flag` is 1 if the file was opened with `O_NONBLOCK` (`random_read_iter`).
    Dread {
        len: u32,
        flag: u32,
    },
    /// A read of /dev/urandom (`urandom_read_iter`).
    Uread {
        len: u32,
    },
    /// `get_random_u8`.
    Int8,
    /// `get_random_u16`.
    Int16,
    /// `get_random_u32`.
    Int32,
    /// `get_random_u64`.
    Int64,
    /// A reseed now (ioctl `RNDRESEEDCRNG`).
    Reseed,
    /// The reseed timer is checked. If it is due, the core is reseeded (the delayed work `next_reseed`).
    Tick,
    /// The memory of the current vgetrandom state becomes zeros.
    Drop,
    /// A child starts, and runs at the same time as this caller.
    Fork {
        child: u32,
    },
    /// An act that waits for the caller's next `Vread`, and is done when that call reaches `point`.
    Inside {
        point: Point,
        act: InsideAct,
    },
    /// The CPU is brought up: it loses its generation and its batches (`random_prepare_cpu`).
    Prepare {
        cpu: u32,
    },
    /// The CPU is up: the count of its fast pool starts again (`random_online_cpu`).
    Online {
        cpu: u32,
    },
    /// A virtual machine was copied. `word` and `text` are mixed as in `Device`, and the core is reseeded if it is
    /// ready (`add_vmfork_randomness`).
    Vmfork {
        word: u64,
        text: Text,
    },
    /// The vgetrandom state of this number, below 16, becomes the current one.
    State {
        number: u32,
    },
}

/// The word of a line: its event's word, or `End` at a caller's end.
#[derive(Clone, Copy, Debug, PartialEq, Eq)]
pub enum Word {
    At,
    On,
    Hw,
    Device,
    Write,
    Add,
    Credit,
    Bits,
    Irq,
    Input,
    Read,
    Vread,
    Kread,
    Dread,
    Uread,
    Int8,
    Int16,
    Int32,
    Int64,
    Reseed,
    Tick,
    Drop,
    Fork,
    Inside,
    Prepare,
    Online,
    Vmfork,
    State,
    End,
}

impl Event {
    /// The word that the event's line begins with in a script.
    pub fn word(&self) -> Word
        ensures { result ≡ event_word self.now }
    {
        match self {
            Event::At { .. } => Word::At,
            Event::On { .. } => Word::On,
            Event::Hw { .. } => Word::Hw,
            Event::Device { .. } => Word::Device,
            Event::Write { .. } => Word::Write,
            Event::Add { .. } => Word::Add,
            Event::Credit { .. } => Word::Credit,
            Event::Bits => Word::Bits,
            Event::Irq { .. } => Word::Irq,
            Event::Input { .. } => Word::Input,
            Event::Read { .. } => Word::Read,
            Event::Vread { .. } => Word::Vread,
            Event::Kread { .. } => Word::Kread,
            Event::Dread { .. } => Word::Dread,
            Event::Uread { .. } => Word::Uread,
            Event::Int8 => Word::Int8,
            Event::Int16 => Word::Int16,
            Event::Int32 => Word::Int32,
            Event::Int64 => Word::Int64,
            Event::Reseed => Word::Reseed,
            Event::Tick => Word::Tick,
            Event::Drop => Word::Drop,
            Event::Fork { .. } => Word::Fork,
            Event::Inside { .. } => Word::Inside,
            Event::Prepare { .. } => Word::Prepare,
            Event::Online { .. } => Word::Online,
            Event::Vmfork { .. } => Word::Vmfork,
            Event::State { .. } => Word::State,
        }
    }
}

impl Word {
    /// The word's spelling in both texts.
    pub fn text(self) -> &'static [u8]
        ensures text { result.now ≡ word_text self }
        ensures short { length result.now ≤ 7 }
    {
        match self {
            Word::At => b"at",
            Word::On => b"on",
            Word::Hw => b"hw",
            Word::Device => b"device",
            Word::Write => b"write",
            Word::Add => b"add",
            Word::Credit => b"credit",
            Word::Bits => b"bits",
            Word::Irq => b"irq",
            Word::Input => b"input",
            Word::Read => b"read",
            Word::Vread => b"vread",
            Word::Kread => b"kread",
            Word::Dread => b"dread",
            Word::Uread => b"uread",
            Word::Int8 => b"int8",
            Word::Int16 => b"int16",
            Word::Int32 => b"int32",
            Word::Int64 => b"int64",
            Word::Reseed => b"reseed",
            Word::Tick => b"tick",
            Word::Drop => b"drop",
            Word::Fork => b"fork",
            Word::Inside => b"inside",
            Word::Prepare => b"prepare",
            Word::Online => b"online",
            Word::Vmfork => b"vmfork",
            Word::State => b"state",
            Word::End => b"end",
        }
    }
}

/// The answer of a line.
#[derive(Clone, Copy, Debug, PartialEq, Eq)]
pub enum Answer {
    Ok,
    /// `EAGAIN`: the core is not ready, and the call must not wait.
    Again,
    /// `EINVAL`: a flag is unknown, or two flags exclude each other.
    Invalid,
    /// `ENODATA`: the call asks for a reseed, and the core is not ready.
    NoData,
    /// `EINTR`: the call waited until no caller was left that could make the core ready.
    Interrupted,
    /// A tick that reseeded.
    Fired,
    /// A tick that did not reseed, since the timer was not due.
    Idle,
    /// An act that was not done.
    Unused,
}
