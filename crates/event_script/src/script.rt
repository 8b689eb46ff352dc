//! A whole script, and the functions that read one.
ghost use Rattle.std.specs.Prelude.{◌≡◌, ◌<◌, ◌≤◌, ℕ, List, IfErr, IfOk, IsErr, length, take};
ghost use Rattle.key_names.specs.declared.faults.ScriptFault.{ScriptFault};
ghost use Rattle.key_names.specs.Texts.ScriptGrammar.{IsScript, Script as Spelt};
ghost use Rattle.key_names.specs.Texts.ScriptFaults.{first_fault, front};
ghost use Rattle.event_script.specs.Feeding.{HasFed};
ghost use Rattle.event_script.specs.ScriptViews.{GivesScript, GivesUnread, IsFirstFault};

use crate::load::load_blocks;
use crate::reader::ScriptReader;
use crate::script_error::{ScriptError, Unread};
use crate::whole::front::front_len;
use key_names::Event;
use std::alloc::{AllocError, Global};
use std::marker::Model;

/// A script: a version, a number of CPUs, and the events of each caller.
///
/// A script has at least one caller, and is well-formed: its text is read without a fault.
#[derive(Drop)]
pub struct Script {
    version: u32,
    cpus: u32,
    callers: Vec<Vec<Event>>,
}

impl Model for Script {
    ghost use Rattle.std.specs.Prelude.{map};
    ghost use Rattle.key_names.specs.Texts.ScriptGrammar.{Script as Spelt, WellFormed};

    ghost Value = { Spelt };

    ghost view = { λ s. record {
      version = s.version;
      cpus = s.cpus;
      callers = map (λ events. events.items) s.callers.items;
    } };

    ghost invariant = { λ s. WellFormed
        (record { version = s.version; cpus = s.cpus; callers = map (λ events. events.items) s.callers.items }) };
}

impl Script {
    ghost use Rattle.std.specs.Prelude.{slice_get, Some};
    ghost use Rattle.key_names.specs.Texts.ScriptGrammar.{WellFormed};
    ghost use Rattle.event_script.specs.LoadScript.{load_script};

    /// The script of a load, of version 1, with as many CPUs as callers. Caller 0 makes the core ready and forks all
    /// others. Each caller makes `events` calls on its own CPU, eight kinds of them in turn. `start` determines the
    /// first kind and the lengths of the reads. There are 1 to 64 callers, with 1 to 1,000 calls each.
    ///
    /// # Errors
    ///
    /// `AllocError` if there is no memory for the events.
    pub fn load(alloc: Global, start: u32, callers: u32, events: u32) -> Result<Script, AllocError>
        requires callers { (1 ≤ callers) × (callers ≤ 64) }
        requires events { (1 ≤ events) × (events ≤ 1000) }
        ensures { IfOk result (λ script. script ≡ load_script start callers events) }
    {
        let callers_events = load_blocks(alloc, start, callers, events)?;
        Ok(Script {
            version: 1,
            cpus: callers,
            callers: callers_events,
        })
    }

    /// The version of the script's text: 1, 2 or 3. Every script is well-formed.
    pub fn version(&self) -> u32
        ensures number { result ≡ self.now.version }
        ensures well { WellFormed self.now }
    {
        self.version
    }

    /// The number of CPUs: 1 to 64, or 1 to 256 in version 3.
    pub fn cpus(&self) -> u32
        ensures { result ≡ self.now.cpus }
    {
        self.cpus
    }

    /// The number of callers, from 1 to 64.
    pub fn callers(&self) -> u32
        ensures { result ≡ length self.now.callers }
    {
        self.callers.len() as u32
    }

    /// The events of one caller, in order.
    pub fn events(&self, caller: u32) -> &[Event]
        requires { caller < length self.now.callers }
        ensures { slice_get self.now.callers caller ≡ Some result.now }
    {
        &self.callers[caller as usize]
    }
}

impl ScriptReader {
    /// The script of the text that was fed.
    ///
    /// # Errors
    ///
    /// `Fault` with the text's first fault, if the text is no script. The faulty line is returned too, if the reader
    /// kept it. `NoMemory` if there is no memory for the script.
    pub fn finish(self) -> Result<Script, Unread>
        requires { (text : List ℕ) × HasFed text self }
        ensures found { (text : List ℕ) → HasFed text self → IfOk result (λ script. IsScript script text) }
        ensures only { (text : List ℕ) → HasFed text self → (script : Spelt) → IsScript script text
            → GivesUnread (λ read. read) result (Ok script) }
        ensures fault { (text : List ℕ) → HasFed text self → IfErr result (λ unread. IsFirstFault unread.error text) }
        ensures faulted { (text : List ℕ) → HasFed text self → (fault : ScriptFault)
            → first_fault text ≡ Some fault → IsErr result }
    {
        let draft = self.into_draft()?;
        let version = draft.head.version;
        let cpus = draft.head.cpus;
        let callers = draft.into_blocks()?;
        Ok(Script {
            version,
            cpus,
            callers,
        })
    }
}

/// Reads a script.
///
/// # Errors
///
/// `Fault` with the text's first fault if the text is no script. `NoMemory` if there is no memory for the script.
pub fn read(alloc: Global, text: &[u8]) -> Result<Script, ScriptError>
    // The text is the spelling of the script.
    ensures found { IfOk result (λ script. IsScript script text.now) }
    // If the text spells a script, the result is this script, unless memory runs out.
    ensures only { (script : Spelt) → IsScript script text.now → GivesScript (λ read. read) result (Ok script) }
    // A `Fault` contains the text's first fault.
    ensures fault { IfErr result (λ error. IsFirstFault error text.now) }
    // If the text has a fault, the result is an error.
    ensures faulted { (fault : ScriptFault) → first_fault text.now ≡ Some fault → IsErr result }
{
    let mut reader = ScriptReader::new(alloc);
    reader.feed(alloc, text)?;
    match reader.finish() {
        Ok(script) => Ok(script),
        Err(unread) => Err(unread.error),
    }
}

/// Reads the script at the start of a text, up to and including the first line `end`. If no line is `end`, the whole
/// text is read as the script. Returns the script and the number of its bytes.
///
/// # Errors
///
/// `Fault` with the first fault of these bytes if the bytes are no script. `NoMemory` if there is no memory for the
/// script.
pub fn read_front(alloc: Global, text: &[u8]) -> Result<(Script, u64), ScriptError>
    ensures found { IfOk result (λ both. IsScript both.0 (front text.now)) }
    ensures place { IfOk result (λ both. take both.1 text.now ≡ front text.now) }
    ensures within { IfOk result (λ both. both.1 ≤ length text.now) }
    ensures only { (script : Spelt) → IsScript script (front text.now)
        → GivesScript (λ both. both.0) result (Ok script) }
    ensures fault { IfErr result (λ error. IsFirstFault error (front text.now)) }
    ensures faulted { (fault : ScriptFault) → first_fault (front text.now) ≡ Some fault → IsErr result }
{
    let len = front_len(text);
    let script = read(alloc, &text[..len])?;
    Ok((script, len as u64))
}
