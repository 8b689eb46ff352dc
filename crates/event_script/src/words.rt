//! The words that begin lines, and the events of words without fields.

ghost use Rattle.std.specs.Prelude.{◌≡◌, ℕ, IfSome, IsOk, List, [], length};
ghost use Rattle.event_script.specs.WordLengths.{IsAmong};
ghost use Rattle.key_names.specs.Texts.Spelling.{word_text};
ghost use Rattle.key_names.specs.Texts.ScriptFaults.{event_of, plain, word_of};

use key_names::{Event, Word};

// One match for each length, so that each proof is about few words.

fn of_two(field: &[u8]) -> Option<Word>
    requires { length field.now ≡ 2 }
    ensures { IsAmong 2 field.now result }
{
    Some(match field {
        b"at" => Word::At,
        b"on" => Word::On,
        b"hw" => Word::Hw,
        _ => return None,
    })
}

fn of_three(field: &[u8]) -> Option<Word>
    requires { length field.now ≡ 3 }
    ensures { IsAmong 3 field.now result }
{
    Some(match field {
        b"add" => Word::Add,
        b"irq" => Word::Irq,
        b"end" => Word::End,
        _ => return None,
    })
}

fn of_four(field: &[u8]) -> Option<Word>
    requires { length field.now ≡ 4 }
    ensures { IsAmong 4 field.now result }
{
    Some(match field {
        b"bits" => Word::Bits,
        b"read" => Word::Read,
        b"int8" => Word::Int8,
        b"tick" => Word::Tick,
        b"drop" => Word::Drop,
        b"fork" => Word::Fork,
        _ => return None,
    })
}

fn of_five(field: &[u8]) -> Option<Word>
    requires { length field.now ≡ 5 }
    ensures { IsAmong 5 field.now result }
{
    Some(match field {
        b"write" => Word::Write,
        b"input" => Word::Input,
        b"vread" => Word::Vread,
        b"kread" => Word::Kread,
        b"dread" => Word::Dread,
        b"uread" => Word::Uread,
        b"int16" => Word::Int16,
        b"int32" => Word::Int32,
        b"int64" => Word::Int64,
        b"state" => Word::State,
        _ => return None,
    })
}

fn of_six(field: &[u8]) -> Option<Word>
    requires { length field.now ≡ 6 }
    ensures { IsAmong 6 field.now result }
{
    Some(match field {
        b"device" => Word::Device,
        b"credit" => Word::Credit,
        b"reseed" => Word::Reseed,
        b"inside" => Word::Inside,
        b"online" => Word::Online,
        b"vmfork" => Word::Vmfork,
        _ => return None,
    })
}

fn of_seven(field: &[u8]) -> Option<Word>
    requires { length field.now ≡ 7 }
    ensures { IsAmong 7 field.now result }
{
    match field {
        b"prepare" => Some(Word::Prepare),
        _ => None,
    }
}

/// The word that a field spells.
#[tactic(auto, using(crate::proofs::Spellings::among))]
pub fn word_of(field: &[u8]) -> Option<Word>
    ensures value { result ≡ word_of field.now }
    ensures spelt { IfSome result (λ word. field.now ≡ word_text word) }
{
    match field.len() {
        2 => of_two(field),
        3 => of_three(field),
        4 => of_four(field),
        5 => of_five(field),
        6 => of_six(field),
        7 => of_seven(field),
        _ => None,
    }
}

/// The event of a word without fields.
pub(crate) fn alone(word: Word) -> Event
    requires { IsOk (event_of 1 1 word []) }
    ensures { (version cpus : ℕ) (fields : List (List ℕ)) → event_of version cpus word fields ≡ plain result fields }
{
    match word {
        Word::Bits => Event::Bits,
        Word::Int8 => Event::Int8,
        Word::Int16 => Event::Int16,
        Word::Int32 => Event::Int32,
        Word::Int64 => Event::Int64,
        Word::Reseed => Event::Reseed,
        Word::Tick => Event::Tick,
        Word::Drop => Event::Drop,
        _ => unreachable!(),
    }
}
