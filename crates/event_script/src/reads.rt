//! The number of bytes that an event reads.

ghost use Rattle.std.specs.Prelude.{◌≡◌};
ghost use Rattle.key_names.specs.Texts.ScriptGrammar.{bytes_read};

use key_names::{Event, InsideAct};

/// The number of bytes that an event asks for; 0 if it is no read.
pub fn bytes_read(event: &Event) -> u32
    ensures { result ≡ bytes_read event.now }
{
    match event {
        Event::Read { len, .. } | Event::Vread { len, .. } | Event::Dread { len, .. } => *len,
        Event::Kread { len } | Event::Uread { len } => *len,
        Event::Inside {
            act: InsideAct::Vread(len),
            ..
        } => *len,
        _ => 0,
    }
}
