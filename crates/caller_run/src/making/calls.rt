//! The calls of the core for a caller's events. Each such call has a line of its own.
ghost use Rattle.std.specs.Prelude.{◌≡◌, ℕ, [], length};
ghost use Rattle.key_names.specs.Texts.ScriptGrammar.{InRange};
ghost use Rattle.caller_run.specs.Calling.{Asked, Called, CanAsk, IsReady};
ghost use Rattle.caller_run.specs.Kinds.{IsCall};
ghost use Rattle.caller_run.specs.Says.{most_shown};

use crate::making::caller::Caller;
use crate::output::reply::{LineData, Reply};
use key_names::{Answer, Event, Trace};
use lane_table::Lanes;
use rng_core::{
    Site, add, bits, device, getrandom, input, int, irq, kernel_read, mix, online, prepare,
    random_file, reseed, tick, urandom_file, vmfork,
};
use std::sync::Wait;

// Calls the core for an event. A call that serves bytes puts them in `served`. An event that only sets something for
// later events makes no call.
fn ask<R: Wait>(rt: &R, site: &mut Site, served: &mut [u8], event: &Event) -> Reply
    requires can { CanAsk site.old }
    requires range { (version : ℕ) × InRange version site.old.lanes.now.cpus event.now }
    requires len { length served.old ≡ most_shown event.now }
    requires kind { IsCall event.now }
    ensures { Asked event.now result served.new site.old site.new }
{
    match event {
        Event::Read { flags, .. } => Reply::read(getrandom(rt, site, served, *flags)),
        Event::Dread { flag, .. } => Reply::read(random_file(rt, site, served, *flag == 1)),
        Event::Kread { .. } => Reply::served(kernel_read(rt, site, served)),
        Event::Uread { .. } => Reply::served(urandom_file(rt, site, served)),
        Event::Int8 | Event::Int16 | Event::Int32 | Event::Int64 => Reply::served(int(
            rt, site, served,
        )),
        Event::Write { text } => Reply::after(mix(rt, site, text.bytes())),
        Event::Device { word, text } => Reply::after(device(rt, site, *word, text.bytes())),
        Event::Add { text, bits } => Reply::after(add(rt, site, text.bytes(), *bits)),
        Event::Credit { bits } => Reply::after(add(rt, site, &[], *bits)),
        Event::Irq { v1, v2 } => Reply::after(irq(rt, site, *v1, *v2)),
        Event::Input {
            word,
            kind,
            code,
            value,
        } => Reply::after(input(rt, site, *word, *kind, *code, *value)),
        Event::Bits => Reply::done(LineData::Count(bits(rt, site))),
        Event::Reseed => Reply::tried(reseed(rt, site)),
        Event::Tick => Reply::ticked(tick(rt, site)),
        Event::Vmfork { word, text } => Reply::after(vmfork(rt, site, *word, text.bytes())),
        Event::Prepare { cpu } => Reply::after(prepare(rt, site, *cpu)),
        Event::Online { cpu } => Reply::after(online(rt, site, *cpu)),
        _ => Reply::only(Answer::Ok),
    }
}

impl Caller {
    /// Makes the call for an event, and returns the reply that the event's line shows. The bytes of the line are put in
    /// `served`.
    pub(crate) fn call<R: Wait>(
        &mut self,
        rt: &R,
        lanes: &Lanes,
        trace: &mut Trace,
        served: &mut [u8],
        event: &Event,
    ) -> Reply
        requires ready { IsReady lanes.now self.old }
        requires range { (version : ℕ) × InRange version lanes.now.cpus event.now }
        requires len { length served.old ≡ most_shown event.now }
        requires kind { IsCall event.now }
        requires new { trace.old ≡ [] }
        ensures { Called lanes.now event.now self.old self.new result served.new trace.new }
    {
        let mut site = Site {
            lanes,
            pass: &mut self.pass,
            trace,
            set: self.set,
        };
        ask(rt, &mut site, served, event)
    }
}
