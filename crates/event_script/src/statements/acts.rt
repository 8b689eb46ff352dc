//! The acts (events inside a vgetrandom call) that a script binds to a `vread`.

ghost use Rattle.std.specs.Prelude.{◌≡◌};
ghost use Rattle.event_script.specs.Views.{Tells, fields_of};
ghost use Rattle.key_names.specs.Texts.ScriptFaults.{act_at, inside_of, point_of, vread_at};

use crate::numbers::number;
use crate::statements::amounts::read_len;
use crate::statements::fields::{cut, one, spells};
use key_names::{Event, FaultKind, InsideAct, Point};

fn point(field: &[u8]) -> Result<Point, FaultKind>
    ensures { Tells (λ point. point) result (point_of field.now) }
{
    let number = number(4, field)?;
    Point::of_number(number).ok_or(FaultKind::BadNumber)
}

fn act(at: &[u8], act: InsideAct) -> Result<Event, FaultKind>
    ensures { Tells (λ event. event) result (act_at at.now act) }
{
    let point = point(at)?;
    Ok(Event::Inside { point, act })
}

fn vread_act(at: &[u8], len: &[u8]) -> Result<Event, FaultKind>
    ensures { Tells (λ event. event) result (vread_at at.now len.now) }
{
    let point = point(at)?;
    let len = read_len(len)?;
    Ok(Event::Inside {
        point,
        act: InsideAct::Vread(len),
    })
}

/// The event of an `inside` line: an act, and its point in the `vread`.
pub(crate) fn inside(rest: Option<&[u8]>) -> Result<Event, FaultKind>
    ensures { Tells (λ event. event) result (inside_of (fields_of rest.entry)) }
{
    let Some(text) = rest else {
        return Err(FaultKind::UnknownWord);
    };
    let Some((point, following)) = cut(b' ', text) else {
        return Err(FaultKind::UnknownWord);
    };
    let Some((word, last)) = cut(b' ', following) else {
        if spells(following, b"wipe") {
            return act(point, InsideAct::Wipe);
        }
        if spells(following, b"reseed") {
            return act(point, InsideAct::Reseed);
        }
        return Err(FaultKind::UnknownWord);
    };
    let len = one(Some(last))?;
    if !spells(word, b"vread") {
        return Err(FaultKind::UnknownWord);
    }
    vread_act(point, len)
}
