//! The setting (CPU, moment and hardware words) that a caller has before each of its calls.
ghost use Rattle.std.specs.Prelude.{◌≡◌, ◌<◌, IfOk, map};
ghost use Rattle.std.specs.List.{AllByRecursion};
ghost use Rattle.key_names.specs.Callers.Calls.{setting_after_call};
ghost use Rattle.judge_lines.specs.Called.{seen_call, seen_calls};
ghost use Rattle.judge_lines.specs.Orders.{all_forks, front_in};
ghost use Rattle.judge_lines.specs.Settings.{settings_from, first_found, AreSettings};

use crate::called::CalledLines;
use crate::order::{Fork, front_of};
use crate::setting::LineSetting;
use std::alloc::{AllocError, Global};

// Changes the setting as the events of a call do.
fn follow(set: &mut LineSetting, call: &CalledLines<'_>)
    ensures { set.new ≡ setting_after_call set.old (seen_call call.now) }
{
    match call {
        CalledLines::Alone { event, .. } => set.follow(event),
        CalledLines::Vread { .. } | CalledLines::Unbound(_) | CalledLines::Ending(_) => {}
    }
}

// The setting before each of these calls. `start` is the setting before the first call.
fn caller_settings(
    alloc: Global,
    start: LineSetting,
    calls: &[CalledLines<'_>],
) -> Result<Vec<LineSetting>, AllocError>
    ensures { IfOk result (λ settings. settings.items ≡ settings_from start (map seen_call calls.now)) }
{
    let mut settings = Vec::with_capacity(alloc, calls.len())?;
    let mut set = start;
    for call in calls {
        settings.push(set.again())?;
        follow(&mut set, call);
    }
    Ok(settings)
}

// The setting that a caller starts with: its parent's setting at the fork, or the first setting if the caller has no
// fork.
fn start_setting(forks: &[Fork], settings: &[Vec<LineSetting>], caller: usize) -> LineSetting
    ensures { result ≡ first_found settings.now (front_in caller forks.now) }
{
    let Some(fork) = front_of(forks, caller) else {
        return LineSetting::first();
    };
    let Some(parent) = settings.get(fork.parent as usize) else {
        return LineSetting::first();
    };
    match parent.get(fork.calls) {
        Some(set) => set.again(),
        None => LineSetting::first(),
    }
}

/// The setting before each call of each caller.
///
/// # Errors
///
/// `AllocError` if there is no memory for them.
pub fn all_settings(
    alloc: Global,
    callers: &[Vec<CalledLines<'_>>],
    forks: &[Fork],
) -> Result<Vec<Vec<LineSetting>>, AllocError>
    requires forks { forks.now ≡ all_forks 0 (seen_calls callers.now) }
    requires rise { AllByRecursion (λ fork. fork.parent < fork.child) forks.now }
    ensures { IfOk result (λ settings. AreSettings (seen_calls callers.now) settings.items) }
{
    let mut settings = Vec::new(alloc);
    for (caller, calls) in callers.iter().enumerate() {
        let start = start_setting(forks, &settings, caller);
        settings.push(caller_settings(alloc, start, calls)?)?;
    }
    Ok(settings)
}
