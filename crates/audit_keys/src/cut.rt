//! The lists of a book up to a stamp.
ghost use Rattle.std.specs.Prelude.{◌≡◌, [], IfOk, map, slice_get};
ghost use Rattle.key_names.specs.Lanes.Book.{Book, entries_of};
ghost use Rattle.audit_keys.specs.KeptEntries.{base_entries};
ghost use Rattle.audit_keys.specs.Moments.{visits_to};
ghost use Rattle.audit_keys.specs.Listed.{cpu_lists};
ghost use Rattle.audit_keys.specs.Cut.{is_by, list_to, KeepsVisits};

use crate::moments::{Moment, Moments};
use judge_log::{KeptCpu, Lists};
use std::alloc::{AllocError, Global};

// Whether the visit at a place has a stamp of at most `stamp`.
fn is_by(moments: &[Moment], place: usize, stamp: u64) -> bool
    ensures { result ≡ is_by stamp (slice_get moments.now place) }
{
    match moments.get(place) {
        Some(moment) => moment.stamp <= stamp,
        None => false,
    }
}

// The kept entries of those visits of a lane whose stamps are at most `stamp`.
fn list_to<T: Copy + Drop>(
    alloc: Global,
    stamp: u64,
    kept: &[T],
    moments: &[Moment],
) -> Result<Vec<T>, AllocError>
    ensures { IfOk result (λ cut. cut.items ≡ list_to stamp moments.now kept.now) }
{
    let mut cut = Vec::new(alloc);
    for (place, one) in kept.iter().enumerate() {
        if is_by(moments, place, stamp) {
            cut.push(*one)?;
        }
    }
    Ok(cut)
}

// For each CPU, the kept entries of those visits whose stamps are at most `stamp`.
fn cpus_to(
    alloc: Global,
    stamp: u64,
    kept: &Lists,
    moments: &Moments,
) -> Result<Vec<Vec<KeptCpu>>, AllocError>
    ensures { (book : Book) → KeepsVisits book kept.now moments.now →
        IfOk result (λ cut. cpu_lists cut.items ≡ map entries_of (map (visits_to stamp) book.cpus)) }
{
    let mut cpus = Vec::new(alloc);
    for (cpu, lane) in kept.cpus.iter().enumerate() {
        cpus.push(list_to(alloc, stamp, lane, moments.of_cpu(cpu))?)?;
    }
    Ok(cpus)
}

/// The kept entries of a book's base and CPUs up to a stamp. The pool's entries are left out, since the pool holds no
/// key.
///
/// # Errors
///
/// `AllocError` if there is no memory for them.
pub fn kept_to(
    alloc: Global,
    stamp: u64,
    kept: &Lists,
    moments: &Moments,
) -> Result<Lists, AllocError>
    ensures pool { IfOk result (λ cut. cut.pool.items ≡ []) }
    ensures base { (book : Book) → KeepsVisits book kept.now moments.now →
        IfOk result (λ cut. base_entries cut.base.items ≡ entries_of (visits_to stamp book.base)) }
    ensures cpus { (book : Book) → KeepsVisits book kept.now moments.now →
        IfOk result (λ cut. cpu_lists cut.cpus.items ≡ map entries_of (map (visits_to stamp) book.cpus)) }
{
    let base = list_to(alloc, stamp, &kept.base, &moments.base)?;
    let cpus = cpus_to(alloc, stamp, kept, moments)?;
    Ok(Lists {
        pool: Vec::new(alloc),
        base,
        cpus,
    })
}
