//! Reads a whole input from a source that gives little at a time, and puts a whole piece to a sink that takes little at
//! a time.
ghost use Rattle.std.specs.Prelude.{◌≡◌, ◌+◌, ◌-◌, ◌^◌, ◌<◌, ◌≤◌, take, vec_len, IfOk, IfSome, OnOk, OnErr, IsErrOf};
ghost use Rattle.std.specs.Io.KnownBytes.{Appends, Consumes, IsAtEnd};
ghost use Rattle.io_edges.specs.declared.whole.ReadError.TheVariants.{Fault, NoMemory as Refused};
ghost use Rattle.io_edges.specs.Faults.{Rose};
ghost use Rattle.io_edges.specs.Pieces.{AppendsPrefix, ConsumesUpTo};

use crate::{Failed, NoMemory, Sink, Source};
use std::alloc::Global;

/// The most bytes that one call asks of a source.
const PIECE: usize = 64 * 1024;

/// The reason why an input was not read.
#[derive(Clone, Copy, Debug, PartialEq, Eq)]
pub enum ReadError {
    /// The source failed.
    Fault,
    /// Memory for the bytes ran out.
    NoMemory,
}

impl From<Failed> for ReadError {
    ghost from_gives = { λ _ e. e ≡ Fault };

    fn from(_: Failed) -> Self {
        ReadError::Fault
    }
}

impl From<NoMemory> for ReadError {
    ghost from_gives = { λ _ e. e ≡ Refused };

    fn from(_: NoMemory) -> Self {
        ReadError::NoMemory
    }
}

/// Reads an input to its end, but at most `limit + 1` bytes of it. A result of `limit + 1` bytes means that the
/// input is longer than the limit; its rest stays in the source.
///
/// # Errors
///
/// `Fault` if the source failed and counted a fault. `NoMemory` if memory for the bytes ran out; the source did not
/// fail. Either way the bytes taken so far are lost.
#[tactic(auto, using(crate::proofs::Pieces::ConsumesUpTo_kept))]
pub fn read_to_limit<S: Source>(
    alloc: Global,
    source: &mut S,
    limit: usize,
) -> Result<Vec<u8>, ReadError>
    requires { limit < 2 ^ 64 - 1 }
    ensures bytes { IfOk result (λ bytes. IfSome (S.left source.old) (λ xs. bytes.items ≡ take (limit + 1) xs)) }
    ensures taken { IfOk result (λ bytes. Consumes (S.left source.old) (S.left source.new) bytes.items) }
    ensures end { IfOk result (λ bytes. vec_len bytes ≤ limit → IsAtEnd (S.left source.new)) }
    ensures bound { IfOk result (λ bytes. vec_len bytes ≤ limit + 1) }
    ensures front { ConsumesUpTo (limit + 1) (S.left source.old) (S.left source.new) }
    ensures cause { IsErrOf result ReadError.Fault → Rose (S.faults source.old) (S.faults source.new) }
    ensures no_memory { IsErrOf result ReadError.NoMemory → S.faults source.new ≡ S.faults source.old }
    ensures not_counted { OnOk result (S.faults source.new ≡ S.faults source.old) }
{
    let mut bytes = Vec::new(alloc);
    let mut piece = [0; PIECE];
    while bytes.len() <= limit {
        let most = PIECE.min(limit + 1 - bytes.len());
        let count = source.take(&mut piece[..most])?;
        if count == 0 {
            break;
        }
        bytes.extend_from_slice(&piece[..count])?;
    }
    Ok(bytes)
}

/// Puts all of a piece, and goes on after a short put. It allocates no memory.
///
/// # Errors
///
/// `Failed` if the sink failed and counted a fault. Then the sink got a prefix of the piece in this call.
// When inlined, a call is little more than a copy into a buffer.
#[inline(always)]
pub fn put_all<K: Sink>(sink: &mut K, piece: &[u8]) -> Result<(), Failed>
    ensures whole { OnOk result (Appends (K.held sink.old) (K.held sink.new) piece.now) }
    ensures prefix { AppendsPrefix (K.held sink.old) (K.held sink.new) piece.now }
    ensures cause { OnErr result (Rose (K.faults sink.old) (K.faults sink.new)) }
    ensures not_counted { OnOk result (K.faults sink.new ≡ K.faults sink.old) }
{
    let mut rest = piece;
    while !rest.is_empty() {
        let count = sink.put(rest)?;
        (_, rest) = rest.split_at(count);
    }
    Ok(())
}
