//! Reads a source to its end, and writes all of some bytes, however few one call gives or takes.

ghost use Rattle.std.specs.Prelude.{◌+◌, ◌<◌, ◌≤◌, length, IfOk, OnOk, OnErr, IfErr};
ghost use Rattle.outside.specs.Told.{Gave, GaveAtMost, IsAtEnd, Gains, GainsFront, IsNoLess, Failed};
ghost use Rattle.outside.specs.Stops.{OnFault, IfOver};

use crate::sink::{Sink, Took};
use crate::source::{Got, Source};
use common_values::text::Bytes;
use std::alloc::Global;

/// The reason why `read_all` returns no bytes.
#[derive(Debug, Drop)]
pub enum ReadStop {
    /// A read failed, so the source's count of failures rose. The bytes read before are dropped.
    Fault,
    /// These first bytes of the source are more than the limit. The source can have more.
    Over(Bytes),
    /// An allocation failed. The bytes read before are dropped.
    OutOfMemory,
}

/// A write failed, so the sink's count of failures rose.
#[derive(Clone, Copy, Debug, PartialEq, Eq)]
pub struct WriteFault;

/// The number of bytes that one read asks for.
pub const PIECE: usize = 4096;

/// Reads `source` to its end, and returns its bytes: at most `limit` of them.
///
/// # Errors
/// `Fault` if a read fails, with at most `limit` bytes taken. `Over` if the source gave more than
/// `limit` bytes. `OutOfMemory` if an allocation fails. At most `PIECE` bytes more than `limit` are
/// taken from the source in every case.
#[tactic(auto, using(crate::proofs::ToldLemmas::with_front_none, crate::proofs::ToldLemmas::with_front_twice, crate::proofs::ToldLemmas::Rose_later))]
pub fn read_all<S: Source>(alloc: Global, source: &mut S, limit: usize) -> Result<Vec<u8>, ReadStop>
    ensures all { IfOk result (λ v. Gave (S.seen source.old) (S.seen source.new) v.items) }
    ensures end { OnOk result (IsAtEnd (S.seen source.new)) }
    ensures within { IfOk result (λ v. length v.items ≤ limit) }
    ensures over { IfErr result (IfOver (λ bytes. limit < length bytes)) }
    ensures over_all { IfErr result (IfOver (Gave (S.seen source.old) (S.seen source.new))) }
    ensures fault { IfErr result (OnFault (Failed (S.seen source.old) (S.seen source.new))) }
    ensures kept { IsNoLess (S.seen source.old) (S.seen source.new) }

    // It stops at a fault with the limit not passed, and else one piece later at most.
    ensures fault_within { IfErr result (OnFault (GaveAtMost (S.seen source.old) (S.seen source.new) limit)) }
    ensures taken { GaveAtMost (S.seen source.old) (S.seen source.new) (limit + PIECE) }
{
    let mut bytes = Vec::new(alloc);
    let mut piece = [0u8; PIECE];
    'turns: loop {
        match source.read(&mut piece) {
            Got::End => return Ok(bytes),
            Got::Failed => return Err(ReadStop::Fault),
            Got::Part(n) => {
                if bytes.extend_from_slice(&piece[..n]).is_err() {
                    return Err(ReadStop::OutOfMemory);
                }
                if bytes.len() > limit {
                    return Err(ReadStop::Over(Bytes::of(bytes)));
                }
            }
        }
    }
}

/// Writes all of `bytes`, in order.
///
/// # Errors
/// `WriteFault` if a write fails. A prefix of `bytes` has then been written.
#[tactic(auto, using(crate::proofs::ToldLemmas::with_back_none, crate::proofs::ToldLemmas::with_back_twice, crate::proofs::ToldLemmas::Rose_later))]
pub fn write_all<K: Sink>(sink: &mut K, bytes: &[u8]) -> Result<(), WriteFault>
    ensures all { OnOk result (Gains (K.seen sink.old) (K.seen sink.new) bytes.now) }
    ensures prefix { GainsFront (K.seen sink.old) (K.seen sink.new) bytes.now }
    ensures fault { OnErr result (Failed (K.seen sink.old) (K.seen sink.new)) }
    ensures kept { IsNoLess (K.seen sink.old) (K.seen sink.new) }
{
    let mut done = 0;
    'turns: while done < bytes.len() {
        match sink.write(&bytes[done..]) {
            Took::Part(n) => done += n,
            Took::Failed => return Err(WriteFault),
        }
    }
    Ok(())
}
