//! The end of a call.

ghost use Rattle.std.specs.Prelude.{◌≢◌, [], OnErr, OnOk};
ghost use Rattle.std.specs.List.{flat_map};
ghost use Rattle.outside.specs.Told.{Failed, Gains, GainsFront};
ghost use Rattle.common_call.specs.Ended.{IsLineTold};

use outside::all::{WriteFault, write_all};
use outside::sink::Sink;

/// The exit status of a call whose line was not completely written.
pub const WRITE_FAULT: u8 = 5;

// Writes parts of a line, in order. If a write fails, a prefix of them has been written.
fn write_parts<E: Sink>(err: &mut E, parts: &[&[u8]]) -> Result<(), WriteFault>
    ensures all { OnOk result
        (Gains (E.seen err.old) (E.seen err.new) (flat_map (λ part. part.now) parts.now)) }
    ensures front { GainsFront (E.seen err.old) (E.seen err.new) (flat_map (λ part. part.now) parts.now) }
    ensures fault { OnErr result (Failed (E.seen err.old) (E.seen err.new)) }
    ensures some { OnErr result (flat_map (λ part. part.now) parts.now ≢ []) }
{
    'parts: for part in parts {
        if !part.is_empty() {
            write_all(err, part)?;
        }
    }
    Ok(())
}

/// Writes a call's last line, given in `parts`, to `err`, and returns `code`.
///
/// Returns `WRITE_FAULT` if `err` did not take the whole line. A call without a line passes no parts.
pub fn tell<E: Sink>(err: &mut E, code: u8, parts: &[&[u8]]) -> u8
    ensures { IsLineTold (E.seen err.old) (E.seen err.new) code (flat_map (λ part. part.now) parts.now) result }
{
    match write_parts(err, parts) {
        Ok(()) => code,
        Err(_fault) => WRITE_FAULT,
    }
}
