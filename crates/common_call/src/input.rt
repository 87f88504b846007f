//! Input that is read whole.

ghost use Rattle.std.specs.Prelude.{◌≡◌, ◌<◌, ◌≤◌, ◌+◌, ◌-◌, ◌^◌, ◌==◌, length, take, count_by, IfOk, IfErr};
ghost use Rattle.common_call.specs.Inputs.{IsInput, IsUnread};

use common_lines::line::line_of;
use common_values::text::Bytes;
use outside::all::{ReadStop, read_all};
use outside::source::Source;
use std::alloc::Global;

/// The reason why an input was not read.
#[derive(Clone, Copy)]
pub enum Unread {
    /// The source failed.
    Fault,
    /// The source has more bytes than the limit.
    TooLong {
        /// The number, from 1, of the line with the first byte over the limit.
        line: u32,
    },
    /// An allocation failed.
    OutOfMemory,
}

// The line of the first byte over the limit.
fn line_over(bytes: &Bytes, limit: usize) -> u32
    requires over { limit < length bytes.now }
    requires small { limit < 2 ^ 32 - 1 }
    ensures { result ≡ 1 + count_by (λ byte. byte == 10) (take limit bytes.now) }
{
    let line = line_of(bytes.as_slice(), limit);
    line as u32
}

/// Reads `source` to its end, and returns its bytes, at most `limit`. The caller must pass a `limit` below 2^32 - 1.
///
/// # Errors
/// `Fault` if a read failed, with at most `limit` bytes read. `TooLong` if there are more than `limit` bytes.
/// `OutOfMemory` if an allocation failed. After the last two, at most one piece more than `limit` was read.
pub fn read_input<S: Source>(alloc: Global, source: &mut S, limit: usize) -> Result<Vec<u8>, Unread>
    requires { limit < 2 ^ 32 - 1 }
    ensures found { IfOk result (λ bytes. IsInput limit (λ input. input ≡ bytes.items)
        (S.seen source.old) (S.seen source.new)) }
    ensures few { IfOk result (λ bytes. length bytes.items ≤ limit) }
    ensures unread { IfErr result (IsUnread limit (S.seen source.old) (S.seen source.new)) }
{
    match read_all(alloc, source, limit) {
        Ok(bytes) => Ok(bytes),
        Err(ReadStop::Fault) => Err(Unread::Fault),
        Err(ReadStop::Over(bytes)) => Err(Unread::TooLong {
            line: line_over(&bytes, limit),
        }),
        Err(ReadStop::OutOfMemory) => Err(Unread::OutOfMemory),
    }
}
