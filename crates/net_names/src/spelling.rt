//! Identifiers as text.

ghost use Rattle.std.specs.Prelude.{◌≡◌, IfOk};
ghost use Rattle.common_lines.specs.Words.{hex_text};

use common_lines::spelling::push_hex;
use common_values::memory::OutOfMemory;
use std::alloc::Global;

/// Returns the last twelve hexadecimal digits of `uid`.
///
/// # Errors
/// `OutOfMemory` if an allocation fails.
pub fn identifier(alloc: Global, uid: u64) -> Result<Vec<u8>, OutOfMemory>
    ensures { IfOk result (λ text. text.items ≡ hex_text 12 uid) }
{
    let mut text = Vec::new(alloc);
    push_hex(&mut text, 12, uid)?;
    Ok(text)
}
