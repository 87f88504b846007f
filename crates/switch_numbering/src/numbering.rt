//! Free numbers are found from all entries first, so that no life gets a number that only a higher life proposes.

ghost use Rattle.std.specs.Prelude.{◌≡◌, IfOk};
ghost use Rattle.switch_numbering.specs.Numbering.{is_proposed, free, proposals, numbering};

use an_base::entry::{Entries, Entry};
use an_base::limits::MOST_NUMBER;
use an_base::numbers::Numbers;
use common_values::memory::OutOfMemory;
use std::alloc::{AllocError, Global};

// Whether one of the entries proposes this number.
fn is_proposed_by(entries: &[Entry], number: u8) -> bool
    ensures { result ≡ is_proposed (proposals entries.now) number }
{
    'entries: for entry in entries {
        if entry.proposed == number {
            return true;
        }
    }
    false
}

// The numbers that nobody proposes, rising.
fn free_numbers(alloc: Global, entries: &[Entry]) -> Result<Vec<u8>, AllocError>
    ensures { IfOk result (λ numbers. numbers.items ≡ free (proposals entries.now)) }
{
    let mut free = Vec::new(alloc);
    'numbers: for below in 0..MOST_NUMBER {
        let number = below + 1;
        if !is_proposed_by(entries, number) {
            free.push(number)?;
        }
    }
    Ok(free)
}

/// Returns the numbers of `entries`, in the same order.
///
/// Of the lives that propose a number, the lowest gets it. The others get, in ascending order of life,
/// the lowest numbers that nobody proposed.
///
/// # Errors
/// `OutOfMemory` if an allocation fails.
pub fn number(alloc: Global, entries: &Entries) -> Result<Numbers, OutOfMemory>
    ensures { IfOk result (λ numbers. numbers ≡ numbering entries.now) }
{
    let entries = entries.as_slice();
    let free = free_numbers(alloc, entries)?;
    let mut numbers = Vec::with_capacity(alloc, entries.len())?;
    let mut others = 0usize;
    'entries: for (i, entry) in entries.iter().enumerate() {
        if is_proposed_by(&entries[..i], entry.proposed) {
            numbers.push(free[others])?;
            others += 1;
        } else {
            numbers.push(entry.proposed)?;
        }
    }
    Ok(Numbers::new(numbers))
}
