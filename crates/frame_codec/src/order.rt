//! The check of a topology's numbers, in one pass with a table of those seen.

ghost use Rattle.std.specs.Prelude.{◌≡◌};
ghost use Rattle.frame_codec.specs.Reading.{are_numbers};

/// Reports whether each number is 1 to 126, and none occurs twice.
pub fn are_numbers(numbers: &[u8]) -> bool
    ensures { result ≡ are_numbers numbers.now }
{
    // A slot for each number, 0 to 126.
    let mut seen = [false; 127];
    'numbers: for number in numbers {
        let number = *number;
        if number < 1 {
            return false;
        }
        if number > 126 {
            return false;
        }
        if seen[usize::from(number)] {
            return false;
        }
        seen[usize::from(number)] = true;
    }
    true
}
