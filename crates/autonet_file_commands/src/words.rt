//! The arguments `flow B`.

ghost use Rattle.std.specs.Prelude.{◌≡◌, ◌≢◌, ℕ, List, [], ◌∷◌, MatchOption};
ghost use Rattle.autonet_file_commands.specs.Flow.{AreFlowWords};

use crate::room::Room;
use common_lines::word::number_between;
use common_values::text::Word;

// Returns the second of two arguments, if the first has these bytes.
fn word_after<'a>(words: &'a [Word], bytes: &[u8]) -> Option<&'a Word>
    ensures { MatchOption result ((word : List ℕ) → words.now ≢ bytes.now ∷ word ∷ [])
        (λ word. words.now ≡ bytes.now ∷ word.now ∷ []) }
{
    let [first, word] = words else {
        return None;
    };
    if first.as_bytes() == bytes {
        return Some(word);
    }
    None
}

/// Returns B, if the arguments are `flow B` with B from 1 to 16.
pub fn room_of(words: &[Word]) -> Option<Room>
    ensures { MatchOption result ((room : ℕ) → ¬ AreFlowWords words.now room)
        (λ room. AreFlowWords words.now room.packets) }
{
    let word = word_after(words, b"flow")?;
    let room = number_between(word.as_bytes(), 1, 16)?;
    Some(Room {
        packets: room as u16,
    })
}
