//! The arguments of a call.

ghost use Rattle.std.specs.Prelude.{◌≡◌, ◌↔◌, [], ◌∷◌, IsTrue};

use common_values::text::Word;

/// Reports whether the arguments are one argument, with these bytes.
pub fn is_word(words: &[Word], bytes: &[u8]) -> bool
    ensures { IsTrue result ↔ (words.now ≡ bytes.now ∷ []) }
{
    match words {
        [word] => word.as_bytes() == bytes,
        _ => false,
    }
}
