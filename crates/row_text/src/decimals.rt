//! The numbers below 256 in decimal, made once.

ghost use Rattle.std.specs.Prelude.{◌≡◌, ◌+◌, ◌≤◌, ◌++◌, IfOk, OnOk, vec_len, vec_capacity};
ghost use Rattle.std.specs.Fmt.{decimal};
ghost use Rattle.row_text.specs.Decimals.{AreDecimals};

use crate::piece::push_bytes;
use common_values::text::{Word, push_decimal};
use std::alloc::{AllocError, Global};

// A number in decimal.
fn word_of(alloc: Global, n: u16) -> Result<Word, AllocError>
    ensures { IfOk result (λ word. word ≡ decimal n) }
{
    let mut word = Vec::new(alloc);
    push_decimal(alloc, &mut word, u64::from(n))?;
    Ok(Word::new(word))
}

// The numbers below 256 in decimal.
fn words_of(alloc: Global) -> Result<Vec<Word>, AllocError>
    ensures { IfOk result (λ words. AreDecimals 256 words.items) }
{
    let mut words = Vec::with_capacity(alloc, 256)?;
    'numbers: for n in 0..256u16 {
        words.push(word_of(alloc, n)?)?;
    }
    Ok(words)
}

/// The numbers below 256 in decimal, made once because a text has many of them.
#[derive(Drop)]
pub struct Decimals {
    words: Vec<Word>,
    ghost decimals: { AreDecimals 256 words.items },
}

impl Decimals {
    /// Makes the numbers below 256 in decimal.
    ///
    /// # Errors
    /// `AllocError` if an allocation fails.
    pub fn new(alloc: Global) -> Result<Self, AllocError>
        ensures { IfOk result (λ decimals. AreDecimals 256 decimals.words.items) }
    {
        Ok(Decimals {
            words: words_of(alloc)?,
        })
    }

    // A number in decimal.
    fn word(&self, n: u8) -> &[u8]
        ensures { result.now ≡ decimal n }
    {
        self.words[usize::from(n)].as_bytes()
    }

    /// Appends `n` in decimal to `text`.
    ///
    /// # Errors
    /// `AllocError` if the allocation fails; `text` is then unspecified.
    pub fn push(&self, text: &mut Vec<u8>, n: u8) -> Result<(), AllocError>
        ensures { OnOk result (text.new.items ≡ text.old.items ++ decimal n) }
    {
        text.reserve(3)?;
        self.push_reserved(text, n);
        Ok(())
    }

    /// Appends `n` in decimal to `text`, without allocating.
    ///
    /// The caller must have reserved three bytes, the most digits that `n` has.
    pub fn push_reserved(&self, text: &mut Vec<u8>, n: u8)
        requires { vec_len text.old + 3 ≤ vec_capacity text.old }
        ensures text { text.new.items ≡ text.old.items ++ decimal n }
        ensures len { vec_len text.new ≤ vec_len text.old + 3 }
        ensures capacity { vec_capacity text.new ≡ vec_capacity text.old }
    {
        push_bytes(text, self.word(n));
    }
}
