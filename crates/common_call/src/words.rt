//! The arguments of a call.

use common_values::memory::OutOfMemory;
use common_values::text::Word;
use std::env;
use std::io::ErrorKind;
use std::rt::Env;

/// Returns the arguments, or none at all if they are not valid UTF-8.
///
/// # Errors
/// `OutOfMemory` if an allocation fails.
pub fn words_of_call<R: Env + AllocGlobal>(rt: &R) -> Result<Vec<Word>, OutOfMemory> {
    let mut words = Vec::new(rt.alloc());
    let mut args = match env::args(rt) {
        Ok(args) => args,
        Err(error) if error.kind() == ErrorKind::OutOfMemory => return Err(OutOfMemory),
        Err(_error) => return Ok(words),
    };
    let _program = args.next();
    for arg in args {
        words.push(Word::of(rt.alloc(), arg.as_bytes())?)?;
    }
    Ok(words)
}
