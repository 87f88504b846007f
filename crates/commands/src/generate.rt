//! The command `gen`: a random network from a seed, with a summary of its run.

ghost use Rattle.std.specs.Prelude.{◌≡◌, ◌≢◌, ◌≤◌, ◌++◌, ℕ, List, [], ◌∷◌, IfOk, IfSome, MatchOption, OnOk};
ghost use Rattle.net_gen.specs.Summary.{IsComment, IsSummary};
ghost use Rattle.net_script.specs.Texts.{IsText};
ghost use Rattle.script_text.specs.Canonical.{canonical_text};
ghost use Rattle.commands.specs.Gen.{AreGenWords, IsGenAnswerOn, IsGenCause, IsGenerated};

use autonet_call::status::{Status, finish};
use common_lines::word::number_between;
use common_values::memory::OutOfMemory;
use common_values::text::Word;
use net_gen::script::script_of;
use net_gen::summary::summary;
use net_script::script::Script;
use outside::all::write_all;
use outside::sink::Sink;
use script_text::printer::print;
use std::alloc::Global;

// Returns the second and the third of three arguments, if the first has these bytes.
fn words_behind<'a>(words: &'a [Word], bytes: &[u8]) -> Option<(&'a Word, &'a Word)>
    ensures { MatchOption result
        ((second third : List ℕ) → words.now ≢ bytes.now ∷ second ∷ third ∷ [])
        (λ behind. words.now ≡ bytes.now ∷ behind.0.now ∷ behind.1.now ∷ []) }
{
    let [first, second, third] = words else {
        return None;
    };
    if first.as_bytes() == bytes {
        return Some((second, third));
    }
    None
}

// Returns the seed and the number of switches, if the arguments are `gen SEED N` with N from 1 to 100.
pub(crate) fn gen_words(words: &[Word]) -> Option<(u64, u8)>
    ensures words { MatchOption result ((seed count : ℕ) → ¬ AreGenWords words.now seed count)
        (λ numbers. AreGenWords words.now numbers.0 numbers.1) }
    ensures least { IfSome result (λ numbers. 1 ≤ numbers.1) }
    ensures most { IfSome result (λ numbers. numbers.1 ≤ 100) }
{
    let (seed, count) = words_behind(words, b"gen")?;
    let seed = number_between(seed.as_bytes(), 0, u64::MAX)?;
    let count = number_between(count.as_bytes(), 1, 100)?;
    Some((seed, count as u8))
}

// Appends the line about how the run of a script on one thread ends.
fn push_summary(alloc: Global, text: &mut Vec<u8>, script: &Script) -> Result<(), OutOfMemory>
    ensures { OnOk result ((line : List ℕ) × IsSummary script.now line × IsComment line
        × (text.new.items ≡ text.old.items ++ line)) }
{
    let line = summary(alloc, script)?;
    text.extend_from_slice(&line)?;
    Ok(())
}

// Returns the text of a script, and the line about how its run on one thread ends.
fn summed(alloc: Global, script: &Script) -> Result<Vec<u8>, OutOfMemory>
    ensures { IfOk result (λ text. (line : List ℕ) × IsSummary script.now line × IsText text.items script.now
        × (text.items ≡ canonical_text script.now ++ line)) }
{
    let mut text = print(alloc, script)?;
    push_summary(alloc, &mut text, script)?;
    Ok(text)
}

// Returns the text of the script of a seed, and the line about how its run on one thread ends.
fn generated(alloc: Global, seed: u64, count: u8) -> Result<Vec<u8>, OutOfMemory>
    requires least { 1 ≤ count }
    requires most { count ≤ 100 }
    ensures { IfOk result (λ text. IsGenerated seed count text.items) }
{
    let script = script_of(alloc, seed, count)?;
    summed(alloc, &script)
}

// Writes both to `out`, and returns the status, or why they could not be made.
fn status_of<O: Sink>(alloc: Global, seed: u64, count: u8, out: &mut O) -> Status
    requires least { 1 ≤ count }
    requires most { count ≤ 100 }
    ensures { IsGenCause seed count (O.seen out.old) (O.seen out.new) result }
{
    match generated(alloc, seed, count) {
        Ok(text) => match write_all(out, &text) {
            Ok(()) => Status::Ok,
            Err(_fault) => Status::WriteFault,
        },
        Err(OutOfMemory) => Status::OutOfMemory,
    }
}

/// Runs `gen SEED N`: writes to `out` the script that is made from `seed` with `count` switches (1 to 100), and
/// after it one line about how its run on one thread ends. Returns the number of a status, whose line goes to
/// `err`. If memory runs out, `out` is unchanged.
pub fn autonet_gen<O: Sink, E: Sink>(
    alloc: Global,
    seed: u64,
    count: u8,
    out: &mut O,
    err: &mut E,
) -> u8
    requires least { 1 ≤ count }
    requires most { count ≤ 100 }
    ensures { IsGenAnswerOn seed count (O.seen out.old) (O.seen out.new) (E.seen err.old) (E.seen err.new)
        result }
{
    let status = status_of(alloc, seed, count, out);
    finish(err, status)
}
