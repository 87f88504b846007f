//! The reader of journals.

ghost use Rattle.std.specs.Prelude.{◌≡◌, ◌≢◌, ◌<◌, ◌≤◌, ◌-◌, ◌^◌, ◌++◌, [], List, ℕ, length, map, if◌then◌else◌, All, IfOk, IfErr, IfSome, IfNone, OnErr, OnOk};
ghost use Rattle.an_base.specs.declared.event.Event.{Event};
ghost use Rattle.net_script.specs.Scripts.{ScriptOf};
ghost use Rattle.common_lines.specs.Lines.{line_text};
ghost use Rattle.common_lines.specs.declared.stop.Stop.TheVariants.{Fault};
ghost use Rattle.journal_cause.specs.declared.cause.JournalCause.TheVariants.{UnknownWord};
ghost use Rattle.journal.specs.declared.line.TheConstants.{MOST_LINE};
ghost use Rattle.journal.specs.Words.{words_of, is_shaped};
ghost use Rattle.journal.specs.Events.{first_words};
ghost use Rattle.journal.specs.Texts.{IsJournal};
ghost use Rattle.journal.specs.Steps.{ReadsLine, IsRefusal};
ghost use Rattle.journal.specs.Reading.{BeginsJournal, HasRead, IsNext};

use crate::line::{MOST_LINE, are_line_bytes, first_line, have_bytes, set_words};
use crate::words::read_words;
use an_base::event::{Event, Journal};
use common_lines::stop::{Refusal, Stop};
use journal_cause::cause::JournalCause;
use net_script::script::Script;
use std::alloc::Global;
use std::marker::Model;

/// The reason why bytes were not read, or a journal was rejected.
///
/// It is the number, from 1, of the first line with an error and that error; or out of memory, which says
/// nothing about the bytes.
pub type JournalRefusal = Refusal<JournalCause>;

/// The reason why a line was not read.
pub type JournalStop = Stop<JournalCause>;

/// A reader of the events of a journal, one by one. It keeps no events.
///
/// By design, not proved, it allocates only for the words of one line.
#[derive(Drop)]
pub struct Reader<'a> {
    script: &'a Script,
    rest: &'a [u8],
    line: u32,
    // The words of the line that was read last, whose memory those of the next take.
    words: Vec<&'a [u8]>,
}

impl<'a> Model for Reader<'a> {
    ghost use Rattle.std.specs.Prelude.{◌+◌, ◌<◌, ◌^◌, length};
    ghost use Rattle.journal.specs.Reading.{ReaderOf};

    ghost Value = { ReaderOf };

    ghost view = { λ r. record { script = r.script.now; rest = r.rest.now; line = r.line } };

    ghost invariant = { λ r. r.line + length r.rest.now < 2 ^ 32 };
}

impl<'a> Reader<'a> {
    /// Creates a reader of `bytes`, and reads the first line. The caller must pass fewer than 2^32 - 1 bytes.
    ///
    /// # Errors
    /// The first error in `bytes`, or `OutOfMemory`, which says nothing about `bytes`.
    pub fn begin(alloc: Global, script: &'a Script, bytes: &'a [u8]) -> Result<Self, JournalRefusal>
        requires few { length bytes.now < 2 ^ 32 - 1 }
        ensures begun { IfOk result (HasRead script.now bytes.now []) }
        ensures fault { IfErr result (IsRefusal script.now bytes.now) }
    {
        if bytes.is_empty() {
            return Err(Refusal::Fault {
                line: 1,
                cause: JournalCause::NoEnd,
            });
        }
        let Some(rest) = after_header(bytes) else {
            return Err(Refusal::Fault {
                line: 1,
                cause: JournalCause::BadHeader,
            });
        };
        Ok(Reader {
            script,
            rest,
            line: 2,
            words: Vec::new(alloc),
        })
    }

    /// Returns the next event, or `None` if the line is `end`. It ignores all bytes after that line.
    ///
    /// # Errors
    /// The first error in the bytes of the reader, or `OutOfMemory`. The reader is then unchanged.
    pub fn next(&mut self) -> Result<Option<Event>, JournalRefusal>
        ensures next { (script : ScriptOf) (bytes : List ℕ) (events : List Event) →
            HasRead script bytes events self.old → IfOk result (IsNext script bytes events self.new) }
        ensures less { IfOk result (λ next.
            IfSome next (λ _. length self.new.rest < length self.old.rest)) }
        ensures fault { (script : ScriptOf) (bytes : List ℕ) (events : List Event) →
            HasRead script bytes events self.old → IfErr result (IsRefusal script bytes) }
        ensures unchanged { OnErr result (self.new ≡ self.old) }
    {
        let Some((first, after)) = first_line(self.rest) else {
            return Err(self.unended());
        };
        if first == b"end".as_slice() {
            return Ok(None);
        }
        match read_line(&mut self.words, self.script, first) {
            Ok(event) => {
                self.line += 1;
                self.rest = after;
                Ok(Some(event))
            }
            Err(stop) => Err(stop.at(self.line)),
        }
    }

    // Why a text without another line feed is rejected.
    fn unended(&self) -> JournalRefusal
        requires { All (λ c. c ≢ 10) self.now.rest }
        ensures { (script : ScriptOf) (bytes : List ℕ) (events : List Event) →
            HasRead script bytes events self.now → IsRefusal script bytes result }
    {
        let cause = if self.rest.is_empty() {
            JournalCause::NoEnd
        } else {
            JournalCause::UnknownWord
        };
        Refusal::Fault {
            line: self.line,
            cause,
        }
    }

    /// Checks the rest of the journal up to the line `end`, and keeps nothing.
    ///
    /// # Errors
    /// The first error in the bytes of the reader, or `OutOfMemory`, which says nothing about them.
    pub fn check_rest(&mut self) -> Result<(), JournalRefusal>
        ensures journal { (script : ScriptOf) (bytes : List ℕ) (events : List Event) →
            HasRead script bytes events self.old → OnOk result (BeginsJournal script bytes events) }
        ensures fault { (script : ScriptOf) (bytes : List ℕ) (events : List Event) →
            HasRead script bytes events self.old → IfErr result (IsRefusal script bytes) }
    {
        'lines: while let Some(_) = self.next()? {}
        Ok(())
    }
}

// The bytes after the first line.
fn after_header(bytes: &[u8]) -> Option<&[u8]>
    ensures some { IfSome result (λ rest. bytes.now ≡ line_text first_words ++ rest.now) }
    ensures none { IfNone result ((rest : List ℕ) → bytes.now ≢ line_text first_words ++ rest) }
{
    bytes.strip_prefix(b"journal 1\n".as_slice())
}

/// Parses the text of a journal. It ignores all bytes after the line `end`.
///
/// By design, not proved, the time is linear in the bytes, except for looking up names, and it allocates only for
/// the events and the words of one line. The caller must pass fewer than 2^32 - 1 bytes.
///
/// # Errors
/// The first error in `bytes`, or `OutOfMemory`, which says nothing about `bytes`.
pub fn read(alloc: Global, script: &Script, bytes: &[u8]) -> Result<Journal, JournalRefusal>
    requires few { length bytes.now < 2 ^ 32 - 1 }
    ensures journal { IfOk result (IsJournal script.now bytes.now) }
    ensures fault { IfErr result (IsRefusal script.now bytes.now) }
{
    let mut reader = Reader::begin(alloc, script, bytes)?;
    let mut journal = Journal::new(alloc);
    'events: while let Some(event) = reader.next()? {
        journal.push(event)?;
    }
    Ok(journal)
}

// The event that a line says. Its words take the place of those before.
fn read_line<'a>(
    words: &mut Vec<&'a [u8]>,
    script: &Script,
    line: &'a [u8],
) -> Result<Event, JournalStop>
    ensures { ReadsLine script.now line.now result }
{
    if line.len() > MOST_LINE {
        return Err(Stop::Fault(JournalCause::UnknownWord));
    }
    set_words(words, line)?;
    match read_words(script, words) {
        Ok(event) => Ok(event),
        Err(cause) => Err(Stop::Fault(wrong_line(line, words, cause))),
    }
}

// The error of a line of at most 200 bytes whose words are not those of an event, given the error of its words. The
// bytes of an event's line need no check: its words are names, numbers and fixed words.
fn wrong_line(line: &[u8], words: &[&[u8]], cause: JournalCause) -> JournalCause
    requires short { length line.now ≤ MOST_LINE }
    requires words { map (λ w. w.now) words.now ≡ words_of line.now }
    ensures { result ≡ (if is_shaped line.now then cause else UnknownWord) }
{
    if are_line_bytes(line) && have_bytes(words) {
        return cause;
    }
    JournalCause::UnknownWord
}
