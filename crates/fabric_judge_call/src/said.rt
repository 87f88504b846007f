//! What the words after that of a command say.

ghost use Rattle.std.specs.Prelude.{◌≡◌, MatchOption, None, Some, codes, drop};
ghost use Rattle.fabric_judge_call.specs.Said.{is_lone, is_standard, number_named, option_named, replies_named, rest_of, traffic_named};
ghost use Rattle.fabric_judge_call.specs.Arguments.{AreSaid};
ghost use Rattle.fabric_judge_call.specs.declared.said.Said.{Said};
ghost use Rattle.fabric_judge_call.specs.Steps.{after_word, is_ended, nothing_said, with_file, with_value, with_word};

use common_lines::word::{is, number_between};
use common_values::text::Word;
use fabric_model::traffic::Traffic;

/// The most words that are no options: four files, and a traffic.
pub const MOST_FILES: usize = 5;

/// An option.
#[derive(Clone, Copy)]
pub enum Name {
    /// Which routes are judged.
    Traffic,
    /// Whether a reply has the service level of its request.
    Replies,
    /// The service level of a pair that has none.
    Silent,
}

/// What the next word may be.
#[derive(Clone, Copy)]
pub enum Part {
    /// An option or a file.
    Any,
    /// The value of this option.
    Of(Name),
    /// A file: `--` stands before it.
    Files,
}

/// What words say.
#[derive(Clone, Copy)]
pub struct Said {
    /// What the next word may be.
    pub part: Part,
    /// The value of `--traffic`, if it was said.
    pub traffic: Option<Traffic>,
    /// The value of `--replies`.
    pub replies: Option<bool>,
    /// The value of `--silent`.
    pub silent: Option<u8>,
    /// The places of the words that are no options, the first one first; 0 for those that were not said.
    pub files: [usize; MOST_FILES],
    /// How many there are.
    pub count: usize,
    /// Whether one of them stands after `--`.
    pub late: bool,
    /// Whether one of them is standard input.
    pub standard: bool,
}

// What no words say.
fn nothing() -> Said
    ensures { result ≡ nothing_said }
{
    Said {
        part: Part::Any,
        traffic: None,
        replies: None,
        silent: None,
        files: [0; MOST_FILES],
        count: 0,
        late: false,
        standard: false,
    }
}

/// Whether a word names standard input: it is `-`.
pub fn is_standard(word: &[u8]) -> bool
    ensures { result ≡ is_standard word.now }
{
    is(word, "-")
}

// The option that a word is.
fn option_named(word: &[u8]) -> Option<Name>
    ensures { result ≡ option_named word.now }
{
    if is(word, "-t") || is(word, "--traffic") {
        return Some(Name::Traffic);
    }
    if is(word, "--replies") {
        return Some(Name::Replies);
    }
    if is(word, "--silent") {
        return Some(Name::Silent);
    }
    None
}

// What stands in a word after this front.
fn rest_of<'a>(word: &'a [u8], front: &[u8]) -> Option<&'a [u8]>
    ensures { MatchOption result (rest_of front.now word.now ≡ None)
        (λ rest. rest_of front.now word.now ≡ Some rest.now) }
{
    word.strip_prefix(front)
}

/// The traffic that a word names.
pub fn traffic_named(word: &[u8]) -> Option<Traffic>
    ensures { result ≡ traffic_named word.now }
{
    if is(word, "hosts") {
        return Some(Traffic::Hosts);
    }
    if is(word, "lids") {
        return Some(Traffic::Lids);
    }
    if is(word, "managed") {
        return Some(Traffic::Managed);
    }
    if is(word, "all") {
        return Some(Traffic::All);
    }
    if is(word, "rows") {
        return Some(Traffic::Rows);
    }
    None
}

// Whether replies count.
fn replies_named(word: &[u8]) -> Option<bool>
    ensures { result ≡ replies_named word.now }
{
    if is(word, "yes") {
        return Some(true);
    }
    if is(word, "no") {
        return Some(false);
    }
    None
}

// The number that a word says.
fn number_named(word: &[u8]) -> Option<u8>
    ensures { result ≡ number_named word.now }
{
    match number_between(word, 0, 255) {
        Some(number) => Some(number as u8),
        None => None,
    }
}

// What is said with the value of an option.
fn with_value(said: Said, name: Name, value: &[u8]) -> Option<Said>
    ensures { result ≡ with_value said name value.now }
{
    let mut more = said;
    more.part = Part::Any;
    match name {
        Name::Traffic => match (said.traffic, traffic_named(value)) {
            (None, Some(traffic)) => more.traffic = Some(traffic),
            _ => return None,
        },
        Name::Replies => match (said.replies, replies_named(value)) {
            (None, Some(replies)) => more.replies = Some(replies),
            _ => return None,
        },
        Name::Silent => match (said.silent, number_named(value)) {
            (None, Some(level)) => more.silent = Some(level),
            _ => return None,
        },
    }
    Some(more)
}

// What is said with a file.
fn with_file(said: Said, place: usize, word: &[u8]) -> Option<Said>
    ensures { result ≡ with_file said place word.now }
{
    let standard = is_standard(word);
    if said.count >= MOST_FILES || (said.standard && standard) {
        return None;
    }
    let mut more = said;
    more.files[said.count] = place;
    more.count = said.count + 1;
    more.standard = said.standard || standard;
    Some(more)
}

// Whether a word may be a file.
fn is_lone(word: &[u8]) -> bool
    ensures { result ≡ is_lone (rest_of (codes "-") word.now) }
{
    match rest_of(word, b"-") {
        None => true,
        Some(rest) => rest.len() == 0,
    }
}

// What is said with a word that may be an option, or a file.
fn with_word(said: Said, place: usize, word: &[u8]) -> Option<Said>
    ensures { result ≡ with_word said place word.now (option_named word.now) }
{
    if let Some(name) = option_named(word) {
        let mut more = said;
        more.part = Part::Of(name);
        return Some(more);
    }
    if let Some(value) = rest_of(word, b"--traffic=") {
        return with_value(said, Name::Traffic, value);
    }
    if let Some(value) = rest_of(word, b"--replies=") {
        return with_value(said, Name::Replies, value);
    }
    if let Some(value) = rest_of(word, b"--silent=") {
        return with_value(said, Name::Silent, value);
    }
    if is_lone(word) {
        return with_file(said, place, word);
    }
    None
}

// What is said with a word after all others.
fn after_word(said: Said, place: usize, word: &[u8]) -> Option<Said>
    ensures { result ≡ after_word said.part said place word.now }
{
    let mut more = said;
    match said.part {
        Part::Files => {
            more.late = true;
            with_file(more, place, word)
        }
        Part::Of(name) => with_value(said, name, word),
        Part::Any => {
            if is(word, "--") {
                more.part = Part::Files;
                return Some(more);
            }
            with_word(said, place, word)
        }
    }
}

// Whether no option lacks its value.
fn is_ended(part: Part) -> bool
    ensures { result ≡ is_ended part }
{
    match part {
        Part::Any => true,
        Part::Files => true,
        Part::Of(_) => false,
    }
}

/// What words say after the first, which is that of a command; none if they are not options with their values, and files,
/// if an option is said twice, or if there are more than five files, or two that are standard input.
pub fn said_by(words: &[Word]) -> Option<Said>
    ensures { MatchOption result ((said : Said) → ¬ AreSaid (drop 1 words.now) said) (AreSaid (drop 1 words.now)) }
{
    let mut said = nothing();
    'words: for place in 1..words.len() {
        said = after_word(said, place, words[place].as_bytes())?;
    }
    if is_ended(said.part) {
        Some(said)
    } else {
        None
    }
}
