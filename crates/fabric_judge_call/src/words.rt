//! The words of a call of `fabric`.

ghost use Rattle.std.specs.Prelude.{◌≡◌, ◌≢◌, ◌<◌, ◌≤◌, ◌↔◌, IfSome, IsTrue, MatchOption, codes};
ghost use Rattle.fabric_judge_call.specs.Words.{AreNoCall, FitsCount, IsCall, IsFileOf, file_count, has_no_levels, is_level, may_say};
ghost use Rattle.fabric_judge_call.specs.Words.{settled, task_word, traffic_at, traffic_for};
ghost use Rattle.fabric_judge_call.specs.declared.words.Call.{Call};

use crate::said::{MOST_FILES, Said, said_by, traffic_named};
use common_values::text::Word;
use fabric_model::traffic::Traffic;

/// What a call asks of tables.
#[derive(Clone, Copy)]
pub enum Question {
    /// The verdict on them.
    Judge,
    /// The ranks of the channels, or the verdict if there is a credit loop.
    Ranks,
    /// Whether ranks fall.
    Verify,
    /// A picture of the credit loop.
    Dot,
}

/// What a call is to do.
#[derive(Clone, Copy)]
pub enum Task {
    /// To answer a question about tables.
    Answer(Question),
    /// To make tables.
    Route,
    /// To tell which rows of tables are to be set.
    Repair,
    /// To write tables in which they are set.
    Repaired,
    /// To judge tables with lanes and service levels.
    Lanes,
    /// To draw the credit loop of such tables.
    LanesDot,
    /// To judge what may be while old tables are replaced by new ones.
    Between,
}

/// A call.
#[derive(Clone, Copy)]
pub struct Call {
    /// What is to be done.
    pub task: Task,
    /// The traffic of which routes are judged, or made.
    pub traffic: Traffic,
    /// Whether a reply has the service level of its request.
    pub replies: bool,
    /// The service level of a pair that has none, if one is given.
    pub silent: Option<u8>,
    /// At which places among the words the files stand, as many as the task has.
    pub files: [usize; MOST_FILES],
}

// Whether a word is this text.
fn is(word: &Word, text: &str) -> bool
    ensures { IsTrue result ↔ (word.now ≡ text.now) }
{
    word.as_bytes() == text.as_bytes()
}

// The task of `dot` with so many words that are no options: with four files the tables have lanes.
fn task_of_dot(count: usize) -> Task
    ensures word { task_word result ≡ codes "dot" }
    ensures fits { FitsCount result count }
{
    if count < file_count(Task::LanesDot) {
        Task::Answer(Question::Dot)
    } else {
        Task::LanesDot
    }
}

// The task that a word names with so many words that are no options.
fn task_named(word: &Word, count: usize) -> Option<Task>
    ensures { MatchOption result ((task : Task) → word.now ≢ task_word task)
        (λ task. (word.now ≡ task_word task) × FitsCount task count) }
{
    if is(word, "judge") {
        return Some(Task::Answer(Question::Judge));
    }
    if is(word, "ranks") {
        return Some(Task::Answer(Question::Ranks));
    }
    if is(word, "verify") {
        return Some(Task::Answer(Question::Verify));
    }
    if is(word, "dot") {
        return Some(task_of_dot(count));
    }
    if is(word, "route") {
        return Some(Task::Route);
    }
    if is(word, "repair") {
        return Some(Task::Repair);
    }
    if is(word, "repaired") {
        return Some(Task::Repaired);
    }
    if is(word, "lanes") {
        return Some(Task::Lanes);
    }
    if is(word, "between") {
        return Some(Task::Between);
    }
    None
}

/// How many files a task has.
pub fn file_count(task: Task) -> usize
    ensures { result ≡ file_count task }
{
    match task {
        Task::Answer(Question::Judge) => 2,
        Task::Answer(Question::Ranks) => 2,
        Task::Answer(Question::Verify) => 3,
        Task::Answer(Question::Dot) => 2,
        Task::Route => 1,
        Task::Repair => 2,
        Task::Repaired => 2,
        Task::Lanes => 4,
        Task::LanesDot => 4,
        Task::Between => 3,
    }
}

// The traffic that the word at a place names.
fn traffic_at(words: &[Word], place: usize) -> Option<Traffic>
    ensures { result ≡ traffic_at words.now place }
{
    match words.get(place) {
        Some(word) => traffic_named(word.as_bytes()),
        None => None,
    }
}

// The traffic of a call with so many files.
fn traffic_for(words: &[Word], files: usize, said: Said) -> Option<Traffic>
    requires { files < 5 }
    ensures { result ≡ traffic_for words.now files said }
{
    if said.count == files {
        return Some(said.traffic.unwrap_or(Traffic::Hosts));
    }
    if said.count == files + 1 && !said.late && said.traffic.is_none() {
        return traffic_at(words, said.files[files]);
    }
    None
}

// Whether no option of service levels was said.
fn has_no_levels(said: Said) -> bool
    ensures { result ≡ has_no_levels said }
{
    said.replies.is_none() && said.silent.is_none()
}

// Whether a task has the options that were said.
fn may_say(task: Task, said: Said) -> bool
    ensures { result ≡ may_say task said }
{
    match task {
        Task::Lanes => true,
        Task::LanesDot => true,
        Task::Between => has_no_levels(said) && said.traffic.is_none() && said.count == 3,
        _ => has_no_levels(said),
    }
}

// Whether a service level is one of 0 to 15, if there is one.
fn is_level(silent: Option<u8>) -> bool
    ensures test { result ≡ is_level silent }
    ensures low { IsTrue result → IfSome silent (λ level. level < 16) }
{
    match silent {
        None => true,
        Some(level) => level < 16,
    }
}

// The call of a task by what is said, if it is one.
fn settled(words: &[Word], task: Task, said: Said) -> Option<Call>
    ensures call { result ≡ settled words.now task said }
    ensures low { IfSome result (λ call. IfSome call.silent (λ level. level < 16)) }
{
    if !may_say(task, said) || !is_level(said.silent) {
        return None;
    }
    let traffic = traffic_for(words, file_count(task), said)?;
    let files = said.files;
    Some(Call {
        task,
        traffic,
        replies: said.replies.unwrap_or(true),
        silent: said.silent,
        files,
    })
}

/// The call that words are, if they are one. At most one file is `-`, standard input.
///
/// - `judge`, `ranks`, `dot`, `repair` or `repaired` with TOPOLOGY and TABLES;
/// - `verify` with TOPOLOGY, TABLES and RANKS;
/// - `route` with TOPOLOGY;
/// - `lanes` or `dot` with TOPOLOGY, TABLES, SL2VL and LEVELS;
/// - `between` with TOPOLOGY, OLD and NEW.
///
/// Options may stand anywhere after the first word, each at most once, but not after `--`: then all words are files. But
/// for `between` there is `-t TRAFFIC`, or `--traffic TRAFFIC`, of `hosts`, `lids`, `managed`, `all` and `rows`, for which
/// TRAFFIC alone may stand after the files. Without it the traffic is `hosts`. With four files there are `--replies yes`
/// or `no`, and `--silent LEVEL`, 0 to 15. The value of a long option may also follow a `=`. Another word that begins with
/// `-`, but for `-` itself, is no file.
pub fn call_of(words: &[Word]) -> Option<Call>
    ensures call { MatchOption result (AreNoCall words.now) (IsCall words.now) }
    ensures low { IfSome result (λ call. IfSome call.silent (λ level. level < 16)) }
{
    let [first, ..] = words else {
        return None;
    };
    let said = said_by(words)?;
    let task = task_named(first, said.count)?;
    settled(words, task, said)
}

/// The word of a file of the call that words are, the first one as 0; none if there is no such file, or the words are no
/// call.
pub fn file_of(words: &[Word], call: Option<Call>, file: usize) -> Option<&Word>
    requires { MatchOption call (AreNoCall words.now) (IsCall words.now) }
    ensures { MatchOption result ((call : Call) → IsCall words.now call → file_count call.task ≤ file)
        (λ word. IsFileOf words.now file word.now) }
{
    let call = call?;
    if file >= file_count(call.task) {
        return None;
    }
    match words.get(call.files[file]) {
        Some(word) => Some(word),
        None => None,
    }
}
