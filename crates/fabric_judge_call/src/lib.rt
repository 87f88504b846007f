//! fabric, commands: the command line of `fabric`, and the answer to a question about tables. With this crate, a small
//! program for these questions is proved long before the program for all commands.
//!
//! The crate depends on `fabric_judge_commands`, which has the commands over tables. Its contract: `words::call_of`
//! finds the call that the arguments make, if they make one, from what `said::said_by` reads in them;
//! `question::answer_question` answers it.
#![tactic(auto)]

pub mod input;
pub mod question;
pub mod said;
pub mod words;
