//! autonet, commands: exit statuses, what all commands that read an input share, and `expect`.
//! `run` reads its input by code of its own.
//!
//! It depends on `common_call` for streams and endings, on `net_script`, and on `expect_text`. Its contract: the
//! call of a command reads its source to the end, writes the text that the command gives for the bytes to `out`,
//! writes the line of a status to `err`, and returns the number of that status. Each status says what happened. No
//! call waits.
#![tactic(auto)]

pub mod command;
pub mod expect;
pub mod input;
pub mod status;
pub mod words;
