//! autonet, commands: all commands of `autonet`, over any streams.
//! Its top call runs the command that the program's arguments name. Its contract is that of this call: what each
//! status means, what the source then has left, and what each sink gained. Of the commands, only `run` can wait.
#![tactic(auto)]

pub mod generate;
pub mod law;
pub mod names;
pub mod replaying;
mod reported;
pub mod run;
pub mod top;
