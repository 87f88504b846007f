//! fabric, commands: all commands of `fabric`: finds the command that the arguments name, and runs it.
//!
//! The crate depends on `fabric_judge_call`, for the arguments and for questions about tables, on
//! `fabric_route_command`, which makes tables, on `fabric_repair_commands`, which repairs them, on
//! `fabric_lane_commands` and on `fabric_between_command`. Its one contract is that of `fabric::fabric`, and it never
//! waits. Invalid arguments leave the sources and standard output untouched. With the exit statuses 0, 7 and 8 of
//! `judge` the bytes that the sources gave are the text of a fabric and of its tables, and standard output gained
//! exactly the text of the answer for them. With 0 of `route` and `repaired` standard output gained the text of tables
//! that pass. With 3 standard output gained nothing, and standard error has the first line with an error and its first
//! reason.
#![tactic(auto)]

pub mod fabric;
