//! autonet, reports: the output of `replay`, `names` and the end of `run`.
//! It depends on `row_text`, which prints lives and rows, on `fabric_book`, whose network makes the events, on
//! `journal`, which reads them, and on `replay`.
//!
//! Its contract: the report of a journal has the lines of its events in turn, each reported in the network after
//! the event, and then its end. All that is claimed of a history holds of one that has a report. The report is made
//! by a replay, or from what each caller of a run has reported of its own events; both print with the same code.
//! What hosts believe in a journal has a line for each packet that a host sends, and the numbers of these.
#![tactic(auto)]

mod course;
pub mod law;
mod listener;
pub mod naming;
pub mod reporter;
pub mod retelling;
mod telling;
