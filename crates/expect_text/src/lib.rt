//! autonet, table texts: output of `expect`.
//!
//! It says what the switches of a script's network should agree on: spanning trees, numbers and tables.
//!
//! It depends on the wiring's trees, on numbers and routing tables, and on how `row_text` prints rows. Its contract:
//! the text has the trees of the script's wiring, the numbers of their members, and the members' tables; and a
//! script has only one such text.
#![tactic(auto)]

pub mod expect;
pub mod law;
