//! autonet, table texts: switch names and table rows as text.
//!
//! A life is printed as the name that the script gives to its switch, followed by a point and the boot if that is
//! above 1. A row is printed as the line from which `table_script` reads tables; the forms of these lines are
//! defined here (`specs/TableForms`).
//!
//! It depends on scripts and routing tables. Its contract: each function appends exactly the text that its
//! definition in `specs/` gives, unless an allocation fails.
#![tactic(auto)]

pub mod decimals;
pub mod piece;
pub mod row;
