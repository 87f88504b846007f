//! autonet, table texts: reader of a script followed by tables.
//!
//! The text is a script and, after it, lines that give the numbers (short addresses) of its switches and the rows
//! of their routing tables.
//!
//! It depends on the reader of scripts, and on the forms of lines in `row_text`. Its contract:
//! `table_reader::read_with_tables` returns a script and tables only if the bytes are the text of them, and
//! otherwise the first faulty line with its first reason; instead of either it can run out of memory. No bytes are
//! the text of two scripts with tables.
#![tactic(auto)]

mod component;
pub mod law;
mod table_draft;
mod table_form;
pub mod table_reader;
mod table_words;
pub mod tables;
