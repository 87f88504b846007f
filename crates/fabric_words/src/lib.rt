//! fabric, readers: words of the file formats: cuts of a line, hexadecimal and decimal numbers, rows of forwarding
//! tables, heads of nodes, and the reasons for which a line of ranks, lanes or service levels is rejected.
//!
//! The crate depends on `common_lines`, for decimal numbers, and on `memchr`. Its contract: each function returns what
//! its definition in `specs/` says of the bytes or of the reason.
#![tactic(auto)]

pub mod cut;
pub mod digits;
pub mod head;
pub mod lane_cause;
pub mod ranks_cause;
pub mod row;
pub mod text_cause;
