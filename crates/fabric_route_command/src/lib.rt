//! fabric, commands: `route`: tables without a credit loop for a fabric.
//!
//! The crate depends on `fabric_engine`, which makes tables and of which nothing is claimed, on `fabric_verdict`, which
//! judges them, on `fabric_print_tables`, which prints them, and on `fabric_call`, which reads the topology. Its one
//! contract is that of `route::route`. With exit status 0 it wrote the text of tables of the fabric that was read, in
//! which every route of the traffic arrives and there is no credit loop, whatever the engine did. With 7 some end port
//! is not joined by links to a LID to which it sends, and standard error names both. With 6 all are joined, but no
//! tables were found that pass.
#![tactic(auto)]

pub mod apart;
pub mod end;
pub mod law;
mod loads;
pub mod measured;
mod parts;
pub mod route;
