//! tests: unit tests of parts, for what neither a contract nor the whole program shows.
//! They cover crates below the network: readers and writers that fail, a constant that a contract uses as it is,
//! the largest frame in just enough blocks, and a call that the program does not make.
//!
//! Each file tests one crate, which its first line names; `sample` has small networks. The other crates need no
//! such tests: their contracts say what they return, and the cases of `tests/` and its lists for a switch make
//! their calls. No crate depends on this one.
#![tactic(auto)]

#[cfg(test)]
mod distances;
#[cfg(test)]
mod flows;
#[cfg(test)]
mod frames;
#[cfg(test)]
mod names;
#[cfg(test)]
mod receivers;
#[cfg(test)]
mod regions;
#[cfg(test)]
mod sample;
#[cfg(test)]
mod senders;
#[cfg(test)]
mod streams;
