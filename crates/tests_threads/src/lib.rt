//! tests: tests of the crates with threads, for what no contract shows.
//! They show that turns come, that sleeping threads are woken, and that workers run in parallel. Each file tests
//! one of the crates `fabric_turn` and `switch_threads`. No crate depends on this one.
#![tactic(auto)]

#[cfg(test)]
mod runs;
#[cfg(test)]
mod turns;
