//! tests: tests of the commands of `autonet` and of its reports, for what no contract shows.
//! They show that calls return if memory suffices, that streams can give and take as they like, and that the
//! workers of `run` run in parallel. The crate has nothing but tests, so that a gate proves `commands` and `report`
//! once, without tests.
#![tactic(auto)]

#[cfg(test)]
mod answers;
#[cfg(test)]
mod calls;
#[cfg(test)]
mod gates;
#[cfg(test)]
mod reports;
