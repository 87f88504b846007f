//! floor, base: directed graphs, and a rank for each node or the least cycle.
//!
//! A graph has fewer than 2^31 nodes and a row of bits for each. Its verdict is either a rank for each node,
//! which shows that no steps form a cycle, or the least cycle.
//!
//! It depends on `common_values`. Its contract: `verdict_of` returns the ranks if and only if no steps form a
//! cycle, and otherwise the least cycle; and a graph has one verdict.
//!
//! Ranks, tiers and levels are slow to find. Heuristics, proved only to be safe, find candidates; a proved pass over
//! all steps checks them; and if the check fails, a slow proved method finds them instead. Tiers are a number for each
//! node that no step lowers, so a node on a cycle leads to one of its own tier. Levels are lower bounds of the number
//! of steps to a start.
#![tactic(auto)]

pub mod bits;
mod cycle;
pub mod graph;
pub mod law;
mod level;
mod rank_walk;
pub mod ranks;
mod rising;
mod table;
mod tier_walk;
pub mod verdict;
