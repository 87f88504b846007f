//! fabric, judge: the verdict on the forwarding tables of a fabric: whether there is a credit loop, and whether every
//! route arrives.
//!
//! `judge` judges tables, `verify` judges ranks that came from anywhere, `links` counts links and channels, and `law`
//! holds the theorems. The crate depends on `common_graph`, `fabric_model`, `fabric_tables` and `fabric_routes`.
//!
//! Its contract: `judge` returns ranks if and only if there is no credit loop, else the least credit loop with the
//! least route that makes each of its dependencies, and the number of dependencies; if there is no credit loop and no
//! route stops, every route arrives. `verify` reports whether ranks fall along every dependency, which excludes a
//! credit loop. The theorems say what that means: routes arrive soon, some packet can always move, a credit loop can be
//! full, and tables have one verdict.
#![tactic(auto)]

pub mod count;
pub mod judge;
pub mod law;
pub mod links;
pub mod verdict;
pub mod verify;
