//! autonet, runs: a run of the simulated network in threads, a worker for each switch and a driver.
//! Up to four workers have a thread each, and so do more if workers can wait for one another at the gate. Otherwise
//! two threads have half of the workers each.
//!
//! All share the book of the network (`fabric_book`) through a turnstile (`fabric_turn`); a worker owns all else
//! that it needs: its seat, its switch and its buffers. Its contract: whatever interleaving the threads take, `run`
//! returns a legal history of the script and its end. All that is claimed of a lawful history (`HoldsAndSettles`)
//! holds of it, and it comes with what each caller reported of its events (`AreAccounts`). We do not prove anything
//! about time or fairness: that a thread is scheduled, that a turn comes, or that `run` returns.
#![tactic(auto)]

mod desk;
mod driver;
mod gate;
mod rousing;
mod running;
mod shift;
mod worker;

pub use gate::{Gate, Open};
pub use running::{Told, run};
