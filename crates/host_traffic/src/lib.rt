//! autonet, network: simulated packets between hosts, hop by hop.
//!
//! It has the packets in flight, and moves them by the routing tables in use.
//!
//! It depends on `table_build` for tables and on `slab`, which stores the packets. Its contract: a `Traffic` is the
//! list of packets in flight, in ascending order of number. A hop changes it according to the table in use, the host
//! at the port of the address, and the link of the lowest exit. Only creating it allocates.
//!
//! It does not record the sender of a packet, nor the table of its first hop, because no hop reads them. Packets
//! are numbered as they are sent, so the n-th `Send` of a history names the sender of packet n, and the first `Move`
//! of that packet happens in a state whose table in use at the sender's switch is the one. A caller that needs them
//! stores them by the number of the packet.
#![tactic(auto)]

pub mod hop;
mod packet;
pub mod traffic;
pub mod view;
