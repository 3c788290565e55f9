//! The grandmaster of a script, with ports in memory. An event makes room in the ports, happens, is
//! told, and what was sent is handed over, so that no send fails and nothing stands in a port
//! between events.
#![tactic(auto)]

mod grandmaster_node;
mod grandmaster_ports;
mod grandmaster_statements;
mod journal;

pub use grandmaster_node::{GrandmasterNode, config_of};
pub use grandmaster_ports::{hand_over_all, reserve, reserve_answer};
pub use journal::Journal;
