//! A slave: it asks its masters for unicast transmission, hears them, lets its judges find which
//! are unusable, and selects the best (IEEE 1588-2019 clause 16.1, G.8265.1).
#![tactic(auto)]

mod asking;
mod counters;
mod events;
mod judging;
pub mod laws;
mod node;
mod porting;
mod slave;
mod ticked;
mod ticks;

pub use counters::Counters;
pub use node::Core;
pub use porting::HasPort;
pub use ptu_slave_messages::{
    Heard, HeardReply, Master, Signal, SignalList, SlaveConfig, SlaveReason,
};
pub use slave::Slave;
pub use ticked::Ticked;
