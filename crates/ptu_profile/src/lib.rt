//! What a grandmaster and a slave are set up with, the headers of their messages, and whom a target
//! identity matches.
#![tactic(auto)]

mod grandmaster;
mod headers;
pub mod samples;
mod slave;
mod target;

pub use grandmaster::GmConfig;
pub use slave::{Master, SlaveConfig};
pub use target::{ALL_ONES, is_target};
