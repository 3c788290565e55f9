//! The trail of a grandmaster: its decisions and messages as a finished report shows them, one
//! after the other, and which rule the first one breaks that breaks one. It judges by the
//! definitions of a grandmaster's history alone, and shares nothing with what decides and sends.
#![tactic(auto)]

mod cause;
mod clients;
mod known;
pub mod laws;
mod live;
mod same;
mod spending;
mod trail;

pub use cause::{Fault, NoCause, Shedding};
pub use trail::Trail;
