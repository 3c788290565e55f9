//! How values stand in lines of output: each is a type whose text its contract knows.
#![tactic(auto)]

mod faults;
mod laws;
mod names;
mod octets;

pub use faults::FaultText;
pub use laws::{sample_texts, words_are_read_again};
pub use names::{AddressText, ClockText, IdentityText, KindText, LogText};
pub use octets::OctetsText;
