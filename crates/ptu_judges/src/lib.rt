//! Judges, which find whether a master is unusable: what each has to keep of its master's record,
//! and two of them.
#![tactic(auto)]

mod flag_judge;
mod gap_judge;
mod judge;
pub mod laws;
pub mod samples;
mod stock;

pub use flag_judge::FlagJudge;
pub use gap_judge::GapJudge;
pub use judge::{Conduct, Judge};
pub use ptu_record::{NAMED_GAP, Rule};
pub use stock::Stock;
