//! The lines of a report, read: what each of them says, in numbers that a word may write.
#![tactic(auto)]

mod entry;
pub mod examples;
mod forms;
mod reading;
mod words;

pub use entry::{Decision, Entry, ReportLine};
pub use reading::read_line;
