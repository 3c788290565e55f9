//! The audit of a finished report: whether its grandmasters kept their promises, by the decisions
//! and the datagrams in it.
#![tactic(auto)]

mod answer;
mod answered;
mod auditing;
mod auditor;
mod deed;
pub mod examples;
mod groups;
pub mod laws;
mod ledger;
mod line;
mod texts;

pub use answer::{Answer, AuditCause, AuditFault};
pub use auditing::audit;
pub use ptu_trail::NoCause;
