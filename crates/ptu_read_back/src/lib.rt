//! What is written in a report is what is read in it: a law over the lines of every report, between
//! what writes them and the audit's reader.
#![tactic(auto)]

pub mod examples;
pub mod laws;
