//! A grandmaster's history: what it decided and sent, moment by moment, and the definitions that
//! every contract of a grandmaster cites, with the laws that show that they mean what they should.
#![tactic(auto)]

pub mod examples;
pub mod laws;
