//! Tests of the outside in memory and over std, and of how threads meet, by what their crate
//! exports.
#![tactic(auto)]

#[cfg(test)]
mod tests;
