//! Tests of tables behind locks, by what their crate exports.
#![tactic(auto)]

#[cfg(test)]
mod tests;
