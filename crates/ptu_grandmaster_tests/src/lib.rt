//! Tests of a grandmaster and of its pools, by what their crates export.
#![tactic(auto)]

#[cfg(test)]
mod tests;
