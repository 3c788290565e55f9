//! Tests of a slave, from its record to its judges, by what its crates export.
#![tactic(auto)]

#[cfg(test)]
mod tests;
