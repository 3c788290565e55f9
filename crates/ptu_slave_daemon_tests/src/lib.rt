//! Tests of a slave's daemon, over hosts in memory.
#![tactic(auto)]

#[cfg(test)]
mod tests;
