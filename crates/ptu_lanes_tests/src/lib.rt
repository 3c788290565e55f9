//! Tests of rounds of lanes and of ports in two steps, by what their crates export.
#![tactic(auto)]

#[cfg(test)]
mod tests;
