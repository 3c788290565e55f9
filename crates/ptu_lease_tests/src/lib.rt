//! Tests of what a grandmaster keeps, from the orders of its clients to its book, by what its
//! crates export.
#![tactic(auto)]

#[cfg(test)]
mod tests;
