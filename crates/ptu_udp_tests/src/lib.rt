//! Tests of sockets as ports, over those of the system and over sockets and a clock in memory.
#![tactic(auto)]

#[cfg(test)]
mod tests;
