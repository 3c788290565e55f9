//! Tests of the programs over lines, of what no stored run can show: sources and sinks that fail,
//! what `replay` answers, and the script of a load.
#![tactic(auto)]

#[cfg(test)]
mod tests;
