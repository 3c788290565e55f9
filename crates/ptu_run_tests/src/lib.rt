//! Tests of whole runs of the program, by what its library exports: the calls of source and sink,
//! and the daemons over hosts in memory.
#![tactic(auto)]

#[cfg(test)]
mod tests;
