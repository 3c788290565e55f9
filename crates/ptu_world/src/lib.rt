//! What a script means: the world of its nodes, and its report. The definitions stand in `specs/`;
//! `ptu_lab` meets them by code.
#![tactic(auto)]

pub mod examples;
pub mod finding;
pub mod laws;
pub mod promises;
