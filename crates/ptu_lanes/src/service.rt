//! What the calls of the lanes have in common.

use ptu_outside::Port;
use ptu_profile::GmConfig;
use ptu_shared::{Rates, Shared};
use std::alloc::Global;
use std::sync::ledger::Ledger;

/// What all calls for a grandmaster stand on, before and while its lanes serve.
#[derive(Drop)]
pub struct Base<'a, W> {
    /// The runtime, by which they wait.
    pub rt: &'a W,
    /// Where they take memory.
    pub alloc: Global,
    /// How the grandmaster is set up.
    pub config: &'a GmConfig,
}

/// What every call of a grandmaster's lanes works with.
#[derive(Drop)]
pub struct Service<'a, P: Port + Send, L: Rates, G: Ledger, R: Ledger, W> {
    /// What it stands on.
    pub base: &'a Base<'a, W>,
    /// The tables, which all lanes share.
    pub shared: &'a Shared<P, L, G, R>,
}
