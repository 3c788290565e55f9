//! What an audit keeps of one client: the last grant of each kind, and the moments of the last
//! decision and message.

use crate::cause::NoCause;
use crate::spending::{granted_edge, spent};
use ptu_units::{Kind, Log};

/// A grant that is the last decision on its client and kind.
#[derive(Clone, Copy)]
pub(crate) struct Lease {
    pub(crate) log: Log,
    pub(crate) until: u64,
    /// The earliest moment of the next message.
    pub(crate) edge: u64,
}

/// What is known of a client.
#[derive(Clone, Copy)]
pub(crate) struct Known {
    /// The greatest moment of a decision on it.
    pub(crate) decided: u64,
    /// The greatest moment of a message to it.
    pub(crate) sent: u64,
    pub(crate) announce: Option<Lease>,
    pub(crate) sync: Option<Lease>,
    pub(crate) delay_resp: Option<Lease>,
}

impl Known {
    ghost use Rattle.std.specs.Prelude.{◌≡◌, ◌<◌, ◌≤◌, ◌^◌, ◌∷◌, [], ◌++◌, ℕ, List, IfNone, max};
    ghost use Rattle.ptu_units.specs.{declared.client.Client.{Client}, Log.{period_of}};
    ghost use Rattle.ptu_history.specs.History.{Record, Ended, Granted, Sent, Shed};
    ghost use Rattle.ptu_trail.specs.Faults.{fault_of};
    ghost use Rattle.ptu_trail.specs.Known.{IsKnown, fault_by, lease_at, unknown, with_lease};

    /// What is known of a client before any decision.
    pub(crate) fn new() -> Known
        ensures { result ≡ unknown }
    {
        Known {
            decided: 0,
            sent: 0,
            announce: None,
            sync: None,
            delay_resp: None,
        }
    }

    /// The last grant of the kind, where no other decision came after it.
    pub(crate) fn lease(&self, kind: Kind) -> Option<Lease>
        ensures { result ≡ lease_at kind self.now }
    {
        match kind {
            Kind::Announce => self.announce,
            Kind::Sync => self.sync,
            Kind::DelayResp => self.delay_resp,
        }
    }

    fn set(&mut self, kind: Kind, lease: Option<Lease>)
        ensures { self.new ≡ with_lease kind lease self.old }
    {
        match kind {
            Kind::Announce => self.announce = lease,
            Kind::Sync => self.sync = lease,
            Kind::DelayResp => self.delay_resp = lease,
        }
    }

    // What is wrong with a message at the moment.
    fn fault(&self, at: u64, kind: Kind) -> Option<NoCause>
        ensures { result ≡ fault_by at self.now.decided (lease_at kind self.now) }
    {
        let lease = self.lease(kind);
        if at < self.decided {
            return Some(NoCause::Moment);
        }
        match lease {
            None => Some(NoCause::Grant),
            Some(lease) if at >= lease.until => Some(NoCause::Grant),
            Some(lease) if at < lease.edge => Some(NoCause::Early),
            Some(_) => None,
        }
    }

    /// A message to the client: what is wrong with it, or it is spent.
    pub(crate) fn message(&mut self, at: u64, kind: Kind) -> Option<NoCause>
        requires { at < 2 ^ 62 }
        ensures fault { (opening : ℕ) (history : List Record) (c : Client) →
            IsKnown history c self.old → result ≡ fault_of opening history (Sent at c kind) [] }
        ensures known { IfNone result ((history : List Record) (c : Client) →
            IsKnown history c self.old → IsKnown (history ++ Sent at c kind ∷ []) c self.new) }
    {
        let fault = self.fault(at, kind);
        if fault.is_none()
            && let Some(lease) = self.lease(kind)
        {
            self.set(kind, Some(spent(lease, at, kind)));
            self.sent = self.sent.max(at);
        }
        fault
    }

    /// A grant to the client, at a moment that is not behind its last decision.
    pub(crate) fn grant(&mut self, at: u64, kind: Kind, log: Log, until: u64)
        requires { at < 2 ^ 62 }
        ensures { (history : List Record) (c : Client) →
            IsKnown history c self.old →
            IsKnown (history ++ Granted at c kind log until ∷ []) c self.new }
    {
        let edge = granted_edge(self.lease(kind), at, log);
        self.set(kind, Some(Lease { log, until, edge }));
        self.decided = self.decided.max(at);
    }

    /// The end of a grant of the client.
    pub(crate) fn end(&mut self, at: u64, kind: Kind)
        ensures ended { (history : List Record) (c : Client) →
            IsKnown history c self.old → IsKnown (history ++ Ended at c kind ∷ []) c self.new }
        ensures shed { (history : List Record) (c : Client) →
            IsKnown history c self.old → IsKnown (history ++ Shed at c kind ∷ []) c self.new }
    {
        self.set(kind, None);
        self.decided = self.decided.max(at);
    }
}
