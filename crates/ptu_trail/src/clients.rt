//! All clients of one audited grandmaster, by their addresses.

ghost use Rattle.std.specs.Prelude.{◌≡◌, ◌<◌, ◌≤◌, ◌^◌, ◌∷◌, [], ◌++◌, ℕ, List, Some, false, true, length, IfNone, IfSome, MatchOption, MatchResult, OnOk, IfOk, map};
ghost use Rattle.std.specs.{BTreeMap.{get}, Ordering.{nat_cmp}};
ghost use Rattle.ptu_history.specs.{History.{Record, Ended, Sent, Shed}, Live.{live_grants}};
ghost use Rattle.ptu_history.specs.Moments.{book_moment};
ghost use Rattle.ptu_trail.specs.Clients.{AreKnown, IsPlaced};
ghost use Rattle.ptu_trail.specs.Faults.{behind, client_at, decided_clients, decision_tests, fault_of, first_fault, first_no_cause, is_shared, record_of};
ghost use Rattle.ptu_trail.specs.{Known.{IsKnown}, Live.{IsLatestLeaseOf}};

use crate::cause::{Fault, NoCause, Shedding};
use crate::known::{Known, Lease};
use crate::same::is_same_client;
use ptu_units::{Client, Kind, OutOfMemory};
use std::alloc::Global;
use std::collections::BTreeMap;

/// A client and what is known of it.
#[derive(Clone, Copy)]
pub(crate) struct Account {
    pub(crate) client: Client,
    pub(crate) known: Known,
}

/// The clients with decisions, by address. Without a fault an address has one.
#[derive(Drop)]
pub(crate) struct Clients {
    accounts: BTreeMap<u32, Account>,
}

impl Clients {
    /// A trail without clients. It allocates nothing.
    pub(crate) fn new(alloc: Global) -> Clients
        ensures { AreKnown [] result }
    {
        Clients {
            accounts: BTreeMap::new(alloc),
        }
    }

    // What is known of the client, or `None` where its address has another identity.
    fn look(&self, client: &Client) -> Option<Known>
        ensures { (history : List Record) → AreKnown history self.now → MatchOption result
            (is_shared history client.now ≡ true)
            (λ known. (is_shared history client.now ≡ false)
            × IsKnown history client.now known) }
    {
        match self.accounts.get(&client.ip) {
            None => Some(Known::new()),
            Some(account) if is_same_client(client, &account.client) => Some(account.known),
            Some(_) => None,
        }
    }

    /// The last grant of the kind to the client, where no other decision came after it.
    pub(crate) fn lease(&self, client: &Client, kind: Kind) -> Option<Lease>
        ensures { (history : List Record) (n : ℕ) → AreKnown history self.now →
            IsLatestLeaseOf client.now kind result (live_grants history n) }
    {
        match self.look(client) {
            Some(known) => known.lease(kind),
            None => None,
        }
    }

    /// What is known of the client that a decision at this moment is on, where the last decision or
    /// change was at that one; or the decision's first fault, of `Shared`, `Stamp` and `Moment`.
    pub(crate) fn judge(&self, at: u64, last: u64, client: &Client) -> Result<Known, NoCause>
        ensures below { OnOk result (at < 2 ^ 62) }
        ensures judged { (history : List Record) →
            AreKnown history self.now → last ≡ book_moment history → MatchResult result
            (λ known. IsPlaced history at client.now × IsKnown history client.now known)
            (λ cause. first_no_cause (decision_tests history at client.now) ≡ Some cause) }
    {
        let Some(known) = self.look(client) else {
            return Err(NoCause::Shared);
        };
        if at >= 1 << 62 {
            return Err(NoCause::Stamp);
        }
        if at < last || at < known.sent {
            return Err(NoCause::Moment);
        }
        Ok(known)
    }

    /// Keeps what is known of the client after a decision on it.
    ///
    /// # Errors
    /// `OutOfMemory`.
    pub(crate) fn put(&mut self, client: Client, known: Known) -> Result<(), OutOfMemory>
        ensures { OnOk result ((history : List Record) (r : Record) →
            AreKnown history self.old → is_shared history client ≡ false →
            decided_clients (r ∷ []) ≡ client ∷ [] → IsKnown (history ++ r ∷ []) client known →
            AreKnown (history ++ r ∷ []) self.new) }
    {
        self.accounts.insert(client.ip, Account { client, known })?;
        Ok(())
    }

    /// The end of a grant of the client's by a CANCEL, or by a shedding, at this moment, where the
    /// last decision or change was at that one: its first fault, or none.
    ///
    /// # Errors
    /// `OutOfMemory`.
    pub(crate) fn end(
        &mut self,
        at: u64,
        last: u64,
        client: Client,
        kind: Kind,
    ) -> Result<Option<NoCause>, OutOfMemory>
        ensures fault { IfOk result (λ fault. (history : List Record) →
            AreKnown history self.old → last ≡ book_moment history →
            fault ≡ first_no_cause (decision_tests history at client)) }
        ensures ended { IfOk result (λ fault. IfNone fault ((history : List Record) →
            AreKnown history self.old → last ≡ book_moment history →
            AreKnown (history ++ Ended at client kind ∷ []) self.new)) }
        ensures shed { IfOk result (λ fault. IfNone fault ((history : List Record) →
            AreKnown history self.old → last ≡ book_moment history →
            AreKnown (history ++ Shed at client kind ∷ []) self.new)) }
    {
        let mut known = match self.judge(at, last, &client) {
            Ok(known) => known,
            Err(cause) => return Ok(Some(cause)),
        };
        known.end(at, kind);
        self.put(client, known)?;
        Ok(None)
    }

    /// The sheddings of a change of capacity at this moment: the first fault, with its place among
    /// the change and its sheddings, of which the first has place 1, or none.
    ///
    /// # Errors
    /// `OutOfMemory`.
    pub(crate) fn shed(&mut self, at: u64, shed: &[Shedding]) -> Result<Option<Fault>, OutOfMemory>
        ensures fault { IfOk result (λ fault. (opening : ℕ) (history : List Record) →
            AreKnown history self.old → at ≡ book_moment history →
            fault ≡ behind (first_fault opening history (map (record_of at) shed.now))) }
        ensures known { IfOk result (λ fault. IfNone fault ((history : List Record) →
            AreKnown history self.old → at ≡ book_moment history →
            AreKnown (history ++ map (record_of at) shed.now) self.new)) }
        ensures place { IfOk result (λ fault. IfSome fault (λ f. f.place ≤ length shed.now)) }
    {
        for (place, one) in shed.iter().enumerate() {
            if let Some(cause) = self.end(at, at, one.client, one.kind)? {
                return Ok(Some(Fault {
                    place: place + 1,
                    cause,
                }));
            }
        }
        Ok(None)
    }

    /// A message of the kind to the address at this moment: its first fault, of `Moment`, `Grant`
    /// and `Early`, or none.
    pub(crate) fn message(&mut self, at: u64, ip: u32, kind: Kind) -> Option<NoCause>
        requires { at < 2 ^ 62 }
        ensures fault { (opening : ℕ) (history : List Record) → AreKnown history self.old →
            result ≡ fault_of opening history (Sent at (client_at history ip) kind) [] }
        ensures known { IfNone result ((history : List Record) → AreKnown history self.old →
            AreKnown (history ++ Sent at (client_at history ip) kind ∷ []) self.new) }
    {
        match self.accounts.get_mut(&ip) {
            None => Some(NoCause::Grant),
            Some(account) => account.known.message(at, kind),
        }
    }
}
