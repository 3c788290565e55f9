//! The trails of all grandmasters.

ghost use Rattle.std.specs.Prelude.{◌≡◌, ◌<◌, ◌^◌, ◌++◌, ◌∷◌, [], ℕ, List, None, IfOk, IfNone, IfSome, option_map, ◌+◌, if◌then◌else◌};
ghost use Rattle.std.specs.{BTreeMap.{get}, Ordering.{is_eq, nat_cmp}, Prelude.{false}};
ghost use Rattle.ptu_history.specs.History.{Record};
ghost use Rattle.ptu_trail.specs.{Faults.{first_fault, or_behind}, Trail.{StandsFor as IsTrail}};
ghost use Rattle.ptu_audit.specs.{declared.deed.Act.{Act}, Standing.{AreKept, IsTrailKept}};
ghost use Rattle.ptu_audit.specs.Trails.{act_finding, acts_finding, finding_of, is_grant_deed, is_message, records_of};
ghost use Rattle.ptu_units.specs.Counts.{counted};

use crate::deed::{Act, Deed, Finding};
use ptu_trail::{Fault, NoCause, Trail};
use ptu_units::OutOfMemory;
use std::alloc::Global;
use std::collections::BTreeMap;

/// The trail of each grandmaster by its address, as long as nothing is found, and how many grants
/// and timing messages they have, up to 2^64 - 1 of each. Each begins with the same capacity, in
/// sixteenths of a message per second.
#[derive(Drop)]
pub(crate) struct Ledger {
    alloc: Global,
    pub(crate) capacity: u64,
    trails: BTreeMap<u32, Trail>,
    pub(crate) granted: u64,
    pub(crate) sent: u64,
}

// A fault of the first record.
fn at_front(cause: Option<NoCause>) -> Option<Fault>
    ensures { result ≡ or_behind cause None }
{
    cause.map(|cause| Fault { place: 0, cause })
}

// Adds the records of what was done to a trail: their first fault, or none.
fn put(trail: &mut Trail, deed: &Deed) -> Result<Option<Fault>, OutOfMemory>
    ensures fault { IfOk result (λ fault. (opening : ℕ) (history : List Record) →
        IsTrail opening trail.old history →
        fault ≡ first_fault opening history (records_of history deed.now)) }
    ensures stands { IfOk result (λ fault. IfNone fault ((opening : ℕ) (history : List Record) →
        IsTrail opening trail.old history →
        IsTrail opening trail.new (history ++ records_of history deed.now))) }
    ensures place { IfOk result (λ fault. IfSome fault (λ f. f.place < 2 ^ 63)) }
{
    match deed {
        Deed::Granted {
            at,
            client,
            kind,
            log,
            until,
        } => Ok(at_front(trail.grant(*at, *client, *kind, *log, *until)?)),
        Deed::Ended { at, client, kind } => Ok(at_front(trail.end(*at, *client, *kind)?)),
        Deed::Changed { at, capacity, shed } => trail.change(*at, *capacity, shed.list()),
        Deed::Sent { stamp, ip, kind } => Ok(at_front(trail.message(*stamp, *ip, *kind))),
    }
}

// The finding at the line of the record that has the fault.
fn finding(line: u32, fault: Fault) -> Finding
    requires { fault.place < 2 ^ 63 }
    ensures { (act : Act) → act.line ≡ line → result ≡ finding_of act fault }
{
    Finding {
        line: u64::from(line) + fault.place as u64,
        cause: fault.cause,
    }
}

impl Ledger {
    /// No trails, of grandmasters that begin with this capacity.
    pub(crate) fn new(alloc: Global, capacity: u64) -> Ledger
        ensures kept { AreKept result [] }
        ensures capacity { result.capacity ≡ capacity }
    {
        Ledger {
            alloc,
            capacity,
            trails: BTreeMap::new(alloc),
            granted: 0,
            sent: 0,
        }
    }

    // Counts what was done.
    fn count(&mut self, deed: &Deed)
        ensures granted { self.new.granted
            ≡ (if is_grant_deed deed.now then counted (self.old.granted + 1)
            else self.old.granted) }
        ensures sent { self.new.sent
            ≡ (if is_message deed.now then counted (self.old.sent + 1) else self.old.sent) }
        ensures trails { self.new.trails ≡ self.old.trails }
        ensures capacity { self.new.capacity ≡ self.old.capacity }
    {
        match deed {
            Deed::Granted { .. } => self.granted = self.granted.saturating_add(1),
            Deed::Sent { .. } => self.sent = self.sent.saturating_add(1),
            Deed::Ended { .. } | Deed::Changed { .. } => {}
        }
    }

    // Adds what was done to the grandmaster's trail, where that stands, or to a new one: its first
    // fault, or none.
    fn add(&mut self, grandmaster: u32, deed: &Deed) -> Result<Option<Fault>, OutOfMemory>
        ensures fault { IfOk result (λ fault. (history : List Record) →
            IsTrailKept self.old.capacity (get nat_cmp self.old.trails grandmaster) history →
            fault ≡ first_fault self.old.capacity history (records_of history deed.now)) }
        ensures stands { IfOk result (λ fault. IfNone fault ((history : List Record) →
            IsTrailKept self.old.capacity (get nat_cmp self.old.trails grandmaster) history →
            IsTrailKept self.old.capacity (get nat_cmp self.new.trails grandmaster)
            (history ++ records_of history deed.now))) }
        ensures others { (other : ℕ) → is_eq (nat_cmp grandmaster other) ≡ false →
            get nat_cmp self.new.trails other ≡ get nat_cmp self.old.trails other }
        ensures same { (self.new.capacity ≡ self.old.capacity)
            × (self.new.granted ≡ self.old.granted) × (self.new.sent ≡ self.old.sent) }
        ensures place { IfOk result (λ fault. IfSome fault (λ f. f.place < 2 ^ 63)) }
    {
        if let Some(trail) = self.trails.get_mut(&grandmaster) {
            return put(trail, deed);
        }
        let mut trail = Trail::new(self.alloc, self.capacity);
        let fault = put(&mut trail, deed)?;
        self.trails.insert(grandmaster, trail)?;
        Ok(fault)
    }

    // Adds an act to its grandmaster's trail: its first fault, or none.
    fn take(&mut self, act: &Act) -> Result<Option<Fault>, OutOfMemory>
        ensures fault { IfOk result (λ fault. (before : List Act) → AreKept self.old before →
            option_map (finding_of act.now) fault ≡ act_finding self.old.capacity before act.now) }
        ensures kept { IfOk result (λ fault. IfNone fault ((before : List Act) →
            AreKept self.old before → AreKept self.new (before ++ act.now ∷ []))) }
        ensures capacity { self.new.capacity ≡ self.old.capacity }
        ensures place { IfOk result (λ fault. IfSome fault (λ f. f.place < 2 ^ 63)) }
    {
        let fault = self.add(act.grandmaster, &act.deed)?;
        self.count(&act.deed);
        Ok(fault)
    }

    // Adds an act to its grandmaster's trail: the first finding, or none.
    fn find(&mut self, act: &Act) -> Result<Option<Finding>, OutOfMemory>
        ensures finding { IfOk result (λ found. (before : List Act) → AreKept self.old before →
            found ≡ act_finding self.old.capacity before act.now) }
        ensures kept { IfOk result (λ found. IfNone found ((before : List Act) →
            AreKept self.old before → AreKept self.new (before ++ act.now ∷ []))) }
        ensures capacity { self.new.capacity ≡ self.old.capacity }
    {
        match self.take(act)? {
            None => Ok(None),
            Some(fault) => Ok(Some(finding(act.line, fault))),
        }
    }

    /// Adds acts to the trails: the first finding, or none. After a finding no further call is
    /// made.
    ///
    /// # Errors
    /// `OutOfMemory`.
    pub(crate) fn take_all(&mut self, acts: &[Act]) -> Result<Option<Finding>, OutOfMemory>
        ensures finding { IfOk result (λ found. (before : List Act) → AreKept self.old before →
            found ≡ acts_finding self.old.capacity before acts.now) }
        ensures kept { IfOk result (λ found. IfNone found ((before : List Act) →
            AreKept self.old before → AreKept self.new (before ++ acts.now))) }
        ensures capacity { self.new.capacity ≡ self.old.capacity }
    {
        for act in acts {
            if let Some(found) = self.find(act)? {
                return Ok(Some(found));
            }
        }
        Ok(None)
    }
}
