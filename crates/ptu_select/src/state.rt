//! The state of one master at a moment: its signal fails, whether it waits to be restored, and its
//! quality level (ITU-T G.8265.1).

ghost use Rattle.std.specs.Prelude.{◌≡◌, ℕ};
ghost use Rattle.ptu_record.specs.{Record.{Record}, SignalFails.{Timeouts, is_eligible}};

use ptu_record::Quality;

/// What a slave finds of a master at a moment (G.8265.1).
#[derive(Clone, Copy, Debug, PartialEq, Eq)]
pub struct WatchState {
    /// No Announce came, or the last one is longer ago than the timeout.
    pub loss_announce: bool,
    /// No Sync came, or the last one is longer ago than the timeout.
    pub loss_sync: bool,
    /// The slave requests Delay_Resps, and none came, or the last one is longer ago than the
    /// timeout.
    pub loss_delay: bool,
    /// The master's judge found it unusable last.
    pub unusable: bool,
    /// An outage ended less than the wait to restore ago.
    pub waiting: bool,
    /// The quality level of the last Announce, where one came and its clockClass is mapped.
    pub quality: Option<Quality>,
}

impl WatchState {
    ghost use Rattle.ptu_select.specs.WatchState.{is_eligible_state, state_at};

    /// Whether a master in this state may be selected: it has no signal fail, it is not waiting,
    /// and its level is mapped and not QL-DNU.
    pub fn is_eligible(&self) -> bool
        ensures state { result ≡ is_eligible_state self.now }
        ensures eligible { (timeouts : Timeouts) (L : Record) (t : ℕ) →
            self.now ≡ state_at timeouts L t → result ≡ is_eligible timeouts L t }
    {
        let is_usable = match self.quality {
            Some(quality) => quality.is_usable(),
            None => false,
        };
        !self.loss_announce
            && !self.loss_sync
            && !self.loss_delay
            && !self.unusable
            && !self.waiting
            && is_usable
    }
}
