//! The watch over one master: four moments, a quality level and a flag in place of the whole record
//! of what came from it.

ghost use Rattle.std.specs.Prelude.{◌≡◌, ◌≢◌, ℕ, ◌<◌, ◌≤◌, ◌^◌, ◌-◌, ◌++◌, ◌∷◌, []};
ghost use Rattle.std.specs.Option.{ForSome};
ghost use Rattle.ptu_record.specs.Record.{Record, Announce, Sync, Resp, Judged};
ghost use Rattle.ptu_record.specs.SignalFails.{Timeouts};
ghost use Rattle.ptu_select.specs.{Watched.{StandsFor}, WatchState.{state_at, state_of}};

use crate::moments::{
    awaited_until, cleared_moment, delay_loss_after, is_awaited, is_delay_lost, is_lost,
    late_delay, late_moment, later_moment, loss_after,
};
use crate::state::WatchState;
use ptu_record::{Quality, quality_of};
use ptu_units::Moment;
use std::marker::Model;

/// The watch over one master: what its signal fails go by, in place of its record. No call needs
/// memory. A clause sees what is kept; which records a watch stands for is said by `StandsFor`.
#[derive(Clone, Copy)]
pub struct Watch {
    announce_timeout: u64,
    sync_timeout: u64,
    delay_timeout: Option<u64>,
    wait: u64,
    announced: Option<Moment>,
    synced: Option<Moment>,
    responded: Option<Moment>,
    quality: Option<Quality>,
    unusable: bool,
    ended: Option<Moment>,
}

impl Model for Watch {
    ghost use Rattle.std.specs.{Prelude.{◌<◌, ◌^◌}, Option.{ForSome}};
    ghost use Rattle.ptu_select.specs.Watched.{Watched};

    ghost Value = { Watched };

    ghost view = { λ w. record {
      timeouts = record {
        announce = w.announce_timeout;
        sync = w.sync_timeout;
        delay = w.delay_timeout;
        wait = w.wait;
      };
      announced = w.announced;
      synced = w.synced;
      responded = w.responded;
      quality = w.quality;
      unusable = w.unusable;
      ended = w.ended;
    } };

    ghost invariant = { λ w. (w.announce_timeout < 2 ^ 62) × (w.sync_timeout < 2 ^ 62)
        × ForSome w.delay_timeout (λ timeout. timeout < 2 ^ 62) × (w.wait < 2 ^ 62) };

    ghost inverse = { λ v. record {
      announce_timeout = v.timeouts.announce;
      sync_timeout = v.timeouts.sync;
      delay_timeout = v.timeouts.delay;
      wait = v.timeouts.wait;
      announced = v.announced;
      synced = v.synced;
      responded = v.responded;
      quality = v.quality;
      unusable = v.unusable;
      ended = v.ended;
    } };
}

impl Watch {
    /// A watch over a master of which nothing is recorded, with the receipt timeouts of Announce,
    /// Sync and, for a slave that requests it, Delay_Resp, and with the wait to restore, all in
    /// nanoseconds.
    pub fn new(ta: u64, ts: u64, td: Option<u64>, wait: u64) -> Watch
        requires announce { ta < 2 ^ 62 }
        requires sync { ts < 2 ^ 62 }
        requires delay { ForSome td (λ timeout. timeout < 2 ^ 62) }
        requires wait { wait < 2 ^ 62 }
        ensures { StandsFor result
            (record { announce = ta; sync = ts; delay = td; wait = wait }) [] }
    {
        Watch {
            announce_timeout: ta,
            sync_timeout: ts,
            delay_timeout: td,
            wait,
            announced: None,
            synced: None,
            responded: None,
            quality: None,
            unusable: false,
            ended: None,
        }
    }

    /// Enters an accepted Announce with its clockClass (IEEE 1588-2019 clause 13.5).
    pub fn announce(&mut self, t: Moment, class: u8)
        ensures { (timeouts : Timeouts) (L : Record) (m : ℕ) → StandsFor self.old timeouts L →
            StandsFor self.new timeouts (L ++ Announce t m class ∷ []) }
    {
        let end = late_moment(self.announced, self.announce_timeout, t);
        self.ended = later_moment(self.ended, end);
        self.announced = Some(t);
        self.quality = quality_of(class);
    }

    /// Enters an accepted Sync, whatever its sequenceId (IEEE 1588-2019 clause 13.6).
    pub fn sync(&mut self, t: Moment)
        ensures { (timeouts : Timeouts) (L : Record) (m number : ℕ) →
            StandsFor self.old timeouts L →
            StandsFor self.new timeouts (L ++ Sync t m number ∷ []) }
    {
        let end = late_moment(self.synced, self.sync_timeout, t);
        self.ended = later_moment(self.ended, end);
        self.synced = Some(t);
    }

    /// Enters an accepted Delay_Resp, whatever its sequenceId (IEEE 1588-2019 clause 13.8). It ends
    /// no outage for a slave that does not request it.
    pub fn resp(&mut self, t: Moment)
        ensures { (timeouts : Timeouts) (L : Record) (m number : ℕ) →
            StandsFor self.old timeouts L →
            StandsFor self.new timeouts (L ++ Resp t m number ∷ []) }
    {
        let end = late_delay(self.responded, self.delay_timeout, t);
        self.ended = later_moment(self.ended, end);
        self.responded = Some(t);
    }

    /// Enters what the master's judge finds.
    pub fn flag(&mut self, t: Moment, unusable: bool)
        ensures { (timeouts : Timeouts) (L : Record) (m : ℕ) → StandsFor self.old timeouts L →
            StandsFor self.new timeouts (L ++ Judged t m unusable ∷ []) }
    {
        let end = cleared_moment(self.unusable, unusable, t);
        self.ended = later_moment(self.ended, end);
        self.unusable = unusable;
    }

    /// The state at a moment, which need not be after the last entry.
    pub fn state(&self, t: Moment) -> WatchState
        ensures kept { result ≡ state_of self.now t }
        ensures found { (timeouts : Timeouts) (L : Record) → StandsFor self.now timeouts L →
            result ≡ state_at timeouts L t }
    {
        WatchState {
            loss_announce: is_lost(self.announced, self.announce_timeout, t),
            loss_sync: is_lost(self.synced, self.sync_timeout, t),
            loss_delay: is_delay_lost(self.responded, self.delay_timeout, t),
            unusable: self.unusable,
            waiting: is_awaited(self.ended, self.wait, t),
            quality: self.quality,
        }
    }

    /// The first moment after `t` at which the state is another one than at `t`, where nothing more
    /// is entered, in nanoseconds; `u64::MAX` where there is no such moment. Then an Announce, Sync
    /// or Delay_Resp is lost that was not, or the waiting ends.
    pub fn next_change(&self, t: Moment) -> u64
        ensures later { t < result }
        ensures before { (x : ℕ) → t ≤ x → x < result → state_of self.now x ≡ state_of self.now t }
        ensures there { result < 2 ^ 64 - 1 → state_of self.now result ≢ state_of self.now t }
    {
        let announce = loss_after(self.announced, self.announce_timeout, t);
        let sync = loss_after(self.synced, self.sync_timeout, t);
        let delay = delay_loss_after(self.responded, self.delay_timeout, t);
        let waiting = awaited_until(self.ended, self.wait, t);
        announce.min(sync).min(delay.min(waiting))
    }
}
