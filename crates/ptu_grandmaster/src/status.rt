//! How a grandmaster stands.

ghost use Rattle.std.specs.Prelude.{◌≡◌, ℕ, List};
ghost use Rattle.ptu_history.specs.History.{Record};
ghost use Rattle.ptu_admit.specs.Lent.{moment_for_all};
ghost use Rattle.ptu_grandmaster.specs.{Gm.{StandsFor, tables}, Status.{AreAllLive, IsGmStatusOf}};

use crate::gm::Gm;
use ptu_admit::{Live, live_in};
use ptu_outside::Port;
use ptu_units::Moment;

/// How a grandmaster stands at the greatest moment that it has reached.
#[derive(Clone, Copy, Debug, PartialEq, Eq)]
pub struct GmStatus {
    /// That moment.
    pub moment: Moment,
    /// The clockClass of its Announces.
    pub class: u8,
    /// The capacity in force, in sixteenths of a message per second.
    pub capacity: u64,
    /// The rates of the grants that are live, in sixteenths of a message per second.
    pub held: u64,
    /// How many grants of Announces are live.
    pub announces: u64,
    /// How many grants of Syncs are live.
    pub syncs: u64,
    /// How many grants of Delay_Resps are live.
    pub delay_resps: u64,
    /// How many asks were granted.
    pub granted: u64,
    /// How many asks within the profile did not fit.
    pub refused: u64,
}

impl<P: Port> Gm<P> {
    // The greatest moment of the book and the tables.
    fn reached(&self) -> Moment
        ensures { result ≡ moment_for_all 0 self.now.book (tables self.now) }
    {
        let latest = Moment::default().latest(self.book.now());
        let latest = self.s3.moment().latest(latest);
        let latest = self.s2.moment().latest(latest);
        let latest = self.s1.moment().latest(latest);
        self.s0.moment().latest(latest)
    }

    // The grants of all tables that are live at the moment.
    fn live_at(&self, at: Moment) -> Live
        ensures { AreAllLive at self.now result }
    {
        let _total = self.book.total();
        let first = live_in(&self.s0, at).and(live_in(&self.s1, at));
        let second = live_in(&self.s2, at).and(live_in(&self.s3, at));
        first.and(second)
    }

    /// How it stands at the greatest moment that its tables and its book have reached. It takes no
    /// step.
    pub fn status(&self) -> GmStatus
        ensures class { result.class ≡ self.now.config.class }
        // It is that of each history that the grandmaster stands for.
        ensures stands { (opening : ℕ) (history : List Record) →
            StandsFor opening self.now history → IsGmStatusOf opening history result }
    {
        let moment = self.reached();
        let live = self.live_at(moment);
        GmStatus {
            moment,
            class: self.config.class,
            capacity: self.book.capacity(),
            held: live.rates,
            announces: live.announces,
            syncs: live.syncs,
            delay_resps: live.delay_resps,
            granted: self.granted,
            refused: self.refused,
        }
    }
}
