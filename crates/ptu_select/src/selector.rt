//! The selector of a slave: it keeps its last choice, so that most selections look at no master.

ghost use Rattle.std.specs.Prelude.{◌≡◌, ℕ, ◌<◌, ◌≤◌, ◌^◌, List, ◌++◌, ◌∷◌, [], length, IfOk};
ghost use Rattle.std.specs.Option.{ForSome};
ghost use Rattle.ptu_record.specs.Record.{Record, record_of, Announce, Sync, Resp, Judged};
ghost use Rattle.ptu_record.specs.{SignalFails.{Timeouts}, Selection.{selected_master}};
ghost use Rattle.ptu_select.specs.WatchState.{state_at};
ghost use Rattle.ptu_select.specs.{Choice.{Stands}, Selecting.{SelectsBy}};

use crate::choice::{Choice, choice_at};
use crate::master::WatchedMaster;
use crate::{Watch, WatchState};
use ptu_units::{Moment, OutOfMemory};
use std::alloc::Global;
use std::marker::Model;

/// The watches over all masters of one slave, with their priority numbers. No call but `new` needs
/// memory. Which records of the slave a selector stands for is said by `SelectsBy`. The last choice
/// is kept with the moments for which it stands; every entry drops it.
#[derive(Drop)]
pub struct Selector {
    masters: Vec<WatchedMaster>,
    kept: Option<Choice>,
}

impl Model for Selector {
    ghost use Rattle.std.specs.{Prelude.{List}, Option.{ForSome}};
    ghost use Rattle.ptu_select.specs.Choice.{Stands};
    ghost use Rattle.ptu_select.specs.declared.master.WatchedMaster.{WatchedMaster};

    ghost Value = { List WatchedMaster };

    ghost view = { λ s. s.masters.items };

    ghost invariant = { λ s. ForSome s.kept (λ kept. Stands s.masters.items kept) };
}

impl Selector {
    /// A selector for a slave of which nothing is recorded, with a master for each priority number,
    /// and with the receipt timeouts of Announce, Sync and, where it is requested, Delay_Resp, and
    /// the wait to restore, all in nanoseconds.
    ///
    /// # Errors
    /// `OutOfMemory` if there is no memory for the list of masters.
    pub fn new(
        alloc: Global,
        ta: u64,
        ts: u64,
        td: Option<u64>,
        wait: u64,
        priorities: &[u8],
    ) -> Result<Selector, OutOfMemory>
        requires announce { ta < 2 ^ 62 }
        requires sync { ts < 2 ^ 62 }
        requires delay { ForSome td (λ timeout. timeout < 2 ^ 62) }
        requires wait { wait < 2 ^ 62 }
        ensures masters { IfOk result (λ s. length s ≡ length priorities.now) }
        ensures empty { IfOk result (λ s. SelectsBy s
            (record { announce = ta; sync = ts; delay = td; wait = wait }) priorities.now []) }
    {
        let watch = Watch::new(ta, ts, td, wait);
        let mut masters = Vec::with_capacity(alloc, priorities.len())?;
        for &priority in priorities {
            masters.push(WatchedMaster { watch, priority })?;
        }
        Ok(Selector {
            masters,
            kept: None,
        })
    }

    /// Enters an accepted Announce of the master at a place, with its clockClass.
    pub fn announce(&mut self, t: Moment, master: usize, class: u8)
        requires { master < length self.old }
        ensures masters { length self.new ≡ length self.old }
        ensures entered { (timeouts : Timeouts) (priorities : List ℕ) (L : Record) →
            SelectsBy self.old timeouts priorities L →
            SelectsBy self.new timeouts priorities (L ++ Announce t master class ∷ []) }
    {
        self.kept = None; // The level or a loss may be another one.
        let watched = &mut self.masters[master];
        watched.watch.announce(t, class);
    }

    /// Enters an accepted Sync of the master at a place, whatever its sequenceId.
    pub fn sync(&mut self, t: Moment, master: usize)
        requires { master < length self.old }
        ensures masters { length self.new ≡ length self.old }
        ensures entered { (timeouts : Timeouts) (priorities : List ℕ) (L : Record) (number : ℕ) →
            SelectsBy self.old timeouts priorities L →
            SelectsBy self.new timeouts priorities (L ++ Sync t master number ∷ []) }
    {
        self.kept = None; // The loss of Sync may have ended.
        let watched = &mut self.masters[master];
        watched.watch.sync(t);
    }

    /// Enters an accepted Delay_Resp of the master at a place, whatever its sequenceId.
    pub fn resp(&mut self, t: Moment, master: usize)
        requires { master < length self.old }
        ensures masters { length self.new ≡ length self.old }
        ensures entered { (timeouts : Timeouts) (priorities : List ℕ) (L : Record) (number : ℕ) →
            SelectsBy self.old timeouts priorities L →
            SelectsBy self.new timeouts priorities (L ++ Resp t master number ∷ []) }
    {
        self.kept = None; // The loss of Delay_Resp may have ended.
        let watched = &mut self.masters[master];
        watched.watch.resp(t);
    }

    /// Enters what the judge of the master at a place finds.
    pub fn flag(&mut self, t: Moment, master: usize, unusable: bool)
        requires { master < length self.old }
        ensures masters { length self.new ≡ length self.old }
        ensures entered { (timeouts : Timeouts) (priorities : List ℕ) (L : Record) →
            SelectsBy self.old timeouts priorities L →
            SelectsBy self.new timeouts priorities (L ++ Judged t master unusable ∷ []) }
    {
        self.kept = None; // It may be unusable, or waiting.
        let watched = &mut self.masters[master];
        watched.watch.flag(t, unusable);
    }

    /// The state of the master at a place at a moment, which need not be after the last entry.
    pub fn state(&self, t: Moment, master: usize) -> WatchState
        requires { master < length self.now }
        ensures { (timeouts : Timeouts) (priorities : List ℕ) (L : Record) →
            SelectsBy self.now timeouts priorities L →
            result ≡ state_at timeouts (record_of master L) t }
    {
        self.masters[master].watch.state(t)
    }

    /// The place of the selected master at a moment, which need not be after the last entry; `None`
    /// exactly where no master is eligible.
    pub fn select(&mut self, t: Moment) -> Option<usize>
        ensures same { self.new ≡ self.old }
        ensures selected { (timeouts : Timeouts) (priorities : List ℕ) (L : Record) →
            SelectsBy self.old timeouts priorities L →
            result ≡ selected_master timeouts priorities L t }
    {
        self.choose(t).place
    }

    /// A moment after `t`, in nanoseconds: where nothing is entered, the selected master is the one
    /// of `t` until then. The state of some master changes there; `u64::MAX` where none does.
    pub fn next_change(&mut self, t: Moment) -> u64
        ensures same { self.new ≡ self.old }
        ensures later { t < result }
        ensures selected { (timeouts : Timeouts) (priorities : List ℕ) (L : Record) →
            SelectsBy self.old timeouts priorities L → (x : ℕ) → t ≤ x → x < result →
            selected_master timeouts priorities L x ≡ selected_master timeouts priorities L t }
    {
        self.choose(t).until
    }

    // The choice at a moment, which is kept.
    fn choose(&mut self, t: Moment) -> Choice
        ensures same { self.new ≡ self.old }
        ensures from { result.from ≤ t }
        ensures until { t < result.until }
        ensures stands { Stands self.old result }
    {
        let choice = choice_at(self.kept, &self.masters, t);
        self.kept = Some(choice);
        choice
    }
}
