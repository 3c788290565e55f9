//! What holds of every selector. Each clause is a law of the definitions; the bodies are empty.
ghost use Rattle.std.specs.{Prelude.{◌≡◌, ℕ, false, List, ◌++◌}, List.{AllByRecursion}};
ghost use Rattle.ptu_record.specs.{Record.{Record}, SignalFails.{Timeouts}};
ghost use Rattle.ptu_select.specs.Watched.{is_watched};
ghost use Rattle.ptu_select.specs.declared.master.WatchedMaster.{WatchedMaster};
ghost use Rattle.ptu_select.specs.Selecting.{SelectsBy};

/// What no watch goes by leaves what a selector stands for.
pub fn unwatched()
    ensures { (masters : List WatchedMaster) (timeouts : Timeouts) (priorities : List ℕ)
        (L M : Record) → AllByRecursion (λ e. is_watched e ≡ false) M →
        SelectsBy masters timeouts priorities L → SelectsBy masters timeouts priorities (L ++ M) }
{}
