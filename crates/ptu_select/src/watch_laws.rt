//! What holds of every watch. Each clause is a law of the definitions; the bodies are empty.
ghost use Rattle.std.specs.{Prelude.{◌≡◌, false, ◌++◌}, List.{AllByRecursion}};
ghost use Rattle.ptu_record.specs.{Record.{Record}, SignalFails.{Timeouts}};
ghost use Rattle.ptu_select.specs.Watched.{StandsFor, Watched, is_watched};

/// What a watch does not go by leaves what it stands for.
pub fn unwatched()
    ensures { (w : Watched) (timeouts : Timeouts) (L M : Record) →
        AllByRecursion (λ e. is_watched e ≡ false) M → StandsFor w timeouts L →
        StandsFor w timeouts (L ++ M) }
{}
