//! The profile of asks.

ghost use Rattle.std.specs.Prelude.{◌≡◌, Ok, Err, IfErr, IfOk};
ghost use Rattle.ptu_history.specs.Verdict.{profile};
ghost use Rattle.ptu_admit.specs.Verdict.{ask_of, cause_of};

use crate::verdict::Outside;
use ptu_messages::Ask;
use ptu_units::{GrantSeconds, Kind, Log};

/// The shortest duration that may be asked for, in seconds.
const SHORTEST_DURATION: u32 = GrantSeconds::LEAST;

/// What an ask within the profile is for: a kind at a logarithm, for so many seconds.
#[derive(Clone, Copy)]
pub(crate) struct Wanted {
    pub kind: Kind,
    pub log: Log,
    pub seconds: u32,
}

/// What the ask is for, or the first cause why it is outside the profile.
pub(crate) fn wanted_by(ask: &Ask) -> Result<Wanted, Outside>
    ensures within { IfOk result (λ w. (profile (ask_of ask.now) ≡ Ok w.kind)
        × (w.log ≡ ask.now.log) × (w.seconds ≡ ask.now.seconds)) }
    ensures outside { IfErr result (λ o. profile (ask_of ask.now) ≡ Err (cause_of o)) }
{
    let Some(kind) = Kind::of(ask.code) else {
        return Err(Outside::Code);
    };
    let Some(log) = Log::of(kind, ask.log) else {
        return Err(Outside::Log);
    };
    if ask.seconds < SHORTEST_DURATION {
        return Err(Outside::Duration);
    }
    Ok(Wanted {
        kind,
        log,
        seconds: ask.seconds,
    })
}
