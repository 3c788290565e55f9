//! Comparisons of moments that may not be there yet.
ghost use Rattle.std.specs.Prelude.{◌≡◌, ◌≢◌, ℕ, ◌<◌, ◌≤◌, ◌^◌, ◌-◌, cond, false, not, ◌&&◌, option_map, unwrap_or};
ghost use Rattle.std.specs.Option.{ForSome};
ghost use Rattle.ptu_record.specs.{Lists.{later_of}, OutageEnds.{is_within, late_at}};
ghost use Rattle.ptu_record.specs.SignalFails.{is_lost as is_lost_at};

use ptu_units::Moment;

// Whether no message came, or the last one more than the timeout before `t`.
pub fn is_lost(last: Option<Moment>, timeout: u64, t: Moment) -> bool
    requires { timeout < 2 ^ 62 }
    ensures { result ≡ is_lost_at timeout t last }
{
    match last {
        Some(at) => at.nanos() + timeout < t.nanos(),
        None => true,
    }
}

// The moment `t` of a message, where the one before came and `t` is more than the timeout after it.
pub fn late_moment(before: Option<Moment>, timeout: u64, t: Moment) -> Option<Moment>
    requires { timeout < 2 ^ 62 }
    ensures { result ≡ late_at timeout before t }
{
    match before {
        Some(at) if at.nanos() + timeout < t.nanos() => Some(t),
        _ => None,
    }
}

// The same where there is a timeout; without one nothing is ever lost.
pub fn is_delay_lost(last: Option<Moment>, timeout: Option<u64>, t: Moment) -> bool
    requires { ForSome timeout (λ timeout. timeout < 2 ^ 62) }
    ensures { result ≡ unwrap_or (option_map (λ n. is_lost_at n t last) timeout) false }
{
    match timeout {
        Some(timeout) => is_lost(last, timeout, t),
        None => false,
    }
}

// The moment `t` of a message that is late, where there is a timeout.
pub fn late_delay(before: Option<Moment>, timeout: Option<u64>, t: Moment) -> Option<Moment>
    requires { ForSome timeout (λ timeout. timeout < 2 ^ 62) }
    ensures { result ≡ unwrap_or (option_map (λ n. late_at n before t) timeout) None }
{
    match timeout {
        Some(timeout) => late_moment(before, timeout, t),
        None => None,
    }
}

// The moment `t`, where a judge's finding turns from unusable to usable there.
pub fn cleared_moment(before: bool, now: bool, t: Moment) -> Option<Moment>
    ensures { result ≡ cond (before && not now) (Some t) None }
{
    if before && !now { Some(t) } else { None }
}

// Whether the moment is there and less than the wait before `t`.
pub fn is_awaited(end: Option<Moment>, wait: u64, t: Moment) -> bool
    requires { wait < 2 ^ 62 }
    ensures { result ≡ is_within wait t end }
{
    match end {
        Some(end) => t.nanos() < end.nanos() + wait,
        None => false,
    }
}

// The later of two moments, as far as they are there.
pub fn later_moment(one: Option<Moment>, other: Option<Moment>) -> Option<Moment>
    ensures { result ≡ later_of one other }
{
    match (one, other) {
        (Some(one), Some(other)) => Some(one.latest(other)),
        (one, None) => one,
        (None, other) => other,
    }
}

// The first moment after `t` at which a message is lost that is not lost at `t`, where none comes;
// `u64::MAX` where there is no such moment.
pub fn loss_after(last: Option<Moment>, timeout: u64, t: Moment) -> u64
    requires { timeout < 2 ^ 62 }
    ensures later { t < result }
    ensures before { (x : ℕ) → t ≤ x → x < result →
        is_lost_at timeout x last ≡ is_lost_at timeout t last }
    ensures there { result < 2 ^ 64 - 1 →
        is_lost_at timeout result last ≢ is_lost_at timeout t last }
{
    match last {
        Some(at) if t.nanos() <= at.nanos() + timeout => at.nanos() + timeout + 1,
        _ => u64::MAX,
    }
}

// The same where there is a timeout; without one nothing is ever lost.
pub fn delay_loss_after(last: Option<Moment>, timeout: Option<u64>, t: Moment) -> u64
    requires { ForSome timeout (λ timeout. timeout < 2 ^ 62) }
    ensures later { t < result }
    ensures before { (x : ℕ) → t ≤ x → x < result →
        unwrap_or (option_map (λ n. is_lost_at n x last) timeout) false
        ≡ unwrap_or (option_map (λ n. is_lost_at n t last) timeout) false }
    ensures there { result < 2 ^ 64 - 1 →
        unwrap_or (option_map (λ n. is_lost_at n result last) timeout) false
        ≢ unwrap_or (option_map (λ n. is_lost_at n t last) timeout) false }
{
    match timeout {
        Some(timeout) => loss_after(last, timeout, t),
        None => u64::MAX,
    }
}

// The first moment after `t` at which what is awaited at `t` is no longer; `u64::MAX` where nothing
// is.
pub fn awaited_until(end: Option<Moment>, wait: u64, t: Moment) -> u64
    requires { wait < 2 ^ 62 }
    ensures later { t < result }
    ensures before { (x : ℕ) → t ≤ x → x < result → is_within wait x end ≡ is_within wait t end }
    ensures there { result < 2 ^ 64 - 1 → is_within wait result end ≢ is_within wait t end }
{
    match end {
        Some(end) if t.nanos() < end.nanos() + wait => end.nanos() + wait,
        _ => u64::MAX,
    }
}
