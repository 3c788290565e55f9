//! A law of audits. The function does nothing: its contract is the law, which holds of every list
//! of groups of lines, wherever it comes from.

ghost use Rattle.std.specs.Prelude.{◌≡◌, [], ℕ, List, None};
ghost use Rattle.ptu_audit.specs.{declared.line.Line.{Line}, Trails.{AreSound, groups_finding}};

use ptu_trail::laws::faultless_so_far;

/// Nothing is found in groups of lines exactly where each group is as it must be and no
/// grandmaster's trail has a fault.
pub fn findings()
    ensures sound { (capacity : ℕ) (groups : List (List Line)) →
        groups_finding capacity [] groups ≡ None → AreSound capacity groups }
    ensures none { (capacity : ℕ) (groups : List (List Line)) →
        AreSound capacity groups → groups_finding capacity [] groups ≡ None }
{
    faultless_so_far();
}
