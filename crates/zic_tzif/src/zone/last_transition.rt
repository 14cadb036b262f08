//! The last transition of a file.

ghost use Rattle.std.specs.Prelude.{◌≡◌, [], MatchOption};

use super::Zone;

impl Zone {
    ghost use Rattle.zic_tzif.specs.LastTransition.{IsLastTransitionAt};

    /// Returns the instant of the last transition, if there is one: from it on local time is the
    /// footer's (RFC 9636, 3.3).
    pub fn last_transition(&self) -> Option<i64>
        ensures { MatchOption result (self.now.changes ≡ []) (IsLastTransitionAt self.now) }
    {
        let times = self.times.times.as_slice();
        let count = times.len();
        if count == 0 {
            return None;
        }
        Some(times[count - 1])
    }
}
