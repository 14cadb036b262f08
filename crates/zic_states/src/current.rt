//! The current occurrence in a list: the last that isn't after an instant.

ghost use Rattle.std.specs.Prelude.{◌≡◌};
ghost use Rattle.zic_states.specs.ByList.{AreRising, before, rule_at};

use crate::occurrence::TimedOccurrence;

/// Returns the occurrences whose instants are before the limit.
pub fn before(occurrences: &[TimedOccurrence], limit: i64) -> &[TimedOccurrence]
    requires { AreRising occurrences.now }
    ensures { result.now ≡ before occurrences.now limit }
{
    let end = occurrences.partition_point(|occurrence| occurrence.instant < limit);
    &occurrences[..end]
}

/// Returns the rule of the last occurrence whose instant isn't after `t`; `None` where all come
/// later.
pub fn rule_at(occurrences: &[TimedOccurrence], t: i64) -> Option<u16>
    requires { AreRising occurrences.now }
    ensures { result ≡ rule_at occurrences.now t }
{
    let end = occurrences.partition_point(|occurrence| occurrence.instant <= t);
    let last = occurrences[..end].last()?;
    Some(last.rule)
}
