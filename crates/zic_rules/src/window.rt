//! The window at the start of a line that follows another.

ghost use Rattle.std.specs.Prelude.{◌≡◌, ◌<◌, ◌*◌, pos, ◌+ℤ◌, ◌<ℤ◌, ◌≤ℤ◌, None, Some, IfSome, length};
ghost use Rattle.zic_source.specs.Sound.{IsSoundSource, IsSoundLine};
ghost use Rattle.zic_states.specs.ByList.{rule_at};
ghost use Rattle.zic_states.specs.InForce.{IsRuleOf};
ghost use Rattle.zic_states.specs.Zone.{line_at};
ghost use Rattle.zic_rules.specs.code.Period.{the_zone, HasLine};
ghost use Rattle.zic_rules.specs.code.End.{IsInYears};
ghost use Rattle.zic_rules.specs.code.Held.{AreSoFar, last_rule};
ghost use Rattle.zic_rules.specs.code.Line.{GivesInForce, IsEndOfWindow, IsTotalOffset};

use crate::line::Period;
use crate::zone::Zone;
use zic_source::{Source, ZoneLine};
use zic_states::{TimedOccurrence, observance_by, rule_at};

/// Returns the end of the window of the line of this number, which follows another and starts at
/// `start`.
pub(crate) fn window_end(
    zone: Zone<'_>,
    number: usize,
    start: i64,
    mine: &[TimedOccurrence],
    periods: &[Period],
) -> i64
    requires sound { IsSoundSource zone.source.now }
    requires number { HasLine (the_zone zone) number }
    requires start { IsInYears 9002 start }
    requires so_far { AreSoFar (the_zone zone) number (Some start) periods.now }
    requires gives { IfSome (line_at (the_zone zone) number)
        (λ line. GivesInForce (the_zone zone) (start +ℤ pos (5 * 86_400)) line mine.now) }
    ensures window { IfSome (line_at (the_zone zone.entry) number)
        (λ line. IsEndOfWindow (the_zone zone.entry) number line result) }
    ensures from { start ≤ℤ result }
    ensures to { result <ℤ (start +ℤ pos (5 * 86_400)) }
{
    let earlier = total_offset(zone.source, zone.line(number - 1), last_rule(periods));
    let later = total_offset(zone.source, zone.line(number), rule_at(mine, start));
    start + (earlier - later).max(0)
}

/// Returns the rule of the last period; `None` where there is no period.
fn last_rule(periods: &[Period]) -> Option<u16>
    ensures { result ≡ last_rule None periods.now }
{
    periods.last()?.rule
}

/// Returns the total offset of a line by this rule, or before all occurrences.
fn total_offset(source: &Source, line: &ZoneLine, rule: Option<u16>) -> i64
    requires sound { IsSoundSource source.now }
    requires line { IsSoundLine source.now.rules line.now }
    requires rule { IsRuleOf source.now.rules line.now.rules rule }
    ensures { IsTotalOffset source.now.rules line.now rule result }
{
    i64::from(line.offset) + i64::from(observance_by(source, line, rule).saving)
}
