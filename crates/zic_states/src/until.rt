//! The instants of UNTILs.

ghost use Rattle.std.specs.Prelude.{◌≡◌, None, All, MatchOption};
ghost use Rattle.zic_source.specs.Sound.{IsSoundRule, IsSoundLine, IsSoundUntil};
ghost use Rattle.zic_states.specs.Until.{IsUntil, IsSavedAtUntil};
ghost use Rattle.zic_states.specs.Occurrences.{AreOccurrencesFor};
ghost use Rattle.zic_states.specs.code.Walk.{AreOccurrencesOfSet};

use crate::nominal::nominal_second;
use crate::occurrence::TimedOccurrence;
use crate::walk::instant_by;
use zic_lines::{Rules, Until, ZoneLine};
use zic_source::Source;

/// Returns the instant of a line's UNTIL, in seconds from 1970-01-01T00:00:00 UT without leap
/// seconds; none where the line has no UNTIL. A time of day by the wall clock is read with what is
/// saved by the line's own RULES: where they name a set, after the least number of its occurrences
/// such that the next one isn't before the instant that results. So an occurrence at the exact
/// instant of the UNTIL doesn't count.
pub fn until_instant(
    source: &Source,
    line: &ZoneLine,
    occurrences: &[TimedOccurrence],
) -> Option<i64>
    requires rules { All IsSoundRule source.now.rules }
    requires line { IsSoundLine source.now.rules line.now }
    requires occurrences { AreOccurrencesFor source.now.rules line.now line.now.rules
        occurrences.now }
    ensures { MatchOption result (line.now.until ≡ None)
        (λ t. IsUntil source.now.rules line.now t) }
{
    let until = line.until?;
    let saved = match &line.rules {
        Rules::Standard => 0,
        Rules::Amount(saving) => saving.seconds,
        Rules::Set(_) => saved_by_set(source, line, until, occurrences),
    };
    let second = nominal_second(until.year, &until.moment);
    Some(instant_by(until.moment.at.form, line.offset, saved, second))
}

/// Returns the seconds that are saved at an UNTIL on a line with a set, by the set's occurrences.
fn saved_by_set(
    source: &Source,
    line: &ZoneLine,
    until: Until,
    occurrences: &[TimedOccurrence],
) -> i32
    requires rules { All IsSoundRule source.now.rules }
    requires line { IsSoundLine source.now.rules line.now }
    requires until { IsSoundUntil until }
    requires occurrences { AreOccurrencesOfSet source.now.rules line.now until occurrences.now }
    ensures { IsSavedAtUntil source.now.rules line.now.offset until line.now.rules result }
{
    let second = nominal_second(until.year, &until.moment);
    let mut saved = 0;
    for occurrence in occurrences {
        let instant = instant_by(until.moment.at.form, line.offset, saved, second);
        if instant <= occurrence.instant {
            return saved;
        }
        saved = source.rule(usize::from(occurrence.rule)).saving.seconds;
    }
    saved
}
