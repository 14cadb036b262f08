//! The walk through a set's occurrences, which finds their instants.

ghost use Rattle.std.specs.Prelude.{◌≡◌, ◌<◌, ◌<ℤ◌, pos, length, All, AllPairs, IfOk, MatchBool};
ghost use Rattle.zic_base.specs.Fault.{kind_of};
ghost use Rattle.zic_base.specs.Memory.{IfRefusal};
ghost use Rattle.zic_source.specs.Sound.{IsWithinDay};
ghost use Rattle.zic_states.specs.Occurrence.{IsNear};
ghost use Rattle.zic_states.specs.Order.{instant_by};
ghost use Rattle.zic_states.specs.code.Timed.{timed_from, HasFall, ComesAfter, ComesNotAfter};

use crate::nominal::Nominal;
use crate::occurrence::TimedOccurrence;
use std::alloc::Global;
use zic_base::{Kind, ZoneStop};
use zic_lines::ClockForm;
use zic_source::Source;

/// Returns the instant at which a clock shows this nominal second, where standard time is `offset`
/// seconds east of UT and `saved` seconds are saved (zic(8), AT).
pub fn instant_by(form: ClockForm, offset: i32, saved: i32, second: i64) -> i64
    requires { IsNear second }
    ensures { result ≡ instant_by form offset saved second }
{
    match form {
        ClockForm::Universal => second,
        ClockForm::Standard => second - i64::from(offset),
        ClockForm::Wall => second - i64::from(offset) - i64::from(saved),
    }
}

/// Returns whether an instant comes after the last of these, if there is one.
fn comes_after(instant: i64, timed: &[TimedOccurrence]) -> bool
    ensures { MatchBool result (ComesAfter timed.now instant) (ComesNotAfter timed.now instant) }
{
    match timed.last() {
        Some(last) => last.instant < instant,
        None => true,
    }
}

/// Returns these occurrences with their instants, if each comes after the one before it.
pub(crate) fn timed(
    alloc: Global,
    source: &Source,
    offset: i32,
    nominals: &[Nominal],
) -> Result<Vec<TimedOccurrence>, ZoneStop>
    requires offset { IsWithinDay offset }
    requires known { All (λ n. n.rule < length source.now.rules) nominals.now }
    requires near { All (λ n. IsNear n.second) nominals.now }
    ensures items { IfOk result
        (λ made. made.items ≡ timed_from source.now.rules offset (pos 0) nominals.now) }
    ensures rising { IfOk result (λ made. AllPairs (λ a b. a.instant <ℤ b.instant) made.items) }
    ensures err { IfRefusal kind_of result
        (λ kind. (kind ≡ Kind.RulesOutOfOrder)
        × HasFall (timed_from source.now.rules offset (pos 0) nominals.now)) }
{
    let mut timed = Vec::with_capacity(alloc, nominals.len())?;
    let mut saved = 0;
    for nominal in nominals {
        let rule = source.rule(usize::from(nominal.rule));
        let instant = instant_by(rule.moment.at.form, offset, saved, nominal.second);
        if !comes_after(instant, &timed) {
            return Err(ZoneStop::Fault(Kind::RulesOutOfOrder));
        }
        timed.push(TimedOccurrence {
            instant,
            rule: nominal.rule,
            year: nominal.year,
        })?;
        saved = rule.saving.seconds;
    }
    Ok(timed)
}
