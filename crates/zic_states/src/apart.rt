//! Rules that lie so far apart that their occurrences come in order for ever.

ghost use Rattle.std.specs.Prelude.{◌<◌, length, IsTrue};
ghost use Rattle.zic_states.specs.code.Apart.{LieApart, LiesApart, LieFarApart};

use zic_lines::{Rule, SetName};
use zic_source::Source;

/// Returns whether of the rules of a set that go on for ever each lies three months or more from
/// each other.
pub(crate) fn lie_far_apart(source: &Source, set: &SetName) -> bool
    ensures { IsTrue result → LieFarApart (record { rules = source.now.rules; name = set.now }) }
{
    for number in source.set_rules(set) {
        if !lies_apart(source, set, *number) {
            return false;
        }
    }
    true
}

/// Returns whether the rule of this number lies three months or more from each other rule of the
/// set, if both go on for ever.
fn lies_apart(source: &Source, set: &SetName, number: usize) -> bool
    requires { number < length source.now.rules }
    ensures { IsTrue result
        → LiesApart (record { rules = source.now.rules; name = set.now }) number }
{
    let rule = source.rule(number);
    if rule.last.is_some() {
        return true;
    }
    for other in source.set_rules(set) {
        if *other != number && !lie_apart(rule, source.rule(*other)) {
            return false;
        }
    }
    true
}

/// Returns whether the second rule has a last year, or the months of both lie three months or more
/// apart, also over the turn of a year. A day form and a time lead at most 19 days out of a month,
/// and offset and saving move an instant by at most two days more.
fn lie_apart(a: &Rule, b: &Rule) -> bool
    ensures { IsTrue result → LieApart a.now b.now }
{
    b.last.is_some() || matches!(a.moment.month.abs_diff(b.moment.month), 3..=9)
}
