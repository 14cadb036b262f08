//! Observances: what is in force by the RULES of a line.

ghost use Rattle.std.specs.Prelude.{◌≡◌, ◌<◌, ◌↔◌, pos, false, All, IsTrue, length};
ghost use Rattle.std.specs.Option.{ForSome, option_copied};
ghost use Rattle.zic_source.specs.Sound.{IsSoundRule};
ghost use Rattle.zic_states.specs.Occurrence.{nominal_second};
ghost use Rattle.zic_states.specs.Observance.{in_force};
ghost use Rattle.zic_states.specs.InForce.{IsLetterBefore, IsInForceBy, IsRuleOf};
ghost use Rattle.zic_states.specs.Until.{set_of};
ghost use Rattle.zic_states.specs.code.Letters.{ComesFirst, IsFirstOfStandard};

use crate::nominal::nominal_second;
use zic_lines::{Letter, Rule, Rules, SetName, ZoneLine};
use zic_source::{MAX_RULES, Source};

/// The observance of a line at an instant: its saving, and what goes with it (RFC 5545, 3.6.5).
#[derive(Clone, Copy, Debug)]
pub struct Observance<'a> {
    /// The seconds that are added to standard time.
    pub saving: i32,
    /// Whether this is daylight saving time.
    pub daylight: bool,
    /// The text for which `%s` of a FORMAT stands, if there is a letter.
    pub letter: Option<&'a Letter>,
}

/// Returns what the line's RULES keep by the rule of this number, which occurred last, or before
/// all occurrences where there is none.
pub fn observance_by<'a>(source: &'a Source, line: &ZoneLine, rule: Option<u16>) -> Observance<'a>
    requires { IsRuleOf source.now.rules line.now.rules rule }
    ensures { IsInForceBy source.now.rules line.now.rules rule (in_force result) }
{
    match (&line.rules, rule) {
        (Rules::Standard, _) => standard(None),
        (Rules::Amount(saving), _) => Observance {
            saving: saving.seconds,
            daylight: saving.daylight,
            letter: None,
        },
        (Rules::Set(set), None) => standard(letter_before(source, set)),
        (Rules::Set(_), Some(number)) => {
            let rule = source.rule(usize::from(number));
            Observance {
                saving: rule.saving.seconds,
                daylight: rule.saving.daylight,
                letter: Some(&rule.letter),
            }
        }
    }
}

/// Returns standard time, with this letter if there is one.
fn standard(letter: Option<&Letter>) -> Observance<'_>
    ensures saving { result.saving ≡ pos 0 }
    ensures daylight { result.daylight ≡ false }
    ensures letter { result.letter ≡ letter.entry }
{
    Observance {
        saving: 0,
        daylight: false,
        letter,
    }
}

/// Returns the letter before all occurrences of a set: that of the first whose flag is standard, if
/// there is one.
fn letter_before<'a>(source: &'a Source, set: &SetName) -> Option<&'a Letter>
    ensures { IsLetterBefore (set_of source.now.rules set.now) (option_copied result) }
{
    // The contract of `rules` says that the source is sound.
    prove!(source.rules() <= MAX_RULES);
    let first = first_standard(source, source.set_rules(set))?;
    Some(&source.rule(first).letter)
}

/// Returns the number of the rule that occurs first, of those of these numbers whose flag is
/// standard.
fn first_standard(source: &Source, numbers: &[usize]) -> Option<usize>
    requires { All (λ n. n < length source.now.rules) numbers.now }
    ensures { IsFirstOfStandard source.now.rules numbers.now (length numbers.now) result }
{
    let mut first = None;
    for number in numbers {
        if comes_first(source, *number, first) {
            first = Some(*number);
        }
    }
    first
}

/// Returns whether this rule's flag is standard and it occurs before the one found so far, if there
/// is one.
fn comes_first(source: &Source, number: usize, found: Option<usize>) -> bool
    requires number { number < length source.now.rules }
    requires found { ForSome found (λ n. n < length source.now.rules) }
    ensures { IsTrue result ↔ ComesFirst source.now.rules number found }
{
    let rule = source.rule(number);
    if rule.saving.daylight {
        return false;
    }
    match found {
        Some(found) => first_second(rule) < first_second(source.rule(found)),
        None => true,
    }
}

/// Returns the nominal second of a rule's first occurrence.
fn first_second(rule: &Rule) -> i64
    requires { IsSoundRule rule.now }
    ensures { result ≡ nominal_second (pos rule.now.first) rule.now.moment }
{
    nominal_second(rule.first, &rule.moment)
}
