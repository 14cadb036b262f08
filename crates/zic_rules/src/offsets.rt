//! Total offsets within 24 hours.

ghost use Rattle.std.specs.Prelude.{◌≡◌, ◌<◌, ◌≤◌, ◌+ℤ◌, true, false, All, length, unsigned_abs, slice_get, IfSome};
ghost use Rattle.std.specs.List.{list_all};
ghost use Rattle.zic_source.specs.Sound.{IsSoundLine, IsWithinDay};
ghost use Rattle.zic_states.specs.Fault.{HasOffsetOutOfRange};
ghost use Rattle.zic_rules.specs.code.Period.{the_zone};
ghost use Rattle.zic_rules.specs.code.Shown.{IsInRangeOn, IsOutOfRangeOn, AreAllInRange, IsOneOutOfRange};

use crate::zone::Zone;
use zic_lines::GREATEST_OFFSET;
use zic_source::{Rules, Source, ZoneLine};

/// Returns whether the standard offset of each line of a zone, together with each saving of its
/// RULES, is within 24 hours.
pub(crate) fn are_offsets_in_range(zone: Zone<'_>) -> bool
    ensures inside { result ≡ true → HasOffsetOutOfRange (the_zone zone.entry) → ⊥ }
    ensures outside { result ≡ false → HasOffsetOutOfRange (the_zone zone.entry) }
{
    for number in 0..zone.lines() {
        if !is_line_in_range(zone.source, zone.line(number)) {
            return false;
        }
    }
    true
}

/// Returns whether a line's standard offset, together with each saving of its RULES, is within 24
/// hours.
fn is_line_in_range(source: &Source, line: &ZoneLine) -> bool
    requires { IsSoundLine source.now.rules line.now }
    ensures inside { result ≡ true → IsInRangeOn source.now.rules line.now }
    ensures outside { result ≡ false → IsOutOfRangeOn source.now.rules line.now }
{
    match &line.rules {
        Rules::Standard => true,
        Rules::Amount(saving) => is_total_in_range(line.offset, saving.seconds),
        Rules::Set(set) => are_totals_in_range(source, source.set_rules(set), line.offset),
    }
}

/// Returns whether this offset, together with the saving of each of the rules of these numbers, is
/// within 24 hours.
fn are_totals_in_range(source: &Source, numbers: &[usize], offset: i32) -> bool
    requires numbers { All (λ n. n < length source.now.rules) numbers.now }
    requires offset { IsWithinDay offset }
    ensures inside { result ≡ true
        → AreAllInRange source.now.rules offset numbers.now (length numbers.now) }
    ensures outside { result ≡ false → IsOneOutOfRange source.now.rules offset numbers.now }
{
    for number in numbers {
        if !is_total_in_range(offset, source.rule(*number).saving.seconds) {
            return false;
        }
    }
    true
}

/// Returns whether an offset and a saving together are within 24 hours.
fn is_total_in_range(offset: i32, saving: i32) -> bool
    requires offset { IsWithinDay offset }
    requires saving { IsWithinDay saving }
    ensures inside { result ≡ true → unsigned_abs (offset +ℤ saving) ≤ GREATEST_OFFSET }
    ensures outside { result ≡ false → GREATEST_OFFSET < unsigned_abs (offset +ℤ saving) }
{
    (offset + saving).unsigned_abs() <= GREATEST_OFFSET
}
