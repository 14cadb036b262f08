//! The time of day of AT and of an UNTIL.

ghost use Rattle.std.specs.Prelude.{◌≡◌, IfSome, option_map};
ghost use Rattle.zic_lines.specs.Time.{signed_seconds, IsWithin};
ghost use Rattle.zic_lines.specs.Clock.{clock_suffix, clock_time_of};

use crate::time::signed_seconds;
use crate::word::is_dash;

/// The greatest time of day either way, in seconds: 300 hours.
pub const LATEST_TIME: u32 = 1_080_000;

/// The clock by which a time of day is meant.
#[derive(Clone, Copy, Debug, PartialEq, Eq)]
pub enum ClockForm {
    /// Local time with its saving.
    Wall,
    /// Local time without saving.
    Standard,
    /// Universal time.
    Universal,
}

/// A time of day in seconds, and the clock by which it is meant.
#[derive(Clone, Copy, Debug, PartialEq, Eq)]
pub struct ClockTime {
    pub seconds: i32,
    pub form: ClockForm,
}

/// Returns the clock that a suffix names, if it is one.
fn clock_suffix(byte: u8) -> Option<ClockForm>
    ensures { result ≡ clock_suffix byte }
{
    match byte {
        b'w' | b'W' => Some(ClockForm::Wall),
        b's' | b'S' => Some(ClockForm::Standard),
        b'u' | b'U' | b'g' | b'G' | b'z' | b'Z' => Some(ClockForm::Universal),
        _ => None,
    }
}

/// Returns the time of day that an AT or TIME field names, within 300 hours either way; `None`
/// where it names none (zic(8), AT).
#[tactic(auto, unfolding(crate::specs::Clock::clock_time_of))]
pub fn clock_time(field: &[u8]) -> Option<ClockTime>
    ensures value { result ≡ clock_time_of field.now }
    ensures within { IfSome result (λ time. IsWithin LATEST_TIME time.seconds) }
{
    if is_dash(field) {
        return Some(ClockTime {
            seconds: 0,
            form: ClockForm::Wall,
        });
    }
    match field {
        [text @ .., last] => match clock_suffix(*last) {
            Some(form) => time_by(form, text),
            None => time_by(ClockForm::Wall, field),
        },
        [] => None,
    }
}

/// Returns the time that a text without a suffix names, by this clock.
fn time_by(form: ClockForm, text: &[u8]) -> Option<ClockTime>
    ensures value { result ≡ option_map
        (λ s. record { seconds = s; form = form }) (signed_seconds LATEST_TIME text.now) }
    ensures within { IfSome result (λ time. IsWithin LATEST_TIME time.seconds) }
{
    let seconds = signed_seconds(LATEST_TIME, text)?;
    Some(ClockTime { seconds, form })
}
