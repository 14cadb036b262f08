//! Abbreviations by FORMAT, and the texts of UT offsets, for which `%z` stands.

ghost use Rattle.std.specs.Prelude.{◌≡◌, ◌≤◌, ◌++◌, IfOk, IfErr, true, unsigned_abs, ◌+◌, ◌<◌};
ghost use Rattle.std.specs.Option.{option_copied};
ghost use Rattle.zic_states.specs.Abbreviation.{abbreviation, abbreviation_of, minutes_text, sign, short_offset_text};
ghost use Rattle.zic_lines.specs.Limits.{is_abbreviation};
ghost use Rattle.zic_states.specs.Refusal.{IsRefusal};
ghost use Rattle.arrayvec.specs.ArrayVec.{array_vec_len};
ghost use Rattle.zic_base.specs.Digits.{two_digits};

use crate::abbreviation::Abbreviation;
use arrayvec::ArrayVec;
use zic_base::{Kind, LONGEST_ABBREVIATION, two_digits};
use zic_lines::{Format, GREATEST_OFFSET, Letter};

/// Returns the abbreviation that FORMAT gives at this total UT offset in seconds, positive east,
/// and this daylight flag, with this letter if there is one (zic(8), FORMAT). Takes no memory.
///
/// `NoLetter` where FORMAT wants a letter and there is none; `BadAbbreviation` where it gives none.
pub fn abbreviation(
    format: &Format,
    offset: i32,
    daylight: bool,
    letter: Option<&Letter>,
) -> Result<Abbreviation, Kind>
    requires { unsigned_abs offset ≤ GREATEST_OFFSET }
    ensures ok { IfOk result (λ made. abbreviation format.now offset daylight
        (option_copied letter.entry) ≡ Some made) }
    ensures within { IfOk result (λ made. is_abbreviation made ≡ true) }
    ensures err { IfErr result
        (IsRefusal (abbreviation format.now offset daylight (option_copied letter.entry))) }
{
    let made = match format {
        Format::Plain(text) => Abbreviation::parse(text.octets()),
        Format::Letter(before, after) => match letter {
            Some(letter) => joined(before.octets(), letter.octets(), after.octets()),
            None => return Err(Kind::NoLetter),
        },
        Format::Offset(before, after) => {
            let middle = short_offset_text(offset);
            joined(before.octets(), middle.as_slice(), after.octets())
        }
        Format::Pair(standard, saving) => {
            let text = if daylight { saving } else { standard };
            Abbreviation::parse(text.octets())
        }
    };
    made.ok_or(Kind::BadAbbreviation)
}

/// Returns the abbreviation that these parts are together, or `None` where they aren't one; they
/// may be long.
fn joined(before: &[u8], middle: &[u8], after: &[u8]) -> Option<Abbreviation>
    ensures { result ≡ abbreviation_of (before.now ++ middle.now ++ after.now) }
{
    let mut text = ArrayVec::<u8, LONGEST_ABBREVIATION>::new();
    text.try_extend_from_slice(before).ok()?;
    text.try_extend_from_slice(middle).ok()?;
    text.try_extend_from_slice(after).ok()?;
    Abbreviation::parse(text.as_slice())
}

/// The greatest length of a UT offset's text, in bytes: a sign and two digits each of hours,
/// minutes and seconds.
const LONGEST_OFFSET_TEXT: usize = 7;

/// A UT offset's text, or a part of it.
type Text = ArrayVec<u8, LONGEST_OFFSET_TEXT>;

/// Returns the shortest of `+hh`, `+hhmm` and `+hhmmss` that gives a UT offset in seconds, with `-`
/// west of Greenwich.
pub(crate) fn short_offset_text(offset: i32) -> Text
    requires { unsigned_abs offset ≤ GREATEST_OFFSET }
    ensures { result.items ≡ short_offset_text offset }
{
    let seconds = offset.unsigned_abs();
    let mut text = Text::new();
    text.push(sign(offset));
    push_two_digits(&mut text, seconds / 3600);
    push_minutes(&mut text, seconds % 3600);
    text
}

/// Returns `-` for an offset west of Greenwich, else `+`.
fn sign(offset: i32) -> u8
    ensures { result ≡ sign offset }
{
    if offset < 0 { b'-' } else { b'+' }
}

/// Appends minutes and seconds of an hour, without what is 0 at the end.
fn push_minutes(text: &mut Text, seconds: u32)
    requires hour { seconds < 3600 }
    requires room { array_vec_len text.old + 4 ≤ LONGEST_OFFSET_TEXT }
    ensures { text.new.items ≡ text.old.items ++ minutes_text seconds }
{
    if seconds == 0 {
        return;
    }
    push_two_digits(text, seconds / 60);
    if seconds % 60 != 0 {
        push_two_digits(text, seconds % 60);
    }
}

/// Appends two decimal digits.
fn push_two_digits(text: &mut Text, n: u32)
    requires two { n < 100 }
    requires room { array_vec_len text.old + 2 ≤ LONGEST_OFFSET_TEXT }
    ensures items { text.new.items ≡ text.old.items ++ two_digits n }
    ensures len { array_vec_len text.new ≡ array_vec_len text.old + 2 }
{
    let [tens, ones] = two_digits(n);
    text.push(tens);
    text.push(ones);
}
