//! POSIX TZ strings as text.

ghost use Rattle.std.specs.Prelude.{◌≡◌, ◌+◌, ◌<◌, ◌≤◌, ◌*◌, ◌++◌, ◌∷◌, unsigned_abs, IfOk, OnOk};
ghost use Rattle.std.specs.List.{list_all};
ghost use Rattle.zic_base.specs.Digits.{two_digits};
ghost use Rattle.zic_posix.specs.Footer.{version_of};
ghost use Rattle.zic_posix.specs.Grammar.{Spells, IsDay, IsEdge, IsDaylight, is_letter};
ghost use Rattle.zic_posix.specs.Printing.{printed_number, printed_name, printed_seconds, printed_signed, printed_offset, printed_day, printed_edge, printed_saving, printed_daylight, printed};

use crate::footer::{DayRule, Dst, Edge, Footer, USUAL_SAVING, USUAL_TIME};
use std::alloc::{AllocError, Global};
use zic_base::two_digits;

/// Returns the text of a string, which spells it in its version.
pub fn print(alloc: Global, f: &Footer) -> Result<Vec<u8>, AllocError>
    ensures printed { IfOk result (λ v. v.items ≡ printed f.now) }
    ensures spells { IfOk result (λ v. Spells (version_of f.now) v.items f.now) }
{
    let mut text = Vec::new(alloc);
    push_name(&mut text, f.std.octets())?;
    push_offset(&mut text, f.offset)?;
    if let Some(dst) = &f.dst {
        push_daylight(&mut text, f.offset, dst)?;
    }
    Ok(text)
}

/// Appends a daylight part beside standard time of this offset.
fn push_daylight(text: &mut Vec<u8>, standard: i32, dst: &Dst) -> Result<(), AllocError>
    requires standard { unsigned_abs standard < 100 * 3600 }
    requires daylight { IsDaylight standard dst.now }
    ensures { OnOk result (text.new.items ≡ text.old.items ++ printed_daylight standard dst.now) }
{
    push_name(text, dst.name.octets())?;
    push_saving(text, standard, dst.offset)?;
    push_next_edge(text, dst.start)?;
    push_next_edge(text, dst.stop)
}

/// Appends the offset of daylight saving time, which is omitted where it is one hour ahead of
/// standard time.
fn push_saving(text: &mut Vec<u8>, standard: i32, offset: i32) -> Result<(), AllocError>
    requires standard { unsigned_abs standard < 100 * 3600 }
    requires offset { unsigned_abs offset < 1000 * 3600 }
    ensures { OnOk result (text.new.items ≡ text.old.items ++ printed_saving standard offset) }
{
    if offset == standard + USUAL_SAVING {
        return Ok(());
    }
    push_offset(text, offset)
}

/// Appends an edge after a comma.
fn push_next_edge(text: &mut Vec<u8>, edge: Edge) -> Result<(), AllocError>
    requires { IsEdge edge }
    ensures { OnOk result (text.new.items ≡ text.old.items ++ 44 ∷ printed_edge edge) }
{
    text.push(b',')?;
    push_edge(text, edge)
}

/// Appends an edge, whose time is omitted where it is 02:00:00.
fn push_edge(text: &mut Vec<u8>, edge: Edge) -> Result<(), AllocError>
    requires { IsEdge edge }
    ensures { OnOk result (text.new.items ≡ text.old.items ++ printed_edge edge) }
{
    push_day(text, edge.day)?;
    if edge.time == USUAL_TIME {
        return Ok(());
    }
    text.push(b'/')?;
    push_signed(text, edge.time)
}

fn push_day(text: &mut Vec<u8>, day: DayRule) -> Result<(), AllocError>
    requires { IsDay day }
    ensures { OnOk result (text.new.items ≡ text.old.items ++ printed_day day) }
{
    match day {
        DayRule::J(day) => {
            text.push(b'J')?;
            push_number(text, day)
        }
        DayRule::N(day) => push_number(text, day),
        DayRule::M {
            month,
            week,
            weekday,
        } => {
            text.push(b'M')?;
            push_number(text, u16::from(month))?;
            text.push(b'.')?;
            push_number(text, u16::from(week))?;
            text.push(b'.')?;
            push_number(text, u16::from(weekday))
        }
    }
}

/// Appends a name, between `<` and `>` where it isn't all letters.
fn push_name(text: &mut Vec<u8>, name: &[u8]) -> Result<(), AllocError>
    ensures { OnOk result (text.new.items ≡ text.old.items ++ printed_name name.now) }
{
    if is_all_letters(name) {
        return text.extend_from_slice(name);
    }
    text.push(b'<')?;
    text.extend_from_slice(name)?;
    text.push(b'>')?;
    Ok(())
}

fn is_all_letters(name: &[u8]) -> bool
    ensures { result ≡ list_all is_letter name.now }
{
    name.iter().all(|b| b.is_ascii_alphabetic())
}

/// Appends a UT offset in seconds, positive east, of which a text counts west.
fn push_offset(text: &mut Vec<u8>, offset: i32) -> Result<(), AllocError>
    requires { unsigned_abs offset < 1000 * 3600 }
    ensures { OnOk result (text.new.items ≡ text.old.items ++ printed_offset offset) }
{
    push_signed(text, -offset)
}

/// Appends hours, minutes and seconds, and a `-` before them below 0.
fn push_signed(text: &mut Vec<u8>, seconds: i32) -> Result<(), AllocError>
    requires { unsigned_abs seconds < 1000 * 3600 }
    ensures { OnOk result (text.new.items ≡ text.old.items ++ printed_signed seconds) }
{
    if seconds < 0 {
        text.push(b'-')?;
    }
    push_clock(text, seconds.unsigned_abs())
}

/// Appends hours, and minutes and seconds where there are some.
fn push_clock(text: &mut Vec<u8>, seconds: u32) -> Result<(), AllocError>
    requires { seconds < 1000 * 3600 }
    ensures { OnOk result (text.new.items ≡ text.old.items ++ printed_seconds seconds) }
{
    let hours = (seconds / 3600) as u16;
    let minutes = (seconds / 60 % 60) as u8;
    let seconds = (seconds % 60) as u8;
    push_number(text, hours)?;
    if minutes == 0 && seconds == 0 {
        return Ok(());
    }
    push_part(text, minutes)?;
    if seconds == 0 {
        return Ok(());
    }
    push_part(text, seconds)
}

/// Appends minutes or seconds after a colon.
fn push_part(text: &mut Vec<u8>, part: u8) -> Result<(), AllocError>
    requires { part < 100 }
    ensures { OnOk result (text.new.items ≡ text.old.items ++ 58 ∷ two_digits part) }
{
    text.push(b':')?;
    text.extend_from_slice(&two_digits(u32::from(part)))
}

/// Appends a number without leading zeros.
fn push_number(text: &mut Vec<u8>, number: u16) -> Result<(), AllocError>
    requires { number < 1000 }
    ensures { OnOk result (text.new.items ≡ text.old.items ++ printed_number number) }
{
    if number < 10 {
        text.push(b'0' + number as u8)?;
        return Ok(());
    }
    if 100 <= number {
        text.push(b'0' + (number / 100) as u8)?;
    }
    text.extend_from_slice(&two_digits(u32::from(number % 100)))
}
