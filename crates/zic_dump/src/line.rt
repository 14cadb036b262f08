//! Lines of the text.

ghost use Rattle.std.specs.Prelude.{◌≡◌, ◌≤◌, ◌<◌, ◌++◌, ◌∷◌, [], if◌then◌else◌, pos, unsigned_abs, OnOk, IfOk};
ghost use Rattle.std.specs.Char.{is_ascii_alphabetic};
ghost use Rattle.std.specs.Int.{int_rem_euclid};
ghost use Rattle.std.specs.List.{list_all};
ghost use Rattle.zic_base.specs.Digits.{two_digits};
ghost use Rattle.zic_base.specs.State.{shown};
ghost use Rattle.zic_base.specs.declared.constants.TheConstants.{FARTHEST_FILE_OFFSET};
ghost use Rattle.zic_tzif.specs.Answer.{answered};
ghost use Rattle.zic_dump.specs.Changes.{Change, shown_for, HasLocalTime, IsLocalAt};
ghost use Rattle.zic_dump.specs.Text.{change_line, line_text, head_text, date_text, time_text, clock_text, is_placeholder, zdump_offset, escaped, quoted, is_word, name_text, state_text};
ghost use Rattle.zic_dump.specs.code.Listed.{IsListed};
ghost use Rattle.zic_dump.specs.code.Written.{IsWritten, text_with};

use std::alloc::{AllocError, Global};
use zic_base::{State, two_digits};
use zic_calendar::{Civil, SECONDS_OF_DAY, civil};
use zic_tzif::Answer;

/// Returns the lines before those of changes, for a file at a path that answers this before them.
pub(crate) fn head(alloc: Global, path: &str, before: &Answer<'_>) -> Result<Vec<u8>, AllocError>
    requires { unsigned_abs (shown_for (answered before.now)).offset ≤ FARTHEST_FILE_OFFSET }
    ensures { IfOk result (λ text. text.items ≡ head_text path.now (answered before.now)) }
{
    let mut text = Vec::from_slice(alloc, b"\nTZ=")?;
    push_quoted(&mut text, path.as_bytes())?;
    text.extend_from_slice(b"\n-\t-\t")?;
    push_state(alloc, &mut text, &shown_for(before))?;
    text.push(b'\n')?;
    Ok(text)
}

/// Adds the line of a change at an instant, from which a file answers this.
pub(crate) fn push_change(
    alloc: Global,
    text: &mut Vec<u8>,
    t: i64,
    answer: &Answer<'_>,
) -> Result<(), AllocError>
    requires listed { IsListed t }
    requires offset { unsigned_abs (shown_for (answered answer.now)).offset ≤ FARTHEST_FILE_OFFSET }
    ensures { OnOk result ((c : Change) × (c.instant ≡ t) × (c.answer ≡ answered answer.now)
        × HasLocalTime c × (text.new.items ≡ text.old.items ++ change_line c)) }
{
    let state = shown_for(answer);
    let local = local_time(t, &state);
    push_line(alloc, text, &local, &state)
}

/// Returns local time of a state at an instant.
fn local_time(t: i64, state: &State<'_>) -> Civil
    requires listed { IsListed t }
    requires offset { unsigned_abs state.now.offset ≤ FARTHEST_FILE_OFFSET }
    ensures local { IsLocalAt t (shown state.now) result }
    ensures written { IsWritten result }
{
    let second = t + state.offset as i64;
    civil(second.div_euclid(SECONDS_OF_DAY), second_of_day(second))
}

/// Returns the second of its day that a second since 1970-01-01 is.
fn second_of_day(second: i64) -> u32
    ensures value { result ≡ unsigned_abs (int_rem_euclid second (pos 86_400)) }
    ensures range { result < 86_400 }
{
    second.rem_euclid(SECONDS_OF_DAY) as u32
}

/// Adds the line of a date, a time of day and a state.
fn push_line(
    alloc: Global,
    text: &mut Vec<u8>,
    local: &Civil,
    state: &State<'_>,
) -> Result<(), AllocError>
    requires local { IsWritten local.now }
    requires offset { unsigned_abs state.now.offset ≤ FARTHEST_FILE_OFFSET }
    ensures { OnOk result (text.new.items
        ≡ text.old.items ++ line_text local.now (shown state.now)) }
{
    push_local(text, local)?;
    push_state(alloc, text, state)?;
    text.push(b'\n')?;
    Ok(())
}

/// Adds a date and a time of day, and a tab after each.
fn push_local(text: &mut Vec<u8>, local: &Civil) -> Result<(), AllocError>
    requires { IsWritten local.now }
    ensures { OnOk result (text.new.items
        ≡ text.old.items ++ (date_text local.now ++ 9 ∷ (time_text local.now ++ 9 ∷ []))) }
{
    push_date(text, local)?;
    text.push(b'\t')?;
    push_time(text, local)?;
    text.push(b'\t')?;
    Ok(())
}

/// Returns what is shown for an answer.
fn shown_for<'a>(answer: &Answer<'a>) -> State<'a>
    ensures { shown result ≡ shown_for (answered answer.now) }
{
    match answer {
        Answer::Known(state) => *state,
        Answer::Unspecified => State {
            offset: 0,
            daylight: false,
            name: b"-00",
        },
    }
}

/// Adds a date.
fn push_date(text: &mut Vec<u8>, local: &Civil) -> Result<(), AllocError>
    requires { IsWritten local.now }
    ensures { OnOk result (text.new.items ≡ text.old.items ++ date_text local.now) }
{
    let year = local.year as u32;
    let [y, yy] = two_digits(year / 100);
    let [yyy, yyyy] = two_digits(year % 100);
    let [m, mm] = two_digits(local.month as u32);
    let [d, dd] = two_digits(local.day as u32);
    text.extend_from_slice(&[y, yy, yyy, yyyy, b'-', m, mm, b'-', d, dd])
}

/// Adds a time of day.
fn push_time(text: &mut Vec<u8>, local: &Civil) -> Result<(), AllocError>
    requires { IsWritten local.now }
    ensures { OnOk result (text.new.items ≡ text.old.items ++ time_text local.now) }
{
    let (minute, second) = (local.minute as u32, local.second as u32);
    push_clock(text, b":", local.hour as u32, minute, second)
}

/// Adds hours, minutes and seconds, each below 100, with a mark between them.
fn push_clock(
    text: &mut Vec<u8>,
    mark: &[u8],
    hour: u32,
    minute: u32,
    second: u32,
) -> Result<(), AllocError>
    requires hour { hour < 100 }
    requires minute { minute < 100 }
    requires second { second < 100 }
    ensures { OnOk result (text.new.items
        ≡ text.old.items ++ clock_text mark.now hour minute second) }
{
    text.extend_from_slice(&two_digits(hour))?;
    if minute == 0 && second == 0 {
        return Ok(());
    }
    push_part(text, mark, minute)?;
    if second == 0 {
        return Ok(());
    }
    push_part(text, mark, second)
}

/// Adds minutes or seconds after a mark.
fn push_part(text: &mut Vec<u8>, mark: &[u8], part: u32) -> Result<(), AllocError>
    requires { part < 100 }
    ensures { OnOk result (text.new.items ≡ text.old.items ++ (mark.now ++ two_digits part)) }
{
    text.extend_from_slice(mark)?;
    text.extend_from_slice(&two_digits(part))
}

/// Adds an offset, an abbreviation and a daylight flag.
fn push_state(alloc: Global, text: &mut Vec<u8>, state: &State<'_>) -> Result<(), AllocError>
    requires { unsigned_abs state.now.offset ≤ FARTHEST_FILE_OFFSET }
    ensures { OnOk result (text.new.items ≡ text.old.items ++ state_text (shown state.now)) }
{
    let offset = zdump_offset(alloc, state)?;
    push_state_of(text, &offset, state)
}

/// Adds an offset's text, and the abbreviation and the daylight flag of its state.
fn push_state_of(text: &mut Vec<u8>, offset: &[u8], state: &State<'_>) -> Result<(), AllocError>
    ensures { OnOk result (text.new.items
        ≡ text.old.items ++ text_with offset.now (shown state.now)) }
{
    let same = offset == state.name;
    text.extend_from_slice(offset)?;
    push_abbreviation(text, state.name, same)?;
    push_flag(text, state.daylight, same)
}

/// Adds a tab and an abbreviation, or nothing where it is the same as the offset's text.
fn push_abbreviation(text: &mut Vec<u8>, name: &[u8], same: bool) -> Result<(), AllocError>
    ensures { OnOk result (text.new.items
        ≡ text.old.items ++ (if same then [] else 9 ∷ name_text name.now)) }
{
    if same {
        return Ok(());
    }
    text.push(b'\t')?;
    push_name(text, name)
}

/// Adds the flag of daylight saving time, after a tab for an abbreviation that was left out.
fn push_flag(text: &mut Vec<u8>, daylight: bool, same: bool) -> Result<(), AllocError>
    ensures { OnOk result (text.new.items ≡ text.old.items
        ++ (if daylight then (if same then 9 ∷ [] else []) ++ 9 ∷ 49 ∷ [] else [])) }
{
    if !daylight {
        return Ok(());
    }
    if same {
        text.push(b'\t')?;
    }
    text.extend_from_slice(b"\t1")
}

/// Returns an offset.
fn zdump_offset(alloc: Global, state: &State<'_>) -> Result<Vec<u8>, AllocError>
    requires { unsigned_abs state.now.offset ≤ FARTHEST_FILE_OFFSET }
    ensures { IfOk result (λ text. text.items ≡ zdump_offset (shown state.now)) }
{
    let sign = if state.offset < 0 || is_placeholder(state) {
        b'-'
    } else {
        b'+'
    };
    let seconds = state.offset.unsigned_abs();
    let mut text = Vec::from_slice(alloc, &[sign])?;
    push_clock(
        &mut text,
        b"",
        seconds / 3600,
        seconds / 60 % 60,
        seconds % 60,
    )?;
    Ok(text)
}

/// Returns whether an offset is that of a place without local time.
fn is_placeholder(state: &State<'_>) -> bool
    ensures { result ≡ is_placeholder (shown state.now) }
{
    state.offset == 0 && (state.name.first() == Some(&b'-') || state.name == b"zzz".as_slice())
}

/// Adds an abbreviation.
fn push_name(text: &mut Vec<u8>, name: &[u8]) -> Result<(), AllocError>
    ensures { OnOk result (text.new.items ≡ text.old.items ++ name_text name.now) }
{
    if is_word(name) {
        text.extend_from_slice(name)
    } else {
        push_quoted(text, name)
    }
}

/// Returns whether a text is letters, and some.
fn is_word(text: &[u8]) -> bool
    ensures { result ≡ is_word text.now }
{
    text.len() > 0 && are_letters(text)
}

/// Returns whether each byte is a letter.
fn are_letters(text: &[u8]) -> bool
    ensures { result ≡ list_all is_ascii_alphabetic text.now }
{
    text.iter().all(|byte| byte.is_ascii_alphabetic())
}

/// Adds a text between double quotes.
fn push_quoted(text: &mut Vec<u8>, bytes: &[u8]) -> Result<(), AllocError>
    ensures { OnOk result (text.new.items ≡ text.old.items ++ quoted bytes.now) }
{
    text.push(b'"')?;
    for byte in bytes {
        push_escaped(text, *byte)?;
    }
    text.push(b'"')?;
    Ok(())
}

/// Adds a byte of a text between double quotes.
fn push_escaped(text: &mut Vec<u8>, byte: u8) -> Result<(), AllocError>
    ensures { OnOk result (text.new.items ≡ text.old.items ++ escaped byte) }
{
    match byte {
        b'"' | b'\\' => text.extend_from_slice(&[b'\\', byte]),
        b' ' => text.extend_from_slice(b"\\s"),
        b'\x0c' => text.extend_from_slice(b"\\f"),
        b'\n' => text.extend_from_slice(b"\\n"),
        b'\r' => text.extend_from_slice(b"\\r"),
        b'\t' => text.extend_from_slice(b"\\t"),
        b'\x0b' => text.extend_from_slice(b"\\v"),
        _ => text.extend_from_slice(&[byte]),
    }
}
