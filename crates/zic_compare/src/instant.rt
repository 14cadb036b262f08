//! The text of instants.

ghost use Rattle.std.specs.Fmt.{signed_decimal};
ghost use Rattle.std.specs.Prelude.{◌≡◌, ◌++◌, true, if◌then◌else◌, OnOk};
ghost use Rattle.zic_compare.specs.InstantText.{has_date, instant_text, utc_text};

use crate::sides::Style;
use itoa::Buffer;
use std::alloc::{AllocError, Global};
use zic_layouts::Unit;
use zic_row_text::{RowText, RowTime};

/// The start of the year 1 in UT.
const FIRST_DATE: i64 = -62_135_596_800;

/// The last second of the year 9999 in UT.
const LAST_DATE: i64 = 253_402_300_799;

/// Adds an instant in a style.
pub(crate) fn push_instant(
    alloc: Global,
    lines: &mut Vec<u8>,
    style: Style,
    t: i64,
) -> Result<(), AllocError>
    ensures { OnOk result (lines.new.items ≡ lines.old.items ++ instant_text style t) }
{
    match style {
        Style::Count => push_count(lines, t),
        Style::Iso => push_iso(alloc, lines, t),
    }
}

/// Adds an instant as a count of seconds.
fn push_count(lines: &mut Vec<u8>, t: i64) -> Result<(), AllocError>
    ensures { OnOk result (lines.new.items ≡ lines.old.items ++ signed_decimal t) }
{
    lines.extend_from_slice(Buffer::new().format(t).as_bytes())
}

/// Adds an instant as its date and time of day in UT, if it has one, else as a count.
fn push_iso(alloc: Global, lines: &mut Vec<u8>, t: i64) -> Result<(), AllocError>
    ensures { OnOk result (lines.new.items
        ≡ lines.old.items ++ (if has_date t then utc_text t else signed_decimal t)) }
{
    if has_date(t) {
        return push_utc(alloc, lines, t);
    }
    push_count(lines, t)
}

/// Returns whether an instant is of the years 1 to 9999 in UT.
fn has_date(t: i64) -> bool
    ensures { result ≡ has_date t }
{
    FIRST_DATE <= t && t <= LAST_DATE
}

/// Adds the date and the time of day of an instant in UT, and a `Z`.
fn push_utc(alloc: Global, lines: &mut Vec<u8>, t: i64) -> Result<(), AllocError>
    requires { has_date t ≡ true }
    ensures { OnOk result (lines.new.items ≡ lines.old.items ++ utc_text t) }
{
    let mut text = RowText::new(alloc);
    let time = RowTime {
        second: t,
        fraction: 0,
        unit: Unit::Second,
    };
    text.push_local_time(time, b'Z')?;
    lines.extend_from_slice(&text.bytes()[1..])?;
    lines.push(b'Z')?;
    Ok(())
}
