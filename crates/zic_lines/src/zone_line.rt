//! Zone lines and continuation lines.

ghost use Rattle.std.specs.Prelude.{◌≡◌, ◌≤◌, ◌∷◌, OnOk, IfOk, IfErr, Some, None, true, is_some, length};
ghost use Rattle.zic_base.specs.Check.{first_failed};
ghost use Rattle.zic_lines.specs.declared.keyword.Keyword.TheVariants as keywords;
ghost use Rattle.zic_lines.specs.Checks.{zone_part_checks, zone_checks, continuation_checks};
ghost use Rattle.zic_lines.specs.ZoneLine.{IsContinuationLine};
ghost use Rattle.zic_lines.specs.Format.{format_of};
ghost use Rattle.zic_lines.specs.Until.{until_of};
ghost use Rattle.zic_lines.specs.code.Entries.{IsOtherLine, IsZoneOf};
ghost use Rattle.zic_lines.specs.code.LineParts.{shown_checks};
ghost use Rattle.zic_lines.specs.code.Texts.{texts_of, BeginsWith};

use crate::entry::{Entry, FieldFault};
use crate::format::{Format, parse_format};
use crate::name::Name;
use crate::rules::{Rules, parse_rules};
use crate::time::offset;
use crate::until::{Until, parse_until};
use std::alloc::{AllocError, Global};
use std::borrow::CowSlice;
use zic_base::{Kind, Place};

/// A Zone or continuation line, which governs from the UNTIL of the line before it, if there is
/// one, up to its own (zic(8), Zone lines).
#[derive(Debug, Drop)]
pub struct ZoneLine {
    /// The place of the line.
    pub place: Place,
    /// STDOFF: the standard UT offset, in seconds, positive east, within 24:00:00 either way.
    pub offset: i32,
    /// RULES: the saving.
    pub rules: Rules,
    /// FORMAT: the form of its abbreviations.
    pub format: Format,
    /// UNTIL: the moment at which the next line of the zone takes over; `None` on the last line.
    pub until: Option<Until>,
}

/// Where STDOFF stands: the place of its line, and its number among the fields.
#[derive(Clone, Copy)]
struct Start {
    place: Place,
    first: usize,
}

/// Returns the line of STDOFF, RULES, FORMAT and the fields of an UNTIL, which Zone and
/// continuation lines have in common, or their first fault.
fn zone_part(
    alloc: Global,
    start: Start,
    stdoff: &[u8],
    rules: &[u8],
    format: &[u8],
    until: &[CowSlice<'_, u8>],
) -> Result<Result<ZoneLine, AllocError>, FieldFault>
    requires few { length until.now ≤ 4 }
    requires number { start.first ≤ 2 }
    ensures ok { OnOk result
        (first_failed (zone_part_checks start.first stdoff.now rules.now format.now (texts_of until.now))
        ≡ None) }
    ensures says { IfOk result
        (λ made. IfOk made
        (IsContinuationLine start.place (stdoff.now ∷ rules.now ∷ format.now ∷ texts_of until.now))) }
    ensures fault { IfErr result
        (λ fault. first_failed
        (zone_part_checks start.first stdoff.now rules.now format.now (texts_of until.now)) ≡ Some fault) }
{
    let Some(offset) = offset(stdoff) else {
        return Err(FieldFault::At(Kind::Offset, start.first));
    };
    let rules = parse_rules(alloc, start.first + 1, rules)?;
    let shown = shown_until(alloc, start.first, format, until)?;
    Ok(zone_line_of(start.place, offset, rules, shown))
}

/// What a line shows, and until when.
#[derive(Drop)]
struct ShownUntil {
    format: Result<Format, AllocError>,
    until: Option<Until>,
}

/// Returns what FORMAT and the fields of an UNTIL say, or their first fault, where STDOFF has this number.
fn shown_until(
    alloc: Global,
    first: usize,
    format: &[u8],
    until: &[CowSlice<'_, u8>],
) -> Result<ShownUntil, FieldFault>
    requires few { length until.now ≤ 4 }
    requires number { first ≤ 2 }
    ensures format { IfOk result
        (λ shown. IfOk shown.format (λ made. format_of format.now ≡ Some made)) }
    ensures just { OnOk result (is_some (format_of format.now) ≡ true) }
    ensures until { IfOk result (λ shown. until_of (texts_of until.now) ≡ Some shown.until) }
    ensures fault { IfErr result
        (λ fault. first_failed (shown_checks first format.now (texts_of until.now)) ≡ Some fault) }
{
    let Some(format) = parse_format(alloc, format) else {
        return Err(FieldFault::At(Kind::Format, first + 2));
    };
    let until = parse_until(first + 3, until)?;
    Ok(ShownUntil { format, until })
}

/// Returns the line of these parts, or out of memory where one of them is.
fn zone_line_of(
    place: Place,
    offset: i32,
    rules: Result<Rules, AllocError>,
    shown: ShownUntil,
) -> Result<ZoneLine, AllocError>
    ensures place { IfOk result (λ line. line.place ≡ place) }
    ensures offset { IfOk result (λ line. line.offset ≡ offset) }
    ensures rules { IfOk result (λ line. rules ≡ Ok line.rules) }
    ensures format { IfOk result (λ line. shown.format ≡ Ok line.format) }
    ensures until { IfOk result (λ line. line.until ≡ shown.until) }
{
    Ok(ZoneLine {
        place,
        offset,
        rules: rules?,
        format: shown.format?,
        until: shown.until,
    })
}

/// Returns the line of the fields of a continuation line, or their first fault.
pub(crate) fn continuation_line(
    alloc: Global,
    place: Place,
    fields: &[CowSlice<'_, u8>],
) -> Result<Result<ZoneLine, AllocError>, FieldFault>
    ensures ok { OnOk result (first_failed (continuation_checks (texts_of fields.now)) ≡ None) }
    ensures says { IfOk result
        (λ made. IfOk made (IsContinuationLine place (texts_of fields.now))) }
    ensures fault { IfErr result
        (λ fault. first_failed (continuation_checks (texts_of fields.now)) ≡ Some fault) }
{
    let [stdoff, rules, format, until @ ..] = fields else {
        return Err(FieldFault::Count);
    };
    if until.len() > 4 {
        return Err(FieldFault::Count);
    }
    zone_part(
        alloc,
        Start { place, first: 0 },
        stdoff.as_slice(),
        rules.as_slice(),
        format.as_slice(),
        until,
    )
}

/// Returns the entry of the fields of a Zone line, or their first fault.
pub(crate) fn zone_line(
    alloc: Global,
    place: Place,
    fields: &[CowSlice<'_, u8>],
) -> Result<Result<Entry, AllocError>, FieldFault>
    requires { BeginsWith keywords.Zone (texts_of fields.now) }
    ensures ok { OnOk result (first_failed (zone_checks (texts_of fields.now)) ≡ None) }
    ensures says { IfOk result (λ made. IfOk made (IsOtherLine place (texts_of fields.now))) }
    ensures fault { IfErr result
        (λ fault. first_failed (zone_checks (texts_of fields.now)) ≡ Some fault) }
{
    let [_, name, stdoff, rules, format, until @ ..] = fields else {
        return Err(FieldFault::Count);
    };
    if until.len() > 4 {
        return Err(FieldFault::Count);
    }
    let Some(name) = Name::parse(alloc, name.as_slice()) else {
        return Err(FieldFault::At(Kind::Name, 1));
    };
    let line = zone_part(
        alloc,
        Start { place, first: 2 },
        stdoff.as_slice(),
        rules.as_slice(),
        format.as_slice(),
        until,
    )?;
    Ok(named(name, line))
}

/// Returns the entry of this name and this line, or out of memory where one of them is.
fn named(
    name: Result<Name, AllocError>,
    line: Result<ZoneLine, AllocError>,
) -> Result<Entry, AllocError>
    ensures { IfOk result (IsZoneOf name line) }
{
    let line = line?;
    Ok(Entry::Zone(name?, line))
}
