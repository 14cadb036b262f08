//! The fields that rows have, by the options for that.

use crate::no_request::{NoRequest, usage};
use crate::values::compared;
use arrayvec::ArrayVec;
use clap::ArgMatches;
use std::alloc::Global;
use zic_layouts::{
    Compared, EmptyTime, FieldList, MAX_FIELDS, RowField, RowFields, Style, TimeFrom,
};

/// Which fields rows have, what of them is compared with another release, and what an empty time does.
#[derive(Drop)]
pub(crate) struct RowForms {
    pub(crate) fields: RowFields,
    pub(crate) compared: Compared,
    pub(crate) empty: EmptyTime,
}

/// Returns the forms of rows, whose times are read in this one.
///
/// # Errors
///
/// The text of usage where options don't go together or one can't be what it is, or memory ran out.
pub(crate) fn row_forms(
    alloc: Global,
    matches: &ArgMatches<'_>,
    from: TimeFrom,
    is_compared: bool,
) -> Result<RowForms, NoRequest> {
    if matches.get_str("ignore").is_some() && !is_compared {
        return Err(usage(
            alloc,
            "--ignore has no meaning without --against or --against-tree",
        ));
    }
    Ok(RowForms {
        fields: row_fields(alloc, matches, from)?,
        compared: compared(alloc, matches)?,
        empty: empty(alloc, matches)?,
    })
}

/// Returns what an empty time does.
fn empty(alloc: Global, matches: &ArgMatches<'_>) -> Result<EmptyTime, NoRequest> {
    match matches.get_str("empty") {
        Some("fault") => Ok(EmptyTime::Fault),
        Some("keep") => Ok(EmptyTime::Keep),
        _ => Err(usage(alloc, "--empty is fault or keep")),
    }
}

/// Returns which fields a row has after its beginning.
fn row_fields(
    alloc: Global,
    matches: &ArgMatches<'_>,
    from: TimeFrom,
) -> Result<RowFields, NoRequest> {
    let fields = match (matches.get_str("only"), matches.get_str("style")) {
        (Some(words), Some("fields")) => listed(alloc, words)?,
        (Some(_), _) => return Err(usage(alloc, "--style has no meaning with --only")),
        (None, Some(style)) => styled(alloc, matches, from, style)?,
        (None, None) => return Err(no_style(alloc)),
    };
    with_ambiguous(alloc, matches, from, fields)
}

/// Returns the fields of rows in this style: the first alone where it takes the place of the time.
fn styled(
    alloc: Global,
    matches: &ArgMatches<'_>,
    from: TimeFrom,
    style: &str,
) -> Result<RowFields, NoRequest> {
    let fields = match style {
        "fields" => RowFields::Usual(Style::Fields),
        "iso" => RowFields::Usual(Style::Iso),
        "utc" => only(alloc, utc_fields(from))?,
        _ => return Err(no_style(alloc)),
    };
    if matches.get_flag("replace") {
        first_only(alloc, from, &fields)
    } else {
        Ok(fields)
    }
}

/// Returns the refusal of a word that is no style.
fn no_style(alloc: Global) -> NoRequest {
    usage(alloc, "--style is fields, iso or utc")
}

/// Returns the first of some fields alone.
fn first_only(alloc: Global, from: TimeFrom, fields: &RowFields) -> Result<RowFields, NoRequest> {
    let all = fields.fields(from);
    only(alloc, &all[..all.len().min(1)])
}

/// Returns the fields of rows that have their local time and their instant in UT.
fn utc_fields(from: TimeFrom) -> &'static [RowField] {
    match from {
        TimeFrom::Local(_) => &[
            RowField::Utc,
            RowField::Offset,
            RowField::Daylight,
            RowField::Abbreviation,
        ],
        TimeFrom::Count | TimeFrom::Text(_) => &[
            RowField::Local,
            RowField::Utc,
            RowField::Offset,
            RowField::Daylight,
            RowField::Abbreviation,
        ],
    }
}

/// Returns these fields alone.
fn only(alloc: Global, fields: &[RowField]) -> Result<RowFields, NoRequest> {
    match FieldList::new(fields) {
        Some(list) => Ok(RowFields::Only(list)),
        None => Err(usage(alloc, "rows have at most 8 fields")),
    }
}

/// Returns the fields of these names, which have commas between them.
fn listed(alloc: Global, words: &str) -> Result<RowFields, NoRequest> {
    let mut fields: ArrayVec<RowField, MAX_FIELDS> = ArrayVec::new();
    for word in words.split(',') {
        let Some(field) = field_of(word) else {
            return Err(usage(
                alloc,
                "--only is some of local, time, instant, utc, offset, daylight, abbreviation, ambiguous",
            ));
        };
        if fields.as_slice().contains(&field) {
            return Err(usage(alloc, "a field stands once in --only"));
        }
        if fields.try_push(field).is_err() {
            return Err(usage(alloc, "rows have at most 8 fields"));
        }
    }
    only(alloc, fields.as_slice())
}

/// Returns the field of a name, if one has it.
fn field_of(word: &str) -> Option<RowField> {
    match word {
        "local" => Some(RowField::Local),
        "time" => Some(RowField::Time),
        "instant" => Some(RowField::Instant),
        "utc" => Some(RowField::Utc),
        "offset" => Some(RowField::Offset),
        "daylight" => Some(RowField::Daylight),
        "abbreviation" => Some(RowField::Abbreviation),
        "ambiguous" => Some(RowField::Ambiguous),
        _ => None,
    }
}

/// Returns these fields, and one that says `gap` or `fold`, if that is requested.
fn with_ambiguous(
    alloc: Global,
    matches: &ArgMatches<'_>,
    from: TimeFrom,
    fields: RowFields,
) -> Result<RowFields, NoRequest> {
    let is_local = matches!(from, TimeFrom::Local(_));
    let mut list: ArrayVec<RowField, MAX_FIELDS> = ArrayVec::new();
    for field in fields.fields(from) {
        if *field == RowField::Ambiguous && !is_local {
            return Err(usage(
                alloc,
                "the field ambiguous has no meaning without --from local",
            ));
        }
        if list.try_push(*field).is_err() {
            return Err(usage(alloc, "rows have at most 8 fields"));
        }
    }
    if !matches.get_flag("show-ambiguous") {
        return Ok(fields);
    }
    if !is_local {
        return Err(usage(
            alloc,
            "--show-ambiguous has no meaning without --from local",
        ));
    }
    if list.as_slice().contains(&RowField::Ambiguous) {
        return Err(usage(
            alloc,
            "--show-ambiguous has no meaning with ambiguous in --only",
        ));
    }
    if list.try_push(RowField::Ambiguous).is_err() {
        return Err(usage(alloc, "rows have at most 8 fields"));
    }
    only(alloc, list.as_slice())
}
