//! How a column is read, by the options for that.

use crate::fields::{FieldWord, FieldWords};
use crate::no_request::{NoRequest, usage};
use crate::row_forms::{RowForms, row_forms};
use clap::ArgMatches;
use std::alloc::{AllocError, Global};
use zic_io::FaultFields;
use zic_layouts::{
    AtFault, Delimiter, Disambiguation, EmptyTime, FieldCount, Header, InstantText, Layout,
    LineEnd, Notes, Prefix, Quotes, Records, RowFields, RowStart, Style, TimeFrom, Unit, ZoneFrom,
};

/// How the fields of a record are written.
#[derive(Drop)]
struct FieldForms {
    delimiter: Delimiter,
    unit: Unit,
    from: TimeFrom,
    rows: RowForms,
}

/// What records are, and which of them is a header.
#[derive(Clone, Copy)]
struct RecordForms {
    records: Records,
    quotes: Option<Quotes>,
    header: Header,
}

/// The indices of the fields that are read, and what a row with a fault does.
#[derive(Clone, Copy)]
struct Reads {
    zone: Option<usize>,
    time: usize,
    at_fault: AtFault,
}

/// Returns how a column is read.
///
/// # Errors
///
/// The text of usage where options don't go together or one can't be what it is, or memory ran out.
pub(crate) fn layout(
    alloc: Global,
    matches: &ArgMatches<'_>,
    fields: &FieldWords,
) -> Result<Layout, NoRequest> {
    let forms = field_forms(alloc, matches)?;
    let records = record_forms(alloc, matches)?;
    let reads = reads_of(alloc, matches, fields, records.header)?;
    let zone = zone_from(alloc, matches, reads.zone)?;
    let start = row_start(alloc, matches)?;
    let prefix = prefix(alloc, matches, records.header)?;
    let may_have_more = fields.are_given() || start != RowStart::Fields;
    let FieldForms {
        delimiter,
        unit,
        from,
        rows,
    } = forms;
    let layout = Layout {
        zone,
        time: reads.time,
        from,
        count: field_count(reads.zone, reads.time, may_have_more),
        unit,
        delimiter,
        records: records.records,
        quotes: Quotes::Lenient,
        header: records.header,
        max_record: matches.get_one::<u64>("max-record"),
        start,
        line_end: LineEnd::Lf,
        prefix,
        fields: rows.fields,
        compared: rows.compared,
        empty: rows.empty,
        at_fault: reads.at_fault,
        notes: notes(matches),
        tallies: matches.get_str("against-summary").is_some(),
    };
    Ok(with_quotes(matches, layout, records.quotes))
}

/// Returns a layout with these double quotes, or else with those that it has by default.
fn with_quotes(matches: &ArgMatches<'_>, layout: Layout, quotes: Option<Quotes>) -> Layout {
    let mut layout = layout;
    layout.quotes = match quotes {
        Some(quotes) => quotes,
        None => default_quotes(matches, &layout),
    };
    layout
}

/// Returns how the fields of a record are written.
fn field_forms(alloc: Global, matches: &ArgMatches<'_>) -> Result<FieldForms, NoRequest> {
    let delimiter = delimiter(alloc, matches)?;
    let unit = unit(alloc, matches)?;
    let from = time_from(alloc, matches)?;
    let rows = row_forms(alloc, matches, from, is_compared(matches))?;
    Ok(FieldForms {
        delimiter,
        unit,
        from,
        rows,
    })
}

/// Returns what records are, and which of them is a header.
fn record_forms(alloc: Global, matches: &ArgMatches<'_>) -> Result<RecordForms, NoRequest> {
    let records = records(alloc, matches)?;
    let quotes = quotes(alloc, matches)?;
    let header = header(alloc, matches)?;
    Ok(RecordForms {
        records,
        quotes,
        header,
    })
}

/// Returns the indices of the fields that are read, and what a row with a fault does.
fn reads_of(
    alloc: Global,
    matches: &ArgMatches<'_>,
    fields: &FieldWords,
    header: Header,
) -> Result<Reads, NoRequest> {
    let (zone, time) = indices(alloc, matches, fields)?;
    let at_fault = at_fault(alloc, matches)?;
    expect_fields(alloc, header, fields, zone, time)?;
    Ok(Reads {
        zone,
        time,
        at_fault,
    })
}

/// Returns the index of the field of a row's zone, unless it is the zone of all rows, and the index of the
/// field of its time. A field with a name has the index of one without a number.
fn indices(
    alloc: Global,
    matches: &ArgMatches<'_>,
    fields: &FieldWords,
) -> Result<(Option<usize>, usize), NoRequest> {
    match matches.get_str("zone") {
        Some(_) if fields.zone.is_some() => {
            Err(usage(alloc, "--zone-field has no meaning with --zone"))
        }
        Some(_) => Ok((None, index(&fields.time, 1))),
        None => Ok((Some(index(&fields.zone, 1)), index(&fields.time, 2))),
    }
}

/// Returns where a row's zone comes from: from the field of an index, or else from the option for it.
fn zone_from(
    alloc: Global,
    matches: &ArgMatches<'_>,
    index: Option<usize>,
) -> Result<ZoneFrom, AllocError> {
    match index {
        Some(index) => Ok(ZoneFrom::Field(index)),
        None => {
            let name = matches.get_str("zone").unwrap_or("");
            Ok(ZoneFrom::Name(String::from_str(alloc, name)?))
        }
    }
}

/// Returns the index of the field that an option means by its number, and else that of the field of this
/// number.
fn index(word: &Option<FieldWord>, default: u64) -> usize {
    let number = match word {
        Some(FieldWord::Number(number)) => *number,
        Some(FieldWord::Name(_)) | None => default,
    };
    number.saturating_sub(1) as usize
}

/// Refuses names of fields where no header has them, and one field for the zone and the time.
fn expect_fields(
    alloc: Global,
    header: Header,
    fields: &FieldWords,
    zone: Option<usize>,
    time: usize,
) -> Result<(), NoRequest> {
    if !fields.have_names() {
        return expect_two(alloc, zone, time);
    }
    if header == Header::Absent {
        return Err(usage(
            alloc,
            "--zone-field and --time-field take names only with --header or --skip-header",
        ));
    }
    Ok(())
}

/// Refuses one field for the zone and the time.
fn expect_two(alloc: Global, zone: Option<usize>, time: usize) -> Result<(), NoRequest> {
    if zone == Some(time) {
        return Err(usage(alloc, "--zone-field and --time-field are one field"));
    }
    Ok(())
}

/// Changes a layout to other fields of the zone, where it has one, and of the time.
///
/// # Errors
///
/// The text of usage where both are one field, or memory ran out.
pub(crate) fn read_by(
    alloc: Global,
    layout: &mut Layout,
    zone: Option<usize>,
    time: usize,
) -> Result<(), NoRequest> {
    expect_two(alloc, zone, time)?;
    layout.count = field_count(zone, time, true);
    layout.time = time;
    if let (ZoneFrom::Field(field), Some(index)) = (&mut layout.zone, zone) {
        *field = index;
    }
    Ok(())
}

/// Returns whether the first record is a header, and whether one is written.
fn header(alloc: Global, matches: &ArgMatches<'_>) -> Result<Header, NoRequest> {
    match (matches.get_flag("header"), matches.get_flag("skip-header")) {
        (false, false) => Ok(Header::Absent),
        (true, false) => Ok(Header::First),
        (false, true) => Ok(Header::Skipped),
        (true, true) => Err(usage(alloc, "--skip-header has no meaning with --header")),
    }
}

/// Returns what a row begins with.
fn row_start(alloc: Global, matches: &ArgMatches<'_>) -> Result<RowStart, NoRequest> {
    match (matches.get_flag("append"), matches.get_flag("replace")) {
        (false, false) => Ok(RowStart::Fields),
        (true, false) => Ok(RowStart::Record),
        (false, true) => Ok(RowStart::Replaced),
        (true, true) => Err(usage(alloc, "--append has no meaning with --replace")),
    }
}

/// Returns what the names of the fields begin with, in a header, that rows add.
fn prefix(alloc: Global, matches: &ArgMatches<'_>, header: Header) -> Result<Prefix, NoRequest> {
    let Some(word) = matches.get_str("prefix") else {
        return Ok(Prefix::none());
    };
    if header != Header::First {
        return Err(usage(alloc, "--prefix has no meaning without --header"));
    }
    match Prefix::new(word.as_bytes()) {
        Some(prefix) => Ok(prefix),
        None => Err(usage(
            alloc,
            "--prefix is at most 64 letters, digits and + - . / : _",
        )),
    }
}

/// Returns what a row with a fault does.
fn at_fault(alloc: Global, matches: &ArgMatches<'_>) -> Result<AtFault, NoRequest> {
    let faults = matches.get_str("faults").is_some();
    let rejects = matches.get_str("rejects").is_some();
    match (matches.get_flag("keep-going"), faults, rejects) {
        (true, _, true) => Ok(AtFault::Reject),
        (true, _, false) => Ok(AtFault::GoOn),
        (false, true, _) => Err(usage(alloc, "--faults has no meaning without --keep-going")),
        (false, _, true) => Err(usage(alloc, "--rejects has no meaning without --keep-going")),
        (false, false, false) => Ok(AtFault::End),
    }
}

/// Returns whether rows are compared with another release.
pub(crate) fn is_compared(matches: &ArgMatches<'_>) -> bool {
    matches.get_str("against").is_some() || matches.get_str("against-tree").is_some()
}

/// Returns what is noted of a row with a fault.
fn notes(matches: &ArgMatches<'_>) -> Notes {
    if matches.get_str("faults-with").is_some() {
        Notes::Details
    } else {
        Notes::Faults
    }
}

/// Returns which fields a line of the list of faults has after the number of the row and the name of
/// the fault.
///
/// # Errors
///
/// The text of usage where there is no such list, or memory ran out.
pub(crate) fn fault_fields(
    alloc: Global,
    matches: &ArgMatches<'_>,
) -> Result<FaultFields, NoRequest> {
    let word = matches.get_str("faults-with");
    if word.is_some() && matches.get_str("faults").is_none() {
        return Err(usage(alloc, "--faults-with has no meaning without --faults"));
    }
    let (line, value) = match word {
        None => (false, false),
        Some("line") => (true, false),
        Some("value") => (false, true),
        Some("line,value") => (true, true),
        Some(_) => return Err(usage(alloc, "--faults-with is line, value or line,value")),
    };
    Ok(FaultFields { line, value })
}

/// Returns the most rows with a fault after which a run goes on, where that is limited.
///
/// # Errors
///
/// The text of usage where a run doesn't go on after any, or memory ran out.
pub(crate) fn max_faults(
    alloc: Global,
    matches: &ArgMatches<'_>,
) -> Result<Option<u64>, NoRequest> {
    let most = matches.get_one::<u64>("max-faults");
    if most.is_some() && !matches.get_flag("keep-going") {
        return Err(usage(alloc, "--max-faults has no meaning without --keep-going"));
    }
    Ok(most)
}

/// Returns how many fields a record has: those that are read, or at least up to the last of these.
fn field_count(zone: Option<usize>, time: usize, may_have_more: bool) -> FieldCount {
    let count = time.max(zone.unwrap_or(time)).saturating_add(1);
    if may_have_more {
        FieldCount::AtLeast(count)
    } else {
        FieldCount::Exactly(count)
    }
}

/// Returns what stands between fields.
fn delimiter(alloc: Global, matches: &ArgMatches<'_>) -> Result<Delimiter, NoRequest> {
    let word = matches.get_str("delimiter").unwrap_or(",");
    let byte = match word.as_bytes() {
        b"tab" => Some(b'\t'),
        [byte] => Some(*byte),
        _ => None,
    };
    match byte.and_then(Delimiter::new) {
        Some(delimiter) => Ok(delimiter),
        None => Err(usage(
            alloc,
            "--delimiter is the word tab, or an ASCII character that no field of a row has",
        )),
    }
}

/// Returns what instants count.
fn unit(alloc: Global, matches: &ArgMatches<'_>) -> Result<Unit, NoRequest> {
    match matches.get_str("unit") {
        Some("s") => Ok(Unit::Second),
        Some("ms") => Ok(Unit::Millisecond),
        Some("us") => Ok(Unit::Microsecond),
        Some("ns") => Ok(Unit::Nanosecond),
        _ => Err(usage(alloc, "--unit is s, ms, us or ns")),
    }
}

/// Returns how the field of the instant has it, or of the local time.
fn time_from(alloc: Global, matches: &ArgMatches<'_>) -> Result<TimeFrom, NoRequest> {
    let choice = matches.get_str("ambiguous");
    match matches.get_str("from") {
        Some("local") => Ok(TimeFrom::Local(disambiguation(alloc, choice)?)),
        _ if choice.is_some() => {
            Err(usage(alloc, "--ambiguous has no meaning without --from local"))
        }
        Some("count") => Ok(TimeFrom::Count),
        Some("seconds") => Ok(TimeFrom::Text(InstantText::Seconds)),
        Some("rfc3339") => Ok(TimeFrom::Text(InstantText::Rfc3339)),
        Some("utc") => Ok(TimeFrom::Text(InstantText::Utc)),
        _ => Err(usage(alloc, "--from is count, seconds, rfc3339, utc or local")),
    }
}

/// Returns what is taken for local times in gaps and in folds: neither, where nothing is chosen.
fn disambiguation(alloc: Global, choice: Option<&str>) -> Result<Disambiguation, NoRequest> {
    match choice.unwrap_or("reject") {
        "reject" => Ok(Disambiguation::Reject),
        "earlier" => Ok(Disambiguation::Earlier),
        "later" => Ok(Disambiguation::Later),
        "compatible" => Ok(Disambiguation::Compatible),
        _ => Err(usage(alloc, "--ambiguous is reject, earlier, later or compatible")),
    }
}

/// Returns where a record ends.
fn records(alloc: Global, matches: &ArgMatches<'_>) -> Result<Records, NoRequest> {
    match matches.get_str("records") {
        Some("csv") => Ok(Records::Csv),
        Some("lines") => Ok(Records::Lines),
        _ => Err(usage(alloc, "--records is csv or lines")),
    }
}

/// Returns which double quotes a record may have, where an option says it.
fn quotes(alloc: Global, matches: &ArgMatches<'_>) -> Result<Option<Quotes>, NoRequest> {
    match matches.get_str("quotes") {
        None => Ok(None),
        Some("strict") => Ok(Some(Quotes::Strict)),
        Some("lenient") => Ok(Some(Quotes::Lenient)),
        Some(_) => Err(usage(alloc, "--quotes is strict or lenient")),
    }
}

/// Returns which double quotes a record may have where no option says it: all in a plain column that is
/// compared with no other release, and else those of RFC 4180.
fn default_quotes(matches: &ArgMatches<'_>, layout: &Layout) -> Quotes {
    if is_plain(layout) && !is_compared(matches) {
        Quotes::Lenient
    } else {
        Quotes::Strict
    }
}

/// Returns whether a layout is, but for its quotes, that of plain columns without a header.
fn is_plain(layout: &Layout) -> bool {
    let is_read_plainly = matches!(
        layout,
        Layout {
            zone: ZoneFrom::Field(0),
            time: 1,
            from: TimeFrom::Count,
            count: FieldCount::Exactly(2),
            unit: Unit::Second,
            records: Records::Csv,
            header: Header::Absent,
            max_record: None,
            ..
        }
    );
    let has_plain_rows = matches!(
        layout,
        Layout {
            start: RowStart::Fields,
            fields: RowFields::Usual(Style::Fields),
            empty: EmptyTime::Fault,
            at_fault: AtFault::End,
            notes: Notes::Faults,
            ..
        }
    );
    is_read_plainly && has_plain_rows && layout.delimiter.byte() == b','
}
