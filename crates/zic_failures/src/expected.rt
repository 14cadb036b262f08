//! What is expected where a failure is, and in the layout that the options give.

ghost use Rattle.std.specs.Prelude.{◌≡◌, string_bytes, IfOk};
ghost use Rattle.zic_failures.specs.Expectation.{expectation_text, IsExpectation};

use crate::record::RecordForm;
use std::alloc::{AllocError, Global};
use zic_base::RowKind;
use zic_explain::cases::{
    ROW_INSTANT_FROM_RFC3339, ROW_INSTANT_FROM_SECONDS, ROW_INSTANT_FROM_UTC, ROW_INSTANT_UNIT_MS,
    ROW_INSTANT_UNIT_NS, ROW_INSTANT_UNIT_US, ROW_RANGE_FROM_RFC3339, ROW_RANGE_FROM_SECONDS,
    ROW_RANGE_UNIT_MS, ROW_RANGE_UNIT_NS, ROW_RANGE_UNIT_US,
};
use zic_explain::{Entry, Expectation, entry_named, push_bytes, push_section};
use zic_layouts::{FieldCount, InstantText, TimeFrom, Unit};

/// Returns the sections that say what is expected, and what people usually meant, where an error has
/// this name, or an empty text where none has it.
///
/// # Errors
///
/// Memory ran out.
pub fn expectation(alloc: Global, entries: &[Entry], name: &str) -> Result<String, AllocError>
    ensures { IfOk result (λ lines. IsExpectation entries.now name.now (string_bytes lines)) }
{
    match entry_named(entries, name) {
        Some(entry) => sections(alloc, entry.expected, entry.cause),
        None => Ok(String::new(alloc)),
    }
}

/// Returns the sections that say what is expected, and what people usually meant.
fn sections(alloc: Global, expected: &str, cause: &str) -> Result<String, AllocError>
    ensures { IfOk result (λ lines. string_bytes lines ≡ expectation_text expected.now cause.now) }
{
    let mut lines = String::new(alloc);
    push_section(&mut lines, "Expected", expected)?;
    push_section(&mut lines, "Usual cause", cause)?;
    Ok(lines)
}

/// What records of a column have.
#[derive(Clone, Copy)]
pub(crate) struct Expected {
    /// Where they have the zone and the instant of a row.
    pub(crate) form: RecordForm,
    /// How many fields they have.
    pub(crate) count: FieldCount,
    /// The greatest number of bytes that they may have, if there is one.
    pub(crate) max_record: Option<u64>,
}

impl Expected {
    /// Returns the sections that say what is expected where a row has a fault of this kind: those of its
    /// entry, or others where options make a difference.
    pub(crate) fn sections(
        &self,
        alloc: Global,
        kind: RowKind,
        entry: &Entry,
    ) -> Result<String, AllocError> {
        match (kind, self.max_record) {
            (RowKind::RowFields, _) if !self.is_plain() => self.fields(alloc, entry.cause),
            (RowKind::RowTooLong, Some(most)) => length(alloc, most, entry.cause),
            _ => {
                let Expectation { expected, cause } = self.by_options(kind, entry);
                sections(alloc, expected, cause)
            }
        }
    }

    /// Returns whether records are `NAME,SECONDS`.
    fn is_plain(&self) -> bool {
        let form = &self.form;
        self.count == FieldCount::Exactly(2)
            && form.zone == Some(0)
            && form.time == 1
            && form.delimiter == b','
            && self.is_seconds()
    }

    /// Returns whether instants are seconds.
    fn is_seconds(&self) -> bool {
        matches!(
            (self.form.from, self.form.unit),
            (TimeFrom::Count, Unit::Second)
        )
    }

    /// Returns what is expected where a row has a fault of this kind: what its entry says, or what holds for
    /// the form of instants.
    fn by_options(&self, kind: RowKind, entry: &Entry) -> Expectation {
        match (kind, self.form.from, self.form.unit) {
            (RowKind::RowInstant, TimeFrom::Text(InstantText::Seconds), _) =>
                ROW_INSTANT_FROM_SECONDS,
            (RowKind::RowInstant, TimeFrom::Text(InstantText::Utc), _) => ROW_INSTANT_FROM_UTC,
            (RowKind::RowInstant, TimeFrom::Text(_) | TimeFrom::Local(_), _) =>
                ROW_INSTANT_FROM_RFC3339,
            (RowKind::RowInstant, _, Unit::Millisecond) => ROW_INSTANT_UNIT_MS,
            (RowKind::RowInstant, _, Unit::Microsecond) => ROW_INSTANT_UNIT_US,
            (RowKind::RowInstant, _, Unit::Nanosecond) => ROW_INSTANT_UNIT_NS,
            (RowKind::RowRange, TimeFrom::Text(InstantText::Seconds), _) => ROW_RANGE_FROM_SECONDS,
            (RowKind::RowRange, TimeFrom::Text(_) | TimeFrom::Local(_), _) =>
                ROW_RANGE_FROM_RFC3339,
            (RowKind::RowRange, _, Unit::Millisecond) => ROW_RANGE_UNIT_MS,
            (RowKind::RowRange, _, Unit::Microsecond) => ROW_RANGE_UNIT_US,
            (RowKind::RowRange, _, Unit::Nanosecond) => ROW_RANGE_UNIT_NS,
            _ => Expectation {
                expected: entry.expected,
                cause: entry.cause,
            },
        }
    }

    /// Returns the sections about a record with too few or too many fields.
    fn fields(&self, alloc: Global, cause: &str) -> Result<String, AllocError> {
        let expected = self.all_fields(alloc)?;
        sections(alloc, expected.as_str(), cause)
    }

    /// Returns lines that say how many fields a record has, what stands between them, and which is which.
    fn all_fields(&self, alloc: Global) -> Result<String, AllocError> {
        let count = self.counted_fields(alloc)?;
        let between = self.between_fields(alloc)?;
        let named = self.named_fields(alloc)?;
        ["  ", count.as_str(), between.as_str(), named.as_str()].concat(alloc)
    }

    /// Returns how many fields a record has.
    fn counted_fields(&self, alloc: Global) -> Result<String, AllocError> {
        let (count, end) = match self.count {
            FieldCount::Exactly(1) => (1, ""),
            FieldCount::Exactly(count) => (count, "s"),
            FieldCount::AtLeast(count) => (count, "s or more"),
        };
        format!(in alloc; "{count} field{end}")
    }

    /// Returns what stands between two fields, unless a record has only one.
    fn between_fields(&self, alloc: Global) -> Result<String, AllocError> {
        if matches!(self.count, FieldCount::Exactly(0 | 1)) {
            return Ok(String::new(alloc));
        }
        if self.form.delimiter == b'\t' {
            return String::from_str(alloc, " with a tab between two of them");
        }
        let mut text = String::from_str(alloc, " with `")?;
        push_bytes(&mut text, &[self.form.delimiter])?;
        text.push_str("` between two of them")?;
        Ok(text)
    }

    /// Returns the end of a line, and a line that says which field is which.
    fn named_fields(&self, alloc: Global) -> Result<String, AllocError> {
        let time = self.form.time.saturating_add(1);
        let label = self.form.label(RowKind::RowInstant);
        match self.form.zone {
            Some(zone) => {
                let zone = zone.saturating_add(1);
                format!(in alloc; ":\n  field {zone} is NAME, and field {time} {label}.\n")
            }
            None => format!(in alloc; ":\n  field {time} is {label}.\n"),
        }
    }
}

/// Returns the sections about a record with more bytes than this.
fn length(alloc: Global, most: u64, cause: &str) -> Result<String, AllocError> {
    let s = if most == 1 { "" } else { "s" };
    let expected = format!(in alloc; "  At most {most} byte{s}.\n")?;
    sections(alloc, expected.as_str(), cause)
}
