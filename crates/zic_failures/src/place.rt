//! Where a fault is.

ghost use Rattle.std.specs.Prelude.{◌≡◌, OnOk, IfOk, string_bytes};
ghost use Rattle.zic_failures.specs.Place.{line_head, quote_line, row_head, year_line, GoesOnShown};
ghost use Rattle.zic_explain.specs.Shown.{IsShownText, StaysShown};

use crate::faulty::faulty_line;
use crate::line::{awaits, line_at};
use crate::record::{RecordForm, faulty_field};
use std::alloc::{AllocError, Global};
use zic_base::{Kind, RowKind};
use zic_explain::{Sentence, push_bytes, push_line_end, push_shown};

/// Returns lines that say where a fault of a source is: `--> PATH:LINE, field F (IN)`, the line
/// of the text as it stands, and a line that underlines the field. Where the fault is about no one
/// field, all of them are underlined, and where the text has no such line, only its number is shown.
///
/// # Errors
///
/// Memory ran out.
pub fn line_place(
    alloc: Global,
    kind: Kind,
    path: &str,
    text: &[u8],
    line: u64,
) -> Result<String, AllocError>
    ensures { IfOk result
        (λ place. GoesOnShown (line_head path.now line) (string_bytes place)) }
{
    let rest = line_rest(alloc, kind, text, line)?;
    format!(in alloc; "--> {path}:{line}{rest}")
}

/// Returns the lines about a line of a source, after its number.
fn line_rest(alloc: Global, kind: Kind, text: &[u8], line: u64) -> Result<String, AllocError>
    ensures { IfOk result (λ rest. IsShownText (string_bytes rest)) }
{
    let mut rest = String::new(alloc);
    match line_at(text, line) {
        Some(bytes) => {
            let awaited = awaits(alloc, text, line.saturating_sub(1))?;
            push_line_part(alloc, &mut rest, kind, bytes, awaited)?;
        }
        None => push_line_end(&mut rest)?,
    }
    Ok(rest)
}

/// Adds the lines about a line of a source, where a continuation is awaited or not.
fn push_line_part(
    alloc: Global,
    rest: &mut String,
    kind: Kind,
    line: &[u8],
    awaited: bool,
) -> Result<(), AllocError>
    ensures { OnOk result (StaysShown (string_bytes rest.old) (string_bytes rest.new)) }
{
    let faulty = faulty_line(alloc, kind, line, awaited)?;
    let field = faulty.part.field;
    push_count(alloc, rest, kind, faulty.fields)?;
    push_field(alloc, rest, field, label_of(faulty.form.labels(), field))?;
    push_shown(rest, line, faulty.part.span)
}

/// Returns lines that say where a fault of a column is: `--> standard input, row N, field F
/// (NAME)`, and where the record is known its text and a line that underlines the field.
///
/// # Errors
///
/// Memory ran out.
pub fn row_place(
    alloc: Global,
    kind: RowKind,
    row: u64,
    form: RecordForm,
    record: Option<&[u8]>,
) -> Result<String, AllocError>
    ensures { IfOk result (λ place. GoesOnShown (row_head row) (string_bytes place)) }
{
    let rest = row_rest(alloc, kind, form, record)?;
    format!(in alloc; "--> standard input, row {row}{rest}")
}

/// The lines, from 1, of the double quotes by which a record goes on, over lines or to the end of the
/// column: where they open, and where the record ends, unless nothing closes them.
#[derive(Clone, Copy, Debug)]
pub struct QuotedLines {
    pub opened: u64,
    pub ended: Option<u64>,
}

/// Returns a line that says where a double quote opens by which a record goes on, and in which line
/// the record ends.
///
/// # Errors
///
/// Memory ran out.
pub fn quote_place(alloc: Global, lines: QuotedLines) -> Result<String, AllocError>
    ensures { IfOk result (λ line_of. string_bytes line_of ≡ quote_line lines.opened lines.ended) }
{
    let opened = lines.opened;
    match lines.ended {
        Some(ended) => {
            format!(in alloc;
                "A double quote opens in line {opened}, and the record ends in line {ended}.\n"
            )
        }
        None => format!(in alloc;
            "A double quote opens in line {opened}, and nothing closes it.\n"
        ),
    }
}

/// Returns a line that says in which year two rules are out of order.
///
/// # Errors
///
/// Memory ran out.
pub(crate) fn year_place(alloc: Global, year: u16) -> Result<String, AllocError>
    ensures { IfOk result (λ line. string_bytes line ≡ year_line year) }
{
    format!(in alloc; "The two rules are out of order in {year}.\n")
}

/// Returns the lines about a row, after its number.
fn row_rest(
    alloc: Global,
    kind: RowKind,
    form: RecordForm,
    record: Option<&[u8]>,
) -> Result<String, AllocError>
    ensures { IfOk result (λ rest. IsShownText (string_bytes rest)) }
{
    let mut rest = String::new(alloc);
    let bytes = record.unwrap_or(&[]);
    let part = faulty_field(kind, form, bytes);
    push_field(alloc, &mut rest, part.field, form.label(kind))?;
    if record.is_some() {
        push_shown(&mut rest, bytes, part.span)?;
    }
    Ok(rest)
}

/// Returns a line about a word or a path, which is already as it is shown.
pub(crate) fn line_about(
    alloc: Global,
    sentence: &Sentence,
    word: &str,
) -> Result<String, AllocError> {
    let mut line = String::from_str(alloc, sentence.before)?;
    line.push_str(word)?;
    line.push_str(sentence.after)?;
    line.push('\n')?;
    Ok(line)
}

/// Returns what the field at this index is called, or an empty text.
fn label_of(labels: &'static [&'static str], field: Option<usize>) -> &'static str {
    match field {
        Some(index) => labels.get(index).copied().unwrap_or(""),
        None => "",
    }
}

/// Adds the number of a field, if there is one, and what it is called, and ends the line.
fn push_field(
    alloc: Global,
    rest: &mut String,
    field: Option<usize>,
    label: &str,
) -> Result<(), AllocError>
    ensures { OnOk result (StaysShown (string_bytes rest.old) (string_bytes rest.new)) }
{
    let Some(index) = field else {
        return push_line_end(rest);
    };
    push_number(alloc, rest, index)?;
    push_label(rest, label)?;
    push_line_end(rest)
}

/// Adds how many fields there are, where the fault is their number.
fn push_count(alloc: Global, rest: &mut String, kind: Kind, count: usize) -> Result<(), AllocError>
    ensures { OnOk result (StaysShown (string_bytes rest.old) (string_bytes rest.new)) }
{
    if kind != Kind::FieldCount {
        return Ok(());
    }
    let s = if count == 1 { "" } else { "s" };
    let number = format!(in alloc; ", {count} field{s}")?;
    push_bytes(rest, number.as_bytes())
}

/// Adds the number of the field at this index.
fn push_number(alloc: Global, rest: &mut String, index: usize) -> Result<(), AllocError>
    ensures { OnOk result (StaysShown (string_bytes rest.old) (string_bytes rest.new)) }
{
    let number = format!(in alloc; ", field {}", index.saturating_add(1))?;
    push_bytes(rest, number.as_bytes())
}

/// Adds what a field is called, if it has a name.
fn push_label(rest: &mut String, label: &str) -> Result<(), AllocError>
    ensures { OnOk result (StaysShown (string_bytes rest.old) (string_bytes rest.new)) }
{
    if label.is_empty() {
        return Ok(());
    }
    push_bytes(rest, b" (")?;
    push_bytes(rest, label.as_bytes())?;
    push_bytes(rest, b")")
}
