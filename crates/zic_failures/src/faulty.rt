//! Which part of a line a fault is about.

ghost use Rattle.std.specs.Prelude.{◌≡◌, IfSome, Some};
ghost use Rattle.zic_lines.specs.Checks.{faulty_field};
ghost use Rattle.zic_failures.specs.Underlined.{IsUnderlined};

use crate::line::{Form, form_of, has_fields};
use std::alloc::{AllocError, Global};
use zic_base::Kind;
use zic_explain::Span;
use zic_lines::{Fields, faulty_field, first_keyword, is_allowed};

/// The part of a line or a record that a fault is about.
#[derive(Clone, Copy)]
pub(crate) struct Part {
    /// Where it is.
    pub(crate) span: Span,
    /// The index of the field, if it is one or is in one.
    pub(crate) field: Option<usize>,
}

/// What a line is, and the part of it that a fault is about.
#[derive(Clone, Copy)]
pub(crate) struct FaultyLine {
    pub(crate) form: Form,
    pub(crate) part: Part,
    /// The number of its fields, if it can be cut into fields.
    pub(crate) fields: usize,
}

/// Returns what a line is, where a continuation line is awaited or not, and the part of it that a fault
/// of this kind is about: a field, the bytes that are wrong, or all of it.
pub(crate) fn faulty_line(
    alloc: Global,
    kind: Kind,
    line: &[u8],
    awaited: bool,
) -> Result<FaultyLine, AllocError> {
    let mut fields = Fields::new(alloc);
    if !has_fields(alloc, &mut fields, line)? {
        return wrong_line(alloc, kind, line, awaited);
    }
    let form = form_of(awaited, first_keyword(&fields));
    Ok(FaultyLine {
        form,
        part: underlined(alloc, kind, awaited, &fields, line),
        fields: fields.len(),
    })
}

/// Returns the part that a fault of this kind is about of a line with these fields: the field that the first
/// of its checks to fail is about; where none fails, the field that the kind is about, or the wrong bytes.
fn underlined(alloc: Global, kind: Kind, awaited: bool, fields: &Fields, line: &[u8]) -> Part
    ensures { IsUnderlined (faulty_field awaited fields.now.texts) fields.now.ranges result.span }
{
    let number = faulty_number(alloc, kind, awaited, fields);
    part_of(fields, number, wrong_bytes(kind, line))
}

/// Returns the number of the field that a fault of this kind is about, if it is about one.
fn faulty_number(alloc: Global, kind: Kind, awaited: bool, fields: &Fields) -> Option<usize>
    ensures { IfSome (faulty_field awaited fields.now.texts) (λ number. result ≡ Some number) }
{
    match faulty_field(alloc, awaited, fields) {
        Some(number) => Some(number),
        None => field_of_kind(kind, form_of(awaited, first_keyword(fields))),
    }
}

/// Returns the field of this number as a part of its line, or else the part at its place.
fn part_of(fields: &Fields, number: Option<usize>, otherwise: Span) -> Part
    ensures { IsUnderlined number fields.now.ranges result.span }
{
    let all = Part {
        span: otherwise,
        field: None,
    };
    let Some(index) = number else {
        return all;
    };
    match fields.range(index) {
        Some(range) => Part {
            span: Span {
                start: range.start,
                end: range.end,
            },
            field: number,
        },
        None => all,
    }
}

/// Returns the same of a line that can't be cut into fields. The field is the one where the wrong bytes
/// begin.
fn wrong_line(
    alloc: Global,
    kind: Kind,
    line: &[u8],
    awaited: bool,
) -> Result<FaultyLine, AllocError> {
    let span = wrong_bytes(kind, line);
    let before = line.get(..span.start).unwrap_or(line);
    let mut fields = Fields::new(alloc);
    let is_cut = has_fields(alloc, &mut fields, before)?;
    let is_within = is_cut && before.trim_ascii_end().len() == before.len();
    let field = match kind {
        Kind::NotAscii | Kind::Quote => Some(fields.len().saturating_sub(is_within as usize)),
        _ => None,
    };
    Ok(FaultyLine {
        form: form_of(awaited, first_keyword(&fields)),
        part: Part { span, field },
        fields: fields.len(),
    })
}

/// Returns the index of the field that a fault of this kind is about, of a line whose fields are right by
/// themselves. The Zone line stands for all of its zone.
fn field_of_kind(kind: Kind, form: Form) -> Option<usize> {
    let label = match (kind, form) {
        (Kind::DuplicateName, Form::Link) => "LINK-NAME",
        (Kind::DuplicateName, _) => "NAME",
        (Kind::NoContinuation, _) => "YEAR",
        (Kind::UnknownRules, _) => "RULES",
        (Kind::UnknownTarget | Kind::LinkCycle, _) => "TARGET",
        (_, Form::Continuation) => label_on_continuation(kind)?,
        (_, Form::Rule) => label_on_rule(kind)?,
        _ => return None,
    };
    form.labels().iter().position(|known| *known == label)
}

/// Returns what the field of a continuation line is called that causes the fault of its zone.
fn label_on_continuation(kind: Kind) -> Option<&'static str> {
    match kind {
        Kind::OffsetRange | Kind::RulesOutOfOrder | Kind::NoFooter | Kind::PermanentDaylight =>
            Some("RULES"),
        Kind::UntilNotRising => Some("YEAR"),
        Kind::NoLetter | Kind::BadAbbreviation => Some("FORMAT"),
        _ => None,
    }
}

/// Returns what the field of a Rule line is called that causes the fault of a zone.
fn label_on_rule(kind: Kind) -> Option<&'static str> {
    match kind {
        Kind::OffsetRange | Kind::PermanentDaylight => Some("SAVE"),
        Kind::BadAbbreviation => Some("LETTER"),
        Kind::NoFooter => Some("TO"),
        _ => None,
    }
}

/// Returns where the bytes stand that a fault is about, or all of a line up to its comment.
fn wrong_bytes(kind: Kind, line: &[u8]) -> Span {
    let code = code_of(line);
    let all = Span {
        start: 0,
        end: code.trim_ascii_end().len(),
    };
    match kind {
        Kind::NotAscii => refused_bytes(code).unwrap_or(all),
        Kind::Quote => Span {
            start: code.iter().rposition(|byte| *byte == b'"').unwrap_or(0),
            end: code.len(),
        },
        _ => Span {
            start: code.len().saturating_sub(code.trim_ascii_start().len()),
            end: all.end,
        },
    }
}

/// Returns the line up to its comment.
fn code_of(line: &[u8]) -> &[u8] {
    let mut quoted = false;
    for (end, byte) in line.iter().enumerate() {
        match *byte {
            b'"' => quoted = !quoted,
            b'#' if !quoted => return line.get(..end).unwrap_or(line),
            _ => {}
        }
    }
    line
}

/// Returns where the first bytes stand that may stand only in a comment.
fn refused_bytes(code: &[u8]) -> Option<Span> {
    let start = code.iter().position(|byte| !is_allowed(*byte))?;
    let rest = code.get(start..)?;
    let count = rest
        .iter()
        .position(|byte| is_allowed(*byte))
        .unwrap_or(rest.len());
    let end = start.saturating_add(count);
    Some(Span { start, end })
}
