//! Entries: lines by their keywords, and the first fault of the fields of a line.

ghost use Rattle.std.specs.Prelude.{◌≡◌, ◌<◌, OnOk, IfOk, IfErr, Some, None, [], length, slice_index_or};
ghost use Rattle.zic_base.specs.Check.{first_failed};
ghost use Rattle.zic_base.specs.Fault.{fault_of, IsFirstFailed};
ghost use Rattle.zic_base.specs.Memory.{IfRefusal, OnOutOfMemory};
ghost use Rattle.zic_lines.specs.Keyword.{keyword_of};
ghost use Rattle.zic_lines.specs.Entry.{is_continuation};
ghost use Rattle.zic_lines.specs.Grammar.{FieldsSay};
ghost use Rattle.zic_lines.specs.Checks.{field_checks, numbered_checks, keyword_checks, faulty_field, kind_of, field_of};
ghost use Rattle.zic_lines.specs.code.Texts.{texts_of};

use crate::field::Fields;
use crate::keyword::{Keyword, parse_keyword};
use crate::link::{Link, link_line};
use crate::name::Name;
use crate::rule_line::{Rule, rule_line};
use crate::until::text_or;
use crate::zone_line::{ZoneLine, continuation_line, zone_line};
use std::alloc::{AllocError, Global};
use std::borrow::CowSlice;
use zic_base::{Kind, Place, Stop};

/// A place of no line.
const NOWHERE: Place = Place { text: 1, line: 1 };

/// A line that isn't blank, taken apart.
#[derive(Drop)]
pub enum Entry {
    Rule(Rule),
    /// The zone's name and its first line.
    Zone(Name, ZoneLine),
    Continuation(ZoneLine),
    Link(Link),
}

/// Returns the entry of the fields, or their first fault.
fn parse_entry(
    alloc: Global,
    awaited: bool,
    place: Place,
    fields: &[CowSlice<'_, u8>],
) -> Result<Result<Entry, AllocError>, FieldFault>
    requires { 0 < length fields.now }
    ensures ok { OnOk result (first_failed (numbered_checks awaited (texts_of fields.now)) ≡ None) }
    ensures says { IfOk result
        (λ made. IfOk made (λ entry. FieldsSay place (texts_of fields.now) (Some entry))) }
    ensures awaited { IfOk result (λ made. IfOk made (λ entry. is_continuation entry ≡ awaited)) }
    ensures fault { IfErr result
        (λ fault. first_failed (numbered_checks awaited (texts_of fields.now)) ≡ Some fault) }
{
    if awaited {
        return Ok(continuation_line(alloc, place, fields)?.map(Entry::Continuation));
    }
    match parse_keyword(fields[0].as_slice()) {
        Some(Keyword::Rule) => rule_line(alloc, place, fields),
        Some(Keyword::Zone) => zone_line(alloc, place, fields),
        Some(Keyword::Link) => link_line(alloc, place, fields),
        None => Err(FieldFault::At(Kind::Keyword, 0)),
    }
}

/// Returns the entry of the fields, or the first fault of a line at this place. Where a
/// continuation line is awaited, the fields are its own.
pub fn line_entry(
    alloc: Global,
    awaited: bool,
    place: Place,
    fields: &Fields,
) -> Result<Entry, Stop>
    requires { 0 < length fields.now.texts }
    ensures says { IfOk result
        (λ entry. FieldsSay place fields.now.texts (Some entry) × (is_continuation entry ≡ awaited)) }
    ensures fault { IfRefusal fault_of result
        (IsFirstFailed place (field_checks awaited fields.now.texts)) }
    ensures memory { OnOutOfMemory fault_of result
        (first_failed (field_checks awaited fields.now.texts) ≡ None) }
{
    match parse_entry(alloc, awaited, place, fields.texts()) {
        Ok(entry) => Ok(entry?),
        Err(fault) => Err(Stop::at(place, fault.kind())),
    }
}

/// Returns the number, from 0, of the field that the first check to fail is about; `None` where none
/// fails, or the number of fields is wrong. Where a continuation line is awaited, the fields are its own.
pub fn faulty_field(alloc: Global, awaited: bool, fields: &Fields) -> Option<usize>
    ensures { result ≡ faulty_field awaited fields.now.texts }
{
    if fields.len() == 0 {
        return None;
    }
    parse_entry(alloc, awaited, NOWHERE, fields.texts())
        .err()?
        .field()
}

/// Returns the keyword that the first field stands for, if it does.
pub fn first_keyword(fields: &Fields) -> Option<Keyword>
    ensures { result ≡ keyword_of (slice_index_or fields.now.texts 0 []) }
{
    parse_keyword(text_or(fields.texts(), 0, &[]))
}

/// What is wrong with the fields of a line.
#[derive(Clone, Copy)]
pub(crate) enum FieldFault {
    /// Their number.
    Count,
    /// The field of this number, from 0.
    At(Kind, usize),
}

impl FieldFault {
    /// Returns the kind of the fault.
    pub(crate) fn kind(self) -> Kind
        ensures { result ≡ kind_of self }
    {
        match self {
            FieldFault::Count => Kind::FieldCount,
            FieldFault::At(kind, _) => kind,
        }
    }

    /// Returns the number of the field that it is about, if it is about one.
    pub(crate) fn field(self) -> Option<usize>
        ensures { result ≡ field_of self }
    {
        match self {
            FieldFault::Count => None,
            FieldFault::At(_, field) => Some(field),
        }
    }
}
