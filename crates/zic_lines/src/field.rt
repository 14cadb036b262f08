//! The fields of a line.

ghost use Rattle.std.specs.Prelude.{◌≡◌, ◌≤◌, false, [], length, slice_get, slice_range, IfOk, OnOk};
ghost use Rattle.std.specs.Cow.{cow_slice_items};
ghost use Rattle.zic_base.specs.Fault.{fault_of, IsFirstFailed};
ghost use Rattle.zic_base.specs.Memory.{IfRefusal, OnOutOfMemory};
ghost use Rattle.zic_lines.specs.Field.{is_space, is_allowed, dash_if_empty, fields, field_ranges};
ghost use Rattle.zic_lines.specs.Grammar.{IsLine};
ghost use Rattle.zic_lines.specs.Checks.{byte_checks};
ghost use Rattle.zic_lines.specs.code.Texts.{texts_of};
ghost use Rattle.zic_lines.specs.code.Taken.{role_of, is_plain, ArePlain, without_quotes, ended_texts, ended_ranges};

use std::alloc::{AllocError, Global};
use std::borrow::CowSlice;
use std::marker::Model;
use zic_base::{Kind, Place, Stop};

/// The greatest length of a line, in bytes, without its newline.
pub const LONGEST_LINE: usize = 2048;

/// Returns whether the byte is white space in a line.
fn is_space(byte: u8) -> bool
    ensures { result ≡ is_space byte }
{
    matches!(byte, b' ' | b'\t' | 0x0b..=0x0d)
}

/// Returns whether the byte may stand outside a comment: white space, or a printable ASCII character.
pub fn is_allowed(byte: u8) -> bool
    ensures { result ≡ is_allowed byte }
{
    is_space(byte) || matches!(byte, 0x21..=0x7e)
}

/// Returns whether the byte is text wherever it stands outside a comment, as most bytes are.
fn is_plain(byte: u8) -> bool
    ensures { result ≡ is_plain byte }
{
    matches!(byte, b'$'..=b'~')
}

/// The role of a byte in its line.
#[derive(Clone, Copy)]
enum Role {
    /// It begins the comment.
    Comment,
    /// It opens or closes a quoted part.
    DoubleQuote,
    /// It may not stand outside a comment.
    Refused,
    /// It stands between fields.
    Gap,
    /// It stands in a field.
    Text,
}

/// Returns the role of a byte, in a quoted part or outside.
#[tactic(auto, unfolding(crate::specs::code::Taken::role_of))]
fn role_of(byte: u8, quoted: bool) -> Role
    ensures { result ≡ role_of byte quoted }
{
    match byte {
        _ if is_plain(byte) => Role::Text,
        _ if is_space(byte) && !quoted => Role::Gap,
        b'#' if !quoted => Role::Comment,
        b'"' => Role::DoubleQuote,
        _ if is_allowed(byte) => Role::Text,
        _ => Role::Refused,
    }
}

/// Returns the end of the plain bytes that begin at `start`.
fn plain_end(line: &[u8], start: usize) -> usize
    requires { start ≤ length line.now }
    ensures rises { start ≤ result }
    ensures inside { result ≤ length line.now }
    ensures plain { ArePlain (slice_range line.now start result) }
{
    let mut end = start;
    while end < line.len() && is_plain(line[end]) {
        end += 1;
    }
    end
}

/// Returns the text of a field that has double quotes: the rest without them, or `-` where there is
/// none.
#[cold]
fn text_without_quotes<'a>(alloc: Global, field: &[u8]) -> Result<CowSlice<'a, u8>, AllocError>
    ensures { IfOk result
        (λ text. cow_slice_items text ≡ dash_if_empty (without_quotes field.now)) }
{
    let mut text = Vec::new(alloc);
    for byte in field {
        if *byte != b'"' {
            text.push(*byte)?;
        }
    }
    if text.is_empty() {
        return Ok(CowSlice::Borrowed(b"-"));
    }
    Ok(CowSlice::Owned(text))
}

/// Where a field stands in its line: from a byte up to another.
#[derive(Clone, Copy, Debug)]
pub struct FieldRange {
    pub start: usize,
    pub end: usize,
}

/// The fields of one line, without their double quotes, in a list that is used for one line after
/// the other.
#[derive(Debug, Drop)]
pub struct Fields<'a> {
    /// Parts of the line; only a field with double quotes is copied.
    texts: Vec<CowSlice<'a, u8>>,
    /// Where they stand.
    ranges: Vec<FieldRange>,
}

impl<'a> Model for Fields<'a> {
    ghost use Rattle.std.specs.Prelude.{map};
    ghost use Rattle.std.specs.Cow.{cow_slice_items};
    ghost use Rattle.zic_lines.specs.Field.{FieldsOf};

    ghost Value = { FieldsOf };

    ghost view = { λ f. record { texts = map cow_slice_items f.texts.items; ranges = f.ranges.items } };
}

impl<'a> Fields<'a> {
    /// Returns a list of no fields. Takes no memory.
    pub fn new(alloc: Global) -> Self
        ensures { result.texts ≡ [] }
    {
        Fields {
            texts: Vec::new(alloc),
            ranges: Vec::new(alloc),
        }
    }

    /// Returns the number of fields.
    pub fn len(&self) -> usize
        ensures { result ≡ length self.now.texts }
    {
        self.texts.len()
    }

    /// Returns the texts of the fields.
    pub(crate) fn texts(&self) -> &[CowSlice<'a, u8>]
        ensures { texts_of result.now ≡ self.now.texts }
    {
        &self.texts
    }

    /// Returns where the field of this number, from 0, stands in its line.
    pub fn range(&self, number: usize) -> Option<FieldRange>
        ensures { result ≡ slice_get self.now.ranges number }
    {
        self.ranges.get(number).copied()
    }

    /// Splits a line into the fields up to its comment, or returns its first fault at this place.
    pub fn take_line(&mut self, alloc: Global, place: Place, line: &'a [u8]) -> Result<(), Stop>
        ensures ok { OnOk result (IsLine line.now × (self.new.texts ≡ fields line.now)) }
        ensures ranges { OnOk result (self.new.ranges ≡ field_ranges line.now) }
        ensures fault { IfRefusal fault_of result (IsFirstFailed place (byte_checks line.now)) }
        ensures memory { OnOutOfMemory fault_of result (length line.now ≤ LONGEST_LINE) }
    {
        if line.len() > LONGEST_LINE {
            return Err(Stop::at(place, Kind::LineTooLong));
        }
        self.take_code(alloc, place, line)
    }

    /// Splits a line that isn't too long.
    fn take_code(&mut self, alloc: Global, place: Place, line: &'a [u8]) -> Result<(), Stop>
        requires { length line.now ≤ LONGEST_LINE }
        ensures ok { OnOk result (IsLine line.now × (self.new.texts ≡ fields line.now)) }
        ensures ranges { OnOk result (self.new.ranges ≡ field_ranges line.now) }
        ensures fault { IfRefusal fault_of result (IsFirstFailed place (byte_checks line.now)) }
    {
        self.texts.clear();
        self.ranges.clear();
        let mut quoted = false;
        let mut start = 0;
        let mut has_quotes = false;
        let mut end = plain_end(line, 0);
        while end < line.len() {
            match role_of(line[end], quoted) {
                Role::Comment => break,
                Role::DoubleQuote => {
                    quoted = !quoted;
                    has_quotes = true;
                }
                Role::Refused => return Err(Stop::at(place, Kind::NotAscii)),
                Role::Gap => {
                    self.push_field(
                        alloc,
                        &line[start..end],
                        FieldRange { start, end },
                        has_quotes,
                    )?;
                    start = end + 1;
                    has_quotes = false;
                }
                Role::Text => {}
            }
            end = plain_end(line, end + 1);
        }
        if quoted {
            return Err(Stop::at(place, Kind::Quote));
        }
        self.push_field(
            alloc,
            &line[start..end],
            FieldRange { start, end },
            has_quotes,
        )?;
        Ok(())
    }

    /// Adds a field that stands there, unless it is empty, as between two gaps.
    #[inline]
    fn push_field(
        &mut self,
        alloc: Global,
        field: &'a [u8],
        range: FieldRange,
        has_quotes: bool,
    ) -> Result<(), AllocError>
        requires { has_quotes ≡ false → without_quotes field.now ≡ field.now }
        ensures texts { OnOk result
            (self.new.texts ≡ ended_texts self.old.texts field.now) }
        ensures ranges { OnOk result
            (self.new.ranges ≡ ended_ranges self.old.ranges field.now range) }
    {
        if field.is_empty() {
            return Ok(());
        }
        let text = if has_quotes {
            text_without_quotes(alloc, field)?
        } else {
            CowSlice::Borrowed(field)
        };
        self.texts.push(text)?;
        self.ranges.push(range)?;
        Ok(())
    }
}
