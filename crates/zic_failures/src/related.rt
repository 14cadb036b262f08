//! Lines and texts that a fault of a line is to be compared with.

ghost use Rattle.std.specs.Prelude.{IfOk, OnOk, string_bytes};
ghost use Rattle.zic_explain.specs.Shown.{IsShownText, StaysShown};

use crate::line::{awaits, entry_of, goes_on, is_line_feed, line_at};
use std::alloc::{AllocError, Global};
use zic_explain::cases::BAD_ABBREVIATION_TEXT;
use zic_explain::{push_bytes, push_line_end};
use zic_lines::Entry;

/// A line of some texts, by the index of its text and by its number there, from 1.
#[derive(Clone, Copy, Debug)]
pub struct TextLine {
    pub text: usize,
    pub line: u64,
}

/// Returns the first line that gives the name that a line gives again to a zone or a link, if an earlier
/// one does.
///
/// # Errors
///
/// Memory ran out.
pub fn first_name(
    alloc: Global,
    texts: &[Vec<u8>],
    again: TextLine,
) -> Result<Option<TextLine>, AllocError> {
    let Some(entry) = entry_at(alloc, texts, again)? else {
        return Ok(None);
    };
    let Some(name) = name_of(&entry) else {
        return Ok(None);
    };
    for (text, bytes) in texts.iter().enumerate() {
        if let Some(line) = line_of_name(alloc, bytes, name)? {
            let is_itself = text == again.text && line >= again.line;
            return Ok((!is_itself).then_some(TextLine { text, line }));
        }
    }
    Ok(None)
}

/// Returns what a line of texts says, if it says something.
pub(crate) fn entry_at(
    alloc: Global,
    texts: &[Vec<u8>],
    at: TextLine,
) -> Result<Option<Box<Entry>>, AllocError> {
    let Some(text) = texts.get(at.text) else {
        return Ok(None);
    };
    let Some(line) = line_at(text, at.line) else {
        return Ok(None);
    };
    let awaited = awaits(alloc, text, at.line.saturating_sub(1))?;
    entry_of(alloc, awaited, line)
}

/// Returns the name that a line gives to a zone or a link.
fn name_of(entry: &Entry) -> Option<&[u8]> {
    match entry {
        Entry::Zone(name, _) => Some(name.octets()),
        Entry::Link(link) => Some(link.name.octets()),
        Entry::Rule(_) | Entry::Continuation(_) => None,
    }
}

/// Returns the number of the first line of a text that gives this name.
fn line_of_name(alloc: Global, text: &[u8], name: &[u8]) -> Result<Option<u64>, AllocError> {
    let mut awaited = false;
    let mut number: u64 = 0;
    for line in text.split(is_line_feed) {
        number = number.saturating_add(1);
        if let Some(entry) = entry_of(alloc, awaited, line)? {
            awaited = goes_on(&entry);
            if name_of(&entry) == Some(name) {
                return Ok(Some(number));
            }
        }
    }
    Ok(None)
}

/// Returns a line with an abbreviation that no file may have.
///
/// # Errors
///
/// Memory ran out.
pub fn bad_abbreviation(alloc: Global, abbreviation: &[u8]) -> Result<String, AllocError>
    ensures { IfOk result (λ text. IsShownText (string_bytes text)) }
{
    let mut text = String::new(alloc);
    push_abbreviation(&mut text, abbreviation)?;
    Ok(text)
}

/// Adds a line with an abbreviation.
fn push_abbreviation(text: &mut String, abbreviation: &[u8]) -> Result<(), AllocError>
    ensures { OnOk result (StaysShown (string_bytes text.old) (string_bytes text.new)) }
{
    push_bytes(text, BAD_ABBREVIATION_TEXT.before.as_bytes())?;
    push_bytes(text, abbreviation)?;
    push_bytes(text, BAD_ABBREVIATION_TEXT.after.as_bytes())?;
    push_line_end(text)
}
