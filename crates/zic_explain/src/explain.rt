//! Explains errors.

ghost use Rattle.std.specs.Prelude.{◌≡◌, ◌++◌, map, string_bytes, IfOk, IfErr, IfSome, IfNone, OnOk};
ghost use Rattle.std.specs.List.{flat_map, Contains};
ghost use Rattle.zic_explain.specs.Explanation.{section, explanation_text, index_line, names_of, IsExplanation, IsUnexplained, HasName, HasNoName, NamesError};
ghost use Rattle.zic_explain.specs.Nearest.{IsNearName};

use crate::entry::Entry;
use crate::nearest::near_name;
use std::alloc::{AllocError, Global};

/// Why there is no explanation.
#[derive(Clone, Copy, Debug, PartialEq, Eq)]
pub enum Unexplained {
    /// No error has the name.
    NoError {
        /// The name of an error that is nearest to it, if that is near.
        nearest: Option<&'static str>,
    },
    /// Memory ran out.
    Memory,
}

impl From<AllocError> for Unexplained {
    ghost use Rattle.zic_explain.specs.declared.explain.Unexplained.TheVariants.{Memory};

    ghost from_gives = { λ _ e. e ≡ Memory };

    fn from(_e: AllocError) -> Unexplained {
        Unexplained::Memory
    }
}

/// Returns the explanation of the error of this name: lines that say what it means, what is
/// expected, a wrong and a right example, and what people usually meant.
///
/// # Errors
///
/// No entry has the name, or memory ran out.
pub fn explanation(alloc: Global, entries: &[Entry], name: &str) -> Result<String, Unexplained>
    ensures ok { IfOk result (λ text. IsExplanation entries.now name.now (string_bytes text)) }
    ensures err { IfErr result (IsUnexplained entries.now name.now) }
{
    match entry_named(entries, name) {
        Some(entry) => Ok(text_of(alloc, &entry)?),
        None => Err(Unexplained::NoError {
            nearest: near_error(alloc, entries, name)?,
        }),
    }
}

/// Returns a line for each entry, with its name and the first sentence of what it means.
pub fn index(alloc: Global, entries: &[Entry]) -> Result<String, AllocError>
    ensures { IfOk result (λ text. string_bytes text ≡ flat_map index_line entries.now) }
{
    let mut text = String::new(alloc);
    for entry in entries {
        push_index_line(&mut text, entry)?;
    }
    Ok(text)
}

/// Returns the entry of this name.
pub fn entry_named(entries: &[Entry], name: &str) -> Option<Entry>
    ensures found { IfSome result (HasName entries.now name.now) }
    ensures none { IfNone result (HasNoName entries.now name.now) }
{
    for entry in entries {
        if entry.name == name {
            return Some(*entry);
        }
    }
    None
}

/// Returns the name of the error that a message names, or the message itself where it names none. A message
/// may be the name, or have it after its last colon, in upper or lower case; or it begins as the name does,
/// and goes on with a path or a zone in place of `PATH` or `NAME`. Only its first line is looked at. The
/// contract says that an error has the name; which of them it is, is tested.
pub fn error_in<'a>(entries: &[Entry], message: &'a str) -> &'a str
    ensures { NamesError entries.now message.now result.now }
{
    match entry_named(entries, message) {
        Some(_) => message,
        None => match entry_in(entries, message.lines().next().unwrap_or("")) {
            Some(entry) => entry.name,
            None => message,
        },
    }
}

/// Returns the entry of the error that a line names.
fn entry_in(entries: &[Entry], line: &str) -> Option<Entry>
    ensures { IfSome result (Contains entries.now) }
{
    match entry_named(entries, line) {
        None => match entry_of_path(entries, line) {
            None => entry_at_end(entries, line),
            found => found,
        },
        found => found,
    }
}

/// Returns the entry whose name a line begins with, up to its path or its zone.
fn entry_of_path(entries: &[Entry], line: &str) -> Option<Entry>
    ensures { IfSome result (Contains entries.now) }
{
    for entry in entries {
        if is_about(entry.name, line) {
            return Some(*entry);
        }
    }
    None
}

/// Returns whether a line begins as the name of an error does before its path or its zone.
fn is_about(name: &str, line: &str) -> bool {
    match name.strip_suffix("PATH").or(name.strip_suffix("NAME")) {
        Some(start) => line.starts_with(start),
        None => false,
    }
}

/// Returns the entry whose name stands after the last colon of a line, or is all of it.
fn entry_at_end(entries: &[Entry], line: &str) -> Option<Entry>
    ensures { IfSome result (Contains entries.now) }
{
    let name = match line.rsplit_once(": ") {
        Some((_, name)) => name,
        None => line,
    };
    for entry in entries {
        if entry.name.eq_ignore_ascii_case(name) {
            return Some(*entry);
        }
    }
    None
}

/// Returns the name of an error that is nearest to this name, if that is near.
fn near_error(
    alloc: Global,
    entries: &[Entry],
    name: &str,
) -> Result<Option<&'static str>, AllocError>
    ensures { IfOk result (IsNearName (names_of entries.now) name.now) }
{
    let names = names(alloc, entries)?;
    near_name(alloc, &names, name)
}

/// Returns the names of entries.
fn names(alloc: Global, entries: &[Entry]) -> Result<Vec<&'static str>, AllocError>
    ensures { IfOk result (λ names. map (λ name. name.now) names.items ≡ names_of entries.now) }
{
    let mut names = Vec::with_capacity(alloc, entries.len())?;
    for entry in entries {
        names.push(entry.name)?;
    }
    Ok(names)
}

/// Returns the explanation of an error.
fn text_of(alloc: Global, entry: &Entry) -> Result<String, AllocError>
    ensures { IfOk result (λ text. string_bytes text ≡ explanation_text entry.now) }
{
    let mut text = String::new(alloc);
    push_all(&mut text, &[entry.name, "\n\n", entry.says])?;
    push_section(&mut text, "Expected", entry.expected)?;
    push_section(&mut text, "The examples use", entry.setup)?;
    push_section(&mut text, "Wrong", entry.wrong)?;
    push_section(&mut text, "It prints", entry.prints)?;
    push_section(&mut text, "Right", entry.right)?;
    push_section(&mut text, "Usual cause", entry.cause)?;
    Ok(text)
}

/// Adds an empty line, a title and its lines, or nothing where there are no lines.
///
/// # Errors
///
/// Memory ran out.
pub fn push_section(text: &mut String, title: &str, lines: &str) -> Result<(), AllocError>
    ensures { OnOk result
        (string_bytes text.new ≡ string_bytes text.old ++ section title.now lines.now) }
{
    if lines.is_empty() {
        return Ok(());
    }
    push_all(text, &["\n", title, ":\n", lines])
}

/// Adds the line of an entry.
fn push_index_line(text: &mut String, entry: &Entry) -> Result<(), AllocError>
    ensures { OnOk result
        (string_bytes text.new ≡ string_bytes text.old ++ index_line entry.now) }
{
    push_all(text, &[entry.name, ": ", entry.meaning, "\n"])
}

/// Adds these texts, one after the other.
fn push_all(text: &mut String, parts: &[&str]) -> Result<(), AllocError>
    ensures { OnOk result
        (string_bytes text.new ≡ string_bytes text.old ++ flat_map (λ part. part.now) parts.now) }
{
    for part in parts {
        text.push_str(part)?;
    }
    Ok(())
}
