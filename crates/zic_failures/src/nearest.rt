//! The zone or the rule set whose name is nearest to one that no zone or set has.

ghost use Rattle.std.specs.Prelude.{string_bytes, IfOk, OnOk};
ghost use Rattle.zic_explain.specs.Shown.{IsShownText, StaysShown};

use crate::line::{entry_of, goes_on, is_line_feed};
use crate::related::{TextLine, entry_at};
use std::alloc::{AllocError, Global};
use std::fs::Files;
use zic_explain::{near_name, push_bytes, push_line_end};
use zic_host::names_below;
use zic_lines::{Entry, Rules};

/// The greatest length of a zone's name. No more is compared of a longer name.
const LONGEST: usize = 255;

/// Returns a title and the name that is nearest to this one, among the names of the zones and links of
/// sources without faults; or an empty text if none is near. A terminal shows every byte of it. The contract
/// says only this; which names sources give is tested.
///
/// # Errors
///
/// Memory ran out.
pub fn nearest_zone(alloc: Global, texts: &[Vec<u8>], name: &[u8]) -> Result<String, AllocError>
    ensures { IfOk result (λ text. IsShownText (string_bytes text)) }
{
    let names = names_in(alloc, texts, Named::Zones)?;
    let name = spelled(alloc, name)?;
    nearest_of(alloc, &names, name.as_str())
}

/// Returns the same among the names of the files of a folder, as far as it can be read.
///
/// # Errors
///
/// Memory ran out.
pub(crate) fn nearest_file<R: Files + AllocGlobal>(
    rt: &R,
    folder: &String,
    name: &[u8],
) -> Result<String, AllocError>
    ensures { IfOk result (λ text. IsShownText (string_bytes text)) }
{
    let name = spelled(rt.alloc(), name)?;
    match names_below(rt, folder) {
        Ok(names) => nearest_of(rt.alloc(), &names.files, name.as_str()),
        Err(_) => Ok(String::new(rt.alloc())),
    }
}

/// Returns the same among the names of the rule sets of some texts, for the set that a line of one of
/// them names.
///
/// # Errors
///
/// Memory ran out.
pub fn nearest_rules(
    alloc: Global,
    texts: &[Vec<u8>],
    zone_line: TextLine,
) -> Result<String, AllocError>
    ensures { IfOk result (λ text. IsShownText (string_bytes text)) }
{
    let names = names_in(alloc, texts, Named::Rules)?;
    let name = rules_in(alloc, texts, zone_line)?;
    nearest_of(alloc, &names, name.as_str())
}

/// Returns the name of the rule set that a line names, or an empty text.
fn rules_in(alloc: Global, texts: &[Vec<u8>], at: TextLine) -> Result<String, AllocError> {
    let Some(entry) = entry_at(alloc, texts, at)? else {
        return Ok(String::new(alloc));
    };
    let rules = match &*entry {
        Entry::Zone(_, line) | Entry::Continuation(line) => &line.rules,
        Entry::Rule(_) | Entry::Link(_) => return Ok(String::new(alloc)),
    };
    match rules {
        Rules::Set(name) => spelled(alloc, name.octets()),
        Rules::Standard | Rules::Amount(_) => Ok(String::new(alloc)),
    }
}

/// Returns a title and the name of these that is nearest to this one, if that is near.
fn nearest_of(alloc: Global, names: &[String], name: &str) -> Result<String, AllocError>
    ensures { IfOk result (λ text. IsShownText (string_bytes text)) }
{
    let mut text = String::new(alloc);
    let names = texts_of(alloc, names)?;
    if let Some(nearest) = another(alloc, &names, name)? {
        push_nearest(&mut text, nearest)?;
    }
    Ok(text)
}

/// Returns the name of these that is this one but for the case of its letters, or else the one that is near.
/// There is none where this one is among them.
fn another<'a>(
    alloc: Global,
    names: &[&'a str],
    name: &str,
) -> Result<Option<&'a str>, AllocError> {
    for known in names {
        if known.eq_ignore_ascii_case(name) {
            return Ok((*known != name).then_some(*known));
        }
    }
    near_name(alloc, names, name)
}

/// Returns the texts of names.
fn texts_of(alloc: Global, names: &[String]) -> Result<Vec<&str>, AllocError> {
    let mut texts = Vec::with_capacity(alloc, names.len())?;
    for name in names {
        texts.push(name.as_str())?;
    }
    Ok(texts)
}

/// Adds an empty line, a title and a name.
fn push_nearest(text: &mut String, name: &str) -> Result<(), AllocError>
    ensures { OnOk result (StaysShown (string_bytes text.old) (string_bytes text.new)) }
{
    push_line_end(text)?;
    push_bytes(text, b"Nearest name:")?;
    push_line_end(text)?;
    push_bytes(text, b"  ")?;
    push_bytes(text, name.as_bytes())?;
    push_line_end(text)
}

/// Whose names are looked for.
#[derive(Clone, Copy, PartialEq, Eq)]
enum Named {
    /// Those of zones and links.
    Zones,
    /// Those of rule sets.
    Rules,
}

/// Returns the names that the lines of texts give.
fn names_in(alloc: Global, texts: &[Vec<u8>], named: Named) -> Result<Vec<String>, AllocError> {
    let mut names = Vec::new(alloc);
    for text in texts {
        push_names(alloc, &mut names, text, named)?;
    }
    Ok(names)
}

/// Adds the names that the lines of a text give.
fn push_names(
    alloc: Global,
    names: &mut Vec<String>,
    text: &[u8],
    named: Named,
) -> Result<(), AllocError> {
    let mut awaited = false;
    for line in text.split(is_line_feed) {
        if let Some(entry) = entry_of(alloc, awaited, line)? {
            awaited = goes_on(&entry);
            push_name(alloc, names, &entry, named)?;
        }
    }
    Ok(())
}

/// Adds the name that a line gives, if it gives one.
fn push_name(
    alloc: Global,
    names: &mut Vec<String>,
    entry: &Entry,
    named: Named,
) -> Result<(), AllocError> {
    let name = match (entry, named) {
        (Entry::Zone(name, _), Named::Zones) => name.octets(),
        (Entry::Link(link), Named::Zones) => link.name.octets(),
        (Entry::Rule(rule), Named::Rules) => rule.name.octets(),
        _ => return Ok(()),
    };
    names.push(spelled(alloc, name)?)?;
    Ok(())
}

/// Returns the bytes of a name as text, a character for each.
fn spelled(alloc: Global, name: &[u8]) -> Result<String, AllocError> {
    let mut text = String::new(alloc);
    for byte in name.iter().take(LONGEST) {
        text.push(char::from(*byte))?;
    }
    Ok(text)
}
