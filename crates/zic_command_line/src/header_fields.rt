//! The fields of a header that have the names which words mean, found as the header is passed over.

ghost use Rattle.std.specs.Prelude.{◌≡◌, false, true};
ghost use Rattle.zic_command_line.specs.declared.header_fields.Named.TheVariants as named;

use crate::fields::FieldNames;
use crate::layout::read_by;
use crate::no_request::{NoRequest, hinted, usage};
use std::alloc::{AllocError, Global};
use zic_explain::shown_word;
use zic_layouts::{Layout, ZoneFrom};

/// The greatest number of bytes that are shown of a field.
const LONGEST_SHOWN: usize = 64;

/// The greatest number of fields that are shown of a header.
const MOST_SHOWN: usize = 64;

/// Which fields of a header have a name.
#[derive(Clone, Copy, Drop)]
enum Named {
    /// None of them.
    Nowhere,
    /// The one with this index.
    Once(usize),
    /// Several.
    Several,
}

impl Named {
    /// Returns which fields have the name, with one more, that of this index, which has it or doesn't.
    fn with(self, index: usize, has_name: bool) -> Named
        ensures other { has_name ≡ false → result ≡ self }
        ensures first { has_name ≡ true → self ≡ named.Nowhere → result ≡ named.Once index }
        ensures again { has_name ≡ true → (self ≡ named.Nowhere → ⊥) → result ≡ named.Several }
    {
        match self {
            _ if !has_name => self,
            Named::Nowhere => Named::Once(index),
            Named::Once(_) | Named::Several => Named::Several,
        }
    }
}

/// The fields of a header, as far as it was passed over. Of each name that words mean it keeps which
/// field has it, and of all fields their number and how the first are shown to people.
#[derive(Drop)]
pub struct HeaderFields<'a> {
    names: &'a FieldNames,
    zone: Named,
    time: Named,
    shown: Vec<String>,
    count: usize,
}

impl<'a> HeaderFields<'a> {
    /// Returns the header of which no field was passed over.
    pub fn new(alloc: Global, names: &'a FieldNames) -> HeaderFields<'a> {
        HeaderFields {
            names,
            zone: Named::Nowhere,
            time: Named::Nowhere,
            shown: Vec::new(alloc),
            count: 0,
        }
    }

    /// Returns the number of bytes of a field that tell it from all names, and that are shown of it, if it
    /// has more.
    pub fn telling_len(&self) -> usize {
        let zone = name_len(&self.names.zone);
        let time = name_len(&self.names.time);
        zone.max(time).max(LONGEST_SHOWN).saturating_add(1)
    }

    /// Takes note of the next field. Of one that has more than [`HeaderFields::telling_len`] bytes, that
    /// many first bytes and more may be given in its place, up to the end of a character.
    ///
    /// # Errors
    ///
    /// Fails where memory is refused.
    pub fn push(&mut self, alloc: Global, field: &[u8]) -> Result<(), AllocError> {
        let index = self.count;
        self.zone = self.zone.with(index, is_name(&self.names.zone, field));
        self.time = self.time.with(index, is_name(&self.names.time, field));
        if index < MOST_SHOWN {
            self.shown.push(shown_field(alloc, field)?)?;
        }
        self.count = index.saturating_add(1);
        Ok(())
    }

    /// Returns the layout in which the fields with these names are read, where the header of the column has
    /// these fields. Where the column has no header, since it is empty, the layout is as it was.
    ///
    /// # Errors
    ///
    /// The text of usage where no field has a name, or several have it, or both names are of one field, or
    /// memory ran out.
    pub fn layout_by(&self, alloc: Global, layout: Layout) -> Result<Layout, NoRequest> {
        if self.count == 0 {
            return Ok(layout);
        }
        let mut layout = layout;
        match self.name_fields(alloc, &mut layout) {
            Ok(()) => Ok(layout),
            Err(refusal) => Err(hinted(alloc, refusal, "convert")),
        }
    }

    /// Changes a layout to the fields with these names.
    fn name_fields(&self, alloc: Global, layout: &mut Layout) -> Result<(), NoRequest> {
        let zone = match &layout.zone {
            ZoneFrom::Field(index) => Some(self.zone_index(alloc, *index)?),
            ZoneFrom::Name(_) => None,
        };
        let time = self.time_index(alloc, layout.time)?;
        read_by(alloc, layout, zone, time)
    }

    /// Returns the index of the zone's field, which is this where the words give no name.
    fn zone_index(&self, alloc: Global, index: usize) -> Result<usize, NoRequest> {
        match &self.names.zone {
            Some(name) => self.index_of(alloc, "--zone-field", name, self.zone),
            None => Ok(index),
        }
    }

    /// Returns the index of the time's field, which is this where the words give no name.
    fn time_index(&self, alloc: Global, index: usize) -> Result<usize, NoRequest> {
        match &self.names.time {
            Some(name) => self.index_of(alloc, "--time-field", name, self.time),
            None => Ok(index),
        }
    }

    /// Returns the index of the field with the name that an option gives.
    fn index_of(
        &self,
        alloc: Global,
        option: &str,
        name: &String,
        named: Named,
    ) -> Result<usize, NoRequest> {
        let fault = match named {
            Named::Once(index) => return Ok(index),
            Named::Nowhere => ": no field of the header is named '",
            Named::Several => ": several fields of the header are named '",
        };
        let text = self.unnamed(alloc, option, fault, name)?;
        Err(usage(alloc, text.as_str()))
    }

    /// Returns what is wrong with a name that the header doesn't have once.
    fn unnamed(
        &self,
        alloc: Global,
        option: &str,
        fault: &str,
        name: &String,
    ) -> Result<String, AllocError> {
        let name = shown_field(alloc, name.as_bytes())?;
        let fields = self.shown_fields(alloc)?;
        let (name, fields) = (name.as_str(), fields.as_str());
        [option, fault, name, "'; its fields are ", fields].concat(alloc)
    }

    /// Returns the fields as they are shown to people, between quotes, and how many more there are where
    /// these are too many.
    fn shown_fields(&self, alloc: Global) -> Result<String, AllocError> {
        let fields = self.shown.join(alloc, "', '")?;
        let more = self.count.saturating_sub(MOST_SHOWN);
        if more == 0 {
            return ["'", fields.as_str(), "'"].concat(alloc);
        }
        format!(in alloc; "'{fields}' and {more} more")
    }
}

/// Returns whether a field has a name, if there is one.
fn is_name(name: &Option<String>, field: &[u8]) -> bool {
    match name {
        Some(name) => name.as_bytes() == field,
        None => false,
    }
}

/// Returns the number of bytes of a name, if there is one.
fn name_len(name: &Option<String>) -> usize {
    match name {
        Some(name) => name.len(),
        None => 0,
    }
}

/// Returns a field as it is shown to people, a long one as its first bytes and an ellipsis.
fn shown_field(alloc: Global, field: &[u8]) -> Result<String, AllocError> {
    let text = str::from_utf8(field).unwrap_or("?");
    let start = start_of(text);
    let mut word = shown_word(alloc, start)?;
    if start.len() < text.len() {
        word.push_str("...")?;
    }
    Ok(word)
}

/// Returns the start of a text that has at most `LONGEST_SHOWN` bytes.
fn start_of(text: &str) -> &str {
    for end in (0..LONGEST_SHOWN + 1).rev() {
        if text.is_char_boundary(end) {
            return &text[..end];
        }
    }
    text
}
