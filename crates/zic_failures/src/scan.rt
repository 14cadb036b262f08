//! The search for a record of a column, byte by byte, which keeps of it only what is shown.

use crate::place::QuotedLines;
use std::alloc::{AllocError, Global};
use zic_layouts::Records;

/// The greatest number of bytes that are stored of a record.
const LONGEST_TEXT: usize = 1_024;

/// The greatest number of bytes that are stored of a zone's name. No zone has a name of as many.
const LONGEST_NAME: usize = 256;

/// Where in a column a record is sought, and what of it is shown.
#[derive(Clone, Copy)]
pub(crate) struct Target {
    /// The number of the record, from 1.
    pub(crate) number: u64,
    /// Where a record ends.
    pub(crate) records: Records,
    /// The byte between fields.
    pub(crate) delimiter: u8,
    /// The index of the field with the name of the zone, if records have one.
    pub(crate) zone: Option<usize>,
}

/// What is shown of a record.
#[derive(Drop)]
pub(crate) struct ShownRecord {
    /// The record's own bytes, cut where it is long.
    pub(crate) text: Vec<u8>,
    /// The name of the zone, cut where it is too long for one.
    pub(crate) zone: Vec<u8>,
    /// The lines of the double quotes by which the record goes on, if it does.
    pub(crate) lines: Option<QuotedLines>,
}

/// What the next byte of a column is after.
#[derive(Clone, Copy, PartialEq, Eq)]
enum Place {
    /// Nothing but line ends: the record hasn't begun.
    Before,
    /// A delimiter: a field begins.
    Field,
    /// A byte of a field outside quotes.
    Plain,
    /// A byte of a field inside quotes.
    Quoted,
    /// A double quote inside quotes, which closes them unless another follows.
    Quote,
}

/// Reads a column byte by byte up to the end of a record, and counts its lines.
#[derive(Drop)]
pub(crate) struct RecordScan {
    sought: Target,
    /// The number of the record that the next byte may be of.
    number: u64,
    place: Place,
    /// The index of the field that the next byte may be of.
    field: usize,
    /// The number of the line of the next byte, from 1.
    line: u64,
    /// Whether the last byte was a carriage return, of whose line end a line feed is part.
    is_after_return: bool,
    /// The line where the last double quote opened.
    opened: u64,
    /// The line where the first double quote opened that has a line end inside, if one has.
    first: Option<u64>,
    text: Vec<u8>,
    zone: Vec<u8>,
}

impl RecordScan {
    /// Returns a scan for a record of a column, whose mark was passed over.
    pub(crate) fn new(alloc: Global, sought: Target) -> RecordScan {
        RecordScan {
            sought,
            number: 1,
            place: Place::Before,
            field: 0,
            line: 1,
            is_after_return: false,
            opened: 1,
            first: None,
            text: Vec::new(alloc),
            zone: Vec::new(alloc),
        }
    }

    /// Takes the next byte of the column. Returns whether it ends the record that is sought.
    pub(crate) fn take(&mut self, byte: u8) -> Result<bool, AllocError> {
        let place = self.place;
        let ends_line = byte == b'\r' || byte == b'\n';
        let ends_record = match (place, self.sought.records) {
            (Place::Before, _) | (Place::Quoted, Records::Csv) => false,
            _ => ends_line,
        };
        if ends_record {
            return Ok(self.end_record(byte));
        }
        if self.number == self.sought.number {
            self.keep(byte)?;
        }
        self.place = self.place_after(byte);
        if byte == self.sought.delimiter && self.place == Place::Field {
            self.field = self.field.saturating_add(1);
        }
        self.count_line(byte);
        Ok(false)
    }

    /// Returns what is shown of the record that is sought, at its end or at that of the column; or
    /// `None` where there is no such record.
    pub(crate) fn found(self) -> Option<ShownRecord> {
        let is_open = self.place == Place::Quoted;
        let is_here = self.number == self.sought.number && self.place != Place::Before;
        let lines = match (is_open, self.first) {
            (true, _) => Some(QuotedLines {
                opened: self.opened,
                ended: None,
            }),
            (false, Some(opened)) => Some(QuotedLines {
                opened,
                ended: Some(self.line),
            }),
            (false, None) => None,
        };
        let RecordScan { text, zone, .. } = self;
        if !is_here {
            return None;
        }
        Some(ShownRecord { text, zone, lines })
    }

    /// Ends a record at a line end, unless it is the one that is sought. Returns whether it is.
    fn end_record(&mut self, byte: u8) -> bool {
        if self.number == self.sought.number {
            return true;
        }
        self.number = self.number.saturating_add(1);
        self.place = Place::Before;
        self.field = 0;
        self.first = None;
        self.count_line(byte);
        false
    }

    /// Counts a line where a byte ends one.
    fn count_line(&mut self, byte: u8) {
        if byte == b'\r' || byte == b'\n' && !self.is_after_return {
            self.line = self.line.saturating_add(1);
        }
        self.is_after_return = byte == b'\r';
    }

    /// Keeps a byte of the record that is sought, where it is shown.
    fn keep(&mut self, byte: u8) -> Result<(), AllocError> {
        let begins = self.place == Place::Before && (byte == b'\r' || byte == b'\n');
        if !begins && self.text.len() < LONGEST_TEXT {
            self.text.push(byte)?;
        }
        let is_zone = self.sought.zone == Some(self.field) && self.is_of_field(byte);
        if is_zone && !begins && self.zone.len() < LONGEST_NAME {
            self.zone.push(byte)?;
        }
        Ok(())
    }

    /// Returns whether the next byte, which ends no record, is one of the text of its field.
    fn is_of_field(&self, byte: u8) -> bool {
        match self.place {
            Place::Before | Place::Field => byte != b'"' && byte != self.sought.delimiter,
            Place::Plain => byte != self.sought.delimiter,
            Place::Quoted => byte != b'"',
            Place::Quote => byte != self.sought.delimiter,
        }
    }

    /// Returns the place in the record after this byte, which ends no record, as a CSV reader has it.
    fn place_after(&mut self, byte: u8) -> Place {
        let ends_line = byte == b'\r' || byte == b'\n';
        match self.place {
            Place::Before if ends_line => Place::Before,
            Place::Quoted if byte == b'"' => Place::Quote,
            Place::Quoted => {
                if ends_line && self.first.is_none() {
                    self.first = Some(self.opened);
                }
                Place::Quoted
            }
            Place::Quote if byte == b'"' => Place::Quoted,
            Place::Before | Place::Field if byte == b'"' => {
                self.opened = self.line;
                Place::Quoted
            }
            _ if byte == self.sought.delimiter => Place::Field,
            _ => Place::Plain,
        }
    }
}
