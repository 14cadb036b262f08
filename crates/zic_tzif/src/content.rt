//! The content of a TZif file, before it is written in bytes, and the limits of its tables.

ghost use Rattle.std.specs.Prelude.{◌≡◌};

use std::marker::Model;

/// A transition: from this instant on the local time type of this number holds.
#[derive(Clone, Copy, Debug, PartialEq, Eq)]
pub struct Change {
    /// Seconds from 1970-01-01T00:00:00 UT, without leap seconds.
    pub instant: i64,
    /// The type's place in the list of local time types.
    pub number: u8,
}

/// A local time type.
#[derive(Clone, Copy, Debug, PartialEq, Eq)]
pub struct LocalType {
    /// The UT offset in seconds, positive east.
    pub offset: i32,
    /// Whether it is daylight saving time.
    pub daylight: bool,
    /// The place in the bytes of designations at which the designation begins.
    pub place: u8,
}

/// The content of a zone's file, which passes all checks of a reader of TZif.
#[derive(Debug, Drop)]
pub struct Table {
    version: u8,
    changes: Vec<Change>,
    types: Vec<LocalType>,
    names: Vec<u8>,
    footer_text: Vec<u8>,
}

impl Model for Table {
    ghost use Rattle.zic_tzif.specs.Content.{Content, IsWritable, content};

    ghost Value = { Content };

    ghost view = { λ t.
        content t.version t.changes.items t.types.items t.names.items t.footer_text.items };

    ghost invariant = { λ t. IsWritable
        (content t.version t.changes.items t.types.items t.names.items t.footer_text.items) };
}

impl Table {
    ghost use Rattle.zic_tzif.specs.Content.{Content, IsWritable, content};

    /// Returns the table of this version, these transitions in the order of time, these local time
    /// types, bytes of designations and bytes of a footer.
    pub fn new(
        version: u8,
        changes: Vec<Change>,
        types: Vec<LocalType>,
        names: Vec<u8>,
        footer_text: Vec<u8>,
    ) -> Table
        requires { IsWritable
            (content version changes.items types.items names.items footer_text.items) }
        ensures { result
            ≡ content version changes.items types.items names.items footer_text.items }
    {
        Table {
            version,
            changes,
            types,
            names,
            footer_text,
        }
    }

    /// Returns the transitions, in the order of time.
    pub fn changes(&self) -> &[Change]
        ensures { result.now ≡ self.now.changes }
    {
        &self.changes
    }

    /// Returns the local time types. The first holds before every transition.
    pub fn types(&self) -> &[LocalType]
        ensures { result.now ≡ self.now.types }
    {
        &self.types
    }

    /// Returns the designations, each ended by NUL.
    pub fn names(&self) -> &[u8]
        ensures { result.now ≡ self.now.names }
    {
        &self.names
    }

    /// Returns the footer, a POSIX TZ string.
    pub fn footer_text(&self) -> &[u8]
        ensures { result.now ≡ self.now.text }
    {
        &self.footer_text
    }

    /// Returns the version of TZif that the footer needs, 2 or 3.
    pub fn version(&self) -> u8
        ensures version { result ≡ self.now.version }
        ensures writable { IsWritable self.now }
    {
        self.version
    }
}

/// The most transitions of a table. Own choice: with it a file stays below what is read.
pub const MAX_TRANSITIONS: usize = 100_000;

/// The most local time types: a type's number is a byte. RFC 9636, 3.2.
pub const MAX_TYPES: usize = 256;

/// The most bytes of designations. Own choice: then each begins at a place that a byte holds, as
/// RFC 9636, 3.2, asks.
pub const MAX_CHARACTERS: usize = 256;

/// The most bytes of a footer's text. Own choice: no footer that is made comes near it.
pub const LONGEST_FOOTER: usize = 1024;
