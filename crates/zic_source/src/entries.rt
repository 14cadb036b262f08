//! The entries of a source, as they are read.

ghost use Rattle.std.specs.Prelude.{◌≡◌, ◌+◌, ◌<◌, [], ◌∷◌, ◌++◌, length, slice_get, Some, OnOk};
ghost use Rattle.std.specs.Option.{option_map};
ghost use Rattle.zic_source.specs.Grammar.{open_line};
ghost use Rattle.zic_source.specs.Source.{lines_of_zone};
ghost use Rattle.zic_source.specs.code.Adding.{continued};
ghost use Rattle.zic_source.specs.code.Lines.{source_lines, no_lines};

use std::alloc::{AllocError, Global};
use std::marker::Model;
use zic_lines::{Link, Name, Place, Rule, ZoneLine};

/// A zone's name, its Zone line and its continuation lines.
#[derive(Debug, Drop)]
pub(crate) struct ZoneEntry {
    pub(crate) name: Name,
    pub(crate) first: ZoneLine,
    pub(crate) continuations: Vec<ZoneLine>,
}

impl Model for ZoneEntry {
    ghost use Rattle.zic_source.specs.Source.{ZoneLines};

    ghost Value = { ZoneLines };

    ghost view = { λ z. record {
      name = z.name;
      first = z.first;
      continuations = z.continuations.items;
    } };
}

impl ZoneEntry {
    /// Returns a line of the zone by its number; line 0 is the Zone line.
    pub(crate) fn line(&self, line: usize) -> &ZoneLine
        requires { line < length (lines_of_zone self.now) }
        ensures { slice_get (lines_of_zone self.now) line ≡ Some result.now }
    {
        if line == 0 {
            &self.first
        } else {
            &self.continuations[line - 1]
        }
    }

    /// Returns the number of lines of the zone.
    pub(crate) fn lines(&self) -> usize
        ensures { result ≡ length (lines_of_zone self.now) }
    {
        self.continuations.len() + 1
    }

    /// Returns the last line of the zone.
    fn last(&self) -> &ZoneLine
        ensures { slice_get (lines_of_zone self.now) (length self.now.continuations)
            ≡ Some result.now }
    {
        self.continuations.last().unwrap_or(&self.first)
    }
}

/// All entries so far, in the order of the texts and of their lines.
#[derive(Debug, Drop)]
pub(crate) struct Entries {
    pub(crate) rules: Vec<Rule>,
    pub(crate) zones: Vec<ZoneEntry>,
    pub(crate) links: Vec<Link>,
}

impl Entries {
    /// Returns no entries. Takes no memory.
    pub(crate) fn new(alloc: Global) -> Self
        ensures { source_lines result ≡ no_lines }
    {
        Entries {
            rules: Vec::new(alloc),
            zones: Vec::new(alloc),
            links: Vec::new(alloc),
        }
    }

    /// Adds a zone of one line.
    pub(crate) fn add_zone(
        &mut self,
        alloc: Global,
        name: Name,
        line: ZoneLine,
    ) -> Result<(), AllocError>
        ensures { OnOk result (source_lines self.new ≡ record (source_lines self.old) {
          zones = self.old.zones.items
              ++ record { name = name; first = line; continuations = [] } ∷ [];
        }) }
    {
        self.zones.push(ZoneEntry {
            name,
            first: line,
            continuations: Vec::new(alloc),
        })?;
        Ok(())
    }

    /// Adds a continuation line to the last zone.
    pub(crate) fn continue_zone(&mut self, line: ZoneLine) -> Result<(), AllocError>
        requires { 0 < length self.old.zones.items }
        ensures { OnOk result (source_lines self.new
            ≡ record (source_lines self.old) { zones = continued self.old.zones.items line }) }
    {
        let last = self.zones.len() - 1;
        let zone = &mut self.zones[last];
        zone.continuations.push(line)?;
        Ok(())
    }

    /// Returns the place of the last Zone or continuation line, if that has an UNTIL.
    pub(crate) fn open_place(&self) -> Option<Place>
        ensures { result ≡ option_map (λ line. line.place) (open_line (source_lines self.now)) }
    {
        let line = self.zones.last()?.last();
        if line.until.is_some() {
            Some(line.place)
        } else {
            None
        }
    }
}
