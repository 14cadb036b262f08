//! The numbers of rows of each zone of a conversion.

use crate::fault_line::{push_field, push_number};
use crate::list_output::ListOutput;
use std::alloc::{AllocError, Global};
use std::io::Write;
use zic_layouts::ZoneTally;

/// The line of names with which a file of these numbers begins.
const NAMES: &[u8] = b"zone,rows,differ\n";

/// The numbers of rows of zones, in the order of their names' bytes. Clauses don't see them.
#[derive(Drop)]
pub struct ZoneTallies {
    alloc: Global,
    tallies: Vec<ZoneTally>,
    /// Whether memory for a zone was refused, whose rows are missing.
    is_short: bool,
}

impl ZoneTallies {
    /// Returns no zones.
    pub(crate) fn new(alloc: Global) -> ZoneTallies {
        ZoneTallies {
            alloc,
            tallies: Vec::new(alloc),
            is_short: false,
        }
    }

    /// Adds to the numbers of rows of a zone.
    pub(crate) fn add(&mut self, tally: &ZoneTally) {
        let name = tally.zone.as_slice();
        let at = self
            .tallies
            .partition_point(|known| known.zone.as_slice() < name);
        if let Some(known) = self.tallies.get_mut(at) {
            if known.zone.as_slice() == name {
                known.rows = known.rows.saturating_add(tally.rows);
                known.differ = known.differ.saturating_add(tally.differ);
                return;
            }
        }
        self.is_short = self.is_short || self.insert(at, tally).is_err();
    }

    /// Inserts a zone at an index, or at the end where that is before it.
    fn insert(&mut self, at: usize, tally: &ZoneTally) -> Result<(), AllocError> {
        let tally = ZoneTally {
            zone: Vec::from_slice(self.alloc, &tally.zone)?,
            rows: tally.rows,
            differ: tally.differ,
        };
        let at = at.min(self.tallies.len());
        self.tallies.insert(at, tally)?;
        Ok(())
    }

    /// Returns whether memory was refused for some of the numbers.
    pub fn is_short(&self) -> bool {
        self.is_short
    }

    /// Writes the line of names to a file, and a line of CSV for each zone, and flushes it. Returns the
    /// file, or `None` where it doesn't take all.
    pub fn written<W: Write + Drop>(&self, file: W) -> Option<W> {
        let mut list = ListOutput::new(Some(file));
        list.push(NAMES);
        for tally in &self.tallies {
            push_tally(&mut list, tally);
        }
        if list.finish() {
            list.into_file()
        } else {
            drop(list);
            None
        }
    }
}

/// Adds the line of a zone.
fn push_tally<W: Write>(list: &mut ListOutput<W>, tally: &ZoneTally) {
    push_field(list, &tally.zone);
    list.push(b",");
    push_number(list, tally.rows);
    list.push(b",");
    push_number(list, tally.differ);
    list.push(b"\n");
}
