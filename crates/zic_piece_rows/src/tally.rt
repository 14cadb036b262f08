//! How many rows of a piece are in each zone, and how many of them another release answers differently.

ghost use Rattle.std.specs.Prelude.{◌≡◌, ◌<◌, IfOk};

use crate::piece::Piece;
use std::alloc::{AllocError, Global};
use zic_layouts::ZoneTally;

/// The numbers of rows of a zone.
#[derive(Clone, Copy, Drop)]
struct ZoneCount {
    rows: u64,
    differ: u64,
}

/// The numbers of rows of each zone, by the number of its file. They are kept only where the layout says
/// so, and there is another release. Clauses don't see them.
#[derive(Drop)]
pub(crate) struct Tallies {
    counts: Vec<ZoneCount>,
}

impl Tallies {
    /// Returns no rows, for the zones of a piece.
    pub(crate) fn new(
        alloc: Global,
        piece: &Piece<'_, '_>,
        is_compared: bool,
    ) -> Result<Tallies, AllocError> {
        let mut counts = Vec::new(alloc);
        if is_compared && piece.layout.tallies {
            counts.resize(piece.zones.len(), ZoneCount { rows: 0, differ: 0 })?;
        }
        Ok(Tallies { counts })
    }

    /// Counts a row of the zone with this number, if any, which another release answers differently or
    /// doesn't.
    #[inline(always)]
    pub(crate) fn count(&mut self, file: Option<usize>, differs: bool) {
        let Some(file) = file else {
            return;
        };
        if let Some(count) = self.counts.get_mut(file) {
            count.rows = count.rows.saturating_add(1);
            count.differ = count.differ.saturating_add(differs as u64);
        }
    }

    /// Returns the numbers of the zones that have rows, with the zones' names.
    pub(crate) fn named(
        &self,
        alloc: Global,
        piece: &Piece<'_, '_>,
    ) -> Result<Vec<ZoneTally>, AllocError> {
        let mut tallies = Vec::new(alloc);
        for (file, count) in self.counts.iter().enumerate() {
            if 0 < count.rows && file < piece.zones.len() {
                tallies.push(ZoneTally {
                    zone: Vec::from_slice(alloc, piece.zones.name(file))?,
                    rows: count.rows,
                    differ: count.differ,
                })?;
            }
        }
        Ok(tallies)
    }
}
