//! The zones of the files of a source.

ghost use Rattle.std.specs.Prelude.{◌≡◌, IfOk};
ghost use Rattle.zic_zones.specs.code.Ready.{AreReady};

use crate::ready::Ready;
use crate::row_zones::RowZones;
use crate::slot::place_of;
use crate::tables::Expected;
use crate::zones::{Releases, Zones};
use std::alloc::{AllocError, Global};
use std::marker::Model;
use zic_columns::Round;
use zic_files::Files;
use zic_layouts::{Delimiter, ZoneFrom};

/// The zones of the files of a source, all of them ready for rows. Clauses see the files.
#[derive(Drop)]
pub struct SourceZones<'a> {
    files: &'a Files,
    ready: Ready,
    expected: Expected,
    /// The number of bytes of the rounds that were prepared.
    prepared: usize,
}

/// The number of bytes of rounds after which many rows are expected: those of some hundred rows.
const MANY_BYTES: usize = 32_768;

/// How many of the first bytes of a round are searched for an instant: those of a few records.
const FIRST_BYTES: usize = 128;

impl<'a> Model for SourceZones<'a> {
    ghost use Rattle.std.specs.Prelude.{List};
    ghost use Rattle.zic_files.specs.File.{File};
    ghost use Rattle.zic_zones.specs.code.Ready.{AreReady};

    ghost Value = { List File };

    ghost view = { λ z. z.files.now };

    ghost invariant = { λ z. AreReady z.files.now z.ready };
}

impl<'a> SourceZones<'a> {
    /// Makes the zones of all files ready. Tables by which rows are made faster come with a round after
    /// others of 32,768 bytes, since a short column has too few rows for them; those of the years after
    /// 2038 come with such a round that begins with an instant of theirs.
    ///
    /// # Errors
    ///
    /// Fails where memory is refused.
    pub fn new(alloc: Global, files: &'a Files) -> Result<SourceZones<'a>, AllocError>
        ensures { IfOk result (λ zones. zones ≡ files.now) }
    {
        let expected = Expected::FewRows;
        Ok(SourceZones {
            files,
            ready: ready_of(alloc, files, expected)?,
            expected,
            prepared: 0,
        })
    }

    /// Makes the zones of all files ready for few or for many rows.
    fn expect(&mut self, alloc: Global, expected: Expected) -> Result<(), AllocError>
        ensures { self.new ≡ self.old }
    {
        self.ready = ready_of(alloc, self.files, expected)?;
        self.expected = expected;
        Ok(())
    }
}

/// Makes files ready.
fn ready_of(alloc: Global, files: &Files, expected: Expected) -> Result<Ready, AllocError>
    ensures { IfOk result (AreReady files.now) }
{
    let mut ready = Ready::new(alloc, expected);
    ready.extend(alloc, files)?;
    Ok(ready)
}

/// Returns the number of bytes of a round.
fn len_of(round: &Round<'_>) -> usize {
    let mut len = 0usize;
    for i in 0..round.len() {
        len = len.saturating_add(round.piece(i).len());
    }
    len
}

/// Returns whether some first bytes of a piece have a number that is an instant of an era after the
/// first.
fn begins_late(piece: &[u8]) -> bool {
    let mut number = 0i64;
    for byte in piece.iter().take(FIRST_BYTES) {
        if byte.is_ascii_digit() {
            let digit = i64::from(*byte ^ b'0');
            number = number.wrapping_mul(10).wrapping_add(digit);
        } else if is_late(number) {
            return true;
        } else {
            number = 0;
        }
    }
    false
}

/// Returns whether an instant is in an era after the first.
fn is_late(instant: i64) -> bool {
    match place_of(instant) {
        Some(place) => place.era > 0,
        None => false,
    }
}

impl<'a> Zones for SourceZones<'a> {
    ghost use Rattle.std.specs.Prelude.{◌≡◌, refl};
    ghost use Rattle.zic_files.specs.Sound.{AreSoundFiles};
    ghost use Rattle.zic_zones.specs.Source.{source_agrees, source_narrows, source_then};
    ghost use Rattle.zic_zones.specs.Zones.{alone};

    ghost known = { λ z. alone z };

    ghost settled = { λ z name. Unit {0} };

    ghost may_be = { λ z releases. (releases ≡ alone z) × AreSoundFiles z };

    ghost grown = { λ a b. b ≡ a };

    ghost broken = { λ a b. b ≡ a };

    ghost requests = { λ a _ b. b ≡ a };

    fn learn(&mut self, _alloc: Global, _name: &[u8]) -> Result<(), AllocError> {
        Ok(())
    }

    fn prepare(
        &mut self,
        alloc: Global,
        _zone: &ZoneFrom,
        _delimiter: &Delimiter,
        round: &Round<'_>,
    ) -> Result<(), AllocError> {
        let before = self.prepared;
        self.prepared = before.saturating_add(len_of(round));
        // The round after the last has no piece.
        if before < MANY_BYTES || round.len() == 0 {
            return Ok(());
        }
        match self.expected {
            Expected::FewRows | Expected::ManyRows if begins_late(round.piece(0)) => {
                self.expect(alloc, Expected::LateRows)
            }
            Expected::FewRows => self.expect(alloc, Expected::ManyRows),
            Expected::ManyRows | Expected::LateRows => Ok(()),
        }
    }

    fn ready(&self) -> Releases<'_> {
        let zones = RowZones {
            files: self.files,
            ready: &self.ready,
        };
        Releases { zones, old: None }
    }

    ghost same = { λ _. refl };

    ghost then = { source_then };

    ghost narrows = { source_narrows };

    ghost agrees = { source_agrees };
}
