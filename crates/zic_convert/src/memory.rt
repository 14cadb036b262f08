//! Converts columns in memory, on the calling thread.

ghost use Rattle.std.specs.Prelude.{◌≡◌, ◌≤◌, IfOk, None, length};
ghost use Rattle.zic_files.specs.Sound.{AreSoundFiles};
ghost use Rattle.zic_convert.specs.By.{by_of};
ghost use Rattle.zic_convert.specs.Memory.{IsConvertedTo};
ghost use Rattle.zic_convert.specs.code.Memory.{AreMade};
ghost use Rattle.zic_convert.specs.code.Pieces.{AreConverted};
ghost use Rattle.zic_zones.specs.Zones.{alone};

use crate::conversion::convert_rows;
use crate::crew::{Converting, PieceRows, in_order};
use crate::halt::Halt;
use crate::header::ReadBy;
use crate::notes::Notes;
use crate::output::write_names;
use crate::pieces::RowPieces;
use crate::texts::NewTexts;
use std::alloc::{AllocError, Global};
use zic_base::{RowFault, RunStop};
use zic_counted::Counted;
use zic_files::Files;
use zic_layouts::{FaultyRow, Layout, Plan};
use zic_zones::SourceZones;

/// The rows of a column by a layout, up to the first that ends the run: the text of the header and of
/// the rows, the number of rows, the fault that ends the run, and the rows before it that have a fault.
#[derive(Drop)]
pub struct LayoutRows {
    pub text: Vec<u8>,
    pub count: u64,
    pub fault: Option<RowFault>,
    pub faults: Vec<FaultyRow>,
}

/// Returns what was written and noted, by how the run ended: at its end, or at a row or the header.
///
/// # Errors
///
/// Fails where it ended otherwise, or memory for what was noted was refused.
fn made_by(
    outcome: Result<u64, Halt>,
    text: Vec<u8>,
    notes: Notes,
) -> Result<LayoutRows, AllocError>
    ensures { IfOk result (AreMade outcome text.items notes) }
{
    let faults = notes.into_faults()?;
    match outcome {
        Ok(count) => Ok(LayoutRows {
            text,
            count,
            fault: None,
            faults,
        }),
        Err(Halt::Stop(RunStop::Row { row, kind })) => Ok(LayoutRows {
            text,
            count: row.saturating_sub(1),
            fault: Some(RowFault { row, kind }),
            faults,
        }),
        Err(_) => Err(AllocError),
    }
}

/// Converts a column in memory by a layout and these zones, as [`rows_by_layout`] does.
fn rows_by_zones(
    by: &ReadBy<'_>,
    zones: &mut SourceZones<'_>,
    column: &[u8],
) -> Result<LayoutRows, AllocError>
    requires sound { AreSoundFiles zones.old }
    ensures { IfOk result (IsConvertedTo (by_of by.now.layout.now (alone zones.old)
        by.now.plan.now.max_rows None) column.now) }
{
    let alloc = by.alloc;
    let mut writer = Counted::new(Vec::new(alloc));
    let mut notes = Notes::new(alloc);
    if write_names(&mut writer, by.layout, &*zones).is_err() {
        return Err(AllocError);
    }
    let crew = |pieces: &RowPieces<'_, '_, NewTexts>| -> PieceRows
        ensures { AreConverted pieces.entry.now result }
    { in_order(alloc, pieces) };
    let converting = Converting {
        crew: &crew,
        texts: &NewTexts,
        by: *by,
        max_faults: None,
    };
    let outcome = convert_rows(&converting, zones, column, &mut writer, &mut notes);
    made_by(outcome, writer.into_inner(), notes)
}

/// Converts a column in memory by a layout, on the calling thread, to the header and the rows of
/// [`crate::convert_column`]. Returns those up to the first that ends the run, and the faults; the header is
/// the row 0. The plan says how many rows and bytes the column may have; its workers and pieces change
/// nothing. There is no other release.
///
/// # Errors
///
/// Fails where memory is refused, or the column has more bytes.
pub fn rows_by_layout(
    alloc: Global,
    files: &Files,
    plan: &Plan,
    layout: &Layout,
    column: &[u8],
) -> Result<LayoutRows, AllocError>
    ensures rows { IfOk result (IsConvertedTo (by_of layout.now (alone files.now) plan.now.max_rows
        None) column.now) }
    ensures within { IfOk result (λ _. length column.now ≤ plan.now.max_bytes) }
{
    // Each file of a release is sound.
    prove!(files.len() <= usize::MAX);
    if plan.max_bytes() < column.len() as u64 {
        return Err(AllocError);
    }
    let mut zones = SourceZones::new(alloc, files)?;
    let by = ReadBy {
        alloc,
        plan,
        layout,
    };
    rows_by_zones(&by, &mut zones, column)
}
