//! How many rows with a fault a run still goes on after.

ghost use Rattle.std.specs.Prelude.{◌≡◌, ◌+◌, List, IfOk, IfErr, Some, length};
ghost use Rattle.zic_layouts.specs.Noted.{RowNote};
ghost use Rattle.zic_convert.specs.Run.{IsOneTooMany};
ghost use Rattle.zic_convert.specs.code.Pieces.{joined};
ghost use Rattle.zic_convert.specs.code.Written.{IsLeft};

use zic_base::RowFault;
use zic_piece_rows::Rows;

/// How many rows were written, and after how many more rows with a fault the run goes on, where that is
/// limited.
#[derive(Clone, Copy, Drop)]
pub(crate) struct Tally {
    pub(crate) rows: u64,
    pub(crate) left: Option<u64>,
}

/// Returns after how many more rows with a fault the run goes on, once it has these rows.
///
/// # Errors
///
/// The row with a fault that is one too many.
fn left_of_piece(rows: &Rows, left: u64) -> Result<u64, RowFault>
    ensures ok { IfOk result (λ after. left ≡ length rows.now.faults + after) }
    ensures err { IfErr result (λ fault. (before : List RowNote)
        × IsOneTooMany (Some left) rows.now.faults fault.row fault.kind before) }
{
    let faults = rows.faults.len() as u64;
    if left < faults {
        return Err(rows.faults[left as usize].fault);
    }
    Ok(left - faults)
}

/// Returns the same for the rows of pieces, one piece after another, up to the first that ends the run.
///
/// # Errors
///
/// The row with a fault that is one too many.
pub(crate) fn left_after(pieces: &[Rows], left: Option<u64>) -> Result<Option<u64>, RowFault>
    ensures ok { IfOk result (IsLeft left (joined pieces.now).faults) }
    ensures err { IfErr result (λ fault. (before : List RowNote)
        × IsOneTooMany left (joined pieces.now).faults fault.row fault.kind before) }
{
    let Some(most) = left else {
        return Ok(None);
    };
    let mut few = most;
    for rows in pieces {
        few = left_of_piece(rows, few)?;
        if rows.fault.is_some() {
            return Ok(Some(few));
        }
    }
    Ok(Some(few))
}
