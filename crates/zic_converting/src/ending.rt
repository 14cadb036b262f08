//! How a conversion ends, by what ended it, by the faults of rows after which it went on, and by which of its
//! lists were written whole.

ghost use Rattle.std.specs.Prelude.{◌≡◌, option_map, string_bytes};
ghost use Rattle.std.specs.Option.{option_copied};
ghost use Rattle.zic_converting.specs.Ending.{behind_of, by_unread, ended, failure_in, failure_of, first_unwritten, is_before_rows, keeps_lists, rows_made, told_beside, IsReport};

use std::mem;
use zic_base::RowFault;
use zic_command_line::Zones;
use zic_io::Failure;
use zic_layouts::AtFault;

/// The faults of rows after which a run went on.
#[derive(Clone, Copy)]
pub(crate) struct Faults {
    /// What a row with a fault did.
    pub(crate) at_fault: AtFault,
    /// The first, if there is one.
    pub(crate) first: Option<RowFault>,
    /// How many there are.
    pub(crate) count: u64,
}

impl Faults {
    /// Returns the failure that they are, if there are any.
    pub(crate) fn failure(&self) -> Option<Failure>
        ensures { result ≡ failure_of self.now }
    {
        let RowFault { row, kind } = self.first?;
        let count = self.count;
        Some(match self.at_fault {
            AtFault::Reject => Failure::Rejected { row, kind, count },
            AtFault::End | AtFault::GoOn => Failure::Rows { row, kind, count },
        })
    }

    /// Returns the failure that is told beside that of a run: that of the faults, where a row ended it, more
    /// bytes than there may be, or a list that can't be written.
    pub(crate) fn told_beside(&self, ended: &Result<(), Failure>) -> Option<Failure>
        ensures { result ≡ told_beside self.now ended.now }
    {
        match ended {
            Err(Failure::ColumnTooLong | Failure::Row { .. }) => self.failure(),
            Err(Failure::CannotWriteList) => self.failure(),
            _ => None,
        }
    }
}

/// A list that was not written whole.
#[derive(Clone, Copy)]
pub(crate) enum Unwritten {
    /// That of the faults of rows.
    Faults,
    /// That of their records.
    Rejects,
    /// That of the rows of each zone.
    Summary,
}

/// Returns how the rows ended, where the path of a file was noted that is there and can't be read, if there was one.
/// A folder answers such a file as it answers lack of memory.
pub(crate) fn by_unread(
    converted: Result<u64, Failure>,
    unread: Option<String>,
) -> Result<u64, Failure>
    ensures { result ≡ by_unread unread converted }
{
    match (converted, unread) {
        (Err(Failure::Memory), Some(path)) => Err(Failure::CannotRead(path)),
        (converted, _) => converted,
    }
}

/// Returns how a run ends: by what ended the rows, or else by the faults after which it went on, if there are
/// any.
pub(crate) fn ended(converted: Result<u64, Failure>, faults: &Faults) -> Result<(), Failure>
    ensures { result ≡ ended faults.now converted }
{
    match converted {
        Err(failure) => Err(failure),
        Ok(_) => match faults.failure() {
            Some(failure) => Err(failure),
            None => Ok(()),
        },
    }
}

/// Returns whether a run that ended so leaves the lists of an earlier one as they are: it noted no fault of
/// a row, and ended before rows were made, by a fault of the source, an unknown zone, a file that can't be
/// read, a header that is too long, or lack of memory or threads.
pub(crate) fn keeps_lists(faults: &Faults, ended: &Result<(), Failure>) -> bool
    ensures { result ≡ keeps_lists faults.now ended.now }
{
    faults.first.is_none() && is_before_rows(ended)
}

/// Returns whether a run without faults of rows ended before rows were made.
fn is_before_rows(ended: &Result<(), Failure>) -> bool
    ensures { result ≡ is_before_rows ended.now }
{
    match ended {
        Err(Failure::Line { .. } | Failure::TextLine { .. } | Failure::UnknownZone(_)) => true,
        Err(Failure::CannotRead(_)) => true,
        Err(Failure::Memory | Failure::NoThread | Failure::Row { row: 0, .. }) => true,
        _ => false,
    }
}

/// Returns the first list that was not written whole, by whether each was.
pub(crate) fn first_unwritten(faults: bool, rejects: bool, summary: bool) -> Option<Unwritten>
    ensures { result ≡ first_unwritten faults rejects summary }
{
    match (faults, rejects, summary) {
        (false, _, _) => Some(Unwritten::Faults),
        (true, false, _) => Some(Unwritten::Rejects),
        (true, true, false) => Some(Unwritten::Summary),
        (true, true, true) => None,
    }
}

/// Returns what a run reports that ended so, where the list at this path may not be written whole. That it
/// isn't comes first, whatever ended the run, and that is then put behind it.
///
/// # Errors
///
/// The failure of the run, `CannotWrite` with the path, or `Memory` in place of that.
pub(crate) fn report(
    ended: Result<(), Failure>,
    unwritten: Option<&String>,
    behind: &mut Option<Failure>,
) -> Result<(), Failure>
    ensures reported { IsReport ended (option_map string_bytes (option_copied unwritten.entry)) result }
    ensures behind { behind.new ≡ behind_of (option_map string_bytes (option_copied unwritten.entry)) ended }
{
    let Some(path) = unwritten else {
        drop(mem::replace(behind, None));
        return ended;
    };
    drop(mem::replace(behind, failure_in(ended)));
    Err(Failure::CannotWrite(path.clone()?))
}

/// Returns the failure that ended a run, if one did, and it wasn't that of a list, which is reported itself.
fn failure_in(ended: Result<(), Failure>) -> Option<Failure>
    ensures { result ≡ failure_in ended }
{
    match ended {
        Ok(()) | Err(Failure::CannotWriteList) => None,
        Err(failure) => Some(failure),
    }
}

/// Returns the number of rows that were made, where rows are compared with those of another release and
/// only some of them are written.
pub(crate) fn rows_made(against: &Option<Zones>, converted: &Result<u64, Failure>) -> Option<u64>
    ensures { result ≡ rows_made against.now converted.now }
{
    match (against, converted) {
        (Some(_), Ok(rows)) => Some(*rows),
        _ => None,
    }
}
