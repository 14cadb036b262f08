//! What a column is converted with, and the crew that is the calling thread.

ghost use Rattle.std.specs.Prelude.{IfOk, IfErr};
ghost use Rattle.zic_pieces.specs.Task.{AreValues, IsStop};

use crate::header::ReadBy;
use std::alloc::Global;
use zic_piece_rows::Rows;
use zic_pieces::{PieceStop, Task, TaskStop};

/// The rows of the pieces of a round, or the least piece that has none, and why.
pub(crate) type PieceRows = Result<Vec<Rows>, TaskStop<()>>;

/// What a column is converted with besides zones: the crew, a function that converts the pieces of a
/// round, the pool of texts that it writes rows into, what the column is read by, and after how many
/// rows with a fault the run goes on.
#[derive(Drop)]
pub(crate) struct Converting<'a, F, P> {
    pub(crate) crew: &'a F,
    pub(crate) texts: &'a P,
    pub(crate) by: ReadBy<'a>,
    pub(crate) max_faults: Option<u64>,
}

/// Performs the pieces of a task in order, on the calling thread, and returns the values of all.
///
/// # Errors
///
/// The first piece that has none, and why.
pub(crate) fn in_order<T: Task>(alloc: Global, task: &T) -> Result<Vec<T::Out>, TaskStop<T::Fault>>
    ensures ok { IfOk result
        (λ values. AreValues (T.outcome task.now) (T.count task.now) values.items) }
    ensures stop { IfErr result (IsStop (T.outcome task.now) (T.count task.now)) }
{
    let mut values = Vec::new(alloc);
    for i in 0..task.pieces() {
        match task.perform(alloc, i) {
            Ok(value) => {
                if values.push(value).is_err() {
                    return Err(TaskStop::Memory(Some(i)));
                }
            }
            Err(PieceStop::Fault(fault)) => return Err(TaskStop::Fault(i, fault)),
            Err(PieceStop::Memory) => return Err(TaskStop::Memory(Some(i))),
        }
    }
    Ok(values)
}
