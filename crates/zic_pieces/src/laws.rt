//! Laws of claims and tasks, each the contract of a function that does nothing.

ghost use Rattle.zic_pieces.specs.Laws.{ReportsAreHeard, HasAtMostOneAnswer};

use crate::task::Task;

/// States that every claim of a greater number sees a report that a pass, or one that was joined to
/// it, made before a draw of the pass.
pub fn reports_are_heard()
    ensures { ReportsAreHeard }
{}

/// States that a task has at most one answer of one thread, where each of its pieces has at most
/// one outcome. Such an answer is the values of all pieces in order, or the least faulty piece with
/// its fault, and `run_task` gives it unless memory runs out.
pub fn a_task_has_at_most_one_answer<T: Task>()
    ensures { (task : T) → HasAtMostOneAnswer (T.outcome task) (T.count task) }
{}
