//! Pieces of work for several threads: numbers that threads claim by atomic steps, without a lock.
//!
//! # What is proved
//!
//! `run_task` gives, for every number of workers and every schedule, the values of all pieces in
//! order (`ok`), or the least piece that stopped, below which every piece has a value (`IsStop`).
//! `Claims` shares out numbered pieces without a lock, for up to 1,024 passes (`room`, `ended`,
//! `given`): at every moment no number is drawn twice, and what a pass has seen is at most the
//! number of pieces and each number that it reported or found (`IsSound`). `claim`, `split`,
//! `join`, `report` and `glance` say what a pass knows after them; once all have ended, every piece
//! was drawn, and every piece up to the least reported one was given exactly once and not skipped
//! (`settle`).
#![tactic(auto)]

mod claims;
mod crew;
pub mod laws;
mod pass;
mod rule;
mod run;
mod task;
mod work;

pub use claims::{Claim, Claims, MAX_PIECES, Settled, Split};
pub use pass::{Event, Gate, Known, Open, Pass};
pub use run::run_task;
pub use task::{PieceStop, Task, TaskStop};
