//! Converts a column of zone names and instants by zones.
//!
//! # What is proved
//!
//! `convert` and `convert_column` are in [the two theorems](#the-two-theorems). `ReadFailed` is
//! returned only if the reader's count of failures rose, `WriteFailed` only if the writer's did,
//! and `ColumnTooLong` only if the reader gave more bytes than allowed, each also if its count has
//! the greatest value; `Row` only if no failure of the writer was counted (`IsCauseOf`);
//! `convert_column` returns `LogFailed` only if the log failed (`IsCauseWithLog`), once whole rows
//! are written (`EndsAfterLines`). Its log began with the header's own bytes where records are
//! rejected, or the run ended before that and nothing was noted (`LogBegan`). That it calls
//! `RowLog::flush` after each round, and ends where that returns false, is tested (`streams.sh`,
//! `outputs.sh`). Where all is converted, the bytes read are within the limit, and no failure was
//! counted (`within`, `unfailed`, `flushed`). `rows_of_column` gives the same rows of a column in
//! memory (`AreRowsOfColumn`), and `rows_by_layout` its header, rows and faults by a layout
//! (`AreRowsByLayout`), or the fault of its header as row 0 (`IsEndAtHeader`).
#![tactic(auto)]

mod column;
mod conversion;
mod crew;
mod halt;
mod header;
pub mod laws;
mod log;
mod long;
mod memory;
mod names;
mod notes;
mod opened;
mod output;
mod pieces;
mod round;
mod tally;
mod texts;

pub use column::{ColumnRows, rows_of_column};
pub use conversion::{Conversion, convert, convert_column};
pub use memory::{LayoutRows, rows_by_layout};
