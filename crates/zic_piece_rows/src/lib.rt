//! The rows of the records of a piece of a column, by its layout and by zones.
//!
//! # What is proved
//!
//! `rows_of_piece` gives the rows of a piece's records, up to the first that ends the run
//! (`AreRowsOf`), whatever `Rows::new` (`empty_rows`) was given to reuse. `ends_run` says whether a
//! fault does (`ending`), `rejected_bytes` copies a record that is rejected (`if_rejected`), and
//! `push_own` appends one, some delimiters and a line end. The value that is noted of a fault is
//! the name of the zone, or the field of the time, or has no bytes (`value_at_fault`). The line is
//! one more than the line feeds before the record (`line_at`), if those before the records above it
//! were counted (`ArePassed`); no clause says that a piece's records come in this order. No clause is
//! about the numbers of rows of each zone (`Rows::tallies`).
#![tactic(auto)]

mod answer;
mod answers;
mod batch;
mod faulty;
mod lookup;
mod moved;
mod note;
mod pair_rows;
mod pairs;
mod piece;
mod row;
mod search;
mod start;
mod tally;
mod text;
mod time;

pub use faulty::{ends_run, push_own, rejected_bytes};
pub use piece::{Piece, rows_of_piece};
pub use row::Rows;
