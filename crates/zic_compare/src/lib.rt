//! Compares TZif files: the spans of instants at which each of two files gives one answer, and the two
//! differ, from when on they agree for ever, the lines that say this for all names of two lists of
//! files, which several workers may make, and whether a tree has the files of a list.
//!
//! # What is proved
//!
//! `differences` gives just the longest spans within bounds at which each of two files answers one
//! thing, as far as answers are compared (`seen`), and the two differ, in order (`AreDifferences`).
//! `summarize` gives the first instant from one on at which they differ (`IsFirstDifference`), and
//! either that right after the last one, from which on they agree at each instant of 64 bits
//! (`IsEndOfDifference`, `AgreeFrom`), or that they differ after each instant once more
//! (`DifferForEver`, `IsSummary`); or that they never differ from that instant on. The 400 years
//! after the last transition of both decide this (`FourHundredYearsDecide`). `diff` gives the lines
//! of spans or of summaries for all names of two lists of files, and one line for a name that one
//! list alone has (`IsDiff`; its parts: `lines_of_old`, `lines_of_new`, `with_names`). Names whose
//! files have the same bytes in both lists may share their lines (`zone_field`). `write_diff`
//! writes that text as its lines are made, for every number of threads and size of pieces
//! (`WritesDiff`); where memory or a write fails, the lines of some of the first names, or a part
//! of these, and nothing else (`EndsDiff`, `IsDiffSoFar`). A file doesn't differ from itself
//! (`NoFileDiffersFromItself`). `verify` asks a tree for the names of all files, in order, and for
//! no other (`AreRequestedNames`), and gives the line of each file that the tree lacks or has
//! otherwise, in order (`AreFindings`); there is none only where each reply has just the bytes of
//! the file (`HasFiles`). `extra` gives the line of each name that no file has (`AreExtras`).
//! `read_tree` asks a tree for those of a list of names that zones may have, and for no other, and
//! gives the files of the replies (`IsReadAt`). That `zic_folders` gives them the names of folders,
//! the files of `files_of` and the clock's time, and writes their lines, is tested.
#![tactic(auto)]

mod difference;
mod files;
mod groups;
mod instant;
pub mod laws;
mod lists;
mod pieces;
mod refused;
mod sides;
mod summary;
mod text;
mod verifying;
mod writing;

pub use difference::{Difference, differences};
pub use files::{diff, lines_of_new, lines_of_old, with_names};
pub use sides::{Comparison, DiffStop, Grouping, Listed, Refused, Sides, Style, Survey, read_tree};
pub use summary::{Summary, summarize};
pub use verifying::{extra, verify};
pub use writing::write_diff;
