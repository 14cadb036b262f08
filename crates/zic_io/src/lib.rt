//! What the commands read and write: sources and files that words name, output, a tree of files,
//! and how far the writing of rows is. Beside them stands why a command gives up, with the text and
//! the status of each.
//!
//! # What is proved
//!
//! - `read_sources`: the texts of the SOURCE words, in order (`AreTextsOf`), or `cannot read` with
//!   the first word that can't be read (`IsFailureOfSources`)
//! - `read_source_text`, `read_file_bytes`: the whole text (`whole`) within its limit (`size`); the
//!   bytes of a file, or as many as show that it is too large (`IsFailureOfBytes`). `read_file`
//!   opens the file, and says only what it refuses with
//! - `write_output`: writes the bytes (`Writes`), or fails only if a failure was counted, after a
//!   beginning (`FailsWithin`)
//! - `FaultList`: `first` is the first fault that was noted, `count` their number, up to the
//!   greatest `u64`. Where `finish_faults` says that all were written, the file grew by the line of
//!   each, in order (`HasLines`), where `finish_rejects` does, the other by the header, once, and
//!   each record, and by nothing without a record (`HasRejects`); else a failure was counted
//!   (`HasFailed`). So it is where `flush` returns true (`whole`). The header is open where memory
//!   to keep it was refused (`IsHead`). `into_files` gives the two files. The line of a fault is
//!   what a CSV writer writes of the number of its row, its name, and, where they are requested,
//!   the number of the record's line and the value at fault (`fault_line`); which number and value
//!   a noted row has, and which line end, `HasLines` and `HasRejects` leave open. A CSV reader
//!   gives just these fields (`fault_lines_read_back`, `FaultLinesReadBack`)
//! - `Failure::status`, `run_failure`, `unknown_zone`: status, text and failure of each end of a
//!   run (`status_of`, `failure_text`)
//! - `FaultList::tallies`, `ZoneTallies::is_short`, `written`: no clause says which numbers of rows are
//!   kept and written
//! - `Disk`, `ZoneFolder`, `ListFile`, `followed`, `folder_of`, `Progress`: no contract says what a
//!   file system holds: what `Disk::sync`, `reason` and `ListFile::open` and `finish` do, and what `Progress`
//!   reports and its `finish` does, is tested
#![tactic(auto)]

mod failure;
mod fault_line;
mod fault_list;
mod input;
pub mod laws;
mod link_kind;
mod list_file;
mod list_output;
mod output;
mod progress;
mod sources;
mod tree;
mod zone_folder;
mod zone_tallies;

pub use failure::{Failure, run_failure, unknown_zone};
pub use fault_line::FaultFields;
pub use fault_list::FaultList;
pub use input::{MAX_SOURCE, read_file_bytes, read_source_text};
pub use link_kind::{LinkKind, LinkedFolder};
pub use list_file::{ListFile, folder_of, followed};
pub use output::write_output;
pub use progress::{Progress, ProgressLine};
pub use sources::{read_file, read_sources};
pub use tree::{Disk, Durability, Tree, Unplaced};
pub use zone_folder::ZoneFolder;
pub use zone_tallies::ZoneTallies;
