//! Whole sources and columns: the files of texts, the rows of a column by files, and what needs
//! both, the rows of a column by the files of texts. The crates that other names come from have
//! their contracts.
//!
//! And the commands, over a tree of files and readers and writers that the caller gives. Some
//! compile texts: they list the files of texts, or place them in a folder. Others read compiled
//! files: they convert a column of instants by zones, and print what a file says of an instant, or
//! its changes of local time. A module has the word `command` where the function that it is named
//! for may not share its name.
//!
//! # What is proved
//!
//! `convert_source` does what `column_command::convert` does by the files of texts
//! (`ConvertsBySource`), and refuses where they have none, before anything is read
//! (`IsFailureOfConvertSource`). `convert_source_against` does it by these and other zones
//! (`ConvertsAgainst`). The crate exports `build` of zic_compile and `convert` of zic_convert.
//!
//! A failure of the commands that compile texts (`err`) says which part was done: nothing, a
//! beginning of the output, or all files before one.
//!
//! - `files_of`: the files of the texts (`AreFilesOfTexts`), or why they have none
//!   (`IsFailureOfTexts`)
//! - `check`: writes the lines of the files (`IsListing`), or fails by `IsFailureOfCheck`
//! - `build_command::build`: places exactly the files of the texts, in order, each at DIR/NAME
//!   (`AreBuilt`); or the texts have no files, and nothing is placed; or all files before one were
//!   placed, and `cannot write DIR/NAME` names that one (`IsFailureOfFiles`). It makes no link
//!   (`links`)
//! - `build_linked`: the same for the files of the zones, and for each Link line a link to the
//!   file of the zone at the end of its chain (`AreBuiltLinked`, `IsFailureOfLinked`)
//! - `place_extra`: places one more file in the folder, under a name (`IsUnplacedAs`): a table,
//!   or the name of a release
//!
//! The commands that read compiled files:
//!
//! - `show`, `show_local`: write the line of what the bytes answer at the instant (`IsShowing`);
//!   the lines of the instants of a local time, or of its gap (`IsShowingLocal`)
//! - `show_next`: writes the line of the next instant within 366 days at which a schedule is due
//!   (`IsShowingNext`)
//! - `dump`: writes the text that zic_dump gives (`IsDump`)
//! - these, `err`: a fault is that of the bytes; `cannot write output` only if a failure was
//!   counted, after a beginning of the output; else nothing was written (`IsFailureOfPrinting`)
//! - `column_command::convert`: by all files that rows may be made by, all of header and rows is
//!   written, faults are noted, and there is a file of the one zone, if all rows are in one
//!   (`Converts`). It refuses (`IsFailureOfConvert`) where there is no such zone, or no memory for
//!   it, before anything is read; where the line of names can't be written; or as `convert_column`
//!   ends early
#![tactic(auto)]

pub mod build_command;
mod build_linked_command;
mod check_command;
pub mod column_command;
mod compiler;
mod convert_command;
mod dump_command;
mod extra_command;
pub mod laws;
mod show_command;
mod show_local_command;
mod show_next_command;

pub use build_linked_command::build_linked;
pub use check_command::check;
pub use compiler::files_of;
pub use convert_command::{KeyedTexts, convert_source, convert_source_against};
pub use dump_command::dump;
pub use extra_command::place_extra;
pub use show_command::show;
pub use show_local_command::show_local;
pub use show_next_command::show_next;
pub use zic_base::{RowKind, RunStop};
pub use zic_compile::build;
pub use zic_convert::{Conversion, convert};
pub use zic_counted::Counted;
pub use zic_files::Files;
pub use zic_layouts::{MAX_BYTES, MAX_OF_PIECE, MAX_ROWS, MAX_WORKERS, Plan};
