//! `convert`: converts a column by the sources and folders that words name, with the fields that its header
//! names, and with the files for the faults of rows, for their records and for the numbers of rows of each
//! zone.
//!
//! # What is proved
//!
//! `convert`, `read_header`, `read_line_end`, `expect_own_lists` and `ConvertContext` have no clause, since they
//! read and write files, nor `take_stack`: what stack a thread has, no clause sees. What the program tells
//! in the end is proved of the functions by which they decide it:
//!
//! - a run ends by what ended the rows, or else by the faults after which it went on (`ended`,
//!   `failure_of`); where a row ended it, more bytes than there may be, or a list that can't be
//!   written, these faults are told beside that (`told_beside`)
//! - that a list can't be written comes first, whatever ended the run (`IsReport`), and what else
//!   ended it is told behind it (`behind_of`); the list of faults comes before that of records,
//!   and that of the rows of each zone last (`first_unwritten`)
//! - earlier lists stay as they are where no fault was noted and the run ended before rows were
//!   made (`keeps_lists`)
//! - where memory seemed to run out and the path of a file was noted that can't be read, that file
//!   ended the rows (`by_unread`)
//! - what is reported and told beside it is this for the faults that the list has noted
//!   (`faults_in`, `IsReportOf`)
//! - the files of OLD are those of its texts (`AreFilesOfTexts`), one for each of its sources
//!   (`old_count`)
//! - the number of rows that were made is told where rows are compared with those of another
//!   release (`rows_made`)
//! - a fault of a text has the number of the text among those of both releases (`numbered`)
#![tactic(auto)]

mod column;
mod conversion;
mod ending;
mod first;
mod header;
mod header_text;
mod line_end;
mod lists;
mod own_file;
mod ready;
mod rows;

pub use conversion::{ConvertContext, convert};
pub use header::read_header;
pub use line_end::read_line_end;
pub use own_file::expect_own_lists;
pub use ready::take_stack;
