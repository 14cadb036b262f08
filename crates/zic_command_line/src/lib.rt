//! The calls that the words of the command line ask for.
//!
//! # What is proved
//!
//! `parse_instant_word` accepts an optional `-` and digits within an `i64` (`just`, by
//! `IsInstant`), and gives their value. `is_release` says whether a release can have a name.
//! `parse`, `requested`, `usage_of` and `FieldNames::is_empty` and `HeaderFields::new`,
//! `telling_len`, `push` and `layout_by` have no clause except on memory.
#![tactic(auto)]

mod advice;
mod command_line;
mod commands;
mod compiling;
mod conversion;
mod fields;
mod form;
mod header_fields;
mod help;
mod instant;
mod layout;
mod no_request;
mod release;
mod row_forms;
mod schedule;
mod values;
mod zone_file;

pub use command_line::{
    Building, CommandLine, ConvertOptions, Differences, Exporting, Links, Request, Zones, parse,
    requested,
};
pub use fields::FieldNames;
pub use header_fields::HeaderFields;
pub use instant::parse_instant_word;
pub use no_request::{NoRequest, usage_of};
pub use release::{Release, ReleaseFiles, is_release};
