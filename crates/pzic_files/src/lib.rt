//! The calls of the library for C on files and on rows, and those that give names and the version.
#![tactic(auto)]

mod comparing;
mod compiling;
mod converting;
mod copying;
mod diff_options;
mod files;
mod layout;
mod layout_rows;
mod names;
mod release;
mod row_column;
mod row_layout;
mod taking;

pub use comparing::files_diff;
pub use compiling::{SourceFault, compile};
pub use converting::{rows, rows_len, rows_text};
pub use diff_options::DiffOptions;
pub use files::{files_bytes, files_find, files_len, files_name, zone_of};
pub use layout::ColumnLayout;
pub use layout_rows::{rows_by, rows_faults, rows_with};
pub use names::{name_of_fault, name_of_reason};
pub use release::{VERSION, version};
pub use row_column::{Abbreviation, files_abbreviations, files_offsets};
pub use row_layout::RowLayout;
pub use taking::files_of;
