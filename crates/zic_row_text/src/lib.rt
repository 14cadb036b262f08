//! One row of a converted column: the instant that a field names, and the text of the row.
//!
//! # What is proved
//!
//! `parse_count` gives the count of a field in units, or nothing where it is none (`count_of`;
//! `moment_of` its second, of which `count_from` makes it), `parse_instant_text` that of seconds with a
//! fraction or of a date with an offset or in UT (`text_count_of`), and `parse_local_time` that of a
//! local time. `RowText` is a text with room
//! (`with_capacity`, `clear`, `truncate`, `remove`, `push`, `push_field`, `into_bytes`) to which rows are
//! written with a delimiter: `push_row` appends the start of a row and what follows its instant, `push_rest` that
//! alone (`timed_rest_text`), whatever row was before, and `push_local_time` and `push_state` parts
//! of a row. What follows has local time and UT offset in two fields or in one (`styled_text`).
//! `quick_time` (`IsPlainTime`), `RowTime::of_count`, `StateText::is_of`, `is_same`, `offset`,
//! `offset_text`, `iso_offset_text`, `daylight` and `name` say what their names say.
#![tactic(auto)]

mod count;
mod date;
mod date_time;
mod digits;
pub mod laws;
mod minutes;
mod row_text;
mod row_time;
mod seconds;
mod state_text;
mod store;
mod timed_rest;
mod wide;

pub use count::{
    FARTHEST_OFFSET, FIRST_INSTANT, LAST_INSTANT, MAX_DIGITS, Moment, count_from, moment_of,
    parse_count,
};
pub use date_time::{parse_instant_text, parse_local_time};
pub use row_text::RowText;
pub use row_time::{RowTime, quick_time};
pub use state_text::StateText;
pub use timed_rest::RowRest;
