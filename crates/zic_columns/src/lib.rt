//! Reads a column in rounds of whole records, cut into pieces for several workers.
//!
//! The records of a column are those that a CSV reader gives of its bytes, without a byte order
//! mark at its start: fields end at delimiters, records at a carriage return, a line feed or both, and
//! a line without a byte makes no record. Between double quotes, delimiters and line ends are text. A
//! column can be cut wherever a CSV reader stands before a record. A column may also be read line by
//! line: then a record ends at its line's end, also between double quotes, and a line whose double
//! quotes are open there is a record without fields. The functions of `laws` do nothing: their
//! contracts state what holds of records.
//!
//! # What is proved
//!
//! - `Column::new`: the column of a reader, without a byte order mark (`without_mark`), with a
//!   delimiter, whose records end as is said (`records_by`)
//! - `Column::next_round`, `round`: the records of the column, each with its own bytes, are those
//!   of the round's pieces or the open line that was taken, then those of what is left (`Takes`):
//!   none is lost or comes twice. Nothing is taken only where no record is left (`HasNoRecord`), or
//!   the next has more bytes than it may have (`IsNextTooLong`); each piece has the given number of
//!   records, but the last (`ArePiecesOf`)
//! - `Column::new` where it succeeds, `next_round` and `pass_record`: take at most one byte more of
//!   a reader than the column may have (`TakesOf`, `StaysWithin`). The buffer of the bytes that no
//!   round had (`held`) is 64 KiB long at first. Where a record may have N bytes, it grows no
//!   longer than to what a read asks for, or to N and an eighth (`GrowsFor`)
//! - `Column::pass_record`: passes over the first record (`PassesRecord`), and gives its own bytes
//!   (`texts_by`), which it may have (`may_have`); or the record has more (`IsNextTooLong`)
//! - `Truncated::new`, `read`: the bytes of a reader, of each line only the first, up to a number
//!   (`truncated`)
//! - `Round::len`, `piece`, `front`: the number of pieces, the bytes of one, the first ones;
//!   `lines_before` has no clause; `OnePiece::round`: a round of some bytes by themselves
//! - `line_feeds`, `line_end_at`: how many bytes are line feeds, and whether a carriage return
//!   stands at an index
//! - `Splitter::new`, `fill`: the next records of a piece come first of those that were left
//!   (`split`), each with its number of fields and the two that rows need (`IsSplit`); fewer than
//!   64 only where no record is left. Where a record has the field of the time, that field stands in the
//!   record at its `raw_span` (`HasPlace`): with any text there instead, the record is its own bytes with
//!   that raw field replaced (`replaced`)
//! - `Record::time_place`: where the field of the time stands, with its double quotes, if it has any
//!   (`raw_span`)
//! - `Splitter::fill_pairs`: the next records, as long as each is a plain pair, with the delimiter between its
//!   two fields (`IsPairOf`); `Pair::record`: the record that a pair is (`pair_record`)
//! - `Span::of`, `push_field`: bytes of a piece, the text of a field (`field_text`)
//! - `has_stray_quote`, and `fill` of each record: whether it has a double quote that RFC 4180
//!   doesn't have (`has_stray`); `is_open_line`: whether the double quotes of a line are open at
//!   its end (`is_open`)
//! - `laws::raw_fields_are_own_bytes`, `raw_fields_are_of_fields`: the raw fields of a record with a
//!   delimiter between each two are its own bytes, and it has as many of them as fields
#![tactic(auto)]

mod blocks;
mod buffer;
mod columns;
mod csv_scan;
mod cursor;
mod ends;
mod fields;
pub mod laws;
mod limit;
mod line_scan;
mod lines;
mod machine;
mod mark;
mod pairs;
mod pieces;
mod plain;
mod quote;
mod rounds;
mod scan;
mod splits;
mod truncate;
mod walk;

pub use buffer::FIRST_ROOM;
pub use columns::{Column, PassStop, Taken, TakenLine, Unread};
pub use fields::{Field, Pair, Record, Span, Wanted, may_have, push_field};
pub use line_scan::is_open_line;
pub use lines::{line_end_at, line_feeds};
pub use mark::without_mark;
pub use pieces::MAX_ROUND_PIECES;
pub use quote::has_stray_quote;
pub use rounds::{OnePiece, Round};
pub use splits::{BATCH, Splitter};
pub use truncate::Truncated;
