//! How work is cut and shared, how much of it there may be, and how a column is read.
//!
//! # What is proved
//!
//! `Plan::new` gives a plan exactly if all numbers are within their limits (`IsPlan`): `workers`,
//! `zone_piece`, `row_piece`, `max_rows`, `max_bytes`. `Delimiter::byte` can stand between fields,
//! and that of `comma` is the comma. `Prefix::new` gives a prefix of names of fields exactly of bytes that
//! are one (`is_prefix`), and `Prefix::none` that of no bytes. `FieldList::new` gives a list of fields
//! exactly if they are 1 to [`MAX_FIELDS`] (`is_field_list`), and `RowFields::fields` those that rows have
//! after their beginning (`fields_of`). `FieldCount::admits` says how many fields a record may have.
//! `Layout::without_kept_times` is the same layout, but that an empty time is a fault. `LineEnd::bytes`
//! has the bytes of a line end (`line_end_bytes`). `Layout::plain` is a layout of plain columns
//! (`HasPlainRows`). `Noted`, which only proofs read, has the rows that a log noted; `and` adds one.
#![tactic(auto)]

mod compared;
mod delimiter;
mod disambiguation;
mod field_list;
mod layout;
mod noted;
mod plan;
mod prefix;
mod row_field;
mod row_log;

pub use compared::Compared;
pub use delimiter::Delimiter;
pub use disambiguation::Disambiguation;
pub use field_list::{FieldList, MAX_FIELDS};
pub use layout::{
    AtFault, EmptyTime, FieldCount, Header, InstantText, Layout, LineEnd, Notes, Quotes, Records,
    RowStart, Style, TimeFrom, Unit, ZoneFrom,
};
pub use noted::Noted;
pub use plan::{MAX_BYTES, MAX_OF_PIECE, MAX_ROWS, MAX_WORKERS, Plan};
pub use prefix::{MAX_PREFIX, Prefix};
pub use row_field::{RowField, RowFields};
pub use row_log::{FaultDetail, FaultyRow, RowLog, Unnoted, ZoneTally};
