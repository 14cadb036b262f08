//! What a call answers.

/// The call did what it is for.
pub const OK: i32 = 0;
/// The file leaves local time open at the instant.
pub const UNSPECIFIED: i32 = 1;
/// A growth of memory was refused.
pub const NO_MEMORY: i32 = 2;
/// The bytes are no TZif file.
pub const BAD_FILE: i32 = 3;
/// The handle holds nothing that the call works on.
pub const NO_HANDLE: i32 = 4;
/// The arrays differ in length, or the column is too long.
pub const LENGTHS: i32 = 5;
/// The text is no source, or a zone of it has a fault.
pub const BAD_SOURCE: i32 = 6;
/// No file has the name or the number, no kind, reason or disambiguation has the number, there is no
/// such layout, or a number of options or the order of their instants is wrong.
pub const NO_SUCH: i32 = 7;
/// A row has a fault.
pub const BAD_ROW: i32 = 8;
/// The local time is so near an end of 64 bits that its instants may be outside, or a number of a
/// schedule is out of range.
pub const OUT_OF_RANGE: i32 = 9;
/// The local time is in a gap.
pub const GAP: i32 = 10;
/// The local time is in a fold.
pub const FOLD: i32 = 11;
/// The name can't be that of a zone. `pzic_tree.h` has the number 12.
pub const BAD_NAME: i32 = 13;
/// Rows can't be made of the file.
pub const UNFIT: i32 = 14;
/// A file has the name already.
pub const TAKEN: i32 = 15;
