//! Limits and words that several crates know.

/// The least length of an abbreviation, in bytes: RFC 9636, 3.2.
pub const SHORTEST_ABBREVIATION: usize = 3;

/// The greatest length of an abbreviation, in bytes.
pub const LONGEST_ABBREVIATION: usize = 16;

/// The farthest UT offset that a file may have, 25:59:59 either way, in seconds.
pub const FARTHEST_FILE_OFFSET: u32 = 93_599;

/// The greatest length of a file that is read, in bytes.
pub const LONGEST_FILE: usize = 1_048_576;

/// The word for standard input.
pub const STANDARD_INPUT: &str = "-";
