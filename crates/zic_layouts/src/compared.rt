//! What of two answers is compared.

/// Which of these parts of answers are compared, where they have them. All others always are.
#[derive(Clone, Copy, Debug, PartialEq, Eq)]
pub struct Compared {
    /// The daylight flag.
    pub daylight: bool,
    /// The abbreviation.
    pub abbreviation: bool,
}
