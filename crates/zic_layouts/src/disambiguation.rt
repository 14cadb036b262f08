//! Which instant is meant by a local time that has none or several.

/// What to take for a local time in a gap or in a fold. The names are those of ECMAScript's
/// Temporal.
#[derive(Clone, Copy, Debug, PartialEq, Eq)]
pub enum Disambiguation {
    /// Neither: the local time must have exactly one instant.
    Reject,
    /// The first instant of a fold; in a gap, the instant of the local time by the offset after it.
    Earlier,
    /// The last instant of a fold; in a gap, the instant of the local time by the offset before it.
    Later,
    /// The first instant of a fold; in a gap, the instant of the local time by the offset before it. RFC
    /// 5545, 3.3.5.
    Compatible,
}
