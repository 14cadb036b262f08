//! A table of edges.

ghost use Rattle.zic_posix.specs.code.Inside.{AreInside};

/// The edges of a footer in each kind of year, in seconds from the start of the year. None of them
/// is outside its own year.
#[derive(Debug, Drop)]
pub(crate) struct YearTable {
    pub starts: [i64; 14],
    pub stops: [i64; 14],
    ghost starts_inside: { AreInside starts },
    ghost stops_inside: { AreInside stops },
}
