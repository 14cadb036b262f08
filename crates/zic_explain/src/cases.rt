//! What `--explain` tells in special cases. This file is made of docs/errors.txt by tools/errors.py.

use crate::entry::{Expectation, Sentence};

/// A line for `A source`.
pub const A_SOURCE_GZIP: &str = "The source is compressed: gzip -d makes its text.";

/// A line for `DuplicateName`.
pub const DUPLICATE_NAME_FIRST: Sentence = Sentence {
    before: "The name is given in ",
    after: " first.",
};

/// A line for `BadAbbreviation`.
pub const BAD_ABBREVIATION_TEXT: Sentence = Sentence {
    before: "The abbreviation is \"",
    after: "\".",
};

/// A line for `A column`.
pub const A_COLUMN_GZIP: &str = "The column is compressed: gzip -d makes its text.";

/// What is expected with `--unit ms`, where the error is `RowInstant`.
pub const ROW_INSTANT_UNIT_MS: Expectation = Expectation {
    expected: r#"  Milliseconds since 1970-01-01T00:00:00 UT: 1 to 21 digits, perhaps after `-`,
  without `+`, spaces or a fraction.
"#,
    cause: r#"  A date, which `--from rfc3339` takes with a time and a UT offset, and `utc`
  and `local` without one, a number with a fraction, which `--from seconds`
  takes, or the two fields swapped. A leap second, `23:59:60`, isn't accepted.
  Or, in a plain column, a stray double quote before the instant, which
  `--quotes strict` finds.
"#,
};

/// What is expected with `--unit us`, where the error is `RowInstant`.
pub const ROW_INSTANT_UNIT_US: Expectation = Expectation {
    expected: r#"  Microseconds since 1970-01-01T00:00:00 UT: 1 to 24 digits, perhaps after `-`,
  without `+`, spaces or a fraction.
"#,
    cause: r#"  A date, which `--from rfc3339` takes with a time and a UT offset, and `utc`
  and `local` without one, a number with a fraction, which `--from seconds`
  takes, or the two fields swapped. A leap second, `23:59:60`, isn't accepted.
  Or, in a plain column, a stray double quote before the instant, which
  `--quotes strict` finds.
"#,
};

/// What is expected with `--unit ns`, where the error is `RowInstant`.
pub const ROW_INSTANT_UNIT_NS: Expectation = Expectation {
    expected: r#"  Nanoseconds since 1970-01-01T00:00:00 UT: 1 to 27 digits, perhaps after `-`,
  without `+`, spaces or a fraction.
"#,
    cause: r#"  A date, which `--from rfc3339` takes with a time and a UT offset, and `utc`
  and `local` without one, a number with a fraction, which `--from seconds`
  takes, or the two fields swapped. A leap second, `23:59:60`, isn't accepted.
  Or, in a plain column, a stray double quote before the instant, which
  `--quotes strict` finds.
"#,
};

/// What is expected with `--from seconds`, where the error is `RowInstant`.
pub const ROW_INSTANT_FROM_SECONDS: Expectation = Expectation {
    expected: r#"  Seconds since 1970-01-01T00:00:00 UT: 1 to 18 digits, perhaps after `-`, and
  perhaps a fraction of 1 to 9 digits, a whole number of units: for `.25` give
  `--unit ms`, `us` or `ns`.
"#,
    cause: "  A finer fraction, an exponent, as `1.7e9`, a date, or the two fields swapped.\n",
};

/// What is expected with `--from rfc3339`, where the error is `RowInstant`.
pub const ROW_INSTANT_FROM_RFC3339: Expectation = Expectation {
    expected: r#"  A date and a time with a UT offset or `Z`, as `1970-01-01T00:00:00Z` or
  `1970-01-01 01:00+01`, in the years 1 to 9999. A fraction has 1 to 9 digits, a
  whole number of units: for `.25` give `--unit ms`, `us` or `ns`.
"#,
    cause: r#"  A time without a UT offset, which `--from utc` and `local` take, a date
  without a time, a count of seconds, or the two fields swapped. A leap second,
  `23:59:60`, isn't accepted.
"#,
};

/// What is expected with `--from utc`, where the error is `RowInstant`.
pub const ROW_INSTANT_FROM_UTC: Expectation = Expectation {
    expected: r#"  A date and a time without a UT offset, as `1970-01-01T00:00:00` or
  `1970-01-01 00:00`, in the years 1 to 9999. A fraction has 1 to 9 digits, a
  whole number of units: for `.25` give `--unit ms`, `us` or `ns`.
"#,
    cause: r#"  A `Z` or a UT offset, which `--from rfc3339` takes, a date without a time, a
  count of seconds, or the two fields swapped.
"#,
};

/// What is expected with `--unit ms`, where the error is `RowRange`.
pub const ROW_RANGE_UNIT_MS: Expectation = Expectation {
    expected: r#"  -62135510400000 to 253402214399999 milliseconds, which is 0001-01-02T00:00:00
  to 9999-12-30T23:59:59 UT.
"#,
    cause: "  Microseconds or nanoseconds, which `--unit us` and `--unit ns` take.\n",
};

/// What is expected with `--unit us`, where the error is `RowRange`.
pub const ROW_RANGE_UNIT_US: Expectation = Expectation {
    expected: r#"  -62135510400000000 to 253402214399999999 microseconds, which is
  0001-01-02T00:00:00 to 9999-12-30T23:59:59 UT.
"#,
    cause: "  Nanoseconds, which `--unit ns` takes.\n",
};

/// What is expected with `--unit ns`, where the error is `RowRange`.
pub const ROW_RANGE_UNIT_NS: Expectation = Expectation {
    expected: r#"  -62135510400000000000 to 253402214399999999999 nanoseconds, which is
  0001-01-02T00:00:00 to 9999-12-30T23:59:59 UT.
"#,
    cause: "",
};

/// What is expected with `--from seconds`, where the error is `RowRange`.
pub const ROW_RANGE_FROM_SECONDS: Expectation = Expectation {
    expected: r#"  -62135510400 to 253402214399.999999999, which is 0001-01-02T00:00:00 to
  9999-12-30T23:59:59 UT.
"#,
    cause: "  Milliseconds, which `--unit ms` takes with `--from count`.\n",
};

/// What is expected with `--from rfc3339`, where the error is `RowRange`.
pub const ROW_RANGE_FROM_RFC3339: Expectation = Expectation {
    expected: "  An instant from 0001-01-02T00:00:00 to 9999-12-30T23:59:59 UT.\n",
    cause: "",
};

/// A line for `cannot read PATH`.
pub const CANNOT_READ_PATH_FOLDER: Sentence = Sentence {
    before: "`",
    after: "` takes folders of TZif files.",
};

/// A line for `cannot read PATH`.
pub const CANNOT_READ_PATH_ORDER: Sentence = Sentence {
    before: "DIR comes before SOURCE, and ",
    after: " is a file.",
};
