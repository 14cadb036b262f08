//! Explains why the program gave up: shows the line or the record at fault, and says what is expected
//! there. This is help for people: the texts are those of docs/errors.txt, which zic_explain has. Only
//! lines that need more than a word stand here: how many fields a record has and what stands between them,
//! how many bytes it may have, where a double quote opens, and the reasons of the system.
//!
//! # What is proved
//!
//! `line_place` and `row_place` begin with the path and the number, and go on with bytes that a
//! terminal takes for no command (`GoesOnShown`), as the texts of `nearest_zone`, `nearest_rules`
//! and `bad_abbreviation` do; `quote_place` and `year_place` are exactly their lines (`quote_line`,
//! `year_line`), and `expectation` what is expected where an error has a name (`IsExpectation`).
//! `Explainer::explanation` puts these together with what is read again of a column, by the layout
//! of `read_by`, with the reason of `refused_for`, and with what `begins_as_gzip` notes. It is tested,
//! and has no clause, as `RecordForm::label`.
#![tactic(auto)]

mod column;
mod expected;
mod explainer;
mod faulty;
mod line;
mod nearest;
mod place;
mod reason;
mod record;
mod refused;
mod related;
mod scan;

pub use expected::expectation;
pub use explainer::Explainer;
pub use nearest::nearest_zone;
pub use place::{QuotedLines, line_place, quote_place, row_place};
pub use record::RecordForm;
