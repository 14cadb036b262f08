//! The texts that explain the errors of the program, and how words and lines are shown. The texts are those
//! of docs/errors.txt, of which docs/ERRORS.md is made too: a struct of its parts for each error
//! (`entries`), and constants for what `--explain` tells in special cases (`cases`). The command line
//! needs `explanation` and `index`, whose text is its answer to `explain`; what is told of a failure is in
//! zic_failures.
//!
//! # What is proved
//!
//! `explanation` gives the text of an entry of the name (`IsExplanation`), or, where there is none,
//! the name that `near_name` finds among those of all entries (`IsUnexplained`); `index` a line for
//! each of `entries`; `entry_named` an entry of the name, or none has it. `error_in` gives the name of
//! an entry, or its message (`NamesError`). `near_name` gives one of the nearest names, by insertions,
//! deletions and replacements of characters, where less than a third of it differs (`IsNearName`).
//! `push_section` adds a title and its lines (`section`). `shown_word` has no control characters
//! (`IsHarmless`); `push_shown`, `push_bytes` and `push_line_end` add bytes that a terminal takes
//! for no command (`StaysShown`).
#![tactic(auto)]

pub mod cases;
mod entry;
mod explain;
mod nearest;
mod other_texts;
mod shown;
mod source_texts;

pub use entry::{Entry, Expectation, Sentence, entries};
pub use explain::{Unexplained, entry_named, error_in, explanation, index, push_section};
pub use nearest::near_name;
pub use shown::{Span, push_bytes, push_line_end, push_shown, shown_word};
