//! The parts of the texts about errors.

use crate::other_texts::push_other_errors;
use crate::source_texts::push_source_errors;
use std::alloc::{AllocError, Global};

/// The parts of the text about an error. Where it isn't said otherwise, a text consists of lines
/// that begin with two spaces, or is empty.
#[derive(Clone, Copy, Debug)]
pub struct Entry {
    /// The name, as the program prints it. A path in it is `PATH`.
    pub name: &'static str,
    /// The first sentence of what it means, without a line end.
    pub meaning: &'static str,
    /// The error's meaning.
    pub says: &'static str,
    /// The rule that the error breaks.
    pub expected: &'static str,
    /// Commands that the examples need.
    pub setup: &'static str,
    /// An example: the lines of a source, or commands after `$ `.
    pub wrong: &'static str,
    /// What the program prints for it.
    pub prints: &'static str,
    /// The example as it should be.
    pub right: &'static str,
    /// What people usually meant.
    pub cause: &'static str,
}

/// What is expected where an option makes a difference, and what people usually meant then: texts as
/// those of an [`Entry`].
#[derive(Clone, Copy, Debug)]
pub struct Expectation {
    pub expected: &'static str,
    pub cause: &'static str,
}

/// A line about a word or a path: what stands before it, and what after it, without the line end.
#[derive(Clone, Copy, Debug)]
pub struct Sentence {
    pub before: &'static str,
    pub after: &'static str,
}

/// Returns the texts about each error of the program, in the order of docs/ERRORS.md.
///
/// # Errors
///
/// Memory ran out.
pub fn entries(alloc: Global) -> Result<Vec<Entry>, AllocError> {
    let mut entries = Vec::new(alloc);
    push_source_errors(&mut entries)?;
    push_other_errors(&mut entries)?;
    Ok(entries)
}
