//! Why the words ask for nothing.

ghost use Rattle.std.specs.Prelude.{◌≡◌};
ghost use Rattle.zic_command_line.specs.declared.no_request.NoRequest.TheVariants.{Memory};

use std::alloc::{AllocError, AllocFailed, Global};
use zic_explain::shown_word;

/// Why the words of the command line ask for nothing.
#[derive(Drop)]
pub enum NoRequest {
    /// They ask for no command, or for help: the text that is printed in place of it.
    Usage(String),
    /// Memory ran out.
    Memory,
}

impl From<AllocError> for NoRequest {
    ghost from_gives = { λ _ e. e ≡ Memory };

    fn from(_e: AllocError) -> NoRequest {
        NoRequest::Memory
    }
}

impl<T: Drop> From<AllocFailed<T>> for NoRequest {
    ghost from_gives = { λ _ e. e ≡ Memory };

    fn from(_e: AllocFailed<T>) -> NoRequest {
        NoRequest::Memory
    }
}

/// Returns the refusal of words that can't be what they are, with a text that says why.
pub(crate) fn usage(alloc: Global, text: &str) -> NoRequest {
    let end = "\n\nFor more information, try 'pzic --help'.\n";
    match ["error: ", text, end].concat(alloc) {
        Ok(text) => NoRequest::Usage(text),
        Err(_) => NoRequest::Memory,
    }
}

/// Returns the refusal of words of the command of this name, with a text that says why and a hint at the
/// command's help.
pub fn usage_of(alloc: Global, name: &str, text: &str) -> NoRequest {
    hinted(alloc, usage(alloc, text), name)
}

/// Returns a refusal whose text ends with a hint at the help of the command of this name, in place of one at
/// the help.
pub(crate) fn hinted(alloc: Global, refusal: NoRequest, name: &str) -> NoRequest {
    match refusal {
        NoRequest::Usage(text) => match with_help(alloc, text, name) {
            Ok(text) => NoRequest::Usage(text),
            Err(_) => NoRequest::Memory,
        },
        NoRequest::Memory => NoRequest::Memory,
    }
}

/// Returns a text of usage that ends with a hint at the help of the command of this name, in place of one
/// at the help.
fn with_help(alloc: Global, text: String, name: &str) -> Result<String, AllocError> {
    let space = if name.is_empty() { "" } else { " " };
    for hint in &["try '--help'.\n", "try 'pzic --help'.\n"] {
        if let Some(start) = text.as_str().strip_suffix(*hint) {
            return [start, "try 'pzic ", name, space, "--help'.\n"].concat(alloc);
        }
    }
    Ok(text)
}

/// Returns the refusal of a word that can't stand at its place.
pub(crate) fn bad_value(alloc: Global, word: &str, place: &str, why: &str) -> NoRequest {
    let Ok(word) = shown_word(alloc, word) else {
        return NoRequest::Memory;
    };
    let parts = [
        "invalid value '",
        word.as_str(),
        "' for '",
        place,
        "': ",
        why,
    ];
    match parts.concat(alloc) {
        Ok(text) => usage(alloc, text.as_str()),
        Err(_) => NoRequest::Memory,
    }
}
