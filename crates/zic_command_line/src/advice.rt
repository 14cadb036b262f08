//! Sentences that help where the command line refuses words that people try.

use std::alloc::{AllocError, Global};

/// The begin of the line that refuses a word, which stands between quotes after it.
const REFUSES_WORD: [&str; 2] = [
    "error: unexpected argument '",
    "error: unrecognized subcommand '",
];

/// The end of a text of usage.
const END: &str = "\n\nFor more information, try '--help'.\n";

/// Returns a text of usage, of the command of this name, in words that help more: its first line says in
/// plain words what a number has to be, and a sentence stands in place of the lines below it where there is
/// one for the word that is refused.
pub(crate) fn advised(alloc: Global, text: String, command: &str) -> Result<String, AllocError> {
    let (line, rest) = text.split_once('\n').unwrap_or((text.as_str(), ""));
    match refused_word(line).and_then(|word| advice(command, word)) {
        Some(advice) => [line, "\n\n  tip: ", advice, END].concat(alloc),
        None => plain(alloc, line, rest),
    }
}

/// Returns the word that a line refuses, if it refuses one.
fn refused_word(line: &str) -> Option<&str> {
    for start in &REFUSES_WORD {
        if let Some(rest) = line.strip_prefix(*start) {
            return Some(rest.rsplit_once('\'')?.0);
        }
    }
    None
}

/// A word that a command refuses, and the sentence that helps there.
struct Tip {
    command: &'static str,
    word: &'static str,
    text: &'static str,
}

impl Tip {
    /// Returns whether it helps where the command of this name refuses a word.
    fn is_for(&self, command: &str, word: &str) -> bool {
        let has_command = self.command == command;
        let has_word = self.word == word;
        has_command && has_word
    }
}

/// The sentence about the word for a folder.
const FOLDER_FIRST: &str = "DIR is the first word, without -d: 'pzic build DIR SOURCE'";

/// The sentence about how large files are.
const SLIM: &str = "there is no -b: files are as slim as those of zic -b slim";

/// The sentence about leap seconds.
const NO_LEAPS: &str = "there is no -L: files have no leap seconds";

/// The sentence about the zone of all rows.
const ZONE: &str = "--zone names the zone of all rows";

static TIPS: [Tip; 11] = [
    Tip {
        command: "build",
        word: "-d",
        text: FOLDER_FIRST,
    },
    Tip {
        command: "verify",
        word: "-d",
        text: FOLDER_FIRST,
    },
    Tip {
        command: "build",
        word: "-b",
        text: SLIM,
    },
    Tip {
        command: "verify",
        word: "-b",
        text: SLIM,
    },
    Tip {
        command: "build",
        word: "-L",
        text: NO_LEAPS,
    },
    Tip {
        command: "verify",
        word: "-L",
        text: NO_LEAPS,
    },
    Tip {
        command: "convert",
        word: "--timezone",
        text: ZONE,
    },
    Tip {
        command: "convert",
        word: "--time-zone",
        text: ZONE,
    },
    Tip {
        command: "convert",
        word: "--tz",
        text: ZONE,
    },
    Tip {
        command: "dump",
        word: "-i",
        text: "dump prints what zdump -i does, without -i",
    },
    Tip {
        command: "dump",
        word: "-c",
        text: "in place of -c, --from YEAR and --to YEAR name the years",
    },
];

/// Returns the sentence that helps where the command of this name, or the program, refuses a word.
fn advice(command: &str, word: &str) -> Option<&'static str> {
    for tip in &TIPS {
        if tip.is_for(command, word) {
            return Some(tip.text);
        }
    }
    advice_on_place(command, word)
}

/// Returns the sentence that helps for a word that is refused since it is at the wrong place.
fn advice_on_place(command: &str, word: &str) -> Option<&'static str> {
    match command {
        "convert" if !word.starts_with('-') => {
            Some(
                "the column is standard input: 'pzic convert SOURCE <COLUMN'; --source adds a source",
            )
        }
        "diff" if !word.starts_with('-') => {
            Some("--old and --new add sources to OLD and to NEW")
        }
        "" if word.contains('/') || word.ends_with(".zi") => {
            Some("a command comes first, as in 'pzic check SOURCE'")
        }
        _ => None,
    }
}

/// Returns a line and the lines below it, where the first says in plain words what is wrong with a number, if
/// something is.
fn plain(alloc: Global, line: &str, rest: &str) -> Result<String, AllocError> {
    for (words, plain) in &NO_NUMBERS {
        if let Some(start) = line.strip_suffix(*words) {
            return [start, plain, "\n", rest].concat(alloc);
        }
    }
    match range_in(line) {
        Some((start, least, most)) => {
            [start, ": not from ", least, " to ", most, "\n", rest].concat(alloc)
        }
        None => [line, "\n", rest].concat(alloc),
    }
}

/// What the parser of words says of what is no number, and what is said in place of it.
const NO_NUMBERS: [(&str, &str); 3] = [
    (": invalid digit found in string", ": not a whole number"),
    (
        ": cannot parse integer from empty string",
        ": not a whole number",
    ),
    (
        ": number too large to fit in target type",
        ": too large a number",
    ),
];

/// Returns what a line says before a number that isn't within a range, and the ends of the range.
fn range_in(line: &str) -> Option<(&str, &str, &str)> {
    let (start, range) = line.rsplit_once(" is not in ")?;
    let (start, _) = start.rsplit_once(": ")?;
    let (least, most) = range.split_once("..=")?;
    Some((start, least, most))
}
