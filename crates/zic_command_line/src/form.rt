//! What the words and options of commands take.

use clap::ArgAction;
use clap::builder::{ValueParser, ValueRange};
use zic_dump::{FIRST_YEAR, LAST_YEAR};
use zic_layouts::MAX_BYTES;

/// What a command takes. The label of an option is what help calls its value, and the default stands for
/// that where the option isn't given: each is one text, or none.
pub(crate) enum Form {
    /// A word that must be given.
    Required,
    /// Words, of which one must be given.
    Several,
    /// A word that may be left out.
    Optional,
    /// An option without a value.
    Flag,
    /// An option that is any text.
    Text {
        label: &'static [&'static str],
        default: &'static [&'static str],
    },
    /// An option that is one of these words.
    Choice {
        label: &'static [&'static str],
        words: &'static [&'static str],
        default: &'static [&'static str],
    },
    /// An option that is a whole number in a range.
    Number {
        label: &'static [&'static str],
        default: &'static [&'static str],
        least: u64,
        most: u64,
    },
    /// An option that is a date or an instant, which is read later on.
    Instant,
    /// An option that is the path of a source, and may be given again.
    Sources {
        label: &'static [&'static str],
    },
}

/// What an option takes.
#[derive(Clone, Copy)]
pub(crate) struct Value<'a> {
    /// What help calls it; a flag takes none.
    pub(crate) label: &'a [&'a str],
    /// What stands for it where the option isn't given, if anything does.
    pub(crate) default: &'a [&'a str],
    /// What it has to be.
    pub(crate) parser: ValueParser<'a>,
    /// Whether it may be given again.
    pub(crate) action: ArgAction,
    /// Whether it may be a number below zero, which begins as an option does.
    pub(crate) may_be_negative: bool,
}

impl Form {
    /// Words for what the names of Link lines are made as.
    pub(crate) const LINKS: Form = Form::Choice {
        label: &["KIND"],
        words: &["copy", "hard", "symlink"],
        default: &["copy"],
    };

    /// Words for what isn't compared.
    pub(crate) const IGNORE: Form = Form::Choice {
        label: &["WHAT"],
        words: &[
            "daylight",
            "abbreviation",
            "daylight,abbreviation",
            "abbreviation,daylight",
        ],
        default: &[],
    };

    /// Words for what an instant counts.
    pub(crate) const UNIT: Form = Form::Choice {
        label: &["UNIT"],
        words: &["s", "ms", "us", "ns"],
        default: &["s"],
    };

    /// Words for how the field of an instant has it, or of a local time.
    pub(crate) const TIME: Form = Form::Choice {
        label: &["FORM"],
        words: &["count", "seconds", "rfc3339", "utc", "local"],
        default: &["count"],
    };

    /// Words for what is taken for local times in gaps and in folds.
    pub(crate) const AMBIGUOUS: Form = Form::Choice {
        label: &["C"],
        words: &["reject", "earlier", "later", "compatible"],
        default: &[],
    };

    /// Words for how a row has its local time and its UT offset.
    pub(crate) const STYLE: Form = Form::Choice {
        label: &["STYLE"],
        words: &["fields", "iso", "utc"],
        default: &["fields"],
    };

    /// Words for what an empty time does.
    pub(crate) const EMPTY: Form = Form::Choice {
        label: &["WHAT"],
        words: &["fault", "keep"],
        default: &["fault"],
    };

    /// The names of the fields of rows.
    pub(crate) const FIELDS: Form = Form::Text {
        label: &["FIELDS"],
        default: &[],
    };

    /// What the names of fields begin with.
    pub(crate) const PREFIX: Form = Form::Text {
        label: &["TEXT"],
        default: &[],
    };

    /// Words for how instants are written.
    pub(crate) const INSTANTS: Form = Form::Choice {
        label: &["STYLE"],
        words: &["count", "iso"],
        default: &["count"],
    };

    /// Words for what the list of faults has of each besides its row and its name.
    pub(crate) const DETAILS: Form = Form::Choice {
        label: &["WHAT"],
        words: &["line", "value", "line,value"],
        default: &[],
    };

    /// Words for what a record is.
    pub(crate) const RECORDS: Form = Form::Choice {
        label: &["KIND"],
        words: &["csv", "lines"],
        default: &["csv"],
    };

    /// Words for which double quotes a record may have.
    pub(crate) const QUOTES: Form = Form::Choice {
        label: &["KIND"],
        words: &["strict", "lenient"],
        default: &[],
    };

    /// Words for what is taken for a time of day in a gap or a fold.
    pub(crate) const POLICY: Form = Form::Choice {
        label: &["WORD"],
        words: &["compatible", "earlier", "later", "skip"],
        default: &[],
    };

    /// The name of a zone, or of a release.
    pub(crate) const NAME: Form = Form::Text {
        label: &["NAME"],
        default: &[],
    };

    /// The number of a field, from 1, or its name.
    pub(crate) const FIELD: Form = Form::Text {
        label: &["F"],
        default: &[],
    };

    /// The path of a file.
    pub(crate) const PATH: Form = Form::Text {
        label: &["FILE"],
        default: &[],
    };

    /// The path of a folder.
    pub(crate) const FOLDER: Form = Form::Text {
        label: &["DIR"],
        default: &[],
    };

    /// Sources.
    pub(crate) const SOURCES: Form = Form::Sources { label: &["SOURCE"] };

    /// Older sources.
    pub(crate) const OLD: Form = Form::Sources { label: &["OLD"] };

    /// Newer sources.
    pub(crate) const NEW: Form = Form::Sources { label: &["NEW"] };

    /// What stands between fields.
    pub(crate) const DELIMITER: Form = Form::Text {
        label: &["C"],
        default: &[","],
    };

    /// A time of day.
    pub(crate) const TIME_OF_DAY: Form = Form::Text {
        label: &["TIME"],
        default: &[],
    };

    /// Days of the week.
    pub(crate) const WEEKDAYS: Form = Form::Text {
        label: &["LIST"],
        default: &["all"],
    };

    /// A number of bytes, from 1.
    pub(crate) const BYTES: Form = Form::Number {
        label: &["N"],
        default: &[],
        least: 1,
        most: MAX_BYTES,
    };

    /// A number of rows, from 0.
    pub(crate) const ROWS: Form = Form::Number {
        label: &["N"],
        default: &[],
        least: 0,
        most: u64::MAX,
    };

    /// A year.
    pub(crate) const YEAR: Form = Form::Number {
        label: &["YEAR"],
        default: &[],
        least: FIRST_YEAR,
        most: LAST_YEAR,
    };

    /// Returns whether it must be given.
    pub(crate) fn is_required(&self) -> bool {
        matches!(self, Form::Required | Form::Several)
    }

    /// Returns how many words it takes.
    pub(crate) fn count(&self) -> ValueRange {
        match self {
            Form::Several => ValueRange::new(1..),
            Form::Flag => ValueRange::EMPTY,
            _ => ValueRange::SINGLE,
        }
    }

    /// Returns what an option of this form takes.
    pub(crate) fn value<'a>(&'a self) -> Value<'a> {
        match self {
            Form::Text { label, default } => text(*label, *default),
            Form::Choice {
                label,
                words,
                default,
            } => choice(*label, *words, *default),
            Form::Number {
                label,
                default,
                least,
                most,
            } => whole(*label, *default, *least, *most),
            Form::Instant => instant(),
            Form::Sources { label } => sources(*label),
            Form::Flag | Form::Required | Form::Several | Form::Optional => nothing(),
        }
    }
}

/// Returns the value that is any text.
fn text<'a>(label: &'a [&'a str], default: &'a [&'a str]) -> Value<'a> {
    Value {
        label,
        default,
        parser: ValueParser::String,
        action: ArgAction::Set,
        may_be_negative: false,
    }
}

/// Returns the value that is one of these words.
fn choice<'a>(label: &'a [&'a str], words: &'a [&'a str], default: &'a [&'a str]) -> Value<'a> {
    Value {
        parser: ValueParser::Names(words),
        ..text(label, default)
    }
}

/// Returns the value that is a whole number in a range.
fn whole<'a>(label: &'a [&'a str], default: &'a [&'a str], least: u64, most: u64) -> Value<'a> {
    Value {
        parser: ValueParser::Unsigned(least, most),
        ..text(label, default)
    }
}

/// Returns the value that is a date or an instant.
fn instant<'a>() -> Value<'a> {
    Value {
        may_be_negative: true,
        ..text(&["DATE"], &[])
    }
}

/// Returns the value that is the path of a source, each time that the option is given.
fn sources<'a>(label: &'a [&'a str]) -> Value<'a> {
    Value {
        action: ArgAction::Append,
        ..text(label, &[])
    }
}

/// Returns what a flag takes: whether it is given.
fn nothing<'a>() -> Value<'a> {
    Value {
        parser: ValueParser::Bool,
        action: ArgAction::SetTrue,
        ..text(&[], &[])
    }
}
