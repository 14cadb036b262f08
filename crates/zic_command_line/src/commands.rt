//! The commands with their words and options, as help lists them.

use crate::form::{Form, Value};
use clap::{Arg, Command};
use std::alloc::{AllocError, Global};
use zic_dump::{FIRST_YEAR, LAST_YEAR};
use zic_layouts::{MAX_BYTES, MAX_OF_PIECE, MAX_ROWS, MAX_WORKERS};

/// The version of the program, and the kit that it is proved with.
const VERSION: &str = "0.1.0\nproved with rattle-kit-13f logic dac8208d650f15bf";

/// A word or an option of a command.
struct Word {
    name: &'static str,
    help: &'static str,
    form: Form,
}

/// A command.
struct Described {
    name: &'static str,
    about: &'static str,
    after: &'static str,
}

const FILE: Word = Word {
    name: "FILE",
    help: "A TZif file of version 2 or 3",
    form: Form::Required,
};

const WORKERS: Word = Word {
    name: "workers",
    help: "Threads that work, 1 to 64",
    form: Form::Number {
        label: &["N"],
        default: &["4"],
        least: 1,
        most: MAX_WORKERS,
    },
};

const ZONE_PIECE: Word = Word {
    name: "zone-piece",
    help: "Zones a thread takes, 1 to 65536",
    form: Form::Number {
        label: &["N"],
        default: &["16"],
        least: 1,
        most: MAX_OF_PIECE,
    },
};

const EXPLAIN: Word = Word {
    name: "explain",
    help: "Shows where a fault is, and what is expected",
    form: Form::Flag,
};

static CHECK: [Word; 4] = [
    Word {
        name: "SOURCE",
        help: "Files of Rule, Zone and Link lines; one may be -",
        form: Form::Several,
    },
    WORKERS,
    ZONE_PIECE,
    EXPLAIN,
];

static BUILD: [Word; 9] = [
    Word {
        name: "DIR",
        help: "The folder for the files; it is made if need be",
        form: Form::Required,
    },
    Word {
        name: "SOURCE",
        help: "Files of Rule, Zone and Link lines; one may be -",
        form: Form::Several,
    },
    Word {
        name: "links",
        help: "What a link is: copy, hard or symlink",
        form: Form::LINKS,
    },
    Word {
        name: "sync",
        help: "Returns once all is on the disk",
        form: Form::Flag,
    },
    Word {
        name: "release",
        help: "Writes NAME to +VERSION; from-source: that of a source",
        form: Form::NAME,
    },
    Word {
        name: "tables",
        help: "Copies tables of a release from here, as zone1970.tab",
        form: Form::FOLDER,
    },
    WORKERS,
    ZONE_PIECE,
    EXPLAIN,
];

static VERIFY: [Word; 8] = [
    Word {
        name: "DIR",
        help: "The folder that is to have the files",
        form: Form::Required,
    },
    Word {
        name: "SOURCE",
        help: "Files of Rule, Zone and Link lines; one may be -",
        form: Form::Several,
    },
    Word {
        name: "strict",
        help: "Lists other files of DIR too",
        form: Form::Flag,
    },
    Word {
        name: "release",
        help: "Compares +VERSION with what build --release writes",
        form: Form::NAME,
    },
    Word {
        name: "tables",
        help: "Compares tables with what build --tables copies",
        form: Form::FOLDER,
    },
    WORKERS,
    ZONE_PIECE,
    EXPLAIN,
];

static DIFF: [Word; 17] = [
    Word {
        name: "OLD",
        help: "A file of Rule, Zone and Link lines, or -",
        form: Form::Required,
    },
    Word {
        name: "NEW",
        help: "Another one, or - for standard input",
        form: Form::Required,
    },
    Word {
        name: "old",
        help: "Another source of OLD; may be given again",
        form: Form::OLD,
    },
    Word {
        name: "new",
        help: "Another source of NEW; may be given again",
        form: Form::NEW,
    },
    Word {
        name: "trees",
        help: "OLD and NEW are folders of TZif files",
        form: Form::Flag,
    },
    Word {
        name: "from",
        help: "From the start of which year, 2 to 9999",
        form: Form::Number {
            label: &["YEAR"],
            default: &["1900"],
            least: FIRST_YEAR,
            most: LAST_YEAR,
        },
    },
    Word {
        name: "to",
        help: "To the start of which year, 2 to 9999",
        form: Form::Number {
            label: &["YEAR"],
            default: &["2500"],
            least: FIRST_YEAR,
            most: LAST_YEAR,
        },
    },
    Word {
        name: "ignore",
        help: "Not compared: daylight, abbreviation, or both",
        form: Form::IGNORE,
    },
    Word {
        name: "summary",
        help: "A line a zone: until when it differs, or forever",
        form: Form::Flag,
    },
    Word {
        name: "now",
        help: "Only what differs from this date or second on",
        form: Form::Instant,
    },
    Word {
        name: "style",
        help: "Form of instants: count, or iso in UT",
        form: Form::INSTANTS,
    },
    Word {
        name: "group-links",
        help: "The links of a zone share its lines",
        form: Form::Flag,
    },
    Word {
        name: "status",
        help: "The status is 1 if anything differs",
        form: Form::Flag,
    },
    Word {
        name: "show-release",
        help: "Tells on standard error which releases they are of",
        form: Form::Flag,
    },
    WORKERS,
    ZONE_PIECE,
    EXPLAIN,
];

static CONVERT: [Word; 13] = [
    Word {
        name: "SOURCE",
        help: "A file of Rule, Zone and Link lines",
        form: Form::Optional,
    },
    Word {
        name: "source",
        help: "A source, or one more; may be given again",
        form: Form::SOURCES,
    },
    Word {
        name: "ignore",
        help: "Not compared: daylight, abbreviation, or both",
        form: Form::IGNORE,
    },
    Word {
        name: "tree",
        help: "A folder of TZif files, in place of SOURCE",
        form: Form::FOLDER,
    },
    Word {
        name: "against",
        help: "Writes only rows that OLD answers differently",
        form: Form::OLD,
    },
    Word {
        name: "against-tree",
        help: "The same by a folder of TZif files",
        form: Form::FOLDER,
    },
    Word {
        name: "against-summary",
        help: "Where --against counts rows as ZONE,ROWS,DIFFER",
        form: Form::PATH,
    },
    WORKERS,
    ZONE_PIECE,
    Word {
        name: "row-piece",
        help: "Rows a thread takes, 1 to 65536",
        form: Form::Number {
            label: &["N"],
            default: &["1024"],
            least: 1,
            most: MAX_OF_PIECE,
        },
    },
    Word {
        name: "max-rows",
        help: "Rows, up to 100000000",
        form: Form::Number {
            label: &["N"],
            default: &["100000000"],
            least: 0,
            most: MAX_ROWS,
        },
    },
    Word {
        name: "max-bytes",
        help: "Bytes, up to 4294967296",
        form: Form::Number {
            label: &["N"],
            default: &["4294967296"],
            least: 0,
            most: MAX_BYTES,
        },
    },
    Word {
        name: "max-record",
        help: "The most bytes of a record, up to 4294967296",
        form: Form::BYTES,
    },
];

static CONVERT_ROWS: [Word; 26] = [
    Word {
        name: "header",
        help: "Takes the first record for a header, writes one",
        form: Form::Flag,
    },
    Word {
        name: "skip-header",
        help: "Takes the first record for a header, writes none",
        form: Form::Flag,
    },
    Word {
        name: "prefix",
        help: "Begins the names that --header adds with TEXT",
        form: Form::PREFIX,
    },
    Word {
        name: "zone",
        help: "The zone of all rows, in place of a field",
        form: Form::NAME,
    },
    Word {
        name: "zone-field",
        help: "Field of the zone: number or name [default: 1]",
        form: Form::FIELD,
    },
    Word {
        name: "time-field",
        help: "Field of the time [default: 2, or 1 with --zone]",
        form: Form::FIELD,
    },
    Word {
        name: "delimiter",
        help: "Between fields: a character, or tab",
        form: Form::DELIMITER,
    },
    Word {
        name: "unit",
        help: "What instants count: s, ms, us, ns",
        form: Form::UNIT,
    },
    Word {
        name: "from",
        help: "count seconds rfc3339 utc local",
        form: Form::TIME,
    },
    Word {
        name: "ambiguous",
        help: "Local times: reject, earlier, later, compatible",
        form: Form::AMBIGUOUS,
    },
    Word {
        name: "show-ambiguous",
        help: "A field more: gap or fold, or empty",
        form: Form::Flag,
    },
    Word {
        name: "empty",
        help: "An empty time: fault or keep it",
        form: Form::EMPTY,
    },
    Word {
        name: "style",
        help: "Local time: fields, iso or utc",
        form: Form::STYLE,
    },
    Word {
        name: "only",
        help: "These fields of rows, as local,offset",
        form: Form::FIELDS,
    },
    Word {
        name: "records",
        help: "What a record is: csv or lines",
        form: Form::RECORDS,
    },
    Word {
        name: "quotes",
        help: "How double quotes are read: strict or lenient",
        form: Form::QUOTES,
    },
    Word {
        name: "append",
        help: "Writes local time after each record as it stands",
        form: Form::Flag,
    },
    Word {
        name: "replace",
        help: "Writes local time in the place of each time",
        form: Form::Flag,
    },
    Word {
        name: "keep-going",
        help: "Goes on after rows with faults, and counts them",
        form: Form::Flag,
    },
    Word {
        name: "faults",
        help: "Where --keep-going writes a fault as ROW,ERROR",
        form: Form::PATH,
    },
    Word {
        name: "faults-with",
        help: "Adds to each of these: line, value or line,value",
        form: Form::DETAILS,
    },
    Word {
        name: "rejects",
        help: "Where --keep-going puts records of these rows",
        form: Form::PATH,
    },
    Word {
        name: "max-faults",
        help: "Most of these rows after which the run goes on",
        form: Form::ROWS,
    },
    Word {
        name: "progress",
        help: "Tells on standard error how many rows it wrote",
        form: Form::Flag,
    },
    Word {
        name: "show-release",
        help: "Tells on standard error the release of zones",
        form: Form::Flag,
    },
    EXPLAIN,
];

static SHOW: [Word; 7] = [
    FILE,
    Word {
        name: "INSTANT",
        help: "Seconds from 1970-01-01T00:00:00 UT; after -- if below 0",
        form: Form::Required,
    },
    Word {
        name: "local",
        help: "Takes a local time, as 2007-03-11T01:59:59",
        form: Form::Flag,
    },
    Word {
        name: "next",
        help: "Prints when clocks show TIME next, as 02:30",
        form: Form::TIME_OF_DAY,
    },
    Word {
        name: "weekdays",
        help: "On these days, as mon-fri,sun",
        form: Form::WEEKDAYS,
    },
    Word {
        name: "disambiguation",
        help: "Gaps, folds: compatible, earlier, later or skip",
        form: Form::POLICY,
    },
    EXPLAIN,
];

static DUMP: [Word; 4] = [
    FILE,
    Word {
        name: "from",
        help: "From the start of which year, 2 to 9999",
        form: Form::Number {
            label: &["YEAR"],
            default: &["2"],
            least: FIRST_YEAR,
            most: LAST_YEAR,
        },
    },
    Word {
        name: "to",
        help: "To the start of which year, 2 to 9999",
        form: Form::Number {
            label: &["YEAR"],
            default: &["2500"],
            least: FIRST_YEAR,
            most: LAST_YEAR,
        },
    },
    EXPLAIN,
];

static EXPORT: [Word; 6] = [
    FILE,
    Word {
        name: "ics",
        help: "As a component VTIMEZONE of iCalendar; required",
        form: Form::Flag,
    },
    Word {
        name: "name",
        help: "Its TZID [default: that of FILE]",
        form: Form::NAME,
    },
    Word {
        name: "since",
        help: "From the start of which year, 2 to 9999",
        form: Form::Number {
            label: &["YEAR"],
            default: &["1601"],
            least: FIRST_YEAR,
            most: LAST_YEAR,
        },
    },
    Word {
        name: "until",
        help: "Up to the start of which year [default: for ever]",
        form: Form::YEAR,
    },
    EXPLAIN,
];

static NAMES: [Word; 1] = [Word {
    name: "NAME",
    help: "The name of an error; without it all are listed",
    form: Form::Optional,
}];

static HELP: [Word; 1] = [Word {
    name: "COMMAND",
    help: "The name of a command; without it all are listed",
    form: Form::Optional,
}];

static COMMANDS: [Described; 10] = [
    Described {
        name: "check",
        about: "Compiles sources together and lists their files: NAME BYTES FOOTER",
        after: "Example:\n  echo 'Zone Etc/UTC 0 - UTC' | pzic check -",
    },
    Described {
        name: "build",
        about: "Compiles sources together and writes their files, as zic -d DIR does",
        after: "Example:\n  pzic build ~/zoneinfo /usr/share/zoneinfo/tzdata.zi acme.zi",
    },
    Described {
        name: "verify",
        about: "Compiles sources and lists the files that DIR lacks or has otherwise",
        after: "Each line is missing NAME, differs NAME or, with --strict, extra NAME; with\nnone the status is 0.\n\nExample:\n  pzic verify ~/zoneinfo /usr/share/zoneinfo/tzdata.zi acme.zi",
    },
    Described {
        name: "diff",
        about: "Lists when the zones of two sources differ, or of two trees",
        after: "Each line is ZONE,FROM,UNTIL and the offset, daylight flag and abbreviation\nof OLD and then of NEW; of --summary ZONE,FROM,UNTIL, both offsets, and past,\nfuture, forever, removed, added or refused.\n\nExample:\n  pzic diff old/tzdata.zi /usr/share/zoneinfo/tzdata.zi\n  pzic diff --summary --trees ~/zoneinfo /usr/share/zoneinfo",
    },
    Described {
        name: "convert",
        about: "Converts lines NAME,SECONDS of standard input to local time",
        after: "Each row is NAME,SECONDS,LOCAL TIME,OFFSET,DAYLIGHT,ABBREVIATION.\n\nExample:\n  echo Europe/Dublin,0 | pzic convert /usr/share/zoneinfo/tzdata.zi\n  echo Europe/Dublin,0 | pzic convert --tree /usr/share/zoneinfo\n  pzic convert --against old/tzdata.zi new/tzdata.zi <column",
    },
    Described {
        name: "show",
        about: "Prints the offset, daylight flag and abbreviation at an instant",
        after: "Example:\n  pzic show /usr/share/zoneinfo/Europe/Dublin -- -1\n  pzic show --local /usr/share/zoneinfo/Europe/Dublin 2026-10-25T01:30:00\n  pzic show --next 02:30 --weekdays mon-fri Europe/Dublin 1800000000",
    },
    Described {
        name: "dump",
        about: "Lists the changes of local time of a file, as zdump -i does",
        after: "Example:\n  pzic dump --from 2000 --to 2030 /usr/share/zoneinfo/Europe/Dublin",
    },
    Described {
        name: "export",
        about: "Prints what a file says as a component of iCalendar (RFC 5545)",
        after: "Example:\n  pzic export --ics Europe/Dublin >dublin.ics",
    },
    Described {
        name: "explain",
        about: "Explains an error: what it means, examples and what to do",
        after: "Example:\n  pzic explain NoFooter\n  pzic explain 'line 3: NoFooter'",
    },
    Described {
        name: "help",
        about: "Prints what a command takes, as its --help on standard output",
        after: "Example:\n  pzic help convert | less",
    },
];

/// Returns the program with all commands.
pub fn commands<'a>(alloc: Global) -> Result<Command<'a>, AllocError> {
    with_commands(alloc, program(alloc)?, &COMMANDS)
}

/// Returns the program with these commands.
fn with_commands<'a>(
    alloc: Global,
    program: Command<'a>,
    all: &'a [Described],
) -> Result<Command<'a>, AllocError> {
    let mut program = program;
    for described in all {
        program = program.subcommand(command(alloc, described)?)?;
    }
    Ok(program)
}

/// Returns the program without its commands.
fn program<'a>(alloc: Global) -> Result<Command<'a>, AllocError> {
    Ok(
        Command::new(alloc, "pzic")
            .bin_name("pzic")?
            .version(VERSION)
            .about("Compiles time zone source text, as zic(8) reads it, to TZif files (RFC 9636)")
            .after_help(
                "Example:\n  pzic build ~/zoneinfo /usr/share/zoneinfo/tzdata.zi\n  TZDIR=~/zoneinfo TZ=Europe/Dublin date",
            )
            .subcommand_required(true)
            .disable_help_subcommand(true),
    )
}

/// Returns the words and options of the command of a name, or the first of them.
fn words<'a>(command: &str) -> &'a [Word] {
    match command {
        "check" | "build" => building_words(command),
        "verify" | "diff" => comparing_words(command),
        "convert" => convert_words(),
        "show" | "dump" | "export" => file_words(command),
        "help" => &HELP,
        _ => &NAMES,
    }
}

/// Returns the options of the command of a name that come after those: of `convert`, those about rows.
fn further_words<'a>(command: &str) -> &'a [Word] {
    match command {
        "convert" => &CONVERT_ROWS,
        _ => &[],
    }
}

/// Returns the words and options of a command that compiles sources.
fn building_words<'a>(command: &str) -> &'a [Word] {
    match command {
        "check" => &CHECK,
        _ => &BUILD,
    }
}

/// Returns the words and options of a command that compares what sources make.
fn comparing_words<'a>(command: &str) -> &'a [Word] {
    match command {
        "verify" => &VERIFY,
        _ => &DIFF,
    }
}

/// Returns the words of `convert`, and its options about zones, work and limits.
fn convert_words<'a>() -> &'a [Word] {
    &CONVERT
}

/// Returns the words and options of a command that tells what a compiled file says.
fn file_words<'a>(command: &str) -> &'a [Word] {
    match command {
        "show" => &SHOW,
        "dump" => &DUMP,
        _ => &EXPORT,
    }
}

/// Returns a command with its words and options.
fn command<'a>(alloc: Global, described: &'a Described) -> Result<Command<'a>, AllocError> {
    let command = Command::new(alloc, described.name)
        .about(described.about)
        .after_help(described.after);
    let command = with_words(alloc, command, words(described.name))?;
    with_words(alloc, command, further_words(described.name))
}

/// Returns a command with these words and options too.
fn with_words<'a>(
    alloc: Global,
    command: Command<'a>,
    words: &'a [Word],
) -> Result<Command<'a>, AllocError> {
    let mut command = command;
    for word in words {
        command = command.arg(argument(alloc, word))?;
    }
    Ok(command)
}

/// Returns a word or an option.
fn argument<'a>(alloc: Global, word: &'a Word) -> Arg<'a> {
    let form = &word.form;
    let argument = Arg::new(alloc, word.name)
        .help(word.help)
        .required(form.is_required())
        .num_args(form.count());
    match form {
        Form::Required | Form::Several | Form::Optional => argument,
        _ => option(argument, word.name, form.value()),
    }
}

/// Returns an option of this name that takes this.
fn option<'a>(argument: Arg<'a>, name: &'a str, value: Value<'a>) -> Arg<'a> {
    argument
        .long(name)
        .value_names(value.label)
        .value_parser(value.parser)
        .action(value.action)
        .default_values(value.default)
        .hide_possible_values(true)
        .allow_negative_numbers(value.may_be_negative)
}
