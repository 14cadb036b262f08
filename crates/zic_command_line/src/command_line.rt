//! What the words of the process ask for.

use crate::advice::advised;
use crate::commands::commands;
use crate::compiling::{build, check, diff, verify};
use crate::conversion::convert;
use crate::fields::FieldNames;
use crate::help::{explain, help};
use crate::no_request::{NoRequest, hinted, usage};
use crate::release::ReleaseFiles;
use crate::zone_file::{dump, export, show};
use clap::error::ErrorKind;
use clap::{ArgMatches, Error};
use std::alloc::{AllocError, Global};
use std::env::Args;
use std::rt::Env;
use std::{env, io};
use zic_compare::{Grouping, Style};
use zic_dump::Years;
use zic_explain::shown_word;
use zic_io::FaultFields;
use zic_layouts::{Compared, Layout, Plan};
use zic_local::{LocalTime, Schedule};

/// What the names of Link lines are made as.
#[derive(Clone, Copy)]
pub enum Links {
    /// Files of their own.
    Copy,
    /// Hard links to the files of their zones.
    Hard,
    /// Symbolic links to the files of their zones.
    Symbolic,
}

/// What is listed of the zones of two sources, or of two folders.
#[derive(Drop)]
pub enum Differences {
    /// The spans at which they differ.
    Within {
        years: Years,
        /// The instant from which on they are listed, if it isn't the start of the years.
        since: Option<i64>,
    },
    /// From when on they differ, and from when on they agree for ever.
    Summary {
        /// The instant from which on they are compared, if it isn't the first of all.
        since: Option<i64>,
    },
}

/// What a folder of files is made of, and how.
#[derive(Drop)]
pub struct Building {
    pub folder: String,
    pub sources: Vec<String>,
    pub plan: Plan,
    pub links: Links,
    /// Whether the files are on the disk when the command ends.
    pub sync: bool,
    /// What is placed besides the files of zones.
    pub release_files: ReleaseFiles,
}

/// What the words ask for.
#[derive(Drop)]
pub struct CommandLine {
    pub request: Request,
    /// Whether a failure is explained.
    pub explain: bool,
}

/// A request to the program.
#[derive(Drop)]
pub enum Request {
    /// Compile sources and list their files.
    Check {
        sources: Vec<String>,
        plan: Plan,
    },
    /// Compile sources and write their files into a folder.
    Build(Building),
    /// Compile sources and look whether a folder has their files.
    Verify {
        folder: String,
        sources: Vec<String>,
        plan: Plan,
        /// What the folder is to have besides the files of zones.
        release_files: ReleaseFiles,
        /// Whether other files of the folder count.
        strict: bool,
    },
    /// List when the files of two sources answer differently, or those of two folders.
    Diff {
        /// The old sources and then the new ones, or the folders.
        sources: Vec<String>,
        /// How many of these are old.
        old: usize,
        /// Whether they are folders of TZif files.
        trees: bool,
        plan: Plan,
        differences: Differences,
        compared: Compared,
        /// How instants are written.
        style: Style,
        /// Which names have lines of their own.
        grouping: Grouping,
        /// Whether the releases of both are printed.
        shows_release: bool,
        /// Whether the status tells that something differs.
        tells_status: bool,
    },
    /// Convert a column by the files of sources, which are compiled, or of a folder.
    Convert(ConvertOptions),
    /// Tell what a file says of an instant.
    Show {
        file: String,
        instant: i64,
    },
    /// Tell what a file says of a local time.
    ShowLocal {
        file: String,
        local: LocalTime,
    },
    /// Tell when the clocks of a file next show a time of day.
    ShowNext {
        file: String,
        schedule: Schedule,
        /// The instant after which that is.
        after: i64,
    },
    /// List the changes of a file.
    Dump {
        file: String,
        years: Years,
    },
    /// Write what a file says as a component of iCalendar.
    Export(Exporting),
    /// Tell what errors mean.
    Explain {
        text: String,
    },
    /// Tell this version.
    Version {
        text: String,
    },
    /// Tell what the program or a command takes.
    Help {
        text: String,
    },
}

/// Which part of a file is written as a component `VTIMEZONE` of iCalendar (RFC 5545).
#[derive(Drop)]
pub struct Exporting {
    pub file: String,
    /// The name of the zone, if it isn't that of the file.
    pub name: Option<String>,
    /// The first instant of the part, in seconds from 1970-01-01T00:00:00 UT.
    pub since: i64,
    /// The instant after its last, or `None` where it goes on for ever.
    pub until: Option<i64>,
}

/// Where the zones of a column come from.
#[derive(Drop)]
pub enum Zones {
    /// Sources that are compiled together.
    Sources(Vec<String>),
    /// The TZif files of a folder.
    Tree(String),
}

/// What a column is converted by, and what is printed about its rows.
#[derive(Drop)]
pub struct ConvertOptions {
    pub zones: Zones,
    /// Where the zones come from that rows are compared with, if they are.
    pub against: Option<Zones>,
    /// The path of the file for the numbers of rows of each zone, and of those that are different by the
    /// other release, if there is one.
    pub summary: Option<String>,
    pub plan: Plan,
    /// How the column is read, and what its rows are.
    pub layout: Layout,
    /// The names of the fields that are read, where the header says which these are.
    pub names: FieldNames,
    /// The path of the file for the faults of rows, if there is one.
    pub faults: Option<String>,
    /// Which fields a line of that file has after the number of the row and the name of the fault.
    pub fault_fields: FaultFields,
    /// The path of the file for the records of these rows, if they are rejected.
    pub rejects: Option<String>,
    /// The most rows with a fault after which a run goes on, where that is limited.
    pub max_faults: Option<u64>,
    /// Whether the number of rows so far is printed.
    pub progress: bool,
    /// Whether the release of the zones is printed.
    pub shows_release: bool,
}

/// Returns what the words of the process ask for.
///
/// # Errors
///
/// The text of usage or of help, or memory ran out.
pub fn requested<R: Env + AllocGlobal>(rt: &R) -> Result<CommandLine, NoRequest> {
    let alloc = rt.alloc();
    match env::args(rt) {
        Ok(given) => {
            let words = words_of(alloc, given)?;
            parse(alloc, &words)
        }
        Err(e) if e.kind() == io::ErrorKind::OutOfMemory => Err(NoRequest::Memory),
        Err(_) => Err(usage(alloc, "the words are not all text")),
    }
}

/// Returns the words of the process in a list.
fn words_of(alloc: Global, given: Args) -> Result<Vec<String>, AllocError> {
    let mut words = Vec::new(alloc);
    for word in given {
        words.push(word)?;
    }
    Ok(words)
}

/// Returns what these words ask for, the program's name first.
///
/// # Errors
///
/// The text of usage or of help, or memory ran out.
pub fn parse(alloc: Global, words: &[String]) -> Result<CommandLine, NoRequest> {
    match commands(alloc)?.try_get_matches_from(words) {
        Ok(matches) => {
            let line = matched(alloc, &matches);
            drop(matches);
            line
        }
        Err(e) => {
            let line = unmatched(alloc, words, &e);
            drop(e);
            line
        }
    }
}

/// Returns what words that are a command ask for.
fn matched(alloc: Global, matches: &ArgMatches<'_>) -> Result<CommandLine, NoRequest> {
    let (name, explain) = match matches.subcommand() {
        Some((name, m)) => (name, m.get_flag("explain")),
        None => ("", false),
    };
    match command(alloc, matches) {
        Ok(request) => Ok(CommandLine { request, explain }),
        Err(refusal) => Err(hinted(alloc, refusal, name)),
    }
}

/// Returns what the command asks for.
fn command(alloc: Global, matches: &ArgMatches<'_>) -> Result<Request, NoRequest> {
    match matches.subcommand() {
        Some(("check", m)) => check(alloc, m),
        Some(("build", m)) => build(alloc, m),
        Some(("verify", m)) => verify(alloc, m),
        Some(("diff", m)) => diff(alloc, m),
        Some(("convert", m)) => convert(alloc, m),
        Some(("show", m)) => show(alloc, m),
        Some(("dump", m)) => dump(alloc, m),
        Some(("export", m)) => export(alloc, m),
        Some(("explain", m)) => explain(alloc, m),
        Some(("help", m)) => help(alloc, m),
        _ => Err(usage(alloc, "no such command")),
    }
}

/// Returns what words that are no command ask for: the version, if anything.
fn unmatched(alloc: Global, words: &[String], e: &Error) -> Result<CommandLine, NoRequest> {
    match e.kind() {
        ErrorKind::OutOfMemory => Err(NoRequest::Memory),
        ErrorKind::DisplayVersion => {
            let text = e.to_string(alloc)?;
            Ok(CommandLine {
                request: Request::Version { text },
                explain: false,
            })
        }
        _ => Err(misused(alloc, words)?),
    }
}

/// The commands, by their names.
const COMMANDS: [&str; 10] = [
    "check", "build", "verify", "diff", "convert", "show", "dump", "export", "explain", "help",
];

/// Returns the first word, if it is the name of a command, or an empty text.
fn command_name(words: &[String]) -> &'static str {
    let Some(word) = words.get(1) else {
        return "";
    };
    for name in &COMMANDS {
        if *name == word.as_str() {
            return *name;
        }
    }
    ""
}

/// Returns the refusal of words that are no command. Its text shows them without control characters.
fn misused(alloc: Global, words: &[String]) -> Result<NoRequest, AllocError> {
    let shown = shown_words(alloc, words)?;
    let refusal = refused(alloc, &shown, command_name(words));
    drop(shown);
    refusal
}

/// Returns the refusal of these words, with a hint at the help of the command of this name.
fn refused(alloc: Global, words: &[String], name: &str) -> Result<NoRequest, AllocError> {
    match commands(alloc)?.try_get_matches_from(words) {
        Ok(matches) => {
            drop(matches);
            Ok(usage(alloc, "a word has control characters"))
        }
        Err(e) => {
            let refusal = refusal_of(alloc, &e, name);
            drop(e);
            refusal
        }
    }
}

/// Returns the refusal that has the text of an error, with a hint at the help of the command of this name.
fn refusal_of(alloc: Global, e: &Error, name: &str) -> Result<NoRequest, AllocError> {
    match e.kind() {
        ErrorKind::OutOfMemory => Ok(NoRequest::Memory),
        _ => {
            let text = advised(alloc, e.to_string(alloc)?, name)?;
            Ok(hinted(alloc, NoRequest::Usage(text), name))
        }
    }
}

/// Returns the words as they are shown to people.
fn shown_words(alloc: Global, words: &[String]) -> Result<Vec<String>, AllocError> {
    let mut shown = Vec::new(alloc);
    for word in words {
        shown.push(shown_word(alloc, word.as_str())?)?;
    }
    Ok(shown)
}
