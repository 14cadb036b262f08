//! The commands that tell what errors mean and what the program takes.

use crate::command_line::Request;
use crate::commands::commands;
use crate::no_request::{NoRequest, usage};
use clap::error::ErrorKind;
use clap::{ArgMatches, Error};
use std::alloc::Global;
use zic_explain::{Entry, Unexplained, entries, error_in, explanation, index, shown_word};

pub(crate) fn explain(alloc: Global, matches: &ArgMatches<'_>) -> Result<Request, NoRequest> {
    let entries = entries(alloc)?;
    let request = match matches.get_str("NAME") {
        Some(name) => explained(alloc, &entries, name),
        None => listed(alloc, &entries),
    };
    drop(entries);
    request
}

/// Returns the list of all errors.
fn listed(alloc: Global, entries: &[Entry]) -> Result<Request, NoRequest> {
    let text = index(alloc, entries)?;
    Ok(Request::Explain { text })
}

/// Returns what the error means that a word names.
fn explained(alloc: Global, entries: &[Entry], name: &str) -> Result<Request, NoRequest> {
    match explanation(alloc, entries, error_in(entries, name)) {
        Ok(text) => Ok(Request::Explain { text }),
        Err(Unexplained::NoError { nearest }) => Err(no_error(alloc, name, nearest)),
        Err(Unexplained::Memory) => Err(NoRequest::Memory),
    }
}

/// Returns the refusal of a word that is the name of no error.
fn no_error(alloc: Global, name: &str, nearest: Option<&str>) -> NoRequest {
    let Ok(name) = shown_word(alloc, name) else {
        return NoRequest::Memory;
    };
    let text = match nearest {
        Some(nearest) => {
            let end = "'; the nearest is '";
            ["no error has the name '", name.as_str(), end, nearest, "'"].concat(alloc)
        }
        None => {
            let end = "'; 'pzic explain' lists all";
            ["no error has the name '", name.as_str(), end].concat(alloc)
        }
    };
    match text {
        Ok(text) => usage(alloc, text.as_str()),
        Err(_) => NoRequest::Memory,
    }
}

/// Returns the text of help, of a command if one is named.
pub(crate) fn help(alloc: Global, matches: &ArgMatches<'_>) -> Result<Request, NoRequest> {
    match matches.get_str("COMMAND") {
        Some(name) => help_for(alloc, &["pzic", name, "--help"]),
        None => help_for(alloc, &["pzic", "--help"]),
    }
}

/// Returns the text of help for which these words call.
fn help_for(alloc: Global, words: &[&str]) -> Result<Request, NoRequest> {
    match commands(alloc)?.try_get_matches_from(words) {
        Ok(matches) => {
            drop(matches);
            Err(usage(alloc, "no such command"))
        }
        Err(e) => {
            let request = help_of(alloc, &e);
            drop(e);
            request
        }
    }
}

/// Returns the text of help that was called for, or the refusal of a word that is no command.
fn help_of(alloc: Global, e: &Error) -> Result<Request, NoRequest> {
    match e.kind() {
        ErrorKind::OutOfMemory => Err(NoRequest::Memory),
        ErrorKind::DisplayHelp => Ok(Request::Help {
            text: e.to_string(alloc)?,
        }),
        _ => Err(usage(alloc, "COMMAND is none of those that 'pzic help' lists")),
    }
}
