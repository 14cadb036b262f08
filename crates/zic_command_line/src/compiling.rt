//! The commands that compile sources.

use crate::command_line::{Building, Differences, Links, Request};
use crate::instant::date_or_instant;
use crate::no_request::{NoRequest, usage};
use crate::release::release_files;
use crate::values::{all_given, compared, inputs_of, is_given, plan, word, years};
use clap::ArgMatches;
use std::alloc::Global;
use zic_compare::{Grouping, Style};
use zic_dump::Years;

pub(crate) fn check(alloc: Global, matches: &ArgMatches<'_>) -> Result<Request, NoRequest> {
    let plan = plan(alloc, matches)?;
    let sources = sources(alloc, matches)?;
    Ok(Request::Check { sources, plan })
}

pub(crate) fn build(alloc: Global, matches: &ArgMatches<'_>) -> Result<Request, NoRequest> {
    let plan = plan(alloc, matches)?;
    let links = links_of(alloc, matches)?;
    let sources = sources(alloc, matches)?;
    let folder = word(alloc, matches, "DIR")?;
    let release_files = release_files(alloc, matches)?;
    Ok(Request::Build(Building {
        folder,
        sources,
        plan,
        links,
        sync: matches.get_flag("sync"),
        release_files,
    }))
}

/// Returns what the names of Link lines are made as.
fn links_of(alloc: Global, matches: &ArgMatches<'_>) -> Result<Links, NoRequest> {
    match matches.get_str("links") {
        Some("copy") => Ok(Links::Copy),
        Some("hard") => Ok(Links::Hard),
        Some("symlink") => Ok(Links::Symbolic),
        _ => Err(usage(alloc, "--links is copy, hard or symlink")),
    }
}

/// Returns the words for sources, of which one may be standard input.
fn sources(alloc: Global, matches: &ArgMatches<'_>) -> Result<Vec<String>, NoRequest> {
    let sources = all_given(alloc, matches, &["SOURCE"])?;
    if inputs_of(&sources) > 1 {
        return Err(usage(alloc, "-, standard input, can be only one SOURCE"));
    }
    Ok(sources)
}

pub(crate) fn verify(alloc: Global, matches: &ArgMatches<'_>) -> Result<Request, NoRequest> {
    let plan = plan(alloc, matches)?;
    let sources = sources(alloc, matches)?;
    let folder = word(alloc, matches, "DIR")?;
    let release_files = release_files(alloc, matches)?;
    Ok(Request::Verify {
        folder,
        sources,
        plan,
        release_files,
        strict: matches.get_flag("strict"),
    })
}

pub(crate) fn diff(alloc: Global, matches: &ArgMatches<'_>) -> Result<Request, NoRequest> {
    let trees = matches.get_flag("trees");
    let old = all_given(alloc, matches, &["OLD", "old"])?.len();
    let sources = old_and_new(alloc, matches, trees)?;
    let plan = plan(alloc, matches)?;
    let differences = differences_of(alloc, matches)?;
    let compared = compared(alloc, matches)?;
    Ok(Request::Diff {
        sources,
        old,
        trees,
        plan,
        differences,
        compared,
        style: style(alloc, matches)?,
        grouping: grouping(matches),
        shows_release: matches.get_flag("show-release"),
        tells_status: matches.get_flag("status"),
    })
}

/// Returns the words for the old sources and then the new ones, or for their folders. Only one source may be
/// standard input.
fn old_and_new(
    alloc: Global,
    matches: &ArgMatches<'_>,
    trees: bool,
) -> Result<Vec<String>, NoRequest> {
    let sources = all_given(alloc, matches, &["OLD", "old", "NEW", "new"])?;
    if trees && sources.len() > 2 {
        return Err(usage(
            alloc,
            "--trees compares OLD with NEW, without --old and --new",
        ));
    }
    if !trees && inputs_of(&sources) > 1 {
        return Err(usage(alloc, "-, standard input, can be only one of OLD and NEW"));
    }
    Ok(sources)
}

/// Returns what is listed of two sources, or of two folders.
fn differences_of(alloc: Global, matches: &ArgMatches<'_>) -> Result<Differences, NoRequest> {
    let since = since(alloc, matches)?;
    let from = is_given(matches, "from");
    if matches.get_flag("summary") {
        return if from || is_given(matches, "to") {
            Err(usage(alloc, "--summary is of all years, without --from and --to"))
        } else {
            Ok(Differences::Summary { since })
        };
    }
    if from && since.is_some() {
        return Err(usage(alloc, "--now is in place of --from"));
    }
    within(alloc, years(alloc, matches)?, since)
}

/// Returns what is listed of these years, from an instant on, if one is given.
fn within(alloc: Global, years: Years, since: Option<i64>) -> Result<Differences, NoRequest> {
    match since {
        Some(since) if since > years.instants().last => {
            Err(usage(alloc, "the instant of --now is after the year of --to"))
        }
        _ => Ok(Differences::Within { years, since }),
    }
}

/// Returns the instant from which on zones are compared, if it is given.
fn since(alloc: Global, matches: &ArgMatches<'_>) -> Result<Option<i64>, NoRequest> {
    match matches.get_str("now") {
        Some(word) => Ok(Some(date_or_instant(alloc, word, "--now <DATE>")?)),
        None => Ok(None),
    }
}

/// Returns how instants are written.
fn style(alloc: Global, matches: &ArgMatches<'_>) -> Result<Style, NoRequest> {
    match matches.get_str("style") {
        Some("count") => Ok(Style::Count),
        Some("iso") => Ok(Style::Iso),
        _ => Err(usage(alloc, "--style is count or iso")),
    }
}

/// Returns which names have lines of their own.
fn grouping(matches: &ArgMatches<'_>) -> Grouping {
    if matches.get_flag("group-links") {
        Grouping::Together
    } else {
        Grouping::Apart
    }
}
