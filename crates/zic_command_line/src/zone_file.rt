//! The commands that tell what a compiled file says.

use crate::command_line::{Exporting, Request};
use crate::instant::{instant_of, parse_local_word};
use crate::no_request::{NoRequest, bad_value, usage};
use crate::schedule::schedule;
use crate::values::{given, is_given, number, optional, word, years};
use clap::ArgMatches;
use std::alloc::Global;
use zic_dump::Years;

pub(crate) fn show(alloc: Global, matches: &ArgMatches<'_>) -> Result<Request, NoRequest> {
    let instant = given(alloc, matches, "INSTANT")?;
    let is_local = matches.get_flag("local");
    match matches.get_str("next") {
        Some(_) if is_local => Err(usage(
            alloc,
            "--next is given in place of --local, not beside it",
        )),
        Some(time) => show_next(alloc, matches, time, instant),
        None if is_given(matches, "weekdays") || is_given(matches, "disambiguation") => Err(usage(
            alloc,
            "--weekdays and --disambiguation are for --next",
        )),
        None if is_local => show_local(alloc, matches, instant),
        None => show_at(alloc, matches, instant),
    }
}

fn show_at(alloc: Global, matches: &ArgMatches<'_>, instant: &str) -> Result<Request, NoRequest> {
    let instant = instant_of(alloc, instant, "<INSTANT>")?;
    let file = word(alloc, matches, "FILE")?;
    Ok(Request::Show { file, instant })
}

fn show_next(
    alloc: Global,
    matches: &ArgMatches<'_>,
    time: &str,
    instant: &str,
) -> Result<Request, NoRequest> {
    let after = instant_of(alloc, instant, "<INSTANT>")?;
    let schedule = schedule(alloc, matches, time)?;
    let file = word(alloc, matches, "FILE")?;
    Ok(Request::ShowNext {
        file,
        schedule,
        after,
    })
}

fn show_local(alloc: Global, matches: &ArgMatches<'_>, local: &str) -> Result<Request, NoRequest> {
    let Some(local) = parse_local_word(local) else {
        let why = "not a local time as 2007-03-11T01:59:59";
        return Err(bad_value(alloc, local, "<INSTANT>", why));
    };
    let file = word(alloc, matches, "FILE")?;
    Ok(Request::ShowLocal { file, local })
}

pub(crate) fn dump(alloc: Global, matches: &ArgMatches<'_>) -> Result<Request, NoRequest> {
    let years = years(alloc, matches)?;
    let file = word(alloc, matches, "FILE")?;
    Ok(Request::Dump { file, years })
}

pub(crate) fn export(alloc: Global, matches: &ArgMatches<'_>) -> Result<Request, NoRequest> {
    if !matches.get_flag("ics") {
        return Err(usage(alloc, "--ics is missing: export has no other form"));
    }
    let since = number(alloc, matches, "since")?;
    let (since, until) = part(alloc, since, matches.get_one::<u64>("until"))?;
    let name = optional(alloc, matches, "name")?;
    let file = word(alloc, matches, "FILE")?;
    Ok(Request::Export(Exporting {
        file,
        name,
        since,
        until,
    }))
}

/// Returns the instants at which two years start, of which the second may be left out.
fn part(alloc: Global, since: u64, until: Option<u64>) -> Result<(i64, Option<i64>), NoRequest> {
    let years = match until {
        None => Years::new(since, since),
        Some(until) if since < until => Years::new(since, until),
        Some(_) => None,
    };
    let Some(years) = years else {
        return Err(usage(alloc, "the year of --until isn't after that of --since"));
    };
    let instants = years.instants();
    match until {
        None => Ok((instants.first, None)),
        Some(_) => Ok((instants.first, Some(instants.last))),
    }
}
