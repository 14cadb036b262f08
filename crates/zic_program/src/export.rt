//! A file as a component of iCalendar.

use crate::zone_file::path_of;
use std::alloc::Global;
use std::fs::Files;
use std::rt::Env;
use zic_command_line::{Exporting, NoRequest, usage_of};
use zic_dump::{CalendarStop, vtimezone};
use zic_folders::Ending;
use zic_host::{Refusal, WriteReason, tell};
use zic_io::{Failure, read_file};
use zic_tzif::{Zone, read};

/// Prints a part of a file as a component of iCalendar.
///
/// # Errors
///
/// The file can't be read, no component says what it does, or that can't be written.
pub(crate) fn export<R: Env + Files + Print + AllocGlobal>(
    rt: &R,
    order: &Exporting,
    reason: &WriteReason,
) -> Result<Ending, Refusal> {
    let path = path(rt, order)?;
    let ending = export_at(rt, order, path.as_str(), reason);
    drop(path);
    ending
}

/// Returns the path of the file.
fn path<R: Env + Files + AllocGlobal>(rt: &R, order: &Exporting) -> Result<String, Failure> {
    Ok(path_of(rt, order.file.as_str())?)
}

/// Prints a part of the file at a path.
fn export_at<R: Files + Print + AllocGlobal>(
    rt: &R,
    order: &Exporting,
    path: &str,
    reason: &WriteReason,
) -> Result<Ending, Refusal> {
    let zone = zone_at(rt, path)?;
    let name = name_of(order, path);
    let made = vtimezone(rt.alloc(), &zone, name, order.since, order.until);
    drop(zone);
    match made {
        Ok(text) => Ok(printed(rt, reason, text)?),
        Err(stop) => Ok(refused(rt.alloc(), stop)?),
    }
}

/// Returns the zone of the file at a path.
fn zone_at<R: Files + AllocGlobal>(rt: &R, path: &str) -> Result<Zone, Failure> {
    let bytes = read_file(rt.alloc(), rt, path)?;
    Ok(read(rt.alloc(), &bytes)?)
}

/// Returns the name of the zone: the one that is given; else the one by which its file was looked up; else
/// what follows the last slash of its path.
fn name_of<'a>(order: &'a Exporting, path: &'a str) -> &'a str {
    let word = order.file.as_str();
    match &order.name {
        Some(name) => name.as_str(),
        None if word != path => word,
        None => match path.rsplit_once('/') {
            Some((_, name)) => name,
            None => path,
        },
    }
}

/// Prints a component.
fn printed<R: Print>(rt: &R, reason: &WriteReason, text: String) -> Result<Ending, Failure> {
    tell(rt, reason, text.as_bytes())?;
    Ok(Ending::Done)
}

/// Refuses a part that no component says.
fn refused(alloc: Global, stop: CalendarStop) -> Result<Ending, NoRequest> {
    let why = match stop {
        CalendarStop::Order => "the year of --until isn't after that of --since",
        CalendarStop::Years =>
            "rules for ever can't begin after the year 9500, so --until is needed",
        CalendarStop::Open => "FILE leaves local time open, which a VTIMEZONE can't",
        CalendarStop::NoRule => "no RRULE says what the footer of FILE does, so --until is needed",
        CalendarStop::Name => "a TZID has a character, and no control characters",
        CalendarStop::Memory => return Err(NoRequest::Memory),
    };
    Err(usage_of(alloc, "export", why))
}
