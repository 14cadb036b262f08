//! The conversion of a column.

use crate::command_line::{ConvertOptions, Request, Zones};
use crate::fields::{FieldNames, FieldWords};
use crate::layout::{fault_fields, is_compared, layout, max_faults};
use crate::no_request::{NoRequest, usage};
use crate::values::{all_given, column_plan, inputs_of, optional};
use clap::ArgMatches;
use std::alloc::Global;
use zic_io::FaultFields;
use zic_layouts::{Layout, Plan};

/// Where the zones of a column come from, and those that rows are compared with, and where the rows of each
/// zone are counted.
#[derive(Drop)]
struct BothZones {
    zones: Zones,
    against: Option<Zones>,
    summary: Option<String>,
}

/// How a column is read, and the names of the fields that are read.
#[derive(Drop)]
struct Reading {
    layout: Layout,
    names: FieldNames,
}

/// What is kept of the rows with faults.
#[derive(Drop)]
struct FaultLists {
    faults: Option<String>,
    fault_fields: FaultFields,
    rejects: Option<String>,
    max_faults: Option<u64>,
}

pub(crate) fn convert(alloc: Global, matches: &ArgMatches<'_>) -> Result<Request, NoRequest> {
    let plan = column_plan(alloc, matches)?;
    let zones = both_zones(alloc, matches)?;
    match reading_and_lists(alloc, matches) {
        Ok((reading, lists)) => Ok(conversion(matches, plan, zones, reading, lists)),
        Err(refusal) => {
            drop(zones);
            Err(refusal)
        }
    }
}

/// Returns the request of a conversion.
fn conversion(
    matches: &ArgMatches<'_>,
    plan: Plan,
    zones: BothZones,
    reading: Reading,
    lists: FaultLists,
) -> Request {
    let BothZones {
        zones,
        against,
        summary,
    } = zones;
    let Reading { layout, names } = reading;
    let FaultLists {
        faults,
        fault_fields,
        rejects,
        max_faults,
    } = lists;
    Request::Convert(ConvertOptions {
        zones,
        against,
        summary,
        plan,
        layout,
        names,
        faults,
        fault_fields,
        rejects,
        max_faults,
        progress: matches.get_flag("progress"),
        shows_release: matches.get_flag("show-release"),
    })
}

/// Returns where the zones of a column come from, and those that rows are compared with, and where the rows
/// of each zone are counted.
fn both_zones(alloc: Global, matches: &ArgMatches<'_>) -> Result<BothZones, NoRequest> {
    let summary = summary(alloc, matches)?;
    let zones = zones_of(alloc, matches)?;
    let against = against(alloc, matches)?;
    Ok(BothZones {
        zones,
        against,
        summary,
    })
}

/// Returns the path of the file in which the rows of each zone are counted, if there is one.
fn summary(alloc: Global, matches: &ArgMatches<'_>) -> Result<Option<String>, NoRequest> {
    let path = optional(alloc, matches, "against-summary")?;
    if path.is_some() && !is_compared(matches) {
        return Err(usage(
            alloc,
            "--against-summary has no meaning without --against or --against-tree",
        ));
    }
    Ok(path)
}

/// Returns where the zones of a column come from.
fn zones_of(alloc: Global, matches: &ArgMatches<'_>) -> Result<Zones, NoRequest> {
    let sources = all_given(alloc, matches, &["SOURCE", "source"])?;
    if inputs_of(&sources) > 0 {
        return Err(usage(alloc, "standard input is the column, so SOURCE can't be -"));
    }
    match (sources.is_empty(), matches.get_str("tree")) {
        (false, None) => Ok(Zones::Sources(sources)),
        (true, Some(folder)) => Ok(Zones::Tree(String::from_str(alloc, folder)?)),
        (true, None) => Err(usage(alloc, "SOURCE or --tree DIR is missing")),
        (false, Some(_)) => Err(usage(alloc, "--tree is given in place of SOURCE, not beside it")),
    }
}

/// Returns where the zones come from that rows are compared with, if they are.
fn against(alloc: Global, matches: &ArgMatches<'_>) -> Result<Option<Zones>, NoRequest> {
    let sources = all_given(alloc, matches, &["against"])?;
    if inputs_of(&sources) > 0 {
        return Err(usage(alloc, "standard input is the column, so OLD can't be -"));
    }
    match (sources.is_empty(), matches.get_str("against-tree")) {
        (false, None) => Ok(Some(Zones::Sources(sources))),
        (true, Some(folder)) => Ok(Some(Zones::Tree(String::from_str(alloc, folder)?))),
        (true, None) => Ok(None),
        (false, Some(_)) => Err(usage(
            alloc,
            "--against-tree is given in place of --against, not beside it",
        )),
    }
}

/// Returns how a column is read, and what is kept of the rows with faults.
fn reading_and_lists(
    alloc: Global,
    matches: &ArgMatches<'_>,
) -> Result<(Reading, FaultLists), NoRequest> {
    let reading = reading_of(alloc, matches)?;
    match fault_lists(alloc, matches) {
        Ok(lists) => Ok((reading, lists)),
        Err(refusal) => {
            drop(reading);
            Err(refusal)
        }
    }
}

/// Returns how a column is read, and the names of the fields that are read.
fn reading_of(alloc: Global, matches: &ArgMatches<'_>) -> Result<Reading, NoRequest> {
    let fields = FieldWords::of(alloc, matches)?;
    let layout = layout(alloc, matches, &fields)?;
    Ok(Reading {
        layout,
        names: fields.names(),
    })
}

/// Returns what is kept of the rows with faults.
fn fault_lists(alloc: Global, matches: &ArgMatches<'_>) -> Result<FaultLists, NoRequest> {
    let fault_fields = fault_fields(alloc, matches)?;
    let max_faults = max_faults(alloc, matches)?;
    let faults = optional(alloc, matches, "faults")?;
    let rejects = optional(alloc, matches, "rejects")?;
    Ok(FaultLists {
        faults,
        fault_fields,
        rejects,
        max_faults,
    })
}
