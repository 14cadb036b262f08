//! The release that a folder of files is of.

ghost use Rattle.std.specs.Prelude.{◌≡◌};
ghost use Rattle.std.specs.Char.{is_ascii_graphic};
ghost use Rattle.std.specs.List.{list_all};
ghost use Rattle.zic_command_line.specs.Release.{is_release};

use crate::no_request::{NoRequest, usage};
use crate::values::optional;
use clap::ArgMatches;
use std::alloc::Global;

/// The greatest number of bytes of a release's name.
pub const LONGEST_RELEASE: usize = 64;

/// Returns whether all bytes are visible ASCII characters.
fn are_visible(name: &[u8]) -> bool
    ensures { result ≡ list_all is_ascii_graphic name.now }
{
    name.iter().all(|byte| byte.is_ascii_graphic())
}

/// Returns whether bytes can be the name of a release, as `2025b`: 1 to 64 visible ASCII characters.
pub fn is_release(name: &[u8]) -> bool
    ensures { result ≡ is_release name.now }
{
    let length = name.len();
    1 <= length && length <= LONGEST_RELEASE && are_visible(name)
}

/// The release of the tz database that a folder is said to be of.
#[derive(Drop)]
pub enum Release {
    /// The one of this name.
    Named(String),
    /// The one that the first line of a source names.
    FromSource,
}

/// The files of a release that a folder has besides those of zones.
#[derive(Drop)]
pub struct ReleaseFiles {
    /// The release that the folder is said to be of, if one is said.
    pub release: Option<Release>,
    /// The folder whose tables are copied, if there is one.
    pub tables: Option<String>,
}

/// Returns the files of a release that a folder has besides those of zones.
pub(crate) fn release_files(
    alloc: Global,
    matches: &ArgMatches<'_>,
) -> Result<ReleaseFiles, NoRequest> {
    let tables = optional(alloc, matches, "tables")?;
    let release = release_of(alloc, matches)?;
    Ok(ReleaseFiles { release, tables })
}

/// Returns the release that a folder is said to be of.
fn release_of(alloc: Global, matches: &ArgMatches<'_>) -> Result<Option<Release>, NoRequest> {
    match matches.get_str("release") {
        None => Ok(None),
        Some("from-source") => Ok(Some(Release::FromSource)),
        Some(name) if is_release(name.as_bytes()) => {
            Ok(Some(Release::Named(String::from_str(alloc, name)?)))
        }
        Some(_) => Err(usage(
            alloc,
            "--release is from-source or a name of 1 to 64 visible ASCII characters",
        )),
    }
}
