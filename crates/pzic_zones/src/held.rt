//! What handles hold.

ghost use Rattle.std.specs.Prelude.{◌≡◌, ◌<◌, length, Some, None, IfOk, IfSome, MatchOption};
ghost use Rattle.std.specs.Option.{option_copied};
ghost use Rattle.pzic_zones.specs.code.Near.{IsNear};
ghost use Rattle.pzic_zones.specs.Handle.{AreAlike, content_at, content_of, files_of, rows_of};

use crate::column::Made;
use crate::member::{Member, Single};
use std::alloc::{AllocError, Global};
use std::sync::Arc;
use zic_files::Files;
use zic_tzif::Zone;

/// What a handle holds. Handles of one zone, of the same files or of the same rows share it.
#[derive(Drop)]
pub enum Held {
    Zone(Single),
    Member(Member),
    Files(Arc<Files>),
    Rows(Arc<Made>),
}

impl Held {
    /// Returns the zone, if it is one.
    pub(crate) fn zone(&self) -> Option<&Zone>
        ensures zone { option_copied result ≡ content_of self.now }
        ensures near { IfSome result (λ zone. IsNear zone.now) }
    {
        match self {
            Held::Zone(single) => Some(single.zone()),
            Held::Member(member) => Some(member.zone()),
            Held::Files(_) | Held::Rows(_) => None,
        }
    }

    /// Returns the files, if there are any.
    pub fn files(&self) -> Option<&Arc<Files>>
        ensures { MatchOption result (files_of self.now ≡ None)
            (λ files. files_of self.now ≡ Some files.now.value) }
    {
        match self {
            Held::Files(files) => Some(files),
            _ => None,
        }
    }

    /// Returns the rows, if there are any.
    pub fn rows(&self) -> Option<&Made>
        ensures { MatchOption result (rows_of self.now ≡ None)
            (λ rows. rows_of self.now ≡ Some rows.now) }
    {
        match self {
            Held::Rows(rows) => Some(rows),
            _ => None,
        }
    }

    /// Returns another owner of the same.
    pub(crate) fn again(&self, alloc: Global) -> Result<Box<Held>, AllocError>
        ensures { IfOk result (λ twin. AreAlike twin.value self.now) }
    {
        let twin = match self {
            Held::Zone(single) => Held::Zone(single.again()?),
            Held::Member(member) => Held::Member(member.again()?),
            Held::Files(files) => Held::Files(Arc::try_clone(files)?),
            Held::Rows(rows) => Held::Rows(Arc::try_clone(rows)?),
        };
        Ok(Box::new(alloc, twin)?)
    }
}

/// Returns what a handle of a zone holds.
pub(crate) fn hold_zone(alloc: Global, zone: Zone) -> Result<Box<Held>, AllocError>
    requires { IsNear zone }
    ensures { IfOk result (λ held. content_of held.value ≡ Some zone) }
{
    let zone = Arc::new(alloc, zone)?;
    Ok(Box::new(alloc, Held::Zone(Single { zone }))?)
}

/// Returns what a handle of files holds.
pub fn hold_files(alloc: Global, files: Files) -> Result<Box<Held>, AllocError>
    ensures { IfOk result (λ held. files_of held.value ≡ Some files) }
{
    let files = Arc::new(alloc, files)?;
    Ok(Box::new(alloc, Held::Files(files))?)
}

/// Returns what a handle of the zone of a file holds.
pub fn hold_member(
    alloc: Global,
    files: &Arc<Files>,
    number: usize,
) -> Result<Box<Held>, AllocError>
    requires { number < length files.now.value }
    ensures { IfOk result (λ held. content_of held.value ≡ content_at files.now.value number) }
{
    let files = Arc::try_clone(files)?;
    Ok(Box::new(alloc, Held::Member(Member { files, number }))?)
}

/// Returns what a handle of rows holds.
pub fn hold_rows(alloc: Global, rows: Made) -> Result<Box<Held>, AllocError>
    ensures { IfOk result (λ held. rows_of held.value ≡ Some rows) }
{
    let rows = Arc::new(alloc, rows)?;
    Ok(Box::new(alloc, Held::Rows(rows))?)
}
