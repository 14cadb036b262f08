//! A folder of TZif files that is compared: the zones of its files, and the files that are refused.

use std::alloc::AllocError;
use std::fs::Files;
use std::io::Write;
use std::random::RandomSource;
use zic_explain::shown_word;
use zic_files::{Files as ZoneFiles, Image, TreeFiles, Unfit, ZoneTree};
use zic_host::{UnreadFile, WholeFolder, expect_folder, names_below, random_number};
use zic_io::{Failure, ZoneFolder};
use zic_lines::Name;

/// The first bytes of each TZif file.
const MAGIC: &[u8] = b"TZif";

/// A folder, the names of its files, and those files that rows can be made of.
#[derive(Drop)]
pub(crate) struct Folder<'a> {
    path: &'a String,
    names: Vec<String>,
    pub(crate) zones: TreeFiles,
}

impl<'a> Folder<'a> {
    /// Reads the files of the folder at a path.
    ///
    /// # Errors
    ///
    /// `CannotRead` with the path of a file or folder that is there and can't be read, or `Memory`.
    pub(crate) fn read<R: Files + RandomSource + AllocGlobal>(
        rt: &R,
        path: &'a String,
    ) -> Result<Folder<'a>, Failure> {
        expect_folder(rt, path)?;
        let names = names_below(rt, path)?.files;
        let zones = read_zones(rt, path, &names)?;
        Ok(Folder { path, names, zones })
    }

    /// Reads its files again, but for those of these names.
    ///
    /// # Errors
    ///
    /// As for [`Folder::read`].
    pub(crate) fn read_but<R: Files + RandomSource + AllocGlobal>(
        &self,
        rt: &R,
        left_out: &[String],
    ) -> Result<TreeFiles, Failure> {
        let mut names = Vec::new(rt.alloc());
        for name in &self.names {
            if !left_out.contains(name) {
                names.push(name.clone()?)?;
            }
        }
        read_zones(rt, self.path, &names)
    }

    /// Writes a line `refused PATH: REASON` for each file that would be the zone of its name and is refused:
    /// it begins as a TZif file, or these files of another folder have a zone of its name. Any other is no
    /// zone, such as a table. Returns their names. If the write fails, nothing is said of that.
    ///
    /// # Errors
    ///
    /// `Memory`.
    pub(crate) fn tell_refused<R: Files + AllocGlobal, E: Write>(
        &self,
        rt: &R,
        errors: &mut E,
        other: &ZoneFiles,
    ) -> Result<Vec<String>, Failure> {
        let mut refused = Vec::new(rt.alloc());
        for name in &self.names {
            if let Some(reason) = self.reason(rt, name, other)? {
                let path = format!(in rt.alloc(); "{}/{name}", self.path)?;
                let path = shown_word(rt.alloc(), path.as_str())?;
                let line = format!(in rt.alloc(); "refused {path}: {reason}\n")?;
                let _ = errors.write_all(line.as_bytes());
                refused.push(name.clone()?)?;
            }
        }
        Ok(refused)
    }

    /// Returns why the file of this name is refused, if it is and would be a zone.
    fn reason<R: Files + AllocGlobal>(
        &self,
        rt: &R,
        name: &String,
        other: &ZoneFiles,
    ) -> Result<Option<&'static str>, AllocError> {
        let octets = name.as_bytes();
        if self.zones.files().find(octets).is_some() {
            return Ok(None);
        }
        match Name::parse(rt.alloc(), octets) {
            Some(name) => reason_at(rt, self.path, &name?, other),
            None => Ok(None),
        }
    }
}

/// Reads the files of these names in the folder at a path.
fn read_zones<R: Files + RandomSource + AllocGlobal>(
    rt: &R,
    path: &String,
    names: &[String],
) -> Result<TreeFiles, Failure> {
    let unread = UnreadFile::none();
    let mut folder = WholeFolder::new(rt, path.as_str(), &unread);
    match zic_compare::read_tree(rt.alloc(), random_number(rt), &mut folder, names) {
        Ok(zones) => Ok(zones),
        Err(_) => Err(unread.failure()),
    }
}

/// Returns why the file of a name in the folder at a path is refused, if it is and would be a zone.
fn reason_at<R: Files + AllocGlobal>(
    rt: &R,
    path: &String,
    name: &Name,
    other: &ZoneFiles,
) -> Result<Option<&'static str>, AllocError> {
    let Some(bytes) = ZoneFolder::new(rt, path.as_str()).read(rt.alloc(), name)? else {
        return Ok(None);
    };
    if !bytes.starts_with(MAGIC) && other.find(name.octets()).is_none() {
        return Ok(None);
    }
    match Image::read(rt.alloc(), bytes).err() {
        Some(unfit) => Ok(Some(words(unfit)?)),
        None => Ok(None),
    }
}

/// Returns why no rows can be made of a file: in the words of `show`, where that refuses it.
fn words(unfit: Unfit) -> Result<&'static str, AllocError> {
    match unfit {
        Unfit::Bad(reason) => Ok(reason.name()),
        Unfit::NoFooter => Ok("an empty POSIX TZ string"),
        Unfit::OutsideLimits => Ok("an offset or an abbreviation that no row may have"),
        Unfit::Memory => Err(AllocError),
    }
}
