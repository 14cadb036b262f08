//! Two lists of files that are compared: what is compared and listed of them, and why a text isn't
//! written whole.

ghost use Rattle.std.specs.Prelude.{◌≡◌, ◌↔◌, IsTrue, map, string_bytes, IfOk};
ghost use Rattle.zic_compare.specs.Answers.{seen};
ghost use Rattle.zic_tzif.specs.Answer.{answered};
ghost use Rattle.zic_compare.specs.Reading.{IsReadAt};

use std::alloc::{AllocError, Global};
use zic_base::State;
use zic_files::{Files, TreeFiles, ZoneTree};
use zic_layouts::Compared;
use zic_tzif::{Answer, Instants};

/// The files that are compared, by their names: the old ones, and the new ones.
#[derive(Clone, Copy, Debug)]
pub struct Sides<'a> {
    pub old: &'a Files,
    pub new: &'a Files,
    /// The names of the files that aren't among them, since they are refused.
    pub refused: Refused<'a>,
}

/// The names of the files that are refused on each side.
#[derive(Clone, Copy, Debug)]
pub struct Refused<'a> {
    pub old: &'a [String],
    pub new: &'a [String],
}

/// How instants are written.
#[derive(Clone, Copy, Debug, PartialEq, Eq)]
pub enum Style {
    /// As a count of seconds from 1970-01-01T00:00:00 UT.
    Count,
    /// As date and time of day in UT, `2026-03-29T01:00:00Z`, within the years 1 to 9999. Other
    /// instants are counts.
    Iso,
}

/// Which names have lines of their own.
#[derive(Clone, Copy, Debug, PartialEq, Eq)]
pub enum Grouping {
    /// Each name.
    Apart,
    /// Names whose files have the same bytes in both releases, as a zone and its links, or in the
    /// one that has them, share the lines of the first of them. These begin with all of the names,
    /// with a space between two.
    Together,
}

/// What is listed of each name.
#[derive(Clone, Copy, Debug, PartialEq, Eq)]
pub enum Listed {
    /// Each longest span of instants at which each of its two files gives one answer, and the two
    /// differ.
    Spans(Comparison),
    /// From when on its two files differ, and from when on they agree for ever.
    Summaries(Survey),
}

/// What is compared for summaries, and since when.
#[derive(Clone, Copy, Debug, PartialEq, Eq)]
pub struct Survey {
    pub compared: Compared,
    pub style: Style,
    pub grouping: Grouping,
    /// The first instant that is looked at.
    pub since: i64,
    /// The instant up to which an end of differences is past.
    pub present: i64,
}

/// What is compared, and at which instants.
#[derive(Clone, Copy, Debug, PartialEq, Eq)]
pub struct Comparison {
    pub compared: Compared,
    pub style: Style,
    pub grouping: Grouping,
    pub bounds: Instants,
}

/// Returns an answer as far as it is compared.
pub(crate) fn seen<'a>(compared: Compared, answer: Answer<'a>) -> Answer<'a>
    ensures { answered result ≡ seen compared (answered answer.entry) }
{
    match answer {
        Answer::Known(state) => Answer::Known(State {
            offset: state.offset,
            daylight: compared.daylight && state.daylight,
            name: if compared.abbreviation {
                state.name
            } else {
                b""
            },
        }),
        Answer::Unspecified => Answer::Unspecified,
    }
}

/// Returns whether two answers are the same.
pub(crate) fn are_same(one: &Answer<'_>, other: &Answer<'_>) -> bool
    ensures { IsTrue result ↔ (answered one.now ≡ answered other.now) }
{
    match (one, other) {
        (Answer::Known(one), Answer::Known(other)) => {
            one.offset == other.offset && one.daylight == other.daylight && one.name == other.name
        }
        (Answer::Unspecified, Answer::Unspecified) => true,
        _ => false,
    }
}

/// Why a text isn't written whole.
#[derive(Clone, Copy, Debug, PartialEq, Eq)]
pub enum DiffStop {
    /// Memory ran out.
    Memory,
    /// A write or a flush failed. The writer counted the failure.
    WriteFailed,
}

/// Asks a tree for each of these names that a zone may have, once, and returns the files that rows can
/// be made of. They are looked up by this key, as [`TreeFiles::new`] says.
pub fn read_tree<Z: ZoneTree>(
    alloc: Global,
    key: u64,
    tree: &mut Z,
    names: &[String],
) -> Result<TreeFiles, AllocError>
    ensures { IfOk result (λ files. IsReadAt (map string_bytes names.now)
        (Z.replied tree.old) (Z.replied tree.new) files) }
{
    let mut files = TreeFiles::new(alloc, key);
    for i in 0..names.len() {
        files.learn(alloc, tree, names[i].as_bytes())?;
    }
    Ok(files)
}
