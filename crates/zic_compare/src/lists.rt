//! Two lists of files, the lines of one of which are made in rounds.

ghost use Rattle.std.specs.Prelude.{◌≡◌, ◌≤◌, ◌<◌, ◌-◌, length, slice_range, IfOk};
ghost use Rattle.zic_compare.specs.Files.{HasInstants};
ghost use Rattle.zic_compare.specs.Lines.{AreLinesOfAll};
ghost use Rattle.zic_compare.specs.code.Rounds.{AreLinesIn, files_of};
ghost use Rattle.zic_compare.specs.declared.lists.TheConstants.{MAX_NAMES};

use crate::files::{lines_of_new, lines_of_old};
use crate::sides::Listed;
use std::alloc::{AllocError, Global};
use std::marker::Model;
use zic_files::Files;

/// The greatest number of names of a round.
pub(crate) const MAX_NAMES: usize = 65_536;

/// The greatest number of bytes that the lines of a round take, as far as this is known before they are
/// made.
const ROUND_BYTES: usize = 75_000_000;

/// The greatest number of bytes that a line takes besides its name: those of its text, and of what it is
/// made of.
const LINE_BYTES: usize = 170;

/// The number of bytes that a TZif file has for a transition.
const TRANSITION_BYTES: usize = 9;

/// A quarter of a year, in seconds: the footers of two files have up to four transitions a year.
const QUARTER: u64 = 7_889_238;

/// The number of transitions that they have in 400 years.
const FOOTERS_LINES: usize = 1_600;

/// One of the two lists.
#[derive(Clone, Copy, Debug)]
pub(crate) enum Side {
    Old,
    New,
}

/// Two lists of files, what is listed of them, and the list whose files have their lines made.
#[derive(Drop)]
pub(crate) struct Lists<'a> {
    pub(crate) how: &'a Listed,
    pub(crate) old: &'a Files,
    pub(crate) new: &'a Files,
    pub(crate) side: Side,
}

impl<'a> Model for Lists<'a> {
    ghost use Rattle.zic_compare.specs.code.Rounds.{FileLists};

    ghost Value = { FileLists };

    ghost view = { λ l. record {
      how = l.how.now;
      old = l.old.now;
      new = l.new.now;
      side = l.side;
    } };
}

impl<'a> Lists<'a> {
    /// Returns the files of the list whose lines are made.
    pub(crate) fn files(&self) -> &'a Files
        ensures { result.now ≡ files_of self.now }
    {
        match self.side {
            Side::Old => self.old,
            Side::New => self.new,
        }
    }

    /// Returns the files of the other list.
    fn others(&self) -> &'a Files {
        match self.side {
            Side::Old => self.new,
            Side::New => self.old,
        }
    }

    /// Returns the lines of the files from one number on up to another.
    pub(crate) fn lines(
        &self,
        alloc: Global,
        first: usize,
        end: usize,
    ) -> Result<Vec<u8>, AllocError>
        requires instants { HasInstants self.now.how }
        requires order { first ≤ end }
        requires within { end ≤ length (files_of self.now) }
        ensures { IfOk result (λ lines. AreLinesOfAll (AreLinesIn self.now)
            (slice_range (files_of self.now) first end) lines.items) }
    {
        match self.side {
            Side::Old => lines_of_old(alloc, self.how, self.old, self.new, first, end),
            Side::New => lines_of_new(alloc, self.how, self.old, self.new, first, end),
        }
    }

    /// Returns the number of the file before which a round ends that begins with this one. The lines of
    /// its files take few enough bytes to be held at once, or it has one file.
    pub(crate) fn round_end(&self, first: usize) -> usize
        requires { first < length (files_of self.now) }
        ensures some { first < result }
        ensures within { result ≤ length (files_of self.now) }
        ensures few { result - first ≤ MAX_NAMES }
    {
        let most = first + (self.files().len() - first).min(MAX_NAMES);
        let mut end = first + 1;
        let mut bytes = self.most_bytes(first);
        while end < most {
            bytes = bytes.saturating_add(self.most_bytes(end));
            if bytes > ROUND_BYTES {
                return end;
            }
            end += 1;
        }
        end
    }

    /// Returns about how many bytes the lines for the name of the file of this number take at most.
    fn most_bytes(&self, file: usize) -> usize
        requires { file < length (files_of self.now) }
    {
        let (own, others) = (self.files(), self.others());
        let name = own.name(file);
        let other = match others.find(name) {
            Some(other) => others.bytes(other).len(),
            None => 0,
        };
        let transitions = own.bytes(file).len().saturating_add(other) / TRANSITION_BYTES;
        let lines = transitions.saturating_add(lines_of_footers(self.how));
        lines.saturating_mul(name.len().saturating_add(LINE_BYTES))
    }
}

/// Returns about how many lines are due to the footers of two files at most.
fn lines_of_footers(how: &Listed) -> usize {
    match how {
        Listed::Spans(how) => (how.bounds.last.abs_diff(how.bounds.first) / QUARTER) as usize,
        Listed::Summaries(_) => FOOTERS_LINES,
    }
}
