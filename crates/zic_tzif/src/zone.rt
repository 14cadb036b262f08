//! Files that were read, and what they answer.

ghost use Rattle.std.specs.Prelude.{◌≡◌, ◌<◌, ◌≤◌, length, map, All, IfOk};
ghost use Rattle.zic_tzif.specs.Content.{IsLocalType};
ghost use Rattle.zic_tzif.specs.code.StoredContent.{name_length};

use crate::content::LocalType;
use crate::designation::designation;
use crate::stored::Stored;
use crate::times::Times;
use std::alloc::{AllocError, Global};
use std::marker::Model;
use zic_base::State;
use zic_posix::{Footer, PreparedFooter};

mod last_transition;
mod span;
mod states;

pub use span::AnswerSpan;

/// A TZif file that was read.
#[derive(Debug, Drop)]
pub struct Zone {
    version: u8,
    /// The times of the transitions.
    times: Times,
    /// The numbers of the types that begin at the transitions.
    numbers: Vec<u8>,
    types: Vec<LocalType>,
    /// The lengths of the types' designations.
    lengths: Vec<usize>,
    names: Vec<u8>,
    text: Vec<u8>,
    footer: Option<PreparedFooter>,
}

impl Model for Zone {
    ghost use Rattle.zic_tzif.specs.Content.{Content};

    ghost Value = { Content };

    ghost use Rattle.zic_tzif.specs.Block.{changes_at};
    ghost use Rattle.zic_tzif.specs.code.StoredContent.{IsStored};

    ghost view = { λ z. record {
      version = z.version;
      changes = changes_at z.times.times.items z.numbers.items;
      types = z.types.items;
      names = z.names.items;
      text = z.text.items;
    } };

    ghost invariant = { λ z. IsStored z.times.times.items z.numbers.items z.lengths.items (record {
      version = z.version;
      changes = changes_at z.times.times.items z.numbers.items;
      types = z.types.items;
      names = z.names.items;
      text = z.text.items;
    }) z.footer };
}

/// The answer of a file at an instant.
#[derive(Clone, Copy, Debug, PartialEq, Eq)]
pub enum Answer<'a> {
    /// Local time is this state.
    Known(State<'a>),
    /// The file leaves local time open from its last transition on.
    Unspecified,
}

impl Zone {
    ghost use Rattle.zic_base.specs.State.{shown};
    ghost use Rattle.zic_tzif.specs.Answer.{Answers, answered};
    ghost use Rattle.zic_tzif.specs.code.After.{IsNumberAfter, IsStateAfter};
    ghost use Rattle.zic_tzif.specs.code.StoredContent.{IsSoundContent};
    ghost use Rattle.zic_tzif.specs.code.Stored.{stored_content};

    /// Returns the zone of these parts, with the footer of their text.
    pub(crate) fn new(
        alloc: Global,
        stored: Stored,
        footer: Option<Footer>,
    ) -> Result<Zone, AllocError>
        requires as_many { length stored.times.times.items ≡ length stored.numbers.items }
        requires sound_content { IsSoundContent (stored_content stored) footer }
        ensures { IfOk result (λ zone. zone ≡ stored_content stored) }
    {
        let lengths = name_lengths(alloc, &stored.names, &stored.types)?;
        Ok(Zone {
            version: stored.version,
            times: stored.times,
            numbers: stored.numbers,
            types: stored.types,
            lengths,
            names: stored.names,
            text: stored.text,
            footer: footer.map(PreparedFooter::new),
        })
    }

    /// Returns the footer, without its newlines.
    pub fn footer_text(&self) -> &[u8]
        ensures { result.now ≡ self.now.text }
    {
        &self.text
    }

    /// Returns the file's version, 2 or 3.
    pub fn version(&self) -> u8
        ensures { result ≡ self.now.version }
    {
        self.version
    }

    /// Returns local time at an instant, in seconds from 1970-01-01T00:00:00 UT, without leap
    /// seconds. RFC 9636, 3.2 and 3.3.
    ///
    /// Before the first transition it is that of the first type, then that of the last
    /// transition's type, and from the last transition on the footer's. It is left open from the
    /// last transition on where there is no footer; with neither it is that of the first type.
    /// Takes a binary search.
    pub fn at(&self, t: i64) -> Answer<'_>
        ensures { Answers self.now t (answered result) }
    {
        let count = self.times.count_not_after(t);
        if count < self.numbers.len() {
            return Answer::Known(self.state_after(count));
        }
        match &self.footer {
            Some(footer) => Answer::Known(footer.state(t)),
            None if count == 0 => Answer::Known(self.state_after(0)),
            None => Answer::Unspecified,
        }
    }

    /// Returns local time of the type in force after `count` transitions.
    fn state_after(&self, count: usize) -> State<'_>
        requires { count ≤ length self.now.changes }
        ensures { IsStateAfter self.now count (shown result) }
    {
        self.state_of(self.number_after(count))
    }

    /// Returns the number of the type in force after `count` transitions.
    fn number_after(&self, count: usize) -> usize
        requires { count ≤ length self.now.changes }
        ensures number { IsNumberAfter self.now.changes count result }
        ensures inside { result < length self.now.types }
    {
        let numbers = self.numbers.as_slice();
        if count == 0 {
            return 0;
        }
        usize::from(numbers[count - 1])
    }
}

/// Returns the lengths of the types' designations.
fn name_lengths(alloc: Global, names: &[u8], types: &[LocalType]) -> Result<Vec<usize>, AllocError>
    requires { All (IsLocalType names.now) types.now }
    ensures { IfOk result (λ v. v.items ≡ map (name_length names.now) types.now) }
{
    let mut lengths = Vec::with_capacity(alloc, types.len())?;
    for local_type in types {
        lengths.push(designation(names, local_type.place).len())?;
    }
    Ok(lengths)
}
