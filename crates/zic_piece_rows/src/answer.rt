//! What a release answers a record.

ghost use Rattle.std.specs.Prelude.{◌≡◌, ◌<◌, IsSome, IsTrue, Some, length, slice_get};
ghost use Rattle.zic_piece_rows.specs.code.Answer.{AreSame, AreSameAnswers, fault_of, shown_in};
ghost use Rattle.zic_piece_rows.specs.code.Row.{input_of};

use crate::start::{Input, input_of};
use zic_base::RowKind;
use zic_layouts::Layout;
use zic_row_text::{RowTime, StateText};
use zic_zones::RowStates;

/// The text of a state: one that the tables have, or one that was made.
#[derive(Drop)]
pub(crate) enum AnswerState<'s> {
    Kept(&'s StateText),
    Made(StateText),
}

impl<'s> AnswerState<'s> {
    /// Returns the text.
    #[inline(always)]
    pub(crate) fn text(&self) -> &StateText
        ensures { result.now ≡ shown_in self.now }
    {
        match self {
            AnswerState::Kept(text) => text,
            AnswerState::Made(text) => text,
        }
    }
}

/// What a release answers a record: the number of its zone's file, what the row has of the time of the
/// record, the time of the instant, and the state that the file shows then.
#[derive(Drop)]
pub(crate) struct Answer<'s> {
    pub(crate) file: usize,
    pub(crate) input: Input,
    pub(crate) time: RowTime,
    pub(crate) state: AnswerState<'s>,
}

/// What the tables have of a record: the number of its zone's file, if there is one, the time of the
/// instant, and the number of the state that the file shows then.
/// [`UNKNOWN`](zic_zones::UNKNOWN) says that they don't have the last two.
#[derive(Clone, Copy, Drop)]
pub(crate) struct TableAnswer {
    pub(crate) file: Option<usize>,
    pub(crate) time: RowTime,
    pub(crate) state: u16,
}

impl Answer<'_> {
    /// Returns `true` only where another answer to the record has the same instant and the same state.
    #[inline(always)]
    fn is_same(&self, other: &Answer<'_>) -> bool
        ensures { IsTrue result → AreSameAnswers self.now other.now }
    {
        let is_time_same = self.time.second == other.time.second
            && self.time.fraction == other.time.fraction;
        is_time_same && self.state.text().is_same(other.state.text())
    }
}

/// Returns `true` only where two releases give a record the same answer.
#[inline(always)]
pub(crate) fn are_same(
    answer: &Result<Answer<'_>, Option<RowKind>>,
    other: &Result<Answer<'_>, Option<RowKind>>,
) -> bool
    ensures { IsTrue result → AreSame answer.now other.now }
{
    match answer {
        Ok(answer) => match other {
            Ok(other) => answer.is_same(other),
            Err(_) => false,
        },
        Err(_) => other.is_err(),
    }
}

/// Returns the fault of a row that has no answer, if it has one.
#[inline(always)]
pub(crate) fn fault_of(answer: &Result<Answer<'_>, Option<RowKind>>) -> Option<RowKind>
    ensures { result ≡ fault_of answer.now }
{
    match answer {
        Ok(_) => None,
        Err(fault) => *fault,
    }
}

impl TableAnswer {
    /// Returns the answer to a record whose field has this time.
    #[inline(always)]
    pub(crate) fn answer<'s>(
        self,
        states: &RowStates<'s>,
        layout: &Layout,
        time: RowTime,
    ) -> Answer<'s>
        requires file { IsSome self.file }
        requires state { self.state < length states.now.states }
        ensures file { self.file ≡ Some result.file }
        ensures input { result.input ≡ input_of layout.now.from time }
        ensures time { result.time ≡ self.time }
        ensures state { slice_get states.now.states self.state ≡ Some (shown_in result.state) }
    {
        let Some(file) = self.file else {
            unreachable!()
        };
        Answer {
            file,
            input: input_of(layout, time),
            time: self.time,
            state: AnswerState::Kept(states.text(self.state)),
        }
    }
}
