//! The states that files show, by number.

ghost use Rattle.std.specs.Prelude.{◌≡◌, ◌<◌, Some, length, slice_get};
ghost use Rattle.zic_zones.specs.States.{HasState};
ghost use Rattle.zic_zones.specs.Zones.{AnswersAt};

use crate::ready::Ready;
use crate::slot::UNKNOWN;
use std::marker::Model;
use zic_files::Files;
use zic_row_text::StateText;
use zic_tzif::Answer;

/// The states that files show, each with a number that it has for all files, and its text. Clauses see
/// the files, and the states by number.
#[derive(Drop)]
pub struct RowStates<'a> {
    pub(crate) files: &'a Files,
    pub(crate) ready: &'a Ready,
}

impl<'a> Model for RowStates<'a> {
    ghost use Rattle.zic_zones.specs.States.{NumberedStates};
    ghost use Rattle.zic_zones.specs.code.Ready.{AreReady};

    ghost Value = { NumberedStates };

    ghost view = { λ z. record { files = z.files.now; states = z.ready.now.texts } };

    ghost invariant = { λ z. AreReady z.files.now z.ready.now };
}

impl<'a> RowStates<'a> {
    /// Returns the number of the state that a file shows at an instant; [`UNKNOWN`] if it isn't known.
    #[inline(always)]
    pub fn number(&self, file: usize, instant: i64) -> u16
        requires { file < length self.now.files }
        ensures { HasState self.now.states result (AnswersAt self.now.files file instant) }
    {
        let number = self.ready.quick_state(file, instant);
        if number != UNKNOWN {
            return number;
        }
        self.number_by_span(file, instant)
    }

    /// Returns the number of the state that a file shows at an instant, by a search.
    #[inline(never)]
    fn number_by_span(&self, file: usize, instant: i64) -> u16
        requires { file < length self.now.files }
        ensures { HasState self.now.states result (AnswersAt self.now.files file instant) }
    {
        let span = self.files.zone(file).span(instant);
        match span.answer {
            Answer::Known(_) => self.ready.state(file, span.number),
            Answer::Unspecified => UNKNOWN,
        }
    }

    /// Returns the text of a state, by its number.
    #[inline(always)]
    pub fn text(&self, number: u16) -> &'a StateText
        requires { number < length self.now.states }
        ensures { slice_get self.now.states number ≡ Some result.now }
    {
        self.ready.state_text(number)
    }
}
