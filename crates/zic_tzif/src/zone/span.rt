//! A file's answer at an instant, and the instants round it at which it is the same.

use super::{Answer, Zone};
use zic_posix::Instants;

/// The answer of a file at some instants, at all of them the same.
#[derive(Clone, Copy, Debug, PartialEq, Eq)]
pub struct AnswerSpan<'a> {
    pub answer: Answer<'a>,
    /// The number of the answer's state, as `Zone::state` has it; 0 where local time is left open.
    pub number: usize,
    pub instants: Instants,
}

impl Zone {
    ghost use Rattle.zic_posix.specs.Instants.{Includes, AreBetween};
    ghost use Rattle.zic_tzif.specs.Answer.{AnswersThroughout, MayChangeAt, answered};
    ghost use Rattle.zic_tzif.specs.States.{IsAnswerOfNumber};

    /// Returns local time at an instant, as `at` has it, and the instants round it at which it is
    /// the same: from the last transition that isn't after it to just before the next. From the
    /// last transition of all on they end at edges of the footer too; where there is none, they
    /// have no end. Takes a binary search.
    pub fn span(&self, t: i64) -> AnswerSpan<'_>
        ensures requested { Includes result.instants t }
        ensures answers { AnswersThroughout self.now result.instants (answered result.answer) }
        ensures changes { AreBetween (MayChangeAt self.now) result.instants }
        ensures number { IsAnswerOfNumber self.now result.number (answered result.answer) }
    {
        let gap = self.times.gap_at(t);
        let instants = gap.instants;
        if gap.count < self.numbers.len() {
            let number = self.number_after(gap.count);
            return AnswerSpan {
                answer: Answer::Known(self.state_of(number)),
                number,
                instants,
            };
        }
        match &self.footer {
            Some(footer) => {
                let span = footer.span(t);
                let first = instants.first.max(span.instants.first);
                let last = span.instants.last;
                let standard = self.types.len();
                let number = if span.state.daylight {
                    standard + 1
                } else {
                    standard
                };
                AnswerSpan {
                    answer: Answer::Known(span.state),
                    number,
                    instants: Instants { first, last },
                }
            }
            None if gap.count == 0 => AnswerSpan {
                answer: Answer::Known(self.state_of(0)),
                number: 0,
                instants,
            },
            None => AnswerSpan {
                answer: Answer::Unspecified,
                number: 0,
                instants,
            },
        }
    }
}
