//! Files that are ready for rows.

ghost use Rattle.std.specs.Prelude.{◌≡◌, ◌<◌, ◌≤◌, ℤ, length, IfSome, Ok, slice_get, slice_range};
ghost use Rattle.zic_files.specs.Sound.{AreSoundFiles};
ghost use Rattle.zic_local.specs.LocalTime.{IsInRange};
ghost use Rattle.zic_layouts.specs.declared.disambiguation.Disambiguation.{Disambiguation};
ghost use Rattle.zic_posix.specs.Instants.{Includes};
ghost use Rattle.zic_row_text.specs.Row.{IsRowState};
ghost use Rattle.zic_zones.specs.Resolved.{resolved};
ghost use Rattle.zic_zones.specs.Zones.{AnswersAt, IsShownAt, ShowsThroughout, number_of};

use crate::laws::local_times_resolve;
use crate::ready::Ready;
use crate::row_states::RowStates;
use crate::slot::UNKNOWN;
use std::marker::Model;
use zic_files::Files;
use zic_layouts::Disambiguation;
use zic_local::laws::{choices_mean_one, instants_are_near};
use zic_local::{Unresolved, instant_by};
use zic_row_text::StateText;
use zic_tzif::{Answer, Instants};

/// Some instants, and the number of the state that a zone shows at each of them.
#[derive(Clone, Copy, Drop)]
pub struct RowSpan {
    pub instants: Instants,
    pub number: usize,
}

/// The only instant of a local time, and the text of the state that a file shows then.
#[derive(Clone, Copy, Drop)]
pub struct OnlyInstant<'a> {
    /// In seconds from 1970-01-01T00:00:00 UT.
    pub instant: i64,
    pub text: &'a StateText,
}

/// The files that rows are made by, with the texts of their states. Clauses see the files.
#[derive(Drop)]
pub struct RowZones<'a> {
    pub(crate) files: &'a Files,
    pub(crate) ready: &'a Ready,
}

impl<'a> Model for RowZones<'a> {
    ghost use Rattle.std.specs.Prelude.{List};
    ghost use Rattle.zic_files.specs.File.{File};
    ghost use Rattle.zic_zones.specs.code.Ready.{AreReady};

    ghost Value = { List File };

    ghost view = { λ z. z.files.now };

    ghost invariant = { λ z. AreReady z.files.now z.ready.now };
}

impl<'a> RowZones<'a> {
    /// States that the files are sound.
    #[inline(always)]
    pub fn are_sound(&self)
        ensures { AreSoundFiles self.now }
    {
        // `len` states it.
        prove!(self.files.len() <= usize::MAX);
    }

    /// Returns the number of files.
    pub fn len(&self) -> usize
        ensures { result ≡ length self.now }
    {
        self.files.len()
    }

    /// Returns the number of the file of this name, or `None` where no file has it.
    #[inline(always)]
    pub fn find(&self, name: &[u8]) -> Option<usize>
        ensures { result ≡ number_of self.now name.now }
    {
        self.are_sound();
        self.files.find(name)
    }

    /// Returns the number of the file that a part of some bytes names, or `None` where no file has
    /// that name. It is found sooner if it is the likely number, as that of the row before is.
    #[inline(always)]
    pub fn find_at(&self, bytes: &[u8], start: usize, end: usize, likely: usize) -> Option<usize>
        requires order { start ≤ end }
        requires within { end ≤ length bytes.now }
        ensures { result ≡ number_of self.now (slice_range bytes.now start end) }
    {
        self.are_sound();
        match self.ready.quick_number(bytes, start, end, likely) {
            Some(number) => Some(number),
            None => self.find(&bytes[start..end]),
        }
    }

    /// Returns the name of a file, by its number.
    #[inline(always)]
    pub fn name(&self, file: usize) -> &'a [u8]
        requires { file < length self.now }
        ensures { IfSome (slice_get self.now file) (λ f. result.now ≡ f.name) }
    {
        self.files.name(file)
    }

    /// Returns the number of the state that a file shows at an instant, and the instants round it at
    /// which it shows the same.
    pub fn span(&self, file: usize, instant: i64) -> RowSpan
        requires { file < length self.now }
        ensures requested { Includes result.instants instant }
        ensures shows { ShowsThroughout self.now file result.instants result.number }
    {
        let span = self.files.zone(file).span(instant);
        match span.answer {
            Answer::Known(_) => RowSpan {
                instants: span.instants,
                number: span.number,
            },
            Answer::Unspecified => unreachable!(),
        }
    }

    /// Returns the instant that is meant by a local time of a file's clocks, both in seconds, or why
    /// none is, as [`zic_local::instant`] does.
    pub fn instant(
        &self,
        file: usize,
        local: i64,
        disambiguation: Disambiguation,
    ) -> Result<i64, Unresolved>
        requires within { file < length self.now }
        requires range { IsInRange local }
        ensures { IfSome (slice_get self.now file)
            (λ f. result ≡ resolved f.image.octets local disambiguation) }
    {
        self.are_sound();
        instants_are_near();
        choices_mean_one();
        local_times_resolve();
        let index = self.ready.local_index(file);
        instant_by(self.files.zone(file), index, local, disambiguation)
    }

    /// Returns the only instant of a local time of a file's clocks, and the state that the file shows
    /// then, where a table has it that it shows one state at all instants near. `None` doesn't mean that the
    /// local time has none or several.
    #[inline(always)]
    pub fn only_instant(&self, file: usize, local: i64) -> Option<OnlyInstant<'a>>
        requires within { file < length self.now }
        requires range { IsInRange local }
        ensures instant { IfSome result (λ only. (choice : Disambiguation)
            → IfSome (slice_get self.now file)
            (λ f. resolved f.image.octets local choice ≡ Ok only.instant)) }
        ensures state { IfSome result
            (λ only. AnswersAt self.now file only.instant only.text.now) }
    {
        self.are_sound();
        instants_are_near();
        choices_mean_one();
        local_times_resolve();
        let number = self.ready.state_near(file, local);
        if number == UNKNOWN {
            return None;
        }
        let text = self.ready.state_text(number);
        let instant = local - i64::from(text.offset());
        Some(OnlyInstant { instant, text })
    }

    /// Returns the states that the files show, by number.
    #[inline(always)]
    pub fn states(&self) -> RowStates<'a>
        ensures { result.files ≡ self.now }
    {
        RowStates {
            files: self.files,
            ready: self.ready,
        }
    }

    /// Returns the text of a state of a file, by the number of the state, if the tables
    /// have one.
    #[inline(always)]
    pub fn text(&self, file: usize, number: usize) -> Option<&'a StateText>
        requires { file < length self.now }
        ensures { IfSome result (λ text. (second : ℤ) → IsShownAt self.now file second number
            → AnswersAt self.now file second text.now) }
    {
        self.ready.text(file, number)
    }

    /// Makes the text of a state of a file, by the number of the state. A row may have each state that a
    /// file shows at some instant.
    pub fn make_text(&self, file: usize, number: usize) -> StateText
        requires within { file < length self.now }
        requires shown { (second : ℤ) × IsShownAt self.now file second number }
        ensures { (second : ℤ) → IsShownAt self.now file second number
            → AnswersAt self.now file second result }
    {
        self.are_sound();
        StateText::new(self.files.zone(file).state(number))
    }
}
