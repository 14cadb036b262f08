//! What is made ready of files before rows are made.

ghost use Rattle.std.specs.Prelude.{◌≡◌, ◌<◌, ◌≤◌, List, [], IfOk, IfSome, Some, length, slice_get, slice_range};
ghost use Rattle.zic_files.specs.File.{File};
ghost use Rattle.zic_local.specs.Index.{IsIndexOf};
ghost use Rattle.zic_zones.specs.States.{HasState};
ghost use Rattle.zic_zones.specs.Zones.{AnswersAt};
ghost use Rattle.zic_zones.specs.code.Near.{AnswersNear};
ghost use Rattle.zic_zones.specs.code.Ready.{AreReady, HasIndex, IsFileOf, IsReadyZone, IsTextOf};
ghost use Rattle.zic_zones.specs.code.Numbered.{Keeps};

use crate::name_keys::NameKeys;
use crate::numbered::Numbered;
use crate::slot::{ERAS, UNKNOWN, number_near, place_of};
use crate::tables::{Expected, Tables};
use crate::texts::TEXT_BITS;
use std::alloc::{AllocError, Global};
use zic_files::Files;
use zic_local::LocalIndex;
use zic_row_text::StateText;
use zic_tzif::Zone;

/// The least number of bytes of a file in which changes may come close together: some 450 changes.
const LONG_FILE: usize = 4_096;

/// What is made ready of a zone.
#[derive(Drop)]
struct ReadyZone {
    /// The numbers of the states' texts.
    numbers: Vec<u16>,
    /// Where the table of each era begins, where there is one.
    tables: [Option<u32>; ERAS],
    /// The number of the index by which local times are found, where a walk would be slow.
    index: Option<usize>,
}

/// The texts of the states that files show, made once for all rows, and tables of the states by
/// instants and of the files by name.
#[derive(Drop)]
pub(crate) struct Ready {
    names: NameKeys,
    texts: Numbered<StateText>,
    tables: Tables,
    /// Indexes of local times. Zones that share an image share its index.
    indexes: Vec<LocalIndex>,
    /// By the number of the file.
    zones: Vec<ReadyZone>,
}

impl Ready {
    /// Returns what is ready of no file.
    pub(crate) fn new(alloc: Global, expected: Expected) -> Ready
        ensures { (files : List File) → AreReady files result }
    {
        Ready {
            names: NameKeys::new(alloc),
            texts: Numbered::new(alloc, TEXT_BITS),
            tables: Tables::new(alloc, expected),
            indexes: Vec::new(alloc),
            zones: Vec::new(alloc),
        }
    }

    /// Makes ready the files after those that are ready.
    pub(crate) fn extend(&mut self, alloc: Global, files: &Files) -> Result<(), AllocError>
        requires { AreReady files.now self.old }
        ensures { AreReady files.now self.new }
    {
        self.names.extend(alloc, files)?;
        for file in self.zones.len()..files.len() {
            let index = self.index_of(alloc, files, file)?;
            let zone = self.zone(alloc, files.zone(file), index)?;
            self.zones.push(zone)?;
        }
        Ok(())
    }

    /// Makes a zone ready. `index` is the number of its index, if it has one.
    fn zone(
        &mut self,
        alloc: Global,
        zone: &Zone,
        index: Option<usize>,
    ) -> Result<ReadyZone, AllocError>
        requires { IfSome index (HasIndex zone.now self.old.indexes.items) }
        ensures names { self.new.names ≡ self.old.names }
        ensures zones { self.new.zones ≡ self.old.zones }
        ensures indexes { self.new.indexes ≡ self.old.indexes }
        ensures texts { Keeps self.old.texts self.new.texts }
        ensures tables { Keeps self.old.tables self.new.tables }
        ensures ready { IfOk result
            (IsReadyZone zone.now self.new.texts self.new.tables self.new.indexes.items) }
    {
        let numbers = self.texts.add_zone(alloc, zone)?;
        let tables = self.tables.add_zone(alloc, zone, &numbers)?;
        Ok(ReadyZone {
            numbers,
            tables,
            index,
        })
    }

    /// Returns the number of the index by which local times of a file are found, if it gets one. A short
    /// file has too few changes for a walk over them to be slow.
    fn index_of(
        &mut self,
        alloc: Global,
        files: &Files,
        file: usize,
    ) -> Result<Option<usize>, AllocError>
        requires within { file < length files.now }
        requires ready { AreReady files.now self.old }
        ensures names { self.new.names ≡ self.old.names }
        ensures zones { self.new.zones ≡ self.old.zones }
        ensures texts { self.new.texts ≡ self.old.texts }
        ensures tables { self.new.tables ≡ self.old.tables }
        ensures indexes { Keeps self.old.indexes.items self.new.indexes.items }
        ensures index { IfOk result (λ made. IfSome made (λ number.
            IfSome (slice_get files.now file)
            (λ f. HasIndex f.image.content self.new.indexes.items number))) }
    {
        if files.bytes(file).len() < LONG_FILE {
            return Ok(None);
        }
        if let Some(number) = self.shared_index(files, file) {
            return Ok(Some(number));
        }
        let Some(index) = LocalIndex::for_zone(alloc, files.zone(file))? else {
            return Ok(None);
        };
        let number = self.indexes.len();
        self.indexes.push(index)?;
        Ok(Some(number))
    }

    /// Returns the number of the index of a file that is ready and shares the image of another, if one
    /// has an index.
    fn shared_index(&self, files: &Files, file: usize) -> Option<usize>
        requires within { file < length files.now }
        requires ready { AreReady files.now self.now }
        ensures { IfSome result (λ number. IfSome (slice_get files.now file)
            (λ f. HasIndex f.image.content self.now.indexes.items number)) }
    {
        for other in 0..self.zones.len() {
            if let Some(number) = self.zones[other].index {
                if files.share_image(other, file) {
                    return Some(number);
                }
            }
        }
        None
    }

    /// Returns the number of the file that a part of some bytes names, if a key finds it. The likely one is
    /// tried first.
    #[inline(always)]
    pub(crate) fn quick_number(
        &self,
        bytes: &[u8],
        start: usize,
        end: usize,
        likely: usize,
    ) -> Option<usize>
        requires order { start ≤ end }
        requires within { end ≤ length bytes.now }
        ensures { (files : List File) → AreReady files self.now
            → IfSome result (IsFileOf files (slice_range bytes.now start end)) }
    {
        self.names.quick(bytes, start, end, likely)
    }

    /// Returns the index by which local times of a file are found, if it has one.
    pub(crate) fn local_index(&self, file: usize) -> Option<&LocalIndex>
        ensures { (files : List File) → AreReady files self.now
            → IfSome (slice_get files file) (λ f. IfSome result (λ index. IsIndexOf f.image.content index.now)) }
    {
        let zone = self.zones.get(file)?;
        let number = zone.index?;
        self.indexes.get(number)
    }

    /// Returns the number of the text of a state of a file, by the number of the state, where one was
    /// made.
    #[inline(always)]
    fn state_in(&self, file: usize, number: usize) -> Option<u16>
        ensures { (files : List File) → AreReady files self.now
            → IfSome result (λ n. HasState self.now.texts n (IsTextOf files file number)) }
    {
        let zone = self.zones.get(file)?;
        let text = zone.numbers.get(number)?;
        Some(*text)
    }

    /// Returns the number of the text of the state that a file shows at an instant, where a table
    /// has it.
    #[inline(always)]
    fn state_by_table(&self, file: usize, instant: i64) -> Option<u16>
        ensures { (files : List File) → AreReady files self.now
            → IfSome result (λ n. HasState self.now.texts n (AnswersAt files file instant)) }
    {
        let place = place_of(instant)?;
        let zone = self.zones.get(file)?;
        let start = zone.tables[place.era]?;
        let slot = self.tables.slot(start, place.slot)?;
        Some(slot.number_at(place.second))
    }

    /// Returns the number of the text of the state that a file shows at each instant that a local time
    /// may have, where a table has it that it is one.
    #[inline(always)]
    fn state_near_by_table(&self, file: usize, local: i64) -> Option<u16>
        ensures { (files : List File) → AreReady files self.now
            → IfSome result (λ n. HasState self.now.texts n (AnswersNear files file local)) }
    {
        let place = place_of(local)?;
        let zone = self.zones.get(file)?;
        let start = zone.tables[place.era]?;
        let slot = self.tables.slot(start, place.slot)?;
        number_near(slot, place.second)
    }

    /// Returns the number of the text of a state of a file, by the number of the state. `UNKNOWN` says
    /// nothing.
    #[inline(always)]
    pub(crate) fn state(&self, file: usize, number: usize) -> u16
        ensures { (files : List File) → AreReady files self.now
            → HasState self.now.texts result (IsTextOf files file number) }
    {
        self.state_in(file, number).unwrap_or(UNKNOWN)
    }

    /// Returns the number of the text of the state that a file shows at an instant. `UNKNOWN` says
    /// nothing.
    #[inline(always)]
    pub(crate) fn quick_state(&self, file: usize, instant: i64) -> u16
        ensures { (files : List File) → AreReady files self.now
            → HasState self.now.texts result (AnswersAt files file instant) }
    {
        self.state_by_table(file, instant).unwrap_or(UNKNOWN)
    }

    /// Returns the number of the text of the state that a file shows at each instant that a local time
    /// may have; `UNKNOWN` if no table has it.
    #[inline(always)]
    pub(crate) fn state_near(&self, file: usize, local: i64) -> u16
        ensures { (files : List File) → AreReady files self.now
            → HasState self.now.texts result (AnswersNear files file local) }
    {
        self.state_near_by_table(file, local).unwrap_or(UNKNOWN)
    }

    /// Returns the text of a state, by its number.
    #[inline(always)]
    pub(crate) fn state_text(&self, number: u16) -> &StateText
        requires { number < length self.now.texts }
        ensures { slice_get self.now.texts number ≡ Some result.now }
    {
        self.texts.value(number)
    }

    /// Returns the text of a state of a file, by their numbers, where one was made.
    #[inline(always)]
    pub(crate) fn text(&self, file: usize, number: usize) -> Option<&StateText>
        ensures { (files : List File) → AreReady files self.now
            → IfSome result (λ text. IsTextOf files file number text.now) }
    {
        self.texts.get(self.state(file, number))
    }
}
