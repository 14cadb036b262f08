//! The faults of rows, where a run goes on after them.

ghost use Rattle.std.specs.Prelude.{◌≡◌, IfSome};

use crate::fault_line::{FaultFields, push_fault, push_header, push_header_at_first, push_record};
use crate::list_output::ListOutput;
use crate::zone_tallies::ZoneTallies;
use std::alloc::Global;
use std::io::Write;
use std::marker::Model;
use std::mem;
use zic_base::RowFault;
use zic_layouts::{FaultyRow, Noted, RowLog, ZoneTally};

/// Takes note of rows with a fault: counts them, keeps the first fault, and writes each into two files,
/// where there are such. Into the one goes a line with the number of the row, the name of the fault
/// and the requested fields, with commas between them, and into the other the record with its own
/// line end. Before the first record stands the header, so a file without records has none, unless
/// memory to keep the header was refused. The numbers of rows of zones are kept beside that.
#[derive(Drop)]
pub struct FaultList<W: Write> {
    alloc: Global,
    fields: FaultFields,
    /// The header that is written before the first record; empty if there is none. `None` where memory
    /// to keep it was refused, or it came after records.
    header: Option<Vec<u8>>,
    first: Option<RowFault>,
    count: u64,
    /// Whether a row was noted since the files were flushed.
    unflushed: bool,
    faults: ListOutput<W>,
    rejects: ListOutput<W>,
    /// What was noted, and what the file of faults held before.
    noted: Noted,
    /// What the file of records held before these and the header.
    held: Noted,
    /// The numbers of rows of zones. Clauses don't see them.
    tallies: ZoneTallies,
}

impl<W: Write> Model for FaultList<W> {
    ghost use Rattle.zic_io.specs.Faults.{FaultNotes, IsFaultLine};
    ghost use Rattle.zic_io.specs.code.FaultList.{kept, list_of, notes_of, AreFieldsOf, IsFileFor, IsFileOfRecords};

    ghost Value = { FaultNotes W };

    ghost view = { λ l. notes_of l.fields (kept l.header) l.noted.faults
        (list_of l.noted.start l.faults) (list_of l.held.start l.rejects) };

    ghost invariant = { λ l. AreFieldsOf l.noted.faults l.first l.count
        × IsFileFor W.contents (IsFaultLine l.fields) l.noted.faults l.noted.start l.faults
        × IsFileOfRecords W.contents (kept l.header) l.noted.faults l.held.start l.rejects };
}

impl<W: Write> FaultList<W> {
    ghost use Rattle.std.specs.Prelude.{◌≡◌, ◌⊎◌, ◌-◌, ◌^◌, [], ◌∷◌, ◌++◌, Some, length, min, option_map, slice_get, IsTrue, IsFalse};
    ghost use Rattle.zic_counted.specs.Counts.{Counts};
    ghost use Rattle.zic_io.specs.Faults.{fault_of, list_for, HasFailed, HasLines, HasRejects, IsSameList};

    /// Returns a list without rows, with a file for faults and one for records, and these fields in the
    /// lines of faults.
    pub fn new(
        alloc: Global,
        faults: Option<W>,
        rejects: Option<W>,
        fields: FaultFields,
    ) -> FaultList<W>
        ensures { result ≡ record {
          fields = fields;
          header = Some [];
          noted = [];
          faults = list_for W.contents faults;
          rejects = list_for W.contents rejects;
        } }
    {
        let noted = Noted::new(&faults);
        let held = Noted::new(&rejects);
        FaultList {
            alloc,
            fields,
            header: Some(Vec::new(alloc)),
            first: None,
            count: 0,
            unflushed: false,
            faults: ListOutput::new(faults),
            rejects: ListOutput::new(rejects),
            noted,
            held,
            tallies: ZoneTallies::new(alloc),
        }
    }

    /// Returns the first fault, if there is one.
    pub fn first(&self) -> Option<RowFault>
        ensures { result ≡ fault_of (slice_get self.now.noted 0) }
    {
        self.first
    }

    /// Returns the number of faults, or the greatest `u64` where there are more.
    pub fn count(&self) -> u64
        ensures { result ≡ min (length self.now.noted) (2 ^ 64 - 1) }
    {
        self.count
    }

    /// Returns the numbers of rows of zones.
    pub fn tallies(&self) -> &ZoneTallies {
        &self.tallies
    }

    /// Flushes the file of faults. Returns true only if the lines of all faults
    /// were written, where there is a file, and false only if a failure of the file was counted.
    pub fn finish_faults(&mut self) -> bool
        ensures lines { IsTrue result → HasLines W.contents self.new }
        ensures failed { IsFalse result → HasFailed self.new.faults.file }
        ensures noted { self.new.noted ≡ self.old.noted }
        ensures header { self.new.header ≡ self.old.header }
        ensures fields { self.new.fields ≡ self.old.fields }
        ensures faults { IsSameList self.old.faults self.new.faults }
        ensures rejects { self.new.rejects ≡ self.old.rejects }
    {
        self.faults.finish()
    }

    /// Flushes the file of records. Returns true only if all records were
    /// written below their header, where there is a file, and false only if a failure of the file was
    /// counted.
    pub fn finish_rejects(&mut self) -> bool
        ensures rejected { IsTrue result → HasRejects W.contents self.new }
        ensures failed { IsFalse result → HasFailed self.new.rejects.file }
        ensures noted { self.new.noted ≡ self.old.noted }
        ensures header { self.new.header ≡ self.old.header }
        ensures fields { self.new.fields ≡ self.old.fields }
        ensures rejects { IsSameList self.old.rejects self.new.rejects }
        ensures faults { self.new.faults ≡ self.old.faults }
    {
        self.rejects.finish()
    }

    /// Flushes both files.
    fn finish_both(&mut self)
        ensures noted { self.new.noted ≡ self.old.noted }
        ensures header { self.new.header ≡ self.old.header }
        ensures fields { self.new.fields ≡ self.old.fields }
        ensures faults { IsSameList self.old.faults self.new.faults }
        ensures rejects { IsSameList self.old.rejects self.new.rejects }
    {
        let _ = self.faults.finish();
        let _ = self.rejects.finish();
        self.unflushed = false;
    }

    /// Returns true only if all lines and records were written, where there are files, and false only if a
    /// failure of one was counted.
    fn is_whole(&self) -> bool
        ensures lines { IsTrue result → HasLines W.contents self.now }
        ensures rejected { IsTrue result → HasRejects W.contents self.now }
        ensures failed { IsFalse result
            → HasFailed self.now.faults.file ⊎ HasFailed self.now.rejects.file }
    {
        !self.faults.has_failed && !self.rejects.has_failed
    }

    /// Returns the files.
    pub fn into_files(self) -> (Option<W>, Option<W>)
        ensures faults { result.0 ≡ option_map (λ (file : Counts W). file.inner) self.faults.file }
        ensures rejects { result.1 ≡ option_map (λ (file : Counts W). file.inner) self.rejects.file }
    {
        (self.faults.into_file(), self.rejects.into_file())
    }
}

impl<W: Write> RowLog for FaultList<W> {
    ghost use Rattle.std.specs.Prelude.{◌≡◌, ◌⊎◌, ◌++◌, [], ◌∷◌, Some, IfSome, IsTrue, IsFalse};
    ghost use Rattle.zic_io.specs.Faults.{HasFailed, HasLines, HasRejects, IsSameList};

    ghost noted = { λ l. Some l.noted };

    ghost began = { λ l. l.header };

    ghost failed = { λ l. HasFailed l.faults.file ⊎ HasFailed l.rejects.file };

    fn begin(&mut self, header: &[u8])
        ensures keeps { Some self.new.noted ≡ Some self.old.noted }
        ensures began { IfSome self.new.header (λ own. own ≡ header.now) }
        ensures fields { self.new.fields ≡ self.old.fields }
        ensures faults { self.new.faults ≡ self.old.faults }
        ensures rejects { IsSameList self.old.rejects self.new.rejects }
    {
        let is_first = self.header.is_some() && self.first.is_none();
        let kept = if is_first {
            copy_of(self.alloc, header)
        } else {
            None
        };
        if is_first && kept.is_none() {
            // Without memory to keep it, it is written at once.
            push_header(&mut self.rejects, header);
        }
        drop(mem::replace(&mut self.header, kept));
    }

    fn note(&mut self, row: &FaultyRow)
        ensures adds { Some self.new.noted ≡ Some (self.old.noted ++ row.now ∷ []) }
        ensures header { self.new.header ≡ self.old.header }
        ensures fields { self.new.fields ≡ self.old.fields }
        ensures faults { IsSameList self.old.faults self.new.faults }
        ensures rejects { IsSameList self.old.rejects self.new.rejects }
    {
        push_header_at_first(&mut self.rejects, self.first, &self.header);
        self.first = self.first.or(Some(row.fault));
        self.count = self.count.saturating_add(1);
        self.unflushed = true;
        self.noted = self.noted.and(row);
        push_fault(&mut self.faults, self.fields, row);
        push_record(&mut self.rejects, &row.own, row.line_end);
    }

    fn tally(&mut self, tally: &ZoneTally) {
        self.tallies.add(tally);
    }

    fn flush(&mut self) -> bool
        ensures whole { IsTrue result → HasLines W.contents self.new × HasRejects W.contents self.new }
        ensures failed { IsFalse result
            → HasFailed self.new.faults.file ⊎ HasFailed self.new.rejects.file }
        ensures keeps { Some self.new.noted ≡ Some self.old.noted }
        ensures header { self.new.header ≡ self.old.header }
        ensures fields { self.new.fields ≡ self.old.fields }
        ensures faults { IsSameList self.old.faults self.new.faults }
        ensures rejects { IsSameList self.old.rejects self.new.rejects }
    {
        if self.unflushed {
            self.finish_both();
        }
        self.is_whole()
    }
}

/// Returns a copy of a header, or `None` where memory is refused.
fn copy_of(alloc: Global, header: &[u8]) -> Option<Vec<u8>>
    ensures { IfSome result (λ copy. copy.items ≡ header.now) }
{
    let mut copy = Vec::new(alloc);
    match copy.extend_from_slice(header) {
        Ok(()) => Some(copy),
        Err(_) => None,
    }
}
