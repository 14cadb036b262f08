//! The zones of a tree of files.

ghost use Rattle.std.specs.Prelude.{◌≡◌, ℕ, [], OnOk, OnErr, IsTrue, All, map};
ghost use Rattle.zic_columns.specs.Column.{column_records};
ghost use Rattle.zic_columns.specs.Record.{IsWithinPiece, field_text};
ghost use Rattle.zic_columns.specs.Round.{records_of};
ghost use Rattle.zic_files.specs.Tree.{IsKnown, IsLearntFrom};
ghost use Rattle.zic_zones.specs.Tree.{Breaks, Grows};
ghost use Rattle.zic_zones.specs.Zones.{field_at};

use crate::ready::Ready;
use crate::row_zones::RowZones;
use crate::tables::Expected;
use crate::zones::{Releases, Zones};
use std::alloc::{AllocError, Global};
use std::marker::Model;
use zic_columns::{BATCH, Field, Record, Round, Span, Splitter, Wanted, push_field};
use zic_files::{TreeFiles, ZoneTree};
use zic_layouts::{Delimiter, ZoneFrom};

/// An empty range of a piece.
const NOWHERE: Span = Span { start: 0, end: 0 };

/// The zones of a tree, as far as their names were requested, ready for rows. Clauses see the tree,
/// and the names and files that were learnt.
#[derive(Drop)]
pub struct TreeZones<T: ZoneTree> {
    tree: T,
    learnt: TreeFiles,
    ready: Ready,
}

impl<T: ZoneTree> Model for TreeZones<T> {
    ghost use Rattle.zic_zones.specs.Tree.{TreeOf};
    ghost use Rattle.zic_zones.specs.code.Ready.{AreReady};

    ghost Value = { TreeOf T };

    ghost view = { λ z. record { tree = z.tree; learnt = z.learnt } };

    ghost invariant = { λ z. AreReady z.learnt.files z.ready };
}

impl<T: ZoneTree> TreeZones<T> {
    /// Returns the zones of a tree of which nothing was requested. The key seeds the hash of names, so that
    /// names can't be chosen to collide. No row depends on it.
    pub fn new(alloc: Global, key: u64, tree: T) -> TreeZones<T>
        ensures tree { result.tree ≡ tree }
        ensures none { IsLearntFrom [] result.learnt }
    {
        TreeZones {
            tree,
            learnt: TreeFiles::new(alloc, key),
            ready: Ready::new(alloc, Expected::ManyRows),
        }
    }

    /// Learns the zone that a field of a piece names.
    fn learn_field(
        &mut self,
        alloc: Global,
        piece: &[u8],
        field: Field,
        delimiter: &Delimiter,
    ) -> Result<(), AllocError>
        requires { IsWithinPiece piece.now field }
        ensures grown { OnOk result (Grows T.replied self.old self.new) }
        ensures known { OnOk result (IsKnown self.new.learnt (field_text delimiter.now piece.now field)) }
        ensures broken { OnErr result (Breaks T.replied self.old self.new) }
    {
        match field {
            Field::Plain(span) => self.learn(alloc, span.of(piece)),
            Field::Quoted(_) => {
                let mut name = Vec::new(alloc);
                push_field(&mut name, piece, field, delimiter)?;
                self.learn(alloc, &name)
            }
        }
    }

    /// Learns the zones that records of a piece name. A field with the bytes of the one before is
    /// passed over.
    fn learn_records(
        &mut self,
        alloc: Global,
        piece: &[u8],
        records: &[Record],
        delimiter: &Delimiter,
    ) -> Result<(), AllocError>
        requires { All (λ given. IsWithinPiece piece.now given.zone) records.now }
        ensures grown { OnOk result (Grows T.replied self.old self.new) }
        ensures known { OnOk result (All (IsKnown self.new.learnt)
            (map (λ given. field_text delimiter.now piece.now given.zone) records.now)) }
        ensures broken { OnErr result (Breaks T.replied self.old self.new) }
    {
        // No zone has the name without bytes.
        let mut last = Field::Plain(NOWHERE);
        for record in records {
            if !have_same_bytes(piece, record.zone, last) {
                self.learn_field(alloc, piece, record.zone, delimiter)?;
                last = record.zone;
            }
        }
        Ok(())
    }

    /// Learns the zones that the records of a piece name in the field with this index.
    fn learn_piece(
        &mut self,
        alloc: Global,
        piece: &[u8],
        index: usize,
        delimiter: &Delimiter,
    ) -> Result<(), AllocError>
        ensures grown { OnOk result (Grows T.replied self.old self.new) }
        ensures known { OnOk result (All (IsKnown self.new.learnt)
            (map (λ fields. field_at fields index) (column_records delimiter.now piece.now))) }
        ensures broken { OnErr result (Breaks T.replied self.old self.new) }
    {
        let field = Field::Plain(NOWHERE);
        let mut records = [Record {
            own: NOWHERE,
            count: 0,
            zone: field,
            time: field,
            stray: false,
        }; BATCH];
        let zone = Some(index);
        let mut splitter = Splitter::new(piece, Wanted { zone, time: index }, delimiter);
        let mut count = BATCH;
        while count == BATCH {
            count = splitter.fill(&mut records);
            self.learn_records(alloc, piece, &records[..count], delimiter)?;
        }
        Ok(())
    }

    /// Learns the zones that the records of a round name in the field with this index.
    fn learn_round(
        &mut self,
        alloc: Global,
        round: &Round<'_>,
        index: usize,
        delimiter: &Delimiter,
    ) -> Result<(), AllocError>
        ensures grown { OnOk result (Grows T.replied self.old self.new) }
        ensures known { OnOk result (All (IsKnown self.new.learnt)
            (map (λ fields. field_at fields index) (records_of delimiter.now round.now))) }
        ensures broken { OnErr result (Breaks T.replied self.old self.new) }
    {
        for number in 0..round.len() {
            self.learn_piece(alloc, round.piece(number), index, delimiter)?;
        }
        Ok(())
    }
}

impl<T: ZoneTree> Zones for TreeZones<T> {
    ghost use Rattle.zic_files.specs.Tree.{IsKnown};
    ghost use Rattle.zic_zones.specs.Growing.{grows_agrees, grows_narrows, grows_same, grows_then};
    ghost use Rattle.zic_zones.specs.Tree.{Breaks, Grows, MayHave, Requests};
    ghost use Rattle.zic_zones.specs.Zones.{alone};

    ghost known = { λ z. alone z.learnt.files };

    ghost settled = { λ z name. IsKnown z.learnt name };

    ghost may_be = { λ z releases. MayHave z.learnt releases };

    ghost grown = { λ a b. Grows T.replied a b };

    ghost broken = { λ a b. Breaks T.replied a b };

    ghost requests = { λ a name b. Requests T.replied a name b };

    fn learn(&mut self, alloc: Global, name: &[u8]) -> Result<(), AllocError> {
        match self.learnt.learn(alloc, &mut self.tree, name) {
            Ok(()) => self.ready.extend(alloc, self.learnt.files()),
            Err(error) => {
                // What was learnt is open now.
                self.ready = Ready::new(alloc, Expected::ManyRows);
                Err(error)
            }
        }
    }

    fn prepare(
        &mut self,
        alloc: Global,
        zone: &ZoneFrom,
        delimiter: &Delimiter,
        round: &Round<'_>,
    ) -> Result<(), AllocError> {
        match zone {
            ZoneFrom::Field(index) => self.learn_round(alloc, round, *index, delimiter),
            ZoneFrom::Name(name) => self.learn(alloc, name.as_bytes()),
        }
    }

    fn ready(&self) -> Releases<'_> {
        let zones = RowZones {
            files: self.learnt.files(),
            ready: &self.ready,
        };
        Releases { zones, old: None }
    }

    ghost same = { grows_same T.replied };

    ghost then = { grows_then T.replied };

    ghost narrows = { grows_narrows T.replied };

    ghost agrees = { λ z releases are. grows_agrees z.learnt releases are };
}

/// Returns whether two fields of a piece have the same bytes, and so the same text.
fn have_same_bytes(piece: &[u8], field: Field, other: Field) -> bool
    requires field { IsWithinPiece piece.now field }
    requires other { IsWithinPiece piece.now other }
    ensures { IsTrue result → (delimiter : ℕ) → field_text delimiter piece.now field
        ≡ field_text delimiter piece.now other }
{
    match (field, other) {
        (Field::Plain(span), Field::Plain(other)) => span.of(piece) == other.of(piece),
        (Field::Quoted(span), Field::Quoted(other)) => span.of(piece) == other.of(piece),
        _ => false,
    }
}
