//! The zones of a source, in pieces for several workers.

ghost use Rattle.std.specs.Prelude.{◌≡◌, ◌≤◌, ◌<◌, ◌+◌, IfOk, flat_map};
ghost use Rattle.zic_layouts.specs.declared.plan.TheConstants.{MAX_OF_PIECE};
ghost use Rattle.zic_compile.specs.code.Pieces.{ArePieces, count_of, start_of};

use crate::compiler::images_within;
use std::alloc::{AllocError, Global};
use std::marker::Model;
use zic_files::Image;
use zic_pieces::{PieceStop, Task};
use zic_source::{Fault, MAX_NAMES, Stop};
use zic_states::ListedSource;

/// The images of the zones of a piece.
#[derive(Drop)]
pub(crate) struct Images {
    images: Vec<Image>,
}

impl Model for Images {
    ghost use Rattle.std.specs.Prelude.{List};
    ghost use Rattle.zic_files.specs.File.{FileImage};

    ghost Value = { List FileImage };

    ghost view = { λ i. i.images.items };
}

/// The zones of a source, and the number of them that a piece has.
#[derive(Drop)]
pub(crate) struct ZonePieces<'a> {
    listed: &'a ListedSource<'a>,
    size: usize,
}

impl<'a> Model for ZonePieces<'a> {
    ghost use Rattle.zic_compile.specs.code.Pieces.{Pieces, ArePieces};

    ghost Value = { Pieces };

    ghost view = { λ z. record { source = z.listed.now; size = z.size } };

    ghost invariant = { λ z. ArePieces (record { source = z.listed.now; size = z.size }) };
}

impl<'a> ZonePieces<'a> {
    /// Returns the zones of a source in pieces of this size.
    pub(crate) fn new(listed: &'a ListedSource<'a>, size: usize) -> ZonePieces<'a>
        requires size { (1 ≤ size) × (size ≤ MAX_OF_PIECE) }
        ensures source { result.source ≡ listed.now }
        ensures sound { ArePieces result }
        ensures few { count_of result ≤ 4294967296 }
    {
        // `zones` also states that there are few.
        prove!(listed.source().zones() <= MAX_NAMES);
        ZonePieces { listed, size }
    }

    /// Returns the number of the first zone of a piece, and of the end of the piece before it.
    fn start(&self, i: u64) -> usize
        requires { i ≤ count_of self.now }
        ensures { result ≡ start_of self.now i }
    {
        (i as usize * self.size).min(self.listed.source().zones())
    }
}

impl<'a> Task for ZonePieces<'a> {
    type Out = Images;

    type Fault = Fault;

    ghost use Rattle.zic_pieces.specs.Task.{IsOutcome};
    ghost use Rattle.zic_compile.specs.code.Pieces.{IsOutcomeOf, count_of, start_of};
    ghost use Rattle.zic_compile.specs.code.Zones.{NeedsMemoryWithin};

    ghost count = { count_of };

    ghost outcome = { IsOutcomeOf };

    fn pieces(&self) -> u64 {
        self.listed.source().zones().div_ceil(self.size) as u64
    }

    /// Returns the images of the zones of a piece. Memory runs out only at a zone whose image may
    /// want it, and before which each of the piece has an image.
    fn perform(&self, alloc: Global, i: u64) -> Result<Images, PieceStop<Fault>>
        requires { i < count_of self.now }
        ensures outcome { IsOutcome (IsOutcomeOf self.now i) result }
        ensures memory { result ≡ Err PieceStop.Memory
            → NeedsMemoryWithin self.now.source (start_of self.now i) (start_of self.now (i + 1)) }
    {
        match images_within(alloc, self.listed, self.start(i), self.start(i + 1)) {
            Ok(images) => Ok(Images { images }),
            Err(Stop::Fault(fault)) => Err(PieceStop::Fault(fault)),
            Err(Stop::Memory) => Err(PieceStop::Memory),
        }
    }
}

/// Returns the images of all pieces, one after another.
pub(crate) fn joined(alloc: Global, pieces: Vec<Images>) -> Result<Vec<Image>, AllocError>
    ensures { IfOk result (λ all. all.items ≡ flat_map (λ images. images) pieces.items) }
{
    let mut all = Vec::new(alloc);
    for piece in pieces {
        let mut images = piece.images;
        all.append(&mut images)?;
    }
    Ok(all)
}
