//! Zones that handles hold: by themselves, or of files.

ghost use Rattle.std.specs.Prelude.{◌≡◌, ◌<◌, length, IfOk, IsSomeAnd, slice_get};
ghost use Rattle.pzic_zones.specs.code.Near.{IsNear};

use std::alloc::AllocError;
use std::sync::Arc;
use zic_files::Files;
use zic_local::laws::instants_are_near;
use zic_tzif::Zone;

/// A zone by itself, whose UT offsets are within 25:59:59.
#[derive(Drop)]
pub struct Single {
    pub zone: Arc<Zone>,
    ghost near: { IsNear zone.value },
}

impl Single {
    /// Returns the zone.
    pub(crate) fn zone(&self) -> &Zone
        ensures zone { result.now ≡ self.now.zone.value }
        ensures near { IsNear result.now }
    {
        &self.zone
    }

    /// Returns the same zone.
    pub(crate) fn again(&self) -> Result<Single, AllocError>
        ensures { IfOk result (λ twin. twin.zone.value ≡ self.now.zone.value) }
    {
        let zone = Arc::try_clone(&self.zone)?;
        Ok(Single { zone })
    }
}

/// The zone of one of some files.
#[derive(Drop)]
pub struct Member {
    pub files: Arc<Files>,
    pub number: usize,
    ghost inside: { number < length files.value },
}

impl Member {
    /// Returns the zone.
    pub(crate) fn zone(&self) -> &Zone
        ensures zone { IsSomeAnd (slice_get self.now.files.value self.now.number)
            (λ file. result.now ≡ file.image.content) }
        ensures near { IsNear result.now }
    {
        instants_are_near();
        self.files.zone(self.number)
    }

    /// Returns the same zone.
    pub(crate) fn again(&self) -> Result<Member, AllocError>
        ensures files { IfOk result (λ twin. twin.files.value ≡ self.now.files.value) }
        ensures number { IfOk result (λ twin. twin.number ≡ self.now.number) }
    {
        let files = Arc::try_clone(&self.files)?;
        Ok(Member {
            files,
            number: self.number,
        })
    }
}
