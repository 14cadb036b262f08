//! Zones by name, which may get to know more: those of a release, and those of another that it is
//! compared with.

use crate::row_zones::RowZones;
use std::alloc::{AllocError, Global};
use zic_columns::Round;
use zic_layouts::{Delimiter, ZoneFrom};

/// Zones by name. Those that rows need are made ready before the rows are made.
pub trait Zones {
    ghost use Rattle.std.specs.Prelude.{◌≡◌, List, ℕ, All, map, OnOk, OnErr};
    ghost use Rattle.zic_columns.specs.Round.{records_of};
    ghost use Rattle.zic_zones.specs.Zones.{ReleasesAgree, zone_in};
    ghost use Rattle.zic_zones.specs.declared.zones.Releases.{Releases};

    // the files that are known, of a release or of two
    ghost known: { Self → Releases };

    // No other file of this name will be known, in either release.
    ghost settled: { Self → List ℕ → Type 0 };

    // Rows may be made by these files, as far as is known.
    ghost may_be: { Self → Releases → Type 0 };

    // Asking for names can turn the first into the second.
    ghost grown: { Self → Self → Type 0 };

    // Running out of memory can turn the first into the second.
    ghost broken: { Self → Self → Type 0 };

    // Asking for this name alone can turn the first into the second.
    ghost requests: { Self → List ℕ → Self → Type 0 };

    /// Makes the zone of a name ready, if there is one. Asks for no other name.
    ///
    /// # Errors
    ///
    /// Fails where memory is refused. The zones are of no use then.
    fn learn(&mut self, alloc: Global, name: &[u8]) -> Result<(), AllocError>
        ensures grown { OnOk result (grown self.old self.new) }
        ensures settled { OnOk result (settled self.new name.now) }
        ensures broken { OnErr result (broken self.old self.new) }
        ensures requested { requests self.old name.now self.new };

    /// Makes the zones ready that the records of a round name, in which this delimiter stands between fields.
    ///
    /// # Errors
    ///
    /// As [`Zones::learn`].
    fn prepare(
        &mut self,
        alloc: Global,
        zone: &ZoneFrom,
        delimiter: &Delimiter,
        round: &Round<'_>,
    ) -> Result<(), AllocError>
        ensures grown { OnOk result (grown self.old self.new) }
        ensures settled { OnOk result
            (All (settled self.new) (map (zone_in zone.now) (records_of delimiter.now round.now))) }
        ensures broken { OnErr result (broken self.old self.new) };

    /// Returns the files that are known, ready for rows.
    fn ready(&self) -> Releases<'_>
        ensures { result ≡ known self.now };

    ghost same: { (z : Self) → grown z z };

    ghost then: { (a b c : Self) → grown a b → grown b c → grown a c };

    ghost narrows: { (a b : Self) (releases : Releases) → grown a b → may_be b releases
        → may_be a releases };

    ghost agrees: { (z : Self) (releases : Releases) → may_be z releases
        → ReleasesAgree (settled z) (known z) releases };
}

/// The files that rows are made by, ready for rows: those of a release, and those of another that it
/// is compared with, if it is.
#[derive(Drop)]
pub struct Releases<'a> {
    pub zones: RowZones<'a>,
    pub old: Option<RowZones<'a>>,
}

/// Zones of a release, and those of another that rows are compared with.
#[derive(Drop)]
pub struct TwoReleases<Z: Zones, O: Zones> {
    pub zones: Z,
    pub old: O,
}

impl<Z: Zones, O: Zones> Zones for TwoReleases<Z, O> {
    ghost use Rattle.std.specs.Prelude.{◌≡◌, ◌⊎◌};
    ghost use Rattle.zic_zones.specs.Compared.{MayCompare, compared};
    ghost use Rattle.zic_zones.specs.Growing.{compared_agrees, compared_narrows};

    ghost known = { λ z. compared (Z.known z.zones) (O.known z.old) };

    ghost settled = { λ z name. Z.settled z.zones name × O.settled z.old name };

    ghost may_be = { λ z releases. MayCompare (Z.may_be z.zones) (O.may_be z.old) releases };

    ghost grown = { λ a b. Z.grown a.zones b.zones × O.grown a.old b.old };

    // Memory may be refused for either.
    ghost broken = { λ a b. (Z.broken a.zones b.zones × (b.old ≡ a.old))
        ⊎ (Z.grown a.zones b.zones × O.broken a.old b.old) };

    // Where it is refused for the first, the other release isn't asked.
    ghost requests = { λ a name b. Z.requests a.zones name b.zones
        × ((b.old ≡ a.old) ⊎ O.requests a.old name b.old) };

    fn learn(&mut self, alloc: Global, name: &[u8]) -> Result<(), AllocError> {
        self.zones.learn(alloc, name)?;
        self.old.learn(alloc, name)
    }

    fn prepare(
        &mut self,
        alloc: Global,
        zone: &ZoneFrom,
        delimiter: &Delimiter,
        round: &Round<'_>,
    ) -> Result<(), AllocError> {
        self.zones.prepare(alloc, zone, delimiter, round)?;
        self.old.prepare(alloc, zone, delimiter, round)
    }

    fn ready(&self) -> Releases<'_> {
        Releases {
            zones: self.zones.ready().zones,
            old: Some(self.old.ready().zones),
        }
    }

    ghost same = { λ z. (Z.same z.zones, O.same z.old) };

    ghost then = { λ a b c first second. (
      Z.then a.zones b.zones c.zones first.0 second.0,
      O.then a.old b.old c.old first.1 second.1,
    ) };

    ghost narrows = { λ a b releases grows. compared_narrows (Z.may_be a.zones) (O.may_be a.old)
        (Z.may_be b.zones) (O.may_be b.old) releases
        (λ r. Z.narrows a.zones b.zones r grows.0) (λ r. O.narrows a.old b.old r grows.1) };

    ghost agrees = { λ z releases. compared_agrees (Z.settled z.zones) (O.settled z.old)
        (Z.may_be z.zones) (O.may_be z.old) (Z.known z.zones) (O.known z.old) releases
        (Z.agrees z.zones) (O.agrees z.old) };
}
