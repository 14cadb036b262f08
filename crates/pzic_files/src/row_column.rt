//! Columns of instants in memory, with a zone for each row.

ghost use Rattle.std.specs.Prelude.{◌≡◌, ◌≤◌, length, option_map, IfSome, MatchOption};
ghost use Rattle.std.specs.List.{AllZip, zip};
ghost use Rattle.zic_base.specs.State.{shown};
ghost use Rattle.zic_lines.specs.Limits.{IsWithinLimits};
ghost use Rattle.pzic_zones.specs.Handle.{IsHandle, files_in};
ghost use Rattle.pzic_files.specs.RowColumn.{AreFlagsOfRow, AreRowAbbreviationsGiven, AreRowOffsetsGiven, IsAbbreviationOfRow, IsOffsetOfRow, IsStateOfRow, filled};
ghost use Rattle.pzic_zones.specs.declared.status.TheConstants.{NO_HANDLE};

use pzic_zones::status::{LENGTHS, NO_HANDLE, OK};
use pzic_zones::{Handle, Held};
use std::alloc::Global;
use zic_base::State;
use zic_files::Files;
use zic_tzif::Answer;

/// The flag of a row whose zone has a number that no file has.
const NO_ZONE: u8 = 4;

/// The most bytes of an abbreviation of a file that rows can be made of.
const LONGEST: usize = 16;

/// The abbreviation of a row, and NULs after it.
#[repr(C)]
#[derive(Clone, Copy, Drop)]
pub struct Abbreviation {
    /// The bytes.
    pub name: [u8; LONGEST],
}

/// The offset and the flags of a row.
#[derive(Clone, Copy)]
struct Cells {
    offset: i32,
    flags: u8,
}

/// Returns local time of a row, or `None` where no file has the number.
fn state_of_row(files: &Files, zone: u32, t: i64) -> Option<State<'_>>
    ensures state { IsStateOfRow files.now (zone, t) (option_map shown result) }
    ensures within { IfSome result (λ state. IsWithinLimits (shown state)) }
{
    let number = zone as usize;
    if number >= files.len() {
        return None;
    }
    match files.zone(number).at(t) {
        Answer::Known(state) => Some(state),
        // A file of these leaves local time open at no instant.
        Answer::Unspecified => None,
    }
}

/// Returns the offset and the flags of a row.
fn cells_of_row(files: &Files, zone: u32, t: i64) -> Cells
    ensures offset { IsOffsetOfRow files.now (zone, t) result.offset }
    ensures flags { AreFlagsOfRow files.now (zone, t) result.flags }
{
    match state_of_row(files, zone, t) {
        Some(state) => Cells {
            offset: state.offset,
            flags: u8::from(state.daylight),
        },
        None => Cells {
            offset: 0,
            flags: NO_ZONE,
        },
    }
}

/// Returns an abbreviation of at most 16 bytes, and NULs after it.
fn fill(name: &[u8]) -> Abbreviation
    requires { length name.now ≤ 16 }
    ensures { result.name ≡ filled name.now }
{
    let mut octets = [0; LONGEST];
    octets[..name.len()].copy_from_slice(name);
    Abbreviation { name: octets }
}

/// Returns the abbreviation of a row.
fn abbreviation_of_row(files: &Files, zone: u32, t: i64) -> Abbreviation
    ensures { IsAbbreviationOfRow files.now (zone, t) result }
{
    match state_of_row(files, zone, t) {
        Some(state) => fill(state.name),
        None => fill(b""),
    }
}

/// Writes the offset of each row in seconds, positive east, and its flags.
fn write_offsets(
    files: &Files,
    zones: &[u32],
    instants: &[i64],
    offsets: &mut [i32],
    flags: &mut [u8],
)
    requires zones { length zones.now ≡ length instants.now }
    requires offsets { length offsets.old ≡ length instants.now }
    requires flags { length flags.old ≡ length instants.now }
    ensures offsets { AllZip (IsOffsetOfRow files.now) (zip zones.now instants.now) offsets.new }
    ensures flags { AllZip (AreFlagsOfRow files.now) (zip zones.now instants.now) flags.new }
{
    for i in 0..instants.len() {
        let row = cells_of_row(files, zones[i], instants[i]);
        offsets[i] = row.offset;
        flags[i] = row.flags;
    }
}

/// Writes the abbreviation of each row.
fn write_abbreviations(
    files: &Files,
    zones: &[u32],
    instants: &[i64],
    abbreviations: &mut [Abbreviation],
)
    requires zones { length zones.now ≡ length instants.now }
    requires abbreviations { length abbreviations.old ≡ length instants.now }
    ensures { AllZip (IsAbbreviationOfRow files.now) (zip zones.now instants.now)
        abbreviations.new }
{
    for i in 0..instants.len() {
        abbreviations[i] = abbreviation_of_row(files, zones[i], instants[i]);
    }
}

/// Writes the offsets and the flags of rows, where the arrays have the same length.
fn give_offsets(
    files: &Files,
    zones: &[u32],
    instants: &[i64],
    offsets: &mut [i32],
    flags: &mut [u8],
) -> i32
    ensures { AreRowOffsetsGiven files.now zones.now instants.now result offsets.old flags.old
        offsets.new flags.new }
{
    let count = instants.len();
    if zones.len() != count || offsets.len() != count || flags.len() != count {
        return LENGTHS;
    }
    write_offsets(files, zones, instants, offsets, flags);
    OK
}

/// Writes the abbreviations of rows, where the arrays have the same length.
fn give_abbreviations(
    files: &Files,
    zones: &[u32],
    instants: &[i64],
    abbreviations: &mut [Abbreviation],
) -> i32
    ensures { AreRowAbbreviationsGiven files.now zones.now instants.now result abbreviations.old
        abbreviations.new }
{
    if zones.len() != instants.len() || abbreviations.len() != instants.len() {
        return LENGTHS;
    }
    write_abbreviations(files, zones, instants, abbreviations);
    OK
}

/// Writes the UT offset and the flags at each of many instants, with the number of a file for each.
pub fn files_offsets(
    alloc: Global,
    files: &mut Handle,
    zones: &[u32],
    instants: &[i64],
    offsets: &mut [i32],
    flags: &mut [u8],
) -> i32
    requires { IsHandle files.old }
    ensures unchanged { files.new ≡ files.old }
    ensures gives { MatchOption (files_in files.old)
        ((result ≡ NO_HANDLE) × (offsets.new ≡ offsets.old) × (flags.new ≡ flags.old))
        (λ all. AreRowOffsetsGiven all zones.now instants.now result offsets.old flags.old
        offsets.new flags.new) }
{
    files.lend(
        alloc,
        &mut |held: &Held| match held.files() {
            Some(all) => give_offsets(all, zones, instants, offsets, flags),
            None => NO_HANDLE,
        },
    )
}

/// Writes the abbreviation at each of many instants, with the number of a file for each.
pub fn files_abbreviations(
    alloc: Global,
    files: &mut Handle,
    zones: &[u32],
    instants: &[i64],
    abbreviations: &mut [Abbreviation],
) -> i32
    requires { IsHandle files.old }
    ensures unchanged { files.new ≡ files.old }
    ensures gives { MatchOption (files_in files.old)
        ((result ≡ NO_HANDLE) × (abbreviations.new ≡ abbreviations.old))
        (λ all. AreRowAbbreviationsGiven all zones.now instants.now result abbreviations.old
        abbreviations.new) }
{
    files.lend(
        alloc,
        &mut |held: &Held| match held.files() {
            Some(all) => give_abbreviations(all, zones, instants, abbreviations),
            None => NO_HANDLE,
        },
    )
}
