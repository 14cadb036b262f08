//! The calls on files.

ghost use Rattle.std.specs.Prelude.{◌≡◌, MatchOption, None, length};
ghost use Rattle.pzic_files.specs.Files.{IsFound, IsPartCopied, IsZoneGiven};
ghost use Rattle.pzic_files.specs.FilesDiff.{IsDiffGiven};
ghost use Rattle.pzic_files.specs.FilesOf.{AreFilesMade};
ghost use Rattle.pzic_zones.specs.Handle.{IsHandle, files_in, held_in};
ghost use Rattle.pzic_files.specs.RowColumn.{AreRowAbbreviationsGiven, AreRowOffsetsGiven};
ghost use Rattle.pzic_files.specs.Source.{AreCompiled};
ghost use Rattle.pzic_zones.specs.declared.status.TheConstants.{NO_HANDLE, OK};

use pzic_files::{Abbreviation, DiffOptions, SourceFault};
use pzic_zones::Handle;
use std::alloc::Global;

/// Compiles the texts of these lengths, which lie one after another.
#[unsafe(no_mangle)]
pub extern "C" fn pzic_raw_compile(
    alloc: Global,
    texts: &[u8],
    lengths: &[usize],
    files: &mut Handle,
    fault: &mut SourceFault,
) -> i32
    requires { IsHandle files.old }
    ensures handle { IsHandle files.new }
    ensures compiled { AreCompiled texts.now lengths.now result
        fault.old fault.new (held_in files.new) }
{
    pzic_files::compile(alloc, texts, lengths, files, fault)
}

/// Makes files of names and bytes of these lengths, which lie one after another.
#[unsafe(no_mangle)]
pub extern "C" fn pzic_raw_files_of(
    alloc: Global,
    texts: &[u8],
    lengths: &[usize],
    statuses: &mut [u8],
    files: &mut Handle,
) -> i32
    requires { IsHandle files.old }
    ensures handle { IsHandle files.new }
    ensures made { AreFilesMade texts.now lengths.now result statuses.old statuses.new
        (held_in files.new) }
{
    pzic_files::files_of(alloc, texts, lengths, statuses, files)
}

/// Gives how many files a handle holds.
#[unsafe(no_mangle)]
pub extern "C" fn pzic_raw_files_len(alloc: Global, files: &mut Handle, count: &mut usize) -> i32
    requires { IsHandle files.old }
    ensures unchanged { files.new ≡ files.old }
    ensures gives { MatchOption (files_in files.old)
        ((result ≡ NO_HANDLE) × (count.new ≡ count.old))
        (λ all. (result ≡ OK) × (count.new ≡ length all)) }
{
    pzic_files::files_len(alloc, files, count)
}

/// Finds the file of a name.
#[unsafe(no_mangle)]
pub extern "C" fn pzic_raw_files_find(
    alloc: Global,
    files: &mut Handle,
    name: &[u8],
    number: &mut usize,
) -> i32
    requires { IsHandle files.old }
    ensures unchanged { files.new ≡ files.old }
    ensures found { MatchOption (files_in files.old)
        ((result ≡ NO_HANDLE) × (number.new ≡ number.old))
        (λ all. IsFound all name.now result number.old number.new) }
{
    pzic_files::files_find(alloc, files, name, number)
}

/// Copies the name of a file, as much as there is room for.
#[unsafe(no_mangle)]
pub extern "C" fn pzic_raw_files_name(
    alloc: Global,
    files: &mut Handle,
    number: usize,
    room: &mut [u8],
    count: &mut usize,
) -> i32
    requires { IsHandle files.old }
    ensures unchanged { files.new ≡ files.old }
    ensures gives { MatchOption (files_in files.old)
        ((result ≡ NO_HANDLE) × (room.new ≡ room.old) × (count.new ≡ count.old))
        (λ all. IsPartCopied (λ file. file.name) all number result room.old room.new count.old
        count.new) }
{
    pzic_files::files_name(alloc, files, number, room, count)
}

/// Copies the bytes of a file, as many as there is room for.
#[unsafe(no_mangle)]
pub extern "C" fn pzic_raw_files_bytes(
    alloc: Global,
    files: &mut Handle,
    number: usize,
    room: &mut [u8],
    count: &mut usize,
) -> i32
    requires { IsHandle files.old }
    ensures unchanged { files.new ≡ files.old }
    ensures gives { MatchOption (files_in files.old)
        ((result ≡ NO_HANDLE) × (room.new ≡ room.old) × (count.new ≡ count.old))
        (λ all. IsPartCopied (λ file. file.image.octets) all number result room.old room.new
        count.old count.new) }
{
    pzic_files::files_bytes(alloc, files, number, room, count)
}

/// Has a handle hold the zone of a file. The files stay while it does.
#[unsafe(no_mangle)]
pub extern "C" fn pzic_raw_zone_of(
    alloc: Global,
    files: &mut Handle,
    number: usize,
    zone: &mut Handle,
) -> i32
    requires files { IsHandle files.old }
    requires zone { IsHandle zone.old }
    ensures unchanged { files.new ≡ files.old }
    ensures handle { IsHandle zone.new }
    ensures zone { MatchOption (files_in files.old)
        ((result ≡ NO_HANDLE) × (held_in zone.new ≡ None))
        (λ all. IsZoneGiven all number result (held_in zone.new)) }
{
    pzic_files::zone_of(alloc, files, number, zone)
}

/// Writes the UT offset and the flags at each of many instants, with the number of a file for each.
#[unsafe(no_mangle)]
pub extern "C" fn pzic_raw_files_offsets(
    alloc: Global,
    files: &mut Handle,
    zones: &[u32],
    instants: &[i64],
    offsets: &mut [i32],
    flags: &mut [u8],
) -> i32
    requires { IsHandle files.old }
    ensures unchanged { files.new ≡ files.old }
    ensures gives { MatchOption (files_in files.old)
        ((result ≡ NO_HANDLE) × (offsets.new ≡ offsets.old) × (flags.new ≡ flags.old))
        (λ all. AreRowOffsetsGiven all zones.now instants.now result offsets.old flags.old
        offsets.new flags.new) }
{
    pzic_files::files_offsets(alloc, files, zones, instants, offsets, flags)
}

/// Writes the abbreviation at each of many instants, with the number of a file for each.
#[unsafe(no_mangle)]
pub extern "C" fn pzic_raw_files_abbreviations(
    alloc: Global,
    files: &mut Handle,
    zones: &[u32],
    instants: &[i64],
    abbreviations: &mut [Abbreviation],
) -> i32
    requires { IsHandle files.old }
    ensures unchanged { files.new ≡ files.old }
    ensures gives { MatchOption (files_in files.old)
        ((result ≡ NO_HANDLE) × (abbreviations.new ≡ abbreviations.old))
        (λ all. AreRowAbbreviationsGiven all zones.now instants.now result abbreviations.old
        abbreviations.new) }
{
    pzic_files::files_abbreviations(alloc, files, zones, instants, abbreviations)
}

/// Lists when the files of one handle answer otherwise than those of another.
#[unsafe(no_mangle)]
pub extern "C" fn pzic_raw_files_diff(
    alloc: Global,
    old_files: &mut Handle,
    new_files: &mut Handle,
    options: &DiffOptions,
    rows: &mut Handle,
) -> i32
    requires old { IsHandle old_files.old }
    requires new { IsHandle new_files.old }
    requires rows { IsHandle rows.old }
    ensures old_unchanged { old_files.new ≡ old_files.old }
    ensures new_unchanged { new_files.new ≡ new_files.old }
    ensures handle { IsHandle rows.new }
    ensures gives { IsDiffGiven options.now (files_in old_files.old) (files_in new_files.old) result
        (held_in rows.new) }
{
    pzic_files::files_diff(alloc, old_files, new_files, options, rows)
}
