//! The calls on the files of a source.

ghost use Rattle.std.specs.Prelude.{◌≡◌, None, length, MatchOption};
ghost use Rattle.pzic_files.specs.Files.{IsFound, IsPartCopied, IsZoneGiven};
ghost use Rattle.pzic_zones.specs.Handle.{IsHandle, files_in, held_in};
ghost use Rattle.pzic_zones.specs.declared.status.TheConstants.{NO_HANDLE, OK};

use crate::copying::copy;
use pzic_zones::status::{NO_HANDLE, NO_MEMORY, NO_SUCH, OK};
use pzic_zones::{Handle, Held, hold_member};
use std::alloc::Global;
use std::sync::Arc;
use zic_files::Files;

/// Gives how many files there are.
fn tell_len(files: &Files, count: &mut usize) -> i32
    ensures status { result ≡ OK }
    ensures gives { count.new ≡ length files.now }
{
    *count = files.len();
    OK
}

/// Gives how many files a handle holds.
pub fn files_len(alloc: Global, files: &mut Handle, count: &mut usize) -> i32
    requires { IsHandle files.old }
    ensures unchanged { files.new ≡ files.old }
    ensures gives { MatchOption (files_in files.old)
        ((result ≡ NO_HANDLE) × (count.new ≡ count.old))
        (λ all. (result ≡ OK) × (count.new ≡ length all)) }
{
    files.lend(
        alloc,
        &mut |held: &Held| match held.files() {
            Some(all) => tell_len(all, count),
            None => NO_HANDLE,
        },
    )
}

/// Gives the number of the file of a name.
fn find(files: &Files, name: &[u8], number: &mut usize) -> i32
    ensures { IsFound files.now name.now result number.old number.new }
{
    match files.find(name) {
        Some(found) => {
            *number = found;
            OK
        }
        None => NO_SUCH,
    }
}

/// Finds the file of a name.
pub fn files_find(alloc: Global, files: &mut Handle, name: &[u8], number: &mut usize) -> i32
    requires { IsHandle files.old }
    ensures unchanged { files.new ≡ files.old }
    ensures found { MatchOption (files_in files.old)
        ((result ≡ NO_HANDLE) × (number.new ≡ number.old))
        (λ all. IsFound all name.now result number.old number.new) }
{
    files.lend(
        alloc,
        &mut |held: &Held| match held.files() {
            Some(all) => find(all, name, number),
            None => NO_HANDLE,
        },
    )
}

/// Gives the name of a file.
fn copy_name(files: &Files, number: usize, room: &mut [u8], count: &mut usize) -> i32
    ensures { IsPartCopied (λ file. file.name) files.now number result room.old room.new count.old
        count.new }
{
    if number >= files.len() {
        return NO_SUCH;
    }
    copy(files.name(number), room, count);
    OK
}

/// Gives the bytes of a file.
fn copy_bytes(files: &Files, number: usize, room: &mut [u8], count: &mut usize) -> i32
    ensures { IsPartCopied (λ file. file.image.octets) files.now number result room.old room.new
        count.old count.new }
{
    if number >= files.len() {
        return NO_SUCH;
    }
    copy(files.bytes(number), room, count);
    OK
}

/// Copies the name of a file, as much as there is room for.
pub fn files_name(
    alloc: Global,
    files: &mut Handle,
    number: usize,
    room: &mut [u8],
    count: &mut usize,
) -> i32
    requires { IsHandle files.old }
    ensures unchanged { files.new ≡ files.old }
    ensures gives { MatchOption (files_in files.old)
        ((result ≡ NO_HANDLE) × (room.new ≡ room.old) × (count.new ≡ count.old))
        (λ all. IsPartCopied (λ file. file.name) all number result room.old room.new count.old
        count.new) }
{
    files.lend(
        alloc,
        &mut |held: &Held| match held.files() {
            Some(all) => copy_name(all, number, room, count),
            None => NO_HANDLE,
        },
    )
}

/// Copies the bytes of a file, as many as there is room for.
pub fn files_bytes(
    alloc: Global,
    files: &mut Handle,
    number: usize,
    room: &mut [u8],
    count: &mut usize,
) -> i32
    requires { IsHandle files.old }
    ensures unchanged { files.new ≡ files.old }
    ensures gives { MatchOption (files_in files.old)
        ((result ≡ NO_HANDLE) × (room.new ≡ room.old) × (count.new ≡ count.old))
        (λ all. IsPartCopied (λ file. file.image.octets) all number result room.old room.new
        count.old count.new) }
{
    files.lend(
        alloc,
        &mut |held: &Held| match held.files() {
            Some(all) => copy_bytes(all, number, room, count),
            None => NO_HANDLE,
        },
    )
}

/// Has an empty handle hold the zone of a file.
fn put_zone(alloc: Global, files: &Arc<Files>, number: usize, zone: &mut Handle) -> i32
    requires handle { IsHandle zone.old }
    requires empty { held_in zone.old ≡ None }
    ensures handle { IsHandle zone.new }
    ensures gives { IsZoneGiven files.now.value number result (held_in zone.new) }
{
    if number >= files.len() {
        return NO_SUCH;
    }
    match hold_member(alloc, files, number) {
        Ok(held) => {
            zone.put(held);
            OK
        }
        Err(_) => NO_MEMORY,
    }
}

/// Has a handle hold the zone of a file. The files stay while it does.
pub fn zone_of(alloc: Global, files: &mut Handle, number: usize, zone: &mut Handle) -> i32
    requires files { IsHandle files.old }
    requires zone { IsHandle zone.old }
    ensures unchanged { files.new ≡ files.old }
    ensures handle { IsHandle zone.new }
    ensures zone { MatchOption (files_in files.old)
        ((result ≡ NO_HANDLE) × (held_in zone.new ≡ None))
        (λ all. IsZoneGiven all number result (held_in zone.new)) }
{
    drop(zone.take(alloc));
    files.lend(
        alloc,
        &mut |held: &Held| match held.files() {
            Some(all) => put_zone(alloc, all, number, zone),
            None => NO_HANDLE,
        },
    )
}
