//! `build --links`: compiles texts, and places the files of zones and the links of Link lines in a
//! folder.

ghost use Rattle.std.specs.Prelude.{◌≡◌, ◌≢◌, ◌<◌, ◌⊎◌, [], ◌∷◌, ◌++◌, List, map, true, length, slice_get, IfOk, IfErr, IfSome, IsSomeAnd, OnOk, OnErr, string_bytes};
ghost use Rattle.std.specs.List.{AllZip};
ghost use Rattle.zic_lines.specs.Name.{is_name};
ghost use Rattle.zic_source.specs.Source.{zone_at};
ghost use Rattle.zic_source.specs.Texts.{texts_of};
ghost use Rattle.zic_compile.specs.Files.{AreFilesOf};
ghost use Rattle.zic_files.specs.File.{File};
ghost use Rattle.zic_bulk.specs.Failing.{IsFailureOfFolder, IsFailureOfTexts};
ghost use Rattle.zic_bulk.specs.Linking.{target_of, way_up, AreBuiltLinked, IsFailureOfLinked, IsFailureOfLinks, IsFileNamed, IsLinkOf, IsUnlinked};
ghost use Rattle.zic_base.specs.Growth.{Gains};
ghost use Rattle.zic_io.specs.Tree.{Linked};
ghost use Rattle.zic_bulk.specs.Tree.{in_folder};

use crate::build_command::{path_of, place_file, with_name};
use crate::compiler::{files_of, source_of};
use std::alloc::{AllocError, Global};
use std::sync::Wait;
use std::thread::Threads;
use zic_files::Files;
use zic_io::{Failure, LinkKind, LinkedFolder, Tree, Unplaced};
use zic_layouts::Plan;
use zic_source::Source;

/// Compiles the texts, by the plan's workers, and places the file of each zone in the folder of a
/// tree under its name, and then for each Link line, under its name, a link to the file of the zone
/// at the end of its chain. Both go in the order of the texts and their lines. Nothing is placed
/// where there is no zone.
///
/// # Errors
///
/// Why the texts have no files, or the first file or link that can't be placed, named by the folder
/// and its name; what comes before it stays.
pub fn build_linked<T: Threads + Wait + Sync, D: Tree>(
    rt: &T,
    alloc: Global,
    plan: &Plan,
    texts: &[Vec<u8>],
    tree: &mut D,
    folder: &LinkedFolder<'_>,
) -> Result<(), Failure>
    ensures ok { OnOk result (AreBuiltLinked (texts_of texts.now) folder.now
        (D.placed tree.old) (D.placed tree.new) (D.linked tree.old) (D.linked tree.new)) }
    ensures err { IfErr result (λ failure.
        (IsFailureOfTexts (texts_of texts.now) failure × (tree.new ≡ tree.old))
        ⊎ IsFailureOfLinked (D.refused tree.new) (texts_of texts.now) folder.now
        (D.placed tree.old) (D.placed tree.new) (D.linked tree.old) (D.linked tree.new) failure) }
{
    let source = source_of(alloc, texts)?;
    let files = files_of(rt, alloc, plan, texts)?;
    place_zones(alloc, &source, &files, tree, folder.path)?;
    place_links(alloc, &source, tree, folder)
}

/// Places the file of each zone in the folder, in order.
fn place_zones<D: Tree>(
    alloc: Global,
    source: &Source,
    files: &Files,
    tree: &mut D,
    folder: &str,
) -> Result<(), Failure>
    requires { AreFilesOf source.now files.now }
    ensures ok { OnOk result ((zones : List File)
        × AllZip (IsFileNamed files.now) source.now.zones zones
        × Gains (D.placed tree.old) (D.placed tree.new) (map (in_folder folder.now) zones)) }
    ensures named { OnOk result (source.now.zones ≢ [] → folder.now ≢ []) }
    ensures err { IfErr result (λ failure. (zones : List File)
        × AllZip (IsFileNamed files.now) source.now.zones zones
        × IsFailureOfFolder (D.refused tree.new) folder.now zones
        (D.placed tree.old) (D.placed tree.new) failure) }
    ensures links { Gains (D.linked tree.old) (D.linked tree.new) [] }
{
    for zone in 0..source.zones() {
        place_file(alloc, files, zone_file(source, files, zone), tree, folder)?;
    }
    Ok(())
}

/// Returns the number of the file of a zone.
fn zone_file(source: &Source, files: &Files, zone: usize) -> usize
    requires files { AreFilesOf source.now files.now }
    requires zone { zone < length source.now.zones }
    ensures { IfSome (zone_at source.now zone)
        (λ lines. IsSomeAnd (slice_get files.now result) (λ file. file.name ≡ lines.name)) }
{
    // `zones` also states that the source is sound.
    prove!(zone < source.zones());
    match files.find(source.zone_name(zone).octets()) {
        Some(file) => file,
        None => unreachable!(),
    }
}

/// Places the link of each Link line in the folder, in order.
fn place_links<D: Tree>(
    alloc: Global,
    source: &Source,
    tree: &mut D,
    folder: &LinkedFolder<'_>,
) -> Result<(), Failure>
    ensures ok { OnOk result ((links : List Linked)
        × AllZip (IsLinkOf source.now folder.now) source.now.links links
        × Gains (D.linked tree.old) (D.linked tree.new) links) }
    ensures err { IfErr result (IsFailureOfLinks (D.refused tree.new) source.now folder.now
        (D.linked tree.old) (D.linked tree.new)) }
    ensures files { Gains (D.placed tree.old) (D.placed tree.new) [] }
{
    for link in 0..source.links() {
        place_link(alloc, source, link, tree, folder)?;
    }
    Ok(())
}

/// Places the link of the Link line of this number in the folder.
fn place_link<D: Tree>(
    alloc: Global,
    source: &Source,
    link: usize,
    tree: &mut D,
    folder: &LinkedFolder<'_>,
) -> Result<(), Failure>
    requires { link < length source.now.links }
    ensures ok { OnOk result (IfSome (slice_get source.now.links link) (λ line. (made : Linked)
        × IsLinkOf source.now folder.now line made
        × Gains (D.linked tree.old) (D.linked tree.new) (made ∷ []))) }
    ensures keeps { OnErr result (Gains (D.linked tree.old) (D.linked tree.new) []) }
    ensures files { Gains (D.placed tree.old) (D.placed tree.new) [] }
    ensures err { IfErr result (λ failure. IfSome (slice_get source.now.links link)
        (λ line. IsUnlinked (D.refused tree.new) folder.now line.name failure)) }
{
    let name = source.link(link).name.octets();
    let zone = source.zone_name(source.link_zone(link)).octets();
    let path = path_of(alloc, folder.path, name)?;
    let target = target_of(alloc, folder, name, zone)?;
    match tree.link(folder.kind, target.as_str(), path.as_str()) {
        Ok(()) => Ok(()),
        Err(Unplaced::Refused) => Err(Failure::CannotWrite(path)),
        Err(Unplaced::Memory) => Err(Failure::Memory),
    }
}

/// Returns what the link at this name is made of, where it leads to the file of the zone of that
/// name.
fn target_of(
    alloc: Global,
    folder: &LinkedFolder<'_>,
    name: &[u8],
    zone: &[u8],
) -> Result<String, AllocError>
    requires { is_name zone.now ≡ true }
    ensures { IfOk result (λ target.
        string_bytes target ≡ target_of folder.now.kind folder.now.path.now name.now zone.now) }
{
    match folder.kind {
        LinkKind::Hard => path_of(alloc, folder.path, zone),
        LinkKind::Symbolic => with_name(way_up(alloc, name)?, zone),
    }
}

/// Returns the way from the folder of the file of this name up to the folder of the tree.
fn way_up(alloc: Global, name: &[u8]) -> Result<String, AllocError>
    ensures { IfOk result (λ way. string_bytes way ≡ way_up name.now) }
{
    let mut way = String::new(alloc);
    for byte in name {
        if *byte == b'/' {
            way.push_str("../")?;
        }
    }
    Ok(way)
}
