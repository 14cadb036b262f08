//! TZif files from bytes.

ghost use Rattle.std.specs.Prelude.{◌≡◌, ◌+◌, ◌≤◌, ◌⊎◌, [], None, length, take, drop, IfOk};
ghost use Rattle.std.specs.Bool.{Decides};
ghost use Rattle.std.specs.Option.{MatchOption};
ghost use Rattle.zic_base.specs.Check.{first_failed};
ghost use Rattle.zic_base.specs.Memory.{IfRefusal, NeverRefuses, OnOutOfMemory};
ghost use Rattle.zic_base.specs.State.{shown};
ghost use Rattle.zic_posix.specs.Parsing.{NeedsMemory};
ghost use Rattle.zic_tzif.specs.Content.{IsFooter, type_state};
ghost use Rattle.zic_tzif.specs.Header.{second_header, footer_place};
ghost use Rattle.zic_tzif.specs.Reading.{first_checks, second_checks, footer_checks, checks, HasFooter, IsFile, IsSomeFile, IsFault, ReadNeedsMemory, reason_of};
ghost use Rattle.zic_tzif.specs.code.StoredContent.{IsSoundContent};
ghost use Rattle.zic_tzif.specs.code.Stored.{stored_content};
ghost use Rattle.zic_tzif.specs.code.Parts.{Checks, IsFirstPart, IsBlock, IsText, AreParts, DoesAgree, checks_of, content_of};

use crate::content::LocalType;
use crate::data_block::DataBlock;
use crate::designation::{designation, place_of};
use crate::header::{HEADER_LENGTH, counts_at};
use crate::reason::{ReadStop, Reason};
use crate::stored::Stored;
use crate::times::Times;
use crate::transition::{last_change, times};
use crate::type_record::type_at;
use crate::zone::Zone;
use std::alloc::{AllocError, Global};
use zic_base::{LONGEST_FILE, State};
use zic_posix::laws::means_one_state;
use zic_posix::{Footer, ParseStop, parse, spells_at_most_one};

/// The bytes with which a header begins.
const MAGIC: &[u8] = b"TZif";

/// The version of a file, and the place of its second header, as the first header gives them.
#[derive(Clone, Copy)]
pub struct FirstPart {
    /// The version, 2 or 3.
    pub version: u8,
    /// The place of the second header.
    pub second_header: usize,
}

/// The parts of a file that passes all checks up to the footer's newlines.
#[derive(Clone, Copy)]
pub struct Parts<'a> {
    /// The version, 2 or 3.
    pub version: u8,
    /// The second data block.
    pub block: DataBlock<'a>,
    /// The footer's text.
    pub text: &'a [u8],
}

/// Checks the first header, and that its data block and a second header are there.
fn first_part(octets: &[u8]) -> Result<FirstPart, Reason>
    ensures { Checks (first_checks octets.now) (IsFirstPart octets.now) result }
{
    if octets.len() > LONGEST_FILE {
        return Err(Reason::TooLarge);
    }
    if octets.len() < HEADER_LENGTH {
        return Err(Reason::Short);
    }
    if &octets[..4] != MAGIC {
        return Err(Reason::Magic);
    }
    let version = match octets[4] {
        b'2' => 2,
        b'3' => 3,
        _ => return Err(Reason::Version),
    };
    let counts = counts_at(octets, 0);
    if counts.leap_seconds != 0 {
        return Err(Reason::LeapSeconds);
    }
    let second_header = HEADER_LENGTH + counts.block_length(4);
    if octets.len() < second_header + HEADER_LENGTH {
        return Err(Reason::Short);
    }
    Ok(FirstPart {
        version,
        second_header,
    })
}

/// Returns the bytes with which the header at a place begins: `TZif` and the version.
fn mark_at(octets: &[u8], place: usize) -> &[u8]
    requires { place + 44 ≤ length octets.now }
    ensures { result.now ≡ take 5 (drop place octets.now) }
{
    &octets[place..place + 5]
}

/// Checks the second header, and that its data block is there.
fn second_part(octets: &[u8], header: usize) -> Result<DataBlock<'_>, Reason>
    requires place { header ≡ second_header octets.now }
    requires inside { header + 44 ≤ length octets.now }
    ensures { Checks (second_checks octets.now) (IsBlock octets.now) result }
{
    if mark_at(octets, header) != mark_at(octets, 0) {
        return Err(Reason::HeadersDiffer);
    }
    let counts = counts_at(octets, header);
    if !counts.are_readable() {
        return Err(Reason::Counts);
    }
    if counts.leap_seconds != 0 {
        return Err(Reason::LeapSeconds);
    }
    let place = header + HEADER_LENGTH;
    if octets.len() < place + counts.block_length(8) {
        return Err(Reason::Short);
    }
    Ok(DataBlock::second(octets, place, counts))
}

/// Returns the footer's text, between the newline at `place` and the next.
fn footer_text(octets: &[u8], place: usize) -> Result<&[u8], Reason>
    requires { place ≡ footer_place octets.now }
    ensures { Checks (footer_checks octets.now) (λ t. IsText octets.now t.now) result }
{
    if octets.len() <= place {
        return Err(Reason::Short);
    }
    if octets[place] != b'\n' {
        return Err(Reason::Footer);
    }
    let rest = &octets[place + 1..];
    match place_of(rest, b'\n') {
        None => Err(Reason::Short),
        Some(end) => Ok(&rest[..end]),
    }
}

/// Returns the parts of a file, by all checks up to the footer's newlines.
fn parts_of(octets: &[u8]) -> Result<Parts<'_>, Reason>
    ensures { Checks (checks octets.now) (AreParts octets.now) result }
{
    let first = first_part(octets)?;
    let block = second_part(octets, first.second_header)?;
    block.check()?;
    let text = footer_text(octets, block.end)?;
    Ok(Parts {
        version: first.version,
        block,
        text,
    })
}

/// Returns whether a state is that of local time of this type.
fn is_state_of(state: &State<'_>, local_type: LocalType, names: &[u8]) -> bool
    requires { local_type.place ≤ length names.now }
    ensures { Decides result (shown state.now ≡ type_state names.now local_type) }
{
    state.offset == local_type.offset
        && state.daylight == local_type.daylight
        && state.name == designation(names, local_type.place)
}

/// Returns whether the footer means, at the last transition, the type that begins there. With no
/// transition it agrees.
fn does_agree(parts: &Parts<'_>, footer: &Footer) -> bool
    requires { first_failed (checks_of parts.now.block) ≡ None }
    ensures { Decides result (DoesAgree (content_of parts.now) footer.now) }
{
    let block = &parts.block;
    let Some(change) = last_change(block.times, block.numbers) else {
        return true;
    };
    let local_type = type_at(block.types, block.records, change.number);
    // The footer means no other state.
    means_one_state();
    is_state_of(&footer.state(change.instant), local_type, block.names)
}

/// Parses the footer's text. Returns `None` for no text.
fn footer_of(alloc: Global, parts: &Parts<'_>) -> Result<Option<Footer>, ReadStop>
    requires version { (parts.now.version ≡ 2) ⊎ (parts.now.version ≡ 3) }
    requires passes { first_failed (checks_of parts.now.block) ≡ None }
    ensures ok { IfOk result (λ footer.
        MatchOption footer (parts.now.text.now ≡ []) (IsFooter (content_of parts.now))) }
    ensures err { IfRefusal reason_of result
        (λ reason. (reason ≡ Reason.Footer) × (HasFooter (content_of parts.now) → ⊥)) }
    ensures memory { OnOutOfMemory reason_of result
        (NeedsMemory parts.now.version parts.now.text.now) }
{
    if parts.text.is_empty() {
        return Ok(None);
    }
    // No other footer of this text may agree.
    spells_at_most_one();
    match parse(alloc, parts.text, parts.version) {
        Ok(footer) => {
            if does_agree(parts, &footer) {
                Ok(Some(footer))
            } else {
                Err(ReadStop::Bad(Reason::Footer))
            }
        }
        Err(ParseStop::BadFooter) => Err(ReadStop::Bad(Reason::Footer)),
        Err(ParseStop::Memory) => Err(ReadStop::Memory),
    }
}

/// Copies a zone out of these parts, with the footer of their text.
fn zone_of(alloc: Global, parts: &Parts<'_>, footer: Option<Footer>) -> Result<Zone, AllocError>
    requires { IsSoundContent (content_of parts.now) footer }
    ensures { IfOk result (λ zone. zone ≡ content_of parts.now) }
{
    let stored = stored_of(alloc, parts)?;
    Zone::new(alloc, stored, footer)
}

/// Copies what a zone keeps out of these parts.
fn stored_of(alloc: Global, parts: &Parts<'_>) -> Result<Stored, AllocError>
    ensures as_many { IfOk result
        (λ stored. length stored.times.times.items ≡ length stored.numbers.items) }
    ensures content { IfOk result (λ stored. stored_content stored ≡ content_of parts.now) }
{
    let block = &parts.block;
    let times = times(alloc, block.numbers.len(), block.times)?;
    let times = Times::new(alloc, times)?;
    let mut stored = Stored::new(alloc, parts.version, times);
    stored.copy(alloc, parts)?;
    Ok(stored)
}

/// Reads a TZif file of version 2 or 3 of at most 1,048,576 bytes, or returns the first check that
/// it fails.
///
/// The content of the first data block and the reserved bytes aren't looked at. Returns `Memory`
/// only for bytes that are a file, or whose footer's text has a name of more than 16 bytes, once
/// all before it passes. The memory that is requested lies within what the bytes hold.
pub fn read(alloc: Global, octets: &[u8]) -> Result<Zone, ReadStop>
    ensures ok { IfOk result (IsFile octets.now) }
    ensures only { IsSomeFile octets.now → NeverRefuses reason_of result }
    ensures err { IfRefusal reason_of result (IsFault octets.now) }
    ensures memory { OnOutOfMemory reason_of result (ReadNeedsMemory octets.now) }
{
    let parts = parts_of(octets)?;
    let footer = footer_of(alloc, &parts)?;
    let end = parts.block.end + parts.text.len() + 2;
    if octets.len() != end {
        return Err(ReadStop::Bad(Reason::TrailingBytes));
    }
    Ok(zone_of(alloc, &parts, footer)?)
}
