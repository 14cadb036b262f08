//! Source texts, line by line.

ghost use Rattle.std.specs.Prelude.{◌≡◌, ◌≤◌, ◌<◌, ◌&&◌, ◌∷◌, [], true, false, not, None, Some, length, map, IfOk, OnOk};
ghost use Rattle.zic_base.specs.Check.{check, first_failed};
ghost use Rattle.zic_base.specs.declared.fault.Kind.TheVariants.{DuplicateName, TooMany};
ghost use Rattle.zic_base.specs.Fault.{fault_of, IsFirstFailed};
ghost use Rattle.zic_base.specs.Memory.{IfRefusal, NeverRefuses, OnOutOfMemory};
ghost use Rattle.zic_lines.specs.declared.entry.Entry.TheVariants as entries;
ghost use Rattle.zic_lines.specs.Entry.{is_continuation};
ghost use Rattle.zic_lines.specs.Line.{lines_of};
ghost use Rattle.zic_lines.specs.declared.field.TheConstants.{LONGEST_LINE};
ghost use Rattle.zic_source.specs.Source.{SourceLines};
ghost use Rattle.zic_source.specs.code.Lines.{no_lines, source_lines};
ghost use Rattle.zic_source.specs.Event.{Line, text_events, events_of};
ghost use Rattle.zic_source.specs.Texts.{texts_of};
ghost use Rattle.zic_source.specs.Grammar.{is_open, IsSource};
ghost use Rattle.zic_source.specs.Checks.{entry_checks, has_room_for_line, has_room_for_name};
ghost use Rattle.zic_source.specs.FirstFault.{Fails, IsFirstFault, MayRunOutOfMemory};
ghost use Rattle.zic_source.specs.Links.{is_named};
ghost use Rattle.zic_source.specs.declared.owners.Owner.TheVariants as owners;
ghost use Rattle.zic_source.specs.code.Adding.{with_entry, zone_checks, link_checks};
ghost use Rattle.zic_source.specs.code.Owners.{Gives};
ghost use Rattle.zic_source.specs.code.Reader.{Tracks};
ghost use Rattle.zic_source.specs.code.Events.{Adds, Leads, FailsIn, WantsIn};

use crate::entries::Entries;
use crate::owners::{Owner, Owners};
use crate::sets::Sets;
use crate::source::{MAX_NAMES, MAX_RULES, MAX_ZONE_LINES, Source};
use crate::whole::check_whole;
use memchr::memchr;
use std::alloc::Global;
use zic_lines::{Entry, Fields, Kind, Link, Name, Place, Rule, Stop, ZoneLine, line_entry};

/// Returns the first line of a text, and the rest after it.
fn first_line(text: &[u8]) -> (&[u8], &[u8])
    requires { 0 < length text.now }
    ensures line { lines_of text.now ≡ result.0.now ∷ lines_of result.1.now }
    ensures shorter { length result.1.now < length text.now }
{
    match memchr(b'\n', text) {
        None => (text, &[]),
        Some(end) => (&text[..end], &text[end + 1..]),
    }
}

/// The entries that were read so far, and whether there may be more.
#[derive(Drop)]
struct Reader<'a> {
    lines: Entries,
    /// The rules of each set.
    sets: Sets,
    /// The zones and links by their names.
    names: Owners,
    /// The number of Zone and continuation lines.
    zone_lines: usize,
    fields: Fields<'a>,
}

impl<'a> Reader<'a> {
    /// Returns a reader that has read nothing. Takes no memory.
    fn new(alloc: Global) -> Self
        ensures lines { source_lines result.lines ≡ no_lines }
        ensures tracks { Tracks result }
    {
        Reader {
            lines: Entries::new(alloc),
            sets: Sets::new(alloc),
            names: Owners::new(alloc),
            zone_lines: 0,
            fields: Fields::new(alloc),
        }
    }

    /// Returns whether there may be one more Zone or continuation line.
    fn has_room_for_line(&self) -> bool
        requires { Tracks self.now }
        ensures { result ≡ has_room_for_line (source_lines self.now.lines) }
    {
        self.zone_lines < MAX_ZONE_LINES
    }

    /// Returns whether there may be one more name.
    fn has_room_for_name(&self) -> bool
        ensures { result ≡ has_room_for_name (source_lines self.now.lines) }
    {
        self.lines.links.len() < MAX_NAMES.saturating_sub(self.lines.zones.len())
    }

    /// Returns whether there may be one more zone.
    fn has_room_for_zone(&self) -> bool
        requires { Tracks self.now }
        ensures { result ≡ (has_room_for_line (source_lines self.now.lines)
            && has_room_for_name (source_lines self.now.lines)) }
    {
        self.has_room_for_line() && self.has_room_for_name()
    }

    /// Returns the kind of fault of a line that gives this name where there is no room for it.
    #[cold]
    fn no_room(&self, name: &Name) -> Kind
        requires { Tracks self.now }
        ensures { first_failed
            (check (not (is_named (source_lines self.now.lines) name.now)) DuplicateName
            ∷ check false TooMany ∷ []) ≡ Some result }
    {
        match self.names.get(name) {
            Some(_) => Kind::DuplicateName,
            None => Kind::TooMany,
        }
    }

    /// Adds a rule, where there may be one more of its set and of all.
    fn add_rule(&mut self, alloc: Global, place: Place, rule: Rule) -> Result<(), Stop>
        requires { Tracks self.old }
        ensures added { OnOk result
            (Adds (source_lines self.old.lines) (entries.Rule rule)
            (source_lines self.new.lines)) }
        ensures tracks { OnOk result (Tracks self.new) }
        ensures fault { IfRefusal fault_of result
            (IsFirstFailed place
            (entry_checks (source_lines self.old.lines) (entries.Rule rule))) }
        ensures memory { OnOutOfMemory fault_of result
            (first_failed (entry_checks (source_lines self.old.lines) (entries.Rule rule))
            ≡ None) }
    {
        let number = self.lines.rules.len();
        if number >= MAX_RULES {
            return Err(Stop::at(place, Kind::TooMany));
        }
        self.sets.add(alloc, place, &rule.name, number)?;
        self.lines.rules.push(rule)?;
        Ok(())
    }

    /// Gives a name to the next zone, where the name is new and there may be one more zone.
    fn name_zone(&mut self, place: Place, name: &Name) -> Result<(), Stop>
        requires { Tracks self.old }
        ensures others { self.new ≡ record self.old { names = self.new.names } }
        ensures passes { OnOk result
            (first_failed (zone_checks (source_lines self.old.lines) name.now) ≡ None) }
        ensures names { OnOk result
            (Gives self.old.names name.now (owners.Zone (length self.old.lines.zones.items))
            self.new.names) }
        ensures fault { IfRefusal fault_of result
            (IsFirstFailed place (zone_checks (source_lines self.old.lines) name.now)) }
        ensures memory { OnOutOfMemory fault_of result
            (first_failed (zone_checks (source_lines self.old.lines) name.now) ≡ None) }
    {
        if !self.has_room_for_zone() {
            return Err(Stop::at(place, self.no_room(name)));
        }
        let number = self.lines.zones.len();
        self.names.give_new(place, name, Owner::Zone(number))
    }

    /// Gives a name to the next link, where the name is new and there may be one more name.
    fn name_link(&mut self, place: Place, name: &Name) -> Result<(), Stop>
        requires { Tracks self.old }
        ensures others { self.new ≡ record self.old { names = self.new.names } }
        ensures passes { OnOk result
            (first_failed (link_checks (source_lines self.old.lines) name.now) ≡ None) }
        ensures names { OnOk result
            (Gives self.old.names name.now (owners.Link (length self.old.lines.links.items))
            self.new.names) }
        ensures fault { IfRefusal fault_of result
            (IsFirstFailed place (link_checks (source_lines self.old.lines) name.now)) }
        ensures memory { OnOutOfMemory fault_of result
            (first_failed (link_checks (source_lines self.old.lines) name.now) ≡ None) }
    {
        if !self.has_room_for_name() {
            return Err(Stop::at(place, self.no_room(name)));
        }
        let number = self.lines.links.len();
        self.names.give_new(place, name, Owner::Link(number))
    }

    /// Adds a zone, where its name is new and there may be one more.
    fn add_zone(
        &mut self,
        alloc: Global,
        place: Place,
        name: Name,
        line: ZoneLine,
    ) -> Result<(), Stop>
        requires { Tracks self.old }
        ensures added { OnOk result
            (Adds (source_lines self.old.lines) (entries.Zone name line)
            (source_lines self.new.lines)) }
        ensures tracks { OnOk result (Tracks self.new) }
        ensures fault { IfRefusal fault_of result
            (IsFirstFailed place
            (entry_checks (source_lines self.old.lines) (entries.Zone name line))) }
        ensures memory { OnOutOfMemory fault_of result
            (first_failed (entry_checks (source_lines self.old.lines) (entries.Zone name line))
            ≡ None) }
    {
        self.name_zone(place, &name)?;
        self.lines.add_zone(alloc, name, line)?;
        self.zone_lines += 1;
        Ok(())
    }

    /// Adds a continuation line to the last zone, where there may be one more.
    fn add_continuation(&mut self, place: Place, line: ZoneLine) -> Result<(), Stop>
        requires tracks { Tracks self.old }
        requires there { 0 < length self.old.lines.zones.items }
        ensures added { OnOk result
            (Adds (source_lines self.old.lines) (entries.Continuation line)
            (source_lines self.new.lines)) }
        ensures tracks { OnOk result (Tracks self.new) }
        ensures fault { IfRefusal fault_of result
            (IsFirstFailed place
            (entry_checks (source_lines self.old.lines) (entries.Continuation line))) }
        ensures memory { OnOutOfMemory fault_of result
            (first_failed (entry_checks (source_lines self.old.lines) (entries.Continuation line))
            ≡ None) }
    {
        if !self.has_room_for_line() {
            return Err(Stop::at(place, Kind::TooMany));
        }
        self.lines.continue_zone(line)?;
        self.zone_lines += 1;
        Ok(())
    }

    /// Adds a link, where its name is new and there may be one more.
    fn add_link(&mut self, place: Place, link: Link) -> Result<(), Stop>
        requires { Tracks self.old }
        ensures added { OnOk result
            (Adds (source_lines self.old.lines) (entries.Link link)
            (source_lines self.new.lines)) }
        ensures tracks { OnOk result (Tracks self.new) }
        ensures fault { IfRefusal fault_of result
            (IsFirstFailed place
            (entry_checks (source_lines self.old.lines) (entries.Link link))) }
        ensures memory { OnOutOfMemory fault_of result
            (first_failed (entry_checks (source_lines self.old.lines) (entries.Link link))
            ≡ None) }
    {
        self.name_link(place, &link.name)?;
        self.lines.links.push(link)?;
        Ok(())
    }

    /// Adds the entry of a line.
    fn add(&mut self, alloc: Global, place: Place, entry: Entry) -> Result<(), Stop>
        requires tracks { Tracks self.old }
        requires awaited { is_continuation entry ≡ true
            → is_open (source_lines self.old.lines) ≡ true }
        ensures added { OnOk result
            (Adds (source_lines self.old.lines) entry (source_lines self.new.lines)) }
        ensures tracks { OnOk result (Tracks self.new) }
        ensures fault { IfRefusal fault_of result
            (IsFirstFailed place (entry_checks (source_lines self.old.lines) entry)) }
        ensures memory { OnOutOfMemory fault_of result
            (first_failed (entry_checks (source_lines self.old.lines) entry) ≡ None) }
    {
        match entry {
            Entry::Rule(rule) => self.add_rule(alloc, place, rule),
            Entry::Zone(name, line) => self.add_zone(alloc, place, name, line),
            Entry::Continuation(line) => self.add_continuation(place, line),
            Entry::Link(link) => self.add_link(place, link),
        }
    }

    /// Reads a line, which may be blank.
    fn read_line(&mut self, alloc: Global, place: Place, line: &'a [u8]) -> Result<(), Stop>
        requires { Tracks self.old }
        ensures read { OnOk result (Leads (source_lines self.old.lines)
            (Line (record { place = place; bytes = line.now }) ∷ [])
            (source_lines self.new.lines)) }
        ensures tracks { OnOk result (Tracks self.new) }
        ensures fault { IfRefusal fault_of result (Fails (source_lines self.old.lines)
            (Line (record { place = place; bytes = line.now }))) }
        ensures memory { OnOutOfMemory fault_of result (length line.now ≤ LONGEST_LINE) }
    {
        self.fields.take_line(alloc, place, line)?;
        if self.fields.len() == 0 {
            return Ok(());
        }
        let awaited = self.lines.open_place().is_some();
        let entry = line_entry(alloc, awaited, place, &self.fields)?;
        self.add(alloc, place, entry)
    }

    /// Reads a text, at whose end no continuation line may be awaited.
    fn read_text(&mut self, alloc: Global, number: u64, text: &'a [u8]) -> Result<(), Stop>
        requires { Tracks self.old }
        ensures read { OnOk result (Leads (source_lines self.old.lines)
            (text_events number text.now) (source_lines self.new.lines)) }
        ensures tracks { OnOk result (Tracks self.new) }
        ensures fault { IfRefusal fault_of result
            (FailsIn (source_lines self.old.lines) (text_events number text.now)) }
        ensures memory { OnOutOfMemory fault_of result
            (WantsIn (source_lines self.old.lines) (text_events number text.now)) }
    {
        let mut rest = text;
        let mut line = 0;
        while !rest.is_empty() {
            let (bytes, others) = first_line(rest);
            line += 1;
            self.read_line(alloc, Place { text: number, line }, bytes)?;
            rest = others;
        }
        match self.lines.open_place() {
            None => Ok(()),
            Some(place) => Err(Stop::at(place, Kind::NoContinuation)),
        }
    }
}

/// Reads the lines of the texts, up to the first fault of a line or a text's end.
fn read_texts<'a>(alloc: Global, texts: &'a [Vec<u8>]) -> Result<Reader<'a>, Stop>
    ensures read { IfOk result (λ reader. Leads no_lines
        (events_of (texts_of texts.now)) (source_lines reader.lines)) }
    ensures tracks { IfOk result Tracks }
    ensures fault { IfRefusal fault_of result (FailsIn no_lines (events_of (texts_of texts.now))) }
    ensures memory { OnOutOfMemory fault_of result
        (WantsIn no_lines (events_of (texts_of texts.now))) }
{
    let mut reader = Reader::new(alloc);
    for (index, text) in texts.iter().enumerate() {
        reader.read_text(alloc, index as u64 + 1, text)?;
    }
    Ok(reader)
}

/// Reads the source that the texts are, or returns the first fault.
///
/// The first fault is that of the least text, in it of the least line, and in a line the one that
/// comes first in this order: the line's length, a byte that may not stand outside a comment, a
/// quoted part that isn't closed, the keyword, the number of fields, the fields from left to right
/// (TO below FROM directly after TO), the name that was there before, the limit. A text without
/// such a fault that ends after an UNTIL has one at the line of that UNTIL, before any of a later
/// text. Where no text has a fault, it is that of the first line that names a set without a rule,
/// or of a link whose chain doesn't end at a zone.
pub fn read_source(alloc: Global, texts: &[Vec<u8>]) -> Result<Source, Stop>
    // The texts that are read make a source, and this one.
    ensures found { IfOk result (λ source. IsSource (texts_of texts.now) source) }
    // Texts that make a source are read, unless memory runs out.
    ensures only { (source : SourceLines) → IsSource (texts_of texts.now) source
        → NeverRefuses fault_of result }
    // A fault is the first.
    ensures first { IfRefusal fault_of result (IsFirstFault (texts_of texts.now)) }
    // Out of memory comes only at a line before which all is read, or where all is read.
    ensures memory { OnOutOfMemory fault_of result (MayRunOutOfMemory (texts_of texts.now)) }
{
    let reader = read_texts(alloc, texts)?;
    let link_zones = check_whole(alloc, &reader.lines, &reader.sets, &reader.names)?;
    Ok(Source {
        lines: reader.lines,
        sets: reader.sets,
        link_zones,
    })
}
