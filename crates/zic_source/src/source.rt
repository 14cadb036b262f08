//! Sources, and their limits.

ghost use Rattle.std.specs.Prelude.{◌≡◌, ◌<◌, length, slice_get, Some, IfSome};
ghost use Rattle.std.specs.Option.{ForSome};
ghost use Rattle.zic_source.specs.Source.{zone_at, lines_of_zone, set_rules};
ghost use Rattle.zic_source.specs.Links.{EndsAt};
ghost use Rattle.zic_source.specs.Sound.{IsSoundSource, IsSoundRule, IsSoundLine, IsSoundLink};

use crate::entries::Entries;
use crate::sets::Sets;
use std::marker::Model;
use zic_lines::{Link, Name, Rule, SetName, ZoneLine};

/// The lines of checked source texts, in the order of the texts and of their lines, with the rules
/// of each set and the zone at the end of each link's chain.
#[derive(Debug, Drop)]
pub struct Source {
    pub(crate) lines: Entries,
    pub(crate) sets: Sets,
    pub(crate) link_zones: Vec<usize>,
}

impl Model for Source {
    ghost use Rattle.zic_source.specs.Source.{SourceLines};

    ghost Value = { SourceLines };

    ghost use Rattle.zic_source.specs.code.Lines.{source_lines};
    ghost use Rattle.zic_source.specs.code.Source.{IsRight};

    ghost view = { λ s. source_lines s.lines };

    ghost invariant = { λ s. IsRight s.lines s.sets s.link_zones.items };
}

impl Source {
    /// Returns the number of Rule lines.
    pub fn rules(&self) -> usize
        ensures count { result ≡ length self.now.rules }
        ensures sound { IsSoundSource self.now }
    {
        self.lines.rules.len()
    }

    /// Returns a rule, by its number from 0 in the order of the texts and their lines.
    pub fn rule(&self, rule: usize) -> &Rule
        requires { rule < length self.now.rules }
        ensures rule { slice_get self.now.rules rule ≡ Some result.now }
        ensures sound { IsSoundRule result.now }
    {
        &self.lines.rules[rule]
    }

    /// Returns the numbers of the rules of a set, in rising order; none where no rule has the name.
    pub fn set_rules(&self, name: &SetName) -> &[usize]
        ensures { result.now ≡ set_rules name.now self.now.rules }
    {
        self.sets.numbers_of(name)
    }

    /// Returns the number of Zone lines.
    pub fn zones(&self) -> usize
        ensures count { result ≡ length self.now.zones }
        ensures sound { IsSoundSource self.now }
    {
        self.lines.zones.len()
    }

    /// Returns the name of a zone, by the zone's number from 0 in the order of the texts and their
    /// lines.
    pub fn zone_name(&self, zone: usize) -> &Name
        requires { zone < length self.now.zones }
        ensures { IfSome (zone_at self.now zone) (λ z. result.now ≡ z.name) }
    {
        &self.lines.zones[zone].name
    }

    /// Returns the number of lines of a zone: its Zone line and its continuation lines.
    pub fn lines(&self, zone: usize) -> usize
        requires { zone < length self.now.zones }
        ensures { IfSome (zone_at self.now zone) (λ z. result ≡ length (lines_of_zone z)) }
    {
        self.lines.zones[zone].lines()
    }

    /// Returns a line of a zone, by both numbers from 0; line 0 is the Zone line.
    pub fn line(&self, zone: usize, line: usize) -> &ZoneLine
        requires zone { zone < length self.now.zones }
        requires line { ForSome (zone_at self.now zone) (λ z. line < length (lines_of_zone z)) }
        ensures line { IfSome (zone_at self.now zone)
            (λ z. slice_get (lines_of_zone z) line ≡ Some result.now) }
        ensures sound { IsSoundLine self.now.rules result.now }
    {
        self.lines.zones[zone].line(line)
    }

    /// Returns the number of Link lines.
    pub fn links(&self) -> usize
        ensures count { result ≡ length self.now.links }
        ensures sound { IsSoundSource self.now }
    {
        self.lines.links.len()
    }

    /// Returns a link, by its number from 0 in the order of the texts and their lines.
    pub fn link(&self, link: usize) -> &Link
        requires { link < length self.now.links }
        ensures link { slice_get self.now.links link ≡ Some result.now }
        ensures sound { IsSoundLink self.now result.now }
    {
        &self.lines.links[link]
    }

    /// Returns the number of the zone at the end of a link's chain, by the link's number.
    pub fn link_zone(&self, link: usize) -> usize
        requires { link < length self.now.links }
        ensures end { IfSome (slice_get self.now.links link) (λ l. EndsAt self.now l result) }
        ensures within { result < length self.now.zones }
    {
        self.link_zones[link]
    }
}

/// The greatest number of Rule lines of a set.
pub const MAX_RULES_OF_SET: usize = 1000;

/// The greatest number of Rule lines.
pub const MAX_RULES: usize = 10_000;

/// The greatest number of Zone and continuation lines together.
pub const MAX_ZONE_LINES: usize = 10_000;

/// The greatest number of names of zones and links together.
pub const MAX_NAMES: usize = 10_000;
