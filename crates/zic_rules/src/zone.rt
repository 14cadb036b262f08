//! Zones of a source.

ghost use Rattle.std.specs.Prelude.{◌≡◌, ◌<◌, length};

use zic_base::Place;
use zic_source::{Source, ZoneLine};
use zic_states::ListedSource;

/// A zone of a source, by its number from 0 in the order of the texts and their lines.
#[derive(Clone, Copy)]
pub(crate) struct Zone<'a> {
    pub(crate) source: &'a Source,
    /// The source with what its zones share.
    pub(crate) listed: &'a ListedSource<'a>,
    pub(crate) number: usize,
    pub(crate) ghost is_zone: { number < length source.now.zones },
    pub(crate) ghost is_listed: { listed.now ≡ source.now },
}

impl<'a> Zone<'a> {
    ghost use Rattle.std.specs.Prelude.{◌≡◌, Some, IfSome, IsSomeAnd};
    ghost use Rattle.zic_source.specs.Source.{lines_of_zone};
    ghost use Rattle.zic_source.specs.Sound.{IsSoundLine};
    ghost use Rattle.zic_states.specs.Zone.{lines_of, line_at};
    ghost use Rattle.zic_rules.specs.code.Period.{the_zone, HasLine};

    /// Returns the number of lines of the zone: its Zone line and its continuation lines.
    pub(crate) fn lines(self) -> usize
        ensures { IfSome (lines_of (the_zone self.entry))
            (λ lines. result ≡ length (lines_of_zone lines)) }
    {
        self.source.lines(self.number)
    }

    /// Returns a line of the zone by its number from 0; line 0 is the Zone line.
    pub(crate) fn line(self, number: usize) -> &'a ZoneLine
        requires { HasLine (the_zone self) number }
        ensures line { line_at (the_zone self.entry) number ≡ Some result.now }
        ensures sound { IsSoundLine self.entry.source.now.rules result.now }
    {
        self.source.line(self.number, number)
    }

    /// Returns the place of the Zone line.
    pub(crate) fn place(self) -> Place
        ensures { IsSomeAnd (lines_of (the_zone self.entry))
            (λ lines. result ≡ lines.first.place) }
    {
        self.line(0).place
    }
}
