//! How a command ends that doesn't give up.

ghost use Rattle.std.specs.Prelude.{◌≡◌};
ghost use Rattle.zic_folders.specs.Ending.{diff_ending, ending_of};

/// How a command ends that doesn't give up.
#[derive(Clone, Copy, Debug, PartialEq, Eq)]
pub enum Ending {
    Done,
    /// A folder lacks files of sources, or has others.
    Differs,
    /// The zones of two sources or folders differ, and the status is to tell it.
    ZonesDiffer,
    /// No source names the release that a folder is to be of.
    NoRelease,
    /// A comparison needs the date, and the clock can't be read.
    NoClock,
}

impl Ending {
    /// Returns how a comparison of zones ends, by whether the status is to tell it and whether they
    /// differ.
    pub(crate) fn of_zones(tells_status: bool, differ: bool) -> Ending
        ensures { result ≡ diff_ending tells_status differ }
    {
        if tells_status && differ {
            Ending::ZonesDiffer
        } else {
            Ending::Done
        }
    }

    /// Returns how a comparison ends that found what these lines say.
    pub(crate) fn of(findings: &[u8]) -> Ending
        ensures { result ≡ ending_of findings.now }
    {
        if findings.is_empty() {
            Ending::Done
        } else {
            Ending::Differs
        }
    }
}
