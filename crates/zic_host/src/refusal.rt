//! Why the program gives up, and the status that it then ends with.

ghost use Rattle.std.specs.Prelude.{◌≡◌};
ghost use Rattle.zic_host.specs.Status.{refusal_of, refusal_status};
ghost use Rattle.zic_host.specs.declared.refusal.Refusal.TheVariants.{Command};

use std::alloc::{AllocError, Global};
use thiserror::Error;
use zic_command_line::NoRequest;
use zic_explain::shown_word;
use zic_io::Failure;

/// Why the program gives up. Its text goes to standard error.
#[derive(Debug, Drop, Error)]
pub enum Refusal {
    /// The words ask for no command, or for help.
    #[error("{0}")]
    Usage(String),
    /// The command gave up.
    #[error("{0}")]
    Command(Failure),
    /// A folder doesn't have each file that sources give, as it is.
    #[error("tree differs")]
    Differs,
    /// The zones of two sources or folders differ.
    #[error("zones differ")]
    ZonesDiffer,
    /// No source begins with a line that names its release.
    #[error("no release in the sources")]
    NoRelease,
    /// The clock can't be read, which a comparison needs.
    #[error("cannot read clock; --now gives the date")]
    NoClock,
    /// The command gave up, and lines after the first explain why.
    #[error("{failure}\n{text}")]
    Explained { failure: Failure, text: String },
}

impl Refusal {
    /// Returns the status of a program that ends so: 2 for its words or for sources without a release, 1 where
    /// a folder or zones differ, 3 for the clock, else that of the command's failure.
    pub fn status(&self) -> u8
        ensures { result ≡ refusal_status self.now }
    {
        match self {
            Refusal::Usage(_) | Refusal::NoRelease => 2,
            Refusal::Differs | Refusal::ZonesDiffer => 1,
            Refusal::NoClock => 3,
            Refusal::Command(failure) | Refusal::Explained { failure, .. } => failure.status(),
        }
    }
}

impl Refusal {
    /// Returns the refusal as people see it: control characters of a path or a name in its first line are
    /// shown as `\x1b`, so that a terminal takes none for a command, and none begins a line of its own.
    pub fn shown(self, alloc: Global) -> Refusal {
        match self {
            Refusal::Command(failure) => Refusal::Command(shown_failure(alloc, failure)),
            Refusal::Explained { failure, text } => Refusal::Explained {
                failure: shown_failure(alloc, failure),
                text,
            },
            other => other,
        }
    }
}

/// Returns a failure with its path or name as it is shown, or that memory ran out.
pub fn shown_failure(alloc: Global, failure: Failure) -> Failure {
    match with_shown_word(alloc, failure) {
        Ok(failure) => failure,
        Err(_) => Failure::Memory,
    }
}

/// Returns a failure with its path or name as it is shown.
fn with_shown_word(alloc: Global, failure: Failure) -> Result<Failure, AllocError> {
    match failure {
        Failure::CannotRead(path) => Ok(Failure::CannotRead(shown_word(alloc, path.as_str())?)),
        Failure::CannotWrite(path) => Ok(Failure::CannotWrite(shown_word(alloc, path.as_str())?)),
        Failure::UnknownZone(name) => Ok(Failure::UnknownZone(shown_word(alloc, name.as_str())?)),
        other => Ok(other),
    }
}

impl From<NoRequest> for Refusal {
    ghost from_gives = { λ no_request e. e ≡ refusal_of no_request };

    fn from(no_request: NoRequest) -> Refusal {
        match no_request {
            NoRequest::Usage(text) => Refusal::Usage(text),
            NoRequest::Memory => Refusal::Command(Failure::Memory),
        }
    }
}

impl From<Failure> for Refusal {
    ghost from_gives = { λ failure e. e ≡ Command failure };

    fn from(failure: Failure) -> Refusal {
        Refusal::Command(failure)
    }
}
