//! The descriptors of standard input, output and error.

use std::fs::{File, OpenOptions};
use std::io;
use std::os::fd::AsFd;

/// A device that takes the place of what the program was started without.
const DEVICE: &str = "/dev/null";

/// The error of the system for a descriptor that is closed, `EBADF`.
const CLOSED: i32 = 9;

/// Holds the descriptors 0, 1 and 2, so that no file that is opened later has one of them. One that the
/// program was started without is open, but can't be used as the stream that it stands for: every read
/// of it, or every write to it, fails.
#[derive(Drop)]
pub(crate) struct Standard {
    _input: Option<File>,
    _output: Option<File>,
    _errors: Option<File>,
}

impl Standard {
    /// Opens the descriptors that are closed. No other file is opened before.
    ///
    /// # Errors
    ///
    /// One is closed, and the device can't be opened.
    pub(crate) fn hold(rt: &HostRuntime) -> io::Result<Standard> {
        // What is opened has the lowest descriptor that is closed.
        let input = if is_closed(rt.stdin()) {
            Some(OpenOptions::new().write(true).open(rt, DEVICE)?)
        } else {
            None
        };
        let output = if is_closed(rt.stdout()) {
            Some(File::open(rt, DEVICE)?)
        } else {
            None
        };
        let errors = if is_closed(rt.stderr()) {
            Some(File::open(rt, DEVICE)?)
        } else {
            None
        };
        Ok(Standard {
            _input: input,
            _output: output,
            _errors: errors,
        })
    }
}

/// Returns whether the descriptor of a stream is closed.
fn is_closed<S: AsFd + Drop>(stream: S) -> bool {
    match stream.as_fd().try_clone_to_owned() {
        Ok(_) => false,
        Err(e) => e.raw_os_error() == Some(CLOSED),
    }
}
