//! `pzic`: compiles time zone source to TZif files, converts instants by them, and reads such files. The
//! program is in `zic_program`: here it begins, and ends with its status.
//!
//! # What is proved
//!
//! `main` and the standard streams have no clause.
#![tactic(auto)]

mod standard;

use standard::Standard;
use std::process::ExitCode;
use zic_program::run;

/// The status where a standard stream is closed, and nothing can stand in for it.
const NO_STANDARD: u8 = 3;

fn main(rt: HostRuntime) -> ExitCode {
    let Ok(_standard) = Standard::hold(&rt) else {
        return ExitCode::from(NO_STANDARD);
    };
    match run(&rt, rt.stderr()) {
        Ok(()) => ExitCode::SUCCESS,
        Err(refusal) => {
            let _ = eprintln!(rt; "{refusal}");
            ExitCode::from(refusal.status())
        }
    }
}
