//! The program: does what the words of the process ask for, and explains a failure if they ask for that.
//!
//! # What is proved
//!
//! `run` does what the words of the process ask for. A command that did what was asked for ends
//! well, and a folder that differs or sources without a release are refused as such (`ended`).
#![tactic(auto)]

mod answer;
mod explained;
mod export;
mod file;
mod program;
mod zone_file;

pub use program::run;
