//! The commands over folders of files, and those that compare two releases: `build`, `verify` and `diff`,
//! of the sources and folders that words name.
//!
//! # What is proved
//!
//! `build`, `verify` and `diff` have no clause, for the same reason. A folder differs just where
//! there is a line of a file that it lacks, or has otherwise or besides (`ending_of`). That of a
//! table or of `+VERSION` is as that of a zone's file (`finding_of`). That `diff` lists the files
//! of the texts as `old_and_new` divides them is tested.
#![tactic(auto)]

mod building;
mod differing;
mod ending;
mod extras;
mod folder;
mod verifying;

pub use building::build;
pub use differing::{Differing, diff};
pub use ending::Ending;
pub use verifying::{Verifying, verify};
