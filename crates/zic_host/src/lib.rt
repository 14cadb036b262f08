//! What the commands of the program have in common: why the program gives up, and what they ask of the
//! system: the sources and folders that words name, the releases of these, random numbers, and
//! standard output.
//!
//! # What is proved
//!
//! `Refusal::status` is 2 for the words of the command line and for sources without a release, 1
//! where a folder differs, 3 for a clock that can't be read, else the status of the command's
//! failure (`refusal_status`, `refusal_of`). `old_and_new` takes the first texts for those of OLD, and all others for those of
//! the release that is compared with it (`old_texts`, `new_texts`). `fault_in` gives a fault the
//! number of its text among all. `Refusal::shown`, `shown_failure`, `read_texts`, `expect_folder`, `is_missing`,
//! `names_below`, `WholeFolder::new`, `UnreadFile::none`, `take` and `failure`, `open_regular`,
//! `release_of`, `show_of_sources`, `show_of_folders`, `random_number`, `WriteReason::none`, `set` and
//! `take`, `Noting::new`, `note` and `get_mut`, `output` and `tell` have no clause.
#![tactic(auto)]

mod folder;
mod random;
mod reading;
mod refusal;
mod release;
mod sources;
mod writing;

pub use folder::{NamesBelow, expect_folder, is_missing, names_below};
pub use random::random_number;
pub use reading::{UnreadFile, WholeFolder, open_regular};
pub use refusal::{Refusal, shown_failure};
pub use release::{TABLES, VERSION, release_of, show_of_folders, show_of_sources};
pub use sources::{OldAndNew, fault_in, old_and_new, read_texts};
pub use writing::{Noting, WriteReason, output, tell};
