//! The files of zones, by number and by name.
//!
//! # What is proved
//!
//! Files are sound (`AreSoundFiles`): names differ and are names of zones, each zone is what a
//! reader makes of the bytes, and at every instant the file gives local time within 24:00:00 of UT
//! under an abbreviation of 3 to 16 bytes (`IsAlwaysKnown`). `Files::len`, `name`, `bytes` and
//! `zone` read them, `share_image` tells that two have one image, `find` gives the number of a
//! name, `add` adds one, and `with_key` gives the same files. `Image::read` reads bytes that rows
//! can be made of (`IsFit`), or gives the reason (`IsUnfit`); `octets` gives the bytes.
//! `TreeFiles::learn` requests a name of a tree, unless it was requested before or no zone may have
//! it; its `files` are then those of the tree's replies (`AreFilesOfReplies`, `GrowsBy`,
//! `AreRequestedOnce`).
#![tactic(auto)]

mod files;
mod image;
mod images;
pub mod laws;
mod limit;
mod name_index;
mod names;
mod tree;

pub use files::Files;
pub use image::{Image, Unfit};
pub use names::Entry;
pub use tree::{TreeFiles, ZoneTree};
