//! The files of a source: one for each Zone and each Link line, in the order of the texts and
//! their lines.
//!
//! # What is proved
//!
//! `build` is in [the two theorems](#the-two-theorems); `compile` promises the same on the calling
//! thread, and out of memory only at a zone that may need it (`memory`). `image_of` makes the
//! zone's image (`IsImageOf`): a reader accepts the bytes, and what they give at every instant is
//! what the zone shows (`ReadsAs`). A fault is that of the zone's states, else of its footer, else
//! of its table (`IsFaultOfZone`).
#![tactic(auto)]

mod builder;
mod compiler;
mod entry;
mod image;
pub mod laws;
mod pieces;

pub use builder::build;
pub use compiler::compile;
pub use image::image_of;
