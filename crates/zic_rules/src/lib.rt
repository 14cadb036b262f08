//! The states that a zone shows: its first state, its changes, and what it shows after them.
//!
//! Before the explicit end a zone is a list of periods: in each one line governs, and one
//! occurrence is current.
//!
//! # What is proved
//!
//! `timeline` gives a zone without a fault, or the least fault that applies, over all its lines and
//! every year to come (`IsFaultOfStates`). `Timeline` gives the explicit `end` (`IsEnd`), the
//! `first` state, each `change` in order (`AreChanges`), the `state` at each instant before the end
//! (`Shows`), and the `tail` that is shown for ever after (`IsTail`).
#![tactic(auto)]

mod changes;
mod compile;
mod end;
pub mod laws;
mod line;
mod offsets;
mod tail;
mod timelines;
mod walk;
mod window;
mod zone;
mod zone_state;

pub use compile::timeline;
pub use tail::{Tail, TailRule};
pub use timelines::Timeline;
pub use zic_base::State;
