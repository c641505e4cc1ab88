//! What each side of a battle is offered: the choices that it may make (docs/MECHANICS.md, "Offered choices").
//!
//! - `offered_choices`: what each side may choose
//! - `choice_test`: whether a choice is among these
//! - `masks`: the choices as a number of twelve binary digits, read straight from the bytes: how many, and which is at
//!   a place
//! - `bench`: [`Bench`], the members that may come out, kept for the masks of many updates
//! - `laws`: what holds for all offered choices
#![tactic(auto)]

mod bench;
mod choice_test;
pub mod laws;
mod masks;
mod offered_choices;

pub use bench::Bench;
pub use choice_test::is_offered;
pub use masks::{choice_at, count_of, offered_mask};
pub use offered_choices::{Choices, offered};
