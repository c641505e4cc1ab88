//! All battles that an update can lead to, each with its exact probability if every draw is an independent uniform byte
//! (docs/MECHANICS.md, "Link numbers").
//!
//! - `byte_set`: sets of bytes
//! - `alike`: the bytes that a look sees alike, or that are in a class of damage
//! - `nodes`: the draws of a way, each with the bytes that are still to be tried
//! - `log`: what was asked of a generator, for proofs only
//! - `explorer`: a generator whose first bytes are given, and one that takes an update through all its ways, one after
//!   the other
//! - `beginning`: a turn up to its second action, and the rest of it; an update whose draws come from any generator
//! - `middles`: positions between the two actions of a turn
//! - `ways`: [`Ways`], the ways of an update one by one
//! - `plain`: the same walk as a plain struct that its caller keeps
//! - `successor`: [`Successor`], a battle with its weight, [`OutcomeOptions`], how outcomes are listed, and why they
//!   are not
//! - `merging`: battles that are equal become one
//! - `outcomes`: [`list_outcomes`], all battles that an update can lead to
#![tactic(auto)]

mod alike;
mod beginning;
mod byte_set;
mod explorer;
mod log;
mod merging;
mod middles;
mod nodes;
mod outcomes;
pub mod plain;
mod successor;
mod ways;

pub use beginning::play;
pub use nodes::Chance;
pub use outcomes::{Outcomes, list_outcomes};
pub use successor::{OutcomeOptions, OutcomesFault, Successor, is_below};
pub use ways::Ways;
