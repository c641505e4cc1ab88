//! The events of a battle as sentences.
//!
//! - `narrator`: the reader of the sentences, and the members that are out
//! - `sentences`: the sentence of an event
//! - `texts`: the words in sentences, also of HP, what is lost or gained, and levels
//! - `laws`: what holds for all sentences
#![tactic(auto)]

pub mod laws;
mod narrator;
mod sentences;
mod texts;

pub use narrator::{Narrator, Person, Told};
pub use sentences::write_sentence;
