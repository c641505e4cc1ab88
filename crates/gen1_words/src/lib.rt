//! Choices from words: "pass", "move 1", "Body Slam", "switch Gengar" (docs/PROGRAM.md, "Text in place of JSON").
//!
//! - `words`: what a text says, without a battle, and the choice that this is for a side of a battle
#![tactic(auto)]

mod words;

pub use words::{ChoiceWords, WordsFault, choice_from_words, choice_of_words, words_in_text};
