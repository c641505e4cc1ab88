//! Playouts: copies of a battle that are played by random choices, and how they end (include/gen1.h, "many battles").
//!
//! - `playouts`: [`playout`], with its options and its counts, and which side is ahead
//! - `weights`: choices drawn by weights, and [`ChoiceGenerator`], the generator of their numbers and choices
#![tactic(auto)]

mod playouts;
mod weights;

pub use playouts::{PlayoutOptions, Playouts, playout};
pub use weights::{ChoiceGenerator, pick};
