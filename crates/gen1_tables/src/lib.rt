//! The types, species and moves of Generation I, as docs/TABLES.md lists them.
//!
//! - `types`: the types, and the factors between them
//! - `species`: the species
//! - `moves`: the moves
//! - `effect`: the effects of moves, and stats
//! - `names`: the names of species and moves
#![tactic(auto)]

mod effect;
mod moves;
mod names;
mod species;
mod types;

pub use effect::{Effect, Stat};
pub use moves::{COUNTER, MoveId, STRUGGLE};
pub use species::Species;
pub use types::{Element, TypeRow, effectiveness, type_rows};
