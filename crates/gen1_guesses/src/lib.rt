//! A battle that fits what a player knows, with a guess of the rest (docs/MECHANICS.md, "A battle that fits").
//!
//! - `guess`: [`Guess`], what a player can't know, whether it fits, and [`GuessFault`], why it does not
//! - `members`: the members of both sides
//! - `active`: the active members
//! - `forks`: [`from_player`], the battle, [`guessed_state`], its state, and laws of all of them
#![tactic(auto)]

mod active;
mod forks;
mod guess;
mod members;

pub use forks::{forks_agree, forks_tell_hp, from_player, guessed_state, true_hp_fits};
pub use guess::{Guess, GuessFault, allows_max};
