//! Programs as callers of the libraries write them, complete and proved. Each CALLING.md shows parts of these files.
//!
//! - `calculator`: a damage calculator
//! - `player`: a random player
//! - `the_theorem`: every call of a battle, and what is proved of it
//! - `two_players`: two players in a room
//! - `viewer`: a replay viewer
#![tactic(auto)]

pub mod calculator;
pub mod player;
pub mod the_theorem;
pub mod two_players;
pub mod viewer;
