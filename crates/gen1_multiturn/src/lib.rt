//! Moves that last several turns, the hits of a move, and what follows a miss, over the bytes of a battle
//! (docs/MECHANICS.md, "Going on", "Charging", "Many hits", "Recoil, drain and explosion").
//!
//! - `moves`: the moves: Bide, charging, Counter, fixed damage, one-hit moves, Rage, Thrash and trapping
//! - `move_hits`: the hits of a move, what follows each, and what follows a miss
#![tactic(auto)]

mod move_hits;
mod moves;

pub use gen1_status::substitute;
pub use move_hits::hit_effects::missed_move;
pub use move_hits::hits;
pub use moves::bide::{bide, bide_knowing, energy_let_out};
pub use moves::charging::{charge, charge_knowing, make_current};
pub use moves::going_on::{rage, thrash, thrash_knowing, trap, trap_knowing};
pub use moves::special_damage::{counter, counter_knowing, fixed, fixed_knowing, knock_out};
