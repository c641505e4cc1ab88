//! What keeps a member from acting, and the effect of statuses and stages on it, over the bytes of a battle
//! (docs/MECHANICS.md, "Penalties", "Stage shift", "Picks" to "Hit on itself", "Residual damage"). The effects of moves
//! and the moves that last build on this.
//!
//! - `picks`: what a side's choice becomes, the move that it names, and whether a move continues
//! - `gate_tests`: what keeps a member from acting
//! - `gate_answer`: the result of the gate
//! - `conditions`: conditions that begin: a status, confusion, Bide and a substitute; what the sleep clause and the
//!   freeze clause count
//! - `stages`: stages that rise and fall, the stat at a stage, and the effect of paralysis and a burn on it
//! - `residual_damage`: the damage of poison, a burn and Leech Seed
#![tactic(auto)]

mod conditions;
mod gate_answer;
mod gate_tests;
mod picks;
mod residual_damage;
mod stages;

pub use conditions::{
    confuse, fail, has_frozen_member, has_marked_sleeper, inflict, inflict_status, make_substitute,
    start_bide, substitute,
};
pub use gate_answer::Gate;
pub use gate_tests::gate;
pub use picks::{among_slots, keeps_going, number_of, pick, used_by};
pub use residual_damage::{residual, suffers};
pub use stages::{lower_stage, raise_stage, shift_stage, take_penalty};
