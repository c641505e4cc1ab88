//! A hit, over the bytes of a battle (docs/MECHANICS.md, "Critical hits" to "Landing"): whether it is critical, its
//! damage, whether it hits, and where it lands. Also what is known of the action that makes it, apart from the bytes.
//!
//! - `damage_numbers`: the numbers of a hit, from the battle, and whether it is critical
//! - `damage_formula`: the damage for these numbers, after types and by the drawn factor, and which moves have damage
//!   of this kind
//! - `hit_tests`: whether the move hits, in an action too, and how a miss is reported
//! - `known`: what is known of the action in progress
//! - `landing`: where the damage lands, and HP that are lost and gained
#![tactic(auto)]

mod damage_formula;
mod damage_numbers;
mod hit_tests;
mod known;
mod landing;

pub use damage_formula::{
    LEAST_FACTOR, Numbers, damage, damage_list, factor, factor_up_to, has_usual_damage, is_factor,
    is_immune, type_steps,
};
pub use damage_numbers::{critical, critical_bound, numbers, own_numbers};
pub use hit_tests::{
    Hit, hit_or_miss, hit_test, must_hit, note_miss, scaled_accuracy, settled_hit,
};
pub use known::Known;
pub use landing::{Landed, gain_hp, land, land_on_hp, land_on_substitute, lose_hp};
