//! What moves do in addition to their damage or instead of it, in the turn of their use (docs/MECHANICS.md, "Early
//! effects", "Late effects", "Side effects").
//!
//! - `early_effects`: effects before any damage
//! - `late_effects`: effects after the damage step
//! - `side_effects`: effects in addition to damage
//! - `targets`: what a move finds at a member
#![tactic(auto)]

mod early_effects;
mod late_effects;
mod side_effects;
mod targets;

pub use early_effects::{group_one, group_one_knowing, is_early};
pub use late_effects::{group_two, group_two_knowing, is_late};
pub use side_effects::{side_effect, side_effect_knowing};
