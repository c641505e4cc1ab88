//! The odds of a use of a move, from the bytes of a battle and without a draw (docs/MECHANICS.md, "Critical hits" to
//! "Hit test", "Fixed damage and one-hit moves", "Many hits").
//!
//! - `odds`: [`Odds`] of a move, for the two members that are out; its number of hits, and what a damage gives back or
//!   costs
//! - `knock_outs`: the chances that one to three uses knock out the foe, numbers of ways, and the HP that are left
//!   between uses
//! - `usual_uses`: in how many ways they do so with the usual damage
//! - `trapping_uses`: the same of trapping, which continues
//! - `fixed_uses`: the same with their own damage rule
//! - `reasons`: why a use can't hit
//! - `effect_reasons`: the same for moves that give a status, or change the foe or their user
//! - `acting`: [`ActionOdds`], of a member that may be kept from acting
//! - `chances`: the numbers of draws, also those that give a hit its side effect, and [`takes_hit_test`]
//! - `fixed_damage`: damage by a move's own rule
//! - `sights`: what a use finds in a battle, the kinds of use, and whether it continues
//! - `laws`: what the odds say of the machine's own phases
#![tactic(auto)]

mod acting;
mod chances;
mod effect_reasons;
mod fixed_damage;
mod fixed_uses;
mod knock_outs;
mod laws;
mod odds;
mod reasons;
mod sights;
mod trapping_uses;
mod usual_uses;

pub use acting::{ActionOdds, action_odds_of};
pub use chances::{side_effect_draws, takes_hit_test};
pub use knock_outs::{
    Between, Chances, HpChange, ThreeChances, Wide, knock_out, knock_out_in_three,
};
pub use laws::{
    breaks_if_needed, confusion_counts, counter_counts, fixed_counts, gate_counts, immune_misses,
    must_hit_counts, one_hit_counts, paralysis_counts, poison_counts, seed_counts,
    side_effect_counts, slower_misses, test_counts,
};
pub use odds::{Damages, Odds, drained, odds_of, recoil};
pub use reasons::Reason;
