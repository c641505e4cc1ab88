//! What one side of a battle may know (docs/MECHANICS.md, "Player's view").
//!
//! - `public`: [`Public`], what the log of a battle makes public of both sides
//! - `public_side`: what it makes public of one side
//! - `seen`: a member that has appeared
//! - `announced`: the conditions that the log has announced
//! - `stages`: the stages of the active member
//! - `teller`: [`Teller`], what one side learns of the events, and [`HpForm`], how it learns HP
//! - `own`: [`own_side`], what a side is shown of itself
//! - `player`: [`Player`], what a player knows
//! - `laws`: what is shown says nothing of what is hidden
//! - `truth`: what the log makes public is true
#![tactic(auto)]

mod announced;
mod laws;
mod own;
mod player;
mod public;
mod public_side;
mod seen;
mod stages;
mod teller;
mod truth;

pub use announced::Announced;
pub use laws::{
    fair, fair_player, hides_the_counts, hides_the_foe, offers_what_is_shown, tells_hp,
};
pub use own::{OwnMember, OwnSide, own_side};
pub use player::{Player, PlayerTerms, players_with_the_same_are_alike};
pub use public::Public;
pub use public_side::PublicSide;
pub use seen::{Seen, SeenMove};
pub use stages::SeenStages;
pub use teller::{HpForm, Teller};
pub use truth::{
    actives_agree, conditions_agree, members_agree, players_hold_the_public, public_agrees,
};
