//! An action and a turn over the bytes of a battle (docs/MECHANICS.md, "Action", "Order of a turn").
//!
//! - `turn_update`: the update of a turn
//!   - `choices`: a turn, by both choices, and who acts first
//!   - `parts`: the parts of a turn, with residual damage; an action in two parts; a generator for the action of each side
//! - `action`: one side's action, and its damage
//!   - `lead_up`: the move that an action takes, its use, and what comes before any damage
//!   - `steps`: the steps of an action after its move is settled, up to a hit or a miss
//!   - `two_parts`: an action up to the roll of its damage, and from the roll on
#![tactic(auto)]

mod action;
mod turn_update;

pub use action::{Acted, Roll, act, roll_damage_of, test_hit};
pub use gen1_offers::{Choices, offered};
pub use gen1_switching::{replace, send_out, start};
pub use turn_update::{
    act_after_test, act_and_suffer_as, act_to_roll, end_flinch, end_turn, first_side, set_picked,
    turn,
};
