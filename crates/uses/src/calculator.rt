//! A damage calculator: how much damage a move deals, how often it knocks out, how often it hits, and how often it is critical.
// calling: gen1_hits
ghost use Rattle.std.specs.Prelude.{IfOk, ◌≡◌};
ghost use Rattle.gen1_layout.specs.Shows.{Stands};
ghost use Rattle.gen1_layout.specs.Words.{Reads, move_at};
ghost use Rattle.uses.specs.Examples.{calculation_in, faced_off, taking_all};

use gen1_hits::{critical_bound, damage_list, numbers, scaled_accuracy};
use gen1_layout::{Conditions, Packed};
use gen1_machine::{EventList, Side};
use gen1_stats::{MemberSpec, Team, TeamRefusal};
use gen1_switching::start;
use gen1_tables::MoveId;

/// What a move of one side's active member does to the other's, in the present state of a battle.
#[derive(Clone, Copy, Debug, PartialEq, Eq, Drop)]
pub struct Calculation {
    /// The damage at each factor from 217 to 255, the lowest first.
    pub damages: [u16; 39],
    /// How many of the 39 are at least the HP of a foe without a Substitute.
    pub knock_outs: usize,
    /// How many of the 256 bytes that a hit test may draw pass it.
    pub hits: u8,
    /// How many of the 256 bytes that may be drawn make the hit critical.
    pub criticals: u8,
}

/// Makes a battle of two members, both just sent out.
///
/// # Errors
///
/// The first test that the attacker fails, or else the defender.
pub fn face_off(attacker: MemberSpec, defender: MemberSpec) -> Result<Packed, TeamRefusal>
    ensures { IfOk result (λ battle. Stands battle (faced_off attacker defender)) }
{
    let one = Team::new(&[attacker])?;
    let two = Team::new(&[defender])?;
    let mut battle = Packed::new(&one, &two, [0; 10]);
    start(&mut battle, &mut EventList::new());
    Ok(battle)
}

/// Calculates a move of `side`, for a critical hit or for a normal one. `None` if the damage is divided by 0.
pub fn calculate(battle: &Packed, side: Side, id: MoveId, critical: bool) -> Option<Calculation>
    ensures { Reads battle.now result (calculation_in side (move_at id) critical) }
{
    let damages = damage_list(&numbers(battle, side, id, critical))?;
    let focused = battle.is_on(side, Conditions::FOCUS_ENERGY);
    Some(Calculation {
        damages,
        knock_outs: taking_all(battle.hp(side.other()), &damages),
        hits: scaled_accuracy(battle, side, id.accuracy_byte()),
        criticals: critical_bound(battle.species(side), focused, id),
    })
}

fn taking_all(hp: u16, damages: &[u16; 39]) -> usize
    ensures { result ≡ taking_all hp damages.now }
{
    damages.iter().filter(|damage| **damage >= hp).count()
}
// end
