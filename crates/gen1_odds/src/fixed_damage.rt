//! Damage by a move's own rule (docs/MECHANICS.md, "Fixed damage and one-hit moves", "Counter", "Going on").
ghost use Rattle.std.specs.Prelude.{◌≡◌};
ghost use Rattle.gen1_layout.specs.Words.{Reads, member_in, move_at};
ghost use Rattle.gen1_machine.specs.FixedDamage.{half_hp};
ghost use Rattle.gen1_odds.specs.Odds.{fixed_by, fixed_in, fixed_of, psywave_range, twin};

use crate::sights::{Trial, traps_on, trial_of};
use gen1_layout::Packed;
use gen1_machine::Side;
use gen1_multiturn::{counter, energy_let_out};
use gen1_tables::MoveId;

const SONIC_BOOM: u8 = 49;

const DRAGON_RAGE: u8 = 82;

const PSYWAVE: u8 = 149;

const SUPER_FANG: u8 = 162;

/// The least and the most damage of a move that does not have the usual damage, or zeros.
pub(crate) fn fixed(battle: &Packed, side: Side, id: MoveId) -> (u16, u16)
    ensures stands { Reads battle.now result (fixed_in side (move_at id)) }
{
    if traps_on(battle, side, id) {
        return twin(battle.last_damage());
    }
    fixed_of(battle, side, id, trial_of(id.effect()))
}

fn fixed_of(battle: &Packed, side: Side, id: MoveId, trial: Trial) -> (u16, u16)
    ensures stands { Reads battle.now result (fixed_of trial (move_at id).number side) }
{
    match trial {
        Trial::OneHit => (65535, 65535),
        Trial::Fixed => fixed_by(battle, side, id.number()),
        Trial::Counter => twin(counter(battle, side).unwrap_or(0)),
        Trial::Bide => twin(energy_let_out(battle, side).unwrap_or(0)),
        _ => (0, 0),
    }
}

fn fixed_by(battle: &Packed, side: Side, number: u8) -> (u16, u16)
    ensures stands { Reads battle.now result (fixed_by number side) }
{
    if number == SONIC_BOOM {
        return (20, 20);
    }
    if number == DRAGON_RAGE {
        return (40, 40);
    }
    if number == PSYWAVE {
        return psywave_range(battle.level(side));
    }
    if number == SUPER_FANG {
        return twin(half_hp(battle, side.other()));
    }
    twin(u16::from(battle.level(side)))
}

// Zeros at level 1, where the battle ends with a fault.
fn psywave_range(level: u8) -> (u16, u16)
    ensures { result ≡ psywave_range level }
{
    let most = (u16::from(level) * 3 / 2).saturating_sub(1);
    (most.min(1), most)
}

fn half_hp(battle: &Packed, side: Side) -> u16
    ensures stands { Reads battle.now result λ f. half_hp (member_in side f) }
{
    (battle.hp(side) / 2).max(1)
}

fn twin(damage: u16) -> (u16, u16)
    ensures { result ≡ twin damage }
{
    (damage, damage)
}
