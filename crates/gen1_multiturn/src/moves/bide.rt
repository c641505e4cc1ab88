//! Bide: it stores the last damage of each turn, then deals twice the sum (docs/MECHANICS.md, "Going on"). `start_bide`
//! of gen1_status begins it.
ghost use Rattle.std.specs.Prelude.{◌-◌, ◌≡◌};
ghost use Rattle.gen1_rolls.specs.Draws.{Steps};
ghost use Rattle.gen1_layout.specs.Operations.{Does, DoesWhere, holding, scene};
ghost use Rattle.gen1_layout.specs.Words.{AddsAtMost, HasRoom, Reads, Some, false, true, underway_in, ℕ};
ghost use Rattle.gen1_tables.specs.declared.effect.Effect.TheVariants.{Bide};
ghost use Rattle.gen1_machine.specs.Conditions.{Storing, energy_with};
ghost use Rattle.gen1_machine.specs.GoingOn.{bide_goes_on, let_energy_go, let_out, store_energy};
ghost use Rattle.gen1_machine.specs.Progress.{underway};
ghost use Rattle.gen1_hits.specs.Knowing.{IsUncounted, aware, Leaves, beginning};
ghost use Rattle.gen1_hits.specs.Planned.{using};
ghost use Rattle.gen1_multiturn.specs.GoingOn.{energy_let_out, use_bide};

use gen1_events::EventSink;
use gen1_hits::Known;
use gen1_layout::Packed;
use gen1_machine::{Event, Side, Volatile};
use gen1_rolls::Rolls;
use gen1_status::start_bide;

/// Uses Bide (docs/MECHANICS.md, "Going on").
///
/// - If Bide isn't on, `side` begins to store for two or three turns, by one draw, with `Start`.
/// - Before its last turn it stores the last damage, with `Activate`.
/// - In its last turn it ends, with `End`, and the last damage becomes twice the energy, modulo 65,536. The result is
///   that damage, 0 to 65,535. 0 is a miss.
///
/// It needs one free place in `events`. Nothing else changes.
pub fn bide<R: Rolls, S: EventSink>(
    battle: &mut Packed,
    side: Side,
    random: &mut R,
    events: &mut S,
) -> Option<u16>
    requires room { HasRoom S.room 1 events.old }
    ensures left { Leaves R.drawing random (using side Bide)
        (beginning side (scene S.tells battle events)) (λ r. use_bide side) }
    ensures energy { Reads battle.old result λ f. energy_let_out f.last_damage
        (underway_in side f).bide }
    ensures room { AddsAtMost S.room 1 events.old events.new }
    ensures steps { Steps R.drawing random }
{
    let energy = energy_let_out(battle, side);
    match battle.bide(side) {
        None => start_bide(battle, side, random, events),
        Some(_) => {
            bide_knowing(battle, side, &mut Known::new().begun(side), events);
        }
    }
    energy
}

/// Continues the Bide of `side`, if it is on (docs/MECHANICS.md, "Going on").
///
/// If it stores, the action ends, and `true` is returned. If it lets out its energy, `known` holds that, and whether
/// it is a miss. It needs one free place in `events`. Nothing else changes.
pub fn bide_knowing<S: EventSink>(
    battle: &mut Packed,
    side: Side,
    known: &mut Known,
    events: &mut S,
) -> bool
    requires room { HasRoom S.room 1 events.old }
    ensures shown { Does (aware known (scene S.tells battle events)) result (bide_goes_on side) }
    ensures counts { IsUncounted known.old → IsUncounted known.new }
    ensures room { AddsAtMost S.room 1 events.old events.new }
{
    let Some(turns) = battle.bide(side) else {
        return false;
    };
    let energy = battle.energy(side).wrapping_add(battle.last_damage());
    if turns <= 1 {
        let_energy_go(battle, side, energy.wrapping_mul(2), known, events);
        return false;
    }
    store_energy(battle, side, turns.saturating_sub(1), energy, events);
    true
}

/// Returns the damage that the Bide of `side` lets out in this action, 0 to 65,535, or `None` if it stores or is not on
/// (docs/MECHANICS.md, "Going on").
pub fn energy_let_out(battle: &Packed, side: Side) -> Option<u16>
    ensures { Reads battle.now result λ f. energy_let_out f.last_damage (underway_in side f).bide }
{
    let turns = battle.bide(side)?;
    if turns <= 1 {
        let energy = battle.energy(side).wrapping_add(battle.last_damage());
        return Some(energy.wrapping_mul(2));
    }
    None
}

// The damage is twice the energy. 0 is a miss.
fn let_energy_go<S: EventSink>(
    battle: &mut Packed,
    side: Side,
    damage: u16,
    known: &mut Known,
    events: &mut S,
)
    requires room { HasRoom S.room 1 events.old }
    ensures shown { (energy : ℕ) → damage ≡ let_out energy → Does
        (aware known (scene S.tells battle events)) false (let_energy_go side energy) }
    ensures counts { IsUncounted known.old → IsUncounted known.new }
    ensures room { AddsAtMost S.room 1 events.old events.new }
{
    battle.end_bide(side);
    events.push(Event::End(battle.who(side), Volatile::Bide));
    battle.put_last_damage(damage);
    known.letting_go = true;
    known.missed = damage == 0;
}

fn store_energy<S: EventSink>(
    battle: &mut Packed,
    side: Side,
    turns: u8,
    energy: u16,
    events: &mut S,
)
    requires room { HasRoom S.room 1 events.old }
    ensures shown { (damage : ℕ) (b : Storing) → turns ≡ b.turns - 1 → energy ≡ energy_with damage b →
        DoesWhere (holding λ p. (underway side p).bide ≡ Some b) (scene S.tells battle events) true
        (λ r. store_energy side damage) }
    ensures room { AddsAtMost S.room 1 events.old events.new }
{
    battle.put_bide(side, turns, energy);
    events.push(Event::Activate(battle.who(side), Volatile::Bide));
}
