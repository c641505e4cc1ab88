//! Moves that poison, paralyse, confuse or seed the foe: Poison Powder, Poison Gas and Toxic; Stun Spore, Thunder Wave
//! and Glare; Supersonic and Confuse Ray; Leech Seed (docs/MECHANICS.md, "Early effects").
ghost use Rattle.std.specs.Prelude.{◌==◌, ◌||◌, ◌≡◌};
ghost use Rattle.gen1_tables.specs.declared.types.Element.TheVariants.{Grass};
ghost use Rattle.gen1_rolls.specs.Draws.{Steps};
ghost use Rattle.gen1_stats.specs.declared.member.Status.TheVariants.{Poisoned};
ghost use Rattle.gen1_machine.specs.EarlyEffects.{confuse_foe, paralyse_foe, poison_foe, seed_foe};
ghost use Rattle.gen1_machine.specs.Moves.{toxic};
ghost use Rattle.gen1_machine.specs.Progress.{inflict, on_conditions, only};
ghost use Rattle.gen1_machine.specs.declared.event.Kind.TheVariants as kinds;
ghost use Rattle.gen1_machine.specs.Conditions.{with_bad_poison};
ghost use Rattle.gen1_machine.specs.State.{has_type};
ghost use Rattle.gen1_layout.specs.Operations.{Does, Draws, scene};
ghost use Rattle.gen1_layout.specs.Words.{AddsAtMost, HasRoom, Reads, active_in, conditions_in, false, move_at, stop, true, ◌▸◌};
ghost use Rattle.gen1_hits.specs.Knowing.{IsUncounted, aware};

use crate::targets::{has_status, has_substitute, has_type, is_confused, is_grounded};
use gen1_events::EventSink;
use gen1_hits::{Known, must_hit};
use gen1_layout::{Conditions, Packed};
use gen1_machine::{Event, Kind, Side, Volatile};
use gen1_rolls::Rolls;
use gen1_status::{confuse, fail, inflict};
use gen1_tables::{Element, MoveId};

pub(super) fn poison_foe<R: Rolls, S: EventSink>(
    battle: &mut Packed,
    side: Side,
    id: MoveId,
    known: &mut Known,
    random: &mut R,
    events: &mut S,
)
    requires room { HasRoom S.room 2 events.old }
    ensures shown { Draws R.drawing random (aware known (scene S.tells battle events)) true
        (poison_foe side (move_at id) ▸ stop) }
    ensures counts { IsUncounted known.old → IsUncounted known.new }
    ensures room { AddsAtMost S.room 2 events.old events.new }
    ensures steps { Steps R.drawing random }
{
    let foe = side.other();
    if has_substitute(battle, foe) {
        fail(battle, side, events);
        return;
    }
    if has_status(battle, foe) {
        fail(battle, side, events);
        return;
    }
    if has_type(battle, foe, Element::Poison) {
        fail(battle, side, events);
        return;
    }
    if must_hit(battle, side, id, known, random, events) {
        return;
    }
    poison(battle, foe, id, events);
}

fn poison<S: EventSink>(battle: &mut Packed, side: Side, id: MoveId, events: &mut S)
    requires room { HasRoom S.room 1 events.old }
    ensures shown { Does (scene S.tells battle events) false
        (inflict side Poisoned kinds.Poison ▸ only ((move_at id).number == toxic)
        (on_conditions side with_bad_poison)) }
    ensures room { AddsAtMost S.room 1 events.old events.new }
{
    inflict(battle, side, Kind::Poison, 0, events);
    if is_toxic(id) {
        battle.put_bad_poison(side, Some(0));
    }
}

const TOXIC: u8 = 92;

fn is_toxic(id: MoveId) -> bool
    ensures { result ≡ ((move_at id).number == toxic) }
{
    id.number() == TOXIC
}

pub(super) fn paralyse_foe<R: Rolls, S: EventSink>(
    battle: &mut Packed,
    side: Side,
    id: MoveId,
    known: &mut Known,
    random: &mut R,
    events: &mut S,
)
    requires room { HasRoom S.room 2 events.old }
    ensures shown { Draws R.drawing random (aware known (scene S.tells battle events)) true
        (paralyse_foe side (move_at id) ▸ stop) }
    ensures counts { IsUncounted known.old → IsUncounted known.new }
    ensures room { AddsAtMost S.room 2 events.old events.new }
    ensures steps { Steps R.drawing random }
{
    let foe = side.other();
    if has_status(battle, foe) {
        fail(battle, side, events);
        return;
    }
    if is_grounded(battle, foe, id.kind()) {
        fail(battle, side, events);
        return;
    }
    if must_hit(battle, side, id, known, random, events) {
        return;
    }
    inflict(battle, foe, Kind::Paralysis, 0, events);
}

pub(super) fn confuse_foe<R: Rolls, S: EventSink>(
    battle: &mut Packed,
    side: Side,
    id: MoveId,
    known: &mut Known,
    random: &mut R,
    events: &mut S,
)
    requires room { HasRoom S.room 2 events.old }
    ensures shown { Draws R.drawing random (aware known (scene S.tells battle events)) true
        (confuse_foe side (move_at id) ▸ stop) }
    ensures counts { IsUncounted known.old → IsUncounted known.new }
    ensures room { AddsAtMost S.room 2 events.old events.new }
    ensures steps { Steps R.drawing random }
{
    let foe = side.other();
    if has_substitute(battle, foe) {
        fail(battle, side, events);
        return;
    }
    if must_hit(battle, side, id, known, random, events) {
        return;
    }
    if is_confused(battle, foe) {
        fail(battle, side, events);
        return;
    }
    confuse(battle, foe, random, events);
}

pub(super) fn seed_foe<R: Rolls, S: EventSink>(
    battle: &mut Packed,
    side: Side,
    id: MoveId,
    known: &mut Known,
    random: &mut R,
    events: &mut S,
)
    requires room { HasRoom S.room 2 events.old }
    ensures shown { Draws R.drawing random (aware known (scene S.tells battle events)) true
        (seed_foe side (move_at id) ▸ stop) }
    ensures counts { IsUncounted known.old → IsUncounted known.new }
    ensures room { AddsAtMost S.room 2 events.old events.new }
    ensures steps { Steps R.drawing random }
{
    if must_hit(battle, side, id, known, random, events) {
        return;
    }
    let foe = side.other();
    if takes_no_seed(battle, foe) {
        fail(battle, side, events);
        return;
    }
    battle.put_flag(foe, Conditions::SEEDED, true);
    events.push(Event::Start(battle.who(foe), Volatile::LeechSeed));
}

fn takes_no_seed(battle: &Packed, side: Side) -> bool
    ensures stands { Reads battle.now result λ f.
        ((conditions_in side f).seeded || has_type Grass (active_in side f)) }
{
    battle.is_on(side, Conditions::SEEDED) || has_type(battle, side, Element::Grass)
}
