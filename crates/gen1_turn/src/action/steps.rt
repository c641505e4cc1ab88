//! An action after its move is settled, up to the hit or the miss, and a side effect (docs/MECHANICS.md, "Action").
ghost use Rattle.std.specs.Prelude.{◌&&◌, ◌||◌, ◌≡◌};
ghost use Rattle.gen1_tables.specs.Effects.{traps};
ghost use Rattle.gen1_rolls.specs.Draws.{Steps};
ghost use Rattle.gen1_machine.specs.Action.{carry_out, damage_of, lands_at_once, lead_up, lets_energy_go, strike};
ghost use Rattle.gen1_machine.specs.LateEffects.{is_late, late_effect};
ghost use Rattle.gen1_machine.specs.Progress.{only, unless};
ghost use Rattle.gen1_machine.specs.State.{has_fallen_in};
ghost use Rattle.gen1_layout.specs.Operations.{DrawsWhere, anything, quiet, scene};
ghost use Rattle.gen1_layout.specs.Words.{AddsAtMost, AddsNone, Event, HasRoom, List, Reads, false, move_at, other, stop, ◌▸◌};
ghost use Rattle.gen1_hits.specs.Knowing.{IsUncounted, aware};
ghost use Rattle.gen1_hits.specs.Planned.{taking, using};
ghost use Rattle.gen1_turn.specs.Action.{damage_and_strike, hits_with_effect, late_part, DrawsLike, LikeUsual};

use super::damage_of;
use super::lead_up::lead_up;
use gen1_effects::{group_two_knowing, is_late, side_effect_knowing};
use gen1_events::EventSink;
use gen1_hits::Known;
use gen1_layout::Packed;
use gen1_machine::{Pick, Side};
use gen1_multiturn::{bide_knowing, hits, missed_move};
use gen1_rolls::Rolls;
use gen1_tables::{Effect, MoveId};

// The energy of Bide skips the steps before the strike. Returns whether the rest of the action was skipped.
pub(crate) fn carry_out<R: Rolls, S: EventSink>(
    battle: &mut Packed,
    side: Side,
    pick: Pick,
    id: MoveId,
    known: &mut Known,
    random: &mut R,
    events: &mut S,
) -> bool
    requires room { HasRoom S.room 18 events.old }
    requires counts { IsUncounted known.old }
    ensures shown { DrawsWhere R.drawing random (taking side pick (move_at id).effect)
        (aware known (scene S.tells battle events)) result (λ r. carry_out r side pick (move_at id)) }
    ensures room { AddsAtMost S.room 18 events.old events.new }
    ensures steps { Steps R.drawing random }
{
    if bide_knowing(battle, side, known, events) {
        return true;
    }
    if lead_up_unless_let_go(battle, side, pick, id, known, random, events) {
        return true;
    }
    damage_and_strike(battle, side, id, known, random, events)
}

pub(super) fn lead_up_unless_let_go<R: Rolls, S: EventSink>(
    battle: &mut Packed,
    side: Side,
    pick: Pick,
    id: MoveId,
    known: &mut Known,
    random: &mut R,
    events: &mut S,
) -> bool
    requires room { HasRoom S.room 4 events.old }
    ensures shown { DrawsWhere R.drawing random (taking side pick (move_at id).effect)
        (aware known (scene S.tells battle events)) result
        (λ r. unless lets_energy_go (lead_up side pick (move_at id))) }
    ensures same { result ≡ false → known.new ≡ known.old }
    ensures room { AddsAtMost S.room 4 events.old events.new }
    ensures few { result ≡ false → AddsAtMost S.room 3 events.old events.new }
    ensures steps { Steps R.drawing random }
{
    if known.letting_go {
        return false;
    }
    lead_up(battle, side, pick, id, known, random, events)
}

// What follows the lead-up.
pub(super) fn damage_and_strike<R: Rolls, S: EventSink>(
    battle: &mut Packed,
    side: Side,
    id: MoveId,
    known: &mut Known,
    random: &mut R,
    events: &mut S,
) -> bool
    requires room { HasRoom S.room 14 events.old }
    requires counts { IsUncounted known.old }
    ensures shown { DrawsWhere R.drawing random (using side (move_at id).effect)
        (aware known (scene S.tells battle events)) result
        (λ r. damage_and_strike r side (move_at id)) }
    ensures room { AddsAtMost S.room 14 events.old events.new }
    ensures steps { Steps R.drawing random }
{
    if damage_unless_landing(battle, side, id, known, random) {
        return true;
    }
    if late_part(battle, side, id, known, random, events) {
        return true;
    }
    strike(battle, side, id, known, random, events)
}

fn damage_unless_landing<R: Rolls>(
    battle: &mut Packed,
    side: Side,
    id: MoveId,
    known: &mut Known,
    random: &mut R,
) -> bool
    ensures shown { (told : List Event) → DrawsLike R.drawing random (aware known (quiet told battle))
        result (LikeUsual side (move_at id)) (unless (lands_at_once (move_at id))
        (damage_of side (move_at id) (move_at id).effect)) }
    ensures counts { IsUncounted known.old → IsUncounted known.new }
    ensures steps { Steps R.drawing random }
{
    if lands_at_once(known, id.effect()) {
        return false;
    }
    damage_of(battle, side, id, known, random)
}

// Bide's energy and trapping that continues skip the damage and go straight to the landing.
pub(super) fn lands_at_once(known: &Known, effect: Effect) -> bool
    ensures { result ≡ (known.now.letting_go || (known.now.going_on && traps effect)) }
{
    known.letting_go || (known.going_on && effect.traps())
}

fn late_part<R: Rolls, S: EventSink>(
    battle: &mut Packed,
    side: Side,
    id: MoveId,
    known: &mut Known,
    random: &mut R,
    events: &mut S,
) -> bool
    requires room { HasRoom S.room 2 events.old }
    ensures shown { DrawsWhere R.drawing random (using side (move_at id).effect)
        (aware known (scene S.tells battle events)) result (λ r. late_part r side (move_at id)) }
    ensures same { result ≡ false → known.new ≡ known.old }
    ensures room { AddsAtMost S.room 2 events.old events.new }
    ensures quiet { result ≡ false → AddsNone S.room events.old events.new }
    ensures steps { Steps R.drawing random }
{
    if known.letting_go {
        return false;
    }
    late_effect(battle, side, id, known, random, events)
}

// Returns whether the move has a late effect, which ends the action.
fn late_effect<R: Rolls, S: EventSink>(
    battle: &mut Packed,
    side: Side,
    id: MoveId,
    known: &mut Known,
    random: &mut R,
    events: &mut S,
) -> bool
    requires room { HasRoom S.room 2 events.old }
    ensures shown { DrawsWhere R.drawing random (using side (move_at id).effect)
        (aware known (scene S.tells battle events)) result
        (λ r. only (is_late (move_at id).effect)
        (late_effect r side (move_at id) (move_at id).effect ▸ stop)) }
    ensures same { result ≡ false → known.new ≡ known.old }
    ensures room { AddsAtMost S.room 2 events.old events.new }
    ensures quiet { result ≡ false → AddsNone S.room events.old events.new }
    ensures steps { Steps R.drawing random }
{
    if is_late(id.effect()) {
        group_two_knowing(battle, side, id, known, random, events);
        return true;
    }
    false
}

pub(crate) fn strike<R: Rolls, S: EventSink>(
    battle: &mut Packed,
    side: Side,
    id: MoveId,
    known: &mut Known,
    random: &mut R,
    events: &mut S,
) -> bool
    requires room { HasRoom S.room 14 events.old }
    requires counts { IsUncounted known.old }
    ensures shown { DrawsWhere R.drawing random anything (aware known (scene S.tells battle events))
        result (λ r. strike r side (move_at id)) }
    ensures room { AddsAtMost S.room 14 events.old events.new }
    ensures steps { Steps R.drawing random }
{
    if known.missed {
        missed_move(battle, side, id, events);
        return true;
    }
    hits_with_effect(battle, side, id, known, random, events)
}

// After the move is known to hit.
fn hits_with_effect<R: Rolls, S: EventSink>(
    battle: &mut Packed,
    side: Side,
    id: MoveId,
    known: &mut Known,
    random: &mut R,
    events: &mut S,
) -> bool
    requires room { HasRoom S.room 14 events.old }
    requires counts { IsUncounted known.old }
    ensures shown { DrawsWhere R.drawing random anything (aware known (scene S.tells battle events))
        result (λ r. hits_with_effect r side (move_at id)) }
    ensures room { AddsAtMost S.room 14 events.old events.new }
    ensures steps { Steps R.drawing random }
{
    hits(battle, side, id, known, random, events);
    if has_no_effect(battle, side, known) {
        return false;
    }
    side_effect_knowing(battle, side, id, known, random, events)
}

// Bide's energy, a hit that breaks a substitute and a fall have no side effect.
fn has_no_effect(battle: &Packed, side: Side, known: &Known) -> bool
    ensures stands { Reads battle.now result λ f.
        (known.now.letting_go || (known.now.broke || has_fallen_in (other side) f)) }
{
    known.letting_go || (known.broke || battle.hp(side.other()) == 0)
}
