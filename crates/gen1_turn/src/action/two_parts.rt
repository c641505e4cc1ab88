//! An action in two parts: up to the roll of its damage, and from the roll on (docs/MECHANICS.md, "Action", "Factors").
ghost use Rattle.std.specs.Prelude.{not, ◌&&◌, ◌||◌, ◌≡◌};
ghost use Rattle.gen1_rolls.specs.Draws.{Since, Steps};
ghost use Rattle.gen1_layout.specs.Operations.{anything, scene};
ghost use Rattle.gen1_layout.specs.Words.{AddsAtMost, Bool, Event, Frame, HasRoom, IsBetween, List, Progress, Shows, Told, false, move_at, true, ◌▸◌};
ghost use Rattle.gen1_tables.specs.Effects.{traps};
ghost use Rattle.gen1_machine.specs.Action.{action_parts, carry_out, keep_accuracy, resume, strike, usual_damage};
ghost use Rattle.gen1_machine.specs.Damage.{roll_damage, vary};
ghost use Rattle.gen1_machine.specs.HitTest.{hit_or_miss};
ghost use Rattle.gen1_machine.specs.Ruling.{ruling_of};
ghost use Rattle.gen1_hits.specs.Knowing.{IsUncounted, ShowsKnown, ShowsOver};
ghost use Rattle.gen1_hits.specs.Planned.{taking, using};
ghost use Rattle.gen1_hits.specs.DamageNumbers.{has_usual_damage};
ghost use Rattle.gen1_turn.specs.Action.{acting, ready, damage_and_strike, late_part, LikeDamage};
ghost use Rattle.gen1_turn.specs.TwoParts.{IsRolling, PlaysTo, RollsDamage, TestsHit, fresh, from_roll, from_test, known_at, parts_from_roll, rolling};

use super::lead_up::{move_taken, see_if_going_on};
use super::steps::{damage_and_strike, lands_at_once, lead_up_unless_let_go, strike};
use super::{damage_edge, keep_accuracy};
use gen1_events::EventSink;
use gen1_hits::{
    Known, critical, damage, factor_up_to, has_usual_damage, hit_or_miss, numbers, type_steps,
};
use gen1_layout::Packed;
use gen1_machine::{Outcome, Pick, Side};
use gen1_multiturn::bide_knowing;
use gen1_rolls::Rolls;
use gen1_status::gate;
use gen1_tables::MoveId;

/// The damage that an action is about to roll, and what is known of the action then.
#[derive(Clone, Copy, Debug, PartialEq, Eq)]
pub struct Roll {
    /// The move.
    pub id: MoveId,
    /// The damage before its factor, 2 to 5,992 (docs/MECHANICS.md, "Factors").
    pub damage: u16,
    /// The action continues from an earlier turn.
    pub going_on: bool,
    /// The hit is critical.
    pub critical: bool,
}

/// How far an action was played.
#[derive(Clone, Copy, Debug, PartialEq, Eq)]
pub enum Acted {
    /// To its end, and its residual damage too. It says whether the rest of the turn is skipped.
    Ended(bool),
    /// Up to the roll of its damage.
    Rolls(Roll),
}

// Plays an action that has begun, to its end or up to the roll of its damage. An end says whether the battle is over.
pub(crate) fn to_roll<R: Rolls, S: EventSink>(
    battle: &mut Packed,
    side: Side,
    pick: Pick,
    known: &mut Known,
    random: &mut R,
    events: &mut S,
) -> Acted
    requires room { HasRoom S.room 21 events.old }
    requires counts { IsUncounted known.old }
    ensures shown { PlaysTo R.drawing random (fresh side (ready side pick)) side from_roll
        (acting known (scene S.tells battle events)) result
        (λ r p. resume (keep_accuracy side (action_parts r side pick p))) }
    ensures room { AddsAtMost S.room 21 events.old events.new }
    ensures steps { Steps R.drawing random }
{
    match parts_to_roll(battle, side, pick, known, random, events) {
        Acted::Ended(_) => Acted::Ended(end_action(battle, side, known)),
        Acted::Rolls(roll) => Acted::Rolls(roll),
    }
}

// The parts of an action. An end says whether the rest of the parts was skipped, here and below.
fn parts_to_roll<R: Rolls, S: EventSink>(
    battle: &mut Packed,
    side: Side,
    pick: Pick,
    known: &mut Known,
    random: &mut R,
    events: &mut S,
) -> Acted
    requires room { HasRoom S.room 21 events.old }
    requires counts { IsUncounted known.old }
    ensures shown { PlaysTo R.drawing random (fresh side (ready side pick)) side parts_from_roll
        (acting known (scene S.tells battle events)) result (λ r. action_parts r side pick) }
    ensures room { AddsAtMost S.room 21 events.old events.new }
    ensures steps { Steps R.drawing random }
{
    if gate(battle, side, pick, random, events).stops() {
        return Acted::Ended(true);
    }
    see_if_going_on(battle, side, pick, known);
    let id = move_taken(battle, side, pick);
    carry_to_roll(battle, side, pick, id, known, random, events)
}

// The parts after the move is settled.
fn carry_to_roll<R: Rolls, S: EventSink>(
    battle: &mut Packed,
    side: Side,
    pick: Pick,
    id: MoveId,
    known: &mut Known,
    random: &mut R,
    events: &mut S,
) -> Acted
    requires room { HasRoom S.room 18 events.old }
    requires counts { IsUncounted known.old }
    ensures shown { PlaysTo R.drawing random
        (fresh side (taking side pick (move_at id).effect)) side parts_from_roll
        (acting known (scene S.tells battle events)) result (λ r. carry_out r side pick (move_at id)) }
    ensures room { AddsAtMost S.room 18 events.old events.new }
    ensures steps { Steps R.drawing random }
{
    if bide_knowing(battle, side, known, events) {
        return Acted::Ended(true);
    }
    if lead_up_unless_let_go(battle, side, pick, id, known, random, events) {
        return Acted::Ended(true);
    }
    strike_to_roll(battle, side, id, known, random, events)
}

// What follows the lead-up.
fn strike_to_roll<R: Rolls, S: EventSink>(
    battle: &mut Packed,
    side: Side,
    id: MoveId,
    known: &mut Known,
    random: &mut R,
    events: &mut S,
) -> Acted
    requires room { HasRoom S.room 14 events.old }
    requires counts { IsUncounted known.old }
    ensures shown { PlaysTo R.drawing random
        (fresh side (using side (move_at id).effect)) side parts_from_roll
        (acting known (scene S.tells battle events)) result
        (λ r. damage_and_strike r side (move_at id)) }
    ensures room { AddsAtMost S.room 14 events.old events.new }
    ensures steps { Steps R.drawing random }
{
    if has_formula(known, id) {
        return critical_to_roll(battle, side, id, known, random, events);
    }
    Acted::Ended(damage_and_strike(battle, side, id, known, random, events))
}

// Whether the action finds its damage by the formula.
fn has_formula(known: &Known, id: MoveId) -> bool
    ensures { result ≡ (has_usual_damage (move_at id)
        && not (known.now.letting_go || (known.now.going_on && traps (move_at id).effect))) }
{
    has_usual_damage(id) && !lands_at_once(known, id.effect())
}

fn critical_to_roll<R: Rolls, S: EventSink>(
    battle: &mut Packed,
    side: Side,
    id: MoveId,
    known: &mut Known,
    random: &mut R,
    events: &mut S,
) -> Acted
    requires room { HasRoom S.room 14 events.old }
    requires counts { IsUncounted known.old }
    ensures shown { PlaysTo R.drawing random
        (fresh side λ g p Then. has_usual_damage (move_at id) ≡ true
        → p.action.letting_go ≡ false → Then) side parts_from_roll
        (acting known (scene S.tells battle events)) result
        (λ r. usual_damage side (move_at id) ▸ late_part r side (move_at id)
        ▸ strike r side (move_at id)) }
    ensures room { AddsAtMost S.room 14 events.old events.new }
    ensures steps { Steps R.drawing random }
{
    battle.put_last_damage(0);
    known.critical = critical(battle, side, id, random);
    damage_to_roll(battle, side, id, known, random, events)
}

// Damage of 0 and 1 is not rolled.
fn damage_to_roll<R: Rolls, S: EventSink>(
    battle: &mut Packed,
    side: Side,
    id: MoveId,
    known: &mut Known,
    random: &mut R,
    events: &mut S,
) -> Acted
    requires room { HasRoom S.room 14 events.old }
    requires counts { IsUncounted known.old }
    ensures shown { PlaysTo R.drawing random
        (fresh side λ g p Then. has_usual_damage (move_at id) ≡ true
        → p.action.letting_go ≡ false → Then) side parts_from_roll
        (acting known (scene S.tells battle events)) result
        (λ r. roll_damage side (move_at id) ▸ hit_or_miss side (move_at id)
        ▸ late_part r side (move_at id) ▸ strike r side (move_at id)) }
    ensures room { AddsAtMost S.room 14 events.old events.new }
    ensures steps { Steps R.drawing random }
{
    let numbers = numbers(battle, side, id, known.critical);
    let Some(before) = damage(&numbers) else {
        battle.put_outcome(Outcome::Fault(1));
        return Acted::Ended(true);
    };
    let after = type_steps(before, &numbers);
    known.through_types = true;
    known.missed = after == 0;
    if after >= 2 {
        return Acted::Rolls(Roll {
            id,
            damage: after,
            going_on: known.going_on,
            critical: known.critical,
        });
    }
    battle.put_last_damage(after);
    Acted::Ended(test_and_strike(battle, side, id, known, random, events))
}

// The hit test and the strike of a move with power.
fn test_and_strike<R: Rolls, S: EventSink>(
    battle: &mut Packed,
    side: Side,
    id: MoveId,
    known: &mut Known,
    random: &mut R,
    events: &mut S,
) -> bool
    requires room { HasRoom S.room 14 events.old }
    requires counts { IsUncounted known.old }
    ensures shown { (since : Since R.drawing random.new) (g : Frame) (p : Progress)
        → has_usual_damage (move_at id) ≡ true
        → ShowsKnown R.drawing since.source known.old g battle.old (S.tells events.old) random.old
        false p
        → ShowsKnown R.drawing since.source known.new g battle.new (S.tells events.new) random.new
        result ((hit_or_miss side (move_at id)
        ▸ late_part (ruling_of g.setting.terms) side (move_at id)
        ▸ strike (ruling_of g.setting.terms) side (move_at id)) p) }
    ensures room { AddsAtMost S.room 14 events.old events.new }
    ensures steps { Steps R.drawing random }
{
    hit_or_miss(battle, side, id, known, random);
    strike(battle, side, id, known, random, events)
}

fn known_at(side: Side, going_on: bool, critical: bool) -> Known
    ensures is { result ≡ rolling side going_on critical }
    ensures counts { IsUncounted result }
{
    Known {
        side,
        going_on,
        critical,
        through_types: true,
        ..Known::new()
    }
}

/// Draws the hit test of an action of `side` before the roll of its damage (docs/MECHANICS.md, "Hit test").
///
/// `roll` is what `act_to_roll` returned for this battle. `known` may be anything, and then holds what is known of the
/// action. If that is a miss, no damage is rolled.
pub fn test_hit<R: Rolls>(
    battle: &mut Packed,
    side: Side,
    roll: Roll,
    known: &mut Known,
    random: &mut R,
)
    ensures shown { TestsHit R.drawing random side roll battle known }
    ensures counts { IsUncounted known.new }
    ensures steps { Steps R.drawing random }
{
    *known = known_at(side, roll.going_on, roll.critical);
    hit_or_miss(battle, side, roll.id, known, random);
}

/// Rolls the damage of an action of `side` that has hit (docs/MECHANICS.md, "Factors").
///
/// The last damage is then the rolled one, or another that does the same to the foe.
pub fn roll_damage_of<R: Rolls>(battle: &mut Packed, side: Side, roll: Roll, random: &mut R)
    ensures shown { RollsDamage R.drawing random side roll battle }
    ensures steps { Steps R.drawing random }
{
    let (edge, cut) = damage_edge(battle, side.other());
    let varied = factor_up_to(roll.damage, edge, cut, random);
    battle.put_last_damage(varied);
}

// Plays the rest of an action after its hit test and its roll. Returns whether the battle is over then.
pub(crate) fn from_test<R: Rolls, S: EventSink>(
    battle: &mut Packed,
    side: Side,
    id: MoveId,
    known: &mut Known,
    random: &mut R,
    events: &mut S,
) -> bool
    requires room { HasRoom S.room 14 events.old }
    requires counts { IsUncounted known.old }
    ensures shown { (since : Since R.drawing random.new) (g : Frame) (p q : Progress)
        → has_usual_damage (move_at id) ≡ true → LikeDamage side p q
        → ShowsKnown R.drawing since.source known.old g battle.old (S.tells events.old) random.old
        false p
        → ShowsOver R.drawing since.source known.new g battle.new (S.tells events.new) random.new
        result (from_test (ruling_of g.setting.terms) side (move_at id) q) }
    ensures room { AddsAtMost S.room 14 events.old events.new }
    ensures steps { Steps R.drawing random }
{
    strike(battle, side, id, known, random, events);
    end_action(battle, side, known)
}

// The end of an action. Returns whether the battle is over.
fn end_action(battle: &mut Packed, side: Side, known: &Known) -> bool
    ensures shown { (g : Frame) (p : Progress) (events : List Event) (stopped : Bool)
        → g.action.accuracy_tested ≡ known.now.accuracy_tested
        → Shows g battle.old (Told events) stopped p
        → Shows g battle.new (Told events) result (resume (keep_accuracy side p)) }
{
    keep_accuracy(battle, side, known.accuracy_tested);
    battle.outcome().is_over()
}
