//! One side's action, and its damage (docs/MECHANICS.md, "Action", step 7).
ghost use Rattle.std.specs.Prelude.{unwrap_or, ◌||◌, ◌≡◌};
ghost use Rattle.gen1_rolls.specs.Draws.{Steps};
ghost use Rattle.gen1_machine.specs.Action.{act, action_parts, damage_of, keep_accuracy, usual_damage};
ghost use Rattle.gen1_machine.specs.State.{is_over};
ghost use Rattle.gen1_machine.specs.Damage.{roll_damage};
ghost use Rattle.gen1_machine.specs.Progress.{choose, set_last_damage};
ghost use Rattle.gen1_layout.specs.Operations.{quiet, scene};
ghost use Rattle.gen1_layout.specs.Words.{AddsAtMost, Bool, Event, Frame, HasRoom, List, Progress, Reads, Shows, Told, active_in, is_some, move_at, nat_lt, underway_in};
ghost use Rattle.gen1_hits.specs.Knowing.{IsUncounted, aware};
ghost use Rattle.gen1_turn.specs.Action.{Acts, DoesParts, acting, picked, ready, DrawsLike, LikeDamage, LikeUsual, cuts_in, edge_in, way_of};

mod lead_up;
mod steps;
mod two_parts;

use gen1_events::EventSink;
use gen1_hits::{Known, critical, damage, factor_up_to, hit_or_miss, numbers, type_steps};
use gen1_layout::{Conditions, Packed};
use gen1_machine::{Outcome, Pick, Side};
use gen1_multiturn::{counter_knowing, fixed_knowing, knock_out};
use gen1_rolls::Rolls;
use gen1_status::gate;
use gen1_tables::{Effect, MoveId};
use lead_up::{move_taken, see_if_going_on};
use steps::carry_out;
pub use two_parts::{Acted, Roll, roll_damage_of, test_hit};
pub(crate) use two_parts::{from_test, to_roll};

/// Plays the action of `side` by its pick, from the gate to the kept accuracy (docs/MECHANICS.md, "Action").
///
/// Returns whether the battle is over then, which a fault causes. It writes at most 21 events, and needs that many
/// free places in `events`. The facts known of the last action are forgotten, except for the side that is skipped.
pub fn act<R: Rolls, S: EventSink>(
    battle: &mut Packed,
    side: Side,
    pick: Pick,
    known: &mut Known,
    random: &mut R,
    events: &mut S,
) -> bool
    requires room { HasRoom S.room 21 events.old }
    ensures shown { Acts R.drawing random (picked side pick)
        (acting known (scene S.tells battle events)) result (λ r. act r side pick) }
    ensures room { AddsAtMost S.room 21 events.old events.new }
    ensures steps { Steps R.drawing random }
{
    *known = known.begun(side);
    action_parts(battle, side, pick, known, random, events);
    keep_accuracy(battle, side, known.accuracy_tested);
    battle.outcome().is_over()
}

fn action_parts<R: Rolls, S: EventSink>(
    battle: &mut Packed,
    side: Side,
    pick: Pick,
    known: &mut Known,
    random: &mut R,
    events: &mut S,
) -> bool
    requires room { HasRoom S.room 21 events.old }
    requires counts { IsUncounted known.old }
    ensures shown { DoesParts R.drawing random (ready side pick)
        (acting known (scene S.tells battle events)) result (λ r. action_parts r side pick) }
    ensures room { AddsAtMost S.room 21 events.old events.new }
    ensures steps { Steps R.drawing random }
{
    if gate(battle, side, pick, random, events).stops() {
        return true;
    }
    see_if_going_on(battle, side, pick, known);
    let id = move_taken(battle, side, pick);
    carry_out(battle, side, pick, id, known, random, events)
}

// However an action ends, the accuracy of its hit test is kept while rage or thrashing is on
// (docs/MECHANICS.md, "Kept accuracy").
fn keep_accuracy(battle: &mut Packed, side: Side, tested: Option<u8>)
    ensures shown { (g : Frame) (p : Progress) (events : List Event) (stopped : Bool)
        → g.action.accuracy_tested ≡ tested
        → Shows g battle.old (Told events) stopped p
        → Shows g battle.new (Told events) stopped (keep_accuracy side p) }
{
    if keeps_accuracy(battle, side) {
        let byte = accuracy_to_keep(battle, side, tested);
        battle.put_kept_accuracy(side, byte);
        return;
    }
    battle.put_kept_accuracy(side, 0);
}

// An action without a hit test keeps the byte that was kept before (docs/MECHANICS.md, "Kept accuracy"). Few actions
// keep one.
#[inline(never)] // docs/SPEED.md, "Hints on inlining"
fn accuracy_to_keep(battle: &Packed, side: Side, tested: Option<u8>) -> u8
    ensures stands { Reads battle.now result λ f. unwrap_or tested (active_in side f).kept_accuracy }
{
    match tested {
        Some(byte) => byte,
        None => battle.kept_accuracy(side),
    }
}

fn keeps_accuracy(battle: &Packed, side: Side) -> bool
    ensures stands { Reads battle.now result λ f.
        ((underway_in side f).rage || is_some (underway_in side f).thrash) }
{
    if battle.is_on(side, Conditions::RAGE) {
        return true;
    }
    battle.is_on(side, Conditions::THRASH)
}

// How the damage of a move is found.
#[derive(Clone, Copy)]
pub(crate) enum Way {
    Counter,
    Fixed,
    KnockOut,
    Usual,
}

fn way_of(effect: Effect) -> Way
    ensures { result ≡ way_of effect }
{
    match effect {
        Effect::Counter => Way::Counter,
        Effect::FixedDamage | Effect::SuperFang => Way::Fixed,
        Effect::OneHitKnockOut => Way::KnockOut,
        _ => Way::Usual,
    }
}

// Finds the damage of a move, and whether it hits. Returns whether a fault ended the battle. The last damage may differ
// from the machine's if both do the same to the foe.
pub(crate) fn damage_of<R: Rolls>(
    battle: &mut Packed,
    side: Side,
    id: MoveId,
    known: &mut Known,
    random: &mut R,
) -> bool
    ensures shown { (told : List Event) → DrawsLike R.drawing random (aware known (quiet told battle))
        result (LikeUsual side (move_at id)) (damage_of side (move_at id) (move_at id).effect) }
    ensures counts { IsUncounted known.old → IsUncounted known.new }
    ensures steps { Steps R.drawing random }
{
    match way_of(id.effect()) {
        Way::Counter => {
            counter_knowing(battle, side, id, known, random);
            false
        }
        Way::Fixed => fixed_knowing(battle, side, id, known, random),
        Way::KnockOut => {
            knock_out(battle, side, id, known, random);
            false
        }
        Way::Usual => damage_by_power(battle, side, id, known, random),
    }
}

fn damage_by_power<R: Rolls>(
    battle: &mut Packed,
    side: Side,
    id: MoveId,
    known: &mut Known,
    random: &mut R,
) -> bool
    ensures shown { (told : List Event) → DrawsLike R.drawing random (aware known (quiet told battle))
        result (LikeUsual side (move_at id)) (choose (λ _. nat_lt 0 (move_at id).power)
        (usual_damage side (move_at id)) (set_last_damage 0)) }
    ensures counts { IsUncounted known.old → IsUncounted known.new }
    ensures steps { Steps R.drawing random }
{
    battle.put_last_damage(0);
    if id.power() == 0 {
        return false;
    }
    known.critical = critical(battle, side, id, random);
    if roll_damage(battle, side, id, known, random) {
        return true;
    }
    hit_or_miss(battle, side, id, known, random);
    false
}

// Finds the damage of a hit. Returns whether the divisor is 0.
fn roll_damage<R: Rolls>(
    battle: &mut Packed,
    side: Side,
    id: MoveId,
    known: &mut Known,
    random: &mut R,
) -> bool
    ensures shown { (told : List Event) → DrawsLike R.drawing random (aware known (quiet told battle))
        result (LikeDamage side) (roll_damage side (move_at id)) }
    ensures counts { IsUncounted known.old → IsUncounted known.new }
    ensures steps { Steps R.drawing random }
{
    let numbers = numbers(battle, side, id, known.critical);
    let Some(before) = damage(&numbers) else {
        battle.put_outcome(Outcome::Fault(1));
        return true;
    };
    let after = type_steps(before, &numbers);
    known.through_types = true;
    known.missed = after == 0;
    let (edge, cut) = damage_edge(battle, side.other());
    let varied = factor_up_to(after, edge, cut, random);
    battle.put_last_damage(varied);
    false
}

// The least damage of a hit that fells the foe or breaks its Substitute, and whether all damage from there on has the
// same effect. A Substitute takes damage uncut.
fn damage_edge(battle: &Packed, foe: Side) -> (u16, bool)
    ensures edge { Reads battle.now result.0 (edge_in foe) }
    ensures cut { Reads battle.now result.1 (cuts_in foe) }
{
    match battle.substitute(foe) {
        Some(left) => (u16::from(left) + 1, false),
        None => (battle.hp(foe), true),
    }
}
