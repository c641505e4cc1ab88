//! Moves that continue: whether that of a side does, by its conditions; thrashing, which ends in confusion; trapping; and
//! Rage, which builds each time damage lands on its user (docs/MECHANICS.md, "Going on").
ghost use Rattle.std.specs.Prelude.{◌≡◌};
ghost use Rattle.gen1_tables.specs.declared.effect.Effect.{Effect};
ghost use Rattle.gen1_tables.specs.declared.effect.Effect.TheVariants.{Thrash, Trapping};
ghost use Rattle.gen1_tables.specs.Effects.{thrashes, traps};
ghost use Rattle.gen1_rolls.specs.Draws.{Steps};
ghost use Rattle.gen1_machine.specs.declared.side.Pick.TheVariants.{Continue};
ghost use Rattle.gen1_machine.specs.Action.{see_if_going_on};
ghost use Rattle.gen1_machine.specs.Moves.{Move, accuracy_byte};
ghost use Rattle.gen1_machine.specs.GoingOn.{draw_count, thrash_about, thrash_for, thrash_less, trap, trap_for};
ghost use Rattle.gen1_machine.specs.Progress.{has_fallen, on_conditions, underway, unless};
ghost use Rattle.gen1_machine.specs.Conditions.{with_trapping_one_less, without_recharge};
ghost use Rattle.gen1_machine.specs.ManyHits.{build_rage};
ghost use Rattle.gen1_layout.specs.Operations.{Does, DrawsWhere, holding, learns, quiet, scene, unchanged};
ghost use Rattle.gen1_layout.specs.Words.{AddsAtMost, Event, HasRoom, List, None, draw, false, move_at, other, true, ◌▸◌};
ghost use Rattle.gen1_hits.specs.Knowing.{Leaves, aware_of, beginning, knowing};
ghost use Rattle.gen1_hits.specs.Planned.{using};
ghost use Rattle.gen1_multiturn.specs.GoingOn.{use_thrash, use_trap};

use crate::move_hits::hit_counts::draw_count;
use gen1_events::EventSink;
use gen1_hits::Known;
use gen1_layout::{Conditions, Packed};
use gen1_machine::Side;
use gen1_rolls::{Look, Rolls};
use gen1_status::{confuse, keeps_going, raise_stage};
use gen1_tables::{MoveId, Stat};

// What is known of an action of `side` that has just begun, if the bytes alone say whether it continues.
fn seen_going_on(battle: &Packed, side: Side) -> Known
    ensures shown { (told : List Event) → Does
        (learns (knowing result) (beginning side (unchanged told battle))) false
        (see_if_going_on side Continue) }
{
    Known {
        going_on: keeps_going(battle, side),
        ..Known::new().begun(side)
    }
}

// The accuracy byte of Thrash and of Petal Dance.
const ACCURACY: u8 = 255;

/// Uses Thrash or Petal Dance (docs/MECHANICS.md, "Going on").
///
/// If `side` isn't thrashing yet, it begins to, for two or three more turns, by one draw. The accuracy byte of these
/// moves, 255, is kept for them. If it is thrashing, one turn less is left. After the last turn the user is confused,
/// by one draw, with `Start`. It needs one free place in `events`. Nothing else changes.
pub fn thrash<R: Rolls, S: EventSink>(
    battle: &mut Packed,
    side: Side,
    random: &mut R,
    events: &mut S,
)
    requires room { HasRoom S.room 1 events.old }
    ensures left { (move : Move) → accuracy_byte move ≡ 255 → Leaves R.drawing random
        (using side Thrash) (beginning side (scene S.tells battle events)) (λ r. use_thrash side move) }
    ensures room { AddsAtMost S.room 1 events.old events.new }
    ensures steps { Steps R.drawing random }
{
    let known = seen_going_on(battle, side);
    thrash_with(battle, side, ACCURACY, &known, random, events);
}

/// Uses a move that thrashes in an action of which something is known. `known` says whether it continues
/// (docs/MECHANICS.md, "Going on").
pub fn thrash_knowing<R: Rolls, S: EventSink>(
    battle: &mut Packed,
    side: Side,
    id: MoveId,
    known: &Known,
    random: &mut R,
    events: &mut S,
)
    requires room { HasRoom S.room 1 events.old }
    requires tie { thrashes (move_at id).effect ≡ true }
    ensures shown { DrawsWhere R.drawing random (using side (move_at id).effect)
        (aware_of known.now (scene S.tells battle events)) false (λ r. thrash_about side (move_at id)) }
    ensures room { AddsAtMost S.room 1 events.old events.new }
    ensures steps { Steps R.drawing random }
{
    thrash_with(battle, side, id.accuracy_byte(), known, random, events);
}

// Uses a move that thrashes, with this accuracy byte.
fn thrash_with<R: Rolls, S: EventSink>(
    battle: &mut Packed,
    side: Side,
    accuracy: u8,
    known: &Known,
    random: &mut R,
    events: &mut S,
)
    requires room { HasRoom S.room 1 events.old }
    ensures shown { (move : Move) (effect : Effect) → accuracy_byte move ≡ accuracy → thrashes effect
        ≡ true → DrawsWhere R.drawing random (using side effect) (aware_of known.now (scene S.tells battle events)) false (λ r. thrash_about side move) }
    ensures room { AddsAtMost S.room 1 events.old events.new }
    ensures steps { Steps R.drawing random }
{
    if known.going_on {
        thrash_on(battle, side, battle.thrash(side), random, events);
        return;
    }
    begin_thrashing(battle, side, accuracy, random);
}

// One turn less is left. After the last turn thrashing ends, and the user is confused.
fn thrash_on<R: Rolls, S: EventSink>(
    battle: &mut Packed,
    side: Side,
    left: Option<u8>,
    random: &mut R,
    events: &mut S,
)
    requires room { HasRoom S.room 1 events.old }
    ensures shown { DrawsWhere R.drawing random (holding λ p. (underway side p).thrash ≡ left)
        (scene S.tells battle events) false (λ r. thrash_less side left) }
    ensures room { AddsAtMost S.room 1 events.old events.new }
    ensures steps { Steps R.drawing random }
{
    let Some(turns) = left else {
        return;
    };
    if turns <= 1 {
        battle.end_thrash(side);
        confuse(battle, side, random, events);
        return;
    }
    battle.put_thrash(side, turns.saturating_sub(1));
}

// Bide and trapping are off. The accuracy is kept from here on, since a fault may come before the hit test
// (docs/MECHANICS.md, "Going on", "Kept accuracy").
fn begin_thrashing<R: Rolls>(battle: &mut Packed, side: Side, accuracy: u8, random: &mut R)
    ensures shown { (told : List Event) (move : Move) → accuracy_byte move ≡ accuracy → DrawsWhere
        R.drawing random (λ g p Then. (underway side p).bide ≡ None → (underway side p).trapping ≡
        None → Then) (quiet told battle) false (λ r. draw (thrash_for side move)) }
    ensures steps { Steps R.drawing random }
{
    let byte = random.draw_as(Look::Remainder(2));
    battle.put_thrash(side, byte % 2 + 2);
    battle.put_kept_accuracy(side, accuracy);
}

/// Uses a trapping move (docs/MECHANICS.md, "Going on").
///
/// If `side` isn't trapping yet, the foe's Recharge is cleared, and the foe can't act for two to five turns, by one
/// or two draws. If it is trapping, its Trapping continues with one turn less, and nothing is drawn. No event is
/// written, and nothing else changes.
pub fn trap<R: Rolls>(battle: &mut Packed, side: Side, random: &mut R)
    ensures left { (told : List Event) → Leaves R.drawing random (using side Trapping)
        (beginning side (quiet told battle)) (λ r. use_trap side) }
    ensures steps { Steps R.drawing random }
{
    let known = seen_going_on(battle, side);
    trap_knowing(battle, side, &known, random);
}

/// Uses a trapping move in an action of which something is known. `known` says whether it continues
/// (docs/MECHANICS.md, "Going on").
pub fn trap_knowing<R: Rolls>(battle: &mut Packed, side: Side, known: &Known, random: &mut R)
    ensures shown { (told : List Event) (effect : Effect) → traps effect ≡ true → DrawsWhere R.drawing
        random (using side effect) (aware_of known.now (quiet told battle)) false (λ r. trap side) }
    ensures steps { Steps R.drawing random }
{
    if known.going_on {
        trap_one_turn_less(battle, side);
        return;
    }
    begin_trapping(battle, side, random);
}

fn trap_one_turn_less(battle: &mut Packed, side: Side)
    ensures shown { (told : List Event) → Does (quiet told battle) false
        (on_conditions side with_trapping_one_less) }
{
    match battle.trapping(side) {
        Some(turns) => battle.put_trapping(side, turns.saturating_sub(1)),
        None => {}
    }
}

// Bide and thrashing are off.
fn begin_trapping<R: Rolls>(battle: &mut Packed, side: Side, random: &mut R)
    ensures shown { (told : List Event) → DrawsWhere R.drawing random
        (λ g p Then. (underway side p).bide ≡ None → (underway side p).thrash ≡ None → Then)
        (quiet told battle) false (λ r. on_conditions (other side) without_recharge ▸ draw_count
        (trap_for side)) }
    ensures steps { Steps R.drawing random }
{
    battle.put_flag(side.other(), Conditions::RECHARGE, false);
    let count = draw_count(random);
    battle.put_trapping(side, count + 1);
}

/// Builds the Rage of the foe of `side` after damage landed on it (docs/MECHANICS.md, "Going on", "Stage shift").
///
/// If the foe lives and its Rage is on, its Attack is shifted up by 1. `Boost` is written if the stage rises, for
/// which it needs one free place in `events`. At +6 nothing happens, and a failure isn't reported. Only what a shift
/// changes is changed.
pub fn rage<S: EventSink>(battle: &mut Packed, side: Side, events: &mut S)
    requires room { HasRoom S.room 1 events.old }
    ensures shown { Does (scene S.tells battle events) false
        (unless (has_fallen (other side)) (build_rage (other side))) }
    ensures room { AddsAtMost S.room 1 events.old events.new }
{
    let foe = side.other();
    if battle.has_fallen(foe) {
        return;
    }
    build_rage(battle, foe, events);
}

fn build_rage<S: EventSink>(battle: &mut Packed, side: Side, events: &mut S)
    requires room { HasRoom S.room 1 events.old }
    ensures shown { Does (scene S.tells battle events) false (build_rage side) }
    ensures room { AddsAtMost S.room 1 events.old events.new }
{
    if !battle.is_on(side, Conditions::RAGE) {
        return;
    }
    let _raised = raise_stage(battle, side, side, Stat::Attack, 1, events);
}
