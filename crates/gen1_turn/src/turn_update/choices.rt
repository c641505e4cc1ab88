//! A turn, by both choices, and who acts first in it (docs/MECHANICS.md, "Order of a turn").
ghost use Rattle.std.specs.Prelude.{◌≡◌};
ghost use Rattle.gen1_rolls.specs.Draws.{Steps};
ghost use Rattle.gen1_machine.specs.declared.side.Side.TheVariants as sides;
ghost use Rattle.gen1_machine.specs.Conditions.{without_flinch};
ghost use Rattle.gen1_machine.specs.State.{active_in};
ghost use Rattle.gen1_machine.specs.Progress.{on_conditions};
ghost use Rattle.gen1_machine.specs.Picks.{picked_after};
ghost use Rattle.gen1_machine.specs.Plans.{Any, FitsPick};
ghost use Rattle.gen1_machine.specs.Turn.{both_pick, both_switch, do_parts, is_cut, one_picks, play_turn, set_picked, turn};
ghost use Rattle.gen1_machine.specs.TurnOrder.{in_order, in_order_of_rank, in_order_of_speed, rank, rank_in};
ghost use Rattle.gen1_machine.specs.Valid.{IsUsedMove};
ghost use Rattle.gen1_machine.specs.Ruling.{ruling_of};
ghost use Rattle.gen1_layout.specs.Operations.{Does, DoesAnyway, DoesWhere, holding, quiet, scene};
ghost use Rattle.gen1_layout.specs.Words.{AddsAtMost, Bool, Event, Frame, HasRoom, List, Progress, Reads, Shows, Told, false, length, member_in, other};
ghost use Rattle.gen1_hits.specs.Knowing.{knowing, with_broke};
ghost use Rattle.gen1_turn.specs.TwoParts.{Chooses, DoesTurn, MayCome, Orders, acts_in_turn};
ghost use Rattle.gen1_turn.specs.Action.{acting, aware_after, planning};

use super::parts::{BySide, act_and_suffer, end_spent_trapping, end_turn, sends_and_suffers};
use gen1_events::EventSink;
use gen1_hits::Known;
use gen1_layout::{Conditions, Packed};
use gen1_machine::{Choice, Pick, Place, Side, UsedMove};
use gen1_rolls::{Look, Rolls};
use gen1_status::{number_of, pick};
use gen1_tables::{COUNTER, Stat};

// A whole turn. No member has fainted after it yet. If it returns false, both members that are out live and the battle continues.
pub(crate) fn take_turn<R: Rolls, S: EventSink>(
    battle: &mut Packed,
    one: Choice,
    two: Choice,
    known: &mut Known,
    random: &mut BySide<R>,
    events: &mut S,
) -> bool
    requires room { HasRoom S.room 48 events.old }
    ensures shown { DoesTurn R.drawing random (planning (Chooses one two))
        (acting known (scene S.tells battle events)) result (λ r. turn r one two) }
    ensures room { AddsAtMost S.room 48 events.old events.new }
    ensures steps { Steps R.drawing random }
{
    end_flinch(battle, Side::One);
    end_flinch(battle, Side::Two);
    act_on_choices(battle, one, two, known, random, events)
}

/// Ends the flinch of `side`, with which a turn begins (docs/MECHANICS.md, "Order of a turn").
pub fn end_flinch(battle: &mut Packed, side: Side)
    ensures shown { (told : List Event) → Does (quiet told battle) false
        (on_conditions side without_flinch) }
{
    battle.put_flag(side, Conditions::FLINCH, false);
}

fn act_on_choices<R: Rolls, S: EventSink>(
    battle: &mut Packed,
    one: Choice,
    two: Choice,
    known: &mut Known,
    random: &mut BySide<R>,
    events: &mut S,
) -> bool
    requires room { HasRoom S.room 48 events.old }
    ensures shown { DoesTurn R.drawing random (planning (Chooses one two))
        (acting known (scene S.tells battle events)) result (λ r. play_turn r one two) }
    ensures room { AddsAtMost S.room 48 events.old events.new }
    ensures steps { Steps R.drawing random }
{
    match one {
        Choice::Move(_) => match two {
            Choice::Move(_) => {
                let first = pick(battle, Side::One, one);
                let second = pick(battle, Side::Two, two);
                both_pick(battle, first, second, known, random, events)
            }
            Choice::Switch(place) => {
                let first = pick(battle, Side::One, one);
                one_picks(battle, Side::One, first, place, known, random, events)
            }
            Choice::Pass => true
        },
        Choice::Switch(place) => match two {
            Choice::Move(_) => {
                let second = pick(battle, Side::Two, two);
                one_picks(battle, Side::Two, second, place, known, random, events)
            }
            Choice::Switch(other) => both_switch(battle, place, other, known, events),
            Choice::Pass => true
        },
        Choice::Pass => true
    }
}

fn both_pick<R: Rolls, S: EventSink>(
    battle: &mut Packed,
    one: Pick,
    two: Pick,
    known: &mut Known,
    random: &mut BySide<R>,
    events: &mut S,
) -> bool
    requires room { HasRoom S.room 48 events.old }
    ensures shown { DoesTurn R.drawing random
        (planning (λ plan p. FitsPick one (plan sides.One) × FitsPick two (plan sides.Two)))
        (acting known (scene S.tells battle events)) result (λ r. both_pick r one two) }
    ensures room { AddsAtMost S.room 48 events.old events.new }
    ensures steps { Steps R.drawing random }
{
    let first = settle_pick(battle, Side::One, one);
    let second = settle_pick(battle, Side::Two, two);
    match side_by_ranks(battle, first, second, random) {
        Side::One => both_act(battle, Side::One, one, two, known, random, events),
        Side::Two => both_act(battle, Side::Two, two, one, known, random, events),
    }
}

// Writes down what `side` has picked, and returns the rank of its move. A picked move is not read back.
#[inline(always)] // docs/SPEED.md, "Hints on inlining"
fn settle_pick(battle: &mut Packed, side: Side, picked: Pick) -> u8
    ensures shown { (told : List Event) → DoesWhere
        (holding λ p. IsUsedMove (length (member_in side p.field).moves)
        (picked_after picked (active_in side p.field).picked_move)) (quiet told battle) false
        (λ r. set_picked side picked) }
    ensures ranks { (told : List Event) (g : Frame) (p : Progress)
        → IsUsedMove (length (member_in side p.field).moves)
        (picked_after picked (active_in side p.field).picked_move)
        → Shows g battle.old (Told told) false p
        → result ≡ rank_in side (set_picked side picked p).field }
{
    match picked {
        Pick::Use(used) => {
            battle.put_picked_move(side, used);
            rank(number_of(battle, side, used))
        }
        Pick::Held => {
            battle.put_picked_move(side, UsedMove::Nothing);
            rank(0)
        }
        Pick::Continue => rank_of(battle, side),
        Pick::Idle => rank_of(battle, side),
    }
}

/// Writes down what `side` has picked, before anyone acts (docs/MECHANICS.md, "Picks").
pub fn set_picked(battle: &mut Packed, side: Side, pick: Pick)
    ensures shown { (told : List Event) → DoesWhere
        (holding λ p. IsUsedMove (length (member_in side p.field).moves)
        (picked_after pick (active_in side p.field).picked_move)) (quiet told battle) false
        (λ r. set_picked side pick) }
{
    match pick {
        Pick::Use(used) => battle.put_picked_move(side, used),
        Pick::Held => battle.put_picked_move(side, UsedMove::Nothing),
        Pick::Continue => {}
        Pick::Idle => {}
    }
}

// Both sides use a move, this side first.
fn both_act<R: Rolls, S: EventSink>(
    battle: &mut Packed,
    side: Side,
    mine: Pick,
    others: Pick,
    known: &mut Known,
    random: &mut BySide<R>,
    events: &mut S,
) -> bool
    requires room { HasRoom S.room 48 events.old }
    ensures shown { DoesTurn R.drawing random
        (planning (λ plan p. FitsPick mine (plan side) × FitsPick others (plan (other side))))
        (acting known (scene S.tells battle events)) result (λ r. do_parts r (acts_in_turn side mine others)) }
    ensures room { AddsAtMost S.room 48 events.old events.new }
    ensures steps { Steps R.drawing random }
{
    if act_and_suffer(battle, side, mine, known, random, events) {
        return true;
    }
    if act_and_suffer(battle, side.other(), others, known, random, events) {
        return true;
    }
    end_turn(battle);
    false
}

// One side uses a move. The other switches first.
#[inline(always)] // docs/SPEED.md, "Hints on inlining"
fn one_picks<R: Rolls, S: EventSink>(
    battle: &mut Packed,
    side: Side,
    pick: Pick,
    place: Place,
    known: &mut Known,
    random: &mut BySide<R>,
    events: &mut S,
) -> bool
    requires room { HasRoom S.room 48 events.old }
    ensures shown { DoesTurn R.drawing random
        (planning (λ plan p. FitsPick pick (plan side) × (plan (other side) ≡ Any)
        × MayCome (other side) place p.field × (is_cut p ≡ false))) (acting known (scene S.tells battle events))
        result (λ r. one_picks r side pick place) }
    ensures room { AddsAtMost S.room 48 events.old events.new }
    ensures steps { Steps R.drawing random }
{
    set_picked(battle, side, pick);
    if sends_and_suffers(battle, side.other(), place, known, events) {
        return true;
    }
    if act_and_suffer(battle, side, pick, known, random, events) {
        return true;
    }
    // The side that switched isn't trapping.
    end_spent_trapping(battle, side);
    false
}

// Both sides switch, side 1 first.
fn both_switch<S: EventSink>(
    battle: &mut Packed,
    one: Place,
    two: Place,
    known: &mut Known,
    events: &mut S,
) -> bool
    requires room { HasRoom S.room 48 events.old }
    ensures shown { (broke : Bool) → DoesAnyway
        (λ g p Then. MayCome sides.One one p.field → MayCome sides.Two two p.field → is_cut p ≡ false
        → Then)
        (aware_after broke known (scene S.tells battle events))
        (λ r. do_parts r (both_switch one two)) }
    ensures uncut { (broke : Bool) (g : Frame) (p : Progress) → result ≡ false
        → MayCome sides.One one p.field → MayCome sides.Two two p.field → is_cut p ≡ false
        → Shows (knowing (with_broke broke known.old) g) battle.old (S.tells events.old) false p
        → is_cut (do_parts (ruling_of g.setting.terms) (both_switch one two) p) ≡ false }
    ensures room { AddsAtMost S.room 48 events.old events.new }
{
    if sends_and_suffers(battle, Side::One, one, known, events) {
        return true;
    }
    if sends_and_suffers(battle, Side::Two, two, known, events) {
        return true;
    }
    // Neither side is trapping.
    false
}

const QUICK_ATTACK: u8 = 98;

// At equal Speed, a draw below this puts side 1 first.
const SIDE_1_BELOW: u8 = 128;

/// The side that acts first: by the picked moves, then by Speed, then by a draw (docs/MECHANICS.md, "Order of a turn").
#[inline(always)] // docs/SPEED.md, "Hints on inlining"
pub fn first_side<R: Rolls>(battle: &Packed, random: &mut R) -> Side
    ensures shown { Orders R.drawing random battle.now result in_order }
    ensures steps { Steps R.drawing random }
{
    let one = rank_of(battle, Side::One);
    let two = rank_of(battle, Side::Two);
    side_by_ranks(battle, one, two, random)
}

// The side that acts first, by the ranks of both sides' moves.
#[inline(always)] // docs/SPEED.md, "Hints on inlining"
fn side_by_ranks<R: Rolls>(battle: &Packed, one: u8, two: u8, random: &mut R) -> Side
    ensures shown { Orders R.drawing random battle.now result (in_order_of_rank one two) }
    ensures steps { Steps R.drawing random }
{
    if one < two {
        return Side::One;
    }
    if two < one {
        return Side::Two;
    }
    faster_side(battle, random)
}

fn faster_side<R: Rolls>(battle: &Packed, random: &mut R) -> Side
    ensures shown { Orders R.drawing random battle.now result in_order_of_speed }
    ensures steps { Steps R.drawing random }
{
    let one = battle.current_stat(Side::One, Stat::Speed);
    let two = battle.current_stat(Side::Two, Stat::Speed);
    if two < one {
        return Side::One;
    }
    if one < two {
        return Side::Two;
    }
    if random.draw_as(Look::Below(SIDE_1_BELOW)) < SIDE_1_BELOW {
        return Side::One;
    }
    Side::Two
}

fn rank_of(battle: &Packed, side: Side) -> u8
    ensures stands { Reads battle.now result (rank_in side) }
{
    rank(number_of(battle, side, battle.picked_move(side)))
}

// Quick Attack comes before other moves, and Counter after them.
fn rank(number: u8) -> u8
    ensures { result ≡ rank number }
{
    match number {
        QUICK_ATTACK => 0,
        COUNTER => 2,
        _ => 1,
    }
}
