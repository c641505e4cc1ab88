//! The parts of a turn, each with the residual damage of its side; a side's action in two parts; and a generator as two
//! types, one for the action of each side (docs/MECHANICS.md, "Order of a turn").
ghost use Rattle.std.specs.Prelude.{◌||◌, ◌≡◌};
ghost use Rattle.gen1_rolls.specs.Draws.{Steps};
ghost use Rattle.gen1_machine.specs.declared.side.Side.TheVariants as sides;
ghost use Rattle.gen1_machine.specs.State.{has_fallen_in, is_over};
ghost use Rattle.gen1_machine.specs.ResidualDamage.{residual};
ghost use Rattle.gen1_machine.specs.Ruling.{Ruling};
ghost use Rattle.gen1_machine.specs.Turn.{Sends, do_part, end_spent_trapping, end_turn, is_cut, is_spent};
ghost use Rattle.gen1_layout.specs.Operations.{Does, quiet, scene};
ghost use Rattle.gen1_layout.specs.Words.{AddsAtMost, Bool, Event, Frame, HasRoom, List, Progress, Reads, Shows, false, member_at, move_at, party};
ghost use Rattle.gen1_hits.specs.Knowing.{IsUncounted, knowing, with_broke};
ghost use Rattle.gen1_status.specs.Statuses.{takes_hp};
ghost use Rattle.gen1_turn.specs.Action.{acting};
ghost use Rattle.gen1_turn.specs.TwoParts.{ActsAndSuffers, LeavesRest, MayCome, PartLeaves, suffering, ActsAfter, ActsTo};

use crate::act;
use crate::action::{Acted, from_test, to_roll};
use gen1_events::EventSink;
use gen1_hits::Known;
use gen1_layout::Packed;
use gen1_machine::{Pick, Place, Side};
use gen1_rolls::{ByteTest, Look, Rolls};
use gen1_stats::Status;
use gen1_status::{residual, suffers};
use gen1_switching::send_out;
use gen1_tables::MoveId;
use std::marker::Model;

// A side's action, and its residual damage, by separate code for each side. Returns whether the rest of the turn is
// skipped.
pub(crate) fn act_and_suffer<R: Rolls, S: EventSink>(
    battle: &mut Packed,
    side: Side,
    pick: Pick,
    known: &mut Known,
    random: &mut BySide<R>,
    events: &mut S,
) -> bool
    requires room { HasRoom S.room 24 events.old }
    ensures shown { ActsAndSuffers R.drawing random side pick
        (acting known (scene S.tells battle events)) result }
    ensures room { AddsAtMost S.room 24 events.old events.new }
    ensures steps { Steps R.drawing random }
{
    match side {
        Side::One => act_and_suffer_as(battle, Side::One, pick, known, &mut random.0, events),
        Side::Two => act_and_suffer_as(battle, Side::Two, pick, known, random, events),
    }
}

/// The action of `side` in a turn, and then its residual damage (docs/MECHANICS.md, "Order of a turn").
///
/// It does what `known` says of the turn so far: Haze may have ended the action. Returns whether the rest of the turn is
/// skipped. It needs 24 free places in `events`.
#[inline(never)] // docs/SPEED.md, "Hints on inlining"
pub fn act_and_suffer_as<R: Rolls, S: EventSink>(
    battle: &mut Packed,
    side: Side,
    pick: Pick,
    known: &mut Known,
    random: &mut R,
    events: &mut S,
) -> bool
    requires room { HasRoom S.room 24 events.old }
    ensures shown { ActsAndSuffers R.drawing random side pick
        (acting known (scene S.tells battle events)) result }
    ensures room { AddsAtMost S.room 24 events.old events.new }
    ensures steps { Steps R.drawing random }
{
    *known = known.begun(side);
    if known.skips {
        return suffer_unless_over(battle, side, events);
    }
    if act(battle, side, pick, known, random, events) {
        return true;
    }
    suffer(battle, side, events)
}

/// Sends out a member of `side`, and then takes its residual damage (docs/MECHANICS.md, "Order of a turn").
///
/// Returns whether the rest of the turn is skipped. It needs 4 free places in `events`.
#[inline(always)] // docs/SPEED.md, "Hints on inlining"
pub(crate) fn sends_and_suffers<S: EventSink>(
    battle: &mut Packed,
    side: Side,
    place: Place,
    known: &mut Known,
    events: &mut S,
) -> bool
    requires room { HasRoom S.room 4 events.old }
    ensures shown { (g : Frame) (p : Progress) (broke : Bool) (r : Ruling)
        → MayCome side place p.field → is_cut p ≡ false
        → Shows (knowing (with_broke broke known.old) g) battle.old (S.tells events.old) false p
        → PartLeaves (Shows (knowing known.new g) battle.new (S.tells events.new)) result
        (do_part r (Sends side place)) side p }
    ensures room { AddsAtMost S.room 4 events.old events.new }
{
    *known = known.begun(side);
    let is_hurt = is_hurt_at(battle, side, place);
    send_out(battle, side, place, events);
    suffer_if(battle, side, is_hurt, events)
}

// Whether residual damage will take HP from a member that comes out. No seed is on it.
#[inline(always)] // docs/SPEED.md, "Hints on inlining"
fn is_hurt_at(battle: &Packed, side: Side, place: Place) -> bool
    ensures stands { Reads battle.now result λ f. takes_hp (member_at place (party side f)).status }
{
    let at = place.number();
    takes_hp(battle.status_at(side, at))
}

fn takes_hp(status: Status) -> bool
    ensures { result ≡ takes_hp status }
{
    matches!(status, Status::Poisoned | Status::Burned)
}

// A side's residual damage after a skipped action. Few actions are skipped.
#[inline(never)] // docs/SPEED.md, "Hints on inlining"
fn suffer_unless_over<S: EventSink>(battle: &mut Packed, side: Side, events: &mut S) -> bool
    requires room { HasRoom S.room 3 events.old }
    ensures shown { (g : Frame) (p : Progress) → Shows g battle.old (S.tells events.old) false p
        → LeavesRest (Shows g battle.new (S.tells events.new)) result (suffering side) (residual side)
        p }
    ensures room { AddsAtMost S.room 3 events.old events.new }
{
    if battle.outcome().is_over() {
        return true;
    }
    suffer(battle, side, events)
}

// A side's residual damage in a battle that continues, unless an active member has fallen. Returns whether the turn is
// cut now.
#[inline(always)] // docs/SPEED.md, "Hints on inlining"
fn suffer<S: EventSink>(battle: &mut Packed, side: Side, events: &mut S) -> bool
    requires room { HasRoom S.room 3 events.old }
    ensures shown { (g : Frame) (p : Progress) → is_over p.field.outcome ≡ false
        → Shows g battle.old (S.tells events.old) false p
        → LeavesRest (Shows g battle.new (S.tells events.new)) result (suffering side) (residual side)
        p }
    ensures room { AddsAtMost S.room 3 events.old events.new }
{
    if one_has_fallen(battle) {
        return true;
    }
    let is_hurt = suffers(battle, side);
    suffer_if(battle, side, is_hurt, events)
}

// A side's residual damage in a turn that isn't cut, if there is any. Returns whether the turn is cut now.
#[inline(always)] // docs/SPEED.md, "Hints on inlining"
fn suffer_if<S: EventSink>(battle: &mut Packed, side: Side, is_hurt: bool, events: &mut S) -> bool
    requires room { HasRoom S.room 3 events.old }
    ensures shown { (g : Frame) (p : Progress) → is_cut p ≡ false
        → (is_hurt ≡ false → residual side p ≡ p)
        → Shows g battle.old (S.tells events.old) false p
        → LeavesRest (Shows g battle.new (S.tells events.new)) result (suffering side) (residual side)
        p }
    ensures room { AddsAtMost S.room 3 events.old events.new }
{
    if !is_hurt {
        return false;
    }
    residual(battle, side, events);
    one_has_fallen(battle)
}

// Whether an active member has fallen.
fn one_has_fallen(battle: &Packed) -> bool
    ensures stands { Reads battle.now result λ f.
        (has_fallen_in sides.One f || has_fallen_in sides.Two f) }
{
    battle.has_fallen(Side::One) || battle.has_fallen(Side::Two)
}

/// Ends a turn whose rest was not skipped: trapping with a count of 0 ends (docs/MECHANICS.md, "Order of a turn").
pub fn end_turn(battle: &mut Packed)
    ensures shown { (told : List Event) → Does (quiet told battle) false end_turn }
{
    end_spent_trapping(battle, Side::One);
    end_spent_trapping(battle, Side::Two);
}

pub(crate) fn end_spent_trapping(battle: &mut Packed, side: Side)
    ensures shown { (told : List Event) → Does (quiet told battle) false (end_spent_trapping side) }
{
    if is_spent(battle.trapping(side)) {
        battle.end_trapping(side);
    }
}

fn is_spent(count: Option<u8>) -> bool
    ensures { result ≡ is_spent count }
{
    count == Some(0)
}

/// Plays the action of `side` in a turn up to the roll of its damage (docs/MECHANICS.md, "Action", "Factors").
///
/// If the action rolls no damage of 2 or more, it is played to its end, and then its residual damage. `test_hit` and
/// what follows it play the rest of an action that rolls. It needs 24 free places in `events`.
pub fn act_to_roll<R: Rolls, S: EventSink>(
    battle: &mut Packed,
    side: Side,
    pick: Pick,
    known: &mut Known,
    random: &mut R,
    events: &mut S,
) -> Acted
    requires room { HasRoom S.room 24 events.old }
    ensures shown { ActsTo R.drawing random side pick (acting known (scene S.tells battle events))
        result }
    ensures room { AddsAtMost S.room 24 events.old events.new }
    ensures steps { Steps R.drawing random }
{
    *known = known.begun(side);
    if known.skips {
        return Acted::Ended(suffer_unless_over(battle, side, events));
    }
    match to_roll(battle, side, pick, known, random, events) {
        Acted::Ended(true) => Acted::Ended(true),
        Acted::Ended(false) => Acted::Ended(suffer(battle, side, events)),
        Acted::Rolls(roll) => Acted::Rolls(roll),
    }
}

/// Plays the rest of an action of `side` after its hit test and its roll, and then its residual damage
/// (docs/MECHANICS.md, "Action", from step 9 on).
///
/// `test_hit` came before, and `roll_damage_of` if it hit. Returns whether the rest of the turn is skipped. It needs 17
/// free places in `events`.
pub fn act_after_test<R: Rolls, S: EventSink>(
    battle: &mut Packed,
    side: Side,
    id: MoveId,
    known: &mut Known,
    random: &mut R,
    events: &mut S,
) -> bool
    requires room { HasRoom S.room 17 events.old }
    requires counts { IsUncounted known.old }
    ensures shown { ActsAfter R.drawing random side (move_at id)
        (acting known (scene S.tells battle events)) result }
    ensures room { AddsAtMost S.room 17 events.old events.new }
    ensures steps { Steps R.drawing random }
{
    if from_test(battle, side, id, known, random, events) {
        return true;
    }
    suffer(battle, side, events)
}

/// A second type for a generator, with the same draws.
///
/// Code that is generic in its generator is compiled once for each type. Side 1's action draws from `.0`, and side
/// 2's from this type, so the two are separate code. In each of them the side, and with it every address, is a
/// constant (docs/SPEED.md, "An action for each side").
#[derive(Drop)]
pub(crate) struct BySide<R>(pub(crate) R);

impl<R> Model for BySide<R> {
    ghost Value = { R };

    ghost view = { λ r. r.0 };

    ghost inverse = { λ r. record { 0 = r } };
}

impl<R: Rolls> Rolls for BySide<R> {
    ghost drawing = { R.drawing };

    fn draw(&mut self) -> u8 {
        self.0.draw()
    }

    fn draw_as(&mut self, look: Look) -> u8 {
        self.0.draw_as(look)
    }

    #[inline(always)] // docs/SPEED.md, "Hints on inlining"
    fn until_as(&mut self, test: ByteTest, look: Look) -> Option<u8> {
        self.0.until_as(test, look)
    }
}
