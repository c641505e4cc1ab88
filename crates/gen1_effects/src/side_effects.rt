//! What a move may do in addition to its damage, Disable with its draws (docs/MECHANICS.md, "Side effects").
ghost use Rattle.std.specs.Prelude.{if◌then◌else◌, slice_index_or, ℕ, ◌%◌, ◌≡◌};
ghost use Rattle.gen1_rolls.specs.Draws.{Steps};
ghost use Rattle.gen1_rolls.specs.declared.rolls.Look.TheVariants.{Remainder};
ghost use Rattle.gen1_machine.specs.SideEffects.{disable, disable_for, disable_slot, has_pp, must_recharge, names_slot, side_effect};
ghost use Rattle.gen1_machine.specs.Progress.{member};
ghost use Rattle.gen1_layout.specs.Operations.{Does, DoesWhere, Draws, DrawsWhere, anything, holding, scene};
ghost use Rattle.gen1_layout.specs.Words.{AddsAtMost, Field, HasRoom, Reads, Setting, Within, false, member_in, move_at, other, true};
ghost use Rattle.gen1_hits.specs.Knowing.{IsUncounted, Leaves, aware, beginning};
ghost use Rattle.gen1_effects.specs.SideEffects.{draw_slot, harm_of, harms, harms_unless_away, way_of};

mod chances;

use chances::{may_confuse, may_flinch, may_inflict, may_lower, may_poison};
use gen1_events::EventSink;
use gen1_hits::{Known, must_hit};
use gen1_layout::{Conditions, Packed};
use gen1_machine::{DisabledSlot, Event, Kind, Side, Volatile};
use gen1_rolls::{ByteTest, Look, Rolls};
use gen1_status::fail;
use gen1_tables::{Effect, MoveId, Stat};

// What a move may do in addition to its damage. The numbers are the bounds of draws.
#[derive(Clone, Copy)]
pub(crate) enum Way {
    Confuse(u8),
    Disable,
    Recharge,
    // Effects that a Substitute of the foe keeps away.
    Harm(Harm),
}

#[derive(Clone, Copy)]
pub(crate) enum Harm {
    Poison(u8),
    Burn(u8),
    Freeze,
    Paralysis(u8),
    Flinch(u8),
    Drop(Stat),
    Nothing,
}

/// The side effect of a move of `side` whose action has just begun (docs/MECHANICS.md, "Side effects").
///
/// A move without one does nothing. It needs one free place in `events`.
pub fn side_effect<R: Rolls, S: EventSink>(
    battle: &mut Packed,
    side: Side,
    id: MoveId,
    random: &mut R,
    events: &mut S,
)
    requires room { HasRoom S.room 1 events.old }
    ensures shown { Leaves R.drawing random anything (beginning side (scene S.tells battle events))
        (λ r. side_effect r side (move_at id) (move_at id).effect) }
    ensures room { AddsAtMost S.room 1 events.old events.new }
    ensures steps { Steps R.drawing random }
{
    let mut known = Known::new().begun(side);
    side_effect_knowing(battle, side, id, &mut known, random, events);
}

/// The side effect of a move of `side`, with what is known of its action (docs/MECHANICS.md, "Side effects").
///
/// Returns whether it ended the action, which happens if Disable missed or failed. Only the hit test of Disable
/// changes what is known. It needs one free place in `events`.
pub fn side_effect_knowing<R: Rolls, S: EventSink>(
    battle: &mut Packed,
    side: Side,
    id: MoveId,
    known: &mut Known,
    random: &mut R,
    events: &mut S,
) -> bool
    requires room { HasRoom S.room 1 events.old }
    ensures shown { DrawsWhere R.drawing random anything (aware known (scene S.tells battle events))
        result (λ r. side_effect r side (move_at id) (move_at id).effect) }
    ensures counts { IsUncounted known.old → IsUncounted known.new }
    ensures room { AddsAtMost S.room 1 events.old events.new }
    ensures steps { Steps R.drawing random }
{
    match way_of(id.effect()) {
        Way::Confuse(bound) => {
            may_confuse(battle, side, bound, random, events);
            false
        }
        Way::Disable => disable(battle, side, id, known, random, events),
        Way::Recharge => {
            must_recharge(battle, side, events);
            false
        }
        Way::Harm(harm) => {
            harm_unless_away(battle, side, id, harm, random, events);
            false
        }
    }
}

// A Substitute of the foe keeps these effects away, without a draw.
fn harm_unless_away<R: Rolls, S: EventSink>(
    battle: &mut Packed,
    side: Side,
    id: MoveId,
    harm: Harm,
    random: &mut R,
    events: &mut S,
)
    requires room { HasRoom S.room 1 events.old }
    ensures shown { DrawsWhere R.drawing random anything (scene S.tells battle events) false
        (λ r. harms_unless_away r side (move_at id) harm) }
    ensures room { AddsAtMost S.room 1 events.old events.new }
    ensures steps { Steps R.drawing random }
{
    if battle.is_on(side.other(), Conditions::SUBSTITUTE) {
        return;
    }
    do_harm(battle, side, id, harm, random, events);
}

fn do_harm<R: Rolls, S: EventSink>(
    battle: &mut Packed,
    side: Side,
    id: MoveId,
    harm: Harm,
    random: &mut R,
    events: &mut S,
)
    requires room { HasRoom S.room 1 events.old }
    ensures shown { DrawsWhere R.drawing random anything (scene S.tells battle events) false
        (λ r. harms r side (move_at id) harm) }
    ensures room { AddsAtMost S.room 1 events.old events.new }
    ensures steps { Steps R.drawing random }
{
    match harm {
        Harm::Poison(bound) => may_poison(battle, side, bound, random, events),
        Harm::Burn(bound) => may_inflict(battle, side, id, Kind::Burn, bound, random, events),
        Harm::Freeze => may_inflict(battle, side, id, Kind::Freeze, 26, random, events),
        Harm::Paralysis(bound) => {
            may_inflict(battle, side, id, Kind::Paralysis, bound, random, events)
        }
        Harm::Flinch(bound) => may_flinch(battle, side, bound, random),
        Harm::Drop(stat) => may_lower(battle, side, stat, random, events),
        Harm::Nothing => {}
    }
}

#[inline(always)] // docs/SPEED.md, "Hints on inlining"
fn way_of(effect: Effect) -> Way
    ensures { result ≡ way_of effect }
{
    match effect {
        Effect::ConfusionChance(bound) => Way::Confuse(bound),
        Effect::Disable => Way::Disable,
        Effect::Recharge => Way::Recharge,
        _ => Way::Harm(harm_of(effect)),
    }
}

fn harm_of(effect: Effect) -> Harm
    ensures { result ≡ harm_of effect }
{
    match effect {
        Effect::PoisonChance(bound) => Harm::Poison(bound),
        Effect::Twineedle => Harm::Poison(52),
        Effect::BurnChance(bound) => Harm::Burn(bound),
        Effect::FreezeChance => Harm::Freeze,
        Effect::ParalysisChance(bound) => Harm::Paralysis(bound),
        Effect::FlinchChance(bound) => Harm::Flinch(bound),
        Effect::StatDownChance(stat) => Harm::Drop(stat),
        _ => Harm::Nothing,
    }
}

fn disable<R: Rolls, S: EventSink>(
    battle: &mut Packed,
    side: Side,
    id: MoveId,
    known: &mut Known,
    random: &mut R,
    events: &mut S,
) -> bool
    requires room { HasRoom S.room 1 events.old }
    ensures shown { Draws R.drawing random (aware known (scene S.tells battle events)) result
        (disable side (move_at id)) }
    ensures counts { IsUncounted known.old → IsUncounted known.new }
    ensures room { AddsAtMost S.room 1 events.old events.new }
    ensures steps { Steps R.drawing random }
{
    if must_hit(battle, side, id, known, random, events) {
        return true;
    }
    if battle.is_on(side.other(), Conditions::DISABLED) {
        fail(battle, side, events);
        return true;
    }
    draw_slot(battle, side, random, events)
}

// Draws until a byte names a slot. If no slot has PP, Disable fails at the first slot that holds a move.
fn draw_slot<R: Rolls, S: EventSink>(
    battle: &mut Packed,
    side: Side,
    random: &mut R,
    events: &mut S,
) -> bool
    requires room { HasRoom S.room 1 events.old }
    ensures shown { Draws R.drawing random (scene S.tells battle events) result (draw_slot side) }
    ensures room { AddsAtMost S.room 1 events.old events.new }
    ensures steps { Steps R.drawing random }
{
    let foe = side.other();
    let any_pp = has_pp(battle, foe);
    let test = ByteTest::PlaceOf(named_slots(battle, foe, any_pp));
    match random.until_as(test, slot_look(any_pp)) {
        Some(byte) => disable_slot(battle, side, any_pp, byte, random, events),
        None => false,
    }
}

fn disable_slot<R: Rolls, S: EventSink>(
    battle: &mut Packed,
    side: Side,
    any_pp: bool,
    byte: u8,
    random: &mut R,
    events: &mut S,
) -> bool
    requires room { HasRoom S.room 1 events.old }
    ensures shown { DrawsWhere R.drawing random
        (λ g p Then. any_pp ≡ has_pp (member (other side) p).moves → names_slot
        (member (other side) p).moves byte ≡ true → Then) (scene S.tells battle events) result
        (λ r p. disable_slot side (member (other side) p).moves byte p) }
    ensures room { AddsAtMost S.room 1 events.old events.new }
    ensures steps { Steps R.drawing random }
{
    if !any_pp {
        fail(battle, side, events);
        return true;
    }
    let count = random.draw_as(Look::Remainder(8));
    disable_for(battle, side.other(), byte, count, events);
    false
}

fn disable_for<S: EventSink>(battle: &mut Packed, foe: Side, byte: u8, count: u8, events: &mut S)
    requires room { HasRoom S.room 1 events.old }
    ensures shown { DoesWhere (holding λ p. names_slot (member foe p).moves byte ≡ true)
        (scene S.tells battle events) false (λ r. disable_for foe byte count) }
    ensures room { AddsAtMost S.room 1 events.old events.new }
{
    let disabled = DisabledSlot {
        slot: byte % 4 + 1,
        turns: count % 8 + 1,
    };
    battle.put_disabled(foe, Some(disabled));
    events.push(Event::Start(battle.who(foe), Volatile::Disable));
}

// If no slot has PP, Disable fails at each slot.
fn slot_look(any_pp: bool) -> Look
    ensures { result ≡ (if any_pp then Remainder 4 else Remainder 1) }
{
    if any_pp {
        Look::Remainder(4)
    } else {
        Look::Remainder(1)
    }
}

// Which of the four slots a byte may name.
fn named_slots(battle: &Packed, foe: Side, any_pp: bool) -> [bool; 4]
    ensures stands { (g : Setting) (f : Field) → Within g battle.now f
        → any_pp ≡ has_pp (member_in foe f).moves → (byte : ℕ)
        → slice_index_or result (byte % 4) false ≡ names_slot (member_in foe f).moves byte }
{
    [
        names_slot(battle, foe, any_pp, 0),
        names_slot(battle, foe, any_pp, 1),
        names_slot(battle, foe, any_pp, 2),
        names_slot(battle, foe, any_pp, 3),
    ]
}

// A drawn slot has to hold a move. If any move has PP, that move must have PP.
fn names_slot(battle: &Packed, foe: Side, any_pp: bool, byte: u8) -> bool
    ensures stands { (g : Setting) (f : Field) → Within g battle.now f
        → any_pp ≡ has_pp (member_in foe f).moves
        → result ≡ names_slot (member_in foe f).moves byte }
{
    let slot = byte % 4 + 1;
    let held = battle.move_in(foe, slot) > 0;
    let has_pp = battle.pp(foe, slot) > 0;
    held & (!any_pp | has_pp)
}

// Whether a move of the member that is out has PP left.
fn has_pp(battle: &Packed, side: Side) -> bool
    ensures stands { Reads battle.now result λ f. has_pp (member_in side f).moves }
{
    let one = battle.pp(side, 1) > 0;
    let two = battle.pp(side, 2) > 0;
    let three = battle.pp(side, 3) > 0;
    let four = battle.pp(side, 4) > 0;
    // All four are read, so that no branch depends on which has PP.
    one | (two | (three | four))
}

fn must_recharge<S: EventSink>(battle: &mut Packed, side: Side, events: &mut S)
    requires room { HasRoom S.room 1 events.old }
    ensures shown { Does (scene S.tells battle events) false (must_recharge side) }
    ensures room { AddsAtMost S.room 1 events.old events.new }
{
    battle.put_flag(side, Conditions::RECHARGE, true);
    events.push(Event::MustRecharge(battle.who(side)));
}
