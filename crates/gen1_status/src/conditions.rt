//! Conditions that begin: a status, confusion, Bide and a substitute; what the clauses count of statuses; and a move that
//! fails (docs/MECHANICS.md, "Penalties", "Order of events", "Rules (sleep clause, freeze clause)", "Early effects",
//! "Late effects"). The later turns of Bide are in gen1_multiturn.
ghost use Rattle.std.specs.Prelude.{◌&&◌, ◌/◌, ◌≡◌, ◌≤◌};
ghost use Rattle.gen1_rolls.specs.Draws.{Steps};
ghost use Rattle.gen1_stats.specs.Members.{is_marked};
ghost use Rattle.gen1_machine.specs.Progress.{fail, inflict};
ghost use Rattle.gen1_machine.specs.Valid.{IsStatus};
ghost use Rattle.gen1_machine.specs.State.{any_living};
ghost use Rattle.gen1_machine.specs.EarlyEffects.{confuse, confused_by, make_substitute, pay_for_substitute};
ghost use Rattle.gen1_machine.specs.LateEffects.{bide_for, start_bide};
ghost use Rattle.gen1_layout.specs.Operations.{Does, DoesAnyway, DoesWhere, Draws, DrawsWhere, anything, holding, looking, scene, under};
ghost use Rattle.gen1_layout.specs.Words.{AddsAtMost, HasRoom, Reads, ReadsPacked, false, is_frozen, is_living, member_at, member_in, party, true};
ghost use Rattle.gen1_status.specs.Statuses.{IsCountOf, counts, status_of_kind};
ghost use Rattle.gen1_status.specs.Gate.{IsUntied};

use crate::take_penalty;
use gen1_events::EventSink;
use gen1_hits::lose_hp;
use gen1_layout::{Conditions, Packed};
use gen1_machine::{DamageSource, Event, Kind, Side, Volatile};
use gen1_rolls::{Look, Rolls};
use gen1_stats::Status;

/// Gives a status of this kind to the member of `target` that is out, applies its penalty once, and writes `Status`
/// (docs/MECHANICS.md, "Penalties").
///
/// The new status replaces any that the member has. It needs one free place in `events`. Sleep lasts for `count`
/// turns, 1 to 7, and is unmarked. For other kinds `count` isn't used.
pub fn inflict<S: EventSink>(
    battle: &mut Packed,
    target: Side,
    kind: Kind,
    count: u8,
    events: &mut S,
)
    requires room { HasRoom S.room 1 events.old }
    ensures shown { IsCountOf kind count → Does (scene S.tells battle events) false
        (inflict target (status_of_kind kind count) kind) }
    ensures room { AddsAtMost S.room 1 events.old events.new }
{
    inflict_status(battle, target, status_of_kind(kind, count), kind, events);
}

/// Does what [`inflict`] does, with the status itself (docs/MECHANICS.md, "Penalties").
///
/// `kind` must be its kind. A marked sleep is allowed only under the sleep clause (docs/MECHANICS.md, "Rules (sleep
/// clause, freeze clause)").
#[inline(always)] // docs/SPEED.md, "Hints on inlining"
pub fn inflict_status<S: EventSink>(
    battle: &mut Packed,
    target: Side,
    status: Status,
    kind: Kind,
    events: &mut S,
)
    requires room { HasRoom S.room 1 events.old }
    ensures shown { DoesWhere (under λ t. IsStatus t.rules status) (scene S.tells battle events) false
        (λ r. inflict target status kind) }
    ensures room { AddsAtMost S.room 1 events.old events.new }
{
    battle.put_status(target, status);
    take_penalty(battle, target, status);
    events.push(Event::Status(battle.who(target), kind));
}

fn status_of_kind(kind: Kind, count: u8) -> Status
    ensures { result ≡ status_of_kind kind count }
{
    match kind {
        Kind::Sleep => Status::Asleep {
            turns: count,
            marked: false,
        },
        Kind::Poison => Status::Poisoned,
        Kind::Burn => Status::Burned,
        Kind::Freeze => Status::Frozen,
        Kind::Paralysis => Status::Paralysed,
    }
}

// The two clauses, by what each counts.
#[derive(Clone, Copy)]
pub(crate) enum Clause {
    Sleep,
    Freeze,
}

/// Whether a living member of `side` sleeps by a move of the foe that the sleep clause counts (docs/MECHANICS.md,
/// "Rules (sleep clause, freeze clause)").
///
/// The member that is out counts too. It doesn't matter whether the battle is under that clause.
pub fn has_marked_sleeper(battle: &Packed, side: Side) -> bool
    ensures stands { Reads battle.now result λ f. any_living (λ m. is_marked m.status)
        (party side f) }
{
    any_living(battle, side, Clause::Sleep)
}

/// Whether a living member of `side` is frozen (docs/MECHANICS.md, "Rules (sleep clause, freeze clause)").
///
/// The member that is out counts too. It doesn't matter whether the battle is under the freeze clause.
pub fn has_frozen_member(battle: &Packed, side: Side) -> bool
    ensures stands { Reads battle.now result λ f. any_living (λ m. is_frozen m.status)
        (party side f) }
{
    any_living(battle, side, Clause::Freeze)
}

fn any_living(battle: &Packed, side: Side, clause: Clause) -> bool
    ensures packs { ReadsPacked battle.now result λ f. any_living (λ m. counts clause m.status)
        (party side f) }
{
    let one = counts_at(battle, side, 1, clause);
    let two = counts_at(battle, side, 2, clause);
    let three = counts_at(battle, side, 3, clause);
    let four = counts_at(battle, side, 4, clause);
    let five = counts_at(battle, side, 5, clause);
    let six = counts_at(battle, side, 6, clause);
    one | (two | (three | (four | (five | six))))
}

fn counts_at(battle: &Packed, side: Side, place: u8, clause: Clause) -> bool
    requires low { 1 ≤ place }
    requires high { place ≤ 6 }
    ensures packs { ReadsPacked battle.now result λ f.
        (is_living (member_at place (party side f)) && counts clause
        (member_at place (party side f)).status) }
{
    let living = 0 < battle.hp_at(side, place);
    let counted = has_what_counts(battle, side, place, clause);
    living & counted
}

fn has_what_counts(battle: &Packed, side: Side, place: u8, clause: Clause) -> bool
    requires low { 1 ≤ place }
    requires high { place ≤ 6 }
    ensures packs { ReadsPacked battle.now result λ f. counts clause
        (member_at place (party side f)).status }
{
    match clause {
        Clause::Sleep => battle.mark(side, place),
        Clause::Freeze => is_frozen(battle.status_at(side, place)),
    }
}

fn is_frozen(status: Status) -> bool
    ensures { result ≡ is_frozen status }
{
    matches!(status, Status::Frozen)
}

/// Confuses the member of `side` that is out for two to five turns, by one draw (docs/MECHANICS.md, "Early effects").
///
/// It doesn't matter whether the member is confused already. `Start` is written, for which it needs one free place in
/// `events`. Nothing else changes.
pub fn confuse<R: Rolls, S: EventSink>(
    battle: &mut Packed,
    side: Side,
    random: &mut R,
    events: &mut S,
)
    requires room { HasRoom S.room 1 events.old }
    ensures shown { Draws R.drawing random (scene S.tells battle events) false (confuse side) }
    ensures room { AddsAtMost S.room 1 events.old events.new }
    ensures steps { Steps R.drawing random }
{
    let byte = random.draw_as(Look::Remainder(4));
    confuse_by(battle, side, byte, events);
}

fn confuse_by<S: EventSink>(battle: &mut Packed, side: Side, byte: u8, events: &mut S)
    requires room { HasRoom S.room 1 events.old }
    ensures shown { Does (scene S.tells battle events) false (confused_by side byte) }
    ensures room { AddsAtMost S.room 1 events.old events.new }
{
    battle.put_confused(side, Some(byte % 4 + 2));
    events.push(Event::Start(battle.who(side), Volatile::Confusion));
}

/// Begins the Bide of `side`, for two or three turns, by one draw, without energy yet (docs/MECHANICS.md, "Going
/// on").
///
/// It writes `Start`, for which it needs one free place in `events`. Nothing else changes.
pub fn start_bide<R: Rolls, S: EventSink>(
    battle: &mut Packed,
    side: Side,
    random: &mut R,
    events: &mut S,
)
    requires room { HasRoom S.room 1 events.old }
    ensures shown { DrawsWhere R.drawing random (holding (IsUntied side)) (scene S.tells battle events)
        false (λ r. start_bide side) }
    ensures room { AddsAtMost S.room 1 events.old events.new }
    ensures steps { Steps R.drawing random }
{
    let byte = random.draw_as(Look::Remainder(2));
    bide_for(battle, side, byte, events);
}

fn bide_for<S: EventSink>(battle: &mut Packed, side: Side, byte: u8, events: &mut S)
    requires room { HasRoom S.room 1 events.old }
    ensures shown { DoesWhere (holding (IsUntied side)) (scene S.tells battle events) false
        (λ r. bide_for side byte) }
    ensures room { AddsAtMost S.room 1 events.old events.new }
{
    battle.put_bide(side, byte % 2 + 2, 0);
    events.push(Event::Start(battle.who(side), Volatile::Bide));
}

/// Makes a Substitute for the member of `side` that is out (docs/MECHANICS.md, "Early effects").
///
/// It costs a quarter of the maximum HP, and has as many HP. It fails if one is up, or if the member has fewer HP
/// than that. With exactly a quarter it is made, and the member falls. It writes `Fail`, or `Start` and `Damage`, and
/// needs two free places in `events`. Nothing else changes.
pub fn substitute<S: EventSink>(battle: &mut Packed, side: Side, events: &mut S)
    requires room { HasRoom S.room 2 events.old }
    ensures shown { DoesAnyway anything (scene S.tells battle events) (λ r. make_substitute side) }
    ensures room { AddsAtMost S.room 2 events.old events.new }
{
    make_substitute(battle, side, events);
}

/// Makes a Substitute as a part of an action. Returns whether it fails, which ends the action (docs/MECHANICS.md,
/// "Early effects").
pub fn make_substitute<S: EventSink>(battle: &mut Packed, side: Side, events: &mut S) -> bool
    requires room { HasRoom S.room 2 events.old }
    ensures shown { Does (scene S.tells battle events) result (make_substitute side) }
    ensures room { AddsAtMost S.room 2 events.old events.new }
{
    if battle.is_on(side, Conditions::SUBSTITUTE) {
        fail(battle, side, events);
        return true;
    }
    let cost = quarter(battle, side);
    if battle.hp(side) < u16::from(cost) {
        fail(battle, side, events);
        return true;
    }
    pay_for_substitute(battle, side, cost, events);
    false
}

// A quarter of the maximum HP, which is at most 999.
#[tactic(auto, using(gen1_layout::proofs::Steps::member_ok))]
fn quarter(battle: &Packed, side: Side) -> u8
    ensures stands { Reads battle.now result λ f. (member_in side f).max / 4 }
    ensures most { result ≤ 249 }
{
    (battle.max_hp(side) / 4).min(249) as u8
}

fn pay_for_substitute<S: EventSink>(battle: &mut Packed, side: Side, cost: u8, events: &mut S)
    requires room { HasRoom S.room 2 events.old }
    requires most { cost ≤ 249 }
    ensures shown { Does (scene S.tells battle events) false (pay_for_substitute side cost) }
    ensures room { AddsAtMost S.room 2 events.old events.new }
{
    battle.put_substitute(side, Some(cost));
    events.push(Event::Start(battle.who(side), Volatile::Substitute));
    lose_hp(battle, side, DamageSource::Direct, cost as u16, events);
}

/// Reports that the move of `side` fails, which ends its action (docs/MECHANICS.md, "Order of events"). It needs one
/// free place in `events`. Nothing else changes.
pub fn fail<S: EventSink>(battle: &Packed, side: Side, events: &mut S)
    requires room { HasRoom S.room 1 events.old }
    ensures shown { Does (looking S.tells battle events) true (fail side) }
    ensures room { AddsAtMost S.room 1 events.old events.new }
{
    events.push(Event::Fail(battle.who(side)));
}
