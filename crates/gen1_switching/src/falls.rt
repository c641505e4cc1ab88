//! The end of an update: which members have fallen, which side has won, and what is asked for next (docs/MECHANICS.md, "Falls and
//! requests", "Turn limit").
ghost use Rattle.std.specs.Prelude.{not, ◌&&◌, ◌≡◌};
ghost use Rattle.gen1_tables.specs.Types.{any};
ghost use Rattle.gen1_layout.specs.Operations.{Does, DoesAnyway, DoesWhere, anything, quiet, scene};
ghost use Rattle.gen1_layout.specs.Words.{AddsAtMost, AddsNone, Event as EventOf, Field, Frame, HasRoom, List, Progress, Reads, Setting, Shows, Within, false, is_living, nat_le, party, true, ◌▸◌};
ghost use Rattle.gen1_machine.specs.declared.event.Event.TheVariants as told;
ghost use Rattle.gen1_machine.specs.declared.side.Side.TheVariants as sides;
ghost use Rattle.gen1_machine.specs.Falls.{ask_for_moves, ask_nothing, battle_ends, close, faint_if_fallen, faint_in_order, settle, switch_if, the_fallen_faint};
ghost use Rattle.gen1_machine.specs.Progress.{note};
ghost use Rattle.gen1_machine.specs.Turn.{is_cut};
ghost use Rattle.gen1_machine.specs.State.{has_fallen_in};
ghost use Rattle.gen1_machine.specs.Valid.{IsOutcome};
ghost use Rattle.gen1_stats.specs.Members.{IsBetween};
ghost use Rattle.gen1_switching.specs.SwitchingIn.{Decides, ask_next, fault_in, turns_left};

use gen1_events::EventSink;
use gen1_layout::Packed;
use gen1_machine::{Event, FaultCode, Outcome, Request, Side, TurnNumber};

/// Closes an update whose last actor was `actor` (docs/MECHANICS.md, "Falls and requests", "Turn limit").
///
/// `actor` is the side that acted, was skipped, or was sent out last in a turn. It is side 1 if there was no turn.
///
/// The fallen members that are out faint, the foe of `actor` first. Then one of three things happens. The battle ends
/// with a win or a tie, each side with a fallen member is asked for a switch, or the turn number rises by 1 and both
/// sides are asked for moves.
///
/// If the outcome is a fault, no member faints, and nothing more is asked for. It writes at most three events, and
/// needs three free places in `events`.
#[inline(always)] // docs/SPEED.md, "Hints on inlining"
pub fn close<S: EventSink>(battle: &mut Packed, actor: Side, events: &mut S)
    requires space { HasRoom S.room 3 events.old }
    ensures shown { DoesAnyway (λ g p Then. g.action.side ≡ actor → Then)
        (scene S.tells battle events) (λ r p. close r p.field.outcome p) }
    ensures room { AddsAtMost S.room 3 events.old events.new }
{
    match fault_in(battle.outcome()) {
        Some(number) => end_by_fault(battle, number, events),
        None => faint_and_settle(battle, actor, events),
    }
}

/// Closes an update like [`close`], if both members that are out live and the battle continues. It tests neither again:
/// the next turn begins, or the battle is tied at its turn limit.
///
/// It writes at most one event, and needs one free place in `events`.
#[inline(always)] // docs/SPEED.md, "Hints on inlining"
pub fn close_uncut<S: EventSink>(battle: &mut Packed, events: &mut S)
    requires space { HasRoom S.room 1 events.old }
    ensures shown { DoesAnyway (λ g p Then. is_cut p ≡ false → Then) (scene S.tells battle events)
        (λ r p. close r p.field.outcome p) }
    ensures room { AddsAtMost S.room 1 events.old events.new }
{
    go_on(battle, events);
}

fn fault_in(outcome: Outcome) -> Option<u8>
    ensures { result ≡ fault_in outcome }
{
    match outcome {
        Outcome::Fault(number) => Some(number),
        Outcome::Ongoing => None,
        Outcome::WinOne => None,
        Outcome::WinTwo => None,
        Outcome::Tie => None,
    }
}

#[inline(never)] // docs/SPEED.md, "Hints on inlining"
fn end_by_fault<S: EventSink>(battle: &mut Packed, number: u8, events: &mut S)
    requires space { HasRoom S.room 1 events.old }
    ensures shown { IsBetween 1 2 number → Does (scene S.tells battle events) false
        (ask_nothing ▸ note λ f. told.Fault number) }
    ensures room { AddsAtMost S.room 1 events.old events.new }
{
    ask_nothing(battle);
    if let Some(code) = FaultCode::new(number) {
        events.push(Event::Fault(code));
    }
}

fn faint_and_settle<S: EventSink>(battle: &mut Packed, actor: Side, events: &mut S)
    requires space { HasRoom S.room 3 events.old }
    ensures shown { DoesAnyway (λ g p Then. g.action.side ≡ actor → Then)
        (scene S.tells battle events) (λ r. the_fallen_faint ▸ settle r) }
    ensures room { AddsAtMost S.room 3 events.old events.new }
{
    if nobody_has_fallen(battle) {
        go_on(battle, events);
        return;
    }
    faint_in_order(battle, actor, events);
    settle(battle, events);
}

// One test covers the many updates in which no member faints.
fn nobody_has_fallen(battle: &Packed) -> bool
    ensures stands { Reads battle.now result λ f.
        (not (has_fallen_in sides.One f) && not (has_fallen_in sides.Two f)) }
{
    !battle.has_fallen(Side::One) && !battle.has_fallen(Side::Two)
}

// What is settled while both members that are out live: neither side has lost.
fn go_on<S: EventSink>(battle: &mut Packed, events: &mut S)
    requires space { HasRoom S.room 1 events.old }
    ensures shown { DoesAnyway (λ g p Then. has_fallen_in sides.One p.field ≡ false
        → has_fallen_in sides.Two p.field ≡ false → Then) (scene S.tells battle events) settle }
    ensures room { AddsAtMost S.room 1 events.old events.new }
{
    if is_last_turn(battle) {
        battle_ends(battle, Outcome::Tie, Event::Tie, events);
    } else {
        ask_for_moves(battle, events);
    }
}

fn faint_in_order<S: EventSink>(battle: &mut Packed, actor: Side, events: &mut S)
    requires space { HasRoom S.room 2 events.old }
    ensures shown { Does (scene S.tells battle events) false (faint_in_order actor) }
    ensures room { AddsAtMost S.room 2 events.old events.new }
{
    faint_if_fallen(battle, actor.other(), events);
    faint_if_fallen(battle, actor, events);
}

fn faint_if_fallen<S: EventSink>(battle: &mut Packed, side: Side, events: &mut S)
    requires space { HasRoom S.room 1 events.old }
    ensures shown { Does (scene S.tells battle events) false (faint_if_fallen side) }
    ensures room { AddsAtMost S.room 1 events.old events.new }
{
    if !battle.has_fallen(side) {
        return;
    }
    battle.put_fallen(side);
    events.push(Event::Faint(battle.who(side)));
}

fn settle<S: EventSink>(battle: &mut Packed, events: &mut S)
    requires space { HasRoom S.room 1 events.old }
    ensures shown { DoesAnyway anything (scene S.tells battle events) settle }
    ensures room { AddsAtMost S.room 1 events.old events.new }
{
    if end_if_decided(battle, events) {
        return;
    }
    ask_next(battle, events);
}

// Whether no turn is left.
fn is_last_turn(battle: &Packed) -> bool
    ensures stands { (g : Setting) (f : Field) → Within g battle.now f
        → result ≡ nat_le g.terms.limit f.turn }
{
    battle.limit() <= battle.turn()
}

// Whether the battle has ended. A win in the last turn is a win.
fn end_if_decided<S: EventSink>(battle: &mut Packed, events: &mut S) -> bool
    requires space { HasRoom S.room 1 events.old }
    ensures shown { (g : Frame) (p : Progress) → Shows g battle.old (S.tells events.old) false p
        → Decides g battle.new (S.tells events.new) result p }
    ensures room { AddsAtMost S.room 1 events.old events.new }
    ensures quiet { result ≡ false → AddsNone S.room events.old events.new }
{
    let one = has_living(battle, Side::One);
    let two = has_living(battle, Side::Two);
    let late = is_last_turn(battle);
    let neither = !one & !two;
    if neither {
        battle_ends(battle, Outcome::Tie, Event::Tie, events);
        return true;
    }
    if !one {
        battle_ends(battle, Outcome::WinTwo, Event::Win(Side::Two), events);
        return true;
    }
    if !two {
        battle_ends(battle, Outcome::WinOne, Event::Win(Side::One), events);
        return true;
    }
    if late {
        battle_ends(battle, Outcome::Tie, Event::Tie, events);
        return true;
    }
    false
}

// If the member that is out lives, the others need no test.
fn has_living(battle: &Packed, side: Side) -> bool
    ensures { Reads battle.now result λ f. any is_living (party side f).members }
{
    if battle.has_fallen(side) {
        return battle.has_living(side);
    }
    true
}

#[inline(always)] // docs/SPEED.md, "Hints on inlining"
fn battle_ends<S: EventSink>(battle: &mut Packed, outcome: Outcome, event: Event, events: &mut S)
    requires space { HasRoom S.room 1 events.old }
    ensures shown { IsOutcome outcome → Does (scene S.tells battle events) true
        (battle_ends outcome event) }
    ensures room { AddsAtMost S.room 1 events.old events.new }
{
    battle.put_outcome(outcome);
    ask_nothing(battle);
    events.push(event);
}

fn ask_nothing(battle: &mut Packed)
    ensures shown { (told : List EventOf) → Does (quiet told battle) false ask_nothing }
{
    battle.put_requests(Request::Pass, Request::Pass);
}

// A switch for each side whose member has fallen, otherwise moves of both for the next turn.
fn ask_next<S: EventSink>(battle: &mut Packed, events: &mut S)
    requires space { HasRoom S.room 1 events.old }
    ensures shown { DoesWhere turns_left (scene S.tells battle events) false (λ r. ask_next) }
    ensures room { AddsAtMost S.room 1 events.old events.new }
{
    let one = battle.has_fallen(Side::One);
    let two = battle.has_fallen(Side::Two);
    let some = one | two;
    if some {
        battle.put_requests(switch_if(one), switch_if(two));
    } else {
        ask_for_moves(battle, events);
    }
}

fn switch_if(fallen: bool) -> Request
    ensures { result ≡ switch_if fallen }
{
    if fallen {
        Request::Switch
    } else {
        Request::Pass
    }
}

#[inline(never)] // docs/SPEED.md, "Hints on inlining"
fn ask_for_moves<S: EventSink>(battle: &mut Packed, events: &mut S)
    requires space { HasRoom S.room 1 events.old }
    ensures shown { DoesWhere turns_left (scene S.tells battle events) false (λ r. ask_for_moves) }
    ensures room { AddsAtMost S.room 1 events.old events.new }
{
    battle.put_next_turn();
    battle.put_requests(Request::Move, Request::Move);
    if let Some(number) = TurnNumber::new(battle.turn()) {
        events.push(Event::Turn(number));
    }
}
