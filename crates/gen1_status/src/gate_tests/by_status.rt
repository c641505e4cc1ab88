//! The tests that rule out any action: sleep, freeze, the foe's trapping, flinching and recharging; and the count of
//! Disable.
ghost use Rattle.std.specs.Prelude.{◌≡◌};
ghost use Rattle.gen1_machine.specs.Gate.{disable_count, flinch_test, frozen_test, gate_of_status, gate_of_turn, recharge_test, sleep_test, trapped_test};
ghost use Rattle.gen1_layout.specs.Operations.{Does, DoesWhere, holding, looking, scene};
ghost use Rattle.gen1_layout.specs.Words.{AddsAtMost, AddsNone, HasRoom, conditions, false, is_frozen, status_of, true};

use super::cant;
use gen1_events::EventSink;
use gen1_layout::{Conditions, Packed};
use gen1_machine::{CantReason, DisabledSlot, Event, Kind, Side, Volatile};
use gen1_stats::Status;

#[inline(always)] // docs/SPEED.md, "Hints on inlining"
pub(super) fn gate_of_status<S: EventSink>(battle: &mut Packed, side: Side, events: &mut S) -> bool
    requires room { HasRoom S.room 1 events.old }
    ensures shown { Does (scene S.tells battle events) result (gate_of_status side) }
    ensures room { AddsAtMost S.room 1 events.old events.new }
    ensures quiet { result ≡ false → AddsNone S.room events.old events.new }
{
    if sleep_test(battle, side, battle.status(side), events) {
        return true;
    }
    if frozen_test(battle, side, events) {
        return true;
    }
    trapped_test(battle, side, events)
}

fn sleep_test<S: EventSink>(battle: &mut Packed, side: Side, status: Status, events: &mut S) -> bool
    requires room { HasRoom S.room 1 events.old }
    ensures shown { DoesWhere (holding λ p. status_of side p ≡ status) (scene S.tells battle events)
        result (λ r. sleep_test side status) }
    ensures room { AddsAtMost S.room 1 events.old events.new }
    ensures quiet { result ≡ false → AddsNone S.room events.old events.new }
{
    match status {
        Status::Asleep { turns, marked } => {
            sleep_turn(battle, side, turns, marked, events);
            true
        }
        Status::Healthy => false,
        Status::Poisoned => false,
        Status::Burned => false,
        Status::Frozen => false,
        Status::Paralysed => false,
    }
}

// A turn of sleep is over. A member that wakes up doesn't act this turn either.
fn sleep_turn<S: EventSink>(
    battle: &mut Packed,
    side: Side,
    turns: u8,
    marked: bool,
    events: &mut S,
)
    requires room { HasRoom S.room 1 events.old }
    ensures shown { DoesWhere (holding λ p. status_of side p ≡ Status.Asleep turns marked)
        (scene S.tells battle events) true (λ r. sleep_test side (Status.Asleep turns marked)) }
    ensures room { AddsAtMost S.room 1 events.old events.new }
{
    if turns <= 1 {
        battle.put_status(side, Status::Healthy);
        events.push(Event::Cure(battle.who(side), Kind::Sleep));
        return;
    }
    let turns = turns - 1;
    battle.put_status(side, Status::Asleep { turns, marked });
    cant(battle, side, CantReason::Asleep, events);
}

fn frozen_test<S: EventSink>(battle: &Packed, side: Side, events: &mut S) -> bool
    requires room { HasRoom S.room 1 events.old }
    ensures shown { Does (looking S.tells battle events) result (frozen_test side) }
    ensures room { AddsAtMost S.room 1 events.old events.new }
    ensures quiet { result ≡ false → AddsNone S.room events.old events.new }
{
    if !is_frozen(battle.status(side)) {
        return false;
    }
    cant(battle, side, CantReason::Frozen, events);
    true
}

fn trapped_test<S: EventSink>(battle: &Packed, side: Side, events: &mut S) -> bool
    requires room { HasRoom S.room 1 events.old }
    ensures shown { Does (looking S.tells battle events) result (trapped_test side) }
    ensures room { AddsAtMost S.room 1 events.old events.new }
    ensures quiet { result ≡ false → AddsNone S.room events.old events.new }
{
    if !battle.is_on(side.other(), Conditions::TRAPPING) {
        return false;
    }
    cant(battle, side, CantReason::PartiallyTrapped, events);
    true
}

fn is_frozen(status: Status) -> bool
    ensures { result ≡ is_frozen status }
{
    matches!(status, Status::Frozen)
}

#[inline(always)] // docs/SPEED.md, "Hints on inlining"
pub(super) fn gate_of_turn<S: EventSink>(battle: &mut Packed, side: Side, events: &mut S) -> bool
    requires room { HasRoom S.room 1 events.old }
    ensures shown { Does (scene S.tells battle events) result (gate_of_turn side) }
    ensures room { AddsAtMost S.room 1 events.old events.new }
{
    if flinch_test(battle, side, events) {
        return true;
    }
    if recharge_test(battle, side, events) {
        return true;
    }
    disable_count(battle, side, battle.disabled(side), events);
    false
}

fn flinch_test<S: EventSink>(battle: &mut Packed, side: Side, events: &mut S) -> bool
    requires room { HasRoom S.room 1 events.old }
    ensures shown { Does (scene S.tells battle events) result (flinch_test side) }
    ensures room { AddsAtMost S.room 1 events.old events.new }
    ensures quiet { result ≡ false → AddsNone S.room events.old events.new }
{
    if !battle.is_on(side, Conditions::FLINCH) {
        return false;
    }
    battle.put_flag(side, Conditions::FLINCH, false);
    cant(battle, side, CantReason::Flinched, events);
    true
}

fn recharge_test<S: EventSink>(battle: &mut Packed, side: Side, events: &mut S) -> bool
    requires room { HasRoom S.room 1 events.old }
    ensures shown { Does (scene S.tells battle events) result (recharge_test side) }
    ensures room { AddsAtMost S.room 1 events.old events.new }
    ensures quiet { result ≡ false → AddsNone S.room events.old events.new }
{
    if !battle.is_on(side, Conditions::RECHARGE) {
        return false;
    }
    battle.put_flag(side, Conditions::RECHARGE, false);
    cant(battle, side, CantReason::Recharging, events);
    true
}

// Disable counts down, and ends at 0.
fn disable_count<S: EventSink>(
    battle: &mut Packed,
    side: Side,
    disabled: Option<DisabledSlot>,
    events: &mut S,
)
    requires room { HasRoom S.room 1 events.old }
    ensures shown { DoesWhere (holding λ p. (conditions side p).disabled ≡ disabled)
        (scene S.tells battle events) false (λ r. disable_count side disabled) }
    ensures room { AddsAtMost S.room 1 events.old events.new }
{
    let Some(DisabledSlot { slot, turns }) = disabled else {
        return;
    };
    if turns <= 1 {
        battle.put_disabled(side, None);
        events.push(Event::End(battle.who(side), Volatile::Disable));
        return;
    }
    let turns = turns - 1;
    battle.put_disabled(side, Some(DisabledSlot { slot, turns }));
}
