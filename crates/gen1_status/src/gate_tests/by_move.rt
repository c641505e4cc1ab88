//! The tests that rule out the picked move: confusion, Disable, paralysis, and that nothing was picked.
ghost use Rattle.std.specs.Prelude.{◌≡◌};
ghost use Rattle.gen1_rolls.specs.Draws.{Steps};
ghost use Rattle.gen1_layout.specs.Operations.{Does, Draws, anything, scene};
ghost use Rattle.gen1_layout.specs.Words.{AddsAtMost, AddsNone, HasRoom, Reads, false, is_paralysed};
ghost use Rattle.gen1_machine.specs.Picks.{bars, is_disabled_in, is_idle};
ghost use Rattle.gen1_machine.specs.Gate.{disabled_test, gate_of_move, paralysis_test};
ghost use Rattle.gen1_status.specs.Gate.{DrawsTelling};

use super::cant;
use super::confusion::confusion_test;
use crate::{Gate, used_by};
use gen1_events::EventSink;
use gen1_layout::{Conditions, Packed};
use gen1_machine::{CantReason, DisabledSlot, Pick, Side, UsedMove};
use gen1_rolls::{Look, Rolls};
use gen1_stats::Status;

pub(super) fn gate_of_move<R: Rolls, S: EventSink>(
    battle: &mut Packed,
    side: Side,
    pick: Pick,
    random: &mut R,
    events: &mut S,
) -> Gate
    requires room { HasRoom S.room 2 events.old }
    ensures shown { DrawsTelling R.drawing random anything (scene S.tells battle events) result
        (gate_of_move side pick) }
    ensures room { AddsAtMost S.room 2 events.old events.new }
    ensures steps { Steps R.drawing random }
{
    let confused = confusion_test(battle, side, battle.confused(side), random, events);
    if confused.stops() {
        return confused;
    }
    if disabled_test(battle, side, pick, events) {
        return Gate::Stop;
    }
    if paralysis_test(battle, side, random, events) {
        return Gate::Stop;
    }
    if is_idle(pick) {
        return Gate::Stop;
    }
    Gate::Go
}

// A disabled move isn't used. If it was charging, the charge is lost.
fn disabled_test<S: EventSink>(battle: &mut Packed, side: Side, pick: Pick, events: &mut S) -> bool
    requires room { HasRoom S.room 1 events.old }
    ensures shown { Does (scene S.tells battle events) result (disabled_test side pick) }
    ensures room { AddsAtMost S.room 1 events.old events.new }
    ensures quiet { result ≡ false → AddsNone S.room events.old events.new }
{
    if !is_disabled(battle, side, pick) {
        return false;
    }
    battle.put_flag(side, Conditions::CHARGING, false);
    cant(battle, side, CantReason::Disabled, events);
    true
}

const FULLY_PARALYSED_BELOW: u8 = 63;

// Full paralysis occurs about one time in four.
fn paralysis_test<R: Rolls, S: EventSink>(
    battle: &mut Packed,
    side: Side,
    random: &mut R,
    events: &mut S,
) -> bool
    requires room { HasRoom S.room 1 events.old }
    ensures shown { Draws R.drawing random (scene S.tells battle events) result (paralysis_test side) }
    ensures room { AddsAtMost S.room 1 events.old events.new }
    ensures quiet { result ≡ false → AddsNone S.room events.old events.new }
    ensures steps { Steps R.drawing random }
{
    if !is_paralysed(battle.status(side)) {
        return false;
    }
    if random.draw_as(Look::Below(FULLY_PARALYSED_BELOW)) >= FULLY_PARALYSED_BELOW {
        return false;
    }
    battle.break_off(side);
    cant(battle, side, CantReason::Paralysed, events);
    true
}

// Struggle is in no slot, so it can't be disabled. An idle side uses no move.
fn is_disabled(battle: &Packed, side: Side, pick: Pick) -> bool
    ensures stands { Reads battle.now result (is_disabled_in side pick) }
{
    if is_idle(pick) {
        return false;
    }
    bars(battle.disabled(side), used_by(battle, side, pick))
}

fn bars(disabled: Option<DisabledSlot>, used: UsedMove) -> bool
    ensures { result ≡ bars disabled used }
{
    match (disabled, used) {
        (Some(disabled), UsedMove::Slot(slot)) => slot == disabled.slot,
        _ => false,
    }
}

pub(super) fn is_idle(pick: Pick) -> bool
    ensures { result ≡ is_idle pick }
{
    matches!(pick, Pick::Idle)
}

fn is_paralysed(status: Status) -> bool
    ensures { result ≡ is_paralysed status }
{
    matches!(status, Status::Paralysed)
}
