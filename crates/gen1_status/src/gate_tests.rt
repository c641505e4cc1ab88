//! The gate: what can keep a member from acting (docs/MECHANICS.md, "Gate"). The tests run in order, and the first
//! that stops decides.
ghost use Rattle.std.specs.Prelude.{◌≡◌};
ghost use Rattle.gen1_rolls.specs.Draws.{Steps};
ghost use Rattle.gen1_layout.specs.Operations.{Does, anything, looking, scene};
ghost use Rattle.gen1_layout.specs.Words.{AddsAtMost, Field, HasRoom, Setting, Within, true};
ghost use Rattle.gen1_machine.specs.Action.{gate_or_held};
ghost use Rattle.gen1_machine.specs.Gate.{cant, gate};
ghost use Rattle.gen1_stats.specs.declared.member.Status.{Status as StatusOf};
ghost use Rattle.gen1_machine.specs.Layout.{status_byte};
ghost use Rattle.gen1_machine.specs.Rules.{Rules};
ghost use Rattle.gen1_machine.specs.Valid.{IsStatus};
ghost use Rattle.gen1_status.specs.Gate.{ActsAtOnce, is_held, keeps_from_acting, DrawsTelling};

mod by_move;
mod by_status;
mod confusion;

use crate::Gate;
use by_move::{gate_of_move, is_idle};
use by_status::{gate_of_status, gate_of_turn};
use gen1_events::EventSink;
use gen1_layout::offsets::STATUS;
use gen1_layout::{Conditions, Packed};
use gen1_machine::{CantReason, Event, Pick, Side};
use gen1_rolls::Rolls;

// The status bytes of sleeping, frozen and paralysed members have one of these bits. No other status byte has.
const KEEPS_FROM_ACTING: u8 = 0x67;

/// Runs the tests of a member that is about to act, and writes their changes and events (docs/MECHANICS.md, "Gate").
///
/// It writes at most three events, and needs that many free places in `events`. A side that was held as the turn
/// began doesn't act, without a test or a draw, even if the foe that held it has left since.
pub fn gate<R: Rolls, S: EventSink>(
    battle: &mut Packed,
    side: Side,
    pick: Pick,
    random: &mut R,
    events: &mut S,
) -> Gate
    requires room { HasRoom S.room 3 events.old }
    ensures shown { DrawsTelling R.drawing random anything (scene S.tells battle events) result
        (gate_or_held side pick) }
    ensures room { AddsAtMost S.room 3 events.old events.new }
    ensures steps { Steps R.drawing random }
{
    if is_held(pick) {
        cant(battle, side, CantReason::PartiallyTrapped, events);
        return Gate::Stop;
    }
    if acts_at_once(battle, side, pick) {
        return Gate::Go;
    }
    take_tests(battle, side, pick, random, events)
}

// One test covers the many turns without anything else to test.
fn acts_at_once(battle: &Packed, side: Side, pick: Pick) -> bool
    ensures stands { (g : Setting) (f : Field) → Within g battle.now f → result ≡ true
        → ActsAtOnce side pick f }
{
    if keeps_from_acting(battle.member_out(side)[STATUS]) {
        return false;
    }
    if battle.has_any(side, Conditions::GATED) {
        return false;
    }
    if battle.is_on(side.other(), Conditions::TRAPPING) {
        return false;
    }
    !is_idle(pick)
}

// By the byte of a member's status.
#[tactic(auto, using(crate::proofs::Statuses::keeps))]
fn keeps_from_acting(byte: u8) -> bool
    ensures { (rules : Rules) (status : StatusOf) → IsStatus rules status
        → byte ≡ status_byte status → result ≡ keeps_from_acting status }
{
    byte & KEEPS_FROM_ACTING != 0
}

fn is_held(pick: Pick) -> bool
    ensures { result ≡ is_held pick }
{
    matches!(pick, Pick::Held)
}

fn take_tests<R: Rolls, S: EventSink>(
    battle: &mut Packed,
    side: Side,
    pick: Pick,
    random: &mut R,
    events: &mut S,
) -> Gate
    requires room { HasRoom S.room 3 events.old }
    ensures shown { DrawsTelling R.drawing random anything (scene S.tells battle events) result
        (gate side pick) }
    ensures room { AddsAtMost S.room 3 events.old events.new }
    ensures steps { Steps R.drawing random }
{
    if gate_of_status(battle, side, events) {
        return Gate::Stop;
    }
    if gate_of_turn(battle, side, events) {
        return Gate::Stop;
    }
    gate_of_move(battle, side, pick, random, events)
}

// The member doesn't act, and an event gives the reason.
#[inline(never)] // docs/SPEED.md, "Hints on inlining"
fn cant<S: EventSink>(battle: &Packed, side: Side, why: CantReason, events: &mut S)
    requires room { HasRoom S.room 1 events.old }
    ensures shown { Does (looking S.tells battle events) true (cant side why) }
    ensures room { AddsAtMost S.room 1 events.old events.new }
{
    events.push(Event::Cant(battle.who(side), why));
}
