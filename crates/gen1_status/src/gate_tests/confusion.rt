//! The test of confusion, and the hit of a confused member on itself (docs/MECHANICS.md, "Hit on itself"). Confusion
//! counts down, and ends at 0. Until then the member may hit itself.
ghost use Rattle.std.specs.Prelude.{◌≡◌, ◌≢◌};
ghost use Rattle.gen1_rolls.specs.Draws.{Steps};
ghost use Rattle.gen1_machine.specs.declared.event.Volatile.TheVariants as volatiles;
ghost use Rattle.gen1_machine.specs.Conditions.{with_confusion_one_less, without_confusion};
ghost use Rattle.gen1_machine.specs.Progress.{ends, lasts};
ghost use Rattle.gen1_machine.specs.Gate.{confusion_test, may_hurt_itself};
ghost use Rattle.gen1_machine.specs.HitOnItself.{hurt_itself, hurt_itself_by, land_on_foes_substitute};
ghost use Rattle.gen1_layout.specs.Operations.{Does, holding, scene};
ghost use Rattle.gen1_layout.specs.Words.{AddsAtMost, Frame, HasRoom, Progress, Shows, Some, conditions, draw, false, other, stop, ◌▸◌};
ghost use Rattle.gen1_status.specs.Gate.{DoesTelling, DrawsTelling, frame_after};

use crate::Gate;
use gen1_events::EventSink;
use gen1_hits::{damage, land_on_hp, land_on_substitute, own_numbers};
use gen1_layout::{Conditions, Packed};
use gen1_machine::{DamageSource, Event, Outcome, Side, Volatile};
use gen1_rolls::{Look, Rolls};

pub(super) fn confusion_test<R: Rolls, S: EventSink>(
    battle: &mut Packed,
    side: Side,
    confused: Option<u8>,
    random: &mut R,
    events: &mut S,
) -> Gate
    requires room { HasRoom S.room 2 events.old }
    ensures shown { DrawsTelling R.drawing random
        (holding λ p. (conditions side p).confused ≡ confused) (scene S.tells battle events) result
        (confusion_test side confused) }
    ensures room { AddsAtMost S.room 2 events.old events.new }
    ensures quiet { result ≡ Gate.Go → AddsAtMost S.room 1 events.old events.new }
    ensures steps { Steps R.drawing random }
{
    let Some(turns) = confused else {
        return Gate::Go;
    };
    if turns <= 1 {
        confusion_ends(battle, side, events);
        return Gate::Go;
    }
    confusion_lasts(battle, side, turns, random, events)
}

fn confusion_ends<S: EventSink>(battle: &mut Packed, side: Side, events: &mut S)
    requires room { HasRoom S.room 1 events.old }
    ensures shown { Does (scene S.tells battle events) false
        (ends side volatiles.Confusion without_confusion) }
    ensures room { AddsAtMost S.room 1 events.old events.new }
{
    battle.put_confused(side, None);
    events.push(Event::End(battle.who(side), Volatile::Confusion));
}

const HITS_ITSELF_FROM: u8 = 128;

// One time in two the member hits itself.
fn confusion_lasts<R: Rolls, S: EventSink>(
    battle: &mut Packed,
    side: Side,
    turns: u8,
    random: &mut R,
    events: &mut S,
) -> Gate
    requires room { HasRoom S.room 2 events.old }
    ensures shown { DrawsTelling R.drawing random
        (holding λ p. (conditions side p).confused ≡ Some turns) (scene S.tells battle events) result
        (lasts side volatiles.Confusion with_confusion_one_less ▸ draw (may_hurt_itself side)) }
    ensures room { AddsAtMost S.room 2 events.old events.new }
    ensures quiet { result ≡ Gate.Go → AddsAtMost S.room 1 events.old events.new }
    ensures steps { Steps R.drawing random }
{
    battle.put_confused(side, Some(turns.saturating_sub(1)));
    events.push(Event::Activate(battle.who(side), Volatile::Confusion));
    if random.draw_as(Look::Below(HITS_ITSELF_FROM)) < HITS_ITSELF_FROM {
        return Gate::Go;
    }
    hurt_itself(battle, side, events)
}

/// Breaks off what the member had underway, and takes the damage of its hit on itself (docs/MECHANICS.md, "Hit on
/// itself").
///
/// The power is 40, and its own Attack works against its own Defense. It writes at most one event.
fn hurt_itself<S: EventSink>(battle: &mut Packed, side: Side, events: &mut S) -> Gate
    requires room { HasRoom S.room 1 events.old }
    ensures shown { DoesTelling (scene S.tells battle events) result (hurt_itself side) }
    ensures room { AddsAtMost S.room 1 events.old events.new }
    ensures stops { result ≢ Gate.Go }
{
    battle.break_off(side);
    battle.put_flag(side, Conditions::FLINCH, false);
    battle.put_flag(side, Conditions::INVULNERABLE, false);
    let numbers = own_numbers(battle, side);
    hurt_itself_by(battle, side, damage(&numbers), events)
}

// A member with its own substitute isn't hurt.
fn hurt_itself_by<S: EventSink>(
    battle: &mut Packed,
    side: Side,
    damage: Option<u16>,
    events: &mut S,
) -> Gate
    requires room { HasRoom S.room 1 events.old }
    ensures shown { DoesTelling (scene S.tells battle events) result
        (hurt_itself_by side damage ▸ stop) }
    ensures room { AddsAtMost S.room 1 events.old events.new }
    ensures stops { result ≢ Gate.Go }
{
    let Some(damage) = damage else {
        battle.put_outcome(Outcome::Fault(1));
        return Gate::Fault;
    };
    battle.put_last_damage(damage);
    if !battle.is_on(side, Conditions::SUBSTITUTE) {
        land_on_hp(battle, side, DamageSource::Confusion, damage, events);
        return Gate::Stop;
    }
    let substitute = battle.substitute(side.other());
    land_on_foes_substitute(battle, side, damage, substitute, events);
    Gate::Stop
}

// The foe's substitute takes the damage, if there is one.
fn land_on_foes_substitute<S: EventSink>(
    battle: &mut Packed,
    side: Side,
    damage: u16,
    substitute: Option<u8>,
    events: &mut S,
)
    requires room { HasRoom S.room 1 events.old }
    ensures shown { (g : Frame) (p : Progress) → (conditions (other side) p).substitute ≡ substitute
        → Shows g battle.old (S.tells events.old) false p
        → Shows (frame_after Gate.Stop (land_on_foes_substitute side damage substitute p) g)
        battle.new (S.tells events.new) false (land_on_foes_substitute side damage substitute p) }
    ensures room { AddsAtMost S.room 1 events.old events.new }
{
    let Some(hp) = substitute else {
        return;
    };
    land_on_substitute(battle, side.other(), damage, hp, events);
}
