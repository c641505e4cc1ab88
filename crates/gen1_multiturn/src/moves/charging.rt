//! Moves that charge for a turn before they strike (docs/MECHANICS.md, "Charging").
ghost use Rattle.std.specs.Prelude.{◌≡◌};
ghost use Rattle.gen1_layout.specs.Operations.{Does, DoesWhere, holding, quiet, scene};
ghost use Rattle.gen1_layout.specs.Words.{AddsAtMost, Event, HasRoom, List, false, move_at, true};
ghost use Rattle.gen1_machine.specs.Charging.{begin_charge, charge, end_charge, make_current};
ghost use Rattle.gen1_machine.specs.Conditions.{with_invulnerability};
ghost use Rattle.gen1_tables.specs.Effects.{hides};
ghost use Rattle.gen1_machine.specs.Progress.{on_conditions, only};
ghost use Rattle.gen1_hits.specs.Knowing.{aware_of};
ghost use Rattle.gen1_hits.specs.Planned.{taking};
ghost use Rattle.gen1_multiturn.specs.GoingOn.{PicksMove, charge_picked};

use gen1_events::EventSink;
use gen1_hits::Known;
use gen1_layout::{Conditions, Packed};
use gen1_machine::{Event, Pick, Side};
use gen1_rolls::Rolls;
use gen1_status::used_by;
use gen1_tables::{Effect, MoveId};

/// Charges the move that `side` has picked, if the move charges (docs/MECHANICS.md, "Charging").
///
/// In the first turn the picked move becomes the current one, the user is Charging, and also Invulnerable for Fly and
/// Dig. `Prepare` is written, and `true` is returned: the action ends. In the second turn, with Charging on, both
/// conditions are cleared. It needs one free place in `events`. Nothing else changes.
pub fn charge<S: EventSink>(battle: &mut Packed, side: Side, id: MoveId, events: &mut S) -> bool
    requires room { HasRoom S.room 1 events.old }
    ensures shown { Does (scene S.tells battle events) result (charge_picked side (move_at id)) }
    ensures room { AddsAtMost S.room 1 events.old events.new }
{
    let pick = Pick::Use(battle.picked_move(side));
    charge_by(battle, side, pick, id, events)
}

/// Charges the move that a pick takes up, if the move charges, in an action of which something is known
/// (docs/MECHANICS.md, "Charging").
///
/// Returns whether the action ends, which is so in the first turn. The move becomes the current one then.
pub fn charge_knowing<R: Rolls, S: EventSink>(
    battle: &mut Packed,
    side: Side,
    pick: Pick,
    id: MoveId,
    known: &Known,
    random: &R,
    events: &mut S,
) -> bool
    requires room { HasRoom S.room 1 events.old }
    ensures shown { DoesWhere (taking side pick (move_at id).effect)
        (aware_of known.now (scene S.tells battle events)) result (λ r. charge side pick (move_at id)) }
    ensures room { AddsAtMost S.room 1 events.old events.new }
{
    charge_by(battle, side, pick, id, events)
}

/// Sets the current move of `side` to the move that a pick uses (docs/MECHANICS.md, "Charging"). Nothing else
/// changes.
pub fn make_current(battle: &mut Packed, side: Side, pick: Pick)
    ensures shown { (told : List Event) → DoesWhere (holding (PicksMove side pick))
        (quiet told battle) false (λ r. make_current side pick) }
{
    let used = used_by(battle, side, pick);
    battle.put_current_move(side, used);
}

// Returns whether the action ends.
#[inline(always)] // docs/SPEED.md, "Hints on inlining"
fn charge_by<S: EventSink>(
    battle: &mut Packed,
    side: Side,
    pick: Pick,
    id: MoveId,
    events: &mut S,
) -> bool
    requires room { HasRoom S.room 1 events.old }
    ensures shown { DoesWhere (holding (PicksMove side pick)) (scene S.tells battle events) result
        (λ r. charge side pick (move_at id)) }
    ensures room { AddsAtMost S.room 1 events.old events.new }
{
    if !id.effect().charges() {
        return false;
    }
    if battle.is_on(side, Conditions::CHARGING) {
        end_charge(battle, side);
        return false;
    }
    begin_charge(battle, side, pick, id, events);
    true
}

// The first turn.
fn begin_charge<S: EventSink>(
    battle: &mut Packed,
    side: Side,
    pick: Pick,
    id: MoveId,
    events: &mut S,
)
    requires room { HasRoom S.room 1 events.old }
    ensures shown { DoesWhere (holding (PicksMove side pick)) (scene S.tells battle events) true
        (λ r. begin_charge side pick (move_at id)) }
    ensures room { AddsAtMost S.room 1 events.old events.new }
{
    make_current(battle, side, pick);
    battle.put_flag(side, Conditions::CHARGING, true);
    hide(battle, side, id.effect());
    events.push(Event::Prepare(battle.who(side), id));
}

// A user that flies up or digs in can't be hit until the second turn.
fn hide(battle: &mut Packed, side: Side, effect: Effect)
    ensures shown { (told : List Event) → Does (quiet told battle) false
        (only (hides effect) (on_conditions side with_invulnerability)) }
{
    if hides(effect) {
        battle.put_flag(side, Conditions::INVULNERABLE, true);
    }
}

fn hides(effect: Effect) -> bool
    ensures { result ≡ hides effect }
{
    matches!(effect, Effect::ChargeInvulnerable)
}

// The second turn.
fn end_charge(battle: &mut Packed, side: Side)
    ensures shown { (told : List Event) → Does (quiet told battle) false (end_charge side) }
{
    battle.put_flag(side, Conditions::CHARGING, false);
    battle.put_flag(side, Conditions::INVULNERABLE, false);
}
