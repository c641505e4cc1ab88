//! The lead-up, before any damage: the move that an action takes, and whether it continues; charging; the use of the
//! move, which becomes the current one and costs PP; an early effect; and what trapping and thrashing do
//! (docs/MECHANICS.md, "Action", "Picks", "Going on").
ghost use Rattle.std.specs.Prelude.{if◌then◌else◌, ◌&&◌, ◌-◌, ◌==◌, ◌≡◌, ◌≤◌};
ghost use Rattle.gen1_tables.specs.Effects.{bides};
ghost use Rattle.gen1_rolls.specs.Draws.{Steps};
ghost use Rattle.gen1_machine.specs.Action.{keeps_going, lead_up, prelude, see_if_going_on, spend_pp, use_move};
ghost use Rattle.gen1_machine.specs.EarlyEffects.{early_effect, is_early};
ghost use Rattle.gen1_machine.specs.Progress.{goes_on_now, note, on_member, only, unless};
ghost use Rattle.gen1_machine.specs.Picks.{is_use, number_in, used_by};
ghost use Rattle.gen1_machine.specs.Valid.{IsUsedMove};
ghost use Rattle.gen1_machine.specs.Charging.{make_current};
ghost use Rattle.gen1_machine.specs.State.{with_pp_spent};
ghost use Rattle.gen1_layout.specs.Operations.{Does, DoesWhere, Draws, DrawsWhere, holding, looking, quiet, scene, unchanged};
ghost use Rattle.gen1_layout.specs.Words.{AddsAtMost, AddsNone, Event, Field, HasRoom, IsBetween, List, Reads, Setting, Within, active_in, false, length, member_in, move_at, not, other, stop, underway_in, who_in, ◌▸◌};
ghost use Rattle.gen1_hits.specs.Knowing.{IsUncounted, aware, aware_of};
ghost use Rattle.gen1_hits.specs.Planned.{taking, using};
ghost use Rattle.gen1_multiturn.specs.GoingOn.{PicksMove};
ghost use Rattle.gen1_turn.specs.Action.{begin_move};

use gen1_effects::{group_one_knowing, is_early};
use gen1_events::{EventSink, Untested};
use gen1_hits::Known;
use gen1_layout::Packed;
use gen1_machine::{Pick, Side, UsedMove};
use gen1_multiturn::{charge_knowing, make_current, thrash_knowing, trap_knowing};
use gen1_rolls::Rolls;
use gen1_status::{among_slots, keeps_going, number_of, used_by};
use gen1_tables::MoveId;

pub(crate) fn lead_up<R: Rolls, S: EventSink>(
    battle: &mut Packed,
    side: Side,
    pick: Pick,
    id: MoveId,
    known: &mut Known,
    random: &mut R,
    events: &mut S,
) -> bool
    requires room { HasRoom S.room 4 events.old }
    ensures shown { DrawsWhere R.drawing random (taking side pick (move_at id).effect)
        (aware known (scene S.tells battle events)) result (λ r. lead_up side pick (move_at id)) }
    ensures same { result ≡ false → known.new ≡ known.old }
    ensures room { AddsAtMost S.room 4 events.old events.new }
    ensures few { result ≡ false → AddsAtMost S.room 3 events.old events.new }
    ensures steps { Steps R.drawing random }
{
    if charge_knowing(battle, side, pick, id, known, random, events) {
        return true;
    }
    use_move(battle, side, pick, id, known, events);
    begin_move(battle, side, id, known, random, events)
}

// After the move is used.
fn begin_move<R: Rolls, S: EventSink>(
    battle: &mut Packed,
    side: Side,
    id: MoveId,
    known: &mut Known,
    random: &mut R,
    events: &mut S,
) -> bool
    requires room { HasRoom S.room 2 events.old }
    ensures shown { DrawsWhere R.drawing random (using side (move_at id).effect)
        (aware known (scene S.tells battle events)) result (λ r. begin_move side (move_at id)) }
    ensures same { result ≡ false → known.new ≡ known.old }
    ensures room { AddsAtMost S.room 2 events.old events.new }
    ensures few { result ≡ false → AddsAtMost S.room 1 events.old events.new }
    ensures steps { Steps R.drawing random }
{
    if early_effect(battle, side, id, known, random, events) {
        return true;
    }
    prelude(battle, side, id, known, random, events);
    false
}

// Returns whether the move has an early effect, which ends the action.
fn early_effect<R: Rolls, S: EventSink>(
    battle: &mut Packed,
    side: Side,
    id: MoveId,
    known: &mut Known,
    random: &mut R,
    events: &mut S,
) -> bool
    requires room { HasRoom S.room 2 events.old }
    ensures shown { Draws R.drawing random (aware known (scene S.tells battle events)) result
        (only (is_early (move_at id).effect)
        (early_effect side (move_at id) (move_at id).effect ▸ stop)) }
    ensures early { result ≡ is_early (move_at id).effect }
    ensures same { result ≡ false → known.new ≡ known.old }
    ensures room { AddsAtMost S.room 2 events.old events.new }
    ensures quiet { result ≡ false → AddsNone S.room events.old events.new }
    ensures steps { Steps R.drawing random }
{
    if is_early(id.effect()) {
        group_one_knowing(battle, side, id, known, random, events);
        return true;
    }
    false
}

// What trapping and thrashing moves do before their damage.
fn prelude<R: Rolls, S: EventSink>(
    battle: &mut Packed,
    side: Side,
    id: MoveId,
    known: &Known,
    random: &mut R,
    events: &mut S,
)
    requires room { HasRoom S.room 1 events.old }
    ensures shown { DrawsWhere R.drawing random (using side (move_at id).effect)
        (aware_of known.now (scene S.tells battle events)) false (λ r. prelude side (move_at id)) }
    ensures room { AddsAtMost S.room 1 events.old events.new }
    ensures steps { Steps R.drawing random }
{
    if id.effect().traps() {
        trap_knowing(battle, side, known, random);
        return;
    }
    if id.effect().thrashes() {
        thrash_knowing(battle, side, id, known, random, events);
    }
}

// A move that continues costs no PP. If its condition has ended meanwhile, the move is used as a new one.
pub(crate) fn see_if_going_on(battle: &Packed, side: Side, pick: Pick, known: &mut Known)
    ensures shown { (told : List Event) → Does (aware known (unchanged told battle)) false
        (see_if_going_on side pick) }
    ensures counts { IsUncounted known.old → IsUncounted known.new }
{
    known.going_on = goes_on(battle, side, pick);
}

fn goes_on(battle: &Packed, side: Side, pick: Pick) -> bool
    ensures stands { Reads battle.now result λ f.
        (not (is_use pick) && keeps_going (underway_in side f)) }
{
    if is_use(pick) {
        return false;
    }
    keeps_going(battle, side)
}

fn is_use(pick: Pick) -> bool
    ensures { result ≡ is_use pick }
{
    matches!(pick, Pick::Use(_))
}

// The move that a pick uses. An action that comes this far always has one.
pub(crate) fn move_taken(battle: &Packed, side: Side, pick: Pick) -> MoveId
    ensures stands { (g : Setting) (f : Field) → Within g battle.now f
        → IsUsedMove (length (member_in side f).moves)
        (used_by pick (active_in side f).current_move)
        → IsBetween 1 165
        (number_in (used_by pick (active_in side f).current_move) (member_in side f).moves)
        → result ≡ number_in (used_by pick (active_in side f).current_move)
        (member_in side f).moves }
{
    let used = used_by(battle, side, pick);
    match MoveId::new(number_of(battle, side, used)) {
        Some(id) => id,
        None => MoveId::default(),
    }
}

// The user uses its move. A move of Bide's effect writes no event.
#[inline(always)] // docs/SPEED.md, "Hints on inlining"
fn use_move<S: EventSink>(
    battle: &mut Packed,
    side: Side,
    pick: Pick,
    id: MoveId,
    known: &Known,
    events: &mut S,
)
    requires room { HasRoom S.room 1 events.old }
    ensures shown { DoesWhere (holding (PicksMove side pick))
        (aware_of known.now (scene S.tells battle events)) false
        (λ r. use_move side pick (move_at id)) }
    ensures room { AddsAtMost S.room 1 events.old events.new }
{
    take_up(battle, side, pick);
    spend_pp_unless_going(battle, side, known);
    note_move(battle, side, id, events);
}

// A picked move becomes the current one. A move that continues is that already.
fn take_up(battle: &mut Packed, side: Side, pick: Pick)
    ensures shown { (told : List Event) → DoesWhere (holding (PicksMove side pick))
        (quiet told battle) false (λ r. make_current side pick) }
{
    match pick {
        Pick::Use(_) => make_current(battle, side, pick),
        Pick::Continue => {}
        Pick::Idle => {}
        Pick::Held => {}
    }
}

fn spend_pp_unless_going(battle: &mut Packed, side: Side, known: &Known)
    ensures shown { (told : List Event) → Does (aware_of known.now (quiet told battle)) false
        (unless goes_on_now (spend_pp side)) }
{
    if known.going_on {
        return;
    }
    spend_pp(battle, side, battle.current_move(side));
}

fn spend_pp(battle: &mut Packed, side: Side, used: UsedMove)
    ensures shown { (told : List Event) → DoesWhere
        (holding λ p. (active_in side p.field).current_move ≡ used) (quiet told battle) false
        (λ r. on_member side (with_pp_spent used)) }
{
    match used {
        UsedMove::Nothing => {}
        UsedMove::Struggle => {}
        UsedMove::Slot(slot) => spend_pp_of(battle, side, slot),
    }
}

fn spend_pp_of(battle: &mut Packed, side: Side, slot: u8)
    ensures shown { (told : List Event) → DoesWhere
        (holding λ p. IsBetween 1 (length (member_in side p.field).moves) slot) (quiet told battle)
        false (λ r. on_member side (with_pp_spent (UsedMove.Slot slot))) }
{
    let slot = among_slots(slot);
    let left = less_pp(battle.pp(side, slot));
    battle.put_pp(side, slot, left);
}

// PP have six bits, so 63 follows 0.
fn less_pp(pp: u8) -> u8
    ensures value { result ≡ (if pp == 0 then 63 else pp - 1) }
    ensures most { pp ≤ 63 → result ≤ 63 }
{
    match pp {
        0 => 63,
        _ => pp - 1,
    }
}

fn note_move<S: EventSink>(battle: &Packed, side: Side, id: MoveId, events: &mut S)
    requires room { HasRoom S.room 1 events.old }
    ensures shown { Does (looking S.tells battle events) false
        (only (not (bides (move_at id).effect))
        (note (λ f. Event.Move (who_in side f) id (who_in (other side) f)))) }
    ensures room { AddsAtMost S.room 1 events.old events.new }
{
    if id.effect().bides() {
        return;
    }
    let species = battle.species_number(side);
    let foe = battle.species_number(side.other());
    events.push_untested(Untested::Move(side, species, id, foe));
}
