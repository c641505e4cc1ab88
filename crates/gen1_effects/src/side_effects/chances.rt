//! Effects by chance, which happen if a draw is below a number: statuses and the thaw, confusion, flinching, and stages
//! of the foe that fall (docs/MECHANICS.md, "Side effects", "Rules (sleep clause, freeze clause)", "Stage shift").
ghost use Rattle.std.specs.Prelude.{nat_lt, ◌&&◌, ◌||◌, ◌≡◌};
ghost use Rattle.gen1_tables.specs.declared.types.Element.TheVariants.{Fire, Poison};
ghost use Rattle.gen1_tables.specs.Types.{same_type};
ghost use Rattle.gen1_rolls.specs.Draws.{NextByte, Steps};
ghost use Rattle.gen1_stats.specs.Members.{is_healthy};
ghost use Rattle.gen1_machine.specs.State.{any_living, has_type};
ghost use Rattle.gen1_machine.specs.SideEffects.{by_chance, flinch, may_confuse, may_inflict, may_poison, thaw};
ghost use Rattle.gen1_machine.specs.Progress.{stay};
ghost use Rattle.gen1_machine.specs.StageShift.{lower_stage};
ghost use Rattle.gen1_layout.specs.Operations.{Does, DoesWhere, Draws, DrawsWhere, anything, quiet, scene};
ghost use Rattle.gen1_layout.specs.Words.{AddsAtMost, Event, Field, HasRoom, List, Reads, Setting, Within, active_in, false, is_frozen, move_at, not, other, party, status_in};
ghost use Rattle.gen1_status.specs.Statuses.{IsCountOf};
ghost use Rattle.gen1_effects.specs.SideEffects.{afflict, is_freeze};

use crate::targets::{has_status, has_type};
use gen1_events::EventSink;
use gen1_layout::{Conditions, Packed};
use gen1_machine::{Event, Kind, Side};
use gen1_rolls::{Look, Rolls};
use gen1_stats::Status;
use gen1_status::{confuse, has_frozen_member, inflict, lower_stage};
use gen1_tables::{Element, MoveId, Stat};

// Draws, and returns whether the draw is below the bound.
#[tactic(auto, using(gen1_rolls::proofs::Standing::alike_below))]
fn is_drawn_below<R: Rolls>(bound: u8, random: &mut R) -> bool
    ensures drawn { NextByte R.drawing random (λ byte. result ≡ nat_lt byte bound) }
    ensures steps { Steps R.drawing random }
{
    random.draw_as(Look::Below(bound)) < bound
}

// Nothing is drawn if the foe has a status, or is a Poison type.
pub(super) fn may_poison<R: Rolls, S: EventSink>(
    battle: &mut Packed,
    side: Side,
    bound: u8,
    random: &mut R,
    events: &mut S,
)
    requires room { HasRoom S.room 1 events.old }
    ensures shown { Draws R.drawing random (scene S.tells battle events) false (may_poison side bound) }
    ensures room { AddsAtMost S.room 1 events.old events.new }
    ensures steps { Steps R.drawing random }
{
    let foe = side.other();
    if resists_poison(battle, foe) {
        return;
    }
    if !is_drawn_below(bound, random) {
        return;
    }
    inflict(battle, foe, Kind::Poison, 0, events);
}

fn resists_poison(battle: &Packed, side: Side) -> bool
    ensures stands { Reads battle.now result λ f.
        (not (is_healthy (status_in side f)) || has_type Poison (active_in side f)) }
{
    let ailing = has_status(battle, side);
    let immune = has_type(battle, side, Element::Poison);
    ailing | immune
}

// A burn, a freeze or paralysis. Nothing is drawn if the foe has a status, which a Fire move may thaw, or has the
// move's type.
#[inline(always)] // docs/SPEED.md, "Hints on inlining"
pub(super) fn may_inflict<R: Rolls, S: EventSink>(
    battle: &mut Packed,
    side: Side,
    id: MoveId,
    kind: Kind,
    bound: u8,
    random: &mut R,
    events: &mut S,
)
    requires room { HasRoom S.room 1 events.old }
    ensures shown { IsCountOf kind 0 → DrawsWhere R.drawing random anything
        (scene S.tells battle events) false
        (λ r. may_inflict side (move_at id) bound (afflict r side kind)) }
    ensures room { AddsAtMost S.room 1 events.old events.new }
    ensures steps { Steps R.drawing random }
{
    let foe = side.other();
    if has_status(battle, foe) {
        thaw(battle, side, id, events);
        return;
    }
    if has_type(battle, foe, id.kind()) {
        return;
    }
    if !is_drawn_below(bound, random) {
        return;
    }
    afflict(battle, side, kind, events);
}

fn thaw<S: EventSink>(battle: &mut Packed, side: Side, id: MoveId, events: &mut S)
    requires room { HasRoom S.room 1 events.old }
    ensures shown { Does (scene S.tells battle events) false (thaw side (move_at id)) }
    ensures room { AddsAtMost S.room 1 events.old events.new }
{
    let foe = side.other();
    if !thaws(id.kind(), battle.status(foe)) {
        return;
    }
    battle.put_status(foe, Status::Healthy);
    events.push(Event::Cure(battle.who(foe), Kind::Freeze));
}

fn afflict<S: EventSink>(battle: &mut Packed, side: Side, kind: Kind, events: &mut S)
    requires room { HasRoom S.room 1 events.old }
    ensures shown { IsCountOf kind 0 → DoesWhere anything (scene S.tells battle events) false
        (λ r. afflict r side kind) }
    ensures room { AddsAtMost S.room 1 events.old events.new }
{
    if is_freeze(kind) {
        freeze(battle, side, events);
        return;
    }
    inflict(battle, side.other(), kind, 0, events);
}

// Under the freeze clause, at most one living member of the foe's side is frozen. A freeze also ends the foe's
// recharging.
fn freeze<S: EventSink>(battle: &mut Packed, side: Side, events: &mut S)
    requires room { HasRoom S.room 1 events.old }
    ensures shown { DoesWhere anything (scene S.tells battle events) false (λ r. r.freezes side) }
    ensures room { AddsAtMost S.room 1 events.old events.new }
{
    let foe = side.other();
    if is_refused(battle, foe) {
        return;
    }
    battle.put_flag(foe, Conditions::RECHARGE, false);
    inflict(battle, foe, Kind::Freeze, 0, events);
}

fn is_refused(battle: &Packed, foe: Side) -> bool
    ensures stands { (g : Setting) (f : Field) → Within g battle.now f
        → result ≡ (g.terms.rules.freeze_clause && any_living (λ m. is_frozen m.status)
        (party foe f)) }
{
    let clause = battle.freeze_clause();
    let taken = has_frozen_member(battle, foe);
    clause & taken
}

fn is_freeze(kind: Kind) -> bool
    ensures { result ≡ is_freeze kind }
{
    matches!(kind, Kind::Freeze)
}

fn thaws(kind: Element, status: Status) -> bool
    ensures { result ≡ (same_type kind Fire && is_frozen status) }
{
    matches!((kind, status), (Element::Fire, Status::Frozen))
}

// The draw comes first, even if the foe is confused already.
pub(super) fn may_confuse<R: Rolls, S: EventSink>(
    battle: &mut Packed,
    side: Side,
    bound: u8,
    random: &mut R,
    events: &mut S,
)
    requires room { HasRoom S.room 1 events.old }
    ensures shown { Draws R.drawing random (scene S.tells battle events) false
        (may_confuse side bound) }
    ensures room { AddsAtMost S.room 1 events.old events.new }
    ensures steps { Steps R.drawing random }
{
    let foe = side.other();
    if !is_drawn_below(bound, random) {
        return;
    }
    if battle.is_on(foe, Conditions::CONFUSED) {
        return;
    }
    confuse(battle, foe, random, events);
}

pub(super) fn may_flinch<R: Rolls>(battle: &mut Packed, side: Side, bound: u8, random: &mut R)
    ensures shown { (told : List Event) → Draws R.drawing random (quiet told battle) false
        (by_chance bound (flinch (other side))) }
    ensures steps { Steps R.drawing random }
{
    if !is_drawn_below(bound, random) {
        return;
    }
    flinch(battle, side.other());
}

// A member that flinches also loses its recharging.
fn flinch(battle: &mut Packed, side: Side)
    ensures shown { (told : List Event) → Does (quiet told battle) false (flinch side) }
{
    battle.put_flag(side, Conditions::FLINCH, true);
    battle.put_flag(side, Conditions::RECHARGE, false);
}

// A fall that fails has no other effect.
pub(super) fn may_lower<R: Rolls, S: EventSink>(
    battle: &mut Packed,
    side: Side,
    stat: Stat,
    random: &mut R,
    events: &mut S,
)
    requires room { HasRoom S.room 1 events.old }
    ensures shown { Draws R.drawing random (scene S.tells battle events) false
        (by_chance 85 (lower_stage side (other side) stat 1 stay)) }
    ensures room { AddsAtMost S.room 1 events.old events.new }
    ensures steps { Steps R.drawing random }
{
    let foe = side.other();
    if !is_drawn_below(85, random) {
        return;
    }
    lower_stage(battle, side, foe, stat, 1, events);
}
