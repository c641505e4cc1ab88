//! How many hits a move makes, or how many turns it holds, and the reports before the first hit: whether it is critical,
//! and its effectiveness (docs/MECHANICS.md, "Many hits", "Going on", "Order of events").
ghost use Rattle.std.specs.Prelude.{unwrap_or, ◌-◌, ◌≡◌, ◌≤◌};
ghost use Rattle.gen1_tables.specs.Effects.{hits_more};
ghost use Rattle.gen1_rolls.specs.Draws.{Steps};
ghost use Rattle.gen1_machine.specs.HitEffects.{hit_effect, plan_hits};
ghost use Rattle.gen1_machine.specs.ManyHits.{note_critical, note_effectiveness, note_first_hit, note_hit_count};
ghost use Rattle.gen1_machine.specs.Progress.{broke_substitute, given, unless, when};
ghost use Rattle.gen1_machine.specs.Valid.{IsCount};
ghost use Rattle.gen1_machine.specs.Damage.{numbers};
ghost use Rattle.gen1_layout.specs.Operations.{Does, Draws, at_rest, looking};
ghost use Rattle.gen1_layout.specs.Words.{AddsAtMost, Event as EventOf, HasRoom, List, false, is_some, move_at, other, true};
ghost use Rattle.gen1_layout.specs.Parts.{Parts};
ghost use Rattle.gen1_hits.specs.Knowing.{aware, aware_of};
ghost use Rattle.gen1_multiturn.specs.MoveHits.{DrawsCount, IsFew, how_many, is_multi_hit, is_neutral};

use gen1_events::EventSink;
use gen1_hits::Known;
use gen1_layout::Packed;
use gen1_machine::{Event, HitCount, Side};
use gen1_rolls::{Look, Rolls};
use gen1_tables::{Effect, MoveId, effectiveness};

// Settles the number of hits, unless the hit broke a Substitute.
pub(crate) fn plan_unless_broken<R: Rolls>(
    side: Side,
    id: MoveId,
    known: &mut Known,
    random: &mut R,
)
    requires many { hits_more (move_at id).effect ≡ true }
    ensures shown { (parts : Parts) (events : List EventOf) → Draws R.drawing random
        (aware known (at_rest events parts)) false
        (unless broke_substitute (hit_effect side (move_at id) (move_at id).effect)) }
    ensures made { known.new.hits_made ≡ known.old.hits_made }
    ensures few { IsFew known.old → IsFew known.new }
    ensures steps { Steps R.drawing random }
{
    if known.broke {
        return;
    }
    plan_more(side, id, known, random);
}

fn plan_more<R: Rolls>(side: Side, id: MoveId, known: &mut Known, random: &mut R)
    requires many { hits_more (move_at id).effect ≡ true }
    ensures shown { (parts : Parts) (events : List EventOf) → Draws R.drawing random
        (aware known (at_rest events parts)) false (hit_effect side (move_at id) (move_at id).effect) }
    ensures made { known.new.hits_made ≡ known.old.hits_made }
    ensures few { IsFew known.old → IsFew known.new }
    ensures steps { Steps R.drawing random }
{
    if is_multi_hit(id.effect()) {
        plan_hits(known, random);
        return;
    }
    known.hits_planned = Some(2);
}

fn is_multi_hit(effect: Effect) -> bool
    ensures { result ≡ is_multi_hit effect }
{
    matches!(effect, Effect::MultiHit)
}

// Two to five hits, drawn after the first hit only.
fn plan_hits<R: Rolls>(known: &mut Known, random: &mut R)
    ensures shown { (parts : Parts) (events : List EventOf) → Draws R.drawing random
        (aware known (at_rest events parts)) false plan_hits }
    ensures made { known.new.hits_made ≡ known.old.hits_made }
    ensures few { IsFew known.old → IsFew known.new }
    ensures steps { Steps R.drawing random }
{
    if known.hits_planned.is_some() {
        return;
    }
    let count = draw_count(random);
    known.hits_planned = Some(count + 2);
}

// The hits after the first.
pub(crate) fn hits_left(planned: Option<u8>) -> u8
    ensures value { result ≡ unwrap_or planned 1 - 1 }
    ensures few { IsCount 2 5 planned → result ≤ 4 }
{
    match planned {
        Some(hits) => hits.saturating_sub(1),
        None => 0,
    }
}

// Reports the number of hits, if it was settled.
pub(crate) fn note_hit_count<S: EventSink>(
    battle: &Packed,
    target: Side,
    known: &Known,
    events: &mut S,
)
    requires room { HasRoom S.room 1 events.old }
    requires made { (1 ≤ known.now.hits_made) × (known.now.hits_made ≤ 5) }
    ensures shown { Does (aware_of known.now (looking S.tells battle events)) false
        (when (λ p. is_some p.action.hits_planned)
        (given (λ p. p.action.hits_made) (note_hit_count target))) }
    ensures room { AddsAtMost S.room 1 events.old events.new }
{
    if !known.hits_planned.is_some() {
        return;
    }
    if let Some(hits) = HitCount::new(known.hits_made) {
        events.push(Event::HitCount(battle.who(target), hits));
    }
}

/// Draws how many times a move hits, or how long it holds, less 2: 0 to 3 (docs/MECHANICS.md, "Many hits").
///
/// 2 and 3 are rarer. It takes one draw, and a second if the first has 2 or 3 in its low bits.
pub fn draw_count<R: Rolls>(random: &mut R) -> u8
    ensures shown { DrawsCount R.drawing random result }
    ensures most { result ≤ 3 }
    ensures steps { Steps R.drawing random }
{
    let first = random.draw_as(Look::Remainder(4)) % 4;
    if first <= 1 {
        return first;
    }
    random.draw_as(Look::Remainder(4)) % 4
}

// Writes `Crit`, and `SuperEffective` or `Resisted`, for the foe of `side`, if the damage went through the types.
pub(crate) fn note_first_hit<S: EventSink>(
    battle: &Packed,
    side: Side,
    id: MoveId,
    known: &Known,
    events: &mut S,
)
    requires room { HasRoom S.room 2 events.old }
    ensures shown { Does (aware_of known.now (looking S.tells battle events)) false
        (note_first_hit side (move_at id)) }
    ensures room { AddsAtMost S.room 2 events.old events.new }
{
    if !known.through_types {
        return;
    }
    note_critical(battle, side.other(), known, events);
    note_effectiveness(battle, side, id, events);
}

fn note_critical<S: EventSink>(battle: &Packed, target: Side, known: &Known, events: &mut S)
    requires room { HasRoom S.room 1 events.old }
    ensures shown { Does (aware_of known.now (looking S.tells battle events)) false
        (note_critical target) }
    ensures room { AddsAtMost S.room 1 events.old events.new }
{
    if known.critical {
        events.push(Event::Crit(battle.who(target)));
    }
}

fn note_effectiveness<S: EventSink>(battle: &Packed, side: Side, id: MoveId, events: &mut S)
    requires room { HasRoom S.room 1 events.old }
    ensures shown { Does (looking S.tells battle events) false
        (given (numbers side (move_at id)) (note_effectiveness (other side))) }
    ensures room { AddsAtMost S.room 1 events.old events.new }
{
    let foe = side.other();
    let factors = effectiveness(id.kind(), battle.first_type(foe), battle.second_type(foe));
    if is_neutral(factors) {
        return;
    }
    let doubling = how_many(20, factors);
    let halving = how_many(5, factors);
    if halving < doubling {
        events.push(Event::SuperEffective(battle.who(foe)));
        return;
    }
    if doubling < halving {
        events.push(Event::Resisted(battle.who(foe)));
    }
}

// One test of most hits: neither type changes the damage.
fn is_neutral(factors: (u8, u8)) -> bool
    ensures { result ≡ is_neutral factors }
{
    factors.0 == 10 && factors.1 == 10
}

fn how_many(tenths: u8, factors: (u8, u8)) -> u8
    ensures { result ≡ how_many tenths factors }
{
    u8::from(factors.0 == tenths) + u8::from(factors.1 == tenths)
}
