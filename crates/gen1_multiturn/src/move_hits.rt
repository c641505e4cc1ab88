//! The hits of a move, one after another, what follows each, and what follows a miss (docs/MECHANICS.md, "Many hits",
//! "Recoil, drain and explosion").
ghost use Rattle.std.specs.Prelude.{◌*◌, ◌+◌, ◌||◌, ◌≡◌, ◌≤◌};
ghost use Rattle.gen1_tables.specs.Effects.{hits_more, knocks_out};
ghost use Rattle.gen1_rolls.specs.Draws.{Steps};
ghost use Rattle.gen1_machine.specs.State.{has_fallen_in};
ghost use Rattle.gen1_machine.specs.declared.event.Event.TheVariants as told;
ghost use Rattle.gen1_machine.specs.HitEffects.{hit_effect};
ghost use Rattle.gen1_machine.specs.Landing.{land};
ghost use Rattle.gen1_machine.specs.ManyHits.{hit_again, hit_once, hits, other_hits};
ghost use Rattle.gen1_machine.specs.Progress.{broke_substitute, note, only, unless};
ghost use Rattle.gen1_layout.specs.Operations.{Does, Draws, between, scene};
ghost use Rattle.gen1_layout.specs.Words.{AddsAtMost, HasRoom, Reads, false, move_at, other, true};
ghost use Rattle.gen1_layout.specs.Parts.{Parts};
ghost use Rattle.gen1_hits.specs.Knowing.{IsUncounted, aware, aware_of, has_broken};
ghost use Rattle.gen1_multiturn.specs.MoveHits.{IsFew};

pub mod hit_counts;
pub mod hit_effects;

use crate::move_hits::hit_counts::{hits_left, note_first_hit, note_hit_count, plan_unless_broken};
use crate::move_hits::hit_effects::hit_effect;
use crate::moves::going_on::rage;
use gen1_events::EventSink;
use gen1_hits::{Known, Landed, land};
use gen1_layout::Packed;
use gen1_machine::{Event, Side};
use gen1_rolls::Rolls;
use gen1_tables::{Effect, MoveId};

/// Makes all hits of a move of `side` that hits (docs/MECHANICS.md, "Many hits", "Recoil, drain and explosion").
///
/// That is one hit, or as many as its effect plans after the first, until a Substitute breaks or the foe falls. Each
/// hit lands the last damage, which a landing on HP may reduce. Then its effect follows, unless it broke a
/// Substitute: recoil, drained HP, the user's own Rage or its explosion. The foe's Rage builds if the foe lives.
///
/// Before the first hit it writes `Crit` and `SuperEffective` or `Resisted`, if the damage went through the types.
/// After the last hit it writes the number of hits, if one was planned. It needs thirteen free places in `events`.
///
/// Before the call, no hit is planned or made. Afterwards `known` holds the hits planned and made, and whether a
/// Substitute broke. A count of two to five takes one or two draws. Other moves draw nothing.
pub fn hits<R: Rolls, S: EventSink>(
    battle: &mut Packed,
    side: Side,
    id: MoveId,
    known: &mut Known,
    random: &mut R,
    events: &mut S,
)
    requires room { HasRoom S.room 13 events.old }
    requires counts { IsUncounted known.old }
    ensures shown { Draws R.drawing random (aware known (scene S.tells battle events)) false
        (hits side (move_at id)) }
    ensures room { AddsAtMost S.room 13 events.old events.new }
    ensures steps { Steps R.drawing random }
{
    note_first_hit(battle, side, id, known, events);
    if hits_more(id.effect()) {
        hit_of_many(battle, side, id, known, random, events);
        other_hits(battle, side, id, known, random, events);
    } else {
        hit_once(battle, side, id, known, events);
    }
}

fn hits_more(effect: Effect) -> bool
    ensures { result ≡ hits_more effect }
{
    matches!(
        effect,
        Effect::MultiHit | Effect::DoubleHit | Effect::Twineedle
    )
}

// The hit of a move that makes one.
#[inline(always)] // docs/SPEED.md, "Hints on inlining"
fn hit_once<S: EventSink>(
    battle: &mut Packed,
    side: Side,
    id: MoveId,
    known: &mut Known,
    events: &mut S,
)
    requires room { HasRoom S.room 4 events.old }
    requires one { hits_more (move_at id).effect ≡ false }
    requires made { known.old.hits_made ≤ 4 }
    ensures shown { Does (aware known (scene S.tells battle events)) false
        (hit_once side (move_at id)) }
    ensures room { AddsAtMost S.room 4 events.old events.new }
{
    land_hit(battle, side, known, events);
    note_knock_out(id.effect(), events);
    known.hits_made += 1;
    effect_unless_broken(battle, side, id, known, events);
    rage(battle, side, events);
}

// A hit of a move that makes several. It writes at most two events, since nothing else follows it.
fn hit_of_many<R: Rolls, S: EventSink>(
    battle: &mut Packed,
    side: Side,
    id: MoveId,
    known: &mut Known,
    random: &mut R,
    events: &mut S,
)
    requires room { HasRoom S.room 2 events.old }
    requires many { hits_more (move_at id).effect ≡ true }
    requires made { known.old.hits_made ≤ 4 }
    ensures shown { Draws R.drawing random (aware known (scene S.tells battle events)) false
        (hit_once side (move_at id)) }
    ensures room { AddsAtMost S.room 2 events.old events.new }
    ensures made { known.new.hits_made ≡ known.old.hits_made + 1 }
    ensures few { IsFew known.old → IsFew known.new }
    ensures steps { Steps R.drawing random }
{
    land_hit(battle, side, known, events);
    known.hits_made += 1;
    plan_unless_broken(side, id, known, random);
    rage(battle, side, events);
}

// The last damage lands on the foe.
fn land_hit<S: EventSink>(battle: &mut Packed, side: Side, known: &mut Known, events: &mut S)
    requires room { HasRoom S.room 1 events.old }
    ensures shown { Does (aware known (scene S.tells battle events)) false (land (other side)) }
    ensures room { AddsAtMost S.room 1 events.old events.new }
    ensures same { (known.new.hits_made ≡ known.old.hits_made)
        × (known.new.hits_planned ≡ known.old.hits_planned) }
{
    let damage = battle.last_damage();
    let landed = land(battle, side, damage, events);
    let broke = has_broken(landed);
    known.broke = broke | known.broke;
}

fn has_broken(landed: Landed) -> bool
    ensures { result ≡ has_broken landed }
{
    matches!(landed, Landed::Broke)
}

fn note_knock_out<S: EventSink>(effect: Effect, events: &mut S)
    requires room { HasRoom S.room 1 events.old }
    ensures shown { (parts : Parts)
        → Does (between parts (S.tells events.old) parts (S.tells events.new)) false
        (only (knocks_out effect) (note λ f. told.OneHitKnockOut)) }
    ensures room { AddsAtMost S.room 1 events.old events.new }
{
    if knocks_out(effect) {
        events.push(Event::OneHitKnockOut);
    }
}

fn knocks_out(effect: Effect) -> bool
    ensures { result ≡ knocks_out effect }
{
    matches!(effect, Effect::OneHitKnockOut)
}

fn effect_unless_broken<S: EventSink>(
    battle: &mut Packed,
    side: Side,
    id: MoveId,
    known: &Known,
    events: &mut S,
)
    requires room { HasRoom S.room 1 events.old }
    requires one { hits_more (move_at id).effect ≡ false }
    ensures shown { Does (aware_of known.now (scene S.tells battle events)) false
        (unless broke_substitute (hit_effect side (move_at id) (move_at id).effect)) }
    ensures room { AddsAtMost S.room 1 events.old events.new }
{
    if !known.broke {
        hit_effect(battle, side, id, events);
    }
}

// The hits after the first, and the report of their number.
fn other_hits<R: Rolls, S: EventSink>(
    battle: &mut Packed,
    side: Side,
    id: MoveId,
    known: &mut Known,
    random: &mut R,
    events: &mut S,
)
    requires room { HasRoom S.room 9 events.old }
    requires many { hits_more (move_at id).effect ≡ true }
    requires made { known.old.hits_made ≡ 1 }
    requires few { IsFew known.old }
    ensures shown { Draws R.drawing random (aware known (scene S.tells battle events)) false
        (other_hits side (move_at id)) }
    ensures room { AddsAtMost S.room 9 events.old events.new }
    ensures steps { Steps R.drawing random }
{
    let left = hits_left(known.hits_planned);
    hit_again(battle, side, id, left, known, random, events);
    note_hit_count(battle, side.other(), known, events);
}

// This many more hits, if nothing ends them.
fn hit_again<R: Rolls, S: EventSink>(
    battle: &mut Packed,
    side: Side,
    id: MoveId,
    left: u8,
    known: &mut Known,
    random: &mut R,
    events: &mut S,
)
    requires room { HasRoom S.room (2 * left) events.old }
    requires many { hits_more (move_at id).effect ≡ true }
    requires made { known.old.hits_made + left ≤ 5 }
    ensures shown { Draws R.drawing random (aware known (scene S.tells battle events)) false
        (hit_again left side (move_at id)) }
    ensures room { AddsAtMost S.room (2 * left) events.old events.new }
    ensures low { known.old.hits_made ≤ known.new.hits_made }
    ensures high { known.new.hits_made ≤ known.old.hits_made + left }
    ensures steps { Steps R.drawing random }
{
    if left == 0 {
        return;
    }
    if hits_end(battle, side, known) {
        return;
    }
    hit_of_many(battle, side, id, known, random, events);
    hit_again(battle, side, id, left - 1, known, random, events);
}

// A broken Substitute or a fall ends the hits.
fn hits_end(battle: &Packed, side: Side, known: &Known) -> bool
    ensures stands { Reads battle.now result λ f.
        (known.now.broke || has_fallen_in (other side) f) }
{
    let fallen = battle.has_fallen(side.other());
    known.broke | fallen
}
