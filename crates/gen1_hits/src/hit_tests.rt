//! The hit test, by itself and in an action, and how a miss is reported (docs/MECHANICS.md, "Hit test", "Action").
ghost use Rattle.std.specs.Prelude.{if◌then◌else◌, max, ◌&&◌, ◌*◌, ◌+◌, ◌/◌, ◌≡◌, ◌≤◌};
ghost use Rattle.gen1_rolls.specs.Draws.{Steps};
ghost use Rattle.gen1_machine.specs.Stages.{percent_at};
ghost use Rattle.gen1_machine.specs.HitTest.{eats_dreams, hit_or_miss, hit_test, hits_below, lowers, miss, miss_event, must_hit, never_misses, note_miss, scaled_in, settled_hit_in};
ghost use Rattle.gen1_machine.specs.Moves.{accuracy_byte};
ghost use Rattle.gen1_layout.specs.Operations.{Does, Draws, learns, looking, quiet, scene};
ghost use Rattle.gen1_layout.specs.Words.{AddsAtMost, AddsNone, Event, HasRoom, List, Reads, active_in, draw, false, is_asleep, move_at, not, status_in, true};
ghost use Rattle.gen1_hits.specs.Knowing.{IsUncounted, aware, with_miss_unless, with_test};

use crate::Known;
use crate::damage_formula::is_immune;
use gen1_events::EventSink;
use gen1_layout::{Conditions, Packed};
use gen1_machine::{Event, Side};
use gen1_rolls::{Look, Rolls};
use gen1_stats::Status;
use gen1_tables::{Effect, MoveId, Stat};

// The percentages of the stages from -6 to +6 (docs/MECHANICS.md, "Stages").
const PERCENTS: [u32; 13] = [25, 28, 33, 40, 50, 66, 100, 150, 200, 250, 300, 350, 400];

// A stage of 0, as it is stored.
const LEVEL: u8 = 6;

/// The result of a hit test (docs/MECHANICS.md, "Hit test").
#[derive(Clone, Copy, Debug, PartialEq, Eq, Drop)]
pub struct Hit {
    /// Whether the move hits.
    pub hit: bool,
    /// The byte that the draw was compared with, or the base if the test was settled without a draw. It is kept for a
    /// move that continues (docs/MECHANICS.md, "Kept accuracy").
    pub kept: u8,
}

/// Tests whether a move of `side` hits its foe, with `base` as its accuracy byte (docs/MECHANICS.md, "Hit test").
///
/// It takes at most one draw. A miss sets the last damage to 0 and ends the user's Trapping. Nothing else of the
/// battle changes, and no event is written.
pub fn hit_test<R: Rolls>(
    battle: &mut Packed,
    side: Side,
    id: MoveId,
    base: u8,
    random: &mut R,
) -> Hit
    ensures shown { (told : List Event) → Draws R.drawing random
        (learns (with_test result.hit result.kept) (quiet told battle)) false (hit_test side (move_at id) base) }
    ensures steps { Steps R.drawing random }
{
    match settled_hit(battle, side, id) {
        Some(true) => Hit {
            hit: true,
            kept: base,
        },
        Some(false) => {
            miss(battle, side);
            Hit {
                hit: false,
                kept: base,
            }
        }
        None => {
            let kept = scaled_accuracy(battle, side, base);
            let hit = draw_below(battle, side, kept, random);
            Hit { hit, kept }
        }
    }
}

/// Whether a move of `side` hits its foe, if that is settled without a draw (docs/MECHANICS.md, "Hit test"). Returns
/// `None` if the hit test draws.
pub fn settled_hit(battle: &Packed, side: Side, id: MoveId) -> Option<bool>
    ensures stands { Reads battle.now result (settled_hit_in side (move_at id)) }
{
    let foe = side.other();
    let effect = id.effect();
    if finds_no_dream(battle, foe, effect) {
        return Some(false);
    }
    if never_misses(effect) {
        return Some(true);
    }
    if battle.is_on(foe, Conditions::INVULNERABLE) {
        return Some(false);
    }
    if is_misted(effect, battle.is_on(foe, Conditions::MIST)) {
        return Some(false);
    }
    None
}

// Only Dream Eater needs the foe's status.
fn finds_no_dream(battle: &Packed, foe: Side, effect: Effect) -> bool
    ensures stands { Reads battle.now result λ f.
        (eats_dreams effect && not (is_asleep (status_in foe f))) }
{
    if !eats_dreams(effect) {
        return false;
    }
    !is_asleep(battle.status(foe))
}

fn eats_dreams(effect: Effect) -> bool
    ensures { result ≡ eats_dreams effect }
{
    matches!(effect, Effect::DreamEater)
}

fn is_asleep(status: Status) -> bool
    ensures { result ≡ is_asleep status }
{
    matches!(status, Status::Asleep { .. })
}

fn never_misses(effect: Effect) -> bool
    ensures { result ≡ never_misses effect }
{
    matches!(effect, Effect::NeverMisses)
}

fn is_misted(effect: Effect, mist: bool) -> bool
    ensures { result ≡ (lowers effect && mist) }
{
    matches!(effect, Effect::StatDown(..)) && mist
}

/// The byte that a draw must be below for a hit, 1 to 255 (docs/MECHANICS.md, "Hit test").
///
/// It is `base` scaled by the accuracy stage of `side`, and by the negated evasion stage of its foe.
pub fn scaled_accuracy(battle: &Packed, side: Side, base: u8) -> u8
    ensures stands { Reads battle.now result (scaled_in side base) }
{
    let accuracy = battle.stage(side, Stat::Accuracy);
    let evasion = battle.stage(side.other(), Stat::Evasion);
    if accuracy == LEVEL && evasion == LEVEL {
        return base.max(1);
    }
    let aimed = at_percent(base.into(), percent_at(accuracy));
    // A stage is stored as 0 to 12, so 12 minus it is the negated stage.
    at_percent(aimed, percent_at(12_u8.saturating_sub(evasion))).min(255) as u8
}

// This percentage of a number, at least 1.
fn at_percent(number: u32, percent: u32) -> u32
    requires number { number ≤ 1021 }
    requires percent { percent ≤ 400 }
    ensures value { result ≡ max 1 (number * percent / 100) }
    ensures most { result ≤ 4 * number + 1 }
{
    (number * percent / 100).max(1)
}

fn percent_at(stage: u8) -> u32
    ensures value { result ≡ percent_at stage }
    ensures most { result ≤ 400 }
{
    PERCENTS.get(stage as usize).copied().unwrap_or(0)
}

// Draws, and returns whether the draw is below the byte. Otherwise the move misses.
fn draw_below<R: Rolls>(battle: &mut Packed, side: Side, byte: u8, random: &mut R) -> bool
    ensures shown { (told : List Event) → Draws R.drawing random
        (learns (with_miss_unless result) (quiet told battle)) false (draw (hits_below side byte)) }
    ensures steps { Steps R.drawing random }
{
    if random.draw_as(Look::Below(byte)) < byte {
        return true;
    }
    miss(battle, side);
    false
}

fn miss(battle: &mut Packed, side: Side)
    ensures shown { (told : List Event) → Does (learns (with_miss_unless false) (quiet told battle)) false (miss side) }
{
    battle.put_last_damage(0);
    battle.end_trapping(side);
}

/// The hit test of a move of `side`, at its accuracy byte, or at the kept accuracy if the action continues
/// (docs/MECHANICS.md, "Hit test").
///
/// It takes at most one draw. `known` then holds the byte that was tested, and whether the action has missed. An
/// earlier miss stays. A miss sets the last damage to 0 and ends the user's Trapping. Nothing else of the battle
/// changes.
pub fn hit_or_miss<R: Rolls>(
    battle: &mut Packed,
    side: Side,
    id: MoveId,
    known: &mut Known,
    random: &mut R,
)
    ensures shown { (told : List Event) → Draws R.drawing random (aware known (quiet told battle))
        false (hit_or_miss side (move_at id)) }
    ensures counts { IsUncounted known.old → IsUncounted known.new }
    ensures steps { Steps R.drawing random }
{
    let base = base_of(battle, side, id, known.going_on);
    let test = hit_test(battle, side, id, base, random);
    known.missed = missed_after(test.hit, known.missed);
    known.accuracy_tested = Some(test.kept);
}

/// A hit test whose miss ends the action (docs/MECHANICS.md, "Early effects", "Late effects").
///
/// A miss is reported, and `true` is returned. It writes at most one event, and none on a hit. It needs one free
/// place in `events`.
pub fn must_hit<R: Rolls, S: EventSink>(
    battle: &mut Packed,
    side: Side,
    id: MoveId,
    known: &mut Known,
    random: &mut R,
    events: &mut S,
) -> bool
    requires room { HasRoom S.room 1 events.old }
    ensures shown { Draws R.drawing random (aware known (scene S.tells battle events)) result
        (must_hit side (move_at id)) }
    ensures counts { IsUncounted known.old → IsUncounted known.new }
    ensures room { AddsAtMost S.room 1 events.old events.new }
    ensures quiet { result ≡ false → AddsNone S.room events.old events.new }
    ensures steps { Steps R.drawing random }
{
    hit_or_miss(battle, side, id, known, random);
    if !known.missed {
        return false;
    }
    note_miss(battle, side, id, events);
    true
}

/// Reports a miss of `side` (docs/MECHANICS.md, "Action", step 9).
///
/// The event is `Immune` of the foe if a type row of 0 has the move's type and a type of the foe. Otherwise it is
/// `Miss` of the user. It needs one free place in `events`. Nothing else changes.
pub fn note_miss<S: EventSink>(battle: &Packed, side: Side, id: MoveId, events: &mut S)
    requires room { HasRoom S.room 1 events.old }
    ensures shown { Does (looking S.tells battle events) false (note_miss side (move_at id)) }
    ensures room { AddsAtMost S.room 1 events.old events.new }
{
    events.push(miss_event(battle, side, id));
}

#[inline(always)] // docs/SPEED.md, "Hints on inlining"
fn miss_event(battle: &Packed, side: Side, id: MoveId) -> Event
    ensures stands { Reads battle.now result (miss_event side (move_at id)) }
{
    let foe = side.other();
    if is_immune(battle, foe, id.kind()) {
        return Event::Immune(battle.who(foe));
    }
    Event::Miss(battle.who(side))
}

// The base of the test (docs/MECHANICS.md, "Hit test", "Kept accuracy").
fn base_of(battle: &Packed, side: Side, id: MoveId, going_on: bool) -> u8
    ensures stands { Reads battle.now result λ f.
        (if going_on then (active_in side f).kept_accuracy else accuracy_byte (move_at id)) }
{
    if going_on {
        return battle.kept_accuracy(side);
    }
    id.accuracy_byte()
}

fn missed_after(hit: bool, missed: bool) -> bool
    ensures { result ≡ (if hit then missed else true) }
{
    !hit || missed
}
