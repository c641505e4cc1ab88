//! What follows the hit of a move that makes one; and what follows a miss: a crash, or an explosion (docs/MECHANICS.md,
//! "Recoil, drain and explosion", "Action", step 9).
ghost use Rattle.std.specs.Prelude.{max, ◌/◌, ◌≡◌};
ghost use Rattle.gen1_tables.specs.Effects.{crashes, explodes, hits_more};
ghost use Rattle.gen1_machine.specs.HitEffects.{drain, explode, hit_effect, recoil, recoil_of, start_rage};
ghost use Rattle.gen1_machine.specs.ManyHits.{crash, missed_move};
ghost use Rattle.gen1_machine.specs.Progress.{only};
ghost use Rattle.gen1_layout.specs.Operations.{Does, quiet, scene};
ghost use Rattle.gen1_layout.specs.Words.{AddsAtMost, Event, Event as EventOf, HasRoom, List, false, move_at, true};
ghost use Rattle.gen1_multiturn.specs.MoveHits.{consequence_of};

use gen1_events::EventSink;
use gen1_hits::{gain_hp, lose_hp, note_miss};
use gen1_layout::{Conditions, Packed};
use gen1_machine::{DamageSource, Event, Side, Volatile};
use gen1_tables::{Effect, MoveId, STRUGGLE};

// What follows a hit.
#[derive(Clone, Copy)]
pub(crate) enum Consequence {
    Recoil,
    Drain,
    Rage,
    Explosion,
    Nothing,
}

// At most one event is written.
pub(crate) fn hit_effect<S: EventSink>(battle: &mut Packed, side: Side, id: MoveId, events: &mut S)
    requires room { HasRoom S.room 1 events.old }
    requires one { hits_more (move_at id).effect ≡ false }
    ensures shown { Does (scene S.tells battle events) false
        (hit_effect side (move_at id) (move_at id).effect) }
    ensures room { AddsAtMost S.room 1 events.old events.new }
{
    match consequence_of(id.effect()) {
        Consequence::Recoil => recoil(battle, side, id, events),
        Consequence::Drain => drain(battle, side, events),
        Consequence::Rage => start_rage(battle, side, events),
        Consequence::Explosion => explode(battle, side),
        Consequence::Nothing => {}
    }
}

fn consequence_of(effect: Effect) -> Consequence
    ensures { result ≡ consequence_of effect }
{
    match effect {
        Effect::Recoil => Consequence::Recoil,
        Effect::Drain => Consequence::Drain,
        Effect::DreamEater => Consequence::Drain,
        Effect::Rage => Consequence::Rage,
        Effect::Explode => Consequence::Explosion,
        _ => Consequence::Nothing,
    }
}

// The recoil takes the user's HP even if it has a Substitute.
fn recoil<S: EventSink>(battle: &mut Packed, side: Side, id: MoveId, events: &mut S)
    requires room { HasRoom S.room 1 events.old }
    ensures shown { Does (scene S.tells battle events) false (recoil side (move_at id)) }
    ensures room { AddsAtMost S.room 1 events.old events.new }
{
    let amount = recoil_of(id, battle.last_damage());
    lose_hp(battle, side, DamageSource::Recoil, amount, events);
}

// A quarter of the damage, or half of it for Struggle, and at least 1.
fn recoil_of(id: MoveId, damage: u16) -> u16
    ensures { result ≡ recoil_of (move_at id) damage }
{
    let part = if id.number() == STRUGGLE {
        damage / 2
    } else {
        damage / 4
    };
    part.max(1)
}

// The user heals by half of the damage. That half becomes the last damage.
fn drain<S: EventSink>(battle: &mut Packed, side: Side, events: &mut S)
    requires room { HasRoom S.room 1 events.old }
    ensures shown { Does (scene S.tells battle events) false (drain side) }
    ensures room { AddsAtMost S.room 1 events.old events.new }
{
    let half = half_of(battle.last_damage());
    battle.put_last_damage(half);
    gain_hp(battle, side, half, events);
}

fn half_of(damage: u16) -> u16
    ensures { result ≡ max 1 (damage / 2) }
{
    (damage / 2).max(1)
}

// The user's own Rage, which never ends by itself.
fn start_rage<S: EventSink>(battle: &mut Packed, side: Side, events: &mut S)
    requires room { HasRoom S.room 1 events.old }
    ensures shown { Does (scene S.tells battle events) false (start_rage side) }
    ensures room { AddsAtMost S.room 1 events.old events.new }
{
    if battle.is_on(side, Conditions::RAGE) {
        return;
    }
    battle.put_flag(side, Conditions::RAGE, true);
    events.push(Event::Start(battle.who(side), Volatile::Rage));
}

// The user falls. No event reports that.
fn explode(battle: &mut Packed, side: Side)
    ensures shown { (events : List EventOf) → Does (quiet events battle) false (explode side) }
{
    battle.put_fallen(side);
    battle.put_flag(side, Conditions::SEEDED, false);
}

/// Reports that a move of `side` has missed, which ends its action (docs/MECHANICS.md, "Action", step 9).
///
/// It writes `Immune` of the foe or `Miss` of the user. After Jump Kick and High Jump Kick the user loses 1 HP, even
/// with a Substitute, with `Damage`, and the last damage becomes 1. After Self-Destruct and Explosion the user's HP
/// become 0, and its status and Seeded are cleared. It needs two free places in `events`. Nothing else changes.
#[inline(always)] // docs/SPEED.md, "Hints on inlining"
pub fn missed_move<S: EventSink>(battle: &mut Packed, side: Side, id: MoveId, events: &mut S)
    requires room { HasRoom S.room 2 events.old }
    ensures shown { Does (scene S.tells battle events) true (missed_move side (move_at id)) }
    ensures room { AddsAtMost S.room 2 events.old events.new }
{
    note_miss(battle, side, id, events);
    crash(battle, side, id.effect(), events);
    explode_if(battle, side, id.effect());
}

// A kick that misses costs its user 1 HP.
fn crash<S: EventSink>(battle: &mut Packed, side: Side, effect: Effect, events: &mut S)
    requires room { HasRoom S.room 1 events.old }
    ensures shown { Does (scene S.tells battle events) false (only (crashes effect) (crash side)) }
    ensures room { AddsAtMost S.room 1 events.old events.new }
{
    if !crashes(effect) {
        return;
    }
    lose_hp(battle, side, DamageSource::Direct, 1, events);
    battle.put_last_damage(1);
}

fn crashes(effect: Effect) -> bool
    ensures { result ≡ crashes effect }
{
    matches!(effect, Effect::CrashOnMiss)
}

fn explode_if(battle: &mut Packed, side: Side, effect: Effect)
    ensures shown { (told : List Event) → Does (quiet told battle) false
        (only (explodes effect) (explode side)) }
{
    if effect.explodes() {
        explode(battle, side);
    }
}
