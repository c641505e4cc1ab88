//! Moves that act after the damage step: they raise and lower stages, put the foe to sleep, and more (docs/MECHANICS.md,
//! "Late effects", "Rules (sleep clause, freeze clause)", "Stage shift").
ghost use Rattle.std.specs.Prelude.{◌≡◌};
ghost use Rattle.gen1_tables.specs.Effects.{bides};
ghost use Rattle.gen1_rolls.specs.Draws.{Steps};
ghost use Rattle.gen1_machine.specs.LateEffects.{is_late, late_effect, lower_foes_stat, put_to_sleep, ready_to_sleep};
ghost use Rattle.gen1_machine.specs.Ruling.{fall_asleep, is_sleep_count, sleep_for, sleep_only_one};
ghost use Rattle.gen1_machine.specs.Progress.{fail, fails_if, is_invulnerable};
ghost use Rattle.gen1_machine.specs.StageShift.{lower_stage, raise_stage};
ghost use Rattle.gen1_layout.specs.Operations.{Does, DoesWhere, Draws, DrawsWhere, anything, holding, scene, under};
ghost use Rattle.gen1_layout.specs.Words.{AddsAtMost, HasRoom, IsBetween, false, move_at, other, stop, true, ◌▸◌};
ghost use Rattle.gen1_hits.specs.Knowing.{Leaves, aware, beginning};
ghost use Rattle.gen1_status.specs.Gate.{IsUntied};

use gen1_events::EventSink;
use gen1_hits::{Known, must_hit};
use gen1_layout::{Conditions, Packed};
use gen1_machine::{Kind, Side};
use gen1_rolls::{ByteTest, Look, Rolls};
use gen1_stats::Status;
use gen1_status::{fail, has_marked_sleeper, inflict_status, lower_stage, raise_stage, start_bide};
use gen1_tables::{Effect, MoveId, Stat};

/// Whether an effect is late, so that [`group_two`] handles it: it raises a stat of the user, lowers a stat of the foe,
/// puts the foe to sleep, or begins Bide (docs/MECHANICS.md, "Late effects").
pub fn is_late(effect: Effect) -> bool
    ensures { result ≡ is_late effect }
{
    matches!(
        effect,
        Effect::StatUp(..) | Effect::StatDown(..) | Effect::InflictSleep | Effect::Bide
    )
}

/// Plays a move of `side` that raises a stat of the user, lowers a stat of the foe, puts the foe to sleep, or begins
/// Bide (docs/MECHANICS.md, "Late effects").
///
/// The action has just begun. The hit test, if there is one, and a count of sleep or of Bide's turns are drawn. It needs
/// two free places in `events`. The effect changes nothing else. Where Bide begins, neither thrashing nor
/// trapping of `side` may be underway.
pub fn group_two<R: Rolls, S: EventSink>(
    battle: &mut Packed,
    side: Side,
    id: MoveId,
    random: &mut R,
    events: &mut S,
)
    requires room { HasRoom S.room 2 events.old }
    requires tie { is_late (move_at id).effect ≡ true }
    ensures shown { Leaves R.drawing random
        (holding λ p. bides (move_at id).effect ≡ true → IsUntied side p)
        (beginning side (scene S.tells battle events))
        (λ r. late_effect r side (move_at id) (move_at id).effect) }
    ensures room { AddsAtMost S.room 2 events.old events.new }
    ensures steps { Steps R.drawing random }
{
    let mut known = Known::new().begun(side);
    group_two_knowing(battle, side, id, &mut known, random, events);
}

/// Does what [`group_two`] does in the middle of an action, of which more may be known. The action ends with it
/// (docs/MECHANICS.md, "Action").
pub fn group_two_knowing<R: Rolls, S: EventSink>(
    battle: &mut Packed,
    side: Side,
    id: MoveId,
    known: &mut Known,
    random: &mut R,
    events: &mut S,
)
    requires room { HasRoom S.room 2 events.old }
    requires tie { is_late (move_at id).effect ≡ true }
    ensures shown { DrawsWhere R.drawing random
        (holding λ p. bides (move_at id).effect ≡ true → IsUntied side p)
        (aware known (scene S.tells battle events)) true
        (λ r. late_effect r side (move_at id) (move_at id).effect ▸ stop) }
    ensures room { AddsAtMost S.room 2 events.old events.new }
    ensures steps { Steps R.drawing random }
{
    match id.effect() {
        Effect::StatUp(stat, by) => {
            raise_own_stat(battle, side, stat, by, events);
        }
        Effect::StatDown(stat, by) => {
            lower_foes_stat(battle, side, id, stat, by, known, random, events);
        }
        Effect::InflictSleep => {
            put_to_sleep(battle, side, id, known, random, events);
        }
        Effect::Bide => start_bide(battle, side, random, events),
        // `tie` leaves no other effect.
        _ => unreachable!(),
    }
}

// Returns whether it fails or misses, which an event reports.
fn put_to_sleep<R: Rolls, S: EventSink>(
    battle: &mut Packed,
    side: Side,
    id: MoveId,
    known: &mut Known,
    random: &mut R,
    events: &mut S,
) -> bool
    requires room { HasRoom S.room 2 events.old }
    ensures shown { DrawsWhere R.drawing random anything (aware known (scene S.tells battle events))
        result (λ r. put_to_sleep r side (move_at id)) }
    ensures room { AddsAtMost S.room 2 events.old events.new }
    ensures steps { Steps R.drawing random }
{
    if ready_to_sleep(battle, side, id, known, random, events) {
        return true;
    }
    sleep_by_rules(battle, side, random, events)
}

// A foe that has to recharge loses its recharging, and takes no other test.
fn ready_to_sleep<R: Rolls, S: EventSink>(
    battle: &mut Packed,
    side: Side,
    id: MoveId,
    known: &mut Known,
    random: &mut R,
    events: &mut S,
) -> bool
    requires room { HasRoom S.room 1 events.old }
    ensures shown { Draws R.drawing random (aware known (scene S.tells battle events)) result
        (ready_to_sleep side (move_at id)) }
    ensures room { AddsAtMost S.room 1 events.old events.new }
    ensures steps { Steps R.drawing random }
{
    let foe = side.other();
    if battle.is_on(foe, Conditions::RECHARGE) {
        battle.put_flag(foe, Conditions::RECHARGE, false);
        return false;
    }
    if !battle.status(foe).is_healthy() {
        fail(battle, side, events);
        return true;
    }
    must_hit(battle, side, id, known, random, events)
}

// What a sleep move does after it has hit, by the rules of the battle.
fn sleep_by_rules<R: Rolls, S: EventSink>(
    battle: &mut Packed,
    side: Side,
    random: &mut R,
    events: &mut S,
) -> bool
    requires room { HasRoom S.room 1 events.old }
    ensures shown { DrawsWhere R.drawing random anything (scene S.tells battle events) result
        (λ r. r.sleeps side) }
    ensures room { AddsAtMost S.room 1 events.old events.new }
    ensures steps { Steps R.drawing random }
{
    if battle.sleep_clause() {
        return sleep_only_one(battle, side, random, events);
    }
    fall_asleep(battle, side.other(), false, random, events);
    false
}

// Under the sleep clause, at most one living member of the foe's side sleeps by the user's moves.
fn sleep_only_one<R: Rolls, S: EventSink>(
    battle: &mut Packed,
    side: Side,
    random: &mut R,
    events: &mut S,
) -> bool
    requires room { HasRoom S.room 1 events.old }
    ensures shown { DrawsWhere R.drawing random (under λ t. t.rules.sleep_clause ≡ true)
        (scene S.tells battle events) result (λ r. sleep_only_one side) }
    ensures room { AddsAtMost S.room 1 events.old events.new }
    ensures steps { Steps R.drawing random }
{
    let foe = side.other();
    if has_marked_sleeper(battle, foe) {
        fail(battle, side, events);
        return true;
    }
    fall_asleep(battle, foe, true, random, events);
    false
}

// Draws until a byte gives a count for the sleep, which is marked under the sleep clause.
#[inline(always)] // docs/SPEED.md, "Hints on inlining"
fn fall_asleep<R: Rolls, S: EventSink>(
    battle: &mut Packed,
    side: Side,
    marked: bool,
    random: &mut R,
    events: &mut S,
)
    requires room { HasRoom S.room 1 events.old }
    ensures shown { DrawsWhere R.drawing random (under λ t. t.rules.sleep_clause ≡ marked)
        (scene S.tells battle events) false (λ r. fall_asleep marked side) }
    ensures room { AddsAtMost S.room 1 events.old events.new }
    ensures steps { Steps R.drawing random }
{
    let Some(byte) = random.until_as(ByteTest::NotMultiple(8), Look::Remainder(8)) else {
        // Each byte from 0 to 255 is drawn, and most of them give a count.
        unreachable!();
    };
    sleep_for(battle, side, marked, byte, events);
}

// A sleep of 1 to 7 turns, by the drawn byte.
fn sleep_for<S: EventSink>(battle: &mut Packed, side: Side, marked: bool, byte: u8, events: &mut S)
    requires room { HasRoom S.room 1 events.old }
    ensures shown { is_sleep_count byte ≡ true → DoesWhere (under λ t. t.rules.sleep_clause ≡ marked)
        (scene S.tells battle events) false (λ r. sleep_for marked side byte) }
    ensures room { AddsAtMost S.room 1 events.old events.new }
{
    let turns = byte % 8;
    let status = Status::Asleep { turns, marked };
    inflict_status(battle, side, status, Kind::Sleep, events);
}

// Raises a stat of the user by 1 or 2 stages. Returns whether it fails, which an event reports.
fn raise_own_stat<S: EventSink>(
    battle: &mut Packed,
    side: Side,
    stat: Stat,
    by: u8,
    events: &mut S,
) -> bool
    requires room { HasRoom S.room 2 events.old }
    ensures shown { IsBetween 1 2 by → Does (scene S.tells battle events) result
        (raise_stage side side stat by (fail side)) }
    ensures room { AddsAtMost S.room 2 events.old events.new }
{
    if raise_stage(battle, side, side, stat, by, events) {
        return false;
    }
    fail(battle, side, events);
    true
}

// Lowers a stat of the foe by 1 or 2 stages. Returns whether it fails or misses, which an event reports.
fn lower_foes_stat<R: Rolls, S: EventSink>(
    battle: &mut Packed,
    side: Side,
    id: MoveId,
    stat: Stat,
    by: u8,
    known: &mut Known,
    random: &mut R,
    events: &mut S,
) -> bool
    requires room { HasRoom S.room 2 events.old }
    ensures shown { IsBetween 1 2 by → Draws R.drawing random
        (aware known (scene S.tells battle events)) result (lower_foes_stat side (move_at id) stat by) }
    ensures room { AddsAtMost S.room 2 events.old events.new }
    ensures steps { Steps R.drawing random }
{
    let foe = side.other();
    if battle.is_on(foe, Conditions::SUBSTITUTE) {
        fail(battle, side, events);
        return true;
    }
    if must_hit(battle, side, id, known, random, events) {
        return true;
    }
    lower_unless_away(battle, side, stat, by, events)
}

// What follows the hit test.
fn lower_unless_away<S: EventSink>(
    battle: &mut Packed,
    side: Side,
    stat: Stat,
    by: u8,
    events: &mut S,
) -> bool
    requires room { HasRoom S.room 2 events.old }
    ensures shown { IsBetween 1 2 by → Does (scene S.tells battle events) result
        (fails_if side (is_invulnerable (other side)) ▸ lower_stage side (other side) stat by
        (fail side)) }
    ensures room { AddsAtMost S.room 2 events.old events.new }
{
    let foe = side.other();
    if battle.is_on(foe, Conditions::INVULNERABLE) {
        fail(battle, side, events);
        return true;
    }
    if lower_stage(battle, side, foe, stat, by, events) {
        return false;
    }
    fail(battle, side, events);
    true
}
