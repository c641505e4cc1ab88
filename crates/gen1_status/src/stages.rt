//! A stage, and the stat at it with the effect of paralysis and a burn. Stages that rise and fall in battle
//! (docs/MECHANICS.md, "Stages", "Penalties", "Stage shift").
ghost use Rattle.std.specs.Prelude.{◌≡◌, ◌≤◌};
ghost use Rattle.gen1_machine.specs.CurrentStats.{recomputed_at};
ghost use Rattle.gen1_machine.specs.Stages.{stage_number};
ghost use Rattle.gen1_machine.specs.StageShift.{lower_stage, note_boost, note_unboost, raise_stage, shift_to, stands_at};
ghost use Rattle.gen1_layout.specs.Words.{Active, AddsAtMost, Changes, Event, Field, HasRoom, IsBetween, List, Reads, Setting, Within, active_in, changed_active, false, has_number, member_in, now, true, with_penalty_of, ℕ};
ghost use Rattle.gen1_layout.specs.Operations.{Does, looking, quiet};
ghost use Rattle.gen1_status.specs.StageShift.{IsShift, Shifts, shift_stage, with_stage_after};

use gen1_events::EventSink;
use gen1_layout::Packed;
use gen1_machine::{Event, Side, StageCount, now};
use gen1_stats::Status;
use gen1_tables::Stat;

// Whether a current stat has this value. Accuracy and evasion have no value.
fn stands_at(battle: &Packed, side: Side, stat: Stat, value: u16) -> bool
    ensures stands { Reads battle.now result (stands_at value stat side) }
{
    has_number(stat) && battle.current_stat(side, stat) == value
}

fn has_number(stat: Stat) -> bool
    ensures { result ≡ has_number stat }
{
    !matches!(stat, Stat::Accuracy | Stat::Evasion)
}

// Writes a stage, and the stat at it, for a stat that has a value.
fn put_stage(battle: &mut Packed, side: Side, stat: Stat, stage: u8, value: u16)
    ensures stands { (g : Setting) (f : Field) (change : Active → Active) (penalties : ℕ)
        → Within g battle.old f
        → change (active_in side f) ≡ with_stage_after stat stage penalties (active_in side f)
        → (has_number stat ≡ true → value ≡ now stat (member_in side f) (change (active_in side f)))
        → stage ≤ 12
        → Within g battle.new (changed_active side change f) }
{
    match stat {
        Stat::Attack => battle.put_attack(side, stage, value),
        Stat::Defense => battle.put_defense(side, stage, value),
        Stat::Speed => battle.put_speed(side, stage, value),
        Stat::Special => battle.put_special(side, stage, value),
        Stat::Accuracy => battle.put_accuracy(side, stage),
        Stat::Evasion => battle.put_evasion(side, stage),
    }
}

// Recomputes the stat at a stage from the member's own stat, without penalties.
fn recompute(battle: &mut Packed, side: Side, stat: Stat, stage: u8)
    ensures stands { (g : Setting) (f : Field) → Within g battle.old f → stage ≤ 12
        → Within g battle.new (changed_active side (recomputed_at stat stage) f) }
{
    let unmodified = battle.unmodified(side, stat);
    put_stage(
        battle,
        side,
        stat,
        stage,
        now(unmodified, signed(stage), stat, 0),
    );
}

// A stage from 0 to 12 as one from -6 to 6.
fn signed(stage: u8) -> i8
    ensures { stage ≤ 12 → stage_number result ≡ stage }
{
    stage.min(12) as i8 - 6
}

/// Applies the penalty of a status to the member of `side` that is out, once more (docs/MECHANICS.md, "Penalties").
///
/// Paralysis quarters its current Speed, and a burn halves its current Attack, each to at least 1. Other statuses
/// have no penalty, and nothing changes. The stage stays as it is. The status need not be the member's own.
pub fn take_penalty(battle: &mut Packed, side: Side, status: Status)
    ensures stands { Changes battle.old battle.new (changed_active side (with_penalty_of status)) }
{
    match status {
        Status::Paralysed => {
            let stage = battle.stage(side, Stat::Speed);
            let speed = battle.current_stat(side, Stat::Speed);
            battle.put_speed(side, stage, (speed / 4).max(1));
        }
        Status::Burned => {
            let stage = battle.stage(side, Stat::Attack);
            let attack = battle.current_stat(side, Stat::Attack);
            battle.put_attack(side, stage, (attack / 2).max(1));
        }
        Status::Healthy => {}
        Status::Asleep { .. } => {}
        Status::Poisoned => {}
        Status::Frozen => {}
    }
}

// In the bytes, stages are numbered 0 to 12, and 6 is the middle.
const LOWEST_STAGE: u8 = 0;

const HIGHEST_STAGE: u8 = 12;

const LOWEST_STAT: u16 = 1;

const HIGHEST_STAT: u16 = 999;

/// Shifts a stage of `target`, which is `user` or its foe, and returns whether that succeeds (docs/MECHANICS.md,
/// "Stage shift").
///
/// `by` is 1 or 2 for a rise, and -1 or -2 for a fall. The contract covers no other numbers, and no move has any.
/// [`raise_stage`] and [`lower_stage`] say when a shift succeeds. Any further effect of a failure, such as `Fail`, is
/// left to the caller. It needs one free place in `events`.
pub fn shift_stage<S: EventSink>(
    battle: &mut Packed,
    user: Side,
    target: Side,
    stat: Stat,
    by: i8,
    events: &mut S,
) -> bool
    requires room { HasRoom S.room 1 events.old }
    ensures shown { IsShift by
        → Shifts battle.old (S.tells events.old) battle.new (S.tells events.new) result
        (shift_stage user target stat by) }
    ensures room { AddsAtMost S.room 1 events.old events.new }
{
    let stages = by.unsigned_abs();
    if by > 0 {
        raise_stage(battle, user, target, stat, stages, events)
    } else {
        lower_stage(battle, user, target, stat, stages, events)
    }
}

/// Raises a stage of `target` by 1 or 2, to at most +6, and returns whether that succeeds (docs/MECHANICS.md, "Stage
/// shift").
///
/// The stat is recomputed without its penalties. Then the foe of `user` takes the penalty of its status once more,
/// whatever the stat was, and `Boost` is written.
///
/// At +6 the rise fails, and nothing changes. With a stat of 999 it fails too: the stat stays, its stage rises and
/// falls back by 1, and `Boost` is written if that is a change. It needs one free place in `events`.
pub fn raise_stage<S: EventSink>(
    battle: &mut Packed,
    user: Side,
    target: Side,
    stat: Stat,
    by: u8,
    events: &mut S,
) -> bool
    requires room { HasRoom S.room 1 events.old }
    ensures shown { IsBetween 1 2 by
        → Shifts battle.old (S.tells events.old) battle.new (S.tells events.new) result
        (raise_stage user target stat by) }
    ensures room { AddsAtMost S.room 1 events.old events.new }
{
    let stage = battle.stage(target, stat);
    if stage >= HIGHEST_STAGE {
        return false;
    }
    let raised = stage.saturating_add(by).min(HIGHEST_STAGE);
    if stands_at(battle, target, stat, HIGHEST_STAT) {
        let fallen_back = raised.saturating_sub(1);
        let net = fallen_back.saturating_sub(stage);
        put_stage(battle, target, stat, fallen_back, HIGHEST_STAT);
        note_boost(battle, target, stat, net, events);
        return false;
    }
    shift_to(battle, user, target, stat, raised);
    note_boost(battle, target, stat, raised.saturating_sub(stage), events);
    true
}

/// Lowers a stage of `target` by 1 or 2, to at least -6, and returns whether that succeeds (docs/MECHANICS.md, "Stage
/// shift").
///
/// The stat is recomputed without its penalties. Then the foe of `user` takes the penalty of its status once more,
/// whatever the stat was, and `Unboost` is written.
///
/// At -6 the fall fails, and nothing changes. With a stat of 1 it fails too: the stat stays, its stage falls and
/// rises back by 1, and `Unboost` is written if that is a change. It needs one free place in `events`.
pub fn lower_stage<S: EventSink>(
    battle: &mut Packed,
    user: Side,
    target: Side,
    stat: Stat,
    by: u8,
    events: &mut S,
) -> bool
    requires room { HasRoom S.room 1 events.old }
    ensures shown { IsBetween 1 2 by
        → Shifts battle.old (S.tells events.old) battle.new (S.tells events.new) result
        (lower_stage user target stat by) }
    ensures room { AddsAtMost S.room 1 events.old events.new }
{
    let stage = battle.stage(target, stat);
    if stage == LOWEST_STAGE {
        return false;
    }
    let lowered = stage.saturating_sub(by);
    if stands_at(battle, target, stat, LOWEST_STAT) {
        let risen_back = lowered.saturating_add(1);
        let net = stage.saturating_sub(risen_back);
        put_stage(battle, target, stat, risen_back, LOWEST_STAT);
        note_unboost(battle, target, stat, net, events);
        return false;
    }
    shift_to(battle, user, target, stat, lowered);
    note_unboost(battle, target, stat, stage.saturating_sub(lowered), events);
    true
}

// Recomputes a stat at its new stage. Then the user's foe takes its penalty once more.
fn shift_to(battle: &mut Packed, user: Side, target: Side, stat: Stat, stage: u8)
    ensures { (told : List Event) → stage ≤ 12 → Does (quiet told battle) false
        (shift_to user target stat stage) }
{
    recompute(battle, target, stat, stage);
    let foe = user.other();
    let status = battle.status(foe);
    take_penalty(battle, foe, status);
}

// Writes by how much a stage rose, if it rose.
fn note_boost<S: EventSink>(battle: &Packed, side: Side, stat: Stat, stages: u8, events: &mut S)
    requires room { HasRoom S.room 1 events.old }
    ensures shown { stages ≤ 2 → Does (looking S.tells battle events) false
        (note_boost side stat stages) }
    ensures room { AddsAtMost S.room 1 events.old events.new }
{
    if let Some(count) = StageCount::new(stages) {
        events.push(Event::Boost(battle.who(side), stat, count));
    }
}

// Writes by how much a stage fell, if it fell.
fn note_unboost<S: EventSink>(battle: &Packed, side: Side, stat: Stat, stages: u8, events: &mut S)
    requires room { HasRoom S.room 1 events.old }
    ensures shown { stages ≤ 2 → Does (looking S.tells battle events) false
        (note_unboost side stat stages) }
    ensures room { AddsAtMost S.room 1 events.old events.new }
{
    if let Some(count) = StageCount::new(stages) {
        events.push(Event::Unboost(battle.who(side), stat, count));
    }
}
