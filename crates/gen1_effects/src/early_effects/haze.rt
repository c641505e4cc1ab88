//! Haze, and stages that go back to the middle, with the stats there (docs/MECHANICS.md, "Early effects", "Stages").
ghost use Rattle.gen1_machine.specs.EarlyEffects.{clear_side, cure_kind, haze, haze_cures, with_levelled_stats};
ghost use Rattle.gen1_machine.specs.Progress.{given};
ghost use Rattle.gen1_layout.specs.Operations.{Does, quiet, scene};
ghost use Rattle.gen1_layout.specs.Words.{AddsAtMost, Changes, Event, HasRoom, List, changed_active, false, status_of, stop, true, ◌▸◌};
ghost use Rattle.gen1_hits.specs.Knowing.{IsUncounted, aware};

use gen1_events::EventSink;
use gen1_hits::Known;
use gen1_layout::Packed;
use gen1_machine::{Event, Kind, Side};
use gen1_stats::Status;
use gen1_tables::Stat;

pub(super) fn haze<S: EventSink>(battle: &mut Packed, side: Side, known: &mut Known, events: &mut S)
    requires room { HasRoom S.room 2 events.old }
    ensures shown { Does (aware known (scene S.tells battle events)) true (haze side ▸ stop) }
    ensures counts { IsUncounted known.old → IsUncounted known.new }
    ensures room { AddsAtMost S.room 2 events.old events.new }
{
    clear_side(battle, Side::One);
    clear_side(battle, Side::Two);
    events.push(Event::ClearAll);
    cure(battle, side.other(), known, events);
}

fn clear_side(battle: &mut Packed, side: Side)
    ensures { (told : List Event) → Does (quiet told battle) false (clear_side side) }
{
    reset_stages(battle, side);
    battle.clear_by_haze(side);
}

// Cures the member of `side`. It is skipped if it was asleep or frozen.
fn cure<S: EventSink>(battle: &mut Packed, side: Side, known: &mut Known, events: &mut S)
    requires room { HasRoom S.room 1 events.old }
    ensures shown { Does (aware known (scene S.tells battle events)) false
        (given (status_of side) (haze_cures side)) }
    ensures counts { IsUncounted known.old → IsUncounted known.new }
    ensures room { AddsAtMost S.room 1 events.old events.new }
{
    known.skips = battle.status(side).sleeps_or_freezes();
    cure_kind(battle, side, battle.kind(side), events);
}

fn cure_kind<S: EventSink>(battle: &mut Packed, side: Side, kind: Option<Kind>, events: &mut S)
    requires room { HasRoom S.room 1 events.old }
    ensures shown { Does (scene S.tells battle events) false (cure_kind side kind) }
    ensures room { AddsAtMost S.room 1 events.old events.new }
{
    if let Some(kind) = kind {
        battle.put_status(side, Status::Healthy);
        events.push(Event::Cure(battle.who(side), kind));
    }
}

const MIDDLE: u8 = 6;

// In the middle each stat is the member's own, without penalties.
fn reset_stages(battle: &mut Packed, side: Side)
    ensures stands { Changes battle.old battle.new (changed_active side with_levelled_stats) }
{
    let attack = battle.unmodified(side, Stat::Attack);
    battle.put_attack(side, MIDDLE, attack);
    let defense = battle.unmodified(side, Stat::Defense);
    battle.put_defense(side, MIDDLE, defense);
    let speed = battle.unmodified(side, Stat::Speed);
    battle.put_speed(side, MIDDLE, speed);
    let special = battle.unmodified(side, Stat::Special);
    battle.put_special(side, MIDDLE, special);
    battle.put_accuracy(side, MIDDLE);
    battle.put_evasion(side, MIDDLE);
}
