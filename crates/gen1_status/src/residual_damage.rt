//! The damage of poison, a burn and Leech Seed (docs/MECHANICS.md, "Residual damage").
ghost use Rattle.std.specs.Prelude.{◌||◌, ◌≡◌, ◌≤◌};
ghost use Rattle.gen1_layout.specs.Operations.{Does, quiet, scene};
ghost use Rattle.gen1_layout.specs.Words.{AddsAtMost, Event, HasRoom, List, Reads, conditions_in, false, is_living, member_in, status_in};
ghost use Rattle.gen1_machine.specs.Conditions.{one_more};
ghost use Rattle.gen1_machine.specs.ResidualDamage.{residual, residual_in, suffer, suffer_seed, suffer_status, times_poisoned, worsen};
ghost use Rattle.gen1_stats.specs.declared.member.Status.{Status as StatusOf};
ghost use Rattle.gen1_machine.specs.Layout.{status_byte};
ghost use Rattle.gen1_machine.specs.Rules.{Rules};
ghost use Rattle.gen1_machine.specs.Valid.{IsStatus};
ghost use Rattle.gen1_status.specs.Statuses.{takes_hp};

use gen1_events::EventSink;
use gen1_hits::{gain_hp, lose_hp};
use gen1_layout::offsets::STATUS;
use gen1_layout::{Conditions, Packed};
use gen1_machine::{DamageSource, Side};
use gen1_stats::Status;

// The status bytes of poisoned and burned members have one of these bits. No other status byte has.
const POISONED_OR_BURNED: u8 = 0x18;

/// Applies poison or a burn, and then Leech Seed, to the member of `side` that is out, unless it has fallen already
/// (docs/MECHANICS.md, "Residual damage").
///
/// Each takes a 16th of its maximum HP, at least 1, or all HP that are left. With bad poison, each of the two first
/// raises the counter by 1, to at most 64, and takes that many times as much.
///
/// The seed heals the foe by the full amount, even if the member had less HP left. `Damage` is written for what is
/// taken, and `Heal` for what the foe gains. It needs three free places in `events`.
#[inline(always)] // docs/SPEED.md, "Hints on inlining"
pub fn residual<S: EventSink>(battle: &mut Packed, side: Side, events: &mut S)
    requires room { HasRoom S.room 3 events.old }
    ensures shown { Does (scene S.tells battle events) false (residual side) }
    ensures room { AddsAtMost S.room 3 events.old events.new }
{
    if !suffers(battle, side) {
        return;
    }
    if !is_living(battle, side) {
        return;
    }
    suffer_status(battle, side, battle.status(side), events);
    if !battle.is_on(side, Conditions::SEEDED) {
        return;
    }
    suffer_seed(battle, side, events);
}

/// Whether poison, a burn or Leech Seed takes anything from the member of `side` that is out while it lives
/// (docs/MECHANICS.md, "Residual damage"). Most members have none of them.
pub fn suffers(battle: &Packed, side: Side) -> bool
    ensures stands { Reads battle.now result λ f.
        (takes_hp (status_in side f) || (conditions_in side f).seeded) }
{
    if takes_hp(battle.member_out(side)[STATUS]) {
        return true;
    }
    battle.is_on(side, Conditions::SEEDED)
}

// By the byte of a member's status.
#[tactic(auto, using(crate::proofs::Statuses::takes))]
fn takes_hp(byte: u8) -> bool
    ensures { (rules : Rules) (status : StatusOf) → IsStatus rules status
        → byte ≡ status_byte status → result ≡ takes_hp status }
{
    byte & POISONED_OR_BURNED != 0
}

fn is_living(battle: &Packed, side: Side) -> bool
    ensures stands { Reads battle.now result λ f. is_living (member_in side f) }
{
    0 < battle.hp(side)
}

// The damage of a status. Only poison and a burn have any.
fn suffer_status<S: EventSink>(battle: &mut Packed, side: Side, status: Status, events: &mut S)
    requires room { HasRoom S.room 1 events.old }
    ensures shown { Does (scene S.tells battle events) false (suffer_status side status) }
    ensures room { AddsAtMost S.room 1 events.old events.new }
{
    match status {
        Status::Poisoned => suffer(battle, side, DamageSource::Poison, events),
        Status::Burned => suffer(battle, side, DamageSource::Burn, events),
        Status::Healthy => {}
        Status::Asleep { .. } => {}
        Status::Frozen => {}
        Status::Paralysed => {}
    }
}

#[inline(never)] // docs/SPEED.md, "Hints on inlining"
fn suffer<S: EventSink>(battle: &mut Packed, side: Side, source: DamageSource, events: &mut S)
    requires room { HasRoom S.room 1 events.old }
    ensures shown { Does (scene S.tells battle events) false (suffer side source) }
    ensures room { AddsAtMost S.room 1 events.old events.new }
{
    worsen(battle, side);
    let amount = residual_amount(battle, side);
    lose_hp(battle, side, source, amount, events);
}

// The foe heals by the full amount, even if the member had less HP left.
fn suffer_seed<S: EventSink>(battle: &mut Packed, side: Side, events: &mut S)
    requires room { HasRoom S.room 2 events.old }
    ensures shown { Does (scene S.tells battle events) false (suffer_seed side) }
    ensures room { AddsAtMost S.room 2 events.old events.new }
{
    worsen(battle, side);
    let amount = residual_amount(battle, side);
    lose_hp(battle, side, DamageSource::LeechSeed, amount, events);
    gain_hp(battle, side.other(), amount, events);
}

// The counter of bad poison rises, if there is one.
fn worsen(battle: &mut Packed, side: Side)
    ensures { (told : List Event) → Does (quiet told battle) false (worsen side) }
{
    let count = battle.bad_poison(side);
    battle.put_bad_poison(side, one_more(count));
}

fn one_more(count: Option<u8>) -> Option<u8>
    ensures { result ≡ one_more count }
{
    match count {
        Some(count) => Some(count.saturating_add(1).min(64)),
        None => None,
    }
}

// A 16th of the maximum HP, times the counter for a badly poisoned member.
fn residual_amount(battle: &Packed, side: Side) -> u16
    ensures stands { Reads battle.now result (residual_in side) }
{
    let sixteenth = (battle.max_hp(side) / 16).max(1);
    sixteenth.saturating_mul(times_poisoned(battle.bad_poison(side)))
}

fn times_poisoned(count: Option<u8>) -> u16
    ensures value { result ≡ times_poisoned count }
    ensures byte { result ≤ 255 }
{
    match count {
        Some(count) => u16::from(count),
        None => 1,
    }
}
