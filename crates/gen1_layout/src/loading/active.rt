//! The test of the active blocks, without their current stats (docs/LAYOUT.md, "Active block", "Condition bits").
ghost use Rattle.std.specs.Prelude.{◌≡◌, ◌↔◌, ◌<◌, ◌&&◌, ◌||◌, ◌==◌, IsTrue, length};
ghost use Rattle.gen1_machine.specs.Valid.{OnlyWith};
ghost use Rattle.gen1_layout.specs.Loading.{active_bytes, long, word, PassesOfActives, effect_in, has, CountFits, DisabledFits, HoldsMove, PassesActive, PassesActiveAt, PassesCounts, PassesFixed, PassesOut, PassesProgress, PassesStages, PassesUnderway, TurnsFit, UsedFits};

use crate::condition_bits::{
    BAD_POISON, BIDE, CHARGING, CONFUSED, DISABLED, RAGE, RECHARGE, SUBSTITUTE, THRASH, TRAPPING,
};
use crate::loading::{active_bytes, are_zero, long, member_bytes, word};
use crate::offsets;
use crate::offsets::{
    ACCURACY_STAGE, ATTACK_STAGE, BEFORE_MOVES, CONDITIONS, CURRENT_MOVE, DEFENSE_STAGE,
    DISABLED_SLOT, DISABLED_TURNS, ENERGY, EVASION_STAGE, FIRST_TYPE, KEPT_ACCURACY, PICKED_MOVE,
    PLACE_IN_SIDE, SECOND_TYPE, SPECIAL_STAGE, SPECIES, SPEED_STAGE, TURN, TURNS,
};
use gen1_tables::{Effect, MoveId};

// Whether both sides have valid active blocks.
pub(crate) fn pass(form: &[u8]) -> bool
    requires { length form.now ≡ 384 }
    ensures { IsTrue result ↔ PassesOfActives form.now }
{
    let turn = word(form, TURN);
    is_active_at(&form[24..204], turn) && is_active_at(&form[204..384], turn)
}

// Whether no member is out at turn 0, and a valid member is out from turn 1 on.
fn is_active_at(side: &[u8], turn: u16) -> bool
    requires { length side.now ≡ 180 }
    ensures { IsTrue result ↔ PassesActiveAt turn side.now }
{
    if turn == 0 {
        are_zero(active_bytes(side))
    } else {
        is_active(side)
    }
}

fn is_active(side: &[u8]) -> bool
    requires { length side.now ≡ 180 }
    ensures { IsTrue result ↔ PassesActive side.now }
{
    let place = side[PLACE_IN_SIDE];
    if !(1..=6).contains(&place) {
        return false;
    }
    let member = member_bytes(side, place);
    member[SPECIES] != 0 && is_out(member, active_bytes(side))
}

fn is_out(member: &[u8], active: &[u8]) -> bool
    requires member { length member.now ≡ 24 }
    requires active { length active.now ≡ 36 }
    ensures passes { IsTrue result ↔ PassesOut member.now active.now }
{
    has_fixed(active)
        && has_counts(member, active)
        && has_progress(active)
        && is_used(member, active[CURRENT_MOVE])
        && is_used(member, active[PICKED_MOVE])
        && is_underway(effect_in(member, active[CURRENT_MOVE]), active)
}

// Whether the fields that depend on no other part are in their ranges.
fn has_fixed(active: &[u8]) -> bool
    requires { length active.now ≡ 36 }
    ensures { IsTrue result ↔ PassesFixed active.now }
{
    active[FIRST_TYPE] <= 14
        && active[SECOND_TYPE] <= 14
        && are_stages(active)
        && long(active, CONDITIONS) < 1 << 17
        && long(active, KEPT_ACCURACY + 1) == 0
}

fn are_stages(active: &[u8]) -> bool
    requires { length active.now ≡ 36 }
    ensures { IsTrue result ↔ PassesStages active.now }
{
    active[ATTACK_STAGE] <= 12
        && active[DEFENSE_STAGE] <= 12
        && active[SPEED_STAGE] <= 12
        && active[SPECIAL_STAGE] <= 12
        && active[ACCURACY_STAGE] <= 12
        && active[EVASION_STAGE] <= 12
}

// Whether a condition is on, by the place of its bit.
fn has(active: &[u8], bit: u32) -> bool
    requires active { length active.now ≡ 36 }
    requires bit { bit < 32 }
    ensures value { result ≡ has bit active.now }
{
    (long(active, CONDITIONS) >> bit) % 2 == 1
}

// Whether the conditions with counts have their numbers.
fn has_counts(member: &[u8], active: &[u8]) -> bool
    requires member { length member.now ≡ 24 }
    requires active { length active.now ≡ 36 }
    ensures passes { IsTrue result ↔ PassesCounts member.now active.now }
{
    is_count(has(active, SUBSTITUTE), 0, 249, active[offsets::SUBSTITUTE])
        && is_count(has(active, CONFUSED), 1, 5, active[offsets::CONFUSED])
        && is_disabled(
            has(active, DISABLED),
            member,
            active[DISABLED_SLOT],
            active[DISABLED_TURNS],
        )
        && is_count(has(active, BAD_POISON), 0, 64, active[offsets::BAD_POISON])
}

// Whether what is underway has its numbers.
fn has_progress(active: &[u8]) -> bool
    requires { length active.now ≡ 36 }
    ensures { IsTrue result ↔ PassesProgress active.now }
{
    let (bide, thrash) = (has(active, BIDE), has(active, THRASH));
    are_turns(either(bide, thrash), has(active, TRAPPING), active[TURNS])
        && is_energy(bide, word(active, ENERGY))
        && is_count(
            either(has(active, RAGE), thrash),
            1,
            255,
            active[KEPT_ACCURACY],
        )
}

fn either(one: bool, other: bool) -> bool
    ensures { result ≡ (one || other) }
{
    one || other
}

fn is_energy(bide: bool, energy: u16) -> bool
    ensures { IsTrue result ↔ CountFits bide 0 65535 energy }
{
    bide || energy == 0
}

// Whether a count is in its range if its condition is on, and 0 otherwise.
fn is_count(on: bool, low: u8, high: u8, count: u8) -> bool
    ensures { IsTrue result ↔ CountFits on low high count }
{
    if on {
        low <= count && count <= high
    } else {
        count == 0
    }
}

// Whether the turns are those of Bide or thrashing, or otherwise those of trapping.
fn are_turns(long: bool, trapping: bool, turns: u8) -> bool
    ensures { IsTrue result ↔ TurnsFit long trapping turns }
{
    if long {
        is_count(true, 1, 3, turns)
    } else {
        is_count(trapping, 0, 4, turns)
    }
}

fn is_disabled(on: bool, member: &[u8], slot: u8, turns: u8) -> bool
    requires { length member.now ≡ 24 }
    ensures { IsTrue result ↔ DisabledFits on member.now slot turns }
{
    if on {
        holds_move(member, slot) && is_count(true, 1, 8, turns)
    } else {
        slot == 0 && turns == 0
    }
}

fn holds_move(member: &[u8], slot: u8) -> bool
    requires { length member.now ≡ 24 }
    ensures { IsTrue result ↔ HoldsMove member.now slot }
{
    (1..=4).contains(&slot) && member[BEFORE_MOVES + slot as usize] != 0
}

// Whether a byte is 0 for no move, 5 for Struggle, or a slot that holds a move.
fn is_used(member: &[u8], used: u8) -> bool
    requires { length member.now ≡ 24 }
    ensures { IsTrue result ↔ UsedFits member.now used }
{
    used == 0 || used == 5 || holds_move(member, used)
}

// Whether what is underway belongs to a current move with this effect.
fn is_underway(effect: Effect, active: &[u8]) -> bool
    requires { length active.now ≡ 36 }
    ensures { IsTrue result ↔ PassesUnderway effect active.now }
{
    is_explained(effect.bides(), has(active, BIDE))
        && is_explained(effect.thrashes(), has(active, THRASH))
        && is_explained(effect.traps(), has(active, TRAPPING))
        && is_explained(effect.charges(), has(active, CHARGING))
        && is_explained(effect.recharges(), has(active, RECHARGE))
        && is_explained(effect.rages(), has(active, RAGE))
}

fn is_explained(explained: bool, on: bool) -> bool
    ensures { IsTrue result ↔ OnlyWith explained on }
{
    !on || explained
}

// The effect of the move in a slot. No slot has none, and neither has Struggle's.
fn effect_in(member: &[u8], slot: u8) -> Effect
    requires { length member.now ≡ 24 }
    ensures { result ≡ effect_in member.now slot }
{
    let id = if (1..=4).contains(&slot) {
        member[BEFORE_MOVES + slot as usize]
    } else {
        0
    };
    match MoveId::new(id) {
        Some(used) => used.effect(),
        None => Effect::DamageOnly,
    }
}
