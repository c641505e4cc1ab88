//! The active members, as far as a player knows them (docs/MECHANICS.md, "A battle that fits").
ghost use Rattle.std.specs.Prelude.{Bool, [], false, if◌then◌else◌, min, slice_index, ◌&&◌, ◌*◌, ◌+◌, ◌/◌, ◌<◌, ◌∷◌, ◌≡◌, ◌≤◌, ◌||◌};
ghost use Rattle.gen1_tables.specs.Effects.{bides, charges, rages, recharges, traps};
ghost use Rattle.gen1_layout.specs.Loading.{effect_of_number};
ghost use Rattle.gen1_machine.specs.Layout.{number_of_bits};
ghost use Rattle.gen1_machine.specs.Rules.{bit_of};
ghost use Rattle.gen1_states.specs.Plain.{on};
ghost use Rattle.gen1_guesses.specs.Forks.{active_state, blocked_slot, foe_bits, foe_known, has, is_free, is_on, of_moves, own_known, used_slot};

use gen1_layout::condition_bits::{
    BAD_POISON, BIDE, CONFUSED, DISABLED, RAGE, SUBSTITUTE, THRASH, TRAPPING,
};
use gen1_player::{OwnSide, PublicSide};
use gen1_states::{ActiveState, MemberState};
use gen1_tables::{Effect, MoveId};

// The number of Struggle, and of its place among the slots.
const STRUGGLE: u8 = 165;

const STRUGGLE_SLOT: u8 = 5;

/// What is known of an active member.
#[derive(Clone, Copy)]
pub(crate) struct Known {
    pub(crate) conditions: u32,
    /// Zeros if they are to be computed.
    pub(crate) stats: [u16; 4],
    pub(crate) place: u8,
    pub(crate) types: [u8; 2],
    pub(crate) stages: [u8; 6],
    pub(crate) disabled_slot: u8,
    /// The counter of bad poison.
    pub(crate) bad_poison: u8,
    /// The number of the move that it used or prepared last; 0 for none.
    pub(crate) last_move: u8,
}

/// The player's own active member: as it was shown, and as the log made public.
pub(crate) fn own_known(own: &OwnSide, seen: &PublicSide) -> Known
    ensures { result ≡ own_known own.now seen.now }
{
    Known {
        conditions: own.conditions,
        stats: own.stats,
        place: own.place,
        types: own.types,
        stages: own.stages,
        disabled_slot: own.disabled_slot,
        bad_poison: seen.announced.toxic_count,
        last_move: seen.last_move,
    }
}

/// The foe's active member: as the log made it public. It has Trapping on if the player is held.
pub(crate) fn foe_known(foe: &PublicSide, held: bool, member: &MemberState) -> Known
    ensures { result ≡ foe_known foe.now held member.now }
{
    let stages = foe.stages;
    Known {
        conditions: foe_conditions(foe, held),
        stats: [0; 4],
        place: foe.place,
        types: [foe.first_type, foe.second_type],
        stages: [
            stages.attack,
            stages.defense,
            stages.speed,
            stages.special,
            stages.accuracy,
            stages.evasion,
        ],
        disabled_slot: on(
            is_on(foe.announced.disabled),
            blocked_slot(member, foe.last_move),
        ),
        bad_poison: foe.announced.toxic_count,
        last_move: foe.last_move,
    }
}

// The sum of the conditions that are known of the foe.
fn foe_conditions(foe: &PublicSide, held: bool) -> u32
    ensures { result ≡ number_of_bits (foe_bits foe.now held) }
{
    moves_sum(foe, held) + counted_sum(foe) + free_sum(foe)
}

// Of conditions that belong to a move, those that the last move explains.
fn moves_sum(foe: &PublicSide, held: bool) -> u32
    ensures value { result ≡ of_moves foe.now held }
    ensures small { result ≤ 3093 }
{
    let on = &foe.announced;
    let effect = effect_of(foe.last_move);
    bit(is_on(on.bide) && effect.bides())
        + 4 * bit(held && effect.traps())
        + 16 * bit(is_on(on.charging) && effect.charges())
        + 1024 * bit(is_on(on.recharging) && effect.recharges())
        + 2048 * bit(is_on(on.rage) && effect.rages())
}

fn counted_sum(foe: &PublicSide) -> u32
    ensures value { result ≡ 64 * bit_of (is_on foe.now.announced.confused) + 512 * bit_of (is_on foe.now.announced.substitute)
        + 8192 * bit_of (is_on foe.now.announced.toxic) + 65536 * bit_of (is_on foe.now.announced.disabled) }
    ensures small { result ≤ 74304 }
{
    let on = &foe.announced;
    64 * bit(is_on(on.confused))
        + 512 * bit(is_on(on.substitute))
        + 8192 * bit(is_on(on.toxic))
        + 65536 * bit(is_on(on.disabled))
}

fn free_sum(foe: &PublicSide) -> u32
    ensures value { result ≡ is_free foe.now }
    ensures small { result ≤ 53664 }
{
    let on = &foe.announced;
    32 * bit(is_on(foe.invulnerable))
        + 128 * bit(is_on(on.mist))
        + 256 * bit(is_on(on.focus_energy))
        + 4096 * bit(is_on(on.seeded))
        + 16384 * bit(is_on(on.light_screen))
        + 32768 * bit(is_on(on.reflect))
}

fn bit(holds: bool) -> u32
    ensures value { result ≡ bit_of holds }
    ensures small { result ≤ 1 }
{
    if holds { 1 } else { 0 }
}

pub(crate) fn is_on(flag: u8) -> bool
    ensures { result ≡ is_on flag }
{
    flag != 0
}

fn effect_of(id: u8) -> Effect
    ensures { result ≡ effect_of_number id }
{
    match MoveId::new(id) {
        Some(used) => used.effect(),
        None => Effect::DamageOnly,
    }
}

// The slot that Disable blocks: the first with PP left whose move is not the last one, else the first.
fn blocked_slot(member: &MemberState, last_move: u8) -> u8
    ensures { result ≡ blocked_slot member.now last_move }
{
    let (ids, pp) = (&member.moves, &member.pp);
    if pp[0] != 0 && ids[0] != last_move {
        1
    } else if pp[1] != 0 && ids[1] != last_move {
        2
    } else if pp[2] != 0 && ids[2] != last_move {
        3
    } else if pp[3] != 0 && ids[3] != last_move {
        4
    } else {
        1
    }
}

/// The active member, with middle values of the hidden counts.
pub(crate) fn active_state(known: &Known, member: &MemberState) -> ActiveState
    ensures { result ≡ active_state known.now member.now }
{
    let conditions = known.conditions;
    let (thrash, rage) = (has(conditions, THRASH), has(conditions, RAGE));
    let counts = has(conditions, BIDE) || thrash || has(conditions, TRAPPING);
    let used = used_slot(known.last_move, &member.moves);
    let quarter = (member.max_hp / 4).min(249) as u8;
    ActiveState {
        conditions,
        stats: known.stats,
        energy: 0,
        place: known.place,
        types: known.types,
        stages: known.stages,
        current_move: used,
        picked_move: used,
        kept_accuracy: on(thrash || rage, 255),
        substitute: on(has(conditions, SUBSTITUTE), quarter),
        confusion: on(has(conditions, CONFUSED), 3),
        disabled_slot: known.disabled_slot,
        disabled_turns: on(has(conditions, DISABLED), 4),
        bad_poison: on(has(conditions, BAD_POISON), known.bad_poison),
        turns: on(counts, 2),
    }
}

// The slot of the last move: 5 for Struggle, 0 for no move, and for one that is in no slot.
fn used_slot(id: u8, ids: &[u8; 4]) -> u8
    ensures { result ≡ used_slot id ids.now }
{
    if id == 0 {
        0
    } else if id == STRUGGLE {
        STRUGGLE_SLOT
    } else if ids[0] == id {
        1
    } else if ids[1] == id {
        2
    } else if ids[2] == id {
        3
    } else if ids[3] == id {
        4
    } else {
        0
    }
}

// Whether a condition is on, by the place of its bit.
fn has(conditions: u32, bit: u32) -> bool
    requires { bit < 32 }
    ensures { result ≡ has conditions bit }
{
    (conditions >> bit) % 2 == 1
}

// A count that applies if something holds, and otherwise 0.
fn on(holds: bool, count: u8) -> u8
    ensures { result ≡ on holds count }
{
    if holds { count } else { 0 }
}
