//! What a side is shown of itself after each update (docs/MECHANICS.md, "What a side is shown of itself").
ghost use Rattle.std.specs.Prelude.{is_some, length, ◌≡◌, ◌≤◌};
ghost use Rattle.gen1_layout.specs.Words.{Reads, ReadsPacked, active_in, conditions_in, member_at, member_in, party, underway_in};
ghost use Rattle.gen1_layout.specs.Shows.{Stands};
ghost use Rattle.gen1_machine.specs.Layout.{number_of_bits};
ghost use Rattle.gen1_machine.specs.Rules.{bit_of};
ghost use Rattle.gen1_machine.specs.State.{State};
ghost use Rattle.gen1_player.specs.OwnSide.{IsListed, IsListedMember, is_present, nobody_out, own_active, own_conditions, own_member, own_side, plain_active, plain_member, plain_out, plain_side, shown_bits};

use bitflags::Flags;
use gen1_layout::offsets::{
    ACCURACY_STAGE, ATTACK_STAGE, DEFENSE_STAGE, DISABLED_SLOT, EVASION_STAGE, FIRST_TYPE, LEVEL,
    MOVES, PLACE, PP, SECOND_TYPE, SPECIAL_STAGE, SPECIES, SPEED_STAGE,
};
use gen1_layout::{Conditions, Packed, byte_of_outcome, byte_of_request, number_of_status};
use gen1_machine::Side;
use gen1_tables::Stat;

// The bit of Flinch (docs/LAYOUT.md, "Condition bits").
const FLINCH: u32 = 8;

/// A member of the own side; zeros if there is none.
#[repr(C)]
#[derive(Clone, Copy)]
pub struct OwnMember {
    /// 1 to 151.
    pub species: u8,
    /// 1 to 100.
    pub level: u8,
    /// The kind of its status, 1 to 5; 0 if it is healthy. A sleeping member shows no turns.
    pub status: u8,
    /// Always 0.
    pub unused: u8,
    /// The numbers of its moves by slot; 0 in an empty slot.
    pub moves: [u8; 4],
    /// The PP of its moves by slot, 0 to 63.
    pub pp: [u8; 4],
    /// 0 to its maximum.
    pub hp: u16,
    /// 11 to 999.
    pub max_hp: u16,
    /// Its own Attack, Defense, Speed and Special, 5 to 999.
    pub stats: [u16; 4],
}

/// What a side is shown of itself: its members by their places, and the active one (docs/MECHANICS.md, "What a side is shown of
/// itself"). Before the first update no member is active, and its fields are zeros.
#[repr(C)]
#[derive(Clone, Copy)]
pub struct OwnSide {
    /// By their places, from 1; those after `count` are zeros.
    pub members: [OwnMember; 6],
    /// The conditions of the active member (docs/LAYOUT.md, "Condition bits"), without the bit of Flinch.
    pub conditions: u32,
    /// Its Attack, Defense, Speed and Special with stages and penalties, 1 to 999.
    pub stats: [u16; 4],
    /// 0 to 9,999.
    pub turn: u16,
    /// The place of the active member, 1 to 6.
    pub place: u8,
    /// Its types, 0 to 14.
    pub types: [u8; 2],
    /// Its stages of Attack, Defense, Speed, Special, accuracy and evasion, 0 to 12, with 6 for an unchanged stage.
    pub stages: [u8; 6],
    /// Its slot that Disable blocks, 1 to 4; 0 for none.
    pub disabled_slot: u8,
    /// 1 if the foe's trapping move holds it, else 0.
    pub held: u8,
    /// What the side is asked for: 0 nothing, 1 a move, 2 a switch.
    pub request: u8,
    /// 0 to 5 (docs/LAYOUT.md, "Header").
    pub outcome: u8,
    /// How many members there are, 1 to 6.
    pub count: u8,
}

// What is shown of the active member.
#[derive(Clone, Copy)]
struct Out {
    conditions: u32,
    stats: [u16; 4],
    place: u8,
    types: [u8; 2],
    stages: [u8; 6],
    disabled_slot: u8,
}

/// Returns what a side is shown of itself. Of the foe this depends on one thing: whether its trapping is on.
pub fn own_side(battle: &Packed, side: Side) -> OwnSide
    ensures stands { (s : State) → Stands battle.now s → result ≡ plain_side (own_side side s.field) }
    // For any bytes, valid or not.
    ensures few { result.count ≤ 6 }
    ensures listed { IsListed result }
{
    let out = active(battle, side);
    let stats = out.stats;
    let types = out.types;
    let stages = out.stages;
    OwnSide {
        members: [
            member(battle, side, 1),
            member(battle, side, 2),
            member(battle, side, 3),
            member(battle, side, 4),
            member(battle, side, 5),
            member(battle, side, 6),
        ],
        conditions: out.conditions,
        stats,
        turn: battle.turn(),
        place: out.place,
        types,
        stages,
        disabled_slot: out.disabled_slot,
        held: held(battle, side),
        request: byte_of_request(battle.request(side)),
        outcome: byte_of_outcome(battle.outcome()),
        count: count(battle, side),
    }
}

fn member(battle: &Packed, side: Side, place: u8) -> OwnMember
    requires low { 1 ≤ place }
    requires high { place ≤ 6 }
    ensures packs { ReadsPacked battle.now result λ f. plain_member
        (own_member (member_at place (party side f))) }
    ensures listed { IsListedMember result }
{
    let block = battle.member(side, place);
    OwnMember {
        species: block[SPECIES],
        level: block[LEVEL],
        status: number_of_status(battle.status_at(side, place)),
        unused: 0,
        moves: [
            block[MOVES],
            block[MOVES + 1],
            block[MOVES + 2],
            block[MOVES + 3],
        ],
        pp: [block[PP], block[PP + 1], block[PP + 2], block[PP + 3]],
        hp: battle.hp_at(side, place),
        max_hp: battle.max_hp_at(side, place),
        stats: battle.own_stats_at(side, place),
    }
}

fn active(battle: &Packed, side: Side) -> Out
    ensures { (s : State) → Stands battle.now s
        → result ≡ plain_active (own_active (member_in side s.field) (active_in side s.field)) }
{
    if battle.turn() == 0 {
        nobody_out()
    } else {
        out_now(battle, side)
    }
}

fn nobody_out() -> Out
    ensures { result ≡ nobody_out }
{
    Out {
        conditions: 0,
        stats: [0; 4],
        place: 0,
        types: [0; 2],
        stages: [0; 6],
        disabled_slot: 0,
    }
}

fn out_now(battle: &Packed, side: Side) -> Out
    ensures { Reads battle.now result λ f. plain_out (own_active (member_in side f) (active_in side f)) }
{
    let block = battle.active(side);
    Out {
        conditions: shown_conditions(battle, side),
        stats: [
            battle.current_stat(side, Stat::Attack),
            battle.current_stat(side, Stat::Defense),
            battle.current_stat(side, Stat::Speed),
            battle.current_stat(side, Stat::Special),
        ],
        place: block[PLACE],
        types: [block[FIRST_TYPE], block[SECOND_TYPE]],
        stages: [
            block[ATTACK_STAGE],
            block[DEFENSE_STAGE],
            block[SPEED_STAGE],
            block[SPECIAL_STAGE],
            block[ACCURACY_STAGE],
            block[EVASION_STAGE],
        ],
        disabled_slot: block[DISABLED_SLOT],
    }
}

// All conditions but Flinch.
fn shown_conditions(battle: &Packed, side: Side) -> u32
    ensures { Reads battle.now result λ f. number_of_bits
        (shown_bits (own_conditions (conditions_in side f))) }
{
    let all = battle.conditions(side).bits();
    if battle.is_on(side, Conditions::FLINCH) {
        all.saturating_sub(FLINCH)
    } else {
        all
    }
}

// Whether the foe's trapping move holds the active member. Before the first update nothing does.
fn held(battle: &Packed, side: Side) -> u8
    ensures stands { (s : State) → Stands battle.now s → result ≡ bit_of (own_side side s.field).held }
    ensures flag { result ≤ 1 }
{
    if battle.turn() == 0 {
        0
    } else {
        traps(battle, side.other())
    }
}

fn traps(battle: &Packed, side: Side) -> u8
    ensures stands { Reads battle.now result λ f. bit_of (is_some (underway_in side f).trapping) }
    ensures flag { result ≤ 1 }
{
    if battle.is_on(side, Conditions::TRAPPING) {
        1
    } else {
        0
    }
}

// How many members there are: as many as places with a species.
fn count(battle: &Packed, side: Side) -> u8
    ensures packs { ReadsPacked battle.now result λ f. length (party side f).members }
    ensures few { result ≤ 6 }
{
    present(battle, side, 1)
        + present(battle, side, 2)
        + present(battle, side, 3)
        + present(battle, side, 4)
        + present(battle, side, 5)
        + present(battle, side, 6)
}

fn present(battle: &Packed, side: Side, place: u8) -> u8
    requires low { 1 ≤ place }
    requires high { place ≤ 6 }
    ensures small { result ≤ 1 }
    ensures packs { ReadsPacked battle.now result λ f. is_present (member_at place (party side f)) }
{
    if battle.species_at(side, place) == 0 {
        0
    } else {
        1
    }
}
