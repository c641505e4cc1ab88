//! The plain state of a battle (docs/LAYOUT.md, "Plain states").
ghost use Rattle.std.specs.Prelude.{All, ◌≡◌, ◌≤◌};
ghost use Rattle.gen1_layout.specs.Words.{Reads, ReadsPacked, active_in, member_at, member_in, party};
ghost use Rattle.gen1_stats.specs.declared.member.Status.{Status};
ghost use Rattle.gen1_machine.specs.State.{State};
ghost use Rattle.gen1_layout.specs.Shows.{Stands};
ghost use Rattle.gen1_states.specs.Reading.{HasKinds, IsCopied, active_now, active_state, member_state, no_active, side_state, sleep_of, state_of};

use crate::plain::{ActiveState, BattleState, MemberState, SideState};
use bitflags::Flags;
use gen1_layout::offsets::{
    ACCURACY_STAGE, ATTACK_STAGE, BAD_POISON, CONFUSED, CURRENT_MOVE, DEFENSE_STAGE, DISABLED_SLOT,
    DISABLED_TURNS, EVASION_STAGE, FIRST_TYPE, INDEX, KEPT_ACCURACY, LEVEL, MARK, MOVES, OUTCOME,
    PICKED_MOVE, PLACE, PP, REQUEST_ONE, REQUEST_TWO, RULES, SECOND_TYPE, SPECIAL_STAGE, SPECIES,
    SPEED_STAGE, SUBSTITUTE, TURNS,
};
use gen1_layout::{Packed, number_of_status};
use gen1_machine::Side;
use gen1_stats::Status;
use gen1_tables::Stat;

/// The state that a battle's bytes represent, every field of it.
pub fn state_of(battle: &Packed) -> BattleState
    ensures stands { (s : State) → Stands battle.now s → result ≡ state_of s }
    // For any bytes, valid or not.
    ensures copied { IsCopied battle.now.header result }
    ensures kinds { All HasKinds result.sides }
{
    let header = battle.header();
    BattleState {
        sides: [side_state(battle, Side::One), side_state(battle, Side::Two)],
        turn: battle.turn(),
        limit: battle.limit(),
        last_damage: battle.last_damage(),
        rules: header[RULES],
        outcome: header[OUTCOME],
        requests: [header[REQUEST_ONE], header[REQUEST_TWO]],
        index: header[INDEX],
        numbers: [
            header[6], header[7], header[8], header[9], header[10], header[11], header[12],
            header[13], header[14], header[15],
        ],
    }
}

fn side_state(battle: &Packed, side: Side) -> SideState
    ensures stands { (s : State) → Stands battle.now s → result ≡ side_state side s.field }
    ensures kinds { HasKinds result }
{
    SideState {
        members: [
            member_state(battle, side, 1),
            member_state(battle, side, 2),
            member_state(battle, side, 3),
            member_state(battle, side, 4),
            member_state(battle, side, 5),
            member_state(battle, side, 6),
        ],
        active: active_now(battle, side),
    }
}

fn member_state(battle: &Packed, side: Side, place: u8) -> MemberState
    requires low { 1 ≤ place }
    requires high { place ≤ 6 }
    ensures packs { ReadsPacked battle.now result λ f. member_state (member_at place (party side f)) }
    ensures kind { result.status ≤ 5 }
{
    let block = battle.member(side, place);
    let status = battle.status_at(side, place);
    MemberState {
        species: block[SPECIES],
        level: block[LEVEL],
        status: number_of_status(status),
        sleep: sleep_of(status),
        marked: block[MARK],
        moves: [
            block[MOVES],
            block[MOVES + 1],
            block[MOVES + 2],
            block[MOVES + 3],
        ],
        pp: [block[PP], block[PP + 1], block[PP + 2], block[PP + 3]],
        hp: battle.hp_at(side, place),
        max_hp: battle.max_hp_at(side, place),
        stats: battle.own_stats_at(side, place),
    }
}

fn sleep_of(status: Status) -> u8
    ensures { result ≡ sleep_of status }
{
    match status {
        Status::Asleep { turns, marked: _ } => turns,
        _ => 0,
    }
}

fn active_now(battle: &Packed, side: Side) -> ActiveState
    ensures { (s : State) → Stands battle.now s → result ≡ active_now side s.field }
{
    if battle.turn() == 0 {
        no_active()
    } else {
        active_state(battle, side)
    }
}

fn no_active() -> ActiveState
    ensures { result ≡ no_active }
{
    ActiveState {
        conditions: 0,
        stats: [0; 4],
        energy: 0,
        place: 0,
        types: [0; 2],
        stages: [0; 6],
        current_move: 0,
        picked_move: 0,
        kept_accuracy: 0,
        substitute: 0,
        confusion: 0,
        disabled_slot: 0,
        disabled_turns: 0,
        bad_poison: 0,
        turns: 0,
    }
}

fn active_state(battle: &Packed, side: Side) -> ActiveState
    ensures stands { Reads battle.now result λ f. active_state (member_in side f)
        (active_in side f) }
{
    let block = battle.active(side);
    ActiveState {
        conditions: battle.conditions(side).bits(),
        stats: [
            battle.current_stat(side, Stat::Attack),
            battle.current_stat(side, Stat::Defense),
            battle.current_stat(side, Stat::Speed),
            battle.current_stat(side, Stat::Special),
        ],
        energy: battle.energy(side),
        place: block[PLACE],
        types: [block[FIRST_TYPE], block[SECOND_TYPE]],
        stages: [
            block[ATTACK_STAGE],
            block[DEFENSE_STAGE],
            block[SPEED_STAGE],
            block[SPECIAL_STAGE],
            block[ACCURACY_STAGE],
            block[EVASION_STAGE],
        ],
        current_move: block[CURRENT_MOVE],
        picked_move: block[PICKED_MOVE],
        kept_accuracy: block[KEPT_ACCURACY],
        substitute: block[SUBSTITUTE],
        confusion: block[CONFUSED],
        disabled_slot: block[DISABLED_SLOT],
        disabled_turns: block[DISABLED_TURNS],
        bad_poison: block[BAD_POISON],
        turns: block[TURNS],
    }
}
