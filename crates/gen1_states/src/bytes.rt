//! The 384 bytes of a plain state (docs/LAYOUT.md, "The 384 bytes of a battle"). A state with wrong fields has bytes too,
//! which loading refuses.
ghost use Rattle.std.specs.Prelude.{◌+◌, ◌++◌, ◌≡◌, ◌≤◌, length};
ghost use Rattle.gen1_machine.specs.Layout.{high_byte, low_byte};
ghost use Rattle.gen1_states.specs.Laws.{IsPlainActive, IsPlainMember, IsPlainSide};
ghost use Rattle.gen1_states.specs.Plain.{active_bytes, awake_byte, bytes_of, first_side, header_bytes, member_bytes, second_side, side_after, status_byte};

use crate::plain::{
    ActiveState, BattleState, MemberState, SideState, first_side, member_at, second_side,
};
use arrayvec::ArrayVec;

const NO_STATUS: u8 = 255;

pub(crate) type Bytes = ArrayVec<u8, 384>;

/// The bytes of a state whose current stats are complete.
#[tactic(auto, unfolding(crate::specs::Plain::bytes_of))]
pub(crate) fn bytes_of(state: &BattleState) -> Bytes
    ensures value { result.items ≡ bytes_of state.now }
    ensures one { IsPlainSide (first_side state.now) }
    ensures two { IsPlainSide (second_side state.now) }
{
    let mut bytes = Bytes::new();
    put(&mut bytes, &header_bytes(state));
    put_side(&mut bytes, first_side(state));
    put_side(&mut bytes, second_side(state));
    bytes
}

#[tactic(auto, unfolding(crate::specs::Plain::side_after))]
fn put_side(bytes: &mut Bytes, side: &SideState)
    requires { length bytes.old.items + 180 ≤ 384 }
    ensures items { bytes.new.items ≡ side_after bytes.old.items side.now }
    ensures len { length bytes.new.items ≡ length bytes.old.items + 180 }
    ensures plain { IsPlainSide side.now }
{
    put(bytes, &member_bytes(member_at(side, 0)));
    put(bytes, &member_bytes(member_at(side, 1)));
    put(bytes, &member_bytes(member_at(side, 2)));
    put(bytes, &member_bytes(member_at(side, 3)));
    put(bytes, &member_bytes(member_at(side, 4)));
    put(bytes, &member_bytes(member_at(side, 5)));
    put(bytes, &active_bytes(&side.active));
}

fn put(bytes: &mut Bytes, part: &[u8])
    requires { length bytes.old.items + length part.now ≤ 384 }
    ensures items { bytes.new.items ≡ bytes.old.items ++ part.now }
    ensures len { length bytes.new.items ≡ length bytes.old.items + length part.now }
{
    let _fits = bytes.try_extend_from_slice(part);
}

fn header_bytes(state: &BattleState) -> [u8; 24]
    ensures { result ≡ header_bytes state.now }
{
    let numbers = &state.numbers;
    [
        3,
        low(state.turn),
        high(state.turn),
        low(state.last_damage),
        high(state.last_damage),
        state.index,
        numbers[0],
        numbers[1],
        numbers[2],
        numbers[3],
        numbers[4],
        numbers[5],
        numbers[6],
        numbers[7],
        numbers[8],
        numbers[9],
        state.outcome,
        state.requests[0],
        state.requests[1],
        state.rules,
        low(state.limit),
        high(state.limit),
        0,
        0,
    ]
}

fn member_bytes(member: &MemberState) -> [u8; 24]
    ensures value { result ≡ member_bytes member.now }
    ensures plain { IsPlainMember member.now }
{
    let (stats, moves, pp) = (&member.stats, &member.moves, &member.pp);
    [
        member.species,
        member.level,
        low(member.max_hp),
        high(member.max_hp),
        low(member.hp),
        high(member.hp),
        low(stats[0]),
        high(stats[0]),
        low(stats[1]),
        high(stats[1]),
        low(stats[2]),
        high(stats[2]),
        low(stats[3]),
        high(stats[3]),
        status_byte(member.status, member.sleep),
        moves[0],
        moves[1],
        moves[2],
        moves[3],
        pp[0],
        pp[1],
        pp[2],
        pp[3],
        member.marked,
    ]
}

// The byte of a kind of status and a count of sleep. One that no member has gives 255, which loading refuses.
fn status_byte(kind: u8, sleep: u8) -> u8
    ensures { result ≡ status_byte kind sleep }
{
    if kind == 1 {
        if 1 <= sleep && sleep <= 7 {
            sleep
        } else {
            NO_STATUS
        }
    } else if sleep == 0 {
        awake_byte(kind)
    } else {
        NO_STATUS
    }
}

fn awake_byte(kind: u8) -> u8
    ensures { result ≡ awake_byte kind }
{
    match kind {
        0 => 0,
        2 => 8,
        3 => 16,
        4 => 32,
        5 => 64,
        _ => NO_STATUS,
    }
}

fn active_bytes(active: &ActiveState) -> [u8; 36]
    ensures value { result ≡ active_bytes active.now }
    ensures plain { IsPlainActive active.now }
{
    let (types, stages, stats) = (&active.types, &active.stages, &active.stats);
    let conditions = active.conditions;
    [
        active.place,
        types[0],
        types[1],
        stages[0],
        stages[1],
        stages[2],
        stages[3],
        stages[4],
        stages[5],
        low(stats[0]),
        high(stats[0]),
        low(stats[1]),
        high(stats[1]),
        low(stats[2]),
        high(stats[2]),
        low(stats[3]),
        high(stats[3]),
        (conditions % 256) as u8,
        (conditions / 256 % 256) as u8,
        (conditions / 65536 % 256) as u8,
        (conditions / 65536 / 256 % 256) as u8,
        active.substitute,
        active.confusion,
        active.disabled_slot,
        active.disabled_turns,
        active.bad_poison,
        active.turns,
        low(active.energy),
        high(active.energy),
        active.current_move,
        active.picked_move,
        active.kept_accuracy,
        0,
        0,
        0,
        0,
    ]
}

fn low(number: u16) -> u8
    ensures { result ≡ low_byte number }
{
    (number % 256) as u8
}

fn high(number: u16) -> u8
    ensures { result ≡ high_byte number }
{
    (number / 256) as u8
}
