//! The tests of the active members, without their current stats (docs/LAYOUT.md, "Active block", "Condition bits").
//! At turn 0 no member is out, and all fields are 0.
ghost use Rattle.std.specs.Prelude.{◌<◌, ◌≡◌, ◌≤◌};
ghost use Rattle.gen1_states.specs.Plain.{within};
ghost use Rattle.gen1_states.specs.Tests.{count_tests, current_effect, fixed_tests, has, member_out, members_in, moves_in, place_test, progress_tests, stage_tests, tested_active, tested_block, tied_test, tied_tests, used_test, used_tests};

use crate::fault::{StateFault, StateField, Test, at, first_of, on, ruled, within};
use crate::member_tests::is_there;
use crate::plain::{ActiveState, MemberState, SideState, member_at};
use gen1_tables::{Effect, MoveId};

// The places of the condition bits that have a number or belong to the current move.
const BIDE: u32 = 0;

const THRASH: u32 = 1;

const TRAPPING: u32 = 2;

const CHARGING: u32 = 4;

const CONFUSED: u32 = 6;

const SUBSTITUTE: u32 = 9;

const RECHARGE: u32 = 10;

const RAGE: u32 = 11;

const BAD_POISON: u32 = 13;

const DISABLED: u32 = 16;

/// The first field of a side's active member that is wrong, from turn 1 on or at turn 0.
pub(crate) fn test_active(side: &SideState, number: u8, begun: bool) -> Result<(), StateFault>
    ensures { result ≡ tested_active side.now number begun }
{
    at(number, 0, test_block(side, begun))
}

#[tactic(auto, unfolding(crate::specs::Tests::tested_block))]
fn test_block(side: &SideState, begun: bool) -> Result<(), Test>
    ensures { result ≡ tested_block side.now begun }
{
    let active = &side.active;
    let member = member_out(side);
    first_of(&[place_test(side, begun)])?;
    first_of(&fixed_tests(active, begun))?;
    first_of(&stage_tests(active, begun))?;
    first_of(&count_tests(active, moves_in(member)))?;
    first_of(&progress_tests(active))?;
    first_of(&used_tests(active, moves_in(member), begun))?;
    first_of(&tied_tests(active, current_effect(member, active.current_move)))
}

/// The member that is out; the first for a place that is none.
pub(crate) fn member_out(side: &SideState) -> &MemberState
    ensures { result.now ≡ member_out side.now }
{
    let place = side.active.place;
    let index = if place <= 6 {
        place.saturating_sub(1)
    } else {
        0
    };
    member_at(side, usize::from(index))
}

fn place_test(side: &SideState, begun: bool) -> Test
    ensures { result ≡ place_test side.now begun }
{
    within(
        StateField::Place,
        0,
        u32::from(side.active.place),
        on(begun, 1),
        on(begun, members_in(side)),
    )
}

// How many members a side has.
fn members_in(side: &SideState) -> u32
    ensures { result ≡ members_in side.now }
{
    on(is_there(member_at(side, 0)), 1)
        + on(is_there(member_at(side, 1)), 1)
        + on(is_there(member_at(side, 2)), 1)
        + on(is_there(member_at(side, 3)), 1)
        + on(is_there(member_at(side, 4)), 1)
        + on(is_there(member_at(side, 5)), 1)
}

// How many moves a member knows.
fn moves_in(member: &MemberState) -> u32
    ensures value { result ≡ moves_in member.now }
    ensures few { result ≤ 4 }
{
    on(member.moves[0] != 0, 1)
        + on(member.moves[1] != 0, 1)
        + on(member.moves[2] != 0, 1)
        + on(member.moves[3] != 0, 1)
}

fn fixed_tests(active: &ActiveState, begun: bool) -> [Test; 3]
    ensures { result ≡ fixed_tests active.now begun }
{
    [
        within(
            StateField::Type,
            1,
            u32::from(active.types[0]),
            0,
            on(begun, 14),
        ),
        within(
            StateField::Type,
            2,
            u32::from(active.types[1]),
            0,
            on(begun, 14),
        ),
        within(
            StateField::Conditions,
            0,
            active.conditions,
            0,
            on(begun, 131071),
        ),
    ]
}

fn stage_tests(active: &ActiveState, begun: bool) -> [Test; 6]
    ensures { result ≡ stage_tests active.now begun }
{
    let most = on(begun, 12);
    [
        within(StateField::Stage, 1, u32::from(active.stages[0]), 0, most),
        within(StateField::Stage, 2, u32::from(active.stages[1]), 0, most),
        within(StateField::Stage, 3, u32::from(active.stages[2]), 0, most),
        within(StateField::Stage, 4, u32::from(active.stages[3]), 0, most),
        within(StateField::Stage, 5, u32::from(active.stages[4]), 0, most),
        within(StateField::Stage, 6, u32::from(active.stages[5]), 0, most),
    ]
}

// Whether a condition is on, by the place of its bit.
fn has(active: &ActiveState, bit: u32) -> bool
    requires { bit < 32 }
    ensures { result ≡ has active.now bit }
{
    (active.conditions >> bit) % 2 == 1
}

// The conditions with counts, for a member that knows this many moves.
fn count_tests(active: &ActiveState, moves: u32) -> [Test; 5]
    ensures { result ≡ count_tests active.now moves }
{
    let (confused, disabled) = (has(active, CONFUSED), has(active, DISABLED));
    let slot = u32::from(active.disabled_slot);
    let turns = u32::from(active.disabled_turns);
    [
        count_test(
            StateField::Substitute,
            active.substitute,
            0,
            on(has(active, SUBSTITUTE), 249),
        ),
        count_test(
            StateField::Confusion,
            active.confusion,
            on(confused, 1),
            on(confused, 5),
        ),
        within(
            StateField::DisabledSlot,
            0,
            slot,
            on(disabled, 1),
            on(disabled, moves),
        ),
        within(
            StateField::DisabledTurns,
            0,
            turns,
            on(disabled, 1),
            on(disabled, 8),
        ),
        count_test(
            StateField::BadPoison,
            active.bad_poison,
            0,
            on(has(active, BAD_POISON), 64),
        ),
    ]
}

fn count_test(field: StateField, count: u8, low: u32, high: u32) -> Test
    ensures { result ≡ within field 0 count low high }
{
    within(field, 0, u32::from(count), low, high)
}

// The numbers of what is underway. Bide and thrashing have 1 to 3 turns left, trapping has 0 to 4.
fn progress_tests(active: &ActiveState) -> [Test; 3]
    ensures { result ≡ progress_tests active.now }
{
    let (bide, thrash) = (has(active, BIDE), has(active, THRASH));
    let long = bide || thrash;
    let most = if long {
        3
    } else {
        on(has(active, TRAPPING), 4)
    };
    let keeps = has(active, RAGE) || thrash;
    let energy = u32::from(active.energy);
    [
        count_test(StateField::Turns, active.turns, on(long, 1), most),
        within(StateField::Energy, 0, energy, 0, on(bide, 65535)),
        count_test(
            StateField::KeptAccuracy,
            active.kept_accuracy,
            on(keeps, 1),
            on(keeps, 255),
        ),
    ]
}

fn used_tests(active: &ActiveState, moves: u32, begun: bool) -> [Test; 2]
    ensures { result ≡ used_tests active.now moves begun }
{
    [
        used_test(StateField::CurrentMove, active.current_move, moves, begun),
        used_test(StateField::PickedMove, active.picked_move, moves, begun),
    ]
}

// 0 for no move, 5 for Struggle, or a slot that holds a move.
fn used_test(field: StateField, used: u8, moves: u32, begun: bool) -> Test
    ensures { result ≡ used_test field used moves begun }
{
    let used = u32::from(used);
    ruled(
        within(field, 0, used, 0, on(begun, 5)),
        used == 5 || used <= moves,
    )
}

// What is underway belongs to a current move with this effect.
fn tied_tests(active: &ActiveState, effect: Effect) -> [Test; 6]
    ensures { result ≡ tied_tests active.now effect }
{
    [
        tied_test(active, BIDE, effect.bides()),
        tied_test(active, THRASH, effect.thrashes()),
        tied_test(active, TRAPPING, effect.traps()),
        tied_test(active, CHARGING, effect.charges()),
        tied_test(active, RECHARGE, effect.recharges()),
        tied_test(active, RAGE, effect.rages()),
    ]
}

fn tied_test(active: &ActiveState, bit: u32, explained: bool) -> Test
    requires { bit < 32 }
    ensures { result ≡ tied_test active.now bit explained }
{
    let value = on(has(active, bit), 1);
    within(
        StateField::TiedCondition,
        bit as u8,
        value,
        0,
        on(explained, 1),
    )
}

// The effect of the move in a slot. No slot has none, and neither has Struggle's.
fn current_effect(member: &MemberState, slot: u8) -> Effect
    ensures { result ≡ current_effect member.now slot }
{
    let id = match slot {
        1 => member.moves[0],
        2 => member.moves[1],
        3 => member.moves[2],
        4 => member.moves[3],
        _ => 0,
    };
    match MoveId::new(id) {
        Some(used) => used.effect(),
        None => Effect::DamageOnly,
    }
}
