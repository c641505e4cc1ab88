//! Current stats: those that are left to be computed, which are all 0, and the tests of the others (docs/MECHANICS.md,
//! "Stages", "Penalties"; docs/LAYOUT.md, "Current stats").
ghost use Rattle.std.specs.Prelude.{min, ◌<◌, ◌≡◌, ◌≤◌};
ghost use Rattle.gen1_machine.specs.Stages.{now_at};
ghost use Rattle.gen1_states.specs.Tests.{are_left, comes_from, completed, completed_side, computed_stats, fixed_test, penalty_test, stat_tests, tested_stats};

use crate::active_tests::member_out;
use crate::fault::{StateFault, StateField, Test, at, first_of, on, ruled, within};
use crate::plain::{ActiveState, BattleState, MemberState, SideState, first_side, second_side};
use gen1_machine::now;
use gen1_tables::Stat;

// The kinds of status that have a penalty.
const BURNED: u8 = 3;

const PARALYSED: u8 = 5;

/// The state with its current stats. From turn 1 on, an active member whose four current stats are 0 gets those of its
/// own stats and stages, with one penalty for a burn or a paralysis, as if it had just been sent out.
pub fn completed(state: &BattleState) -> BattleState
    ensures { result ≡ completed state.now }
{
    if state.turn == 0 {
        return *state;
    }
    BattleState {
        sides: [
            completed_side(first_side(state)),
            completed_side(second_side(state)),
        ],
        ..*state
    }
}

#[tactic(auto, unfolding(crate::specs::Tests::completed_side))]
fn completed_side(side: &SideState) -> SideState
    ensures { result ≡ completed_side side.now }
{
    if !are_left(&side.active) {
        return *side;
    }
    let stats = computed_stats(member_out(side), &side.active);
    SideState {
        members: side.members,
        active: ActiveState {
            stats,
            ..side.active
        },
    }
}

fn are_left(active: &ActiveState) -> bool
    ensures { result ≡ are_left active.now }
{
    let stats = &active.stats;
    stats[0] == 0 && stats[1] == 0 && stats[2] == 0 && stats[3] == 0
}

fn computed_stats(member: &MemberState, active: &ActiveState) -> [u16; 4]
    ensures { result ≡ computed_stats member.now active.now }
{
    let (own, stages) = (&member.stats, &active.stages);
    let halved = u8::from(member.status == BURNED);
    let quartered = u8::from(member.status == PARALYSED);
    [
        at_stage(own[0], stages[0], Stat::Attack, halved),
        at_stage(own[1], stages[1], Stat::Defense, 0),
        at_stage(own[2], stages[2], Stat::Speed, quartered),
        at_stage(own[3], stages[3], Stat::Special, 0),
    ]
}

/// A stat at a stage, 0 to 12, after this many penalties. A stage above 12 counts as 12.
fn at_stage(own: u16, stage: u8, stat: Stat, penalties: u8) -> u16
    ensures { result ≡ now_at own (min stage 12) stat penalties }
{
    staged(own, stage.min(12), stat, penalties)
}

fn staged(own: u16, stage: u8, stat: Stat, penalties: u8) -> u16
    requires { stage ≤ 12 }
    ensures { result ≡ now_at own stage stat penalties }
{
    now(own, stage as i8 - 6, stat, penalties)
}

/// The first current stat of a side that is wrong, from turn 1 on or at turn 0.
pub(crate) fn test_stats(side: &SideState, number: u8, begun: bool) -> Result<(), StateFault>
    ensures { result ≡ tested_stats side.now number begun }
{
    at(
        number,
        0,
        first_of(&stat_tests(member_out(side), &side.active, begun)),
    )
}

// Attack is halved 0 to 9 times, Speed quartered 0 to 5 times. More change nothing.
fn stat_tests(member: &MemberState, active: &ActiveState, begun: bool) -> [Test; 4]
    ensures { result ≡ stat_tests member.now active.now begun }
{
    let (own, stages, stats) = (&member.stats, &active.stages, &active.stats);
    let attack = at_stage(own[0], stages[0], Stat::Attack, 0);
    let defense = at_stage(own[1], stages[1], Stat::Defense, 0);
    let speed = at_stage(own[2], stages[2], Stat::Speed, 0);
    let special = at_stage(own[3], stages[3], Stat::Special, 0);
    [
        penalty_test(
            1,
            stats[0],
            attack,
            begun,
            comes_from(attack, 2, stats[0], 9),
        ),
        fixed_test(2, stats[1], defense, begun),
        penalty_test(3, stats[2], speed, begun, comes_from(speed, 4, stats[2], 5)),
        fixed_test(4, stats[3], special, begun),
    ]
}

// Defense and Special have no penalties.
fn fixed_test(index: u8, stat: u16, whole: u16, begun: bool) -> Test
    ensures { result ≡ fixed_test index stat whole begun }
{
    let due = on(begun, u32::from(whole));
    within(StateField::CurrentStat, index, u32::from(stat), due, due)
}

// A stat with penalties is above 0, and at most the whole.
fn penalty_test(index: u8, stat: u16, whole: u16, begun: bool, comes: bool) -> Test
    ensures { result ≡ penalty_test index stat whole begun comes }
{
    ruled(
        within(
            StateField::CurrentStat,
            index,
            u32::from(stat),
            on(begun, 1),
            on(begun, u32::from(whole)),
        ),
        !begun || comes,
    )
}

// Whether a number becomes another one when it is divided at most this many times, each time to at least 1.
#[tactic(auto, unfolding(crate::specs::Tests::comes_from))]
fn comes_from(whole: u16, divisor: u16, stat: u16, most: u8) -> bool
    requires { 0 < divisor }
    ensures { result ≡ comes_from whole divisor stat most }
{
    whole == stat || most > 0 && comes_from((whole / divisor).max(1), divisor, stat, most - 1)
}
