//! The tests of turn, outcome, requests and living members together (docs/LAYOUT.md, "Turn, outcome and requests").
ghost use Rattle.std.specs.Prelude.{◌≡◌};
ghost use Rattle.gen1_states.specs.Tests.{any_lives, first_test, lives, outcome_fits, outcome_test, request_test, requests_due, tested_requests, turn_test};

use crate::active_tests::member_out;
use crate::fault::{StateFault, StateField, Test, at, first_of, on, ruled, within};
use crate::plain::{BattleState, MemberState, SideState, first_side, member_at, second_side};

/// The first of outcome, requests, turn and the first members' HP that does not fit.
#[tactic(auto, unfolding(crate::specs::Tests::tested_requests))]
pub(crate) fn test_requests(state: &BattleState) -> Result<(), StateFault>
    ensures { result ≡ tested_requests state.now }
{
    let (one, two) = (first_side(state), second_side(state));
    let (due_one, due_two) = requests_due(state);
    at(0, 0, first_of(&[outcome_test(state)]))?;
    at(1, 0, first_of(&[request_test(state.requests[0], due_one)]))?;
    at(2, 0, first_of(&[request_test(state.requests[1], due_two)]))?;
    at(
        0,
        0,
        first_of(&[turn_test(state, due_one == 2 || due_two == 2)]),
    )?;
    at(1, 1, first_of(&[first_test(one, state.turn == 0)]))?;
    at(2, 1, first_of(&[first_test(two, state.turn == 0)]))
}

// At turn 0 nothing is decided. Later the outcome is by which sides have a living member.
fn outcome_test(state: &BattleState) -> Test
    ensures { result ≡ outcome_test state.now }
{
    let (one, two) = (first_side(state), second_side(state));
    let is_start = state.turn == 0;
    let is_last = state.turn == state.limit;
    let fits = outcome_fits(state.outcome, any_lives(one), any_lives(two), is_last);
    ruled(
        within(
            StateField::Outcome,
            0,
            u32::from(state.outcome),
            0,
            on(!is_start, 5),
        ),
        is_start || fits,
    )
}

// Whether an outcome fits which sides have a living member, in the last turn or before.
fn outcome_fits(outcome: u8, one: bool, two: bool, is_last: bool) -> bool
    ensures { result ≡ outcome_fits outcome one two is_last }
{
    match outcome {
        0 => one && two,
        1 => one && !two,
        2 => !one && two,
        3 => !one && !two || is_last && one && two,
        _ => true,
    }
}

// What the two sides are asked for: 0 nothing, 1 a move, 2 a switch.
fn requests_due(state: &BattleState) -> (u32, u32)
    ensures { result ≡ requests_due state.now }
{
    let (one, two) = (first_side(state), second_side(state));
    if state.turn == 0 || state.outcome != 0 {
        return (0, 0);
    }
    let (one, two) = (lives(member_out(one)), lives(member_out(two)));
    if one && two {
        (1, 1)
    } else {
        (on(!one, 2), on(!two, 2))
    }
}

fn request_test(request: u8, due: u32) -> Test
    ensures { result ≡ request_test request due }
{
    within(StateField::Request, 0, u32::from(request), due, due)
}

// No member is replaced after the last turn.
fn turn_test(state: &BattleState, replaces: bool) -> Test
    ensures { result ≡ turn_test state.now replaces }
{
    let (turn, limit) = (u32::from(state.turn), u32::from(state.limit));
    let most = if replaces {
        limit.saturating_sub(1)
    } else {
        limit
    };
    within(StateField::Turn, 0, turn, 0, most)
}

// Before the first turn the first member lives.
fn first_test(side: &SideState, is_start: bool) -> Test
    ensures { result ≡ first_test side.now is_start }
{
    let first = member_at(side, 0);
    let (hp, max) = (u32::from(first.hp), u32::from(first.max_hp));
    within(StateField::Hp, 0, hp, on(is_start, 1), max)
}

fn lives(member: &MemberState) -> bool
    ensures { result ≡ lives member.now }
{
    member.hp > 0
}

fn any_lives(side: &SideState) -> bool
    ensures { result ≡ any_lives side.now }
{
    lives(member_at(side, 0))
        || lives(member_at(side, 1))
        || lives(member_at(side, 2))
        || lives(member_at(side, 3))
        || lives(member_at(side, 4))
        || lives(member_at(side, 5))
}
