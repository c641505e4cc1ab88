//! A battle of a plain state, the first field of the state that is wrong, in the order in which loading tests them, and
//! the tests of the fields of the whole battle (docs/LAYOUT.md, "Plain states", "Header").
ghost use Rattle.std.specs.Prelude.{Err, IfErr, IfOk, IsOk, ◌↔◌, ◌≡◌};
ghost use Rattle.gen1_layout.specs.LoadingLaws.{IsBattle, StandsForSome};
ghost use Rattle.gen1_layout.specs.Parts.{parts_of};
ghost use Rattle.gen1_states.specs.Plain.{bytes_of, header_tests, request_test, tested_header};
ghost use Rattle.gen1_states.specs.Tests.{IsNamed, completed, fault_of, tested};

use crate::active_tests::test_active;
use crate::bytes::bytes_of;
use crate::fault::{StateFault, StateField, Test, at, first_of, within};
use crate::member_tests::test_members;
use crate::plain::{BattleState, first_side, second_side};
use crate::request_tests::test_requests;
use crate::stats::{completed, test_stats};
use gen1_layout::Packed;

/// A battle of a plain state. Current stats that are all 0 are computed first ([`completed`]). It accepts a state
/// exactly if loading accepts its 384 bytes (docs/LAYOUT.md, "Loading").
///
/// # Errors
///
/// The first field that is wrong, in the order in which loading tests the bytes. Its value is outside its range, or
/// breaks the field's further rule.
pub fn from_state(state: &BattleState) -> Result<Packed, StateFault>
    ensures accepts { IsOk result ↔ IsBattle (bytes_of (completed state.now)) }
    ensures value { IfOk result (λ battle. battle ≡ parts_of (bytes_of (completed state.now))) }
    ensures stands { IfOk result (λ battle. StandsForSome battle) }
    ensures fault { IfErr result (λ fault. fault ≡ fault_of (completed state.now)) }
    ensures tested { IfErr result (λ fault. tested (completed state.now) ≡ Err fault) }
    ensures named { IfErr result (λ fault. IsNamed fault) }
{
    let whole = completed(state);
    match Packed::read(bytes_of(&whole).as_slice()) {
        Ok(battle) => Ok(battle),
        Err(_) => match test_state(&whole) {
            Err(fault) => Err(fault),
            Ok(()) => unreachable!(),
        },
    }
}

/// The first field of a state that is wrong: of the whole battle, of the members, of the active members, of their
/// current stats, then of turn, outcome and requests together.
#[tactic(auto, unfolding(crate::specs::Tests::tested))]
fn test_state(state: &BattleState) -> Result<(), StateFault>
    ensures { result ≡ tested state.now }
{
    let (one, two) = (first_side(state), second_side(state));
    let begun = state.turn != 0;
    test_header(state)?;
    test_members(one, 1, state.rules)?;
    test_members(two, 2, state.rules)?;
    test_active(one, 1, begun)?;
    test_active(two, 2, begun)?;
    test_stats(one, 1, begun)?;
    test_stats(two, 2, begun)?;
    test_requests(state)
}

/// The first field of the header that is wrong.
fn test_header(state: &BattleState) -> Result<(), StateFault>
    ensures { result ≡ tested_header state.now }
{
    at(0, 0, first_of(&header_tests(state)))?;
    at(1, 0, first_of(&[request_test(state.requests[0])]))?;
    at(2, 0, first_of(&[request_test(state.requests[1])]))
}

fn header_tests(state: &BattleState) -> [Test; 5]
    ensures { result ≡ header_tests state.now }
{
    let limit = u32::from(state.limit);
    [
        within(StateField::Limit, 0, limit, 1, 9999),
        within(StateField::Turn, 0, u32::from(state.turn), 0, limit),
        within(StateField::Index, 0, u32::from(state.index), 0, 8),
        within(StateField::Outcome, 0, u32::from(state.outcome), 0, 5),
        within(StateField::Rules, 0, u32::from(state.rules), 0, 3),
    ]
}

fn request_test(request: u8) -> Test
    ensures { result ≡ request_test request }
{
    within(StateField::Request, 0, u32::from(request), 0, 2)
}
