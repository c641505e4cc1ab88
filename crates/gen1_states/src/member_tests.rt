//! The tests of a side's members (docs/LAYOUT.md, "Member"). A place whose species is 0 has no member, and all its
//! fields are 0.
ghost use Rattle.std.specs.Prelude.{◌≡◌};
ghost use Rattle.gen1_states.specs.Tests.{is_fourth, is_there, is_third, move_test, move_tests, number_tests, own_stat_test, own_stat_tests, pp_test, pp_tests, status_tests, tested_member, tested_members, tested_next};
ghost use Rattle.gen1_layout.specs.Loading.{may_be_known};

use crate::fault::{StateFault, StateField, Test, at, first_of, on, ruled, within};
use crate::plain::{MemberState, SideState, member_at};
use gen1_tables::{Effect, MoveId};

/// The first field of a side's members that is wrong.
#[tactic(auto, unfolding(crate::specs::Tests::tested_members))]
pub(crate) fn test_members(side: &SideState, number: u8, rules: u8) -> Result<(), StateFault>
    ensures { result ≡ tested_members side.now number rules }
{
    at(number, 1, test_member(member_at(side, 0), 1, 151, rules))?;
    at(
        number,
        2,
        test_next(member_at(side, 0), member_at(side, 1), rules),
    )?;
    at(
        number,
        3,
        test_next(member_at(side, 1), member_at(side, 2), rules),
    )?;
    at(
        number,
        4,
        test_next(member_at(side, 2), member_at(side, 3), rules),
    )?;
    at(
        number,
        5,
        test_next(member_at(side, 3), member_at(side, 4), rules),
    )?;
    at(
        number,
        6,
        test_next(member_at(side, 4), member_at(side, 5), rules),
    )
}

// A place after one without a member has none.
fn test_next(before: &MemberState, member: &MemberState, rules: u8) -> Result<(), Test>
    ensures { result ≡ tested_next before.now member.now rules }
{
    test_member(member, 0, on(is_there(before), 151), rules)
}

// The first field of a member that is wrong, if its species may be from one number to another.
#[tactic(auto, unfolding(crate::specs::Tests::tested_member))]
fn test_member(member: &MemberState, least: u32, most: u32, rules: u8) -> Result<(), Test>
    ensures { result ≡ tested_member member.now least most rules }
{
    first_of(&number_tests(member, least, most))?;
    first_of(&own_stat_tests(member))?;
    first_of(&status_tests(member, rules))?;
    first_of(&move_tests(member))?;
    first_of(&pp_tests(member))
}

/// Whether there is a member.
pub(crate) fn is_there(member: &MemberState) -> bool
    ensures { result ≡ is_there member.now }
{
    member.species != 0
}

fn number_tests(member: &MemberState, least: u32, most: u32) -> [Test; 4]
    ensures { result ≡ number_tests member.now least most }
{
    let there = is_there(member);
    let max = u32::from(member.max_hp);
    [
        within(
            StateField::Species,
            0,
            u32::from(member.species),
            least,
            most,
        ),
        within(
            StateField::Level,
            0,
            u32::from(member.level),
            on(there, 1),
            on(there, 100),
        ),
        within(StateField::MaxHp, 0, max, on(there, 11), on(there, 999)),
        within(StateField::Hp, 0, u32::from(member.hp), 0, max),
    ]
}

fn own_stat_tests(member: &MemberState) -> [Test; 4]
    ensures { result ≡ own_stat_tests member.now }
{
    let there = is_there(member);
    [
        own_stat_test(there, 1, member.stats[0]),
        own_stat_test(there, 2, member.stats[1]),
        own_stat_test(there, 3, member.stats[2]),
        own_stat_test(there, 4, member.stats[3]),
    ]
}

fn own_stat_test(there: bool, index: u8, stat: u16) -> Test
    ensures { result ≡ own_stat_test there index stat }
{
    within(
        StateField::OwnStat,
        index,
        u32::from(stat),
        on(there, 5),
        on(there, 999),
    )
}

// A fallen member has no status. Only the sleep clause marks a sleeper.
fn status_tests(member: &MemberState, rules: u8) -> [Test; 3]
    ensures { result ≡ status_tests member.now rules }
{
    let asleep = member.status == 1;
    let may_be_marked = asleep && rules % 2 == 1;
    [
        within(
            StateField::Status,
            0,
            u32::from(member.status),
            0,
            on(member.hp != 0, 5),
        ),
        within(
            StateField::Sleep,
            0,
            u32::from(member.sleep),
            on(asleep, 1),
            on(asleep, 7),
        ),
        within(
            StateField::Marked,
            0,
            u32::from(member.marked),
            0,
            on(may_be_marked, 1),
        ),
    ]
}

// A member knows a move in the first slot at least, and none after a slot without one.
fn move_tests(member: &MemberState) -> [Test; 4]
    ensures { result ≡ move_tests member.now }
{
    let there = is_there(member);
    let ids = &member.moves;
    [
        move_test(1, there, on(there, 1), ids[0], true),
        move_test(2, ids[0] != 0, 0, ids[1], ids[1] != ids[0]),
        move_test(3, ids[1] != 0, 0, ids[2], is_third(ids[0], ids[1], ids[2])),
        move_test(4, ids[2] != 0, 0, ids[3], is_fourth(ids)),
    ]
}

// Whether the third of three moves differs from the others.
fn is_third(first: u8, second: u8, third: u8) -> bool
    ensures { result ≡ is_third first second third }
{
    third != first && third != second
}

// Whether the fourth move differs from the others.
fn is_fourth(ids: &[u8; 4]) -> bool
    ensures { result ≡ is_fourth ids.now }
{
    ids[3] != ids[0] && ids[3] != ids[1] && ids[3] != ids[2]
}

// The move in a slot, if there may be one: not left out, and new. No member knows a move twice.
fn move_test(slot: u8, may_be: bool, least: u32, id: u8, new: bool) -> Test
    ensures { result ≡ move_test slot may_be least id new }
{
    ruled(
        within(
            StateField::Move,
            slot,
            u32::from(id),
            least,
            on(may_be, 164),
        ),
        id == 0 || may_be_known(id) && new,
    )
}

// Whether a member may know the move with a number.
fn may_be_known(id: u8) -> bool
    ensures { result ≡ may_be_known id }
{
    match MoveId::new(id) {
        Some(known) => id <= 164 && known.effect() != Effect::LeftOut,
        None => false,
    }
}

fn pp_tests(member: &MemberState) -> [Test; 4]
    ensures { result ≡ pp_tests member.now }
{
    let (ids, pp) = (&member.moves, &member.pp);
    [
        pp_test(1, ids[0], pp[0]),
        pp_test(2, ids[1], pp[1]),
        pp_test(3, ids[2], pp[2]),
        pp_test(4, ids[3], pp[3]),
    ]
}

fn pp_test(slot: u8, id: u8, pp: u8) -> Test
    ensures { result ≡ pp_test slot id pp }
{
    within(StateField::Pp, slot, u32::from(pp), 0, on(id != 0, 63))
}
