//! The members of both sides, as far as a player knows them (docs/MECHANICS.md, "A battle that fits").
ghost use Rattle.std.specs.Prelude.{slice_index_or, ◌+◌, ◌<◌, ◌≡◌, ◌≤◌};
ghost use Rattle.gen1_machine.specs.State.{known_in};
ghost use Rattle.gen1_stats.specs.Members.{nobody};
ghost use Rattle.gen1_states.specs.Plain.{no_member};
ghost use Rattle.gen1_states.specs.Reading.{member_state};
ghost use Rattle.gen1_guesses.specs.Forks.{fresh_members, hp_of, in_slot, least_hp, mark_of, member_at, members_of, own_at, own_member, own_members, pp_left, sleep_of, told, told_at, told_if_seen, turns_left, uses_of};

use gen1_player::{OwnMember, Seen, SeenMove};
use gen1_states::MemberState;
use gen1_stats::{KnownMove, Member};

// The kind of status of a sleeping member.
const ASLEEP: u8 = 1;

// What put it to sleep, as `Seen` has it.
const BY_FOE: u8 = 1;

const BY_REST: u8 = 2;

const HUNDREDTHS: u32 = 100;

/// The player's own members: as they were shown.
pub(crate) fn own_members(
    clause: bool,
    seen: &[Seen; 6],
    shown: &[OwnMember; 6],
) -> [MemberState; 6]
    ensures { result ≡ own_members clause seen.now shown.now }
{
    [
        own_at(0, clause, seen, shown),
        own_at(1, clause, seen, shown),
        own_at(2, clause, seen, shown),
        own_at(3, clause, seen, shown),
        own_at(4, clause, seen, shown),
        own_at(5, clause, seen, shown),
    ]
}

fn own_at(index: usize, clause: bool, seen: &[Seen; 6], shown: &[OwnMember; 6]) -> MemberState
    requires { index < 6 }
    ensures { result ≡ own_at index clause seen.now shown.now }
{
    own_member(clause, &seen[index], &shown[index])
}

fn own_member(clause: bool, seen: &Seen, shown: &OwnMember) -> MemberState
    ensures { result ≡ own_member clause seen.now shown.now }
{
    MemberState {
        species: shown.species,
        level: shown.level,
        status: shown.status,
        sleep: sleep_of(shown.status, seen),
        marked: mark_of(clause, shown.status, seen.asleep_by),
        moves: shown.moves,
        pp: shown.pp,
        hp: shown.hp,
        max_hp: shown.max_hp,
        stats: shown.stats,
    }
}

fn sleep_of(status: u8, seen: &Seen) -> u8
    ensures { result ≡ sleep_of status seen.now }
{
    if status == ASLEEP {
        turns_left(seen.asleep_by, seen.slept)
    } else {
        0
    }
}

// The turns of sleep left after some: those of Rest, or a middle count, while as many may be left.
fn turns_left(asleep_by: u8, slept: u8) -> u8
    ensures { result ≡ turns_left asleep_by slept }
{
    if asleep_by == BY_REST {
        2u8.saturating_sub(slept).max(1)
    } else {
        7u8.saturating_sub(slept).min(3).max(1)
    }
}

fn mark_of(clause: bool, status: u8, asleep_by: u8) -> u8
    ensures { result ≡ mark_of clause status asleep_by }
{
    if clause && status == ASLEEP && asleep_by == BY_FOE {
        1
    } else {
        0
    }
}

/// The members of a team, at full HP and full PP.
pub(crate) fn fresh_members(team: &[Member]) -> [MemberState; 6]
    ensures { result ≡ fresh_members team.now }
{
    [
        fresh_at(0, team),
        fresh_at(1, team),
        fresh_at(2, team),
        fresh_at(3, team),
        fresh_at(4, team),
        fresh_at(5, team),
    ]
}

fn fresh_at(index: usize, team: &[Member]) -> MemberState
    ensures { result ≡ member_state (slice_index_or team.now index nobody) }
{
    match team.get(index) {
        Some(member) => fresh(member),
        None => no_member(),
    }
}

fn fresh(member: &Member) -> MemberState
    ensures { result ≡ member_state member.now }
{
    let moves = member.moves();
    let [one, two, three, four] = [
        slot(moves, 0),
        slot(moves, 1),
        slot(moves, 2),
        slot(moves, 3),
    ];
    MemberState {
        species: member.species().number(),
        level: member.level(),
        status: 0,
        sleep: 0,
        marked: 0,
        moves: [one.0, two.0, three.0, four.0],
        pp: [one.1, two.1, three.1, four.1],
        hp: member.max_hp(),
        max_hp: member.max_hp(),
        stats: [
            member.attack(),
            member.defense(),
            member.speed(),
            member.special(),
        ],
    }
}

// The move in a slot, counted from 0, and its PP; zeros in an empty slot.
fn slot(moves: &[KnownMove], index: usize) -> (u8, u8)
    requires { index < 4 }
    ensures id { result.0 ≡ (known_in (index + 1) moves.now).id }
    ensures pp { result.1 ≡ (known_in (index + 1) moves.now).pp }
{
    match moves.get(index) {
        Some(known) => (known.id.number(), known.pp),
        None => (0, 0),
    }
}

fn no_member() -> MemberState
    ensures { result ≡ no_member }
{
    MemberState {
        species: 0,
        level: 0,
        status: 0,
        sleep: 0,
        marked: 0,
        moves: [0; 4],
        pp: [0; 4],
        hp: 0,
        max_hp: 0,
        stats: [0; 4],
    }
}

/// The foe's members: those that have appeared as they were reported, with the moves and stats of the guess, and the others of the guess.
pub(crate) fn members_of(
    clause: bool,
    seen: &[Seen; 6],
    fresh: &[MemberState; 6],
) -> [MemberState; 6]
    ensures { result ≡ members_of clause seen.now fresh.now }
{
    [
        told_at(0, clause, seen, fresh),
        told_at(1, clause, seen, fresh),
        told_at(2, clause, seen, fresh),
        told_at(3, clause, seen, fresh),
        told_at(4, clause, seen, fresh),
        told_at(5, clause, seen, fresh),
    ]
}

fn told_at(index: usize, clause: bool, seen: &[Seen; 6], fresh: &[MemberState; 6]) -> MemberState
    requires { index < 6 }
    ensures { result ≡ told_at index clause seen.now fresh.now }
{
    told_if_seen(clause, &seen[index], &fresh[index])
}

fn told_if_seen(clause: bool, seen: &Seen, fresh: &MemberState) -> MemberState
    ensures { result ≡ told_if_seen clause seen.now fresh.now }
{
    if seen.species == 0 {
        *fresh
    } else {
        told(clause, seen, fresh)
    }
}

fn told(clause: bool, seen: &Seen, fresh: &MemberState) -> MemberState
    ensures { result ≡ told clause seen.now fresh.now }
{
    MemberState {
        status: seen.status,
        sleep: sleep_of(seen.status, seen),
        marked: mark_of(clause, seen.status, seen.asleep_by),
        pp: pp_left(&seen.moves, fresh),
        hp: hp_of(seen.hp, seen.max, fresh.max_hp),
        ..*fresh
    }
}

/// The least HP of a member with this maximum that a player learns as this part of a whole; its maximum at most. Of hundredths, which are
/// rounded up, it is the most.
pub(crate) fn hp_of(told: u16, whole: u16, max: u16) -> u16
    ensures value { result ≡ hp_of told whole max }
    ensures full { result ≤ max }
{
    let (told, whole, max) = (u32::from(told), u32::from(whole), u32::from(max));
    let hp = if whole == HUNDREDTHS {
        (told * max / HUNDREDTHS).max(told.min(1))
    } else {
        least_hp(told, whole, max)
    };
    hp.min(max) as u16
}

fn least_hp(told: u32, whole: u32, max: u32) -> u32
    requires told { told ≤ 65535 }
    requires whole { whole ≤ 65535 }
    requires most { max ≤ 65535 }
    ensures { result ≡ least_hp told whole max }
{
    let whole = whole.max(1);
    (told * max + (whole - 1)) / whole
}

// The PP of the guess less the uses that were counted.
fn pp_left(uses: &[SeenMove; 5], fresh: &MemberState) -> [u8; 4]
    ensures { result ≡ pp_left uses.now fresh.now }
{
    let (ids, pp) = (&fresh.moves, &fresh.pp);
    [
        pp[0].saturating_sub(uses_of(ids[0], uses)),
        pp[1].saturating_sub(uses_of(ids[1], uses)),
        pp[2].saturating_sub(uses_of(ids[2], uses)),
        pp[3].saturating_sub(uses_of(ids[3], uses)),
    ]
}

// How often a move was used: the count of the first slot that has it.
fn uses_of(id: u8, uses: &[SeenMove; 5]) -> u8
    ensures { result ≡ uses_of id uses.now }
{
    let [one, two, three] = [in_slot(0, uses), in_slot(1, uses), in_slot(2, uses)];
    let (four, five) = (in_slot(3, uses), in_slot(4, uses));
    if one.id == id {
        one.uses
    } else if two.id == id {
        two.uses
    } else if three.id == id {
        three.uses
    } else if four.id == id {
        four.uses
    } else if five.id == id {
        five.uses
    } else {
        0
    }
}

fn in_slot(index: usize, uses: &[SeenMove; 5]) -> SeenMove
    requires { index < 5 }
    ensures { result ≡ in_slot index uses.now }
{
    uses[index]
}

/// The member at a place, from 1; none past the sixth.
pub(crate) fn member_at(place: u8, members: &[MemberState; 6]) -> MemberState
    ensures { result ≡ member_at place members.now }
{
    match members.get(usize::from(place).saturating_sub(1)) {
        Some(member) => *member,
        None => no_member(),
    }
}
