//! Teams as plain structs, random teams, and the sample teams (include/gen1.h, "beginning", "random teams";
//! docs/MECHANICS.md, "Teams", "Random teams").
ghost use Rattle.std.specs.Prelude.{IfErr, IfOk, OnOk, [], length, map, ◌++◌, ◌+◌, ◌<◌, ◌∷◌, ◌≡◌, ◌≢◌, ◌≤◌};
ghost use Rattle.gen1_stats.specs.Teams.{team_of};
ghost use Rattle.gen1_c.specs.Battle.{teams_fault};
ghost use Rattle.gen1_c.specs.Odds.{one_fault};
ghost use Rattle.gen1_c.specs.Teams.{GivesTeam, chosen, fault_of, first_fault, member_fault, number_fault, random_due, sample_due, sheet_of, sheets_of, source, species_of, team_fault};
ghost use Rattle.arrayvec.specs.ArrayVec.{array_vec_len};

use crate::codes::{MOVE, SPECIES, UNKNOWN};
use crate::team_text::form_of;
use arrayvec::ArrayVec;
use gen1_random::{DrawnFrom, random_members, sample_members};
use gen1_stats::{MemberSpec, Team, TeamRefusal};
use gen1_tables::{MoveId, Species};

/// A member as the caller describes it. A 0 among the moves is skipped.
#[derive(Drop)]
#[repr(C)]
pub struct MemberForm {
    /// 1 to 151.
    pub species: u8,
    /// 1 to 100.
    pub level: u8,
    /// 0 to 15: Attack, Defense, Speed, Special.
    pub dvs: [u8; 4],
    /// 1 to 165, or 0 for no move.
    pub moves: [u8; 4],
    /// 0 to 3, for the move at the same index.
    pub pp_ups: [u8; 4],
    /// HP, Attack, Defense, Speed, Special.
    pub exp: [u16; 5],
}

/// A team: its first `count` members, at most six.
#[derive(Drop)]
#[repr(C)]
pub struct TeamForm {
    pub members: [MemberForm; 6],
    pub count: u8,
    /// Ignored.
    pub reserved: u8,
}

// The teams of both sides. An error is that of the first team that has one, plus 65,536 times its side.
pub(crate) fn teams_of(one: &TeamForm, two: &TeamForm) -> Result<(Team, Team), u32>
    ensures one { IfOk result (λ teams. teams.0 ≡ team_of (sheets_of one.now)) }
    ensures two { IfOk result (λ teams. teams.1 ≡ team_of (sheets_of two.now)) }
    ensures allowed { OnOk result (teams_fault (team_fault one.now) (team_fault two.now) ≡ 0) }
    ensures refused { IfErr result (λ fault. (fault ≢ 0)
        × (fault ≡ teams_fault (team_fault one.now) (team_fault two.now))) }
{
    let one = match team_of(one) {
        Ok(team) => team,
        Err(fault) => return Err(65536 + fault),
    };
    let two = match team_of(two) {
        Ok(team) => team,
        Err(fault) => return Err(131072 + fault),
    };
    Ok((one, two))
}

// The team that a struct describes. An error is its code, plus 256 times the place of the member that it is about.
#[tactic(auto, unfolding(crate::specs::Teams::team_fault))]
pub(crate) fn team_of(form: &TeamForm) -> Result<Team, u32>
    ensures made { IfOk result (λ team. team ≡ team_of (sheets_of form.now)) }
    ensures allowed { OnOk result (team_fault form.now ≡ 0) }
    ensures refused { IfErr result (λ fault. (fault ≡ team_fault form.now) × (fault ≢ 0)
        × (fault < 65536)) }
{
    let fault = number_fault(form);
    if fault > 0 {
        return Err(fault);
    }
    let specs = specs_of(form);
    let count = usize::from(form.count);
    match Team::new(&specs[..count]) {
        Ok(team) => Ok(team),
        Err(refusal) => Err(fault_of(refusal)),
    }
}

// The error of the count, or of a number that is not a species or not a move; 0 if there is none.
pub(crate) fn number_fault(form: &TeamForm) -> u32
    ensures value { result ≡ number_fault form.now }
    ensures few { result ≡ 0 → form.now.count ≤ 6 }
    ensures small { result < 65536 }
{
    if form.count > 6 {
        fault_of(TeamRefusal::TooMany)
    } else {
        let count = usize::from(form.count);
        first_fault(&form.members[..count])
    }
}

// All six members, also those that do not count.
pub(crate) fn specs_of(form: &TeamForm) -> [MemberSpec; 6]
    ensures { result ≡ map sheet_of form.now.members }
{
    let [first, second, third, fourth, fifth, sixth] = &form.members;
    [
        spec_of(first),
        spec_of(second),
        spec_of(third),
        spec_of(fourth),
        spec_of(fifth),
        spec_of(sixth),
    ]
}

// A team of one member.
pub(crate) fn team_of_one(member: &MemberForm) -> Result<Team, u32>
    ensures made { IfOk result (λ team. team ≡ team_of (sheet_of member.now ∷ [])) }
    ensures allowed { OnOk result (one_fault member.now ≡ 0) }
    ensures refused { IfErr result (λ fault. (fault ≡ one_fault member.now) × (fault ≢ 0)
        × (fault < 65536)) }
{
    let fault = member_fault(member);
    if fault > 0 {
        return Err(256 + fault);
    }
    match Team::new(&[spec_of(member)]) {
        Ok(team) => Ok(team),
        Err(refusal) => Err(fault_of(refusal)),
    }
}

// The error of the first member with a number that is not a species or not a move; 0 if there is none.
fn first_fault(members: &[MemberForm]) -> u32
    requires few { length members.now ≤ 6 }
    ensures value { result ≡ first_fault 1 members.now }
    ensures small { result < 65536 }
{
    for (before, member) in members.iter().enumerate() {
        let fault = member_fault(member);
        if fault > 0 {
            return 256 * (before as u32 + 1) + fault;
        }
    }
    0
}

fn member_fault(member: &MemberForm) -> u32
    ensures value { result ≡ member_fault member.now }
    ensures small { result ≤ 11 }
{
    if Species::new(member.species).is_none() {
        u32::from(SPECIES)
    } else if member.moves.iter().any(|id| *id > 165) {
        u32::from(MOVE)
    } else {
        0
    }
}

pub(crate) fn fault_of(refusal: TeamRefusal) -> u32
    ensures value { result ≡ fault_of refusal }
    ensures some { 1 ≤ result }
    ensures small { result < 65536 }
{
    256 * u32::from(refusal.place()) + u32::from(refusal.number())
}

fn spec_of(member: &MemberForm) -> MemberSpec
    ensures { result ≡ sheet_of member.now }
{
    let (ids, ups) = (&member.moves, &member.pp_ups);
    let mut moves = ArrayVec::new();
    add_move(ids[0], ups[0], &mut moves);
    add_move(ids[1], ups[1], &mut moves);
    add_move(ids[2], ups[2], &mut moves);
    add_move(ids[3], ups[3], &mut moves);
    MemberSpec {
        species: species_of(member.species),
        level: member.level,
        dvs: member.dvs,
        exp: member.exp,
        moves,
    }
}

// Appends a move with its PP ups, if the number is a move.
fn add_move(number: u8, ups: u8, moves: &mut ArrayVec<(MoveId, u8), 4>)
    requires few { array_vec_len moves.old < 4 }
    ensures items { moves.new.items ≡ moves.old.items ++ chosen number ups }
    ensures few { array_vec_len moves.new ≤ array_vec_len moves.old + 1 }
{
    if let Some(id) = MoveId::new(number) {
        moves.push((id, ups));
    }
}

fn species_of(number: u8) -> Species
    ensures { result ≡ species_of number }
{
    match Species::new(number) {
        Some(species) => species,
        None => Species::default(),
    }
}

/// Writes a random team of `count` members of the sample teams, or of all species and moves if `from_all` is not 0. Returns 0, or a code
/// if `count` is not 1 to 6; then nothing has changed.
#[unsafe(no_mangle)]
pub extern "C" fn gen1_random_team(seed: u64, count: u8, from_all: u8, team: &mut TeamForm) -> u8
    ensures gives { GivesTeam (random_due seed count from_all) team.old team.new result }
    // gen1_new accepts it.
    ensures lawful { result ≡ 0 → team_fault team.new ≡ 0 }
{
    match random_members(seed, count, source(from_all)) {
        Ok(members) => {
            *team = form_of(members.as_slice());
            0
        }
        Err(refusal) => refusal.number(),
    }
}

/// Writes a sample team by its number, from 1. Returns 0, or a code if there is none; then nothing has changed.
#[unsafe(no_mangle)]
pub extern "C" fn gen1_sample_team(number: u8, team: &mut TeamForm) -> u8
    ensures gives { GivesTeam (sample_due number) team.old team.new result }
    // gen1_new accepts it.
    ensures lawful { result ≡ 0 → team_fault team.new ≡ 0 }
{
    match sample_members(number) {
        Some(members) => {
            *team = form_of(members.as_slice());
            0
        }
        None => UNKNOWN,
    }
}

fn source(from_all: u8) -> DrawnFrom
    ensures { result ≡ source from_all }
{
    if from_all == 0 {
        DrawnFrom::Samples
    } else {
        DrawnFrom::All
    }
}
