//! Random teams, what their members and moves are drawn from, and the sample teams (docs/MECHANICS.md, "Random teams").
ghost use Rattle.std.specs.Prelude.{All, IfErr, IfOk, IfSome, None, OnOk, Some, [], if◌then◌else◌, length, map, nat_le, ◌&&◌, ◌++◌, ◌+◌, ◌<◌, ◌==◌, ◌∷◌, ◌≡◌, ◌≤◌};
ghost use Rattle.std.specs.Option.{is_some};
ghost use Rattle.std.specs.List.{list_any};
ghost use Rattle.gen1_stats.specs.Members.{IsBetween};
ghost use Rattle.gen1_stats.specs.Teams.{team_refusal};
ghost use Rattle.gen1_playouts.specs.Playouts.{next_state};
ghost use Rattle.gen1_random.specs.Teams.{IsDrawnFrom, IsRandomMember, IsRandomTeam, draft, has, last, member_drawn, moves_drawn, numbers_in, others, sample, sample_team, sheet_of, size_refusal, species_of, taken};
ghost use Rattle.gen1_random.specs.declared.teams.Pool.TheVariants as pool;
ghost use Rattle.gen1_random.specs.declared.teams.DrawnFrom.TheVariants as from;

use crate::sample_rows::SAMPLE_ROWS;
use arrayvec::ArrayVec;
use gen1_playouts::ChoiceGenerator;
use gen1_stats::{MemberSpec, TeamRefusal};
use gen1_tables::{Effect, MoveId, Species};

/// How many sample teams there are.
pub const SAMPLE_TEAMS: u8 = 12;

/// What the members of a random team are drawn from.
#[derive(Clone, Copy, PartialEq, Eq, Debug, Drop)]
pub enum DrawnFrom {
    /// The members of the sample teams.
    Samples,
    /// All species, each with four of all moves that a member may know. A cartridge need not allow them.
    All,
}

/// The members of a random team: `count` members of different species at level 100, each with four moves (docs/MECHANICS.md, "Random
/// teams"). They are a team. The same arguments give the same members.
///
/// For a `count` of 0 or above 6 it returns `Empty` or `TooMany`.
pub fn random_members(
    seed: u64,
    count: u8,
    from: DrawnFrom,
) -> Result<ArrayVec<MemberSpec, 6>, TeamRefusal>
    ensures drawn { IfOk result (λ team. team.items ≡ (draft from seed count).team) }
    ensures team { IfOk result (λ team. IsRandomTeam count team.items) }
    ensures allowed { OnOk result (size_refusal count ≡ None) }
    ensures refused { IfErr result (λ refusal. size_refusal count ≡ Some refusal) }
{
    if count == 0 {
        return Err(TeamRefusal::Empty);
    }
    if count > 6 {
        return Err(TeamRefusal::TooMany);
    }
    let mut random = ChoiceGenerator::new(seed);
    let mut species = species_of(from).numbers();
    let mut members = ArrayVec::new();
    'members: for _ in 0..count {
        let one = take(&mut species, &mut random);
        members.push(member_of(one, from, &mut random));
    }
    Ok(members)
}

/// The members of a sample team by its number, 1 to `SAMPLE_TEAMS`. They are a team. For another number it returns `None`.
pub fn sample_members(number: u8) -> Option<ArrayVec<MemberSpec, 6>>
    ensures value { IfSome result (λ team. team.items ≡ sample_team number) }
    ensures lawful { IfSome result (λ team. team_refusal team.items ≡ None) }
    ensures members { IfSome result (λ team. All IsRandomMember team.items) }
    ensures some { is_some result ≡ (nat_le 1 number && nat_le number 12) }
{
    if number == 0 || number > SAMPLE_TEAMS {
        return None;
    }
    let mut members = ArrayVec::new();
    for place in 0..6 {
        members.push(sample(6 * (usize::from(number) - 1) + place));
    }
    Some(members)
}

fn species_of(from: DrawnFrom) -> Pool
    ensures { result ≡ species_of from }
{
    match from {
        DrawnFrom::Samples => Pool::SampleSpecies,
        DrawnFrom::All => Pool::Species,
    }
}

// A member of a species that was drawn.
fn member_of(species: u8, from: DrawnFrom, random: &mut ChoiceGenerator) -> MemberSpec
    requires { IsDrawnFrom from species }
    ensures sheet { result ≡ (member_drawn from species random.old.state).sheet }
    ensures state { random.new.state ≡ (member_drawn from species random.old.state).random }
{
    match from {
        DrawnFrom::Samples => sample_of(species, random),
        DrawnFrom::All => member(species, &four_moves(random)),
    }
}

// One of the members of the sample teams with a species.
fn sample_of(species: u8, random: &mut ChoiceGenerator) -> MemberSpec
    requires { 1 ≤ length (numbers_in (pool.Samples species)) }
    ensures sheet { result ≡ (member_drawn from.Samples species random.old.state).sheet }
    ensures state { random.new.state ≡ (member_drawn from.Samples species random.old.state).random }
{
    let mut rows = Pool::Samples(species).numbers();
    let row = take(&mut rows, random);
    sample(usize::from(row) - 1)
}

// The member of the sample teams in a row.
fn sample(index: usize) -> MemberSpec
    requires { index < 72 }
    ensures { result ≡ sheet_of (sample (index + 1)) }
{
    let row = &SAMPLE_ROWS[index];
    member(row.0, &row.1)
}

// Four different moves.
fn four_moves(random: &mut ChoiceGenerator) -> [u8; 4]
    ensures drawn { result ≡ (moves_drawn 4 random.old.state).drawn }
    ensures state { random.new.state ≡ (moves_drawn 4 random.old.state).random }
    ensures range { All (IsBetween 1 164) result }
{
    let mut moves = Pool::Moves.numbers();
    let first = take(&mut moves, random);
    let second = take(&mut moves, random);
    let third = take(&mut moves, random);
    let fourth = take(&mut moves, random);
    [first, second, third, fourth]
}

// A member with a species and moves. Its other values are those of a text that leaves them out (docs/TEAM_TEXT.md).
fn member(species: u8, moves: &[u8; 4]) -> MemberSpec
    requires species { IsBetween 1 151 species }
    requires moves { All (IsBetween 1 164) moves.now }
    ensures { result ≡ sheet_of (species, moves.now) }
{
    MemberSpec {
        species: species_numbered(species),
        level: 100,
        dvs: [15; 4],
        exp: [63504; 5],
        moves: known(moves),
    }
}

fn known(moves: &[u8; 4]) -> ArrayVec<(MoveId, u8), 4>
    requires { All (IsBetween 1 164) moves.now }
    ensures { result.items ≡ map (λ id. (id, 3)) moves.now }
{
    let mut known = ArrayVec::new();
    for number in moves {
        known.push((move_numbered(*number), 3));
    }
    known
}

fn species_numbered(number: u8) -> Species
    requires { IsBetween 1 151 number }
    ensures { result ≡ number }
{
    match Species::new(number) {
        Some(species) => species,
        None => Species::default(),
    }
}

fn move_numbered(number: u8) -> MoveId
    requires { IsBetween 1 164 number }
    ensures { result ≡ number }
{
    match MoveId::new(number) {
        Some(id) => id,
        None => MoveId::default(),
    }
}

// A list of numbers from which one is drawn.
#[derive(Clone, Copy, Drop)]
pub(crate) enum Pool {
    // All species.
    Species,
    // The species of the sample teams.
    SampleSpecies,
    // The members of the sample teams with this species, by their rows from 1.
    Samples(u8),
    // The moves that a member may know.
    Moves,
}

impl Pool {
    // The numbers, in rising order.
    pub(crate) fn numbers(self) -> ArrayVec<u8, 164>
        ensures { result.items ≡ numbers_in self }
    {
        let last = self.last();
        let mut numbers = ArrayVec::new();
        for before in 0..last {
            add(before + 1, self.has(before + 1), &mut numbers);
        }
        numbers
    }

    // The highest number that may be in the pool.
    fn last(self) -> u8
        ensures value { result ≡ last self }
        ensures bound { result ≤ 164 }
    {
        match self {
            Pool::Species => 151,
            Pool::SampleSpecies => 151,
            Pool::Samples(_) => 72,
            Pool::Moves => 164,
        }
    }

    fn has(self, number: u8) -> bool
        requires low { 1 ≤ number }
        requires high { number ≤ last self }
        ensures { result ≡ has self number }
    {
        match self {
            Pool::Species => true,
            Pool::SampleSpecies => has_species(&SAMPLE_ROWS, number),
            Pool::Samples(species) => SAMPLE_ROWS[usize::from(number) - 1].0 == species,
            Pool::Moves => may_be_known(number),
        }
    }
}

// Appends a number, if it is in the pool.
fn add(number: u8, is_in: bool, numbers: &mut ArrayVec<u8, 164>)
    requires { length numbers.old.items < 164 }
    ensures items { numbers.new.items ≡ numbers.old.items ++ (if is_in then number ∷ [] else []) }
    ensures len { length numbers.new.items ≤ length numbers.old.items + 1 }
{
    if is_in {
        numbers.push(number);
    }
}

fn has_species(rows: &[(u8, [u8; 4])], species: u8) -> bool
    ensures { result ≡ list_any (λ row. row.0 == species) rows.now }
{
    rows.iter().any(|row| row.0 == species)
}

// Whether the engine has a move.
fn may_be_known(number: u8) -> bool
    requires low { 1 ≤ number }
    requires high { number ≤ 164 }
    ensures { result ≡ has pool.Moves number }
{
    match MoveId::new(number) {
        Some(id) => !matches!(id.effect(), Effect::LeftOut),
        None => false,
    }
}

// Draws a number of a list, and removes it.
fn take(numbers: &mut ArrayVec<u8, 164>, random: &mut ChoiceGenerator) -> u8
    requires { 1 ≤ length numbers.old.items }
    ensures taken { result ≡ taken random.old.state numbers.old.items }
    ensures left { numbers.new.items ≡ others random.old.state numbers.old.items }
    ensures len { length numbers.new.items + 1 ≡ length numbers.old.items }
    ensures state { random.new.state ≡ next_state random.old.state }
{
    let index = random.below(numbers.len());
    numbers.remove(index)
}
