//! Teams, and why a list of members isn't one (docs/MECHANICS.md, "Stats", "Teams").
ghost use Rattle.std.specs.Prelude.{IfErr, IfOk, None, OnOk, Some, length, ◌≡◌, ◌≤◌};
ghost use Rattle.gen1_stats.specs.Members.{IsTeam};
ghost use Rattle.gen1_stats.specs.Teams.{team_of, team_refusal};
ghost use Rattle.gen1_stats.specs.Refusals.{fault_of, number_of, place_of, sentence_of};

use crate::member::Member;
use crate::member_spec::MemberSpec;
use arrayvec::ArrayVec;
use std::error::Error;
use std::fmt;
use std::marker::Model;

/// A team: one to six members at the beginning of a battle, unhurt and healthy (docs/MECHANICS.md, "Teams").
#[derive(Debug, Clone, PartialEq, Eq, Drop)]
pub struct Team {
    members: ArrayVec<Member, 6>,
}

impl Model for Team {
    ghost use Rattle.std.specs.Prelude.{List};
    ghost use Rattle.gen1_stats.specs.Members.{IsTeam, Member as Begun};

    ghost Value = { List Begun };

    ghost view = { λ t. t.members.items };

    ghost invariant = { λ t. IsTeam t.members.items };

    ghost inverse = { λ members. record { members = record { items = members } } };
}

impl Team {
    /// The team of the specified members, or the first test that they fail (docs/MECHANICS.md, "Teams").
    ///
    /// The tests come in the order of `TeamRefusal`'s variants. Those of the number of members are first. The others
    /// go member by member, and each looks at all moves of a member before the next test.
    pub fn new(specs: &[MemberSpec]) -> Result<Self, TeamRefusal>
        ensures made { IfOk result (λ team. team ≡ team_of specs.now) }
        ensures allowed { OnOk result (team_refusal specs.now ≡ None) }
        ensures refused { IfErr result (λ refusal. team_refusal specs.now ≡ Some refusal) }
    {
        if specs.is_empty() {
            return Err(TeamRefusal::Empty);
        }
        if specs.len() > 6 {
            return Err(TeamRefusal::TooMany);
        }
        let mut members = ArrayVec::new();
        for spec in specs {
            let place = members.len() as u8 + 1;
            members.push(Member::new(spec, place)?);
        }
        Ok(Team { members })
    }

    /// The members in the order of their places: one to six, unhurt and healthy.
    pub fn members(&self) -> &[Member]
        ensures value { result.now ≡ self.now }
        ensures some { 1 ≤ length result.now }
        ensures few { length result.now ≤ 6 }
        ensures team { IsTeam self.now }
    {
        self.members.as_slice()
    }
}

/// Why a list of members isn't a team (docs/MECHANICS.md, "Teams"). Each number is the place of the refused member,
/// from 1.
#[derive(Debug, Clone, Copy, PartialEq, Eq)]
pub enum TeamRefusal {
    /// The list of members is empty.
    Empty,
    /// There are more than six members.
    TooMany,
    /// The level isn't 1 to 100.
    Level(u8),
    /// A DV is above 15.
    Dv(u8),
    /// The member has no move.
    NoMove(u8),
    /// A move is one of the four that the engine leaves out.
    MoveLeftOut(u8),
    /// Struggle was chosen, and no member can know it.
    StruggleChosen(u8),
    /// A move occurs twice.
    RepeatedMove(u8),
    /// A move has more than three PP ups.
    PpUps(u8),
}

impl TeamRefusal {
    /// The number of the refusal, 1 to 9, in the order of the tests.
    pub fn number(self) -> u8
        ensures value { result ≡ number_of self }
        ensures low { 1 ≤ result }
        ensures high { result ≤ 9 }
    {
        match self {
            TeamRefusal::Empty => 1,
            TeamRefusal::TooMany => 2,
            TeamRefusal::Level(_) => 3,
            TeamRefusal::Dv(_) => 4,
            TeamRefusal::NoMove(_) => 5,
            TeamRefusal::MoveLeftOut(_) => 6,
            TeamRefusal::StruggleChosen(_) => 7,
            TeamRefusal::RepeatedMove(_) => 8,
            TeamRefusal::PpUps(_) => 9,
        }
    }

    /// The place of the refused member, from 1. It is 0 if the number of members is wrong.
    pub fn place(self) -> u8
        ensures { result ≡ place_of self }
    {
        match self {
            TeamRefusal::Empty | TeamRefusal::TooMany => 0,
            TeamRefusal::Level(place)
            | TeamRefusal::Dv(place)
            | TeamRefusal::NoMove(place)
            | TeamRefusal::MoveLeftOut(place)
            | TeamRefusal::StruggleChosen(place)
            | TeamRefusal::RepeatedMove(place)
            | TeamRefusal::PpUps(place) => place,
        }
    }

    // What is wrong, without the place.
    fn fault(self) -> &'static str
        ensures { result.now ≡ fault_of self }
    {
        match self {
            TeamRefusal::Empty => "the team has no member",
            TeamRefusal::TooMany => "the team has more than six members",
            TeamRefusal::Level(_) => "the level is not 1 to 100",
            TeamRefusal::Dv(_) => "a DV is above 15",
            TeamRefusal::NoMove(_) => "there is no move",
            TeamRefusal::MoveLeftOut(_) => "a move is left out of the engine",
            TeamRefusal::StruggleChosen(_) => "Struggle can't be chosen",
            TeamRefusal::RepeatedMove(_) => "a move stands twice",
            TeamRefusal::PpUps(_) => "a move has more than three PP ups",
        }
    }
}

impl fmt::Display for TeamRefusal {
    ghost output = { λ refusal. Some (sentence_of refusal) };

    fn fmt<W: fmt::Write>(&self, f: &mut fmt::Formatter<W>) -> fmt::Result {
        let fault = self.fault();
        match self.place() {
            0 => write!(f, "{fault}"),
            place => write!(f, "member {place}: {fault}"),
        }
    }
}

impl Error for TeamRefusal {}
