//! The specification of a member, and what may be wrong with it (docs/MECHANICS.md, "Teams").
ghost use Rattle.std.specs.Prelude.{◌≡◌, ◌==◌, nat_lt};
ghost use Rattle.std.specs.List.{list_any};
ghost use Rattle.gen1_tables.specs.Moves.{struggle};
ghost use Rattle.gen1_stats.specs.Members.{is_left_out};
ghost use Rattle.gen1_stats.specs.Teams.{member_refusal, repeats};

use crate::team::TeamRefusal;
use arrayvec::ArrayVec;
use gen1_tables::{Effect, MoveId, STRUGGLE, Species};
use std::marker::Model;

/// The specification of a member (docs/MECHANICS.md, "Teams").
///
/// `dvs` are those of Attack, Defense, Speed and Special. `exp` is the experience of HP, Attack, Defense, Speed and
/// Special. `moves` are the chosen moves, each with its PP ups. `Team::new` says which values are refused.
#[derive(Debug, Clone, PartialEq, Eq, Drop)]
pub struct MemberSpec {
    pub species: Species,
    pub level: u8,
    pub dvs: [u8; 4],
    pub exp: [u16; 5],
    pub moves: ArrayVec<(MoveId, u8), 4>,
}

impl Model for MemberSpec {
    ghost use Rattle.gen1_stats.specs.Teams.{Sheet};

    ghost Value = { Sheet };

    ghost view = { λ m. record {
      species = m.species;
      level = m.level;
      dvs = m.dvs;
      exp = m.exp;
      moves = m.moves.items;
    } };

    ghost inverse = { λ s. record {
      species = s.species;
      level = s.level;
      dvs = s.dvs;
      exp = s.exp;
      moves = record { items = s.moves };
    } };
}

impl Default for MemberSpec {
    ghost use Rattle.gen1_stats.specs.Teams.{least_sheet};

    ghost is_default = { λ spec. spec ≡ least_sheet };

    /// A Bulbasaur of level 1 without a move. No team accepts it, so it fills the unused places of a list.
    fn default() -> Self {
        MemberSpec {
            species: Species::default(),
            level: 1,
            dvs: [0; 4],
            exp: [0; 5],
            moves: ArrayVec::new(),
        }
    }
}

impl MemberSpec {
    // The first test that the member fails, at this place of its team.
    pub(crate) fn refusal(&self, place: u8) -> Option<TeamRefusal>
        ensures { result ≡ member_refusal place self.now }
    {
        let moves = self.moves.as_slice();
        if self.level == 0 || self.level > 100 {
            Some(TeamRefusal::Level(place))
        } else if any_above_15(&self.dvs) {
            Some(TeamRefusal::Dv(place))
        } else if moves.is_empty() {
            Some(TeamRefusal::NoMove(place))
        } else if any_left_out(moves) {
            Some(TeamRefusal::MoveLeftOut(place))
        } else if any_struggle(moves) {
            Some(TeamRefusal::StruggleChosen(place))
        } else if repeats(moves) {
            Some(TeamRefusal::RepeatedMove(place))
        } else if any_ups_above_3(moves) {
            Some(TeamRefusal::PpUps(place))
        } else {
            None
        }
    }
}

fn any_above_15(dvs: &[u8; 4]) -> bool
    ensures { result ≡ list_any (λ dv. nat_lt 15 dv) dvs.now }
{
    dvs.iter().any(|dv| *dv > 15)
}

fn any_left_out(moves: &[(MoveId, u8)]) -> bool
    ensures { result ≡ list_any (λ chosen. is_left_out chosen.0) moves.now }
{
    moves.iter().any(|chosen| is_left_out(chosen.0))
}

fn is_left_out(id: MoveId) -> bool
    ensures { result ≡ is_left_out id }
{
    matches!(id.effect(), Effect::LeftOut)
}

fn any_struggle(moves: &[(MoveId, u8)]) -> bool
    ensures { result ≡ list_any (λ chosen. chosen.0 == struggle) moves.now }
{
    moves.iter().any(|chosen| chosen.0.number() == STRUGGLE)
}

fn repeats(moves: &[(MoveId, u8)]) -> bool
    ensures { result ≡ repeats moves.now }
{
    let mut rest = moves;
    while let Some((first, later)) = rest.split_first() {
        if stands_in(first.0, later) {
            return true;
        }
        rest = later;
    }
    false
}

fn stands_in(id: MoveId, moves: &[(MoveId, u8)]) -> bool
    ensures { result ≡ list_any (λ chosen. chosen.0 == id) moves.now }
{
    moves.iter().any(|chosen| chosen.0.number() == id.number())
}

fn any_ups_above_3(moves: &[(MoveId, u8)]) -> bool
    ensures { result ≡ list_any (λ chosen. nat_lt 3 chosen.1) moves.now }
{
    moves.iter().any(|chosen| chosen.1 > 3)
}
