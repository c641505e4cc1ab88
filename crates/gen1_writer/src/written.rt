//! Teams as text, or why there is none (docs/TEAM_TEXT.md, "Writing").
ghost use Rattle.std.specs.Prelude.{All, IfErr, IfNone, IfOk, IfSome, None, Ok, OnOk, Some, length, map, option_map, ◌+◌, ◌≡◌, ◌≤◌};
ghost use Rattle.gen1_stats.specs.Members.{IsTeam};
ghost use Rattle.gen1_stats.specs.Teams.{team_of};
ghost use Rattle.gen1_text.specs.Packed.{members_packed, team_packed};
ghost use Rattle.gen1_text.specs.Texts.{members_told, team_told};
ghost use Rattle.gen1_writer.specs.Export.{HasDvs, packed_of, text_of, as_read, has_other_ups, other_ups_from, write_refusal, write_words};

use crate::export::text_of;
use crate::packed::packed_of;
use arrayvec::ArrayVec;
use gen1_stats::{MemberSpec, Team, TeamRefusal};
use std::error::Error;
use std::fmt;

/// Writes members as export text; or returns why they have none: they are not a team, or a move doesn't have three PP ups
/// (docs/TEAM_TEXT.md, "Writing"). The text is read as the same team.
pub fn team_to_text(specs: &[MemberSpec]) -> Result<ArrayVec<u8, 1356>, WriteFault>
    ensures written { IfOk result (λ text. text.items ≡ text_of specs.now) }
    ensures refused { IfErr result (λ fault. write_refusal specs.now ≡ Some fault) }
    ensures allowed { OnOk result (write_refusal specs.now ≡ None) }
    ensures members { IfOk result (λ text. members_told text.items ≡ Ok (map as_read specs.now)) }
    ensures team { IfOk result (λ text. team_told text.items ≡ Ok (team_of specs.now)) }
{
    if let Some(fault) = refusal(specs) {
        return Err(fault);
    }
    Ok(text_of(specs))
}

/// Writes members as a packed line with a line feed; or returns why they have none, as `team_to_text` does. The line is read as the
/// same team.
pub fn team_to_packed(specs: &[MemberSpec]) -> Result<ArrayVec<u8, 800>, WriteFault>
    ensures written { IfOk result (λ text. text.items ≡ packed_of specs.now) }
    ensures refused { IfErr result (λ fault. write_refusal specs.now ≡ Some fault) }
    ensures allowed { OnOk result (write_refusal specs.now ≡ None) }
    ensures members { IfOk result (λ text. members_packed text.items ≡ Ok (map as_read specs.now)) }
    ensures team { IfOk result (λ text. team_packed text.items ≡ Ok (team_of specs.now)) }
{
    if let Some(fault) = refusal(specs) {
        return Err(fault);
    }
    Ok(packed_of(specs))
}

// Why members have no text.
#[tactic(auto, using(crate::proofs::Members::has_dvs))]
fn refusal(specs: &[MemberSpec]) -> Option<WriteFault>
    ensures value { result ≡ write_refusal specs.now }
    ensures allowed { IfNone result (IsTeam (team_of specs.now)) }
    ensures dvs { IfNone result (All HasDvs specs.now) }
{
    match Team::new(specs) {
        Err(refusal) => Some(WriteFault::Team(refusal)),
        Ok(team) => {
            let _members = team.members();
            other_ups(specs).map(WriteFault::PpUps)
        }
    }
}

// The first member with a move that doesn't have three PP ups, counted from 1.
fn other_ups(specs: &[MemberSpec]) -> Option<u8>
    requires { length specs.now ≤ 6 }
    ensures { result ≡ other_ups_from 1 specs.now }
{
    for (index, spec) in specs.iter().enumerate() {
        if has_other_ups(spec) {
            return Some(index as u8 + 1);
        }
    }
    None
}

fn has_other_ups(spec: &MemberSpec) -> bool
    ensures { result ≡ has_other_ups spec.now }
{
    spec.moves.as_slice().iter().any(|known| known.1 != 3)
}

/// Why a team has no text.
#[derive(Clone, Copy, Debug, PartialEq, Eq)]
pub enum WriteFault {
    /// The members are not a team.
    Team(TeamRefusal),
    /// A move of this member, counted from 1, has a number of PP ups other than three, for which a text has no place.
    PpUps(u8),
}

impl fmt::Display for WriteFault {
    ghost output = { λ fault. Some (write_words fault) };

    fn fmt<W: fmt::Write>(&self, f: &mut fmt::Formatter<W>) -> fmt::Result {
        match self {
            WriteFault::Team(refusal) => write!(f, "{refusal}"),
            WriteFault::PpUps(member) => {
                write!(
                    f,
                    "member {member}: expected three PP ups for each move, since a text has none"
                )
            }
        }
    }
}

impl Error for WriteFault {}
