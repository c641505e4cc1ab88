//! Teams from the export text of a team builder, and a member by its lines (docs/TEAM_TEXT.md, "Export text").
ghost use Rattle.std.specs.Prelude.{◌≡◌};
ghost use Rattle.gen1_text.specs.Texts.{at_line, members_told, parts_members, team_told};
ghost use Rattle.gen1_text.specs.MemberLines.{members_view, changed, fresh, headed, is_idle, named, species_text, with_evs, with_ivs, with_level, with_move, without_gender};

use crate::cuts::{Pieces, has_inside, text_after, trimmed};
use crate::fault::{MemberFault, TextFault};
use crate::ids::{move_called, species_called};
use crate::spread::{dvs_of_ivs, exp_of_evs, number_in, spread_in};
use arrayvec::ArrayVec;
use gen1_stats::{MemberSpec, Team};
use gen1_tables::Species;

/// Reads the team of a text, or returns the first error: of a line, or else of the members as a team.
pub fn team_in_text(text: &[u8]) -> Result<Team, TextFault>
    ensures { result ≡ team_told text.now }
{
    let members = members_in_text(text)?;
    match Team::new(members.as_slice()) {
        Ok(team) => Ok(team),
        Err(refusal) => Err(TextFault::Team(refusal)),
    }
}

/// Reads the members of a text, six at most, before any test of them as a team; or returns the error of the first line that has one
/// (docs/TEAM_TEXT.md, "Export text", "Faults").
pub fn members_in_text(text: &[u8]) -> Result<ArrayVec<MemberSpec, 6>, TextFault>
    ensures { members_view result ≡ members_told text.now }
{
    let mut members = ArrayVec::new();
    let mut current = None;
    let mut line = 0;
    for piece in Pieces::new(text, b'\n') {
        line += 1;
        current = match current {
            None if parts_members(piece) => None,
            None if members.is_full() => {
                let fault = MemberFault::SeventhMember;
                return Err(TextFault::Line { line, fault });
            }
            None => Some(at_line(line, headed(piece))?),
            Some(member) if parts_members(piece) => {
                members.push(member);
                None
            }
            Some(member) => Some(at_line(line, changed(member, piece))?),
        };
    }
    if let Some(member) = current {
        members.push(member);
    }
    Ok(members)
}

// A member, or the error of its line.
fn at_line(line: usize, member: Result<MemberSpec, MemberFault>) -> Result<MemberSpec, TextFault>
    ensures { result ≡ at_line line member }
{
    match member {
        Ok(member) => Ok(member),
        Err(fault) => Err(TextFault::Line { line, fault }),
    }
}

// Whether a line separates members: it is empty, or the title of a team.
#[tactic(auto, unfolding(crate::specs::Texts::parts_members))]
fn parts_members(line: &[u8]) -> bool
    ensures { result ≡ parts_members line.now }
{
    line.is_empty() || line.starts_with(b"===")
}

// The member that a first line describes.
#[tactic(auto, unfolding(crate::specs::MemberLines::headed))]
fn headed(line: &[u8]) -> Result<MemberSpec, MemberFault>
    ensures { result ≡ headed line.now }
{
    if has_inside(line, b" @ ") {
        return Err(MemberFault::Item);
    }
    named(species_text(without_gender(line)))
}

// The member of a species that a text names.
#[tactic(auto, unfolding(crate::specs::MemberLines::named))]
pub(crate) fn named(text: &[u8]) -> Result<MemberSpec, MemberFault>
    ensures { result ≡ named text.now }
{
    match species_called(text) {
        Some(species) => Ok(fresh(species)),
        None => Err(MemberFault::Species),
    }
}

#[tactic(auto, unfolding(crate::specs::MemberLines::without_gender))]
fn without_gender(line: &[u8]) -> &[u8]
    ensures { result.now ≡ without_gender line.now }
{
    if line.ends_with(b" (M)") || line.ends_with(b" (F)") {
        &line[..line.len() - 4]
    } else {
        line
    }
}

// The species of a first line: in brackets after a nickname, or the line itself.
#[tactic(auto, unfolding(crate::specs::MemberLines::species_text))]
fn species_text(line: &[u8]) -> &[u8]
    ensures { result.now ≡ species_text line.now }
{
    if !line.ends_with(b")") {
        return line;
    }
    let mut start = line.len();
    while start > 0 && line[start - 1] != b'(' {
        start -= 1;
    }
    &line[start..]
}

// A member of which only the species is given.
fn fresh(species: Species) -> MemberSpec
    ensures { result ≡ fresh species }
{
    MemberSpec {
        species,
        level: 100,
        dvs: [15; 4],
        exp: [63504; 5],
        moves: ArrayVec::new(),
    }
}

// What a line after the first does to a member.
#[tactic(auto, unfolding(crate::specs::MemberLines::changed))]
fn changed(member: MemberSpec, line: &[u8]) -> Result<MemberSpec, MemberFault>
    ensures { result ≡ changed line.now member }
{
    if let Some(text) = text_after(line, b"Level:") {
        with_level(member, trimmed(text))
    } else if let Some(text) = text_after(line, b"EVs:") {
        with_evs(member, text)
    } else if let Some(text) = text_after(line, b"IVs:") {
        with_ivs(member, text)
    } else if let Some(name) = text_after(line, b"-") {
        with_move(member, name)
    } else if is_idle(line) {
        Ok(member)
    } else {
        Err(MemberFault::UnknownLine)
    }
}

#[tactic(auto, unfolding(crate::specs::MemberLines::with_level))]
pub(crate) fn with_level(member: MemberSpec, text: &[u8]) -> Result<MemberSpec, MemberFault>
    ensures { result ≡ with_level text.now member }
{
    let mut member = member;
    match number_in(text, 100) {
        None | Some(0) => Err(MemberFault::Level),
        Some(level) => {
            member.level = level;
            Ok(member)
        }
    }
}

#[tactic(auto, unfolding(crate::specs::MemberLines::with_evs))]
fn with_evs(member: MemberSpec, text: &[u8]) -> Result<MemberSpec, MemberFault>
    ensures { result ≡ with_evs text.now member }
{
    let mut member = member;
    let Some(evs) = spread_in(text, 255) else {
        return Err(MemberFault::Evs);
    };
    member.exp = exp_of_evs(evs)?;
    Ok(member)
}

#[tactic(auto, unfolding(crate::specs::MemberLines::with_ivs))]
fn with_ivs(member: MemberSpec, text: &[u8]) -> Result<MemberSpec, MemberFault>
    ensures { result ≡ with_ivs text.now member }
{
    let mut member = member;
    let Some(ivs) = spread_in(text, 31) else {
        return Err(MemberFault::Ivs);
    };
    member.dvs = dvs_of_ivs(ivs)?;
    Ok(member)
}

// One more move, with three PP ups.
#[tactic(auto, unfolding(crate::specs::MemberLines::with_move))]
pub(crate) fn with_move(member: MemberSpec, name: &[u8]) -> Result<MemberSpec, MemberFault>
    ensures { result ≡ with_move name.now member }
{
    let mut member = member;
    if member.moves.is_full() {
        return Err(MemberFault::FifthMove);
    }
    match move_called(name) {
        None => Err(MemberFault::Move),
        Some(id) => {
            member.moves.push((id, 3));
            Ok(member)
        }
    }
}

// Whether a line is about something that the first generation does not have.
#[tactic(auto, unfolding(crate::specs::MemberLines::is_idle))]
fn is_idle(line: &[u8]) -> bool
    ensures { result ≡ is_idle line.now }
{
    line.starts_with(b"Ability:")
        || line.starts_with(b"Shiny:")
        || line.starts_with(b"Happiness:")
        || line.starts_with(b"Pokeball:")
        || line.starts_with(b"Hidden Power:")
        || line.starts_with(b"Tera Type:")
        || line.starts_with(b"Gigantamax:")
        || line.starts_with(b"Dynamax Level:")
        || line.ends_with(b" Nature")
}
