//! Teams from packed lines, and the fields of a member in one (docs/TEAM_TEXT.md, "Packed line").
ghost use Rattle.std.specs.Prelude.{◌≡◌};
ghost use Rattle.gen1_text.specs.Packed.{field, in_field, members_packed, number_if_any, six_numbers, species_field, team_packed, unpacked, with_moves, with_packed_evs, with_packed_ivs, with_packed_level, without_item};
ghost use Rattle.gen1_text.specs.MemberLines.{members_view, pieces_of};

use crate::cuts::{Pieces, piece_count};
use crate::fault::{MemberFault, PackedFault};
use crate::spread::{Spread, dvs_of_ivs, exp_of_evs, is_text, number_in};
use crate::text::{named, with_level, with_move};
use arrayvec::ArrayVec;
use gen1_stats::{MemberSpec, Team};

/// Reads the team of a packed line, or returns the first error: of a field of a member, or else of the members as a team.
pub fn team_in_packed(text: &[u8]) -> Result<Team, PackedFault>
    ensures { result ≡ team_packed text.now }
{
    let members = members_in_packed(text)?;
    match Team::new(members.as_slice()) {
        Ok(team) => Ok(team),
        Err(refusal) => Err(PackedFault::Team(refusal)),
    }
}

/// Reads the members of a packed line, six at most, before any test of them as a team; or returns the error of the first member
/// that has one.
pub fn members_in_packed(text: &[u8]) -> Result<ArrayVec<MemberSpec, 6>, PackedFault>
    ensures { members_view result ≡ members_packed text.now }
{
    let mut members = ArrayVec::new();
    for piece in Pieces::new(text, b']') {
        if members.is_full() {
            return Err(PackedFault::SeventhMember);
        }
        let spec = unpacked(piece, members.len() + 1)?;
        members.push(spec);
    }
    Ok(members)
}

// What the fields of a member say, in order.
#[tactic(auto, unfolding(crate::specs::Packed::unpacked))]
fn unpacked(text: &[u8], member: usize) -> Result<MemberSpec, PackedFault>
    ensures { result ≡ unpacked member text.now }
{
    if piece_count(text, b'|') != 12 {
        return Err(PackedFault::Fields { member });
    }
    let spec = in_field(member, 2, named(species_field(text)))?;
    let spec = in_field(member, 3, without_item(spec, field(text, 2)))?;
    let spec = in_field(member, 5, with_moves(spec, field(text, 4)))?;
    let spec = in_field(member, 7, with_packed_evs(spec, field(text, 6)))?;
    let spec = in_field(member, 9, with_packed_ivs(spec, field(text, 8)))?;
    in_field(member, 11, with_packed_level(spec, field(text, 10)))
}

// A member, or the error of a field.
fn in_field(
    member: usize,
    field: usize,
    spec: Result<MemberSpec, MemberFault>,
) -> Result<MemberSpec, PackedFault>
    ensures { result ≡ in_field member field spec }
{
    match spec {
        Ok(spec) => Ok(spec),
        Err(fault) => Err(PackedFault::Field {
            member,
            field,
            fault,
        }),
    }
}

// A field of a member, counted from 0; empty after the last.
pub(crate) fn field(member: &[u8], number: usize) -> &[u8]
    ensures { result.now ≡ field number member.now }
{
    let mut before = number;
    for piece in Pieces::new(member, b'|') {
        if before == 0 {
            return piece;
        }
        before -= 1;
    }
    &[]
}

// The species, or the nickname if that is empty.
#[tactic(auto, unfolding(crate::specs::Packed::species_field))]
fn species_field(member: &[u8]) -> &[u8]
    ensures { result.now ≡ species_field member.now }
{
    let species = field(member, 1);
    if species.is_empty() {
        field(member, 0)
    } else {
        species
    }
}

#[tactic(auto, unfolding(crate::specs::Packed::without_item))]
fn without_item(spec: MemberSpec, text: &[u8]) -> Result<MemberSpec, MemberFault>
    ensures { result ≡ without_item text.now spec }
{
    if text.is_empty() {
        Ok(spec)
    } else {
        Err(MemberFault::Item)
    }
}

// The moves between commas; an empty place is skipped.
fn with_moves(spec: MemberSpec, text: &[u8]) -> Result<MemberSpec, MemberFault>
    ensures { result ≡ with_moves (pieces_of 44 text.now) spec }
{
    let mut spec = spec;
    for name in Pieces::new(text, b',') {
        if !name.is_empty() {
            spec = with_move(spec, name)?;
        }
    }
    Ok(spec)
}

// Six numbers between commas, each at most `most` or left out.
fn six_numbers(text: &[u8], most: u8) -> Option<Spread>
    ensures { result ≡ six_numbers most (pieces_of 44 text.now) }
{
    if piece_count(text, b',') != 6 {
        return None;
    }
    let mut spread = [None; 6];
    let mut place = 0;
    for piece in Pieces::new(text, b',') {
        spread[place] = number_if_any(piece, most)?;
        place += 1;
    }
    Some(spread)
}

#[tactic(auto, unfolding(crate::specs::Packed::number_if_any))]
fn number_if_any(text: &[u8], most: u8) -> Option<Option<u8>>
    ensures { result ≡ number_if_any most text.now }
{
    if text.is_empty() {
        return Some(None);
    }
    match number_in(text, most) {
        Some(number) => Some(Some(number)),
        None => None,
    }
}

// The EVs of a field: all at the highest if it is empty, and all 0 for a lone 0.
#[tactic(auto, unfolding(crate::specs::Packed::with_packed_evs))]
fn with_packed_evs(spec: MemberSpec, text: &[u8]) -> Result<MemberSpec, MemberFault>
    ensures { result ≡ with_packed_evs text.now spec }
{
    if text.is_empty() {
        return Ok(spec);
    }
    let mut spec = spec;
    let evs = if is_text(text, b"0") {
        Some([None; 6])
    } else {
        six_numbers(text, 255)
    };
    let Some(evs) = evs else {
        return Err(MemberFault::Evs);
    };
    spec.exp = exp_of_evs(evs)?;
    Ok(spec)
}

#[tactic(auto, unfolding(crate::specs::Packed::with_packed_ivs))]
fn with_packed_ivs(spec: MemberSpec, text: &[u8]) -> Result<MemberSpec, MemberFault>
    ensures { result ≡ with_packed_ivs text.now spec }
{
    if text.is_empty() {
        return Ok(spec);
    }
    let mut spec = spec;
    let Some(ivs) = six_numbers(text, 31) else {
        return Err(MemberFault::Ivs);
    };
    spec.dvs = dvs_of_ivs(ivs)?;
    Ok(spec)
}

#[tactic(auto, unfolding(crate::specs::Packed::with_packed_level))]
fn with_packed_level(spec: MemberSpec, text: &[u8]) -> Result<MemberSpec, MemberFault>
    ensures { result ≡ with_packed_level text.now spec }
{
    if text.is_empty() {
        Ok(spec)
    } else {
        with_level(spec, text)
    }
}
