//! Teams as text: read into plain structs, and written (include/gen1.h, "teams as text"; docs/TEAM_TEXT.md).
ghost use Rattle.std.specs.Prelude.{None, Ok, length, take, ◌≡◌, ◌≤◌};
ghost use Rattle.gen1_stats.specs.Teams.{team_of};
ghost use Rattle.gen1_text.specs.Packed.{members_packed, team_packed};
ghost use Rattle.gen1_text.specs.Texts.{members_told, team_told};
ghost use Rattle.gen1_writer.specs.Export.{text_of, packed_of, write_refusal};
ghost use Rattle.gen1_c.specs.Codes.{Writes};
ghost use Rattle.gen1_c.specs.Teams.{TellsTeam, code_of, expected, form_of, member_at, member_of, move_at, number_fault, of_packed, of_team, of_text, of_write, packed_due, sheets_of, team_due, text_due, written_due};

use crate::codes::{TEXT_FIELDS, TEXT_SEVENTH_MEMBER, TEXT_TEAM, UNWRITABLE};
use crate::lines::write_text;
use crate::teams::{MemberForm, TeamForm, fault_of, number_fault, specs_of};
use arrayvec::ArrayVec;
use gen1_stats::{MemberSpec, Team, TeamRefusal};
use gen1_tables::MoveId;
use gen1_text::{MemberFault, PackedFault, TextFault, members_in_packed, members_in_text};
use gen1_writer::{WriteFault, team_to_packed, team_to_text};

/// Where a text is wrong, and what was expected there.
#[repr(C)]
#[derive(Clone, Copy)]
pub struct TextFaultForm {
    /// The line, from 1; 0 if it is not about one line.
    pub line: usize,
    /// The member, from 1; 0 if it is not about one member.
    pub member: usize,
    /// The field of a packed line, from 1; 0 if it is not about one field.
    pub field: usize,
    /// What was expected.
    pub code: u8,
    /// Why the members are not a team.
    pub rule: u8,
    /// Always 0.
    pub reserved: [u8; 6],
}

/// Reads a team from the export text of a team builder. Returns 0, or the code of the first error; then the team has not
/// changed, and `fault` says where.
#[unsafe(no_mangle)]
pub extern "C" fn gen1_team_from_text(
    text: &[u8],
    team: &mut TeamForm,
    fault: &mut TextFaultForm,
) -> u8
    ensures tells { TellsTeam (text_due (members_told text.now))
        (record { team = team.old; fault = fault.old }) (record { team = team.new; fault = fault.new }) result }
{
    match members_in_text(text) {
        Ok(specs) => put_team(&specs, team, fault),
        Err(found) => put_fault(of_text(found), fault),
    }
}

/// Reads a team from a packed line, and returns as `gen1_team_from_text` does.
#[unsafe(no_mangle)]
pub extern "C" fn gen1_team_from_packed(
    text: &[u8],
    team: &mut TeamForm,
    fault: &mut TextFaultForm,
) -> u8
    ensures tells { TellsTeam (packed_due (members_packed text.now))
        (record { team = team.old; fault = fault.old }) (record { team = team.new; fault = fault.new }) result }
{
    match members_in_packed(text) {
        Ok(specs) => put_team(&specs, team, fault),
        Err(found) => put_fault(of_packed(found), fault),
    }
}

/// Writes a team as export text, and its number of bytes. Returns 0, or a code as `gen1_new` does for a team, of a move with other
/// than three PP ups, or of a text that is too small; then nothing has changed.
#[unsafe(no_mangle)]
#[tactic(auto, using(crate::proofs::Writing::written_fits))]
pub extern "C" fn gen1_team_to_text(team: &TeamForm, text: &mut [u8], written: &mut usize) -> u32
    ensures writes { Writes (written_due text_of team.now) (record { bytes = text.old; count = written.old })
        (record { bytes = text.new; count = written.new }) result }
    // There is room for any team that has a text.
    ensures fits { 1408 ≤ length text.old → number_fault team.now ≡ 0
        → write_refusal (sheets_of team.now) ≡ None → result ≡ 0 }
    // What it writes is read as the same team.
    ensures back { result ≡ 0 → team_told (take written.new text.new) ≡ Ok (team_of (sheets_of team.now)) }
{
    let fault = number_fault(team);
    if fault > 0 {
        return fault;
    }
    let specs = specs_of(team);
    let count = usize::from(team.count);
    match team_to_text(&specs[..count]) {
        Ok(lines) => u32::from(write_text(lines.as_slice(), text, written)),
        Err(refused) => of_write(refused),
    }
}

/// Writes a team as a packed line with a line feed, and returns as `gen1_team_to_text` does.
#[unsafe(no_mangle)]
#[tactic(auto, using(crate::proofs::Writing::written_fits))]
pub extern "C" fn gen1_team_to_packed(team: &TeamForm, text: &mut [u8], written: &mut usize) -> u32
    ensures writes { Writes (written_due packed_of team.now) (record { bytes = text.old; count = written.old })
        (record { bytes = text.new; count = written.new }) result }
    // There is room for any team that has a text.
    ensures fits { 832 ≤ length text.old → number_fault team.now ≡ 0
        → write_refusal (sheets_of team.now) ≡ None → result ≡ 0 }
    // What it writes is read as the same team.
    ensures back { result ≡ 0 → team_packed (take written.new text.new) ≡ Ok (team_of (sheets_of team.now)) }
{
    let fault = number_fault(team);
    if fault > 0 {
        return fault;
    }
    let specs = specs_of(team);
    let count = usize::from(team.count);
    match team_to_packed(&specs[..count]) {
        Ok(line) => u32::from(write_text(line.as_slice(), text, written)),
        Err(refused) => of_write(refused),
    }
}

// Writes the members to the struct, if they are a team.
fn put_team(specs: &ArrayVec<MemberSpec, 6>, team: &mut TeamForm, fault: &mut TextFaultForm) -> u8
    ensures { TellsTeam (team_due specs.now.items)
        (record { team = team.old; fault = fault.old }) (record { team = team.new; fault = fault.new }) result }
{
    match Team::new(specs.as_slice()) {
        Ok(_) => {
            *team = form_of(specs.as_slice());
            0
        }
        Err(refusal) => put_fault(of_team(refusal), fault),
    }
}

fn put_fault(found: TextFaultForm, fault: &mut TextFaultForm) -> u8
    ensures code { result ≡ found.code }
    ensures put { fault.new ≡ found }
{
    *fault = found;
    found.code
}

// Errors.

fn of_text(fault: TextFault) -> TextFaultForm
    ensures { result ≡ of_text fault }
{
    match fault {
        TextFault::Line { line, fault } => TextFaultForm {
            line,
            ..expected(number_of(fault))
        },
        TextFault::Team(refusal) => of_team(refusal),
    }
}

fn of_packed(fault: PackedFault) -> TextFaultForm
    ensures { result ≡ of_packed fault }
{
    match fault {
        PackedFault::Fields { member } => TextFaultForm {
            member,
            ..expected(TEXT_FIELDS)
        },
        PackedFault::Field {
            member,
            field,
            fault,
        } => TextFaultForm {
            member,
            field,
            ..expected(number_of(fault))
        },
        PackedFault::SeventhMember => expected(TEXT_SEVENTH_MEMBER),
        PackedFault::Team(refusal) => of_team(refusal),
    }
}

fn of_team(refusal: TeamRefusal) -> TextFaultForm
    ensures { result ≡ of_team refusal }
{
    TextFaultForm {
        member: usize::from(refusal.place()),
        rule: refusal.number(),
        ..expected(TEXT_TEAM)
    }
}

fn of_write(fault: WriteFault) -> u32
    ensures value { result ≡ of_write fault }
    ensures some { 1 ≤ result }
{
    match fault {
        WriteFault::Team(refusal) => fault_of(refusal),
        WriteFault::PpUps(place) => 256 * u32::from(place) + u32::from(UNWRITABLE),
    }
}

fn expected(code: u8) -> TextFaultForm
    ensures { result ≡ expected code }
{
    TextFaultForm {
        line: 0,
        member: 0,
        field: 0,
        code,
        rule: 0,
        reserved: [0; 6],
    }
}

fn number_of(fault: MemberFault) -> u8
    ensures { result ≡ code_of fault }
{
    match fault {
        MemberFault::Species => 64,
        MemberFault::Item => 65,
        MemberFault::SeventhMember => 66,
        MemberFault::Level => 67,
        MemberFault::Evs => 68,
        MemberFault::SpecialEvs => 69,
        MemberFault::Ivs => 70,
        MemberFault::SpecialIvs => 71,
        MemberFault::HpIv => 72,
        MemberFault::Move => 73,
        MemberFault::FifthMove => 74,
        MemberFault::UnknownLine => 75,
    }
}

// The struct.

pub(crate) fn form_of(specs: &[MemberSpec]) -> TeamForm
    requires few { length specs.now ≤ 6 }
    ensures value { result ≡ form_of specs.now }
{
    TeamForm {
        members: [
            member_at(specs, 0),
            member_at(specs, 1),
            member_at(specs, 2),
            member_at(specs, 3),
            member_at(specs, 4),
            member_at(specs, 5),
        ],
        count: specs.len() as u8,
        reserved: 0,
    }
}

// The member at an index; zeros after the last.
fn member_at(specs: &[MemberSpec], index: usize) -> MemberForm
    ensures { result ≡ member_at specs.now index }
{
    match specs.get(index) {
        Some(spec) => member_of(spec),
        None => MemberForm {
            species: 0,
            level: 0,
            dvs: [0; 4],
            moves: [0; 4],
            pp_ups: [0; 4],
            exp: [0; 5],
        },
    }
}

fn member_of(spec: &MemberSpec) -> MemberForm
    ensures { result ≡ member_of spec.now }
{
    let moves = spec.moves.as_slice();
    let (first, second) = (move_at(moves, 0), move_at(moves, 1));
    let (third, fourth) = (move_at(moves, 2), move_at(moves, 3));
    MemberForm {
        species: spec.species.number(),
        level: spec.level,
        dvs: spec.dvs,
        moves: [first.0, second.0, third.0, fourth.0],
        pp_ups: [first.1, second.1, third.1, fourth.1],
        exp: spec.exp,
    }
}

// The number and the PP ups of the move at an index; zeros after the last.
fn move_at(moves: &[(MoveId, u8)], index: usize) -> (u8, u8)
    ensures { result ≡ move_at moves.now index }
{
    match moves.get(index) {
        Some(known) => (known.0.number(), known.1),
        None => (0, 0),
    }
}
