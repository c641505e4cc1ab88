//! The damage numbers that an input asks for: of a move between two members, each just sent out, in one line
//! (docs/PROGRAM.md, "calc").
ghost use Rattle.std.specs.Prelude.{IfSome, [], length, ◌+◌, ◌||◌, ◌∷◌, ◌≡◌, ◌≤◌};
ghost use Rattle.gen1_stats.specs.Teams.{Sheet as MemberSheet, member_of, team_of};
ghost use Rattle.gen1_devices.specs.Input.{TakesAtMost};
ghost use Rattle.gen1_layout.specs.Shows.{Setting, Within};
ghost use Rattle.battle_input.specs.Sheets.{Gives, calc_sheet_of, input_of};
ghost use Rattle.battle_commands.specs.Asked.{Finds, is_read_fault, is_write_fault};
ghost use Rattle.battle_commands.specs.Calc.{PrintsDamages, damages_due, damages_of, duel, number_line};

use crate::fault::ToolFault;
use crate::input::{INPUT_LIMIT, read_input};
use arrayvec::ArrayString;
use battle_input::{CalcSheet, SheetFault, read_calc_sheet, value_in};
use gen1_hits::{damage_list, has_usual_damage, numbers};
use gen1_layout::Packed;
use gen1_machine::{EventList, Side, Sink, Source, send};
use gen1_stats::Team;
use gen1_switching::send_both_first;
use gen1_tables::MoveId;
use itoa::Buffer;
use std::alloc::Global;

/// Reads the input of `calc`, and writes the damage numbers in one line (docs/PROGRAM.md, "calc").
///
/// The whole input is read; then its sheet, the attacker's team, the defender's team and the move are tested. The line is sent in
/// one call. If any other error than that of this call is returned, nothing is written.
pub fn play_calc<A: AllocGlobal, R: Source, W: Sink>(
    rt: &A,
    reader: &mut R,
    writer: &mut W,
) -> Result<(), ToolFault>
    // If the source reports its bytes, what they ask for is written and returned.
    ensures answers { IfSome (R.remaining reader.old)
        (λ input. PrintsDamages (damages_due input) (W.contents writer.old) (W.contents writer.new)
        result) }

    // At most one byte beyond the limit is taken from the source.
    ensures taken { TakesAtMost (R.remaining reader.old) (R.remaining reader.new) (INPUT_LIMIT + 1) }

    // It returns a device's error exactly if that device has failed in this call.
    ensures read { R.has_failed reader.new ≡ (R.has_failed reader.old || is_read_fault result) }
    ensures write { W.has_failed writer.new ≡ (W.has_failed writer.old || is_write_fault result) }
{
    let input = read_input(rt.alloc(), reader)?;
    let numbers = find_numbers(rt.alloc(), input.as_slice())?;
    match send(writer, number_line(&numbers).as_str().as_bytes()) {
        Ok(()) => Ok(()),
        Err(_) => Err(ToolFault::Write),
    }
}

/// The damage numbers that an input asks for.
#[tactic(auto, unfolding(crate::specs::Calc::damages_due))]
fn find_numbers(alloc: Global, input: &[u8]) -> Result<[u16; 39], ToolFault>
    requires { length input.now ≤ INPUT_LIMIT }
    ensures { Finds result (damages_due input.now) }
{
    let sheet = calc_sheet_in(alloc, input)?;
    let CalcSheet {
        attacker,
        defender,
        id,
        critical,
    } = sheet;
    let one = match Team::new(&[attacker]) {
        Ok(team) => team,
        Err(refusal) => return Err(ToolFault::of_team(1, refusal)),
    };
    let two = match Team::new(&[defender]) {
        Ok(team) => team,
        Err(refusal) => return Err(ToolFault::of_team(2, refusal)),
    };
    if !has_usual_damage(id) {
        return Err(ToolFault::Calc);
    }
    match damages(&one, &two, id, critical) {
        Some(numbers) => Ok(numbers),
        None => Err(ToolFault::Calc),
    }
}

/// The sheet of an input.
fn calc_sheet_in(alloc: Global, input: &[u8]) -> Result<CalcSheet, SheetFault>
    ensures { Gives (λ sheet. sheet) result (input_of calc_sheet_of input.now) }
{
    let value = value_in(alloc, input)?;
    Ok(read_calc_sheet(&value)?)
}

/// Returns the damage of a move at each factor from 217 to 255, between the members of two teams of one (docs/MECHANICS.md, "Damage
/// numbers" to "Factors"). Both are just sent out, and the first one uses the move. `None` if the divisor is 0.
pub fn damages(one: &Team, two: &Team, id: MoveId, critical: bool) -> Option<[u16; 39]>
    ensures { (a b : MemberSheet) → one.now ≡ team_of (a ∷ []) → two.now ≡ team_of (b ∷ [])
        → result ≡ damages_of
        (record { attacker = a; defender = b; id = id; critical = critical }) }
{
    let battle = begin_duel(one, two);
    damage_list(&numbers(&battle, Side::One, id, critical))
}

/// Makes a battle of two teams of one, whose members are both out (docs/MECHANICS.md, "Switching in").
pub fn begin_duel(one: &Team, two: &Team) -> Packed
    ensures { (a b : MemberSheet) → one.now ≡ team_of (a ∷ []) → two.now ≡ team_of (b ∷ [])
        → (g : Setting) × Within g result (duel (member_of a) (member_of b)) }
{
    let mut battle = Packed::new(one, two, [0; 10]);
    send_both_first(&mut battle, &mut EventList::new());
    battle
}

/// The most bytes of a line of 39 numbers: five digits each, and a space or the line feed.
const LENGTH: usize = 234;

/// Numbers in decimal, in one line, with single spaces between them.
pub fn number_line(numbers: &[u16; 39]) -> ArrayString<LENGTH>
    ensures { result.bytes ≡ number_line numbers.now }
{
    let mut line = ArrayString::new();
    let mut digits = Buffer::new();
    line.push_str(digits.format(numbers[0]));
    for number in &numbers[1..] {
        line.push_str(" ");
        line.push_str(digits.format(*number));
    }
    line.push_str("\n");
    line
}
