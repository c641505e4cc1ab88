//! Battles made of two teams, or read from bytes or from a state as plain structs; that state; and numbers for a battle
//! to draw (include/gen1.h, "beginning", "searching", "looking"; docs/MECHANICS.md, "Link numbers").
ghost use Rattle.std.specs.Prelude.{All, ◌<◌, ◌↔◌, ◌≡◌, ◌≢◌, ◌≤◌};
ghost use Rattle.gen1_stats.specs.Teams.{team_of};
ghost use Rattle.gen1_machine.specs.Rules.{rules_of};
ghost use Rattle.gen1_machine.specs.State.{State, first_state};
ghost use Rattle.gen1_layout.specs.LoadingLaws.{IsBattle, StandsForSome};
ghost use Rattle.gen1_layout.specs.Shows.{Stands};
ghost use Rattle.gen1_layout.specs.Parts.{parts_of};
ghost use Rattle.gen1_states.specs.Plain.{bytes_of};
ghost use Rattle.gen1_states.specs.Tests.{completed, fault_of};
ghost use Rattle.gen1_states.specs.Reading.{HasKinds, IsCopied, state_of};
ghost use Rattle.gen1_engine.specs.Update.{reseeded};
ghost use Rattle.gen1_playouts.specs.Playouts.{numbers_from};
ghost use Rattle.gen1_c.specs.Battle.{Loads, fault_form, new_fault};
ghost use Rattle.gen1_c.specs.Teams.{sheets_of};

use crate::codes::{INDEX, RULES, STATE, TURN_LIMIT, of_load};
use crate::teams::{TeamForm, teams_of};
use gen1_engine::packed::reseed;
use gen1_layout::Packed;
use gen1_machine::{Rules, TurnLimit};
use gen1_playouts::ChoiceGenerator;
use gen1_rolls::LinkRandom;
use gen1_states::{BattleState, StateFault, from_state, state_of};

/// Makes a battle of two teams, before its first update (include/gen1.h, "beginning").
///
/// Returns 0, or an error: its code, plus 256 times the place of the member, plus 65,536 times the side of the team with the error.
#[unsafe(no_mangle)]
pub extern "C" fn gen1_new(
    battle: &mut Packed,
    one: &TeamForm,
    two: &TeamForm,
    seed: &[u8; 10],
    rules: u8,
    limit: u16,
) -> u32
    ensures fault { result ≡ new_fault one.now two.now rules limit }
    ensures begun { result ≡ 0
        → Stands battle.new
        (first_state (record { rules = rules_of rules; limit = limit })
        (team_of (sheets_of one.now)) (team_of (sheets_of two.now)) seed.now) }
    ensures kept { result ≢ 0 → battle.new ≡ battle.old }
{
    let Some(rules) = Rules::new(rules) else {
        return RULES;
    };
    let Some(limit) = TurnLimit::new(limit) else {
        return TURN_LIMIT;
    };
    match teams_of(one, two) {
        Ok((one, two)) => {
            *battle = Packed::with_limit(&one, &two, *seed, rules, limit);
            0
        }
        Err(fault) => fault,
    }
}

/// Reads a battle from bytes of any of the three versions (include/gen1.h, "beginning"; docs/LAYOUT.md, "Loading"). Returns 0, or
/// the code of the first of the seven tests that they fail.
#[unsafe(no_mangle)]
pub extern "C" fn gen1_load(battle: &mut Packed, bytes: &[u8]) -> u8
    ensures tests { Loads bytes.now battle.old battle.new result }
    ensures battle { result ≡ 0 ↔ IsBattle bytes.now }
    ensures stands { result ≡ 0 → StandsForSome battle.new }
{
    match Packed::read(bytes) {
        Ok(packed) => {
            *battle = packed;
            0
        }
        Err(fault) => of_load(fault),
    }
}

/// Replaces the numbers that a battle draws, and sets the index of the next one, 0 to 8; nothing else changes. Returns 0, or a
/// code if the index is above 8; then nothing has changed.
#[unsafe(no_mangle)]
pub extern "C" fn gen1_reseed(battle: &mut Packed, seed: &[u8; 10], index: u8) -> u8
    ensures stands { index < 9 → (s : State) → Stands battle.old s → (result ≡ 0)
        × Stands battle.new (reseeded (record { index = index; numbers = seed.now }) s) }
    ensures valid { StandsForSome battle.old → StandsForSome battle.new }
    // For any bytes, valid or not.
    ensures above { 9 ≤ index → result ≡ 46 }
    ensures below { index < 9 → result ≡ 0 }
    ensures kept { result ≢ 0 → battle.new ≡ battle.old }
{
    match LinkRandom::from_parts(index, *seed) {
        Some(numbers) => {
            reseed(battle, &numbers);
            0
        }
        None => INDEX,
    }
}

/// Writes ten numbers that a number determines: those that the generator of playouts draws from it.
#[unsafe(no_mangle)]
pub extern "C" fn gen1_seed_from_number(number: u64, seed: &mut [u8; 10])
    ensures drawn { seed.new ≡ (numbers_from number 10).drawn }
{
    *seed = ChoiceGenerator::new(number).ten_numbers();
}

/// The field of a state that is wrong (include/gen1.h, "looking").
#[repr(C)]
#[derive(Clone, Copy)]
pub struct StateFaultForm {
    pub value: u32,
    pub low: u32,
    pub high: u32,
    /// The number of the field.
    pub field: u8,
    /// 1 or 2; 0 for a field of the whole battle.
    pub side: u8,
    /// The place of the member, 1 to 6; 0 for a field of no member.
    pub place: u8,
    /// Which one of several; 0 for a field that stands once.
    pub index: u8,
}

/// Writes the state that a battle's bytes represent, every field of it.
#[unsafe(no_mangle)]
pub extern "C" fn gen1_get_state(battle: &Packed, state: &mut BattleState)
    ensures stands { (s : State) → Stands battle.now s → state.new ≡ state_of s }
    // For any bytes, valid or not.
    ensures copied { IsCopied battle.now.header state.new }
    ensures kinds { All HasKinds state.new.sides }
{
    *state = state_of(battle);
}

/// Makes a battle of a plain state. Returns 0, or the code of an error; then the battle has not changed, and `fault` says which
/// field is wrong.
#[unsafe(no_mangle)]
pub extern "C" fn gen1_set_state(
    battle: &mut Packed,
    state: &BattleState,
    fault: &mut StateFaultForm,
) -> u8
    ensures accepts { result ≡ 0 ↔ IsBattle (bytes_of (completed state.now)) }
    ensures code { result ≢ 0 → result ≡ 23 }
    ensures value { result ≡ 0 → battle.new ≡ parts_of (bytes_of (completed state.now)) }
    ensures stands { result ≡ 0 → StandsForSome battle.new }
    ensures faultless { result ≡ 0 → fault.new ≡ fault.old }
    ensures kept { result ≢ 0 → battle.new ≡ battle.old }
    ensures fault { result ≢ 0 → fault.new ≡ fault_form (fault_of (completed state.now)) }
{
    match from_state(state) {
        Ok(made) => {
            *battle = made;
            0
        }
        Err(found) => {
            *fault = fault_form(&found);
            STATE
        }
    }
}

pub(crate) fn fault_form(fault: &StateFault) -> StateFaultForm
    ensures { result ≡ fault_form fault.now }
{
    StateFaultForm {
        value: fault.value,
        low: fault.low,
        high: fault.high,
        field: fault.field.number(),
        side: fault.side,
        place: fault.place,
        index: fault.index,
    }
}
