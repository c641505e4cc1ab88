//! The battle of an input, and what is done in it or asked for, as JSON (docs/PROGRAM.md, "Input", "JSON, to the letter",
//! "calc").
ghost use Rattle.std.specs.Prelude.{IfOk, Result, ◌≡◌};
ghost use Rattle.battle_input.specs.Sheets.{IsShort, mapped, name_of, Gives, battle_of, battle_view, byte_of, calc_sheet_of, field_of, input_of, json_of, limit_numbered, limit_of, list_of, long_of, member_of, move_name_of, move_of, moves_of, numbers_of, of_value, or_expected, pair_of, rules_numbered, rules_of, sheet_of, sheet_view, side_of, species_of, submission_of, truth_of, word_of};
ghost use Rattle.battle_input.specs.declared.fault.Expected.TheVariants as expectations;
ghost use Rattle.battle_input.specs.declared.fault.Key.TheVariants as keys;
ghost use Rattle.battle_input.specs.declared.fault.Misfit.{Misfit as AMisfit};
ghost use Rattle.serde_json.specs.Data.{Data};
ghost use Rattle.serde_json.specs.Find.{get};
ghost use Rattle.serde_json.specs.View.{view};

use crate::fault::{Expected, Key, Misfit, SheetFault, Step, behind};
use crate::no_json::no_json;
use arrayvec::ArrayVec;
use gen1_machine::{Rules, Side, TurnLimit};
use gen1_stats::MemberSpec;
use gen1_tables::{MoveId, Species};
use serde_json::Value;
use std::alloc::{AllocError, Global};

/// A battle as requested, before any test of the teams.
#[derive(Debug, Drop)]
pub struct BattleSheet {
    pub seed: [u8; 10],
    pub one: Vec<MemberSpec>,
    pub two: Vec<MemberSpec>,
    pub rules: Rules,
    pub limit: TurnLimit,
}

/// A battle, and what is done in it: pairs of choices, or submissions to a room.
#[derive(Drop)]
pub struct Sheet<T> {
    pub battle: BattleSheet,
    pub items: Vec<T>,
}

/// The JSON value of an input; `Text` if it is not UTF-8, or not JSON.
#[tactic(auto, using(crate::proofs::Reading::json_some, crate::proofs::Reading::json_none))]
pub fn value_in(alloc: Global, input: &[u8]) -> Result<Value, SheetFault>
    ensures { Gives view result (json_of input.now) }
{
    match Value::from_slice(alloc, input) {
        Ok(value) => Ok(value),
        Err(error) => {
            if error.is_memory() {
                Err(SheetFault::Memory)
            } else {
                Err(SheetFault::Json(no_json(input)))
            }
        }
    }
}

fn read_byte(value: &Value) -> Result<u8, Misfit>
    ensures value { result ≡ byte_of (view value.now) }
    ensures short { IsShort 0 result }
{
    match value.as_u64() {
        Some(n) if n < 256 => Ok(n as u8),
        _ => Err(Misfit::here(Expected::Byte)),
    }
}

fn read_word(value: &Value) -> Result<u16, Misfit>
    ensures value { result ≡ word_of (view value.now) }
    ensures short { IsShort 0 result }
{
    match value.as_u64() {
        Some(n) if n < 65536 => Ok(n as u16),
        _ => Err(Misfit::here(Expected::Word)),
    }
}

fn read_long(value: &Value) -> Result<u32, Misfit>
    ensures value { result ≡ long_of (view value.now) }
    ensures short { IsShort 0 result }
{
    match value.as_u64() {
        Some(n) if n < 4294967296 => Ok(n as u32),
        _ => Err(Misfit::here(Expected::Long)),
    }
}

#[tactic(auto, using(crate::proofs::Reading::each_of_set, crate::proofs::Reading::each_of_stop, crate::proofs::Reading::each_of_full, crate::proofs::Reading::each_of_start, crate::proofs::Reading::count_of_view))]
fn read_bytes<const N: usize>(value: &Value) -> Result<[u8; N], Misfit>
    ensures value { result ≡ numbers_of byte_of N (view value.now) }
    ensures short { IsShort 1 result }
{
    let Some(items) = value.as_array() else {
        return Err(Misfit::here(Expected::Items(N)));
    };
    if items.len() != N {
        return Err(Misfit::here(Expected::Items(N)));
    }
    let mut bytes = [0u8; N];
    for i in 0..N {
        bytes[i] = behind(Step::At(i), read_byte(&items[i]))?;
    }
    Ok(bytes)
}

#[tactic(auto, using(crate::proofs::Reading::each_of_set, crate::proofs::Reading::each_of_stop, crate::proofs::Reading::each_of_full, crate::proofs::Reading::each_of_start, crate::proofs::Reading::count_of_view))]
fn read_words<const N: usize>(value: &Value) -> Result<[u16; N], Misfit>
    ensures value { result ≡ numbers_of word_of N (view value.now) }
    ensures short { IsShort 1 result }
{
    let Some(items) = value.as_array() else {
        return Err(Misfit::here(Expected::Items(N)));
    };
    if items.len() != N {
        return Err(Misfit::here(Expected::Items(N)));
    }
    let mut words = [0u16; N];
    for i in 0..N {
        words[i] = behind(Step::At(i), read_word(&items[i]))?;
    }
    Ok(words)
}

#[tactic(auto, using(crate::proofs::Reading::both_of_wrong, crate::proofs::Reading::both_of_first))]
fn read_pair(value: &Value) -> Result<(u8, u8), Misfit>
    ensures value { result ≡ pair_of (view value.now) }
    ensures short { IsShort 1 result }
{
    let Some(items) = value.as_array() else {
        return Err(Misfit::here(Expected::Items(2)));
    };
    if items.len() != 2 {
        return Err(Misfit::here(Expected::Items(2)));
    }
    let one = behind(Step::At(0), read_byte(&items[0]))?;
    let two = behind(Step::At(1), read_byte(&items[1]))?;
    Ok((one, two))
}

fn read_side(value: &Value) -> Result<Side, Misfit>
    ensures value { result ≡ side_of (view value.now) }
    ensures short { IsShort 0 result }
{
    match value.as_u64() {
        Some(1) => Ok(Side::One),
        Some(2) => Ok(Side::Two),
        _ => Err(Misfit::here(Expected::Side)),
    }
}

#[tactic(auto, using(crate::proofs::Reading::three_of_wrong, crate::proofs::Reading::three_of_first, crate::proofs::Reading::three_of_second))]
fn read_submission(value: &Value) -> Result<(Side, u32, u8), Misfit>
    ensures value { result ≡ submission_of (view value.now) }
    ensures short { IsShort 1 result }
{
    let Some(items) = value.as_array() else {
        return Err(Misfit::here(Expected::Items(3)));
    };
    if items.len() != 3 {
        return Err(Misfit::here(Expected::Items(3)));
    }
    let side = behind(Step::At(0), read_side(&items[0]))?;
    let number = behind(Step::At(1), read_long(&items[1]))?;
    let choice = behind(Step::At(2), read_byte(&items[2]))?;
    Ok((side, number, choice))
}

fn read_species(value: &Value) -> Result<Species, Misfit>
    ensures value { result ≡ species_of (view value.now) }
    ensures short { IsShort 0 result }
{
    let Some(name) = value.as_str() else {
        return Err(Misfit::here(Expected::Species));
    };
    match Species::from_name(name) {
        Some(species) => Ok(species),
        None => Err(Misfit::here(Expected::Species)),
    }
}

fn read_move_name(value: &Value) -> Result<MoveId, Misfit>
    ensures value { result ≡ move_name_of (view value.now) }
    ensures short { IsShort 0 result }
{
    let Some(name) = value.as_str() else {
        return Err(Misfit::here(Expected::Move));
    };
    match MoveId::from_name(name) {
        Some(id) => Ok(id),
        None => Err(Misfit::here(Expected::Move)),
    }
}

#[tactic(auto, using(crate::proofs::Reading::both_of_wrong, crate::proofs::Reading::both_of_first))]
fn read_move(value: &Value) -> Result<(MoveId, u8), Misfit>
    ensures value { result ≡ move_of (view value.now) }
    ensures short { IsShort 1 result }
{
    let Some(items) = value.as_array() else {
        return Err(Misfit::here(Expected::Items(2)));
    };
    if items.len() != 2 {
        return Err(Misfit::here(Expected::Items(2)));
    }
    let id = behind(Step::At(0), read_move_name(&items[0]))?;
    let ups = behind(Step::At(1), read_byte(&items[1]))?;
    Ok((id, ups))
}

#[tactic(auto, using(crate::proofs::Reading::each_of_more, crate::proofs::Reading::each_of_stop, crate::proofs::Reading::each_of_end, crate::proofs::Reading::each_of_start, crate::proofs::Reading::count_of_view))]
fn read_moves(value: &Value) -> Result<ArrayVec<(MoveId, u8), 4>, Misfit>
    ensures value { mapped (λ v. v.items) result ≡ moves_of (view value.now) }
    ensures short { IsShort 2 result }
{
    let Some(items) = value.as_array() else {
        return Err(Misfit::here(Expected::FewMoves));
    };
    if items.len() > 4 {
        return Err(Misfit::here(Expected::FewMoves));
    }
    let mut moves = ArrayVec::new();
    for (number, item) in items.iter().enumerate() {
        moves.push(behind(Step::At(number), read_move(item))?);
    }
    Ok(moves)
}

/// The value under a key.
fn value_at(value: &Value, key: Key) -> Result<&Value, Misfit>
    ensures value { mapped (λ v. view v.now) result
        ≡ or_expected (expectations.With key) (get (name_of key) (view value.now)) }
    ensures short { IsShort 0 result }
{
    match value.get(key.name()) {
        Some(found) => Ok(found),
        None => Err(Misfit::here(Expected::With(key))),
    }
}

/// Reads the member of a JSON value, before any test of its team.
pub fn read_member(value: &Value) -> Result<MemberSpec, Misfit>
    ensures value { result ≡ member_of (view value.now) }
    ensures short { IsShort 3 result }
{
    let species = value_at(value, Key::Species)?;
    let species = behind(Step::Of(Key::Species), read_species(species))?;
    let level = value_at(value, Key::Level)?;
    let level = behind(Step::Of(Key::Level), read_byte(level))?;
    let dvs = value_at(value, Key::Dvs)?;
    let dvs = behind(Step::Of(Key::Dvs), read_bytes::<4>(dvs))?;
    let exp = value_at(value, Key::Exp)?;
    let exp = behind(Step::Of(Key::Exp), read_words::<5>(exp))?;
    let moves = value_at(value, Key::Moves)?;
    let moves = behind(Step::Of(Key::Moves), read_moves(moves))?;
    Ok(MemberSpec {
        species,
        level,
        dvs,
        exp,
        moves,
    })
}

/// An item of a list of an input.
pub trait Item: Sized {
    // The item of a value, or where the value is not as expected.
    ghost meaning: { Data → Result Self AMisfit };

    /// Reads the item of a value. A misfit in it has a path of at most three steps.
    fn read(value: &Value) -> Result<Self, Misfit>
        ensures value { result ≡ meaning (view value.now) }
        ensures short { IsShort 3 result };
}

impl Item for MemberSpec {
    ghost meaning = { member_of };

    fn read(value: &Value) -> Result<MemberSpec, Misfit> {
        read_member(value)
    }
}

/// The choices of a pair, each as a byte.
impl Item for (u8, u8) {
    ghost meaning = { pair_of };

    fn read(value: &Value) -> Result<(u8, u8), Misfit> {
        read_pair(value)
    }
}

/// A submission to a room: a side, the number of the pair, and a choice as a byte.
impl Item for (Side, u32, u8) {
    ghost meaning = { submission_of };

    fn read(value: &Value) -> Result<(Side, u32, u8), Misfit> {
        read_submission(value)
    }
}

#[tactic(auto, using(crate::proofs::Reading::each_of_more, crate::proofs::Reading::each_of_stop, crate::proofs::Reading::each_of_end, crate::proofs::Reading::each_of_start, crate::proofs::Reading::count_of_view))]
fn read_list<T: Item + Drop>(
    alloc: Global,
    value: &Value,
) -> Result<Result<Vec<T>, Misfit>, AllocError>
    ensures value { IfOk result
        (λ read. mapped (λ v. v.items) read ≡ list_of T.meaning (view value.now)) }
    ensures short { IfOk result (λ read. IsShort 4 read) }
{
    let Some(values) = value.as_array() else {
        return Ok(Err(Misfit::here(Expected::List)));
    };
    let mut items = Vec::new(alloc);
    for (number, value) in values.iter().enumerate() {
        match behind(Step::At(number), T::read(value)) {
            Ok(item) => items.push(item)?,
            Err(misfit) => return Ok(Err(misfit)),
        }
    }
    Ok(Ok(items))
}

/// Reads the list under a key, or returns where it is not as expected.
///
/// # Errors
///
/// Out of memory.
pub fn read_list_at<T: Item + Drop>(
    alloc: Global,
    value: &Value,
    key: Key,
) -> Result<Result<Vec<T>, Misfit>, AllocError>
    ensures value { IfOk result
        (λ read. mapped (λ v. v.items) read
        ≡ field_of key (list_of T.meaning) (view value.now)) }
    ensures short { IfOk result (λ read. IsShort 5 read) }
{
    match value_at(value, key) {
        Ok(list) => Ok(behind(Step::Of(key), read_list(alloc, list)?)),
        Err(misfit) => Ok(Err(misfit)),
    }
}

fn read_seed(value: &Value) -> Result<[u8; 10], Misfit>
    ensures { result ≡ field_of keys.Seed (numbers_of byte_of 10) (view value.now) }
{
    let seed = value_at(value, Key::Seed)?;
    behind(Step::Of(Key::Seed), read_bytes::<10>(seed))
}

fn read_rules(value: &Value) -> Result<Rules, Misfit>
    ensures { result ≡ rules_of (view value.now) }
{
    match value.get(Key::Rules.name()) {
        None => Ok(Rules::default()),
        Some(rules) => behind(Step::Of(Key::Rules), read_rules_number(rules)),
    }
}

fn read_rules_number(value: &Value) -> Result<Rules, Misfit>
    ensures value { result ≡ rules_numbered (view value.now) }
    ensures short { IsShort 0 result }
{
    let Ok(number) = read_byte(value) else {
        return Err(Misfit::here(Expected::Rules));
    };
    match Rules::new(number) {
        Some(rules) => Ok(rules),
        None => Err(Misfit::here(Expected::Rules)),
    }
}

fn read_limit(value: &Value) -> Result<TurnLimit, Misfit>
    ensures { result ≡ limit_of (view value.now) }
{
    match value.get(Key::Limit.name()) {
        None => Ok(TurnLimit::default()),
        Some(limit) => behind(Step::Of(Key::Limit), read_limit_number(limit)),
    }
}

fn read_limit_number(value: &Value) -> Result<TurnLimit, Misfit>
    ensures value { result ≡ limit_numbered (view value.now) }
    ensures short { IsShort 0 result }
{
    let Ok(number) = read_word(value) else {
        return Err(Misfit::here(Expected::Limit));
    };
    match TurnLimit::new(number) {
        Some(limit) => Ok(limit),
        None => Err(Misfit::here(Expected::Limit)),
    }
}

/// Reads the battle of a JSON value, or returns the first place at which the value is not as expected: a required key is missing, a
/// list has another length, a number is not whole or out of range, or a name is unknown.
pub fn read_battle(alloc: Global, value: &Value) -> Result<BattleSheet, SheetFault>
    ensures { Gives battle_view result (of_value (battle_of (view value.now))) }
{
    let seed = read_seed(value)?;
    let one = read_list_at(alloc, value, Key::One)??;
    let two = read_list_at(alloc, value, Key::Two)??;
    let rules = read_rules(value)?;
    let limit = read_limit(value)?;
    Ok(BattleSheet {
        seed,
        one,
        two,
        rules,
        limit,
    })
}

/// The sheet of an input that is JSON, with the list under a key.
#[tactic(auto, using(crate::proofs::Reading::no_battle))]
pub fn read_sheet<T: Item + Drop>(
    alloc: Global,
    input: &[u8],
    key: Key,
) -> Result<Sheet<T>, SheetFault>
    ensures { Gives sheet_view result (input_of (sheet_of key T.meaning) input.now) }
{
    let value = value_in(alloc, input)?;
    let battle = read_battle(alloc, &value)?;
    let items = read_list_at(alloc, &value, key)??;
    Ok(Sheet { battle, items })
}

/// What the input asks `calc` for (docs/PROGRAM.md, "calc"), before any test of the members and the move.
#[derive(Debug, Drop)]
pub struct CalcSheet {
    pub attacker: MemberSpec,
    pub defender: MemberSpec,
    pub id: MoveId,
    pub critical: bool,
}

/// Reads the sheet of a JSON value.
///
/// # Errors
///
/// The first place at which the value is not as expected: a key is missing, a member does not have its shape, a name is unknown, or
/// `critical` is not a truth value.
pub fn read_calc_sheet(value: &Value) -> Result<CalcSheet, Misfit>
    ensures { result ≡ calc_sheet_of (view value.now) }
{
    let attacker = value_at(value, Key::Attacker)?;
    let attacker = behind(Step::Of(Key::Attacker), read_member(attacker))?;
    let defender = value_at(value, Key::Defender)?;
    let defender = behind(Step::Of(Key::Defender), read_member(defender))?;
    let id = value_at(value, Key::Move)?;
    let id = behind(Step::Of(Key::Move), read_move_name(id))?;
    let critical = value_at(value, Key::Critical)?;
    let critical = behind(Step::Of(Key::Critical), read_truth(critical))?;
    Ok(CalcSheet {
        attacker,
        defender,
        id,
        critical,
    })
}

fn read_truth(value: &Value) -> Result<bool, Misfit>
    ensures value { result ≡ truth_of (view value.now) }
    ensures short { IsShort 0 result }
{
    match value.as_bool() {
        Some(truth) => Ok(truth),
        None => Err(Misfit::here(Expected::Truth)),
    }
}
