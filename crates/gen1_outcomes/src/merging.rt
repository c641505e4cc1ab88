//! Battles that are equal become one (docs/MECHANICS.md, "Link numbers").
ghost use Rattle.std.specs.Prelude.{IfErr, IfOk, IsFalse, IsOkUnless, IsTrue, OnErr, OnOk, length, slice_index, slice_index_or, slice_set, ℕ, ◌*◌, ◌+◌, ◌^◌, ◌<◌, ◌≡◌, ◌≢◌, ◌≤◌};
ghost use Rattle.std.specs.Int.{IsGcd};
ghost use Rattle.gen1_layout.specs.Parts.{joined};
ghost use Rattle.gen1_outcomes.specs.Chances.{IsBelow};
ghost use Rattle.gen1_outcomes.specs.Listing.{AreThose, AreThoseOr, KeepsFirst};
ghost use Rattle.gen1_outcomes.specs.declared.successor.OutcomesFault.TheVariants.{Size};
ghost use Rattle.gen1_outcomes.specs.Middles.{IsIndexed, IsNew, IsPlace, IsShort, LeavesOut, StayIndexed, hash_of, mixed, with_block, with_member, with_side, word_at};
ghost use Rattle.gen1_outcomes.specs.Weights.{Adds, IsLeft, KeepsShares, TakesEach, weight_at};
ghost use Rattle.gen1_outcomes.specs.declared.successor.Successor.{Successor};

use crate::nodes::Chance;
use crate::successor::{OutcomesFault, Successor, is_below};
use gen1_layout::{Packed, copy_of};

/// What a list of successors has so far.
#[derive(Clone, Copy, PartialEq, Eq, Debug, Drop)]
pub struct Tally {
    /// How many places of it are taken.
    pub count: usize,
    /// The common denominator of the weights.
    pub whole: u128,
    /// The sum of the weights of the branches that are left out.
    pub left_out: u128,
    /// A branch is left out if its probability is below `least` / 2^32.
    pub least: u32,
    /// How many ways were added.
    pub ways: u32,
}

impl Tally {
    /// Counts so many ways more.
    ///
    /// # Errors
    ///
    /// `Size`, if 32 bits do not hold the sum.
    pub fn count_ways(&mut self, ways: u32) -> Result<(), OutcomesFault>
        ensures counts { OnOk result (self.new ≡ record self.old { ways = self.old.ways + ways }) }
        ensures count { self.new.count ≡ self.old.count }
        ensures size { IsOkUnless result Size }
        ensures large { OnErr result (2 ^ 32 ≤ self.old.ways + ways) }
        ensures left_out { LeavesOut self.old self.new }
    {
        match self.ways.checked_add(ways) {
            Some(sum) => {
                self.ways = sum;
                Ok(())
            }
            None => Err(OutcomesFault::Size),
        }
    }
}

/// Where a battle is in a list, or where its number goes in the table.
#[derive(Clone, Copy, PartialEq, Eq, Debug, Drop)]
pub enum Place {
    /// It is in this place of the list.
    Taken(usize),
    /// It is not in the list, and this place of the table is free.
    Free(usize),
    /// No place of the table is free.
    Full,
}

/// Adds a battle with its probability, or leaves it out if that is below the least one. A battle that is there with the same
/// bytes gets its weight.
pub fn add(
    successors: &mut [Successor],
    table: &mut [u32],
    tally: &mut Tally,
    battle: &Packed,
    chance: Chance,
) -> Result<(), OutcomesFault>
    requires within { tally.old.count ≤ length successors.old }
    ensures within { tally.new.count ≤ length successors.new }
    ensures battles { OnOk result (AreThoseOr battle.now tally.old.count successors.old
        tally.new.count successors.new) }
    ensures left_out { OnOk result (LeavesOut tally.old tally.new) }
    ensures adds { OnOk result (Adds battle.now chance tally.old tally.new successors.old
        successors.new) }
    ensures first { OnOk result (KeepsFirst tally.old.count successors.old successors.new) }
    ensures takes { TakesEach tally.old tally.new table.old table.new }
    ensures indexed { OnOk result (StayIndexed tally.old successors.old table.old tally.new
        successors.new table.new) }
    ensures short { IfErr result (λ why.
        IsShort why tally.new.count (length successors.new) table.new) }
{
    if is_below(chance, tally.least) {
        return leave_out(successors, tally, chance);
    }
    let weight = scaled_weight(successors, tally, chance)?;
    match find(&successors[..tally.count], table, battle) {
        Place::Taken(place) => add_weight(successors, place, weight),
        Place::Free(slot) => append(
            successors,
            table,
            tally,
            slot,
            Successor::new(copy_of(battle), weight),
        ),
        Place::Full => Err(OutcomesFault::Table),
    }
}

/// Adds the probability of a branch that is left out.
pub fn leave_out(
    successors: &mut [Successor],
    tally: &mut Tally,
    chance: Chance,
) -> Result<(), OutcomesFault>
    requires within { tally.old.count ≤ length successors.old }
    requires below { IsBelow tally.old.least chance }
    ensures count { tally.new.count ≡ tally.old.count }
    ensures battles { AreThose successors.old successors.new }
    ensures left_out { OnOk result (LeavesOut tally.old tally.new) }
    ensures left { OnOk result (IsLeft chance tally.old tally.new successors.old successors.new) }
    ensures size { IsOkUnless result Size }
{
    let weight = scaled_weight(successors, tally, chance)?;
    match tally.left_out.checked_add(weight) {
        Some(sum) => {
            tally.left_out = sum;
            Ok(())
        }
        None => Err(OutcomesFault::Size),
    }
}

// Puts a successor into the next place, and its number into the table.
#[tactic(auto, using(crate::proofs::Lists::written))]
fn append(
    successors: &mut [Successor],
    table: &mut [u32],
    tally: &mut Tally,
    slot: usize,
    successor: Successor,
) -> Result<(), OutcomesFault>
    requires within { tally.old.count ≤ length successors.old }
    requires slot { slot < length table.old }
    requires free { slice_index table.old slot ≡ 0 }
    ensures within { tally.new.count ≤ length successors.new }
    ensures battles { OnOk result (AreThoseOr successor.battle tally.old.count successors.old
        tally.new.count successors.new) }
    ensures left_out { OnOk result (LeavesOut tally.old tally.new) }
    ensures counts { OnOk result (tally.new ≡ record tally.old { count = tally.old.count + 1 }) }
    ensures list { OnOk result (successors.new
        ≡ slice_set successors.old tally.old.count successor) }
    ensures table { OnOk result (table.new ≡ slice_set table.old slot (tally.old.count + 1)) }
    ensures kept { OnErr result ((tally.new ≡ tally.old) × (table.new ≡ table.old)) }
    ensures short { IfErr result (λ why.
        IsShort why tally.new.count (length successors.new) table.new) }
{
    if tally.count >= successors.len() {
        return Err(OutcomesFault::Places);
    }
    let Ok(number) = u32::try_from(tally.count + 1) else {
        return Err(OutcomesFault::Places);
    };
    successors[tally.count] = successor;
    table[slot] = number;
    tally.count += 1;
    Ok(())
}

fn add_weight(successors: &mut [Successor], place: usize, weight: u128) -> Result<(), OutcomesFault>
    requires { place < length successors.old }
    ensures battles { AreThose successors.old successors.new }
    ensures here { OnOk result ((past : Successor) → weight_at successors.new place past
        ≡ weight_at successors.old place past + weight) }
    ensures others { (k : ℕ) → (past : Successor) → k ≢ place
        → slice_index_or successors.new k past ≡ slice_index_or successors.old k past }
    ensures size { IsOkUnless result Size }
    ensures large { (past : Successor) → OnErr result (2 ^ 128 ≤ weight_at successors.old place past
        + weight) }
{
    match successors[place].weight().checked_add(weight) {
        Some(sum) => {
            successors[place].put_weight(sum);
            Ok(())
        }
        None => Err(OutcomesFault::Size),
    }
}

// Where the battle is, or where its number goes in the table.
fn find(successors: &[Successor], table: &[u32], battle: &Packed) -> Place
    ensures place { IsPlace successors.now table.now battle.now result }
    ensures new { IsIndexed table.now (length successors.now) successors.now
        → IsNew successors.now table.now battle.now result }
{
    if table.is_empty() {
        return Place::Full;
    }
    let mut slot = (hash(battle) % table.len() as u64) as usize;
    'slots: for _ in 0..table.len() {
        let number = table[slot] as usize;
        if number == 0 {
            return Place::Free(slot);
        }
        if number <= successors.len() && are_equal(&successors[number - 1].battle, battle) {
            return Place::Taken(number - 1);
        }
        slot += 1;
        if slot == table.len() {
            slot = 0;
        }
    }
    Place::Full
}

fn are_equal(one: &Packed, other: &Packed) -> bool
    ensures same { IsTrue result → joined one.now ≡ joined other.now }
    ensures differ { IsFalse result → joined one.now ≢ joined other.now }
{
    one.as_bytes() == other.as_bytes()
}

/// A number of 32 bits that is equal for equal bytes.
pub(crate) fn hash(battle: &Packed) -> u64
    ensures value { result ≡ hash_of (joined battle.now) }
    ensures small { result < 4294967296 }
{
    let bytes = battle.as_bytes();
    let header = mixed(word_at(bytes, 0), word_at(bytes, 16));
    let one = with_side(header, bytes, 24);
    mixed(with_side(one, bytes, 204), 0) / 0x1_0000_0000
}

// With the words of a side that most updates change: its active member and its active block.
fn with_side(hash: u64, bytes: &[u8], at: usize) -> u64
    requires { at + 180 ≤ length bytes.now }
    ensures { result ≡ with_side hash bytes.now at }
{
    let place = usize::from(bytes[at + 144]).saturating_sub(1).min(5);
    with_block(with_member(hash, bytes, at + 24 * place), bytes, at + 144)
}

// Its level, HP, status, moves and PP.
fn with_member(hash: u64, bytes: &[u8], at: usize) -> u64
    requires { at + 24 ≤ length bytes.now }
    ensures { result ≡ with_member hash bytes.now at }
{
    let more = mixed(hash, word_at(bytes, at));
    mixed(
        mixed(more, word_at(bytes, at + 14)),
        word_at(bytes, at + 16),
    )
}

// All but the four bytes that are always 0.
fn with_block(hash: u64, bytes: &[u8], at: usize) -> u64
    requires { at + 32 ≤ length bytes.now }
    ensures { result ≡ with_block hash bytes.now at }
{
    let half = mixed(mixed(hash, word_at(bytes, at)), word_at(bytes, at + 8));
    mixed(
        mixed(half, word_at(bytes, at + 16)),
        word_at(bytes, at + 24),
    )
}

fn mixed(hash: u64, word: u64) -> u64
    ensures { result ≡ mixed hash word }
{
    hash.wrapping_mul(0x9E37_79B9_7F4A_7C15).wrapping_add(word)
}

fn word_at(bytes: &[u8], at: usize) -> u64
    requires { at + 8 ≤ length bytes.now }
    ensures { result ≡ word_at bytes.now at }
{
    match bytes[at..].first_chunk::<8>() {
        Some(word) => u64::from_le_bytes(*word),
        None => 0,
    }
}

// The probability over the common denominator, which grows where it has to.
fn scaled_weight(
    successors: &mut [Successor],
    tally: &mut Tally,
    chance: Chance,
) -> Result<u128, OutcomesFault>
    requires within { tally.old.count ≤ length successors.old }
    ensures count { tally.new.count ≡ tally.old.count }
    ensures battles { AreThose successors.old successors.new }
    ensures left_out { IfOk result (λ _. LeavesOut tally.old tally.new) }
    ensures keeps { IfOk result (λ _.
        KeepsShares tally.old tally.new successors.old successors.new) }
    ensures weight { IfOk result (λ weight.
        weight * chance.whole ≡ chance.num * tally.new.whole) }
    ensures size { IsOkUnless result Size }
{
    if tally.whole == chance.whole {
        return Ok(chance.num);
    }
    if tally.whole % chance.whole != 0 {
        let more = chance.whole / common_divisor(tally.whole, chance.whole);
        scale(successors, tally, more)?;
    }
    match chance.num.checked_mul(tally.whole / chance.whole) {
        Some(weight) => Ok(weight),
        None => Err(OutcomesFault::Size),
    }
}

// Multiplies the weights, those that are left out too, and their denominator.
fn scale(successors: &mut [Successor], tally: &mut Tally, more: u128) -> Result<(), OutcomesFault>
    requires within { tally.old.count ≤ length successors.old }
    requires some { 0 < more }
    ensures count { tally.new.count ≡ tally.old.count }
    ensures battles { AreThose successors.old successors.new }
    ensures left_out { OnOk result (LeavesOut tally.old tally.new) }
    ensures keeps { OnOk result (KeepsShares tally.old tally.new successors.old successors.new) }
    ensures whole { OnOk result (tally.new.whole ≡ tally.old.whole * more) }
    ensures size { IsOkUnless result Size }
{
    match (
        tally.whole.checked_mul(more),
        tally.left_out.checked_mul(more),
    ) {
        (Some(whole), Some(left_out)) => {
            tally.whole = whole;
            tally.left_out = left_out;
        }
        _ => return Err(OutcomesFault::Size),
    }
    'places: for place in 0..tally.count {
        multiply(successors, place, more)?;
    }
    Ok(())
}

fn multiply(successors: &mut [Successor], place: usize, more: u128) -> Result<(), OutcomesFault>
    requires { place < length successors.old }
    ensures battles { AreThose successors.old successors.new }
    ensures here { OnOk result ((past : Successor) → weight_at successors.new place past
        ≡ weight_at successors.old place past * more) }
    ensures others { (k : ℕ) → (past : Successor) → k ≢ place
        → slice_index_or successors.new k past ≡ slice_index_or successors.old k past }
    ensures size { IsOkUnless result Size }
    ensures large { (past : Successor) → OnErr result (2 ^ 128 ≤ weight_at successors.old place past
        * more) }
{
    match successors[place].weight().checked_mul(more) {
        Some(weight) => {
            successors[place].put_weight(weight);
            Ok(())
        }
        None => Err(OutcomesFault::Size),
    }
}

/// The greatest number that divides both.
pub(crate) fn common_divisor(one: u128, other: u128) -> u128
    requires { 0 < other }
    ensures positive { 0 < result }
    ensures greatest { IsGcd one other result }
{
    let mut left = one;
    let mut right = other;
    while right != 0 {
        let rest = left % right;
        left = right;
        right = rest;
    }
    left
}
