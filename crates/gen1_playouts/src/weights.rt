//! Choices drawn by a table of weights, and the generator of playouts (include/gen1.h, "many battles").
ghost use Rattle.std.specs.Prelude.{false, length, map, slice_index_or, ℕ, ◌%◌, ◌*◌, ◌/◌, ◌<◌, ◌≡◌, ◌≤◌};
ghost use Rattle.gen1_machine.specs.declared.side.Choice.{Choice};
ghost use Rattle.gen1_machine.specs.declared.side.Choice.TheVariants as choices;
ghost use Rattle.gen1_machine.specs.State.{Field};
ghost use Rattle.gen1_layout.specs.Shows.{Setting, Within};
ghost use Rattle.gen1_offers.specs.OfferedChoices.{all_choices, choices_in};
ghost use Rattle.gen1_playouts.specs.Playouts.{IsDrawn, IsZeros, next_state, numbers_from, repeated, weight_in, weighted};

use gen1_engine::packed::{choice_at, count_of};
use gen1_layout::Packed;
use gen1_machine::{Choice, Side};

// Whether a table has a weight other than 0.
pub(crate) fn has_weights(table: &[u8; 166]) -> bool
    ensures none { result ≡ false → IsZeros table.now }
{
    let mut most = 0;
    for number in 0..166 {
        most = table[number].max(most);
    }
    most > 0
}

/// Draws one of the choices of a mask, as `offered_mask` of gen1_engine returns it. From a mask without choices it draws nothing, and
/// returns `Pass`.
pub fn pick(mask: u16, random: &mut ChoiceGenerator) -> Choice
    requires { mask < 4096 }
    ensures drawn { 1 ≤ length (choices_in mask)
        → IsDrawn random.old.state (choices_in mask) result random.new.state }
    ensures none { length (choices_in mask) ≡ 0
        → (result ≡ choices.Pass) × (random.new ≡ random.old) }
{
    let count = count_of(mask);
    if count == 0 {
        return Choice::Pass;
    }
    let place = random.below(count as usize) as u8;
    choice_at(mask, place)
}

// A choice by weights: one of the list that has each choice as often as its weight says, or once if all have the weight 0.
pub(crate) fn pick_weighted(mask: u16, weights: &[u8; 12], random: &mut ChoiceGenerator) -> Choice
    requires { mask < 4096 }
    ensures { (weight : Choice → ℕ) → weights.now ≡ map weight all_choices → 1 ≤ length (choices_in mask)
        → IsDrawn random.old.state (weighted weight (choices_in mask)) result random.new.state }
{
    let sum = sum_of(mask, weights);
    if sum == 0 {
        return pick(mask, random);
    }
    let index = random.below(sum as usize) as u16;
    choice_by_weight(mask, weights, index)
}

// The weights of the twelve choices of a side, by rising bytes.
pub(crate) fn weights_of(battle: &Packed, side: Side, table: &[u8; 166]) -> [u8; 12]
    ensures { (g : Setting) (f : Field) → Within g battle.now f
        → result ≡ map (weight_in table.now side f) all_choices }
{
    let other = table[0];
    [
        other,
        table[165],
        weight_of_slot(battle, side, 1, table),
        weight_of_slot(battle, side, 2, table),
        weight_of_slot(battle, side, 3, table),
        weight_of_slot(battle, side, 4, table),
        other,
        other,
        other,
        other,
        other,
        other,
    ]
}

fn weight_of_slot(battle: &Packed, side: Side, slot: u8, table: &[u8; 166]) -> u8
    requires low { 1 ≤ slot }
    requires high { slot ≤ 4 }
    ensures { (g : Setting) (f : Field) → Within g battle.now f
        → result ≡ weight_in table.now side f (choices.Move slot) }
{
    let number = battle.move_in(side, slot) as usize;
    if number < 166 { table[number] } else { 0 }
}

// How many choices there are, each as often as its weight says.
fn sum_of(mask: u16, weights: &[u8; 12]) -> u16
    requires { mask < 4096 }
    ensures { (weight : Choice → ℕ) → weights.now ≡ map weight all_choices
        → result ≡ length (repeated weight (choices_in mask)) }
{
    let mut sum = 0;
    let mut rest = mask;
    for digit in 0..12 {
        sum += weight_at(rest, weights[digit]);
        rest /= 2;
    }
    sum
}

// The choice at an index of the list that has each choice of a mask as often as its weight says.
fn choice_by_weight(mask: u16, weights: &[u8; 12], index: u16) -> Choice
    requires { mask < 4096 }
    ensures { (weight : Choice → ℕ) → weights.now ≡ map weight all_choices
        → index < length (repeated weight (choices_in mask))
        → result ≡ slice_index_or (repeated weight (choices_in mask)) index choices.Pass }
{
    let mut left = index;
    let mut place = 0;
    let mut rest = mask;
    for digit in 0..12 {
        let weight = weight_at(rest, weights[digit]);
        if left < weight {
            return choice_at(mask, place);
        }
        left -= weight;
        place += (rest % 2) as u8;
        rest /= 2;
    }
    Choice::Pass
}

// The weight of a mask's lowest digit, or 0 if that digit is 0.
fn weight_at(mask: u16, weight: u8) -> u16
    ensures value { result ≡ mask % 2 * weight }
    ensures bound { result ≤ 255 }
{
    if mask % 2 == 1 { u16::from(weight) } else { 0 }
}

/// A linear congruential generator modulo 2 to the power of 64. A draw is the upper 32 bits of its state.
#[derive(Drop)]
pub struct ChoiceGenerator {
    /// The state, which is the seed at first.
    pub state: u64,
}

impl ChoiceGenerator {
    /// The generator before its first draw.
    pub fn new(seed: u64) -> Self
        ensures { result.state ≡ seed }
    {
        ChoiceGenerator { state: seed }
    }

    /// Draws a number from 0 to `count - 1`: the upper bits of the next state, modulo the count.
    pub fn below(&mut self, count: usize) -> usize
        requires some { 1 ≤ count }
        ensures state { self.new.state ≡ next_state self.old.state }
        ensures value { result ≡ next_state self.old.state / 4294967296 % count }
        ensures bound { result < count }
    {
        self.state = next_state(self.state);
        (self.state / 4294967296) as usize % count
    }

    /// Draws the ten numbers of a battle, from the first on (docs/MECHANICS.md, "Link numbers").
    pub fn ten_numbers(&mut self) -> [u8; 10]
        ensures drawn { result ≡ (numbers_from self.old.state 10).drawn }
        ensures state { self.new.state ≡ (numbers_from self.old.state 10).random }
    {
        let mut numbers = [0; 10];
        for place in 0..10 {
            numbers[place] = self.below(256) as u8;
        }
        numbers
    }
}

// Knuth's multiplier and increment.
fn next_state(state: u64) -> u64
    ensures { result ≡ next_state state }
{
    state
        .wrapping_mul(6364136223846793005)
        .wrapping_add(1442695040888963407)
}
