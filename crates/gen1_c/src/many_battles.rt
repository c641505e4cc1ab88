//! Many battles in one call: updates, random steps, and battles played by random choices, to their end or a number of
//! updates long (include/gen1.h, "many battles").
ghost use Rattle.std.specs.Prelude.{Option, Some, length, ◌≡◌, ◌≢◌, ◌≤◌};
ghost use Rattle.gen1_machine.specs.Numbers.{side_number};
ghost use Rattle.gen1_machine.specs.declared.side.Side.{Side};
ghost use Rattle.gen1_machine.specs.Choices.{byte_of_choice, choice_at};
ghost use Rattle.gen1_machine.specs.State.{State};
ghost use Rattle.gen1_layout.specs.Parts.{joined};
ghost use Rattle.gen1_layout.specs.Shows.{Stands};
ghost use Rattle.gen1_playouts.specs.Playouts.{begun, total};
ghost use Rattle.gen1_c.specs.Batches.{AreListed, AreMasks, AreStepped, AreUpdated, HasLengths, IsAt, IsListed, IsStart, IsStepped, Plays, depth_of, one_if_over, options_of, over_in, started_again};
ghost use Rattle.gen1_c.specs.Battle.{IsNoSide};

use crate::codes::{LENGTHS, OVER, SIDE, of_load};
use crate::update::{gen1_result, gen1_update_silent};
use gen1_engine::packed::{offered_mask, reseed, result, update_offered};
use gen1_events::Silent;
use gen1_layout::{Packed, copy_of};
use gen1_machine::{Choice, Side};
use gen1_playouts::{ChoiceGenerator, PlayoutOptions, Playouts, pick, playout};
use gen1_rolls::LinkRandom;

/// Writes the mask of a side in each of many battles, as `gen1_offered` returns it. Returns 0, or the code of
/// the side, or of an array whose length is not that of the battles; then nothing has changed.
#[unsafe(no_mangle)]
pub extern "C" fn gen1_offered_many(battles: &[Packed], side: u8, masks: &mut [u16]) -> u8
    ensures offers { (which : Side) → side ≡ side_number which
        → length masks.old ≡ length battles.now
        → (result ≡ 0) × AreMasks which battles.now masks.new }
    ensures no_side { IsNoSide side → result ≡ 40 }
    ensures lengths { (which : Side) → side ≡ side_number which
        → length masks.old ≢ length battles.now → result ≡ 45 }
    ensures kept { result ≢ 0 → masks.new ≡ masks.old }
{
    let Some(which) = Side::from_number(side) else {
        return SIDE;
    };
    if masks.len() != battles.len() {
        return LENGTHS;
    }
    put_masks(battles, which, masks);
    0
}

fn put_masks(battles: &[Packed], side: Side, masks: &mut [u16])
    requires same { length masks.old ≡ length battles.now }
    ensures masks { AreMasks side battles.now masks.new }
{
    for (place, battle) in battles.iter().enumerate() {
        masks[place] = offered_mask(battle, side);
    }
}

/// The choices of both sides for an update of one of many battles, and what became of it.
#[repr(C)]
#[derive(Clone, Copy)]
pub struct BatchUpdate {
    /// The choices of side 1 and side 2.
    pub one: u8,
    pub two: u8,
    /// The battle's result afterwards.
    pub result: u8,
    /// 0, or why the update was refused.
    pub code: u8,
}

/// Plays an update of each of many battles, without logs, by the choices at its index. Writes there its code, as `gen1_update_silent`
/// returns it, and the battle's result, as `gen1_result` does. Returns 0, or a code if there are not as many updates as battles; then
/// nothing has changed.
#[unsafe(no_mangle)]
pub extern "C" fn gen1_update_many(battles: &mut [Packed], updates: &mut [BatchUpdate]) -> u8
    ensures updates { length updates.old ≡ length battles.old
        → (result ≡ 0) × AreUpdated (length battles.old) battles.old battles.new updates.old updates.new }
    ensures lengths { result ≡ 0 → length updates.old ≡ length battles.old }
    ensures refused { result ≢ 0 → result ≡ 45 }
    ensures kept { result ≢ 0 → (battles.new ≡ battles.old) × (updates.new ≡ updates.old) }
{
    if updates.len() != battles.len() {
        return LENGTHS;
    }
    update_each(battles, updates);
    0
}

fn update_each(battles: &mut [Packed], updates: &mut [BatchUpdate])
    requires same { length updates.old ≡ length battles.old }
    ensures updates { AreUpdated (length battles.old) battles.old battles.new updates.old updates.new }
{
    for place in 0..battles.len() {
        let asked = updates[place];
        let battle = &mut battles[place];
        let code = gen1_update_silent(battle, asked.one, asked.two);
        updates[place] = BatchUpdate {
            result: gen1_result(battle),
            code,
            ..asked
        };
    }
}

/// How playouts are played.
#[repr(C)]
#[derive(Clone, Copy)]
pub struct PlayoutForm {
    /// The state of the generator before its first draw.
    pub seed: u64,
    /// How many rounds are played.
    pub rounds: u32,
    /// The number of updates after which a round is decided by the HP left, or 0 to play each round to its end.
    pub depth: u32,
    /// How often each choice is made compared to others: by the move's number, where Move 0 counts as Struggle, 165. The first is
    /// the weight of each switch. Where all have the weight 0, each is equally likely.
    pub weights: [u8; 166],
    /// Ignored.
    pub reserved: [u8; 2],
}

/// Plays copies of a battle, each with random numbers to draw and by random choices among those offered, and counts how they end
/// (include/gen1.h, "many battles"). Returns 0, or the code of the first of the seven tests of loading that the bytes fail
/// (docs/LAYOUT.md, "Loading"); then nothing is written.
#[unsafe(no_mangle)]
pub extern "C" fn gen1_playout(battle: &Packed, options: &PlayoutForm, counts: &mut Playouts) -> u8
    ensures plays { Plays (joined battle.now) (options_of options.now) counts.old counts.new result }
    ensures total { result ≡ 0 → total counts.new ≡ options.now.rounds }
    ensures kept { result ≢ 0 → counts.new ≡ counts.old }
{
    match Packed::read(battle.as_bytes()) {
        Ok(start) => {
            *counts = playout(&start, &options_of(options));
            0
        }
        Err(fault) => of_load(fault),
    }
}

fn options_of(form: &PlayoutForm) -> PlayoutOptions
    ensures { result ≡ options_of form.now }
{
    PlayoutOptions {
        seed: form.seed,
        rounds: form.rounds,
        depth: depth_of(form.depth),
        weights: form.weights,
    }
}

fn depth_of(depth: u32) -> Option<u32>
    ensures { result ≡ depth_of depth }
{
    if depth == 0 { None } else { Some(depth) }
}

/// Plays a step of each of many battles without logs, by choices at random that the generator at its index draws. If there are
/// starts, a battle that is over first starts again from the one at its index. Writes the choices, results and codes, the states of
/// the generators, and how many battles are over afterwards. Returns 0, or a code if an array has another length than the battles
/// (there may also be no starts at all); then nothing has changed.
#[unsafe(no_mangle)]
pub extern "C" fn gen1_step_random_many(
    battles: &mut [Packed],
    starts: &[Packed],
    generators: &mut [u64],
    updates: &mut [BatchUpdate],
    over: &mut usize,
) -> u8
    ensures steps { result ≡ 0 → AreStepped (length battles.old) starts.now
        (record { battles = battles.old; generators = generators.old })
        (record { battles = battles.new; generators = generators.new }) updates.new }
    ensures over { result ≡ 0 → over.new ≡ over_in updates.new }
    // For any bytes, valid or not.
    ensures listed { result ≡ 0 → AreListed (length battles.old) updates.new }
    ensures fits { HasLengths (length battles.old) starts.now generators.old updates.old
        → result ≡ 0 }
    ensures lengths { result ≡ 0
        → HasLengths (length battles.old) starts.now generators.old updates.old }
    ensures refused { result ≢ 0 → result ≡ 45 }
    ensures kept { result ≢ 0 → (battles.new ≡ battles.old) × (generators.new ≡ generators.old)
        × (updates.new ≡ updates.old) × (over.new ≡ over.old) }
{
    let count = battles.len();
    if generators.len() != count || updates.len() != count {
        return LENGTHS;
    }
    if !starts.is_empty() && starts.len() != count {
        return LENGTHS;
    }
    *over = step_each(battles, starts, generators, updates);
    0
}

// A step of each battle. Returns how many are over afterwards.
fn step_each(
    battles: &mut [Packed],
    starts: &[Packed],
    generators: &mut [u64],
    updates: &mut [BatchUpdate],
) -> usize
    requires generators { length generators.old ≡ length battles.old }
    requires updates { length updates.old ≡ length battles.old }
    ensures steps { AreStepped (length battles.old) starts.now
        (record { battles = battles.old; generators = generators.old })
        (record { battles = battles.new; generators = generators.new }) updates.new }
    ensures over { result ≡ over_in updates.new }
    ensures listed { AreListed (length battles.old) updates.new }
{
    let mut over = 0;
    for place in 0..battles.len() {
        let mut random = ChoiceGenerator::new(generators[place]);
        let battle = &mut battles[place];
        start_again(battle, starts, place, &mut random);
        let update = step_at_random(battle, &mut random);
        over += one_if_over(update.result);
        updates[place] = update;
        generators[place] = random.state;
    }
    over
}

// Whether a result is that of a battle that is over, as a number.
fn one_if_over(result_byte: u8) -> usize
    ensures value { result ≡ one_if_over result_byte }
    ensures bound { result ≤ 1 }
{
    if result_byte % 8 == 0 { 0 } else { 1 }
}

// A battle that is over starts again, if it has a start.
fn start_again(battle: &mut Packed, starts: &[Packed], place: usize, random: &mut ChoiceGenerator)
    ensures { (s : State) (start : Option State) → Stands battle.old s
        → IsStart starts.now place s start
        → IsAt (started_again start (record { battle = s; random = random.old.state })) battle.new
        random.new.state }
{
    if place < starts.len() && result(battle).outcome.is_over() {
        restart(battle, &starts[place], random);
    }
}

// A copy of a start that draws from its own ten numbers, as a round of gen1_playout begins.
fn restart(battle: &mut Packed, start: &Packed, random: &mut ChoiceGenerator)
    ensures { (s : State) → Stands start.now s
        → IsAt (begun s random.old.state) battle.new random.new.state }
{
    *battle = copy_of(start);
    reseed(battle, &LinkRandom::new(random.ten_numbers()));
}

// A step of a battle by choices at random, side 1 first.
fn step_at_random(battle: &mut Packed, random: &mut ChoiceGenerator) -> BatchUpdate
    ensures listed { IsListed result }
    ensures steps { (s : State) → Stands battle.old s
        → IsStepped (record { battle = s; random = random.old.state }) battle.new
        random.new.state result }
{
    if result(battle).outcome.is_over() {
        return BatchUpdate {
            one: 0,
            two: 0,
            result: gen1_result(battle),
            code: OVER,
        };
    }
    let one = pick(offered_mask(battle, Side::One), random);
    let two = pick(offered_mask(battle, Side::Two), random);
    let (first, second) = (byte_of(&one), byte_of(&two));
    update_offered(battle, one, two, &mut Silent);
    BatchUpdate {
        one: first,
        two: second,
        result: gen1_result(battle),
        code: 0,
    }
}

fn byte_of(choice: &Choice) -> u8
    ensures value { result ≡ byte_of_choice choice.now }
    ensures undone { choice_at result ≡ Some choice.now }
{
    let copy = *choice;
    copy.byte()
}
