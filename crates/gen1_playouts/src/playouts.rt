//! Battles played by random choices, to their end or for a number of updates, and which side is ahead in one that is not
//! over (include/gen1.h, "many battles").
ghost use Rattle.std.specs.Prelude.{false, ◌+◌, ◌<◌, ◌≡◌, ◌≤◌};
ghost use Rattle.gen1_machine.specs.State.{State, is_over};
ghost use Rattle.gen1_layout.specs.Shows.{Stands};
ghost use Rattle.gen1_offers.specs.OfferedChoices.{IsBench, IsInRange, offered_mask};
ghost use Rattle.gen1_playouts.specs.Playouts.{EndsAs, IsDrawn, IsPlayedOut, IsRound, IsZeros, MayEndAs, PlaysOut, counting, drawn_from, end_in, hp_left, hp_unhurt, leader, leading, most_updates, total};

use crate::weights::{ChoiceGenerator, has_weights, pick, pick_weighted, weights_of};
use gen1_engine::packed::{count_of, reseed, result, update_offered};
use gen1_events::Silent;
use gen1_layout::{Packed, copy_of};
use gen1_machine::{Choice, Outcome, Side};
use gen1_offers::Bench;
use gen1_rolls::LinkRandom;

/// How playouts are played.
#[derive(Clone, Copy)]
pub struct PlayoutOptions {
    /// The state of the generator before its first draw.
    pub seed: u64,
    /// How many rounds are played.
    pub rounds: u32,
    /// The number of updates after which a round is decided by the HP left. `None`: each round is played to its end.
    pub depth: Option<u32>,
    /// How often each choice is made compared to others: by the move's number, where Move 0 counts as Struggle, 165. The first is
    /// the weight of each switch. Where all have the weight 0, all are equally likely.
    pub weights: [u8; 166],
}

/// How playouts ended.
#[repr(C)]
#[derive(Clone, Copy, PartialEq, Eq, Debug, Drop)]
pub struct Playouts {
    /// Side 1 won, or is ahead.
    pub wins_one: u32,
    /// Side 2 won, or is ahead.
    pub wins_two: u32,
    /// Nobody won, and nobody is ahead.
    pub ties: u32,
    /// The battle could not continue.
    pub faults: u32,
}

/// Plays copies of a battle, each with random numbers to draw and by random choices among those offered, and counts how they end.
///
/// A round draws the ten numbers of its copy. Then in each update each side takes one of the choices that it is offered, side 1 first.
/// A round that isn't over after `depth` updates is won by the side that has the larger share of its HP left, and equal shares are
/// a tie. A battle that is over counts as it ended. The same arguments give the same counts.
pub fn playout(battle: &Packed, options: &PlayoutOptions) -> Playouts
    ensures plays { (s : State) → Stands battle.now s
        → PlaysOut options.now s options.now.rounds result }
    ensures total { total result ≡ options.now.rounds }
{
    let by_weights = has_weights(&options.weights);
    let mut random = ChoiceGenerator::new(options.seed);
    let mut counts = Playouts {
        wins_one: 0,
        wins_two: 0,
        ties: 0,
        faults: 0,
    };
    'rounds: for _ in 0..options.rounds {
        let end = end_of(battle, options, by_weights, &mut random);
        count(end, &mut counts);
    }
    counts
}

fn count(end: Outcome, counts: &mut Playouts)
    requires room { total counts.old < 4294967295 }
    ensures counts { counts.new ≡ counting end counts.old }
    ensures total { total counts.new ≡ total counts.old + 1 }
{
    match end {
        Outcome::WinOne => counts.wins_one += 1,
        Outcome::WinTwo => counts.wins_two += 1,
        Outcome::Tie => counts.ties += 1,
        Outcome::Ongoing => counts.faults += 1,
        Outcome::Fault(_) => counts.faults += 1,
    }
}

// How a round ends: a copy of a battle that draws from ten numbers of the round.
fn end_of(
    start: &Packed,
    options: &PlayoutOptions,
    by_weights: bool,
    random: &mut ChoiceGenerator,
) -> Outcome
    requires none { by_weights ≡ false → IsZeros options.now.weights }
    ensures ends { (s : State) → Stands start.now s → MayEndAs options.now.depth s result }
    ensures played { (s : State) → Stands start.now s
        → IsRound options.now s random.old.state result random.new.state }
{
    let mut copy = copy_of(start);
    reseed(&mut copy, &LinkRandom::new(random.ten_numbers()));
    run(&mut copy, options, by_weights, random)
}

// Plays a battle by random choices to its end, or for a number of updates, and returns how it ended.
fn run(
    battle: &mut Packed,
    options: &PlayoutOptions,
    by_weights: bool,
    random: &mut ChoiceGenerator,
) -> Outcome
    requires none { by_weights ≡ false → IsZeros options.now.weights }
    ensures ends { (s : State) → Stands battle.old s → EndsAs options.now.depth s result }
    ensures played { (s : State) → Stands battle.old s
        → IsPlayedOut options.now s random.old.state result random.new.state }
{
    let mut bench_one = Bench::new(battle, Side::One);
    let mut bench_two = Bench::new(battle, Side::Two);
    'updates: for _ in 0..most_updates(battle.limit(), options.depth) {
        let now = result(battle);
        if now.outcome.is_over() {
            return now.outcome;
        }
        let one = draw(battle, &bench_one, options, by_weights, random);
        let two = draw(battle, &bench_two, options, by_weights, random);
        update_offered(battle, one, two, &mut Silent);
        bench_one.follow(battle, &one);
        bench_two.follow(battle, &two);
    }
    end_now(battle)
}

// A choice of a side, at random.
#[inline(always)] // docs/SPEED.md, "Hints on inlining"
fn draw(
    battle: &Packed,
    bench: &Bench,
    options: &PlayoutOptions,
    by_weights: bool,
    random: &mut ChoiceGenerator,
) -> Choice
    requires none { by_weights ≡ false → IsZeros options.now.weights }
    requires range { IsInRange bench.now }
    ensures { (s : State) → Stands battle.now s → is_over s.field.outcome ≡ false
        → IsBench bench.now.side s.field bench.now
        → IsDrawn random.old.state (drawn_from options.now.weights bench.now.side s.field) result random.new.state }
{
    let mask = bench.offered_mask(battle);
    if by_weights {
        return draw_by_weights(battle, bench.side, mask, options, random);
    }
    pick(mask, random)
}

// A choice of a side at random, by weights. The mask of the side's offered choices is known.
#[inline(never)] // docs/SPEED.md, "Hints on inlining"
fn draw_by_weights(
    battle: &Packed,
    side: Side,
    mask: u16,
    options: &PlayoutOptions,
    random: &mut ChoiceGenerator,
) -> Choice
    requires twelve { mask < 4096 }
    ensures { (s : State) → Stands battle.now s → is_over s.field.outcome ≡ false → mask ≡ offered_mask s side
        → IsDrawn random.old.state (drawn_from options.now.weights side s.field) result random.new.state }
{
    // Before the first update no member is out whose moves could have weights, but then a side can only pass.
    if count_of(mask) < 2 {
        return pick(mask, random);
    }
    let weights = weights_of(battle, side, &options.weights);
    pick_weighted(mask, &weights, random)
}

// How many updates a round takes at most: as many as any battle (docs/MECHANICS.md, "Turn limit"), or the depth, if that is fewer.
fn most_updates(limit: u16, depth: Option<u32>) -> u32
    ensures { result ≡ most_updates limit depth }
{
    let all = u32::from(limit) + 11;
    match depth {
        Some(depth) => all.min(depth),
        None => all,
    }
}

// How a battle ended, or which side is ahead in it.
fn end_now(battle: &Packed) -> Outcome
    ensures { (s : State) → Stands battle.now s → result ≡ end_in s.field }
{
    let now = result(battle);
    if now.outcome.is_over() {
        now.outcome
    } else {
        leader(battle)
    }
}

// A win of the side that has the larger share of its HP left, or a tie. The shares are compared as cross products.
fn leader(battle: &Packed) -> Outcome
    ensures { (s : State) → Stands battle.now s → result ≡ leader s.field }
{
    let left_one = hp_left(battle, Side::One);
    let left_two = hp_left(battle, Side::Two);
    let unhurt_one = hp_unhurt(battle, Side::One);
    let unhurt_two = hp_unhurt(battle, Side::Two);
    leading(left_one * unhurt_two, left_two * unhurt_one)
}

fn leading(one: u64, two: u64) -> Outcome
    ensures { result ≡ leading one two }
{
    if two < one {
        return Outcome::WinOne;
    }
    if one < two {
        return Outcome::WinTwo;
    }
    Outcome::Tie
}

// The HP that the members of a side have left.
fn hp_left(battle: &Packed, side: Side) -> u64
    ensures stands { (s : State) → Stands battle.now s → result ≡ hp_left side s.field }
    ensures bound { result ≤ 393210 }
{
    let mut sum = 0;
    for before in 0..6 {
        sum += u64::from(battle.hp_at(side, before + 1));
    }
    sum
}

// The sum of the maximum HP of a side's members.
fn hp_unhurt(battle: &Packed, side: Side) -> u64
    ensures stands { (s : State) → Stands battle.now s → result ≡ hp_unhurt side s.field }
    ensures bound { result ≤ 393210 }
{
    let mut sum = 0;
    for before in 0..6 {
        sum += u64::from(battle.max_hp_at(side, before + 1));
    }
    sum
}
