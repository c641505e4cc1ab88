//! The chance that one use of a move knocks out the foe, or two or three in a row: numbers of equally likely ways, and
//! the HP that are left between uses (docs/MECHANICS.md, "Landing", "Many hits", "Residual damage").
ghost use Rattle.std.specs.Prelude.{false, if◌then◌else◌, max, min, true, ◌%◌, ◌*◌, ◌+◌, ◌-◌, ◌/◌, ◌≡◌, ◌≤◌};
ghost use Rattle.gen1_tables.specs.Effects.{traps};
ghost use Rattle.gen1_layout.specs.Words.{Reads, move_at, ℕ};
ghost use Rattle.gen1_odds.specs.KnockOut.{AreChances, AreThree, after_fixed, after_usual, between_in, chances_in, chances_of, changed, fixed_ways, halves_in, in_words, mixed, needed_in, no_change, over, three_chances_in, three_of, two_trapping, usual_chances, usual_three};
ghost use Rattle.gen1_odds.specs.declared.odds.HitCount.TheVariants.{Once};
ghost use Rattle.gen1_odds.specs.Odds.{hit_count};
ghost use Rattle.gen1_odds.specs.Trials.{ReadsUnder};

use crate::chances::deals_usual;
use crate::fixed_uses::{
    Fixed, fixed_ways, known_once_fixed, once_fixed, thrice_fixed, twice_fixed,
};
use crate::odds::{HitCount, Odds, flag, hit_count, odds_of};
use crate::sights::has_substitute;
use crate::trapping_uses::{thrice_trapping, twice_trapping};
use crate::usual_uses::{Usual, WAYS, known_once, once, thrice, twice};
use gen1_layout::Packed;
use gen1_machine::Side;
use gen1_tables::{Effect, MoveId};

const SUPER_FANG: u8 = 162;

/// The chance that one use knocks out the foe, or two uses in a row, as numbers of equally likely ways.
#[repr(C)]
#[derive(Clone, Copy)]
pub struct Chances {
    /// In how many ways the foe has no HP left after one use, or its substitute is broken.
    pub once: u64,
    /// The ways of one use.
    pub once_of: u64,
    /// In how many ways that is so after two uses.
    pub twice: u64,
    /// The ways of two uses.
    pub twice_of: u64,
    /// 1 if the foe has a substitute, and the chances are those of breaking it; otherwise 0.
    pub breaks_substitute: u8,
    /// Zeros.
    pub zeros: [u8; 7],
}

/// The chance that one use knocks out the foe, or two or three in a row, as numbers of equally likely ways.
#[repr(C)]
#[derive(Clone, Copy)]
pub struct ThreeChances {
    /// In how many ways the foe has no HP left after one use, or its substitute is broken.
    pub once: u64,
    /// The ways of one use.
    pub once_of: u64,
    /// In how many ways that is so after two uses.
    pub twice: u64,
    /// The ways of two uses.
    pub twice_of: u64,
    /// In how many ways that is so after three uses.
    pub thrice: Wide,
    /// The ways of three uses.
    pub thrice_of: Wide,
    /// 1 if the foe has a substitute, and the chances are those of breaking it; otherwise 0.
    pub breaks_substitute: u8,
    /// Zeros.
    pub zeros: [u8; 7],
}

/// What happens to the HP of the foe between uses, such as residual damage.
#[repr(C)]
#[derive(Clone, Copy)]
pub struct Between {
    /// After the first use.
    pub after_first: HpChange,
    /// After the second use.
    pub after_second: HpChange,
}

// What uses against the foe have to do.
#[derive(Drop)]
struct Target {
    need: u16,
    most: u16,
    between: Between,
    breaks_substitute: u8,
}

/// The chance that one use of a move of a side knocks out the foe, or two uses in a row, for independent draws.
///
/// Against a substitute it is the chance to break it. Both uses have the odds of `odds_of`, as the battle is now, and
/// their damages add up: what else happens in between, such as residual damage, does not count. The second use of Super
/// Fang halves the HP that are left. A trapping move that hits deals the same damage again in the second use, and one that
/// is continuing is taken to continue.
pub fn knock_out(battle: &Packed, side: Side, id: MoveId) -> Chances
    ensures stands { ReadsUnder battle.now result λ r. chances_in r side (move_at id) }
    // For any bytes, valid or not.
    ensures shape { AreChances result }
{
    let odds = odds_of(battle, side, id);
    let need = needed(battle, side.other());
    let breaks = flag(has_substitute(battle, side.other()));
    if deals_usual(battle, side, id) {
        return usual_chances(&odds, id.effect(), need, breaks);
    }
    fixed_chances(&odds, halves(battle, side, id), need, breaks)
}

/// The chance that one use of a move of a side knocks out the foe, or two or three in a row, for independent draws.
///
/// Each use has the odds of `odds_of`, as the battle is now. Between two uses the HP of the foe change as `between` says:
/// of a foe that has any, they first rise, to its maximum at most, and then fall. The third use of Super Fang halves what
/// is left then, and a trapping move continues as often as its draws let it. Against a substitute it is the chance to break
/// it, and `between` does not count. Nothing else that happens between the uses counts.
pub fn knock_out_in_three(
    battle: &Packed,
    side: Side,
    id: MoveId,
    between: &Between,
) -> ThreeChances
    ensures stands { ReadsUnder battle.now result λ r. three_chances_in between.now r side (move_at id) }
    // For any bytes, valid or not.
    ensures shape { AreThree result }
{
    let odds = odds_of(battle, side, id);
    let target = Target {
        need: needed(battle, side.other()),
        most: battle.max_hp(side.other()),
        between: changes(battle, side.other(), between),
        breaks_substitute: flag(has_substitute(battle, side.other())),
    };
    if deals_usual(battle, side, id) {
        return usual_three(&odds, id.effect(), &target);
    }
    fixed_three(&odds, halves(battle, side, id), &target)
}

// All HP of a member, or one more than its substitute has.
fn needed(battle: &Packed, side: Side) -> u16
    ensures stands { Reads battle.now result (needed_in side) }
{
    match battle.substitute(side) {
        Some(hp) => u16::from(hp) + 1,
        None => battle.hp(side),
    }
}

// A substitute's HP stay as they are between uses.
fn changes(battle: &Packed, side: Side, between: &Between) -> Between
    ensures stands { Reads battle.now result (between_in side between.now) }
{
    if has_substitute(battle, side) {
        return Between {
            after_first: NO_CHANGE,
            after_second: NO_CHANGE,
        };
    }
    *between
}

fn halves(battle: &Packed, side: Side, id: MoveId) -> bool
    ensures stands { Reads battle.now result (halves_in side (move_at id)) }
{
    let halving = id.number() == SUPER_FANG;
    let covered = has_substitute(battle, side.other());
    halving & !covered
}

// The usual damage

fn usual_chances(odds: &Odds, effect: Effect, need: u16, breaks_substitute: u8) -> Chances
    requires critical { odds.now.critical_draws ≤ 255 }
    requires hits { odds.now.hit_draws ≤ 256 }
    ensures { result ≡ usual_chances (traps effect) (hit_count effect) odds.now need breaks_substitute }
{
    let count = hit_count(effect);
    Chances {
        once: once(odds, count, need),
        once_of: WAYS,
        twice: usual_twice(odds, effect.traps(), count, need),
        twice_of: WAYS * WAYS,
        breaks_substitute,
        zeros: [0; 7],
    }
}

#[tactic(auto, using(crate::proofs::Counts::known_none))]
fn usual_twice(odds: &Odds, traps: bool, count: HitCount, need: u16) -> u64
    requires critical { odds.now.critical_draws ≤ 255 }
    requires hits { odds.now.hit_draws ≤ 256 }
    ensures { result ≡ (if traps then two_trapping odds.now 0 no_change need
        else after_usual count odds.now (after_usual count odds.now over) need) }
{
    if traps {
        return twice_trapping(odds, 0, NO_CHANGE, need);
    }
    let uses = Usual {
        odds: *odds,
        count,
        most: 0,
        known: [0; 1000],
        filled: 0,
    };
    twice(&uses, NO_CHANGE, need)
}

fn usual_three(odds: &Odds, effect: Effect, target: &Target) -> ThreeChances
    requires critical { odds.now.critical_draws ≤ 255 }
    requires hits { odds.now.hit_draws ≤ 256 }
    ensures { result ≡ usual_three (traps effect) (hit_count effect) odds.now target.now }
{
    if effect.traps() {
        return trapping_three(odds, target);
    }
    three_alike(odds, hit_count(effect), target)
}

// Three uses of which each has the same odds.
fn three_alike(odds: &Odds, count: HitCount, target: &Target) -> ThreeChances
    requires critical { odds.now.critical_draws ≤ 255 }
    requires hits { odds.now.hit_draws ≤ 256 }
    ensures { result ≡ usual_three false count odds.now target.now }
{
    let filled = room(target.need.max(target.most));
    let uses = Usual {
        odds: *odds,
        count,
        most: target.most,
        known: known_once(odds, count, filled),
        filled,
    };
    ThreeChances {
        once: once(odds, count, target.need),
        once_of: WAYS,
        twice: twice(&uses, target.between.after_first, target.need),
        twice_of: WAYS * WAYS,
        thrice: in_words(thrice(&uses, &target.between, target.need)),
        thrice_of: in_words(cube(WAYS)),
        breaks_substitute: target.breaks_substitute,
        zeros: [0; 7],
    }
}

fn trapping_three(odds: &Odds, target: &Target) -> ThreeChances
    requires critical { odds.now.critical_draws ≤ 255 }
    requires hits { odds.now.hit_draws ≤ 256 }
    ensures { result ≡ usual_three true Once odds.now target.now }
{
    let between = &target.between;
    ThreeChances {
        once: once(odds, HitCount::Once, target.need),
        once_of: WAYS,
        twice: twice_trapping(odds, target.most, between.after_first, target.need),
        twice_of: WAYS * WAYS,
        thrice: in_words(thrice_trapping(odds, target.most, between, target.need)),
        thrice_of: in_words(cube(WAYS)),
        breaks_substitute: target.breaks_substitute,
        zeros: [0; 7],
    }
}

// How many of the numbers from 0 to this one there is room for.
fn room(hp: u16) -> u16
    ensures { result ≤ 1000 }
{
    hp.saturating_add(1).min(1000)
}

// Damage by the move's own rule

#[tactic(auto, using(crate::proofs::Counts::known_none))]
fn fixed_chances(odds: &Odds, halves: bool, need: u16, breaks_substitute: u8) -> Chances
    requires hits { odds.now.hit_draws ≤ 256 }
    ensures { result ≡ chances_of (after_fixed halves odds.now) (256 * fixed_ways odds.now) need breaks_substitute }
{
    let ways = 256 * fixed_ways(odds);
    let uses = Fixed {
        odds: *odds,
        halves,
        most: 0,
        known: [0; 1000],
        filled: 0,
    };
    Chances {
        once: once_fixed(odds, halves, need),
        once_of: ways,
        twice: twice_fixed(&uses, NO_CHANGE, need),
        twice_of: ways * ways,
        breaks_substitute,
        zeros: [0; 7],
    }
}

fn fixed_three(odds: &Odds, halves: bool, target: &Target) -> ThreeChances
    requires hits { odds.now.hit_draws ≤ 256 }
    ensures { result ≡ three_of (after_fixed halves odds.now) (256 * fixed_ways odds.now) target.now }
{
    let filled = room(target.need.max(target.most));
    let uses = Fixed {
        odds: *odds,
        halves,
        most: target.most,
        known: known_once_fixed(odds, halves, filled),
        filled,
    };
    let ways = 256 * fixed_ways(odds);
    ThreeChances {
        once: once_fixed(odds, halves, target.need),
        once_of: ways,
        twice: twice_fixed(&uses, target.between.after_first, target.need),
        twice_of: ways * ways,
        thrice: in_words(thrice_fixed(&uses, &target.between, target.need)),
        thrice_of: in_words(cube(ways)),
        breaks_substitute: target.breaks_substitute,
        zeros: [0; 7],
    }
}

/// What happens to the HP of the foe between two uses of a move, if it has any left.
#[repr(C)]
#[derive(Clone, Copy)]
pub struct HpChange {
    /// The HP that it gains first, up to its maximum.
    pub gained: u16,
    /// The HP that it then loses.
    pub lost: u16,
}

/// A number of 128 bits.
#[repr(C)]
#[derive(Clone, Copy)]
pub struct Wide {
    /// The number's remainder by 2^64.
    pub low: u64,
    /// The number divided by 2^64.
    pub high: u64,
}

const NO_CHANGE: HpChange = HpChange { gained: 0, lost: 0 };

const WORD: u128 = 18_446_744_073_709_551_616;

fn in_words(number: u128) -> Wide
    ensures { result ≡ in_words number }
{
    Wide {
        low: (number % WORD) as u64,
        high: (number / WORD) as u64,
    }
}

/// The ways of three uses, by those of one.
fn cube(ways: u64) -> u128
    requires few { ways ≤ 20447232 }
    ensures { result ≡ ways * ways * ways }
{
    u128::from(ways * ways) * u128::from(ways)
}

pub(crate) fn over(left: u16) -> u64
    ensures is { result ≡ over left }
    ensures most { result ≤ 1 }
{
    if left == 0 { 1 } else { 0 }
}

// Of 256 draws some lead one way, and the others another.
#[tactic(auto, using(crate::proofs::Counts::parted))]
pub(crate) fn mixed(draws: u16, one: u64, another: u64) -> u64
    requires draws { draws ≤ 256 }
    requires one { one ≤ 18014398509481984 }
    requires another { another ≤ 18014398509481984 }
    ensures is { result ≡ mixed draws one another }
    ensures most { (most : ℕ) → one ≤ most → another ≤ most → result ≤ 256 * most }
{
    u64::from(draws) * one + u64::from(256 - draws) * another
}

// Of more ways.
pub(crate) fn mixed_wide(draws: u16, one: u128, another: u128) -> u128
    requires draws { draws ≤ 256 }
    requires one { one ≤ 1267650600228229401496703205376 }
    requires another { another ≤ 1267650600228229401496703205376 }
    ensures { result ≡ mixed draws one another }
{
    u128::from(draws) * one + u128::from(256 - draws) * another
}

// What is needed after a change, of a foe with at most so many HP.
pub(crate) fn changed(most: u16, change: HpChange, need: u16) -> u16
    ensures { result ≡ changed most change need }
{
    if need == 0 {
        return 0;
    }
    let gained = need.saturating_add(change.gained).min(most).max(need);
    gained.saturating_sub(change.lost)
}
