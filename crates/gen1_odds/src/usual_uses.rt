//! In how many ways one to three uses with the usual damage take the HP that are needed (docs/MECHANICS.md, "Many hits").
ghost use Rattle.std.specs.Prelude.{length, min, ◌*◌, ◌-◌, ◌<◌, ◌≡◌, ◌≤◌, ℕ};
ghost use Rattle.gen1_odds.specs.KnockOut.{IsKnown, KnowsOnce, after_change, after_either, after_hits, after_use, after_usual, by_count, over, three_uses, two_uses};

use crate::knock_outs::{Between, HpChange, changed, mixed, mixed_wide, over};
use crate::odds::{HitCount, Odds};

/// The ways of one use: 256 draws of the hit test and 256 critical draws, 39 factors and 8 cases of the number of hits.
pub(crate) const WAYS: u64 = 256 * 256 * 39 * 8;

/// Uses against a foe.
#[derive(Drop)]
pub(crate) struct Usual {
    pub odds: Odds,
    pub count: HitCount,
    /// The most HP that the foe can have.
    pub most: u16,
    /// In how many ways one use takes a number of HP, for the numbers below `filled`.
    pub known: [u64; 1000],
    pub filled: u16,
}

pub(crate) fn left(need: u16, hits: u16, damage: u16) -> u16
    ensures { hits ≤ 5 → result ≡ need - hits * damage }
{
    need.saturating_sub(hits.saturating_mul(damage))
}

// One use

pub(crate) fn once(odds: &Odds, count: HitCount, need: u16) -> u64
    requires critical { odds.now.critical_draws ≤ 255 }
    requires hits { odds.now.hit_draws ≤ 256 }
    ensures is { result ≡ after_usual count odds.now over need }
    ensures most { result ≤ 20447232 }
{
    let hit = once_counted(odds, count, need);
    mixed(odds.hit_draws, hit, 79872 * over(need))
}

fn once_counted(odds: &Odds, count: HitCount, need: u16) -> u64
    requires critical { odds.now.critical_draws ≤ 255 }
    ensures is { result ≡ by_count count λ hits. after_either odds.now hits over need }
    ensures most { result ≤ 79872 }
{
    match count {
        HitCount::Once => 8 * once_either(odds, 1, need),
        HitCount::Twice => 8 * once_either(odds, 2, need),
        HitCount::Several => {
            3 * once_either(odds, 2, need)
                + 3 * once_either(odds, 3, need)
                + once_either(odds, 4, need)
                + once_either(odds, 5, need)
        }
    }
}

fn once_either(odds: &Odds, hits: u16, need: u16) -> u64
    requires critical { odds.now.critical_draws ≤ 255 }
    requires few { hits ≤ 5 }
    ensures is { result ≡ after_either odds.now hits over need }
    ensures most { result ≤ 9984 }
{
    let critical = once_hits(&odds.critical.numbers, hits, need);
    let usual = once_hits(&odds.usual.numbers, hits, need);
    mixed(odds.critical_draws, critical, usual)
}

fn once_hits(list: &[u16; 39], hits: u16, need: u16) -> u64
    requires few { hits ≤ 5 }
    ensures is { result ≡ after_hits list.now hits over need }
    ensures most { result ≤ 39 }
{
    let mut ways: u64 = 0;
    for damage in list {
        ways += over(left(need, hits, *damage));
    }
    ways
}

/// The ways of one use for each number of HP below a bound.
pub(crate) fn known_once(odds: &Odds, count: HitCount, filled: u16) -> [u64; 1000]
    requires critical { odds.now.critical_draws ≤ 255 }
    requires hits { odds.now.hit_draws ≤ 256 }
    requires room { filled ≤ 1000 }
    ensures { IsKnown (after_usual count odds.now over) 20447232 result filled }
{
    let mut known = [0; 1000];
    for need in 0..filled {
        known[usize::from(need)] = once(odds, count, need);
    }
    known
}

// One use after a change, which is looked up where it is known.
fn once_after(uses: &Usual, change: HpChange, need: u16) -> u64
    requires critical { uses.now.odds.critical_draws ≤ 255 }
    requires hits { uses.now.odds.hit_draws ≤ 256 }
    requires known { KnowsOnce uses.now }
    ensures is { result ≡ after_change uses.now.most change (after_use uses.now over) need }
    ensures most { result ≤ 20447232 }
{
    let need = changed(uses.most, change, need);
    if need < uses.filled.min(1000) {
        return uses.known[usize::from(need)];
    }
    once(&uses.odds, uses.count, need)
}

// Two uses

pub(crate) fn twice(uses: &Usual, change: HpChange, need: u16) -> u64
    requires critical { uses.now.odds.critical_draws ≤ 255 }
    requires hits { uses.now.odds.hit_draws ≤ 256 }
    requires known { KnowsOnce uses.now }
    ensures is { result ≡ two_uses (after_use uses.now) uses.now.most change need }
    ensures most { result ≤ 418089296461824 }
{
    let hit = twice_counted(uses, change, need);
    mixed(
        uses.odds.hit_draws,
        hit,
        79872 * once_after(uses, change, need),
    )
}

fn twice_counted(uses: &Usual, change: HpChange, need: u16) -> u64
    requires critical { uses.now.odds.critical_draws ≤ 255 }
    requires hits { uses.now.odds.hit_draws ≤ 256 }
    requires known { KnowsOnce uses.now }
    ensures is { result ≡ by_count uses.now.count λ hits. after_either uses.now.odds hits
        (after_change uses.now.most change (after_use uses.now over)) need }
    ensures most { result ≤ 1633161314304 }
{
    match uses.count {
        HitCount::Once => 8 * twice_either(uses, change, 1, need),
        HitCount::Twice => 8 * twice_either(uses, change, 2, need),
        HitCount::Several => {
            3 * twice_either(uses, change, 2, need)
                + 3 * twice_either(uses, change, 3, need)
                + twice_either(uses, change, 4, need)
                + twice_either(uses, change, 5, need)
        }
    }
}

fn twice_either(uses: &Usual, change: HpChange, hits: u16, need: u16) -> u64
    requires critical { uses.now.odds.critical_draws ≤ 255 }
    requires hits { uses.now.odds.hit_draws ≤ 256 }
    requires known { KnowsOnce uses.now }
    requires few { hits ≤ 5 }
    ensures is { result ≡ after_either uses.now.odds hits
        (after_change uses.now.most change (after_use uses.now over)) need }
    ensures most { result ≤ 204145164288 }
{
    let critical = twice_hits(uses, change, &uses.odds.critical.numbers, hits, need);
    let usual = twice_hits(uses, change, &uses.odds.usual.numbers, hits, need);
    mixed(uses.odds.critical_draws, critical, usual)
}

fn twice_hits(uses: &Usual, change: HpChange, list: &[u16; 39], hits: u16, need: u16) -> u64
    requires critical { uses.now.odds.critical_draws ≤ 255 }
    requires hits { uses.now.odds.hit_draws ≤ 256 }
    requires known { KnowsOnce uses.now }
    requires few { hits ≤ 5 }
    ensures is { result ≡ after_hits list.now hits
        (after_change uses.now.most change (after_use uses.now over)) need }
    ensures most { result ≤ 797442048 }
{
    let mut ways: u64 = 0;
    for damage in list {
        ways += once_after(uses, change, left(need, hits, *damage));
    }
    ways
}

// Three uses

pub(crate) fn thrice(uses: &Usual, between: &Between, need: u16) -> u128
    requires critical { uses.now.odds.critical_draws ≤ 255 }
    requires hits { uses.now.odds.hit_draws ≤ 256 }
    requires known { KnowsOnce uses.now }
    ensures { result ≡ three_uses (after_use uses.now) uses.now.most between.now need }
{
    let hit = thrice_counted(uses, between, need);
    let missed = u128::from(twice_after(uses, between, need));
    mixed_wide(uses.odds.hit_draws, hit, 79872 * missed)
}

fn thrice_counted(uses: &Usual, between: &Between, need: u16) -> u128
    requires critical { uses.now.odds.critical_draws ≤ 255 }
    requires hits { uses.now.odds.hit_draws ≤ 256 }
    requires known { KnowsOnce uses.now }
    ensures is { result ≡ by_count uses.now.count λ hits. after_either uses.now.odds hits
        (after_change uses.now.most between.now.after_first
        (two_uses (after_use uses.now) uses.now.most between.now.after_second)) need }
    ensures most { result ≤ 33393628286998806528 }
{
    match uses.count {
        HitCount::Once => 8 * u128::from(thrice_either(uses, between, 1, need)),
        HitCount::Twice => 8 * u128::from(thrice_either(uses, between, 2, need)),
        HitCount::Several => {
            3 * u128::from(thrice_either(uses, between, 2, need))
                + 3 * u128::from(thrice_either(uses, between, 3, need))
                + u128::from(thrice_either(uses, between, 4, need))
                + u128::from(thrice_either(uses, between, 5, need))
        }
    }
}

fn thrice_either(uses: &Usual, between: &Between, hits: u16, need: u16) -> u64
    requires critical { uses.now.odds.critical_draws ≤ 255 }
    requires hits { uses.now.odds.hit_draws ≤ 256 }
    requires known { KnowsOnce uses.now }
    requires few { hits ≤ 5 }
    ensures is { result ≡ after_either uses.now.odds hits
        (after_change uses.now.most between.now.after_first
        (two_uses (after_use uses.now) uses.now.most between.now.after_second)) need }
    ensures most { result ≤ 4174203535874850816 }
{
    let critical = thrice_hits(uses, between, &uses.odds.critical.numbers, hits, need);
    let usual = thrice_hits(uses, between, &uses.odds.usual.numbers, hits, need);
    mixed(uses.odds.critical_draws, critical, usual)
}

fn thrice_hits(uses: &Usual, between: &Between, list: &[u16; 39], hits: u16, need: u16) -> u64
    requires critical { uses.now.odds.critical_draws ≤ 255 }
    requires hits { uses.now.odds.hit_draws ≤ 256 }
    requires known { KnowsOnce uses.now }
    requires few { hits ≤ 5 }
    ensures is { result ≡ after_hits list.now hits
        (after_change uses.now.most between.now.after_first
        (two_uses (after_use uses.now) uses.now.most between.now.after_second)) need }
    ensures most { result ≤ 16305482562011136 }
{
    let mut ways: u64 = 0;
    for damage in list {
        ways += twice_after(uses, between, left(need, hits, *damage));
    }
    ways
}

// Two uses after a change.
fn twice_after(uses: &Usual, between: &Between, need: u16) -> u64
    requires critical { uses.now.odds.critical_draws ≤ 255 }
    requires hits { uses.now.odds.hit_draws ≤ 256 }
    requires known { KnowsOnce uses.now }
    ensures is { result ≡ after_change uses.now.most between.now.after_first
        (two_uses (after_use uses.now) uses.now.most between.now.after_second) need }
    ensures most { result ≤ 418089296461824 }
{
    let need = changed(uses.most, between.after_first, need);
    twice(uses, between.after_second, need)
}
