//! In how many ways one to three uses with their own damage rule take the HP that are needed (docs/MECHANICS.md, "Fixed damage
//! and one-hit moves").
ghost use Rattle.std.specs.Prelude.{max, min, sum_by, ◌*◌, ◌+◌, ◌-◌, ◌/◌, ◌≡◌, ◌≤◌, ℕ};
ghost use Rattle.std.specs.List.{range_with_len};
ghost use Rattle.gen1_odds.specs.KnockOut.{IsKnown, KnowsOnceFixed, after_change, after_fixed, after_fixed_use, fixed_ways, over, taken, three_uses, two_uses};

use crate::knock_outs::{Between, HpChange, changed, mixed, mixed_wide, over};
use crate::odds::Odds;

/// Uses against a foe.
#[derive(Drop)]
pub(crate) struct Fixed {
    pub odds: Odds,
    /// Whether a use takes half of the HP that are left.
    pub halves: bool,
    /// The most HP that the foe can have.
    pub most: u16,
    /// In how many ways one use takes a number of HP, for the numbers below `filled`.
    pub known: [u64; 1000],
    pub filled: u16,
}

pub(crate) fn fixed_ways(odds: &Odds) -> u64
    ensures is { result ≡ fixed_ways odds.now }
    ensures most { result ≤ 65536 }
    ensures within { odds.now.least + result ≤ 65536 }
{
    (u64::from(odds.most) + 1).saturating_sub(u64::from(odds.least))
}

fn taken(halves: bool, need: u16, damage: u16) -> u16
    ensures { result ≡ taken halves need damage }
{
    if halves { (need / 2).max(1) } else { damage }
}

// One use

pub(crate) fn once_fixed(odds: &Odds, halves: bool, need: u16) -> u64
    requires hits { odds.now.hit_draws ≤ 256 }
    ensures is { result ≡ after_fixed halves odds.now over need }
    ensures most { result ≤ 16777216 }
{
    let hit = once_ranged(odds, halves, need);
    mixed(odds.hit_draws, hit, if_missed(odds, over(need)))
}

// The ways from a miss, if each of them leads to as many.
fn if_missed(odds: &Odds, each: u64) -> u64
    requires few { each ≤ 16777216 }
    ensures is { result ≡ fixed_ways odds.now * each }
    ensures most { result ≤ 65536 * each }
{
    fixed_ways(odds) * each
}

#[tactic(auto, using(crate::proofs::Counts::range_more))]
fn once_ranged(odds: &Odds, halves: bool, need: u16) -> u64
    ensures is { result ≡ sum_by (λ damage. over (need - taken halves need damage))
        (range_with_len odds.now.least (fixed_ways odds.now)) }
    ensures most { result ≤ 65536 }
{
    let mut hit: u64 = 0;
    for step in 0..fixed_ways(odds) {
        let damage = odds.least.saturating_add(step as u16);
        hit += over(need.saturating_sub(taken(halves, need, damage)));
    }
    hit
}

/// The ways of one use for each number of HP below a bound.
pub(crate) fn known_once_fixed(odds: &Odds, halves: bool, filled: u16) -> [u64; 1000]
    requires hits { odds.now.hit_draws ≤ 256 }
    requires room { filled ≤ 1000 }
    ensures { IsKnown (after_fixed halves odds.now over) 16777216 result filled }
{
    let mut known = [0; 1000];
    for need in 0..filled {
        known[usize::from(need)] = once_fixed(odds, halves, need);
    }
    known
}

// One use after a change, which is looked up where it is known.
fn once_after(uses: &Fixed, change: HpChange, need: u16) -> u64
    requires hits { uses.now.odds.hit_draws ≤ 256 }
    requires known { KnowsOnceFixed uses.now }
    ensures is { result ≡ after_change uses.now.most change (after_fixed_use uses.now over) need }
    ensures most { result ≤ 16777216 }
{
    let need = changed(uses.most, change, need);
    if need < uses.filled.min(1000) {
        return uses.known[usize::from(need)];
    }
    once_fixed(&uses.odds, uses.halves, need)
}

// Two uses

pub(crate) fn twice_fixed(uses: &Fixed, change: HpChange, need: u16) -> u64
    requires hits { uses.now.odds.hit_draws ≤ 256 }
    requires known { KnowsOnceFixed uses.now }
    ensures is { result ≡ two_uses (after_fixed_use uses.now) uses.now.most change need }
    ensures most { result ≤ 281474976710656 }
{
    let hit = twice_ranged(uses, change, need);
    let missed = if_missed(&uses.odds, once_after(uses, change, need));
    mixed(uses.odds.hit_draws, hit, missed)
}

#[tactic(auto, using(crate::proofs::Counts::range_more))]
fn twice_ranged(uses: &Fixed, change: HpChange, need: u16) -> u64
    requires hits { uses.now.odds.hit_draws ≤ 256 }
    requires known { KnowsOnceFixed uses.now }
    ensures is { result ≡ sum_by (λ damage. after_change uses.now.most change (after_fixed_use uses.now over)
        (need - taken uses.now.halves need damage)) (range_with_len uses.now.odds.least (fixed_ways uses.now.odds)) }
    ensures most { result ≤ 1099511627776 }
{
    let mut hit: u64 = 0;
    for step in 0..fixed_ways(&uses.odds) {
        let damage = uses.odds.least.saturating_add(step as u16);
        let left = need.saturating_sub(taken(uses.halves, need, damage));
        hit += once_after(uses, change, left);
    }
    hit
}

// Three uses

pub(crate) fn thrice_fixed(uses: &Fixed, between: &Between, need: u16) -> u128
    requires hits { uses.now.odds.hit_draws ≤ 256 }
    requires known { KnowsOnceFixed uses.now }
    ensures { result ≡ three_uses (after_fixed_use uses.now) uses.now.most between.now need }
{
    let hit = thrice_ranged(uses, between, need);
    let missed = twice_after(uses, between, need);
    mixed_wide(
        uses.odds.hit_draws,
        hit,
        u128::from(fixed_ways(&uses.odds)) * missed,
    )
}

#[tactic(auto, using(crate::proofs::Counts::range_more))]
fn thrice_ranged(uses: &Fixed, between: &Between, need: u16) -> u128
    requires hits { uses.now.odds.hit_draws ≤ 256 }
    requires known { KnowsOnceFixed uses.now }
    ensures is { result ≡ sum_by (λ damage. after_change uses.now.most between.now.after_first
        (two_uses (after_fixed_use uses.now) uses.now.most between.now.after_second)
        (need - taken uses.now.halves need damage)) (range_with_len uses.now.odds.least (fixed_ways uses.now.odds)) }
    ensures most { result ≤ 18446744073709551616 }
{
    let mut hit: u128 = 0;
    for step in 0..fixed_ways(&uses.odds) {
        let damage = uses.odds.least.saturating_add(step as u16);
        let left = need.saturating_sub(taken(uses.halves, need, damage));
        hit += twice_after(uses, between, left);
    }
    hit
}

// Two uses after a change.
fn twice_after(uses: &Fixed, between: &Between, need: u16) -> u128
    requires hits { uses.now.odds.hit_draws ≤ 256 }
    requires known { KnowsOnceFixed uses.now }
    ensures is { result ≡ after_change uses.now.most between.now.after_first
        (two_uses (after_fixed_use uses.now) uses.now.most between.now.after_second) need }
    ensures most { result ≤ 281474976710656 }
{
    let need = changed(uses.most, between.after_first, need);
    u128::from(twice_fixed(uses, between.after_second, need))
}
