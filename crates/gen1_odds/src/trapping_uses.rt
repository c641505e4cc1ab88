//! In how many ways two or three uses of a trapping move take the HP that are needed (docs/MECHANICS.md, "Going on"). A use
//! that hits continues: the next deals the same damage again.
ghost use Rattle.std.specs.Prelude.{◌*◌, ◌+◌, ◌-◌, ◌≡◌, ◌≤◌};
ghost use Rattle.std.specs.List.{sum_by};
ghost use Rattle.gen1_odds.specs.KnockOut.{after_each, again, over, third_trapping, three_trapping, two_trapping};

use crate::knock_outs::{Between, HpChange, changed, mixed, mixed_wide, over};
use crate::odds::{HitCount, Odds};
use crate::usual_uses::{WAYS, once};

// What is needed after a change of the HP, and the same damage again.
fn again(most: u16, change: HpChange, damage: u16, need: u16) -> u16
    ensures { result ≡ again most change damage need }
{
    changed(most, change, need).saturating_sub(damage)
}

// Two uses

pub(crate) fn twice_trapping(odds: &Odds, most: u16, change: HpChange, need: u16) -> u64
    requires critical { odds.now.critical_draws ≤ 255 }
    requires hits { odds.now.hit_draws ≤ 256 }
    ensures is { result ≡ two_trapping odds.now most change need }
    ensures most { result ≤ 418089296461824 }
{
    let hit = 8 * twice_either(odds, most, change, need);
    let missed = once(odds, HitCount::Once, changed(most, change, need));
    mixed(odds.hit_draws, hit, 79872 * missed)
}

fn twice_either(odds: &Odds, most: u16, change: HpChange, need: u16) -> u64
    requires critical { odds.now.critical_draws ≤ 255 }
    ensures is { result ≡ after_each odds.now
        (λ damage left. 20447232 * over (again most change damage left)) need }
    ensures most { result ≤ 204145164288 }
{
    let critical = twice_hits(&odds.critical.numbers, most, change, need);
    let usual = twice_hits(&odds.usual.numbers, most, change, need);
    mixed(odds.critical_draws, critical, usual)
}

fn twice_hits(list: &[u16; 39], most: u16, change: HpChange, need: u16) -> u64
    ensures is { result ≡ sum_by
        (λ damage. 20447232 * over (again most change damage (need - damage))) list.now }
    ensures most { result ≤ 797442048 }
{
    let mut ways: u64 = 0;
    for damage in list {
        let left = again(most, change, *damage, need.saturating_sub(*damage));
        ways += WAYS * over(left);
    }
    ways
}

// Three uses

pub(crate) fn thrice_trapping(odds: &Odds, most: u16, between: &Between, need: u16) -> u128
    requires critical { odds.now.critical_draws ≤ 255 }
    requires hits { odds.now.hit_draws ≤ 256 }
    ensures { result ≡ three_trapping odds.now most between.now need }
{
    let hit = thrice_either(odds, most, between, need);
    let left = changed(most, between.after_first, need);
    let missed = twice_trapping(odds, most, between.after_second, left);
    mixed_wide(odds.hit_draws, hit, 79872 * u128::from(missed))
}

fn thrice_either(odds: &Odds, most: u16, between: &Between, need: u16) -> u128
    requires critical { odds.now.critical_draws ≤ 255 }
    requires hits { odds.now.hit_draws ≤ 256 }
    ensures is { result ≡ after_each odds.now (λ damage left. 20447232 * third_trapping odds.now
        most between.now.after_second damage (again most between.now.after_first damage left)) need }
    ensures most { result ≤ 33393628286998806528 }
{
    let critical = thrice_hits(odds, &odds.critical.numbers, most, between, need);
    let usual = thrice_hits(odds, &odds.usual.numbers, most, between, need);
    mixed_wide(odds.critical_draws, u128::from(critical), u128::from(usual))
}

fn thrice_hits(odds: &Odds, list: &[u16; 39], most: u16, between: &Between, need: u16) -> u64
    requires critical { odds.now.critical_draws ≤ 255 }
    requires hits { odds.now.hit_draws ≤ 256 }
    ensures is { result ≡ sum_by (λ damage. 20447232 * third_trapping odds.now
        most between.now.after_second damage (again most between.now.after_first damage
        (need - damage))) list.now }
    ensures most { result ≤ 130443860496089088 }
{
    let mut ways: u64 = 0;
    for damage in list {
        let left = again(
            most,
            between.after_first,
            *damage,
            need.saturating_sub(*damage),
        );
        ways += WAYS * third(odds, most, between.after_second, *damage, left);
    }
    ways
}

// The third use continues too with 5 chances of 8, and is otherwise a new one.
fn third(odds: &Odds, most: u16, change: HpChange, damage: u16, need: u16) -> u64
    requires critical { odds.now.critical_draws ≤ 255 }
    requires hits { odds.now.hit_draws ≤ 256 }
    ensures is { result ≡ third_trapping odds.now most change damage need }
    ensures most { result ≤ 163577856 }
{
    let goes_on = 5 * (WAYS * over(again(most, change, damage, need)));
    let is_new = 3 * once(odds, HitCount::Once, changed(most, change, need));
    goes_on + is_new
}
