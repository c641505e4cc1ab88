//! The odds of a use of a move, its number of hits, and what a damage gives back or costs (docs/MECHANICS.md, "Damage
//! numbers" to "Hit test", "Fixed damage and one-hit moves", "Many hits", "Recoil, drain and explosion").
ghost use Rattle.std.specs.Prelude.{◌≡◌, ◌≤◌};
ghost use Rattle.gen1_layout.specs.Words.{Reads, move_at};
ghost use Rattle.gen1_odds.specs.Odds.{IsCoded, IsListed, damages_in, drained, drains, eighths, flag, hit_count, no_damages, odds_in, recoil, recoils};
ghost use Rattle.gen1_odds.specs.Trials.{ReadsUnder};

use crate::chances::{critical_draws, deals_usual, hit_draws};
use crate::fixed_damage::fixed;
use crate::reasons::{reason_code, reason_of};
use crate::sights::charges_first;
use gen1_hits::{damage_list, numbers};
use gen1_layout::Packed;
use gen1_machine::Side;
use gen1_tables::{Effect, MoveId, STRUGGLE};

// The reasons for having no damages, with the numbers of `gen1_damage` of gen1_c.
const UNUSUAL: u8 = 48;

const DIVISOR: u8 = 49;

/// The damage of a hit at each factor from 217 to 255, which are equally likely, or why there is none.
#[repr(C)]
#[derive(Clone, Copy)]
pub struct Damages {
    /// The damages in HP, rising, or zeros if there are none.
    pub numbers: [u16; 39],
    /// How many damages there are: 39, or 0.
    pub count: u8,
    /// 0 if there are damages. Otherwise 48 if the use has no usual damage, or 49 if it would be divided by 0.
    pub code: u8,
}

/// The odds of a use of a move (docs/MECHANICS.md, "Critical hits" to "Hit test", "Fixed damage and one-hit moves", "Many
/// hits").
///
/// The use is that of a member that acts now, whatever may keep it from acting. The odds of a move that charges are those
/// of its strike.
#[repr(C)]
#[derive(Clone, Copy)]
pub struct Odds {
    /// The damage of a hit that isn't critical. A damage of 0 is a miss.
    pub usual: Damages,
    /// The damage of a critical hit. A damage of 0 is a miss.
    pub critical: Damages,
    /// How many of the 256 possible draws make the hit critical, 0 to 255. It is 0 for a use without usual damage.
    pub critical_draws: u16,
    /// How many of the 256 possible draws of the hit test make the use hit, 0 to 256. It is 256 if it hits without a test.
    pub hit_draws: u16,
    /// The least damage of a hit without usual damage, or 0.
    pub least: u16,
    /// The most damage of a hit without usual damage. The numbers from the least to the most are equally likely.
    pub most: u16,
    /// In how many of 8 cases a use that hits makes 0, 1, .. 5 hits. Each hit deals the same damage.
    pub hits: [u8; 6],
    /// Why the use can't hit: the number of a `Reason`, or 0 if it can.
    pub reason: u8,
    /// 1 if the user would only charge now, and strike in its next action; otherwise 0.
    pub charges_first: u8,
}

/// The odds of a move of a side against the foe, for the present state of the two members that are out.
///
/// The member need not know the move. The battle stays as it is, and nothing is drawn.
pub fn odds_of(battle: &Packed, side: Side, id: MoveId) -> Odds
    ensures stands { ReadsUnder battle.now result λ r. odds_in r side (move_at id) }
    ensures critical { result.critical_draws ≤ 255 }
    ensures hits { result.hit_draws ≤ 256 }
    ensures usual_few { result.usual.count ≤ 39 }
    ensures critical_few { result.critical.count ≤ 39 }
    ensures listed { IsListed result }
{
    let reason = reason_of(battle, side, id);
    let (least, most) = fixed(battle, side, id);
    Odds {
        usual: damages_of(battle, side, id, false),
        critical: damages_of(battle, side, id, true),
        critical_draws: critical_draws(battle, side, id),
        hit_draws: hit_draws(battle, side, id, reason),
        least,
        most,
        hits: eighths(hit_count(id.effect())),
        reason: reason_code(reason),
        charges_first: flag(charges_first(battle, side, id)),
    }
}

pub(crate) fn flag(holds: bool) -> u8
    ensures value { result ≡ flag holds }
    ensures bit { result ≤ 1 }
{
    if holds { 1 } else { 0 }
}

fn damages_of(battle: &Packed, side: Side, id: MoveId, critical: bool) -> Damages
    ensures stands { Reads battle.now result (damages_in side (move_at id) critical) }
    ensures few { result.count ≤ 39 }
    ensures coded { IsCoded result }
{
    if !deals_usual(battle, side, id) {
        return no_damages(UNUSUAL);
    }
    match damage_list(&numbers(battle, side, id, critical)) {
        Some(list) => Damages {
            numbers: list,
            count: 39,
            code: 0,
        },
        None => no_damages(DIVISOR),
    }
}

fn no_damages(code: u8) -> Damages
    ensures { result ≡ no_damages code }
{
    Damages {
        numbers: [0; 39],
        count: 0,
        code,
    }
}

/// How many hits a move makes that has hit.
#[derive(Clone, Copy)]
pub(crate) enum HitCount {
    Once,
    Twice,
    /// Two or three hits with 3 chances of 8 each, four or five with 1 chance of 8 each.
    Several,
}

pub(crate) fn hit_count(effect: Effect) -> HitCount
    ensures { result ≡ hit_count effect }
{
    match effect {
        Effect::MultiHit => HitCount::Several,
        Effect::DoubleHit => HitCount::Twice,
        Effect::Twineedle => HitCount::Twice,
        _ => HitCount::Once,
    }
}

/// In how many of 8 cases a move makes 0, 1, .. 5 hits.
fn eighths(count: HitCount) -> [u8; 6]
    ensures { result ≡ eighths count }
{
    match count {
        HitCount::Once => [0, 8, 0, 0, 0, 0],
        HitCount::Twice => [0, 0, 8, 0, 0, 0],
        HitCount::Several => [0, 0, 3, 3, 1, 1],
    }
}

/// The HP that a damage of a move gives to its user, 0 if the move does not drain (docs/MECHANICS.md, "Recoil, drain and
/// explosion").
///
/// The damage is the HP that the foe lost, or what its substitute took without breaking. The user gains at most what it
/// lacks.
pub fn drained(id: MoveId, damage: u16) -> u16
    ensures { result ≡ drained (move_at id) damage }
{
    if drains(id.effect()) {
        return (damage / 2).max(1);
    }
    0
}

/// The HP that a damage of a move costs its user, 0 if the move has no recoil (docs/MECHANICS.md, "Recoil, drain and
/// explosion").
///
/// The damage is the HP that the foe lost, or what its substitute took without breaking.
pub fn recoil(id: MoveId, damage: u16) -> u16
    ensures { result ≡ recoil (move_at id) damage }
{
    if !recoils(id.effect()) {
        return 0;
    }
    if id.number() == STRUGGLE {
        return (damage / 2).max(1);
    }
    (damage / 4).max(1)
}

fn drains(effect: Effect) -> bool
    ensures { result ≡ drains effect }
{
    matches!(effect, Effect::Drain | Effect::DreamEater)
}

fn recoils(effect: Effect) -> bool
    ensures { result ≡ recoils effect }
{
    matches!(effect, Effect::Recoil)
}
