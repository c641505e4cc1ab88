//! Whether a move takes the hit test, and how many of the 256 possible draws make it hit, make it critical, or give a hit
//! its side effect (docs/MECHANICS.md, "Critical hits", "Hit test", "Side effects").
ghost use Rattle.std.specs.Prelude.{◌&&◌, ◌||◌, ◌≡◌, ◌≤◌};
ghost use Rattle.gen1_tables.specs.declared.types.Element.TheVariants.{Poison};
ghost use Rattle.gen1_machine.specs.State.{any_living, has_type};
ghost use Rattle.gen1_layout.specs.Words.{Reads, active_in, is_frozen, move_at, other, party};
ghost use Rattle.gen1_odds.specs.Odds.{acts_untested, critical_draws, deals_usual, draws_by, effect_draws, harm_draws, how_many, is_sleep, is_tested, passes, poison_draws, resists_freeze, resists_status, side_effect_draws, skips_test, takes_hit_test, unless_guarded};
ghost use Rattle.gen1_odds.specs.Trials.{ReadsUnder, has_status_in};

use crate::effect_reasons::is_lowest;
use crate::reasons::Reason;
use crate::sights::{
    Trial, base, has_status, has_substitute, has_type, is_confused, is_recharging, traps_on,
    trial_of,
};
use gen1_hits::{critical_bound, has_usual_damage, scaled_accuracy, settled_hit};
use gen1_layout::{Conditions, Packed};
use gen1_machine::Side;
use gen1_status::has_frozen_member;
use gen1_tables::{Effect, Element, MoveId};

/// Whether a move takes the hit test when it is used (docs/MECHANICS.md, "Hit test"), if nothing makes it fail
/// before.
///
/// Moves that fail, and moves that affect only their user, take no hit test.
pub fn takes_hit_test(id: MoveId) -> bool
    ensures { result ≡ takes_hit_test (move_at id) }
{
    !acts_untested(id.effect())
}

fn acts_untested(effect: Effect) -> bool
    ensures { result ≡ acts_untested effect }
{
    matches!(
        effect,
        Effect::AlwaysFails
            | Effect::Bide
            | Effect::Conversion
            | Effect::FocusEnergy
            | Effect::Haze
            | Effect::Heal
            | Effect::LeftOut
            | Effect::Mist
            | Effect::Screen
            | Effect::Splash
            | Effect::StatUp(..)
            | Effect::Substitute
    )
}

/// Whether the use deals the usual damage. Trapping that continues repeats its damage, in place of that.
pub(crate) fn deals_usual(battle: &Packed, side: Side, id: MoveId) -> bool
    ensures stands { Reads battle.now result (deals_usual side (move_at id)) }
{
    let usual = has_usual_damage(id);
    let traps_on = traps_on(battle, side, id);
    usual & !traps_on
}

/// How many draws make a hit critical. Rotating the bits is a permutation of the bytes, so there are as many as there
/// are bytes below the bound.
pub(crate) fn critical_draws(battle: &Packed, side: Side, id: MoveId) -> u16
    ensures stands { Reads battle.now result (critical_draws side (move_at id)) }
    ensures most { result ≤ 255 }
{
    if !deals_usual(battle, side, id) {
        return 0;
    }
    let focused = battle.is_on(side, Conditions::FOCUS_ENERGY);
    u16::from(critical_bound(battle.species(side), focused, id))
}

/// How many draws of the hit test make the use hit: 0 if it can't hit, 256 if it hits without a test.
pub(crate) fn hit_draws(battle: &Packed, side: Side, id: MoveId, reason: Option<Reason>) -> u16
    ensures stands { Reads battle.now result (draws_by reason side (move_at id)) }
    ensures most { result ≤ 256 }
{
    if reason.is_some() {
        return 0;
    }
    if is_tested(battle, side, id) {
        return passing_draws(battle, side, id);
    }
    256
}

fn is_tested(battle: &Packed, side: Side, id: MoveId) -> bool
    ensures stands { Reads battle.now result (is_tested side (move_at id)) }
{
    let takes = takes_hit_test(id);
    let skips = skips_test(battle, side, id);
    takes & !skips
}

// A sleep move takes no test against a foe that has to recharge, and trapping that continues takes none at all.
fn skips_test(battle: &Packed, side: Side, id: MoveId) -> bool
    ensures stands { Reads battle.now result (skips_test side (move_at id)) }
{
    let traps_on = traps_on(battle, side, id);
    let sleep = is_sleep(trial_of(id.effect()));
    let recharges = is_recharging(battle, side.other());
    traps_on | (sleep & recharges)
}

fn is_sleep(trial: Trial) -> bool
    ensures { result ≡ is_sleep trial }
{
    matches!(trial, Trial::Sleep)
}

fn passing_draws(battle: &Packed, side: Side, id: MoveId) -> u16
    ensures stands { Reads battle.now result λ f. how_many (λ draw. passes side (move_at id) f draw) }
    ensures most { result ≤ 256 }
{
    match settled_hit(battle, side, id) {
        Some(true) => 256,
        Some(false) => 0,
        None => u16::from(scaled_accuracy(battle, side, base(battle, side, id))),
    }
}

const TWINEEDLE: u16 = 52;

const FREEZE: u16 = 26;

const STAT_DOWN: u16 = 85;

/// How many of the 256 possible draws give a hit its side effect, if the foe stands and no substitute broke: 256 if the
/// effect is sure.
///
/// It is 0 if the foe's status, type or substitute guards it, or if the move has none. The thaw of a frozen foe does not
/// count, nor does Disable, which does what it does by its hit.
pub fn side_effect_draws(battle: &Packed, side: Side, id: MoveId) -> u16
    ensures stands { ReadsUnder battle.now result λ r. side_effect_draws r side (move_at id) }
    ensures most { result ≤ 256 }
{
    effect_draws(battle, side, id, id.effect())
}

fn effect_draws(battle: &Packed, side: Side, id: MoveId, effect: Effect) -> u16
    ensures stands { ReadsUnder battle.now result λ r f. effect_draws r side (move_at id) f effect }
    ensures most { result ≤ 256 }
{
    let foe = side.other();
    match effect {
        Effect::ConfusionChance(bound) => {
            unless_guarded(is_confused(battle, foe), u16::from(bound))
        }
        Effect::Disable => 0,
        Effect::Recharge => 256,
        _ => unless_guarded(
            has_substitute(battle, foe),
            harm_draws(battle, side, id, effect),
        ),
    }
}

// Of a foe without a substitute, for the effects that a substitute keeps away.
fn harm_draws(battle: &Packed, side: Side, id: MoveId, effect: Effect) -> u16
    ensures stands { ReadsUnder battle.now result λ r f. harm_draws r side (move_at id) f effect }
    ensures most { result ≤ 256 }
{
    let foe = side.other();
    match effect {
        Effect::PoisonChance(bound) => poison_draws(battle, foe, u16::from(bound)),
        Effect::Twineedle => poison_draws(battle, foe, TWINEEDLE),
        Effect::BurnChance(bound) => status_draws(battle, side, id, u16::from(bound)),
        Effect::FreezeChance => freeze_draws(battle, side, id),
        Effect::ParalysisChance(bound) => status_draws(battle, side, id, u16::from(bound)),
        Effect::FlinchChance(bound) => u16::from(bound),
        Effect::StatDownChance(stat) => { unless_guarded(is_lowest(battle, foe, stat), STAT_DOWN) }
        _ => 0,
    }
}

fn poison_draws(battle: &Packed, foe: Side, bound: u16) -> u16
    ensures stands { Reads battle.now result λ f. poison_draws foe f bound }
    ensures most { bound ≤ 256 → result ≤ 256 }
{
    let ailing = has_status(battle, foe);
    let immune = has_type(battle, foe, Element::Poison);
    unless_guarded(ailing | immune, bound)
}

fn status_draws(battle: &Packed, side: Side, id: MoveId, bound: u16) -> u16
    ensures stands { Reads battle.now result λ f.
        unless_guarded (resists_status side (move_at id) f) bound }
    ensures most { bound ≤ 256 → result ≤ 256 }
{
    unless_guarded(resists_status(battle, side, id), bound)
}

fn freeze_draws(battle: &Packed, side: Side, id: MoveId) -> u16
    ensures stands { ReadsUnder battle.now result λ r f.
        unless_guarded (resists_status side (move_at id) f || resists_freeze r side f) 26 }
    ensures most { result ≤ 256 }
{
    let resists = resists_status(battle, side, id);
    let clause = resists_freeze(battle, side);
    unless_guarded(resists | clause, FREEZE)
}

// A status doesn't replace another, nor does a foe of the move's own type get one.
fn resists_status(battle: &Packed, side: Side, id: MoveId) -> bool
    ensures stands { Reads battle.now result (resists_status side (move_at id)) }
{
    let ailing = has_status(battle, side.other());
    let same = has_type(battle, side.other(), id.kind());
    ailing | same
}

fn resists_freeze(battle: &Packed, side: Side) -> bool
    ensures stands { ReadsUnder battle.now result λ r. resists_freeze r side }
{
    let clause = battle.freeze_clause();
    let frozen = has_frozen_member(battle, side.other());
    clause & frozen
}

fn unless_guarded(guarded: bool, bound: u16) -> u16
    ensures value { result ≡ unless_guarded guarded bound }
    ensures most { bound ≤ 256 → result ≤ 256 }
{
    if guarded { 0 } else { bound }
}
