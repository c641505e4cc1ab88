//! The numbers of a hit, from a battle, and whether it is critical (docs/MECHANICS.md, "Damage numbers", "Critical
//! hits").
ghost use Rattle.std.specs.Prelude.{◌∷◌, ◌≡◌};
ghost use Rattle.gen1_tables.specs.Species.{species_row};
ghost use Rattle.gen1_rolls.specs.Draws.{Steps};
ghost use Rattle.gen1_machine.specs.Damage.{attacking, defending, doubled_if, fitted_attack, fitted_defense, is_screened, numbers_in, quartered};
ghost use Rattle.gen1_machine.specs.HitOnItself.{own_numbers_in};
ghost use Rattle.gen1_machine.specs.Moves.{is_often_critical};
ghost use Rattle.gen1_machine.specs.CriticalHits.{critical_bound, roll_critical, rotated_left_3};
ghost use Rattle.gen1_layout.specs.Words.{Event, List, Reads, [], active_in, conditions_in, false, member_in, move_at, now_in, other, unmodified};
ghost use Rattle.gen1_layout.specs.Operations.{Draws, learns, unchanged};
ghost use Rattle.gen1_hits.specs.Knowing.{with_critical};

use crate::damage_formula::Numbers;
use gen1_layout::{Conditions, Packed};
use gen1_machine::Side;
use gen1_rolls::{Look, Rolls};
use gen1_tables::{Element, MoveId, Species, Stat};

/// The numbers of a hit on the foe (docs/MECHANICS.md, "Damage numbers").
///
/// A critical hit doubles the level and takes each member's own stats. Stages, penalties and screens don't matter for it.
#[inline(always)] // docs/SPEED.md, "Hints on inlining"
pub fn numbers(battle: &Packed, side: Side, id: MoveId, critical: bool) -> Numbers
    ensures stands { Reads battle.now result (numbers_in side (move_at id) critical) }
{
    let foe = side.other();
    let kind = id.kind();
    let (attack, defense) = if critical {
        own_stats(battle, side, kind)
    } else {
        current_stats(battle, side, kind)
    };
    Numbers {
        level: level(battle, side, critical),
        power: id.power(),
        attack: fitted_attack(attack, defense),
        defense: fitted_defense(attack, defense),
        kind,
        own: types(battle, side),
        foe: types(battle, foe),
        halved: id.effect().explodes(),
    }
}

/// The numbers of a confused user's hit on itself (docs/MECHANICS.md, "Hit on itself").
///
/// The power is 40, and the user's Attack works against its own Defense, which the foe's Reflect doubles.
pub fn own_numbers(battle: &Packed, side: Side) -> Numbers
    ensures stands { Reads battle.now result (own_numbers_in side) }
{
    let foe = side.other();
    let attack = u32::from(battle.current_stat(side, Stat::Attack));
    let screened = battle.is_on(foe, Conditions::REFLECT);
    let defense = doubled_if(screened, battle.current_stat(side, Stat::Defense));
    Numbers {
        level: battle.level(side),
        power: 40,
        attack: fitted_attack(attack, defense),
        defense: fitted_defense(attack, defense),
        kind: Element::Normal,
        own: types(battle, side),
        foe: types(battle, foe),
        halved: false,
    }
}

// A level is at most 100, so doubling it doesn't overflow.
fn level(battle: &Packed, side: Side, critical: bool) -> u8
    ensures stands { Reads battle.now result λ f. doubled_if critical (member_in side f).level }
{
    doubled_if(critical, u16::from(battle.level(side))).min(255) as u8
}

fn types(battle: &Packed, side: Side) -> [Element; 2]
    ensures stands { Reads battle.now result λ f. (active_in side f).first_type
        ∷ (active_in side f).second_type ∷ [] }
{
    [battle.first_type(side), battle.second_type(side)]
}

// The user's own stat and the foe's.
fn own_stats(battle: &Packed, side: Side, kind: Element) -> (u32, u32)
    ensures attack { Reads battle.now result.0 λ f. unmodified (attacking kind) (member_in side f) }
    ensures defense { Reads battle.now result.1 λ f. unmodified (defending kind)
        (member_in (other side) f) }
{
    let foe = side.other();
    let attack = u32::from(battle.unmodified(side, attacking(kind)));
    let defense = u32::from(battle.unmodified(foe, defending(kind)));
    (attack, defense)
}

// The current stats of both, with the foe's screen.
fn current_stats(battle: &Packed, side: Side, kind: Element) -> (u32, u32)
    ensures attack { Reads battle.now result.0 (now_in (attacking kind) side) }
    ensures defense { Reads battle.now result.1 λ f. doubled_if
        (is_screened kind (conditions_in (other side) f)) (now_in (defending kind) (other side) f) }
{
    let foe = side.other();
    let attack = battle.current_stat(side, attacking(kind));
    let defense = battle.current_stat(foe, defending(kind));
    (
        u32::from(attack),
        doubled_if(is_screened(battle, foe, kind), defense),
    )
}

fn attacking(kind: Element) -> Stat
    ensures { result ≡ attacking kind }
{
    if kind.is_special() {
        Stat::Special
    } else {
        Stat::Attack
    }
}

fn defending(kind: Element) -> Stat
    ensures { result ≡ defending kind }
{
    if kind.is_special() {
        Stat::Special
    } else {
        Stat::Defense
    }
}

// Whether the side has the screen against a type.
fn is_screened(battle: &Packed, side: Side, kind: Element) -> bool
    ensures stands { Reads battle.now result λ f. is_screened kind (conditions_in side f) }
{
    if kind.is_special() {
        battle.is_on(side, Conditions::LIGHT_SCREEN)
    } else {
        battle.is_on(side, Conditions::REFLECT)
    }
}

fn doubled_if(doubles: bool, number: u16) -> u32
    ensures { result ≡ doubled_if doubles number }
{
    if doubles {
        2 * u32::from(number)
    } else {
        u32::from(number)
    }
}

// If one of the two doesn't fit a byte, both are divided by 4. Then only their low bytes count.
fn fitted_attack(attack: u32, defense: u32) -> u8
    ensures { result ≡ fitted_attack attack defense }
{
    (quartered(attack, defense, attack).max(1) % 256) as u8
}

fn fitted_defense(attack: u32, defense: u32) -> u8
    ensures { result ≡ fitted_defense attack defense }
{
    (quartered(attack, defense, defense) % 256) as u8
}

fn quartered(attack: u32, defense: u32, number: u32) -> u32
    ensures { result ≡ quartered attack defense number }
{
    if attack.max(defense) > 255 {
        number / 4
    } else {
        number
    }
}

const KARATE_CHOP: u8 = 2;

const RAZOR_LEAF: u8 = 75;

const CRABHAMMER: u8 = 152;

const SLASH: u8 = 163;

/// Takes the critical draw for a move of `side`, and returns whether the hit is critical (docs/MECHANICS.md,
/// "Critical hits").
///
/// It takes one draw. The battle stays as it is, and no event is written.
#[inline(always)] // docs/SPEED.md, "Hints on inlining"
pub fn critical<R: Rolls>(battle: &Packed, side: Side, id: MoveId, random: &mut R) -> bool
    ensures shown { (told : List Event) → Draws R.drawing random
        (learns (with_critical result) (unchanged told battle)) false (roll_critical side (move_at id)) }
    ensures steps { Steps R.drawing random }
{
    let focused = battle.is_on(side, Conditions::FOCUS_ENERGY);
    let bound = critical_bound(battle.species(side), focused, id);
    rotated_left_3(random.draw_as(Look::RotatedBelow(bound))) < bound
}

/// The bound of a critical hit, 0 to 255: a draw, rotated left by 3 bits, must be below it (docs/MECHANICS.md,
/// "Critical hits").
///
/// With Focus Energy (`focused`) it is smaller.
pub fn critical_bound(species: Species, focused: bool, id: MoveId) -> u8
    ensures { result ≡ critical_bound (species_row species).speed focused (is_often_critical id) }
{
    let [_, _, _, speed, _] = species.base();
    bound(speed, focused, is_often_critical(id))
}

fn bound(base_speed: u8, focused: bool, often: bool) -> u8
    ensures { result ≡ critical_bound base_speed focused often }
{
    let half = base_speed / 2;
    let by_energy = if focused {
        half / 2
    } else {
        half.saturating_mul(2)
    };
    if often {
        by_energy.saturating_mul(4)
    } else {
        by_energy / 2
    }
}

fn is_often_critical(id: MoveId) -> bool
    ensures { result ≡ is_often_critical id }
{
    matches!(id.number(), KARATE_CHOP | RAZOR_LEAF | CRABHAMMER | SLASH)
}

fn rotated_left_3(byte: u8) -> u8
    ensures { result ≡ rotated_left_3 byte }
{
    byte.rotate_left(3)
}
