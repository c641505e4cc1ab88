//! The numbers of a hit, and its damage: by the formula, by the types of a move, of its user and of the foe, and by a
//! drawn factor or all of them. Which moves have damage of this kind, and which members a move has no effect on
//! (docs/MECHANICS.md, "Damage numbers", "Damage formula", "Types", "Factors", "Fixed damage and one-hit moves",
//! "Counter").
ghost use Rattle.std.specs.Prelude.{IfSome, if◌then◌else◌, map, slice_index_or, ◌+◌, ◌/◌, ◌||◌, ◌≡◌, ◌≤◌};
ghost use Rattle.std.specs.List.{range_with_len};
ghost use Rattle.gen1_tables.specs.declared.types.Element.TheVariants.{Normal as normal};
ghost use Rattle.gen1_tables.specs.Types.{same_type};
ghost use Rattle.gen1_rolls.specs.Draws.{Steps};
ghost use Rattle.gen1_rolls.specs.Streams.{limit_of};
ghost use Rattle.gen1_machine.specs.Damage.{before_types, is_factor, is_own_type, rotated_right_1, times_factor, type_steps};
ghost use Rattle.gen1_machine.specs.HitTest.{is_immune};
ghost use Rattle.gen1_machine.specs.Moves.{move_at};
ghost use Rattle.gen1_layout.specs.Words.{Reads, active_in};
ghost use Rattle.gen1_hits.specs.DamageNumbers.{Varies, VariesUpTo, damages, has_own_damage, has_usual_damage, varied};

use gen1_layout::Packed;
use gen1_machine::Side;
use gen1_rolls::{ByteTest, Look, Rolls};
use gen1_tables::{Effect, Element, MoveId, effectiveness};
use std::marker::Model;

/// The inputs of the damage formula for one hit (docs/MECHANICS.md, "Damage numbers").
#[derive(Clone, Copy, PartialEq, Eq, Debug, Drop)]
pub struct Numbers {
    /// The user's level, 1 to 100, doubled for a critical hit.
    pub level: u8,
    /// The move's power.
    pub power: u8,
    /// The user's Attack or Special, as it counts in this hit.
    pub attack: u8,
    /// The foe's Defense or Special, as it counts in this hit. It can be 0.
    pub defense: u8,
    /// The move's type.
    pub kind: Element,
    /// The user's two types, which are equal if it has one.
    pub own: [Element; 2],
    /// The foe's two types, which are equal if it has one.
    pub foe: [Element; 2],
    /// Whether the move explodes, which halves the defense.
    pub halved: bool,
}

impl Model for Numbers {
    ghost use Rattle.std.specs.Prelude.{length, ◌≡◌};
    ghost use Rattle.gen1_machine.specs.Damage.{DamageNumbers};

    ghost Value = { DamageNumbers };

    ghost use Rattle.gen1_hits.specs.DamageNumbers.{numbers_of, parts_of, parts_of-numbers_of};

    ghost view = { numbers_of };

    ghost invariant = { λ n. (length n.own ≡ 2) × (length n.foe ≡ 2) };

    ghost inverse = { parts_of };

    ghost inverse_ok = { λ n h. parts_of-numbers_of n h.0 h.1 };
}

/// The damage before types, 2 to 999 (docs/MECHANICS.md, "Damage formula"). Returns `None` if the divisor is 0.
pub fn damage(numbers: &Numbers) -> Option<u16>
    ensures is { result ≡ before_types numbers.now }
    ensures small { IfSome result (λ damage. damage ≤ 999) }
{
    let divisor = if numbers.halved {
        (numbers.defense / 2).max(1)
    } else {
        numbers.defense
    };
    if divisor == 0 {
        return None;
    }
    let level = 2 * u32::from(numbers.level) / 5 + 2;
    let product = level * u32::from(numbers.power) * u32::from(numbers.attack);
    Some((product / u32::from(divisor) / 50).min(997) as u16 + 2)
}

// Whether a type is one of two types.
fn is_one_of(kind: Element, types: &[Element; 2]) -> bool
    ensures { result
        ≡ (same_type kind (slice_index_or types.now 0 normal) || same_type kind
        (slice_index_or types.now 1 normal)) }
{
    kind == types[0] || kind == types[1]
}

fn with_own_type(damage: u16, numbers: &Numbers) -> u16
    requires fits { damage ≤ 999 }
    ensures is { result ≡ (if is_own_type numbers.now then damage + damage / 2 else damage) }
    ensures small { result ≤ 1498 }
{
    if is_one_of(numbers.kind, &numbers.own) {
        damage + damage / 2
    } else {
        damage
    }
}

/// The damage after types, for damage of at most 999 (docs/MECHANICS.md, "Types"). It is at most 5,992.
///
/// A move of one of the user's types does half as much again. Then each row that applies has its effect, in the order
/// of the table. Each step rounds down.
pub fn type_steps(damage: u16, numbers: &Numbers) -> u16
    requires fits { damage ≤ 999 }
    ensures steps { result ≡ type_steps damage numbers.now }
    ensures bound { result ≤ 5992 }
{
    let [first, second] = numbers.foe;
    let (one, two) = effectiveness(numbers.kind, first, second);
    let changed = with_own_type(damage, numbers);
    changed * u16::from(one) / 10 * u16::from(two) / 10
}

/// Whether a type row of 0 has the type of a move and a type of the member of `side` that is out (docs/MECHANICS.md, "Types").
#[tactic(auto, using(crate::proofs::Knowledge::none_of))]
pub fn is_immune(battle: &Packed, side: Side, kind: Element) -> bool
    ensures stands { Reads battle.now result λ f. is_immune kind (active_in side f) }
{
    let (one, two) = effectiveness(kind, battle.first_type(side), battle.second_type(side));
    (one == 0) | (two == 0)
}

/// The least factor, in 255ths (docs/MECHANICS.md, "Factors").
pub const LEAST_FACTOR: u8 = 217;

/// Damage times a drawn factor, in 255ths (docs/MECHANICS.md, "Factors").
///
/// Damage of 0 and 1 stays as it is, without a draw. Otherwise it draws until a byte is a factor.
pub fn factor<R: Rolls>(damage: u16, random: &mut R) -> u16
    ensures varies { Varies R.drawing random damage result }
    ensures most { result ≤ damage }
    ensures steps { Steps R.drawing random }
{
    factor_up_to(damage, u16::MAX, false, random)
}

/// Damage times a drawn factor, for a hit that fells the foe or breaks its substitute if the damage is at least `edge`.
///
/// `cut`: the caller doesn't distinguish damages of at least `edge`. So if the drawn damage is at least `edge`, the
/// result may be another such damage.
pub fn factor_up_to<R: Rolls>(damage: u16, edge: u16, cut: bool, random: &mut R) -> u16
    ensures varies { VariesUpTo R.drawing random (limit_of edge cut) damage result }
    ensures most { result ≤ damage }
    ensures steps { Steps R.drawing random }
{
    if damage <= 1 {
        return damage;
    }
    match random.until_as(
        ByteTest::RotatedAtLeast(LEAST_FACTOR),
        Look::Factor { damage, edge, cut },
    ) {
        Some(byte) => times_factor(rotated(byte), damage),
        None => unreachable!(),
    }
}

/// The damage of a hit at each factor from 217 to 255, in this order (docs/MECHANICS.md, "Factors").
///
/// Damage of 0 or 1 gives 39 equal values. Returns `None` if the divisor is 0.
pub fn damage_list(numbers: &Numbers) -> Option<[u16; 39]>
    ensures { result ≡ damages numbers.now }
{
    let before = damage(numbers)?;
    Some(at_factors(type_steps(before, numbers)))
}

fn at_factors(damage: u16) -> [u16; 39]
    ensures { result ≡ map (λ factor. varied factor damage) (range_with_len 217 39) }
{
    let mut list = [damage; 39];
    for (place, entry) in list.iter_mut().enumerate() {
        *entry = varied(217 + place as u8, damage);
    }
    list
}

fn varied(factor: u8, damage: u16) -> u16
    ensures { result ≡ varied factor damage }
{
    match damage {
        0 | 1 => damage,
        _ => times_factor(factor, damage),
    }
}

fn times_factor(factor: u8, damage: u16) -> u16
    ensures is { result ≡ times_factor factor damage }
    ensures most { result ≤ damage }
{
    (u32::from(damage) * u32::from(factor) / 255) as u16
}

/// Whether a drawn byte is a factor: rotated right by 1 bit, it is at least 217 (docs/MECHANICS.md, "Factors").
pub fn is_factor(byte: u8) -> bool
    ensures { result ≡ is_factor byte }
{
    rotated(byte) >= LEAST_FACTOR
}

fn rotated(byte: u8) -> u8
    ensures { result ≡ rotated_right_1 byte }
{
    byte.rotate_right(1)
}

/// Whether a move has the usual damage, as the damage numbers give it (docs/MECHANICS.md, "Fixed damage and one-hit
/// moves", "Counter").
///
/// Such a move has power, and no special damage rule.
pub fn has_usual_damage(id: MoveId) -> bool
    ensures { result ≡ has_usual_damage (move_at id) }
{
    id.power() > 0 && !has_own_damage(id.effect())
}

fn has_own_damage(effect: Effect) -> bool
    ensures { result ≡ has_own_damage effect }
{
    matches!(
        effect,
        Effect::Counter | Effect::FixedDamage | Effect::OneHitKnockOut | Effect::SuperFang
    )
}
