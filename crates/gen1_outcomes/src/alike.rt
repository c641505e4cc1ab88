//! The bytes that a look sees alike, or that are in a class of damage, and these classes (docs/MECHANICS.md, "Link
//! numbers").
ghost use Rattle.std.specs.Prelude.{if◌then◌else◌, min, nat_lt, ℕ, ◌%◌, ◌*◌, ◌+◌, ◌-◌, ◌/◌, ◌<◌, ◌==◌, ◌≡◌, ◌≢◌, ◌≤◌};
ghost use Rattle.std.specs.Int.{bit_at};
ghost use Rattle.gen1_rolls.specs.Streams.{limit_of, rotated_right_1};
ghost use Rattle.gen1_outcomes.specs.Bytes.{KeepsEdgeApart, alike_in, class_of, damage_by, has, is_in, last_factor, least_factor, part_told, told};

use crate::byte_set::ByteSet;
use gen1_rolls::Look;

/// The bytes of a set that are alike to the byte in as many classes of damage.
pub fn alike_to(damage_classes: u8, look: Look, byte: u8, among: &ByteSet) -> ByteSet
    ensures { (x : ℕ) → x < 256
        → has result x ≡ (if alike_in damage_classes look byte x then has among.now x else 0) }
{
    let seen = look.sees(byte) == 1;
    match look {
        Look::Below(bound) => on_one_side(among, &ByteSet::below(bound), seen),
        Look::RotatedBelow(bound) => on_one_side(among, &ByteSet::rotated_below(bound), seen),
        Look::Remainder(2) => among.both(&ByteSet::repeated(every_second(byte % 2))),
        Look::Remainder(4) => among.both(&ByteSet::repeated(every_fourth(byte % 4))),
        Look::Remainder(8) => among.both(&ByteSet::repeated(every_eighth(byte % 8))),
        Look::Factor { damage, edge, cut } if damage > 0 => {
            let run = run_of(damage_classes, damage, edge, look.sees(byte));
            making(damage, limit_of(edge, cut), run, among)
        }
        _ => ByteSet {
            words: [
                alike_in_word(damage_classes, look, byte, 0, among.words[0]),
                alike_in_word(damage_classes, look, byte, 64, among.words[1]),
                alike_in_word(damage_classes, look, byte, 128, among.words[2]),
                alike_in_word(damage_classes, look, byte, 192, among.words[3]),
            ],
        },
    }
}

/// Parts of a damage, one after the other.
#[derive(Clone, Copy, Drop)]
pub(crate) struct Run {
    /// The least of them.
    pub(crate) first: u16,
    /// The greatest of them.
    pub(crate) last: u16,
}

// The parts of the damage that are in one class with this part.
fn run_of(damage_classes: u8, damage: u16, edge: u16, part: u16) -> Run
    requires damage { 0 < damage }
    requires part { part ≤ damage }
    ensures first { result.first ≤ part }
    ensures run { (other : ℕ) → other ≤ damage
        → (part_told damage_classes damage edge part == part_told damage_classes damage edge other)
        ≡ is_in result other }
{
    if damage_classes == 0 {
        return Run {
            first: part,
            last: part,
        };
    }
    let class = class_of(damage_classes, damage, part);
    let first = if class == 0 {
        0
    } else {
        last_of(damage_classes, damage, class - 1) + 1
    };
    let last = last_of(damage_classes, damage, class);
    if part >= edge {
        Run {
            first: first.max(edge),
            last,
        }
    } else {
        Run {
            first,
            last: last.min(edge - 1),
        }
    }
}

// The last part of the damage in a class.
#[tactic(auto, using(crate::proofs::Runs::last_part))]
fn last_of(damage_classes: u8, damage: u16, class: u32) -> u16
    requires class { class < damage_classes }
    ensures value { result ≡ damage * last_factor damage_classes class / 255 }
    ensures bound { result ≤ damage }
{
    let classes = u32::from(damage_classes);
    let factor = 216 + (39 * (class + 1) + (classes - 1)) / classes;
    (u32::from(damage) * factor / 255) as u16
}

// The bytes of a set that make a part in the run. What they make of the damage is cut at a limit.
fn making(damage: u16, limit: u16, run: Run, among: &ByteSet) -> ByteSet
    requires damage { 0 < damage }
    requires within { run.first ≤ limit }
    ensures { (x : ℕ) → x < 256
        → has result x ≡ (if is_in run (min (damage_by damage x) limit) then has among.now x else 0) }
{
    let first = least_factor(damage, run.first).min(256) as u16;
    let next = if run.last < limit {
        least_factor(damage, run.last + 1).min(256) as u16
    } else {
        256
    };
    among.rotated_right_between(first, next)
}

// Where a roll is cut: damages from there on are not distinguished.
fn limit_of(edge: u16, cut: bool) -> u16
    ensures { result ≡ limit_of edge cut }
{
    if cut { edge } else { u16::MAX }
}

// The bytes of a set that are in the other set, or that are not.
fn on_one_side(among: &ByteSet, other: &ByteSet, inside: bool) -> ByteSet
    ensures { (x : ℕ) → x < 256
        → has result x ≡ (if inside then min (has among.now x) (has other.now x) else has among.now x - has other.now x) }
{
    if inside {
        among.both(other)
    } else {
        among.without(other)
    }
}

// The bits of a word whose places leave this remainder when they are divided by 2.
#[tactic(auto, using(crate::proofs::Sets::second))]
fn every_second(remainder: u8) -> u64
    requires { remainder < 2 }
    ensures { (i : ℕ) → i < 64 → bit_at result i ≡ (if remainder == i % 2 then 1 else 0) }
{
    0x5555_5555_5555_5555 << remainder
}

// The bits of a word whose places leave this remainder when they are divided by 4.
#[tactic(auto, using(crate::proofs::Sets::fourth))]
fn every_fourth(remainder: u8) -> u64
    requires { remainder < 4 }
    ensures { (i : ℕ) → i < 64 → bit_at result i ≡ (if remainder == i % 4 then 1 else 0) }
{
    0x1111_1111_1111_1111 << remainder
}

// The bits of a word whose places leave this remainder when they are divided by 8.
#[tactic(auto, using(crate::proofs::Sets::eighth))]
fn every_eighth(remainder: u8) -> u64
    requires { remainder < 8 }
    ensures { (i : ℕ) → i < 64 → bit_at result i ≡ (if remainder == i % 8 then 1 else 0) }
{
    0x0101_0101_0101_0101 << remainder
}

// The bytes of a word that are alike to the byte. The first of the word is `base`.
fn alike_in_word(damage_classes: u8, look: Look, byte: u8, base: u8, word: u64) -> u64
    requires { base ≤ 192 }
    ensures { (i : ℕ) → i < 64
        → bit_at result i ≡ (if alike_in damage_classes look byte (base + i) then bit_at word i else 0) }
{
    let seen = told(damage_classes, look, byte);
    let mut kept = word;
    'bits: for place in word.trailing_zeros()..64 {
        let stays = word >> place & 1 == 0
            || seen == told(damage_classes, look, base + place as u8);
        kept = kept_if(kept, place, stays);
    }
    kept
}

// The word, with this bit of it only on a condition.
#[tactic(auto, using(crate::proofs::Sets::cleared_here, crate::proofs::Sets::cleared_others))]
fn kept_if(word: u64, place: u32, condition: bool) -> u64
    requires { place < 64 }
    ensures here { bit_at result place ≡ (if condition then bit_at word place else 0) }
    ensures others { (i : ℕ) → i < 64 → i ≢ place → bit_at result i ≡ bit_at word i }
{
    if condition {
        word
    } else {
        word & !(1 << place)
    }
}

/// What is distinguished of the byte, as a number: what the look sees, or with classes of damage the class of the damage.
///
/// There are as many classes as the first number says, or with 0 as many as there are damages. Damage below the edge and
/// damage from it on are in different classes, so the weight of each class counts only one of them.
pub fn told(damage_classes: u8, look: Look, byte: u8) -> u32
    ensures value { result ≡ told damage_classes look byte }
    ensures apart { KeepsEdgeApart damage_classes look }
{
    let seen = look.sees(byte);
    match look {
        Look::Factor { damage, edge, .. } => part_told(damage_classes, damage, edge, seen),
        _ => u32::from(seen),
    }
}

// What is distinguished of a part of the damage. From the edge on the classes are numbered after those below it.
fn part_told(damage_classes: u8, damage: u16, edge: u16, part: u16) -> u32
    ensures { result ≡ part_told damage_classes damage edge part }
{
    if damage_classes == 0 {
        return u32::from(part);
    }
    let class = class_of(damage_classes, damage, part);
    if part >= edge {
        u32::from(damage_classes) + class
    } else {
        class
    }
}

// The class of a part of the damage.
pub(crate) fn class_of(damage_classes: u8, damage: u16, part: u16) -> u32
    ensures { result ≡ class_of damage_classes damage part }
{
    least_factor(damage, part).saturating_sub(217) * u32::from(damage_classes) / 39
}

// The least factor, in 255ths, that makes the part of the damage.
fn least_factor(damage: u16, part: u16) -> u32
    ensures value { result ≡ least_factor damage part }
    ensures bound { result ≤ 16776959 }
{
    (u32::from(part) * 255 + u32::from(damage.saturating_sub(1))) / u32::from(damage.max(1))
}
