//! Names of species, moves and types, their rows of the tables, and a member's stats. The numbers of effects, and which
//! moves come first or are often critical (include/gen1.h, "naming"; docs/TABLES.md, "Effects"; docs/MECHANICS.md,
//! "Stats").
ghost use Rattle.std.specs.Prelude.{None, Some, if◌then◌else◌, map, nat_le, unwrap_or, ◌*◌, ◌+◌, ◌≡◌};
ghost use Rattle.gen1_text.specs.Ids.{move_called, species_called};
ghost use Rattle.gen1_machine.specs.Moves.{is_often_critical};
ghost use Rattle.gen1_layout.specs.Parts.{element_of};
ghost use Rattle.gen1_c.specs.Codes.{Writes};
ghost use Rattle.gen1_c.specs.Names.{Tells, base_due, base_row, effect_number, effectiveness_due, move_due, move_text, priority_of, row_of_move, species_text, stats_due, stats_of, type_names, type_text};

use crate::codes::{UNKNOWN, text_at};
use crate::lines::write_text;
use crate::teams::{MemberForm, team_of_one};
use gen1_stats::Member;
use gen1_tables::{Effect, Element, MoveId, Species, effectiveness};
use gen1_text::{move_called, species_called};

static TYPE_NAMES: [&str; 15] = [
    "Normal", "Fighting", "Flying", "Poison", "Ground", "Rock", "Bug", "Ghost", "Fire", "Water",
    "Grass", "Electric", "Psychic", "Ice", "Dragon",
];

// The version of the library: major, minor and patch number.
const VERSION: u32 = 65536;

/// A species' base HP, Attack, Defense, Speed and Special, and its two types.
#[repr(C)]
#[derive(Clone, Copy)]
pub struct BaseForm {
    pub stats: [u8; 5],
    pub types: [u8; 2],
}

/// A move's type, power, accuracy as a byte, PP without PP ups, effect and priority, and whether it is often critical.
#[repr(C)]
#[derive(Clone, Copy)]
pub struct MoveForm {
    pub kind: u8,
    pub power: u8,
    pub accuracy: u8,
    pub pp: u8,
    pub effect: u8,
    pub priority: i8,
    pub high_critical: u8,
}

/// Returns the version of the library: 65,536 times the major number, plus 256 times the minor one, plus the patch number.
#[unsafe(no_mangle)]
pub extern "C" fn gen1_version() -> u32
    ensures { result ≡ 65536 * 1 + 256 * 0 + 0 }
{
    VERSION
}

/// Writes the name of a species, 1 to 151, to the beginning of the text, and its number of bytes. Returns 0, or the code of a
/// number without a species, or of a text that is too small; then nothing has changed.
#[unsafe(no_mangle)]
pub extern "C" fn gen1_species_name(number: u8, text: &mut [u8], written: &mut usize) -> u8
    ensures { Writes (species_text number) (record { bytes = text.old; count = written.old })
        (record { bytes = text.new; count = written.new }) result }
{
    match Species::new(number) {
        Some(species) => write_text(species.name().as_bytes(), text, written),
        None => UNKNOWN,
    }
}

/// Writes the name of a move, 1 to 165, and returns as `gen1_species_name` does.
#[unsafe(no_mangle)]
pub extern "C" fn gen1_move_name(number: u8, text: &mut [u8], written: &mut usize) -> u8
    ensures { Writes (move_text number) (record { bytes = text.old; count = written.old })
        (record { bytes = text.new; count = written.new }) result }
{
    match MoveId::new(number) {
        Some(id) => write_text(id.name().as_bytes(), text, written),
        None => UNKNOWN,
    }
}

/// Writes the name of a type, 0 to 14, and returns as `gen1_species_name` does.
#[unsafe(no_mangle)]
pub extern "C" fn gen1_type_name(number: u8, text: &mut [u8], written: &mut usize) -> u8
    ensures { Writes (type_text number) (record { bytes = text.old; count = written.old })
        (record { bytes = text.new; count = written.new }) result }
{
    match text_at(type_names(), number) {
        Some(name) => write_text(name.as_bytes(), text, written),
        None => UNKNOWN,
    }
}

fn type_names() -> &'static [&'static str; 15]
    ensures { map (λ name. name.now) result.now ≡ type_names }
{
    &TYPE_NAMES
}

/// Returns the species that a text names (docs/TEAM_TEXT.md, "Names"), 1 to 151, or 0 if there is none.
#[unsafe(no_mangle)]
pub extern "C" fn gen1_species_from_name(text: &[u8]) -> u8
    ensures { result ≡ unwrap_or (species_called text.now) 0 }
{
    match species_called(text) {
        Some(species) => species.number(),
        None => 0,
    }
}

/// Returns the move that a text names, 1 to 165, or 0 if there is none.
#[unsafe(no_mangle)]
pub extern "C" fn gen1_move_from_name(text: &[u8]) -> u8
    ensures { result ≡ unwrap_or (move_called text.now) 0 }
{
    match move_called(text) {
        Some(id) => id.number(),
        None => 0,
    }
}

/// Writes the base stats and types of a species, 1 to 151. Returns 0, or a code if the species does not exist; then nothing has changed.
#[unsafe(no_mangle)]
pub extern "C" fn gen1_species_stats(number: u8, base: &mut BaseForm) -> u8
    ensures { Tells (base_due number) base.old base.new result }
{
    match Species::new(number) {
        Some(species) => {
            *base = base_of(species);
            0
        }
        None => UNKNOWN,
    }
}

fn base_of(species: Species) -> BaseForm
    ensures { result ≡ base_row species }
{
    let [first, second] = species.types();
    BaseForm {
        stats: species.base(),
        types: [first.number(), second.number()],
    }
}

/// Writes the row of a move, 1 to 165. Returns 0, or a code if the move does not exist; then nothing has changed.
#[unsafe(no_mangle)]
pub extern "C" fn gen1_move_data(number: u8, row: &mut MoveForm) -> u8
    ensures { Tells (move_due number) row.old row.new result }
{
    match MoveId::new(number) {
        Some(id) => {
            *row = row_of(id);
            0
        }
        None => UNKNOWN,
    }
}

fn row_of(id: MoveId) -> MoveForm
    ensures { result ≡ row_of_move id }
{
    MoveForm {
        kind: id.kind().number(),
        power: id.power(),
        accuracy: id.accuracy_byte(),
        pp: id.pp(),
        effect: effect_number(id.effect()),
        priority: priority_of(id),
        high_critical: if is_often_critical(id) { 1 } else { 0 },
    }
}

/// Writes by how many tenths a move of a type changes its damage to a foe of one type: 0, 5, 10 or 20. Returns 0, or a code if one of
/// the numbers is not a type; then nothing has changed.
#[unsafe(no_mangle)]
pub extern "C" fn gen1_effectiveness(attack_type: u8, foe_type: u8, tenths: &mut u8) -> u8
    ensures { Tells (effectiveness_due attack_type foe_type) tenths.old tenths.new result }
{
    let Some(attack) = element_at(attack_type) else {
        return UNKNOWN;
    };
    let Some(foe) = element_at(foe_type) else {
        return UNKNOWN;
    };
    // The second factor is 10, since the foe has no second type.
    *tenths = effectiveness(attack, foe, foe).0;
    0
}

fn element_at(number: u8) -> Option<Element>
    ensures { result ≡ (if nat_le number 14 then Some (element_of number) else None) }
{
    let element = match number {
        0 => Element::Normal,
        1 => Element::Fighting,
        2 => Element::Flying,
        3 => Element::Poison,
        4 => Element::Ground,
        5 => Element::Rock,
        6 => Element::Bug,
        7 => Element::Ghost,
        8 => Element::Fire,
        9 => Element::Water,
        10 => Element::Grass,
        11 => Element::Electric,
        12 => Element::Psychic,
        13 => Element::Ice,
        14 => Element::Dragon,
        _ => return None,
    };
    Some(element)
}

/// Writes a member's maximum HP, Attack, Defense, Speed and Special. Returns 0, or the code of the first error, as `gen1_new` returns
/// it; then nothing has changed.
#[unsafe(no_mangle)]
pub extern "C" fn gen1_member_stats(member: &MemberForm, stats: &mut [u16; 5]) -> u8
    ensures { Tells (stats_due member.now) stats.old stats.new result }
{
    match team_of_one(member) {
        Ok(team) => {
            *stats = stats_of(&team.members()[0]);
            0
        }
        Err(fault) => (fault % 256) as u8,
    }
}

fn stats_of(member: &Member) -> [u16; 5]
    ensures { result ≡ stats_of member.now }
{
    [
        member.max_hp(),
        member.attack(),
        member.defense(),
        member.speed(),
        member.special(),
    ]
}

fn effect_number(effect: Effect) -> u8
    ensures { result ≡ effect_number effect }
{
    match effect {
        Effect::DamageOnly => 0,
        Effect::AlwaysFails => 1,
        Effect::MultiHit => 2,
        Effect::PayDay => 3,
        Effect::FreezeChance => 4,
        Effect::Charge => 5,
        Effect::ChargeInvulnerable => 6,
        Effect::Trapping => 7,
        Effect::OneHitKnockOut => 8,
        Effect::DoubleHit => 9,
        Effect::Twineedle => 10,
        Effect::CrashOnMiss => 11,
        Effect::Recoil => 12,
        Effect::Thrash => 13,
        Effect::InflictSleep => 14,
        Effect::InflictConfusion => 15,
        Effect::FixedDamage => 16,
        Effect::Disable => 17,
        Effect::Mist => 18,
        Effect::Recharge => 19,
        Effect::Counter => 20,
        Effect::Drain => 21,
        Effect::LeechSeed => 22,
        Effect::InflictPoison => 23,
        Effect::InflictParalysis => 24,
        Effect::Rage => 25,
        Effect::LeftOut => 26,
        Effect::Heal => 27,
        Effect::Screen => 28,
        Effect::Haze => 29,
        Effect::FocusEnergy => 30,
        Effect::Bide => 31,
        Effect::Explode => 32,
        Effect::NeverMisses => 33,
        Effect::DreamEater => 34,
        Effect::Splash => 35,
        Effect::Conversion => 36,
        Effect::SuperFang => 37,
        Effect::Substitute => 38,
        Effect::BurnChance(_) => 39,
        Effect::ParalysisChance(_) => 40,
        Effect::PoisonChance(_) => 41,
        Effect::FlinchChance(_) => 42,
        Effect::ConfusionChance(_) => 43,
        Effect::StatDownChance(_) => 44,
        Effect::StatUp(_, _) => 45,
        Effect::StatDown(_, _) => 46,
    }
}

// 1 for Quick Attack, -1 for Counter, else 0 (docs/MECHANICS.md, "Order of a turn").
fn priority_of(id: MoveId) -> i8
    ensures { result ≡ priority_of id }
{
    match id.number() {
        98 => 1,
        68 => -1,
        _ => 0,
    }
}

// Karate Chop, Razor Leaf, Crabhammer and Slash.
fn is_often_critical(id: MoveId) -> bool
    ensures { result ≡ is_often_critical id }
{
    matches!(id.number(), 2 | 75 | 152 | 163)
}
