//! The moves by their numbers. Each has a type, power, accuracy, PP and effect (docs/TABLES.md, "Moves").
ghost use Rattle.std.specs.Prelude.{◌≡◌, ◌≢◌, ◌↔◌, ℕ, ◌≤◌, ◌*◌, ◌/◌, nat_le, ◌&&◌, if◌then◌else◌, IfSome, IsNone};
ghost use Rattle.gen1_tables.specs.Moves.{move_row, row_of};
ghost use Rattle.gen1_tables.specs.Names.{move_name, move_named};

use crate::effect::Effect::{
    self, AlwaysFails, Bide, BurnChance, Charge, ChargeInvulnerable, ConfusionChance, Conversion,
    Counter, CrashOnMiss, DamageOnly, Disable, DoubleHit, Drain, DreamEater, Explode, FixedDamage,
    FlinchChance, FocusEnergy, FreezeChance, Haze, Heal, InflictConfusion, InflictParalysis,
    InflictPoison, InflictSleep, LeechSeed, LeftOut, Mist, MultiHit, NeverMisses, OneHitKnockOut,
    ParalysisChance, PayDay, PoisonChance, Rage, Recharge, Recoil, Screen, Splash, StatDown,
    StatDownChance, StatUp, Substitute, SuperFang, Thrash, Trapping, Twineedle,
};
use crate::effect::Stat::{Accuracy, Attack, Defense, Evasion, Special, Speed};
use crate::names::{move_names, name_at, place_of};
use crate::types::Element::{
    self, Bug, Dragon, Electric, Fighting, Fire, Flying, Ghost, Grass, Ground, Ice, Normal, Poison,
    Psychic, Rock, Water,
};
use std::marker::Model;

// Type, power, accuracy in percent, PP, effect, and the accuracy in 255ths. So a row has eight bytes, and is found
// without a multiplication.
type MoveRow = (Element, u8, u8, u8, Effect, u8);

static MOVE_ROWS: [MoveRow; 165] = [
    (Normal, 40, 100, 35, DamageOnly, 255), // Pound
    (Normal, 50, 100, 25, DamageOnly, 255), // Karate Chop
    (Normal, 15, 85, 10, MultiHit, 216), // Double Slap
    (Normal, 18, 85, 15, MultiHit, 216), // Comet Punch
    (Normal, 80, 85, 20, DamageOnly, 216), // Mega Punch
    (Normal, 40, 100, 20, PayDay, 255), // Pay Day
    (Fire, 75, 100, 15, BurnChance(26), 255), // Fire Punch
    (Ice, 75, 100, 15, FreezeChance, 255), // Ice Punch
    (Electric, 75, 100, 15, ParalysisChance(26), 255), // Thunder Punch
    (Normal, 40, 100, 35, DamageOnly, 255), // Scratch
    (Normal, 55, 100, 30, DamageOnly, 255), // Vice Grip
    (Normal, 1, 30, 5, OneHitKnockOut, 76), // Guillotine
    (Normal, 80, 75, 10, Charge, 191), // Razor Wind
    (Normal, 0, 100, 30, StatUp(Attack, 2), 255), // Swords Dance
    (Normal, 50, 95, 30, DamageOnly, 242), // Cut
    (Normal, 40, 100, 35, DamageOnly, 255), // Gust
    (Flying, 35, 100, 35, DamageOnly, 255), // Wing Attack
    (Normal, 0, 85, 20, AlwaysFails, 216), // Whirlwind
    (Flying, 70, 95, 15, ChargeInvulnerable, 242), // Fly
    (Normal, 15, 75, 20, Trapping, 191), // Bind
    (Normal, 80, 75, 20, DamageOnly, 191), // Slam
    (Grass, 35, 100, 10, DamageOnly, 255), // Vine Whip
    (Normal, 65, 100, 20, FlinchChance(77), 255), // Stomp
    (Fighting, 30, 100, 30, DoubleHit, 255), // Double Kick
    (Normal, 120, 75, 5, DamageOnly, 191), // Mega Kick
    (Fighting, 70, 95, 25, CrashOnMiss, 242), // Jump Kick
    (Fighting, 60, 85, 15, FlinchChance(77), 216), // Rolling Kick
    (Normal, 0, 100, 15, StatDown(Accuracy, 1), 255), // Sand Attack
    (Normal, 70, 100, 15, FlinchChance(77), 255), // Headbutt
    (Normal, 65, 100, 25, DamageOnly, 255), // Horn Attack
    (Normal, 15, 85, 20, MultiHit, 216), // Fury Attack
    (Normal, 1, 30, 5, OneHitKnockOut, 76), // Horn Drill
    (Normal, 35, 95, 35, DamageOnly, 242), // Tackle
    (Normal, 85, 100, 15, ParalysisChance(77), 255), // Body Slam
    (Normal, 15, 85, 20, Trapping, 216), // Wrap
    (Normal, 90, 85, 20, Recoil, 216), // Take Down
    (Normal, 90, 100, 20, Thrash, 255), // Thrash
    (Normal, 100, 100, 15, Recoil, 255), // Double-Edge
    (Normal, 0, 100, 30, StatDown(Defense, 1), 255), // Tail Whip
    (Poison, 15, 100, 35, PoisonChance(52), 255), // Poison Sting
    (Bug, 25, 100, 20, Twineedle, 255), // Twineedle
    (Bug, 14, 85, 20, MultiHit, 216), // Pin Missile
    (Normal, 0, 100, 30, StatDown(Defense, 1), 255), // Leer
    (Normal, 60, 100, 25, FlinchChance(26), 255), // Bite
    (Normal, 0, 100, 40, StatDown(Attack, 1), 255), // Growl
    (Normal, 0, 100, 20, AlwaysFails, 255), // Roar
    (Normal, 0, 55, 15, InflictSleep, 140), // Sing
    (Normal, 0, 55, 20, InflictConfusion, 140), // Supersonic
    (Normal, 1, 90, 20, FixedDamage, 229), // Sonic Boom
    (Normal, 0, 55, 20, Disable, 140), // Disable
    (Poison, 40, 100, 30, StatDownChance(Defense), 255), // Acid
    (Fire, 40, 100, 25, BurnChance(26), 255), // Ember
    (Fire, 95, 100, 15, BurnChance(26), 255), // Flamethrower
    (Ice, 0, 100, 30, Mist, 255), // Mist
    (Water, 40, 100, 25, DamageOnly, 255), // Water Gun
    (Water, 120, 80, 5, DamageOnly, 204), // Hydro Pump
    (Water, 95, 100, 15, DamageOnly, 255), // Surf
    (Ice, 95, 100, 10, FreezeChance, 255), // Ice Beam
    (Ice, 120, 90, 5, FreezeChance, 229), // Blizzard
    (Psychic, 65, 100, 20, ConfusionChance(25), 255), // Psybeam
    (Water, 65, 100, 20, StatDownChance(Speed), 255), // Bubble Beam
    (Ice, 65, 100, 20, StatDownChance(Attack), 255), // Aurora Beam
    (Normal, 150, 90, 5, Recharge, 229), // Hyper Beam
    (Flying, 35, 100, 35, DamageOnly, 255), // Peck
    (Flying, 80, 100, 20, DamageOnly, 255), // Drill Peck
    (Fighting, 80, 80, 25, Recoil, 204), // Submission
    (Fighting, 50, 90, 20, FlinchChance(77), 229), // Low Kick
    (Fighting, 1, 100, 20, Counter, 255), // Counter
    (Fighting, 1, 100, 20, FixedDamage, 255), // Seismic Toss
    (Normal, 80, 100, 15, DamageOnly, 255), // Strength
    (Grass, 20, 100, 20, Drain, 255), // Absorb
    (Grass, 40, 100, 10, Drain, 255), // Mega Drain
    (Grass, 0, 90, 10, LeechSeed, 229), // Leech Seed
    (Normal, 0, 100, 40, StatUp(Special, 1), 255), // Growth
    (Grass, 55, 95, 25, DamageOnly, 242), // Razor Leaf
    (Grass, 120, 100, 10, Charge, 255), // Solar Beam
    (Poison, 0, 75, 35, InflictPoison, 191), // Poison Powder
    (Grass, 0, 75, 30, InflictParalysis, 191), // Stun Spore
    (Grass, 0, 75, 15, InflictSleep, 191), // Sleep Powder
    (Grass, 70, 100, 20, Thrash, 255), // Petal Dance
    (Bug, 0, 95, 40, StatDown(Speed, 1), 242), // String Shot
    (Dragon, 1, 100, 10, FixedDamage, 255), // Dragon Rage
    (Fire, 15, 70, 15, Trapping, 178), // Fire Spin
    (Electric, 40, 100, 30, ParalysisChance(26), 255), // Thunder Shock
    (Electric, 95, 100, 15, ParalysisChance(26), 255), // Thunderbolt
    (Electric, 0, 100, 20, InflictParalysis, 255), // Thunder Wave
    (Electric, 120, 70, 10, ParalysisChance(26), 178), // Thunder
    (Rock, 50, 65, 15, DamageOnly, 165), // Rock Throw
    (Ground, 100, 100, 10, DamageOnly, 255), // Earthquake
    (Ground, 1, 30, 5, OneHitKnockOut, 76), // Fissure
    (Ground, 100, 100, 10, ChargeInvulnerable, 255), // Dig
    (Poison, 0, 85, 10, InflictPoison, 216), // Toxic
    (Psychic, 50, 100, 25, ConfusionChance(25), 255), // Confusion
    (Psychic, 90, 100, 10, StatDownChance(Special), 255), // Psychic
    (Psychic, 0, 60, 20, InflictSleep, 153), // Hypnosis
    (Psychic, 0, 100, 40, StatUp(Attack, 1), 255), // Meditate
    (Psychic, 0, 100, 30, StatUp(Speed, 2), 255), // Agility
    (Normal, 40, 100, 30, DamageOnly, 255), // Quick Attack
    (Normal, 20, 100, 20, Rage, 255), // Rage
    (Psychic, 0, 100, 20, AlwaysFails, 255), // Teleport
    (Ghost, 0, 100, 15, FixedDamage, 255), // Night Shade
    (Normal, 0, 100, 10, LeftOut, 255), // Mimic
    (Normal, 0, 85, 40, StatDown(Defense, 2), 216), // Screech
    (Normal, 0, 100, 15, StatUp(Evasion, 1), 255), // Double Team
    (Normal, 0, 100, 20, Heal, 255), // Recover
    (Normal, 0, 100, 30, StatUp(Defense, 1), 255), // Harden
    (Normal, 0, 100, 20, StatUp(Evasion, 1), 255), // Minimize
    (Normal, 0, 100, 20, StatDown(Accuracy, 1), 255), // Smokescreen
    (Ghost, 0, 100, 10, InflictConfusion, 255), // Confuse Ray
    (Water, 0, 100, 40, StatUp(Defense, 1), 255), // Withdraw
    (Normal, 0, 100, 40, StatUp(Defense, 1), 255), // Defense Curl
    (Psychic, 0, 100, 30, StatUp(Defense, 2), 255), // Barrier
    (Psychic, 0, 100, 30, Screen, 255), // Light Screen
    (Ice, 0, 100, 30, Haze, 255), // Haze
    (Psychic, 0, 100, 20, Screen, 255), // Reflect
    (Normal, 0, 100, 30, FocusEnergy, 255), // Focus Energy
    (Normal, 0, 100, 10, Bide, 255), // Bide
    (Normal, 0, 100, 10, LeftOut, 255), // Metronome
    (Flying, 0, 100, 20, LeftOut, 255), // Mirror Move
    (Normal, 130, 100, 5, Explode, 255), // Self-Destruct
    (Normal, 100, 75, 10, DamageOnly, 191), // Egg Bomb
    (Ghost, 20, 100, 30, ParalysisChance(77), 255), // Lick
    (Poison, 20, 70, 20, PoisonChance(103), 178), // Smog
    (Poison, 65, 100, 20, PoisonChance(103), 255), // Sludge
    (Ground, 65, 85, 20, FlinchChance(26), 216), // Bone Club
    (Fire, 120, 85, 5, BurnChance(77), 216), // Fire Blast
    (Water, 80, 100, 15, DamageOnly, 255), // Waterfall
    (Water, 35, 75, 10, Trapping, 191), // Clamp
    (Normal, 60, 100, 20, NeverMisses, 255), // Swift
    (Normal, 100, 100, 15, Charge, 255), // Skull Bash
    (Normal, 20, 100, 15, MultiHit, 255), // Spike Cannon
    (Normal, 10, 100, 35, StatDownChance(Speed), 255), // Constrict
    (Psychic, 0, 100, 20, StatUp(Special, 2), 255), // Amnesia
    (Psychic, 0, 80, 15, StatDown(Accuracy, 1), 204), // Kinesis
    (Normal, 0, 100, 10, Heal, 255), // Soft-Boiled
    (Fighting, 85, 90, 20, CrashOnMiss, 229), // High Jump Kick
    (Normal, 0, 75, 30, InflictParalysis, 191), // Glare
    (Psychic, 100, 100, 15, DreamEater, 255), // Dream Eater
    (Poison, 0, 55, 40, InflictPoison, 140), // Poison Gas
    (Normal, 15, 85, 20, MultiHit, 216), // Barrage
    (Bug, 20, 100, 15, Drain, 255), // Leech Life
    (Normal, 0, 75, 10, InflictSleep, 191), // Lovely Kiss
    (Flying, 140, 90, 5, Charge, 229), // Sky Attack
    (Normal, 0, 100, 10, LeftOut, 255), // Transform
    (Water, 20, 100, 30, StatDownChance(Speed), 255), // Bubble
    (Normal, 70, 100, 10, DamageOnly, 255), // Dizzy Punch
    (Grass, 0, 100, 15, InflictSleep, 255), // Spore
    (Normal, 0, 70, 20, StatDown(Accuracy, 1), 178), // Flash
    (Psychic, 1, 80, 15, FixedDamage, 204), // Psywave
    (Normal, 0, 100, 40, Splash, 255), // Splash
    (Poison, 0, 100, 40, StatUp(Defense, 2), 255), // Acid Armor
    (Water, 90, 85, 10, DamageOnly, 216), // Crabhammer
    (Normal, 170, 100, 5, Explode, 255), // Explosion
    (Normal, 18, 80, 15, MultiHit, 204), // Fury Swipes
    (Ground, 50, 90, 10, DoubleHit, 229), // Bonemerang
    (Psychic, 0, 100, 10, Heal, 255), // Rest
    (Rock, 75, 90, 10, DamageOnly, 229), // Rock Slide
    (Normal, 80, 90, 15, FlinchChance(26), 229), // Hyper Fang
    (Normal, 0, 100, 30, StatUp(Attack, 1), 255), // Sharpen
    (Normal, 0, 100, 30, Conversion, 255), // Conversion
    (Normal, 80, 100, 10, DamageOnly, 255), // Tri Attack
    (Normal, 1, 90, 10, SuperFang, 229), // Super Fang
    (Normal, 70, 100, 20, DamageOnly, 255), // Slash
    (Normal, 0, 100, 10, Substitute, 255), // Substitute
    (Normal, 50, 100, 10, Recoil, 255), // Struggle
];

/// The number of Counter.
pub const COUNTER: u8 = 68;

/// The number of Struggle. No member knows it, and every member can use it.
pub const STRUGGLE: u8 = 165;

/// A move, by its number from 1 to 165 (docs/TABLES.md, "Moves").
#[derive(Clone, Copy, PartialEq, Eq, Debug, Drop)]
pub struct MoveId {
    number: u8,
}

impl Model for MoveId {
    ghost Value = { ℕ };

    ghost view = { λ id. id.number };

    ghost invariant = { λ id. (1 ≤ id.number) × (id.number ≤ 165) };

    ghost inverse = { λ number. record { number = number } };
}

impl Default for MoveId {
    /// Pound, the first move.
    fn default() -> Self
        ensures { result ≡ 1 }
    {
        MoveId { number: 1 }
    }
}

impl MoveId {
    /// The move with a number. Returns `None` outside 1 to 165.
    pub fn new(number: u8) -> Option<Self>
        ensures { result ≡ (if nat_le 1 number && nat_le number 165 then Some number else None) }
    {
        if (1..=165).contains(&number) {
            Some(MoveId { number })
        } else {
            None
        }
    }

    /// The move with this name, which must match exactly. Returns `None` if no move has it.
    pub fn from_name(text: &str) -> Option<Self>
        ensures value { result ≡ move_named text.now }
        ensures found { IfSome result (λ number. move_name number ≡ text.now) }
        ensures known { (n : ℕ) → 1 ≤ n → n ≤ 165 → move_name n ≡ text.now → result ≡ Some n }
        ensures unknown { IsNone result ↔ ((n : ℕ) → 1 ≤ n → n ≤ 165 → move_name n ≢ text.now) }
    {
        place_of(move_names(), text).and_then(Self::new)
    }

    /// The move's number, 1 to 165.
    pub fn number(self) -> u8
        ensures value { result ≡ self }
        ensures low { 1 ≤ result }
        ensures high { result ≤ 165 }
    {
        self.number
    }

    /// The move's name.
    #[tactic(auto, unfolding(crate::specs::Names::move_name))]
    pub fn name(self) -> &'static str
        ensures { result.now ≡ move_name self }
    {
        name_at(move_names(), self.number)
    }

    /// The move's type.
    pub fn kind(self) -> Element
        ensures { result ≡ (move_row self).kind }
    {
        self.row().0
    }

    /// The move's power. It is 0 for a move that deals no damage by the damage rule.
    pub fn power(self) -> u8
        ensures { result ≡ (move_row self).power }
    {
        self.row().1
    }

    /// The accuracy as a byte: the percentage of docs/TABLES.md in 255ths, rounded down.
    pub fn accuracy_byte(self) -> u8
        ensures { result ≡ (move_row self).accuracy * 255 / 100 }
    {
        self.row().5
    }

    /// The move's PP without PP ups.
    pub fn pp(self) -> u8
        ensures value { result ≡ (move_row self).pp }
        ensures high { result ≤ 40 }
    {
        self.row().3
    }

    /// The move's effect (docs/TABLES.md, "Effects").
    pub fn effect(self) -> Effect
        ensures { result ≡ (move_row self).effect }
    {
        self.row().4
    }

    fn row(self) -> MoveRow
        ensures value { row_of result ≡ move_row self }
        ensures accuracy { result.5 ≡ (move_row self).accuracy * 255 / 100 }
        ensures pp { result.3 ≤ 40 }
    {
        MOVE_ROWS[self.number as usize - 1]
    }
}
