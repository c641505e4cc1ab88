//! A member of a team at the beginning of a battle, its stats, the moves that it knows, and its status
//! (docs/MECHANICS.md, "Stats", "Teams", "Penalties").
ghost use Rattle.std.specs.Prelude.{All, AllPairs, IfErr, IfOk, None, OnOk, Some, length, map, slice_index, ◌≡◌, ◌≢◌, ◌≤◌};
ghost use Rattle.gen1_stats.specs.declared.member.Status.TheVariants.{Healthy};
ghost use Rattle.gen1_stats.specs.Members.{IsBetween, IsFresh, IsKnown, is_healthy, least_member, sleeps_or_freezes};
ghost use Rattle.gen1_stats.specs.Teams.{known_of, member_of, member_refusal};
ghost use Rattle.gen1_stats.specs.Stats.{IsRoot, full_pp, hp_dv, hp_stat, points, root, stat};

use crate::member_spec::MemberSpec;
use crate::team::TeamRefusal;
use arrayvec::ArrayVec;
use gen1_tables::{MoveId, Species};
use std::marker::Model;

/// A member of a team at the beginning of a battle: unhurt, healthy, and with full PP (docs/MECHANICS.md, "Stats").
#[derive(Debug, Clone, PartialEq, Eq, Drop)]
pub struct Member {
    species: Species,
    level: u8,
    max_hp: u16,
    attack: u16,
    defense: u16,
    speed: u16,
    special: u16,
    moves: ArrayVec<KnownMove, 4>,
}

impl Model for Member {
    ghost use Rattle.gen1_stats.specs.Members.{Member as Begun};

    ghost Value = { Begun };

    ghost use Rattle.gen1_stats.specs.Members.{IsBegun, begun};

    ghost view = { begun };

    ghost invariant = { IsBegun };

    ghost inverse = { λ m. record {
      species = m.species;
      level = m.level;
      max_hp = m.max;
      attack = m.attack;
      defense = m.defense;
      speed = m.speed;
      special = m.special;
      moves = record { items = m.moves };
    } };
}

impl Default for Member {
    ghost is_default = { λ member. member ≡ least_member };

    /// The least possible member, at level 1 with Pound. It fills the unused places of a list.
    fn default() -> Self {
        let mut moves = ArrayVec::new();
        moves.push(KnownMove {
            id: MoveId::default(),
            pp: 35,
        });
        Member {
            species: Species::default(),
            level: 1,
            max_hp: 11,
            attack: 5,
            defense: 5,
            speed: 5,
            special: 5,
            moves,
        }
    }
}

impl Member {
    // The specified member, or the reason why it is refused at this place of its team, from 1.
    pub(crate) fn new(spec: &MemberSpec, place: u8) -> Result<Self, TeamRefusal>
        ensures made { IfOk result (λ member. member ≡ member_of spec.now) }
        ensures allowed { OnOk result (member_refusal place spec.now ≡ None) }
        ensures refused { IfErr result (λ refusal. member_refusal place spec.now ≡ Some refusal) }
        ensures fresh { IfOk result (λ member. IsFresh member) }
    {
        if let Some(refusal) = spec.refusal(place) {
            return Err(refusal);
        }
        // A species is one of the tables by its type. The call of `number` states that as a fact.
        prove!(spec.species.number() <= 151);
        let level = spec.level;
        let base = spec.species.base();
        Ok(Member {
            species: spec.species,
            level,
            max_hp: hp_stat(base[0], hp_dv(spec.dvs), spec.exp[0], level),
            attack: stat(base[1], spec.dvs[0], spec.exp[1], level),
            defense: stat(base[2], spec.dvs[1], spec.exp[2], level),
            speed: stat(base[3], spec.dvs[2], spec.exp[3], level),
            special: stat(base[4], spec.dvs[3], spec.exp[4], level),
            moves: known_moves(spec.moves.as_slice()),
        })
    }

    /// The member's species.
    pub fn species(&self) -> Species
        ensures { result ≡ self.now.species }
    {
        self.species
    }

    /// The level, 1 to 100.
    pub fn level(&self) -> u8
        ensures value { result ≡ self.now.level }
        ensures low { 1 ≤ result }
        ensures high { result ≤ 100 }
    {
        self.level
    }

    /// The maximum HP, 11 to 999. The member begins with all of them.
    pub fn max_hp(&self) -> u16
        ensures value { result ≡ self.now.max }
        ensures unhurt { self.now.hp ≡ result }
        ensures healthy { self.now.status ≡ Healthy }
        ensures low { 11 ≤ result }
        ensures high { result ≤ 999 }
    {
        self.max_hp
    }

    /// The Attack stat, 5 to 999.
    pub fn attack(&self) -> u16
        ensures value { result ≡ self.now.attack }
        ensures low { 5 ≤ result }
        ensures high { result ≤ 999 }
    {
        self.attack
    }

    /// The Defense stat, 5 to 999.
    pub fn defense(&self) -> u16
        ensures value { result ≡ self.now.defense }
        ensures low { 5 ≤ result }
        ensures high { result ≤ 999 }
    {
        self.defense
    }

    /// The Speed stat, 5 to 999.
    pub fn speed(&self) -> u16
        ensures value { result ≡ self.now.speed }
        ensures low { 5 ≤ result }
        ensures high { result ≤ 999 }
    {
        self.speed
    }

    /// The Special stat, 5 to 999.
    pub fn special(&self) -> u16
        ensures value { result ≡ self.now.special }
        ensures low { 5 ≤ result }
        ensures high { result ≤ 999 }
    {
        self.special
    }

    /// One to four different moves with full PP.
    pub fn moves(&self) -> &[KnownMove]
        ensures value { result.now ≡ self.now.moves }
        ensures some { 1 ≤ length result.now }
        ensures few { length result.now ≤ 4 }
        ensures known { All IsKnown result.now }
        ensures distinct { AllPairs (λ a b. a.id ≢ b.id) result.now }
    {
        self.moves.as_slice()
    }
}

// Chosen moves with full PP.
fn known_moves(chosen: &[(MoveId, u8)]) -> ArrayVec<KnownMove, 4>
    requires room { length chosen.now ≤ 4 }
    requires ups { All (λ move. move.1 ≤ 3) chosen.now }
    ensures made { result.items ≡ map known_of chosen.now }
    ensures listed { All (λ known. IsBetween 1 165 known.id) result.items }
{
    let mut moves = ArrayVec::new();
    for &(id, ups) in chosen {
        prove!(id.number() <= 165);
        let pp = full_pp(id.pp(), ups);
        moves.push(KnownMove { id, pp });
    }
    moves
}

/// A move that a member knows, with its remaining PP, at most 63 (docs/MECHANICS.md, "Teams").
#[derive(Debug, Clone, Copy, Default, PartialEq, Eq)]
pub struct KnownMove {
    pub id: MoveId,
    pub pp: u8,
}

/// Attack, Defense, Speed or Special of a species with this base stat, at most 999 (docs/MECHANICS.md, "Stats").
pub fn stat(base: u8, dv: u8, exp: u16, level: u8) -> u16
    ensures value { result ≡ stat base dv exp level }
    ensures rounded_up { IsRoot exp (root exp) }
{
    (points(base, dv, exp, level) + 5).min(999) as u16
}

/// The maximum HP of a species with this base stat, at most 999 (docs/MECHANICS.md, "Stats").
pub fn hp_stat(base: u8, dv: u8, exp: u16, level: u8) -> u16
    ensures { result ≡ hp_stat base dv exp level }
{
    (points(base, dv, exp, level) + u32::from(level) + 10).min(999) as u16
}

// The common part of HP and the other stats.
fn points(base: u8, dv: u8, exp: u16, level: u8) -> u32
    ensures value { result ≡ points base dv exp level }
    ensures high { result ≤ 2761 }
{
    let growth = (u32::from(base) + u32::from(dv)) * 2 + u32::from(root(exp)) / 4;
    growth * u32::from(level) / 100
}

// The square root of the experience, rounded up, and at most 255.
fn root(exp: u16) -> u16
    ensures value { result ≡ root exp }
    ensures least { IsRoot exp result }
{
    let floor = exp.isqrt();
    if floor * floor == exp {
        floor
    } else {
        (floor + 1).min(255)
    }
}

/// The DV of HP, from those of Attack, Defense, Speed and Special.
fn hp_dv(dvs: [u8; 4]) -> u8
    ensures { result ≡ hp_dv (slice_index dvs 0) (slice_index dvs 1) (slice_index dvs 2)
        (slice_index dvs 3) }
{
    8 * (dvs[0] % 2) + 4 * (dvs[1] % 2) + 2 * (dvs[2] % 2) + dvs[3] % 2
}

/// The PP of a move with this many PP ups.
fn full_pp(base: u8, ups: u8) -> u8
    requires base_fits { base ≤ 40 }
    requires ups_fit { ups ≤ 3 }
    ensures value { result ≡ full_pp base ups }
{
    base + ups * (base / 5).min(7)
}

/// A member's status.
#[derive(Debug, Clone, Copy, Default, PartialEq, Eq)]
pub enum Status {
    #[default]
    Healthy,
    /// Asleep for this many more turns. It is marked if the sleep clause counts it.
    Asleep { turns: u8, marked: bool },
    Poisoned,
    Burned,
    Frozen,
    Paralysed,
}

impl Status {
    /// Whether the member has no status.
    pub fn is_healthy(self) -> bool
        ensures { result ≡ is_healthy self }
    {
        matches!(self, Status::Healthy)
    }

    /// Whether the status alone keeps the member from acting: it is asleep or frozen.
    pub fn sleeps_or_freezes(self) -> bool
        ensures { result ≡ sleeps_or_freezes self }
    {
        matches!(self, Status::Asleep { .. } | Status::Frozen)
    }
}
