//! What a member shows: its HP and its kind of status; and the stages of the active member, as a spectator knows them
//! (docs/MECHANICS.md, "Spectator's view").
ghost use Rattle.std.specs.Prelude.{min, ◌+◌, ◌-◌, ◌≡◌, ◌≤◌};
ghost use Rattle.gen1_machine.specs.LogBytes.{kind_or_0};
ghost use Rattle.gen1_machine.specs.View.{not_shown};
ghost use Rattle.gen1_machine.specs.CurrentStats.{stage_of, with_stage};
ghost use Rattle.gen1_machine.specs.State.{level_stages};
ghost use Rattle.gen1_spectator.specs.Plain.{AreStages, kind_at, plain_member, plain_stages, shown_of, stages_of};

use crate::plain::{PlainMember, PlainStages};
use gen1_machine::Kind;
use gen1_tables::Stat;
use std::marker::Model;

/// What a member shows: its HP and the kind of its status.
#[derive(Clone, Copy, Debug, PartialEq, Eq, Drop)]
pub(crate) struct Shown {
    hp: u16,
    kind: Option<Kind>,
}

impl Model for Shown {
    ghost use Rattle.gen1_machine.specs.View.{Shown};

    ghost Value = { Shown };

    ghost view = { λ s. record { hp = s.hp; kind = s.kind } };

    ghost inverse = { λ s. record { hp = s.hp; kind = s.kind } };
}

impl Default for Shown {
    /// No member: 0 HP, and no status.
    fn default() -> Self
        ensures { result ≡ not_shown }
    {
        Shown { hp: 0, kind: None }
    }
}

impl Shown {
    pub(crate) fn new(hp: u16, kind: Option<Kind>) -> Self
        ensures { result ≡ record { hp = hp; kind = kind } }
    {
        Shown { hp, kind }
    }

    pub(crate) fn hp(self) -> u16
        ensures { result ≡ self.hp }
    {
        self.hp
    }

    pub(crate) fn kind(self) -> Option<Kind>
        ensures { result ≡ self.kind }
    {
        self.kind
    }

    /// What a plain struct shows.
    pub(crate) fn of_plain(plain: &PlainMember) -> Self
        ensures { result ≡ shown_of plain.now }
    {
        Shown {
            hp: plain.hp,
            kind: Kind::from_number(plain.status),
        }
    }

    /// The HP and the kind of status as a plain struct.
    pub(crate) fn plain(self) -> PlainMember
        ensures shown { shown_of result ≡ self }
        ensures exact { result ≡ plain_member self }
    {
        PlainMember {
            hp: self.hp,
            status: number_of(self.kind),
            reserved: 0,
        }
    }
}

fn number_of(kind: Option<Kind>) -> u8
    ensures number { result ≡ kind_or_0 kind }
    ensures back { kind_at result ≡ kind }
{
    match kind {
        Some(kind) => kind.number(),
        None => 0,
    }
}

/// An unchanged stage.
pub(crate) const LEVEL: u8 = 6;

// The highest stage.
const HIGHEST: u8 = 12;

/// The stages of the active member, 0 to 12, with 6 for an unchanged stage.
#[derive(Clone, Copy, Debug, PartialEq, Eq, Drop)]
pub(crate) struct Stages {
    attack: u8,
    defense: u8,
    speed: u8,
    special: u8,
    accuracy: u8,
    evasion: u8,
}

impl Model for Stages {
    ghost use Rattle.std.specs.Prelude.{◌≤◌};
    ghost use Rattle.gen1_machine.specs.State.{Stages};

    ghost Value = { Stages };

    ghost view = { λ s. record {
      attack = s.attack;
      defense = s.defense;
      speed = s.speed;
      special = s.special;
      accuracy = s.accuracy;
      evasion = s.evasion;
    } };

    ghost invariant = { λ s. (s.attack ≤ 12) × (s.defense ≤ 12) × (s.speed ≤ 12) × (s.special ≤ 12)
        × (s.accuracy ≤ 12) × (s.evasion ≤ 12) };

    ghost inverse = { λ s. record {
      attack = s.attack;
      defense = s.defense;
      speed = s.speed;
      special = s.special;
      accuracy = s.accuracy;
      evasion = s.evasion;
    } };
}

impl Stages {
    pub(crate) fn level() -> Self
        ensures { result ≡ level_stages }
    {
        Stages {
            attack: LEVEL,
            defense: LEVEL,
            speed: LEVEL,
            special: LEVEL,
            accuracy: LEVEL,
            evasion: LEVEL,
        }
    }

    pub(crate) fn stage(self, stat: Stat) -> u8
        ensures value { result ≡ stage_of stat self }
        ensures high { result ≤ 12 }
    {
        match stat {
            Stat::Attack => self.attack,
            Stat::Defense => self.defense,
            Stat::Speed => self.speed,
            Stat::Special => self.special,
            Stat::Accuracy => self.accuracy,
            Stat::Evasion => self.evasion,
        }
    }

    fn with(self, stat: Stat, stage: u8) -> Self
        requires { stage ≤ 12 }
        ensures { result ≡ with_stage stat stage self }
    {
        let mut stages = self;
        match stat {
            Stat::Attack => stages.attack = stage,
            Stat::Defense => stages.defense = stage,
            Stat::Speed => stages.speed = stage,
            Stat::Special => stages.special = stage,
            Stat::Accuracy => stages.accuracy = stage,
            Stat::Evasion => stages.evasion = stage,
        }
        stages
    }

    /// The stages after a stat's stage rises, at most to 12.
    pub(crate) fn raised(self, stat: Stat, count: u8) -> Self
        requires { count ≤ 2 }
        ensures { result ≡ with_stage stat (min 12 (stage_of stat self + count)) self }
    {
        self.with(stat, (self.stage(stat) + count).min(HIGHEST))
    }

    /// The stages after a stat's stage falls, at least to 0.
    pub(crate) fn lowered(self, stat: Stat, count: u8) -> Self
        ensures { result ≡ with_stage stat (stage_of stat self - count) self }
    {
        self.with(stat, self.stage(stat).saturating_sub(count))
    }

    /// The stages of a plain struct. One above 12 counts as 12.
    pub(crate) fn of_plain(plain: &PlainStages) -> Self
        ensures { AreStages plain.now → result ≡ stages_of plain.now }
    {
        Stages {
            attack: plain.attack.min(HIGHEST),
            defense: plain.defense.min(HIGHEST),
            speed: plain.speed.min(HIGHEST),
            special: plain.special.min(HIGHEST),
            accuracy: plain.accuracy.min(HIGHEST),
            evasion: plain.evasion.min(HIGHEST),
        }
    }

    /// The stages as a plain struct.
    pub(crate) fn plain(self) -> PlainStages
        ensures stages { stages_of result ≡ self }
        ensures exact { result ≡ plain_stages self }
        ensures ranges { AreStages result }
    {
        PlainStages {
            attack: self.attack,
            defense: self.defense,
            speed: self.speed,
            special: self.special,
            accuracy: self.accuracy,
            evasion: self.evasion,
        }
    }
}
