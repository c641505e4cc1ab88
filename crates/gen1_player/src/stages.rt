//! The stages of an active member, as its events show them (docs/MECHANICS.md, "What the log makes public").
ghost use Rattle.std.specs.Prelude.{min, ◌+◌, ◌-◌, ◌≡◌};
ghost use Rattle.gen1_machine.specs.CurrentStats.{stage_of, with_stage};
ghost use Rattle.gen1_machine.specs.State.{level_stages};

use gen1_tables::Stat;
use std::marker::Model;

// An unchanged stage, and the highest.
const LEVEL: u8 = 6;

const HIGHEST: u16 = 12;

/// The stages of an active member, 0 to 12, with 6 for an unchanged stage.
#[repr(C)]
#[derive(Clone, Copy, Debug, PartialEq, Eq, Drop)]
pub struct SeenStages {
    pub attack: u8,
    pub defense: u8,
    pub speed: u8,
    pub special: u8,
    pub accuracy: u8,
    pub evasion: u8,
}

impl Model for SeenStages {
    ghost use Rattle.gen1_machine.specs.State.{Stages};

    ghost Value = { Stages };

    ghost view = { λ s. record {
      attack = s.attack;
      defense = s.defense;
      speed = s.speed;
      special = s.special;
      accuracy = s.accuracy;
      evasion = s.evasion;
    } };

    ghost inverse = { λ s. record {
      attack = s.attack;
      defense = s.defense;
      speed = s.speed;
      special = s.special;
      accuracy = s.accuracy;
      evasion = s.evasion;
    } };
}

impl SeenStages {
    pub(crate) fn level() -> Self
        ensures { result ≡ level_stages }
    {
        SeenStages {
            attack: LEVEL,
            defense: LEVEL,
            speed: LEVEL,
            special: LEVEL,
            accuracy: LEVEL,
            evasion: LEVEL,
        }
    }

    /// Returns the stage of a stat.
    pub fn stage(self, stat: Stat) -> u8
        ensures { result ≡ stage_of stat self }
    {
        match stat {
            Stat::Attack => self.attack,
            Stat::Defense => self.defense,
            Stat::Speed => self.speed,
            Stat::Special => self.special,
            Stat::Accuracy => self.accuracy,
            Stat::Evasion => self.evasion,
        }
    }

    fn with(self, stat: Stat, stage: u8) -> Self
        ensures { result ≡ with_stage stat stage self }
    {
        let mut stages = self;
        match stat {
            Stat::Attack => stages.attack = stage,
            Stat::Defense => stages.defense = stage,
            Stat::Speed => stages.speed = stage,
            Stat::Special => stages.special = stage,
            Stat::Accuracy => stages.accuracy = stage,
            Stat::Evasion => stages.evasion = stage,
        }
        stages
    }

    /// The stages after a stat's stage rises, at most to 12.
    pub(crate) fn raised(self, stat: Stat, count: u8) -> Self
        ensures { result ≡ with_stage stat (min 12 (stage_of stat self + count)) self }
    {
        let stage = u16::from(self.stage(stat)) + u16::from(count);
        self.with(stat, stage.min(HIGHEST) as u8)
    }

    /// The stages after a stat's stage falls, at least to 0.
    pub(crate) fn lowered(self, stat: Stat, count: u8) -> Self
        ensures { result ≡ with_stage stat (stage_of stat self - count) self }
    {
        self.with(stat, self.stage(stat).saturating_sub(count))
    }
}
