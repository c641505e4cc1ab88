//! The conditions of an active member that the log has announced, and not ended (docs/MECHANICS.md, "What the log makes public").
ghost use Rattle.std.specs.Prelude.{◌≡◌};
ghost use Rattle.gen1_player.specs.Public.{ends_by_haze, gets_status, is_hurt_by, is_kept_by, nothing_announced, set_volatile, worsens};

use gen1_machine::{CantReason, DamageSource, Kind, Volatile};

// The number of Toxic.
const TOXIC: u8 = 92;

// The most that the counter of bad poison counts.
const MOST_TIMES: u8 = 64;

/// Flags of the active member: 1 from the event that announces the condition on, 0 without it. `toxic_count` is a counter.
#[repr(C)]
#[derive(Clone, Copy, Debug, PartialEq, Eq, Drop)]
pub struct Announced {
    pub substitute: u8,
    pub confused: u8,
    pub mist: u8,
    pub focus_energy: u8,
    pub light_screen: u8,
    pub reflect: u8,
    /// Leech Seed.
    pub seeded: u8,
    /// Its poison is that of Toxic.
    pub toxic: u8,
    /// The counter of that poison, 0 to 64: how often poison, a burn or Leech Seed has hurt the member since. The next of them is
    /// multiplied by one more.
    pub toxic_count: u8,
    pub disabled: u8,
    pub rage: u8,
    pub bide: u8,
    /// Its move is `last_move` of its side.
    pub charging: u8,
    pub recharging: u8,
}

impl Announced {
    pub(crate) fn nothing() -> Self
        ensures { result ≡ nothing_announced }
    {
        Announced {
            substitute: 0,
            confused: 0,
            mist: 0,
            focus_energy: 0,
            light_screen: 0,
            reflect: 0,
            seeded: 0,
            toxic: 0,
            toxic_count: 0,
            disabled: 0,
            rage: 0,
            bide: 0,
            charging: 0,
            recharging: 0,
        }
    }

    /// Announces or ends a volatile, by a flag.
    pub(crate) fn set(&mut self, what: Volatile, flag: u8)
        ensures { self.new ≡ set_volatile what flag self.old }
    {
        match what {
            Volatile::Confusion => self.confused = flag,
            Volatile::Bide => self.bide = flag,
            Volatile::Substitute => self.substitute = flag,
            Volatile::LeechSeed => self.seeded = flag,
            Volatile::Mist => self.mist = flag,
            Volatile::FocusEnergy => self.focus_energy = flag,
            Volatile::LightScreen => self.light_screen = flag,
            Volatile::Reflect => self.reflect = flag,
            Volatile::Disable => self.disabled = flag,
            Volatile::Rage => self.rage = flag,
            _ => {}
        }
    }

    /// Ends what a reason ends that keeps a member from acting.
    pub(crate) fn keep(&mut self, why: CantReason)
        ensures { self.new ≡ is_kept_by why self.old }
    {
        match why {
            CantReason::Flinched => self.recharging = 0,
            CantReason::Recharging => self.recharging = 0,
            CantReason::Disabled => self.charging = 0,
            CantReason::Paralysed => {
                self.bide = 0;
                self.charging = 0;
            }
            _ => {}
        }
    }

    /// Ends what damage of this source ends, and counts residual damage.
    pub(crate) fn hurt(&mut self, source: DamageSource)
        ensures { self.new ≡ is_hurt_by source self.old }
    {
        match source {
            DamageSource::Confusion => {
                self.bide = 0;
                self.charging = 0;
            }
            DamageSource::Poison => self.worsen(),
            DamageSource::Burn => self.worsen(),
            DamageSource::LeechSeed => self.worsen(),
            _ => {}
        }
    }

    // Counts a hurt of bad poison.
    fn worsen(&mut self)
        ensures { self.new ≡ worsens self.old }
    {
        if self.toxic != 0 {
            self.toxic_count = self.toxic_count.saturating_add(1).min(MOST_TIMES);
        }
    }

    /// Announces bad poison if the foe used Toxic last, and ends what a freeze ends.
    pub(crate) fn afflict(&mut self, kind: Kind, last_move: u8)
        ensures { self.new ≡ gets_status kind last_move self.old }
    {
        match kind {
            Kind::Poison => {
                if last_move == TOXIC {
                    self.toxic = 1;
                    self.toxic_count = 0;
                }
            }
            Kind::Freeze => self.recharging = 0,
            _ => {}
        }
    }

    /// Ends what Haze ends.
    pub(crate) fn clear(&mut self)
        ensures { self.new ≡ ends_by_haze self.old }
    {
        self.confused = 0;
        self.mist = 0;
        self.focus_energy = 0;
        self.light_screen = 0;
        self.reflect = 0;
        self.seeded = 0;
        self.toxic = 0;
        self.toxic_count = 0;
        self.disabled = 0;
    }
}
