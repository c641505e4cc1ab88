//! The conditions of a member that is out, as bits (docs/LAYOUT.md, "Condition bits").
ghost use Rattle.std.specs.Prelude.{Bool, List, [], codes, false, slice_index_or, slice_set, ℕ, ◌<◌, ◌^◌, ◌≡◌, ◌∷◌, ⊤, length};
ghost use Rattle.gen1_machine.specs.Layout.{number_of_bits};
ghost use Rattle.gen1_layout.specs.Words.{any_at, set_at};

use bitflags::{Flag, Flags, bitflag_items};

/// The conditions of a member that is out (docs/MECHANICS.md, "Conditions"), as a set of 17 bits (docs/LAYOUT.md,
/// "Condition bits").
///
/// If a condition has a number, such as the turns of confusion, that number is elsewhere in the active block.
#[derive(Clone, Copy, PartialEq, Eq, Debug)]
pub struct Conditions(u32);

bitflag_items! {
    impl Conditions: u32 {
        const BIDE = 1;
        const THRASH = 2;
        const TRAPPING = 4;
        const FLINCH = 8;
        const CHARGING = 16;
        const INVULNERABLE = 32;
        const CONFUSED = 64;
        const MIST = 128;
        const FOCUS_ENERGY = 256;
        const SUBSTITUTE = 512;
        const RECHARGE = 1024;
        const RAGE = 2048;
        const SEEDED = 4096;
        const BAD_POISON = 8192;
        const LIGHT_SCREEN = 16384;
        const REFLECT = 32768;
        const DISABLED = 65536;
    }
}

impl Flags for Conditions {
    type Bits = u32;

    ghost exact = { ⊤ };

    ghost table = { (codes "BIDE", 1) ∷ (codes "THRASH", 2) ∷ (codes "TRAPPING", 4) ∷ (codes "FLINCH", 8) ∷ (codes "CHARGING", 16) ∷ (codes "INVULNERABLE", 32) ∷ (codes "CONFUSED", 64) ∷ (codes "MIST", 128) ∷ (codes "FOCUS_ENERGY", 256) ∷ (codes "SUBSTITUTE", 512) ∷ (codes "RECHARGE", 1024) ∷ (codes "RAGE", 2048) ∷ (codes "SEEDED", 4096) ∷ (codes "BAD_POISON", 8192) ∷ (codes "LIGHT_SCREEN", 16384) ∷ (codes "REFLECT", 32768) ∷ (codes "DISABLED", 65536) ∷ [] };

    ghost set_of = { λ c. c.0 };

    fn flags<'a>() -> &'a [Flag<Conditions>] {
        Conditions::FLAGS
    }

    fn bits(&self) -> u32 {
        self.0
    }

    fn from_bits_retain(bits: u32) -> Conditions {
        Conditions(bits)
    }
}

impl Conditions {
    /// The conditions that keep a member at its current move (docs/MECHANICS.md, "Picks"): recharging, rage,
    /// thrashing, charging, Bide and trapping.
    pub const CONTINUES: Conditions = Conditions(
        Conditions::RECHARGE.0
            | Conditions::RAGE.0
            | Conditions::THRASH.0
            | Conditions::CHARGING.0
            | Conditions::BIDE.0
            | Conditions::TRAPPING.0,
    );

    /// The member's own conditions that the gate tests (docs/MECHANICS.md, "Gate"): flinching, confusion, recharging
    /// and Disable.
    pub const GATED: Conditions = Conditions(
        Conditions::FLINCH.0
            | Conditions::CONFUSED.0
            | Conditions::RECHARGE.0
            | Conditions::DISABLED.0,
    );

    /// These conditions with one of them set or cleared.
    pub fn with(self, which: Conditions, on: bool) -> Conditions
        ensures { (k : ℕ) → which.0 ≡ 2 ^ k → (bits : List Bool) → k < length bits
            → length bits ≡ 17
            → self.0 ≡ number_of_bits bits → result.0 ≡ number_of_bits (slice_set bits k on) }
    {
        let mut now = self;
        if on {
            now.insert(which);
        } else {
            now.remove(which);
        }
        now
    }

    /// Whether these conditions include a given one.
    pub fn has(self, which: Conditions) -> bool
        ensures { (k : ℕ) → which.0 ≡ 2 ^ k → (bits : List Bool)
            → self.0 ≡ number_of_bits bits → result ≡ slice_index_or bits k false }
    {
        self.contains(which)
    }

    /// Whether these conditions include at least one of several.
    pub fn has_any(self, which: Conditions) -> bool
        ensures { (places : List ℕ) → which.0 ≡ set_at places → (bits : List Bool)
            → self.0 ≡ number_of_bits bits → result ≡ any_at places bits }
    {
        self.intersects(which)
    }
}
