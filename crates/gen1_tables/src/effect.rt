//! The stats that have stages, and the effects of moves (docs/TABLES.md, "Effects").
ghost use Rattle.std.specs.Prelude.{◌≡◌};
ghost use Rattle.gen1_tables.specs.Effects.{bides, charges, explodes, rages, recharges, thrashes, traps};

/// A stat that has a stage.
#[derive(Clone, Copy, PartialEq, Eq, Debug, Drop)]
pub enum Stat {
    Attack,
    Defense,
    Speed,
    Special,
    Accuracy,
    Evasion,
}

/// What a move does in addition to its damage, or instead of it (docs/TABLES.md, "Effects").
///
/// The number of a chance is the bound of its draw: the effect happens if the draw, from 0 to 255, is below it.
#[derive(Clone, Copy, PartialEq, Eq, Debug, Drop)]
pub enum Effect {
    /// Damage only.
    DamageOnly,
    /// Fails, without a draw.
    AlwaysFails,
    /// Hits two to five times for the same damage.
    MultiHit,
    /// Damage only. Coins have no use in a link battle.
    PayDay,
    /// Freezes the foe if a draw is below 26.
    FreezeChance,
    /// Charges in its first turn and hits in the next.
    Charge,
    /// Charges, and can't be hit until it strikes.
    ChargeInvulnerable,
    /// Keeps the foe from acting, and deals the same damage for some turns.
    Trapping,
    /// Takes all of the foe's HP. It misses if the user is slower.
    OneHitKnockOut,
    /// Hits twice for the same damage.
    DoubleHit,
    /// Hits twice, then poisons the foe if a draw is below 52.
    Twineedle,
    /// Costs the user 1 HP if it misses.
    CrashOnMiss,
    /// Costs the user a part of the damage.
    Recoil,
    /// Continues for some turns, then confuses the user.
    Thrash,
    /// Puts the foe to sleep.
    InflictSleep,
    /// Confuses the foe.
    InflictConfusion,
    /// Deals damage by a special rule. Stats and types don't change it.
    FixedDamage,
    /// Disables one of the foe's moves for some turns.
    Disable,
    /// Guards the user against moves that lower a stat.
    Mist,
    /// Makes the user lose its next turn if it lands.
    Recharge,
    /// Deals twice the last damage, against a Normal or Fighting move.
    Counter,
    /// Heals the user by half the damage.
    Drain,
    /// Seeds the foe.
    LeechSeed,
    /// Poisons the foe. Toxic poisons it badly.
    InflictPoison,
    /// Paralyzes the foe.
    InflictParalysis,
    /// Continues until the user leaves. The user's Attack rises with each hit that it takes.
    Rage,
    /// The effect of a move that no member may have.
    LeftOut,
    /// Heals the user. Rest also puts it to sleep.
    Heal,
    /// Doubles the user's Special or Defense against damage.
    Screen,
    /// Resets stages and most conditions of both sides.
    Haze,
    /// Changes the chance of critical hits.
    FocusEnergy,
    /// Waits for some turns, then deals twice the damage taken.
    Bide,
    /// Halves the foe's Defense for its damage, and makes the user fall.
    Explode,
    /// Hits without a hit test.
    NeverMisses,
    /// Hits only a sleeping foe, and heals the user by half the damage.
    DreamEater,
    /// Does nothing.
    Splash,
    /// Gives the user the foe's types.
    Conversion,
    /// Deals half of the foe's HP.
    SuperFang,
    /// Makes a substitute for a quarter of the user's maximum HP.
    Substitute,
    /// Burns the foe by a draw.
    BurnChance(u8),
    /// Paralyzes the foe by a draw.
    ParalysisChance(u8),
    /// Poisons the foe by a draw.
    PoisonChance(u8),
    /// Makes the foe flinch by a draw.
    FlinchChance(u8),
    /// Confuses the foe by a draw.
    ConfusionChance(u8),
    /// Lowers the foe's stat by one stage if a draw is below 85.
    StatDownChance(Stat),
    /// Raises the user's stat by this many stages.
    StatUp(Stat, u8),
    /// Lowers the foe's stat by this many stages.
    StatDown(Stat, u8),
}

impl Effect {
    /// Whether the move halves the Defense for its damage and makes its user fall.
    pub fn explodes(self) -> bool
        ensures { result ≡ explodes self }
    {
        matches!(self, Effect::Explode)
    }

    /// Whether the move charges in its first turn, with or without becoming invulnerable.
    pub fn charges(self) -> bool
        ensures { result ≡ charges self }
    {
        matches!(self, Effect::Charge | Effect::ChargeInvulnerable)
    }

    /// Whether the move keeps the foe from acting.
    pub fn traps(self) -> bool
        ensures { result ≡ traps self }
    {
        matches!(self, Effect::Trapping)
    }

    /// Whether the move continues for some turns and then confuses its user.
    pub fn thrashes(self) -> bool
        ensures { result ≡ thrashes self }
    {
        matches!(self, Effect::Thrash)
    }

    /// Whether the move is Bide.
    pub fn bides(self) -> bool
        ensures { result ≡ bides self }
    {
        matches!(self, Effect::Bide)
    }

    /// Whether the user must recharge after the move lands.
    pub fn recharges(self) -> bool
        ensures { result ≡ recharges self }
    {
        matches!(self, Effect::Recharge)
    }

    /// Whether the move is Rage.
    pub fn rages(self) -> bool
        ensures { result ≡ rages self }
    {
        matches!(self, Effect::Rage)
    }
}
