//! What the odds say of the machine's own phases. Each function has an empty body. Its contract is the law.
ghost use Rattle.gen1_odds.specs.Laws.{BreaksIfNeeded, ConfusionCounts, CounterCounts, FixedCounts, GateCounts, ImmuneMisses, MustHitCounts, OneHitCounts, ParalysisCounts, PoisonCounts, SeedCounts, SideEffectCounts, SlowerMisses, TestCounts};

/// A move misses in the hit test exactly by the draws that the odds do not count (docs/MECHANICS.md, "Hit test").
#[tactic(auto, using(crate::proofs::Tested::test_counts))]
pub fn test_counts()
    ensures { TestCounts }
{}

/// A test whose miss ends the action ends it by these draws (docs/MECHANICS.md, "Early effects", "Late effects").
#[tactic(auto, using(crate::proofs::Tested::must_hit_counts))]
pub fn must_hit_counts()
    ensures { MustHitCounts }
{}

/// A move of fixed damage misses by these draws (docs/MECHANICS.md, "Fixed damage and one-hit moves").
#[tactic(auto, using(crate::proofs::Counts::fixed_counts))]
pub fn fixed_counts()
    ensures { FixedCounts }
{}

/// Counter misses without a damage to return, or by these draws (docs/MECHANICS.md, "Counter").
#[tactic(auto, using(crate::proofs::Counts::counter_counts))]
pub fn counter_counts()
    ensures { CounterCounts }
{}

/// A one-hit move of a slower user misses (docs/MECHANICS.md, "Fixed damage and one-hit moves").
#[tactic(auto, using(crate::proofs::Counts::slower_misses))]
pub fn slower_misses()
    ensures { SlowerMisses }
{}

/// A one-hit move misses a foe that its type has no effect on (docs/MECHANICS.md, "Fixed damage and one-hit moves").
#[tactic(auto, using(crate::proofs::Counts::immune_misses))]
pub fn immune_misses()
    ensures { ImmuneMisses }
{}

/// Any other one-hit move misses by these draws (docs/MECHANICS.md, "Fixed damage and one-hit moves").
#[tactic(auto, using(crate::proofs::Counts::one_hit_counts))]
pub fn one_hit_counts()
    ensures { OneHitCounts }
{}

/// A move that poisons fails for its reason, or by these draws (docs/MECHANICS.md, "Early effects").
#[tactic(auto, using(crate::proofs::Tested::poison_counts))]
pub fn poison_counts()
    ensures { PoisonCounts }
{}

/// A move that paralyzes fails for its reason, or by these draws (docs/MECHANICS.md, "Early effects").
#[tactic(auto, using(crate::proofs::Tested::paralysis_counts))]
pub fn paralysis_counts()
    ensures { ParalysisCounts }
{}

/// Leech Seed fails for its reason, or by these draws (docs/MECHANICS.md, "Early effects").
#[tactic(auto, using(crate::proofs::Tested::seed_counts))]
pub fn seed_counts()
    ensures { SeedCounts }
{}

/// A move that confuses fails for its reason, or by these draws (docs/MECHANICS.md, "Early effects").
#[tactic(auto, using(crate::proofs::Tested::confusion_counts))]
pub fn confusion_counts()
    ensures { ConfusionCounts }
{}

/// A side effect shows after a hit exactly by the draws that are counted (docs/MECHANICS.md, "Side effects").
#[tactic(auto, using(crate::proofs::Harmed::side_effect_counts))]
pub fn side_effect_counts()
    ensures { SideEffectCounts }
{}

/// As a turn begins, the gate stops a member exactly by the draws that the odds of its action do not count (docs/MECHANICS.md,
/// "Gate").
#[tactic(auto, using(crate::proofs::Gated::gate_counts))]
pub fn gate_counts()
    ensures { GateCounts }
{}

/// A substitute breaks by the damage that the chances to knock out take as needed, and by no less (docs/MECHANICS.md,
/// "Landing").
#[tactic(auto, using(crate::proofs::Tested::breaks_if_needed))]
pub fn breaks_if_needed()
    ensures { BreaksIfNeeded }
{}
