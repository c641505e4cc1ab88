//! Laws on what a player is shown (docs/PROVED.md). Each function has an empty body. Its contract is the law.
ghost use Rattle.gen1_player.specs.Telling.{TellsHp};
ghost use Rattle.gen1_player.specs.Fair.{Fair, FairPlayer, HidesTheCounts, HidesTheFoe, OffersWhatIsShown};

/// What a side is offered follows from what it is shown of itself (docs/MECHANICS.md, "Offered choices", "What a side is shown of
/// itself").
#[tactic(auto, using(crate::proofs::Fairness::offers_what_is_shown))]
pub fn offers_what_is_shown()
    ensures { OffersWhatIsShown }
{}

/// Whatever the foe is, a side is shown the same of itself, except for whether the foe's trapping holds it.
#[tactic(auto, using(crate::proofs::Fairness::hides_the_foe))]
pub fn hides_the_foe()
    ensures { HidesTheFoe }
{}

/// Hidden counts of a side change nothing of what it is shown.
#[tactic(auto, using(crate::proofs::Fairness::hides_the_counts))]
pub fn hides_the_counts()
    ensures { HidesTheCounts }
{}

/// In each form of HP, the number is 0 exactly of a member without HP, and else allows an interval that contains its HP.
#[tactic(auto, using(crate::proofs::Retellings::tells_hp))]
pub fn tells_hp()
    ensures { TellsHp }
{}

/// In two battles of the same own team in which a side gets the same logs and is shown the same of itself, it is offered the same, and
/// whatever a player computes is the same.
pub fn fair()
    ensures { Fair }
{}

/// Two players of a side with the same team and terms are equal, if in both battles the side gets the same logs, and is shown the same of
/// itself after each update.
pub fn fair_player()
    ensures { FairPlayer }
{}
