//! Laws of the offered choices. Each function has an empty body. Its contract is the law.
ghost use Rattle.gen1_offers.specs.OfferedChoices.{OffersRising, OffersTheSet};

/// A choice is in the list of offered choices exactly if it is offered (docs/MECHANICS.md, "Offered choices").
#[tactic(auto, using(crate::proofs::OfferedSet::offers_the_set))]
pub fn offers_the_set()
    ensures { OffersTheSet }
{}

/// The bytes of the offered choices of a valid state rise, each above the one before (docs/MECHANICS.md, "Offered
/// choices").
#[tactic(auto, using(crate::proofs::OfferedSet::offers_rising))]
pub fn offers_rising()
    ensures { OffersRising }
{}
