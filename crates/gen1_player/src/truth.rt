//! What holds of all that a log makes public (docs/MECHANICS.md, "Player's view"), as functions that do nothing.
ghost use Rattle.gen1_player.specs.True.{ConditionsAgree, ActivesAgree, MembersAgree, PlayersHoldThePublic, PublicAgrees, PublicAgreesWithView, SleepersAgree, UsesArePaid};

/// After any run from the start, what its log made public agrees with the battle: active places, stages, Substitute, confusion, screens,
/// turn, outcome, and HP and kind of status of each member that has appeared.
#[tactic(auto, using(crate::proofs::Placing::agrees, crate::proofs::Placing::agrees_with_view))]
pub fn public_agrees()
    ensures view { PublicAgreesWithView }
    ensures state { PublicAgrees }
{}

/// A player that was fed what its side was told of a run holds what the run's log made public, with its own members also before they
/// appear, and the foe's in the order of their appearance, with HP as it was told.
pub fn players_hold_the_public()
    ensures { PlayersHoldThePublic }
{}

/// After any run from the start, Mist, Focus Energy, Disable, rage and, of a living member, Leech Seed are announced exactly if they
/// are on, and the types are those of the active member.
#[tactic(auto, using(crate::proofs::Conditions::conditions_agree))]
pub fn conditions_agree()
    ensures { ConditionsAgree }
{}

/// After any run from the start, the member that is out has appeared. A member that has appeared has the species, level and maximum HP
/// of the member at its place, and it was seen to prepare or use its own moves or Struggle. The last move is one of these. Recharging is
/// announced only of one that knows a move for it.
#[tactic(auto, using(crate::proofs::Members::members_agree))]
pub fn members_agree()
    ensures { MembersAgree }
{}

/// After any run with valid terms and seed bytes that ended in no fault, Bide, charging and bad poison are announced exactly if they are
/// on, with the poison's counter while the member lives, and invulnerability only if it is. The last move is the current one; a member that
/// has to recharge, or is announced so, used a move for it last. A move that continues, without PP, is not counted as a use.
#[tactic(auto, using(crate::proofs::DeedRuns::actives_agree))]
pub fn actives_agree()
    ensures { ActivesAgree }
{}

/// After any run from the start, a member is said to sleep, by Rest or by a move of the foe, exactly if it is shown asleep; it has the mark
/// of the sleep clause exactly if by the latter, with the clause on. The turns that it slept and its count are 2 by Rest, else 7 at most.
pub fn sleepers_agree()
    ensures { SleepersAgree }
{}

/// After any run with valid terms and seed bytes, the uses that were counted of a member's move and its PP left are together at most the PP
/// at the start, and 64 more for each rise from 0 to 63.
#[tactic(auto, using(crate::proofs::SpendingTurns::uses_are_paid))]
pub fn uses_are_paid()
    ensures { UsesArePaid }
{}
