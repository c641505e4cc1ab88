//! Laws of the battle machine (docs/PROVED.md, "Laws"). Each function has an empty body. Its contract is the law.
ghost use Rattle.gen1_machine.specs.Bounds.{ActIsBounded, EndIsBounded, OrderIsBounded, ResidualIsBounded, StepIsBounded, SwitchIsBounded, TurnIsBounded, UpdateIsBounded};
ghost use Rattle.gen1_machine.specs.Laws.{OverStaysOver, SharesAreProbabilities, SharesDependOnFields, RefusalChangesNothing, TermsStay, RunsAppend, SameAsBeforeRules, SameAsFixedLimit, RoomRuns, FirstIsLeast, FirstExists, FirstStatesAreValid, RunsEnd, RunsAreLocal, UpdatesAreLocal, UpdatesAreTrees, UpdatesHaveProbabilities, FieldsStayValid, StatesFit, StatesStayValid};
ghost use Rattle.gen1_machine.specs.Spectator.{WatcherKnows};

/// Once a battle is over, every pair of choices is refused, and nothing changes (docs/MECHANICS.md, "Falls and
/// requests").
#[tactic(auto, using(crate::proofs::Runs::over_stays_over))]
pub fn over_stays_over()
    ensures { OverStaysOver }
{}

/// A refused pair of choices leaves the state as it is, and has no events (docs/MECHANICS.md, "Offered choices").
pub fn refusal_changes_nothing()
    ensures { RefusalChangesNothing }
{}

/// No update changes the rules, the turn limit or the seed (docs/MECHANICS.md, "Rules (sleep clause, freeze clause)", "Turn
/// limit").
#[tactic(auto, using(crate::proofs::Runs::terms_stay))]
pub fn terms_stay()
    ensures { TermsStay }
{}

/// A run over one list of pairs and then another is the run over the first, followed by the run over the second
/// (docs/MECHANICS.md, "Falls and requests").
#[tactic(auto, using(crate::proofs::Runs::runs_append))]
pub fn runs_append()
    ensures { RunsAppend }
{}

/// Without clauses and with a limit of 1,000 turns, a battle runs by the step that has neither clauses nor a limit to
/// choose (docs/MECHANICS.md, "Rules (sleep clause, freeze clause)", "Turn limit").
#[tactic(auto, using(crate::proofs::Runs::same_as_before_rules))]
pub fn same_as_before_rules()
    ensures { SameAsBeforeRules }
{}

/// With a limit of 1,000 turns, a battle runs by the step that has no limit to choose (docs/MECHANICS.md, "Turn
/// limit").
#[tactic(auto, using(crate::proofs::Runs::same_as_fixed_limit))]
pub fn same_as_fixed_limit()
    ensures { SameAsFixedLimit }
{}

/// The battle of a room is the run over the pairs that its submissions completed (docs/MECHANICS.md, "Rooms").
#[tactic(auto, using(crate::proofs::Runs::room_runs))]
pub fn room_runs()
    ensures { RoomRuns }
{}

/// The first byte that passes a test has the least place of all that do, and comes within a stream's span
/// (docs/MECHANICS.md, "Link numbers").
pub fn first_is_least()
    ensures { FirstIsLeast }
{}

/// If some byte of a stream passes a test, there is a first that does (docs/MECHANICS.md, "Link numbers").
pub fn first_exists()
    ensures { FirstExists }
{}

/// An update is a tree of draws: on each stream, from each place on, it leads where the tree does (docs/MECHANICS.md, "Link
/// numbers").
///
/// Each draw of the tree takes the next byte, or the first that passes a test. Each branch ends.
#[tactic(auto, using(crate::proofs::Runs::updates_are_trees))]
pub fn updates_are_trees()
    ensures { UpdatesAreTrees }
{}

/// The shares that a tree of draws gives to fields are probabilities, if each draw is a uniform byte and independent of the
/// others (docs/MECHANICS.md, "Link numbers").
///
/// There are shares of some whole, and of each whole at most one. All fields together have the whole, and shares of fields that
/// exclude each other add up. If there is a share above 0, some bytes lead there; and what a stream leads to has one.
pub fn shares_are_probabilities()
    ensures { SharesAreProbabilities }
{}

/// Two trees of draws that lead to the same field on each stream have equal shares (docs/MECHANICS.md, "Link numbers").
#[tactic(auto, using(crate::proofs::EqualShares::shares_depend_on_fields))]
pub fn shares_depend_on_fields()
    ensures { SharesDependOnFields }
{}

/// An update leads to fields that pass a test with one probability, by any of its trees (docs/MECHANICS.md, "Link numbers").
///
/// There is a share of some whole, and all shares are the same fraction of their wholes.
#[tactic(auto, using(crate::proofs::EqualShares::updates_have_probabilities))]
pub fn updates_have_probabilities()
    ensures { UpdatesHaveProbabilities }
{}

/// An update depends on the bytes that it draws alone: another stream with these bytes and the same span leads to the same
/// battle, by the same events and as many draws (docs/MECHANICS.md, "Link numbers").
///
/// The spans may differ if each is more than the number of bytes that the update draws.
#[tactic(auto, using(crate::proofs::Runs::updates_are_local))]
pub fn updates_are_local()
    ensures { UpdatesAreLocal }
{}

/// A replay depends on the bytes that it draws alone: with another seed that draws them it has the same answers, and leads to
/// the same state apart from the seed (docs/MECHANICS.md, "Link numbers").
#[tactic(auto, using(crate::proofs::Runs::runs_are_local))]
pub fn runs_are_local()
    ensures { RunsAreLocal }
{}

/// A battle of two teams is valid before its first update (docs/MECHANICS.md, "Teams").
#[tactic(auto, using(crate::proofs::ValidStates::first_states_are_valid))]
pub fn first_states_are_valid()
    ensures { FirstStatesAreValid }
{}

/// From any valid state, at most as many pairs are accepted as turns may still come, and eleven more. Then the battle
/// is over (docs/MECHANICS.md, "Turn limit").
#[tactic(auto, using(crate::proofs::RunsEnd::runs_end))]
pub fn runs_end()
    ensures { RunsEnd }
{}

/// A run from a valid state leaves each number in its range, and nothing underway that the current move doesn't
/// explain (docs/MECHANICS.md, "Conditions").
pub fn fields_stay_valid()
    ensures { FieldsStayValid }
{}

/// Every run from a valid state leads to a valid state (docs/LAYOUT.md, "Loading").
#[tactic(auto, using(crate::proofs::ValidStates::states_stay_valid))]
pub fn states_stay_valid()
    ensures { StatesStayValid }
{}

/// Each number of a valid state fits its bytes (docs/LAYOUT.md, "The 384 bytes of a battle").
#[tactic(auto, using(crate::proofs::Fits::states_fit))]
pub fn states_fit()
    ensures { StatesFit }
{}

/// One side's action makes at most 2,323 draws, and writes at most 19 events of 107 bytes together
/// (docs/MECHANICS.md, "Action").
///
/// This holds on a stream whose span is at most that of a link battle.
pub fn act_is_bounded()
    ensures { ActIsBounded }
{}

/// A switch makes no draw, and writes at most one event of 10 bytes (docs/MECHANICS.md, "Switching in").
pub fn switch_is_bounded()
    ensures { SwitchIsBounded }
{}

/// Residual damage takes no draw, and writes at most 3 events of 26 bytes together (docs/MECHANICS.md, "Residual
/// damage").
pub fn residual_is_bounded()
    ensures { ResidualIsBounded }
{}

/// Settling the order of a turn takes at most one draw, and writes no event (docs/MECHANICS.md, "Order of a turn").
pub fn order_is_bounded()
    ensures { OrderIsBounded }
{}

/// The end of an update makes no draw, and writes at most 3 events of 9 bytes together (docs/MECHANICS.md, "Falls and
/// requests").
pub fn end_is_bounded()
    ensures { EndIsBounded }
{}

/// A turn makes at most 4,647 draws, and writes at most 44 events of 266 bytes together (docs/MECHANICS.md, "Order of
/// a turn").
///
/// This holds on a stream whose span is at most that of a link battle.
pub fn turn_is_bounded()
    ensures { TurnIsBounded }
{}

/// An update makes at most 4,647 draws, and writes at most 47 events of 275 bytes together (docs/MECHANICS.md, "Falls
/// and requests").
///
/// This holds on a stream whose span is at most that of a link battle.
pub fn update_is_bounded()
    ensures { UpdateIsBounded }
{}

/// An accepted pair of choices makes at most 4,700 draws, and has at most 64 events, whose codes have at most 512
/// bytes together (docs/MECHANICS.md, "Log bytes").
pub fn step_is_bounded()
    ensures { StepIsBounded }
{}

/// A spectator that has seen all events of a battle of two teams knows what the battle shows (docs/MECHANICS.md,
/// "Spectator's view").
///
/// That is the active places, HP, kinds of status, stages, substitutes, confusion, screens, turn and outcome.
#[tactic(auto, using(crate::proofs::Spectators::watcher_knows))]
pub fn watcher_knows()
    ensures { WatcherKnows }
{}
