//! What holds for all plain states (docs/LAYOUT.md, "Plain states"), as functions that do nothing.
ghost use Rattle.gen1_states.specs.Laws.{ComesBack, GoesBack, TestedAreBattles};

/// [`state_of`](crate::state_of) and [`from_state`](crate::from_state) undo each other. The plain state of a battle is accepted,
/// and gives the same battle. A battle that was made of a plain state has this plain state, with the current stats that were left
/// to be computed.
pub fn plain_states_come_back()
    ensures battle { GoesBack }
    ensures state { ComesBack }
{}

/// A plain state passes all tests of its fields exactly if its bytes are a battle.
pub fn tested_states_are_battles()
    ensures { TestedAreBattles }
{}
