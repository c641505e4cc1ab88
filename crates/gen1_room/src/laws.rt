//! What holds for all rooms (docs/MECHANICS.md, "Rooms"), as functions that do nothing.
ghost use Rattle.gen1_room.specs.Rooms.{PairsAreAnswered, RepliesHideChoices};

/// Until a pair has ended, no reply depends on which of the offered choices a side has made for it.
#[tactic(auto, using(crate::proofs::Blind::replies_hide_choices))]
pub fn replies_hide_choices()
    ensures { RepliesHideChoices }
{}

/// The reply to the submission that ends a pair is the result of the battle at that point.
pub fn pairs_are_answered()
    ensures { PairsAreAnswered }
{}
