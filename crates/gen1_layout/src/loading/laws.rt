//! The laws of reading (docs/LAYOUT.md, "Loading"). Each function has an empty body. Its contract is the law.
ghost use Rattle.gen1_layout.specs.LoadingLaws.{ActivesStand, FormsStand, HeadersStand, MembersStand, RequestsStand, StartsStand, StatsStand};

/// A header of version 3 passes its test exactly if it is the header of some state with numbers in range.
#[tactic(auto, using(crate::proofs::LoadingLaws::headers_law))]
pub fn headers_stand()
    ensures { HeadersStand }
{}

/// The bytes of a side pass the test of its members exactly if they are the bytes of valid members.
pub fn members_stand()
    ensures { MembersStand }
{}

/// From turn 1 on, an active block passes its test exactly if, apart from its current stats, it is the block of a
/// valid active member of the side.
pub fn actives_stand()
    ensures { ActivesStand }
{}

/// Current stats pass their test exactly if they are those of the active member after some penalties.
pub fn stats_stand()
    ensures { StatsStand }
{}

/// Before the first turn, outcome and requests pass their test exactly if nothing has happened and the first members
/// live.
pub fn starts_stand()
    ensures { StartsStand }
{}

/// From turn 1 on, turn, outcome and requests pass their test exactly if they fit together in the state.
#[tactic(auto, using(crate::proofs::LoadingLaws::requests_law))]
pub fn requests_stand()
    ensures { RequestsStand }
{}

/// The packings of valid states are exactly the bytes that pass all tests.
pub fn forms_stand()
    ensures { FormsStand }
{}
