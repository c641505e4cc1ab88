//! What holds for all views (docs/MECHANICS.md, "Spectator's view"), as functions that do nothing.
ghost use Rattle.gen1_spectator.specs.Plain.{FollowersAgree, FollowersMeetNoFault, WatchersAgree};

/// After any run of a battle from its start, a spectator who got every event that a reader returned from the battle's log, however
/// it was cut, knows what the battle shows: places, HP, kinds of status, stages, Substitutes, confusion, screens, turn and outcome.
pub fn watchers_agree()
    ensures { WatchersAgree }
{}

/// A view that reads the log in pieces, cut anywhere, knows what the battle shows. No piece has an error.
pub fn followers_agree()
    ensures agree { FollowersAgree }
    ensures faultless { FollowersMeetNoFault }
{}
