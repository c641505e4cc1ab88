//! Laws about calls of `Battle::update`, one after the other, from a battle of two teams or a loaded one (docs/MECHANICS.md,
//! "Offered choices", "Turn limit"). Each function does nothing: its contract is the law.
ghost use Rattle.gen1_engine.specs.Update.{CallsAreTheRun, CallsEnd, OfferedIsAccepted};

/// A pair of offered choices is never refused.
pub fn offered_is_accepted()
    ensures { OfferedIsAccepted }
{}

/// After any calls the bytes represent the state that the machine's run by the same pairs leads to.
pub fn calls_are_the_run()
    ensures { CallsAreTheRun }
{}

/// A battle is over after at most as many accepted pairs as its turn limit, plus eleven (docs/MECHANICS.md, "Turn limit").
pub fn calls_end()
    ensures { CallsEnd }
{}
