//! What is known of the action in progress, apart from the bytes of the battle (docs/MECHANICS.md, "Action").
ghost use Rattle.std.specs.Prelude.{◌≡◌};
ghost use Rattle.gen1_hits.specs.Knowing.{begun, nothing_yet};

use gen1_machine::Side;

/// What is known of the action in progress and isn't in the bytes (docs/MECHANICS.md, "Action").
///
/// It lasts for one update. Each action resets it, except for `skips`.
#[derive(Clone, Copy, Debug, PartialEq, Eq)]
pub struct Known {
    /// The side that acts.
    pub side: Side,
    /// The action continues from an earlier turn, by Thrash, Trapping or Rage (docs/MECHANICS.md, "Going on").
    pub going_on: bool,
    /// The action lets out the energy of Bide.
    pub letting_go: bool,
    /// The action has missed: by its hit test, by its damage, or by a rule of its move.
    pub missed: bool,
    /// The hit is critical.
    pub critical: bool,
    /// The damage went through the type rows, so they give its effectiveness.
    pub through_types: bool,
    /// The action broke a substitute, which cancels the rest of the move's effect (docs/MECHANICS.md, "Landing").
    pub broke: bool,
    /// The number of hits so far.
    pub hits_made: u8,
    /// The number of hits to make, 2 to 5, if the move makes several and their number is settled.
    pub hits_planned: Option<u8>,
    /// The accuracy byte of the hit test, if there was one (docs/MECHANICS.md, "Kept accuracy").
    pub accuracy_tested: Option<u8>,
    /// Haze found the foe asleep or frozen, so the foe doesn't act this turn (docs/MECHANICS.md, "Early effects").
    pub skips: bool,
}

impl Known {
    /// What is known when an update begins: nothing, and no side is skipped.
    pub fn new() -> Known
        ensures { result ≡ nothing_yet }
    {
        Known {
            side: Side::One,
            going_on: false,
            letting_go: false,
            missed: false,
            critical: false,
            through_types: false,
            broke: false,
            hits_made: 0,
            hits_planned: None,
            accuracy_tested: None,
            skips: false,
        }
    }

    /// What is known when an action of `side` begins: nothing of the action, and the skipped side as before.
    pub fn begun(self, side: Side) -> Known
        ensures { result ≡ begun side self }
    {
        Known {
            side,
            skips: self.skips,
            ..Known::new()
        }
    }
}
