//! The result of the gate (docs/MECHANICS.md, "Gate").
ghost use Rattle.std.specs.Prelude.{◌≡◌};
ghost use Rattle.gen1_status.specs.Gate.{stopped_by};

/// The result of the gate for an action (docs/MECHANICS.md, "Gate").
#[derive(Clone, Copy, Debug, PartialEq, Eq)]
pub enum Gate {
    /// The action continues: it passed every test.
    Go,
    /// The action ends.
    Stop,
    /// The action ends, and the battle ends with Fault 1: the damage of the member's hit on itself would be divided
    /// by 0.
    Fault,
}

impl Gate {
    /// Whether the action ends.
    pub fn stops(self) -> bool
        ensures { result ≡ stopped_by self }
    {
        match self {
            Gate::Go => false,
            Gate::Stop => true,
            Gate::Fault => true,
        }
    }
}
