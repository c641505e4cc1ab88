//! The outcome of a battle, what is asked of each side, and the battle's terms: its rules and its turn limit
//! (docs/MECHANICS.md, "Falls and requests", "Rules (sleep clause, freeze clause)", "Turn limit").
ghost use Rattle.std.specs.Prelude.{◌≡◌, ◌≤◌, ℕ, nat_le, ◌&&◌, if◌then◌else◌};
ghost use Rattle.gen1_machine.specs.Rules.{no_rules, rules_of, bits_of_rules};
ghost use Rattle.gen1_machine.specs.State.{is_over};

use std::marker::Model;

/// The outcome of a battle so far (docs/MECHANICS.md, "Falls and requests").
#[derive(Clone, Copy, Debug, PartialEq, Eq, Drop)]
pub enum Outcome {
    /// The battle continues, and choices are asked for.
    Ongoing,
    WinOne,
    WinTwo,
    Tie,
    /// The battle could not continue. The code is that of its `Event::Fault`, 1 or 2.
    Fault(u8),
}

impl Outcome {
    /// Whether the battle has ended.
    pub fn is_over(self) -> bool
        ensures { result ≡ is_over self }
    {
        !matches!(self, Outcome::Ongoing)
    }
}

/// What a side is asked for in the next update (docs/MECHANICS.md, "Falls and requests").
#[derive(Clone, Copy, Debug, PartialEq, Eq, Drop)]
pub enum Request {
    /// Nothing. The side passes.
    Pass,
    /// A move, or a switch instead of one.
    Move,
    /// A replacement for its fallen member.
    Switch,
}

/// The clauses of a battle (docs/MECHANICS.md, "Rules (sleep clause, freeze clause)").
#[derive(Clone, Copy, Debug, PartialEq, Eq, Drop)]
pub struct Rules {
    sleep_clause: bool,
    freeze_clause: bool,
}

impl Model for Rules {
    ghost use Rattle.gen1_machine.specs.Rules.{Rules};

    ghost Value = { Rules };

    ghost view = { λ r. record { sleep_clause = r.sleep_clause; freeze_clause = r.freeze_clause } };

    ghost inverse = { λ r. record {
      sleep_clause = r.sleep_clause;
      freeze_clause = r.freeze_clause;
    } };
}

impl Default for Rules {
    /// Neither clause.
    fn default() -> Self
        ensures { result ≡ no_rules }
    {
        Rules {
            sleep_clause: false,
            freeze_clause: false,
        }
    }
}

impl Rules {
    /// The rules with these bits: bit 0 is the sleep clause, bit 1 the freeze clause.
    ///
    /// Returns `None` if another bit is set.
    pub fn new(bits: u8) -> Option<Self>
        ensures { result ≡ (if nat_le bits 3 then Some (rules_of bits) else None) }
    {
        if bits <= 3 {
            Some(Rules {
                sleep_clause: bits % 2 == 1,
                freeze_clause: bits / 2 == 1,
            })
        } else {
            None
        }
    }

    /// The bits of the rules, as `new` accepts them.
    pub fn bits(self) -> u8
        ensures value { result ≡ bits_of_rules self }
        ensures undone { rules_of result ≡ self }
        ensures known { result ≤ 3 }
    {
        self.sleep_clause as u8 + 2 * self.freeze_clause as u8
    }

    /// Whether the sleep clause holds: a sleep move fails while an earlier one keeps a living member of the foe's
    /// side asleep.
    pub fn sleep_clause(self) -> bool
        ensures { result ≡ self.sleep_clause }
    {
        self.sleep_clause
    }

    /// Whether the freeze clause holds: a freeze does nothing while a living member of the foe's side is frozen.
    pub fn freeze_clause(self) -> bool
        ensures { result ≡ self.freeze_clause }
    {
        self.freeze_clause
    }
}

/// The last turn of a battle, 1 to 9,999. A battle without a winner by its end is a tie (docs/MECHANICS.md, "Turn
/// limit").
#[derive(Clone, Copy, Debug, PartialEq, Eq, Drop)]
pub struct TurnLimit {
    number: u16,
}

impl Model for TurnLimit {
    ghost Value = { ℕ };

    ghost view = { λ t. t.number };

    ghost invariant = { λ t. (1 ≤ t.number) × (t.number ≤ 9999) };

    ghost inverse = { λ n. record { number = n } };
}

impl Default for TurnLimit {
    /// 1,000 turns.
    fn default() -> Self
        ensures { result ≡ 1000 }
    {
        TurnLimit { number: 1000 }
    }
}

impl TurnLimit {
    /// A turn limit. Returns `None` if the number is out of range.
    pub fn new(number: u16) -> Option<Self>
        ensures { result ≡ (if nat_le 1 number && nat_le number 9999 then Some number else None) }
    {
        if (1..=9999).contains(&number) {
            Some(TurnLimit { number })
        } else {
            None
        }
    }

    /// The number itself.
    pub fn number(self) -> u16
        ensures value { result ≡ self }
        ensures low { 1 ≤ result }
        ensures high { result ≤ 9999 }
    {
        self.number
    }
}
