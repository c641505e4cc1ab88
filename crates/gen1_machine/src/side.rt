//! The two sides of a battle, what each chooses for an update, what it uses in a turn, and what is disabled
//! (docs/MECHANICS.md, "Events", "Offered choices", "Picks").
ghost use Rattle.std.specs.Prelude.{IfSome, IsSome, ◌↔◌, ◌≡◌, ◌≤◌};

use crate::{MoveSlot, Place};

/// A side of a battle.
#[derive(Clone, Copy, Debug, PartialEq, Eq, Drop)]
pub enum Side {
    One = 1,
    Two = 2,
}

impl Side {
    ghost use Rattle.gen1_machine.specs.Sides.{other};
    ghost use Rattle.gen1_machine.specs.Numbers.{side_number};

    /// The foe's side.
    pub fn other(self) -> Self
        ensures { result ≡ other self }
    {
        match self {
            Side::One => Side::Two,
            Side::Two => Side::One,
        }
    }

    /// The number of the side in log bytes, 1 or 2 (docs/MECHANICS.md, "Events").
    pub fn number(self) -> u8
        ensures { result ≡ side_number self }
    {
        self as u8
    }

    /// The side with a number. Returns `None` if the number is neither 1 nor 2.
    pub fn from_number(number: u8) -> Option<Self>
        ensures numbered { IsSome result ↔ ((1 ≤ number) × (number ≤ 2)) }
        ensures exact { IfSome result (λ side. side_number side ≡ number) }
    {
        match number {
            1 => Some(Side::One),
            2 => Some(Side::Two),
            _ => None,
        }
    }
}

/// What a side chooses for an update (docs/MECHANICS.md, "Offered choices").
#[derive(Clone, Copy, Debug, PartialEq, Eq, Drop)]
pub enum Choice {
    /// No decision: nothing is asked of the side.
    Pass,
    /// The move in a slot, 1 to 4. Slot 0 is the one move that is left if no slot can be chosen.
    Move(MoveSlot),
    /// The member at a place comes out, 1 to 6.
    Switch(Place),
}

impl Default for Choice {
    fn default() -> Self
        ensures { result ≡ Choice.Pass }
    {
        Self::Pass
    }
}

impl Choice {
    ghost use Rattle.gen1_machine.specs.Choices.{byte_of_choice, choice_at};

    /// The choice that a byte encodes: 0x00 for Pass, 0x10 to 0x14 for Move with its slot, 0x21 to 0x26 for Switch
    /// with its place.
    ///
    /// Returns `None` for any other byte.
    pub fn from_byte(byte: u8) -> Option<Self>
        ensures value { result ≡ choice_at byte }
        ensures undone { IfSome result (λ choice. byte_of_choice choice ≡ byte) }
    {
        match byte {
            0x00 => Some(Choice::Pass),
            0x10..=0x14 => MoveSlot::new(byte - 0x10).map(Choice::Move),
            0x21..=0x26 => Place::new(byte - 0x20).map(Choice::Switch),
            _ => None,
        }
    }

    /// The byte that encodes the choice. `from_byte` is its inverse.
    pub fn byte(self) -> u8
        ensures value { result ≡ byte_of_choice self }
        ensures undone { choice_at result ≡ Some self }
    {
        match self {
            Choice::Pass => 0x00,
            Choice::Move(slot) => 0x10 + slot.number(),
            Choice::Switch(place) => 0x20 + place.number(),
        }
    }
}

/// A move of a member, by where it comes from (docs/MECHANICS.md, "Picks").
#[derive(Debug, Clone, Copy, PartialEq, Eq)]
pub enum UsedMove {
    /// No move yet since the member was sent out.
    Nothing,
    /// The move in this slot, 1 to 4.
    Slot(u8),
    /// Struggle, which is in no slot.
    Struggle,
}

/// What a side's choice of a move becomes as the turn begins (docs/MECHANICS.md, "Picks").
#[derive(Debug, Clone, Copy, PartialEq, Eq)]
pub enum Pick {
    /// A move that is picked for this turn.
    Use(UsedMove),
    /// The current move, which continues.
    Continue,
    /// Nothing, since the member is asleep or frozen.
    Idle,
    /// Nothing, since the foe is trapping the member.
    Held,
}

/// The slot that Disable bars, 1 to 4, and the number of turns left, 1 to 8 (docs/MECHANICS.md, "Picks").
#[derive(Debug, Clone, Copy, PartialEq, Eq)]
pub struct DisabledSlot {
    pub slot: u8,
    pub turns: u8,
}
