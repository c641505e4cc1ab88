//! The bytes of a status, a type, a used move and the like (docs/LAYOUT.md, "Header", "Member", "Active block").
ghost use Rattle.std.specs.Prelude.{unwrap_or, ℕ, ◌≡◌, ◌≤◌};
ghost use Rattle.gen1_stats.specs.Members.{is_marked};
ghost use Rattle.gen1_machine.specs.LogBytes.{kind_or_0};
ghost use Rattle.gen1_machine.specs.Rules.{bit_of};
ghost use Rattle.gen1_machine.specs.State.{kind_of};
ghost use Rattle.gen1_machine.specs.Layout.{disabled_slot, disabled_turns, outcome_byte, request_byte, status_byte, used_byte};
ghost use Rattle.gen1_layout.specs.Parts.{element_of, outcome_of, request_of_byte, status_of, used_of};

use gen1_machine::{DisabledSlot, Outcome, Request, UsedMove};
use gen1_stats::Status;
use gen1_tables::Element::{
    self, Bug, Dragon, Electric, Fighting, Fire, Flying, Ghost, Grass, Ground, Ice, Normal, Poison,
    Psychic, Rock, Water,
};

pub(crate) fn outcome_from(byte: u8) -> Outcome
    ensures { result ≡ outcome_of byte }
{
    match byte {
        0 => Outcome::Ongoing,
        1 => Outcome::WinOne,
        2 => Outcome::WinTwo,
        3 => Outcome::Tie,
        4 => Outcome::Fault(1),
        _ => Outcome::Fault(2),
    }
}

/// The byte of an outcome, 0 to 5 (docs/LAYOUT.md, "Header").
pub fn byte_of_outcome(outcome: Outcome) -> u8
    ensures value { ((code : ℕ) → outcome ≡ Outcome.Fault code → code ≤ 2)
        → result ≡ outcome_byte outcome }
    ensures small { result ≤ 5 }
{
    match outcome {
        Outcome::Ongoing => 0,
        Outcome::WinOne => 1,
        Outcome::WinTwo => 2,
        Outcome::Tie => 3,
        Outcome::Fault(code) => 3 + code.min(2),
    }
}

pub(crate) fn request_from(byte: u8) -> Request
    ensures { result ≡ request_of_byte byte }
{
    match byte {
        1 => Request::Move,
        2 => Request::Switch,
        _ => Request::Pass,
    }
}

/// The byte of a request, 0 to 2 (docs/LAYOUT.md, "Header").
pub fn byte_of_request(request: Request) -> u8
    ensures value { result ≡ request_byte request }
    ensures small { result ≤ 2 }
{
    match request {
        Request::Pass => 0,
        Request::Move => 1,
        Request::Switch => 2,
    }
}

pub(crate) fn status_from(byte: u8, mark: u8) -> Status
    ensures { result ≡ status_of byte mark }
{
    match byte {
        0 => Status::Healthy,
        8 => Status::Poisoned,
        16 => Status::Burned,
        32 => Status::Frozen,
        64 => Status::Paralysed,
        turns => Status::Asleep {
            turns,
            marked: mark == 1,
        },
    }
}

pub(crate) fn byte_of_status(status: Status) -> u8
    ensures { result ≡ status_byte status }
{
    match status {
        Status::Healthy => 0,
        Status::Asleep { turns, marked: _ } => turns,
        Status::Poisoned => 8,
        Status::Burned => 16,
        Status::Frozen => 32,
        Status::Paralysed => 64,
    }
}

/// The number of a status: 0 healthy, 1 asleep, 2 poisoned, 3 burned, 4 frozen, 5 paralysed.
pub fn number_of_status(status: Status) -> u8
    ensures value { result ≡ kind_or_0 (kind_of status) }
    ensures small { result ≤ 5 }
{
    match status {
        Status::Healthy => 0,
        Status::Asleep { .. } => 1,
        Status::Poisoned => 2,
        Status::Burned => 3,
        Status::Frozen => 4,
        Status::Paralysed => 5,
    }
}

pub(crate) fn mark_of_status(status: Status) -> u8
    ensures { result ≡ bit_of (is_marked status) }
{
    match status {
        Status::Asleep { turns: _, marked } => marked as u8,
        _ => 0,
    }
}

pub(crate) fn used_from(byte: u8) -> UsedMove
    ensures { result ≡ used_of byte }
{
    match byte {
        0 => UsedMove::Nothing,
        5 => UsedMove::Struggle,
        slot => UsedMove::Slot(slot),
    }
}

pub(crate) fn byte_of_used(used: UsedMove) -> u8
    ensures { result ≡ used_byte used }
{
    match used {
        UsedMove::Nothing => 0,
        UsedMove::Slot(slot) => slot,
        UsedMove::Struggle => 5,
    }
}

// The type of each byte. A byte of no type counts as Normal.
static ELEMENTS: [Element; 256] = [
    Normal, Fighting, Flying, Poison, Ground, Rock, Bug, Ghost, Fire, Water, Grass, Electric,
    Psychic, Ice, Dragon, Normal, Normal, Normal, Normal, Normal, Normal, Normal, Normal, Normal,
    Normal, Normal, Normal, Normal, Normal, Normal, Normal, Normal, Normal, Normal, Normal, Normal,
    Normal, Normal, Normal, Normal, Normal, Normal, Normal, Normal, Normal, Normal, Normal, Normal,
    Normal, Normal, Normal, Normal, Normal, Normal, Normal, Normal, Normal, Normal, Normal, Normal,
    Normal, Normal, Normal, Normal, Normal, Normal, Normal, Normal, Normal, Normal, Normal, Normal,
    Normal, Normal, Normal, Normal, Normal, Normal, Normal, Normal, Normal, Normal, Normal, Normal,
    Normal, Normal, Normal, Normal, Normal, Normal, Normal, Normal, Normal, Normal, Normal, Normal,
    Normal, Normal, Normal, Normal, Normal, Normal, Normal, Normal, Normal, Normal, Normal, Normal,
    Normal, Normal, Normal, Normal, Normal, Normal, Normal, Normal, Normal, Normal, Normal, Normal,
    Normal, Normal, Normal, Normal, Normal, Normal, Normal, Normal, Normal, Normal, Normal, Normal,
    Normal, Normal, Normal, Normal, Normal, Normal, Normal, Normal, Normal, Normal, Normal, Normal,
    Normal, Normal, Normal, Normal, Normal, Normal, Normal, Normal, Normal, Normal, Normal, Normal,
    Normal, Normal, Normal, Normal, Normal, Normal, Normal, Normal, Normal, Normal, Normal, Normal,
    Normal, Normal, Normal, Normal, Normal, Normal, Normal, Normal, Normal, Normal, Normal, Normal,
    Normal, Normal, Normal, Normal, Normal, Normal, Normal, Normal, Normal, Normal, Normal, Normal,
    Normal, Normal, Normal, Normal, Normal, Normal, Normal, Normal, Normal, Normal, Normal, Normal,
    Normal, Normal, Normal, Normal, Normal, Normal, Normal, Normal, Normal, Normal, Normal, Normal,
    Normal, Normal, Normal, Normal, Normal, Normal, Normal, Normal, Normal, Normal, Normal, Normal,
    Normal, Normal, Normal, Normal, Normal, Normal, Normal, Normal, Normal, Normal, Normal, Normal,
    Normal, Normal, Normal, Normal, Normal, Normal, Normal, Normal, Normal, Normal, Normal, Normal,
    Normal, Normal, Normal, Normal,
];

pub(crate) fn element_from(byte: u8) -> Element
    ensures { result ≡ element_of byte }
{
    ELEMENTS[byte as usize]
}

pub(crate) fn byte_of_count(count: Option<u8>) -> u8
    ensures { result ≡ unwrap_or count 0 }
{
    match count {
        Some(number) => number,
        None => 0,
    }
}

pub(crate) fn byte_of_disabled_slot(disabled: Option<DisabledSlot>) -> u8
    ensures { result ≡ disabled_slot disabled }
{
    match disabled {
        Some(disabled) => disabled.slot,
        None => 0,
    }
}

pub(crate) fn byte_of_disabled_turns(disabled: Option<DisabledSlot>) -> u8
    ensures { result ≡ disabled_turns disabled }
{
    match disabled {
        Some(disabled) => disabled.turns,
        None => 0,
    }
}
