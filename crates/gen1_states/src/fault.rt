//! What is wrong with a plain state, and where (docs/LAYOUT.md, "Plain states").
ghost use Rattle.std.specs.Prelude.{◌≡◌};
ghost use Rattle.gen1_states.specs.Plain.{fault_at, field_number, first_of, on, ruled, within};

/// The field of a plain state that is wrong. The order is that of the tests.
#[derive(Clone, Copy, Debug, PartialEq, Eq)]
pub enum StateField {
    /// No field. No fault has it.
    Unnamed,
    Limit,
    Turn,
    Index,
    Outcome,
    Rules,
    Request,
    Species,
    Level,
    MaxHp,
    Hp,
    /// One of a member's own stats, 1 Attack to 4 Special.
    OwnStat,
    Status,
    Sleep,
    Marked,
    Move,
    Pp,
    Place,
    Type,
    /// 1 Attack to 6 evasion.
    Stage,
    Conditions,
    Substitute,
    Confusion,
    DisabledSlot,
    DisabledTurns,
    BadPoison,
    Turns,
    Energy,
    KeptAccuracy,
    CurrentMove,
    PickedMove,
    /// A bit of the conditions that belongs to an effect of the current move; the index is its place, from 0.
    TiedCondition,
    /// One of the current stats, 1 Attack to 4 Special.
    CurrentStat,
}

impl StateField {
    /// The number of the field, from 0 in the order above.
    pub fn number(self) -> u8
        ensures { result ≡ field_number self }
    {
        match self {
            StateField::Unnamed => 0,
            StateField::Limit => 1,
            StateField::Turn => 2,
            StateField::Index => 3,
            StateField::Outcome => 4,
            StateField::Rules => 5,
            StateField::Request => 6,
            StateField::Species => 7,
            StateField::Level => 8,
            StateField::MaxHp => 9,
            StateField::Hp => 10,
            StateField::OwnStat => 11,
            StateField::Status => 12,
            StateField::Sleep => 13,
            StateField::Marked => 14,
            StateField::Move => 15,
            StateField::Pp => 16,
            StateField::Place => 17,
            StateField::Type => 18,
            StateField::Stage => 19,
            StateField::Conditions => 20,
            StateField::Substitute => 21,
            StateField::Confusion => 22,
            StateField::DisabledSlot => 23,
            StateField::DisabledTurns => 24,
            StateField::BadPoison => 25,
            StateField::Turns => 26,
            StateField::Energy => 27,
            StateField::KeptAccuracy => 28,
            StateField::CurrentMove => 29,
            StateField::PickedMove => 30,
            StateField::TiedCondition => 31,
            StateField::CurrentStat => 32,
        }
    }
}

/// A field of a plain state that is wrong: what was found, and from which number to which it may be.
///
/// A value in that range breaks the further rule of its field (crates/gen1_states/CALLING.md, "Faults").
#[derive(Clone, Copy, Debug, PartialEq, Eq)]
pub struct StateFault {
    pub field: StateField,
    /// 1 or 2; 0 for a field of the whole battle.
    pub side: u8,
    /// The place of the member, 1 to 6; 0 for a field of an active member, a side or the whole battle.
    pub place: u8,
    /// Which one of several: a slot or a stat from 1, a bit from 0; 0 for a field that occurs once.
    pub index: u8,
    pub value: u32,
    pub low: u32,
    pub high: u32,
}

/// A test of one field: its value, the range, and whether it passes.
#[derive(Clone, Copy)]
pub(crate) struct Test {
    pub(crate) field: StateField,
    pub(crate) index: u8,
    pub(crate) value: u32,
    pub(crate) low: u32,
    pub(crate) high: u32,
    pub(crate) passes: bool,
}

/// The test that a value is in a range.
pub(crate) fn within(field: StateField, index: u8, value: u32, low: u32, high: u32) -> Test
    ensures { result ≡ within field index value low high }
{
    let passes = low <= value && value <= high;
    Test {
        field,
        index,
        value,
        low,
        high,
        passes,
    }
}

/// Adds a further rule to a test.
pub(crate) fn ruled(test: Test, holds: bool) -> Test
    ensures { result ≡ ruled test holds }
{
    let passes = test.passes && holds;
    Test { passes, ..test }
}

/// A bound that applies if something holds, and otherwise 0.
pub(crate) fn on(holds: bool, bound: u32) -> u32
    ensures { result ≡ on holds bound }
{
    if holds { bound } else { 0 }
}

/// The first test that fails.
#[tactic(auto, unfolding(crate::specs::Plain::first_of))]
pub(crate) fn first_of(tests: &[Test]) -> Result<(), Test>
    ensures { result ≡ first_of tests.now }
{
    for test in tests {
        if !test.passes {
            return Err(*test);
        }
    }
    Ok(())
}

/// The result of tests, with an error as a fault of a side, or of the whole battle, and of a place in it.
pub(crate) fn at(side: u8, place: u8, tested: Result<(), Test>) -> Result<(), StateFault>
    ensures { result ≡ fault_at side place tested }
{
    match tested {
        Ok(()) => Ok(()),
        Err(test) => Err(StateFault {
            field: test.field,
            side,
            place,
            index: test.index,
            value: test.value,
            low: test.low,
            high: test.high,
        }),
    }
}
