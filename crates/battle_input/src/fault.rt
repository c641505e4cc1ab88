//! Why an input is not as expected: where a value is not, and what is expected there (docs/PROGRAM.md, "Explanations",
//! "Faults and statuses").
ghost use Rattle.std.specs.Prelude.{length, ℕ, ◌++◌, ◌+◌, ◌∷◌, ◌≡◌, ◌≤◌};
ghost use Rattle.battle_input.specs.Sheets.{IsShort, expected_text, expects, inside, name_of, path_text, step_text};

use arrayvec::{ArrayString, ArrayVec};
use itoa::Buffer;
use std::alloc::AllocError;
use std::marker::Model;

/// The most steps of a path: `.one[2].moves[1][0]` has five.
const STEPS: usize = 5;

/// The most bytes of a path as text. A step has at most 22: two brackets and the 20 digits of a number.
pub const PATH_LENGTH: usize = 110;

/// The most bytes of the text of an `Expected`.
pub const EXPECTED_LENGTH: usize = 48;

/// A key of an input's objects.
#[derive(Clone, Copy, Debug, PartialEq, Eq)]
pub enum Key {
    Seed,
    One,
    Two,
    Rules,
    Limit,
    Choices,
    Submissions,
    Attacker,
    Defender,
    Move,
    Critical,
    Species,
    Level,
    Dvs,
    Exp,
    Moves,
}

impl Key {
    /// Returns the key as it is written in the input.
    pub fn name(self) -> &'static str
        ensures value { result.now ≡ name_of self }
        ensures short { length result.now ≤ 11 }
    {
        match self {
            Key::Seed => "seed",
            Key::One => "one",
            Key::Two => "two",
            Key::Rules => "rules",
            Key::Limit => "limit",
            Key::Choices => "choices",
            Key::Submissions => "submissions",
            Key::Attacker => "attacker",
            Key::Defender => "defender",
            Key::Move => "move",
            Key::Critical => "critical",
            Key::Species => "species",
            Key::Level => "level",
            Key::Dvs => "dvs",
            Key::Exp => "exp",
            Key::Moves => "moves",
        }
    }
}

/// A step into a value: to the value under a key of an object, or to an item of a list.
#[derive(Clone, Copy, Debug, PartialEq, Eq)]
pub enum Step {
    /// The value under a key.
    Of(Key),
    /// The item of this number, from 0.
    At(usize),
}

impl Default for Step {
    /// The first item.
    fn default() -> Self {
        Step::At(0)
    }
}

/// The path from the whole input to a value in it, from the outside in.
#[derive(Clone, Debug, PartialEq, Eq, Drop)]
pub struct Path {
    steps: ArrayVec<Step, STEPS>,
}

impl Model for Path {
    ghost use Rattle.std.specs.Prelude.{List};
    ghost use Rattle.battle_input.specs.declared.fault.Step.{Step as AStep};

    ghost Value = { List AStep };

    ghost view = { λ p. p.steps.items };

    ghost inverse = { λ steps. record { steps = record { items = steps } } };
}

impl Path {
    /// Returns the path as text, as jq takes it: `.one[2].moves[1][0]`, or `.` for the whole input.
    pub fn text(&self) -> ArrayString<PATH_LENGTH>
        ensures { result.bytes ≡ path_text self.now }
    {
        let mut text = ArrayString::new();
        if self.steps.is_empty() {
            text.push_str(".");
            return text;
        }
        for step in self.steps.as_slice() {
            push_step(&mut text, *step);
        }
        text
    }
}

fn push_step(text: &mut ArrayString<PATH_LENGTH>, step: Step)
    requires { length text.old.bytes + 22 ≤ PATH_LENGTH }
    ensures bytes { text.new.bytes ≡ text.old.bytes ++ step_text step }
    ensures short { length text.new.bytes ≤ length text.old.bytes + 22 }
{
    match step {
        Step::Of(key) => {
            text.push_str(".");
            text.push_str(key.name());
        }
        Step::At(number) => {
            let mut digits = Buffer::new();
            text.push_str("[");
            text.push_str(digits.format(number));
            text.push_str("]");
        }
    }
}

/// What is expected of a value.
#[derive(Clone, Copy, Debug, PartialEq, Eq)]
pub enum Expected {
    /// An object with this key.
    With(Key),
    /// A list.
    List,
    /// A list of this many items.
    Items(usize),
    /// A list of at most four moves.
    FewMoves,
    /// A whole number from 0 to 255.
    Byte,
    /// A whole number from 0 to 65,535.
    Word,
    /// A whole number from 0 to 4,294,967,295.
    Long,
    /// The number of a side.
    Side,
    /// The number of the rules.
    Rules,
    /// A turn limit.
    Limit,
    /// The name of a species.
    Species,
    /// The name of a move.
    Move,
    /// A truth value.
    Truth,
}

impl Expected {
    /// Returns what is expected, as text.
    pub fn text(self) -> ArrayString<EXPECTED_LENGTH>
        ensures { result.bytes ≡ expected_text self }
    {
        let mut text = ArrayString::new();
        match self {
            Expected::With(key) => {
                text.push_str("an object with the key \"");
                text.push_str(key.name());
                text.push_str("\"");
            }
            Expected::Items(count) => {
                let mut digits = Buffer::new();
                text.push_str("a list of ");
                text.push_str(digits.format(count));
                text.push_str(" items");
            }
            Expected::List => text.push_str("a list"),
            Expected::FewMoves => text.push_str("a list of at most 4 moves"),
            Expected::Byte => text.push_str("a whole number from 0 to 255"),
            Expected::Word => text.push_str("a whole number from 0 to 65535"),
            Expected::Long => text.push_str("a whole number from 0 to 4294967295"),
            Expected::Side => text.push_str("the number of a side, 1 or 2"),
            Expected::Rules => text.push_str("a whole number from 0 to 3"),
            Expected::Limit => text.push_str("a whole number from 1 to 9999"),
            Expected::Species => text.push_str("the name of a species"),
            Expected::Move => text.push_str("the name of a move"),
            Expected::Truth => text.push_str("true or false"),
        }
        text
    }
}

/// A value that is not as expected.
#[derive(Clone, Debug, PartialEq, Eq, Drop)]
pub struct Misfit {
    /// The path to it.
    pub path: Path,
    pub expected: Expected,
}

impl Misfit {
    /// The value itself is not as expected.
    pub(crate) fn here(expected: Expected) -> Misfit
        ensures { result ≡ expects expected }
    {
        let path = Path {
            steps: ArrayVec::new(),
        };
        Misfit { path, expected }
    }

    // This misfit with `step` before its path, as seen from the value that the step goes into.
    fn behind(self, step: Step) -> Misfit
        requires { length self.path ≤ 4 }
        ensures { result ≡ record { path = step ∷ self.path; expected = self.expected } }
    {
        let Misfit { path, expected } = self;
        let Path { mut steps } = path;
        steps.insert(0, step);
        Misfit {
            path: Path { steps },
            expected,
        }
    }
}

/// What was read from the value at a step. If that has a misfit, the step comes before its path.
pub(crate) fn behind<T: Drop>(step: Step, read: Result<T, Misfit>) -> Result<T, Misfit>
    requires { IsShort 4 read }
    ensures value { result ≡ inside step read }
    ensures short { (n : ℕ) → IsShort n read → IsShort (n + 1) result }
{
    match read {
        Ok(value) => Ok(value),
        Err(misfit) => Err(misfit.behind(step)),
    }
}

/// Why an input is not the expected JSON.
#[derive(Clone, Debug, PartialEq, Eq, Drop)]
pub enum JsonFault {
    /// The bytes are not JSON: at this line and column, each from 1, is a byte that JSON does not allow there, or they end.
    Text { line: usize, column: usize },
    /// A value is not as expected.
    Value(Misfit),
}

/// Why a sheet can't be read.
#[derive(Clone, Debug, PartialEq, Eq, Drop)]
pub enum SheetFault {
    /// The input is not the expected JSON.
    Json(JsonFault),
    /// Out of memory.
    Memory,
}

impl From<Misfit> for SheetFault {
    ghost use Rattle.std.specs.Prelude.{◌≡◌};
    ghost use Rattle.battle_input.specs.declared.fault.JsonFault.TheVariants.{Value};
    ghost use Rattle.battle_input.specs.declared.fault.SheetFault.TheVariants.{Json};

    ghost from_gives = { λ misfit fault. fault ≡ Json (Value misfit) };

    fn from(misfit: Misfit) -> SheetFault {
        SheetFault::Json(JsonFault::Value(misfit))
    }
}

impl From<AllocError> for SheetFault {
    ghost use Rattle.std.specs.Prelude.{◌≡◌};
    ghost use Rattle.battle_input.specs.declared.fault.SheetFault.TheVariants.{Memory};

    ghost from_gives = { λ _ fault. fault ≡ Memory };

    fn from(_refused: AllocError) -> SheetFault {
        SheetFault::Memory
    }
}
