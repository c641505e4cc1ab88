//! Why the program did not do all that was asked, and what is written after the line of an error, if an explanation is
//! asked for (docs/PROGRAM.md, "Faults and statuses", "Explanations").
ghost use Rattle.std.specs.Prelude.{Some, codes, length, ◌++◌, ◌≡◌, ◌≤◌};
ghost use Rattle.gen1_machine.specs.Lines.{joined};
ghost use Rattle.battle_commands.specs.Faults.{error_line, explanation, log_words, misfit_words, pair_words, pieces_of, refused_words, team_words, text_words};

use arrayvec::ArrayString;
use battle_input::{EXPECTED_LENGTH, JsonFault, Misfit, PATH_LENGTH, SheetFault};
use gen1_stats::TeamRefusal;
use itoa::Buffer;
use std::alloc::AllocError;
use std::error::Error;
use std::fmt;

/// The most bytes of an error's words: those of a pair, whose number may have 20 digits and whose refusal three.
const WORDS_LENGTH: usize = 37;

/// The most bytes of an error's line: its words with `error: ` before them and the line feed after them.
const LINE_LENGTH: usize = 45;

/// Why the program did not do all that was asked. Each is shown as it is on standard error, after `error: ` (docs/PROGRAM.md,
/// "Faults and statuses").
#[derive(Clone, Debug, PartialEq, Eq, Drop)]
pub enum ToolFault {
    /// The input is not JSON, or a value in it is not as expected.
    Json(JsonFault),
    /// The input is longer than `INPUT_LIMIT` bytes.
    TooLong,
    /// A side's team is refused. `side` is 1 or 2, `place` that of the member with the error, or 0 for the team as a whole, and
    /// `refusal` the number of the `TeamRefusal`.
    Team { side: u8, place: u8, refusal: u8 },
    /// A pair of choices is refused. `number` counts the pairs from 0. `refusal` is 1 if the battle is over, 2 or 3 if side 1 or 2
    /// was not offered its choice.
    Pair { number: usize, refusal: u8 },
    /// The bytes are not a log, with the number of the `LogFault`, 1 to 3.
    Log(u8),
    /// Damage numbers were requested for a move that has none.
    Calc,
    /// The input could not be read.
    Read,
    /// The lines could not be written.
    Write,
    /// Out of memory.
    Memory,
}

impl ToolFault {
    ghost use Rattle.gen1_stats.specs.Refusals.{number_of, place_of};
    ghost use Rattle.battle_commands.specs.Faults.{status_of};

    /// Makes the error of a side, 1 or 2, whose team is refused.
    pub fn of_team(side: u8, refusal: TeamRefusal) -> ToolFault
        ensures { result ≡ ToolFault.Team side (place_of refusal) (number_of refusal) }
    {
        ToolFault::Team {
            side,
            place: refusal.place(),
            refusal: refusal.number(),
        }
    }

    /// Returns the exit status: 1 if the input is refused, 3 if a read or a write failed, 4 if memory ran out.
    pub fn status(&self) -> u8
        ensures value { result ≡ status_of self.now }
        ensures most { result ≤ 4 }
    {
        match self {
            ToolFault::Json(_)
            | ToolFault::TooLong
            | ToolFault::Team { .. }
            | ToolFault::Pair { .. }
            | ToolFault::Log(_)
            | ToolFault::Calc => 1,
            ToolFault::Read | ToolFault::Write => 3,
            ToolFault::Memory => 4,
        }
    }

    /// Returns the line that is written to standard error (docs/PROGRAM.md, "Faults and statuses").
    pub fn line(&self) -> ArrayString<LINE_LENGTH>
        ensures { result.bytes ≡ error_line self.now }
    {
        let mut line = ArrayString::new();
        line.push_str("error: ");
        line.push_str(self.words().as_str());
        line.push_str("\n");
        line
    }

    /// What is wrong, in words and numbers.
    fn words(&self) -> ArrayString<WORDS_LENGTH>
        ensures { result.bytes ≡ joined (pieces_of self.now) }
    {
        let mut words = ArrayString::new();
        let mut digits = Buffer::new();
        match self {
            ToolFault::Json(_) => words.push_str("json"),
            ToolFault::TooLong => words.push_str("too long"),
            ToolFault::Team {
                side,
                place,
                refusal,
            } => {
                words.push_str("team ");
                words.push_str(digits.format(*side));
                words.push_str(" place ");
                words.push_str(digits.format(*place));
                words.push_str(" refusal ");
                words.push_str(digits.format(*refusal));
            }
            ToolFault::Pair { number, refusal } => {
                words.push_str("pair ");
                words.push_str(digits.format(*number));
                words.push_str(" refused ");
                words.push_str(digits.format(*refusal));
            }
            ToolFault::Log(number) => {
                words.push_str("log ");
                words.push_str(digits.format(*number));
            }
            ToolFault::Calc => words.push_str("calc"),
            ToolFault::Read => words.push_str("read"),
            ToolFault::Write => words.push_str("write"),
            ToolFault::Memory => words.push_str("memory"),
        }
        words
    }
}

impl From<SheetFault> for ToolFault {
    ghost use Rattle.battle_commands.specs.Faults.{of_sheet};

    ghost from_gives = { λ why fault. fault ≡ of_sheet why };

    fn from(fault: SheetFault) -> ToolFault {
        match fault {
            SheetFault::Json(fault) => ToolFault::Json(fault),
            SheetFault::Memory => ToolFault::Memory,
        }
    }
}

impl From<AllocError> for ToolFault {
    ghost use Rattle.battle_commands.specs.declared.fault.ToolFault.TheVariants.{Memory};

    ghost from_gives = { λ _ fault. fault ≡ Memory };

    fn from(_refused: AllocError) -> ToolFault {
        ToolFault::Memory
    }
}

impl fmt::Display for ToolFault {
    ghost output = { λ fault. Some (joined (pieces_of fault)) };

    fn fmt<W: fmt::Write>(&self, f: &mut fmt::Formatter<W>) -> fmt::Result {
        f.write_str(self.words().as_str())
    }
}

impl Error for ToolFault {}

/// The most bytes of an explanation: `at `, a path, `: expected `, what is expected, and the line feed.
pub const EXPLANATION_LENGTH: usize = PATH_LENGTH + EXPECTED_LENGTH + 15;

type Text = ArrayString<EXPLANATION_LENGTH>;

impl ToolFault {
    /// Returns what is wrong, as a line: where it is and what was expected there, or why it was refused.
    pub fn explanation(&self) -> ArrayString<EXPLANATION_LENGTH>
        ensures { result.bytes ≡ explanation self.now }
    {
        match self {
            ToolFault::Json(JsonFault::Text { line, column }) => explain_text(*line, *column),
            ToolFault::Json(JsonFault::Value(misfit)) => explain_misfit(misfit),
            ToolFault::TooLong => sentence("expected at most 1048576 bytes"),
            ToolFault::Team {
                side,
                place,
                refusal,
            } => explain_team(*side, *place, *refusal),
            ToolFault::Pair { number, refusal } => explain_pair(*number, *refusal),
            ToolFault::Log(number) => sentence(log_words(*number)),
            ToolFault::Calc => sentence("at .move: expected a move with the usual damage"),
            ToolFault::Read => sentence("the input could not be opened or read"),
            ToolFault::Write => sentence("the output could not be written"),
            ToolFault::Memory => sentence("memory was refused"),
        }
    }
}

fn sentence(words: &str) -> Text
    requires { length words.now ≤ 60 }
    ensures { result.bytes ≡ words.now ++ codes "\n" }
{
    let mut text = ArrayString::new();
    text.push_str(words);
    text.push_str("\n");
    text
}

fn explain_text(line: usize, column: usize) -> Text
    ensures { result.bytes ≡ text_words line column }
{
    let mut text = ArrayString::new();
    let mut digits = Buffer::new();
    text.push_str("at line ");
    text.push_str(digits.format(line));
    text.push_str(" column ");
    text.push_str(digits.format(column));
    text.push_str(": expected JSON\n");
    text
}

fn explain_misfit(misfit: &Misfit) -> Text
    ensures { result.bytes ≡ misfit_words misfit.now }
{
    let mut text = ArrayString::new();
    text.push_str("at ");
    text.push_str(misfit.path.text().as_str());
    text.push_str(": expected ");
    text.push_str(misfit.expected.text().as_str());
    text.push_str("\n");
    text
}

fn explain_team(side: u8, place: u8, refusal: u8) -> Text
    ensures { result.bytes ≡ refused_words side place refusal }
{
    let mut text = ArrayString::new();
    let mut digits = Buffer::new();
    text.push_str("team ");
    text.push_str(digits.format(side));
    if place > 0 {
        text.push_str(", member ");
        text.push_str(digits.format(place));
    }
    text.push_str(": ");
    text.push_str(team_words(refusal));
    text.push_str("\n");
    text
}

/// The words of a team's refusal (docs/MECHANICS.md, "Teams").
fn team_words(refusal: u8) -> &'static str
    ensures value { result.now ≡ team_words refusal }
    ensures short { length result.now ≤ 40 }
{
    match refusal {
        1 => "the team has no member",
        2 => "the team has more than six members",
        3 => "the level is not 1 to 100",
        4 => "a DV is above 15",
        5 => "there is no move",
        6 => "a move is left out of the engine",
        7 => "Struggle can't be chosen",
        8 => "a move stands twice",
        _ => "a move has more than three PP ups",
    }
}

fn explain_pair(number: usize, refusal: u8) -> Text
    ensures { result.bytes ≡ pair_words number refusal }
{
    let mut text = ArrayString::new();
    let mut digits = Buffer::new();
    text.push_str("at .choices[");
    text.push_str(digits.format(number));
    text.push_str("]: ");
    match refusal {
        1 => text.push_str("the battle is over\n"),
        2 => text.push_str("side 1's choice is not offered\n"),
        _ => text.push_str("side 2's choice is not offered\n"),
    }
    text
}

/// The words of a log's error (docs/MECHANICS.md, "Log bytes").
fn log_words(number: u8) -> &'static str
    ensures value { result.now ≡ log_words number }
    ensures short { length result.now ≤ 60 }
{
    match number {
        1 => "a byte in a tag's place is no tag",
        2 => "a field of an event is out of its range",
        _ => "the bytes end within an event",
    }
}
