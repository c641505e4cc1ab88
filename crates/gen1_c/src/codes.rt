//! The codes that functions return, and a code in words (include/gen1.h, "errors"). Each number is the same error in
//! every function.
ghost use Rattle.std.specs.Prelude.{map, option_map, ◌≡◌, ◌≤◌};
ghost use Rattle.std.specs.List.{slice_get};
ghost use Rattle.gen1_c.specs.Codes.{Writes, load_code, log_code, outcomes_code, refusal_code, sentence_at, sentence_due};
ghost use Rattle.gen1_c.specs.Outcomes.{IsListCode};

use crate::lines::write_text;
use gen1_engine::Refusal;
use gen1_events::LogFault;
use gen1_layout::LoadFault;
use gen1_machine::Side;
use gen1_outcomes::OutcomesFault;

// Terms.
pub(crate) const RULES: u32 = 12;

pub(crate) const TURN_LIMIT: u32 = 13;

// Loading.
pub(crate) const STATE: u8 = 23;

// Updates.
pub(crate) const OVER: u8 = 24;

pub(crate) const NOT_OFFERED_ONE: u8 = 25;

pub(crate) const NOT_OFFERED_TWO: u8 = 26;

pub(crate) const SMALL_LOG: u8 = 27;

pub(crate) const DRAWS: u8 = 31;

// Logs.
pub(crate) const LOG_TAG: u8 = 32;

pub(crate) const LOG_FIELD: u8 = 33;

pub(crate) const LOG_CUT: u8 = 34;

pub(crate) const LOG_END: u8 = 35;

// Walks.
pub(crate) const WALK_END: u8 = 36;

// Arguments. A species and a move are also what a team can have wrong.
pub(crate) const SPECIES: u8 = 10;

pub(crate) const MOVE: u8 = 11;

pub(crate) const SIDE: u8 = 40;

pub(crate) const SMALL_TEXT: u8 = 41;

pub(crate) const UNKNOWN: u8 = 42;

pub(crate) const CHOICE: u8 = 43;

pub(crate) const NOBODY: u8 = 44;

pub(crate) const LENGTHS: u8 = 45;

pub(crate) const INDEX: u8 = 46;

// Calculating.
pub(crate) const UNUSUAL: u8 = 48;

pub(crate) const DIVISOR: u8 = 49;

const NOBODY_OUT: u8 = 50;

// Choices out of words.
pub(crate) const NOT_OFFERED: u8 = 54;

pub(crate) const WORDS: u8 = 58;

pub(crate) const AMBIGUOUS: u8 = 59;

// Teams out of text.
pub(crate) const TEXT_SEVENTH_MEMBER: u8 = 66;

pub(crate) const TEXT_FIELDS: u8 = 76;

pub(crate) const TEXT_TEAM: u8 = 77;

// Teams written as text.
pub(crate) const UNWRITABLE: u8 = 78;

// The first test of loading that bytes fail.
pub(crate) fn of_load(fault: LoadFault) -> u8
    ensures value { result ≡ load_code fault }
    ensures some { 1 ≤ result }
{
    match fault {
        LoadFault::Length => 16,
        LoadFault::Version => 17,
        LoadFault::Header => 18,
        LoadFault::Member => 19,
        LoadFault::Active => 20,
        LoadFault::Stat => 21,
        LoadFault::Request => 22,
    }
}

// Why an update was refused.
pub(crate) fn of_refusal(why: Refusal) -> u8
    ensures value { result ≡ refusal_code why }
    ensures low { 24 ≤ result }
    ensures high { result ≤ 26 }
{
    match why {
        Refusal::Over => 24,
        Refusal::NotOffered(Side::One) => 25,
        Refusal::NotOffered(Side::Two) => 26,
    }
}

// Why no outcomes were listed.
pub(crate) fn of_outcomes(why: OutcomesFault) -> u8
    ensures value { result ≡ outcomes_code why }
    ensures some { 1 ≤ result }
    ensures code { IsListCode result }
{
    match why {
        OutcomesFault::Refused(why) => of_refusal(why),
        OutcomesFault::Places => 29,
        OutcomesFault::Table => 30,
        OutcomesFault::Size => DRAWS,
    }
}

// What is wrong with the bytes of a log.
pub(crate) fn of_log(fault: LogFault) -> u8
    ensures value { result ≡ log_code fault }
    ensures low { 32 ≤ result }
    ensures high { result ≤ 34 }
{
    match fault {
        LogFault::UnknownTag => 32,
        LogFault::BadField => 33,
        LogFault::Truncated => 34,
    }
}

// The sentences of each family of codes, from its first code on.

static TEAM_TEXTS: [&str; 15] = [
    "nothing is at fault",
    "the team has no member: it has 1 to 6",
    "the team has more than 6 members",
    "the level is not 1 to 100",
    "a DV is above 15",
    "the member has no move: it has 1 to 4",
    "a move is left out of the engine: Mimic, Metronome, Mirror Move or Transform",
    "Struggle cannot be chosen as a move",
    "a move is there twice",
    "a move has more than 3 PP ups",
    "the species is not 1 to 151",
    "a move is not 1 to 165",
    "the rules are not 0 to 3",
    "the turn limit is not 1 to 9,999",
    "the number of the foe's members is above 6",
];

static LOAD_TEXTS: [&str; 8] = [
    "there are not 384 bytes",
    "the version, byte 0, is not 1, 2 or 3",
    "a field of the header is out of its range",
    "a member is out of its ranges, or stands behind an empty place",
    "an active block is out of its ranges, or does not fit its current move",
    "a current stat is not what stage and penalties make of the member's own",
    "turn, outcome, requests and living members do not fit together",
    "a field of the state is wrong",
];

static UPDATE_TEXTS: [&str; 8] = [
    "the battle is over",
    "the choice of side 1 was not offered",
    "the choice of side 2 was not offered",
    "the room for the log is less than 512 bytes",
    "the log is longer than that of an update, 512 bytes",
    "the array has fewer places than there are outcomes",
    "the table has fewer places than there are outcomes",
    "the update has too many draws to list its outcomes",
];

static LOG_TEXTS: [&str; 5] = [
    "a byte in a tag's place is no tag: these are 1 to 28",
    "a field of an event is out of its range",
    "the bytes end within an event",
    "no event is left: the index is at the end of the log, or past it",
    "no way is left: the walk has ended",
];

static ARGUMENT_TEXTS: [&str; 8] = [
    "the side is neither 1 nor 2",
    "the text does not fit its buffer: 128 bytes hold any",
    "nothing has this number: species are 1 to 151, moves 1 to 165, types 0 to 14",
    "the byte is no choice: these are 0, 16 to 20 and 33 to 38",
    "there is no move in that slot, or no member at that place, or nobody is out",
    "an array is not as long as that of the battles",
    "the index is not 0 to 8",
    "the place is not 1 to 6",
];

static DAMAGE_TEXTS: [&str; 3] = [
    "the move does not have the usual damage: it has no power, or a rule of its own",
    "the defense that counts in this hit is 0, and the damage would be divided by it",
    "nobody is out: the battle is before its first update",
];

static ROOM_TEXTS: [&str; 8] = [
    "the number is not that of the current pair of choices",
    "the side has chosen",
    "the choice is not offered to the side",
    "the host does not let a side take its choice back",
    "the side has made no choice that it could take back",
    "the kind of the row is not 1 to 5",
    "the words say no choice, such as move 1 or switch 2, or name no move or species",
    "the words name two or more of the offered choices",
];

static TEXT_TEXTS: [&str; 15] = [
    "expected: the name of a species of the first generation",
    "expected: no item, because the first generation has none",
    "expected: at most 6 members",
    "expected: a level from 1 to 100",
    "expected: EVs from 0 to 255, such as 252 HP / 4 Atk, or packed as 252,4,,,,",
    "expected: the same EVs for SpA and SpD, because the first generation has one Special",
    "expected: IVs from 0 to 31, such as 14 HP / 0 Atk, or packed as 14,0,,,,",
    "expected: the same IVs for SpA and SpD",
    "expected: the HP IV that follows from the others, or none",
    "expected: the name of a move of the first generation",
    "expected: at most 4 moves",
    "expected: a line of a member, such as Level: 50, EVs: 252 HP, IVs: 0 Atk or - Body Slam",
    "expected: twelve fields with | between them",
    "expected: members that are a team",
    "a move has other than 3 PP ups, and a text has no place for them",
];

static HOST_TEXTS: [&str; 11] = [
    "the number of the current pair leaves no place for the pairs that may still come",
    "the bytes of the last pair are no log",
    "the choice of side 1 is not offered, or is missing though nothing is asked",
    "the choice of side 2 is not offered, or is missing though nothing is asked",
    "both choices are there, and the battle goes on",
    "the teller of side 1 is another's, or its places are out of order",
    "the teller of side 2 is another's, or its places are out of order",
    "the ending is above 3",
    "the side that offers a draw is above 2",
    "an option is above 1",
    "an unused byte, or the forfeit of the room, is not 0",
];

static GUESS_TEXTS: [&str; 5] = [
    "the player is in no battle that has begun and is not over",
    "the guessed team does not have as many members as the foe",
    "a member of the guessed team is not the one that appeared",
    "a member of the guessed team does not know a move that it was seen to use",
    "the maximum HP of a member of the guessed team does not allow the HP that the player was told",
];

/// Writes what a code means, as one sentence with the valid range. Returns 0, or the code of an unknown number, or of a text that is
/// too small; then nothing has changed.
#[unsafe(no_mangle)]
pub extern "C" fn gen1_error_text(code: u8, text: &mut [u8], written: &mut usize) -> u8
    ensures { Writes (sentence_due code) (record { bytes = text.old; count = written.old })
        (record { bytes = text.new; count = written.new }) result }
{
    match sentence_at(code) {
        Some(sentence) => write_text(sentence.as_bytes(), text, written),
        None => UNKNOWN,
    }
}

fn sentence_at(code: u8) -> Option<&'static str>
    ensures { option_map (λ text. text.now) result ≡ sentence_at code }
{
    if code < 16 {
        text_at(&TEAM_TEXTS, code)
    } else if code < 24 {
        text_at(&LOAD_TEXTS, code - 16)
    } else if code < 32 {
        text_at(&UPDATE_TEXTS, code - 24)
    } else if code < 40 {
        text_at(&LOG_TEXTS, code - 32)
    } else if code < 48 {
        text_at(&ARGUMENT_TEXTS, code - 40)
    } else if code < 52 {
        text_at(&DAMAGE_TEXTS, code - 48)
    } else if code < 64 {
        text_at(&ROOM_TEXTS, code - 52)
    } else if code < 80 {
        text_at(&TEXT_TEXTS, code - 64)
    } else if code < 96 {
        text_at(&HOST_TEXTS, code - 80)
    } else {
        text_at(&GUESS_TEXTS, code - 96)
    }
}

// The text at an index of a list.
pub(crate) fn text_at(texts: &'static [&'static str], place: u8) -> Option<&'static str>
    ensures { option_map (λ text. text.now) result ≡ slice_get (map (λ text. text.now) texts.now) place }
{
    texts.get(place as usize).copied()
}
