//! Why a text is not a team (docs/TEAM_TEXT.md, "Faults").
ghost use Rattle.std.specs.Prelude.{Some, ◌≡◌};
ghost use Rattle.gen1_text.specs.Faults.{member_words, packed_words, text_words};

use gen1_stats::TeamRefusal;
use std::error::Error;
use std::fmt;

/// What is wrong with a line of a member, or a field of it.
#[derive(Clone, Copy, Debug, PartialEq, Eq)]
pub enum MemberFault {
    /// No species of the first generation has the name.
    Species,
    /// The member has an item.
    Item,
    /// It is the seventh member.
    SeventhMember,
    /// The level is not a whole number from 1 to 100.
    Level,
    /// The EVs are not written as they should be.
    Evs,
    /// SpA and SpD have different EVs.
    SpecialEvs,
    /// The IVs are not written as they should be.
    Ivs,
    /// SpA and SpD have different DVs.
    SpecialIvs,
    /// The IV of HP is not the one that follows from the others.
    HpIv,
    /// No move of the first generation has the name.
    Move,
    /// It is the member's fifth move.
    FifthMove,
    /// The line is not one that a member has.
    UnknownLine,
}

impl MemberFault {
    // What is expected, in words.
    fn words(self) -> &'static str
        ensures { result.now ≡ member_words self }
    {
        match self {
            MemberFault::Species => "expected the name of a species of the first generation",
            MemberFault::Item => "expected no item: the first generation has none",
            MemberFault::SeventhMember => "expected at most six members",
            MemberFault::Level => "expected a level from 1 to 100",
            MemberFault::Evs =>
                "expected EVs from 0 to 255, as `252 HP / 4 Atk`, or packed as `252,4,,,,`",
            MemberFault::SpecialEvs =>
                "expected the same EVs for SpA and SpD: the first generation has one Special",
            MemberFault::Ivs =>
                "expected IVs from 0 to 31, as `14 HP / 0 Atk`, or packed as `14,0,,,,`",
            MemberFault::SpecialIvs =>
                "expected the same IVs for SpA and SpD: the first generation has one Special",
            MemberFault::HpIv => "expected the HP IV that follows from the others, or none",
            MemberFault::Move => "expected the name of a move of the first generation",
            MemberFault::FifthMove => "expected at most four moves",
            MemberFault::UnknownLine => {
                "expected a line of a member, as `Level: 50`, `EVs: 252 HP`, `IVs: 0 Atk` or `- Body Slam`"
            }
        }
    }
}

impl fmt::Display for MemberFault {
    ghost output = { λ fault. Some (member_words fault) };

    fn fmt<W: fmt::Write>(&self, f: &mut fmt::Formatter<W>) -> fmt::Result {
        let words = self.words();
        write!(f, "{words}")
    }
}

impl Error for MemberFault {}

/// Why a text is not a team.
#[derive(Clone, Copy, Debug, PartialEq, Eq)]
pub enum TextFault {
    /// A line of the text has an error; lines are counted from 1.
    Line { line: usize, fault: MemberFault },
    /// Each line can be read, but the members are not a team.
    Team(TeamRefusal),
}

impl fmt::Display for TextFault {
    ghost output = { λ fault. Some (text_words fault) };

    fn fmt<W: fmt::Write>(&self, f: &mut fmt::Formatter<W>) -> fmt::Result {
        match self {
            TextFault::Line { line, fault } => write!(f, "line {line}: {fault}"),
            TextFault::Team(refusal) => write!(f, "{refusal}"),
        }
    }
}

impl Error for TextFault {}

/// Why a packed line is not a team. Members and fields are counted from 1.
#[derive(Clone, Copy, Debug, PartialEq, Eq)]
pub enum PackedFault {
    /// The member does not have twelve fields.
    Fields {
        member: usize,
    },
    /// A field of the member has an error.
    Field {
        member: usize,
        field: usize,
        fault: MemberFault,
    },
    /// There is a seventh member.
    SeventhMember,
    /// Each field can be read, but the members are not a team.
    Team(TeamRefusal),
}

impl fmt::Display for PackedFault {
    ghost output = { λ fault. Some (packed_words fault) };

    fn fmt<W: fmt::Write>(&self, f: &mut fmt::Formatter<W>) -> fmt::Result {
        match self {
            PackedFault::Fields { member } => {
                write!(
                    f,
                    "member {member}: expected twelve fields with `|` between them"
                )
            }
            PackedFault::Field {
                member,
                field,
                fault,
            } => { write!(f, "member {member}, field {field}: {fault}") }
            PackedFault::SeventhMember => write!(f, "expected at most six members"),
            PackedFault::Team(refusal) => write!(f, "{refusal}"),
        }
    }
}

impl Error for PackedFault {}
