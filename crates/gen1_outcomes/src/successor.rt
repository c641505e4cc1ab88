//! What is listed of an update: a battle with its weight, and sums of probabilities. How outcomes are listed, and why
//! they are not (docs/MECHANICS.md, "Link numbers").
ghost use Rattle.std.specs.Prelude.{IfNone, IfSome, IsFalse, IsTrue, Some, ◌%◌, ◌/◌, ◌≡◌};
ghost use Rattle.gen1_outcomes.specs.Listing.{fault_number, fault_words, weight_of};
ghost use Rattle.gen1_outcomes.specs.Chances.{IsAtLeast, IsBelow, IsSum, IsTooFine};

use crate::merging::common_divisor;
use crate::nodes::Chance;
use gen1_engine::Refusal;
use gen1_layout::Packed;
use std::error::Error;
use std::fmt;

/// A battle that an update leads to, with its weight.
#[derive(Drop)]
#[repr(C)]
pub struct Successor {
    /// The battle after the update. The index and the numbers of its header are those from before.
    pub battle: Packed,
    /// The low 64 bits of the weight.
    pub low: u64,
    /// The high 64 bits of the weight.
    pub high: u64,
}

impl Successor {
    /// A battle with a weight.
    pub fn new(battle: Packed, weight: u128) -> Self
        ensures battle { result.battle ≡ battle }
        ensures weight { weight_of result ≡ weight }
    {
        Successor {
            battle,
            low: low(weight),
            high: high(weight),
        }
    }

    /// The weight: the probability of the battle is this number over the `whole` of its list.
    pub fn weight(&self) -> u128
        ensures { result ≡ weight_of self.now }
    {
        self.high as u128 * 0x1_0000_0000_0000_0000 + self.low as u128
    }

    /// Writes the weight.
    pub fn put_weight(&mut self, weight: u128)
        ensures battle { self.new.battle ≡ self.old.battle }
        ensures weight { weight_of self.new ≡ weight }
    {
        self.low = low(weight);
        self.high = high(weight);
    }
}

fn low(weight: u128) -> u64
    ensures { result ≡ weight % 18446744073709551616 }
{
    (weight % 0x1_0000_0000_0000_0000) as u64
}

fn high(weight: u128) -> u64
    ensures { result ≡ weight / 18446744073709551616 }
{
    (weight / 0x1_0000_0000_0000_0000) as u64
}

/// The probability that one or the other happens, of two that exclude each other. `None` if 128 bits do not hold it.
pub fn plus(one: Chance, other: Chance) -> Option<Chance>
    ensures sum { IfSome result (λ c. IsSum one other c) }
    ensures none { IfNone result (IsTooFine one other) }
{
    let divisor = common_divisor(one.whole, other.whole);
    let more = other.whole / divisor;
    let others = one.whole / divisor;
    let whole = one.whole.checked_mul(more)?;
    // It is a multiple of both.
    if whole == 0 || other.whole.checked_mul(others)? != whole {
        return None;
    }
    let num = one
        .num
        .checked_mul(more)?
        .checked_add(other.num.checked_mul(others)?)?;
    Some(Chance { num, whole })
}

/// Whether a probability is below `least` / 2^32.
pub fn is_below(chance: Chance, least: u32) -> bool
    ensures below { IsTrue result → IsBelow least chance }
    ensures kept { IsFalse result → IsAtLeast least chance }
{
    if least == 0 {
        return false;
    }
    let high = chance.whole / 0x1_0000_0000;
    let low = chance.whole % 0x1_0000_0000;
    // The least numerator that is not below, in parts that 128 bits hold.
    let bound = least as u128 * high + (least as u128 * low + 0xffff_ffff) / 0x1_0000_0000;
    chance.num < bound
}

/// How outcomes are listed.
#[derive(Clone, Copy, PartialEq, Eq, Debug, Drop)]
pub struct OutcomeOptions {
    /// How many classes of a damage roll are distinguished, 1 to 39. 0: each damage.
    ///
    /// A class has neighbouring damages, and one of them near its middle is played for all. All damages from the HP of the
    /// target on are one class more. No class has damages that break a substitute and damages that don't.
    pub damage_classes: u8,
    /// A branch of the draws is left out as soon as its probability is below `least` / 2^32. 0: none is.
    pub least: u32,
}

/// Why outcomes are not listed.
#[derive(Clone, Copy, Debug, PartialEq, Eq, Drop)]
pub enum OutcomesFault {
    /// The pair of choices is refused.
    Refused(Refusal),
    /// There are more outcomes than places for them.
    Places,
    /// There are more outcomes than places in the table.
    Table,
    /// A way has more draws than there is room for or asks otherwise than an earlier one, or 128 bits do not hold the weights. No
    /// known update has.
    Size,
}

impl OutcomesFault {
    /// Returns the number of the fault: 1 the battle is over, 2 and 3 the choice of side 1 or 2 is not offered, 4 too few places for
    /// outcomes, 5 too few in the table, 6 the update is too large.
    pub fn number(self) -> u8
        ensures { result ≡ fault_number self }
    {
        match self {
            OutcomesFault::Refused(why) => why.number(),
            OutcomesFault::Places => 4,
            OutcomesFault::Table => 5,
            OutcomesFault::Size => 6,
        }
    }
}

impl fmt::Display for OutcomesFault {
    ghost output = { λ fault. Some (fault_words fault) };

    fn fmt<W: fmt::Write>(&self, f: &mut fmt::Formatter<W>) -> fmt::Result {
        match self {
            OutcomesFault::Refused(why) => write!(f, "{why}"),
            OutcomesFault::Places => write!(f, "there are more outcomes than places for them"),
            OutcomesFault::Table => write!(f, "there are more outcomes than places in the table"),
            OutcomesFault::Size => write!(f, "the update has too many draws to go through"),
        }
    }
}

impl Error for OutcomesFault {}
