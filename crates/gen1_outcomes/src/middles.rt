//! Positions between the two actions of a turn. Positions that agree are merged (docs/MECHANICS.md, "Link numbers").
ghost use Rattle.std.specs.Prelude.{IfErr, IfNone, IfOk, IfSome, IsFalse, IsOkUnless, IsTrue, None, OnErr, OnOk, false, slice_index, slice_index_or, ℕ, ◌+◌, ◌-◌, ◌<◌, ◌≡◌, ◌≢◌, ◌≤◌, ◌⊎◌};
ghost use Rattle.gen1_layout.specs.Parts.{joined, parts_of};
ghost use Rattle.gen1_outcomes.specs.declared.successor.OutcomesFault.TheVariants.{Size};

use crate::beginning::{Left, Rest};
use crate::explorer::DEPTH;
use crate::merging::hash;
use crate::nodes::{Chance, Nodes};
use crate::successor::{OutcomesFault, plus};
use gen1_layout::Packed;

/// How many positions are kept at once.
pub const MIDDLES: usize = 32;

/// A position of a turn before its second action, or before the roll of that action's damage; or the beginning of an update that is played
/// in one part.
#[derive(Clone, Copy, PartialEq, Eq, Debug, Drop)]
pub struct Middle {
    /// The bytes of the battle. At the beginning they are not kept.
    pub bytes: [u8; 384],
    /// What else the rest of the update depends on. `None` at the beginning.
    pub rest: Option<Left>,
    /// A number that is equal for equal bytes, or 0 where positions are not compared.
    pub hash: u64,
    /// How many draws one way has that leads there.
    pub draws: usize,
    /// The probability of all ways that lead there.
    pub chance: Chance,
    /// How many ways lead there.
    pub ways: u32,
    ghost few: { draws ≤ 24 },
    ghost some: { 1 ≤ ways },
}

impl Middle {
    ghost use Rattle.gen1_outcomes.specs.Middles.{Gets, GoOnAlike, IsTooLong, IsTooMuch};
    ghost use Rattle.gen1_outcomes.specs.Nodes.{IsChance};
    ghost use Rattle.std.specs.Prelude.{None, Some};

    /// Where one way leads, which has these draws.
    pub fn new(battle: &Packed, rest: Left, nodes: &Nodes, chance: Chance) -> Self
        ensures bytes { result.bytes ≡ joined battle.now }
        ensures rest { result.rest ≡ Some rest }
        ensures draws { result.draws ≡ nodes.now.len }
        ensures chance { result.chance ≡ chance }
        ensures one { result.ways ≡ 1 }
    {
        let mut bytes = [0; 384];
        bytes.copy_from_slice(battle.as_bytes());
        Middle {
            bytes,
            rest: Some(rest),
            hash: hash(battle),
            draws: nodes.len,
            chance,
            ways: 1,
        }
    }

    /// Where one way leads from this position, which has these draws more.
    pub fn then(&self, battle: &Packed, rest: Left, nodes: &Nodes, chance: Chance) -> Self
        requires few { self.now.draws + nodes.now.len ≤ 24 }
        ensures bytes { result.bytes ≡ joined battle.now }
        ensures rest { result.rest ≡ Some rest }
        ensures draws { result.draws ≡ self.now.draws + nodes.now.len }
        ensures chance { result.chance ≡ chance }
        ensures ways { result.ways ≡ self.now.ways }
    {
        let mut bytes = [0; 384];
        bytes.copy_from_slice(battle.as_bytes());
        Middle {
            bytes,
            rest: Some(rest),
            hash: 0,
            draws: self.draws + nodes.len,
            chance,
            ways: self.ways,
        }
    }

    /// The beginning of an update.
    pub fn beginning() -> Self
        ensures rest { result.rest ≡ None }
        ensures draws { result.draws ≡ 0 }
        ensures one { result.ways ≡ 1 }
        ensures certain { result.chance.num ≡ result.chance.whole }
    {
        Middle {
            bytes: [0; 384],
            rest: None,
            hash: 0,
            draws: 0,
            chance: Chance { num: 1, whole: 1 },
            ways: 1,
        }
    }

    /// Writes the battle of this position.
    pub fn write_to(&self, battle: &mut Packed)
        ensures { battle.new ≡ parts_of self.now.bytes }
    {
        battle.header_mut().copy_from_slice(&self.bytes[..24]);
        battle.sides_mut().copy_from_slice(&self.bytes[24..]);
    }

    /// The probability of the ways that lead there and then have these draws, which were noted with that of `self` before them.
    ///
    /// # Errors
    ///
    /// `Size`, if a way has too many draws, or if 128 bits do not hold it.
    pub fn chance_with(&self, nodes: &Nodes) -> Result<Chance, OutcomesFault>
        ensures few { IfOk result (λ _. self.now.draws + nodes.now.len ≤ 24) }
        ensures chance { IfOk result (λ c. IsChance nodes.now c) }
        ensures fits { IfOk result (λ _. nodes.now.too_large ≡ false) }
        ensures size { IsOkUnless result Size }
        ensures large { IfErr result (λ _. IsTooLong self.now nodes.now) }
    {
        if self.draws + nodes.len > DEPTH {
            return Err(OutcomesFault::Size);
        }
        match nodes.chance() {
            Some(chance) => Ok(chance),
            None => Err(OutcomesFault::Size),
        }
    }

    // Whether both positions agree.
    fn goes_on_as(&self, other: &Middle) -> bool
        ensures same { IsTrue result → GoOnAlike self.now other.now }
        ensures differ { IsFalse result → GoOnAlike self.now other.now
            → (self.now.hash ≢ other.now.hash) ⊎ (self.now.rest ≡ None) }
    {
        self.hash == other.hash
            && are_same(self.rest, other.rest)
            && self.bytes[..] == other.bytes[..]
    }

    // Adds the ways of another position.
    fn get(&mut self, other: &Middle) -> Result<(), OutcomesFault>
        ensures gets { OnOk result (Gets other.now self.old self.new) }
        ensures size { IsOkUnless result Size }
        ensures large { OnErr result (IsTooMuch other.now self.old) }
    {
        match plus(self.chance, other.chance) {
            Some(chance) => match self.ways.checked_add(other.ways) {
                Some(ways) => {
                    self.chance = chance;
                    self.ways = ways;
                    Ok(())
                }
                None => Err(OutcomesFault::Size),
            },
            None => Err(OutcomesFault::Size),
        }
    }
}

// Whether both are those of positions, and the same.
fn are_same(one: Option<Left>, other: Option<Left>) -> bool
    ensures same { IsTrue result → one ≡ other }
    ensures differ { IsFalse result → (one ≡ None) ⊎ (one ≢ other) }
{
    match (one, other) {
        (Some(Left::Second(rest)), Some(Left::Second(others))) => are_equal(rest, others),
        (Some(Left::Roll(side, roll)), Some(Left::Roll(another, others))) => {
            side == another && roll == others
        }
        _ => false,
    }
}

fn are_equal(rest: Rest, others: Rest) -> bool
    ensures same { IsTrue result → rest ≡ others }
    ensures differ { IsFalse result → rest ≢ others }
{
    rest.second == others.second
        && rest.pick == others.pick
        && rest.skips == others.skips
        && rest.is_cut == others.is_cut
}

/// A list of positions.
#[derive(Clone, Copy, PartialEq, Eq, Debug, Drop)]
pub struct Middles {
    /// The positions, in the first places.
    pub list: [Middle; MIDDLES],
    /// How many there are.
    pub len: usize,
    ghost few: { len ≤ 32 },
}

impl Middles {
    ghost use Rattle.gen1_outcomes.specs.Middles.{GoOnAlike, HasNone, HasTooMuch, IsAdded, IsPut, IsTooMuch, Joins};

    /// None yet.
    pub fn new() -> Self
        ensures { result.len ≡ 0 }
    {
        Middles {
            list: [Middle::beginning(); MIDDLES],
            len: 0,
        }
    }

    /// Whether there is no place left.
    pub fn is_full(&self) -> bool
        ensures room { IsFalse result → self.now.len < 32 }
        ensures full { IsTrue result → 32 ≤ self.now.len }
    {
        self.len >= MIDDLES
    }

    /// Removes all positions.
    pub fn clear(&mut self)
        ensures { self.new.len ≡ 0 }
    {
        self.len = 0;
    }

    /// Adds a position. It is merged with one that agrees with it, or put into the next place.
    ///
    /// # Errors
    ///
    /// `Size`, if 128 bits do not hold a sum of two probabilities, or 32 bits a number of ways.
    pub fn add(&mut self, middle: &Middle) -> Result<(), OutcomesFault>
        requires room { self.old.len < 32 }
        ensures added { OnOk result (IsAdded middle.now self.old self.new) }
        ensures next { OnOk result ((self.new.len ≡ self.old.len)
            ⊎ HasNone middle.now self.old.len self.old.list) }
        ensures size { IsOkUnless result Size }
        ensures large { OnErr result (HasTooMuch middle.now self.old.len self.old.list) }
    {
        match self.find(middle) {
            Some(place) => self.join(place, middle),
            None => {
                self.put(middle);
                Ok(())
            }
        }
    }

    // Merges a position with the one in a place.
    fn join(&mut self, place: usize, middle: &Middle) -> Result<(), OutcomesFault>
        requires within { place < self.old.len }
        requires alike { (past : Middle)
            → GoOnAlike (slice_index_or self.old.list place past) middle.now }
        ensures joined { OnOk result (Joins middle.now self.old self.new) }
        ensures size { IsOkUnless result Size }
        ensures large { (past : Middle) → OnErr result
            (IsTooMuch middle.now (slice_index_or self.old.list place past)) }
    {
        let mut joined = self.list[place];
        joined.get(middle)?;
        self.list[place] = joined;
        Ok(())
    }

    // Puts a position into the next place.
    fn put(&mut self, middle: &Middle)
        requires { self.old.len < 32 }
        ensures { IsPut middle.now self.old self.new }
    {
        self.list[self.len] = *middle;
        self.len += 1;
    }

    // The place of a position that agrees, if there is one.
    fn find(&self, middle: &Middle) -> Option<usize>
        ensures within { IfSome result (λ place. place < self.now.len) }
        ensures alike { IfSome result (λ place. (past : Middle)
            → GoOnAlike (slice_index_or self.now.list place past) middle.now) }
        ensures none { IfNone result (HasNone middle.now self.now.len self.now.list) }
    {
        'places: for place in 0..self.len {
            if self.list[place].goes_on_as(middle) {
                return Some(place);
            }
        }
        None
    }
}
