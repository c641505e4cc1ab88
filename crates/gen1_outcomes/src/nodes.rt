//! The draws of a way, each with the bytes that are still to be tried (docs/MECHANICS.md, "Link numbers").
ghost use Rattle.std.specs.Prelude.{IfNone, IfSome, IsFalse, IsTrue, false, nat_le, slice_index, slice_index_or, true, ℕ, ◌*◌, ◌+◌, ◌<◌, ◌≡◌, ◌≤◌, ◌⊎◌, if◌then◌else◌};
ghost use Rattle.gen1_rolls.specs.declared.rolls.Look.TheVariants.{Below};
ghost use Rattle.gen1_rolls.specs.Streams.{alike, rotated_right_1};
ghost use Rattle.gen1_outcomes.specs.Bytes.{has, size, alike_in, middle_factor};

use crate::alike::alike_to;
use crate::byte_set::ByteSet;
use crate::explorer::DEPTH;
use crate::successor::{OutcomeOptions, is_below};
use gen1_rolls::{ByteTest, Look};

/// A probability: `num` of `whole`.
#[derive(Clone, Copy, PartialEq, Eq, Debug, Drop)]
pub struct Chance {
    /// The numerator.
    pub num: u128,
    /// The denominator.
    pub whole: u128,
    ghost positive: { 0 < whole },
}

/// Which byte is asked for.
#[derive(Clone, Copy, PartialEq, Eq, Debug, Drop)]
pub enum Asked {
    /// A draw: the next one.
    Next,
    /// A search: the first that passes the test.
    First(ByteTest),
    /// That is not known: a walk in a plain struct does not keep it.
    Unknown,
}

/// A draw or a search of a way.
#[derive(Clone, Copy, PartialEq, Eq, Debug, Drop)]
pub struct Node {
    /// The byte that it has on this way.
    pub byte: u8,
    /// What is looked at of the byte.
    pub look: Look,
    /// How many classes of damage are distinguished, 1 to 39. 0: each damage.
    pub damage_classes: u8,
    /// The probability of the draws before it.
    pub above: Chance,
    /// Of the bytes that it may have: those that are alike neither to `byte` nor to one that it had before.
    pub rest: ByteSet,
    /// How many bytes it may have.
    pub total: u16,
    /// How many of them are alike to `byte`.
    pub count: u16,
    ghost few: { count + size rest ≤ total },
}

impl Node {
    ghost use Rattle.gen1_outcomes.specs.declared.byte_set.ByteSet.{ByteSet};
    ghost use Rattle.gen1_outcomes.specs.Nodes.{GoesOn, IsClass, IsDone, IsRun, IsThen, Overflows, Takes, middle_of};

    fn none() -> Self
        ensures { result.count ≡ 0 }
    {
        let rest = ByteSet::none();
        Node {
            byte: 0,
            look: Look::Remainder(1),
            damage_classes: 0,
            above: Chance { num: 1, whole: 1 },
            rest,
            total: rest.count(),
            count: 0,
        }
    }

    /// A draw that may have these bytes, and has this one of them.
    pub fn new(byte: u8, look: Look, damage_classes: u8, above: Chance, may_have: &ByteSet) -> Self
        ensures byte { result.byte ≡ byte }
        ensures look { result.look ≡ look }
        ensures classes { result.damage_classes ≡ damage_classes }
        ensures rest { (x : ℕ) → x < 256
            → has result.rest x ≡ (if alike_in damage_classes look byte x then 0 else has may_have.now x) }
        ensures above { result.above ≡ above }
        ensures total { result.total ≡ size may_have.now }
        ensures count { result.count + size result.rest ≡ size may_have.now }
        ensures weight { (class : ByteSet) → IsClass damage_classes look byte may_have.now class → result.count ≡ size class }
    {
        match look {
            Look::Below(bound) if may_have.is_all() => {
                Node::of_bound(byte, bound, damage_classes, above)
            }
            _ => Node::of(byte, look, damage_classes, above, may_have),
        }
    }

    // A draw of any byte, of which only is looked at whether it is below the bound. Nothing has to be counted.
    fn of_bound(byte: u8, bound: u8, damage_classes: u8, above: Chance) -> Self
        ensures byte { result.byte ≡ byte }
        ensures look { result.look ≡ Below bound }
        ensures classes { result.damage_classes ≡ damage_classes }
        ensures rest { (x : ℕ) → x < 256
            → has result.rest x ≡ (if alike (Below bound) byte x then 0 else 1) }
        ensures above { result.above ≡ above }
        ensures total { result.total ≡ 256 }
        ensures count { result.count + size result.rest ≡ 256 }
    {
        let (rest, count) = other_side(byte, bound);
        Node {
            byte,
            look: Look::Below(bound),
            damage_classes,
            above,
            rest,
            total: 256,
            count,
        }
    }

    fn of(byte: u8, look: Look, damage_classes: u8, above: Chance, may_have: &ByteSet) -> Self
        ensures byte { result.byte ≡ byte }
        ensures look { result.look ≡ look }
        ensures classes { result.damage_classes ≡ damage_classes }
        ensures rest { (x : ℕ) → x < 256
            → has result.rest x ≡ (if alike_in damage_classes look byte x then 0 else has may_have.now x) }
        ensures above { result.above ≡ above }
        ensures total { result.total ≡ size may_have.now }
        ensures count { result.count + size result.rest ≡ size may_have.now }
        ensures weight { (class : ByteSet) → IsClass damage_classes look byte may_have.now class → result.count ≡ size class }
    {
        let mut node = Node {
            byte,
            look,
            damage_classes,
            above,
            rest: *may_have,
            total: may_have.count(),
            count: 0,
        };
        let class = alike_to(damage_classes, look, byte, may_have);
        node.take(byte, &class);
        node
    }

    // Whether it has this byte, of which this is looked at.
    #[inline(always)] // docs/SPEED.md, "Hints on inlining"
    fn is_as(&self, byte: u8, look: Look) -> bool
        ensures byte { IsTrue result → self.now.byte ≡ byte }
        ensures look { IsTrue result → self.now.look ≡ look }
    {
        self.byte == byte && self.look == look
    }

    // Takes the byte, and all of its class, out of the rest.
    fn take(&mut self, byte: u8, class: &ByteSet)
        requires { IsClass self.old.damage_classes self.old.look byte self.old.rest class.now }
        ensures { Takes byte self.old self.new }
    {
        self.rest = self.rest.without(class);
        self.byte = byte;
        self.count = class.count();
    }

    // Goes to a byte of the rest, if there is one.
    fn advance(&mut self) -> bool
        ensures on { IsTrue result → GoesOn self.old self.new }
        ensures done { IsFalse result → IsDone self.old }
        ensures kept { IsFalse result → self.new ≡ self.old }
    {
        match self.rest.first() {
            Some(first) => {
                let class = alike_to(self.damage_classes, self.look, first, &self.rest);
                if self.damage_classes == 0 {
                    self.take(first, &class);
                    return true;
                }
                let byte = self.one_for(first, &class);
                self.take(byte, &self.class_of(byte, first, class));
                true
            }
            None => false,
        }
    }

    // The class of a byte in the rest. It is the other byte's class if the byte is in it.
    fn class_of(&self, byte: u8, first: u8, class: ByteSet) -> ByteSet
        requires { IsClass self.now.damage_classes self.now.look first self.now.rest class }
        ensures { IsClass self.now.damage_classes self.now.look byte self.now.rest result }
    {
        if class.contains(byte) {
            class
        } else {
            alike_to(self.damage_classes, self.look, byte, &self.rest)
        }
    }

    // With classes of damage, the byte of the rest that is played for those that are alike to its first: the middle one of a
    // roll, and else the first.
    fn one_for(&self, first: u8, class: &ByteSet) -> u8
        requires first { has self.now.rest first ≡ 1 }
        requires class { IsClass self.now.damage_classes self.now.look first self.now.rest class.now }
        ensures left { has self.now.rest result ≡ 1 }
        ensures middle { (run : ByteSet) → IsRun self.now first run → result ≡ middle_of first (size run) }
    {
        match self.look {
            Look::Factor { .. } => {
                // The bytes that a roll of damage accepts are odd.
                let middle = first.wrapping_add(
                    class.count().saturating_sub(1).min(38) as u8 / 2 * 2,
                );
                if self.rest.contains(middle) {
                    middle
                } else {
                    first
                }
            }
            _ => first,
        }
    }

    // The probability of the draws up to this one. `None` if 128 bits do not hold it.
    #[tactic(auto, using(crate::proofs::Walking::then_is))]
    fn chance(&self) -> Option<Chance>
        ensures some { IfSome result (λ c. IsThen self.now c) }
        ensures none { IfNone result (Overflows self.now) }
    {
        let (num, whole) = self.part();
        Some(Chance {
            num: self.above.num.checked_mul(num as u128)?,
            whole: self.above.whole.checked_mul(whole as u128)?,
        })
    }

    // The probability of the bytes that are alike to `byte`, without the factors of 2 that both numbers share.
    #[tactic(auto, using(crate::proofs::Walking::part_positive, crate::proofs::Walking::part_exact, crate::proofs::Walking::part_few))]
    fn part(&self) -> (u16, u16)
        ensures positive { 0 < result.1 }
        ensures exact { result.0 * self.now.total ≡ result.1 * self.now.count }
        ensures num { (result.0 ≤ 1) ⊎ (result.0 ≤ self.now.count) }
        ensures whole { (result.1 ≤ 1) ⊎ (result.1 ≤ self.now.total) }
    {
        if self.count >= self.total {
            return (1, 1);
        }
        let twos = (self.count | self.total).trailing_zeros();
        (self.count >> twos, self.total >> twos)
    }
}

// Whether the same byte is asked for.
#[inline(always)] // docs/SPEED.md, "Hints on inlining"
fn ask_alike(one: Asked, other: Asked) -> bool
    ensures { IsTrue result → one ≡ other }
{
    match (one, other) {
        (Asked::Next, Asked::Next) => true,
        (Asked::First(test), Asked::First(before)) => are_same(test, before),
        _ => false,
    }
}

fn are_same(one: ByteTest, other: ByteTest) -> bool
    ensures { IsTrue result → one ≡ other }
{
    match (one, other) {
        (ByteTest::RotatedAtLeast(least), ByteTest::RotatedAtLeast(before)) => least == before,
        (ByteTest::PositiveBelow(bound), ByteTest::PositiveBelow(before)) => bound == before,
        (ByteTest::NotMultiple(divisor), ByteTest::NotMultiple(before)) => divisor == before,
        (ByteTest::PlaceOf(four), ByteTest::PlaceOf(before)) => have_same(four, before),
        _ => false,
    }
}

#[tactic(auto, using(crate::proofs::Paths::four_same))]
fn have_same(one: [bool; 4], other: [bool; 4]) -> bool
    ensures { IsTrue result → one ≡ other }
{
    agree(one, other)
}

fn agree(one: [bool; 4], other: [bool; 4]) -> bool
    ensures first { IsTrue result → slice_index_or one 0 false ≡ slice_index_or other 0 false }
    ensures second { IsTrue result → slice_index_or one 1 false ≡ slice_index_or other 1 false }
    ensures third { IsTrue result → slice_index_or one 2 false ≡ slice_index_or other 2 false }
    ensures fourth { IsTrue result → slice_index_or one 3 false ≡ slice_index_or other 3 false }
{
    one[0] == other[0] && one[1] == other[1] && one[2] == other[2] && one[3] == other[3]
}

// The bytes on the other side of the bound, and how many are on the side of this byte.
fn other_side(byte: u8, bound: u8) -> (ByteSet, u16)
    ensures rest { (x : ℕ) → x < 256
        → has result.0 x ≡ (if alike (Below bound) byte x then 0 else 1) }
    ensures count { result.1 + size result.0 ≡ 256 }
{
    let below = ByteSet::below(bound);
    if byte < bound {
        (ByteSet::all().without(&below), u16::from(bound))
    } else {
        (below, 256 - u16::from(bound))
    }
}

/// The draws and searches of a way, in order.
#[derive(Clone, Copy, PartialEq, Eq, Debug, Drop)]
pub struct Nodes {
    /// The draws, in the first places.
    pub list: [Node; DEPTH],
    /// Which byte each of them asks for.
    pub asked: [Asked; DEPTH],
    /// How many there are.
    pub len: usize,
    /// How many of them this way has had so far.
    pub at: usize,
    /// Whether there were more than there is room for, 128 bits do not hold a probability, a search found nothing, or a way
    /// did not ask what an earlier one asked.
    pub too_large: bool,
    /// The probability of what comes before the first draw.
    pub before: Chance,
    /// How many classes of damage are distinguished, and from which probability on draws are noted.
    pub options: OutcomeOptions,
    ghost few: { len ≤ 24 },
}

impl Nodes {
    ghost use Rattle.gen1_outcomes.specs.Nodes.{AllDone, AreBytes, AreLeft, AreToCome, GoesOnIn, HasAsked, IsChance, IsDone, IsLeftOut, IsTooLarge, LeadsOn, Notes, Passes};

    /// No draw yet, and nothing before it.
    pub fn new(options: OutcomeOptions) -> Self
        ensures options { result.options ≡ options }
        ensures empty { result.len ≡ 0 }
        ensures at { result.at ≡ 0 }
        ensures fits { result.too_large ≡ false }
        ensures before { (result.before.num ≡ 1) × (result.before.whole ≡ 1) }
    {
        Nodes {
            list: [Node::none(); DEPTH],
            asked: [Asked::Unknown; DEPTH],
            len: 0,
            at: 0,
            too_large: false,
            before: Chance { num: 1, whole: 1 },
            options,
        }
    }

    /// Forgets all draws. The next one comes after ways of this probability.
    pub fn clear(&mut self, before: Chance)
        ensures options { self.new.options ≡ self.old.options }
        ensures empty { self.new.len ≡ 0 }
        ensures at { self.new.at ≡ 0 }
        ensures fits { self.new.too_large ≡ false }
        ensures before { self.new.before ≡ before }
    {
        self.len = 0;
        self.at = 0;
        self.too_large = false;
        self.before = before;
    }

    /// Whether the draws so far are a branch that is left out: no further one is noted.
    pub fn is_left_out(&self) -> bool
        ensures { IsTrue result → IsLeftOut self.now }
    {
        if self.options.least == 0 {
            return false;
        }
        match self.chance() {
            Some(chance) => is_below(chance, self.options.least),
            None => false,
        }
    }

    /// Whether the next draw is one that no way had before, and is to be noted.
    pub fn is_new(&self) -> bool
        ensures new { IsTrue result → self.now.len ≤ self.now.at }
        ensures other { IsFalse result → (self.now.at < self.now.len) ⊎ IsLeftOut self.now }
    {
        self.at >= self.len && !self.is_left_out()
    }

    /// Goes past the next draw, if it is one of this way. The way is marked as too large if the draw has another byte, or if
    /// an earlier way asked something else of it.
    #[inline(always)] // docs/SPEED.md, "Hints on inlining"
    pub fn pass(&mut self, byte: u8, asked: Asked, look: Look) -> bool
        ensures passed { IsTrue result → Passes byte asked look self.old self.new }
        ensures new { IsFalse result → self.old.len ≤ self.old.at }
        ensures kept { IsFalse result → self.new ≡ self.old }
    {
        if self.at >= self.len {
            return false;
        }
        if self.has_asked(byte, asked, look) {
            self.at += 1;
            return true;
        }
        self.too_large = true;
        self.at += 1;
        true
    }

    // Whether the next draw has this byte, and an earlier way asked the same of it, as far as that is known.
    #[inline(always)] // docs/SPEED.md, "Hints on inlining"
    fn has_asked(&self, byte: u8, asked: Asked, look: Look) -> bool
        requires { self.now.at < self.now.len }
        ensures { IsTrue result → HasAsked byte asked look self.now }
    {
        if ask_alike(self.asked[self.at], asked) {
            return self.list[self.at].is_as(byte, look);
        }
        self.asked[self.at] == Asked::Unknown
    }

    /// Whether the way had all its draws.
    pub fn is_past(&self) -> bool
        ensures { IsTrue result → self.now.len ≤ self.now.at }
    {
        self.at >= self.len
    }

    /// A search found nothing: the way is marked as too large. No known update has one.
    pub fn miss(&mut self)
        ensures { self.new ≡ record self.old { too_large = true } }
    {
        self.too_large = true;
    }

    /// Notes that a draw that no way had before has this byte, of those that it may have.
    pub fn note(&mut self, byte: u8, asked: Asked, look: Look, may_have: &ByteSet)
        ensures { self.old.len ≤ self.old.at → Notes byte asked look may_have.now self.old self.new }
    {
        if !self.is_left_out() {
            match self.chance() {
                Some(above) if self.len < DEPTH => {
                    self.list[self.len] = Node::new(
                        byte,
                        look,
                        self.options.damage_classes,
                        above,
                        may_have,
                    );
                    self.asked[self.len] = asked;
                    self.len += 1;
                    self.at = self.len;
                }
                _ => self.too_large = true,
            }
        }
    }

    /// Goes to the next way: the last draw that may have another byte has it, and those after it are dropped. Returns
    /// whether there is such a draw. Bytes that are left are on the next way, or left for a later one.
    pub fn advance(&mut self) -> bool
        ensures on { IsTrue result → LeadsOn self.old self.new }
        ensures done { IsFalse result → AllDone self.old }
        ensures left { IsTrue result → (bytes : ℕ → ℕ) → AreBytes bytes → AreLeft self.old bytes
            → AreToCome self.new bytes }
        ensures options { self.new.options ≡ self.old.options }
    {
        self.at = 0;
        'places: for _ in 0..DEPTH {
            if self.len == 0 {
                return false;
            }
            if Nodes::advance_in(&mut self.list, self.len - 1) {
                return true;
            }
            self.len -= 1;
        }
        false
    }

    // Goes to a byte of the rest of the draw at a place, if there is one.
    fn advance_in(list: &mut [Node; DEPTH], place: usize) -> bool
        requires { place < 24 }
        ensures on { IsTrue result → GoesOnIn place list.old list.new }
        ensures done { IsFalse result → (none : Node) → IsDone (slice_index_or list.old place none) }
        ensures kept { IsFalse result → list.new ≡ list.old }
    {
        list[place].advance()
    }

    /// The bytes of the way. The places after them have those of draws that are not known yet.
    pub fn path(&self) -> [u8; DEPTH]
        ensures { (k : ℕ) → (none : Node) → k < self.now.len
            → slice_index result k ≡ (slice_index_or self.now.list k none).byte }
    {
        let mut path = unknown_path(self.options.damage_classes);
        'places: for place in 0..self.len {
            path[place] = self.list[place].byte;
        }
        path
    }

    /// The probability of the way, with what comes before it. `None` if it has too many draws, or if 128 bits do not hold it.
    pub fn chance(&self) -> Option<Chance>
        ensures some { IfSome result (λ c. IsChance self.now c) }
        ensures fits { IfSome result (λ _. self.now.too_large ≡ false) }
        ensures none { IfNone result (IsTooLarge self.now) }
    {
        if self.too_large {
            None
        } else if self.len == 0 {
            Some(self.before)
        } else {
            self.list[self.len - 1].chance()
        }
    }
}

/// The bytes of a way of which no draw is known yet.
pub fn unknown_path(damage_classes: u8) -> [u8; DEPTH]
    ensures { rotated_right_1 (slice_index result 0) ≡ middle_factor damage_classes }
{
    not_known(middle_of_last(damage_classes))
}

// The bytes of draws that are not known yet: the one that a roll of damage is to have. A search that does not accept it
// finds one of the small numbers near the end, and a roll of damage after it still finds its byte.
fn not_known(damage: u8) -> [u8; DEPTH]
    ensures { slice_index result 0 ≡ damage }
{
    let mut path = [damage; DEPTH];
    path[12] = 0;
    path[14] = 1;
    path[16] = 2;
    path[18] = 3;
    path[20] = 4;
    path[22] = 5;
    path
}

// The byte whose factor is the middle one of the last class of damage. Without classes it is 255, whose factor is the
// last. Bytes of two neighbouring factors are 2 apart.
fn middle_of_last(damage_classes: u8) -> u8
    ensures { rotated_right_1 result ≡ middle_factor damage_classes }
{
    if damage_classes == 0 {
        255
    } else {
        255 - 39 / damage_classes / 2 * 2
    }
}
