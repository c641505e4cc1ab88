//! The members of a side that may come out (docs/MECHANICS.md, "Offered choices"), kept from update to update, so that
//! masks needn't read the HP of all six (docs/SPEED.md, "What a side may choose").
ghost use Rattle.std.specs.Prelude.{Bool, IfSome, List, length, max, slice_set, ◌*◌, ◌+◌, ◌-◌, ◌<◌, ◌≡◌, ◌≤◌};
ghost use Rattle.gen1_layout.specs.Words.{Field, Reads, ReadsPacked, Setting, Within, active_in, is_living, member_at, party};
ghost use Rattle.gen1_layout.specs.Shows.{Stands};
ghost use Rattle.gen1_machine.specs.Layout.{number_of_bits};
ghost use Rattle.gen1_machine.specs.Rules.{bit_of};
ghost use Rattle.gen1_machine.specs.State.{State};
ghost use Rattle.gen1_offers.specs.OfferedChoices.{Follows, IsBench, IsInRange, living_of, offered_mask, passing};

use crate::masks::mask;
use gen1_layout::Packed;
use gen1_machine::{Choice, Side};

/// The members of a side that live and are not out. A caller that makes a mask for each update keeps them, and lets them follow each
/// update.
#[derive(Clone, Copy, Drop)]
pub struct Bench {
    /// The side.
    pub side: Side,
    /// The place of the member that is out, 1 to 6. Before the first update it is 1, since that member comes out first.
    pub out: u8,
    /// For each place, whether a member is there that lives and is not out, as six binary digits from the lowest one.
    pub digits: u32,
}

impl Bench {
    /// Reads the bench of a side from the bytes.
    pub fn new(battle: &Packed, side: Side) -> Bench
        ensures side { result.side ≡ side }
        ensures range { IsInRange result }
        ensures stands { (s : State) → Stands battle.now s → IsBench side s.field result }
    {
        beside(battle, side, first_out(battle, side))
    }

    /// What the side may choose, as [`offered_mask`](crate::offered_mask) returns it.
    #[inline(always)] // docs/SPEED.md, "Hints on inlining"
    pub fn offered_mask(&self, battle: &Packed) -> u16
        requires range { IsInRange self.now }
        ensures stands { (s : State) → Stands battle.now s → IsBench self.now.side s.field self.now
            → result ≡ offered_mask s self.now.side }
        ensures twelve { result < 4096 }
    {
        mask(battle, self.side, Some(*self)) as u16
    }

    /// Follows an update, after it, in which the side made this choice.
    #[inline(always)] // docs/SPEED.md, "Hints on inlining"
    pub fn follow(&mut self, battle: &Packed, choice: &Choice)
        requires range { IsInRange self.old }
        ensures side { self.new.side ≡ self.old.side }
        ensures range { IsInRange self.new }
        ensures stands { (old : Field) (s : State) → Stands battle.now s
            → IsBench self.old.side old self.old
            → Follows choice.now (party self.old.side old) (party self.old.side s.field)
            → IsBench self.old.side s.field self.new }
    {
        match choice {
            Choice::Switch(_) => self.digits_follow(battle),
            _ => {}
        }
    }

    // Only the member that was out can have changed besides the one that is.
    #[inline(always)]
    fn digits_follow(&mut self, battle: &Packed)
        requires range { IsInRange self.old }
        ensures side { self.new.side ≡ self.old.side }
        ensures range { IsInRange self.new }
        ensures out { Reads battle.now self.new.out λ f. (active_in self.old.side f).place }
        ensures digits { (g : Setting) (f : Field) → Within g battle.now f → (bs : List Bool) → length bs ≡ 6
            → self.old.digits ≡ number_of_bits (passing 1 self.old.out bs)
            → self.new.digits ≡ number_of_bits (passing 1 self.new.out
            (slice_set bs (self.old.out - 1) (is_living (member_at self.old.out (party self.old.side f))))) }
    {
        let back = u32::from(lives(battle, self.side, self.out)) << (self.out as u32 - 1);
        let out = battle.place(self.side);
        self.digits = without(self.digits + back, out) % 64;
        self.out = out;
    }
}

// The bench that is known, or as the bytes say.
#[inline(always)]
pub(crate) fn bench_or(battle: &Packed, side: Side, known: Option<Bench>) -> Bench
    requires { IfSome known (λ b. IsInRange b) }
    ensures range { IsInRange result }
    ensures stands { (g : Setting) (f : Field) → Within g battle.now f
        → IfSome known (λ b. IsBench side f b) → IsBench side f result }
{
    match known {
        Some(bench) => bench,
        None => beside(battle, side, battle.place(side)),
    }
}

// The place of the member that is out, or that comes out first.
fn first_out(battle: &Packed, side: Side) -> u8
    ensures low { 1 ≤ result }
    ensures high { result ≤ 6 }
    ensures stands { (s : State) → Stands battle.now s → result ≡ max 1 (active_in side s.field).place }
{
    if battle.turn() == 0 {
        1
    } else {
        battle.place(side)
    }
}

// The living members beside the one at a place.
#[inline(always)]
fn beside(battle: &Packed, side: Side, out: u8) -> Bench
    requires low { 1 ≤ out }
    requires high { out ≤ 6 }
    ensures side { result.side ≡ side }
    ensures out { result.out ≡ out }
    ensures range { IsInRange result }
    ensures digits { ReadsPacked battle.now result.digits λ f. number_of_bits (passing 1 out (living_of side f)) }
{
    Bench {
        side,
        out,
        digits: without(living(battle, side), out),
    }
}

// The digits, without that of a place.
#[inline(always)]
#[tactic(auto, using(crate::proofs::MaskDigits::place_out))]
fn without(digits: u32, place: u8) -> u32
    requires low { 1 ≤ place }
    requires high { place ≤ 6 }
    ensures digits { (bs : List Bool) → length bs ≡ 6 → digits ≡ number_of_bits bs
        → result ≡ number_of_bits (passing 1 place bs) }
    ensures fewer { result ≤ digits }
{
    digits & !(1_u32 << (place as u32 - 1))
}

// For each member, whether it lives.
#[inline(always)]
fn living(battle: &Packed, side: Side) -> u32
    ensures packs { ReadsPacked battle.now result λ f. number_of_bits (living_of side f) }
    ensures six { result < 64 }
{
    let six = digit(lives(battle, side, 6), 0);
    let five = digit(lives(battle, side, 5), six);
    let four = digit(lives(battle, side, 4), five);
    let three = digit(lives(battle, side, 3), four);
    let two = digit(lives(battle, side, 2), three);
    digit(lives(battle, side, 1), two)
}

#[inline(always)]
pub(crate) fn lives(battle: &Packed, side: Side, place: u8) -> bool
    requires low { 1 ≤ place }
    requires high { place ≤ 6 }
    ensures stands { Reads battle.now result λ f. is_living (member_at place (party side f)) }
    ensures packs { ReadsPacked battle.now result λ f. is_living (member_at place (party side f)) }
{
    battle.hp_at(side, place) > 0
}

// Appends a digit below others.
#[inline(always)]
fn digit(holds: bool, above: u32) -> u32
    requires few { above < 32768 }
    ensures value { result ≡ bit_of holds + 2 * above }
    ensures bound { result ≤ 2 * above + 1 }
{
    2 * above + u32::from(holds)
}
