//! A packed battle, and the parts that can be borrowed from it (docs/LAYOUT.md, "The 384 bytes of a battle").
ghost use Rattle.std.specs.Prelude.{◌+◌, ◌-◌, ◌≡◌, ◌≤◌};
ghost use Rattle.gen1_layout.specs.Words.{Field, Packs, Reads, ReadsPacked, Setting, active_in, length, member_at, member_in, other, party};
ghost use Rattle.std.specs.Borrow.{sem};
ghost use Rattle.gen1_machine.specs.State.{State};
ghost use Rattle.gen1_machine.specs.Layout.{active_block, bytes_of, header_block, member_block};
ghost use Rattle.gen1_layout.specs.Shows.{blocks_of, state_in};
ghost use Rattle.gen1_layout.specs.Parts.{active_of, bytes_of_side, bytes_of_sides, in_order, joined, member_at as member_starts, member_of, out_at, part, parts_of, side_at, side_of};
ghost use Rattle.gen1_layout.specs.Lending.{LendsActive, LendsBothSides, LendsHeader, LendsInTwo, LendsMember, LendsOut, LendsPart, LendsSide, LendsSides};

use crate::offsets::PLACE;
use gen1_machine::Side;
use std::alloc::AllocError;
use std::marker::Model;

/// A battle in 384 bytes, in version 3 of the layout (docs/LAYOUT.md).
///
/// For contracts its value is its parts (`specs/Parts.antt`): the header, and for each side six members and an active
/// block.
#[derive(Drop)]
#[repr(C)]
pub struct Packed([u8; 384]);

impl Model for Packed {
    ghost use Rattle.std.specs.Prelude.{◌≡◌, length};
    ghost use Rattle.std.proofs.Common.{ap};
    ghost use Rattle.gen1_layout.specs.Parts.{joined-parts, Parts, joined, parts_of};

    ghost Value = { Parts };

    ghost view = { λ p. parts_of p.0 };

    ghost invariant = { λ p. length p.0 ≡ 384 };

    ghost inverse = { λ parts. record { 0 = joined parts } };

    // A battle can be passed in from C, which has to provide 384 bytes.
    ghost inverse_ok = { λ p long. ap (λ bytes. record { 0 = bytes }) (joined-parts p.0 long) };
}

impl Clone for Packed {
    ghost use Rattle.std.specs.Prelude.{◌≡◌, ⊤};

    ghost is_clone = { λ p q. q ≡ p };

    ghost is_infallible = { λ _. ⊤ };

    /// A copy of the 384 bytes.
    fn clone(&self) -> Result<Packed, AllocError> {
        Ok(Packed(self.0))
    }
}

/// A copy of a battle. Nothing is allocated, so unlike `clone` it does not return a `Result`.
pub fn copy_of(battle: &Packed) -> Packed
    ensures { result ≡ battle.now }
{
    Packed(battle.0)
}

impl Packed {
    pub(crate) fn of_bytes(bytes: [u8; 384]) -> Packed
        ensures { result ≡ parts_of bytes }
    {
        Packed(bytes)
    }

    // The bytes from one offset up to another, for writing.
    fn part_mut(&mut self, from: usize, end: usize) -> &mut [u8]
        requires order { from ≤ end }
        requires within { end ≤ 384 }
        ensures* writes_back { sem 𝓛 (LendsPart from end self.entry result) }
        ensures value { (result.now ≡ part from (end - from) (joined self.old))
            × (length result.now ≡ end - from)
            × (length (joined self.old) ≡ 384)
            × (parts_of (joined self.old) ≡ self.old) }
    {
        &mut self.0[from..end]
    }

    /// The 24 bytes of the header (docs/LAYOUT.md, "Header"), for writing.
    pub fn header_mut(&mut self) -> &mut [u8]
        ensures* writes_back { sem 𝓛 (LendsHeader self.entry result) }
        ensures value { result.now ≡ self.old.header }
        ensures len { length result.now ≡ 24 }
    {
        self.part_mut(0, 24)
    }

    /// The 180 bytes of a side, those of its members and of its active block, for writing.
    pub fn side_mut(&mut self, side: Side) -> &mut [u8]
        ensures* writes_back { sem 𝓛 (LendsSide side self.entry result) }
        ensures value { result.now ≡ bytes_of_side (side_of side self.old) }
        ensures len { length result.now ≡ 180 }
    {
        let from = start_of_side(side);
        self.part_mut(from, from + 180)
    }

    /// The 360 bytes of both sides, first side 1 and then side 2, for writing.
    pub fn sides_mut(&mut self) -> &mut [u8]
        ensures* writes_back { sem 𝓛 (LendsSides self.entry result) }
        ensures value { result.now ≡ bytes_of_sides self.old }
        ensures len { length result.now ≡ 360 }
        ensures each { (length (bytes_of_side self.old.one) ≡ 180)
            × (length (bytes_of_side self.old.two) ≡ 180) }
    {
        self.part_mut(24, 384)
    }

    /// The 180 bytes of a side and the 180 bytes of its foe, for writing both at once.
    pub fn both_mut(&mut self, side: Side) -> (&mut [u8], &mut [u8])
        ensures* writes_back { sem 𝓛 (LendsBothSides side self.entry result) }
        ensures value { (result.0.now ≡ bytes_of_side (side_of side self.old))
            × (result.1.now ≡ bytes_of_side (side_of (other side) self.old)) }
        ensures len { (length result.0.now ≡ 180) × (length result.1.now ≡ 180) }
    {
        in_two(self.sides_mut(), side)
    }

    /// The 36 bytes of a side's active block (docs/LAYOUT.md, "Active block"), for writing.
    pub fn active_mut(&mut self, side: Side) -> &mut [u8]
        ensures* writes_back { sem 𝓛 (LendsActive side self.entry result) }
        ensures value { result.now ≡ active_of side self.old }
        ensures len { length result.now ≡ 36 }
    {
        let from = start_of_side(side) + 144;
        self.part_mut(from, from + 36)
    }

    /// The 24 bytes of the member at a place, 1 to 6 (docs/LAYOUT.md, "Member"), for writing.
    pub fn member_mut(&mut self, side: Side, place: u8) -> &mut [u8]
        requires low { 1 ≤ place }
        requires high { place ≤ 6 }
        ensures* writes_back { sem 𝓛 (LendsMember side place self.entry result) }
        ensures value { result.now ≡ member_of side place self.old }
        ensures len { length result.now ≡ 24 }
    {
        let from = start_of_member(side, place);
        self.part_mut(from, from + 24)
    }

    /// The 384 bytes (docs/LAYOUT.md).
    pub fn as_bytes(&self) -> &[u8]
        ensures value { result.now ≡ joined self.now }
        ensures stands { (s : State) → self.now ≡ blocks_of s → result.now ≡ bytes_of s }
        ensures len { length result.now ≡ 384 }
    {
        &self.0[..]
    }

    /// The 24 bytes of the header.
    #[tactic(auto, using(crate::proofs::WaysBack::header_packs))]
    pub fn header(&self) -> &[u8]
        ensures value { result.now ≡ self.now.header }
        ensures packs { (g : Setting) (f : Field) → Packs g self.now f
            → result.now ≡ header_block (state_in g f) }
        ensures len { length result.now ≡ 24 }
    {
        &self.0[..24]
    }

    /// The 180 bytes of a side.
    pub fn side(&self, side: Side) -> &[u8]
        ensures value { result.now ≡ bytes_of_side (side_of side self.now) }
        ensures len { length result.now ≡ 180 }
    {
        let from = start_of_side(side);
        &self.0[from..from + 180]
    }

    /// The 36 bytes of a side's active block.
    pub fn active(&self, side: Side) -> &[u8]
        ensures value { result.now ≡ active_of side self.now }
        ensures stands { Reads self.now result.now λ f. active_block (member_in side f)
            (active_in side f) }
        ensures len { length result.now ≡ 36 }
    {
        let from = start_of_side(side) + 144;
        &self.0[from..from + 36]
    }

    /// The 24 bytes of the member at a place, 1 to 6.
    pub fn member(&self, side: Side, place: u8) -> &[u8]
        requires low { 1 ≤ place }
        requires high { place ≤ 6 }
        ensures value { result.now ≡ member_of side place self.now }
        ensures packs { ReadsPacked self.now result.now λ f. member_block
            (member_at place (party side f)) }
        ensures len { length result.now ≡ 24 }
    {
        let from = start_of_member(side, place);
        &self.0[from..from + 24]
    }

    // Where the bytes of the member that is out begin. Its place is 1 to 6. The byte is taken modulo 8, so any byte
    // gives an offset inside the 384 bytes.
    fn start_of_out(&self, side: Side) -> usize
        ensures at { result ≡ out_at side self.now }
        ensures within { result + 24 ≤ 384 }
    {
        let place = (self.active(side)[PLACE] % 8) as usize;
        start_of_side(side) + 24 * place - 24
    }

    /// The 24 bytes of the member that is out (docs/LAYOUT.md, "Member").
    pub fn member_out(&self, side: Side) -> &[u8]
        ensures len { length result.now ≡ 24 }
        ensures stands { Reads self.now result.now λ f. member_block (member_in side f) }
    {
        let at = self.start_of_out(side);
        &self.0[at..at + 24]
    }

    // The 24 bytes of the member that is out, for writing.
    pub(crate) fn member_out_mut(&mut self, side: Side) -> &mut [u8]
        ensures* writes_back { sem 𝓛 (LendsOut side self.entry result) }
        ensures stands { Reads self.old result.now λ f. member_block (member_in side f) }
        ensures len { length result.now ≡ 24 }
        ensures packed { (length (joined self.old) ≡ 384)
            × (parts_of (joined self.old) ≡ self.old) }
    {
        let at = self.start_of_out(side);
        self.part_mut(at, at + 24)
    }
}

/// Splits the 360 bytes of both sides ([`Packed::sides_mut`]) in two: the 180 bytes of a side, and the 180 bytes of its
/// foe.
pub fn in_two(sides: &mut [u8], side: Side) -> (&mut [u8], &mut [u8])
    requires sides { length sides.old ≡ 360 }
    ensures* writes_back { sem 𝓛 (LendsInTwo side sides.entry result) }
    ensures value { sides.old ≡ in_order side result.0.now result.1.now }
    ensures len { (length result.0.now ≡ 180) × (length result.1.now ≡ 180) }
{
    let (one, two) = sides.split_at_mut(180);
    match side {
        Side::One => (one, two),
        Side::Two => (two, one),
    }
}

fn start_of_side(side: Side) -> usize
    ensures at { result ≡ side_at side }
    ensures low { 24 ≤ result }
    ensures within { result + 180 ≤ 384 }
{
    match side {
        Side::One => 24,
        Side::Two => 204,
    }
}

fn start_of_member(side: Side, place: u8) -> usize
    requires low { 1 ≤ place }
    requires high { place ≤ 6 }
    ensures at { result ≡ member_starts side place }
    ensures within { result + 24 ≤ 384 }
{
    start_of_side(side) + 24 * (place as usize - 1)
}

const _: () = prove!(std::mem::size_of::<Packed>() == 384);
