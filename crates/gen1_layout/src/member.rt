//! The fields of a member (docs/LAYOUT.md, "Member"): of any member by its place, and of the one that is out.
ghost use Rattle.std.specs.Prelude.{◌-◌, ◌≡◌, ◌≤◌};
ghost use Rattle.gen1_layout.specs.Words.{Field, Member, Reads, ReadsPacked, Setting, Within, WritesMember, WritesMemberIf, active_in, changed_member, is_living, known_in, length, member_at, member_in, party, slice_set, unmodified};
ghost use Rattle.gen1_tables.specs.Types.{any};
ghost use Rattle.gen1_stats.specs.Members.{is_marked};
ghost use Rattle.gen1_stats.specs.declared.member.Status.TheVariants.{Healthy};
ghost use Rattle.gen1_machine.specs.State.{has_fallen_in};
ghost use Rattle.gen1_machine.specs.Valid.{IsStatus};
ghost use Rattle.gen1_layout.specs.Shows.{own_stats_of};

use crate::Packed;
use crate::codes::{byte_of_status, mark_of_status, status_from};
use crate::offsets::{
    ATTACK, BEFORE_MOVES, BEFORE_PP, DEFENSE, HP, LEVEL, MARK, MAX_HP, PLACE, SPECIAL, SPECIES,
    SPEED, STATUS,
};
use byteorder::{ByteOrder, LittleEndian};
use gen1_machine::Side;
use gen1_stats::Status;
use gen1_tables::Stat;

impl Packed {
    /// The place of the member that is out, 1 to 6.
    pub fn place(&self, side: Side) -> u8
        ensures low { 1 ≤ result }
        ensures high { result ≤ 6 }
        ensures stands { Reads self.now result λ f. (active_in side f).place }
    {
        self.active(side)[PLACE].max(1).min(6)
    }

    /// The number of the species of the member that is out, 1 to 151.
    pub fn species_number(&self, side: Side) -> u8
        ensures stands { Reads self.now result λ f. (member_in side f).species }
    {
        self.member_out(side)[SPECIES]
    }

    /// The level of the member that is out, 1 to 100.
    pub fn level(&self, side: Side) -> u8
        ensures stands { Reads self.now result λ f. (member_in side f).level }
    {
        self.member_out(side)[LEVEL]
    }

    /// The maximum HP of the member that is out, 11 to 999.
    #[tactic(auto, using(crate::proofs::WaysBack::max_fits, crate::proofs::WaysBack::word_back))]
    pub fn max_hp(&self, side: Side) -> u16
        ensures stands { Reads self.now result λ f. (member_in side f).max }
    {
        word!(self.member_out(side), MAX_HP)
    }

    /// The HP of the member that is out, 0 to its maximum HP.
    #[tactic(auto, using(crate::proofs::WaysBack::hp_fits, crate::proofs::WaysBack::word_back))]
    pub fn hp(&self, side: Side) -> u16
        ensures stands { Reads self.now result λ f. (member_in side f).hp }
    {
        word!(self.member_out(side), HP)
    }

    /// Whether the member that is out has no HP left.
    pub fn has_fallen(&self, side: Side) -> bool
        ensures stands { Reads self.now result (has_fallen_in side) }
    {
        self.hp(side) == 0
    }

    /// The Attack, Defense, Speed or Special of the member that is out, before stages, 5 to 999. For accuracy and
    /// evasion, which have no number, it is 0.
    pub fn unmodified(&self, side: Side, stat: Stat) -> u16
        ensures stands { Reads self.now result λ f. unmodified stat (member_in side f) }
    {
        match stat {
            Stat::Attack => word!(self.member_out(side), ATTACK),
            Stat::Defense => word!(self.member_out(side), DEFENSE),
            Stat::Speed => word!(self.member_out(side), SPEED),
            Stat::Special => word!(self.member_out(side), SPECIAL),
            Stat::Accuracy => 0,
            Stat::Evasion => 0,
        }
    }

    /// The status of the member that is out. A sleep has 1 to 7 turns left.
    #[inline(always)] // docs/SPEED.md, "Hints on inlining"
    #[tactic(auto, using(crate::proofs::Steps::member_ok, crate::proofs::WaysBack::status_back))]
    pub fn status(&self, side: Side) -> Status
        ensures stands { Reads self.now result λ f. (member_in side f).status }
    {
        let out = self.member_out(side);
        status_from(out[STATUS], out[MARK])
    }

    /// The number of the move in a slot, 1 to 4, of the member that is out. The number is 1 to 164, or 0 for an empty
    /// slot.
    #[tactic(auto, using(crate::proofs::WaysBack::id_at))]
    pub fn move_in(&self, side: Side, slot: u8) -> u8
        requires low { 1 ≤ slot }
        requires high { slot ≤ 4 }
        ensures stands { Reads self.now result λ f. (known_in slot (member_in side f).moves).id }
    {
        self.member_out(side)[slot as usize + BEFORE_MOVES]
    }

    /// The PP of the move in a slot, 1 to 4, of the member that is out: 0 to 63, and 0 for an empty slot.
    #[tactic(auto, using(crate::proofs::WaysBack::pp_at))]
    pub fn pp(&self, side: Side, slot: u8) -> u8
        requires low { 1 ≤ slot }
        requires high { slot ≤ 4 }
        ensures stands { Reads self.now result λ f. (known_in slot (member_in side f).moves).pp }
    {
        self.member_out(side)[slot as usize + BEFORE_PP]
    }

    /// The number of the species of the member at a place, 1 to 6. The number is 1 to 151, or 0 for an empty place.
    #[tactic(auto, using(crate::proofs::Steps::packed_of))]
    pub fn species_at(&self, side: Side, place: u8) -> u8
        requires low { 1 ≤ place }
        requires high { place ≤ 6 }
        ensures stands { Reads self.now result λ f. (member_at place (party side f)).species }
        ensures packs { ReadsPacked self.now result λ f. (member_at place (party side f)).species }
    {
        self.member(side, place)[SPECIES]
    }

    /// The HP of the member at a place, 1 to 6: 0 to its maximum HP, and 0 for an empty place.
    pub fn hp_at(&self, side: Side, place: u8) -> u16
        requires low { 1 ≤ place }
        requires high { place ≤ 6 }
        ensures stands { Reads self.now result λ f. (member_at place (party side f)).hp }
        ensures packs { ReadsPacked self.now result λ f. (member_at place (party side f)).hp }
    {
        word!(self.member(side, place), HP)
    }

    /// The status of the member at a place, 1 to 6. A sleep has 1 to 7 turns left. An empty place is healthy.
    pub fn status_at(&self, side: Side, place: u8) -> Status
        requires low { 1 ≤ place }
        requires high { place ≤ 6 }
        ensures stands { Reads self.now result λ f. (member_at place (party side f)).status }
        ensures packs { ReadsPacked self.now result λ f. (member_at place (party side f)).status }
    {
        let member = self.member(side, place);
        status_from(member[STATUS], member[MARK])
    }

    /// The level of the member at a place, 1 to 6: 1 to 100, or 0 for an empty place.
    pub fn level_at(&self, side: Side, place: u8) -> u8
        requires low { 1 ≤ place }
        requires high { place ≤ 6 }
        ensures packs { ReadsPacked self.now result λ f. (member_at place (party side f)).level }
    {
        self.member(side, place)[LEVEL]
    }

    /// The maximum HP of the member at a place, 1 to 6: 11 to 999, or 0 for an empty place.
    pub fn max_hp_at(&self, side: Side, place: u8) -> u16
        requires low { 1 ≤ place }
        requires high { place ≤ 6 }
        ensures packs { ReadsPacked self.now result λ f. (member_at place (party side f)).max }
    {
        word!(self.member(side, place), MAX_HP)
    }

    /// The Attack, Defense, Speed and Special of the member at a place, 1 to 6: each 5 to 999, or 0 for an empty
    /// place.
    pub fn own_stats_at(&self, side: Side, place: u8) -> [u16; 4]
        requires low { 1 ≤ place }
        requires high { place ≤ 6 }
        ensures packs { ReadsPacked self.now result λ f. own_stats_of
            (member_at place (party side f)) }
    {
        let member = self.member(side, place);
        [
            word!(member, ATTACK),
            word!(member, DEFENSE),
            word!(member, SPEED),
            word!(member, SPECIAL),
        ]
    }

    /// The number of the move in a slot, 1 to 4, of the member at a place, 1 to 6. The number is 1 to 164, or 0 for
    /// an empty slot or place.
    #[tactic(auto, using(crate::proofs::WaysBack::id_at))]
    pub fn move_at(&self, side: Side, place: u8, slot: u8) -> u8
        requires low { 1 ≤ place }
        requires high { place ≤ 6 }
        requires low_slot { 1 ≤ slot }
        requires high_slot { slot ≤ 4 }
        ensures packs { ReadsPacked self.now result λ f.
            (known_in slot (member_at place (party side f)).moves).id }
    {
        self.member(side, place)[slot as usize + BEFORE_MOVES]
    }

    /// The PP of that move, 0 to 63, or 0 for an empty slot or place.
    #[tactic(auto, using(crate::proofs::WaysBack::pp_at))]
    pub fn pp_at(&self, side: Side, place: u8, slot: u8) -> u8
        requires low { 1 ≤ place }
        requires high { place ≤ 6 }
        requires low_slot { 1 ≤ slot }
        requires high_slot { slot ≤ 4 }
        ensures packs { ReadsPacked self.now result λ f.
            (known_in slot (member_at place (party side f)).moves).pp }
    {
        self.member(side, place)[slot as usize + BEFORE_PP]
    }

    /// Whether the member at a place, 1 to 6, sleeps by the foe's move, and the sleep clause counts it.
    #[tactic(auto, using(crate::proofs::WaysBack::bit_back))]
    pub fn mark(&self, side: Side, place: u8) -> bool
        requires low { 1 ≤ place }
        requires high { place ≤ 6 }
        ensures packs { ReadsPacked self.now result λ f. is_marked
            (member_at place (party side f)).status }
    {
        self.member(side, place)[MARK] == 1
    }

    /// Whether a member of the side has HP left.
    pub fn has_living(&self, side: Side) -> bool
        ensures packs { ReadsPacked self.now result λ f. any is_living (party side f).members }
    {
        let one = self.lives_at(side, 1);
        let two = self.lives_at(side, 2);
        let three = self.lives_at(side, 3);
        let four = self.lives_at(side, 4);
        let five = self.lives_at(side, 5);
        let six = self.lives_at(side, 6);
        // All six are read, so that no branch depends on who lives.
        one | (two | (three | (four | (five | six))))
    }

    fn lives_at(&self, side: Side, place: u8) -> bool
        requires low { 1 ≤ place }
        requires high { place ≤ 6 }
        ensures packs { ReadsPacked self.now result λ f. is_living
            (member_at place (party side f)) }
    {
        0 < self.hp_at(side, place)
    }

    /// Writes the HP of the member that is out, at most its maximum.
    pub fn put_hp(&mut self, side: Side, hp: u16)
        ensures stands { WritesMemberIf side self.old self.new (λ m. record m { hp = hp }) λ g f. hp
            ≤ (member_in side f).max }
    {
        put_word!(self.member_out_mut(side), HP, hp);
    }

    /// Writes the status of the member that is out.
    pub fn put_status(&mut self, side: Side, status: Status)
        ensures stands { WritesMemberIf side self.old self.new (λ m. record m { status = status })
            λ g f. IsStatus g.terms.rules status }
    {
        let byte = byte_of_status(status);
        let mark = mark_of_status(status);
        let member = self.member_out_mut(side);
        member[STATUS] = byte;
        member[MARK] = mark;
    }

    /// Makes the member that is out fall: its HP become 0, and it loses its status.
    pub fn put_fallen(&mut self, side: Side)
        ensures stands { WritesMember side self.old self.new λ m. record m
            { hp = 0; status = Healthy } }
    {
        let member = self.member_out_mut(side);
        member[HP] = 0;
        member[HP + 1] = 0;
        member[STATUS] = 0;
        member[MARK] = 0;
    }

    /// Writes the PP of the move in a slot, 1 to 4. They are at most 63.
    pub fn put_pp(&mut self, side: Side, slot: u8, pp: u8)
        requires low { 1 ≤ slot }
        requires high { slot ≤ 4 }
        ensures stands { (g : Setting) (f : Field) (change : Member → Member) → Within g self.old f
            → change (member_in side f) ≡ record (member_in side f) {
              moves = slice_set (member_in side f).moves (slot - 1)
                  (record (known_in slot (member_in side f).moves) { pp = pp });
            }
            → slot ≤ length (member_in side f).moves → pp ≤ 63
            → Within g self.new (changed_member side change f) }
    {
        self.member_out_mut(side)[slot as usize + BEFORE_PP] = pp;
    }
}
