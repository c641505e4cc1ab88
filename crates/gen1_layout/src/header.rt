//! The fields of the header (docs/LAYOUT.md, "Header").
ghost use Rattle.std.specs.Prelude.{◌<◌, ◌≡◌};
ghost use Rattle.gen1_layout.specs.Words.{Changes, ChangesPacked, Field, Packs, Reads, ReadsPacked, ReadsPackedSetting, ReadsSetting, Setting, Some, Within, request_of, with_last_damage, with_next_turn, with_outcome, with_requests, ℕ};
ghost use Rattle.gen1_rolls.specs.Steady.{ring_at};
ghost use Rattle.gen1_machine.specs.Valid.{IsOutcome};

use crate::Packed;
use crate::codes::{byte_of_outcome, byte_of_request, outcome_from, request_from};
use crate::offsets::{
    INDEX, LAST_DAMAGE, LIMIT, NUMBERS, OUTCOME, REQUEST_ONE, REQUEST_TWO, RULES, TURN,
};
use byteorder::{ByteOrder, LittleEndian};
use gen1_machine::{Outcome, Request, Rules, Side};
use gen1_rolls::LinkRandom;

impl Packed {
    /// The turn, 0 to the turn limit.
    #[tactic(auto, using(crate::proofs::Steps::packed_of, crate::proofs::WaysBack::turn_packs, crate::proofs::WaysBack::word_back))]
    pub fn turn(&self) -> u16
        ensures stands { Reads self.now result λ f. f.turn }
        ensures packs { ReadsPacked self.now result λ f. f.turn }
    {
        word!(self.header(), TURN)
    }

    /// The last damage, in HP, 0 to 65,535. Both sides share it.
    #[tactic(auto, using(crate::proofs::Steps::packed_of, crate::proofs::WaysBack::word_back))]
    pub fn last_damage(&self) -> u16
        ensures stands { Reads self.now result λ f. f.last_damage }
        ensures packs { ReadsPacked self.now result λ f. f.last_damage }
    {
        word!(self.header(), LAST_DAMAGE)
    }

    /// The outcome: the battle continues, side 1 or side 2 has won, it is a tie, or it ended by fault 1 or 2.
    #[tactic(auto, using(crate::proofs::Steps::packed_of, crate::proofs::WaysBack::outcome_back))]
    pub fn outcome(&self) -> Outcome
        ensures stands { Reads self.now result λ f. f.outcome }
        ensures packs { ReadsPacked self.now result λ f. f.outcome }
    {
        outcome_from(self.header()[OUTCOME])
    }

    /// What a side is asked for: nothing, a move, or a switch.
    #[tactic(auto, using(crate::proofs::Steps::packed_of, crate::proofs::WaysBack::request_back))]
    pub fn request(&self, side: Side) -> Request
        ensures stands { Reads self.now result (request_of side) }
        ensures packs { ReadsPacked self.now result (request_of side) }
    {
        match side {
            Side::One => request_from(self.header()[REQUEST_ONE]),
            Side::Two => request_from(self.header()[REQUEST_TWO]),
        }
    }

    /// The last turn, 1 to 9,999.
    #[tactic(auto, using(crate::proofs::Steps::packed_of, crate::proofs::WaysBack::limit_packs, crate::proofs::WaysBack::word_back))]
    pub fn limit(&self) -> u16
        ensures stands { ReadsSetting self.now result λ g. g.terms.limit }
        ensures packs { ReadsPackedSetting self.now result λ g. g.terms.limit }
    {
        word!(self.header(), LIMIT)
    }

    /// The clauses of the battle.
    pub fn rules(&self) -> Rules
        ensures stands { ReadsSetting self.now result λ g. g.terms.rules }
        ensures packs { ReadsPackedSetting self.now result λ g. g.terms.rules }
    {
        match Rules::new(self.header()[RULES]) {
            Some(rules) => rules,
            None => Rules::default(),
        }
    }

    /// Whether the sleep clause holds: a sleep move fails while an earlier one keeps a living member of the foe's
    /// side asleep.
    #[tactic(auto, using(crate::proofs::Steps::packed_of, crate::proofs::WaysBack::sleep_back))]
    pub fn sleep_clause(&self) -> bool
        ensures stands { ReadsSetting self.now result λ g. g.terms.rules.sleep_clause }
        ensures packs { ReadsPackedSetting self.now result λ g. g.terms.rules.sleep_clause }
    {
        self.header()[RULES] % 2 == 1
    }

    /// Whether the freeze clause holds: a freeze does nothing while a living member of the foe's side is frozen.
    #[tactic(auto, using(crate::proofs::Steps::packed_of, crate::proofs::WaysBack::freeze_back))]
    pub fn freeze_clause(&self) -> bool
        ensures stands { ReadsSetting self.now result λ g. g.terms.rules.freeze_clause }
        ensures packs { ReadsPackedSetting self.now result λ g. g.terms.rules.freeze_clause }
    {
        self.header()[RULES] / 2 == 1
    }

    /// Writes the last damage, in HP.
    #[tactic(auto, using(crate::proofs::Steps::header_packed, crate::proofs::Steps::packed_of, crate::proofs::Steps::still_within, crate::proofs::WaysBack::header_packs), unfolding(gen1_machine::specs::State::with_last_damage))]
    pub fn put_last_damage(&mut self, damage: u16)
        ensures stands { Changes self.old self.new (with_last_damage damage) }
        ensures packs { ChangesPacked self.old self.new (with_last_damage damage) }
    {
        put_word!(self.header_mut(), LAST_DAMAGE, damage);
    }

    /// Writes the outcome.
    #[tactic(auto, using(crate::proofs::Steps::header_packed, crate::proofs::Steps::packed_of, crate::proofs::Steps::still_within, crate::proofs::WaysBack::header_packs), unfolding(gen1_machine::specs::State::with_outcome))]
    pub fn put_outcome(&mut self, outcome: Outcome)
        ensures stands { (g : Setting) (f : Field) → Within g self.old f → IsOutcome outcome
            → Within g self.new (with_outcome outcome f) }
        ensures packs { (g : Setting) (f : Field) → Packs g self.old f → IsOutcome outcome
            → Packs g self.new (with_outcome outcome f) }
    {
        let byte = byte_of_outcome(outcome);
        self.header_mut()[OUTCOME] = byte;
    }

    /// Writes what both sides are asked for.
    #[tactic(auto, using(crate::proofs::Steps::header_packed, crate::proofs::Steps::packed_of, crate::proofs::Steps::still_within, crate::proofs::WaysBack::header_packs), unfolding(gen1_machine::specs::State::with_requests))]
    pub fn put_requests(&mut self, one: Request, two: Request)
        ensures stands { Changes self.old self.new (with_requests one two) }
        ensures packs { ChangesPacked self.old self.new (with_requests one two) }
    {
        let one = byte_of_request(one);
        let two = byte_of_request(two);
        let header = self.header_mut();
        header[REQUEST_ONE] = one;
        header[REQUEST_TWO] = two;
    }

    /// Advances to the next turn, which must be at most the limit.
    #[tactic(auto, using(crate::proofs::Steps::header_packed, crate::proofs::Steps::packed_of, crate::proofs::Steps::still_within, crate::proofs::WaysBack::header_packs), unfolding(gen1_machine::specs::State::with_next_turn))]
    pub fn put_next_turn(&mut self)
        ensures stands { (g : Setting) (f : Field) → Within g self.old f → f.turn < g.terms.limit
            → Within g self.new (with_next_turn f) }
        ensures packs { (g : Setting) (f : Field) → Packs g self.old f → f.turn < g.terms.limit
            → Packs g self.new (with_next_turn f) }
    {
        let next = self.turn().wrapping_add(1);
        put_word!(self.header_mut(), TURN, next);
    }

    /// The generator of the bytes, with its index 0 to 8. It is never `None` when the bytes represent a battle.
    pub fn generator(&self) -> Option<LinkRandom>
        ensures stands { ReadsSetting self.now result λ g. Some (ring_at g.seed g.drawn) }
        ensures packs { ReadsPackedSetting self.now result λ g. Some (ring_at g.seed g.drawn) }
    {
        let header = self.header();
        LinkRandom::from_parts(
            header[INDEX],
            [
                header[6], header[7], header[8], header[9], header[10], header[11], header[12],
                header[13], header[14], header[15],
            ],
        )
    }

    /// Writes the index and the numbers of a generator, after any number of draws.
    pub fn put_generator(&mut self, generator: &LinkRandom)
        ensures stands { (g : Setting) (f : Field) (drawn : ℕ) → Within g self.old f
            → generator.now ≡ ring_at g.seed drawn
            → Within (record g { drawn = drawn }) self.new f }
        ensures packs { (g : Setting) (f : Field) (drawn : ℕ) → Packs g self.old f
            → generator.now ≡ ring_at g.seed drawn
            → Packs (record g { drawn = drawn }) self.new f }
    {
        let index = generator.index();
        let numbers = generator.numbers();
        let header = self.header_mut();
        header[INDEX] = index;
        header[NUMBERS..OUTCOME].copy_from_slice(&numbers);
    }
}
