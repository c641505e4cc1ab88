//! The conditions of a member that is out (docs/MECHANICS.md, "Conditions"), with their numbers (docs/LAYOUT.md, "Active block",
//! "Condition bits").
ghost use Rattle.gen1_layout.specs.Words.{ActiveConditions, Changes, Field, List, None, Reads, ReadsAny, ReadsFlag, Setting, Some, Within, WritesConditions, WritesConditionsIf, WritesFlag, active_in, changed_conditions, conditions_in, false, length, member_in, slice_index_or, slice_set, underway_in, ℕ, count_bytes};
ghost use Rattle.std.specs.Prelude.{if◌then◌else◌, slice_index, ◌-◌, ◌<◌, ◌^◌, ◌≡◌, ◌≤◌};
ghost use Rattle.gen1_machine.specs.Conditions.{after_haze, broken_off};
ghost use Rattle.gen1_machine.specs.Layout.{active_block, condition_bits, conditions_number, energy_of, turns_byte};
ghost use Rattle.gen1_machine.specs.Valid.{IsCount};
ghost use Rattle.gen1_layout.specs.Parts.{turns_stored};
ghost use Rattle.gen1_layout.specs.Shows.{IsStorableConditions, IsStorableDisabled};

use crate::codes::{byte_of_count, byte_of_disabled_slot, byte_of_disabled_turns};
use crate::offsets::{
    BAD_POISON, CONDITIONS, CONFUSED, DISABLED_SLOT, DISABLED_TURNS, ENERGY, SUBSTITUTE, TURNS,
};
use crate::{Conditions, Packed};
use bitflags::Flags;
use byteorder::{ByteOrder, LittleEndian};
use gen1_machine::{DisabledSlot, Side};

impl Packed {
    /// All conditions of the member that is out.
    #[tactic(auto, using(crate::proofs::Counts::number_small, crate::proofs::WaysBack::long_back))]
    pub fn conditions(&self, side: Side) -> Conditions
        ensures stands { Reads self.now result.0 λ f. conditions_number (conditions_in side f) }
    {
        Conditions::from_bits_retain(long!(self.active(side), CONDITIONS))
    }

    /// Whether the member that is out has a condition.
    pub fn is_on(&self, side: Side, which: Conditions) -> bool
        ensures stands { ReadsFlag side self.now which.0 result }
    {
        self.conditions(side).has(which)
    }

    /// Whether the member that is out has at least one of several conditions, by the places of their bits.
    ///
    /// For two conditions it is `has_any(side, Conditions::MIST.union(Conditions::RAGE))`.
    pub fn has_any(&self, side: Side, which: Conditions) -> bool
        ensures stands { ReadsAny side self.now which.0 result }
    {
        self.conditions(side).has_any(which)
    }

    // The byte of the active block that belongs to a condition, if the condition is on.
    fn count_of(&self, side: Side, which: Conditions, at: usize) -> Option<u8>
        requires { at < 36 }
        ensures stands { (k : ℕ) → which.0 ≡ 2 ^ k
            → Reads self.now result λ f.
            (if slice_index_or (condition_bits (conditions_in side f)) k false then Some
            (slice_index (active_block (member_in side f) (active_in side f)) at) else None) }
    {
        if self.is_on(side, which) {
            Some(self.active(side)[at])
        } else {
            None
        }
    }

    /// The HP of the member's Substitute, 0 to 249, or `None` without one.
    pub fn substitute(&self, side: Side) -> Option<u8>
        ensures stands { Reads self.now result λ f. (conditions_in side f).substitute }
    {
        self.count_of(side, Conditions::SUBSTITUTE, SUBSTITUTE)
    }

    /// The number of turns of confusion that are left, at most 5, or `None` without confusion.
    pub fn confused(&self, side: Side) -> Option<u8>
        ensures stands { Reads self.now result λ f. (conditions_in side f).confused }
    {
        self.count_of(side, Conditions::CONFUSED, CONFUSED)
    }

    /// The counter of bad poison, 0 to 64, or `None` without bad poison.
    pub fn bad_poison(&self, side: Side) -> Option<u8>
        ensures stands { Reads self.now result λ f. (conditions_in side f).bad_poison }
    {
        self.count_of(side, Conditions::BAD_POISON, BAD_POISON)
    }

    /// The slot that Disable bars, 1 to 4, and the turns that are left, at most 8. `None` if no slot is barred.
    pub fn disabled(&self, side: Side) -> Option<DisabledSlot>
        ensures stands { Reads self.now result λ f. (conditions_in side f).disabled }
    {
        if self.is_on(side, Conditions::DISABLED) {
            let active = self.active(side);
            Some(DisabledSlot {
                slot: active[DISABLED_SLOT],
                turns: active[DISABLED_TURNS],
            })
        } else {
            None
        }
    }

    /// The number of turns that Bide still stores, at most 3, or `None` without Bide.
    pub fn bide(&self, side: Side) -> Option<u8>
        ensures stands { Reads self.now result λ f. turns_stored (underway_in side f).bide }
    {
        self.count_of(side, Conditions::BIDE, TURNS)
    }

    /// The number of turns of thrashing that are left, at most 3, or `None` without thrashing.
    pub fn thrash(&self, side: Side) -> Option<u8>
        ensures stands { Reads self.now result λ f. (underway_in side f).thrash }
    {
        self.count_of(side, Conditions::THRASH, TURNS)
    }

    /// The number of turns of trapping the foe that are left, at most 4, or `None` without trapping.
    pub fn trapping(&self, side: Side) -> Option<u8>
        ensures stands { Reads self.now result λ f. (underway_in side f).trapping }
    {
        self.count_of(side, Conditions::TRAPPING, TURNS)
    }

    /// The energy that Bide has stored, in HP of damage, 0 to 65,535. It is 0 without Bide.
    pub fn energy(&self, side: Side) -> u16
        ensures stands { Reads self.now result λ f. energy_of (underway_in side f).bide }
    {
        word!(self.active(side), ENERGY)
    }

    // The byte of turns after one of Bide, thrashing and trapping is off.
    fn turns_without(&self, side: Side, which: Conditions) -> u8
        ensures bide { (g : Setting) (f : Field) → Within g self.now f → which.0 ≡ 1
            → result ≡ turns_byte None (underway_in side f).thrash (underway_in side f).trapping }
        ensures thrash { (g : Setting) (f : Field) → Within g self.now f → which.0 ≡ 2
            → result ≡ turns_byte (underway_in side f).bide None (underway_in side f).trapping }
        ensures trapping { (g : Setting) (f : Field) → Within g self.now f → which.0 ≡ 4
            → result ≡ turns_byte (underway_in side f).bide (underway_in side f).thrash None }
    {
        if self.is_on(side, which) {
            0
        } else {
            self.active(side)[TURNS]
        }
    }

    /// Sets or clears a condition that has no number.
    pub fn put_flag(&mut self, side: Side, which: Conditions, on: bool)
        ensures stands { WritesFlag side self.old self.new which.0 on }
    {
        let now = self.conditions(side).with(which, on);
        put_long!(self.active_mut(side), CONDITIONS, now.bits());
    }

    // Sets or clears a condition, and writes its byte of the active block. In the contract, k is the place of its
    // bit.
    fn put_count(&mut self, side: Side, which: Conditions, on: bool, at: usize, byte: u8)
        requires first { 21 ≤ at }
        requires last { at < 29 }
        ensures stands { (k : ℕ) → which.0 ≡ 2 ^ k → k < 17
            → (g : Setting) (f : Field) (change : ActiveConditions → ActiveConditions)
            (new : ActiveConditions) → Within g self.old f
            → change (conditions_in side f) ≡ new
            → condition_bits new ≡ slice_set (condition_bits (conditions_in side f)) k on
            → count_bytes new ≡ slice_set (count_bytes (conditions_in side f)) (at - 21) byte
            → IsStorableConditions (length (member_in side f).moves) new
            → Within g self.new (changed_conditions side change f) }
    {
        let set = self.conditions(side).with(which, on);
        let active = self.active_mut(side);
        put_long!(active, CONDITIONS, set.bits());
        active[at] = byte;
    }

    /// Writes the HP of a Substitute, at most 249, or clears the Substitute.
    pub fn put_substitute(&mut self, side: Side, hp: Option<u8>)
        ensures stands { WritesConditionsIf side self.old self.new
            (λ c. record c { substitute = hp }) λ g f. IsCount 0 249 hp }
    {
        let byte = byte_of_count(hp);
        self.put_count(side, Conditions::SUBSTITUTE, hp.is_some(), SUBSTITUTE, byte);
    }

    /// Writes the number of turns of confusion that are left, at most 5, or clears the confusion.
    pub fn put_confused(&mut self, side: Side, turns: Option<u8>)
        ensures stands { WritesConditionsIf side self.old self.new
            (λ c. record c { confused = turns }) λ g f. IsCount 0 5 turns }
    {
        let byte = byte_of_count(turns);
        self.put_count(side, Conditions::CONFUSED, turns.is_some(), CONFUSED, byte);
    }

    /// Writes the counter of bad poison, at most 64, or clears the bad poison.
    pub fn put_bad_poison(&mut self, side: Side, count: Option<u8>)
        ensures stands { WritesConditionsIf side self.old self.new
            (λ c. record c { bad_poison = count }) λ g f. IsCount 0 64 count }
    {
        let byte = byte_of_count(count);
        self.put_count(
            side,
            Conditions::BAD_POISON,
            count.is_some(),
            BAD_POISON,
            byte,
        );
    }

    /// Writes what Disable bars, or clears it: a slot that holds a move, for at most 8 more turns.
    pub fn put_disabled(&mut self, side: Side, disabled: Option<DisabledSlot>)
        ensures stands { WritesConditionsIf side self.old self.new
            (λ c. record c { disabled = disabled }) λ g f. IsStorableDisabled
            (length (member_in side f).moves) disabled }
    {
        let on = disabled.is_some();
        let slot = byte_of_disabled_slot(disabled);
        let turns = byte_of_disabled_turns(disabled);
        let now = self.conditions(side).with(Conditions::DISABLED, on);
        let active = self.active_mut(side);
        put_long!(active, CONDITIONS, now.bits());
        active[DISABLED_SLOT] = slot;
        active[DISABLED_TURNS] = turns;
    }

    /// Sets Bide, with at most 3 turns left and this much energy. Thrashing and trapping must be off.
    pub fn put_bide(&mut self, side: Side, turns: u8, energy: u16)
        ensures stands { (g : Setting) (f : Field) (change : ActiveConditions → ActiveConditions)
            → Within g self.old f
            → change (conditions_in side f) ≡ record (conditions_in side f) {
              underway = record (underway_in side f)
                  { bide = Some (record { turns = turns; energy = energy }) };
            }
            → turns ≤ 3 → (underway_in side f).thrash ≡ None → (underway_in side f).trapping ≡ None
            → Within g self.new (changed_conditions side change f) }
    {
        let now = self.conditions(side).with(Conditions::BIDE, true);
        let active = self.active_mut(side);
        put_long!(active, CONDITIONS, now.bits());
        active[TURNS] = turns;
        put_word!(active, ENERGY, energy);
    }

    /// Clears Bide.
    pub fn end_bide(&mut self, side: Side)
        ensures stands { WritesConditions side self.old self.new λ c. record c
            { underway = record c.underway { bide = None } } }
    {
        let turns = self.turns_without(side, Conditions::BIDE);
        let now = self.conditions(side).with(Conditions::BIDE, false);
        let active = self.active_mut(side);
        put_long!(active, CONDITIONS, now.bits());
        active[TURNS] = turns;
        put_word!(active, ENERGY, 0);
    }

    /// Sets thrashing, with at most 3 turns left. Bide and trapping must be off.
    pub fn put_thrash(&mut self, side: Side, turns: u8)
        ensures stands { (g : Setting) (f : Field) (change : ActiveConditions → ActiveConditions)
            → Within g self.old f
            → change (conditions_in side f) ≡ record (conditions_in side f)
            { underway = record (underway_in side f) { thrash = Some turns } }
            → turns ≤ 3 → (underway_in side f).bide ≡ None → (underway_in side f).trapping ≡ None
            → Within g self.new (changed_conditions side change f) }
    {
        self.put_count(side, Conditions::THRASH, true, TURNS, turns);
    }

    /// Clears thrashing.
    pub fn end_thrash(&mut self, side: Side)
        ensures stands { WritesConditions side self.old self.new λ c. record c
            { underway = record c.underway { thrash = None } } }
    {
        let turns = self.turns_without(side, Conditions::THRASH);
        self.put_count(side, Conditions::THRASH, false, TURNS, turns);
    }

    /// Sets trapping, with at most 4 turns left. Bide and thrashing must be off.
    pub fn put_trapping(&mut self, side: Side, turns: u8)
        ensures stands { (g : Setting) (f : Field) (change : ActiveConditions → ActiveConditions)
            → Within g self.old f
            → change (conditions_in side f) ≡ record (conditions_in side f)
            { underway = record (underway_in side f) { trapping = Some turns } }
            → turns ≤ 4 → (underway_in side f).bide ≡ None → (underway_in side f).thrash ≡ None
            → Within g self.new (changed_conditions side change f) }
    {
        self.put_count(side, Conditions::TRAPPING, true, TURNS, turns);
    }

    /// Clears trapping.
    pub fn end_trapping(&mut self, side: Side)
        ensures stands { WritesConditions side self.old self.new λ c. record c
            { underway = record c.underway { trapping = None } } }
    {
        if self.is_on(side, Conditions::TRAPPING) {
            let turns = self.turns_without(side, Conditions::TRAPPING);
            self.put_count(side, Conditions::TRAPPING, false, TURNS, turns);
        }
    }

    /// Clears Bide, thrashing, trapping and charging.
    pub fn break_off(&mut self, side: Side)
        ensures stands { Changes self.old self.new (changed_conditions side broken_off) }
    {
        let now = self
            .conditions(side)
            .with(Conditions::BIDE, false)
            .with(Conditions::THRASH, false)
            .with(Conditions::TRAPPING, false)
            .with(Conditions::CHARGING, false);
        let active = self.active_mut(side);
        put_long!(active, CONDITIONS, now.bits());
        active[TURNS] = 0;
        put_word!(active, ENERGY, 0);
    }

    /// Clears what Haze clears: confusion, Mist, Focus Energy, the seed, bad poison, both screens and Disable.
    pub fn clear_by_haze(&mut self, side: Side)
        ensures stands { Changes self.old self.new (changed_conditions side after_haze) }
    {
        let now = self
            .conditions(side)
            .with(Conditions::CONFUSED, false)
            .with(Conditions::MIST, false)
            .with(Conditions::FOCUS_ENERGY, false)
            .with(Conditions::SEEDED, false)
            .with(Conditions::BAD_POISON, false)
            .with(Conditions::LIGHT_SCREEN, false)
            .with(Conditions::REFLECT, false)
            .with(Conditions::DISABLED, false);
        let active = self.active_mut(side);
        put_long!(active, CONDITIONS, now.bits());
        active[CONFUSED] = 0;
        active[DISABLED_SLOT] = 0;
        active[DISABLED_TURNS] = 0;
        active[BAD_POISON] = 0;
    }
}
