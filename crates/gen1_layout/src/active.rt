//! The fields of an active block (docs/LAYOUT.md, "Active block"), without the conditions.
ghost use Rattle.std.specs.Prelude.{◌≡◌, ◌≤◌};
ghost use Rattle.gen1_layout.specs.Words.{Active, Field, Member, Packs, Reads, Setting, Within, WritesActive, WritesActiveIf, active_in, changed_active, false, has_number, length, member_at, member_in, now, now_in, party, stage_of, true, ℕ};
ghost use Rattle.gen1_tables.specs.declared.effect.Stat.TheVariants.{Attack, Defense, Special, Speed};
ghost use Rattle.gen1_machine.specs.Valid.{IsUsedMove};
ghost use Rattle.gen1_machine.specs.Layout.{active_block};
ghost use Rattle.gen1_layout.specs.Shows.{sent_as, stats_of};

use crate::Packed;
use crate::codes::{byte_of_used, element_from, used_from};
use crate::first_state::{high, low};
use crate::offsets::{
    ACCURACY_STAGE, ATTACK_STAGE, CONDITIONS, CURRENT_ATTACK, CURRENT_DEFENSE, CURRENT_MOVE,
    CURRENT_SPECIAL, CURRENT_SPEED, DEFENSE_STAGE, EVASION_STAGE, FIRST_TYPE, KEPT_ACCURACY,
    PICKED_MOVE, SECOND_TYPE, SPECIAL_STAGE, SPEED_STAGE,
};
use byteorder::{ByteOrder, LittleEndian};
use gen1_machine::{Side, UsedMove};
use gen1_tables::{Element, Stat};

// A stage without changes.
const MIDDLE: u8 = 6;

impl Packed {
    /// The first type of the member that is out. It can differ from its species' type.
    #[tactic(auto, using(crate::proofs::WaysBack::element_back))]
    pub fn first_type(&self, side: Side) -> Element
        ensures stands { Reads self.now result λ f. (active_in side f).first_type }
    {
        element_from(self.active(side)[FIRST_TYPE])
    }

    /// The second type of the member that is out.
    pub fn second_type(&self, side: Side) -> Element
        ensures stands { Reads self.now result λ f. (active_in side f).second_type }
    {
        element_from(self.active(side)[SECOND_TYPE])
    }

    /// A stage, 0 to 12. The middle is 6.
    pub fn stage(&self, side: Side, stat: Stat) -> u8
        ensures stands { Reads self.now result λ f. stage_of stat (active_in side f).stages }
    {
        match stat {
            Stat::Attack => self.active(side)[ATTACK_STAGE],
            Stat::Defense => self.active(side)[DEFENSE_STAGE],
            Stat::Speed => self.active(side)[SPEED_STAGE],
            Stat::Special => self.active(side)[SPECIAL_STAGE],
            Stat::Accuracy => self.active(side)[ACCURACY_STAGE],
            Stat::Evasion => self.active(side)[EVASION_STAGE],
        }
    }

    /// A current stat, at its stage and after its penalties, 1 to 999. For accuracy and evasion, which have no
    /// number, it is 1.
    pub fn current_stat(&self, side: Side, stat: Stat) -> u16
        ensures stands { (g : Setting) (f : Field) → Within g self.now f → has_number stat ≡ true
            → result ≡ now_in stat side f }
        ensures without_number { has_number stat ≡ false → result ≡ 1 }
    {
        match stat {
            Stat::Attack => word!(self.active(side), CURRENT_ATTACK),
            Stat::Defense => word!(self.active(side), CURRENT_DEFENSE),
            Stat::Speed => word!(self.active(side), CURRENT_SPEED),
            Stat::Special => word!(self.active(side), CURRENT_SPECIAL),
            Stat::Accuracy => 1,
            Stat::Evasion => 1,
        }
    }

    /// The move that was used last: none, a slot 1 to 4, or Struggle.
    pub fn current_move(&self, side: Side) -> UsedMove
        ensures stands { Reads self.now result λ f. (active_in side f).current_move }
    {
        used_from(self.active(side)[CURRENT_MOVE])
    }

    /// The move that was picked last: none, a slot 1 to 4, or Struggle.
    pub fn picked_move(&self, side: Side) -> UsedMove
        ensures stands { Reads self.now result λ f. (active_in side f).picked_move }
    {
        used_from(self.active(side)[PICKED_MOVE])
    }

    /// The accuracy byte that is kept for a move that continues, 0 to 255.
    pub fn kept_accuracy(&self, side: Side) -> u8
        ensures stands { Reads self.now result λ f. (active_in side f).kept_accuracy }
    {
        self.active(side)[KEPT_ACCURACY]
    }

    /// Writes both types of the member that is out.
    pub fn put_types(&mut self, side: Side, first: Element, second: Element)
        ensures stands { WritesActive side self.old self.new λ a. record a
            { first_type = first; second_type = second } }
    {
        let first = first.number();
        let second = second.number();
        let active = self.active_mut(side);
        active[FIRST_TYPE] = first;
        active[SECOND_TYPE] = second;
    }

    /// Writes the move that was used last: none, Struggle, or a slot that holds a move.
    pub fn put_current_move(&mut self, side: Side, used: UsedMove)
        ensures stands { WritesActiveIf side self.old self.new
            (λ a. record a { current_move = used }) λ g f. IsUsedMove
            (length (member_in side f).moves) used }
    {
        let byte = byte_of_used(used);
        self.active_mut(side)[CURRENT_MOVE] = byte;
    }

    /// Writes the move that was picked last: none, Struggle, or a slot that holds a move.
    pub fn put_picked_move(&mut self, side: Side, used: UsedMove)
        ensures stands { WritesActiveIf side self.old self.new
            (λ a. record a { picked_move = used }) λ g f. IsUsedMove
            (length (member_in side f).moves) used }
    {
        let byte = byte_of_used(used);
        self.active_mut(side)[PICKED_MOVE] = byte;
    }

    /// Writes the kept accuracy byte.
    pub fn put_kept_accuracy(&mut self, side: Side, byte: u8)
        ensures stands { WritesActive side self.old self.new λ a. record a
            { kept_accuracy = byte } }
    {
        self.active_mut(side)[KEPT_ACCURACY] = byte;
    }

    /// Writes the stage of accuracy, 0 to 12. It has no number.
    pub fn put_accuracy(&mut self, side: Side, stage: u8)
        ensures stands { WritesActiveIf side self.old self.new
            (λ a. record a { stages = record a.stages { accuracy = stage } }) λ g f. stage ≤ 12 }
    {
        self.active_mut(side)[ACCURACY_STAGE] = stage;
    }

    /// Writes the stage of evasion, 0 to 12. It has no number.
    pub fn put_evasion(&mut self, side: Side, stage: u8)
        ensures stands { WritesActiveIf side self.old self.new
            (λ a. record a { stages = record a.stages { evasion = stage } }) λ g f. stage ≤ 12 }
    {
        self.active_mut(side)[EVASION_STAGE] = stage;
    }

    /// Writes the stage of Attack, 0 to 12, and the Attack at it, after any number of halvings.
    pub fn put_attack(&mut self, side: Side, stage: u8, value: u16)
        ensures stands { (g : Setting) (f : Field) (change : Active → Active) (penalties : ℕ)
            → Within g self.old f
            → change (active_in side f) ≡ record (active_in side f) {
              stages = record (active_in side f).stages { attack = stage };
              attack_penalties
                  = penalties;
            }
            → value ≡ now Attack (member_in side f) (change (active_in side f)) → stage ≤ 12
            → Within g self.new (changed_active side change f) }
    {
        let active = self.active_mut(side);
        active[ATTACK_STAGE] = stage;
        put_word!(active, CURRENT_ATTACK, value);
    }

    /// Writes the stage of Speed, 0 to 12, and the Speed at it, after any number of quarterings.
    pub fn put_speed(&mut self, side: Side, stage: u8, value: u16)
        ensures stands { (g : Setting) (f : Field) (change : Active → Active) (penalties : ℕ)
            → Within g self.old f
            → change (active_in side f) ≡ record (active_in side f) {
              stages = record (active_in side f).stages { speed = stage };
              speed_penalties
                  = penalties;
            }
            → value ≡ now Speed (member_in side f) (change (active_in side f)) → stage ≤ 12
            → Within g self.new (changed_active side change f) }
    {
        let active = self.active_mut(side);
        active[SPEED_STAGE] = stage;
        put_word!(active, CURRENT_SPEED, value);
    }

    /// Writes the stage of Defense, 0 to 12, and the Defense at it.
    pub fn put_defense(&mut self, side: Side, stage: u8, value: u16)
        ensures stands { (g : Setting) (f : Field) (change : Active → Active) → Within g self.old f
            → change (active_in side f) ≡ record (active_in side f)
            { stages = record (active_in side f).stages { defense = stage } }
            → value ≡ now Defense (member_in side f) (change (active_in side f)) → stage ≤ 12
            → Within g self.new (changed_active side change f) }
    {
        let active = self.active_mut(side);
        active[DEFENSE_STAGE] = stage;
        put_word!(active, CURRENT_DEFENSE, value);
    }

    /// Writes the stage of Special, 0 to 12, and the Special at it.
    pub fn put_special(&mut self, side: Side, stage: u8, value: u16)
        ensures stands { (g : Setting) (f : Field) (change : Active → Active) → Within g self.old f
            → change (active_in side f) ≡ record (active_in side f)
            { stages = record (active_in side f).stages { special = stage } }
            → value ≡ now Special (member_in side f) (change (active_in side f)) → stage ≤ 12
            → Within g self.new (changed_active side change f) }
    {
        let active = self.active_mut(side);
        active[SPECIAL_STAGE] = stage;
        put_word!(active, CURRENT_SPECIAL, value);
    }

    /// Sends out the member at a place, 1 to 6, with these types and these current stats.
    ///
    /// `stats` are its Attack, Defense, Speed and Special. All stages are in the middle, and no condition is on. A
    /// side may have no member out before, as before the first update.
    pub fn put_sent_out(
        &mut self,
        side: Side,
        place: u8,
        first: Element,
        second: Element,
        stats: [u16; 4],
    )
        ensures stands { (g : Setting) (f : Field) (change : Active → Active) (halved quartered : ℕ)
            → Within g self.old f
            → change (active_in side f) ≡ sent_as place first second halved quartered
            → 1 ≤ place → place ≤ length (party side f).members
            → stats ≡ stats_of (member_at place (party side f))
            (sent_as place first second halved quartered)
            → Within g self.new (changed_active side change f) }
        ensures begins { (g : Setting) (f : Field) (change : Active → Active) (halved quartered : ℕ)
            → Packs g self.old f
            → change (active_in side f) ≡ sent_as place first second halved quartered → 1 ≤ place
            → stats ≡ stats_of (member_at place (party side f))
            (sent_as place first second halved quartered)
            → Packs g self.new (changed_active side change f) }
    {
        self.active_mut(side)
            .copy_from_slice(&sent_block(place, first, second, stats));
    }
}

fn sent_block(place: u8, first: Element, second: Element, stats: [u16; 4]) -> [u8; 36]
    ensures { (m : Member) (halved quartered : ℕ)
        → stats ≡ stats_of m (sent_as place first second halved quartered)
        → result ≡ active_block m (sent_as place first second halved quartered) }
{
    // After place, types, stages and stats all bytes are 0: no condition, no count, no move.
    let mut block = [0; 36];
    block[..CONDITIONS].copy_from_slice(&[
        place,
        first.number(),
        second.number(),
        MIDDLE,
        MIDDLE,
        MIDDLE,
        MIDDLE,
        MIDDLE,
        MIDDLE,
        low(stats[0]),
        high(stats[0]),
        low(stats[1]),
        high(stats[1]),
        low(stats[2]),
        high(stats[2]),
        low(stats[3]),
        high(stats[3]),
    ]);
    block
}
