//! A member that has appeared, as the log showed it last (docs/MECHANICS.md, "What the log makes public").
ghost use Rattle.std.specs.Prelude.{IfSome, length, ◌<◌, ◌≡◌};
ghost use Rattle.std.specs.List.{position};
ghost use Rattle.gen1_player.specs.Public.{is_afflicted, is_cured, is_overtaken, is_slot, has_fainted, may_rest, not_seen, put_to_sleep_by, sleeps_on, uses_again};

use gen1_machine::{CantReason, Kind};

// The number of Rest.
const REST: u8 = 156;

// The numbers of `asleep_by`.
const BY_FOE: u8 = 1;

const BY_REST: u8 = 2;

const MAY_REST: u8 = 3;

// The most turns that a member sleeps before the one in which it wakes.
const MOST_TURNS: u8 = 6;

/// A move that a member was seen to prepare or to use.
#[repr(C)]
#[derive(Clone, Copy, Debug, PartialEq, Eq, Drop)]
pub struct SeenMove {
    /// The number of the move, 1 to 165; 0 in a free slot.
    pub id: u8,
    /// How often the member used it; 255 for that many and more. A use that may be one going on is not counted. 0 for a move that it has
    /// only prepared, and in a free slot.
    pub uses: u8,
}

/// A member as the log showed it last. All numbers are 0 for a place from which no member has appeared.
#[repr(C)]
#[derive(Clone, Copy, Debug, PartialEq, Eq, Drop)]
pub struct Seen {
    /// 0 to `max`.
    pub hp: u16,
    /// 11 to 999.
    pub max: u16,
    /// 1 to 151.
    pub species: u8,
    /// 1 to 100.
    pub level: u8,
    /// The number of its kind of status, 1 to 5; 0 without one.
    pub status: u8,
    /// In the order in which they were first seen. A member uses at most five moves, four and Struggle.
    pub moves: [SeenMove; 5],
    /// What put it to sleep: 1 a move of the foe, 2 its own Rest; 0 while it is awake. An awake member that has used Rest has 3 until it
    /// falls asleep, uses another move, or the foe uses one.
    pub asleep_by: u8,
    /// How many turns it has slept, as the log showed, 0 to 6; 0 while it is awake. It wakes in the turn after 0 to 6 of them, after its Rest
    /// in the turn after one.
    pub slept: u8,
    /// 0.
    pub unused: u8,
}

impl Seen {
    /// A place from which no member has appeared.
    pub(crate) fn none() -> Self
        ensures { result ≡ not_seen }
    {
        Seen {
            hp: 0,
            max: 0,
            species: 0,
            level: 0,
            status: 0,
            moves: [SeenMove { id: 0, uses: 0 }; 5],
            asleep_by: 0,
            slept: 0,
            unused: 0,
        }
    }

    /// The member after more uses of a move.
    pub(crate) fn after_use(self, id: u8, more: u8) -> Self
        ensures { result ≡ uses_again more id self }
    {
        let mut seen = self;
        seen.asleep_by = may_rest(id);
        if let Some(slot) = slot_of(&seen.moves, id) {
            let uses = seen.moves[slot].uses.saturating_add(more);
            seen.moves[slot] = SeenMove { id, uses };
        }
        seen
    }

    /// The member after a move of the foe, which comes after its Rest.
    pub(crate) fn overtaken(self) -> Self
        ensures { result ≡ is_overtaken self }
    {
        let mut seen = self;
        if seen.asleep_by == MAY_REST {
            seen.asleep_by = 0;
        }
        seen
    }

    /// The member after it was kept from acting: one more turn asleep.
    pub(crate) fn kept(self, why: CantReason) -> Self
        ensures { result ≡ sleeps_on why self }
    {
        let mut seen = self;
        if matches!(why, CantReason::Asleep) {
            seen.slept = seen.slept.saturating_add(1).min(MOST_TURNS);
        }
        seen
    }

    /// The member with a status.
    pub(crate) fn afflicted(self, kind: Kind) -> Self
        ensures { result ≡ is_afflicted kind self }
    {
        let mut seen = self;
        seen.status = kind.number();
        if matches!(kind, Kind::Sleep) {
            seen.asleep_by = put_to_sleep_by(seen.asleep_by);
            seen.slept = 0;
        }
        seen
    }

    /// The member without a status.
    pub(crate) fn cured(self) -> Self
        ensures { result ≡ is_cured self }
    {
        let mut seen = self;
        seen.status = 0;
        seen.asleep_by = 0;
        seen.slept = 0;
        seen
    }

    /// The member after its faint.
    pub(crate) fn fainted(self) -> Self
        ensures { result ≡ has_fainted self }
    {
        let mut seen = self.cured();
        seen.hp = 0;
        seen
    }
}

fn may_rest(id: u8) -> u8
    ensures { result ≡ may_rest id }
{
    if id == REST { MAY_REST } else { 0 }
}

fn put_to_sleep_by(asleep_by: u8) -> u8
    ensures { result ≡ put_to_sleep_by asleep_by }
{
    if asleep_by == MAY_REST {
        BY_REST
    } else {
        BY_FOE
    }
}

fn slot_of(slots: &[SeenMove], id: u8) -> Option<usize>
    ensures value { result ≡ position (is_slot id) slots.now }
    ensures bound { IfSome result (λ slot. slot < length slots.now) }
{
    slots.iter().position(|it| is_slot(it, id))
}

fn is_slot(slot: &SeenMove, id: u8) -> bool
    ensures { result ≡ is_slot id slot.now }
{
    slot.id == id || slot.id == 0
}
