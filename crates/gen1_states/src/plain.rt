//! All that a battle's bytes represent, as plain structs (docs/LAYOUT.md). Numbers are as in the bytes, except that a
//! status and a count of sleep are apart.
ghost use Rattle.std.specs.Prelude.{◌<◌, ◌≡◌};
ghost use Rattle.gen1_states.specs.Plain.{first_side, member_at, second_side};

/// A member as it is now; zeros if there is none.
#[repr(C)]
#[derive(Clone, Copy)]
pub struct MemberState {
    pub species: u8,
    pub level: u8,
    /// The kind of its status, 1 to 5; 0 if it is healthy.
    pub status: u8,
    /// How many turns of sleep are left.
    pub sleep: u8,
    /// Whether the sleep clause counts its sleep.
    pub marked: u8,
    pub moves: [u8; 4],
    pub pp: [u8; 4],
    pub hp: u16,
    pub max_hp: u16,
    /// Its own Attack, Defense, Speed and Special.
    pub stats: [u16; 4],
}

/// The active member of a side; zeros before the first update.
#[repr(C)]
#[derive(Clone, Copy)]
pub struct ActiveState {
    /// The bits of its conditions (docs/LAYOUT.md, "Condition bits").
    pub conditions: u32,
    /// Attack, Defense, Speed and Special with stages and penalties.
    pub stats: [u16; 4],
    /// What Bide has stored.
    pub energy: u16,
    pub place: u8,
    pub types: [u8; 2],
    /// Attack, Defense, Speed, Special, accuracy and evasion, from 0 to 12.
    pub stages: [u8; 6],
    /// 0 none, 1 to 4 a slot, 5 Struggle.
    pub current_move: u8,
    pub picked_move: u8,
    pub kept_accuracy: u8,
    pub substitute: u8,
    pub confusion: u8,
    pub disabled_slot: u8,
    pub disabled_turns: u8,
    pub bad_poison: u8,
    /// The turns of Bide, thrashing or trapping.
    pub turns: u8,
}

/// One side: its members by their places, and the active one.
#[repr(C)]
#[derive(Clone, Copy)]
pub struct SideState {
    pub members: [MemberState; 6],
    pub active: ActiveState,
}

/// All that the bytes of a battle represent.
#[repr(C)]
#[derive(Clone, Copy)]
pub struct BattleState {
    pub sides: [SideState; 2],
    pub turn: u16,
    pub limit: u16,
    pub last_damage: u16,
    pub rules: u8,
    pub outcome: u8,
    pub requests: [u8; 2],
    /// The index of the link number that is drawn next.
    pub index: u8,
    /// The nine link numbers in use, then the tenth, which is never drawn.
    pub numbers: [u8; 10],
}

/// Side 1.
pub(crate) fn first_side(state: &BattleState) -> &SideState
    ensures { result.now ≡ first_side state.now }
{
    &state.sides[0]
}

/// Side 2.
pub(crate) fn second_side(state: &BattleState) -> &SideState
    ensures { result.now ≡ second_side state.now }
{
    &state.sides[1]
}

/// The member at a place, counted from 0.
pub(crate) fn member_at(side: &SideState, index: usize) -> &MemberState
    requires { index < 6 }
    ensures { result.now ≡ member_at index side.now }
{
    &side.members[index]
}
