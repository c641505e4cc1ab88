//! Which draws let a member act, and which of them make its move hit or hold the foe (docs/MECHANICS.md, "Gate", "Hit test",
//! "Going on").
ghost use Rattle.std.specs.Prelude.{None, Some, if◌then◌else◌, ◌==◌, ◌*◌, ◌≡◌, ◌≤◌};
ghost use Rattle.gen1_layout.specs.Words.{Reads, active_in, conditions_in, is_paralysed, member_in, move_at, nat_lt};
ghost use Rattle.gen1_machine.specs.Picks.{bars, is_idle, must_continue};
ghost use Rattle.gen1_status.specs.Gate.{is_held};
ghost use Rattle.gen1_odds.specs.Acting.{acting_draws, action_odds_in, confusion_draws, holding_draws, holding_reason, how_many_pairs, acts_by, hurting_draws, is_barred, is_bound, is_kept, is_out_of_action, landing_draws, paralysis_draws, pick_of, slot_of, still_confused, still_disabled};
ghost use Rattle.gen1_odds.specs.Trials.{hurts_in, ReadsUnder};

use crate::chances::{critical_draws, deals_usual, hit_draws, side_effect_draws};
use crate::knock_outs::mixed;
use crate::odds::flag;
use crate::reasons::{Reason, hurts, reason_of};
use crate::sights::{
    charges_first, current_number, is_fallen, is_recharging, is_trapping, must_continue,
};
use gen1_hits::{damage, numbers};
use gen1_layout::Packed;
use gen1_machine::{DisabledSlot, Pick, Side, UsedMove};
use gen1_stats::Status;
use gen1_status::used_by;
use gen1_tables::MoveId;

/// The chances that a member acts in a turn and that its move then hits, holds or has its side effect, as exact counts of draws.
#[repr(C)]
#[derive(Clone, Copy)]
pub struct ActionOdds {
    /// How many of the pairs of a draw for confusion and one for paralysis let the member act.
    pub acts: u64,
    /// The number of these pairs: 65,536.
    pub acts_of: u64,
    /// How many of these pairs, with a critical draw and a draw of the hit test, let it act and make its move hit.
    pub hits: u64,
    /// The number of these: 4,294,967,296.
    pub hits_of: u64,
    /// How many of 256 draws give a hit its side effect, 0 to 256, as `side_effect_draws` returns it.
    pub side_effect: u16,
    /// How many of the 256 draws of the hit test hold the foe by a trapping move, 0 to 256, if the member acts.
    pub holds: u16,
    /// Zeros.
    pub zeros: [u8; 4],
}

/// The odds of the action by which a side uses a move in the turn that begins, for the present state of the two members
/// that are out.
///
/// What the foe does before is not counted. The member need not know the move. It does not act if it has to continue
/// another one. A move that only charges does not hit.
pub fn action_odds_of(battle: &Packed, side: Side, id: MoveId) -> ActionOdds
    ensures stands { ReadsUnder battle.now result λ r. action_odds_in r side (move_at id) }
    ensures acts { result.acts ≤ result.acts_of }
    ensures hits { result.hits ≤ result.hits_of }
    ensures side_effect { result.side_effect ≤ 256 }
    ensures holds { result.holds ≤ 256 }
{
    let acts = acting_draws(battle, side, id);
    ActionOdds {
        acts,
        acts_of: 65_536,
        hits: acts * landing_draws(battle, side, id),
        hits_of: 4_294_967_296,
        side_effect: side_effect_draws(battle, side, id),
        holds: holding_draws(battle, side, id),
        zeros: [0; 4],
    }
}

// The pick of a move

fn pick_of(battle: &Packed, side: Side, id: MoveId) -> Pick
    ensures stands { Reads battle.now result (pick_of side (move_at id)) }
{
    if must_continue(battle, side) {
        return Pick::Continue;
    }
    Pick::Use(slot_of(battle, side, id))
}

// The slot that holds a move. Like Struggle, a move that the member doesn't know is in no slot.
fn slot_of(battle: &Packed, side: Side, id: MoveId) -> UsedMove
    ensures stands { Reads battle.now result λ f. slot_of (move_at id).number (member_in side f).moves }
{
    if battle.move_in(side, 1) == id.number() {
        return UsedMove::Slot(1);
    }
    if battle.move_in(side, 2) == id.number() {
        return UsedMove::Slot(2);
    }
    if battle.move_in(side, 3) == id.number() {
        return UsedMove::Slot(3);
    }
    if battle.move_in(side, 4) == id.number() {
        return UsedMove::Slot(4);
    }
    UsedMove::Struggle
}

// Whether the member has to continue another move.
fn is_bound(battle: &Packed, side: Side, id: MoveId) -> bool
    ensures stands { Reads battle.now result (is_bound side (move_at id)) }
{
    let continues = must_continue(battle, side);
    let same = current_number(battle, side) == id.number();
    continues & !same
}

// The gate of a turn that begins

fn acting_draws(battle: &Packed, side: Side, id: MoveId) -> u64
    ensures stands { Reads battle.now result (acting_draws side (move_at id)) }
    ensures most { result ≤ 65536 }
{
    if is_fallen(battle, side) {
        return 0;
    }
    if is_bound(battle, side, id) {
        return 0;
    }
    passing_pairs(battle, side, pick_of(battle, side, id))
}

// The pairs of a draw for confusion and one for paralysis by which a pick passes the gate.
fn passing_pairs(battle: &Packed, side: Side, pick: Pick) -> u64
    ensures stands { Reads battle.now result λ f. how_many_pairs (acts_by side pick f) }
    ensures most { result ≤ 65536 }
{
    if is_kept(battle, side, pick) {
        return 0;
    }
    let confusion = confusion_draws(still_confused(battle.confused(side)));
    let paralysis = paralysis_draws(is_paralysed(battle.status(side)));
    confusion * paralysis
}

fn is_kept(battle: &Packed, side: Side, pick: Pick) -> bool
    ensures stands { Reads battle.now result (is_kept side pick) }
{
    let held = is_held(pick);
    let out = is_out_of_action(battle, side);
    let barred = is_barred(battle, side, pick);
    let idle = is_idle(pick);
    held | (out | (barred | idle))
}

fn is_held(pick: Pick) -> bool
    ensures { result ≡ is_held pick }
{
    matches!(pick, Pick::Held)
}

fn is_idle(pick: Pick) -> bool
    ensures { result ≡ is_idle pick }
{
    matches!(pick, Pick::Idle)
}

fn is_out_of_action(battle: &Packed, side: Side) -> bool
    ensures stands { Reads battle.now result (is_out_of_action side) }
{
    let sleeps = battle.status(side).sleeps_or_freezes();
    let held = is_trapping(battle, side.other());
    let recharges = is_recharging(battle, side);
    sleeps | (held | recharges)
}

fn is_barred(battle: &Packed, side: Side, pick: Pick) -> bool
    ensures stands { Reads battle.now result (is_barred side pick) }
{
    bars(
        still_disabled(battle.disabled(side)),
        used_by(battle, side, pick),
    )
}

// Disable ends with its last turn, before the move is tested.
fn still_disabled(disabled: Option<DisabledSlot>) -> Option<DisabledSlot>
    ensures { result ≡ still_disabled disabled }
{
    match disabled {
        Some(slot) if slot.turns > 1 => Some(slot),
        _ => None,
    }
}

fn bars(disabled: Option<DisabledSlot>, used: UsedMove) -> bool
    ensures { result ≡ bars disabled used }
{
    match (disabled, used) {
        (Some(disabled), UsedMove::Slot(slot)) => slot == disabled.slot,
        _ => false,
    }
}

// Confusion ends with its last turn, without a draw.
fn still_confused(confused: Option<u8>) -> bool
    ensures { result ≡ still_confused confused }
{
    match confused {
        Some(turns) => turns > 1,
        None => false,
    }
}

fn is_paralysed(status: Status) -> bool
    ensures { result ≡ is_paralysed status }
{
    matches!(status, Status::Paralysed)
}

fn confusion_draws(confused: bool) -> u64
    ensures value { result ≡ confusion_draws confused }
    ensures most { result ≤ 256 }
{
    if confused { 128 } else { 256 }
}

fn paralysis_draws(paralysed: bool) -> u64
    ensures value { result ≡ paralysis_draws paralysed }
    ensures most { result ≤ 256 }
{
    if paralysed { 193 } else { 256 }
}

// The hit and the hold

// Of the pairs of a critical draw and one of the hit test, those by which the move hits.
fn landing_draws(battle: &Packed, side: Side, id: MoveId) -> u64
    ensures stands { ReadsUnder battle.now result λ r. landing_draws r side (move_at id) }
    ensures most { result ≤ 65536 }
{
    if charges_first(battle, side, id) {
        return 0;
    }
    let reason = reason_of(battle, side, id);
    let hit = hit_draws(battle, side, id, reason);
    u64::from(hit) * hurting_draws(battle, side, id)
}

// The critical draws that lead to a damage.
fn hurting_draws(battle: &Packed, side: Side, id: MoveId) -> u64
    ensures stands { Reads battle.now result (hurting_draws side (move_at id)) }
    ensures most { result ≤ 256 }
{
    if !deals_usual(battle, side, id) {
        return 256;
    }
    let critical = u64::from(flag(hurts(battle, side, id, true)));
    let usual = u64::from(flag(hurts(battle, side, id, false)));
    mixed(critical_draws(battle, side, id), critical, usual)
}

// Trapping holds a foe that its damage doesn't hurt, and ends by a miss alone.
fn holding_draws(battle: &Packed, side: Side, id: MoveId) -> u16
    ensures stands { Reads battle.now result (holding_draws side (move_at id)) }
    ensures most { result ≤ 256 }
{
    if !id.effect().traps() {
        return 0;
    }
    hit_draws(battle, side, id, holding_reason(battle, side, id))
}

fn holding_reason(battle: &Packed, side: Side, id: MoveId) -> Option<Reason>
    ensures stands { Reads battle.now result (holding_reason side (move_at id)) }
{
    if is_fallen(battle, side) {
        return Some(Reason::Fallen);
    }
    let usual = deals_usual(battle, side, id);
    let faults = damage(&numbers(battle, side, id, false)).is_none();
    if usual & faults {
        return Some(Reason::Fault);
    }
    None
}
