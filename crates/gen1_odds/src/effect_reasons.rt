//! Why a move can't give the foe a status or another condition, or lower its stat, and why a move of the user alone fails
//! (docs/MECHANICS.md, "Early effects", "Late effects", "Side effects").
ghost use Rattle.std.specs.Prelude.{None, Some, if◌then◌else◌, is_some, ◌&&◌, ◌≡◌};
ghost use Rattle.gen1_tables.specs.declared.types.Element.TheVariants.{Electric, Grass, Ground};
ghost use Rattle.gen1_tables.specs.Types.{same_type};
ghost use Rattle.gen1_machine.specs.State.{has_type};
ghost use Rattle.gen1_machine.specs.SideEffects.{has_pp};
ghost use Rattle.gen1_machine.specs.EarlyEffects.{resists_healing};
ghost use Rattle.gen1_machine.specs.StageShift.{stands_at};
ghost use Rattle.gen1_layout.specs.Words.{Reads, active_in, conditions_in, has_number, member_in, move_at};
ghost use Rattle.gen1_odds.specs.Trials.{ReadsUnder, clause_reason, confusion_reason, conversion_reason, disable_reason, heal_reason, if_up, is_lowest, lower_reason, paralysis_reason, poison_reason, raise_reason, screen_reason, seed_reason, sleep_reason, substitute_reason};

use crate::reasons::{Reason, first, settled_reason};
use crate::sights::{
    has_light_screen, has_reflect, has_status, has_substitute, has_type, is_confused, is_disabled,
    is_invulnerable, is_recharging, is_seeded,
};
use gen1_layout::Packed;
use gen1_machine::Side;
use gen1_status::has_marked_sleeper;
use gen1_tables::{Element, MoveId, Stat};

pub(crate) fn poison_reason(battle: &Packed, side: Side, id: MoveId) -> Option<Reason>
    ensures stands { Reads battle.now result (poison_reason side (move_at id)) }
{
    let foe = side.other();
    if has_substitute(battle, foe) {
        return Some(Reason::Substitute);
    }
    if has_status(battle, foe) {
        return Some(Reason::HasStatus);
    }
    if has_type(battle, foe, Element::Poison) {
        return Some(Reason::OwnType);
    }
    settled_reason(battle, side, id)
}

pub(crate) fn paralysis_reason(battle: &Packed, side: Side, id: MoveId) -> Option<Reason>
    ensures stands { Reads battle.now result (paralysis_reason side (move_at id)) }
{
    let foe = side.other();
    if has_status(battle, foe) {
        return Some(Reason::HasStatus);
    }
    if is_grounded(battle, foe, id.kind()) {
        return Some(Reason::OwnType);
    }
    settled_reason(battle, side, id)
}

fn is_grounded(battle: &Packed, side: Side, kind: Element) -> bool
    ensures stands { Reads battle.now result λ f.
        (same_type kind Electric && has_type Ground (active_in side f)) }
{
    kind == Element::Electric && has_type(battle, side, Element::Ground)
}

// A foe that has to recharge falls asleep without any other test.
pub(crate) fn sleep_reason(battle: &Packed, side: Side, id: MoveId) -> Option<Reason>
    ensures stands { ReadsUnder battle.now result λ r. sleep_reason r side (move_at id) }
{
    let foe = side.other();
    if is_recharging(battle, foe) {
        return clause_reason(battle, side);
    }
    if has_status(battle, foe) {
        return Some(Reason::HasStatus);
    }
    first(
        settled_reason(battle, side, id),
        clause_reason(battle, side),
    )
}

fn clause_reason(battle: &Packed, side: Side) -> Option<Reason>
    ensures stands { ReadsUnder battle.now result λ r. clause_reason r side }
{
    let clause = battle.sleep_clause();
    let sleeper = has_marked_sleeper(battle, side.other());
    clause_if(clause & sleeper)
}

fn clause_if(holds: bool) -> Option<Reason>
    ensures { result ≡ (if holds then Some Reason.SleepClause else None) }
{
    if holds {
        Some(Reason::SleepClause)
    } else {
        None
    }
}

pub(crate) fn confusion_reason(battle: &Packed, side: Side, id: MoveId) -> Option<Reason>
    ensures stands { Reads battle.now result (confusion_reason side (move_at id)) }
{
    let foe = side.other();
    if has_substitute(battle, foe) {
        return Some(Reason::Substitute);
    }
    first(
        settled_reason(battle, side, id),
        confused_reason(battle, foe),
    )
}

fn confused_reason(battle: &Packed, side: Side) -> Option<Reason>
    ensures stands { Reads battle.now result λ f.
        (if is_some (conditions_in side f).confused then Some Reason.Confused else None) }
{
    if is_confused(battle, side) {
        return Some(Reason::Confused);
    }
    None
}

pub(crate) fn seed_reason(battle: &Packed, side: Side, id: MoveId) -> Option<Reason>
    ensures stands { Reads battle.now result (seed_reason side (move_at id)) }
{
    first(
        settled_reason(battle, side, id),
        seeded_reason(battle, side.other()),
    )
}

fn seeded_reason(battle: &Packed, side: Side) -> Option<Reason>
    ensures stands { Reads battle.now result λ f.
        (if (conditions_in side f).seeded then Some Reason.Seeded
        else if has_type Grass (active_in side f) then Some Reason.OwnType else None) }
{
    if is_seeded(battle, side) {
        return Some(Reason::Seeded);
    }
    if has_type(battle, side, Element::Grass) {
        return Some(Reason::OwnType);
    }
    None
}

pub(crate) fn disable_reason(battle: &Packed, side: Side, id: MoveId) -> Option<Reason>
    ensures stands { Reads battle.now result (disable_reason side (move_at id)) }
{
    first(
        settled_reason(battle, side, id),
        disabled_reason(battle, side.other()),
    )
}

fn disabled_reason(battle: &Packed, side: Side) -> Option<Reason>
    ensures stands { Reads battle.now result λ f.
        (if is_some (conditions_in side f).disabled then Some Reason.Disabled
        else if has_pp (member_in side f).moves then None else Some Reason.NoPp) }
{
    if is_disabled(battle, side) {
        return Some(Reason::Disabled);
    }
    if has_pp(battle, side) {
        return None;
    }
    Some(Reason::NoPp)
}

// Whether a move of the member that is out has PP left.
fn has_pp(battle: &Packed, side: Side) -> bool
    ensures stands { Reads battle.now result λ f. has_pp (member_in side f).moves }
{
    let one = battle.pp(side, 1) > 0;
    let two = battle.pp(side, 2) > 0;
    let three = battle.pp(side, 3) > 0;
    let four = battle.pp(side, 4) > 0;
    // All four are read, so that no branch depends on which has PP.
    one | (two | (three | four))
}

pub(crate) fn lower_reason(battle: &Packed, side: Side, id: MoveId, stat: Stat) -> Option<Reason>
    ensures stands { Reads battle.now result (lower_reason stat side (move_at id)) }
{
    let foe = side.other();
    if has_substitute(battle, foe) {
        return Some(Reason::Substitute);
    }
    first(
        settled_reason(battle, side, id),
        lowest_reason(battle, foe, stat),
    )
}

fn lowest_reason(battle: &Packed, side: Side, stat: Stat) -> Option<Reason>
    ensures stands { Reads battle.now result λ f.
        (if is_lowest stat side f then Some Reason.Stage else None) }
{
    if is_lowest(battle, side, stat) {
        return Some(Reason::Stage);
    }
    None
}

/// Whether a stage, or the stat, doesn't fall any more.
pub(crate) fn is_lowest(battle: &Packed, side: Side, stat: Stat) -> bool
    ensures stands { Reads battle.now result (is_lowest stat side) }
{
    let last = battle.stage(side, stat) == 0;
    let least = stands_at(battle, side, stat, 1);
    last | least
}

pub(crate) fn if_up(is_up: bool) -> Option<Reason>
    ensures { result ≡ if_up is_up }
{
    if is_up { Some(Reason::AlreadyUp) } else { None }
}

const LIGHT_SCREEN: u8 = 113;

pub(crate) fn screen_reason(battle: &Packed, side: Side, id: MoveId) -> Option<Reason>
    ensures stands { Reads battle.now result (screen_reason side (move_at id)) }
{
    if id.number() == LIGHT_SCREEN {
        return if_up(has_light_screen(battle, side));
    }
    if_up(has_reflect(battle, side))
}

pub(crate) fn conversion_reason(battle: &Packed, side: Side) -> Option<Reason>
    ensures stands { Reads battle.now result (conversion_reason side) }
{
    if is_invulnerable(battle, side.other()) {
        return Some(Reason::Invulnerable);
    }
    None
}

pub(crate) fn heal_reason(battle: &Packed, side: Side) -> Option<Reason>
    ensures stands { Reads battle.now result (heal_reason side) }
{
    if resists_healing(battle.max_hp(side).saturating_sub(battle.hp(side))) {
        return Some(Reason::Health);
    }
    None
}

// Healing fails at these losses, whatever the maximum is.
fn resists_healing(lost: u16) -> bool
    ensures { result ≡ resists_healing lost }
{
    lost == 0 || lost == 255 || lost == 511
}

pub(crate) fn substitute_reason(battle: &Packed, side: Side) -> Option<Reason>
    ensures stands { Reads battle.now result (substitute_reason side) }
{
    if has_substitute(battle, side) {
        return Some(Reason::AlreadyUp);
    }
    if battle.hp(side) < battle.max_hp(side) / 4 {
        return Some(Reason::Health);
    }
    None
}

pub(crate) fn raise_reason(battle: &Packed, side: Side, stat: Stat) -> Option<Reason>
    ensures stands { Reads battle.now result (raise_reason stat side) }
{
    let last = 12 <= battle.stage(side, stat);
    let most = stands_at(battle, side, stat, 999);
    if last | most {
        return Some(Reason::Stage);
    }
    None
}

/// Whether a current stat has this value. Accuracy and evasion have no value.
fn stands_at(battle: &Packed, side: Side, stat: Stat, value: u16) -> bool
    ensures stands { Reads battle.now result (stands_at value stat side) }
{
    has_number(stat) && battle.current_stat(side, stat) == value
}

fn has_number(stat: Stat) -> bool
    ensures { result ≡ has_number stat }
{
    !matches!(stat, Stat::Accuracy | Stat::Evasion)
}
