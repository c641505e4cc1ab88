//! Why a use of a move can't hit (docs/MECHANICS.md, "Hit test", "Damage formula", "Fixed damage and one-hit moves").
ghost use Rattle.std.specs.Prelude.{None, Some, if◌then◌else◌, ◌≡◌, ◌≤◌};
ghost use Rattle.gen1_layout.specs.Words.{Reads, active_in, move_at, conditions_in, other, status_in};
ghost use Rattle.gen1_machine.specs.HitTest.{eats_dreams};
ghost use Rattle.gen1_odds.specs.Trials.{bide_by, counter_by, counter_reason, first, fixed_reason, hurts_in, one_hit_reason, reason_by, reason_code, reason_in, reason_number, settled_reason, usual_reason, why_harmless, why_missed, why_settled, ReadsUnder, is_slower_in};

use crate::effect_reasons::{
    confusion_reason, conversion_reason, disable_reason, heal_reason, if_up, lower_reason,
    paralysis_reason, poison_reason, raise_reason, screen_reason, seed_reason, sleep_reason,
    substitute_reason,
};
use crate::sights::{
    Trial, has_focus_energy, has_mist, is_fallen, is_invulnerable, traps_on, trial_of,
};
use gen1_hits::{damage, is_immune, numbers, settled_hit, type_steps};
use gen1_layout::Packed;
use gen1_machine::Side;
use gen1_multiturn::{counter, energy_let_out};
use gen1_stats::Status;
use gen1_tables::{Effect, MoveId, Stat};

/// Why a use of a move can't hit.
#[derive(Clone, Copy, Debug, PartialEq, Eq, Drop)]
pub enum Reason {
    /// The user or the foe has no HP.
    Fallen,
    /// The engine leaves the move out.
    LeftOut,
    /// The move fails in every battle without wild Pokemon.
    AlwaysFails,
    /// The foe has a type that the move's type has no effect on.
    Immune,
    /// The damage is 0 after types.
    NoDamage,
    /// The battle would end with a fault: a divisor of 0, or Psywave at level 1.
    Fault,
    /// The user of a one-hit move is slower than the foe.
    Slower,
    /// The last damage is 0, or the foe's picked move can't be countered.
    NothingToCounter,
    /// Bide has stored no damage to let out.
    NoEnergy,
    /// The foe is awake, and the move is Dream Eater.
    Awake,
    /// The foe is out of reach: it has flown up or dug in.
    Invulnerable,
    /// Mist guards the foe's stats.
    Mist,
    /// The foe's substitute keeps the move away.
    Substitute,
    /// The foe has a status already.
    HasStatus,
    /// The foe's own type guards it.
    OwnType,
    /// The foe is confused already.
    Confused,
    /// The foe is seeded already.
    Seeded,
    /// One of the foe's moves is disabled already.
    Disabled,
    /// None of the foe's moves has PP.
    NoPp,
    /// The stage, or the stat, is at its end.
    Stage,
    /// A member of the foe's side sleeps already, and the battle has the sleep clause.
    SleepClause,
    /// The user has the condition already.
    AlreadyUp,
    /// The user's HP do not allow it.
    Health,
}

impl Reason {
    /// The number of the reason, from 1, as `Odds` has it.
    pub fn number(self) -> u8
        ensures value { result ≡ reason_number self }
        ensures last { result ≤ 23 }
    {
        match self {
            Reason::Fallen => 1,
            Reason::LeftOut => 2,
            Reason::AlwaysFails => 3,
            Reason::Immune => 4,
            Reason::NoDamage => 5,
            Reason::Fault => 6,
            Reason::Slower => 7,
            Reason::NothingToCounter => 8,
            Reason::NoEnergy => 9,
            Reason::Awake => 10,
            Reason::Invulnerable => 11,
            Reason::Mist => 12,
            Reason::Substitute => 13,
            Reason::HasStatus => 14,
            Reason::OwnType => 15,
            Reason::Confused => 16,
            Reason::Seeded => 17,
            Reason::Disabled => 18,
            Reason::NoPp => 19,
            Reason::Stage => 20,
            Reason::SleepClause => 21,
            Reason::AlreadyUp => 22,
            Reason::Health => 23,
        }
    }
}

/// The number of a reason, or 0 for none.
pub(crate) fn reason_code(reason: Option<Reason>) -> u8
    ensures value { result ≡ reason_code reason }
    ensures last { result ≤ 23 }
{
    match reason {
        Some(why) => why.number(),
        None => 0,
    }
}

/// Why a use of a move can't hit, or `None` if it can.
pub(crate) fn reason_of(battle: &Packed, side: Side, id: MoveId) -> Option<Reason>
    ensures stands { ReadsUnder battle.now result λ r. reason_in r side (move_at id) }
{
    if is_fallen(battle, side) {
        return Some(Reason::Fallen);
    }
    if traps_on(battle, side, id) {
        return None;
    }
    reason_by(battle, side, id, trial_of(id.effect()))
}

fn reason_by(battle: &Packed, side: Side, id: MoveId, trial: Trial) -> Option<Reason>
    ensures stands { ReadsUnder battle.now result λ r f. reason_by r side (move_at id) f trial }
{
    match trial {
        Trial::LeftOut => Some(Reason::LeftOut),
        Trial::AlwaysFails => Some(Reason::AlwaysFails),
        Trial::OneHit => one_hit_reason(battle, side, id),
        Trial::Fixed => fixed_reason(battle, side, id),
        Trial::Counter => counter_reason(battle, side, id),
        Trial::Bide => bide_by(energy_let_out(battle, side)),
        Trial::Sleep => sleep_reason(battle, side, id),
        Trial::Confusion => confusion_reason(battle, side, id),
        Trial::Poison => poison_reason(battle, side, id),
        Trial::Paralysis => paralysis_reason(battle, side, id),
        Trial::LeechSeed => seed_reason(battle, side, id),
        Trial::Disable => disable_reason(battle, side, id),
        Trial::Raise(stat) => raise_reason(battle, side, stat),
        Trial::Lower(stat) => lower_reason(battle, side, id, stat),
        Trial::Conversion => conversion_reason(battle, side),
        Trial::Mist => if_up(has_mist(battle, side)),
        Trial::FocusEnergy => if_up(has_focus_energy(battle, side)),
        Trial::Screen => screen_reason(battle, side, id),
        Trial::Heal => heal_reason(battle, side),
        Trial::Substitute => substitute_reason(battle, side),
        Trial::Always => None,
        Trial::Usual => usual_reason(battle, side, id),
    }
}

/// The first of two reasons.
pub(crate) fn first(reason: Option<Reason>, after: Option<Reason>) -> Option<Reason>
    ensures { result ≡ first reason after }
{
    match reason {
        Some(why) => Some(why),
        None => after,
    }
}

/// Why the hit test misses without a draw.
pub(crate) fn settled_reason(battle: &Packed, side: Side, id: MoveId) -> Option<Reason>
    ensures stands { Reads battle.now result (settled_reason side (move_at id)) }
{
    let foe = side.other();
    let away = is_invulnerable(battle, foe);
    let why = why_missed(id.effect(), battle.status(foe), away);
    why_settled(settled_hit(battle, side, id), why)
}

fn why_settled(settled: Option<bool>, why: Reason) -> Option<Reason>
    ensures { result ≡ why_settled settled why }
{
    match settled {
        Some(true) => None,
        Some(false) => Some(why),
        None => None,
    }
}

fn why_missed(effect: Effect, status: Status, is_away: bool) -> Reason
    ensures { result ≡ why_missed effect status is_away }
{
    let dreams = matches!(effect, Effect::DreamEater);
    let asleep = matches!(status, Status::Asleep { .. });
    if dreams && !asleep {
        return Reason::Awake;
    }
    if is_away {
        return Reason::Invulnerable;
    }
    Reason::Mist
}

// A hit without damage misses. A critical hit may hurt where another does not.
fn usual_reason(battle: &Packed, side: Side, id: MoveId) -> Option<Reason>
    ensures stands { Reads battle.now result (usual_reason side (move_at id)) }
{
    let usual = hurts(battle, side, id, false);
    let critical = hurts(battle, side, id, true);
    if usual | critical {
        return settled_reason(battle, side, id);
    }
    Some(why_harmless(battle, side, id))
}

pub(crate) fn hurts(battle: &Packed, side: Side, id: MoveId, critical: bool) -> bool
    ensures stands { Reads battle.now result (hurts_in side (move_at id) critical) }
{
    let numbers = numbers(battle, side, id, critical);
    match damage(&numbers) {
        Some(before) => 0 < type_steps(before, &numbers),
        None => false,
    }
}

fn why_harmless(battle: &Packed, side: Side, id: MoveId) -> Reason
    ensures stands { Reads battle.now result (why_harmless side (move_at id)) }
{
    if damage(&numbers(battle, side, id, false)).is_none() {
        return Reason::Fault;
    }
    if is_immune(battle, side.other(), id.kind()) {
        return Reason::Immune;
    }
    Reason::NoDamage
}

fn one_hit_reason(battle: &Packed, side: Side, id: MoveId) -> Option<Reason>
    ensures stands { Reads battle.now result (one_hit_reason side (move_at id)) }
{
    if is_slower(battle, side) {
        return Some(Reason::Slower);
    }
    if is_immune(battle, side.other(), id.kind()) {
        return Some(Reason::Immune);
    }
    settled_reason(battle, side, id)
}

fn is_slower(battle: &Packed, side: Side) -> bool
    ensures stands { Reads battle.now result (is_slower_in side) }
{
    battle.current_stat(side, Stat::Speed) < battle.current_stat(side.other(), Stat::Speed)
}

const PSYWAVE: u8 = 149;

fn fixed_reason(battle: &Packed, side: Side, id: MoveId) -> Option<Reason>
    ensures stands { Reads battle.now result (fixed_reason side (move_at id)) }
{
    let psywave = id.number() == PSYWAVE;
    let least = battle.level(side) <= 1;
    first(settled_reason(battle, side, id), fault_if(psywave & least))
}

fn fault_if(faults: bool) -> Option<Reason>
    ensures { result ≡ (if faults then Some Reason.Fault else None) }
{
    if faults { Some(Reason::Fault) } else { None }
}

fn counter_reason(battle: &Packed, side: Side, id: MoveId) -> Option<Reason>
    ensures stands { Reads battle.now result (counter_reason side (move_at id)) }
{
    counter_by(counter(battle, side), settled_reason(battle, side, id))
}

fn counter_by(countered: Option<u16>, after: Option<Reason>) -> Option<Reason>
    ensures { result ≡ counter_by countered after }
{
    match countered {
        Some(_) => after,
        None => Some(Reason::NothingToCounter),
    }
}

fn bide_by(released: Option<u16>) -> Option<Reason>
    ensures { result ≡ bide_by released }
{
    match released {
        Some(0) => Some(Reason::NoEnergy),
        Some(_) => None,
        None => None,
    }
}
