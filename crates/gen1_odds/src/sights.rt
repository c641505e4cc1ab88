//! What a use of a move finds in a battle, the kinds of use, and whether it continues (docs/MECHANICS.md, "Conditions",
//! "Going on", "Kept accuracy").
ghost use Rattle.std.specs.Prelude.{◌||◌, ◌≡◌};
ghost use Rattle.gen1_machine.specs.Picks.{must_continue, number_in};
ghost use Rattle.gen1_machine.specs.State.{has_fallen_in, has_type};
ghost use Rattle.gen1_layout.specs.Words.{Reads, active_in, conditions_in, is_some, member_in, move_at, other, underway_in};
ghost use Rattle.gen1_odds.specs.Trials.{base_in, charges_first, goes_on_in, has_status_in, has_substitute_in, is_on_in, traps_on_in, trial_of};

use gen1_layout::{Conditions, Packed};
use gen1_machine::Side;
use gen1_status::{keeps_going, number_of};
use gen1_tables::{Effect, Element, MoveId, Stat};

// A condition that is on or off.
#[derive(Clone, Copy)]
pub(crate) enum Sight {
    Trapping,
    Charging,
    Invulnerable,
    Mist,
    FocusEnergy,
    Recharge,
    Seeded,
    LightScreen,
    Reflect,
}

fn is_on(battle: &Packed, side: Side, sight: Sight) -> bool
    ensures stands { Reads battle.now result (is_on_in sight side) }
{
    match sight {
        Sight::Trapping => battle.is_on(side, Conditions::TRAPPING),
        Sight::Charging => battle.is_on(side, Conditions::CHARGING),
        Sight::Invulnerable => battle.is_on(side, Conditions::INVULNERABLE),
        Sight::Mist => battle.is_on(side, Conditions::MIST),
        Sight::FocusEnergy => battle.is_on(side, Conditions::FOCUS_ENERGY),
        Sight::Recharge => battle.is_on(side, Conditions::RECHARGE),
        Sight::Seeded => battle.is_on(side, Conditions::SEEDED),
        Sight::LightScreen => battle.is_on(side, Conditions::LIGHT_SCREEN),
        Sight::Reflect => battle.is_on(side, Conditions::REFLECT),
    }
}

pub(crate) fn is_invulnerable(battle: &Packed, side: Side) -> bool
    ensures stands { Reads battle.now result λ f. (conditions_in side f).invulnerable }
{
    is_on(battle, side, Sight::Invulnerable)
}

pub(crate) fn has_mist(battle: &Packed, side: Side) -> bool
    ensures stands { Reads battle.now result λ f. (conditions_in side f).mist }
{
    is_on(battle, side, Sight::Mist)
}

pub(crate) fn has_focus_energy(battle: &Packed, side: Side) -> bool
    ensures stands { Reads battle.now result λ f. (conditions_in side f).focus_energy }
{
    is_on(battle, side, Sight::FocusEnergy)
}

pub(crate) fn has_light_screen(battle: &Packed, side: Side) -> bool
    ensures stands { Reads battle.now result λ f. (conditions_in side f).light_screen }
{
    is_on(battle, side, Sight::LightScreen)
}

pub(crate) fn has_reflect(battle: &Packed, side: Side) -> bool
    ensures stands { Reads battle.now result λ f. (conditions_in side f).reflect }
{
    is_on(battle, side, Sight::Reflect)
}

pub(crate) fn is_seeded(battle: &Packed, side: Side) -> bool
    ensures stands { Reads battle.now result λ f. (conditions_in side f).seeded }
{
    is_on(battle, side, Sight::Seeded)
}

pub(crate) fn is_recharging(battle: &Packed, side: Side) -> bool
    ensures stands { Reads battle.now result λ f. (underway_in side f).recharge }
{
    is_on(battle, side, Sight::Recharge)
}

fn is_charging(battle: &Packed, side: Side) -> bool
    ensures stands { Reads battle.now result λ f. (underway_in side f).charging }
{
    is_on(battle, side, Sight::Charging)
}

pub(crate) fn is_trapping(battle: &Packed, side: Side) -> bool
    ensures stands { Reads battle.now result λ f. is_some (underway_in side f).trapping }
{
    is_on(battle, side, Sight::Trapping)
}

/// Whether something keeps the member at its current move.
pub(crate) fn must_continue(battle: &Packed, side: Side) -> bool
    ensures stands { Reads battle.now result λ f. must_continue (underway_in side f) }
{
    battle.has_any(side, Conditions::CONTINUES)
}

pub(crate) fn is_confused(battle: &Packed, side: Side) -> bool
    ensures stands { Reads battle.now result λ f. is_some (conditions_in side f).confused }
{
    battle.confused(side).is_some()
}

pub(crate) fn is_disabled(battle: &Packed, side: Side) -> bool
    ensures stands { Reads battle.now result λ f. is_some (conditions_in side f).disabled }
{
    battle.disabled(side).is_some()
}

pub(crate) fn has_substitute(battle: &Packed, side: Side) -> bool
    ensures stands { Reads battle.now result (has_substitute_in side) }
{
    battle.substitute(side).is_some()
}

pub(crate) fn has_status(battle: &Packed, side: Side) -> bool
    ensures stands { Reads battle.now result (has_status_in side) }
{
    !battle.status(side).is_healthy()
}

pub(crate) fn has_type(battle: &Packed, side: Side, kind: Element) -> bool
    ensures stands { Reads battle.now result λ f. has_type kind (active_in side f) }
{
    let first = battle.first_type(side);
    let second = battle.second_type(side);
    kind == first || kind == second
}

/// Whether the member of a side or its foe has fallen.
pub(crate) fn is_fallen(battle: &Packed, side: Side) -> bool
    ensures stands { Reads battle.now result λ f. (has_fallen_in side f || has_fallen_in (other side) f) }
{
    battle.has_fallen(side) || battle.has_fallen(side.other())
}

/// What decides whether a use of a move hits.
#[derive(Clone, Copy)]
pub(crate) enum Trial {
    LeftOut,
    AlwaysFails,
    OneHit,
    Fixed,
    Counter,
    Bide,
    Sleep,
    Confusion,
    Poison,
    Paralysis,
    LeechSeed,
    Disable,
    Raise(Stat),
    Lower(Stat),
    Conversion,
    Mist,
    FocusEnergy,
    Screen,
    Heal,
    Substitute,
    // Haze and Splash.
    Always,
    // Damage by the usual numbers.
    Usual,
}

pub(crate) fn trial_of(effect: Effect) -> Trial
    ensures { result ≡ trial_of effect }
{
    match effect {
        Effect::LeftOut => Trial::LeftOut,
        Effect::AlwaysFails => Trial::AlwaysFails,
        Effect::OneHitKnockOut => Trial::OneHit,
        Effect::FixedDamage => Trial::Fixed,
        Effect::SuperFang => Trial::Fixed,
        Effect::Counter => Trial::Counter,
        Effect::Bide => Trial::Bide,
        Effect::InflictSleep => Trial::Sleep,
        Effect::InflictConfusion => Trial::Confusion,
        Effect::InflictPoison => Trial::Poison,
        Effect::InflictParalysis => Trial::Paralysis,
        Effect::LeechSeed => Trial::LeechSeed,
        Effect::Disable => Trial::Disable,
        Effect::StatUp(stat, _) => Trial::Raise(stat),
        Effect::StatDown(stat, _) => Trial::Lower(stat),
        Effect::Conversion => Trial::Conversion,
        Effect::Mist => Trial::Mist,
        Effect::FocusEnergy => Trial::FocusEnergy,
        Effect::Screen => Trial::Screen,
        Effect::Heal => Trial::Heal,
        Effect::Substitute => Trial::Substitute,
        Effect::Haze => Trial::Always,
        Effect::Splash => Trial::Always,
        _ => Trial::Usual,
    }
}

/// The number of the move that was used last, or 0 for none.
#[tactic(auto, using(gen1_layout::proofs::Steps::active_ok))]
pub(crate) fn current_number(battle: &Packed, side: Side) -> u8
    ensures stands { Reads battle.now result λ f.
        number_in (active_in side f).current_move (member_in side f).moves }
{
    number_of(battle, side, battle.current_move(side))
}

fn goes_on(battle: &Packed, side: Side, id: MoveId) -> bool
    ensures stands { Reads battle.now result (goes_on_in side (move_at id)) }
{
    let keeps = keeps_going(battle, side);
    let same = current_number(battle, side) == id.number();
    keeps & same
}

/// Whether the move is trapping that continues.
pub(crate) fn traps_on(battle: &Packed, side: Side, id: MoveId) -> bool
    ensures stands { Reads battle.now result (traps_on_in side (move_at id)) }
{
    let traps = id.effect().traps();
    let goes_on = goes_on(battle, side, id);
    traps & goes_on
}

/// The accuracy byte of the hit test, before stages: the move's own, or the one that was kept.
pub(crate) fn base(battle: &Packed, side: Side, id: MoveId) -> u8
    ensures stands { Reads battle.now result (base_in side (move_at id)) }
{
    if goes_on(battle, side, id) {
        return battle.kept_accuracy(side);
    }
    id.accuracy_byte()
}

/// Whether the user would only charge, and strike in its next action.
pub(crate) fn charges_first(battle: &Packed, side: Side, id: MoveId) -> bool
    ensures stands { Reads battle.now result (charges_first side (move_at id)) }
{
    let charges = id.effect().charges();
    let charged = is_charging(battle, side);
    charges & !charged
}
