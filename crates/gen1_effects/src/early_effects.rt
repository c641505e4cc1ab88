//! Effects that act before any damage and end the action, each by the effect of the move (docs/MECHANICS.md, "Early
//! effects").
ghost use Rattle.std.specs.Prelude.{◌≡◌};
ghost use Rattle.gen1_rolls.specs.Draws.{Steps};
ghost use Rattle.gen1_machine.specs.EarlyEffects.{early_effect, is_early};
ghost use Rattle.gen1_layout.specs.Operations.{Draws, anything, scene};
ghost use Rattle.gen1_layout.specs.Words.{AddsAtMost, HasRoom, move_at, stop, true, ◌▸◌};
ghost use Rattle.gen1_hits.specs.Knowing.{IsUncounted, Leaves, aware, beginning};
ghost use Rattle.gen1_effects.specs.EarlyEffects.{way_of};

mod haze;
mod own_effects;
mod status_moves;

use gen1_events::EventSink;
use gen1_hits::Known;
use gen1_layout::Packed;
use gen1_machine::Side;
use gen1_rolls::Rolls;
use gen1_status::{fail, make_substitute};
use gen1_tables::{Effect, MoveId};
use haze::haze;
use own_effects::{convert, heal, set_focus_energy, set_mist, set_screen, splash};
use status_moves::{confuse_foe, paralyse_foe, poison_foe, seed_foe};

/// Whether an effect is early, so that [`group_one`] handles it (docs/MECHANICS.md, "Early effects").
pub fn is_early(effect: Effect) -> bool
    ensures { result ≡ is_early effect }
{
    matches!(
        effect,
        Effect::AlwaysFails
            | Effect::Conversion
            | Effect::Mist
            | Effect::FocusEnergy
            | Effect::Screen
            | Effect::Haze
            | Effect::InflictConfusion
            | Effect::Heal
            | Effect::InflictPoison
            | Effect::InflictParalysis
            | Effect::LeechSeed
            | Effect::Substitute
            | Effect::Splash
    )
}

/// Plays a move of `side` whose effect is early (docs/MECHANICS.md, "Early effects").
///
/// These are moves that always fail, Conversion, Mist, Focus Energy, screens, Haze, confusion, healing, poison,
/// paralysis, Leech Seed, Substitute and Splash.
///
/// The action has just begun. It takes at most two draws and writes at most two events, and needs two free places in
/// `events`. A move that fails or misses reports that by an event, and changes nothing but what a miss changes.
pub fn group_one<R: Rolls, S: EventSink>(
    battle: &mut Packed,
    side: Side,
    id: MoveId,
    random: &mut R,
    events: &mut S,
)
    requires room { HasRoom S.room 2 events.old }
    requires early { is_early (move_at id).effect ≡ true }
    ensures shown { Leaves R.drawing random anything (beginning side (scene S.tells battle events))
        (λ rules. early_effect side (move_at id) (move_at id).effect ▸ stop) }
    ensures room { AddsAtMost S.room 2 events.old events.new }
    ensures steps { Steps R.drawing random }
{
    let mut known = Known::new().begun(side);
    group_one_knowing(battle, side, id, &mut known, random, events);
}

/// Does what [`group_one`] does in the middle of an action, which `known` describes.
///
/// Afterwards `known` holds the miss and the byte of a hit test, and after Haze whether the foe is skipped this turn.
pub fn group_one_knowing<R: Rolls, S: EventSink>(
    battle: &mut Packed,
    side: Side,
    id: MoveId,
    known: &mut Known,
    random: &mut R,
    events: &mut S,
)
    requires room { HasRoom S.room 2 events.old }
    requires early { is_early (move_at id).effect ≡ true }
    ensures shown { Draws R.drawing random (aware known (scene S.tells battle events)) true
        (early_effect side (move_at id) (move_at id).effect ▸ stop) }
    ensures counts { IsUncounted known.old → IsUncounted known.new }
    ensures room { AddsAtMost S.room 2 events.old events.new }
    ensures steps { Steps R.drawing random }
{
    match way_of(id.effect()) {
        Way::Fails => fail(battle, side, events),
        Way::Conversion => convert(battle, side, events),
        Way::Mist => set_mist(battle, side, events),
        Way::FocusEnergy => set_focus_energy(battle, side, events),
        Way::Screen => set_screen(battle, side, id, events),
        Way::Haze => haze(battle, side, known, events),
        Way::Confusion => confuse_foe(battle, side, id, known, random, events),
        Way::Heal => heal(battle, side, id, events),
        Way::Poison => poison_foe(battle, side, id, known, random, events),
        Way::Paralysis => paralyse_foe(battle, side, id, known, random, events),
        Way::LeechSeed => seed_foe(battle, side, id, known, random, events),
        Way::Substitute => {
            make_substitute(battle, side, events);
        }
        Way::Splash => splash(battle, side, events),
    }
}

// The ways of early effects.
#[derive(Clone, Copy)]
enum Way {
    Fails,
    Conversion,
    Mist,
    FocusEnergy,
    Screen,
    Haze,
    Confusion,
    Heal,
    Poison,
    Paralysis,
    LeechSeed,
    Substitute,
    Splash,
}

fn way_of(effect: Effect) -> Way
    ensures { result ≡ way_of effect }
{
    match effect {
        Effect::Conversion => Way::Conversion,
        Effect::Mist => Way::Mist,
        Effect::FocusEnergy => Way::FocusEnergy,
        Effect::Screen => Way::Screen,
        Effect::Haze => Way::Haze,
        Effect::InflictConfusion => Way::Confusion,
        Effect::Heal => Way::Heal,
        Effect::InflictPoison => Way::Poison,
        Effect::InflictParalysis => Way::Paralysis,
        Effect::LeechSeed => Way::LeechSeed,
        Effect::Substitute => Way::Substitute,
        Effect::Splash => Way::Splash,
        _ => Way::Fails,
    }
}
