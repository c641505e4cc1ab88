//! The update of a battle that asks both sides for a move: a turn, and its close (docs/MECHANICS.md, "Order of a
//! turn", "Falls and requests").
ghost use Rattle.std.specs.Prelude.{◌≡◌};
ghost use Rattle.gen1_rolls.specs.Draws.{StepsTo};
ghost use Rattle.gen1_layout.specs.Operations.{DoesAnyway, scene};
ghost use Rattle.gen1_layout.specs.Words.{AddsAtMost, HasRoom, [], false, ℕ};
ghost use Rattle.gen1_machine.specs.declared.terms.Request.TheVariants.{Move};
ghost use Rattle.gen1_machine.specs.State.{State};
ghost use Rattle.gen1_machine.specs.Falls.{close};
ghost use Rattle.gen1_machine.specs.Ruling.{ruling_of};
ghost use Rattle.gen1_machine.specs.Turn.{is_cut, turn};
ghost use Rattle.gen1_machine.specs.Step.{close_update};
ghost use Rattle.gen1_layout.specs.Shows.{Stands, setting_of};
ghost use Rattle.gen1_switching.specs.SwitchingIn.{Plays, UpdatesDrawing, drawing_on};

mod choices;
mod parts;

use choices::take_turn;
pub use choices::{end_flinch, first_side, set_picked};
use gen1_events::EventSink;
use gen1_hits::Known;
use gen1_layout::Packed;
use gen1_machine::{Choice, Side};
use gen1_rolls::Rolls;
use gen1_switching::{close, close_uncut};
use parts::BySide;
pub use parts::{act_after_test, act_and_suffer_as, act_to_roll, end_turn};

/// Plays a turn of a battle that asks for moves, by an offered choice of each side (docs/MECHANICS.md, "Order of a
/// turn", "Falls and requests").
///
/// After the turn the fallen faint. Then the battle ends, or asks for switches or for the moves of the next turn.
///
/// Draws come only from `random`, which is returned as the draws leave it. The index and the numbers in the bytes
/// stay as they are. `events` must be empty and have 51 free places. The events of the update are written to it.
pub fn turn<R: Rolls, S: EventSink>(
    battle: &mut Packed,
    one: Choice,
    two: Choice,
    random: R,
    events: &mut S,
) -> R
    requires empty { S.tells events.old [] }
    requires room { HasRoom S.room 51 events.old }
    ensures updated { (s : State) → Stands battle.old s → Plays s Move one two
        → UpdatesDrawing R.drawing random result (setting_of s) (scene S.tells battle events)
        (λ stream drawn. close_update (ruling_of s.terms)
        (turn (ruling_of s.terms) one two (drawing_on stream drawn s))) }
    ensures room { AddsAtMost S.room 51 events.old events.new }
    ensures steps { StepsTo R.drawing random result }
{
    let mut known = Known::new();
    let mut by_side = BySide(random);
    let cut = take_turn(battle, one, two, &mut known, &mut by_side, events);
    close_turn(battle, cut, known.side, events);
    let BySide(left) = by_side;
    left
}

// The end of an update after a turn. One that wasn't cut is not tested again.
fn close_turn<S: EventSink>(battle: &mut Packed, cut: bool, actor: Side, events: &mut S)
    requires space { HasRoom S.room 3 events.old }
    ensures shown { DoesAnyway
        (λ g p Then. g.action.side ≡ actor → (cut ≡ false → is_cut p ≡ false) → Then)
        (scene S.tells battle events) (λ r p. close r p.field.outcome p) }
    ensures room { AddsAtMost S.room 3 events.old events.new }
{
    if cut {
        close(battle, actor, events);
        return;
    }
    close_uncut(battle, events);
}
