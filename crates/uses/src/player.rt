//! A random player: two sides that choose at random, until the battle is over.
// calling: gen1_engine
ghost use Rattle.std.specs.Prelude.{IfOk, IsOk, length, true, ◌≡◌, ◌≤◌};
ghost use Rattle.gen1_machine.specs.State.{State, is_over};
ghost use Rattle.gen1_machine.specs.Step.{is_among};
ghost use Rattle.gen1_layout.specs.Shows.{Stands};
ghost use Rattle.uses.specs.Examples.{PlayedOut};

use gen1_engine::{Battle, BattleResult, Choices, Refusal};
use gen1_machine::{Choice, EventList, Side};
use gen1_rolls::Rolls;

/// Plays a battle to its end, by random choices among those offered, and returns how it ended. The events of the last update are
/// left in `events`. Offered choices are never refused, so it always returns `Ok`.
pub fn play_at_random<R: Rolls>(
    battle: &mut Battle,
    random: &mut R,
    events: &mut EventList,
) -> Result<BattleResult, Refusal>
    ensures ended { (s : State) → Stands battle.old s → IfOk result (PlayedOut s battle.new) }
    ensures succeeds { IsOk result }
{
    // No battle takes more updates (docs/MECHANICS.md, "Turn limit").
    'updates: for _ in 0..u32::from(battle.limit()) + 11 {
        let now = battle.result();
        if now.outcome.is_over() {
            return Ok(now);
        }
        let one = pick(&battle.choices(Side::One), random);
        let two = pick(&battle.choices(Side::Two), random);
        battle.update_events(one, two, events)?;
    }
    Ok(battle.result())
}

fn pick<R: Rolls>(choices: &Choices, random: &mut R) -> Choice
    ensures { 1 ≤ length choices.now.items → is_among result choices.now.items ≡ true }
{
    let choices = choices.as_slice();
    match choices.len() {
        0 => Choice::Pass,
        count => choices[usize::from(random.draw()) % count],
    }
}
// end
