//! The theorem of this repository (docs/PROVED.md), as one program and its contract: it makes the calls that play a battle, and its
//! contract says that they return what the abstract machine says.
ghost use Rattle.std.specs.Prelude.{Ok, length, map, ◌≡◌};
ghost use Rattle.gen1_machine.specs.Layout.{bytes_of};
ghost use Rattle.gen1_machine.specs.State.{State};
ghost use Rattle.gen1_machine.specs.Step.{step};
ghost use Rattle.gen1_machine.specs.View.{shows};
ghost use Rattle.gen1_layout.specs.Shows.{Stands};
ghost use Rattle.gen1_spectator.specs.Plain.{joined};
ghost use Rattle.uses.specs.TheTheorem.{IsLogged, KnowsRuns, after, begun, called, calls_in, logs_of};

use gen1_engine::{Battle, BattleResult, Choices, Refusal};
use gen1_events::{LogBuf, LogFault, LogReader};
use gen1_machine::{Choice, Rules, Side, TurnLimit};
use gen1_spectator::View;
use gen1_stats::Team;

/// What a battle is made of.
#[derive(Drop)]
pub struct Beginning {
    pub one: Team,
    pub two: Team,
    pub seed: [u8; 10],
    pub rules: Rules,
    pub limit: TurnLimit,
}

/// An update: what its caller decides, and what the calls return.
#[derive(Drop)]
pub struct Update {
    /// The choices of side 1 and side 2, offered or not.
    pub one: Choice,
    pub two: Choice,
    /// Whether the battle is loaded from its stored bytes before the update.
    pub is_reloaded: bool,
    /// The battle's 384 bytes before the update.
    pub stored: [u8; 384],
    /// The outcome so far and what each side is asked, before the update.
    pub result: BattleResult,
    /// What each side is offered before the update.
    pub offered_one: Choices,
    pub offered_two: Choices,
    /// What the update returns.
    pub returned: Result<BattleResult, Refusal>,
    /// The log bytes of the update; none if it was refused.
    pub log: LogBuf,
}

// calling: the_theorem
/// Plays any updates of a battle of any two teams, and lets a spectator watch it.
///
/// # Errors
///
/// The pieces are not a log. The logs of these updates are one, however they are cut.
pub fn the_theorem(
    beginning: &Beginning,
    updates: &mut [Update],
    pieces: &[&[u8]],
) -> Result<View, LogFault>
    ensures calls { updates.new ≡ calls_in (begun beginning.now) updates.old }
    ensures watches { joined (map (λ piece. piece.now) pieces.now) ≡ joined (logs_of updates.new)
        → result ≡ Ok (shows (after (begun beginning.now) updates.old).field) }
{
    let mut battle = Battle::with_limit(
        &beginning.one,
        &beginning.two,
        beginning.seed,
        beginning.rules,
        beginning.limit,
    );
    for place in 0..updates.len() {
        call(&mut battle, &mut updates[place]);
    }
    watch(&beginning.one, &beginning.two, pieces)
}
// end

// The calls of one update.
fn call(battle: &mut Battle, update: &mut Update)
    ensures called { (s : State) → Stands battle.old s → update.new ≡ called s update.old }
    ensures logged { (s : State) → Stands battle.old s → IsLogged s update.old update.new }
    ensures goes { (s : State) → Stands battle.old s
        → Stands battle.new (step s update.old.one update.old.two).state }
{
    let now = battle.result();
    let one = battle.choices(Side::One);
    let two = battle.choices(Side::Two);
    update.stored.copy_from_slice(battle.bytes());
    load(update.is_reloaded, &update.stored, battle);
    update.log.clear();
    let returned = battle.update(update.one, update.two, &mut update.log);
    update.result = now;
    update.offered_one = one;
    update.offered_two = two;
    update.returned = returned;
}

// Loads a battle from its stored bytes, or leaves it.
fn load(is_reloaded: bool, stored: &[u8], battle: &mut Battle)
    requires full { length stored.now ≡ 384 }
    requires stored { (s : State) × Stands battle.old s × (stored.now ≡ bytes_of s) }
    ensures { battle.new ≡ battle.old }
{
    if !is_reloaded {
        return;
    }
    match Battle::load(stored) {
        Ok(loaded) => *battle = loaded,
        // What a battle returns as its bytes is loaded.
        Err(_) => unreachable!(),
    }
}

// A spectator that is fed these pieces.
fn watch(one: &Team, two: &Team, pieces: &[&[u8]]) -> Result<View, LogFault>
    ensures { KnowsRuns one.now two.now (joined (map (λ piece. piece.now) pieces.now)) result }
{
    // The contract of `members` says that these are teams.
    let _ones = one.members();
    let _twos = two.members();
    let mut view = View::new(one, two);
    let mut reader = LogReader::new();
    for piece in pieces {
        view.follow(&mut reader, piece)?;
    }
    Ok(view)
}
