//! The theorem of this repository (docs/PROVED.md) for the calls from C (include/gen1.h, "beginning", "playing", "watching"), as one
//! program and its contract: it makes the calls that play a battle, and its contract says that they return what the abstract machine
//! says. The library does not export it.
ghost use Rattle.std.specs.Prelude.{List, [], length, map, ◌≡◌, ◌≢◌};
ghost use Rattle.gen1_stats.specs.Members.{IsTeam, Member};
ghost use Rattle.gen1_stats.specs.Teams.{team_of};
ghost use Rattle.gen1_machine.specs.Layout.{bytes_of};
ghost use Rattle.gen1_machine.specs.State.{State};
ghost use Rattle.gen1_machine.specs.View.{first_view, shows};
ghost use Rattle.gen1_events.specs.Reader.{part};
ghost use Rattle.gen1_events.specs.declared.reader.LogFault.{LogFault};
ghost use Rattle.gen1_layout.specs.Shows.{Stands};
ghost use Rattle.gen1_spectator.specs.Plain.{IsPlainSpectator, reading_of, view_of, joined};
ghost use Rattle.gen1_c.specs.Codes.{log_code};
ghost use Rattle.gen1_c.specs.Teams.{sheets_of};
ghost use Rattle.gen1_c.specs.TheTheorem.{IsLogged, KnowsRuns, after, begun, called, calls_in, fault_in, logs_in, stepped};

use crate::battle::{gen1_load, gen1_new};
use crate::choices::gen1_choices;
use crate::spectators::{gen1_spectator_begin, gen1_spectator_feed};
use crate::teams::TeamForm;
use crate::update::{gen1_result, gen1_update};
use gen1_layout::Packed;
use gen1_spectator::plain::PlainSpectator;

/// What a battle is made of.
#[derive(Drop)]
pub struct Beginning {
    pub one: TeamForm,
    pub two: TeamForm,
    pub seed: [u8; 10],
    pub rules: u8,
    pub limit: u16,
}

/// An update: what its caller decides, and what the calls return and write.
#[derive(Drop)]
pub struct Update {
    /// The bytes of both choices, offered or not. They may be no choices.
    pub one: u8,
    pub two: u8,
    /// Whether the battle is loaded from its stored bytes before the update.
    pub is_reloaded: bool,
    /// The battle's 384 bytes before the update.
    pub stored: [u8; 384],
    /// The result so far, before the update.
    pub result: u8,
    /// What each side is offered before the update: so many bytes, at the beginning.
    pub offered_one: [u8; 9],
    pub count_one: u8,
    pub offered_two: [u8; 9],
    pub count_two: u8,
    /// What `gen1_load` returns; 0 where it is not called.
    pub loaded: u8,
    /// What `gen1_update` returns.
    pub code: u8,
    /// The log bytes of the update: so many bytes, at the beginning.
    pub log: [u8; 512],
    pub log_length: usize,
}

// calling: the_theorem_in_c
/// Plays any updates of a battle of any two teams, and lets a spectator watch it. Returns 0, or the code of what the battle can't be
/// made of, or of pieces that are not a log. The logs of these updates are one, however they are cut.
pub fn the_theorem_in_c(
    beginning: &Beginning,
    battle: &mut Packed,
    updates: &mut [Update],
    watch: &mut PlainSpectator,
    pieces: &[&[u8]],
) -> u32
    ensures refuses { fault_in beginning.now ≢ 0 → (result ≡ fault_in beginning.now)
        × (battle.new ≡ battle.old) × (updates.new ≡ updates.old) × (watch.new ≡ watch.old) }
    ensures calls { fault_in beginning.now ≡ 0
        → updates.new ≡ calls_in (begun beginning.now) updates.old }
    ensures stands { fault_in beginning.now ≡ 0
        → Stands battle.new (after (begun beginning.now) updates.old) }
    ensures watches { fault_in beginning.now ≡ 0
        → joined (map (λ piece. piece.now) pieces.now) ≡ joined (logs_in updates.new)
        → (result ≡ 0) × (reading_of watch.new ≡ part [])
        × (view_of watch.new ≡ shows (after (begun beginning.now) updates.old).field) }
    ensures faults { fault_in beginning.now ≡ 0 → result ≢ 0
        → (fault : LogFault) × (result ≡ log_code fault) }
{
    let fault = set_up(beginning, battle, watch);
    if fault != 0 {
        return fault;
    }
    for place in 0..updates.len() {
        call(battle, &mut updates[place]);
    }
    u32::from(feed(watch, pieces))
}
// end

// Begins the battle, and then the spectator.
fn set_up(beginning: &Beginning, battle: &mut Packed, watch: &mut PlainSpectator) -> u32
    ensures fault { result ≡ fault_in beginning.now }
    ensures stands { result ≡ 0 → Stands battle.new (begun beginning.now) }
    ensures watches { result ≡ 0 → IsPlainSpectator watch.new × (reading_of watch.new ≡ part [])
        × (view_of watch.new ≡ first_view (team_of (sheets_of beginning.now.one))
        (team_of (sheets_of beginning.now.two))) }
    ensures kept { result ≢ 0 → (battle.new ≡ battle.old) × (watch.new ≡ watch.old) }
{
    let fault = gen1_new(
        battle,
        &beginning.one,
        &beginning.two,
        &beginning.seed,
        beginning.rules,
        beginning.limit,
    );
    if fault != 0 {
        return fault;
    }
    gen1_spectator_begin(watch, &beginning.one, &beginning.two)
}

// The calls of one update.
fn call(battle: &mut Packed, update: &mut Update)
    ensures called { (s : State) → Stands battle.old s → update.new ≡ called s update.old }
    ensures logged { (s : State) → Stands battle.old s → IsLogged s update.old update.new }
    ensures goes { (s : State) → Stands battle.old s
        → Stands battle.new (stepped s update.old).state }
{
    update.result = gen1_result(battle);
    update.count_one = gen1_choices(battle, 1, &mut update.offered_one);
    update.count_two = gen1_choices(battle, 2, &mut update.offered_two);
    update.stored.copy_from_slice(battle.as_bytes());
    update.loaded = load(update.is_reloaded, &update.stored, battle);
    update.log_length = 0;
    update.code = gen1_update(
        battle,
        update.one,
        update.two,
        &mut update.log,
        &mut update.log_length,
    );
}

// Loads a battle from its stored bytes, or leaves it.
fn load(is_reloaded: bool, stored: &[u8], battle: &mut Packed) -> u8
    ensures { (s : State) → Stands battle.old s → stored.now ≡ bytes_of s
        → length stored.now ≡ 384 → (result ≡ 0) × (battle.new ≡ battle.old) }
{
    if !is_reloaded {
        return 0;
    }
    gen1_load(battle, stored)
}

// Feeds a spectator these pieces, up to one with an error.
fn feed(watch: &mut PlainSpectator, pieces: &[&[u8]]) -> u8
    requires valid { IsPlainSpectator watch.old }
    requires none { reading_of watch.old ≡ part [] }
    ensures knows { (one two : List Member) → IsTeam one → IsTeam two
        → view_of watch.old ≡ first_view one two
        → KnowsRuns one two (joined (map (λ piece. piece.now) pieces.now)) result watch.new }
    ensures faults { result ≢ 0 → (fault : LogFault) × (result ≡ log_code fault) }
{
    for piece in pieces {
        let code = gen1_spectator_feed(watch, piece);
        if code != 0 {
            return code;
        }
    }
    0
}
