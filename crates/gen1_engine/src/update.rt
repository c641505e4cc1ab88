//! An update of the bytes of a battle, by what the sides are asked, and other numbers for a battle to draw
//! (docs/MECHANICS.md, "Offered choices", "Falls and requests", "Link numbers"). A sink takes the events: a list, log
//! bytes, or nothing.
ghost use Rattle.std.specs.Prelude.{Bool, IsOk, OnErr, [], drop, false, length, take, ◌++◌, ◌∷◌, ◌≡◌, ◌≤◌};
ghost use Rattle.gen1_rolls.specs.Streams.{IsStream, Link};
ghost use Rattle.gen1_machine.specs.LogBytes.{codes_of};
ghost use Rattle.gen1_machine.specs.State.{State, is_over};
ghost use Rattle.gen1_machine.specs.declared.terms.Request.TheVariants.{Move};
ghost use Rattle.gen1_layout.specs.Shows.{Stands};
ghost use Rattle.gen1_layout.specs.Words.{AddsAtMost, HasRoom};
ghost use Rattle.gen1_layout.specs.LoadingLaws.{StandsForSome};
ghost use Rattle.gen1_switching.specs.SwitchingIn.{Plays, Steps};
ghost use Rattle.gen1_engine.specs.Replay.{IsRefused};
ghost use Rattle.gen1_engine.specs.Update.{Answers, AreOffered, Logs, Tells, Tests, reseeded, result_of};

use crate::result::{BattleResult, Refusal};
use gen1_events::{EventSink, LogBuf, Silent};
use gen1_layout::Packed;
use gen1_layout::offsets::{INDEX, NUMBERS, OUTCOME};
use gen1_machine::{Choice, EventList, Request, Side};
use gen1_offers::is_offered;
use gen1_rolls::LinkRandom;
use gen1_switching::{replace, start};
use gen1_turn::turn;

/// Plays one update by a choice of each side, and puts its log bytes into the buffer, and nothing else. It takes any bytes of a
/// battle, and writes only them and the buffer.
///
/// # Errors
///
/// The same as those of [`update_events`]; bytes and buffer are then as they were.
pub fn update(
    battle: &mut Packed,
    one: Choice,
    two: Choice,
    log: &mut LogBuf,
) -> Result<BattleResult, Refusal>
    ensures answers { (s : State) → Stands battle.old s
        → Answers s one two battle.old battle.new result }
    ensures logs { (s : State) → Stands battle.old s → Logs s one two log.old log.new }
    ensures valid { StandsForSome battle.old → StandsForSome battle.new }
    ensures kept { OnErr result ((battle.new ≡ battle.old) × (log.new ≡ log.old)) }
{
    if let Some(why) = refusal(battle, &one, &two) {
        return Err(why);
    }
    log.clear();
    Ok(update_offered(battle, one, two, log))
}

/// Plays one update by a choice of each side, and puts its events into the list, and nothing else. It takes any bytes of a battle,
/// and writes only them and the list. If they represent a valid state, the update is the machine's.
///
/// # Errors
///
/// The first that applies: the battle is over, side 1's choice was not offered, side 2's was not. Bytes and list are then as they
/// were.
pub fn update_events(
    battle: &mut Packed,
    one: Choice,
    two: Choice,
    events: &mut EventList,
) -> Result<BattleResult, Refusal>
    ensures answers { (s : State) → Stands battle.old s
        → Answers s one two battle.old battle.new result }
    ensures tells { (s : State) → Stands battle.old s → Tells s one two events.old events.new }
    ensures valid { StandsForSome battle.old → StandsForSome battle.new }
    // For any bytes, valid or not.
    ensures short { IsOk result → length (codes_of events.new.items) ≤ 512 }
    ensures kept { OnErr result ((battle.new ≡ battle.old) × (events.new ≡ events.old)) }
{
    if let Some(why) = refusal(battle, &one, &two) {
        return Err(why);
    }
    events.clear();
    Ok(update_offered(battle, one, two, events))
}

/// Plays one update by a choice of each side, and returns only the result.
///
/// # Errors
///
/// The same as those of [`update_events`]; the bytes are then as they were.
pub fn update_silent(battle: &mut Packed, one: Choice, two: Choice) -> Result<BattleResult, Refusal>
    ensures answers { (s : State) → Stands battle.old s
        → Answers s one two battle.old battle.new result }
    ensures valid { StandsForSome battle.old → StandsForSome battle.new }
    ensures kept { OnErr result (battle.new ≡ battle.old) }
{
    if let Some(why) = refusal(battle, &one, &two) {
        return Err(why);
    }
    Ok(update_offered(battle, one, two, &mut Silent))
}

// Why a pair is refused, by the first reason that applies. `None`: both choices are offered.
#[inline(always)] // docs/SPEED.md, "Hints on inlining"
fn refusal(battle: &Packed, one: &Choice, two: &Choice) -> Option<Refusal>
    ensures { (s : State) → Stands battle.now s → Tests s one.now two.now result }
{
    if !is_offered(battle, Side::One, one) {
        return Some(refusal_of_first(battle));
    }
    if !is_offered(battle, Side::Two, two) {
        return Some(Refusal::NotOffered(Side::Two));
    }
    None
}

// Why side 1's choice is not offered: perhaps because the battle is over.
pub(crate) fn refusal_of_first(battle: &Packed) -> Refusal
    ensures { (s : State) → Stands battle.now s → (second : Bool)
        → IsRefused s false second result }
{
    if is_over(battle) {
        Refusal::Over
    } else {
        Refusal::NotOffered(Side::One)
    }
}

/// Plays one update by two offered choices, without testing that they are: for callers that took them from the offered choices. The
/// events go to a sink that is still empty. If a choice is not offered, the bytes may be anything afterwards; nothing else is
/// written.
#[inline(always)] // docs/SPEED.md, "Hints on inlining"
pub fn update_offered<S: EventSink>(
    battle: &mut Packed,
    one: Choice,
    two: Choice,
    events: &mut S,
) -> BattleResult
    requires empty { S.tells events.old [] }
    requires room { HasRoom S.room 51 events.old }
    ensures steps { (s : State) → Stands battle.old s → AreOffered s one two
        → Steps s one two battle.new (S.tells events.new) }
    ensures result { (s : State) → Stands battle.new s → result ≡ result_of s }
    ensures room { AddsAtMost S.room 51 events.old events.new }
{
    step(battle, one, two, events);
    result(battle)
}

/// Returns the outcome so far, and what each side is asked.
pub fn result(battle: &Packed) -> BattleResult
    ensures { (s : State) → Stands battle.now s → result ≡ result_of s }
{
    BattleResult {
        outcome: battle.outcome(),
        request_one: battle.request(Side::One),
        request_two: battle.request(Side::Two),
    }
}

fn is_over(battle: &Packed) -> bool
    ensures { (s : State) → Stands battle.now s → result ≡ is_over s.field.outcome }
{
    battle.outcome().is_over()
}

// An update by offered choices.
fn step<S: EventSink>(battle: &mut Packed, one: Choice, two: Choice, events: &mut S)
    requires empty { S.tells events.old [] }
    requires room { HasRoom S.room 51 events.old }
    ensures stepped { (s : State) → Stands battle.old s → AreOffered s one two
        → Steps s one two battle.new (S.tells events.new) }
    ensures room { AddsAtMost S.room 51 events.old events.new }
{
    match battle.request(Side::One) {
        Request::Move => step_turn(battle, one, two, events),
        _ => {
            if battle.turn() == 0 {
                start(battle, events);
            } else {
                replace(battle, one, two, events);
            }
        }
    }
}

// A turn draws from the numbers of the header, and leaves them there as they are afterwards.
fn step_turn<S: EventSink>(battle: &mut Packed, one: Choice, two: Choice, events: &mut S)
    requires empty { S.tells events.old [] }
    requires room { HasRoom S.room 51 events.old }
    ensures stepped { (s : State) → Stands battle.old s → Plays s Move one two
        → Steps s one two battle.new (S.tells events.new) }
    ensures room { AddsAtMost S.room 51 events.old events.new }
{
    match battle.generator() {
        Some(generator) => {
            let left = turn(battle, one, two, generator, events);
            battle.put_generator(&left);
        }
        None => {}
    }
}

/// Replaces the numbers that a battle draws, and changes nothing else. The bytes then represent the same state, with these numbers
/// as its seed and as many draws taken as their index says.
pub fn reseed(battle: &mut Packed, numbers: &LinkRandom)
    ensures stands { (s : State) → Stands battle.old s
        → Stands battle.new (reseeded numbers.now s) }
    ensures valid { StandsForSome battle.old → StandsForSome battle.new }
{
    let index = numbers.index();
    let bytes = numbers.numbers();
    let header = battle.header_mut();
    put_numbers(header, index, &bytes);
}

// Writes the numbers and the index of the one that is drawn next to the bytes of a header.
fn put_numbers(header: &mut [u8], index: u8, numbers: &[u8])
    requires header { length header.old ≡ 24 }
    requires ten { length numbers.now ≡ 10 }
    ensures numbers { IsStream (Link numbers.now) }
    ensures written { header.new ≡ take 5 header.old ++ index ∷ numbers.now ++ drop 16 header.old }
{
    header[INDEX] = index;
    header[NUMBERS..OUTCOME].copy_from_slice(numbers);
}
