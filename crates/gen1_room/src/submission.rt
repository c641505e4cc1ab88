//! A submission to a room, the reply to it, a battle that comes into a room, and what a room holds between two
//! submissions (docs/MECHANICS.md, "Rooms").
ghost use Rattle.std.specs.Prelude.{None, Some, [], false, if◌then◌else◌, is_some, ◌+◌, ◌==◌, ◌≡◌, ◌≤◌};
ghost use Rattle.std.specs.Result.{OnErr};
ghost use Rattle.gen1_machine.specs.Room.{Course, Submission, after, choice_by_byte, choice_made, chosen, reply_to_choice, room_of};
ghost use Rattle.gen1_machine.specs.State.{State, is_over, is_pass};
ghost use Rattle.gen1_machine.specs.declared.side.Choice.TheVariants.{Pass};
ghost use Rattle.gen1_layout.specs.Shows.{Stands};
ghost use Rattle.gen1_layout.specs.LoadingLaws.{StandsForSome};
ghost use Rattle.gen1_engine.specs.Update.{AreOffered, result_of};
ghost use Rattle.gen1_room.specs.Rooms.{Counts, EndsPair, Holds, IsRoom, MayChoose, Opens, Takes, chosen_in, ended, reply_of_submitted, submission_of};
ghost use Rattle.gen1_room.specs.Refusals.{number_of, words_of};

use gen1_engine::{Battle, BattleResult, write_log};
use gen1_events::LogBuf;
use gen1_machine::{Choice, EventList, Request, Side};
use std::error::Error;
use std::fmt;

/// Submits the byte of a side's choice for the pair with the given number.
pub(crate) fn submit(held: &mut Held, side: Side, number: u32, byte: u8) -> Reply
    requires valid { IsRoom held.old }
    ensures holds { Takes held.old held.new result (submission_of side number byte) }
    ensures refused { OnErr result (held.new ≡ held.old) }
    ensures valid { IsRoom held.new }
{
    if is_over(&held.battle) {
        return Err(RoomRefusal::Over);
    }
    if number != held.number {
        return Err(RoomRefusal::Stale(held.number));
    }
    if has_chosen(held, side) {
        return Err(RoomRefusal::AlreadyChosen);
    }
    match choice_by_byte(byte, held.battle.choices(side).as_slice()) {
        Some(choice) => Ok(choose(held, side, choice)),
        None => Err(RoomRefusal::NotOffered),
    }
}

fn has_chosen(held: &Held, side: Side) -> bool
    ensures { result ≡ is_some (chosen_in side held.now) }
{
    match side {
        Side::One => held.one.is_some(),
        Side::Two => held.two.is_some(),
    }
}

/// The first of these choices that has this byte.
pub fn choice_by_byte(byte: u8, choices: &[Choice]) -> Option<Choice>
    ensures { result ≡ choice_by_byte byte choices.now }
{
    for choice in choices {
        if choice.byte() == byte {
            return Some(*choice);
        }
    }
    None
}

// A side that has not chosen makes a choice that it is offered.
fn choose(held: &mut Held, side: Side, choice: Choice) -> Submitted
    requires valid { MayChoose held.old side choice }
    ensures holds { (c : Course) (submission : Submission) → Holds held.old c
        → is_over c.state.field.outcome ≡ false
        → chosen side c ≡ None → choice_made side c submission ≡ Some choice
        → Holds held.new (after c submission)
        × (reply_of_submitted result ≡ reply_to_choice c (after c submission)) }
    ensures valid { IsRoom held.new }
{
    match side {
        Side::One => match held.two {
            Some(two) => Submitted::Advanced(end_pair(held, choice, two)),
            None => {
                held.one = Some(choice);
                Submitted::Waiting
            }
        },
        Side::Two => match held.one {
            Some(one) => Submitted::Advanced(end_pair(held, one, choice)),
            None => {
                held.two = Some(choice);
                Submitted::Waiting
            }
        },
    }
}

// Both choices are there.
fn end_pair(held: &mut Held, one: Choice, two: Choice) -> BattleResult
    requires valid { EndsPair held.old one two }
    ensures holds { (c : Course) → Stands held.old.battle c.state → held.old.number ≡ c.number
        → Counts c.number c.state → AreOffered c.state one two
        → Holds held.new (ended c one two) × (result ≡ result_of (ended c one two).state) }
    ensures counted { held.new.number ≡ held.old.number + 1 }
{
    match held.battle.update_events(one, two, &mut held.events) {
        Ok(result) => {
            write_log(&held.events, &mut held.log);
            held.number += 1;
            held.one = choice_if_none_is_asked(result.request_one);
            held.two = choice_if_none_is_asked(result.request_two);
            result
        }
        // Offered choices are never refused.
        Err(_) => unreachable!(),
    }
}

/// What a room holds for a battle, which is started if it is before its first update.
pub(crate) fn begin(battle: Battle) -> Held
    ensures holds { (s : State) → Stands battle s → Holds result (room_of s) }
    ensures valid { IsRoom result }
{
    let mut battle = battle;
    let mut events = EventList::new();
    let mut log = LogBuf::new();
    start(&mut battle, &mut events, &mut log);
    let result = battle.result();
    Held {
        battle,
        number: 0,
        events,
        log,
        one: choice_if_none_is_asked(result.request_one),
        two: choice_if_none_is_asked(result.request_two),
    }
}

fn start(battle: &mut Battle, events: &mut EventList, log: &mut LogBuf)
    requires empty { log.old.items ≡ [] }
    ensures opens { (s : State) → Stands battle.old s → Opens s battle.new log.new.items }
    ensures valid { StandsForSome battle.old }
{
    if !has_not_begun(battle) {
        return;
    }
    match battle.update_events(Choice::Pass, Choice::Pass, events) {
        Ok(_) => write_log(events, log),
        // Both sides are offered Pass.
        Err(_) => unreachable!(),
    }
}

// A battle that isn't over asks neither side for anything only before its start.
#[tactic(auto, using(crate::proofs::Ending::begun_asks, crate::proofs::Ending::begun_over))]
fn has_not_begun(battle: &Battle) -> bool
    ensures turn { (s : State) → Stands battle.now s → result ≡ (s.field.turn == 0) }
    ensures valid { StandsForSome battle.now }
{
    let result = battle.result();
    if is_over(battle) {
        return false;
    }
    let one = is_pass(result.request_one);
    let two = is_pass(result.request_two);
    one & two
}

pub(crate) fn is_over(battle: &Battle) -> bool
    ensures { (s : State) → Stands battle.now s → result ≡ is_over s.field.outcome }
{
    battle.result().outcome.is_over()
}

fn is_pass(request: Request) -> bool
    ensures { result ≡ is_pass request }
{
    matches!(request, Request::Pass)
}

/// Pass, for a side that is asked nothing.
fn choice_if_none_is_asked(request: Request) -> Option<Choice>
    ensures { result ≡ (if is_pass request then Some Pass else None) }
{
    match request {
        Request::Pass => Some(Choice::Pass),
        _ => None,
    }
}

/// What a room holds.
#[derive(Drop)]
pub struct Held {
    pub battle: Battle,
    /// How many pairs have ended.
    pub number: u32,
    /// The events of the last update. The next update writes to the same list, so that no list is made for it.
    pub events: EventList,
    /// The bytes of the last update.
    pub log: LogBuf,
    /// Side 1's choice for the current pair, once it is there; a Pass if the side is asked nothing.
    pub one: Option<Choice>,
    /// Side 2's.
    pub two: Option<Choice>,
}

/// What happened after a submission was taken.
#[derive(Clone, Copy, Debug, PartialEq, Eq, Drop)]
pub enum Submitted {
    /// The other side's choice is still missing.
    Waiting,
    /// The pair has ended, and the battle was updated.
    Advanced(BattleResult),
}

/// Why a submission was refused: the first of these that applies. The room is then as it was.
#[derive(Clone, Copy, Debug, PartialEq, Eq)]
pub enum RoomRefusal {
    /// The battle is over.
    Over,
    /// The submission is for another pair than the current one, which has this number.
    Stale(u32),
    /// The side's choice is there. If a side is asked nothing, its Pass is there from the start.
    AlreadyChosen,
    /// The byte is not a choice that the side is offered.
    NotOffered,
}

impl RoomRefusal {
    /// Returns the number of the refusal, 1 to 4, in the order of the tests.
    pub fn number(self) -> u8
        ensures value { result ≡ number_of self }
        ensures low { 1 ≤ result }
        ensures high { result ≤ 4 }
    {
        match self {
            RoomRefusal::Over => 1,
            RoomRefusal::Stale(_) => 2,
            RoomRefusal::AlreadyChosen => 3,
            RoomRefusal::NotOffered => 4,
        }
    }
}

impl fmt::Display for RoomRefusal {
    ghost output = { λ refusal. Some (words_of refusal) };

    fn fmt<W: fmt::Write>(&self, f: &mut fmt::Formatter<W>) -> fmt::Result {
        match self {
            RoomRefusal::Over => write!(f, "the battle is over"),
            RoomRefusal::Stale(number) => write!(f, "the current pair is {number}"),
            RoomRefusal::AlreadyChosen => write!(f, "the side has chosen"),
            RoomRefusal::NotOffered => write!(f, "the choice is not offered"),
        }
    }
}

impl Error for RoomRefusal {}

/// The reply to a submission.
pub type Reply = Result<Submitted, RoomRefusal>;
