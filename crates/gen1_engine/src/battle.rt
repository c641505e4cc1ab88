//! A battle whose bytes always represent a valid state between two calls (docs/LAYOUT.md, "The 384 bytes of a battle").
ghost use Rattle.std.specs.Prelude.{IfOk, IsOk, [], length, ◌<◌, ◌↔◌, ◌≡◌, ◌≤◌, ◌||◌};
ghost use Rattle.gen1_machine.specs.LogBytes.{codes_of};
ghost use Rattle.gen1_machine.specs.Layout.{bytes_of};
ghost use Rattle.gen1_machine.specs.OfferedChoices.{offered};
ghost use Rattle.gen1_machine.specs.State.{State, first_state, usual_terms};
ghost use Rattle.gen1_layout.specs.Loading.{IsLoadedAs};
ghost use Rattle.gen1_layout.specs.LoadingLaws.{IsBattle, StandsForSome};
ghost use Rattle.gen1_layout.specs.Shows.{Stands};
ghost use Rattle.gen1_layout.specs.Words.{AddsAtMost, HasRoom};
ghost use Rattle.gen1_switching.specs.SwitchingIn.{Steps};
ghost use Rattle.gen1_engine.specs.Update.{Answers, AreOffered, IsBounded, Logs, Tells, offered_mask, reseeded, result_of};
ghost use Rattle.gen1_engine.specs.Replay.{AnswersBytes, LogsBytes, Replays, TellsBytes, is_write_fault};

use crate::choice_bytes::{
    ReplayFault, replay, update_by_bytes, update_events_by_bytes, update_silent_by_bytes,
};
use crate::packed::offered_mask;
use crate::result::{BattleResult, Refusal};
use crate::update::{reseed, result, update, update_events, update_offered, update_silent};
use gen1_events::{EventSink, LogBuf};
use gen1_layout::{LoadFault, Packed};
use gen1_machine::{Choice, EventList, Rules, Side, Sink, TurnLimit};
use gen1_offers::{Choices, offered};
use gen1_rolls::LinkRandom;
use gen1_stats::Team;
use std::alloc::AllocError;
use std::marker::Model;

/// A battle between two updates (docs/LAYOUT.md): its 384 bytes are those of a valid state.
#[derive(Drop)]
pub struct Battle {
    packed: Packed,
}

impl Model for Battle {
    ghost use Rattle.gen1_layout.specs.Parts.{Parts};
    ghost use Rattle.gen1_layout.specs.LoadingLaws.{StandsForSome};

    ghost Value = { Parts };

    ghost view = { λ b. b.packed };

    ghost invariant = { λ b. StandsForSome b.packed };
}

impl Clone for Battle {
    ghost use Rattle.std.specs.Prelude.{◌≡◌, ⊤};

    ghost is_clone = { λ b c. c ≡ b };

    ghost is_infallible = { λ _. ⊤ };

    /// Returns an independent battle with the same 384 bytes. It always returns `Ok`.
    fn clone(&self) -> Result<Battle, AllocError> {
        Ok(Battle {
            packed: self.packed.clone()?,
        })
    }
}

impl Battle {
    /// Makes a battle of two teams, before its first update, with the ten numbers of a seed (docs/MECHANICS.md, "Link numbers"), no
    /// rules and a turn limit of 1,000.
    pub fn new(one: &Team, two: &Team, seed: [u8; 10]) -> Battle
        ensures { Stands result (first_state usual_terms one.now two.now seed) }
    {
        Battle {
            packed: Packed::new(one, two, seed),
        }
    }

    /// Makes a battle like `new`, with rules (docs/MECHANICS.md, "Rules (sleep clause, freeze clause)").
    pub fn with_rules(one: &Team, two: &Team, seed: [u8; 10], rules: Rules) -> Battle
        ensures { Stands result
            (first_state (record { rules = rules; limit = 1000 }) one.now two.now seed) }
    {
        Battle {
            packed: Packed::with_rules(one, two, seed, rules),
        }
    }

    /// Makes a battle like `new`, with rules and a turn limit (docs/MECHANICS.md, "Turn limit").
    pub fn with_limit(
        one: &Team,
        two: &Team,
        seed: [u8; 10],
        rules: Rules,
        limit: TurnLimit,
    ) -> Battle
        ensures { Stands result
            (first_state (record { rules = rules; limit = limit }) one.now two.now seed) }
    {
        Battle {
            packed: Packed::with_limit(one, two, seed, rules, limit),
        }
    }

    /// Reads a battle from bytes of any of the three versions (docs/LAYOUT.md, "Loading").
    ///
    /// # Errors
    ///
    /// The first of the seven tests that the bytes fail. They pass all of them exactly if they represent a valid state.
    pub fn load(bytes: &[u8]) -> Result<Battle, LoadFault>
        ensures tests { IsLoadedAs result bytes.now }
        ensures battle { IsOk result ↔ IsBattle bytes.now }
        ensures stands { IfOk result (λ loaded. StandsForSome loaded) }
    {
        match Packed::read(bytes) {
            Ok(packed) => Ok(Battle { packed }),
            Err(fault) => Err(fault),
        }
    }

    /// Returns the 384 bytes (docs/LAYOUT.md), in the form of version 3. They are borrowed as a slice, as `load` and writers take
    /// one, so the length is stated by the clause `len` and not by the type.
    pub fn bytes(&self) -> &[u8]
        ensures stands { (s : State) → Stands self.now s → result.now ≡ bytes_of s }
        ensures len { length result.now ≡ 384 }
    {
        self.packed.as_bytes()
    }

    /// Lists the choices that a side is offered, in rising order of their bytes; none once the battle is over (docs/MECHANICS.md,
    /// "Offered choices").
    pub fn choices(&self, side: Side) -> Choices
        ensures { (s : State) → Stands self.now s → result.items ≡ offered side s.field }
    {
        offered(&self.packed, side)
    }

    /// Returns the offered choices as a mask of twelve bits, from the lowest on: Pass, Move with slot 0 to 4, Switch to place 1 to
    /// 6. It is 0 once the battle is over. [`count_of`](crate::packed::count_of) returns how many choices a mask has, and
    /// [`choice_at`](crate::packed::choice_at) the one at an index of the list.
    pub fn offered_mask(&self, side: Side) -> u16
        ensures stands { (s : State) → Stands self.now s → result ≡ offered_mask s side }
        ensures twelve { result < 4096 }
    {
        offered_mask(&self.packed, side)
    }

    /// Returns the outcome so far, and what each side is asked.
    pub fn result(&self) -> BattleResult
        ensures stands { (s : State) → Stands self.now s → result ≡ result_of s }
        // The bytes of any battle represent a valid state.
        ensures valid { StandsForSome self.now }
    {
        result(&self.packed)
    }

    /// Returns the rules of the battle, which no update changes.
    pub fn rules(&self) -> Rules
        ensures { (s : State) → Stands self.now s → result ≡ s.terms.rules }
    {
        self.packed.rules()
    }

    /// Returns the turn limit, 1 to 9,999, which no update changes.
    pub fn limit(&self) -> u16
        ensures { (s : State) → Stands self.now s → result ≡ s.terms.limit }
    {
        self.packed.limit()
    }

    /// Replaces the numbers that the battle draws, and changes nothing else (docs/MECHANICS.md, "Link numbers"). A copy draws what
    /// the battle itself will draw, so a search reseeds each copy before it plays it.
    pub fn reseed(&mut self, numbers: &LinkRandom)
        ensures { (s : State) → Stands self.old s → Stands self.new (reseeded numbers.now s) }
    {
        reseed(&mut self.packed, numbers);
    }

    /// Plays one update by a choice of each side. If the pair is accepted, the buffer has the update's log bytes and nothing else
    /// (docs/MECHANICS.md, "Log bytes"): at most 64 events, at most 512 bytes in all. The machine's update of such a pair takes at
    /// most 4,700 draws.
    ///
    /// # Errors
    ///
    /// The first that applies: the battle is over, side 1's choice was not offered, side 2's was not. Battle and buffer are then as
    /// they were.
    pub fn update(
        &mut self,
        one: Choice,
        two: Choice,
        log: &mut LogBuf,
    ) -> Result<BattleResult, Refusal>
        ensures answers { (s : State) → Stands self.old s
            → Answers s one two self.old self.new result }
        ensures logs { (s : State) → Stands self.old s → Logs s one two log.old log.new }
        ensures bounded { (s : State) → Stands self.old s → IsBounded s one two }
    {
        update(&mut self.packed, one, two, log)
    }

    /// Plays one update like `update`, by two bytes (docs/MECHANICS.md, "Offered choices"). A byte that is not a choice is not
    /// offered.
    ///
    /// # Errors
    ///
    /// The same as those of `update`.
    pub fn update_by_bytes(
        &mut self,
        one: u8,
        two: u8,
        log: &mut LogBuf,
    ) -> Result<BattleResult, Refusal>
        ensures answers { (s : State) → Stands self.old s
            → AnswersBytes s (one, two) self.old self.new result }
        ensures logs { (s : State) → Stands self.old s → LogsBytes s (one, two) log.old log.new }
    {
        update_by_bytes(&mut self.packed, one, two, log)
    }

    /// Plays one update and returns only the result: for callers that need neither log nor events.
    ///
    /// # Errors
    ///
    /// The same as those of `update`; the battle is then as it was.
    pub fn update_silent(&mut self, one: Choice, two: Choice) -> Result<BattleResult, Refusal>
        ensures answers { (s : State) → Stands self.old s
            → Answers s one two self.old self.new result }
        ensures bounded { (s : State) → Stands self.old s → IsBounded s one two }
    {
        update_silent(&mut self.packed, one, two)
    }

    /// Plays one update like `update_silent`, by two bytes. A byte that is not a choice is not offered.
    ///
    /// # Errors
    ///
    /// The same as those of `update`; the battle is then as it was.
    pub fn update_silent_by_bytes(&mut self, one: u8, two: u8) -> Result<BattleResult, Refusal>
        ensures answers { (s : State) → Stands self.old s
            → AnswersBytes s (one, two) self.old self.new result }
    {
        update_silent_by_bytes(&mut self.packed, one, two)
    }

    /// Plays one update by two offered choices, without testing that they are: for callers that took them from `choices` or
    /// `offered_mask`. The events go to a sink that is still empty: a list, a buffer, or `Silent`.
    pub fn update_offered<S: EventSink>(
        &mut self,
        one: Choice,
        two: Choice,
        events: &mut S,
    ) -> BattleResult
        requires offered { (s : State) → Stands self.old s → AreOffered s one two }
        requires empty { S.tells events.old [] }
        requires room { HasRoom S.room 51 events.old }
        ensures steps { (s : State) → Stands self.old s
            → Steps s one two self.new (S.tells events.new) }
        ensures result { (s : State) → Stands self.new s → result ≡ result_of s }
        ensures room { AddsAtMost S.room 51 events.old events.new }
    {
        update_offered(&mut self.packed, one, two, events)
    }

    /// Plays one update whose events are put into the list, and nothing else. `write_log` makes log bytes of them. Only the battle
    /// and the list are written.
    ///
    /// # Errors
    ///
    /// The same as those of `update`; battle and list are then as they were.
    pub fn update_events(
        &mut self,
        one: Choice,
        two: Choice,
        events: &mut EventList,
    ) -> Result<BattleResult, Refusal>
        ensures answers { (s : State) → Stands self.old s
            → Answers s one two self.old self.new result }
        ensures tells { (s : State) → Stands self.old s → Tells s one two events.old events.new }
        ensures bounded { (s : State) → Stands self.old s → IsBounded s one two }
        // Their bytes fit a buffer.
        ensures short { IsOk result → length (codes_of events.new.items) ≤ 512 }
    {
        update_events(&mut self.packed, one, two, events)
    }

    /// Plays one update like `update_events`, by two bytes. A byte that is not a choice is not offered.
    ///
    /// # Errors
    ///
    /// The same as those of `update`; battle and list are then as they were.
    pub fn update_events_by_bytes(
        &mut self,
        one: u8,
        two: u8,
        events: &mut EventList,
    ) -> Result<BattleResult, Refusal>
        ensures answers { (s : State) → Stands self.old s
            → AnswersBytes s (one, two) self.old self.new result }
        ensures tells { (s : State) → Stands self.old s
            → TellsBytes s (one, two) events.old events.new }
        // Their bytes fit a buffer.
        ensures short { IsOk result → length (codes_of events.new.items) ≤ 512 }
    {
        update_events_by_bytes(&mut self.packed, one, two, events)
    }

    /// Plays updates by pairs of bytes, one after the other, and writes the log bytes of each to a sink.
    ///
    /// # Errors
    ///
    /// The first pair that is refused, or whose bytes cannot all be written. The battle is then as the pairs before it leave it, or
    /// as it leaves it itself. No pair is played after one whose bytes are not written.
    pub fn replay<W: Sink>(
        &mut self,
        pairs: &[(u8, u8)],
        sink: &mut W,
    ) -> Result<BattleResult, ReplayFault>
        ensures replays { (s : State) → Stands self.old s
            → Replays s pairs.now self.new (W.contents sink.old) (W.contents sink.new) result }
        ensures fault { W.has_failed sink.new ≡ (W.has_failed sink.old || is_write_fault result) }
    {
        replay(&mut self.packed, pairs, sink)
    }
}
