//! A room, for its players (docs/MECHANICS.md, "Rooms").
ghost use Rattle.std.specs.Prelude.{length, map, ◌≡◌};
ghost use Rattle.std.specs.Result.{OnErr};
ghost use Rattle.gen1_machine.specs.Room.{Course, course_of, replies_of, room_of};
ghost use Rattle.gen1_machine.specs.State.{State};
ghost use Rattle.gen1_events.specs.Reader.{IsReading};
ghost use Rattle.gen1_layout.specs.Shows.{Stands};
ghost use Rattle.gen1_room.specs.Rooms.{Holds, IsRoom, Takes, reply_of, reseeded_in, submission_at, submission_of};

use crate::submission::{Held, Reply, begin, submit};
use gen1_engine::Battle;
use gen1_machine::Side;
use gen1_rolls::LinkRandom;
use std::marker::Model;

/// A battle whose two players submit their choices separately (docs/MECHANICS.md, "Rooms").
///
/// Pairs are numbered from 0, the first after the battle's start. A pair ends, and the battle is updated, as soon as both choices
/// are there. For a side that is asked nothing the room submits Pass.
#[derive(Drop)]
pub struct Room {
    held: Held,
}

impl Model for Room {
    ghost use Rattle.gen1_room.specs.declared.submission.Held.{Held};
    ghost use Rattle.gen1_room.specs.Rooms.{IsRoom};

    ghost Value = { Held };

    ghost view = { λ r. r.held };

    ghost invariant = { λ r. IsRoom r.held };
}

impl Room {
    /// Makes a room for a battle. A battle before its first update is started at once.
    pub fn new(battle: Battle) -> Self
        ensures { (s : State) → Stands battle s → Holds result (room_of s) }
    {
        Room {
            held: begin(battle),
        }
    }

    /// Returns the number of the current pair, which is how many pairs have ended in this room.
    pub fn number(&self) -> u32
        ensures counts { (c : Course) → Holds self.now c → result ≡ c.number }
        // Any room holds a course.
        ensures valid { IsRoom self.now }
    {
        self.held.number
    }

    /// Returns the battle as it is now.
    pub fn battle(&self) -> &Battle
        ensures { (c : Course) → Holds self.now c → Stands result.now c.state }
    {
        &self.held.battle
    }

    /// Returns the log bytes of the last pair that ended. Before that, those of the battle's start, or none if the battle was
    /// started before it came into the room (docs/MECHANICS.md, "Log bytes").
    pub fn log(&self) -> &[u8]
        ensures { (c : Course) → Holds self.now c → IsReading result.now c.events }
    {
        self.held.log.as_slice()
    }

    /// Submits the byte of a side's choice for the pair with the given number.
    ///
    /// A refusal changes nothing. Once both choices are there the battle is updated, and the log is that of the update.
    pub fn submit(&mut self, side: Side, number: u32, byte: u8) -> Reply
        ensures holds { Takes self.old self.new result (submission_of side number byte) }
        ensures refused { OnErr result (self.new ≡ self.old) }
    {
        submit(&mut self.held, side, number, byte)
    }

    /// Replaces the ten numbers that the battle draws, and changes nothing else: a choice that the room keeps stays.
    ///
    /// A host calls this before each pair, with its own random bytes. Otherwise the draws can be predicted from those before
    /// (docs/MECHANICS.md, "Link numbers").
    pub fn reseed(&mut self, numbers: &LinkRandom)
        ensures { (c : Course) → Holds self.old c → Holds self.new (reseeded_in numbers.now c) }
    {
        self.held.battle.reseed(numbers);
    }

    /// Makes a room for a battle, and submits each submission in order. The reply to each is written at its index.
    pub fn run(battle: Battle, submissions: &[(Side, u32, u8)], replies: &mut [Reply]) -> Self
        requires same_length { length submissions.now ≡ length replies.old }
        ensures holds { (s : State) → Stands battle s
            → Holds result (course_of (room_of s) (map submission_at submissions.now)) }
        ensures replies { (s : State) → Stands battle s
            → map reply_of replies.new ≡ replies_of (room_of s)
            (map submission_at submissions.now) }
    {
        let mut room = Room::new(battle);
        for (place, submission) in submissions.iter().enumerate() {
            replies[place] = room.submit(submission.0, submission.1, submission.2);
        }
        room
    }
}
