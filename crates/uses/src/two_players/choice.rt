//! A player of a room, who chooses when a choice is missing.
// calling: gen1_room
ghost use Rattle.std.specs.Prelude.{◌≡◌};
ghost use Rattle.gen1_machine.specs.Room.{Course, after, reply_to};
ghost use Rattle.gen1_events.specs.Reader.{IsReading};
ghost use Rattle.gen1_room.specs.Rooms.{Holds, submission_of};
ghost use Rattle.uses.specs.Examples.{next_of};

use gen1_engine::BattleResult;
use gen1_machine::Side;
use gen1_room::{Room, RoomRefusal, Submitted};

/// A player of a room, who chooses for the pair with this number.
#[derive(Clone, Copy, Debug, PartialEq, Eq, Drop)]
pub struct Player {
    pub side: Side,
    pub number: u32,
}

/// What a player does next.
#[derive(Clone, Copy, Debug, PartialEq, Eq, Drop)]
pub enum Next {
    /// Wait for the other player's choice.
    Wait,
    /// Look at the log. The battle was updated, with this result.
    Look(BattleResult),
    /// Choose again. The room is as it was.
    Choose,
    /// Leave. The battle is over.
    Leave,
}

/// Submits the byte of a player's choice.
pub fn choose(player: &mut Player, byte: u8, room: &mut Room) -> Next
    ensures holds { (c : Course) → Holds room.old c
        → Holds room.new (after c (submission_of player.old.side player.old.number byte)) }
    ensures next { (c : Course) → Holds room.old c
        → result ≡ next_of (reply_to c (submission_of player.old.side player.old.number byte)) }
    ensures again { result ≡ Next.Choose → room.new ≡ room.old }
{
    match room.submit(player.side, player.number, byte) {
        Ok(Submitted::Waiting) => Next::Wait,
        Ok(Submitted::Advanced(result)) => Next::Look(result),
        Err(RoomRefusal::Over) => Next::Leave,
        // The player missed the end of a pair, or was ahead of it.
        Err(RoomRefusal::Stale(current)) => {
            player.number = current;
            Next::Choose
        }
        Err(RoomRefusal::AlreadyChosen) => Next::Wait,
        // The offered choices are `room.battle().choices(player.side)`.
        Err(RoomRefusal::NotOffered) => Next::Choose,
    }
}

/// Returns the log bytes of the last pair, for either player. The player moves to the current pair.
pub fn look<'a>(player: &mut Player, room: &'a Room) -> &'a [u8]
    ensures log { (c : Course) → Holds room.now c → IsReading result.now c.events }
    ensures current { (c : Course) → Holds room.now c → player.new.number ≡ c.number }
    ensures side { player.new.side ≡ player.old.side }
{
    player.number = room.number();
    room.log()
}
// end
