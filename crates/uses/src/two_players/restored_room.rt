//! A room that is restored from its battle and from all that was submitted to it.
ghost use Rattle.std.specs.Prelude.{IfSome, map, ◌≡◌};
ghost use Rattle.gen1_machine.specs.Room.{course_of, replies_of, room_of};
ghost use Rattle.gen1_machine.specs.State.{State};
ghost use Rattle.gen1_layout.specs.Shows.{Stands};
ghost use Rattle.gen1_room.specs.Rooms.{Holds, reply_of, submission_at};

use gen1_engine::Battle;
use gen1_machine::Side;
use gen1_room::{Reply, Room};

/// Restores a room from the battle that it was made for and all that was submitted to it. `None` if there are not as many places
/// for replies as submissions.
pub fn restored(
    battle: Battle,
    submissions: &[(Side, u32, u8)],
    replies: &mut [Reply],
) -> Option<Room>
    ensures holds { (s : State) → Stands battle s
        → IfSome result
        (λ room. Holds room (course_of (room_of s) (map submission_at submissions.now))) }
    ensures replies { (s : State) → Stands battle s
        → IfSome result
        (λ room. map reply_of replies.new ≡ replies_of (room_of s)
        (map submission_at submissions.now)) }
{
    if submissions.len() != replies.len() {
        return None;
    }
    Some(Room::run(battle, submissions, replies))
}
