//! Rooms, whose two players submit their choices separately (include/gen1.h, "rooms"; docs/MECHANICS.md, "Rooms").
ghost use Rattle.std.specs.Prelude.{drop, replicate, ◌+◌, ◌≡◌, ◌≢◌, ◌≤◌};
ghost use Rattle.gen1_machine.specs.Numbers.{side_number};
ghost use Rattle.gen1_machine.specs.Room.{Course, after, reply_to, room_of};
ghost use Rattle.gen1_machine.specs.State.{State, is_over};
ghost use Rattle.gen1_machine.specs.declared.side.Side.{Side};
ghost use Rattle.gen1_layout.specs.Shows.{Stands};
ghost use Rattle.gen1_room.specs.Rooms.{IsMarked, Keeps, due, submission_of, why_of};
ghost use Rattle.gen1_c.specs.Rooms.{ForfeitsAs, lost_byte, reply_code, why_code};
ghost use Rattle.gen1_c.specs.Battle.{IsNoSide, IsResult, Offers, result_byte};

use crate::codes::SIDE;
use crate::lines::put_front;
use gen1_layout::{byte_of_outcome, byte_of_request};
use gen1_machine::Side;
use gen1_room::RoomRefusal;
use gen1_room::plain::{PlainRoom, begin, choices, forfeit, result, submit};

// The codes of the refusals.
const OVER: u8 = 24;

const STALE: u8 = 52;

const CHOSEN: u8 = 53;

const NOT_OFFERED: u8 = 54;

/// Makes a room of the battle in it, and starts the battle if it is before its first update. The rest of the log is cleared.
#[unsafe(no_mangle)]
pub extern "C" fn gen1_room_begin(room: &mut PlainRoom)
    ensures keeps { (s : State) → Stands room.old.battle s → Keeps room.new (room_of s) }
    // For any bytes of the battle, valid or not.
    ensures marked { IsMarked room.new }
    ensures short { room.new.log_length ≤ 512 }
    ensures cleared { drop room.new.log_length room.new.log ≡ drop room.new.log_length (replicate 512 0) }
    ensures counted { room.new.number ≡ 0 }
    ensures going { room.new.forfeit ≡ 0 }
    ensures unused { room.new.unused ≡ replicate 3 0 }
{
    begin(room);
}

/// Lists the choices that a side may submit for the current pair: writes their bytes, in rising order, to the beginning of the
/// array, and returns their number. There are none for a side that is neither 1 nor 2.
#[unsafe(no_mangle)]
pub extern "C" fn gen1_room_choices(room: &PlainRoom, side: u8, front: &mut [u8; 9]) -> u8
    ensures offers { (c : Course) (which : Side) → Keeps room.now c → side ≡ side_number which
        → Offers (due which c) front.old front.new result }
    ensures no_side { IsNoSide side → (result ≡ 0) × (front.new ≡ front.old) }
    ensures forfeited { room.now.forfeit ≢ 0 → result ≡ 0 }
    // For any bytes of the room, valid or not.
    ensures few { result ≤ 9 }
    ensures rest { drop result front.new ≡ drop result front.old }
{
    let Some(side) = Side::from_number(side) else {
        return 0;
    };
    let bytes = choices(room, side);
    put_front(bytes.as_slice(), front);
    bytes.len() as u8
}

/// Submits a choice of a side for the pair with the given number. Returns 0 if the room takes it, else the code of the refusal.
#[unsafe(no_mangle)]
pub extern "C" fn gen1_room_submit(room: &mut PlainRoom, side: u8, number: u32, choice: u8) -> u8
    ensures submits { (c : Course) (which : Side) → Keeps room.old c → side ≡ side_number which
        → Keeps room.new (after c (submission_of which number choice))
        × (result ≡ reply_code (reply_to c (submission_of which number choice))) }
    ensures no_side { IsNoSide side → result ≡ 40 }
    ensures forfeited { (which : Side) → side ≡ side_number which → room.old.forfeit ≢ 0
        → result ≡ 24 }
    ensures marked { IsMarked room.old → IsMarked room.new }
    // For any bytes, valid or not.
    ensures kept { result ≢ 0 → room.new ≡ room.old }
    ensures short { room.old.log_length ≤ 512 → room.new.log_length ≤ 512 }
    ensures rest { drop room.new.log_length room.new.log ≡ drop room.new.log_length room.old.log }
    ensures unused { room.new.unused ≡ room.old.unused }
    ensures counted { (room.old.number ≤ room.new.number) × (room.new.number ≤ room.old.number + 1) }
    ensures going { room.new.forfeit ≡ room.old.forfeit }
    ensures code { result ≢ 0 → result ≢ 24 → result ≢ 40 → (52 ≤ result) × (result ≤ 54) }
{
    let Some(side) = Side::from_number(side) else {
        return SIDE;
    };
    match submit(room, side, number, choice) {
        Ok(_) => 0,
        Err(why) => code_of(why),
    }
}

fn code_of(why: RoomRefusal) -> u8
    ensures value { result ≡ why_code (why_of why) }
    ensures some { 1 ≤ result }
    ensures listed { result ≢ 24 → (52 ≤ result) × (result ≤ 54) }
{
    match why {
        RoomRefusal::Over => OVER,
        RoomRefusal::Stale(_) => STALE,
        RoomRefusal::AlreadyChosen => CHOSEN,
        RoomRefusal::NotOffered => NOT_OFFERED,
    }
}

/// Ends the current pair by a forfeit of a side: the other side wins. Returns 0, or the code of the refusal.
#[unsafe(no_mangle)]
pub extern "C" fn gen1_room_forfeit(room: &mut PlainRoom, side: u8) -> u8
    ensures forfeits { (c : Course) (which : Side) → Keeps room.old c → side ≡ side_number which
        → ForfeitsAs (is_over c.state.field.outcome) c which room.new result }
    ensures no_side { IsNoSide side → result ≡ 40 }
    ensures forfeited { (which : Side) → side ≡ side_number which → room.old.forfeit ≢ 0
        → result ≡ 24 }
    ensures marked { IsMarked room.old → IsMarked room.new }
    // For any bytes, valid or not.
    ensures kept { result ≢ 0 → room.new ≡ room.old }
    ensures short { room.old.log_length ≤ 512 → room.new.log_length ≤ 512 }
    ensures rest { drop room.new.log_length room.new.log ≡ drop room.new.log_length room.old.log }
    ensures unused { room.new.unused ≡ room.old.unused }
    ensures counted { (room.old.number ≤ room.new.number) × (room.new.number ≤ room.old.number + 1) }
    ensures battle { room.new.battle ≡ room.old.battle }
    ensures told { result ≡ 0 → room.new.forfeit ≡ side }
    ensures code { result ≢ 0 → result ≢ 40 → result ≡ 24 }
{
    let Some(side) = Side::from_number(side) else {
        return SIDE;
    };
    match forfeit(room, side) {
        Ok(_) => 0,
        Err(why) => code_of(why),
    }
}

/// Returns the result of a room: that of its battle, or the other side's win if a side has forfeited.
#[unsafe(no_mangle)]
pub extern "C" fn gen1_room_result(room: &PlainRoom) -> u8
    ensures keeps { (c : Course) → Keeps room.now c → result ≡ result_byte c.state.field }
    ensures forfeited { (which : Side) → room.now.forfeit ≡ side_number which
        → result ≡ lost_byte which }
    // For any bytes of the room, valid or not.
    ensures listed { IsResult result }
{
    let now = result(room);
    let one = byte_of_request(now.request_one);
    let two = byte_of_request(now.request_two);
    byte_of_outcome(now.outcome) + 8 * one + 32 * two
}
