//! Choices at a table: submitted, taken back, and made when time has run out; how a table ends before its battle does;
//! and all of this as rows that are written down (docs/MECHANICS.md, "Hosts").
ghost use Rattle.std.specs.Prelude.{List, None, OnErr, false, length, map, ◌≡◌, ◌≤◌};
ghost use Rattle.gen1_machine.specs.declared.event.Event.{Event};
ghost use Rattle.gen1_machine.specs.Room.{Course, is_asked_to_pass};
ghost use Rattle.gen1_machine.specs.declared.side.Side.{Side};
ghost use Rattle.gen1_events.specs.Reader.{IsReading};
ghost use Rattle.gen1_player.specs.Telling.{IsTeller, meets_all};
ghost use Rattle.gen1_room.specs.Rooms.{Keeps, submission_of};
ghost use Rattle.gen1_host.specs.Table.{Cancel, Expire, Forfeit, OfferDraw, Submit, Table, goes_on, has_none_to_cancel, replies_to, reply_to_submission, submitted, table_after, taken_back};
ghost use Rattle.gen1_host.specs.Hosts.{Follows, Hosts, IsRoomWithin, IsWithin, Takes, row_at};
ghost use Rattle.gen1_host.specs.Messages.{reply_of};

use crate::host::{
    AGREED, Host, HostRefusal, HostReply, NONE, Replied, copy_of, draw_from, first_due, has_chosen,
    is_asked_to_pass, is_closed, log_of, refusal_of, reply_to,
};
use gen1_machine::Side;
use gen1_player::Teller;
use gen1_rolls::LinkRandom;
use gen1_room::plain::{PlainRoom, submit as submit_to_room};

/// Submits the byte of a side's choice for the pair with the given number. If there are numbers, the battle draws them from then on.
///
/// A refusal changes nothing, with any bytes of the host. Once both choices are there the battle is updated.
pub fn submit(
    host: &mut Host,
    side: Side,
    number: u32,
    byte: u8,
    numbers: &Option<LinkRandom>,
) -> HostReply
    ensures takes { (t : Table) → Hosts host.old t
        → Takes (Submit numbers.now (submission_of side number byte)) t host.new result }
    ensures within { IsWithin host.old → IsWithin host.new }
    ensures refused { OnErr result (host.new ≡ host.old) }
{
    if is_closed(host) {
        return Err(HostRefusal::Over);
    }
    submit_now(host, side, number, byte, numbers)
}

// At an open table.
fn submit_now(
    host: &mut Host,
    side: Side,
    number: u32,
    byte: u8,
    numbers: &Option<LinkRandom>,
) -> HostReply
    ensures follows { (t : Table) → Hosts host.old t
        → Follows (reply_to_submission numbers.now (submission_of side number byte) t)
        t (submitted numbers.now (submission_of side number byte) t) host.new result }
    ensures within { IsWithin host.old → IsWithin host.new }
    ensures refused { OnErr result (host.new ≡ host.old) }
{
    let mut room = copy_of(&host.room);
    draw_from(&mut room, numbers);
    match submit_to_room(&mut room, side, number, byte) {
        Ok(submitted) => {
            go_on(host, room);
            Ok(reply_to(&submitted))
        }
        Err(why) => Err(refusal_of(why)),
    }
}

// The room becomes this one. If a pair has ended, both tellers have told the events before it, and no draw is offered.
fn go_on(host: &mut Host, next: PlainRoom)
    ensures hosts { (t : Table) (c : Course) → Hosts host.old t → Keeps next c → next.log_length ≤ 512
        → Hosts host.new (goes_on t c) }
    ensures within { IsRoomWithin next → IsWithin host.old → IsWithin host.new }
{
    if next.number == host.room.number {
        host.room = next;
        return;
    }
    meet_last(host);
    host.room = next;
}

// Both tellers report the log of the last pair.
fn meet_last(host: &mut Host)
    ensures hosts { (t : Table) → Hosts host.old t
        → Hosts host.new (record t { one = meets_all t.course.events t.one; two = meets_all t.course.events t.two; draw = None }) }
    ensures room { host.new.room ≡ host.old.room }
    ensures within { IsWithin host.old → IsWithin host.new }
{
    meet(&mut host.one, log_of(&host.room));
    meet(&mut host.two, log_of(&host.room));
    host.draw = 0;
}

// Bytes that are not a log leave the teller as it was.
fn meet(teller: &mut Teller, log: &[u8])
    requires few { length log.now ≤ 512 }
    ensures met { (events : List Event) → IsReading log.now events → teller.new ≡ meets_all events teller.old }
    ensures within { (side : Side) → IsTeller side teller.old → IsTeller side teller.new }
    ensures pixels { teller.new.pixels ≡ teller.old.pixels }
{
    let _ = teller.tell_log(log);
}

/// Takes a side's choice for the pair with the given number back, if the house rules allow it and the other side's choice is missing.
pub fn cancel(host: &mut Host, side: Side, number: u32) -> HostReply
    ensures takes { (t : Table) → Hosts host.old t → Takes (Cancel side number) t host.new result }
    ensures within { IsWithin host.old → IsWithin host.new }
    ensures refused { OnErr result (host.new ≡ host.old) }
{
    if is_closed(host) {
        return Err(HostRefusal::Over);
    }
    if host.may_cancel == 0 {
        return Err(HostRefusal::NotAllowed);
    }
    if number != host.room.number {
        return Err(HostRefusal::Stale(host.room.number));
    }
    if has_none_to_cancel(&host.room, side) {
        return Err(HostRefusal::NothingChosen);
    }
    take_back(host, side);
    Ok(Replied::Kept)
}

fn has_none_to_cancel(room: &PlainRoom, side: Side) -> bool
    ensures { (c : Course) → Keeps room.now c → result ≡ has_none_to_cancel side c }
{
    let is_missing = !has_chosen(room, side);
    is_asked_to_pass(room, side) | is_missing
}

fn take_back(host: &mut Host, side: Side)
    ensures hosts { (t : Table) → Hosts host.old t → is_asked_to_pass side t.course ≡ false → Hosts host.new (taken_back side t) }
    ensures within { IsWithin host.old → IsWithin host.new }
{
    match side {
        Side::One => host.room.one = NONE,
        Side::Two => host.room.two = NONE,
    }
}

/// A side's time for the pair with the given number has run out: its first choice is made, or it forfeits, by the house rules.
pub fn expire(host: &mut Host, side: Side, number: u32, numbers: &Option<LinkRandom>) -> HostReply
    ensures takes { (t : Table) → Hosts host.old t → Takes (Expire numbers.now side number) t host.new result }
    ensures within { IsWithin host.old → IsWithin host.new }
    ensures refused { OnErr result (host.new ≡ host.old) }
{
    if is_closed(host) {
        return Err(HostRefusal::Over);
    }
    if number != host.room.number {
        return Err(HostRefusal::Stale(host.room.number));
    }
    if has_chosen(&host.room, side) {
        return Err(HostRefusal::AlreadyChosen);
    }
    if host.late_forfeits != 0 {
        host.ending = side.number();
        return Ok(Replied::Ended);
    }
    let byte = first_due(&host.room, side);
    submit_now(host, side, number, byte, numbers)
}

/// Ends the table by a forfeit: the other side wins. The battle doesn't change.
pub fn forfeit(host: &mut Host, side: Side) -> HostReply
    ensures takes { (t : Table) → Hosts host.old t → Takes (Forfeit side) t host.new result }
    ensures within { IsWithin host.old → IsWithin host.new }
    ensures refused { OnErr result (host.new ≡ host.old) }
{
    if is_closed(host) {
        return Err(HostRefusal::Over);
    }
    host.ending = side.number();
    Ok(Replied::Ended)
}

/// Offers a draw, or accepts the one that the other side offers: then the table ends in a tie, and the battle doesn't change. An
/// offer lasts until the current pair has ended.
pub fn offer_draw(host: &mut Host, side: Side) -> HostReply
    ensures takes { (t : Table) → Hosts host.old t → Takes (OfferDraw side) t host.new result }
    ensures within { IsWithin host.old → IsWithin host.new }
    ensures refused { OnErr result (host.new ≡ host.old) }
{
    if is_closed(host) {
        return Err(HostRefusal::Over);
    }
    if host.draw == side.other().number() {
        host.ending = AGREED;
        return Ok(Replied::Ended);
    }
    host.draw = side.number();
    Ok(Replied::Kept)
}

/// What happens at a table. If a row has numbers, the battle draws them from then on; otherwise it draws on as before.
#[derive(Clone, Copy, Debug, PartialEq, Eq, Drop)]
pub enum Row {
    /// A side submits the byte of its choice for the pair with this number.
    Submit {
        side: Side,
        number: u32,
        byte: u8,
        numbers: Option<LinkRandom>,
    },
    /// A side takes its choice for this pair back.
    Cancel {
        side: Side,
        number: u32,
    },
    /// A side's time for this pair has run out.
    Expire {
        side: Side,
        number: u32,
        numbers: Option<LinkRandom>,
    },
    /// A side offers a draw, or accepts one.
    OfferDraw(Side),
    Forfeit(Side),
}

/// Applies a row to a table, by the call of its name. A refusal changes nothing, with any bytes of the host.
pub fn apply(host: &mut Host, row: &Row) -> HostReply
    ensures takes { (t : Table) → Hosts host.old t → Takes (row_at row.now) t host.new result }
    ensures within { IsWithin host.old → IsWithin host.new }
    ensures refused { OnErr result (host.new ≡ host.old) }
{
    match row {
        Row::Submit {
            side,
            number,
            byte,
            numbers,
        } => submit(host, *side, *number, *byte, numbers),
        Row::Cancel { side, number } => cancel(host, *side, *number),
        Row::Expire {
            side,
            number,
            numbers,
        } => expire(host, *side, *number, numbers),
        Row::OfferDraw(side) => offer_draw(host, *side),
        Row::Forfeit(side) => forfeit(host, *side),
    }
}

/// Applies rows in order, and writes the reply to each at its index. A table that begins in the same way and takes the rows that were
/// written down is again where it was.
pub fn run(host: &mut Host, rows: &[Row], replies: &mut [HostReply])
    requires same_length { length rows.now ≡ length replies.old }
    ensures hosts { (t : Table) → Hosts host.old t → Hosts host.new (table_after (map row_at rows.now) t) }
    ensures replies { (t : Table) → Hosts host.old t
        → map reply_of replies.new ≡ replies_to (map row_at rows.now) t }
    ensures within { IsWithin host.old → IsWithin host.new }
{
    for (place, row) in rows.iter().enumerate() {
        replies[place] = apply(host, row);
    }
}
