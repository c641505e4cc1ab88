//! Battles that are played pair by pair, or by two players' submissions to a room, and the lines of each, or of a log
//! (docs/PROGRAM.md, "run", "Output", "room", "print").
ghost use Rattle.std.specs.Prelude.{IfOk, IfSome, List, [], codes, false, ◌++◌, ◌+◌, ◌||◌, ◌∷◌, ◌≡◌};
ghost use Rattle.gen1_devices.specs.Input.{TakesAtMost};
ghost use Rattle.gen1_machine.specs.Lines.{joined, lines};
ghost use Rattle.gen1_machine.specs.LogBytes.{codes_of};
ghost use Rattle.gen1_machine.specs.State.{State};
ghost use Rattle.gen1_machine.specs.Room.{Course, after as follows, reply_to};
ghost use Rattle.gen1_machine.specs.declared.event.Event.{Event as Told};
ghost use Rattle.gen1_events.specs.Reader.{IsReading};
ghost use Rattle.gen1_layout.specs.Shows.{Stands};
ghost use Rattle.gen1_room.specs.Rooms.{Holds, submission_at, why_of};
ghost use Rattle.battle_commands.specs.Asked.{Answers, due_from, is_read_fault, is_write_fault, log_due, only, pieces_of_refusal, replies_due, room_due, run_due, text_of_reply};
ghost use Rattle.battle_commands.specs.Served.{PrintsLog};

use crate::fault::ToolFault;
use crate::input::{INPUT_LIMIT, read_bout, read_input};
use arrayvec::ArrayString;
use battle_input::Key;
use gen1_engine::Battle;
use gen1_events::LogBuf;
use gen1_machine::{Device, Event, EventList, Side, Sink, Source, send, send_all};
use gen1_printer::{PrintFault, print_line, print_log};
use gen1_room::{Room, RoomRefusal, Submitted};
use itoa::Buffer;
use std::alloc::{AllocError, Allocator, Global};

/// Reads the input of `run`, and writes the lines of each pair (docs/PROGRAM.md, "run", "Output").
///
/// The whole input is read; then its sheet, side 1's team and side 2's are tested; then the pairs are played, up to the first that
/// is refused. If an error is returned, the lines before it are written. The lines of a pair are sent together.
pub fn play<A: AllocGlobal, R: Source, W: Sink>(
    rt: &A,
    reader: &mut R,
    writer: &mut W,
) -> Result<(), ToolFault>
    // If the source reports its bytes, what they ask for is written and returned.
    ensures answers { IfSome (R.remaining reader.old)
        (λ input. Answers (run_due input) (W.contents writer.old) (W.contents writer.new) result) }

    // At most one byte beyond the limit is taken from the source.
    ensures taken { TakesAtMost (R.remaining reader.old) (R.remaining reader.new) (INPUT_LIMIT + 1) }

    // It returns a device's error exactly if that device has failed in this call.
    ensures read { R.has_failed reader.new ≡ (R.has_failed reader.old || is_read_fault result) }
    ensures write { W.has_failed writer.new ≡ (W.has_failed writer.old || is_write_fault result) }
{
    let mut bout = read_bout::<(u8, u8), R>(rt.alloc(), reader, Key::Choices)?;
    print_pairs(rt.alloc(), &mut bout.battle, bout.items.as_slice(), writer)
}

/// Plays pairs, and sends the lines of each.
fn print_pairs<W: Sink>(
    alloc: Global,
    battle: &mut Battle,
    pairs: &[(u8, u8)],
    sink: &mut W,
) -> Result<(), ToolFault>
    ensures answers { (s : State) → Stands battle.old s
        → Answers (due_from lines 0 s pairs.now) (W.contents sink.old) (W.contents sink.new) result }
    ensures write { W.has_failed sink.new ≡ (W.has_failed sink.old || is_write_fault result) }
    ensures read { is_read_fault result ≡ false }
{
    let mut events = EventList::new();
    for (number, pair) in pairs.iter().enumerate() {
        match battle.update_events_by_bytes(pair.0, pair.1, &mut events) {
            Ok(_) => {}
            Err(refusal) => {
                let refusal = refusal.number();
                return Err(ToolFault::Pair { number, refusal });
            }
        }
        let text = text_of(alloc, events.as_slice())?;
        match send(sink, text.as_slice()) {
            Ok(()) => {}
            Err(_) => return Err(ToolFault::Write),
        }
    }
    Ok(())
}

/// Reads the input of `log`, and writes the log bytes of each pair (docs/PROGRAM.md, "log").
///
/// The tests and their order are those of `run`. The bytes of a pair are sent together, and if an error is returned, those before
/// it are written. No memory is allocated once the battle is made.
pub fn play_log<A: AllocGlobal, R: Source, W: Sink>(
    rt: &A,
    reader: &mut R,
    writer: &mut W,
) -> Result<(), ToolFault>
    // If the source reports its bytes, what they ask for is written and returned.
    ensures answers { IfSome (R.remaining reader.old)
        (λ input. Answers (log_due input) (W.contents writer.old) (W.contents writer.new) result) }

    // At most one byte beyond the limit is taken from the source.
    ensures taken { TakesAtMost (R.remaining reader.old) (R.remaining reader.new) (INPUT_LIMIT + 1) }

    // It returns a device's error exactly if that device has failed in this call.
    ensures read { R.has_failed reader.new ≡ (R.has_failed reader.old || is_read_fault result) }
    ensures write { W.has_failed writer.new ≡ (W.has_failed writer.old || is_write_fault result) }
{
    let mut bout = read_bout::<(u8, u8), R>(rt.alloc(), reader, Key::Choices)?;
    log_pairs(&mut bout.battle, bout.items.as_slice(), writer)
}

/// Plays pairs, and sends the log bytes of each.
fn log_pairs<W: Sink>(
    battle: &mut Battle,
    pairs: &[(u8, u8)],
    sink: &mut W,
) -> Result<(), ToolFault>
    ensures answers { (s : State) → Stands battle.old s
        → Answers (due_from codes_of 0 s pairs.now) (W.contents sink.old) (W.contents sink.new)
        result }
    ensures write { W.has_failed sink.new ≡ (W.has_failed sink.old || is_write_fault result) }
    ensures read { is_read_fault result ≡ false }
{
    let mut log = LogBuf::new();
    for (number, pair) in pairs.iter().enumerate() {
        match battle.update_by_bytes(pair.0, pair.1, &mut log) {
            Ok(_) => {}
            Err(refusal) => {
                let why = refusal.number();
                return Err(ToolFault::Pair {
                    number,
                    refusal: why,
                });
            }
        }
        match send(sink, log.as_slice()) {
            Ok(()) => {}
            Err(_) => return Err(ToolFault::Write),
        }
    }
    Ok(())
}

/// The lines of events.
pub fn text_of<A: Allocator>(alloc: A, events: &[Event]) -> Result<Vec<u8, A>, AllocError>
    ensures { IfOk result (λ text. text.items ≡ lines events.now) }
{
    let mut text = Device::new(Vec::new(alloc));
    for event in events {
        match print_line(event, &mut text) {
            Ok(()) => {}
            // A vector refuses a write only when memory runs out.
            Err(_) => return Err(AllocError),
        }
    }
    Ok(text.into_inner())
}

/// The most bytes of a refusal's line, ten of which are the digits of the current pair's number.
const REFUSAL_LENGTH: usize = 27;

/// Reads the input of `room`, and writes the lines of the start and the reply to each submission (docs/PROGRAM.md, "room").
///
/// The whole input is read; then its sheet, side 1's team and side 2's are tested; then the submissions are passed to the room.
pub fn play_room<A: AllocGlobal, R: Source, W: Sink>(
    rt: &A,
    reader: &mut R,
    writer: &mut W,
) -> Result<(), ToolFault>
    // If the source reports its bytes, what they ask for is written and returned.
    ensures answers { IfSome (R.remaining reader.old)
        (λ input. Answers (room_due input) (W.contents writer.old) (W.contents writer.new) result) }

    // At most one byte beyond the limit is taken from the source.
    ensures taken { TakesAtMost (R.remaining reader.old) (R.remaining reader.new) (INPUT_LIMIT + 1) }

    // It returns a device's error exactly if that device has failed in this call.
    ensures read { R.has_failed reader.new ≡ (R.has_failed reader.old || is_read_fault result) }
    ensures write { W.has_failed writer.new ≡ (W.has_failed writer.old || is_write_fault result) }
{
    let bout = read_bout::<(Side, u32, u8), R>(rt.alloc(), reader, Key::Submissions)?;
    let mut room = Room::new(bout.battle);
    send_lines(rt.alloc(), "", room.log(), writer)?;
    hand_in_all(rt.alloc(), &mut room, bout.items.as_slice(), writer)
}

/// Passes submissions to the room, and writes the reply to each.
fn hand_in_all<W: Sink>(
    alloc: Global,
    room: &mut Room,
    submissions: &[(Side, u32, u8)],
    sink: &mut W,
) -> Result<(), ToolFault>
    ensures answers { (c : Course) → Holds room.old c
        → Answers (replies_due c submissions.now) (W.contents sink.old) (W.contents sink.new)
        result }
    ensures write { W.has_failed sink.new ≡ (W.has_failed sink.old || is_write_fault result) }
    ensures read { is_read_fault result ≡ false }
{
    for submission in submissions {
        hand_in(alloc, room, *submission, sink)?;
    }
    Ok(())
}

/// Passes a submission to the room, and writes the reply, with the lines of the pair that it ended.
fn hand_in<W: Sink>(
    alloc: Global,
    room: &mut Room,
    submission: (Side, u32, u8),
    sink: &mut W,
) -> Result<(), ToolFault>
    ensures holds { (c : Course) → Holds room.old c
        → Holds room.new (follows c (submission_at submission)) }
    ensures answers { (c : Course) → Holds room.old c
        → Answers (only
        (text_of_reply (reply_to c (submission_at submission))
        (follows c (submission_at submission)).events)) (W.contents sink.old) (W.contents sink.new)
        result }
    ensures write { W.has_failed sink.new ≡ (W.has_failed sink.old || is_write_fault result) }
    ensures read { is_read_fault result ≡ false }
{
    match room.submit(submission.0, submission.1, submission.2) {
        Ok(Submitted::Waiting) => send_text(sink, "|room|waiting\n"),
        Ok(Submitted::Advanced(_)) => send_lines(alloc, "|room|advanced\n", room.log(), sink),
        Err(refusal) => send_text(sink, refusal_line(refusal).as_str()),
    }
}

/// Sends a text, and the lines of a log after it.
fn send_lines<W: Sink>(alloc: Global, text: &str, log: &[u8], sink: &mut W) -> Result<(), ToolFault>
    ensures answers { (events : List Told) → IsReading log.now events
        → Answers (only (text.now ++ lines events)) (W.contents sink.old) (W.contents sink.new)
        result }
    ensures write { W.has_failed sink.new ≡ (W.has_failed sink.old || is_write_fault result) }
    ensures read { is_read_fault result ≡ false }
{
    let behind = match print_log(alloc, log) {
        Ok(behind) => behind,
        Err(_) => return Err(ToolFault::Memory),
    };
    match send_all(sink, &[text.as_bytes(), behind.as_bytes()]) {
        Ok(()) => Ok(()),
        Err(_) => Err(ToolFault::Write),
    }
}

fn send_text<W: Sink>(sink: &mut W, text: &str) -> Result<(), ToolFault>
    ensures answers { Answers (only text.now) (W.contents sink.old) (W.contents sink.new) result }
    ensures write { W.has_failed sink.new ≡ (W.has_failed sink.old || is_write_fault result) }
    ensures read { is_read_fault result ≡ false }
{
    match send(sink, text.as_bytes()) {
        Ok(()) => Ok(()),
        Err(_) => Err(ToolFault::Write),
    }
}

fn refusal_line(refusal: RoomRefusal) -> ArrayString<REFUSAL_LENGTH>
    ensures { result.bytes ≡ joined
        (codes "|room|refused|" ∷ pieces_of_refusal (why_of refusal) ++ codes "\n" ∷ []) }
{
    let mut line = ArrayString::new();
    line.push_str("|room|refused|");
    match refusal {
        RoomRefusal::Over => line.push_str("1"),
        RoomRefusal::Stale(current) => {
            let mut digits = Buffer::new();
            line.push_str("2|");
            line.push_str(digits.format(current));
        }
        RoomRefusal::AlreadyChosen => line.push_str("3"),
        RoomRefusal::NotOffered => line.push_str("4"),
    }
    line.push_str("\n");
    line
}

/// Reads the bytes of a log, and writes the lines of its events (docs/PROGRAM.md, "print").
///
/// The whole input is read before anything is written. If the bytes are not a log, nothing is written.
pub fn play_print<A: AllocGlobal, R: Source, W: Sink>(
    rt: &A,
    reader: &mut R,
    writer: &mut W,
) -> Result<(), ToolFault>
    // If the source reports its bytes, they are the log that is printed.
    ensures answers { IfSome (R.remaining reader.old)
        (λ log. PrintsLog log (W.contents writer.old) (W.contents writer.new) result) }

    // At most one byte beyond the limit is taken from the source.
    ensures taken { TakesAtMost (R.remaining reader.old) (R.remaining reader.new) (INPUT_LIMIT + 1) }

    // It returns a device's error exactly if that device has failed in this call.
    ensures read { R.has_failed reader.new ≡ (R.has_failed reader.old || is_read_fault result) }
    ensures write { W.has_failed writer.new ≡ (W.has_failed writer.old || is_write_fault result) }
{
    let log = read_input(rt.alloc(), reader)?;
    let text = match print_log(rt.alloc(), log.as_slice()) {
        Ok(text) => text,
        Err(PrintFault::Log(fault)) => return Err(ToolFault::Log(fault.number())),
        Err(_) => return Err(ToolFault::Memory),
    };
    match send(writer, text.as_bytes()) {
        Ok(()) => Ok(()),
        Err(_) => Err(ToolFault::Write),
    }
}
