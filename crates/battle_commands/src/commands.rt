//! The command line, and the help of each subcommand (docs/PROGRAM.md, "The program battle_tool").
ghost use Rattle.std.specs.Prelude.{IfOk, IfSome, IsOk, List, [], codes, false, is_some, length, map, true, ℕ, ◌<◌, ◌||◌, ◌≡◌, ◌≢◌, ◌≤◌};
ghost use Rattle.gen1_devices.specs.Output.{Sends};
ghost use Rattle.battle_commands.specs.CommandLine.{AddsHelped, AskFor, Describes, Helps, HelpsAll, HelpsArg, explain_rule, faults, file_rule, names_file, reading, tool_app};
ghost use Rattle.battle_commands.specs.Asked.{Answers, Tells, is_read_fault, is_write_fault, log_due, room_due, run_due, sent_to};
ghost use Rattle.battle_commands.specs.Calc.{PrintsDamages, damages_due};
ghost use Rattle.battle_commands.specs.Faults.{status_of, told_of};
ghost use Rattle.battle_commands.specs.Served.{Ends, IsReply, IsServed, IsUnheld, PrintsLog, Replies, RepliesTo, Says, Serves, given, said_or_usage, usage};
ghost use Rattle.clap.specs.Matches.{first_value, found_of};
ghost use Rattle.clap.specs.Values.{kind_of};
ghost use Rattle.clap.specs.Words.{Row, app_of, rule_of, with_subcommand};
ghost use Rattle.clap.specs.declared.builder.command.Command.TheViews.{out-Command as fields_of};

use crate::battles::{play, play_log, play_print, play_room};
use crate::calc::play_calc;
use crate::fault::ToolFault;
use crate::input::Folder;
use clap::error::ErrorKind;
use clap::{Arg, ArgAction, ArgMatches, Command, Error};
use gen1_machine::{DeviceFault, Sink, Source, send, send_all};
use std::alloc::{AllocError, Global};
use std::convert::AsStr;

/// The exit status if the command line does not ask for anything that can be run.
pub const COMMAND_LINE_REFUSED: u8 = 2;

const ABOUT: &str = "Runs link battles of the first generation";

const STATUSES: &str =
    "Status: 0 all was printed, 1 the input was refused, 2 the command line was refused, 3 a read or a write failed, 4 out of memory. Standard error says why.";

const EXPLAIN_HELP: &str = "Says where the error is and what was expected, after its line";

const FILE_HELP: &str = "The input (default: standard input)";

/// What is written if clap's text is empty, which its contracts don't rule out.
const USAGE: &str = "usage: battle_tool SUBCOMMAND [--explain] [FILE]\n";

/// The argument FILE.
fn file_arg<'a>(alloc: Global) -> Arg<'a>
    ensures rule { rule_of result ≡ file_rule }
    ensures local { result.global ≡ false }
    ensures help { HelpsArg (codes "The input (default: standard input)") result }
{
    Arg::new(alloc, "FILE")
        .help(FILE_HELP)
        .action(ArgAction::Set)
}

/// The option `--explain`.
fn explain_arg<'a>(alloc: Global) -> Arg<'a>
    ensures rule { rule_of result ≡ explain_rule }
    ensures local { result.global ≡ false }
    ensures help { HelpsArg (codes "Says where the error is and what was expected, after its line") result }
{
    Arg::new(alloc, "explain")
        .long("explain")
        .help(EXPLAIN_HELP)
        .action(ArgAction::SetTrue)
}

/// A subcommand that reads a FILE, or standard input if none is named.
fn reading<'a>(alloc: Global, name: &'a str) -> Result<Command<'a>, AllocError>
    ensures { IfOk result (λ command. (app_of command ≡ reading name.now)
        × ((fields_of command).has_globals ≡ false) × Helps name.now command) }
{
    let explained = Command::new(alloc, name).arg(explain_arg(alloc))?;
    let filed = explained.arg(file_arg(alloc))?;
    let (about, input) = help_of(name);
    Ok(filed.about(about).after_help(input))
}

/// Adds a subcommand that reads a FILE, or standard input if none is named.
fn with_reading<'a>(
    alloc: Global,
    command: Command<'a>,
    name: &'a str,
) -> Result<Command<'a>, AllocError>
    ensures app { IfOk result (λ more. app_of more ≡ with_subcommand (app_of command.entry) (reading name.now).top) }
    ensures helps { IfOk result (AddsHelped name.now command.entry) }
{
    let subcommand = reading(alloc, name)?;
    command.subcommand(subcommand)
}

/// The command line.
fn command<'a>(alloc: Global) -> Result<Command<'a>, AllocError>
    ensures app { IfOk result (λ command. app_of command ≡ tool_app) }
    ensures helps { IfOk result HelpsAll }
{
    let top = Command::new(alloc, "battle_tool").subcommand_required(true);
    let with_run = with_reading(alloc, top, "run")?;
    let with_log = with_reading(alloc, with_run, "log")?;
    let with_print = with_reading(alloc, with_log, "print")?;
    let with_calc = with_reading(alloc, with_print, "calc")?;
    let with_room = with_reading(alloc, with_calc, "room")?;
    Ok(with_room.about(ABOUT).after_help(STATUSES))
}

/// Writes an error to standard error, with its explanation if `explains`, and returns its status, 1 to 4. If that stream fails,
/// this changes nothing. No memory is allocated (docs/PROGRAM.md, "Faults and statuses", "Explanations").
pub fn report<E: Sink>(fault: &ToolFault, explains: bool, err: &mut E) -> u8
    ensures status { result ≡ status_of fault.now }
    ensures most { result ≤ 4 }
    ensures told { Tells (sent_to E.contents E.has_failed err) (told_of explains fault.now) }
{
    let _ = tell(fault, explains, err);
    fault.status()
}

/// Sends the line of an error, with its explanation if `explains`.
fn tell<E: Sink>(fault: &ToolFault, explains: bool, err: &mut E) -> Result<(), DeviceFault>
    ensures { Sends (E.contents err.old) (E.contents err.new) (E.has_failed err.old)
        (E.has_failed err.new) (told_of explains fault.now) result }
{
    let line = fault.line();
    if !explains {
        return send(err, line.as_str().as_bytes());
    }
    let behind = fault.explanation();
    send_all(err, &[line.as_str().as_bytes(), behind.as_str().as_bytes()])
}

/// clap's text, or `USAGE` if that is empty.
fn text_or_usage(text: &str) -> &str
    ensures some { 0 < length result.now }
    ensures same { 0 < length text.now → result.now ≡ text.now }
    ensures value { length text.now ≡ 0 → result.now ≡ usage }
{
    if text.is_empty() { USAGE } else { text }
}

/// Writes clap's reply to words that do not ask for anything to run: requested help to standard output, and what is wrong with the
/// words to standard error.
fn answer_words<O: Sink, E: Sink>(alloc: Global, error: &Error, out: &mut O, err: &mut E) -> u8
    ensures most { result ≤ 4 }
    ensures replies { RepliesTo (kind_of error.now) (sent_to O.contents O.has_failed out)
        (sent_to E.contents E.has_failed err) result }
    ensures unheld { kind_of error.now ≡ ErrorKind.OutOfMemory
        → IsUnheld (sent_to E.contents E.has_failed err) result }
    ensures written { result ≡ 0 → O.has_failed out.new ≡ O.has_failed out.old }
    ensures untold { result ≡ 0 → err.new ≡ err.old }
{
    if error.kind() == ErrorKind::OutOfMemory {
        return report(&ToolFault::Memory, false, err);
    }
    let Ok(said) = error.to_string(alloc) else {
        return report(&ToolFault::Memory, false, err);
    };
    reply(error, said.as_str(), out, err)
}

/// Writes clap's text, or `USAGE` if that is empty, where the error belongs.
fn reply<O: Sink, E: Sink>(error: &Error, said: &str, out: &mut O, err: &mut E) -> u8
    ensures most { result ≤ 4 }
    ensures says { Says (said_or_usage said.now) (kind_of error.now)
        (sent_to O.contents O.has_failed out) (sent_to E.contents E.has_failed err) }
    ensures replies { IsReply (kind_of error.now) (sent_to O.contents O.has_failed out)
        (sent_to E.contents E.has_failed err) result }
    ensures written { result ≡ 0 → O.has_failed out.new ≡ O.has_failed out.old }
    ensures untold { result ≡ 0 → err.new ≡ err.old }
{
    let text = text_or_usage(said);
    if error.use_stderr() {
        let _ = send(err, text.as_bytes());
        return COMMAND_LINE_REFUSED;
    }
    match send(out, text.as_bytes()) {
        Ok(()) => 0,
        Err(_) => report(&ToolFault::Write, false, err),
    }
}

/// Runs a subcommand on its input.
fn run_named<A: AllocGlobal, I: Source, O: Sink>(
    rt: &A,
    name: &str,
    input: &mut I,
    out: &mut O,
) -> Result<(), ToolFault>
    ensures print { name.now ≡ codes "print"
        → IfSome (I.remaining input.old)
        (λ log. PrintsLog log (O.contents out.old) (O.contents out.new) result) }
    ensures calc { name.now ≡ codes "calc"
        → IfSome (I.remaining input.old)
        (λ asked. PrintsDamages (damages_due asked) (O.contents out.old) (O.contents out.new)
        result) }
    ensures room { name.now ≡ codes "room"
        → IfSome (I.remaining input.old)
        (λ asked. Answers (room_due asked) (O.contents out.old) (O.contents out.new) result) }
    ensures log { name.now ≡ codes "log"
        → IfSome (I.remaining input.old)
        (λ asked. Answers (log_due asked) (O.contents out.old) (O.contents out.new) result) }
    ensures run { name.now ≡ codes "run"
        → IfSome (I.remaining input.old)
        (λ asked. Answers (run_due asked) (O.contents out.old) (O.contents out.new) result) }
    ensures read { I.has_failed input.new ≡ (I.has_failed input.old || is_read_fault result) }
    ensures write { O.has_failed out.new ≡ (O.has_failed out.old || is_write_fault result) }
{
    match name {
        "print" => play_print(rt, input, out),
        "calc" => play_calc(rt, input, out),
        "room" => play_room(rt, input, out),
        "log" => play_log(rt, input, out),
        _ => play(rt, input, out),
    }
}

/// Runs a subcommand on its FILE, or on `input`, which is not read if a FILE is named.
fn run<A: AllocGlobal, F: Folder, I: Source, O: Sink>(
    rt: &A,
    folder: &mut F,
    name: &str,
    matches: &ArgMatches,
    input: &mut I,
    out: &mut O,
) -> Result<(), ToolFault>
    ensures serves { IfSome
        (given (F.named folder.old) (I.remaining input.old)
        (first_value (found_of matches.now) (codes "FILE")))
        (λ asked. Serves name.now asked (O.contents out.old) (O.contents out.new) result) }
    ensures alone { is_some (first_value (found_of matches.now) (codes "FILE")) ≡ true
        → input.new ≡ input.old }
    ensures unopened { is_some (first_value (found_of matches.now) (codes "FILE")) ≡ false
        → folder.new ≡ folder.old }
    ensures read { IsOk result → I.has_failed input.new ≡ I.has_failed input.old }
    ensures file { IsOk result → F.has_failed folder.new ≡ F.has_failed folder.old }
    ensures write { O.has_failed out.new ≡ (O.has_failed out.old || is_write_fault result) }
{
    match matches.get_str("FILE") {
        None => run_named(rt, name, input, out),
        Some(file) => match folder.open(file) {
            Ok(()) => run_named(rt, name, folder, out),
            Err(_) => Err(ToolFault::Read),
        },
    }
}

/// Runs a subcommand on its FILE, or on `input`, and reports its error, with an explanation if one is asked for. The status is 0 if
/// all was done.
fn run_and_tell<A: AllocGlobal, F: Folder, I: Source, O: Sink, E: Sink>(
    rt: &A,
    folder: &mut F,
    name: &str,
    matches: &ArgMatches,
    input: &mut I,
    out: &mut O,
    err: &mut E,
) -> u8
    ensures most { result ≤ 4 }
    ensures ends { IsServed name.now matches.now (given (F.named folder.old) (I.remaining input.old))
        (sent_to O.contents O.has_failed out) (sent_to E.contents E.has_failed err) result }
    ensures alone { is_some (first_value (found_of matches.now) (codes "FILE")) ≡ true
        → input.new ≡ input.old }
    ensures unopened { is_some (first_value (found_of matches.now) (codes "FILE")) ≡ false
        → folder.new ≡ folder.old }
    ensures read { result ≡ 0 → I.has_failed input.new ≡ I.has_failed input.old }
    ensures file { result ≡ 0 → F.has_failed folder.new ≡ F.has_failed folder.old }
    ensures written { result ≡ 0 → O.has_failed out.new ≡ O.has_failed out.old }
    ensures untold { result ≡ 0 → err.new ≡ err.old }
{
    let explains = matches.get_flag("explain");
    match run(rt, folder, name, matches, input, out) {
        Ok(()) => 0,
        Err(fault) => report(&fault, explains, err),
    }
}

/// Runs the words of a command line, the program's name first, and returns the exit status, 0 to 4 (docs/PROGRAM.md, "The program
/// battle_tool"). It reads the FILE of `folder` that the words name, or `input` if they name none, prints to `out`, and reports
/// errors to `err`.
pub fn tool<A: AllocGlobal, F: Folder, S: AsStr, I: Source, O: Sink, E: Sink>(
    rt: &A,
    folder: &mut F,
    words: &[S],
    input: &mut I,
    out: &mut O,
    err: &mut E,
) -> u8
    ensures most { result ≤ 4 }
    // If the command line accepts the words, the subcommand that they ask for is served.
    ensures ends { (asked : List ℕ × List Row) → AskFor (map S.text words.now) asked
        → Ends asked (given (F.named folder.old) (I.remaining input.old))
        (sent_to O.contents O.has_failed out) (sent_to E.contents E.has_failed err) result }
    // Standard input is not read if they name a FILE, also after an error. No file is opened if they name none.
    ensures alone { (asked : List ℕ × List Row) → AskFor (map S.text words.now) asked
        → names_file asked ≡ true → input.new ≡ input.old }
    ensures unopened { (asked : List ℕ × List Row) → AskFor (map S.text words.now) asked
        → names_file asked ≡ false → folder.new ≡ folder.old }
    // If the words have a fault or ask for help, they get a reply, and nothing is read.
    ensures replies { Replies (faults (map S.text words.now)) (sent_to O.contents O.has_failed out)
        (sent_to E.contents E.has_failed err) result }
    ensures unread { faults (map S.text words.now) ≢ [] → input.new ≡ input.old }
    ensures shut { faults (map S.text words.now) ≢ [] → folder.new ≡ folder.old }
    // With status 0 no read and no write has failed, and no error was reported.
    ensures read { result ≡ 0 → I.has_failed input.new ≡ I.has_failed input.old }
    ensures file { result ≡ 0 → F.has_failed folder.new ≡ F.has_failed folder.old }
    ensures written { result ≡ 0 → O.has_failed out.new ≡ O.has_failed out.old }
    ensures untold { result ≡ 0 → err.new ≡ err.old }
{
    let alloc = rt.alloc();
    let Ok(command) = command(alloc) else {
        return report(&ToolFault::Memory, false, err);
    };
    let matches = match command.try_get_matches_from(words) {
        Ok(matches) => matches,
        Err(error) => return answer_words(alloc, &error, out, err),
    };
    // Words that name no subcommand are refused above.
    let Some((name, inner)) = matches.subcommand() else {
        unreachable!()
    };
    run_and_tell(rt, folder, name, inner, input, out, err)
}

const RUN_ABOUT: &str = "Runs a battle and prints its lines";

const RUN_INPUT: &str =
    "Reads {\"seed\":[10 bytes],\"one\":[member],\"two\":[member],\"choices\":[[byte,byte],..]}, and optionally the keys \"rules\" and \"limit\". A member is {\"species\":name,\"level\":n,\"dvs\":[4],\"exp\":[5],\"moves\":[[name,ups],..]}. Prints a line for each event, pair by pair.";

const LOG_ABOUT: &str = "Runs a battle and writes its log";

const LOG_INPUT: &str =
    "Reads the same object as run. Writes the log bytes of each pair, for print to read.";

const PRINT_ABOUT: &str = "Prints the lines of a log";

const PRINT_INPUT: &str =
    "Reads the log bytes of updates, one after the other. Prints a line for each event, and nothing if the bytes are not a log.";

const CALC_ABOUT: &str = "Prints the damage numbers of a move";

const CALC_INPUT: &str =
    "Reads {\"attacker\":member,\"defender\":member,\"move\":name,\"critical\":true or false}, with members as in run. Prints in one line the damage at each factor from 217 to 255, of the attacker's move against the defender, both just sent out. Prints nothing for a move without the usual damage.";

const ROOM_ABOUT: &str = "Runs a room of two players and prints the reply to each submission";

const ROOM_INPUT: &str =
    "Reads the object of run with \"submissions\":[[side,number,byte],..] in place of choices: the side, 1 or 2, the number of its pair, from 0, and the choice. Prints the lines of the start, and for each submission |room|waiting, |room|advanced with the lines of the pair, or |room|refused|N.";

/// What a subcommand does, and what it reads and prints, for its help.
fn help_of(name: &str) -> (&'static str, &'static str)
    ensures { Describes name.now result.0.now result.1.now }
{
    match name {
        "run" => (RUN_ABOUT, RUN_INPUT),
        "log" => (LOG_ABOUT, LOG_INPUT),
        "print" => (PRINT_ABOUT, PRINT_INPUT),
        "calc" => (CALC_ABOUT, CALC_INPUT),
        _ => (ROOM_ABOUT, ROOM_INPUT),
    }
}
