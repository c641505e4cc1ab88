//! Subcommands on devices that fail, or that take or return few bytes in a call (docs/PROGRAM.md, "Faults and statuses").
use battle_commands::{ToolFault, play, play_calc, play_room};
use gen1_machine::{Device, Sink, Source};
use std::fmt::Debug;
use std::process::Abort;
use test_support::{Broken, Failing};

/// The lines of two turns of two Tauros.
pub(crate) static TWO_TURNS: &str =
    "|switch|p1a: Tauros|Tauros|353/353\n|switch|p2a: Tauros|Tauros|353/353\n|turn|1\n|move|p1a: Tauros|Strength|p2a: Tauros\n|-crit|p2a: Tauros\n|-damage|p2a: Tauros|149/353\n|move|p2a: Tauros|Strength|p1a: Tauros\n|-damage|p1a: Tauros|263/353\n|turn|2\n|move|p1a: Tauros|Strength|p2a: Tauros\n|-crit|p2a: Tauros\n|-damage|p2a: Tauros|0 fnt\n|faint|p2a: Tauros\n|win|p1\n";

/// The battle of two turns.
fn run() -> Printing<'static> {
    Printing {
        command: Command::Run,
        input: "{\"seed\":[1,36,255,7,31,100,179,254,127,10],\"one\":[{\"species\":\"Tauros\",\"level\":100,\"dvs\":[15,15,15,15],\"exp\":[65535,65535,65535,65535,65535],\"moves\":[[\"Strength\",3]]}],\"two\":[{\"species\":\"Tauros\",\"level\":100,\"dvs\":[15,15,15,15],\"exp\":[65535,65535,65535,65535,65535],\"moves\":[[\"Strength\",3]]}],\"choices\":[[0,0],[17,17],[17,17]]}",
        text: TWO_TURNS,
    }
}

/// A room of two Tauros.
fn room() -> Printing<'static> {
    Printing {
        command: Command::Room,
        input: "{\"seed\":[1,36,255,7,31,100,179,254,127,10],\"one\":[{\"species\":\"Tauros\",\"level\":100,\"dvs\":[15,15,15,15],\"exp\":[65535,65535,65535,65535,65535],\"moves\":[[\"Strength\",3]]}],\"two\":[{\"species\":\"Tauros\",\"level\":100,\"dvs\":[15,15,15,15],\"exp\":[65535,65535,65535,65535,65535],\"moves\":[[\"Strength\",3]]}],\"submissions\":[[1,0,17],[1,0,17],[2,1,17],[2,0,17],[2,0,17],[1,1,20]]}",
        text: "|switch|p1a: Tauros|Tauros|353/353\n|switch|p2a: Tauros|Tauros|353/353\n|turn|1\n|room|waiting\n|room|refused|3\n|room|refused|2|0\n|room|advanced\n|move|p1a: Tauros|Strength|p2a: Tauros\n|-crit|p2a: Tauros\n|-damage|p2a: Tauros|149/353\n|move|p2a: Tauros|Strength|p1a: Tauros\n|-damage|p1a: Tauros|263/353\n|turn|2\n|room|refused|2|1\n|room|refused|4\n",
    }
}

/// The damage of Body Slam between two Tauros.
fn calc() -> Printing<'static> {
    Printing {
        command: Command::Calc,
        input: "{\"attacker\":{\"species\":\"Tauros\",\"level\":100,\"dvs\":[15,15,15,15],\"exp\":[65535,65535,65535,65535,65535],\"moves\":[[\"Strength\",3]]},\"defender\":{\"species\":\"Tauros\",\"level\":100,\"dvs\":[15,15,15,15],\"exp\":[65535,65535,65535,65535,65535],\"moves\":[[\"Strength\",3]]},\"move\":\"Body Slam\",\"critical\":false}",
        text: "95 95 96 96 97 97 97 98 98 99 99 100 100 101 101 101 102 102 103 103 104 104 104 105 105 106 106 107 107 108 108 108 109 109 110 110 111 111 112\n",
    }
}

// A run needs three writes. A room needs eight: one for the start, and one for each submission, or two if it completes
// a pair. The line of a calculation is sent in one write (docs/PROGRAM.md, "Faults and statuses", "room", "calc").
#[test]
fn each_write_that_fails_is_told(rt: HostRuntime) {
    for takes_nothing in [false, true] {
        run().assert_writes_are_told(&rt, takes_nothing, 1, 353);
        run().assert_writes_are_told(&rt, takes_nothing, 1000, 3);
        room().assert_writes_are_told(&rt, takes_nothing, 1000, 8);
    }
    room().assert_writes_are_told(&rt, false, 1, room().text.len());
    calc().assert_writes_are_told(&rt, false, 1000, 1);
}

#[test]
fn each_read_that_fails_is_told(rt: HostRuntime) {
    run().assert_reads_are_told(&rt);
    room().assert_reads_are_told(&rt);
}

/// A subcommand that reads an object.
#[derive(Clone, Copy)]
enum Command {
    Run,
    Room,
    Calc,
}

fn answer<R: Source, W: Sink>(
    rt: &impl AllocGlobal,
    command: Command,
    input: &mut R,
    out: &mut W,
) -> Result<(), ToolFault> {
    match command {
        Command::Run => play(rt, input, out),
        Command::Room => play_room(rt, input, out),
        Command::Calc => play_calc(rt, input, out),
    }
}

/// A subcommand with an input, and the text that it prints.
#[derive(Clone, Copy)]
struct Printing<'a> {
    command: Command,
    input: &'a str,
    text: &'a str,
}

impl Printing<'_> {
    /// Asserts that each failed write is reported. A write takes at most `most` bytes, and the text needs `writes` of
    /// them.
    fn assert_writes_are_told(
        &self,
        rt: &(impl AllocGlobal + Abort),
        takes_nothing: bool,
        most: usize,
        writes: usize,
    ) {
        for left in 0..=writes {
            let mut bytes = Vec::new(rt.alloc());
            let mut out = Device::new(Failing {
                left,
                takes_nothing,
                most,
                bytes: &mut bytes,
            });
            let mut input = Device::new(self.input.as_bytes());
            let result = answer(rt, self.command, &mut input, &mut out);
            assert_same(rt, out.failed(), left < writes);
            assert_same(rt, result, told(left < writes, ToolFault::Write));
            self.assert_is_front(rt, &bytes, left == writes);
            assert_same(rt, bytes.is_empty(), left == 0);
            if most == 1 {
                assert_same(rt, bytes.len(), left);
            }
        }
    }

    fn assert_is_front(&self, rt: &impl Abort, bytes: &[u8], whole: bool) {
        assert!(rt; self.text.as_bytes().starts_with(bytes));
        assert_eq!(rt; bytes.len() == self.text.len(), whole);
    }

    /// Asserts that each failed read is reported, and that nothing is printed then.
    fn assert_reads_are_told(&self, rt: &(impl AllocGlobal + Abort)) {
        for most in [1usize, 7, 5000] {
            let reads = self.input.len().div_ceil(most) + 1;
            for left in 0..=reads {
                let mut input = Device::new(Broken {
                    left,
                    most,
                    bytes: self.input.as_bytes(),
                });
                let mut out = Device::new(Vec::new(rt.alloc()));
                let result = answer(rt, self.command, &mut input, &mut out);
                assert_same(rt, result, told(left < reads, ToolFault::Read));
                let text = if left < reads { "" } else { self.text };
                assert_same(rt, out.get_ref().as_slice() == text.as_bytes(), true);
            }
        }
    }
}

fn told(has_failed: bool, fault: ToolFault) -> Result<(), ToolFault> {
    if has_failed { Err(fault) } else { Ok(()) }
}

/// Asserts that these are the same. A test calls it, since an assertion in its own body costs the proof of the test seconds.
pub(crate) fn assert_same<T: PartialEq + Debug + Drop>(rt: &impl Abort, found: T, expected: T) {
    assert_eq!(rt; found, expected);
}
