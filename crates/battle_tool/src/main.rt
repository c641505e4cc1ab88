//! The program: passes its words and its streams to the command line (docs/PROGRAM.md, "The program battle_tool").
#![tactic(auto)]

use battle_commands::{COMMAND_LINE_REFUSED, Disk, ToolFault, report, tool};
use gen1_machine::{Device, send};
use std::alloc::AllocError;
use std::process::ExitCode;
use std::{env, io};

/// What is written if a word of the command line is not UTF-8.
const NO_TEXT: &str = "error: a word is no UTF-8\n";

fn main(rt: HostRuntime) -> ExitCode {
    let mut err = Device::new(rt.stderr());
    let words = match env::args(&rt) {
        Ok(words) => words.collect::<Vec<String>>(rt.alloc()),
        Err(error) if error.kind() == io::ErrorKind::OutOfMemory => Err(AllocError),
        Err(_) => {
            let _ = send(&mut err, NO_TEXT.as_bytes());
            return ExitCode::from(COMMAND_LINE_REFUSED);
        }
    };
    let status = match words {
        Ok(words) => {
            let mut input = Device::new(rt.stdin());
            let mut out = Device::new(rt.stdout());
            let mut folder = Disk::new(&rt);
            tool(
                &rt,
                &mut folder,
                words.as_slice(),
                &mut input,
                &mut out,
                &mut err,
            )
        }
        Err(_) => report(&ToolFault::Memory, false, &mut err),
    };
    ExitCode::from(status)
}
