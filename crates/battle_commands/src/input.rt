//! The input of a subcommand, which may be opened by name, its battle, and what is done in it (docs/PROGRAM.md, "What is
//! tested, in this order").
ghost use Rattle.std.specs.Prelude.{IfErr, IfOk, IfSome, List, None, OnOk, Option, Some, false, is_err, length, vec_len, ℕ, ◌+◌, ◌||◌, ◌≡◌, ◌≤◌};
ghost use Rattle.gen1_devices.specs.Input.{TakesAtMost};
ghost use Rattle.battle_commands.specs.Asked.{IsInputFault, Opens, asked_of, is_read_fault, is_write_fault};
ghost use Rattle.battle_commands.specs.Faults.{disk_failed, disk_remaining};

use crate::fault::ToolFault;
use battle_input::{Item, Key, read_sheet};
use gen1_engine::Battle;
use gen1_machine::{Device, DeviceFault, InputFault, Source, read_whole};
use gen1_stats::Team;
use std::alloc::Global;
use std::fs;
use std::rt::Files;

/// The greatest length of an input, in bytes.
pub const INPUT_LIMIT: usize = 1_048_576;

/// Reads an input completely. Returns `Read` if the source failed, `TooLong` past the limit, `Memory` if memory ran out. At most
/// one byte past the limit is taken from the source.
pub fn read_input<R: Source>(alloc: Global, reader: &mut R) -> Result<Vec<u8>, ToolFault>
    ensures whole { IfOk result (λ v. IfSome (R.remaining reader.old) (λ input. v.items ≡ input)) }
    ensures fits { IfOk result (λ v. vec_len v ≤ INPUT_LIMIT) }
    ensures fault { IfErr result (λ fault. IsInputFault fault (R.remaining reader.old)) }
    ensures taken { TakesAtMost (R.remaining reader.old) (R.remaining reader.new) (INPUT_LIMIT + 1) }
    ensures read { R.has_failed reader.new ≡ (R.has_failed reader.old || is_read_fault result) }
{
    match read_whole(alloc, reader, INPUT_LIMIT) {
        Ok(input) => Ok(input),
        Err(InputFault::Device) => Err(ToolFault::Read),
        Err(InputFault::TooLong) => Err(ToolFault::TooLong),
        Err(InputFault::Memory) => Err(ToolFault::Memory),
    }
}

/// A battle as requested, and what is done in it: pairs of choices, or submissions to a room.
#[derive(Drop)]
pub struct Bout<T> {
    pub battle: Battle,
    pub items: Vec<T>,
}

/// Reads an input completely, and opens the battle that it asks for, with the list under a key.
///
/// The sheet is tested first, then side 1's team, then side 2's.
pub fn read_bout<T: Item + Drop, R: Source>(
    alloc: Global,
    reader: &mut R,
    key: Key,
) -> Result<Bout<T>, ToolFault>
    // If the source reports its bytes, they are the input.
    ensures opens { IfSome (R.remaining reader.old)
        (λ input. Opens result (asked_of key T.meaning input)) }

    // At most one byte beyond the limit is taken from the source.
    ensures taken { TakesAtMost (R.remaining reader.old) (R.remaining reader.new) (INPUT_LIMIT + 1) }

    // It returns a read error exactly if the source has failed in this call, and never a write error.
    ensures read { R.has_failed reader.new ≡ (R.has_failed reader.old || is_read_fault result) }
    ensures write { is_write_fault result ≡ false }
{
    let input = read_input(alloc, reader)?;
    open_bout(alloc, input.as_slice(), key)
}

/// Opens the battle of an input, with the list under a key.
#[tactic(auto, unfolding(crate::specs::Asked::asked_of))]
fn open_bout<T: Item + Drop>(alloc: Global, input: &[u8], key: Key) -> Result<Bout<T>, ToolFault>
    requires { length input.now ≤ INPUT_LIMIT }
    ensures opens { Opens result (asked_of key T.meaning input.now) }
    ensures read { is_read_fault result ≡ false }
    ensures write { is_write_fault result ≡ false }
{
    let sheet = read_sheet::<T>(alloc, input, key)?;
    let asked = sheet.battle;
    let items = sheet.items;
    let one = match Team::new(asked.one.as_slice()) {
        Ok(team) => team,
        Err(refusal) => return Err(ToolFault::of_team(1, refusal)),
    };
    let two = match Team::new(asked.two.as_slice()) {
        Ok(team) => team,
        Err(refusal) => return Err(ToolFault::of_team(2, refusal)),
    };
    let battle = Battle::with_limit(&one, &two, asked.seed, asked.rules, asked.limit);
    Ok(Bout { battle, items })
}

/// Opens inputs by name. As a source it is the input that was opened last.
pub trait Folder: Source {
    // The bytes of the input with a name, if the folder reports them.
    ghost named: { Self → List ℕ → Option (List ℕ) } = { λ _ _. None };

    /// Opens the input with a name, at its start.
    ///
    /// # Errors
    ///
    /// There is none with this name, or it may not be read. This counts as a read that has failed.
    fn open(&mut self, name: &str) -> Result<(), DeviceFault>
        ensures bytes { OnOk result (IfSome (named self.old name.now)
            (λ bytes. Self.remaining self.new ≡ Some bytes)) }
        ensures fails { Self.has_failed self.new ≡ (Self.has_failed self.old || is_err result) };
}

/// The file system of a runtime. It delivers the bytes that an opened file reports. No contract says what a named file contains.
#[derive(Drop)]
pub struct Disk<'a, R, F> {
    files: &'a R,
    opened: Option<Device<F>>,
    has_failed: bool,
}

impl<'a, R: Files> Disk<'a, R, R::File> {
    /// Makes the file system of this runtime, in which nothing is opened yet. A read fails then.
    pub fn new(files: &'a R) -> Self
        ensures { disk_failed result ≡ false }
    {
        Disk {
            files,
            opened: None,
            has_failed: false,
        }
    }
}

impl<R: Files> Source for Disk<'_, R, R::File> {
    ghost remaining = { disk_remaining R.File.remaining };

    ghost has_failed = { disk_failed };

    fn read(&mut self, bytes: &mut [u8]) -> Result<usize, DeviceFault> {
        let result = match &mut self.opened {
            Some(input) => input.read(bytes),
            None => Err(DeviceFault),
        };
        if result.is_err() {
            self.has_failed = true;
        }
        result
    }

    fn failed(&self) -> bool {
        self.has_failed
    }
}

impl<R: Files> Folder for Disk<'_, R, R::File> {
    fn open(&mut self, name: &str) -> Result<(), DeviceFault> {
        match fs::open(self.files, name) {
            Ok(file) => {
                self.opened = Some(Device::new(file));
                Ok(())
            }
            Err(_) => {
                self.has_failed = true;
                Err(DeviceFault)
            }
        }
    }
}
