//! A table from bytes that were stored (docs/MECHANICS.md, "Hosts").
ghost use Rattle.std.specs.Prelude.{IfErr, IsOk, IsTrue, OnErr, OnOk, false, if◌then◌else◌, length, true, ℕ, ◌↔◌, ◌≡◌, ◌≤◌};
ghost use Rattle.std.specs.List.{All};
ghost use Rattle.gen1_machine.specs.State.{State};
ghost use Rattle.gen1_machine.specs.declared.side.Side.TheVariants.{Two};
ghost use Rattle.gen1_layout.specs.Shows.{Stands};
ghost use Rattle.gen1_player.specs.Telling.{IsTeller};
ghost use Rattle.gen1_room.specs.Rooms.{Counts, is_replaced, on_bench, pairs_left};
ghost use Rattle.gen1_host.specs.Loading.{FailsTest, IsHost, IsLawful, IsLog, IsStated, IsStored, IsTested, Waits, in_version_three};

use crate::host::{Host, NONE, is_pass, log_of};
use gen1_engine::packed::{count_of, result as battle_result};
use gen1_layout::{LoadFault, Packed};
use gen1_machine::{Choice, Request, Side};
use gen1_offers::{Bench, offered};
use gen1_player::{HpForm, Teller};
use gen1_room::choice_by_byte;
use gen1_room::plain::PlainRoom;

/// Why bytes are not those of a host: the first of these tests that they fail.
#[derive(Clone, Copy, Debug, PartialEq, Eq)]
pub enum HostFault {
    /// The battle, and the first of its tests that it fails.
    Battle(LoadFault),
    /// The number of the current pair. It leaves no place for the pairs that may still come.
    Number,
    /// The log. It has more than 512 bytes, or they are not a log.
    Log,
    /// A side's choice. It is not offered, or it is missing though nothing is asked of the side.
    Choice(Side),
    /// Both choices. They are there, and the battle is not over.
    Choices,
    /// A side's teller. It is another side's, its places are not those of different members, or the tellers tell HP in two forms.
    Teller(Side),
    /// The ending. It is above 3.
    Ending,
    /// The side that offers a draw. It is above 2.
    Draw,
    /// The house rules. One is above 1.
    Rules,
    /// A byte that is always 0. Among them is the forfeit of the room, since a host has its own.
    Unused,
}

/// Reads a host from the bytes in it, which may be any. A battle of an older layout version becomes one of version 3, and nothing else
/// changes.
///
/// # Errors
///
/// The first test that the bytes fail. Then nothing has changed.
pub fn load(host: &mut Host) -> Result<(), HostFault>
    // Exactly the bytes of hosts are accepted.
    ensures stored { IsOk result ↔ IsStored host.old }
    ensures loaded { OnOk result (host.new ≡ in_version_three host.old) }
    ensures same { IsHost host.old → IsOk result × (host.new ≡ host.old) }
    ensures fault { IfErr result (λ fault. FailsTest fault host.old) }
    ensures refused { OnErr result (host.new ≡ host.old) }
{
    let battle = match Packed::read(host.room.battle.as_bytes()) {
        Ok(battle) => battle,
        Err(fault) => return Err(HostFault::Battle(fault)),
    };
    match test(&battle, host) {
        Ok(()) => {
            host.room.battle = battle;
            Ok(())
        }
        Err(fault) => Err(fault),
    }
}

// All tests but that of the battle, in order.
fn test(battle: &Packed, host: &Host) -> Result<(), HostFault>
    ensures { (s : State) → Stands battle.now s → IsTested host.now s result }
{
    let room = &host.room;
    if !leaves_place(battle, room.number) {
        return Err(HostFault::Number);
    }
    if !is_log(room) {
        return Err(HostFault::Log);
    }
    if !is_lawful(battle, Side::One, room.one) {
        return Err(HostFault::Choice(Side::One));
    }
    if !is_lawful(battle, Side::Two, room.two) {
        return Err(HostFault::Choice(Side::Two));
    }
    if !waits(battle, room) {
        return Err(HostFault::Choices);
    }
    if !host.one.is_of(Side::One) {
        return Err(HostFault::Teller(Side::One));
    }
    if !is_second(host) {
        return Err(HostFault::Teller(Side::Two));
    }
    if host.ending > 3 {
        return Err(HostFault::Ending);
    }
    if host.draw > 2 {
        return Err(HostFault::Draw);
    }
    if host.may_cancel > 1 || host.late_forfeits > 1 {
        return Err(HostFault::Rules);
    }
    if is_unused(room) {
        Ok(())
    } else {
        Err(HostFault::Unused)
    }
}

// Whether the number leaves place for the pairs that may still come.
fn leaves_place(battle: &Packed, number: u32) -> bool
    ensures passes { (s : State) → Stands battle.now s → result ≡ true → Counts number s }
    ensures fails { (s : State) → Stands battle.now s → result ≡ false → Counts number s → ⊥ }
{
    u64::from(number) + u64::from(pairs_left(battle)) <= u64::from(battle.limit()) + 11
}

fn pairs_left(battle: &Packed) -> u32
    ensures value { (s : State) → Stands battle.now s → result ≡ pairs_left s }
    ensures few { result ≤ 70000 }
{
    let now = battle_result(battle);
    if now.outcome.is_over() {
        return 0;
    }
    let turns = u32::from(battle.limit().saturating_sub(battle.turn()));
    in_this_turn(now.request_one, now.request_two)
        + turns
        + (u32::from(on_bench(battle, Side::One)) + u32::from(on_bench(battle, Side::Two)))
}

// The pair of the current turn, unless it has ended.
fn in_this_turn(one: Request, two: Request) -> u32
    ensures value { result ≡ (if is_replaced one two then 0 else 1) }
    ensures few { result ≤ 1 }
{
    if is_replaced(one, two) { 0 } else { 1 }
}

// Whether a side is asked to replace a member.
fn is_replaced(one: Request, two: Request) -> bool
    ensures { result ≡ is_replaced one two }
{
    match one {
        Request::Switch => true,
        _ => matches!(two, Request::Switch),
    }
}

// How many members of a side live and are not out.
fn on_bench(battle: &Packed, side: Side) -> u8
    ensures { (s : State) → Stands battle.now s → result ≡ length (on_bench side s.field) }
{
    let bench = Bench::new(battle, side);
    count_of((64 * bench.digits) as u16)
}

// Whether the bytes of the last pair are a log.
fn is_log(room: &PlainRoom) -> bool
    ensures passes { result ≡ true → IsLog room.now }
    ensures fails { result ≡ false → IsLog room.now → ⊥ }
{
    if room.log_length > 512 {
        return false;
    }
    // Any teller reads it.
    let mut teller = Teller::new(Side::One, HpForm::Exact);
    match teller.tell_log(log_of(room)) {
        Ok(_) => true,
        Err(_) => false,
    }
}

// Whether a byte is a choice that the side may have made, or marks it as missing.
fn is_lawful(battle: &Packed, side: Side, byte: u8) -> bool
    ensures passes { (s : State) → Stands battle.now s → result ≡ true → IsLawful side byte s }
    ensures fails { (s : State) → Stands battle.now s → result ≡ false → IsLawful side byte s → ⊥ }
{
    if is_pass(battle.request(side)) {
        return byte == 0;
    }
    if byte == NONE {
        return true;
    }
    is_stated(byte, offered(battle, side).as_slice())
}

fn is_stated(byte: u8, choices: &[Choice]) -> bool
    ensures passes { result ≡ true → IsStated byte choices.now }
    ensures fails { result ≡ false → IsStated byte choices.now → ⊥ }
{
    let Some(choice) = Choice::from_byte(byte) else {
        return false;
    };
    match choice_by_byte(byte, choices) {
        Some(it) => it == choice,
        None => false,
    }
}

fn waits(battle: &Packed, room: &PlainRoom) -> bool
    ensures passes { (s : State) → Stands battle.now s → result ≡ true → Waits room.now s }
    ensures fails { (s : State) → Stands battle.now s → result ≡ false → Waits room.now s → ⊥ }
{
    if battle_result(battle).outcome.is_over() {
        return true;
    }
    Choice::from_byte(room.one).is_none() || Choice::from_byte(room.two).is_none()
}

// Whether the second teller is side 2's, and tells HP in the form of the first.
fn is_second(host: &Host) -> bool
    ensures passes { result ≡ true → IsTeller Two host.now.two × (host.now.one.pixels ≡ host.now.two.pixels) }
    ensures fails { result ≡ false → IsTeller Two host.now.two × (host.now.one.pixels ≡ host.now.two.pixels) → ⊥ }
{
    if host.one.pixels != host.two.pixels {
        return false;
    }
    host.two.is_of(Side::Two)
}

fn is_unused(room: &PlainRoom) -> bool
    ensures passes { result ≡ true → (room.now.forfeit ≡ 0) × All (λ (byte : ℕ). byte ≡ 0) room.now.unused }
    ensures fails { result ≡ false → (room.now.forfeit ≡ 0) × All (λ (byte : ℕ). byte ≡ 0) room.now.unused → ⊥ }
{
    if room.forfeit != 0 {
        return false;
    }
    are_zero(&room.unused)
}

fn are_zero(bytes: &[u8]) -> bool
    ensures { IsTrue result ↔ All (λ (byte : ℕ). byte ≡ 0) bytes.now }
{
    bytes.iter().all(|byte| *byte == 0)
}
