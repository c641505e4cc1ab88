//! Hosts, who tell two players and an audience what they may know (include/gen1.h, "hosts"; docs/MECHANICS.md, "Hosts").
ghost use Rattle.std.specs.Prelude.{None, Some, drop, option_map, replicate, ◌↔◌, ◌≡◌, ◌≢◌, ◌≤◌};
ghost use Rattle.gen1_machine.specs.Numbers.{side_number};
ghost use Rattle.gen1_machine.specs.State.{State};
ghost use Rattle.gen1_machine.specs.declared.side.Side.{Side};
ghost use Rattle.gen1_layout.specs.Shows.{Stands};
ghost use Rattle.gen1_host.specs.Hosts.{Hosts, IsNotice, IsSent, IsWithin, awaited_mask, first_table, result_at, row_at};
ghost use Rattle.gen1_host.specs.Loading.{IsHost, IsStored, in_version_three};
ghost use Rattle.gen1_host.specs.Messages.{message as message_at, notice as notice_at, why_of};
ghost use Rattle.gen1_host.specs.Table.{Row as TableRow, Table, after_row, current_pair, reply_to_row};
ghost use Rattle.gen1_player.specs.Telling.{form_of};
ghost use Rattle.gen1_c.specs.Hosts.{Refuses, byte_of_result, fault_code, numbers_of, reply_code, row_of, rules_of, why_code};
ghost use Rattle.gen1_c.specs.Battle.{IsNoSide, IsResult};

use crate::codes::{SIDE, of_load};
use gen1_host::{Host, HostFault, HostRefusal, HouseRules, Message, Notice, Row};
use gen1_layout::{byte_of_outcome, byte_of_request};
use gen1_machine::Side;
use gen1_player::HpForm;
use gen1_rolls::LinkRandom;

// The codes of the refusals.
const OVER: u8 = 24;

const STALE: u8 = 52;

const CHOSEN: u8 = 53;

const NOT_OFFERED: u8 = 54;

const NOT_ALLOWED: u8 = 55;

const NOTHING_CHOSEN: u8 = 56;

const KIND: u8 = 57;

/// A row as gen1_row has it.
#[repr(C)]
pub struct RowForm {
    /// 1 submit, 2 cancel, 3 expire, 4 offer of a draw, 5 forfeit.
    pub kind: u8,
    /// 1 or 2.
    pub side: u8,
    /// The byte of the choice.
    pub choice: u8,
    /// Whether the battle draws `numbers` from then on.
    pub has_numbers: u8,
    /// The number of the pair.
    pub number: u32,
    /// The ten numbers.
    pub numbers: [u8; 10],
    /// Not read.
    pub unused: [u8; 2],
}

/// Makes a host of the battle in it, and starts the battle if it is before its first update.
#[unsafe(no_mangle)]
pub extern "C" fn gen1_host_begin(host: &mut Host, hp_form: u8, may_cancel: u8, late_forfeits: u8)
    ensures hosts { (s : State) → Stands host.old.room.battle s
        → Hosts host.new (first_table (form_of hp_form) (rules_of may_cancel late_forfeits) s) }
    // For any bytes of the battle, valid or not.
    ensures within { IsWithin host.new }
{
    let rules = HouseRules {
        may_cancel: may_cancel != 0,
        late_forfeits: late_forfeits != 0,
    };
    gen1_host::begin(host, HpForm::of_number(hp_form), rules);
}

/// Reads a host from the bytes in it, which may be any (include/gen1.h, "hosts"). Returns 0, or the code of the first test that they
/// fail; then nothing has changed.
#[unsafe(no_mangle)]
pub extern "C" fn gen1_host_load(host: &mut Host) -> u8
    // Exactly the bytes of hosts are accepted.
    ensures stored { result ≡ 0 ↔ IsStored host.old }
    ensures loaded { result ≡ 0 → host.new ≡ in_version_three host.old }
    ensures same { IsHost host.old → (result ≡ 0) × (host.new ≡ host.old) }
    ensures fault { result ≢ 0 → Refuses result host.old }
    ensures kept { result ≢ 0 → host.new ≡ host.old }
{
    match gen1_host::load(host) {
        Ok(()) => 0,
        Err(fault) => code_of_fault(fault),
    }
}

fn code_of_fault(fault: HostFault) -> u8
    ensures value { result ≡ fault_code fault }
    ensures some { 1 ≤ result }
{
    match fault {
        HostFault::Battle(why) => of_load(why),
        HostFault::Number => 80,
        HostFault::Log => 81,
        HostFault::Choice(Side::One) => 82,
        HostFault::Choice(Side::Two) => 83,
        HostFault::Choices => 84,
        HostFault::Teller(Side::One) => 85,
        HostFault::Teller(Side::Two) => 86,
        HostFault::Ending => 87,
        HostFault::Draw => 88,
        HostFault::Rules => 89,
        HostFault::Unused => 90,
    }
}

/// Applies a row. Returns 0 if the host takes it, else the code of the refusal.
#[unsafe(no_mangle)]
pub extern "C" fn gen1_host_apply(host: &mut Host, row: &RowForm) -> u8
    ensures takes { (t : Table) (which : Side) (it : TableRow) → Hosts host.old t → row.now.side ≡ side_number which
        → row_of which row.now ≡ Some it
        → Hosts host.new (after_row it t) × (result ≡ reply_code (reply_to_row it t)) }
    ensures no_side { IsNoSide row.now.side → result ≡ 40 }
    ensures no_kind { (which : Side) → row.now.side ≡ side_number which → row_of which row.now ≡ None → result ≡ 57 }
    // For any bytes, valid or not.
    ensures within { IsWithin host.old → IsWithin host.new }
    ensures kept { result ≢ 0 → host.new ≡ host.old }
    ensures code { result ≢ 0 → result ≢ 24 → result ≢ 40 → (52 ≤ result) × (result ≤ 57) }
{
    let Some(side) = Side::from_number(row.side) else {
        return SIDE;
    };
    let Some(row) = row_of(row, side) else {
        return KIND;
    };
    match gen1_host::apply(host, &row) {
        Ok(_) => 0,
        Err(why) => code_of(why),
    }
}

fn row_of(row: &RowForm, side: Side) -> Option<Row>
    ensures { option_map row_at result ≡ row_of side row.now }
{
    let number = row.number;
    match row.kind {
        1 => Some(Row::Submit {
            side,
            number,
            byte: row.choice,
            numbers: numbers_of(row),
        }),
        2 => Some(Row::Cancel { side, number }),
        3 => Some(Row::Expire {
            side,
            number,
            numbers: numbers_of(row),
        }),
        4 => Some(Row::OfferDraw(side)),
        5 => Some(Row::Forfeit(side)),
        _ => None,
    }
}

fn numbers_of(row: &RowForm) -> Option<LinkRandom>
    ensures { result ≡ numbers_of row.now }
{
    if row.has_numbers == 0 {
        return None;
    }
    Some(LinkRandom::new(row.numbers))
}

fn code_of(why: HostRefusal) -> u8
    ensures value { result ≡ why_code (why_of why) }
    ensures some { 1 ≤ result }
    ensures listed { result ≢ 24 → (52 ≤ result) × (result ≤ 56) }
{
    match why {
        HostRefusal::Over => OVER,
        HostRefusal::Stale(_) => STALE,
        HostRefusal::AlreadyChosen => CHOSEN,
        HostRefusal::NotOffered => NOT_OFFERED,
        HostRefusal::NotAllowed => NOT_ALLOWED,
        HostRefusal::NothingChosen => NOTHING_CHOSEN,
    }
}

/// Writes what a side is to be sent after the last pair that has ended, and at the beginning. Returns 0, or 40 if `side` is neither
/// 1 nor 2; then nothing has changed.
#[unsafe(no_mangle)]
pub extern "C" fn gen1_host_message(host: &Host, side: u8, message: &mut Message) -> u8
    ensures sent { (t : Table) (which : Side) → Hosts host.now t → side ≡ side_number which
        → (result ≡ 0) × IsSent message.new (message_at which t) }
    ensures no_side { IsNoSide side → result ≡ 40 }
    // For any bytes of the host, valid or not.
    ensures code { result ≢ 0 → result ≡ 40 }
    ensures kept { result ≢ 0 → message.new ≡ message.old }
    ensures short { result ≡ 0 → message.new.log_length ≤ 512 }
    ensures cleared { result ≡ 0
        → drop message.new.log_length message.new.log ≡ drop message.new.log_length (replicate 512 0) }
    ensures unused { result ≡ 0 → message.new.unused ≡ replicate 3 0 }
{
    let Some(side) = Side::from_number(side) else {
        return SIDE;
    };
    *message = gen1_host::message_to(host, side);
    0
}

/// Writes what the audience is to be sent after the last pair that has ended, and at the beginning.
#[unsafe(no_mangle)]
pub extern "C" fn gen1_host_notice(host: &Host, notice: &mut Notice)
    ensures sent { (t : Table) → Hosts host.now t → IsNotice notice.new (notice_at t) }
    // For any bytes of the host, valid or not.
    ensures short { notice.new.log_length ≤ 512 }
    ensures cleared { drop notice.new.log_length notice.new.log ≡ drop notice.new.log_length (replicate 512 0) }
{
    *notice = gen1_host::notice_to_all(host);
}

/// Returns the number of the current pair. At a host that has ended early it is past the last one.
#[unsafe(no_mangle)]
pub extern "C" fn gen1_host_number(host: &Host) -> u32
    ensures { (t : Table) → Hosts host.now t → result ≡ current_pair t }
{
    gen1_host::number(host)
}

/// Returns the sides whose choices are missing: 1 for side 1, plus 2 for side 2.
#[unsafe(no_mangle)]
pub extern "C" fn gen1_host_awaited(host: &Host) -> u8
    ensures mask { (t : Table) → Hosts host.now t → result ≡ awaited_mask t }
    // For any bytes of the host, valid or not.
    ensures small { result ≤ 3 }
{
    gen1_host::awaited(host)
}

/// Returns the result of a host: that of its battle, or of its early end.
#[unsafe(no_mangle)]
pub extern "C" fn gen1_host_result(host: &Host) -> u8
    ensures shows { (t : Table) → Hosts host.now t → result ≡ byte_of_result (result_at t) }
    // For any bytes of the host, valid or not.
    ensures listed { IsResult result }
{
    let now = gen1_host::result(host);
    let one = byte_of_request(now.request_one);
    let two = byte_of_request(now.request_two);
    byte_of_outcome(now.outcome) + 8 * one + 32 * two
}
