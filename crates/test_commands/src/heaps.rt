//! What is read and printed where memory is refused (docs/PROGRAM.md, "Faults and statuses").
use crate::devices::{TWO_TURNS, assert_same};
use battle_commands::text_of;
use gen1_machine::{Device, Event, EventList, InputFault, read_whole};
use gen1_printer::{PrintFault, print_log};
use linked_list_allocator::LocalHeap;
use std::test::Fail;

// The log of the battle that is stored in crates/battle_tool.
static LOG: [u8; 82] = [
    0x02, 1, 128, 1, 100, 97, 1, 97, 1, 0, 0x02, 2, 128, 1, 100, 97, 1, 97, 1, 0, 0x01, 1, 0, 0x03,
    1, 128, 70, 2, 128, 0x07, 2, 128, 0x05, 2, 128, 149, 0, 97, 1, 0, 0, 0x03, 2, 128, 70, 1, 128,
    0x05, 1, 128, 7, 1, 97, 1, 0, 0, 0x01, 2, 0, 0x03, 1, 128, 70, 2, 128, 0x07, 2, 128, 0x05, 2,
    128, 0, 0, 97, 1, 0, 0, 0x19, 2, 128, 0x1A, 1,
];

#[test]
fn each_growth_of_an_input_that_is_refused_is_told(rt: HostRuntime) -> Result<(), Fail> {
    let input = vec![in rt.alloc(); 7u8; 20000]?;
    let mut refused = 0u32;
    for step in 0..40usize {
        let heap = LocalHeap::new(rt.alloc(), 2048 * step)?;
        match read_whole(&heap, &mut Device::new(input.as_slice()), 1 << 20) {
            Ok(bytes) => assert_same(&rt, bytes.as_slice(), input.as_slice()),
            Err(fault) => {
                assert_same(&rt, fault, InputFault::Memory);
                refused = refused.saturating_add(1);
            }
        }
    }
    assert_same(&rt, (5 < refused, refused < 40), (true, true));
    Ok(())
}

#[test]
fn an_input_that_is_too_long_asks_for_no_memory_past_its_limit(
    rt: HostRuntime,
) -> Result<(), Fail> {
    let heap = LocalHeap::new(rt.alloc(), 0)?;
    let input = [7u8; 20];
    for (limit, expected) in [
        (10usize, InputFault::TooLong),
        (19, InputFault::TooLong),
        (20, InputFault::Memory),
    ] {
        match read_whole(&heap, &mut Device::new(input.as_slice()), limit) {
            Ok(bytes) => assert_same(&rt, bytes.len(), 21),
            Err(fault) => assert_same(&rt, fault, expected),
        }
    }
    Ok(())
}

#[test]
fn each_growth_of_a_text_that_is_refused_is_told(rt: HostRuntime) -> Result<(), Fail> {
    let mut refused = 0u32;
    for step in 0..60usize {
        let heap = LocalHeap::new(rt.alloc(), 32 * step)?;
        match print_log(&heap, &LOG) {
            Ok(text) => assert_same(&rt, text.as_str(), TWO_TURNS),
            Err(fault) => {
                assert_same(&rt, fault, PrintFault::Memory);
                refused = refused.saturating_add(1);
            }
        }
    }
    assert_same(&rt, (5 < refused, refused < 60), (true, true));
    Ok(())
}

#[test]
fn each_heap_that_is_too_small_is_told(rt: HostRuntime) -> Result<(), Fail> {
    let mut events = EventList::new();
    for _ in 0..64usize {
        if !events.is_full() {
            events.push(Event::ClearAll);
        }
    }
    let whole = text_of(rt.alloc(), events.as_slice())?;
    assert_same(&rt, whole.len(), 16 * 64);
    let mut refused = 0u32;
    for step in 0..40usize {
        let heap = LocalHeap::new(rt.alloc(), 128 * step)?;
        match text_of(&heap, events.as_slice()) {
            Ok(text) => assert_same(&rt, text.as_slice(), whole.as_slice()),
            Err(_) => refused = refused.saturating_add(1),
        }
    }
    assert_same(&rt, (5 < refused, refused < 40), (true, true));
    Ok(())
}
