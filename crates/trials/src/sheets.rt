// Code sheets, read and refused.
use crate::refusals;
use operator::stopped::Stopped;
use sheet::operation::Operation;
use sheet::refusal::Layer;
use sheet::table::Table;
use std::alloc::{AllocError, Global};
use std::iter::once;
use std::process::Abort;
use std::test::Fail;

// The sheet is refused with a number and a place.
fn refused(
    rt: &impl Abort,
    sheet: &[u16],
    number: u16,
    place: u32,
    note: &str,
) -> Result<(), Fail> {
    let answer = Stopped::new().load(sheet);
    refusals::refused(rt, answer, Layer::Sheet, number, place, note)
}

// A sheet with a count of its own, the keys from 0 on, and operation 1 at each.
fn counted(heap: Global, count: u16, entries: u16) -> Result<Vec<u16>, AllocError> {
    once(count)
        .chain(0..entries)
        .chain((0..entries).map(|_| 1))
        .collect(heap)
}

#[test]
fn shapes(rt: HostRuntime) -> Result<(), Fail> {
    refused(&rt, &[], 1, 0, "no count")?;
    refused(&rt, &[0], 1, 0, "no entries")?;
    refused(&rt, &[1, 0x1b0], 1, 0, "one short")?;
    refused(&rt, &[1, 0x1b0, 27, 0], 1, 0, "one too long")?;
    refused(&rt, &counted(rt.alloc(), 1281, 1281)?, 1, 0, "too many")?;
    refused(
        &rt,
        &counted(rt.alloc(), 1279, 1280)?,
        1,
        0,
        "one uncounted",
    )?;
    refused(
        &rt,
        &counted(rt.alloc(), 0xffff, 1280)?,
        1,
        0,
        "too large a count",
    )?;
    assert_eq!(rt;
        Stopped::new().load(&counted(rt.alloc(), 1280, 1280)?),
        Ok(())
    );
    Ok(())
}

#[test]
fn entries(rt: HostRuntime) -> Result<(), Fail> {
    refused(&rt, &[2, 0x1b0, 0x1b0, 27, 27], 2, 1, "the same key")?;
    refused(&rt, &[2, 0x1b0, 0x1af, 27, 27], 2, 1, "a falling key")?;
    refused(&rt, &[1, 1280, 1], 2, 0, "a key above 1,279")?;
    refused(&rt, &[3, 0, 1, 0xffff, 1, 1, 1], 2, 2, "the last key")?;
    refused(&rt, &[1, 0x1b0, 0], 3, 0, "no operation")?;
    refused(&rt, &[1, 0x1b0, 9], 3, 0, "no operation")?;
    refused(&rt, &[1, 0x1b0, 36], 3, 0, "no operation")?;
    refused(
        &rt,
        &[2, 0x0b0, 0x1b0, 27, 27],
        3,
        0,
        "AHI and LHI stand in RR only",
    )?;
    refused(
        &rt,
        &[2, 0x1b0, 0x3b0, 27, 27],
        3,
        1,
        "LHI stands in RR only",
    )?;
    refused(
        &rt,
        &[2, 0x1b0, 0x100, 36, 27],
        3,
        0,
        "entry 0 before entry 1",
    )?;
    refused(&rt, &[1, 1280, 36], 2, 0, "the key before the operation")
}

#[test]
fn tables(rt: HostRuntime) -> Result<(), Fail> {
    let Ok(table) = Table::from_sheet(&[3, 0, 0x1b0, 0x4ff, 1, 27, 34]) else {
        return Err(Fail::new("the sheet was refused"));
    };
    for (key, number) in [(0u16, 1u16), (0x1b0, 27), (0x4ff, 34)] {
        assert_eq!(rt; table.at(key).map(u16::from), Some(number));
    }
    for key in [1u16, 0x1af, 0x1b1, 0x4fe, 0x500, 0xffff] {
        assert!(rt; table.at(key).is_none());
    }
    Ok(())
}

// For the numbers 0 to 40, the classes 0 to 4 that admit the operation, as five digits; 0 where there is none.
const ADMITTED: [u32; 41] = [
    0, 11111, 10011, 11111, 10011, 11111, 10011, 11111, 10011, 0, 11111, 11111, 11111, 10011,
    10011, 10011, 11, 1111, 1111, 1111, 1111, 0, 0, 10000, 10000, 10000, 1100, 1100, 0, 0, 0, 11,
    11, 0, 11, 1100, 0, 0, 0, 0, 0,
];

#[test]
fn operations(rt: HostRuntime) {
    for (number, expected) in (0u16..100).zip(ADMITTED) {
        let Ok(operation) = Operation::try_from(number) else {
            assert_eq!(rt; expected, 0);
            continue;
        };
        let classes = (0..6u16).fold(0u32, |classes, class| {
            classes
                .wrapping_mul(10)
                .wrapping_add(u32::from(operation.admits(class)))
        });
        assert_eq!(rt; classes, expected.wrapping_mul(10), "class 5 is none");
        assert_eq!(rt; u16::from(operation), number);
    }
}
