// The operator's calls on storage.
use crate::refusals;
use operator::stopped::Stopped;
use sheet::refusal::{Layer, Refusal};
use std::process::Abort;
use std::test::Fail;
use storage::Storage;
use storage::cells::CellStorage;
use storage::packed::PackedStorage;

// The call is refused by storage, with a number and a place.
fn refused<T: Drop>(
    rt: &impl Abort,
    answer: Result<T, Refusal>,
    number: u16,
    place: u32,
    note: &str,
) -> Result<(), Fail> {
    refusals::refused(rt, answer, Layer::Storage, number, place, note)
}

#[test]
fn sizes(rt: HostRuntime) -> Result<(), Fail> {
    let p = Stopped::new();
    let mut s = CellStorage::zeroed(rt.alloc(), 255)?;
    refused(&rt, p.deposit(&mut s, 0, 1), 8, 0, "too small")?;
    refused(
        &rt,
        p.protect(&mut s, 300, true),
        8,
        0,
        "the size before the address",
    )?;
    refused(&rt, p.examine(&s, 0), 8, 0, "too small")?;
    assert_eq!(rt; s.read(0), Some((0, true)));
    let mut s = PackedStorage::zeroed(rt.alloc(), 256)?;
    assert_eq!(rt; p.deposit(&mut s, 255, 0xb0e2), Ok(()));
    assert_eq!(rt; p.protect(&mut s, 255, true), Ok(()));
    assert_eq!(rt; p.examine(&s, 255), Ok(0xb0e2));
    assert_eq!(rt; s.protected(255), Some(true));
    assert_eq!(rt; s.protected(254), Some(false));
    refused(&rt, p.deposit(&mut s, 256, 1), 4, 256, "outside")?;
    refused(&rt, p.protect(&mut s, 256, true), 4, 256, "outside")?;
    refused(&rt, p.examine(&s, 0xffff_ffff), 4, 0xffff_ffff, "outside")
}

// An unsound cell, protected and with its upper bits one, is made sound by a deposit, and keeps all of them.
#[test]
fn damaged(rt: HostRuntime) -> Result<(), Fail> {
    let p = Stopped::new();
    let mut cells = vec![in rt.alloc(); 0x1_0000u32; 256]?;
    assert!(rt; cells.len() == 256);
    cells[200] = 0xfffe_0003;
    let mut s = CellStorage::new(cells);
    refused(&rt, p.examine(&s, 200), 5, 200, "unsound")?;
    assert_eq!(rt; p.protect(&mut s, 200, true), Ok(()));
    refused(&rt, p.examine(&s, 200), 5, 200, "protect keeps the mark")?;
    assert_eq!(rt; p.deposit(&mut s, 200, 3), Ok(()));
    assert_eq!(rt; p.examine(&s, 200), Ok(3));
    let cells = s.into_cells();
    assert_eq!(rt; cells.get(200).copied(), Some(0xffff_0003));
    assert_eq!(rt; cells.get(199).copied(), Some(0x1_0000));
    assert_eq!(rt; cells.get(201).copied(), Some(0x1_0000));
    Ok(())
}
