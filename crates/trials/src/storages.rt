// Cell and packed storage.
use std::test::Fail;
use storage::Storage;
use storage::cells::CellStorage;
use storage::packed::PackedStorage;

#[test]
fn cells(rt: HostRuntime) -> Result<(), Fail> {
    let mut s = CellStorage::new(vec![in rt.alloc(); 1u32, 3, 0xfffe_0003, 0x1_0000]?);
    assert_eq!(rt; s.size(), 4);
    assert_eq!(rt; s.read(0), Some((1, true)), "one 1");
    assert_eq!(rt; s.read(1), Some((3, false)), "two ones");
    assert_eq!(rt; s.read(3), Some((0, true)), "the parity bit alone");
    assert_eq!(rt; s.read(4), None);
    assert_eq!(rt; s.protected(1), Some(false));
    assert_eq!(rt; s.protected(2), Some(true));
    assert_eq!(rt; s.protected(4), None);
    assert!(rt; s.write(2, 7));
    assert!(rt; s.guard(1, true));
    assert!(rt; !s.write(4, 7));
    assert!(rt; !s.guard(4, true));
    assert_eq!(rt; s.read(1), Some((3, false)), "a guard keeps the mark");
    let cells = s.into_cells();
    assert_eq!(rt; cells.get(1).copied(), Some(0x2_0003));
    assert_eq!(rt;
        cells.get(2).copied(),
        Some(0xfffe_0007),
        "three ones want no parity bit"
    );
    Ok(())
}

#[test]
fn longest(rt: HostRuntime) -> Result<(), Fail> {
    let mut s = CellStorage::new(vec![in rt.alloc(); 5u32; 524_290]?);
    assert_eq!(rt; s.size(), 524_288);
    assert_eq!(rt; s.read(524_287), Some((5, false)));
    assert_eq!(rt; s.read(524_288), None);
    assert!(rt; s.write(524_287, 1));
    assert!(rt; !s.write(524_288, 1));
    let cells = s.into_cells();
    assert_eq!(rt; cells.get(524_287).copied(), Some(1));
    assert_eq!(rt; cells.get(524_288).copied(), Some(5));
    let s = PackedStorage::new(
        vec![in rt.alloc(); 0u16; 524_290]?,
        vec![in rt.alloc(); 0u16; 32_769]?,
    );
    assert_eq!(rt; s.size(), 524_288);
    Ok(())
}

#[test]
fn packed(rt: HostRuntime) -> Result<(), Fail> {
    let mut s = PackedStorage::new(
        vec![in rt.alloc(); 0u16; 40]?,
        vec![in rt.alloc(); 0u16, 0x00ff]?,
    );
    assert_eq!(rt; s.size(), 32, "two halfwords of protect bits");
    assert!(rt; s.guard(0, true) && s.guard(15, true) && s.guard(16, true) && s.guard(31, false));
    assert!(rt; !s.guard(32, true));
    assert_eq!(rt; s.protected(0), Some(true));
    assert_eq!(rt; s.protected(1), Some(false));
    assert_eq!(rt; s.protected(15), Some(true));
    assert_eq!(rt; s.protected(16), Some(true));
    assert_eq!(rt; s.protected(30), Some(true));
    assert_eq!(rt; s.protected(31), Some(false));
    assert_eq!(rt; s.protected(32), None);
    assert!(rt; s.write(31, 0xffff));
    assert!(rt; !s.write(32, 0xffff));
    assert_eq!(rt; s.read(31), Some((0xffff, true)));
    let (values, protects) = s.into_lists();
    assert_eq!(rt; protects.get(0).copied(), Some(0x8001));
    assert_eq!(rt; protects.get(1).copied(), Some(0x80fe));
    assert_eq!(rt; values.get(31).copied(), Some(0xffff));
    assert_eq!(rt; values.get(32).copied(), Some(0));
    Ok(())
}
