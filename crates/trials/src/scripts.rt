// Lines of the script that can and cannot be read.
use script::command::{Command, Entry, Stretch};
use script::read::read_line;
use script::unread::Unread;
use std::test::Fail;

// Lines that cannot be read.
const UNREAD: [&str; 41] = [
    "Load",
    "LOAD",
    "loads",
    "load 1",
    "storage",
    "storage cells",
    "storage drum 4096",
    "storage cells FF",
    "storage cells 4294967296",
    "storage cells 1 2",
    "cell 80",
    "cell 80 100000000",
    "sheet",
    "sheet 10000",
    "entry 1B0",
    "entry 1B0 lhi",
    "entry 1B0 LHJ",
    "entry 1B0 65536",
    "entry 10000 LHI",
    "entry 1B0 LHI 1",
    "do",
    "do a b",
    "deposit",
    "deposit 80",
    "deposit 80 10000",
    "deposit 80 G",
    "deposit 80 +5",
    "deposit 80 -5",
    "deposit 100000000 1",
    "deposit FFFFFFFF 1 2",
    "protect 80",
    "protect 80 2",
    "protect 80 01",
    "protect 80 1 -1",
    "protect 80 1 4294967296",
    "protect FFFFFFFF 1 2",
    "examine",
    "examine 80 A",
    "examine FFFFFFFF 2",
    "view 1 2 3",
    "view FFFFFF00 257",
];

#[test]
fn unread(rt: HostRuntime) {
    for line in UNREAD {
        assert_eq!(rt;
            read_line(rt.alloc(), line).err(),
            Some(Unread::Text),
            "{}",
            line
        );
    }
}

#[test]
fn read(rt: HostRuntime) -> Result<(), Fail> {
    for line in ["", "   ", "# load", "  \t# deposit 80"] {
        assert_eq!(rt; read_line(rt.alloc(), line), Ok(Command::Blank), "{}", line);
    }
    for (line, key, number) in [
        ("entry 4ff ISPB", 0x4ff, 34),
        ("entry FFFF 65535", 0xffff, 0xffff),
        ("entry 0 0007# C", 0, 7),
    ] {
        let Ok(Command::Entry(entry)) = read_line(rt.alloc(), line) else {
            return Err(Fail::new(line));
        };
        assert_eq!(rt; entry, Entry { key, number }, "{}", line);
    }
    for (line, address, count) in [
        ("view FFFFFF00 256", 0xffff_ff00, 256),
        ("view FFFFFFFF 0", 0xffff_ffff, 0),
        ("\tview   000000000aB", 0xab, 1),
        ("view 0 4294967295 # all", 0, 0xffff_ffff),
    ] {
        let Ok(Command::View(stretch)) = read_line(rt.alloc(), line) else {
            return Err(Fail::new(line));
        };
        assert_eq!(rt; stretch, Stretch { address, count }, "{}", line);
    }
    Ok(())
}

#[test]
fn values(rt: HostRuntime) -> Result<(), Fail> {
    let Ok(Command::Deposit { address, values }) = read_line(rt.alloc(), "deposit 80 b0E2 5") else {
        return Err(Fail::new("deposit"));
    };
    assert_eq!(rt; address, 0x80);
    assert_eq!(rt; values.as_slice(), [0xb0e2, 5].as_slice());
    Ok(())
}

#[test]
fn addresses(rt: HostRuntime) {
    for (address, count, last) in [
        (0xab, 1, Some(0xab)),
        (0xffff_fffd, 2, Some(0xffff_fffe)),
        (0xffff_ff00, 256, Some(0xffff_ffff)),
        (0xffff_ffff, 0, None),
    ] {
        assert_eq!(rt; Stretch { address, count }.addresses().last(), last);
    }
}
