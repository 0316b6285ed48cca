// The supplied hosts, and an exhibit's own.
use exhibit::counted::Counted;
use exhibit::lent::{LentStorage, Slot};
use exhibit::panel::Panel;
use host::device::DeviceHost;
use host::exchange::Exchanged::{Given, NotAccepted, Taken};
use host::exchange::exchange;
use host::lists::ListHost;
use host::registers::RegisterHost;
use host::{Accepted, Host};
use operator::stopped::Stopped;
use std::test::Fail;

const INPUT: u32 = 0x8000_0000;

// The word that an exchange brings along where it is for input.
const UNUSED: u32 = 0xdead_beef;

fn accepted<H: Host>(host: &mut H, command: u32) -> Result<Accepted, Fail> {
    host.command(command)
        .ok_or_else(|| Fail::new("not accepted"))
}

// The low five bits number the register; all other bits of a command but bit 0 are ignored.
#[test]
fn registers(rt: HostRuntime) -> Result<(), Fail> {
    let mut host = RegisterHost::with_words([9; 32]);
    assert_eq!(rt; exchange(&mut host, INPUT + 31, UNUSED), Taken(9));
    assert_eq!(rt; exchange(&mut host, 5, 0x1234), Given);
    assert_eq!(rt; exchange(&mut host, INPUT + 5, UNUSED), Taken(0x1234));
    assert_eq!(rt; exchange(&mut host, 0xffff_ffe5, UNUSED), Taken(0x1234));
    assert_eq!(rt; exchange(&mut host, INPUT + 4, UNUSED), Taken(9));
    assert_eq!(rt; exchange(&mut host, 0x7fff_ffe5, 0x5678), Given);
    assert_eq!(rt; exchange(&mut host, INPUT + 5, UNUSED), Taken(0x5678));
    assert_eq!(rt; host.latest(), Some((0x7fff_ffe5, 0x5678)));
    assert_eq!(rt; host.current(), None);
    assert_eq!(rt; host.device().words()[5], 0x5678);
    assert_eq!(rt; host.device().words()[6], 9);
    Ok(())
}

// An open host accepts nothing, and stays open.
#[test]
fn open(rt: HostRuntime) -> Result<(), Fail> {
    let mut host = RegisterHost::with_words([7; 32]);
    let token = accepted(&mut host, INPUT + 3)?;
    let current = host.current();
    let refused = exchange(&mut host, 4, 1);
    let still = host.current();
    let word = host.take(token);
    assert_eq!(rt; current, Some(INPUT + 3));
    assert_eq!(rt; refused, NotAccepted);
    assert_eq!(rt; still, Some(INPUT + 3));
    assert_eq!(rt; word, 7);
    assert_eq!(rt; host.current(), None);
    assert_eq!(rt; host.latest(), None);
    assert_eq!(rt; exchange(&mut host, INPUT + 4, UNUSED), Taken(7));
    Ok(())
}

// A take on output and a give on input act as clear, and so does each on an idle host.
#[test]
fn wrong_side(rt: HostRuntime) -> Result<(), Fail> {
    let words = vec![in rt.alloc(); 3u32, 4]?;
    let mut list = ListHost::with_words(rt.alloc(), words, 1)?;
    let mut registers = RegisterHost::with_words([7; 32]);
    let token = accepted(&mut list, 0)?;
    assert_eq!(rt; list.take(token), 0, "take on output");
    let token = accepted(&mut list, INPUT)?;
    list.give(token, 8);
    let token = accepted(&mut list, INPUT)?;
    list.clear(token);
    assert_eq!(rt; list.latest(), None);
    let token = accepted(&mut registers, INPUT)?;
    assert_eq!(rt; list.take(token), 0, "take on an idle host");
    assert_eq!(rt;
        exchange(&mut registers, 0, 1),
        NotAccepted,
        "its token went to another host"
    );
    let token = accepted(&mut list, INPUT)?;
    registers.give(token, 1);
    assert_eq!(rt; registers.latest(), None);
    assert_eq!(rt; registers.current(), None);
    assert_eq!(rt; list.current(), Some(INPUT));
    let token = accepted(&mut registers, 0)?;
    let mut idle = RegisterHost::with_words([1; 32]);
    idle.give(token, 5);
    assert_eq!(rt; idle.latest(), None, "give on an idle host");
    assert_eq!(rt; idle.device().words()[0], 1);
    assert_eq!(rt; list.device().waiting(), [3, 4].as_slice());
    assert_eq!(rt; list.device().written(), [].as_slice());
    Ok(())
}

#[test]
fn lists(rt: HostRuntime) -> Result<(), Fail> {
    let words = vec![in rt.alloc(); 3u32, 4, 5]?;
    let mut host = ListHost::with_words(rt.alloc(), words, 2)?;
    assert_eq!(rt; exchange(&mut host, INPUT, UNUSED), Taken(3));
    assert_eq!(rt; exchange(&mut host, 1, 8), Given);
    assert_eq!(rt; exchange(&mut host, 0xffff_ffff, UNUSED), Taken(4));
    assert_eq!(rt; host.device().waiting(), [5].as_slice());
    assert_eq!(rt; exchange(&mut host, INPUT, UNUSED), Taken(5));
    assert_eq!(rt; exchange(&mut host, INPUT, 1), NotAccepted);
    assert_eq!(rt; exchange(&mut host, 0x7fff_ffff, 9), Given);
    assert_eq!(rt; exchange(&mut host, 0, 1), NotAccepted);
    assert_eq!(rt; exchange(&mut host, INPUT, 1), NotAccepted);
    assert_eq!(rt; host.device().written(), [8, 9].as_slice());
    assert_eq!(rt; host.latest(), Some((0x7fff_ffff, 9)));
    let mut none = ListHost::with_words(rt.alloc(), Vec::new(rt.alloc()), 0)?;
    assert_eq!(rt; exchange(&mut none, INPUT, 1), NotAccepted);
    assert_eq!(rt; exchange(&mut none, 0, 1), NotAccepted);
    Ok(())
}

// A panel at address 7, with its traffic counted, and a storage over lent slots.
#[test]
fn exhibits(rt: HostRuntime) -> Result<(), Fail> {
    let mut host = Counted::new(DeviceHost::new(Panel::new(7, 0xcafe)));
    assert_eq!(rt; exchange(&mut host, 0x8000_0107, UNUSED), Taken(0xcafe));
    assert_eq!(rt; exchange(&mut host, 0x0000_0007, 0xff), Given);
    assert_eq!(rt; exchange(&mut host, 0x8000_0008, 1), NotAccepted);
    assert_eq!(rt; host.accepted(), 2);
    let mut slots = [Slot {
        value: 0x1234,
        protected: false,
        sound: false,
    }; 300];
    let operator = Stopped::new();
    let mut storage = LentStorage::new(&mut slots);
    assert!(rt; operator.examine(&storage, 299).is_err(), "unsound");
    assert_eq!(rt; operator.deposit(&mut storage, 299, 0xabcd), Ok(()));
    assert_eq!(rt; operator.protect(&mut storage, 299, true), Ok(()));
    assert_eq!(rt; operator.examine(&storage, 299), Ok(0xabcd));
    assert!(rt; operator.deposit(&mut storage, 300, 1).is_err(), "outside");
    assert_eq!(rt; slots[299].value, 0xabcd);
    assert!(rt; slots[299].protected && slots[299].sound);
    assert_eq!(rt; slots[298].value, 0x1234);
    Ok(())
}
