// A session: a stopped processor beside its storage, and the commands of the script performed on them.
ghost use Rattle.std.specs.Prelude.{◌≡◌, replicate, IfOk};
ghost use Rattle.console.specs.Store.{meaning_of};
ghost use Rattle.console.specs.declared.session.Phase.TheVariants.{Fresh};
ghost use Rattle.processor.specs.State.{fresh_state};
ghost use Rattle.storage.specs.Meaning.{blank};

pub mod lines;

use crate::calls::Machine;
use crate::draft::Draft;
use crate::failure::Failure;
use crate::store::Store;
use listing::line::{Kind, Line};
use operator::stopped::Stopped;
use script::command::{Command, Stretch};
use std::alloc::Global;
use storage::Storage;

// How far a session has come.
#[derive(Clone, Copy, PartialEq, Eq, Debug)]
enum Phase {
    // No `storage` line was performed, and no call was made.
    Fresh,
    // A `storage` line was performed.
    Chosen,
    // A call was made, and the storage stands.
    Called,
}

// What it writes goes to its caller's text: a session that ends early is gone, and what it wrote is still to be printed.
#[derive(Drop)]
pub struct Session {
    heap: Global,
    machine: Machine,
    draft: Draft,
    phase: Phase,
    // The lines of the script that were performed.
    lines: u64,
}

// Writes the line of each address of a stretch.
fn tell<F: FnMut(u32) -> Line>(
    stretch: Stretch,
    mut line: F,
    out: &mut String,
) -> Result<(), Failure>
    requires { F.IsAlwaysCallable line }
{
    for address in stretch.addresses() {
        out.writeln(line(address))?;
    }
    Ok(())
}

impl Session {
    // A fresh processor beside 4,096 cells, and no line performed.
    pub fn new(heap: Global) -> Result<Session, Failure>
        ensures processor { IfOk result (λ s. s.machine.processor.state ≡ fresh_state) }
        ensures storage { IfOk result (λ s. meaning_of s.machine.store ≡ replicate 4096 blank) }
        ensures lines { IfOk result (λ s. s.lines ≡ 0) }
        ensures phase { IfOk result (λ s. s.phase ≡ Fresh) }
    {
        let store = Store::zeroed(heap, Kind::Cells, 4096)?;
        Ok(Session {
            heap,
            machine: Machine {
                processor: Stopped::new(),
                store,
            },
            draft: Draft::new(heap),
            phase: Phase::Fresh,
            lines: 0,
        })
    }

    // Performs a command, and writes what was performed. A `do` has been performed by its lines, so one here is in a file.
    // The compiler sees that the match has each command; closures would be no plainer.
    fn perform(self, command: Command, out: &mut String) -> Result<Session, Failure> {
        let mut session = self;
        match command {
            Command::Blank => {}
            Command::Storage { kind, size } => session.choose(kind, size, out)?,
            Command::Cell { address, cells } => return session.put_cells(address, &cells),
            Command::Sheet(halfwords) => session.draft.append(&halfwords)?,
            Command::Entry(entry) => session.draft.append_entry(entry)?,
            Command::Do(_file) => return Err(Failure::Unread),
            Command::Load => session.load(out)?,
            Command::Deposit { address, values } => session.deposit(address, &values, out)?,
            Command::Protect { stretch, bit } => session.protect(stretch, bit, out)?,
            Command::Examine(stretch) => session.examine(stretch, out)?,
            Command::View(stretch) => session.view(stretch, out)?,
        }
        Ok(session)
    }

    // Makes the storage that a `storage` line asks for. The size that is printed is the one it has, which may be less.
    fn choose(&mut self, kind: Kind, size: u32, out: &mut String) -> Result<(), Failure> {
        if self.phase != Phase::Fresh {
            return Err(Failure::Unread);
        }
        self.machine.store = Store::zeroed(self.heap, kind, size)?;
        self.phase = Phase::Chosen;
        out.writeln(Line::Storage(kind, self.machine.store.size() as u32))?;
        Ok(())
    }

    // Puts the raw cells of a `cell` line.
    fn put_cells(self, address: u32, raw: &[u32]) -> Result<Session, Failure> {
        if self.phase == Phase::Called {
            return Err(Failure::Unread);
        }
        let Machine { processor, store } = self.machine;
        let store = store.with_cells(address, raw).ok_or(Failure::Unread)?;
        Ok(Session {
            machine: Machine { processor, store },
            ..self
        })
    }

    // Hands the sheet over, and begins another.
    fn load(&mut self, out: &mut String) -> Result<(), Failure> {
        self.phase = Phase::Called;
        let sheet = self.draft.sheet(self.heap)?;
        self.draft = Draft::new(self.heap);
        out.writeln(self.machine.load(&sheet))?;
        Ok(())
    }

    // Deposits values one after another.
    fn deposit(&mut self, address: u32, values: &[u16], out: &mut String) -> Result<(), Failure> {
        self.phase = Phase::Called;
        for (at, value) in (address..=u32::MAX).zip(values) {
            out.writeln(self.machine.deposit(at, *value))?;
        }
        Ok(())
    }

    // A stretch with no places makes no call.
    fn call_for(&mut self, stretch: Stretch) {
        if stretch.count > 0 {
            self.phase = Phase::Called;
        }
    }

    // Sets the protect bits of a stretch of places.
    fn protect(&mut self, stretch: Stretch, bit: bool, out: &mut String) -> Result<(), Failure> {
        self.call_for(stretch);
        tell(stretch, |at| self.machine.protect(at, bit), out)
    }

    // Reads a stretch of places.
    fn examine(&mut self, stretch: Stretch, out: &mut String) -> Result<(), Failure> {
        self.call_for(stretch);
        tell(stretch, |at| self.machine.examine(at), out)
    }

    // Looks at a stretch of places.
    fn view(&self, stretch: Stretch, out: &mut String) -> Result<(), Failure> {
        tell(stretch, |at| self.machine.view(at), out)
    }
}
