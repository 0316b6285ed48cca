// What a processor holds: status word, both register sets, pending external levels, and its table of operations.
ghost use Rattle.std.specs.Prelude.{◌≡◌};
ghost use Rattle.processor.specs.Sectors.{Narrow};
ghost use Rattle.processor.specs.State.{fresh_state, with_table, blank_registers};
ghost use Rattle.sheet.specs.Tables.{Admitted};

use sheet::operation::Operation;
use sheet::table::Table;
use word::psw::Psw;

// A fullword register, with the 4-bit sector register that is part of it.
#[derive(Clone, Copy, PartialEq, Eq, Debug)]
pub struct Register {
    word: u32,
    sector: u8,
}

pub type RegisterSet = [Register; 8];

// The external levels 1 to 5 that are pending.
#[derive(Clone, Copy, PartialEq, Eq, Debug)]
pub struct Pending {
    levels: [bool; 5],
}

#[derive(Drop)]
pub struct State {
    psw: Psw,
    low: RegisterSet,
    high: RegisterSet,
    pending: Pending,
    // The entries of a table, without its invariant: definitions build states, so the invariants stand on the types that hold one.
    table: [Option<Operation>; 1280],
}

fn zero_registers() -> RegisterSet
    ensures { result ≡ blank_registers }
{
    [Register { word: 0, sector: 0 }; 8]
}

impl State {
    // All zero, with an empty table.
    pub fn fresh() -> State
        ensures fresh { result ≡ fresh_state }
        ensures admitted { Admitted result.table }
        ensures low { Narrow result.low }
        ensures high { Narrow result.high }
    {
        let psw = Psw {
            counter: 0,
            status: 0,
            control: 0,
            code: 0,
        };
        let table = Table::empty().entries();
        State {
            psw,
            low: zero_registers(),
            high: zero_registers(),
            pending: Pending { levels: [false; 5] },
            table,
        }
    }

    // Puts a whole table in the place of the one held.
    pub fn set_table(&mut self, table: &Table)
        ensures { self.new ≡ with_table self.old table.now.entries }
    {
        let entries = table.entries();
        self.table = entries;
    }
}
