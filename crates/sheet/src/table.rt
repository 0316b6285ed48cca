// The table of 1,280 keys, which holds only operations that the class of their key admits.
ghost use Rattle.std.specs.Prelude.{◌≡◌, ◌/◌, ◌<◌, true, Some, None, slice_index_or, slice_set};
ghost use Rattle.sheet.specs.Operations.{admits};
ghost use Rattle.sheet.specs.Tables.{Admitted, empty_entries};

use crate::operation::Operation;

mod reading;

#[derive(Clone, Copy)]
pub struct Table {
    entries: [Option<Operation>; 1280],
    ghost admitted: { Admitted entries },
}

// No operation at any key.
fn no_operations() -> [Option<Operation>; 1280]
    ensures { result ≡ empty_entries }
{
    [None; 1280]
}

impl Table {
    // The table with no operation at any key.
    pub fn empty() -> Table
        ensures { result.entries ≡ empty_entries }
    {
        let entries = no_operations();
        Table { entries }
    }

    // The operation at a key, or none.
    pub fn at(&self, key: u16) -> Option<Operation>
        ensures { result ≡ slice_index_or self.now.entries key None }
    {
        self.entries.get(usize::from(key)).copied().flatten()
    }

    // The operation at each key.
    pub fn entries(&self) -> [Option<Operation>; 1280]
        ensures { result ≡ self.now.entries }
    {
        let Table { entries } = *self;
        entries
    }

    // Puts an operation at a key whose class admits it.
    fn put(&mut self, key: u16, operation: Operation)
        requires below { key < 1280 }
        requires fits { admits operation (key / 256) ≡ true }
        ensures { self.new.entries ≡ slice_set self.old.entries key (Some operation) }
    {
        self.entries[usize::from(key)] = Some(operation);
    }
}
