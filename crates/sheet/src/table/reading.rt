// A code sheet, read into a table: the count n, then n keys strictly rising, then n operation numbers.
ghost use Rattle.std.specs.Prelude.{◌≡◌, ◌<◌, length, if◌then◌else◌, Ok, Err};
ghost use Rattle.sheet.specs.declared.refusal.Layer.TheVariants as layer;
ghost use Rattle.sheet.specs.Refusals.{refused, told_sheet};
ghost use Rattle.sheet.specs.Sheets.{Fills, entries_to, entry_of, keys_of, numbers_of, rising, shaped, table_of};
ghost use Rattle.sheet.specs.Tabled.{tabled, told_entries};

mod entries;

use super::Table;
use crate::operation::Operation;
use crate::refusal::SheetFault;
use entries::Entries;

impl Table {
    // The table that a sheet fills, or the fault of the sheet.
    pub fn from_sheet(sheet: &[u16]) -> Result<Table, SheetFault>
        ensures answer { tabled result ≡ table_of sheet.now }
        ensures fills { Fills sheet.now (tabled result) }
    {
        let entries = halves(sheet)?;
        entries.table()
    }
}

// The entries, if the sheet has the right shape.
fn halves(sheet: &[u16]) -> Result<Entries<'_>, SheetFault>
    ensures { told_entries result ≡ (if shaped sheet.now then Ok (keys_of sheet.now, numbers_of sheet.now) else Err (refused 1 0 layer.Sheet)) }
{
    let (count, rest) = sheet.split_first().ok_or(SheetFault::Shape)?;
    let n = usize::from(*count);
    if n == 0 || n > 1280 || rest.len() != 2 * n {
        return Err(SheetFault::Shape);
    }
    let (keys, numbers) = rest.split_at(n);
    Ok(Entries { keys, numbers })
}

// Whether key i is above the one before it.
fn rises(keys: &[u16], i: usize) -> bool
    requires { i < length keys.now }
    ensures { result ≡ rising keys.now i }
{
    i == 0 || keys[i - 1] < keys[i]
}

impl Entries<'_> {
    // The operation of entry i.
    fn operation(&self, i: usize) -> Result<Operation, SheetFault>
        requires { i < length self.now.keys.now }
        ensures { told_sheet result ≡ entry_of self.now.keys.now self.now.numbers.now i }
    {
        let key = self.keys[i];
        if key >= 1280 || !rises(self.keys, i) {
            return Err(SheetFault::Key(i as u32));
        }
        match Operation::try_from(self.numbers[i]) {
            Ok(operation) if operation.admits(key / 256) => Ok(operation),
            _ => Err(SheetFault::Code(i as u32)),
        }
    }

    // The table of all entries.
    fn table(&self) -> Result<Table, SheetFault>
        ensures { tabled result ≡ entries_to self.now.keys.now self.now.numbers.now (length self.now.keys.now) }
    {
        let mut table = Table::empty();
        for (i, key) in self.keys.iter().enumerate() {
            let operation = self.operation(i)?;
            table.put(*key, operation);
        }
        Ok(table)
    }
}
