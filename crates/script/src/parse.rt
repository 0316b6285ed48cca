// The commands, from the words after the verb.
ghost use Rattle.std.specs.Prelude.{◌≡◌, length};
ghost use Rattle.std.specs.Option.{ok_or};
ghost use Rattle.script.specs.Commands.{Agrees, cell_said, deposit_said, entry_said, sheet_said, start_said, storage_said, stretch_said};

use crate::command::{Command, Entry, Stretch};
use crate::name;
use crate::number::{fits, number};
use crate::unread::Unread;

// The address that a list of so many values begins at: there is one or more, and their stretch fits.
fn start(address: &str, count: usize) -> Result<u32, Unread>
    ensures { result ≡ ok_or (start_said address.now count) Unread.Text }
{
    let address = number(address, 16).ok_or(Unread::Text)?;
    if count == 0 || !fits(address, count) {
        return Err(Unread::Text);
    }
    Ok(address)
}

// The stretch with an address and a count.
pub fn stretch(address: &str, count: &str) -> Result<Stretch, Unread>
    ensures { result ≡ ok_or (stretch_said address.now count.now) Unread.Text }
{
    let address = number(address, 16).ok_or(Unread::Text)?;
    let count: u32 = number(count, 10).ok_or(Unread::Text)?;
    if !fits(address, count as usize) {
        return Err(Unread::Text);
    }
    Ok(Stretch { address, count })
}

// `storage KIND SIZE`.
pub fn storage(kind: &str, size: &str) -> Result<Command, Unread>
    ensures { Agrees result (storage_said kind.now size.now) }
{
    let kind = kind.parse()?;
    let size = number(size, 10).ok_or(Unread::Text)?;
    Ok(Command::Storage { kind, size })
}

// `cell ADDRESS RAW ..`. It differs from a deposit in what its values are; one text for both would be longer than the two.
pub fn cell(address: &str, cells: Vec<u32>) -> Result<Command, Unread>
    ensures { Agrees result (cell_said address.now cells.items) }
{
    let address = start(address, cells.len())?;
    Ok(Command::Cell { address, cells })
}

// `sheet HALFWORD ..`.
pub fn sheet(halfwords: Vec<u16>) -> Result<Command, Unread>
    ensures { Agrees result (sheet_said halfwords.items) }
{
    if halfwords.is_empty() {
        return Err(Unread::Text);
    }
    Ok(Command::Sheet(halfwords))
}

// `entry KEY OPERATION`.
pub fn entry(key: &str, operation: &str) -> Result<Command, Unread>
    ensures { Agrees result (entry_said key.now operation.now) }
{
    let key = number(key, 16).ok_or(Unread::Text)?;
    let number = name::operation_number(operation).ok_or(Unread::Text)?;
    Ok(Command::Entry(Entry { key, number }))
}

// `deposit ADDRESS VALUE ..`.
pub fn deposit(address: &str, values: Vec<u16>) -> Result<Command, Unread>
    ensures { Agrees result (deposit_said address.now values.items) }
{
    let address = start(address, values.len())?;
    Ok(Command::Deposit { address, values })
}
