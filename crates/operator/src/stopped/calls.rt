// The calls that a stopped processor allows.
ghost use Rattle.std.specs.Prelude.{◌≡◌};
ghost use Rattle.operator.specs.Calls.{after_deposit, after_load, after_protect, examine_answer, load_answer, reached};
ghost use Rattle.processor.specs.State.{fresh_state};
ghost use Rattle.sheet.specs.Refusals.{told};

use super::Stopped;
use crate::reach::{reach, sound_at};
use processor::state::State;
use sheet::refusal::Refusal;
use sheet::table::Table;
use storage::Storage;

// Each call with a storage says that the processor stays (`same`): what a call leaves is said by the call.
impl Stopped {
    // A fresh processor: all zero, with an empty table.
    pub fn new() -> Stopped
        ensures { result.state ≡ fresh_state }
    {
        let state = State::fresh();
        Stopped { state }
    }

    // Fills the table from a code sheet; a refused sheet leaves it as it was.
    pub fn load(&mut self, sheet: &[u16]) -> Result<(), Refusal>
        ensures answer { told result ≡ load_answer sheet.now }
        ensures after { self.new.state ≡ after_load sheet.now self.old.state }
    {
        let table = Table::from_sheet(sheet)?;
        self.state.set_table(&table);
        Ok(())
    }

    // Writes a halfword into storage. Protect differs in the one call; a closure for it would need a contract as long as either.
    pub fn deposit<S: Storage>(
        &self,
        storage: &mut S,
        address: u32,
        value: u16,
    ) -> Result<(), Refusal>
        ensures answer { told result ≡ reached (S.meaning storage.old) address }
        ensures after { S.meaning storage.new ≡ after_deposit (S.meaning storage.old) address value }
        ensures same { self.exit.now.state ≡ self.entry.now.state }
    {
        reach(storage, address)?;
        let _ = storage.write(address, value);
        Ok(())
    }

    // Sets the protect bit of a place.
    pub fn protect<S: Storage>(
        &self,
        storage: &mut S,
        address: u32,
        bit: bool,
    ) -> Result<(), Refusal>
        ensures answer { told result ≡ reached (S.meaning storage.old) address }
        ensures after { S.meaning storage.new ≡ after_protect (S.meaning storage.old) address bit }
        ensures same { self.exit.now.state ≡ self.entry.now.state }
    {
        reach(storage, address)?;
        let _ = storage.guard(address, bit);
        Ok(())
    }

    // Reads the halfword at a sound place.
    pub fn examine<S: Storage>(&self, storage: &S, address: u32) -> Result<u16, Refusal>
        ensures answer { told result ≡ examine_answer (S.meaning storage.now) address }
        ensures after { S.meaning storage.exit.now ≡ S.meaning storage.entry.now }
        ensures same { self.exit.now.state ≡ self.entry.now.state }
    {
        reach(storage, address)?;
        let value = sound_at(storage, address)?;
        Ok(value)
    }
}
