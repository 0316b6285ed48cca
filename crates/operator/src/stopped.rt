// A stopped processor.
ghost use Rattle.processor.specs.Sectors.{Narrow};
ghost use Rattle.sheet.specs.Tables.{Admitted};

use processor::state::State;

mod calls;

// It holds only admitted operations, and sector registers below 16.
#[derive(Drop)]
pub struct Stopped {
    state: State,
    ghost admitted: { Admitted state.table },
    ghost low: { Narrow state.low },
    ghost high: { Narrow state.high },
}
