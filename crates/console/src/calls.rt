// A stopped processor beside its storage: one call of the operator, or one look at storage, and the line that tells it.
ghost use Rattle.std.specs.Prelude.{◌≡◌};
ghost use Rattle.console.specs.Lines.{view_text};
ghost use Rattle.console.specs.Store.{meaning_of};
ghost use Rattle.listing.specs.Answers.{done_text, value_text};
ghost use Rattle.listing.specs.Lines.{deposit_text, examine_text, line_text, load_text, protect_text};
ghost use Rattle.operator.specs.Calls.{after_deposit, after_load, after_protect, examine_answer, load_answer, reached};

use crate::store::Store;
use listing::line::Line;
use operator::stopped::Stopped;
use storage::Storage;

#[derive(Drop)]
pub(crate) struct Machine {
    pub(crate) processor: Stopped,
    pub(crate) store: Store,
}

impl Machine {
    pub(crate) fn load(&mut self, sheet: &[u16]) -> Line
        ensures line { line_text result ≡ load_text (done_text (load_answer sheet.now)) }
        ensures after { self.new.processor.state ≡ after_load sheet.now self.old.processor.state }
        ensures kept { self.new.store ≡ self.old.store }
    {
        Line::Load(self.processor.load(sheet).into())
    }

    pub(crate) fn deposit(&mut self, address: u32, halfword: u16) -> Line
        ensures line { line_text result ≡ deposit_text address halfword (done_text (reached (meaning_of self.old.store) address)) }
        ensures after { meaning_of self.new.store ≡ after_deposit (meaning_of self.old.store) address halfword }
        ensures kept { self.new.processor ≡ self.old.processor }
    {
        let answer = self.processor.deposit(&mut self.store, address, halfword);
        Line::Deposit(address, halfword, answer.into())
    }

    pub(crate) fn protect(&mut self, address: u32, bit: bool) -> Line
        ensures line { line_text result ≡ protect_text address bit (done_text (reached (meaning_of self.old.store) address)) }
        ensures after { meaning_of self.new.store ≡ after_protect (meaning_of self.old.store) address bit }
        ensures kept { self.new.processor ≡ self.old.processor }
    {
        let answer = self.processor.protect(&mut self.store, address, bit);
        Line::Protect(address, bit, answer.into())
    }

    pub(crate) fn examine(&self, address: u32) -> Line
        ensures { line_text result ≡ examine_text address (value_text (examine_answer (meaning_of self.now.store) address)) }
    {
        let answer = self.processor.examine(&self.store, address);
        Line::Examine(address, answer.into())
    }

    // A look at a place, which is no call.
    pub(crate) fn view(&self, address: u32) -> Line
        ensures { line_text result ≡ view_text (meaning_of self.now.store) address }
    {
        match (self.store.read(address), self.store.protected(address)) {
            (Some((value, sound)), Some(protected)) => Line::Place {
                address,
                value,
                protected,
                sound,
            },
            _ => Line::Outside(address),
        }
    }
}
