// The calls, handed on.
ghost use Rattle.std.specs.Prelude.{◌≡◌, ◌+◌, min, if◌then◌else◌};
ghost use Rattle.host.specs.Meaning.{Clears, Commands, Gives, Takes};

use super::Counted;
use host::{Host, Seal};

// Each method says anew what a host promises, beside what becomes of the count: a method's own clauses stand in place of
// its trait's.
impl<H: Host> Host for Counted<H> {
    ghost meaning = { λ h. H.meaning h.inner };

    fn accept(&mut self, seal: &Seal, command: u32) -> bool
        ensures host { Commands (H.meaning self.old.inner) command result (H.meaning self.new.inner) }
        ensures count { self.new.accepted ≡ (if result then min (self.old.accepted + 1) u64.MAX else self.old.accepted) }
    {
        let accepted = self.inner.accept(seal, command);
        if accepted {
            self.accepted = self.accepted.saturating_add(1);
        }
        accepted
    }

    fn close_by_take(&mut self, seal: &Seal) -> u32
        ensures host { Takes (H.meaning self.old.inner) result (H.meaning self.new.inner) }
        ensures count { self.new.accepted ≡ self.old.accepted }
    {
        self.inner.close_by_take(seal)
    }

    fn close_by_give(&mut self, seal: &Seal, word: u32)
        ensures host { Gives (H.meaning self.old.inner) word (H.meaning self.new.inner) }
        ensures count { self.new.accepted ≡ self.old.accepted }
    {
        self.inner.close_by_give(seal, word);
    }

    fn close_by_clear(&mut self, seal: &Seal)
        ensures host { Clears (H.meaning self.old.inner) (H.meaning self.new.inner) }
        ensures count { self.new.accepted ≡ self.old.accepted }
    {
        self.inner.close_by_clear(seal);
    }
}
