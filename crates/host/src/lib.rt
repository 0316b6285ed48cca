// Hosts: what stands at the other end of a processor's commands.

#![tactic(auto)]

pub mod device;
pub mod exchange;
pub mod lists;
pub mod registers;

ghost use Rattle.std.specs.Prelude.{◌≡◌, is_some};
ghost use Rattle.host.specs.Meaning.{Clears, Commands, Gives, Meaning, Takes, command_is_input};

// An accepted command that is still open. It cannot be copied or let go: take, give or clear ends it.
pub struct Accepted {
    sealed: (),
}

// Only this crate can make one. So a host's own methods are reached through the calls that make and end a token.
#[derive(Drop)]
pub struct Seal {
    sealed: (),
}

// What every host shows. A host of one's own writes the first four methods; the other four are the calls. Each call
// stands beside a method, since only the bodies here can make or end a token.
pub trait Host {
    ghost meaning: { Self → Meaning };

    // Opens a command, if the host is idle and would take it.
    fn accept(&mut self, seal: &Seal, command: u32) -> bool
        ensures { Commands (meaning self.old) command result (meaning self.new) };

    // Closes the open command, and answers its word if it is for input.
    fn close_by_take(&mut self, seal: &Seal) -> u32
        ensures { Takes (meaning self.old) result (meaning self.new) };

    // Closes the open command, and keeps the word if it is for output.
    fn close_by_give(&mut self, seal: &Seal, word: u32)
        ensures { Gives (meaning self.old) word (meaning self.new) };

    // Closes the open command, and moves no word.
    fn close_by_clear(&mut self, seal: &Seal)
        ensures { Clears (meaning self.old) (meaning self.new) };

    // Sends a command. A host that is open, or would not take it, answers none and does not change.
    fn command(&mut self, command: u32) -> Option<Accepted>
        ensures { Commands (meaning self.old) command (is_some result) (meaning self.new) }
    {
        let accepted = self.accept(&Seal { sealed: () }, command);
        accepted.then(|| Accepted { sealed: () })
    }

    // Takes the word of an input command. On an output command or none it acts as clear, and answers 0.
    fn take(&mut self, token: Accepted) -> u32
        ensures { Takes (meaning self.old) result (meaning self.new) }
    {
        let Accepted { sealed: () } = token;
        self.close_by_take(&Seal { sealed: () })
    }

    // Gives a word to an output command. On an input command or none it acts as clear.
    fn give(&mut self, token: Accepted, word: u32)
        ensures { Gives (meaning self.old) word (meaning self.new) }
    {
        let Accepted { sealed: () } = token;
        self.close_by_give(&Seal { sealed: () }, word);
    }

    // Ends a command without a word.
    fn clear(&mut self, token: Accepted)
        ensures { Clears (meaning self.old) (meaning self.new) }
    {
        let Accepted { sealed: () } = token;
        self.close_by_clear(&Seal { sealed: () });
    }
}

// Whether a command is for input: bit 0, the leftmost, is one. A command is a fullword by the rules of the machine.
pub fn is_input(command: u32) -> bool
    ensures { result ≡ command_is_input command }
{
    command >> 31 & 1 == 1
}
