// The exchange of one word with a host, as an input or output instruction makes it.
ghost use Rattle.std.specs.Prelude.{◌≡◌, [], is_some};
ghost use Rattle.host.specs.Exchanges.{closed_answer, closed_by, exchange_answer, exchanged, told};
ghost use Rattle.host.specs.Meaning.{accepts, commanded};

use crate::{Accepted, Host, is_input};

// What became of an exchange. There are three cases, each with its name: an option in an option would lose them.
#[derive(Clone, Copy, PartialEq, Eq, Debug)]
pub enum Exchanged {
    // The command was not accepted.
    NotAccepted,
    // The word was given to the host.
    Given,
    // This word was taken from the host.
    Taken(u32),
}

// Closes an accepted command: takes a word on input, and gives the word on output.
fn close<H: Host>(host: &mut H, token: Accepted, command: u32, word: u32) -> Exchanged
    ensures answer { told result ≡ closed_answer (H.meaning host.old) command }
    ensures after { H.meaning host.new ≡ closed_by (H.meaning host.old) command word }
{
    if is_input(command) {
        Exchanged::Taken(host.take(token))
    } else {
        host.give(token, word);
        Exchanged::Given
    }
}

// Sends a command.
fn send<H: Host>(host: &mut H, command: u32) -> Option<Accepted>
    ensures answer { is_some result ≡ accepts (H.meaning host.old) command }
    ensures after { H.meaning host.new ≡ commanded (H.meaning host.old) command }
    ensures words { ((H.meaning host.new).offers []).word ≡ ((H.meaning host.old).offers []).word }
{
    host.command(command)
}

// Sends a command, and closes it if it is accepted.
pub fn exchange<H: Host>(host: &mut H, command: u32, word: u32) -> Exchanged
    ensures answer { told result ≡ exchange_answer (H.meaning host.old) command }
    ensures after { H.meaning host.new ≡ exchanged (H.meaning host.old) command word }
{
    match send(host, command) {
        Some(token) => close(host, token, command, word),
        None => Exchanged::NotAccepted,
    }
}
