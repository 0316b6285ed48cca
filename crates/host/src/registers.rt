// The register host: 32 fullwords.
ghost use Rattle.std.specs.Prelude.{◌≡◌, ℕ, List, None};
ghost use Rattle.host.specs.Laws.{Keeps};
ghost use Rattle.host.specs.Registers.{register_meaning, register_of, registers};

use crate::device::{Device, DeviceHost};

// Takes every command, and uses the word that its low five bits number.
#[derive(PartialEq, Eq, Debug, Drop)]
pub struct Registers {
    words: [u32; 32],
}

pub type RegisterHost = DeviceHost<Registers>;

// The register that a command's low five bits number.
fn number(command: u32) -> usize
    ensures { result ≡ register_of command }
{
    (command & 31) as usize
}

// An idle host over registers that hold these words.
fn idle(words: [u32; 32]) -> RegisterHost
    ensures { result ≡ record { current = None; latest = None; device = record { words = words } } }
{
    DeviceHost::new(Registers::new(words))
}

impl RegisterHost {
    // An idle host whose registers hold these words.
    pub fn with_words(words: [u32; 32]) -> RegisterHost
        ensures answer { result ≡ record { current = None; latest = None; device = record { words = words } } }
        ensures keeps { Keeps words (register_meaning result) }
    {
        idle(words)
    }
}

impl Registers {
    // Registers that hold these words.
    pub fn new(words: [u32; 32]) -> Registers
        ensures { result ≡ record { words = words } }
    {
        Registers { words }
    }

    // The words, register by register.
    pub fn words(&self) -> &[u32; 32]
        ensures { result.now ≡ self.now.words }
    {
        &self.words
    }
}

impl Device for Registers {
    ghost states = { List ℕ };

    ghost state = { λ d. d.words };

    ghost machine = { registers };

    fn ready(&self, _command: u32) -> bool {
        true
    }

    fn input(&mut self, command: u32) -> u32 {
        self.words[number(command)]
    }

    fn output(&mut self, command: u32, word: u32) {
        self.words[number(command)] = word;
    }
}
