// The list host: words that wait, and a list with room for words given.
ghost use Rattle.std.specs.Prelude.{◌≤◌, vec_len};

use crate::device::DeviceHost;

mod calls;

// The words up to `taken` have been taken. They stay beside their count, since the words that wait are shown as one slice,
// and a queue would lend them in two. The list of words written is made with room for all that can be written.
#[derive(Drop)]
pub struct Lists {
    words: Vec<u32>,
    taken: usize,
    written: Vec<u32>,
    ghost within: { taken ≤ vec_len words },
}

pub type ListHost = DeviceHost<Lists>;
