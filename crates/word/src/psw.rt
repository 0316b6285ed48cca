// The program status word.

// Its four halfwords: bits 0-15, 16-31, 32-47 and 48-63.
#[derive(Clone, Copy, PartialEq, Eq, Debug, Default)]
pub struct Psw {
    pub counter: u16,
    pub status: u16,
    pub control: u16,
    pub code: u16,
}
