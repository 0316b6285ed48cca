// The entries of a sheet of the right shape.
ghost use Rattle.std.specs.Prelude.{◌≡◌, ◌≤◌, length};

// Its keys, and as many operation numbers. An entry is told by its number, and its key is held against the one before, so both
// lists are reached by that number.
#[derive(Clone, Copy)]
pub(super) struct Entries<'a> {
    pub(super) keys: &'a [u16],
    pub(super) numbers: &'a [u16],
    ghost paired: { length keys.now ≡ length numbers.now },
    ghost small: { length keys.now ≤ 1280 },
}
