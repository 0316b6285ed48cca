// A host around another that counts the commands accepted, for a lamp that shows the traffic. It means what the other means.
ghost use Rattle.std.specs.Prelude.{◌≡◌};

mod calls;

use host::Host;

#[derive(Drop)]
pub struct Counted<H> {
    inner: H,
    accepted: u64,
}

impl<H: Host> Counted<H> {
    // A host that has counted nothing yet.
    pub fn new(inner: H) -> Counted<H>
        ensures { result ≡ record { inner = inner; accepted = 0 } }
    {
        Counted { inner, accepted: 0 }
    }

    // How many commands were accepted; the count stops at its largest number.
    pub fn accepted(&self) -> u64
        ensures { result ≡ self.now.accepted }
    {
        self.accepted
    }
}
