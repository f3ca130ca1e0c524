ghost use Rattle.std.specs.Prelude.{◌≡◌, ℕ, ◌<◌, ◌≤◌, IfSome};
ghost use Rattle.exceptions.specs.Links.{Ringless, linked};
ghost use Rattle.exceptions.specs.World.{World, Lawful, relinking};

// Exceptions are the numbers below EXCEPTIONS. Each has a context or none, and no chain of contexts forms a ring.
pub trait Exceptions {
    const EXCEPTIONS: u16;

    // EXCEPTIONS, as a contract can name it.
    // Kept: tried as a ghost member of the constant's own name; it gets no statement in an impl whose type has a lifetime, as the tape's.
    ghost limit: { ℕ };

    // The links, and the answers to come.
    ghost world: { Self → World };

    // EXCEPTIONS, as generic code can tell a proof of it.
    fn how_many() -> u16
        ensures { result ≡ limit };

    // The context of e.
    // Kept: a bound at each call, and no type for an exception: every host and every caller would turn its numbers into it and back.
    fn context(&self, e: u16) -> Option<u16>
        requires { e < limit }
        ensures { result ≡ (world self.now).links e };

    // Changes the context of e, and no answer to come. The caller owes that the new link closes no ring.
    fn set_context(&mut self, e: u16, c: Option<u16>)
        requires below { e < limit }
        requires target { IfSome c (λ y. y < limit) }
        requires opens { Ringless (linked (world self.old).links e c) }
        ensures { world self.new ≡ relinking e c (world self.old) };

    // Does nothing, and says what always holds: there is no ring, and no exception at EXCEPTIONS or above.
    // Kept: a law asks more of a host. In it a u8 is any number, and a part with a Model its value alone; a body can read the number, and call a method of the part.
    fn vouch(&self)
        ensures { Lawful limit (world self.now) };
}
