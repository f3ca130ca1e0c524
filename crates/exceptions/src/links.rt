ghost use Rattle.std.specs.Prelude.{◌≡◌, ℕ, ◌<◌, ◌≤◌, IfSome};
ghost use Rattle.exceptions.specs.Links.{Ringless, Within, linked, unlinked, tabled};

// The links of N exceptions, in which there is no ring.
// Kept: ghost fields, and no Model: hosts prove the law of their links from these fields, and a Model shows its value alone.
#[derive(Drop)]
pub struct LinkTable<const N: usize> {
    contexts: [Option<u16>; N],
    ghost ringless: { Ringless (tabled contexts) },
    ghost within: { Within N (tabled contexts) },
}

impl<const N: usize> LinkTable<N> {
    // No exception has a context.
    pub fn new() -> Self
        ensures { tabled result.contexts ≡ unlinked }
    {
        LinkTable {
            contexts: [None; N],
        }
    }

    // An exception past the last has none.
    pub fn context(&self, e: u16) -> Option<u16>
        ensures { result ≡ tabled self.now.contexts e }
    {
        self.contexts.get(e as usize).copied().flatten()
    }

    pub fn set_context(&mut self, e: u16, c: Option<u16>)
        requires below { e < N }
        requires target { IfSome c (λ y. y < N) }
        requires opens { Ringless (linked (tabled self.old.contexts) e c) }
        ensures { tabled self.new.contexts ≡ linked (tabled self.old.contexts) e c }
    {
        let at = e as usize;
        self.contexts[at] = c;
    }
}
