ghost use Rattle.std.specs.Prelude.{◌≡◌, ◌<◌, IfSome};
ghost use Rattle.exceptions.specs.Links.{Ringless};
ghost use Rattle.exceptions.specs.World.{with_links};
ghost use Rattle.exceptions.specs.Chaining.{Chains, Implicit-chaining};
ghost use Rattle.exceptions.specs.Linking.{walk_from, cutting, link_out, link_left};

use crate::levels::Levels;
use crate::world::Exceptions;

// A walk over links: how many it followed, and whose link led to the exception sought, if one did.
#[derive(Clone, Copy, Debug, PartialEq, Eq)]
pub struct Walk {
    pub followed: u16,
    pub cut: Option<u16>,
}

// Links `e` to the topmost exception, and gives the number of links followed from there.
pub fn contextualize_exception<X: Exceptions>(x: &mut X, levels: &Levels, e: u16) -> u16
    ensures told { result ≡ link_out X.limit levels.now e (X.world x.old) }
    ensures left { X.world x.new ≡ link_left X.limit levels.now e (X.world x.old) }
    ensures chains { Chains X.limit levels.now e (X.world x.old) (X.world x.new) result }
    ensures implicit { Implicit-chaining X.limit levels.now e (X.world x.old) (X.world x.new) }
{
    x.vouch();
    let Some(c) = levels.topmost() else {
        return 0;
    };
    if c == e || c >= X::how_many() || e >= X::how_many() {
        return 0;
    }
    let walk = follow(x, e, c);
    strike(x, walk.cut);
    x.set_context(e, Some(c));
    walk.followed
}

// Follows links from `c` until one leads to `e` or there are no more.
fn follow<X: Exceptions>(x: &X, e: u16, c: u16) -> Walk
    requires { c < X.limit }
    ensures { result ≡ walk_from (X.world x.now).links e X.limit c }
{
    x.vouch();
    // Kept: a chain of iterators would have to carry each exception with the one that its link leads to, and prove that it ends.
    let mut at = c;
    let mut followed = 0;
    while let Some(next) = x.context(at) {
        followed += 1;
        if next == e {
            return Walk {
                followed,
                cut: Some(at),
            };
        }
        at = next;
    }
    Walk {
        followed,
        cut: None,
    }
}

// Cuts the link of `k`, if there is one to cut.
fn strike<X: Exceptions>(x: &mut X, k: Option<u16>)
    requires { IfSome k (λ y. y < X.limit) }
    ensures { X.world x.new ≡ with_links (cutting (X.world x.old).links k) (X.world x.old) }
{
    x.vouch();
    if let Some(k) = k {
        x.set_context(k, None);
    }
}
