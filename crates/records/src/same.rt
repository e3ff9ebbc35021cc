//! Elements told apart, for looking one up, and those that `==` tells apart.
ghost use Rattle.std.specs.Prelude.{◌≡◌, Decides};
ghost use Rattle.std.proofs.Common.{rules};

use crate::buffer::Iovec;
use crate::id::{FileId, Id, WaiterId};

/// An element that can be told from every other.
// Not `Eq`: an element's own `==` may read less of it, or there may be none.
pub trait Same: Copy {
    fn same(self, other: Self) -> bool
        ensures { Decides result (self ≡ other) };
}

/// Equal is identical: `==` reads the whole element.
pub trait Exact: Same + Eq {
    ghost identical: { (x y : Self) → Decides (Self.eq x y) (x ≡ y) };
}

impl Same for Id {
    fn same(self, other: Id) -> bool {
        self == other
    }
}

impl Exact for Id {
    ghost identical = { Prim.search rules };
}

impl Same for WaiterId {
    fn same(self, other: WaiterId) -> bool {
        self == other
    }
}

impl Exact for WaiterId {
    ghost identical = { Prim.search rules };
}

impl Same for FileId {
    fn same(self, other: FileId) -> bool {
        self == other
    }
}

impl Exact for FileId {
    ghost identical = { Prim.search rules };
}

impl Same for Iovec {
    fn same(self, other: Iovec) -> bool {
        self == other
    }
}

impl Exact for Iovec {
    ghost identical = { Prim.search rules };
}
