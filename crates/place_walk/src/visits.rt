//! A worker's room for visits.

ghost use Rattle.std.specs.Prelude.{◌≡◌, []};

use super::visit::Visit;
use std::alloc::Global;
use std::marker::Model;

/// A list of visits, filled anew by each walk. A contract sees the list.
#[derive(Drop)]
pub struct Visits {
    pub(crate) list: Vec<Visit>,
    // What was read early, folded to one number that is kept, so that the reads are not left out.
    pub(crate) touched: u32,
}

impl Model for Visits {
    ghost use Rattle.std.specs.Prelude.{List};
    ghost use Rattle.place_walk.specs.declared.visit.Visit.{Visit};

    ghost Value = { List Visit };

    ghost view = { λ v. v.list.items };
}

impl Visits {
    /// No visits.
    pub fn new(alloc: Global) -> Visits
        ensures { result ≡ [] }
    {
        Visits {
            list: Vec::new(alloc),
            touched: 0,
        }
    }

    /// The visits.
    #[inline]
    pub fn as_slice(&self) -> &[Visit]
        ensures { result.now ≡ self.now }
    {
        self.list.as_slice()
    }
}
