//! Stands of many prefixes in one run.

ghost use Rattle.std.specs.Prelude.{◌≡◌, ◌≤◌, ◌<◌, Bool, true, false, IsTrue, [], length, slice_range, slice_set, All, IfOk, OnOk, OnErr};
ghost use Rattle.place_walk.specs.Codes.{Fits};
ghost use Rattle.stand_sums.specs.Runs.{HavePlaces};

use mine_model::NoMemory;
use place_walk::{Stand, Stands, Visit, code_of, fits};
use std::alloc::Global;
use std::marker::Model;

/// The stands of many prefixes, of which each has its own piece. Each takes four bytes where all fit into so
/// many, and eight else.
pub struct Run {
    narrow: bool,
    codes: Vec<u32>,
    rest: Vec<Stand>,
}

// Written out, so that it is let go of by a call, and not part by part wherever one is.
impl Drop for Run {
    fn drop(self) {
        let Run {
            narrow: _,
            codes: _,
            rest: _,
        } = self;
    }
}

impl Model for Run {
    ghost use Rattle.std.specs.Prelude.{◌++◌, map};
    ghost use Rattle.place_walk.specs.Codes.{stand_of};
    ghost use Rattle.stand_sums.specs.Runs.{RunValue, IsRun};

    ghost Value = { RunValue };

    ghost view = { λ r. record {
      narrow = r.narrow;
      stands = map stand_of r.codes.items ++ r.rest.items;
    } };

    ghost invariant = { λ r. IsRun r.narrow r.codes.items r.rest.items };
}

impl Run {
    /// No stands.
    pub fn new(alloc: Global) -> Run
        ensures { result ≡ record { narrow = true; stands = [] } }
    {
        Run {
            narrow: true,
            codes: Vec::new(alloc),
            rest: Vec::new(alloc),
        }
    }

    /// These stands.
    pub fn of(alloc: Global, rest: Vec<Stand>) -> Run
        ensures { result ≡ record { narrow = false; stands = rest.items } }
    {
        Run {
            narrow: false,
            codes: Vec::new(alloc),
            rest,
        }
    }

    /// So many stands, of four bytes each or of eight.
    pub(crate) fn with_places(alloc: Global, count: usize, narrow: bool) -> Result<Run, NoMemory>
        ensures { IfOk result (λ run. length run.stands ≡ count) }
    {
        if narrow {
            Run::of_codes(alloc, vec![in alloc; 0u32; count]?)
        } else {
            Ok(Run::of(alloc, vec![in alloc; NOWHERE; count]?))
        }
    }

    // The stands of these codes.
    fn of_codes(alloc: Global, codes: Vec<u32>) -> Result<Run, NoMemory>
        ensures { IfOk result (λ run. length run.stands ≡ length codes.items) }
    {
        Ok(Run {
            narrow: true,
            codes,
            rest: Vec::new(alloc),
        })
    }

    /// How many stands there are.
    #[inline]
    pub(crate) fn len(&self) -> usize
        ensures { result ≡ length self.now.stands }
    {
        self.codes.len() + self.rest.len()
    }

    /// Whether each stand takes four bytes.
    pub fn is_narrow(&self) -> bool
        ensures { result ≡ self.now.narrow }
    {
        self.narrow
    }

    /// Has the stand at the index.
    #[inline]
    pub(crate) fn set(&mut self, index: usize, stand: Stand)
        requires within { index < length self.old.stands }
        requires fits { IsTrue self.old.narrow → Fits stand.place stand.state }
        ensures { self.new ≡ record {
          narrow = self.old.narrow;
          stands = slice_set self.old.stands index stand;
        } }
    {
        if self.narrow {
            self.codes[index] = code_of(stand);
        } else {
            self.rest[index] = stand;
        }
    }

    /// Each stand takes eight bytes from here on. Without memory nothing changes.
    pub(crate) fn widen(&mut self, alloc: Global) -> Result<(), NoMemory>
        ensures wide { OnOk result (self.new ≡ record { narrow = false; stands = self.old.stands }) }
        ensures same { OnErr result (self.new ≡ self.old) }
    {
        let rest = self.plain(alloc)?;
        self.codes = Vec::new(alloc);
        self.rest = rest;
        self.narrow = false;
        Ok(())
    }

    // The stands in eight bytes each.
    fn plain(&self, alloc: Global) -> Result<Vec<Stand>, NoMemory>
        ensures { IfOk result (λ rest. rest.items ≡ self.now.stands) }
    {
        let stands = self.stands();
        let mut rest = Vec::with_capacity(alloc, stands.len())?;
        for index in 0..stands.len() {
            rest.push(stands.get(index))?;
        }
        Ok(rest)
    }

    /// All stands.
    pub fn stands(&self) -> Stands<'_>
        ensures { result ≡ self.now.stands }
    {
        Stands::new(self.codes.as_slice(), self.rest.as_slice())
    }

    /// Those from one index to before the other.
    pub fn piece(&self, from: usize, to: usize) -> Stands<'_>
        requires ordered { from ≤ to }
        requires within { to ≤ length self.now.stands }
        ensures { result ≡ slice_range self.now.stands from to }
    {
        self.stands().piece(from, to)
    }
}

/// Whether a stand behind each of the visits fits into four bytes.
pub(crate) fn all_fit(visits: &[Visit]) -> bool
    ensures { IsTrue result → HavePlaces true visits.now }
{
    for visit in visits {
        if !fits(visit.place, visit.action.state) {
            return false;
        }
    }
    true
}

// What stands at a place where none was filed.
const NOWHERE: Stand = Stand {
    place: 0,
    state: 0,
    first: false,
};
