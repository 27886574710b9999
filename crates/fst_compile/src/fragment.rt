ghost use Rattle.std.specs.Prelude.{◌≡◌, false, ◌++◌, ℕ, cond, ◌+◌, ◌^◌, ◌<◌, ◌≤◌, ◌&&◌, ◌||◌, ◌∷◌, [], length, IfOk, OnOk, Contains};
ghost use Rattle.fst_compile.specs.Rows.{Adds};

use super::rows::{States, link};
use mine_model::NoMemory;
use std::alloc::{AllocError, Global};

/// A part of an expression whose edges were added: how many states it has, whether it takes the empty piece,
/// and the states that come first and last.
#[derive(Drop)]
pub(crate) struct Fragment {
    pub(crate) size: u32,
    pub(crate) empty: bool,
    pub(crate) first: Vec<u32>,
    pub(crate) last: Vec<u32>,
}

impl Fragment {
    ghost use Rattle.fst_compile.specs.Fragments.{IsWithin, IsJoined, IsEither, IsBare, IsAlike};

    /// No state.
    pub(crate) fn bare(alloc: Global, empty: bool) -> Fragment
        ensures { IsBare empty result }
    {
        Fragment {
            size: 0,
            empty,
            first: Vec::new(alloc),
            last: Vec::new(alloc),
        }
    }

    /// One state.
    pub(crate) fn state(alloc: Global, at: u32) -> Result<Fragment, AllocError>
        ensures { IfOk result (λ f. (f.size ≡ 1) × (f.empty ≡ false)
            × (f.first.items ≡ at ∷ []) × (f.last.items ≡ at ∷ [])) }
    {
        Ok(Fragment {
            size: 1,
            empty: false,
            first: vec![in alloc; at]?,
            last: vec![in alloc; at]?,
        })
    }

    /// This, and then the other.
    pub(crate) fn and_then(self, rows: &mut [States], back: Fragment) -> Result<Fragment, NoMemory>
        requires size { self.size + back.size < 2 ^ 32 }
        requires front { IsWithin (length rows.old) self }
        requires back { IsWithin 1088 back }
        ensures fragment { IfOk result (IsJoined self back (self.empty && back.empty)) }
        ensures edges { OnOk result (Adds rows.old rows.new
            (λ j k. Contains self.last.items j × Contains back.first.items k)) }
    {
        let Fragment {
            size,
            empty,
            mut first,
            last,
        } = self;
        link(rows, last.as_slice(), back.first.as_slice());
        if empty {
            first.extend_from_slice(back.first.as_slice())?;
        }
        Ok(Fragment {
            size: size + back.size,
            empty: empty && back.empty,
            first,
            last: last_of_both(last, back.last, back.empty)?,
        })
    }

    /// This or the other.
    pub(crate) fn or(self, other: Fragment) -> Result<Fragment, NoMemory>
        requires { self.size + other.size < 2 ^ 32 }
        ensures { IfOk result (IsEither self other) }
    {
        let Fragment {
            size,
            empty,
            mut first,
            mut last,
        } = self;
        first.extend_from_slice(other.first.as_slice())?;
        last.extend_from_slice(other.last.as_slice())?;
        Ok(Fragment {
            size: size + other.size,
            empty: empty || other.empty,
            first,
            last,
        })
    }
}

// The states that come last in one part behind another.
fn last_of_both(
    mut front: Vec<u32>,
    back: Vec<u32>,
    back_empty: bool,
) -> Result<Vec<u32>, AllocError>
    ensures { IfOk result (λ last. last.items ≡ cond back_empty (front.items ++ back.items) back.items) }
{
    if !back_empty {
        return Ok(back);
    }
    front.extend_from_slice(back.as_slice())?;
    Ok(front)
}
