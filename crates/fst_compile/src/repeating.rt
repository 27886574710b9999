//! The copies of a repetition.

ghost use Rattle.std.specs.Prelude.{◌≡◌, ℕ, ◌+◌, ◌^◌, ◌<◌, ◌≤◌, ◌||◌, nat_eq, length, IfOk, OnOk};
ghost use Rattle.mine_model.specs.Expression.{unfolded_times};
ghost use Rattle.fst_compile.specs.Fragments.{IsWithin, IsCopyAdded, AddsCopy, empty_of_copies, IsAlike, is_enough as enough_of};

use super::fragment::Fragment;
use super::rows::{States, link};
use mine_model::NoMemory;

/// How often a repetition is written out.
pub(crate) fn times(least: u32, most: Option<u32>) -> u32
    ensures { result ≡ unfolded_times least most }
{
    match most {
        None => least.max(1),
        Some(most) => most,
    }
}

/// Whether the upper bound of a repetition is not below the lower one.
pub(crate) fn is_enough(least: u32, most: Option<u32>) -> bool
    ensures { result ≡ enough_of least most }
{
    match most {
        None => true,
        Some(most) => least <= most,
    }
}

/// A repetition of what has no state, in at least one copy: it takes the empty piece or nothing.
pub(crate) fn repeat_bare(inner: Fragment, least: u32, most: Option<u32>) -> Fragment
    ensures { IsAlike inner (empty_of_copies least most inner.empty) result }
{
    let empty = is_enough(least, most) && (least == 0 || inner.empty);
    Fragment { empty, ..inner }
}

/// The copy of this index, and behind it the others.
pub(crate) fn add_copy(
    rows: &mut [States],
    copy: Fragment,
    rest: Fragment,
    least: u32,
    most: Option<u32>,
    index: u32,
) -> Result<Fragment, NoMemory>
    requires size { copy.size + rest.size < 2 ^ 32 }
    requires many { length rows.old ≤ 1088 }
    requires copy { IsWithin (length rows.old) copy }
    requires rest { IsWithin (length rows.old) rest }
    requires index { index < unfolded_times least most }
    ensures fragment { IfOk result (IsCopyAdded least most index copy rest) }
    ensures edges { OnOk result (AddsCopy least most index copy rest rows.old rows.new) }
{
    match most {
        None => {
            if index + 1 < least {
                return copy.and_then(rows, rest);
            }
            link(rows, copy.last.as_slice(), copy.first.as_slice());
            let empty = copy.empty || least == 0;
            Ok(Fragment { empty, ..copy })
        }
        Some(_) => {
            let both = copy.and_then(rows, rest)?;
            let empty = both.empty || index >= least;
            Ok(Fragment { empty, ..both })
        }
    }
}
