//! The order of rows.

ghost use Rattle.std.specs.Prelude.{◌≡◌, ◌↔◌, map, IsTrue};
ghost use Rattle.std.specs.Cmp.Lexicographic.{slice_cmp};
ghost use Rattle.std.specs.Ordering.{nat_cmp};
ghost use Rattle.mine_model.specs.Answer.{ComesBefore};
ghost use Rattle.mine_model.specs.Names.{name_of, named_row};

use item_names::Names;
use mine_model::{Item, Row};
use std::cmp::Ordering;

/// Whether the first row comes before the second in an answer.
pub(crate) fn comes_before(names: &Names, first: &Row, second: &Row) -> bool
    ensures { IsTrue result
        ↔ ComesBefore (named_row names.now first.now) (named_row names.now second.now) }
{
    if first.support == second.support {
        compare(names, first.pattern.items(), second.pattern.items()) == Ordering::Less
    } else {
        second.support < first.support
    }
}

/// The order of the names, item by item in byte order, a proper prefix first.
fn compare(names: &Names, first: &[Item], second: &[Item]) -> Ordering
    ensures { result ≡ slice_cmp (slice_cmp nat_cmp) (map (name_of names.now) first.now)
        (map (name_of names.now) second.now) }
{
    let first = first.iter().map(|item| name(names, *item));
    let second = second.iter().map(|item| name(names, *item));
    first.cmp(second)
}

/// The name of an item, which is empty where it has none.
fn name(names: &Names, item: Item) -> &[u8]
    ensures { result.now ≡ name_of names.now item }
{
    if item.0 < names.count() {
        names.text(item)
    } else {
        &[]
    }
}
