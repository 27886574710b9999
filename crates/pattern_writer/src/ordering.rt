//! The order of an answer's rows.

ghost use Rattle.std.specs.Prelude.{◌≡◌, ◌≢◌, ◌≤◌, length, map, take, All, AllPairs, IsPermutation};
ghost use Rattle.mine_model.specs.Answer.{Rises};
ghost use Rattle.mine_model.specs.Names.{name_of, HasName, named_row};
ghost use Rattle.pattern_writer.specs.Order.{names_cmp, row_cmp};

use item_names::Names;
use mine_model::{Item, Row};
use std::cmp::Ordering;

/// Brings rows into the order of an answer, in place: by falling support, and at the same support by names,
/// item by item in byte order, a proper prefix first. Takes no memory.
pub fn order(rows: &mut [Row], names: &Names)
    requires different { AllPairs (λ first second. first.pattern ≢ second.pattern) rows.old }
    requires named { All (λ row. All (HasName names.now) row.pattern) rows.old }
    ensures same_rows { IsPermutation rows.old rows.new }
    ensures rises { Rises (map (named_row names.now) rows.new) }
{
    rows.sort_unstable_by(|first, second| compare(names, first, second));
    // Names differ, so no two of the rows have the same names.
    let _count = names.count();
}

fn compare(names: &Names, first: &Row, second: &Row) -> Ordering
    ensures { result ≡ row_cmp (named_row names.now first.now) (named_row names.now second.now) }
{
    let by_support = second.support.cmp(&first.support);
    by_support.then_with(|| compare_names(names, first.pattern.items(), second.pattern.items()))
}

// The same numbers have the same names, so names are looked at only behind them.
fn compare_names(names: &Names, first: &[Item], second: &[Item]) -> Ordering
    ensures { result ≡ names_cmp (map (name_of names.now) first.now) (map (name_of names.now) second.now) }
{
    let same = count_same(first, second);
    let first = first[same..].iter().map(|item| name(names, *item));
    let second = second[same..].iter().map(|item| name(names, *item));
    first.cmp(second)
}

// How many items both begin with.
fn count_same(first: &[Item], second: &[Item]) -> usize
    ensures in_first { result ≤ length first.now }
    ensures in_second { result ≤ length second.now }
    ensures same { take result first.now ≡ take result second.now }
{
    let mut same = 0;
    while same < first.len() && same < second.len() && first[same] == second[same] {
        same += 1;
    }
    same
}

// A comparison must serve at any rows, so an item with no name has the empty one.
fn name(names: &Names, item: Item) -> &[u8]
    ensures { result.now ≡ name_of names.now item }
{
    if item.0 < names.count() {
        names.text(item)
    } else {
        &[]
    }
}
