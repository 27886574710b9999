//! Made input and its summary.

use made_input::{Made, make, summary};
use mine_model::{Item, NoMemory, Pattern, Row};
use std::alloc::Global;
use test_facts::first_false;

/// The number of the first wrong fact of the input of one sequence.
fn wrong_fact(made: &Made) -> Option<usize> {
    let facts = [
        made.names.count() == 111,
        made.names.find(b"w99") == Some(Item(99)),
        made.names.find(b"c0") == Some(Item(100)),
        made.names.find(b"top") == Some(Item(110)),
        made.db.sequences() == 1 && made.db.weight(0) == 1,
    ];
    first_false(&facts)
}

fn wrong_fact_of_one(alloc: Global) -> Result<Option<usize>, NoMemory> {
    let made = make(alloc, 1)?;
    Ok(wrong_fact(&made))
}

#[test]
fn makes_words_below_their_classes(rt: HostRuntime) {
    assert_eq!(rt; wrong_fact_of_one(rt.alloc()), Ok(None));
}

fn row_of(alloc: Global, items: &[Item]) -> Result<Row, NoMemory> {
    Ok(Row {
        pattern: Pattern::new(Vec::from_slice(alloc, items)?),
        support: 18_446_744_073_709_551_615,
    })
}

/// Whether no row has the first of these summaries, and a row of one item and a row of three the second.
fn first_mistold(alloc: Global, none: &str, two: &str) -> Result<Option<usize>, NoMemory> {
    let rows = [
        row_of(alloc, &[Item(0)])?,
        row_of(alloc, &[Item(0), Item(1), Item(0)])?,
    ];
    let facts = [
        summary(5, &[]).as_str() == none,
        summary(1, &rows).as_str() == two,
    ];
    Ok(first_false(&facts))
}

#[test]
fn tells_rows_supports_and_the_longest(rt: HostRuntime) {
    let none = "generated 5 patterns 0 support 0 longest 0\n";
    let two = "generated 1 patterns 2 support 36893488147419103230 longest 3\n";
    assert_eq!(rt; first_mistold(rt.alloc(), none, two), Ok(None));
}
