//! Shares, and the rows of outputs that are merged.

use super::one_file::one_file;
use item_names::Names;
use mine_model::{Item, NoMemory, Row};
use split_merge::{MergeFault, MergedRows, is_in_share, read_rows};
use std::alloc::Global;
use test_facts::first_false;

#[test]
fn a_rank_is_in_one_share(rt: HostRuntime) {
    let facts = [
        is_in_share(1, 1, 1),
        is_in_share(1, 2, 1),
        is_in_share(2, 2, 2),
        is_in_share(1, 2, 3),
        is_in_share(64, 64, 64),
        is_in_share(1, 64, 65),
        !is_in_share(2, 2, 1),
        !is_in_share(64, 64, 65),
        !is_in_share(1, 1, 0),
    ];
    assert_eq!(rt; first_false(&facts), None);
}

/// Reads one more file with this text, whose rows reach this threshold.
fn read_one(
    alloc: Global,
    text: &str,
    threshold: u64,
    names: &mut Names,
    held: &mut MergedRows,
) -> Result<Result<(), MergeFault>, NoMemory> {
    let mut files = one_file(alloc, text.as_bytes(), 3, &[])?;
    Ok(read_rows(alloc, &mut files, "f", threshold, names, held))
}

/// Whether the row with this number has these items and this support.
fn is_row(rows: &[Row], number: usize, items: &[Item], support: u64) -> bool {
    match rows.get(number) {
        Some(row) => row.pattern.items() == items && row.support == support,
        None => false,
    }
}

/// The first of these texts, each in a file of its own, that is refused, and why.
fn first_refused(
    alloc: Global,
    texts: &[&str],
    names: &mut Names,
    held: &mut MergedRows,
) -> Result<Option<(usize, MergeFault)>, NoMemory> {
    for (number, text) in texts.iter().enumerate() {
        if let Err(fault) = read_one(alloc, text, 1, names, held)? {
            return Ok(Some((number, fault)));
        }
    }
    Ok(None)
}

/// Of the rows of two files, which are held in their order: the first file is refused once it is held. The
/// number of the first wrong fact.
fn wrong_fact(alloc: Global) -> Result<Option<usize>, NoMemory> {
    let mut names = Names::new(alloc)?;
    let mut held = MergedRows::new(alloc);
    let first = "3\tb\n1\tb c\n1\tc\n";
    let texts = [first, "1\ta\n1\ta b", first];
    let refused = first_refused(alloc, &texts, &mut names, &mut held)?;
    let rows = held.into_rows()?;
    let facts = [
        refused == Some((2, MergeFault::BadRow { line: 1 })),
        rows.len() == 5,
        is_row(rows.as_slice(), 0, &[Item(0)], 3),
        is_row(rows.as_slice(), 1, &[Item(0), Item(1)], 1),
        is_row(rows.as_slice(), 4, &[Item(2), Item(0)], 1),
    ];
    Ok(first_false(&facts))
}

#[test]
fn rows_of_files_are_held_in_their_order(rt: HostRuntime) {
    assert_eq!(rt; wrong_fact(rt.alloc()), Ok(None));
}

/// Files, the threshold, and why they are refused.
const REFUSED: &[(&str, u64, Option<MergeFault>)] = &[
    ("", 1, None),
    ("0001\ta\r\n", 1, None),
    ("1000000000000000000\ta", 1, None),
    ("2\ta\n1\ta a\n", 1, None),
    ("1\ta\n1\ta b\n1\taa\n", 1, None),
    ("1 a", 1, Some(MergeFault::BadRow { line: 1 })),
    ("1\ta  b", 1, Some(MergeFault::BadRow { line: 1 })),
    ("0\ta", 1, Some(MergeFault::BadRow { line: 1 })),
    ("4\ta", 5, Some(MergeFault::BadRow { line: 1 })),
    ("1\ta\n2\tb\n", 1, Some(MergeFault::BadRow { line: 2 })),
    ("1\tb\n1\ta\n", 1, Some(MergeFault::BadRow { line: 2 })),
    ("02\ta\n2\ta\n", 1, Some(MergeFault::BadRow { line: 2 })),
    (
        "x\t\u{1}",
        1,
        Some(MergeFault::BadByte { line: 1, column: 3 }),
    ),
];

/// Why a file with this text is refused, or None.
fn refusal_of(alloc: Global, text: &str, threshold: u64) -> Result<Option<MergeFault>, NoMemory> {
    let mut names = Names::new(alloc)?;
    let mut held = MergedRows::new(alloc);
    Ok(read_one(alloc, text, threshold, &mut names, &mut held)?.err())
}

/// The first file that is refused otherwise.
fn first_misread(alloc: Global) -> Result<Option<&'static str>, NoMemory> {
    for (text, threshold, fault) in REFUSED {
        if refusal_of(alloc, text, *threshold)? != *fault {
            return Ok(Some(*text));
        }
    }
    Ok(None)
}

#[test]
fn rows_are_right_or_refused(rt: HostRuntime) {
    assert_eq!(rt; first_misread(rt.alloc()), Ok(None));
}
