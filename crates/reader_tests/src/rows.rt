//! The order of an answer's rows, and their text.

ghost use Rattle.std.specs.Prelude.{◌≢◌, ℕ, ◌<◌, length, slice_index_or, IsTrue, All, AllPairs};
ghost use Rattle.mine_model.specs.declared.row.Row.{Row};
ghost use Rattle.mine_model.specs.Names.{HasName};

use item_names::Names;
use mine_model::{Item, NoMemory, Pattern, Row};
use pattern_writer::{order, write};
use std::alloc::Global;
use test_facts::first_false;
use text_ports::MemSink;

fn have_names(items: &[Item], names: &Names) -> bool
    ensures { IsTrue result → All (HasName names.now) items.now }
{
    for item in items {
        if item.0 >= names.count() {
            return false;
        }
    }
    true
}

fn are_named(rows: &[Row], names: &Names) -> bool
    ensures { IsTrue result → All (λ row. All (HasName names.now) row.pattern) rows.now }
{
    for row in rows {
        if !have_names(row.pattern.items(), names) {
            return false;
        }
    }
    true
}

// No earlier row has the pattern of this one.
fn is_new(rows: &[Row], at: usize) -> bool
    requires { at < length rows.now }
    ensures { IsTrue result → (k : ℕ) (d : Row) → k < at
        → (slice_index_or rows.now k d).pattern ≢ (slice_index_or rows.now at d).pattern }
{
    for k in 0..at {
        if rows[k].pattern.items() == rows[at].pattern.items() {
            return false;
        }
    }
    true
}

fn differ(rows: &[Row]) -> bool
    ensures { IsTrue result → AllPairs (λ first second. first.pattern ≢ second.pattern) rows.now }
{
    for at in 0..rows.len() {
        if !is_new(rows, at) {
            return false;
        }
    }
    true
}

fn row_of(alloc: Global, numbers: &[u32], support: u64) -> Result<Row, NoMemory> {
    let mut items = Vec::new(alloc);
    for number in numbers {
        items.push(Item(*number))?;
    }
    Ok(Row {
        pattern: Pattern::new(items),
        support,
    })
}

fn rows_of(alloc: Global, rows: &[(&[u32], u64)]) -> Result<Vec<Row>, NoMemory> {
    let mut all = Vec::new(alloc);
    for (numbers, support) in rows {
        all.push(row_of(alloc, numbers, *support)?)?;
    }
    Ok(all)
}

/// So many rows of ten bytes, of the first name.
fn many_rows(alloc: Global, count: u32) -> Result<Vec<Row>, NoMemory> {
    let mut all = Vec::new(alloc);
    for _ in 0..count {
        all.push(row_of(alloc, &[0], 1_234_567)?)?;
    }
    Ok(all)
}

fn names_of(alloc: Global, words: &[&str]) -> Result<Names, NoMemory> {
    let mut names = Names::new(alloc)?;
    for word in words {
        if names.intern(word.as_bytes()).is_err() {
            return Err(NoMemory);
        }
    }
    Ok(names)
}

/// Names, rows by the numbers of their names, each with its support, and their text in order.
const ANSWERS: &[(&[&str], &[(&[u32], u64)], &str)] = &[
    (
        &["b", "a1", "A"],
        &[(&[1, 1, 0], 2), (&[1, 0], 3), (&[1, 2, 0], 2)],
        "3\ta1 b\n2\ta1 A b\n2\ta1 a1 b\n",
    ),
    (
        &["a", "b"],
        &[(&[0, 1], 2), (&[0], 2), (&[1], u64::MAX)],
        "18446744073709551615\tb\n2\ta\n2\ta b\n",
    ),
];

/// Orders the rows, where they differ and their items have names, which they have afterwards.
fn are_ordered(rows: &mut [Row], names: &Names) -> bool
    ensures { IsTrue result → All (λ row. All (HasName names.now) row.pattern) rows.new }
{
    if differ(rows) && are_named(rows, names) {
        order(rows, names);
    }
    are_named(rows, names)
}

/// Whether the rows are written in order as this text.
fn are_written(rows: &mut [Row], names: &Names, sink: &mut MemSink, text: &str) -> bool {
    are_ordered(rows, names)
        && write(rows, names, sink, &mut [0; 32]).is_ok()
        && sink.bytes() == text.as_bytes()
}

fn is_answer(
    alloc: Global,
    words: &[&str],
    rows: &[(&[u32], u64)],
    text: &str,
) -> Result<bool, NoMemory> {
    let names = names_of(alloc, words)?;
    let mut rows = rows_of(alloc, rows)?;
    let mut sink = MemSink::new(alloc, 64, 1, Vec::new(alloc))?;
    Ok(are_written(rows.as_mut_slice(), &names, &mut sink, text))
}

/// The number of the first answer that is written otherwise.
fn first_other(alloc: Global) -> Result<Option<usize>, NoMemory> {
    for (number, (words, rows, text)) in ANSWERS.iter().enumerate() {
        if !is_answer(alloc, words, rows, text)? {
            return Ok(Some(number));
        }
    }
    Ok(None)
}

#[test]
fn rows_are_written_in_order(rt: HostRuntime) {
    assert_eq!(rt; first_other(rt.alloc()), Ok(None));
}

/// Whether the rows of an `a` are written whole through the room to a sink whose second call fails, and how
/// much is. None where one has no name, or there is too little room.
fn by_one_call(
    alloc: Global,
    rows: &[Row],
    room: &mut [u8],
) -> Result<Option<(bool, usize)>, NoMemory> {
    let names = names_of(alloc, &["a"])?;
    let mut sink = MemSink::new(alloc, 65_536, 65_536, vec![in alloc; 2]?)?;
    Ok(written(rows, &names, &mut sink, room))
}

fn written(
    rows: &[Row],
    names: &Names,
    sink: &mut MemSink,
    room: &mut [u8],
) -> Option<(bool, usize)> {
    if !are_named(rows, names) || room.len() < 32 {
        return None;
    }
    let is_whole = write(rows, names, sink, room).is_ok();
    Some((is_whole, sink.bytes().len()))
}

/// The number of the first room through which the rows of an `a` are written otherwise.
fn first_other_room(alloc: Global) -> Result<Option<usize>, NoMemory> {
    let rows = many_rows(alloc, 6_000)?;
    let mut room = Vec::from_elem(alloc, 0, 65_536)?;
    let in_one = by_one_call(alloc, rows.as_slice(), room.as_mut_slice())?;
    let in_pieces = by_one_call(alloc, rows.as_slice(), &mut [0; 32])?;
    let facts = [
        in_one == Some((true, 60_000)),
        in_pieces == Some((false, 32)),
    ];
    Ok(first_false(&facts))
}

// 60,000 bytes are one write of a room of 65,536, and pieces of 32 of a room of 32.
#[test]
fn a_full_room_is_one_write(rt: HostRuntime) {
    assert_eq!(rt; first_other_room(rt.alloc()), Ok(None));
}
