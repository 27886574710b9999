//! Names and their numbers.

use item_names::{Names, NamesFault};
use mine_model::{Item, NoMemory};
use std::alloc::{AllocError, Global};
use test_facts::first_false;
use text_ports::Span;

/// Whether the numbers of these names are theirs.
fn are_numbered(names: &mut Names, wanted: &[(&[u8], u32)]) -> bool {
    for (name, number) in wanted {
        if names.intern(name) != Ok(Item(*number)) {
            return false;
        }
    }
    true
}

/// Whether the item with this number has this name.
fn is_text(names: &Names, number: u32, text: &[u8]) -> bool {
    number < names.count() && names.text(Item(number)) == text
}

/// The number of the first wrong fact of names that are new.
fn wrong_fact(names: &mut Names) -> Option<usize> {
    let facts = [
        are_numbered(names, &[(b"x", 0), (b"y", 1), (b"x", 0), (b"", 2)]),
        names.find(b"y") == Some(Item(1)),
        names.find(b"z") == None,
        names.count() == 3,
        is_text(names, 1, b"y"),
        is_text(names, 2, b""),
    ];
    first_false(&facts)
}

fn wrong_fact_of_new(alloc: Global) -> Result<Option<usize>, NoMemory> {
    let mut names = Names::new(alloc)?;
    Ok(wrong_fact(&mut names))
}

#[test]
fn a_name_keeps_its_number(rt: HostRuntime) {
    assert_eq!(rt; wrong_fact_of_new(rt.alloc()), Ok(None));
}

/// The first number whose bytes are not given it as a name, of so many, behind which there is room for no
/// more.
fn first_other(names: &mut Names, count: u32) -> Option<usize> {
    for number in 0..count {
        if names.intern(&number.to_le_bytes()) != Ok(Item(number)) {
            return Some(number as usize);
        }
    }
    if names.intern(b"one more") != Err(NamesFault::TooMany) || names.count() != count {
        return Some(count as usize);
    }
    None
}

fn first_other_of_new(alloc: Global, count: u32) -> Result<Option<usize>, NoMemory> {
    let mut names = Names::new(alloc)?;
    Ok(first_other(&mut names, count))
}

#[test]
fn holds_as_many_names_as_it_says(rt: HostRuntime) {
    assert_eq!(rt; first_other_of_new(rt.alloc(), 1_048_576), Ok(None));
}

/// The numbers below 10,000 that make, with an `n` before them, names whose searches all begin at one slot,
/// in a table of up to 256 slots: the mixed numbers of their keys end in the byte 7.
const CROWD: &[u32] = &[
    173, 295, 606, 728, 900, 1695, 1829, 1982, 2231, 2286, 2573, 2860, 3164, 3451, 3757, 3793,
    4042, 4097, 4348, 4635, 4922, 4977, 5226, 5513, 5568, 5800, 5819, 5855, 6104, 6159, 7190, 7783,
    8087, 8374, 8661, 9252, 9594, 9845,
];

/// The name of the crowd with this number, counted from 0.
fn of_crowd(alloc: Global, number: u32) -> Result<String, AllocError> {
    let number = CROWD.get(number as usize).copied().unwrap_or(0);
    format!(in alloc; "n{number}")
}

/// Whether the name is new, and then gets this number.
fn is_given(names: &mut Names, name: &str, number: u32) -> bool {
    names.find(name.as_bytes()) == None && names.intern(name.as_bytes()) == Ok(Item(number))
}

/// The first number of the crowd that its name is not given.
fn first_misgiven(alloc: Global, names: &mut Names) -> Result<Option<usize>, NoMemory> {
    for number in 0..38u32 {
        if !is_given(names, of_crowd(alloc, number)?.as_str(), number) {
            return Ok(Some(number as usize));
        }
    }
    Ok(None)
}

/// The first number of the crowd by which its name is not found, and 38 more; twice 38 where the front of all
/// names is found.
fn first_misfound(alloc: Global, names: &Names) -> Result<Option<usize>, NoMemory> {
    for number in 0..38u32 {
        if names.find(of_crowd(alloc, number)?.as_bytes()) != Some(Item(number)) {
            return Ok(Some(38 + number as usize));
        }
    }
    Ok((names.find(b"n") != None).then_some(76))
}

/// The first of these numbers, of names that are given and then found.
fn first_mixed_up(alloc: Global) -> Result<Option<usize>, NoMemory> {
    let mut names = Names::new(alloc)?;
    let misgiven = first_misgiven(alloc, &mut names)?;
    let misfound = first_misfound(alloc, &names)?;
    Ok(misgiven.or(misfound))
}

#[test]
fn names_that_begin_at_one_slot_are_told_apart(rt: HostRuntime) {
    assert_eq!(rt; first_mixed_up(rt.alloc()), Ok(None));
}

// Fields of 16 bytes, of one, of 17, and the first again.
const FIELDS: &[Span] = &[
    Span { from: 0, to: 16 },
    Span { from: 17, to: 18 },
    Span { from: 19, to: 36 },
    Span { from: 37, to: 53 },
];

/// The fields get the numbers 0, 1, 2 and 0. The number of the first wrong fact.
fn wrong_fact_of_fields(names: &mut Names, items: &mut Vec<Item>) -> Option<usize> {
    let text = b"0123456789abcdef x 0123456789abcdefg 0123456789abcdef";
    let wanted = [Item(0), Item(1), Item(2), Item(0)];
    let facts = [
        names.intern_fields(text, FIELDS, items).is_ok(),
        items.as_slice() == wanted.as_slice(),
        names.count() == 3,
    ];
    first_false(&facts)
}

fn wrong_fact_of_new_fields(alloc: Global) -> Result<Option<usize>, NoMemory> {
    let mut names = Names::new(alloc)?;
    Ok(wrong_fact_of_fields(&mut names, &mut Vec::new(alloc)))
}

#[test]
fn fields_get_numbers_in_their_order(rt: HostRuntime) {
    assert_eq!(rt; wrong_fact_of_new_fields(rt.alloc()), Ok(None));
}
