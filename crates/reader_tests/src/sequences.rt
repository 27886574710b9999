//! Sequences of files: their items and weights, what is refused, and the limits.

ghost use Rattle.std.specs.Prelude.{◌<◌};

use super::one_file::one_file;
use item_names::Names;
use mine_model::{Db, Item, NoMemory};
use sequence_reader::SequenceFault::{
    BadByte, BadWeight, TooLarge, TooLong, TooManyItems, TooManySequences,
};
use sequence_reader::{SequenceFault, read};
use std::alloc::{AllocError, Global};
use std::thread::Threads;
use test_facts::first_false;

/// The sequences of a file with these bytes, or why there are none. The call with this number fails.
fn sequences_of<R: Threads + Sync>(
    rt: &R,
    alloc: Global,
    bytes: &[u8],
    weighted: bool,
    cut: usize,
    fail: u64,
    names: &mut Names,
) -> Result<Result<Db, SequenceFault>, AllocError>
    requires { 0 < cut }
{
    let mut files = one_file(alloc, bytes, cut, &[fail])?;
    Ok(read(rt, 1, alloc, &mut files, "f", weighted, names))
}

/// Weights and sequences.
type Lines<'a> = &'a [(u64, &'a [Item])];

/// Whether these are the sequences, with their weights.
fn are_lines(db: &Db, lines: Lines) -> bool {
    let mut number = 0;
    for (weight, items) in lines {
        if number >= db.sequences() {
            return false;
        }
        if db.weight(number) != *weight || db.sequence(number) != *items {
            return false;
        }
        number += 1;
    }
    number == db.sequences()
}

fn hold(found: &Result<Db, SequenceFault>, lines: Lines) -> bool {
    match found {
        Ok(db) => are_lines(db, lines),
        Err(_) => false,
    }
}

/// Whether a file with this text has these sequences, and there are so many names with `top`, which is the
/// first.
fn reads_as<R: Threads + Sync>(
    rt: &R,
    alloc: Global,
    text: &str,
    weighted: bool,
    lines: Lines,
    count: u32,
) -> Result<bool, NoMemory> {
    let mut names = Names::new(alloc)?;
    let is_first = names.intern(b"top").is_ok();
    let found = sequences_of(rt, alloc, text.as_bytes(), weighted, 2, 0, &mut names)?;
    Ok(is_first && hold(&found, lines) && names.count() == count)
}

/// A file, whether its lines have weights, its sequences, and how many names there are with `top`.
const READ: &[(&str, bool, Lines, u32)] = &[
    (
        "b a b\n\n3 top\r\nc",
        false,
        &[
            (1, &[Item(1), Item(2), Item(1)]),
            (1, &[]),
            (1, &[Item(3), Item(0)]),
            (1, &[Item(4)]),
        ],
        5,
    ),
    (
        "7\n002 a\n 1000000000 a 2\n",
        true,
        &[
            (7, &[]),
            (2, &[Item(1)]),
            (1_000_000_000, &[Item(1), Item(2)]),
        ],
        3,
    ),
];

/// The first file that reads otherwise.
fn first_misread<R: Threads + Sync>(
    rt: &R,
    alloc: Global,
) -> Result<Option<&'static str>, NoMemory> {
    for (text, weighted, lines, count) in READ {
        if !reads_as(rt, alloc, text, *weighted, lines, *count)? {
            return Ok(Some(*text));
        }
    }
    Ok(None)
}

// Weights are no names.
#[test]
fn sequences_by_the_numbers_of_their_names(rt: HostRuntime) {
    assert_eq!(rt; first_misread(&rt, rt.alloc()), Ok(None));
}

/// Why a file with these bytes is refused, or None.
fn refusal<R: Threads + Sync>(
    rt: &R,
    alloc: Global,
    bytes: &[u8],
    weighted: bool,
    cut: usize,
    fail: u64,
) -> Result<Option<SequenceFault>, NoMemory>
    requires { 0 < cut }
{
    let mut names = Names::new(alloc)?;
    Ok(sequences_of(rt, alloc, bytes, weighted, cut, fail, &mut names)?.err())
}

/// Lines, whether they have weights, and why they are refused.
const REFUSED: &[(&str, bool, Option<SequenceFault>)] = &[
    ("0 a", true, Some(BadWeight { line: 1, column: 1 })),
    (
        " 1000000001 a",
        true,
        Some(BadWeight { line: 1, column: 2 }),
    ),
    ("1 a\n\n", true, Some(BadWeight { line: 2, column: 1 })),
    ("1 a\na 1", true, Some(BadWeight { line: 2, column: 1 })),
    (
        "18446744073709551617 a",
        true,
        Some(BadWeight { line: 1, column: 1 }),
    ),
    ("1\nb\n\x02", true, Some(BadWeight { line: 2, column: 1 })),
    ("00000000000000000000000001 a", true, None),
    ("x a \x01\n", true, Some(BadByte { line: 1, column: 5 })),
    (
        "a\n\u{FEFF}\x7F",
        false,
        Some(BadByte { line: 2, column: 4 }),
    ),
    ("a\r\r\n", false, Some(BadByte { line: 1, column: 2 })),
];

/// The first lines that are refused otherwise.
fn first_misjudged<R: Threads + Sync>(
    rt: &R,
    alloc: Global,
) -> Result<Option<&'static str>, NoMemory> {
    for (text, weighted, fault) in REFUSED {
        if refusal(rt, alloc, text.as_bytes(), *weighted, 2, 0)? != *fault {
            return Ok(Some(*text));
        }
    }
    Ok(None)
}

#[test]
fn bad_weights_and_bytes(rt: HostRuntime) {
    assert_eq!(rt; first_misjudged(&rt, rt.alloc()), Ok(None));
}

// A call opens the file, one reads it, and one finds its end.
const CALLS: [(u64, Option<SequenceFault>); 4] = [
    (1, Some(SequenceFault::ReadFault)),
    (2, Some(SequenceFault::ReadFault)),
    (3, Some(SequenceFault::ReadFault)),
    (4, None),
];

/// The number of the first call where something else is told if it fails.
fn first_untold<R: Threads + Sync>(rt: &R, alloc: Global) -> Result<Option<usize>, NoMemory> {
    for (number, (fail, fault)) in CALLS.iter().enumerate() {
        if refusal(rt, alloc, b"a b\nc", false, 9, *fail)? != *fault {
            return Ok(Some(number));
        }
    }
    Ok(None)
}

#[test]
fn a_failed_read_is_told(rt: HostRuntime) {
    assert_eq!(rt; first_untold(&rt, rt.alloc()), Ok(None));
}

/// The front of a file, a text that is repeated behind it, how often, whether its lines have weights, and why
/// it is refused.
const LIMITS: &[(&str, &str, usize, bool, Option<SequenceFault>)] = &[
    ("", "\n", 4_194_304, false, None),
    (
        "",
        "\n",
        4_194_305,
        false,
        Some(TooManySequences { line: 4_194_305 }),
    ),
    ("\n", " a", 65_535, false, None),
    ("\n", " a", 65_536, false, Some(TooLong { line: 2 })),
    ("1", " a", 65_535, true, None),
    ("1", " a", 65_536, true, Some(TooLong { line: 1 })),
    (
        "\x01",
        " ",
        67_108_863,
        false,
        Some(BadByte { line: 1, column: 1 }),
    ),
    ("\x01", " ", 67_108_864, false, Some(TooLarge)),
];

fn repeated(alloc: Global, front: &str, text: &str, times: usize) -> Result<Vec<u8>, AllocError> {
    let mut bytes = Vec::from_slice(alloc, front.as_bytes())?;
    for _ in 0..times {
        bytes.extend_from_slice(text.as_bytes())?;
    }
    Ok(bytes)
}

/// The number of the first file that is refused otherwise.
fn first_beyond<R: Threads + Sync>(rt: &R, alloc: Global) -> Result<Option<usize>, NoMemory> {
    for (number, (front, text, times, weighted, fault)) in LIMITS.iter().enumerate() {
        let bytes = repeated(alloc, front, text, *times)?;
        if refusal(rt, alloc, bytes.as_slice(), *weighted, 65_536, 0)? != *fault {
            return Ok(Some(number));
        }
    }
    Ok(None)
}

#[test]
fn the_most_sequences_items_and_bytes(rt: HostRuntime) {
    assert_eq!(rt; first_beyond(&rt, rt.alloc()), Ok(None));
}

/// So many different names of four bytes, each on a line.
fn many_names(alloc: Global, count: u32) -> Result<Vec<u8>, AllocError> {
    let mut bytes = Vec::new(alloc);
    for n in 0..count {
        for digit in [n % 64, n / 64 % 64, n / 4_096 % 64, n / 262_144 % 64] {
            bytes.push(b'0' + (digit % 64) as u8)?;
        }
        bytes.push(b'\n')?;
    }
    Ok(bytes)
}

/// Why a file of so many names is refused, or None.
fn refusal_of_names<R: Threads + Sync>(
    rt: &R,
    alloc: Global,
    count: u32,
) -> Result<Option<SequenceFault>, NoMemory> {
    let bytes = many_names(alloc, count)?;
    refusal(rt, alloc, bytes.as_slice(), false, 65_536, 0)
}

/// The number of the first file of many names that is refused otherwise.
fn first_crowd<R: Threads + Sync>(rt: &R, alloc: Global) -> Result<Option<usize>, NoMemory> {
    let facts = [
        refusal_of_names(rt, alloc, 1_048_576)? == None,
        refusal_of_names(rt, alloc, 1_048_577)? == Some(TooManyItems { line: 1_048_577 }),
    ];
    Ok(first_false(&facts))
}

#[test]
fn the_most_names(rt: HostRuntime) {
    assert_eq!(rt; first_crowd(&rt, rt.alloc()), Ok(None));
}
