//! Limits that are met exactly, and by one more.

use super::runs::{Faults, Held, Left, NO_FAULTS, leaves, leaves_with, of_sequences};
use mine_model::NoMemory;
use std::alloc::Global;
use std::fmt::Write;
use std::sync::Wait;
use std::thread::Threads;

/// Whether the expression writes the whole line, which is of one item many times with a blank behind each, by
/// one call of the output.
fn writes_all<R: Threads + Wait + Sync>(
    rt: &R,
    alloc: Global,
    expression: &str,
    line: &str,
) -> Result<bool, NoMemory> {
    let items = line.trim_end();
    let words = format!(in alloc; "--support 1 {expression} f")?;
    let answer = format!(in alloc; "1\t{items}\n")?;
    let one_write = Faults {
        out: 2,
        ..NO_FAULTS
    };
    let left = Left {
        status: 0,
        out: answer.as_str(),
        err: "",
    };
    leaves_with(
        rt,
        alloc,
        words.as_str(),
        of_sequences(line),
        one_write,
        left,
    )
}

/// Whether `(a){count}` writes the first so many items of the line.
fn writes_first<R: Threads + Wait + Sync>(
    rt: &R,
    alloc: Global,
    line: &str,
    count: usize,
) -> Result<bool, NoMemory> {
    let expression = format!(in alloc; "(a){{{count}}}")?;
    let items = line.get(..count.saturating_mul(2)).unwrap_or(line);
    writes_all(rt, alloc, expression.as_str(), items)
}

/// The first number of leaves whose expression does not write as many items of the line.
fn first_unwritten<R: Threads + Wait + Sync>(
    rt: &R,
    alloc: Global,
    line: &str,
) -> Result<Option<usize>, NoMemory> {
    for count in 1..1025 {
        if !writes_first(rt, alloc, line, count)? {
            return Ok(Some(count));
        }
    }
    Ok(None)
}

fn first_unmined<R: Threads + Wait + Sync>(
    rt: &R,
    alloc: Global,
) -> Result<Option<usize>, NoMemory> {
    let line = "a ".repeat(alloc, 1_024)?;
    first_unwritten(rt, alloc, line.as_str())
}

// An expression of each number of leaves, on as many items.
#[test]
fn every_number_of_leaves_is_mined(rt: HostRuntime) {
    assert_eq!(rt; first_unmined(&rt, rt.alloc()), Ok(None));
}

/// A text, how often it stands in the expression, and how many items it writes of as many: the longest row of
/// leaves, and an answer of 60,002 bytes.
const WRITTEN: &[(&str, usize, usize)] = &[("(.)", 1_024, 1_024), ("(a)*", 1, 30_000)];

/// The first text that does not write its items.
fn first_unwritten_text<R: Threads + Wait + Sync>(
    rt: &R,
    alloc: Global,
) -> Result<Option<&'static str>, NoMemory> {
    for (text, times, items) in WRITTEN {
        let expression = text.repeat(alloc, *times)?;
        let line = "a ".repeat(alloc, *items)?;
        if !writes_all(rt, alloc, expression.as_str(), line.as_str())? {
            return Ok(Some(*text));
        }
    }
    Ok(None)
}

#[test]
fn a_long_answer_is_one_write(rt: HostRuntime) {
    assert_eq!(rt; first_unwritten_text(&rt, rt.alloc()), Ok(None));
}

/// Adds the rows of all rows of up to so many items, the shorter ones first. The last row is left.
fn add_rows(rows: &mut String, row: &mut String, count: u32) -> Result<(), NoMemory> {
    for _ in 0..count {
        row.push_str("a")?;
        rows.push_str(row.as_str())?;
        rows.push_str("\n")?;
        row.push_str(" ")?;
    }
    Ok(())
}

/// Whether all rows of a line are its answer, of so many bytes.
fn is_whole<R: Threads + Wait + Sync>(
    rt: &R,
    alloc: Global,
    items: u32,
    bytes: usize,
) -> Result<bool, NoMemory> {
    let line = "a ".repeat(alloc, items as usize)?;
    let mut row = String::from_str(alloc, "1\t")?;
    let mut rows = String::new(alloc);
    add_rows(&mut rows, &mut row, items)?;
    let left = Left {
        status: 0,
        out: rows.as_str(),
        err: "",
    };
    let held = of_sequences(line.as_str());
    Ok(leaves(rt, alloc, "--support 1 (.)*.* f", held, left)? && rows.len() == bytes)
}

#[test]
fn a_longer_answer_is_whole(rt: HostRuntime) {
    assert_eq!(rt; is_whole(&rt, rt.alloc(), 300, 90_900), Ok(true));
}

/// Whether so many concatenations in a row, inside a repetition that is there no time, are read.
fn is_walked<R: Threads + Wait + Sync>(
    rt: &R,
    alloc: Global,
    leaf_count: usize,
) -> Result<bool, NoMemory> {
    let leaves_in_a_row = ".".repeat(alloc, leaf_count)?;
    let words = format!(in alloc; "--support 1 [{leaves_in_a_row}]{{0}} f")?;
    let left = Left {
        status: 0,
        out: "",
        err: "",
    };
    leaves(rt, alloc, words.as_str(), of_sequences("a\n"), left)
}

// 4,090 concatenations.
#[test]
fn the_deepest_expression_is_walked(rt: HostRuntime) {
    assert_eq!(rt; is_walked(&rt, rt.alloc(), 4_091), Ok(true));
}

/// A text, how often it stands in the file of sequences, the status, and the message.
const FILES: &[(&str, usize, u8, &str)] = &[
    ("x", 255, 0, ""),
    (
        "x",
        256,
        4,
        "desq: sequences: line 1 column 256: name over 255 bytes\n",
    ),
    (
        " ",
        67_108_865,
        4,
        "desq: sequences: more than 67108864 bytes\n",
    ),
    (
        "\n",
        4_194_305,
        4,
        "desq: sequences: line 4194305: more than 4194304 sequences\n",
    ),
    ("a ", 65_535, 0, ""),
    (
        "a ",
        65_536,
        4,
        "desq: sequences: line 1: more than 65535 items in a sequence\n",
    ),
];

/// Whether no answer, and this message, is left of sequences of which no pattern is asked.
fn is_refused<R: Threads + Wait + Sync>(
    rt: &R,
    alloc: Global,
    sequences: &str,
    status: u8,
    err: &str,
) -> Result<bool, NoMemory> {
    let left = Left {
        status,
        out: "",
        err,
    };
    leaves(rt, alloc, "--support 1 .* f", of_sequences(sequences), left)
}

/// The number of the first file of which something else is left.
fn first_wrong_file<R: Threads + Wait + Sync>(
    rt: &R,
    alloc: Global,
) -> Result<Option<usize>, NoMemory> {
    for (number, (text, times, status, err)) in FILES.iter().enumerate() {
        let file = text.repeat(alloc, *times)?;
        if !is_refused(rt, alloc, file.as_str(), *status, err)? {
            return Ok(Some(number));
        }
    }
    Ok(None)
}

#[test]
fn a_file_is_as_long_as_it_may_be(rt: HostRuntime) {
    assert_eq!(rt; first_wrong_file(&rt, rt.alloc()), Ok(None));
}

/// So many different names, each on a line.
fn many_names(alloc: Global, count: u32) -> Result<String, NoMemory> {
    let mut lines = String::new(alloc);
    for number in 0..count {
        writeln!(lines, "{number}")?;
    }
    Ok(lines)
}

/// Whether a file of so many names is refused with this message.
fn are_too_many<R: Threads + Wait + Sync>(
    rt: &R,
    alloc: Global,
    count: u32,
    err: &str,
) -> Result<bool, NoMemory> {
    let names = many_names(alloc, count)?;
    is_refused(rt, alloc, names.as_str(), 4, err)
}

#[test]
fn a_file_has_as_many_names_as_it_may(rt: HostRuntime) {
    let err = "desq: sequences: line 1048577: more than 1048576 items\n";
    assert_eq!(rt; are_too_many(&rt, rt.alloc(), 1_048_577, err), Ok(true));
}

/// A file in which each item up to this one stands below the next.
fn chain(alloc: Global, last: u32) -> Result<String, NoMemory> {
    let mut lines = String::new(alloc);
    for k in 1..last {
        let above = k + 1;
        writeln!(lines, "i{k} i{above}")?;
    }
    Ok(lines)
}

/// The last item of a chain, the status, and what is left.
const CHAINS: &[(u32, u8, &str, &str)] = &[
    (8_191, 0, "1\ti8191\n", ""),
    (
        8_192,
        4,
        "",
        "desq: hierarchy: more than 33554432 ancestors\n",
    ),
];

/// The number of the first chain of which something else is left.
fn first_wrong_chain<R: Threads + Wait + Sync>(
    rt: &R,
    alloc: Global,
) -> Result<Option<usize>, NoMemory> {
    for (number, (last, status, out, err)) in CHAINS.iter().enumerate() {
        let links = chain(alloc, *last)?;
        let held = Held {
            hierarchy: links.as_str(),
            sequences: "i1\n",
            proof: "",
        };
        let left = Left {
            status: *status,
            out,
            err,
        };
        if !leaves(
            rt,
            alloc,
            "--support 1 --hierarchy h (i8191^=) f",
            held,
            left,
        )? {
            return Ok(Some(number));
        }
    }
    Ok(None)
}

#[test]
fn a_hierarchy_is_as_high_as_it_may_be(rt: HostRuntime) {
    assert_eq!(rt; first_wrong_chain(&rt, rt.alloc()), Ok(None));
}
