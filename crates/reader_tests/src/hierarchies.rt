//! Hierarchies of files: who stands above an item, and what is refused.

ghost use Rattle.std.specs.Prelude.{◌<◌};

use super::one_file::one_file;
use item_hierarchy::{close, read};
use item_names::Names;
use mine_model::{Fault, Hierarchy, Item, NoMemory};
use std::alloc::{AllocError, Global};
use test_facts::first_false;
use text_ports::MemFiles;

/// The hierarchy of these files, with these names, or why there is none.
fn closed(alloc: Global, files: &mut MemFiles, names: &mut Names) -> Result<Hierarchy, Fault> {
    match read(alloc, files, "f", names) {
        Ok(edges) => close(alloc, edges, names).map_err(Fault::from),
        Err(fault) => Err(Fault::from(fault)),
    }
}

/// The hierarchy of a file with these bytes, or why there is none.
fn hierarchy_of(
    alloc: Global,
    bytes: &[u8],
    cut: usize,
) -> Result<Result<Hierarchy, Fault>, NoMemory>
    requires { 0 < cut }
{
    let mut names = Names::new(alloc)?;
    let mut files = one_file(alloc, bytes, cut, &[])?;
    Ok(closed(alloc, &mut files, &mut names))
}

/// Bytes of a file, and how many items stand above the first, which is one of them.
const ROWS: &[(&str, usize)] = &[
    ("x", 1),
    ("x y y\n\nx y", 2),
    ("x P Q\nP R\r\nQ R\n", 4),
    ("top\nb top\nb a\na b2\n", 1),
];

/// How many items stand above the first. None where there is no item, or no hierarchy.
fn above_first(hierarchy: &Result<Hierarchy, Fault>) -> Option<usize> {
    match hierarchy {
        Ok(hierarchy) if hierarchy.items() > 0 => Some(hierarchy.ancestors(Item(0)).len()),
        _ => None,
    }
}

/// The first file with other ancestors.
fn first_misread(alloc: Global) -> Result<Option<&'static str>, NoMemory> {
    for (text, above) in ROWS {
        if above_first(&hierarchy_of(alloc, text.as_bytes(), 3)?) != Some(*above) {
            return Ok(Some(*text));
        }
    }
    Ok(None)
}

#[test]
fn rows_and_their_ancestors(rt: HostRuntime) {
    assert_eq!(rt; first_misread(rt.alloc()), Ok(None));
}

/// Why a file with these bytes is refused, or None.
fn refusal_of(alloc: Global, bytes: &[u8], cut: usize) -> Result<Option<Fault>, NoMemory>
    requires { 0 < cut }
{
    Ok(hierarchy_of(alloc, bytes, cut)?.err())
}

const CYCLES: &[(&str, Fault)] = &[
    ("x y\ny z\nz x", Fault::Cycle { line: 3 }),
    ("x x", Fault::Cycle { line: 1 }),
    ("a b\na c\nc a", Fault::Cycle { line: 3 }),
    ("b a\na c\na b\nc a", Fault::Cycle { line: 3 }),
    ("a b\nb a\nc c", Fault::Cycle { line: 2 }),
];

/// The first file that is refused for another reason.
fn first_other_cycle(alloc: Global) -> Result<Option<&'static str>, NoMemory> {
    for (text, fault) in CYCLES {
        if refusal_of(alloc, text.as_bytes(), 3)? != Some(*fault) {
            return Ok(Some(*text));
        }
    }
    Ok(None)
}

#[test]
fn the_first_line_with_a_cycle(rt: HostRuntime) {
    assert_eq!(rt; first_other_cycle(rt.alloc()), Ok(None));
}

/// The number of the first wrong fact of the hierarchy of an item and one above it, once a third is added.
fn wrong_fact(hierarchy: &mut Hierarchy) -> Result<Option<usize>, NoMemory> {
    hierarchy.cover(3)?;
    let facts = [
        hierarchy.items() == 3,
        hierarchy.ancestors(Item(0)) == [Item(0), Item(1)].as_slice(),
        hierarchy.ancestors(Item(2)) == [Item(2)].as_slice(),
        hierarchy.is_above(Item(0), Item(1)),
        !hierarchy.is_above(Item(1), Item(0)),
    ];
    Ok(first_false(&facts))
}

/// The same of a file. A number that no fact has where it is refused.
fn wrong_fact_of_file(alloc: Global) -> Result<Option<usize>, NoMemory> {
    match hierarchy_of(alloc, b"x y", 9)? {
        Ok(mut hierarchy) => wrong_fact(&mut hierarchy),
        Err(_) => Ok(Some(usize::MAX)),
    }
}

#[test]
fn items_that_are_added_have_no_parents(rt: HostRuntime) {
    assert_eq!(rt; wrong_fact_of_file(rt.alloc()), Ok(None));
}

/// A file in which each item up to this one stands below the next, with more behind.
fn chain(alloc: Global, last: u32, more: &str) -> Result<String, AllocError> {
    let mut text = String::new(alloc);
    for k in 1..last {
        let above = k + 1;
        let line = format!(in alloc; "i{k} i{above}\n")?;
        text.push_str(line.as_str())?;
    }
    text.push_str(more)?;
    Ok(text)
}

/// The last item of a chain, what stands behind it, and why the file is refused.
const CHAINS: &[(u32, &str, Option<Fault>)] = &[
    (8_191, "", None),
    (8_192, "", Some(Fault::TooManyAncestors)),
    (1_000_000, "", Some(Fault::TooManyAncestors)),
    (
        10_000,
        "i10000 i5000\n",
        Some(Fault::Cycle { line: 10_000 }),
    ),
];

/// The number of the first chain that is refused otherwise.
fn first_other_chain(alloc: Global) -> Result<Option<usize>, NoMemory> {
    for (number, (last, more, fault)) in CHAINS.iter().enumerate() {
        let text = chain(alloc, *last, more)?;
        if refusal_of(alloc, text.as_bytes(), 4_096)? != *fault {
            return Ok(Some(number));
        }
    }
    Ok(None)
}

#[test]
fn as_many_ancestors_as_may_be(rt: HostRuntime) {
    assert_eq!(rt; first_other_chain(rt.alloc()), Ok(None));
}
