//! Expressions: the trees as which they read, and what is refused.

ghost use Rattle.std.specs.Prelude.{[], ◌∷◌};

use mine_model::{Item, NoMemory};
use patex_parser::{FindName, NameUse, PatexFault, parse, resolve};
use std::alloc::{AllocError, Global};

// Texts, and the tree as which each reads or its refusal, as they are printed.
const READINGS: &[(&str, &str)] = &[
    (
        "a b*",
        "Cat(Leaf(Under(Item(0))), Rep { inner: Leaf(Under(Item(1))), least: 0, most: None })",
    ),
    (
        "[a|b]c",
        "Cat(Alt(Leaf(Under(Item(0))), Leaf(Under(Item(1)))), Leaf(Under(Item(2))))",
    ),
    (
        "NOUN+?",
        "Rep { inner: Rep { inner: Leaf(Under(Item(0))), least: 1, most: None }, least: 0, most: Some(1) }",
    ),
    (
        "a= a^ a ^ =",
        "Cat(Cat(Leaf(Exact(Item(0))), Leaf(Climb(Item(1)))), Leaf(Forced(Item(2))))",
    ),
    (
        ".|.^|!a|! a =",
        "Alt(Alt(Alt(Leaf(Any), Leaf(AnyClimb)), Leaf(Not(Item(0)))), Leaf(NotExact(Item(1))))",
    ),
    (
        "(a{2}){ 1 , 2 }",
        "Rep { inner: Cap(Rep { inner: Leaf(Under(Item(0))), least: 2, most: Some(2) }), \
         least: 1, most: Some(2) }",
    ),
    (
        "[.{,3}]{004,}",
        "Rep { inner: Rep { inner: Leaf(Any), least: 0, most: Some(3) }, least: 4, most: None }",
    ),
    ("", "Unexpected { column: 1 }"),
    ("(a", "Unexpected { column: 3 }"),
    ("a*=", "Unexpected { column: 3 }"),
    ("'a", "BadToken { column: 1 }"),
    ("a\0", "BadToken { column: 2 }"),
    ("{} ~", "BadToken { column: 4 }"),
    ("a{1025}{2,1}", "BadRepeat { column: 8 }"),
    ("a{1025}", "RepeatLimit { column: 2 }"),
    (
        "[[[a{1024}]{1024}]{1024}]{1024}",
        "TooManyLeaves { count: 1000000 }",
    ),
];

// The tree as which a text reads, or its refusal, as they are printed.
fn read_as(alloc: Global, text: &str) -> Result<String, AllocError> {
    match parse(alloc, text.as_bytes()) {
        Ok(parsed) => format!(in alloc; "{:?}", parsed.tree),
        Err(fault) => format!(in alloc; "{fault:?}"),
    }
}

fn is_read_as(alloc: Global, text: &str, wanted: &str) -> Result<bool, NoMemory> {
    Ok(read_as(alloc, text)?.as_str() == wanted)
}

// The first text that reads otherwise.
fn first_misread(alloc: Global) -> Result<Option<&'static str>, NoMemory> {
    for (text, wanted) in READINGS {
        if !is_read_as(alloc, text, wanted)? {
            return Ok(Some(*text));
        }
    }
    Ok(None)
}

#[test]
fn reads_or_refuses(rt: HostRuntime) {
    assert_eq!(rt; first_misread(rt.alloc()), Ok(None));
}

// The names of a text, each with its column.
const USES: &[(u32, &str)] = &[
    (2, "é"),
    (6, "b'c"),
    (16, ""),
    (19, "'"),
    (24, "a-b@c/d:e#f%g&h_9"),
];

// Whether these are the names, each at its column.
fn are_uses(found: &[NameUse], wanted: &[(u32, &str)]) -> bool {
    for (name_use, (column, name)) in found.iter().zip(wanted) {
        if name_use.column != *column || name_use.name.bytes() != name.as_bytes() {
            return false;
        }
    }
    found.len() == wanted.len()
}

// Whether the names of the text are these.
fn has_uses(alloc: Global, text: &str, wanted: &[(u32, &str)]) -> bool {
    match parse(alloc, text.as_bytes()) {
        Ok(parsed) => are_uses(parsed.uses.as_slice(), wanted),
        Err(_) => false,
    }
}

#[test]
fn keeps_the_uses_of_names(rt: HostRuntime) {
    let text = "(é) 'b''c'* ! ''='''' a-b@c/d:e#f%g&h_9";
    assert!(rt; has_uses(rt.alloc(), text, USES));
}

// A text's front, how often it stands, its middle, its back, how often it stands, and the refusal.
type Limit = (
    &'static str,
    usize,
    &'static str,
    &'static str,
    usize,
    Option<PatexFault>,
);

const LIMITS: &[Limit] = &[
    ("", 0, "''", "", 0, None),
    ("", 0, "[a{32}]{32}", "", 0, None),
    ("", 0, "a{1024}", "", 0, None),
    ("", 0, "[[a{1024}]{1024}]{0}", "", 0, None),
    ("", 0, "a{1024,}", "", 0, None),
    ("[", 128, "a", "]", 128, None),
    (
        "[",
        129,
        "a",
        "]",
        129,
        Some(PatexFault::TooDeep { column: 129 }),
    ),
    (
        "(",
        129,
        "",
        "",
        0,
        Some(PatexFault::Unexpected { column: 130 }),
    ),
    ("[a]", 129, "", "", 0, None),
    ("", 0, "a", "?", 128, None),
    (
        "",
        0,
        "a",
        "?",
        129,
        Some(PatexFault::TooDeep { column: 130 }),
    ),
    (
        "",
        0,
        "a",
        " +",
        129,
        Some(PatexFault::TooDeep { column: 259 }),
    ),
    ("", 0, "[a*]", "*", 128, None),
    ("[", 128, "a", "+]", 128, None),
    ("a ", 1024, "", "", 0, None),
    (
        "a ",
        1025,
        "",
        "",
        0,
        Some(PatexFault::TooManyLeaves { count: 1025 }),
    ),
    ("a", 4096, "", "", 0, None),
    ("a", 4097, "", "", 0, Some(PatexFault::TooLong)),
    ("~", 4097, "", "", 0, Some(PatexFault::TooLong)),
    (
        ".",
        4096,
        "",
        "",
        0,
        Some(PatexFault::TooManyLeaves { count: 4096 }),
    ),
];

// The text with its front and its back repeated.
fn repeated(
    alloc: Global,
    front: &str,
    times: usize,
    middle: &str,
    back: &str,
    back_times: usize,
) -> Result<String, AllocError> {
    let front = front.repeat(alloc, times)?;
    let back = back.repeat(alloc, back_times)?;
    format!(in alloc; "{front}{middle}{back}")
}

// Whether the text is refused so.
fn is_refused(alloc: Global, limit: Limit) -> Result<bool, NoMemory> {
    let (front, times, middle, back, back_times, fault) = limit;
    let text = repeated(alloc, front, times, middle, back, back_times)?;
    Ok(parse(alloc, text.as_bytes()).err() == fault)
}

// The number of the first text that is refused otherwise.
fn first_beyond(alloc: Global) -> Result<Option<usize>, NoMemory> {
    for (number, limit) in LIMITS.iter().enumerate() {
        if !is_refused(alloc, *limit)? {
            return Ok(Some(number));
        }
    }
    Ok(None)
}

#[test]
fn counts_to_the_limits(rt: HostRuntime) {
    assert_eq!(rt; first_beyond(rt.alloc()), Ok(None));
}

/// The names `x`, `a` and `b`.
#[derive(Drop)]
struct ThreeNames;

impl FindName for ThreeNames {
    ghost names_of = { λ _. (120 ∷ []) ∷ (97 ∷ []) ∷ (98 ∷ []) ∷ [] };

    fn find(&self, name: &[u8]) -> Option<Item> {
        match name {
            [b'x'] => Some(Item(0)),
            [b'a'] => Some(Item(1)),
            [b'b'] => Some(Item(2)),
            _ => None,
        }
    }
}

// Texts, and what their names are found to be among three names.
const FOUND: &[(&str, &str)] = &[
    (
        "(b) [a|!b=]* .",
        "Ok(Cat(Cat(Cap(Leaf(Under(Item(2)))), Rep { inner: Alt(Leaf(Under(Item(1))), \
         Leaf(NotExact(Item(2)))), least: 0, most: None }), Leaf(Any)))",
    ),
    ("(!zz)", "Err(Unknown { column: 3 })"),
    ("a ''", "Err(Unknown { column: 3 })"),
    ("a y 'z' y", "Err(Unknown { column: 3 })"),
];

// The tree over the items of the names of a text, or its refusal, as it is printed.
fn found_as(alloc: Global, text: &str) -> Result<String, AllocError> {
    let found = match parse(alloc, text.as_bytes()) {
        Ok(parsed) => resolve(&parsed, &ThreeNames),
        Err(fault) => Err(fault),
    };
    format!(in alloc; "{found:?}")
}

fn is_found_as(alloc: Global, text: &str, wanted: &str) -> Result<bool, NoMemory> {
    Ok(found_as(alloc, text)?.as_str() == wanted)
}

// The first text whose names are found to be others.
fn first_misfound(alloc: Global) -> Result<Option<&'static str>, NoMemory> {
    for (text, wanted) in FOUND {
        if !is_found_as(alloc, text, wanted)? {
            return Ok(Some(*text));
        }
    }
    Ok(None)
}

#[test]
fn finds_the_items_of_names(rt: HostRuntime) {
    assert_eq!(rt; first_misfound(rt.alloc()), Ok(None));
}
