//! The frequencies and ranks of items.
ghost use Rattle.std.specs.Prelude.{◌≡◌, ◌≤◌, length};

use super::data::{B, C, D, E, Lines, P, RUNNING, WORDS, X, database, hierarchy, names_of};
use frequency_list::count;
use mine_model::{Item, NoMemory, Ranks};
use std::alloc::Global;
use std::fmt::Write;
use std::thread::Threads;

/// Writes the names by their ranks.
fn add_ranks(text: &mut String, ranks: &Ranks, words: &[&str; 11]) -> Result<(), NoMemory>
    requires { length ranks.now.frequencies ≡ 11 }
{
    for rank in 1..ranks.count() + 1 {
        let item = ranks.item(rank);
        let word = words[item.0 as usize];
        if ranks.rank(item) == Some(rank) {
            write!(text, "{word} ")?;
        }
    }
    Ok(())
}

/// Writes each name with its frequency.
fn add_frequencies(text: &mut String, ranks: &Ranks, words: &[&str; 11]) -> Result<(), NoMemory>
    requires { length ranks.now.frequencies ≡ 11 }
{
    for (number, word) in words.iter().enumerate() {
        let frequency = ranks.frequency(Item(number as u32));
        if frequency > 0 {
            write!(text, " {word} {frequency}")?;
        }
    }
    Ok(())
}

/// The names by their ranks, and behind a bar each name with its frequency.
fn text_of(alloc: Global, ranks: &Ranks, words: &[&str; 11]) -> Result<String, NoMemory>
    requires { length ranks.now.frequencies ≡ 11 }
{
    let mut text = String::new(alloc);
    add_ranks(&mut text, ranks, words)?;
    text.push('|')?;
    add_frequencies(&mut text, ranks, words)?;
    Ok(text)
}

/// What is counted in these lines, each so many times, for items with these names.
fn counted<T: Threads + Sync>(
    rt: &T,
    alloc: Global,
    words: &[&str; 11],
    lines: Lines,
    times: u32,
    threshold: u64,
) -> Result<String, NoMemory>
    requires { 1 ≤ threshold }
{
    let names = names_of(alloc, words)?;
    let hierarchy = hierarchy(alloc)?;
    let db = database(alloc, lines, times)?;
    let ranks = count(rt, alloc, &hierarchy, &db, threshold, &names, 2)?;
    text_of(alloc, &ranks, words)
}

// Four items that stand under none, by names of which some begin others.
const PREFIXES: [&str; 11] = ["A", "a1", "a2", "ab", "a", "b", "aa", "R", "P", "Q", "x"];

/// The names, the lines, the threshold, and what is counted.
type Case = (
    &'static [&'static str; 11],
    Lines<'static>,
    u64,
    &'static str,
);

const COUNTED: [Case; 5] = [
    (
        &WORDS,
        &RUNNING,
        2,
        "b A a1 d c | A 4 a1 3 a2 1 b 5 c 2 d 3 e 1",
    ),
    (&WORDS, &[], 1, "|"),
    (
        &WORDS,
        &[(2, &[X]), (1, &[X, P, X])],
        3,
        "P Q R x | R 3 P 3 Q 3 x 3",
    ),
    (
        &PREFIXES,
        &[(1, &[B, C, D, E])],
        1,
        "a aa ab b | ab 1 a 1 b 1 aa 1",
    ),
    (
        &WORDS,
        &[(1_000_000_000, &[C]), (7, &[]), (2, &[B, C])],
        3,
        "c | b 2 c 1000000002",
    ),
];

/// The number of the first lines in which something else is counted.
fn first_wrong<T: Threads + Sync>(rt: &T, alloc: Global) -> Result<Option<usize>, NoMemory> {
    for (number, (words, lines, threshold, want)) in COUNTED.iter().enumerate() {
        if counted(rt, alloc, words, lines, 1, (*threshold).max(1))?.as_str() != *want {
            return Ok(Some(number));
        }
    }
    Ok(None)
}

#[test]
fn ranks_by_frequency_and_name(rt: HostRuntime) {
    assert_eq!(rt; first_wrong(&rt, rt.alloc()), Ok(None));
}

// So many sequences are counted in several pieces.
#[test]
fn counts_every_piece(rt: HostRuntime) {
    let text = counted(&rt, rt.alloc(), &WORDS, &RUNNING, 3_001, 6_002);
    let want = "b A a1 d c | A 12004 a1 9003 a2 3001 b 15005 c 6002 d 9003 e 3001";
    assert_eq!(rt; text.as_deref(), Ok(want));
}
