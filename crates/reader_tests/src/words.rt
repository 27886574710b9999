//! Words, and the command that they say.

use command_line::read_words;
use mine_model::NoMemory;
use std::alloc::Global;

/// The command that the words say, which stand with one blank between them, as it is printed.
fn said(alloc: Global, text: &str) -> Result<String, NoMemory> {
    let mut words = Vec::new(alloc);
    for word in text.split(' ') {
        words.push(String::from_str(alloc, word)?)?;
    }
    let command = read_words(alloc, words.as_slice())?;
    Ok(format!(in alloc; "{command:?}")?)
}

/// Words, and what they say.
const COMMANDS: &[(&str, &str)] = &[
    (
        "--support 1000000000000000000 -- -a -",
        "Some(Command { threshold: 1000000000000000000, source: Read { expression: \"-a\", file: \"-\" }, \
         hierarchy: None, weighted: false, engine: Dfs, workers: 4, seed: None, share: None, stats: false, \
         task: Mine })",
    ),
    (
        "f --support=002  --weighted --hierarchy h --stats --workers=064 --engine count",
        "Some(Command { threshold: 2, source: Read { expression: \"f\", file: \"\" }, \
         hierarchy: Some(\"h\"), weighted: true, engine: Count, workers: 64, seed: None, share: None, \
         stats: true, task: Mine })",
    ),
    (
        "--support 2 --engine=pivot --simulate 18446744073709551615 (a) --workers 1 f",
        "Some(Command { threshold: 2, source: Read { expression: \"(a)\", file: \"f\" }, \
         hierarchy: None, weighted: false, engine: Pivot, workers: 1, \
         seed: Some(18446744073709551615), share: None, stats: false, task: Mine })",
    ),
    (
        "--support 2 --max-gap 0 f",
        "Some(Command { threshold: 2, source: Embed { rule: GapRule { max_gap: 0, min_length: 1, \
         max_length: 5, generalize: false }, file: \"f\" }, \
         hierarchy: None, weighted: false, engine: Dfs, workers: 4, seed: None, share: None, stats: false, \
         task: Mine })",
    ),
    (
        "--min-length=003 --generalize --max-length=1000 --max-gap 1000 --support=2 --engine dfs -- f",
        "Some(Command { threshold: 2, source: Embed { rule: GapRule { max_gap: 1000, min_length: 3, \
         max_length: 1000, generalize: true }, file: \"f\" }, \
         hierarchy: None, weighted: false, engine: Dfs, workers: 4, seed: None, share: None, stats: false, \
         task: Mine })",
    ),
    (
        "--generated 0007 --support 1 (.)",
        "Some(Command { threshold: 1, source: Make { count: 7, expression: \"(.)\" }, \
         hierarchy: None, weighted: false, engine: Dfs, workers: 4, seed: None, share: None, stats: false, \
         task: Mine })",
    ),
    (
        "--support 2 --engine pivot --split 01/064 (a) f",
        "Some(Command { threshold: 2, source: Read { expression: \"(a)\", file: \"f\" }, \
         hierarchy: None, weighted: false, engine: Pivot, workers: 4, seed: None, \
         share: Some(Share { index: 1, of: 64 }), stats: false, task: Mine })",
    ),
    (
        "--support 2 --proof (a) f --stats",
        "Some(Command { threshold: 2, source: Read { expression: \"(a)\", file: \"f\" }, \
         hierarchy: None, weighted: false, engine: Dfs, workers: 4, seed: None, share: None, stats: true, \
         task: Prove })",
    ),
    (
        "--check=p --engine count --support 2 (a) f --weighted",
        "Some(Command { threshold: 2, source: Read { expression: \"(a)\", file: \"f\" }, \
         hierarchy: None, weighted: true, engine: Count, workers: 4, seed: None, share: None, stats: false, \
         task: Check { proof: \"p\" } })",
    ),
    (
        "--support 2 --engine cand --workers 3 (a) f",
        "Some(Command { threshold: 2, source: Read { expression: \"(a)\", file: \"f\" }, \
         hierarchy: None, weighted: false, engine: Cand, workers: 3, seed: None, share: None, stats: false, \
         task: Mine })",
    ),
    ("--support 2 (a)", "None"),
    ("--support 1 --generated 1000001 (.)", "None"),
    ("--support 1 --generated 3 (.) f", "None"),
    ("--support 0 (a) f", "None"),
    ("--support 2 --workers 65 (a) f", "None"),
    ("--support 2 --engine count --simulate 7 (a) f", "None"),
    ("--support 2 --engine cand --simulate 7 (a) f", "None"),
    ("--support 2 --engine cand --split 1/2 (a) f", "None"),
    ("--support 2 --engine cands (a) f", "None"),
    ("--support 2 --max-gap 1 --min-length 6 f", "None"),
    ("--support 2 --engine pivot --split 3/2 (a) f", "None"),
    ("--support 2 --engine pivot --split 1/65 (a) f", "None"),
    ("--support 2 --engine pivot --split 0/2 (a) f", "None"),
    ("--support 2 --engine pivot --split 1/2/3 (a) f", "None"),
    ("--support 2 --engine pivot --split 12 (a) f", "None"),
    (
        "--support 2 --engine pivot --split 1/2 --simulate 7 (a) f",
        "None",
    ),
    ("--support 2 --split 1/2 (a) f", "None"),
    ("--support 2 --proof --check p (a) f", "None"),
    ("--support 2 --proof --max-gap 1 f", "None"),
    ("--support 2 --proof --generated 1 (.)", "None"),
    (
        "--support 2 --engine pivot --split 1/2 --check p (a) f",
        "None",
    ),
    ("--support 2 --check p --stats (a) f", "None"),
    ("--support 2 --check p --simulate 7 (a) f", "None"),
    ("--support 2 --merge --check p f", "None"),
];

fn is_said(alloc: Global, text: &str, wanted: &str) -> Result<bool, NoMemory> {
    Ok(said(alloc, text)?.as_str() == wanted)
}

/// The first words that say something else.
fn first_missaid(alloc: Global) -> Result<Option<&'static str>, NoMemory> {
    for (text, wanted) in COMMANDS {
        if !is_said(alloc, text, wanted)? {
            return Ok(Some(*text));
        }
    }
    Ok(None)
}

#[test]
fn words_say_a_command_or_none(rt: HostRuntime) {
    assert_eq!(rt; first_missaid(rt.alloc()), Ok(None));
}
