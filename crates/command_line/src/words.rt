//! From the words to the command that they say.

ghost use Rattle.std.specs.Prelude.{◌≡◌, ◌↔◌, ◌∷◌, [], ℕ, List, Option, Some, IsTrue, IfOk, MatchOption, map, option_map, unwrap_or, string_bytes, codes};
ghost use Rattle.clap.specs.Words.{first_of, found_of, rows_of};
ghost use Rattle.command_line.specs.Words.{GivesSupport, GivesEngine, GivesWorkers, GivesSeed, GivesShare, GivesLength, GivesMode, GivesRule, GivesMade, GivesSource, GivesTask, HasNoOther, HasNoRule, IsAway, IsProvable, Source as SourceSaid, Task as TaskSaid, embed, files_in, Suits, IsGiven, KeepsRules, Says, IsCommand, IsUsage};
ghost use Rattle.command_line.specs.Arguments.{HasNeeded};
ghost use Rattle.command_line.specs.Commands.{command_said, source_said, task_said};
ghost use Rattle.command_line.specs.declared.words.Engine.{Engine};
ghost use Rattle.command_line.specs.declared.share.Share.{Share as TheShare};

use super::number::read_number;
use super::options::taken;
use super::share::{Share, read_share};
use clap::ArgMatches;
use gap_front::GapRule;
use mine_model::NoMemory;
use std::alloc::Global;

/// The greatest threshold that may be asked for.
const MOST_SUPPORT: u64 = 1_000_000_000_000_000_000;

/// The most workers that may be asked for.
const MOST_WORKERS: u64 = 64;

/// The greatest seed that may be given.
const MOST_SEED: u64 = 18_446_744_073_709_551_615;

/// The most files that may be merged.
const MOST_MERGED: usize = 64;

/// The greatest gap that may be asked for.
const MOST_GAP: u64 = 1_000;

/// The greatest length of a pattern that may be asked for.
const MOST_RULE_LENGTH: u64 = 1_000;

/// The most sequences that may be asked to be made.
const MOST_MADE: u64 = 1_000_000;

/// How a run searches.
#[derive(Clone, Copy, Debug, PartialEq, Eq)]
pub enum Engine {
    /// It counts the candidates of all sequences.
    Count,
    /// It searches by prefixes.
    Dfs,
    /// It searches by prefixes in a part for each pivot, the greatest rank of a pattern.
    Pivot,
    /// It counts sets of candidates in a part for each pivot, equal sets together.
    Cand,
}

/// Where the rows of a run come from.
#[derive(Debug, Drop)]
pub enum Source {
    /// The patterns of an expression.
    Read {
        /// The pattern expression, as it was given. It may be empty.
        expression: String,
        /// The name of the file of sequences, `-` for standard input.
        file: String,
    },
    /// The patterns that are embedded in a sequence under a rule on gaps and lengths.
    Embed {
        /// The rule, in its ranges, with the lengths 1 to 5 where none are given.
        rule: GapRule,
        /// The name of the file of sequences, `-` for standard input.
        file: String,
    },
    /// The patterns of an expression, in sequences that are made. No file is read.
    Make {
        /// How many sequences, 1 to 1,000,000.
        count: u32,
        /// The pattern expression, as it was given. It may be empty.
        expression: String,
    },
    /// Nothing is mined: the outputs of other runs are merged. The other fields are then those of a command
    /// in which no other option is given.
    Merge {
        /// The names of the files of the outputs, 1 to 64 of them, `-` for standard input.
        files: Vec<String>,
    },
}

/// What a run does with its data.
#[derive(Debug, Drop)]
pub enum Task {
    /// It mines, and writes the answer.
    Mine,
    /// It mines, and writes a proof of the answer in place of the answer.
    Prove,
    /// It mines nothing, and judges a proof.
    Check {
        /// The name of the file of the proof, `-` for standard input.
        proof: String,
    },
}

/// What the words of a command say.
#[derive(Debug, Drop)]
pub struct Command {
    /// The least support of a pattern of the answer, 1 to 1,000,000,000,000,000,000.
    pub threshold: u64,
    /// What is mined, and in which sequences, or which files are merged.
    pub source: Source,
    /// The name of the file of the hierarchy, `-` for standard input.
    pub hierarchy: Option<String>,
    /// Whether the first field of each line of the sequences is its weight.
    pub weighted: bool,
    /// The engine, `dfs` where none is named.
    pub engine: Engine,
    /// How many threads work at the search, 1 to 64; 4 where no number is given.
    pub workers: u32,
    /// The seed of a run that simulates its workers in one thread, 0 to 18,446,744,073,709,551,615. Only a
    /// run that searches by prefixes has one.
    pub seed: Option<u64>,
    /// The share of the pivots whose patterns are mined, of all of them where there is none. Only a search
    /// by prefixes and pivots that is not simulated has one.
    pub share: Option<Share>,
    /// Whether the counted work of the run is told on the error output.
    pub stats: bool,
    /// What the run does. Where it writes or judges a proof, the source is `Read` and there is no share.
    /// Where it judges one, there is no seed, and no work is told either.
    pub task: Task,
}

/// The value that was given for an argument.
fn given<'a>(matches: &ArgMatches<'a>, name: &str) -> Option<&'a str>
    ensures { option_map (λ s. s.now) result ≡ first_of name.now (rows_of (found_of matches.now)) }
{
    matches.get_str(name)
}

/// The value that was given for an argument, as a text of its own.
fn given_text(
    alloc: Global,
    matches: &ArgMatches<'_>,
    name: &str,
) -> Result<Option<String>, NoMemory>
    ensures { IfOk result (λ text.
        option_map string_bytes text ≡ first_of name.now (rows_of (found_of matches.now))) }
{
    match given(matches, name) {
        Some(text) => Ok(Some(String::from_str(alloc, text)?)),
        None => Ok(None),
    }
}

/// Whether an option that stands alone was given.
fn is_given(matches: &ArgMatches<'_>, name: &str) -> bool
    ensures { IsTrue result ↔ IsGiven (rows_of (found_of matches.now)) name.now }
{
    given(matches, name) == Some("true")
}

/// The threshold that was given. None where none was, or the value is no threshold.
fn given_support(matches: &ArgMatches<'_>) -> Option<u64>
    ensures { MatchOption result
        ((n : ℕ) → GivesSupport (rows_of (found_of matches.now)) n → ⊥)
        (λ n. GivesSupport (rows_of (found_of matches.now)) n) }
{
    match given(matches, "support") {
        Some(digits) => read_number(digits.as_bytes(), 1, MOST_SUPPORT),
        None => None,
    }
}

/// The value of an option: the one that was given, or else the default.
fn given_or<'a>(matches: &ArgMatches<'a>, name: &str, default: &'a str) -> &'a str
    ensures { result.now
        ≡ unwrap_or (first_of name.now (rows_of (found_of matches.now))) default.now }
{
    given(matches, name).unwrap_or(default)
}

/// The engine of the run. None where no engine has the name that was given.
fn given_engine(matches: &ArgMatches<'_>) -> Option<Engine>
    ensures { MatchOption result
        ((engine : Engine) → GivesEngine (rows_of (found_of matches.now)) engine → ⊥)
        (λ engine. GivesEngine (rows_of (found_of matches.now)) engine) }
{
    match given_or(matches, "engine", "dfs") {
        "count" => Some(Engine::Count),
        "dfs" => Some(Engine::Dfs),
        "pivot" => Some(Engine::Pivot),
        "cand" => Some(Engine::Cand),
        _ => None,
    }
}

/// The number of workers of the run. None where the value that was given is none.
fn given_workers(matches: &ArgMatches<'_>) -> Option<u32>
    ensures { MatchOption result
        ((n : ℕ) → GivesWorkers (rows_of (found_of matches.now)) n → ⊥)
        (λ n. GivesWorkers (rows_of (found_of matches.now)) n) }
{
    match read_number(
        given_or(matches, "workers", "4").as_bytes(),
        1,
        MOST_WORKERS,
    ) {
        Some(workers) => Some(workers as u32),
        None => None,
    }
}

/// The seed that was given, or that none was. None where the value that was given is no seed.
fn given_seed(matches: &ArgMatches<'_>) -> Option<Option<u64>>
    ensures { MatchOption result
        ((seed : Option ℕ) → GivesSeed (rows_of (found_of matches.now)) seed → ⊥)
        (λ seed. GivesSeed (rows_of (found_of matches.now)) seed) }
{
    match given(matches, "simulate") {
        Some(digits) => Some(Some(read_number(digits.as_bytes(), 0, MOST_SEED)?)),
        None => Some(None),
    }
}

/// The share that was asked for, or that none was. None where the value that was given is no share.
fn given_share(matches: &ArgMatches<'_>) -> Option<Option<Share>>
    ensures { MatchOption result
        ((share : Option TheShare) → GivesShare (rows_of (found_of matches.now)) share → ⊥)
        (λ share. GivesShare (rows_of (found_of matches.now)) share) }
{
    match given(matches, "split") {
        Some(text) => Some(Some(read_share(text)?)),
        None => Some(None),
    }
}

/// Whether the engine runs with this seed, or with none, and for this share, or for all.
fn suits(engine: Engine, seed: Option<u64>, share: Option<Share>) -> bool
    ensures { IsTrue result ↔ Suits engine seed share }
{
    match engine {
        Engine::Count | Engine::Cand => seed.is_none() && share.is_none(),
        Engine::Dfs => share.is_none(),
        Engine::Pivot => seed.is_none() || share.is_none(),
    }
}

/// How the run searches: its engine, its seed and its share.
#[derive(Clone, Copy)]
struct Mode {
    engine: Engine,
    seed: Option<u64>,
    share: Option<Share>,
}

/// How the run searches. None where the values that were given say it not, or do not suit each other.
fn given_mode(matches: &ArgMatches<'_>) -> Option<Mode>
    ensures { MatchOption result
        ((engine : Engine) (seed : Option ℕ) (share : Option TheShare)
        → GivesMode (rows_of (found_of matches.now)) engine seed share → ⊥)
        (λ mode. GivesMode (rows_of (found_of matches.now)) mode.engine mode.seed mode.share) }
{
    let engine = given_engine(matches)?;
    let seed = given_seed(matches)?;
    let share = given_share(matches)?;
    if suits(engine, seed, share) {
        Some(Mode {
            engine,
            seed,
            share,
        })
    } else {
        None
    }
}

/// Whether no word of a rule was given.
fn has_no_rule(matches: &ArgMatches<'_>) -> bool
    ensures { IsTrue result ↔ HasNoRule (rows_of (found_of matches.now)) }
{
    given(matches, "max-gap").is_none()
        && given(matches, "min-length").is_none()
        && given(matches, "max-length").is_none()
        && !is_given(matches, "generalize")
}

/// The length of a pattern that was given for an option, or else the default. None where the value that was
/// given is none.
fn given_length<'a>(matches: &ArgMatches<'a>, name: &str, default: &'a str) -> Option<u64>
    ensures { MatchOption result
        ((n : ℕ) → GivesLength (rows_of (found_of matches.now)) name.now default.now n → ⊥)
        (λ n. GivesLength (rows_of (found_of matches.now)) name.now default.now n) }
{
    read_number(
        given_or(matches, name, default).as_bytes(),
        1,
        MOST_RULE_LENGTH,
    )
}

/// The rule that was given. None where none was, or a value that was given is none.
fn given_rule(matches: &ArgMatches<'_>) -> Option<GapRule>
    ensures { MatchOption result
        ((rule : GapRule) → GivesRule (rows_of (found_of matches.now)) rule → ⊥)
        (λ rule. GivesRule (rows_of (found_of matches.now)) rule) }
{
    let max_gap = read_number(given(matches, "max-gap")?.as_bytes(), 0, MOST_GAP)?;
    let min_length = given_length(matches, "min-length", "1")?;
    let max_length = given_length(matches, "max-length", "5")?;
    if min_length <= max_length {
        Some(GapRule {
            max_gap: max_gap as u32,
            min_length: min_length as u32,
            max_length: max_length as u32,
            generalize: is_given(matches, "generalize"),
        })
    } else {
        None
    }
}

/// The words from the place of the file on. None where there are none.
fn given_names<'m, 'a>(matches: &'m ArgMatches<'a>) -> Option<&'m [&'a str]>
    ensures { unwrap_or (option_map (λ names. map (λ name. name.now) names.now) result) []
        ≡ files_in (rows_of (found_of matches.now)) }
{
    matches.get_raw("file")
}

/// The file that was named. None where none was, or several.
fn only_file<'a>(matches: &ArgMatches<'a>) -> Option<&'a str>
    ensures { MatchOption result
        ((file : List ℕ) → files_in (rows_of (found_of matches.now)) ≡ file ∷ [] → ⊥)
        (λ file. files_in (rows_of (found_of matches.now)) ≡ file.now ∷ []) }
{
    let names = given_names(matches)?;
    if names.len() == 1 {
        Some(names[0])
    } else {
        None
    }
}

/// How many sequences are to be made. None where no number was given or the value is none, or a word was
/// given that does not stand beside it.
fn given_made(matches: &ArgMatches<'_>) -> Option<u32>
    ensures { MatchOption result
        ((count : ℕ) → GivesMade (rows_of (found_of matches.now)) count → ⊥)
        (λ count. GivesMade (rows_of (found_of matches.now)) count) }
{
    let count = read_number(given(matches, "generated")?.as_bytes(), 1, MOST_MADE)?;
    let is_alone = given(matches, "file").is_none()
        && given(matches, "hierarchy").is_none()
        && !is_given(matches, "weighted")
        && given(matches, "split").is_none()
        && has_no_rule(matches);
    if is_alone { Some(count as u32) } else { None }
}

/// Whether no option was given beside which no proof is written or judged.
fn is_provable(matches: &ArgMatches<'_>) -> bool
    ensures { IsTrue result ↔ IsProvable (rows_of (found_of matches.now)) }
{
    given(matches, "generated").is_none()
        && given(matches, "max-gap").is_none()
        && given(matches, "split").is_none()
}

/// Whether a proof may be judged beside the options that were given.
fn is_checkable(matches: &ArgMatches<'_>) -> bool
    ensures { IsTrue result ↔ ((IsGiven (rows_of (found_of matches.now)) (codes "proof") → ⊥)
        × IsProvable (rows_of (found_of matches.now))
        × (IsGiven (rows_of (found_of matches.now)) (codes "stats") → ⊥)
        × IsAway (rows_of (found_of matches.now)) (codes "simulate")) }
{
    !is_given(matches, "proof")
        && is_provable(matches)
        && !is_given(matches, "stats")
        && given(matches, "simulate").is_none()
}

/// What the run is to do. None where options were given that do not stand beside it.
fn given_task(alloc: Global, matches: &ArgMatches<'_>) -> Result<Option<Task>, NoMemory>
    ensures { IfOk result (λ given. MatchOption given
        ((task : TaskSaid) → GivesTask (rows_of (found_of matches.now)) task → ⊥)
        (λ task. GivesTask (rows_of (found_of matches.now)) (task_said task))) }
{
    match given_text(alloc, matches, "check")? {
        Some(proof) => {
            if is_checkable(matches) {
                Ok(Some(Task::Check { proof }))
            } else {
                Ok(None)
            }
        }
        None => {
            if !is_given(matches, "proof") {
                Ok(Some(Task::Mine))
            } else if is_provable(matches) {
                Ok(Some(Task::Prove))
            } else {
                Ok(None)
            }
        }
    }
}

/// Whether no option was given that says what is mined.
fn has_no_input(matches: &ArgMatches<'_>) -> bool
    ensures { IsTrue result ↔ (IsAway (rows_of (found_of matches.now)) (codes "generated")
        × HasNoRule (rows_of (found_of matches.now))
        × IsAway (rows_of (found_of matches.now)) (codes "hierarchy")
        × (IsGiven (rows_of (found_of matches.now)) (codes "weighted") → ⊥)) }
{
    given(matches, "generated").is_none()
        && has_no_rule(matches)
        && given(matches, "hierarchy").is_none()
        && !is_given(matches, "weighted")
}

/// Whether no option was given that says how patterns are searched.
fn has_no_search(matches: &ArgMatches<'_>) -> bool
    ensures { IsTrue result ↔ (IsAway (rows_of (found_of matches.now)) (codes "engine")
        × IsAway (rows_of (found_of matches.now)) (codes "workers")
        × IsAway (rows_of (found_of matches.now)) (codes "simulate")
        × IsAway (rows_of (found_of matches.now)) (codes "split")) }
{
    given(matches, "engine").is_none()
        && given(matches, "workers").is_none()
        && given(matches, "simulate").is_none()
        && given(matches, "split").is_none()
}

/// Whether no option was given that says what is written.
fn has_no_output(matches: &ArgMatches<'_>) -> bool
    ensures { IsTrue result ↔ ((IsGiven (rows_of (found_of matches.now)) (codes "stats") → ⊥)
        × (IsGiven (rows_of (found_of matches.now)) (codes "proof") → ⊥)
        × IsAway (rows_of (found_of matches.now)) (codes "check")) }
{
    !is_given(matches, "stats") && !is_given(matches, "proof") && given(matches, "check").is_none()
}

/// Whether no option was given but the threshold and the one that asks for a merge.
fn has_no_other(matches: &ArgMatches<'_>) -> bool
    ensures { IsTrue result ↔ HasNoOther (rows_of (found_of matches.now)) }
{
    has_no_input(matches) && has_no_search(matches) && has_no_output(matches)
}

/// The names of the files that are to be merged, each as a text of its own.
fn merged_names(
    alloc: Global,
    matches: &ArgMatches<'_>,
    first: String,
) -> Result<Vec<String>, NoMemory>
    ensures { IfOk result (λ names.
        map string_bytes names.items ≡ string_bytes first ∷ files_in (rows_of (found_of matches.now))) }
{
    let mut names = Vec::new(alloc);
    names.push(first)?;
    if let Some(others) = given_names(matches) {
        for name in others {
            names.push(String::from_str(alloc, name)?)?;
        }
    }
    Ok(names)
}

/// The files that are to be merged. None where there are too many, or a word was given that does not stand
/// beside a merge.
fn given_merge(
    alloc: Global,
    matches: &ArgMatches<'_>,
    word: String,
) -> Result<Option<Source>, NoMemory>
    requires word { first_of (codes "expression") (rows_of (found_of matches.now))
        ≡ Some (string_bytes word) }
    requires merge { IsGiven (rows_of (found_of matches.now)) (codes "merge") }
    ensures { IfOk result (λ given. MatchOption given
        ((source : SourceSaid) → GivesSource (rows_of (found_of matches.now)) source → ⊥)
        (λ source. GivesSource (rows_of (found_of matches.now)) (source_said source))) }
{
    if !has_no_other(matches) {
        return Ok(None);
    }
    let files = merged_names(alloc, matches, word)?;
    if files.len() <= MOST_MERGED {
        Ok(Some(Source::Merge { files }))
    } else {
        Ok(None)
    }
}

/// The rule and the file by the one word by its place. None where another file was given, or no rule.
fn given_embedding(matches: &ArgMatches<'_>, word: String) -> Option<Source>
    requires word { first_of (codes "expression") (rows_of (found_of matches.now))
        ≡ Some (string_bytes word) }
    requires made { IsAway (rows_of (found_of matches.now)) (codes "generated") }
    requires merge { IsGiven (rows_of (found_of matches.now)) (codes "merge") → ⊥ }
    ensures { MatchOption result
        ((rule : GapRule) (file : List ℕ)
        → GivesSource (rows_of (found_of matches.now)) (embed rule file) → ⊥)
        (λ source. GivesSource (rows_of (found_of matches.now)) (source_said source)) }
{
    if given(matches, "file").is_some() {
        return None;
    }
    match given_rule(matches) {
        Some(rule) => Some(Source::Embed { rule, file: word }),
        None => None,
    }
}

/// What is mined, where no files are to be merged and no sequences to be made. None where the values say no
/// source.
fn given_files(
    alloc: Global,
    matches: &ArgMatches<'_>,
    word: String,
) -> Result<Option<Source>, NoMemory>
    requires word { first_of (codes "expression") (rows_of (found_of matches.now))
        ≡ Some (string_bytes word) }
    requires made { IsAway (rows_of (found_of matches.now)) (codes "generated") }
    requires merge { IsGiven (rows_of (found_of matches.now)) (codes "merge") → ⊥ }
    ensures { IfOk result (λ given. MatchOption given
        ((source : SourceSaid) → GivesSource (rows_of (found_of matches.now)) source → ⊥)
        (λ source. GivesSource (rows_of (found_of matches.now)) (source_said source))) }
{
    if !has_no_rule(matches) {
        return Ok(given_embedding(matches, word));
    }
    match only_file(matches) {
        Some(file) => Ok(Some(Source::Read {
            expression: word,
            file: String::from_str(alloc, file)?,
        })),
        None => Ok(None),
    }
}

/// What is mined or merged. None where the values say no source.
fn given_source(alloc: Global, matches: &ArgMatches<'_>) -> Result<Option<Source>, NoMemory>
    requires { HasNeeded (rows_of (found_of matches.now)) }
    ensures { IfOk result (λ given. MatchOption given
        ((source : SourceSaid) → GivesSource (rows_of (found_of matches.now)) source → ⊥)
        (λ source. GivesSource (rows_of (found_of matches.now)) (source_said source))) }
{
    let word = given_text(alloc, matches, "expression")?.unwrap();
    if is_given(matches, "merge") {
        return given_merge(alloc, matches, word);
    }
    if given(matches, "generated").is_none() {
        return given_files(alloc, matches, word);
    }
    match given_made(matches) {
        Some(count) => Ok(Some(Source::Make {
            count,
            expression: word,
        })),
        None => Ok(None),
    }
}

/// The command that the values say. None where they break a rule.
fn said(alloc: Global, matches: &ArgMatches<'_>) -> Result<Option<Command>, NoMemory>
    requires { HasNeeded (rows_of (found_of matches.now)) }
    ensures { IfOk result (λ said. MatchOption said
        (KeepsRules (rows_of (found_of matches.now)) → ⊥)
        (λ command. KeepsRules (rows_of (found_of matches.now))
        × Says (rows_of (found_of matches.now)) (command_said command))) }
{
    let threshold = match given_support(matches) {
        Some(threshold) => threshold,
        None => return Ok(None),
    };
    let mode = match given_mode(matches) {
        Some(mode) => mode,
        None => return Ok(None),
    };
    let workers = match given_workers(matches) {
        Some(workers) => workers,
        None => return Ok(None),
    };
    let source = match given_source(alloc, matches)? {
        Some(source) => source,
        None => return Ok(None),
    };
    let task = match given_task(alloc, matches)? {
        Some(task) => task,
        None => return Ok(None),
    };
    Ok(Some(Command {
        threshold,
        source,
        hierarchy: given_text(alloc, matches, "hierarchy")?,
        weighted: is_given(matches, "weighted"),
        engine: mode.engine,
        workers,
        seed: mode.seed,
        share: mode.share,
        stats: is_given(matches, "stats"),
        task,
    }))
}

/// The command that the words say, which come without the program's name. None where they say none.
pub fn read_words(alloc: Global, words: &[String]) -> Result<Option<Command>, NoMemory>
    ensures { IfOk result (λ read. MatchOption read (IsUsage (map string_bytes words.now))
        (λ command. IsCommand (map string_bytes words.now) (command_said command))) }
{
    match taken(alloc, words)? {
        Some(matches) => said(alloc, &matches),
        None => Ok(None),
    }
}
