//! From words to the answer written, or to the fault that ends the run.

ghost use Rattle.std.specs.Prelude.{◌≡◌, ◌≢◌, ◌⊎◌, ◌≤◌, ◌<◌, ◌++◌, ℕ, List, Some, Err, MatchOption, IsTrue, IfOk, IfErr, OnOk, OnErr, IfSome, is_some, All, map, length, take, string_bytes};
ghost use Rattle.text_ports.specs.Faults.{Rose};
ghost use Rattle.mine_model.specs.declared.fault.Fault.TheVariants.{Read, Write, NoMemory as OutOfMemory};
ghost use Rattle.mine_model.specs.declared.fault.Which.{Which};
ghost use Rattle.mine_model.specs.Limits.{most_workers};
ghost use Rattle.mine_model.specs.Names.{HasName, named_row};
ghost use Rattle.mine_model.specs.AnswerText.{text_of};
ghost use Rattle.made_input.specs.Summary.{summary_of};
ghost use Rattle.command_line.specs.Words.{Command as CommandSaid, merge, mine, SuitsTask, IsCommand, IsUsage, NamesFile, IsNamed};
ghost use Rattle.command_line.specs.Commands.{source_said, task_said, command_said};
ghost use Rattle.desq_run.specs.Ends.{Input, IsInput, IsAnswerText, NeedsNoFile, MayEndWith};
ghost use Rattle.desq_run.specs.Said.{output_of};
ghost use Rattle.desq_run.specs.Inputs.{HasRanges, IsMinedBy, HasShare, IsMined};
ghost use Rattle.desq_run.specs.Tasks.{IsDone, Gains, GainsFirst};

use super::checking::check;
use super::jobs::{NamedJob, read_job};
use super::merging::{Merged, merge_outputs};
use super::proving::prove;
use super::rows::ordered_rows;
use command_line::{Command, Source, Task, read_words};
use item_names::Names;
use made_input::summary;
use mine_model::{Fault, Gate, Mined, NoMemory, Row, Work};
use pattern_writer::{WriteFault, write};
use std::alloc::Global;
use std::sync::Wait;
use std::thread::Threads;
use text_ports::{Failed, Files, Sink, write_all};

/// How many bytes of the answer are gathered before they are written. Each write but the last has as many.
const ROOM: usize = 65_536;

/// The rows of the answer in their order, the names of their items, and the work of finding them where it is
/// asked for, of which a merge has none.
#[derive(Debug, Drop)]
struct Answer {
    names: Names,
    rows: Vec<Row>,
    work: Work,
}

/// Mines as the command says. Its expression or rule is read before a file is opened.
fn mine_input<R: Threads + Wait + Sync, F: Files, G: Gate>(
    rt: &R,
    alloc: Global,
    command: &Command,
    files: &mut F,
    gate: &G,
) -> Result<Answer, Fault>
    requires may { (file : List ℕ) → NamesFile (command_said command.now) file
        → IsTrue (F.may files.old file) }
    requires threshold { 1 ≤ command.now.threshold }
    requires workers { 1 ≤ command.now.workers }
    requires few { command.now.workers ≤ most_workers }
    requires mined { IsMinedBy (source_said command.now.source) }
    requires ranges { HasRanges (source_said command.now.source) }
    requires share { HasShare command.now.share }
    ensures mined { (words : List (List ℕ)) → IsCommand words (command_said command.now)
        → IfOk result
        (λ mined. IsMined words (F.holds files.old) (command_said command.now)
        mined.names mined.rows.items mined.work) }
    ensures named { IfOk result (λ mined. All
        (λ row. All (HasName mined.names) row.pattern) mined.rows.items) }
    ensures ends { (words : List (List ℕ)) → IsCommand words (command_said command.now)
        → IfErr result (λ fault. MayEndWith words (F.holds files.old) (Err fault)) }
    ensures read_fault { (file : Which) → result ≡ Err (Read file)
        → Rose (F.faults files.old) (F.faults files.new) }
    ensures no_write { result ≢ Err Write }
    ensures untouched { NeedsNoFile (source_said command.now.source) → files.new ≡ files.old }
    ensures same_names { F.may files.new ≡ F.may files.old }
    ensures same_files { F.holds files.new ≡ F.holds files.old }
    ensures never_falls { F.faults files.old ≤ F.faults files.new }
{
    let NamedJob { names, job } = read_job(rt, alloc, command, files)?;
    let Mined { rows, work } = ordered_rows(rt, alloc, &names, &job, command, gate)?;
    Ok(Answer { names, rows, work })
}

/// The names of the files that are merged. None where the source is one to mine by.
fn merged_files(source: &Source) -> Option<&[String]>
    ensures { MatchOption result (IsMinedBy (source_said source.now))
        (λ names. source_said source.now ≡ merge (map string_bytes names.now)) }
{
    match source {
        Source::Merge { files } => Some(files.as_slice()),
        Source::Read { .. } => None,
        Source::Embed { .. } => None,
        Source::Make { .. } => None,
    }
}

/// Merges the files of these names, which the command names.
fn merge_input<F: Files>(
    alloc: Global,
    command: &Command,
    file_names: &[String],
    files: &mut F,
) -> Result<Answer, Fault>
    requires may { (file : List ℕ) → NamesFile (command_said command.now) file
        → IsTrue (F.may files.old file) }
    requires named { source_said command.now.source ≡ merge (map string_bytes file_names.now) }
    requires ranges { HasRanges (source_said command.now.source) }
    ensures mined { (words : List (List ℕ)) → IsCommand words (command_said command.now)
        → IfOk result
        (λ mined. IsMined words (F.holds files.old) (command_said command.now)
        mined.names mined.rows.items mined.work) }
    ensures named { IfOk result (λ mined. All
        (λ row. All (HasName mined.names) row.pattern) mined.rows.items) }
    ensures ends { (words : List (List ℕ)) → IsCommand words (command_said command.now)
        → IfErr result (λ fault. MayEndWith words (F.holds files.old) (Err fault)) }
    ensures read_fault { (file : Which) → result ≡ Err (Read file)
        → Rose (F.faults files.old) (F.faults files.new) }
    ensures no_write { result ≢ Err Write }
    ensures untouched { NeedsNoFile (source_said command.now.source) → files.new ≡ files.old }
    ensures same_names { F.may files.new ≡ F.may files.old }
    ensures same_files { F.holds files.new ≡ F.holds files.old }
    ensures never_falls { F.faults files.old ≤ F.faults files.new }
{
    let Merged { names, rows } = merge_outputs(alloc, command.threshold, file_names, files)?;
    Ok(Answer {
        names,
        rows,
        work: Work {
            nodes: 0,
            parts: 0,
            candidates: 0,
        },
    })
}

/// Mines or merges, as the command says.
fn find_rows<R: Threads + Wait + Sync, F: Files, G: Gate>(
    rt: &R,
    alloc: Global,
    command: &Command,
    files: &mut F,
    gate: &G,
) -> Result<Answer, Fault>
    requires may { (file : List ℕ) → NamesFile (command_said command.now) file
        → IsTrue (F.may files.old file) }
    requires threshold { 1 ≤ command.now.threshold }
    requires workers { 1 ≤ command.now.workers }
    requires few { command.now.workers ≤ most_workers }
    requires ranges { HasRanges (source_said command.now.source) }
    requires share { HasShare command.now.share }
    ensures mined { (words : List (List ℕ)) → IsCommand words (command_said command.now)
        → IfOk result
        (λ mined. IsMined words (F.holds files.old) (command_said command.now)
        mined.names mined.rows.items mined.work) }
    ensures named { IfOk result (λ mined. All
        (λ row. All (HasName mined.names) row.pattern) mined.rows.items) }
    ensures ends { (words : List (List ℕ)) → IsCommand words (command_said command.now)
        → IfErr result (λ fault. MayEndWith words (F.holds files.old) (Err fault)) }
    ensures read_fault { (file : Which) → result ≡ Err (Read file)
        → Rose (F.faults files.old) (F.faults files.new) }
    ensures no_write { result ≢ Err Write }
    ensures untouched { NeedsNoFile (source_said command.now.source) → files.new ≡ files.old }
    ensures same_names { F.may files.new ≡ F.may files.old }
    ensures same_files { F.holds files.new ≡ F.holds files.old }
    ensures never_falls { F.faults files.old ≤ F.faults files.new }
{
    match merged_files(&command.source) {
        Some(file_names) => merge_input(alloc, command, file_names, files),
        None => mine_input(rt, alloc, command, files, gate),
    }
}

/// What is told of the work.
fn told(command: &Command, work: Work) -> Option<Work>
    ensures asked { command.now.stats ≡ is_some result }
    ensures work { IfSome result (λ told. told ≡ work) }
{
    if command.stats { Some(work) } else { None }
}

/// Room for the bytes of the answer that wait to be written.
fn take_room(alloc: Global) -> Result<Vec<u8>, NoMemory>
    ensures { IfOk result (λ room. length room.items ≡ 65536) }
{
    Ok(vec![in alloc; 0u8; ROOM]?)
}

/// Writes the rows in their order, each in a line.
fn write_text<O: Sink>(alloc: Global, answer: &Answer, out: &mut O) -> Result<(), Fault>
    requires named { All (λ row. All (HasName answer.now.names) row.pattern) answer.now.rows.items }
    ensures written { OnOk result (IfSome (O.written out.old) (λ before.
        O.written out.new ≡ Some (before
        ++ text_of (map (named_row answer.now.names) answer.now.rows.items)))) }
    ensures cut { result ≡ Err Write → IfSome (O.written out.old) (λ before.
        (n : ℕ) × (n < length (text_of (map (named_row answer.now.names) answer.now.rows.items)))
        × (O.written out.new ≡ Some (before
        ++ take n (text_of (map (named_row answer.now.names) answer.now.rows.items))))) }
    ensures unchanged { OnErr result (result ≢ Err Write → O.written out.new ≡ O.written out.old) }
    ensures fails { IfErr result (λ fault. (fault ≡ Write) ⊎ (fault ≡ OutOfMemory)) }
    ensures write_fault { result ≡ Err Write → Rose (O.faults out.old) (O.faults out.new) }
    ensures never_falls { O.faults out.old ≤ O.faults out.new }
{
    let mut room = take_room(alloc)?;
    match write(
        answer.rows.as_slice(),
        &answer.names,
        out,
        room.as_mut_slice(),
    ) {
        Ok(()) => Ok(()),
        Err(WriteFault) => Err(Fault::Write),
    }
}

/// Writes the summary of the rows that were found in so many made sequences.
fn write_summary<O: Sink>(count: u32, answer: &Answer, out: &mut O) -> Result<(), Fault>
    ensures written { OnOk result (IfSome (O.written out.old) (λ before.
        O.written out.new ≡ Some (before
        ++ summary_of count (map (named_row answer.now.names) answer.now.rows.items)))) }
    ensures cut { result ≡ Err Write → IfSome (O.written out.old) (λ before.
        (n : ℕ) × (n < length (summary_of count (map (named_row answer.now.names) answer.now.rows.items)))
        × (O.written out.new ≡ Some (before
        ++ take n (summary_of count (map (named_row answer.now.names) answer.now.rows.items))))) }
    ensures fails { IfErr result (λ fault. fault ≡ Write) }
    ensures write_fault { result ≡ Err Write → Rose (O.faults out.old) (O.faults out.new) }
    ensures never_falls { O.faults out.old ≤ O.faults out.new }
{
    match write_all(
        out,
        summary(count, answer.rows.as_slice()).as_str().as_bytes(),
    ) {
        Ok(()) => Ok(()),
        Err(Failed) => Err(Fault::Write),
    }
}

/// Writes what is said of the answer: its text, or on made input its summary.
fn write_answer<O: Sink>(
    alloc: Global,
    source: &Source,
    answer: &Answer,
    out: &mut O,
) -> Result<(), Fault>
    requires named { All (λ row. All (HasName answer.now.names) row.pattern) answer.now.rows.items }
    ensures written { OnOk result (IfSome (O.written out.old) (λ before.
        O.written out.new ≡ Some (before ++ output_of (source_said source.now)
        (map (named_row answer.now.names) answer.now.rows.items)))) }
    ensures cut { result ≡ Err Write → IfSome (O.written out.old) (λ before.
        (n : ℕ) × (n < length (output_of (source_said source.now)
        (map (named_row answer.now.names) answer.now.rows.items)))
        × (O.written out.new ≡ Some (before ++ take n (output_of (source_said source.now)
        (map (named_row answer.now.names) answer.now.rows.items))))) }
    ensures unchanged { OnErr result (result ≢ Err Write → O.written out.new ≡ O.written out.old) }
    ensures fails { IfErr result (λ fault. (fault ≡ Write) ⊎ (fault ≡ OutOfMemory)) }
    ensures write_fault { result ≡ Err Write → Rose (O.faults out.old) (O.faults out.new) }
    ensures never_falls { O.faults out.old ≤ O.faults out.new }
{
    match source {
        Source::Make { count, .. } => write_summary(*count, answer, out),
        Source::Read { .. } => write_text(alloc, answer, out),
        Source::Embed { .. } => write_text(alloc, answer, out),
        Source::Merge { .. } => write_text(alloc, answer, out),
    }
}

/// Mines or merges as the command says, and writes the answer. Gives the work.
fn give_answer<R: Threads + Wait + Sync, F: Files, O: Sink, G: Gate>(
    rt: &R,
    alloc: Global,
    command: &Command,
    files: &mut F,
    out: &mut O,
    gate: &G,
) -> Result<Work, Fault>
    requires may { (file : List ℕ) → NamesFile (command_said command.now) file
        → IsTrue (F.may files.old file) }
    requires threshold { 1 ≤ command.now.threshold }
    requires workers { 1 ≤ command.now.workers }
    requires few { command.now.workers ≤ most_workers }
    requires ranges { HasRanges (source_said command.now.source) }
    requires share { HasShare command.now.share }
    requires task { task_said command.now.task ≡ mine }
    ensures done { (words : List (List ℕ)) → IsCommand words (command_said command.now)
        → IfOk result (λ work. IsDone words (F.holds files.old) (command_said command.now) work) }
    ensures ends { (words : List (List ℕ)) → IsCommand words (command_said command.now)
        → IfErr result (λ fault. MayEndWith words (F.holds files.old) (Err fault)) }
    ensures written { OnOk result ((words : List (List ℕ)) (input : Input)
        → IsCommand words (command_said command.now) → IsInput words (F.holds files.old) input
        → Gains (IsAnswerText input) (O.written out.old) (O.written out.new)) }
    ensures cut { result ≡ Err Write → (words : List (List ℕ)) (input : Input)
        → IsCommand words (command_said command.now) → IsInput words (F.holds files.old) input
        → GainsFirst (IsAnswerText input) (O.written out.old) (O.written out.new) }
    ensures unchanged { OnErr result (result ≢ Err Write → O.written out.new ≡ O.written out.old) }
    ensures read_fault { (file : Which) → result ≡ Err (Read file)
        → Rose (F.faults files.old) (F.faults files.new) }
    ensures write_fault { result ≡ Err Write → Rose (O.faults out.old) (O.faults out.new) }
    ensures untouched { NeedsNoFile (source_said command.now.source) → files.new ≡ files.old }
    ensures same_names { F.may files.new ≡ F.may files.old }
    ensures same_files { F.holds files.new ≡ F.holds files.old }
    ensures never_falls { (F.faults files.old ≤ F.faults files.new) × (O.faults out.old ≤ O.faults out.new) }
{
    let mined = find_rows(rt, alloc, command, files, gate)?;
    write_answer(alloc, &command.source, &mined, out)?;
    Ok(mined.work)
}

/// Does what the command says, and writes what comes of it. Gives the work, of which a check has none.
fn carry_out<R: Threads + Wait + Sync, F: Files, O: Sink, G: Gate>(
    rt: &R,
    alloc: Global,
    command: &Command,
    files: &mut F,
    out: &mut O,
    gate: &G,
) -> Result<Work, Fault>
    requires may { (file : List ℕ) → NamesFile (command_said command.now) file
        → IsTrue (F.may files.old file) }
    requires threshold { 1 ≤ command.now.threshold }
    requires workers { 1 ≤ command.now.workers }
    requires few { command.now.workers ≤ most_workers }
    requires ranges { HasRanges (source_said command.now.source) }
    requires share { HasShare command.now.share }
    requires task { SuitsTask (task_said command.now.task) (command_said command.now) }
    ensures done { (words : List (List ℕ)) → IsCommand words (command_said command.now)
        → IfOk result (λ work. IsDone words (F.holds files.old) (command_said command.now) work) }
    ensures ends { (words : List (List ℕ)) → IsCommand words (command_said command.now)
        → IfErr result (λ fault. MayEndWith words (F.holds files.old) (Err fault)) }
    ensures written { OnOk result ((words : List (List ℕ)) (input : Input)
        → IsCommand words (command_said command.now) → IsInput words (F.holds files.old) input
        → Gains (IsAnswerText input) (O.written out.old) (O.written out.new)) }
    ensures cut { result ≡ Err Write → (words : List (List ℕ)) (input : Input)
        → IsCommand words (command_said command.now) → IsInput words (F.holds files.old) input
        → GainsFirst (IsAnswerText input) (O.written out.old) (O.written out.new) }
    ensures unchanged { OnErr result (result ≢ Err Write → O.written out.new ≡ O.written out.old) }
    ensures read_fault { (file : Which) → result ≡ Err (Read file)
        → Rose (F.faults files.old) (F.faults files.new) }
    ensures write_fault { result ≡ Err Write → Rose (O.faults out.old) (O.faults out.new) }
    ensures untouched { NeedsNoFile (source_said command.now.source) → files.new ≡ files.old }
    ensures same_names { F.may files.new ≡ F.may files.old }
    ensures same_files { F.holds files.new ≡ F.holds files.old }
    ensures never_falls { (F.faults files.old ≤ F.faults files.new) × (O.faults out.old ≤ O.faults out.new) }
{
    match &command.task {
        Task::Mine => give_answer(rt, alloc, command, files, out, gate),
        Task::Prove => prove(rt, alloc, command, files, out, gate),
        Task::Check { proof } => check(rt, alloc, command, proof.as_str(), files, out),
    }
}

/// Does what the words say, and writes what comes of it. Gives the work, where the words ask for it.
pub(crate) fn attempt<R: Threads + Wait + Sync, F: Files, O: Sink, G: Gate>(
    rt: &R,
    alloc: Global,
    words: &[String],
    files: &mut F,
    out: &mut O,
    gate: &G,
) -> Result<Option<Work>, Fault>
    requires { (file : List ℕ) → IsNamed (map string_bytes words.now) file
        → IsTrue (F.may files.old file) }
    ensures ends { MayEndWith (map string_bytes words.now) (F.holds files.old) result }
    ensures written { OnOk result ((input : Input)
        → IsInput (map string_bytes words.now) (F.holds files.old) input
        → (text : List ℕ) × IsAnswerText input text
        × IfSome (O.written out.old) (λ before. O.written out.new ≡ Some (before ++ text))) }
    ensures cut { result ≡ Err Write → (input : Input)
        → IsInput (map string_bytes words.now) (F.holds files.old) input
        → (text : List ℕ) × IsAnswerText input text
        × IfSome (O.written out.old) (λ before. (n : ℕ) × (n < length text)
        × (O.written out.new ≡ Some (before ++ take n text))) }
    ensures unchanged { OnErr result (result ≢ Err Write → O.written out.new ≡ O.written out.old) }
    ensures read_fault { (file : Which) → result ≡ Err (Read file)
        → Rose (F.faults files.old) (F.faults files.new) }
    ensures write_fault { result ≡ Err Write → Rose (O.faults out.old) (O.faults out.new) }
    ensures untouched { IsUsage (map string_bytes words.now)
        ⊎ ((command : CommandSaid) × IsCommand (map string_bytes words.now) command
        × NeedsNoFile command.source) → files.new ≡ files.old }
    ensures same_names { F.may files.new ≡ F.may files.old }
    ensures same_files { F.holds files.new ≡ F.holds files.old }
    ensures never_falls { (F.faults files.old ≤ F.faults files.new) × (O.faults out.old ≤ O.faults out.new) }
{
    let command = match read_words(alloc, words)? {
        Some(command) => command,
        None => return Err(Fault::Usage),
    };
    let work = carry_out(rt, alloc, &command, files, out, gate)?;
    Ok(told(&command, work))
}
