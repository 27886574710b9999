//! Checks a proof. Nothing is mined.

ghost use Rattle.std.specs.Prelude.{◌≡◌, ◌≢◌, ◌↔◌, ◌≤◌, ◌<◌, ℕ, true, List, Err, IsTrue, IfOk, IfErr, OnOk, OnErr};
ghost use Rattle.text_ports.specs.Faults.{Rose};
ghost use Rattle.mine_model.specs.declared.fault.Fault.TheVariants.{Read, Write};
ghost use Rattle.mine_model.specs.declared.fault.Which.{Which};
ghost use Rattle.mine_model.specs.Names.{IsFileName};
ghost use Rattle.mine_model.specs.Text.{is_name_byte};
ghost use Rattle.pattern_proof.specs.ProofLines.{AreFileNames};
ghost use Rattle.proof_names.specs.Numberings.{fault_of};
ghost use Rattle.command_line.specs.Words.{check as to_check, SuitsTask, IsCommand, NamesFile};
ghost use Rattle.command_line.specs.Commands.{source_said, task_said, command_said};
ghost use Rattle.desq_run.specs.Said.{checked_text};
ghost use Rattle.desq_run.specs.Ends.{Input, IsInput, IsAnswerText, NeedsNoFile, MayEndWith};
ghost use Rattle.desq_run.specs.Tasks.{IsDone, IsJudged, Gains, GainsFirst};

use super::jobs::{NamedJob, read_job};
use arrayvec::ArrayString;
use command_line::Command;
use item_names::Names;
use itoa::Buffer;
use mine_model::{Fault, Item, Which, Work};
use pattern_proof::{ProofFault, read_proof};
use std::alloc::Global;
use std::thread::Threads;
use text_ports::{Failed, Files, Sink, write_all};

/// Whether the byte may stand in a name.
fn is_byte_of_name(byte: u8) -> bool
    ensures { result ≡ is_name_byte byte }
{
    32 < byte && byte != 127
}

/// Whether the name may stand in a file.
fn is_file_name(name: &[u8]) -> bool
    ensures { IsTrue result ↔ IsFileName name.now }
{
    !name.is_empty() && name.iter().all(|byte| is_byte_of_name(*byte))
}

/// Whether all names may stand in files.
fn are_file_names(names: &Names) -> bool
    ensures { IsTrue result ↔ AreFileNames names.now }
{
    for number in 0..names.count() {
        if !is_file_name(names.text(Item(number))) {
            return false;
        }
    }
    true
}

/// The same fault, of the proof.
fn fault_in(fault: ProofFault) -> Fault
    ensures { result ≡ fault_of fault }
{
    match fault {
        ProofFault::ReadFault => Fault::Read { file: Which::Proof },
        ProofFault::TooLarge => Fault::TooLarge { file: Which::Proof },
        ProofFault::BadByte { line, column } => Fault::BadByte {
            file: Which::Proof,
            line,
            column,
        },
        ProofFault::NameTooLong { line, column } => Fault::NameTooLong {
            file: Which::Proof,
            line,
            column,
        },
        ProofFault::BadProof { line } => Fault::BadProof { line },
        ProofFault::NoMemory => Fault::NoMemory,
    }
}

/// Judges the proof in the file of this name. The answer is the number of its rows.
fn judge<R: Threads + Sync, F: Files>(
    rt: &R,
    alloc: Global,
    command: &Command,
    proof: &str,
    files: &mut F,
) -> Result<u64, Fault>
    requires may { (file : List ℕ) → NamesFile (command_said command.now) file
        → IsTrue (F.may files.old file) }
    requires threshold { 1 ≤ command.now.threshold }
    requires task { task_said command.now.task ≡ to_check proof.now }
    requires suits { SuitsTask (task_said command.now.task) (command_said command.now) }
    ensures judged { (words : List (List ℕ)) → IsCommand words (command_said command.now)
        → IfOk result (λ rows. IsJudged words (F.holds files.old) (command_said command.now) rows) }
    ensures ends { (words : List (List ℕ)) → IsCommand words (command_said command.now)
        → IfErr result (λ fault. MayEndWith words (F.holds files.old) (Err fault)) }
    ensures read_fault { (file : Which) → result ≡ Err (Read file)
        → Rose (F.faults files.old) (F.faults files.new) }
    ensures no_write { result ≢ Err Write }
    ensures untouched { NeedsNoFile (source_said command.now.source) → files.new ≡ files.old }
    ensures same_names { F.may files.new ≡ F.may files.old }
    ensures same_files { F.holds files.new ≡ F.holds files.old }
    ensures never_falls { F.faults files.old ≤ F.faults files.new }
{
    let NamedJob { names, job } = read_job(rt, alloc, command, files)?;
    // The readers make names of name bytes alone, so no other is ever met. Their contracts say so where a
    // file tells what it holds, and for all others it is tried here.
    if !are_file_names(&names) {
        return Err(Fault::NoMemory);
    }
    match read_proof(alloc, files, proof, &job, &names) {
        Ok(rows) => Ok(rows),
        Err(fault) => Err(fault_in(fault)),
    }
}

/// What is told of a proof that is good. It takes no memory.
type Told = ArrayString<40>;

/// What is told of a good proof with so many rows.
fn told_of(rows: u64) -> Told
    ensures { result.bytes ≡ checked_text rows }
{
    let mut text = Told::new();
    let mut digits = Buffer::new();
    text.push_str("checked ");
    text.push_str(digits.format(rows));
    text.push_str(" rows\n");
    text
}

/// Checks the proof in the file of this name, and writes how many rows it has. A check has no work.
pub(crate) fn check<R: Threads + Sync, F: Files, O: Sink>(
    rt: &R,
    alloc: Global,
    command: &Command,
    proof: &str,
    files: &mut F,
    out: &mut O,
) -> Result<Work, Fault>
    requires may { (file : List ℕ) → NamesFile (command_said command.now) file
        → IsTrue (F.may files.old file) }
    requires threshold { 1 ≤ command.now.threshold }
    requires task { task_said command.now.task ≡ to_check proof.now }
    requires suits { SuitsTask (task_said command.now.task) (command_said command.now) }
    ensures done { (words : List (List ℕ)) → IsCommand words (command_said command.now)
        → IfOk result (λ work. IsDone words (F.holds files.old) (command_said command.now) work) }
    ensures ends { (words : List (List ℕ)) → IsCommand words (command_said command.now)
        → IfErr result (λ fault. MayEndWith words (F.holds files.old) (Err fault)) }
    ensures written { OnOk result ((words : List (List ℕ)) (input : Input)
        → IsCommand words (command_said command.now) → IsInput words (F.holds files.old) input
        → Gains (IsAnswerText input) (O.written out.old) (O.written out.new)) }
    ensures cut { result ≡ Err Write → (words : List (List ℕ)) (input : Input)
        → IsCommand words (command_said command.now) → IsInput words (F.holds files.old) input
        → GainsFirst (IsAnswerText input) (O.written out.old) (O.written out.new) }
    ensures unchanged { OnErr result (result ≢ Err Write → O.written out.new ≡ O.written out.old) }
    ensures read_fault { (file : Which) → result ≡ Err (Read file)
        → Rose (F.faults files.old) (F.faults files.new) }
    ensures write_fault { result ≡ Err Write → Rose (O.faults out.old) (O.faults out.new) }
    ensures untouched { NeedsNoFile (source_said command.now.source) → files.new ≡ files.old }
    ensures same_names { F.may files.new ≡ F.may files.old }
    ensures same_files { F.holds files.new ≡ F.holds files.old }
    ensures never_falls { (F.faults files.old ≤ F.faults files.new) × (O.faults out.old ≤ O.faults out.new) }
{
    let rows = judge(rt, alloc, command, proof, files)?;
    match write_all(out, told_of(rows).as_str().as_bytes()) {
        Ok(()) => Ok(Work {
            nodes: 0,
            parts: 0,
            candidates: 0,
        }),
        Err(Failed) => Err(Fault::Write),
    }
}
