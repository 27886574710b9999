//! Mines, and writes a proof of the answer.

ghost use Rattle.std.specs.Prelude.{◌≡◌, ◌≢◌, ◌⊎◌, ◌≤◌, ◌<◌, ℕ, List, Err, IsTrue, IfOk, IfErr, OnOk, OnErr, All};
ghost use Rattle.text_ports.specs.Faults.{Rose};
ghost use Rattle.mine_model.specs.declared.fault.Fault.TheVariants.{Read, Write, NoMemory as OutOfMemory};
ghost use Rattle.mine_model.specs.declared.fault.Which.{Which};
ghost use Rattle.mine_model.specs.Limits.{most_workers};
ghost use Rattle.mine_model.specs.Names.{HasName};
ghost use Rattle.pattern_proof.specs.Writings.{AreOfAnswer, GainsProof, GainsPart};
ghost use Rattle.command_line.specs.Words.{prove as to_prove, SuitsTask, IsCommand, NamesFile};
ghost use Rattle.command_line.specs.Commands.{source_said, task_said, command_said};
ghost use Rattle.desq_run.specs.Ends.{Input, IsInput, IsAnswerText, NeedsNoFile, MayEndWith};
ghost use Rattle.desq_run.specs.Inputs.{HasShare};
ghost use Rattle.desq_run.specs.Tasks.{IsDone, Gains, GainsFirst};

use super::jobs::{NamedJob, read_job};
use super::rows::ordered_rows;
use command_line::Command;
use item_names::Names;
use mine_model::{Fault, Gate, Mined, Row, Work};
use mining_job::Job;
use pattern_proof::ProofWriter;
use pattern_writer::WriteFault;
use std::alloc::Global;
use std::sync::Wait;
use std::thread::Threads;
use text_ports::{Files, Sink};

/// Writes a proof of the rows, in their order. All memory is taken before the first byte is written.
fn write_proof<O: Sink>(
    alloc: Global,
    job: &Job,
    names: &Names,
    rows: &[Row],
    out: &mut O,
) -> Result<(), Fault>
    requires frequent { AreOfAnswer job.now rows.now }
    requires named { All (λ row. All (HasName names.now) row.pattern) rows.now }
    ensures written { OnOk result
        (GainsProof job.now names.now rows.now (O.written out.old) (O.written out.new)) }
    ensures cut { result ≡ Err Write
        → GainsPart job.now names.now rows.now (O.written out.old) (O.written out.new) }
    ensures unchanged { OnErr result (result ≢ Err Write → O.written out.new ≡ O.written out.old) }
    ensures fails { IfErr result (λ fault. (fault ≡ Write) ⊎ (fault ≡ OutOfMemory)) }
    ensures write_fault { result ≡ Err Write → Rose (O.faults out.old) (O.faults out.new) }
    ensures never_falls { O.faults out.old ≤ O.faults out.new }
{
    let mut writer = ProofWriter::new(alloc, job, names, rows)?;
    match writer.write(out) {
        Ok(()) => Ok(()),
        Err(WriteFault) => Err(Fault::Write),
    }
}

/// Mines as the command says, and writes a proof of the answer. Gives the work.
pub(crate) fn prove<R: Threads + Wait + Sync, F: Files, O: Sink, G: Gate>(
    rt: &R,
    alloc: Global,
    command: &Command,
    files: &mut F,
    out: &mut O,
    gate: &G,
) -> Result<Work, Fault>
    requires may { (file : List ℕ) → NamesFile (command_said command.now) file
        → IsTrue (F.may files.old file) }
    requires threshold { 1 ≤ command.now.threshold }
    requires workers { 1 ≤ command.now.workers }
    requires few { command.now.workers ≤ most_workers }
    requires share { HasShare command.now.share }
    requires task { task_said command.now.task ≡ to_prove }
    requires suits { SuitsTask (task_said command.now.task) (command_said command.now) }
    ensures done { (words : List (List ℕ)) → IsCommand words (command_said command.now)
        → IfOk result (λ work. IsDone words (F.holds files.old) (command_said command.now) work) }
    ensures ends { (words : List (List ℕ)) → IsCommand words (command_said command.now)
        → IfErr result (λ fault. MayEndWith words (F.holds files.old) (Err fault)) }
    ensures written { OnOk result ((words : List (List ℕ)) (input : Input)
        → IsCommand words (command_said command.now) → IsInput words (F.holds files.old) input
        → Gains (IsAnswerText input) (O.written out.old) (O.written out.new)) }
    ensures cut { result ≡ Err Write → (words : List (List ℕ)) (input : Input)
        → IsCommand words (command_said command.now) → IsInput words (F.holds files.old) input
        → GainsFirst (IsAnswerText input) (O.written out.old) (O.written out.new) }
    ensures unchanged { OnErr result (result ≢ Err Write → O.written out.new ≡ O.written out.old) }
    ensures read_fault { (file : Which) → result ≡ Err (Read file)
        → Rose (F.faults files.old) (F.faults files.new) }
    ensures write_fault { result ≡ Err Write → Rose (O.faults out.old) (O.faults out.new) }
    ensures untouched { NeedsNoFile (source_said command.now.source) → files.new ≡ files.old }
    ensures same_names { F.may files.new ≡ F.may files.old }
    ensures same_files { F.holds files.new ≡ F.holds files.old }
    ensures never_falls { (F.faults files.old ≤ F.faults files.new) × (O.faults out.old ≤ O.faults out.new) }
{
    let NamedJob { names, job } = read_job(rt, alloc, command, files)?;
    let Mined { rows, work } = ordered_rows(rt, alloc, &names, &job, command, gate)?;
    write_proof(alloc, &job, &names, rows.as_slice(), out)?;
    Ok(work)
}
