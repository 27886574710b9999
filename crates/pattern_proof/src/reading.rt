//! Reads a proof file and judges it.

ghost use Rattle.std.specs.Prelude.{◌≡◌, ◌≢◌, ℕ, ◌+◌, ◌≤◌, ◌<◌, ◌↔◌, true, false, List, Err, Some, length, option_map, MatchOption, IsTrue, IfOk, OnOk, IfErr, IfSome};
ghost use Rattle.mine_model.specs.declared.row.Row.{Row};
ghost use Rattle.mine_model.specs.Answer.{ComesBefore};
ghost use Rattle.mine_model.specs.Limits.{most_sequences, most_weight};
ghost use Rattle.mine_model.specs.Names.{named_row};
ghost use Rattle.mine_model.specs.Text.{lines_of, IsSoundLine};
ghost use Rattle.text_ports.specs.Faults.{Rose};
ghost use Rattle.text_ports.specs.Lines.{WasGiven, OfBytes};
ghost use Rattle.pattern_proof.specs.declared.fault.ProofFault.{ProofFault};
ghost use Rattle.pattern_proof.specs.ProofLines.{Cited, AreFileNames, is_path_line, SaysPath};
ghost use Rattle.pattern_proof.specs.Proofs.{IsGood, IsGoodPath};
ghost use Rattle.pattern_proof.specs.Judging.{IsProofRefusal};
ghost use Rattle.pattern_proof.specs.Standing.{OpenRow, at_start, IsClosed, MayBeCited, StepsTo, RefusesEnd};
ghost use Rattle.pattern_proof.specs.Taking.{open_row_of, standing_of, TookLine, RefusedLine};
ghost use Rattle.pattern_proof.specs.Reading.{numbers_of};

use super::checking::checks;
use super::fault::ProofFault;
use super::lines::{is_of_path, path_in, row_in};
use super::open_row::Above;
use super::ordering::comes_before;
use fst_compile::State;
use item_names::Names;
use mine_model::{NoMemory, Pattern, Row};
use mining_job::Job;
use std::alloc::Global;
use text_ports::{Files, LineVisitor, Span, TextFault, read_lines};

/// What was read so far. `states` is where those of a path are collected.
#[derive(Drop)]
struct Check<'a> {
    alloc: Global,
    job: &'a Job,
    names: &'a Names,
    rows: u64,
    current: Option<Above>,
    states: Vec<State>,
}

impl<'a> LineVisitor for Check<'a> {
    type Fault = ProofFault;

    ghost took = { TookLine };

    ghost refused = { RefusedLine };

    fn line(&mut self, number: u64, text: &[u8], _fields: &[Span]) -> Result<(), ProofFault> {
        if is_of_path(text) {
            take_path(self, number, text)
        } else {
            take_row(self, number, text)
        }
    }
}

/// Takes a row line, behind the paths of the row before it.
fn take_row<'a>(check: &mut Check<'a>, number: u64, text: &[u8]) -> Result<(), ProofFault>
    requires sound { IsSoundLine text.now }
    requires row { is_path_line text.now ≡ false }
    ensures took { OnOk result (TookLine check.old number text.now check.new) }
    ensures refused { IfErr result (λ fault. RefusedLine check.old number text.now fault check.new) }
{
    if let Some(line) = unproved_line(&check.current) {
        return Err(ProofFault::BadProof { line });
    }
    let mut items = Vec::new(check.alloc);
    let Some(support) = row_in(check.names, text, &mut items)? else {
        return Err(ProofFault::BadProof { line: number });
    };
    let row = Row {
        pattern: Pattern::new(items),
        support,
    };
    if support < check.job.threshold() {
        return Err(ProofFault::BadProof { line: number });
    }
    if !is_behind(check.names, &check.current, &row) {
        return Err(ProofFault::BadProof { line: number });
    }
    let Some(rows) = check.rows.checked_add(1) else {
        return Err(ProofFault::NoMemory);
    };
    check.rows = rows;
    check.current = Some(Above {
        row,
        line: number,
        weight: 0,
        least: 0,
    });
    Ok(())
}

/// The line of the row that is open, where its paths do not weigh enough.
fn unproved_line(current: &Option<Above>) -> Option<u64>
    ensures { MatchOption result (IfSome (option_map open_row_of current.now) IsClosed)
        (λ line. (above : OpenRow) × (option_map open_row_of current.now ≡ Some above)
        × (IsClosed above → ⊥) × (line ≡ above.line)) }
{
    match current {
        Some(above) if above.weight < above.row.support => Some(above.line),
        _ => None,
    }
}

/// Whether the row comes behind the one that is open, if there is one.
fn is_behind(names: &Names, current: &Option<Above>, row: &Row) -> bool
    ensures { IsTrue result ↔ IfSome current.now (λ above.
        ComesBefore (named_row names.now above.row) (named_row names.now row.now)) }
{
    match current {
        Some(above) => comes_before(names, &above.row, row),
        None => true,
    }
}

/// Takes a path line, under the row that is open.
fn take_path<'a>(check: &mut Check<'a>, number: u64, text: &[u8]) -> Result<(), ProofFault>
    requires sound { IsSoundLine text.now }
    requires path { is_path_line text.now ≡ true }
    ensures took { OnOk result (TookLine check.old number text.now check.new) }
    ensures refused { IfErr result (λ fault. RefusedLine check.old number text.now fault check.new) }
{
    let Some(place) = path_said(check.job, text, &mut check.states)? else {
        return Err(ProofFault::BadProof { line: number });
    };
    let Some(above) = check.current.take() else {
        return Err(ProofFault::BadProof { line: number });
    };
    if !is_good(check.job, &above, place, check.states.as_slice()) {
        return Err(ProofFault::BadProof { line: number });
    }
    let weight = check.job.db().weight(place);
    check.current = Some(with_path(above, place, weight));
    Ok(())
}

/// The path that a line says, as `path_in` gives it. None where no path that it says is good for any row.
fn path_said(job: &Job, text: &[u8], states: &mut Vec<State>) -> Result<Option<u32>, NoMemory>
    requires { is_path_line text.now ≡ true }
    ensures { IfOk result (λ said. MatchOption said
        ((row : Row) (path : Cited) → SaysPath text.now path → IsGoodPath job.now row path → ⊥)
        (λ place. SaysPath text.now (record { place = place; states = numbers_of states.new.items }))) }
{
    // No good path has a greater number than these.
    let _sequences = job.db().sequences();
    let _states = job.fst().states();
    path_in(text, states)
}

/// The row with one more path, over the sequence with this number and weight.
fn with_path(above: Above, place: u32, weight: u64) -> Above
    requires later { above.least ≤ place }
    requires few { place < most_sequences }
    requires light { weight ≤ most_weight }
    ensures row { result.row ≡ above.row }
    ensures line { result.line ≡ above.line }
    ensures weight { result.weight ≡ above.weight + weight }
    ensures least { result.least ≡ place + 1 }
{
    Above {
        row: above.row,
        line: above.line,
        weight: above.weight + weight,
        least: place + 1,
    }
}

/// Whether the states are a path over the sequence with this number that may come next under the row.
fn is_good(job: &Job, above: &Above, place: u32, states: &[State]) -> bool
    ensures good { IsTrue result ↔ MayBeCited job.now (open_row_of above.now)
        (record { place = place; states = numbers_of states.now }) }
    ensures few { IsTrue result → place < most_sequences }
{
    if place < above.least || place >= job.db().sequences() {
        return false;
    }
    checks(job, place, above.row.pattern.items(), states)
}

/// Reads a proof file and judges it line by line. The answer is the number of its rows.
pub fn read_proof<F: Files>(
    alloc: Global,
    files: &mut F,
    name: &str,
    job: &Job,
    names: &Names,
) -> Result<u64, ProofFault>
    requires may { IsTrue (F.may files.old name.now) }
    requires names { AreFileNames names.now }
    ensures good { IfOk result (λ rows. OfBytes (F.holds files.old name.now) (λ bytes.
        IsGood job.now names.now (lines_of bytes) rows)) }
    ensures accepted { OnOk result (OfBytes (F.holds files.old name.now) (λ bytes.
        (fault : ProofFault) → IsProofRefusal job.now names.now bytes fault → ⊥)) }
    ensures refused { (fault : ProofFault) → result ≡ Err fault
        → fault ≢ ProofFault.ReadFault → fault ≢ ProofFault.NoMemory
        → IfSome (F.holds files.old name.now) (λ bytes. IsProofRefusal job.now names.now bytes fault) }
    ensures failed { result ≡ Err ProofFault.ReadFault → Rose (F.faults files.old) (F.faults files.new) }
    ensures same_names { F.may files.new ≡ F.may files.old }
    ensures same_files { F.holds files.new ≡ F.holds files.old }
    ensures never_falls { F.faults files.old ≤ F.faults files.new }
{
    let mut check = Check {
        alloc,
        job,
        names,
        rows: 0,
        current: None,
        states: Vec::new(alloc),
    };
    match read_all(alloc, files, name, &mut check) {
        Ok(()) => close(&check),
        Err(fault) => Err(fault),
    }
}

/// Judges the last row, behind the last line. The answer is the number of rows.
fn close<'a>(check: &Check<'a>) -> Result<u64, ProofFault>
    ensures rows { IfOk result (λ rows. rows ≡ check.now.rows) }
    ensures closed { OnOk result (IfSome (standing_of check.now).current IsClosed) }
    ensures refused { (fault : ProofFault) → result ≡ Err fault → RefusesEnd (standing_of check.now) fault }
{
    match unproved_line(&check.current) {
        Some(line) => Err(ProofFault::BadProof { line }),
        None => Ok(check.rows),
    }
}

/// Reads the whole file.
fn read_all<'a, F: Files>(
    alloc: Global,
    files: &mut F,
    name: &str,
    check: &mut Check<'a>,
) -> Result<(), ProofFault>
    requires may { IsTrue (F.may files.old name.now) }
    requires names { AreFileNames check.old.names.now }
    requires start { standing_of check.old ≡ at_start }
    ensures taken { OnOk result (OfBytes (F.holds files.old name.now) (λ bytes.
        WasGiven (StepsTo check.old.job.now check.old.names.now) 1 (lines_of bytes)
        at_start (standing_of check.new))) }
    ensures refused { (fault : ProofFault) → result ≡ Err fault
        → fault ≢ ProofFault.ReadFault → fault ≢ ProofFault.NoMemory
        → IfSome (F.holds files.old name.now) (λ bytes.
        IsProofRefusal check.old.job.now check.old.names.now bytes fault) }
    ensures failed { result ≡ Err ProofFault.ReadFault → Rose (F.faults files.old) (F.faults files.new) }
    ensures same_names { F.may files.new ≡ F.may files.old }
    ensures same_files { F.holds files.new ≡ F.holds files.old }
    ensures never_falls { F.faults files.old ≤ F.faults files.new }
{
    match read_lines(alloc, files, name, check) {
        Ok(_) => Ok(()),
        Err(TextFault::ReadFault) => Err(ProofFault::ReadFault),
        Err(TextFault::TooLarge) => Err(ProofFault::TooLarge),
        Err(TextFault::BadByte { line, column }) => Err(ProofFault::BadByte { line, column }),
        Err(TextFault::NameTooLong { line, column }) => Err(ProofFault::NameTooLong {
            line,
            column,
        }),
        Err(TextFault::Visitor(fault)) => Err(fault),
        Err(TextFault::NoMemory) => Err(ProofFault::NoMemory),
    }
}
