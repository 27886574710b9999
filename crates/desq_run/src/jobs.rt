//! From the words of a command to the job that it sets: nothing is mined yet.

ghost use Rattle.std.specs.Prelude.{◌≡◌, ◌≢◌, ◌⊎◌, ◌≤◌, ◌<◌, ℕ, List, Err, IsTrue, IfOk, IfErr, OnOk, length, map};
ghost use Rattle.std.specs.List.{AllByRecursion};
ghost use Rattle.text_ports.specs.Faults.{Rose};
ghost use Rattle.mine_model.specs.declared.fault.Fault.{Fault};
ghost use Rattle.mine_model.specs.declared.fault.Fault.TheVariants.{Read, Write, NoMemory as OutOfMemory};
ghost use Rattle.mine_model.specs.declared.fault.Which.{Which};
ghost use Rattle.mine_model.specs.Limits.{most_leaves};
ghost use Rattle.mine_model.specs.Expression.{named_in, unfolded_leaves};
ghost use Rattle.mine_model.specs.Numbered.{tree_of};
ghost use Rattle.mine_model.specs.Names.{HasName};
ghost use Rattle.mine_model.specs.Ranks.{AreTiesByName};
ghost use Rattle.mine_model.specs.Refusal.{IsUnknown};
ghost use Rattle.patex_parser.specs.Parsing.{use_view, AreWithin, named_tree};
ghost use Rattle.mining_job.specs.Problems.{data_of};
ghost use Rattle.command_line.specs.Words.{IsCommand, NamesFile};
ghost use Rattle.command_line.specs.Commands.{source_said, command_said};
ghost use Rattle.desq_run.specs.Ends.{NeedsNoFile, MayEndWith};
ghost use Rattle.desq_run.specs.Inputs.{HasRanges, IsMinedBy, IsJobOf, IsJobFor};

use super::inputs::{Inputs, read_inputs};
use super::sources::read_source;
use command_line::Command;
use frequency_list::count;
use fst_compile::compile;
use item_names::Names;
use mine_model::{Db, Expr, Fault, Hierarchy, Item, NoMemory};
use mining_job::Job;
use patex_parser::{FindName, Parsed, resolve};
use std::alloc::Global;
use std::thread::Threads;
use text_ports::Files;

/// The job of the expression, where its names have these items. Their frequencies are counted by so many
/// workers.
fn job_of<R: Threads + Sync>(
    rt: &R,
    alloc: Global,
    names: &Names,
    hierarchy: Hierarchy,
    db: Db,
    expression: &Expr,
    threshold: u64,
    workers: u32,
) -> Result<Job, NoMemory>
    requires threshold { 1 ≤ threshold }
    requires items { hierarchy.items ≡ length names.now }
    requires sequences { AllByRecursion (λ s. AllByRecursion (HasName names.now) s.items) db }
    requires named { AllByRecursion (HasName names.now) (named_in (tree_of expression.now)) }
    requires leaves { unfolded_leaves (tree_of expression.now) ≤ most_leaves }
    ensures sets { IfOk result (λ job. data_of job ≡ record {
      links = hierarchy.links;
      sequences = db;
      expression = tree_of expression.now;
      threshold = threshold;
    }) }
    ensures items { IfOk result (λ job. job.hierarchy.items ≡ hierarchy.items) }
    ensures ties { IfOk result (λ job. AreTiesByName names.now job.ranking) }
{
    let ranks = count(rt, alloc, &hierarchy, &db, threshold, names, workers)?;
    let fst = compile(alloc, expression)?;
    Ok(Job::new(hierarchy, db, fst, ranks, threshold))
}

/// The names of items, to look up those of an expression.
#[derive(Drop)]
struct HeldNames<'a>(&'a Names);

impl<'a> FindName for HeldNames<'a> {
    ghost names_of = { λ held. held.0.now };

    fn find(&self, name: &[u8]) -> Option<Item> {
        self.0.find(name)
    }
}

/// The job of the expression that was read.
fn job_by<R: Threads + Sync>(
    rt: &R,
    alloc: Global,
    names: &Names,
    hierarchy: Hierarchy,
    db: Db,
    parsed: &Parsed,
    threshold: u64,
    workers: u32,
) -> Result<Job, Fault>
    requires threshold { 1 ≤ threshold }
    requires items { hierarchy.items ≡ length names.now }
    requires sequences { AllByRecursion (λ s. AllByRecursion (HasName names.now) s.items) db }
    requires within { AreWithin (length (map use_view parsed.now.uses.items))
        (named_in (tree_of parsed.now.tree)) }
    requires leaves { unfolded_leaves (tree_of parsed.now.tree) ≤ most_leaves }
    ensures job { IfOk result (λ job. IsJobOf names.now hierarchy db
        (named_tree (map use_view parsed.now.uses.items) (tree_of parsed.now.tree)) threshold job) }
    ensures known { OnOk result ((fault : Fault)
        → ¬ IsUnknown names.now (map use_view parsed.now.uses.items) fault) }
    ensures refused { IfErr result (λ fault. (fault ≡ OutOfMemory)
        ⊎ IsUnknown names.now (map use_view parsed.now.uses.items) fault) }
{
    let expression = resolve(parsed, &HeldNames(names))?;
    Ok(job_of(
        rt,
        alloc,
        names,
        hierarchy,
        db,
        &expression,
        threshold,
        workers,
    )?)
}

/// What a command is to mine, and the names of its items.
#[derive(Drop)]
pub(crate) struct NamedJob {
    pub(crate) names: Names,
    pub(crate) job: Job,
}

/// Reads the expression or the rule of a command, then its files, and sets the job.
pub(crate) fn read_job<R: Threads + Sync, F: Files>(
    rt: &R,
    alloc: Global,
    command: &Command,
    files: &mut F,
) -> Result<NamedJob, Fault>
    requires may { (file : List ℕ) → NamesFile (command_said command.now) file
        → IsTrue (F.may files.old file) }
    requires threshold { 1 ≤ command.now.threshold }
    requires mined { IsMinedBy (source_said command.now.source) }
    requires ranges { HasRanges (source_said command.now.source) }
    ensures job { IfOk result (λ read.
        IsJobFor (F.holds files.old) (command_said command.now) read.names read.job) }
    ensures ends { (words : List (List ℕ)) → IsCommand words (command_said command.now)
        → IfErr result (λ fault. MayEndWith words (F.holds files.old) (Err fault)) }
    ensures read_fault { (file : Which) → result ≡ Err (Read file)
        → Rose (F.faults files.old) (F.faults files.new) }
    ensures no_write { result ≢ Err Write }
    ensures untouched { NeedsNoFile (source_said command.now.source) → files.new ≡ files.old }
    ensures same_names { F.may files.new ≡ F.may files.old }
    ensures same_files { F.holds files.new ≡ F.holds files.old }
    ensures never_falls { F.faults files.old ≤ F.faults files.new }
{
    let parsed = read_source(alloc, &command.source)?;
    let inputs = read_inputs(rt, alloc, command, files)?;
    let Inputs {
        names,
        hierarchy,
        db,
    } = inputs;
    let job = job_by(
        rt,
        alloc,
        &names,
        hierarchy,
        db,
        &parsed,
        command.threshold,
        command.workers,
    )?;
    Ok(NamedJob { names, job })
}
