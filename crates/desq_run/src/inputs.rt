//! Reads the files that a command names, or makes its input.

ghost use Rattle.std.specs.Prelude.{◌≡◌, ◌≢◌, ℕ, ◌≤◌, ◌<◌, ◌++◌, List, [], Option, Err, IsSome, IsTrue, IfOk, IfErr, OnOk, IfSome, None, length, All, option_map, string_bytes};
ghost use Rattle.std.specs.List.{AllByRecursion};
ghost use Rattle.text_ports.specs.Faults.{Rose};
ghost use Rattle.mine_model.specs.declared.fault.Fault.TheVariants.{Read, Write};
ghost use Rattle.mine_model.specs.declared.fault.Which.{Which};
ghost use Rattle.mine_model.specs.declared.fault.Which.TheVariants.{Hierarchy as OfHierarchy, Sequences};
ghost use Rattle.mine_model.specs.Ancestry.{Ancestry};
ghost use Rattle.mine_model.specs.Names.{HasName, AreDistinct};
ghost use Rattle.mine_model.specs.Refusal.{IsHierarchyRefusal, IsSequencesRefusal};
ghost use Rattle.made_input.specs.Made.{most_made};
ghost use Rattle.command_line.specs.Words.{NamesFile, file_of, make, Command as CommandSaid};
ghost use Rattle.command_line.specs.Commands.{source_said, command_said};
ghost use Rattle.desq_run.specs.Ends.{bytes_named, HasSource, MayEndWith};
ghost use Rattle.desq_run.specs.Inputs.{IsClosureOf, RefusesRows, AreRowsOf, IsDatabaseOf, AreLinksWithin, AreInputs, FailsBy, FailsInTurn, HasRanges, IsMinedBy};

use command_line::{Command, Source};
use item_hierarchy::{CloseFault, Ordered, order};
use item_names::Names;
use mine_model::{Db, Fault, Hierarchy, NoMemory};
use std::alloc::Global;
use std::thread;
use std::thread::Threads;
use text_ports::Files;

/// What the files of a command say, or what was made: items by the numbers of their names.
#[derive(Debug, Drop)]
pub(crate) struct Inputs {
    pub(crate) names: Names,
    pub(crate) hierarchy: Hierarchy,
    pub(crate) db: Db,
}

/// The sequences of the file of this name. A new name gets the next number.
fn read_sequences<R: Threads + Sync, F: Files>(
    rt: &R,
    workers: u32,
    alloc: Global,
    files: &mut F,
    name: &str,
    weighted: bool,
    names: &mut Names,
) -> Result<Db, Fault>
    requires may { IsTrue (F.may files.old name.now) }
    ensures database { IfOk result (λ db. IfSome (F.holds files.old name.now) (λ bytes.
        IsDatabaseOf weighted bytes names.old names.new db)) }
    ensures named { IfOk result (λ db. AllByRecursion (λ s. AllByRecursion (HasName names.new) s.items) db) }
    ensures fails { IfErr result (λ fault. FailsBy (F.holds files.old name.now)
        (IsSequencesRefusal weighted names.old) Sequences (Unit {0})
        (Rose (F.faults files.old) (F.faults files.new)) fault) }
    ensures kept { (added : List (List ℕ)) × (names.new ≡ names.old ++ added) }
    ensures same_names { F.may files.new ≡ F.may files.old }
    ensures same_files { F.holds files.new ≡ F.holds files.old }
    ensures never_falls { F.faults files.old ≤ F.faults files.new }
{
    match sequence_reader::read(rt, workers, alloc, files, name, weighted, names) {
        Ok(db) => Ok(db),
        Err(fault) => Err(Fault::from(fault)),
    }
}

/// The rows of the hierarchy file of this name, where they have no cycle.
fn read_named<F: Files>(
    alloc: Global,
    files: &mut F,
    name: &str,
    names: &mut Names,
) -> Result<Option<Ordered>, Fault>
    requires may { IsTrue (F.may files.old name.now) }
    requires empty { names.old ≡ [] }
    ensures rows { IfOk result (λ rows. IfSome (F.holds files.old name.now)
        (λ bytes. AreRowsOf bytes names.new rows)) }
    ensures items { IfOk result (λ rows. (h : Ancestry) → IsClosureOf rows h → h.items ≡ length names.new) }
    ensures fails { IfErr result
        (λ fault. FailsBy (F.holds files.old name.now) IsHierarchyRefusal OfHierarchy (Unit {0})
        (Rose (F.faults files.old) (F.faults files.new)) fault) }
    ensures same_names { F.may files.new ≡ F.may files.old }
    ensures same_files { F.holds files.new ≡ F.holds files.old }
    ensures never_falls { F.faults files.old ≤ F.faults files.new }
{
    let edges = match item_hierarchy::read(alloc, files, name, names) {
        Ok(edges) => edges,
        Err(fault) => return Err(Fault::from(fault)),
    };
    // Names differ.
    let _count = names.count();
    match order(alloc, edges) {
        Ok(ordered) => Ok(Some(ordered)),
        Err(fault) => Err(Fault::from(fault)),
    }
}

/// The rows of the hierarchy file of this name, where one is named and they have no cycle.
fn read_rows<F: Files>(
    alloc: Global,
    files: &mut F,
    name: &Option<String>,
    names: &mut Names,
) -> Result<Option<Ordered>, Fault>
    requires may { IfSome name.now (λ name. IsTrue (F.may files.old (string_bytes name))) }
    requires empty { names.old ≡ [] }
    ensures rows { IfOk result (λ rows.
        IfSome (bytes_named (F.holds files.old) (option_map string_bytes name.now)) (λ bytes.
        AreRowsOf bytes names.new rows)) }
    ensures items { IfOk result (λ rows. (h : Ancestry) → IsClosureOf rows h → h.items ≡ length names.new) }
    ensures fails { IfErr result (λ fault.
        FailsBy (bytes_named (F.holds files.old) (option_map string_bytes name.now))
        IsHierarchyRefusal OfHierarchy
        (IsSome (option_map string_bytes name.now)) (Rose (F.faults files.old) (F.faults files.new)) fault) }
    ensures same_names { F.may files.new ≡ F.may files.old }
    ensures same_files { F.holds files.new ≡ F.holds files.old }
    ensures never_falls { F.faults files.old ≤ F.faults files.new }
{
    match name {
        Some(name) => read_named(alloc, files, name.as_str(), names),
        None => Ok(None),
    }
}

/// A hierarchy of no items.
fn no_hierarchy(alloc: Global) -> Hierarchy
    ensures items { result.items ≡ 0 }
    ensures within { AreLinksWithin result }
{
    let hierarchy = Hierarchy::new(Vec::new(alloc), Vec::new(alloc));
    // No link leads out of the items of a hierarchy.
    let _items = hierarchy.items();
    hierarchy
}

/// The hierarchy of these rows. Of no rows it has no items.
fn closed(alloc: Global, rows: &Option<Ordered>) -> Result<Hierarchy, CloseFault>
    ensures closed { IfOk result (IsClosureOf rows.now) }
    ensures within { IfOk result (λ h. AreLinksWithin h) }
    ensures refused { IfErr result (RefusesRows rows.now) }
{
    match rows {
        Some(ordered) => {
            let hierarchy = ordered.close(alloc)?;
            // No link leads out of the items of a hierarchy.
            let _items = hierarchy.items();
            Ok(hierarchy)
        }
        None => Ok(no_hierarchy(alloc)),
    }
}

/// Whether closing these rows is surely refused for want of memory alone. It is a hint.
fn are_surely_few(alloc: Global, rows: &Option<Ordered>) -> bool {
    match rows {
        Some(ordered) => ordered.are_surely_few(alloc),
        None => false,
    }
}

/// The hierarchy of these rows, and beside it the sequences of the file of this name.
fn closed_beside<R: Threads + Sync, F: Files>(
    rt: &R,
    workers: u32,
    alloc: Global,
    rows: &Option<Ordered>,
    files: &mut F,
    name: &str,
    weighted: bool,
    names: &mut Names,
) -> (Result<Hierarchy, CloseFault>, Result<Db, Fault>)
    requires may { IsTrue (F.may files.old name.now) }
    ensures closed { IfOk result.0 (IsClosureOf rows.now) }
    ensures within { IfOk result.0 (λ h. AreLinksWithin h) }
    ensures refused { IfErr result.0 (RefusesRows rows.now) }
    ensures database { IfOk result.1 (λ db. IfSome (F.holds files.old name.now) (λ bytes.
        IsDatabaseOf weighted bytes names.old names.new db)) }
    ensures named { IfOk result.1 (λ db.
        AllByRecursion (λ s. AllByRecursion (HasName names.new) s.items) db) }
    ensures fails { IfErr result.1 (λ fault. FailsBy (F.holds files.old name.now)
        (IsSequencesRefusal weighted names.old) Sequences (Unit {0})
        (Rose (F.faults files.old) (F.faults files.new)) fault) }
    ensures kept { (added : List (List ℕ)) × (names.new ≡ names.old ++ added) }
    ensures same_names { F.may files.new ≡ F.may files.old }
    ensures same_files { F.holds files.new ≡ F.holds files.old }
    ensures never_falls { F.faults files.old ≤ F.faults files.new }
{
    thread::join_mut(
        rt,
        &mut || -> Result<Hierarchy, CloseFault>
            ensures closed { IfOk result (IsClosureOf rows.entry.now) }
            ensures within { IfOk result (λ h. AreLinksWithin h) }
            ensures refused { IfErr result (RefusesRows rows.entry.now) }
        { closed(alloc, rows) },
        &mut || -> Result<Db, Fault>
            requires may { IsTrue (F.may files.now name.now) }
            ensures database { IfOk result (λ db. IfSome (F.holds files.entry.now name.entry.now)
                (λ bytes. IsDatabaseOf weighted bytes names.entry.now names.exit.now db)) }
            ensures named { IfOk result (λ db.
                AllByRecursion (λ s. AllByRecursion (HasName names.exit.now) s.items) db) }
            ensures fails { IfErr result (λ fault. FailsBy (F.holds files.entry.now name.entry.now)
                (IsSequencesRefusal weighted names.entry.now) Sequences (Unit {0})
                (Rose (F.faults files.entry.now) (F.faults files.exit.now)) fault) }
            ensures kept { (added : List (List ℕ)) × (names.exit.now ≡ names.entry.now ++ added) }
            ensures same_names { F.may files.exit.now ≡ F.may files.entry.now }
            ensures same_files { F.holds files.exit.now ≡ F.holds files.entry.now }
            ensures never_falls { F.faults files.entry.now ≤ F.faults files.exit.now }
        { read_sequences(rt, workers, alloc, files, name, weighted, names) },
    )
}

/// The hierarchy of these rows, and the sequences of the file of this name. Several workers close the rows
/// while the file is read, where closing is surely not refused: else a refusal comes before the file is
/// opened.
fn closed_and_read<R: Threads + Sync, F: Files>(
    rt: &R,
    workers: u32,
    alloc: Global,
    rows: Option<Ordered>,
    files: &mut F,
    name: &str,
    weighted: bool,
    names: &mut Names,
) -> Result<(Hierarchy, Db), Fault>
    requires may { IsTrue (F.may files.old name.now) }
    ensures closed { IfOk result (λ both. IsClosureOf rows both.0) }
    ensures within { IfOk result (λ both. AreLinksWithin both.0) }
    ensures database { IfOk result (λ both. IfSome (F.holds files.old name.now) (λ bytes.
        IsDatabaseOf weighted bytes names.old names.new both.1)) }
    ensures named { IfOk result (λ both.
        AllByRecursion (λ s. AllByRecursion (HasName names.new) s.items) both.1) }
    ensures fails { IfErr result (FailsInTurn rows (FailsBy (F.holds files.old name.now)
        (IsSequencesRefusal weighted names.old) Sequences (Unit {0})
        (Rose (F.faults files.old) (F.faults files.new)))) }
    ensures kept { (added : List (List ℕ)) × (names.new ≡ names.old ++ added) }
    ensures same_names { F.may files.new ≡ F.may files.old }
    ensures same_files { F.holds files.new ≡ F.holds files.old }
    ensures never_falls { F.faults files.old ≤ F.faults files.new }
{
    if workers > 1 && are_surely_few(alloc, &rows) {
        let (hierarchy, db) = closed_beside(
            rt, workers, alloc, &rows, files, name, weighted, names,
        );
        return Ok((hierarchy?, db?));
    }
    let hierarchy = closed(alloc, &rows)?;
    drop(rows);
    let db = read_sequences(rt, workers, alloc, files, name, weighted, names)?;
    Ok((hierarchy, db))
}

/// The hierarchy and the sequences of a command, whose file this is. An item of the sequences may be none of
/// the hierarchy yet.
fn read_both<R: Threads + Sync, F: Files>(
    rt: &R,
    alloc: Global,
    command: &Command,
    file: &str,
    files: &mut F,
    names: &mut Names,
) -> Result<(Hierarchy, Db), Fault>
    requires may { (file : List ℕ) → NamesFile (command_said command.now) file
        → IsTrue (F.may files.old file) }
    requires file { file_of (source_said command.now.source) ≡ Some file.now }
    requires empty { names.old ≡ [] }
    ensures inputs { IfOk result (λ both. AreInputs (F.holds files.old) (command_said command.now)
        names.new both.0 both.1) }
    ensures items { IfOk result (λ both. both.0.items ≤ length names.new) }
    ensures named { IfOk result (λ both.
        AllByRecursion (λ s. AllByRecursion (HasName names.new) s.items) both.1) }
    ensures ends { (words : List (List ℕ)) → HasSource words (command_said command.now)
        → IfErr result (λ fault. MayEndWith words (F.holds files.old) (Err fault)) }
    ensures read_fault { (file : Which) → result ≡ Err (Read file)
        → Rose (F.faults files.old) (F.faults files.new) }
    ensures no_write { result ≢ Err Write }
    ensures same_names { F.may files.new ≡ F.may files.old }
    ensures same_files { F.holds files.new ≡ F.holds files.old }
    ensures never_falls { F.faults files.old ≤ F.faults files.new }
{
    let rows = read_rows(alloc, files, &command.hierarchy, names)?;
    let both = closed_and_read(
        rt,
        command.workers,
        alloc,
        rows,
        files,
        file,
        command.weighted,
        names,
    )?;
    Ok(both)
}

/// Reads the hierarchy and then the sequences of a command, whose file this is.
fn read_files<R: Threads + Sync, F: Files>(
    rt: &R,
    alloc: Global,
    command: &Command,
    file: &str,
    files: &mut F,
) -> Result<Inputs, Fault>
    requires may { (file : List ℕ) → NamesFile (command_said command.now) file
        → IsTrue (F.may files.old file) }
    requires file { file_of (source_said command.now.source) ≡ Some file.now }
    ensures inputs { IfOk result (λ inputs. AreInputs (F.holds files.old) (command_said command.now)
        inputs.names inputs.hierarchy inputs.db) }
    ensures distinct { IfOk result (λ inputs. AreDistinct inputs.names) }
    ensures items { IfOk result (λ inputs. inputs.hierarchy.items ≡ length inputs.names) }
    ensures named { IfOk result (λ inputs.
        AllByRecursion (λ s. AllByRecursion (HasName inputs.names) s.items) inputs.db) }
    ensures ends { (words : List (List ℕ)) → HasSource words (command_said command.now)
        → IfErr result (λ fault. MayEndWith words (F.holds files.old) (Err fault)) }
    ensures read_fault { (file : Which) → result ≡ Err (Read file)
        → Rose (F.faults files.old) (F.faults files.new) }
    ensures no_write { result ≢ Err Write }
    ensures same_names { F.may files.new ≡ F.may files.old }
    ensures same_files { F.holds files.new ≡ F.holds files.old }
    ensures never_falls { F.faults files.old ≤ F.faults files.new }
{
    let mut names = Names::new(alloc)?;
    let (mut hierarchy, db) = read_both(rt, alloc, command, file, files, &mut names)?;
    hierarchy.cover(names.count())?;
    Ok(Inputs {
        names,
        hierarchy,
        db,
    })
}

/// So many made sequences and the hierarchy above their items.
fn make_inputs(alloc: Global, count: u32) -> Result<Inputs, NoMemory>
    requires { count ≤ most_made }
    ensures inputs { (holds : List ℕ → Option (List ℕ)) (command : CommandSaid) (expression : List ℕ)
        → command.source ≡ make count expression
        → IfOk result (λ inputs. AreInputs holds command inputs.names inputs.hierarchy inputs.db) }
    ensures distinct { IfOk result (λ inputs. AreDistinct inputs.names) }
    ensures items { IfOk result (λ inputs. inputs.hierarchy.items ≡ length inputs.names) }
    ensures named { IfOk result (λ inputs.
        AllByRecursion (λ s. AllByRecursion (HasName inputs.names) s.items) inputs.db) }
{
    let made = made_input::make(alloc, count)?;
    // Names differ, and no link leads out of the items of a hierarchy.
    let _count = made.names.count();
    let _items = made.hierarchy.items();
    Ok(Inputs {
        names: made.names,
        hierarchy: made.hierarchy,
        db: made.db,
    })
}

/// Reads the files of a command, the hierarchy first, or makes its input.
pub(crate) fn read_inputs<R: Threads + Sync, F: Files>(
    rt: &R,
    alloc: Global,
    command: &Command,
    files: &mut F,
) -> Result<Inputs, Fault>
    requires may { (file : List ℕ) → NamesFile (command_said command.now) file
        → IsTrue (F.may files.old file) }
    requires mined { IsMinedBy (source_said command.now.source) }
    requires ranges { HasRanges (source_said command.now.source) }
    ensures inputs { IfOk result (λ inputs. AreInputs (F.holds files.old) (command_said command.now)
        inputs.names inputs.hierarchy inputs.db) }
    ensures distinct { IfOk result (λ inputs. AreDistinct inputs.names) }
    ensures items { IfOk result (λ inputs. inputs.hierarchy.items ≡ length inputs.names) }
    ensures named { IfOk result (λ inputs.
        AllByRecursion (λ s. AllByRecursion (HasName inputs.names) s.items) inputs.db) }
    ensures ends { (words : List (List ℕ)) → HasSource words (command_said command.now)
        → IfErr result (λ fault. MayEndWith words (F.holds files.old) (Err fault)) }
    ensures read_fault { (file : Which) → result ≡ Err (Read file)
        → Rose (F.faults files.old) (F.faults files.new) }
    ensures no_write { result ≢ Err Write }
    ensures untouched { file_of (source_said command.now.source) ≡ None → files.new ≡ files.old }
    ensures same_names { F.may files.new ≡ F.may files.old }
    ensures same_files { F.holds files.new ≡ F.holds files.old }
    ensures never_falls { F.faults files.old ≤ F.faults files.new }
{
    match &command.source {
        Source::Read { file, .. } => read_files(rt, alloc, command, file.as_str(), files),
        Source::Embed { file, .. } => read_files(rt, alloc, command, file.as_str(), files),
        Source::Make { count, .. } => Ok(make_inputs(alloc, *count)?),
        Source::Merge { .. } => unreachable!(),
    }
}
