ghost use Rattle.std.specs.Prelude.{◌≡◌, ◌≢◌, ℕ, ◌+◌, ◌≤◌, ◌<◌, ◌⊎◌, Bool, true, false, List, [], Option, ◌++◌, map, Ok, Err, length, All, IsTrue, IfOk, IfErr, OnOk, IfSome};
ghost use Rattle.std.specs.List.{AllByRecursion};
ghost use Rattle.mine_model.specs.declared.fault.Fault.{Fault};
ghost use Rattle.mine_model.specs.First.{FirstAmong};
ghost use Rattle.mine_model.specs.Limits.{most_file_bytes, most_items, most_sequences, most_length, most_weight};
ghost use Rattle.sequence_reader.specs.Faults.{fault_of_sequences, IsReadingFault};
ghost use Rattle.mine_model.specs.Names.{name_of, HasName, sequence_by, GrowBy};
ghost use Rattle.mine_model.specs.Refusal.{sequences_of, items_of, IsSequenceLineRefusal, IsSequencesRefusal};
ghost use Rattle.mine_model.specs.Text.{lines_of};
ghost use Rattle.text_ports.specs.Faults.{Rose};
ghost use Rattle.text_ports.specs.Lines.{AreFields, IsWithin};
ghost use Rattle.text_ports.specs.Scanning.{lines_behind};
ghost use Rattle.item_names.specs.Fields.{texts_at};
ghost use Rattle.sequence_reader.specs.Blocks.{text_of, IsBlock, IsNext, IsAt};
ghost use Rattle.sequence_reader.specs.Taking.{said_to, IsWeighed, IsLineFault, TookLine, RefusedLine, IsTaken, all_waiting, with_waiting};

use super::block::Block;
use super::joining::{Waiting, append_waiting};
use super::pieces::{append_and_follow, read_in_pieces};
use super::sequence_fault::SequenceFault;
use super::weighing::{Weighed, weigh};
use item_names::{MOST_NAMES, Names, NamesFault};
use mine_model::{Db, Item, NoMemory};
use std::alloc::Global;
use std::mem;
use std::thread::Threads;
use text_ports::{Failed, Files, LineVisitor, Span, TextFault, visit_lines};

/// The most sequences of a file.
pub(crate) const MOST_SEQUENCES: u32 = 4_194_304;

/// The most items of a sequence.
const MOST_LENGTH: usize = 65_535;

/// Bytes below these are not worth pieces. One worker reads so many at once.
const LEAST_BYTES: usize = 1_048_576;

/// So many bytes are read at once where several workers share them.
const SHARED_BYTES: usize = 4_194_304;

/// What was read so far. `items` is where the items of a line are collected.
#[derive(Debug, Drop)]
pub(crate) struct Reading {
    pub(crate) weighted: bool,
    pub(crate) names: Names,
    pub(crate) items: Vec<Item>,
    pub(crate) db: Db,
}

impl LineVisitor for Reading {
    type Fault = SequenceFault;

    ghost took = { TookLine };

    ghost refused = { RefusedLine };

    fn line(&mut self, _number: u64, text: &[u8], fields: &[Span]) -> Result<(), SequenceFault> {
        let number = self.next_number();
        let line = self.next_line(number, text, fields)?;
        let items = &mut self.items;
        match self.names.intern_fields(text, line.items, items) {
            Ok(()) => {}
            Err(NamesFault::TooMany) => return Err(SequenceFault::TooManyItems { line: number }),
            Err(NamesFault::NoMemory) => return Err(SequenceFault::NoMemory),
        }
        self.db.push_weighted(items.as_slice(), line.weight)?;
        Ok(())
    }
}

impl Reading {
    /// The number of the next line: each line became one sequence.
    fn next_number(&self) -> u64
        ensures { result ≡ length self.now.db + 1 }
    {
        u64::from(self.db.sequences()) + 1
    }

    /// The next line, where there is room for it and nothing is wrong with it but perhaps its names.
    pub(crate) fn next_line<'a>(
        &self,
        number: u64,
        text: &[u8],
        fields: &'a [Span],
    ) -> Result<Weighed<'a>, SequenceFault>
        requires { AreFields text.now fields.now }
        ensures said { IfOk result (λ line. said_to self.now text.now
            ≡ record { items = texts_at text.now line.items.now; weight = line.weight }) }
        ensures within { IfOk result (λ line. All (IsWithin (length text.now)) line.items.now) }
        ensures least { IfOk result (λ line. 1 ≤ line.weight) }
        ensures most { IfOk result (λ line. line.weight ≤ most_weight) }
        ensures few { OnOk result (length self.now.db < most_sequences) }
        ensures weighed { OnOk result (IsWeighed self.now text.now) }
        ensures short { IfOk result (λ line. length line.items.now ≤ most_length) }
        ensures bad { IfErr result (λ fault. IsLineFault self.now number text.now fault) }
    {
        if self.db.sequences() == MOST_SEQUENCES {
            return Err(SequenceFault::TooManySequences { line: number });
        }
        let line = weigh(self.weighted, number, text, fields)?;
        if line.items.len() > MOST_LENGTH {
            return Err(SequenceFault::TooLong { line: number });
        }
        Ok(line)
    }
}

/// The sequences of a file, by the numbers of their names. Where lines have weights, the first field of each
/// is its weight. A new name gets the next number. After a refusal the names that were met so far are held as
/// well. The file is read by blocks; several workers read a large one in as many pieces, each in a thread of
/// its own where one can be had.
pub fn read<R: Threads + Sync, F: Files>(
    rt: &R,
    workers: u32,
    alloc: Global,
    files: &mut F,
    name: &str,
    weighted: bool,
    names: &mut Names,
) -> Result<Db, SequenceFault>
    requires may { IsTrue (F.may files.old name.now) }
    ensures sequences { IfOk result (λ db. IfSome (F.holds files.old name.now) (λ bytes.
        map (sequence_by (name_of names.new)) db ≡ sequences_of weighted bytes)) }
    ensures named { IfOk result (λ db.
        AllByRecursion (λ sequence. AllByRecursion (HasName names.new) sequence.items) db) }
    ensures grown { OnOk result (IfSome (F.holds files.old name.now) (λ bytes.
        GrowBy names.old (items_of (sequences_of weighted bytes)) names.new)) }
    ensures accepted { OnOk result (IfSome (F.holds files.old name.now) (λ bytes.
        (fault : Fault) → IsSequencesRefusal weighted names.old bytes fault → ⊥)) }

    ensures refused { (fault : SequenceFault) → result ≡ Err fault
        → fault ≢ SequenceFault.ReadFault → fault ≢ SequenceFault.NoMemory
        → IfSome (F.holds files.old name.now) (λ bytes.
        IsSequencesRefusal weighted names.old bytes (fault_of_sequences fault)) }
    ensures failed { result ≡ Err SequenceFault.ReadFault → Rose (F.faults files.old) (F.faults files.new) }
    ensures kept { (added : List (List ℕ)) × (names.new ≡ names.old ++ added) }

    ensures same_names { F.may files.new ≡ F.may files.old }
    ensures same_files { F.holds files.new ≡ F.holds files.old }
    ensures never_falls { F.faults files.old ≤ F.faults files.new }
{
    match files.open(name) {
        Ok(()) => {}
        Err(Failed) => return Err(SequenceFault::ReadFault),
    }
    let no_names = Names::new(alloc)?;
    let mut reading = Reading {
        weighted,
        names: mem::replace(names, no_names),
        items: Vec::new(alloc),
        db: Db::new(alloc),
    };
    let outcome = read_blocks(rt, workers, alloc, files, &mut reading);
    *names = reading.names;
    match outcome {
        Ok(()) => Ok(reading.db),
        Err(fault) => Err(fault),
    }
}

/// How many bytes are read at once.
fn block_bytes(workers: u32) -> usize
    ensures { 0 < result }
{
    if workers > 1 {
        SHARED_BYTES
    } else {
        LEAST_BYTES
    }
}

/// Reads the file that was opened, by blocks, into what was read so far, which has no sequence yet.
fn read_blocks<R: Threads + Sync, F: Files>(
    rt: &R,
    workers: u32,
    alloc: Global,
    files: &mut F,
    reading: &mut Reading,
) -> Result<(), SequenceFault>
    requires empty { reading.old.db ≡ [] }
    ensures taken { OnOk result ((lines : List (List ℕ))
        × IsTaken reading.old.names reading.old.weighted lines reading.new
        × IfSome (F.left files.old) (λ whole. (lines_of whole ≡ lines) × (length whole ≤ most_file_bytes))) }
    ensures refused { (fault : SequenceFault) → result ≡ Err fault
        → fault ≢ SequenceFault.ReadFault → fault ≢ SequenceFault.NoMemory
        → IfSome (F.left files.old) (λ whole.
        IsSequencesRefusal reading.old.weighted reading.old.names whole (fault_of_sequences fault)) }
    ensures failed { result ≡ Err SequenceFault.ReadFault → Rose (F.faults files.old) (F.faults files.new) }
    ensures kept { (added : List (List ℕ)) × (reading.new.names ≡ reading.old.names ++ added) }
    ensures same_names { F.may files.new ≡ F.may files.old }
    ensures same_files { F.holds files.new ≡ F.holds files.old }
    ensures never_falls { F.faults files.old ≤ F.faults files.new }
{
    prove!(reading.names.count() <= MOST_NAMES);
    let size = block_bytes(workers);
    let mut block = Block::new(alloc, size)?;
    let mut next = Block::new(alloc, size)?;
    let mut waiting = Vec::new(alloc);
    match block.begin(files) {
        Ok(()) => {}
        Err(fault) => return Err(SequenceFault::from(fault)),
    }
    while !block.is_last() {
        read_block(
            rt,
            workers,
            alloc,
            files,
            &block,
            &mut next,
            reading,
            &mut waiting,
        )?;
        mem::swap(&mut block, &mut next);
    }
    read_block(
        rt,
        workers,
        alloc,
        files,
        &block,
        &mut next,
        reading,
        &mut waiting,
    )?;
    append_waiting(&mut reading.db, waiting.as_slice(), &mut reading.items)?;
    Ok(())
}

/// Reads the lines of a block behind what was read so far, where some sequences may wait: in pieces where
/// that pays and all of them are accepted, and else in order. And reads the next block.
fn read_block<R: Threads + Sync, F: Files>(
    rt: &R,
    workers: u32,
    alloc: Global,
    files: &mut F,
    block: &Block,
    next: &mut Block,
    reading: &mut Reading,
    waiting: &mut Vec<Waiting>,
) -> Result<(), SequenceFault>
    requires block { IsBlock block.now }
    requires buffer { 0 < length next.old.buffer.items }
    requires room { length reading.old.db + length (all_waiting waiting.old.items) ≤ most_sequences }
    ensures taken { OnOk result ((known lines : List (List ℕ)) (weighted : Bool)
        → IsTaken known weighted lines (with_waiting reading.old waiting.old.items)
        → IsTaken known weighted (lines ++ lines_behind (text_of block.now))
        (with_waiting reading.new waiting.new.items)) }
    ensures refused { (fault : SequenceFault) → result ≡ Err fault
        → fault ≢ SequenceFault.ReadFault → fault ≢ SequenceFault.NoMemory
        → (told : Option (List ℕ)) (known lines : List (List ℕ)) (weighted : Bool)
        → IsAt told (F.left files.old) lines block.now
        → IsTaken known weighted lines (with_waiting reading.old waiting.old.items)
        → IfSome told (λ whole. IsSequencesRefusal weighted known whole (fault_of_sequences fault)) }
    ensures failed { result ≡ Err SequenceFault.ReadFault → Rose (F.faults files.old) (F.faults files.new) }
    ensures room { OnOk result
        (length reading.new.db + length (all_waiting waiting.new.items) ≤ most_sequences) }
    ensures kept { (added : List (List ℕ)) × (reading.new.names ≡ reading.old.names ++ added) }
    ensures block { OnOk result (IsNext block.now next.new) }
    ensures at { OnOk result ((told : Option (List ℕ)) (lines : List (List ℕ))
        → IsAt told (F.left files.old) lines block.now
        → IsAt told (F.left files.new) (lines ++ lines_behind (text_of block.now)) next.new) }
    ensures same_names { F.may files.new ≡ F.may files.old }
    ensures same_files { F.holds files.new ≡ F.holds files.old }
    ensures never_falls { F.faults files.old ≤ F.faults files.new }
{
    if read_apart(rt, workers, alloc, files, block, next, reading, waiting)? {
        return Ok(());
    }
    match read_in_order(alloc, block.text(), reading) {
        Ok(()) => {
            prove!(reading.db.sequences() <= MOST_SEQUENCES);
            Ok(())
        }
        Err(fault) => Err(refusal(files, next, fault)),
    }
}

/// Reads the next block. Beside it the lines of this one are read in pieces, behind what was read so far,
/// where that pays. The answer is whether they were and all of them were accepted. Else no sequence waits.
fn read_apart<R: Threads + Sync, F: Files>(
    rt: &R,
    workers: u32,
    alloc: Global,
    files: &mut F,
    block: &Block,
    next: &mut Block,
    reading: &mut Reading,
    waiting: &mut Vec<Waiting>,
) -> Result<bool, SequenceFault>
    requires block { IsBlock block.now }
    requires buffer { 0 < length next.old.buffer.items }
    requires room { length reading.old.db + length (all_waiting waiting.old.items) ≤ most_sequences }
    ensures taken { result ≡ Ok true → (known lines : List (List ℕ)) (weighted : Bool)
        → IsTaken known weighted lines (with_waiting reading.old waiting.old.items)
        → IsTaken known weighted (lines ++ lines_behind (text_of block.now))
        (with_waiting reading.new waiting.new.items) }
    ensures untaken { result ≡ Ok false → (known lines : List (List ℕ)) (weighted : Bool)
        → IsTaken known weighted lines (with_waiting reading.old waiting.old.items)
        → IsTaken known weighted lines reading.new }
    ensures none { result ≡ Ok false → waiting.new.items ≡ [] }
    ensures room { OnOk result
        (length reading.new.db + length (all_waiting waiting.new.items) ≤ most_sequences) }
    ensures kept { (added : List (List ℕ)) × (reading.new.names ≡ reading.old.names ++ added) }
    ensures same { reading.new.weighted ≡ reading.old.weighted }
    ensures block { OnOk result (IsNext block.now next.new) }
    ensures at { OnOk result ((told : Option (List ℕ)) (lines : List (List ℕ))
        → IsAt told (F.left files.old) lines block.now
        → IsAt told (F.left files.new) (lines ++ lines_behind (text_of block.now)) next.new) }
    ensures too_large { result ≡ Err SequenceFault.TooLarge
        → (told : Option (List ℕ)) (lines : List (List ℕ)) → IsAt told (F.left files.old) lines block.now
        → IfSome told (λ whole. most_file_bytes < length whole) }
    ensures failed { result ≡ Err SequenceFault.ReadFault → Rose (F.faults files.old) (F.faults files.new) }
    ensures why { (fault : SequenceFault) → result ≡ Err fault → IsReadingFault fault }
    ensures same_names { F.may files.new ≡ F.may files.old }
    ensures same_files { F.holds files.new ≡ F.holds files.old }
    ensures never_falls { F.faults files.old ≤ F.faults files.new }
{
    if workers > 1 && block.text().len() >= LEAST_BYTES {
        return read_in_pieces(rt, workers, alloc, files, block, next, reading, waiting);
    }
    append_and_follow(
        files,
        block,
        next,
        &mut reading.db,
        waiting.as_slice(),
        &mut reading.items,
    )?;
    waiting.clear();
    Ok(false)
}

/// What comes before the refusal of a line, if the rest of the file cannot be read or is too large, or else
/// this.
fn refusal<F: Files>(files: &mut F, next: &mut Block, fault: SequenceFault) -> SequenceFault
    requires block { IsBlock next.old }
    requires line { fault ≢ SequenceFault.ReadFault }
    ensures first { result ≢ SequenceFault.ReadFault → result ≢ SequenceFault.NoMemory
        → (told : Option (List ℕ)) (lines : List (List ℕ)) → IsAt told (F.left files.old) lines next.old
        → IfSome told (λ whole.
        ((most_file_bytes < length whole) × (result ≡ SequenceFault.TooLarge))
        ⊎ ((length whole ≤ most_file_bytes) × (result ≡ fault))) }
    ensures failed { result ≡ SequenceFault.ReadFault → Rose (F.faults files.old) (F.faults files.new) }
    ensures same_names { F.may files.new ≡ F.may files.old }
    ensures same_files { F.holds files.new ≡ F.holds files.old }
    ensures never_falls { F.faults files.old ≤ F.faults files.new }
{
    match next.skip_to_end(files) {
        Ok(()) => fault,
        Err(earlier) => SequenceFault::from(earlier),
    }
}

/// Reads bytes line by line behind what was read so far.
pub(crate) fn read_in_order(
    alloc: Global,
    bytes: &[u8],
    reading: &mut Reading,
) -> Result<(), SequenceFault>
    requires few { length bytes.now ≤ most_file_bytes }
    ensures taken { OnOk result ((known lines : List (List ℕ)) (weighted : Bool)
        → IsTaken known weighted lines reading.old
        → IsTaken known weighted (lines ++ lines_behind bytes.now) reading.new) }
    ensures refused { (fault : SequenceFault) → result ≡ Err fault → fault ≢ SequenceFault.NoMemory
        → (known lines : List (List ℕ)) (weighted : Bool) → IsTaken known weighted lines reading.old
        → FirstAmong (IsSequenceLineRefusal weighted known) lines
        (lines_behind bytes.now) (fault_of_sequences fault) }
    ensures read { result ≢ Err SequenceFault.ReadFault }
    ensures kept { (added : List (List ℕ)) × (reading.new.names ≡ reading.old.names ++ added) }
{
    match visit_lines(alloc, bytes, reading) {
        Ok(_) => Ok(()),
        Err(TextFault::ReadFault) => Err(SequenceFault::ReadFault),
        Err(TextFault::TooLarge) => Err(SequenceFault::TooLarge),
        Err(TextFault::BadByte { column, .. }) => Err(SequenceFault::BadByte {
            line: reading.next_number(),
            column,
        }),
        Err(TextFault::NameTooLong { column, .. }) => Err(SequenceFault::NameTooLong {
            line: reading.next_number(),
            column,
        }),
        Err(TextFault::Visitor(fault)) => Err(fault),
        Err(TextFault::NoMemory) => Err(SequenceFault::NoMemory),
    }
}
