//! Reads the lines of a block in pieces, each by a thread of its own.

ghost use Rattle.std.specs.Prelude.{◌≡◌, ℕ, ◌+◌, ◌≤◌, ◌<◌, ◌++◌, Bool, List, [], Option, true, false, Ok, Err, length, All, IfOk, OnOk, IfSome};
ghost use Rattle.std.specs.List.{AllZip};
ghost use Rattle.mine_model.specs.Limits.{most_file_bytes, most_items, most_sequences};
ghost use Rattle.text_ports.specs.Faults.{Rose};
ghost use Rattle.text_ports.specs.Scanning.{lines_behind};
ghost use Rattle.sequence_reader.specs.Faults.{IsReadingFault};
ghost use Rattle.sequence_reader.specs.Blocks.{text_of, IsBlock, IsNext, IsAt};
ghost use Rattle.sequence_reader.specs.Taking.{behind, IsTaken, all_waiting, with_waiting};

use super::block::Block;
use super::cutting::{cut, line_end};
use super::joining::{Waiting, append_waiting, number_all};
use super::piece::read_piece;
use super::reading::Reading;
use super::sequence_fault::SequenceFault;
use item_names::{MOST_NAMES, Names};
use mine_model::{Db, Item};
use rayon::prelude::*;
use std::alloc::Global;
use std::thread;
use std::thread::Threads;
use text_ports::Files;

/// Reads the lines of a block in at most so many pieces, behind what was read so far. Beside that the
/// sequences that wait are appended, and the next block is read. The answer is whether each piece and all of
/// them together were accepted. Then their sequences wait, and else none do.
pub(crate) fn read_in_pieces<R: Threads + Sync, F: Files>(
    rt: &R,
    workers: u32,
    alloc: Global,
    files: &mut F,
    block: &Block,
    next: &mut Block,
    all: &mut Reading,
    waiting: &mut Vec<Waiting>,
) -> Result<bool, SequenceFault>
    requires several { 1 < workers }
    requires block { IsBlock block.now }
    requires buffer { 0 < length next.old.buffer.items }
    requires room { length all.old.db + length (all_waiting waiting.old.items) ≤ most_sequences }
    ensures taken { result ≡ Ok true → (known lines : List (List ℕ)) (weighted : Bool)
        → IsTaken known weighted lines (with_waiting all.old waiting.old.items)
        → IsTaken known weighted (lines ++ lines_behind (text_of block.now))
        (with_waiting all.new waiting.new.items) }
    ensures untaken { result ≡ Ok false → (known lines : List (List ℕ)) (weighted : Bool)
        → IsTaken known weighted lines (with_waiting all.old waiting.old.items)
        → IsTaken known weighted lines all.new }
    ensures none { result ≡ Ok false → waiting.new.items ≡ [] }
    ensures room { OnOk result
        (length all.new.db + length (all_waiting waiting.new.items) ≤ most_sequences) }
    ensures kept { (added : List (List ℕ)) × (all.new.names ≡ all.old.names ++ added) }
    ensures same { all.new.weighted ≡ all.old.weighted }
    ensures block { OnOk result (IsNext block.now next.new) }
    ensures at { OnOk result ((told : Option (List ℕ)) (lines : List (List ℕ))
        → IsAt told (F.left files.old) lines block.now
        → IsAt told (F.left files.new) (lines ++ lines_behind (text_of block.now)) next.new) }
    ensures too_large { result ≡ Err SequenceFault.TooLarge
        → (told : Option (List ℕ)) (lines : List (List ℕ)) → IsAt told (F.left files.old) lines block.now
        → IfSome told (λ whole. most_file_bytes < length whole) }
    ensures failed { result ≡ Err SequenceFault.ReadFault → Rose (F.faults files.old) (F.faults files.new) }
    ensures why { (fault : SequenceFault) → result ≡ Err fault → IsReadingFault fault }
    ensures same_names { F.may files.new ≡ F.may files.old }
    ensures same_files { F.holds files.new ≡ F.holds files.old }
    ensures never_falls { F.faults files.old ≤ F.faults files.new }
{
    let text = block.text();
    let (others, own) = text.split_at(line_end(text, bytes_of_others(text.len(), workers)));
    let pieces = cut(alloc, others, workers - 1)?;
    let (readings, outcome) = read_beside(
        rt,
        alloc,
        files,
        block,
        next,
        pieces.as_slice(),
        own,
        all,
        waiting.as_slice(),
    );
    let last = outcome?;
    waiting.clear();
    match readings {
        Ok(mut readings) => match last {
            Ok(last) => {
                match readings.push(last) {
                    Ok(()) => {}
                    Err(_) => return Err(SequenceFault::NoMemory),
                }
                Ok(number_all(alloc, all, readings, waiting)?)
            }
            Err(_) => Ok(false),
        },
        Err(_) => Ok(false),
    }
}

/// So many of the bytes of a block other threads read, in pieces. The calling thread, which is one of the
/// workers, reads the rest: it also appends the sequences that wait and reads the next block, which takes
/// about as long as an eighth of all pieces.
fn bytes_of_others(count: usize, workers: u32) -> usize
    ensures { result ≤ count }
{
    match workers {
        2 => count / 16 * 9,
        3 => count / 4 * 3,
        4 => count / 32 * 27,
        5 => count / 10 * 9,
        _ => count,
    }
}

/// What is read of pieces by the names so far. Beside that the calling thread appends the sequences that
/// wait, reads the block behind another, and then reads a piece of its own.
fn read_beside<R: Threads + Sync, F: Files>(
    rt: &R,
    alloc: Global,
    files: &mut F,
    block: &Block,
    next: &mut Block,
    pieces: &[&[u8]],
    own: &[u8],
    all: &mut Reading,
    waiting: &[Waiting],
) -> (
    Result<Vec<Reading>, SequenceFault>,
    Result<Result<Reading, SequenceFault>, SequenceFault>,
)
    requires few { All (λ piece. length piece.now ≤ most_file_bytes) pieces.now }
    requires few_own { length own.now ≤ most_file_bytes }
    requires block { IsBlock block.now }
    requires buffer { 0 < length next.old.buffer.items }
    requires room { length all.old.db + length (all_waiting waiting.now) ≤ most_sequences }
    ensures pieces { IfOk result.0 (λ readings. AllZip
        (λ piece reading. IsTaken all.old.names all.old.weighted (lines_behind piece.now)
        (behind all.old.names reading)) pieces.now readings.items) }
    ensures own { IfOk result.1 (λ last. IfOk last (λ reading.
        IsTaken all.old.names all.old.weighted (lines_behind own.now) (behind all.old.names reading))) }
    ensures appended { OnOk result.1 (all.new.db ≡ all.old.db ++ all_waiting waiting.now) }
    ensures block { OnOk result.1 (IsNext block.now next.new) }
    ensures at { OnOk result.1 ((told : Option (List ℕ)) (lines : List (List ℕ))
        → IsAt told (F.left files.old) lines block.now
        → IsAt told (F.left files.new) (lines ++ lines_behind (text_of block.now)) next.new) }
    ensures too_large { result.1 ≡ Err SequenceFault.TooLarge
        → (told : Option (List ℕ)) (lines : List (List ℕ)) → IsAt told (F.left files.old) lines block.now
        → IfSome told (λ whole. most_file_bytes < length whole) }
    ensures failed { result.1 ≡ Err SequenceFault.ReadFault
        → Rose (F.faults files.old) (F.faults files.new) }
    ensures why { (fault : SequenceFault) → result.1 ≡ Err fault → IsReadingFault fault }
    ensures same_known { all.new.names ≡ all.old.names }
    ensures same { all.new.weighted ≡ all.old.weighted }
    ensures same_names { F.may files.new ≡ F.may files.old }
    ensures same_files { F.holds files.new ≡ F.holds files.old }
    ensures never_falls { F.faults files.old ≤ F.faults files.new }
{
    let weighted = all.weighted;
    let names = &all.names;
    prove!(names.count() <= MOST_NAMES);
    let db = &mut all.db;
    let items = &mut all.items;
    thread::join_mut(
        rt,
        &mut || -> Result<Vec<Reading>, SequenceFault>
            requires few { All (λ piece. length piece.now ≤ most_file_bytes) pieces.now }
            requires names { length names.now ≤ most_items }
            ensures { IfOk result (λ readings. AllZip
                (λ piece reading. IsTaken names.entry.now weighted (lines_behind piece.now)
                (behind names.entry.now reading)) pieces.entry.now readings.items) }
        { read_pieces(rt, alloc, names, pieces, weighted) },
        &mut || -> Result<Result<Reading, SequenceFault>, SequenceFault>
            requires block { IsBlock block.now }
            requires buffer { 0 < length next.now.buffer.items }
            requires room { length db.now + length (all_waiting waiting.now) ≤ most_sequences }
            requires few { length own.now ≤ most_file_bytes }
            requires names { length names.now ≤ most_items }
            ensures own { IfOk result (λ last. IfOk last (λ reading. IsTaken names.entry.now weighted
                (lines_behind own.entry.now) (behind names.entry.now reading))) }
            ensures appended { OnOk result (db.exit.now ≡ db.entry.now ++ all_waiting waiting.entry.now) }
            ensures block { OnOk result (IsNext block.entry.now next.exit.now) }
            ensures at { OnOk result ((told : Option (List ℕ)) (lines : List (List ℕ))
                → IsAt told (F.left files.entry.now) lines block.entry.now
                → IsAt told (F.left files.exit.now) (lines ++ lines_behind (text_of block.entry.now))
                next.exit.now) }
            ensures too_large { result ≡ Err SequenceFault.TooLarge
                → (told : Option (List ℕ)) (lines : List (List ℕ))
                → IsAt told (F.left files.entry.now) lines block.entry.now
                → IfSome told (λ whole. most_file_bytes < length whole) }
            ensures failed { result ≡ Err SequenceFault.ReadFault
                → Rose (F.faults files.entry.now) (F.faults files.exit.now) }
            ensures why { (fault : SequenceFault) → result ≡ Err fault → IsReadingFault fault }
            ensures same_names { F.may files.exit.now ≡ F.may files.entry.now }
            ensures same_files { F.holds files.exit.now ≡ F.holds files.entry.now }
            ensures never_falls { F.faults files.entry.now ≤ F.faults files.exit.now }
        {
            append_and_follow(files, block, next, db, waiting, items)?;
            Ok(read_piece(alloc, names, own, weighted))
        },
    )
}

/// Appends the sequences that wait, and reads the block behind another.
pub(crate) fn append_and_follow<F: Files>(
    files: &mut F,
    block: &Block,
    next: &mut Block,
    db: &mut Db,
    waiting: &[Waiting],
    items: &mut Vec<Item>,
) -> Result<(), SequenceFault>
    requires block { IsBlock block.now }
    requires buffer { 0 < length next.old.buffer.items }
    requires room { length db.old + length (all_waiting waiting.now) ≤ most_sequences }
    ensures appended { OnOk result (db.new ≡ db.old ++ all_waiting waiting.now) }
    ensures block { OnOk result (IsNext block.now next.new) }
    ensures at { OnOk result ((told : Option (List ℕ)) (lines : List (List ℕ))
        → IsAt told (F.left files.old) lines block.now
        → IsAt told (F.left files.new) (lines ++ lines_behind (text_of block.now)) next.new) }
    ensures too_large { result ≡ Err SequenceFault.TooLarge
        → (told : Option (List ℕ)) (lines : List (List ℕ)) → IsAt told (F.left files.old) lines block.now
        → IfSome told (λ whole. most_file_bytes < length whole) }
    ensures failed { result ≡ Err SequenceFault.ReadFault → Rose (F.faults files.old) (F.faults files.new) }
    ensures why { (fault : SequenceFault) → result ≡ Err fault → IsReadingFault fault }
    ensures same_names { F.may files.new ≡ F.may files.old }
    ensures same_files { F.holds files.new ≡ F.holds files.old }
    ensures never_falls { F.faults files.old ≤ F.faults files.new }
{
    append_waiting(db, waiting, items)?;
    match next.follow(block, files) {
        Ok(()) => Ok(()),
        Err(fault) => Err(SequenceFault::from(fault)),
    }
}

/// What is read of the pieces in order, each by the known names and names of its own.
fn read_pieces<R: Threads + Sync>(
    rt: &R,
    alloc: Global,
    known: &Names,
    pieces: &[&[u8]],
    weighted: bool,
) -> Result<Vec<Reading>, SequenceFault>
    requires few { All (λ piece. length piece.now ≤ most_file_bytes) pieces.now }
    requires room { length known.now ≤ most_items }
    ensures { IfOk result (λ readings. AllZip
        (λ piece reading. IsTaken known.now weighted (lines_behind piece.now) (behind known.now reading))
        pieces.now readings.items) }
{
    let collected = pieces
        .par_iter()
        .with_min_len(1)
        .map(
            |piece: &&[u8]| -> Result<Reading, SequenceFault>
                requires { (length piece.now.now ≤ most_file_bytes) × (length known.now ≤ most_items) }
                ensures { IfOk result (λ reading. IsTaken known.entry.now weighted
                    (lines_behind piece.now.now) (behind known.entry.now reading)) }
            { read_piece(alloc, known, *piece, weighted) },
        )
        .collect::<Result<Vec<Reading>, SequenceFault>>(rt, alloc);
    match collected {
        Ok(readings) => readings,
        Err(_) => Err(SequenceFault::NoMemory),
    }
}
