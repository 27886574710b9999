//! Joins what was read of pieces.

ghost use Rattle.std.specs.Prelude.{◌≡◌, ℕ, ◌+◌, ◌≤◌, ◌<◌, ◌++◌, Bool, true, false, List, [], ◌∷◌, map, Ok, length, All, IsTrue, OnOk, OnErr};
ghost use Rattle.std.specs.List.{AllByRecursion, AllZip, flat_map};
ghost use Rattle.mine_model.specs.Limits.{most_sequences, most_length, most_weight};
ghost use Rattle.mine_model.specs.Names.{sequence_by};
ghost use Rattle.text_ports.specs.Scanning.{lines_behind};
ghost use Rattle.sequence_reader.specs.Taking.{behind, IsTaken, numbers_below, renumbered, sequences_waiting, all_waiting, with_waiting};

use super::reading::{MOST_SEQUENCES, Reading};
use item_names::NamesFault;
use mine_model::{Db, Item, NoMemory};
use std::alloc::Global;

/// What was read of a piece by so many known names, the first of all, and names of its own, which have got
/// these numbers.
#[derive(Debug, Drop)]
pub(crate) struct Waiting {
    known: u32,
    own: Vec<Item>,
    db: Db,
}

/// Gives numbers to the own names of what was read of pieces by the names of all so far. The answer is
/// whether all stays within the limits. Where it does not, nothing is changed.
pub(crate) fn number_all(
    alloc: Global,
    all: &mut Reading,
    readings: Vec<Reading>,
    waiting: &mut Vec<Waiting>,
) -> Result<bool, NoMemory>
    requires none { waiting.old.items ≡ [] }
    ensures joined { result ≡ Ok true → (known earlier texts : List (List ℕ)) (weighted : Bool)
        → IsTaken known weighted earlier all.old
        → AllZip (λ text reading.
        IsTaken all.old.names weighted (lines_behind text) (behind all.old.names reading))
        texts readings.items
        → IsTaken known weighted (earlier ++ flat_map lines_behind texts)
        (with_waiting all.new waiting.new.items) }
    ensures room { OnOk result
        (length all.new.db + length (all_waiting waiting.new.items) ≤ most_sequences) }
    ensures refused { result ≡ Ok false → all.new.names ≡ all.old.names }
    ensures none { result ≡ Ok false → waiting.new.items ≡ [] }
    ensures kept { (added : List (List ℕ)) × (all.new.names ≡ all.old.names ++ added) }
    ensures same_db { all.new.db ≡ all.old.db }
    ensures same { all.new.weighted ≡ all.old.weighted }
{
    let known = all.names.count();
    let mut count = all.db.sequences();
    'readings: for reading in readings {
        let more = reading.db.sequences();
        if more > MOST_SEQUENCES - count {
            return take_back(alloc, all, known, waiting);
        }
        if !number(alloc, all, known, reading, waiting)? {
            return take_back(alloc, all, known, waiting);
        }
        count += more;
    }
    Ok(true)
}

/// Gives numbers to the own names of what was read of a piece by so many known names, the first of all. The
/// answer is whether they are not too many. Where they are, some of the names may be appended.
fn number(
    alloc: Global,
    all: &mut Reading,
    known: u32,
    piece: Reading,
    waiting: &mut Vec<Waiting>,
) -> Result<bool, NoMemory>
    requires few { length all.old.db + length (all_waiting waiting.old.items) + length piece.db
        ≤ most_sequences }
    ensures joined { result ≡ Ok true → (names old earlier lines added : List (List ℕ)) (weighted : Bool)
        → length old ≡ known → all.old.names ≡ old ++ added
        → IsTaken names weighted earlier (with_waiting all.old waiting.old.items)
        → IsTaken old weighted lines (behind old piece)
        → IsTaken names weighted (earlier ++ lines) (with_waiting all.new waiting.new.items) }
    ensures more { OnOk result (length (all_waiting waiting.new.items)
        ≤ length (all_waiting waiting.old.items) + length piece.db) }
    ensures as_many { result ≡ Ok true → length (all_waiting waiting.new.items)
        ≡ length (all_waiting waiting.old.items) + length piece.db }
    ensures kept { (added : List (List ℕ)) × (all.new.names ≡ all.old.names ++ added) }
    ensures same_db { all.new.db ≡ all.old.db }
    ensures same { all.new.weighted ≡ all.old.weighted }
{
    let mut own = Vec::new(alloc);
    match all.names.intern_all(&piece.names, &mut own) {
        Ok(()) => {}
        Err(NamesFault::TooMany) => return Ok(false),
        Err(NamesFault::NoMemory) => return Err(NoMemory),
    }
    waiting.push(Waiting {
        known,
        own,
        db: piece.db,
    })?;
    Ok(true)
}

/// Leaves the first names, so many of them, and nothing that waits. The answer is false.
fn take_back(
    alloc: Global,
    all: &mut Reading,
    known: u32,
    waiting: &mut Vec<Waiting>,
) -> Result<bool, NoMemory>
    requires { (first added : List (List ℕ)) × (length first ≡ known) × (all.old.names ≡ first ++ added) }
    ensures answer { OnOk result (result ≡ Ok false) }
    ensures back { result ≡ Ok false → (first added : List (List ℕ)) → length first ≡ known
        → all.old.names ≡ first ++ added → all.new.names ≡ first }
    ensures none { OnOk result (waiting.new.items ≡ []) }
    ensures kept { (first added : List (List ℕ)) → length first ≡ known → all.old.names ≡ first ++ added
        → (more : List (List ℕ)) × (all.new.names ≡ first ++ more) }
    ensures same_db { all.new.db ≡ all.old.db }
    ensures same { all.new.weighted ≡ all.old.weighted }
{
    match all.names.first(alloc, known) {
        Ok(names) => all.names = names,
        Err(_) => return Err(NoMemory),
    }
    waiting.clear();
    Ok(false)
}

/// Appends the sequences that wait. `items` is where the items of a sequence are collected.
pub(crate) fn append_waiting(
    db: &mut Db,
    waiting: &[Waiting],
    items: &mut Vec<Item>,
) -> Result<(), NoMemory>
    requires { length db.old + length (all_waiting waiting.now) ≤ most_sequences }
    ensures { OnOk result (db.new ≡ db.old ++ all_waiting waiting.now) }
{
    for piece in waiting {
        append_sequences(db, piece, items)?;
    }
    Ok(())
}

/// Appends the sequences of a piece, whose items get the numbers of all. `items` is where the items of a
/// sequence are collected.
fn append_sequences(db: &mut Db, piece: &Waiting, items: &mut Vec<Item>) -> Result<(), NoMemory>
    requires { length db.old + length piece.now.db ≤ most_sequences }
    ensures { OnOk result (db.new ≡ db.old ++ sequences_waiting piece.now) }
{
    for i in 0..piece.db.sequences() {
        append_sequence(db, piece.db.sequence(i), piece.db.weight(i), piece, items)?;
    }
    Ok(())
}

/// Appends a sequence of a piece, whose items get the numbers of all. Most sequences have known items alone,
/// which keep theirs.
fn append_sequence(
    db: &mut Db,
    sequence: &[Item],
    weight: u64,
    piece: &Waiting,
    items: &mut Vec<Item>,
) -> Result<(), NoMemory>
    requires few { length db.old < most_sequences }
    requires short { length sequence.now ≤ most_length }
    requires least { 1 ≤ weight }
    requires most { weight ≤ most_weight }
    ensures { OnOk result (db.new ≡ db.old ++ sequence_by
        (renumbered (numbers_below piece.now.known ++ piece.now.own.items))
        (record { items = sequence.now; weight = weight }) ∷ []) }
{
    if !are_known(sequence, piece.known) {
        renumber(sequence, piece, items)?;
        return db.push_weighted(items.as_slice(), weight);
    }
    db.push_weighted(sequence, weight)
}

/// Whether all items are among so many known ones, the first of all.
fn are_known(sequence: &[Item], known: u32) -> bool
    ensures { IsTrue result → All (λ item. item.0 < known) sequence.now }
{
    sequence.iter().all(|item| item.0 < known)
}

/// Leaves the items of a sequence of a piece with the numbers that they have got.
fn renumber(sequence: &[Item], piece: &Waiting, items: &mut Vec<Item>) -> Result<(), NoMemory>
    ensures { OnOk result (items.new.items
        ≡ map (renumbered (numbers_below piece.now.known ++ piece.now.own.items)) sequence.now) }
{
    items.clear();
    for item in sequence {
        items.push(new_number(*item, piece.known, piece.own.as_slice()))?;
    }
    Ok(())
}

/// The number that an item has got: so many known ones keep theirs, and the others are looked up.
#[inline(always)]
fn new_number(item: Item, known: u32, own: &[Item]) -> Item
    ensures { result ≡ renumbered (numbers_below known ++ own.now) item }
{
    if item.0 < known {
        return item;
    }
    let place = (item.0 - known) as usize;
    if place < own.len() {
        own[place]
    } else {
        Item(0)
    }
}
