//! Writes proofs of answers.

ghost use Rattle.std.specs.Prelude.{◌≡◌, ℕ, ◌+◌, ◌≤◌, ◌<◌, ◌++◌, OnOk, OnErr, IfOk, length, take, All};
ghost use Rattle.mine_model.specs.Answer.{IsFrequent};
ghost use Rattle.mine_model.specs.Database.{sequence_at};
ghost use Rattle.mine_model.specs.Limits.{most_length};
ghost use Rattle.mine_model.specs.Names.{HasName};
ghost use Rattle.mining_job.specs.Problems.{data_of, items_of};
ghost use Rattle.text_ports.specs.Faults.{Rose};
ghost use Rattle.pattern_proof.specs.Listing.{AreLists, ListsAll};
ghost use Rattle.pattern_proof.specs.Putting.{HoldsEntry, CutsEntry};
ghost use Rattle.pattern_proof.specs.Rooms.{HasRoom, HasRoomForAll};
ghost use Rattle.pattern_proof.specs.Writings.{AreOfAnswer, GainsProof, GainsPart};

use super::finding::PathRoom;
use super::listing::{Lists, lists_of};
use super::putting::{Asked, put_paths};
use item_names::Names;
use mine_model::{Db, NoMemory, Row};
use mining_job::Job;
use pattern_writer::{WriteFault, hand_over, put_line};
use std::alloc::Global;
use std::marker::Model;
use text_ports::Sink;

/// So many bytes are gathered before the sink gets them.
const PIECE: usize = 65_536;

/// Writes the proof of an answer. It takes all its memory when it is made.
#[derive(Drop)]
pub struct ProofWriter<'a> {
    job: &'a Job,
    names: &'a Names,
    rows: &'a [Row],
    lists: Lists,
    room: PathRoom,
    text: Vec<u8>,
}

impl<'a> Model for ProofWriter<'a> {
    ghost use Rattle.std.specs.Prelude.{◌<◌, ℕ, ◌+◌, All, length};
    ghost use Rattle.mine_model.specs.Names.{HasName};
    ghost use Rattle.mining_job.specs.Problems.{items_of};
    ghost use Rattle.pattern_proof.specs.Listing.{AreLists};
    ghost use Rattle.pattern_proof.specs.Rooms.{HasRoomForAll};
    ghost use Rattle.pattern_proof.specs.Writings.{Writing, AreOfAnswer};

    ghost Value = { Writing };

    ghost use Rattle.mine_model.specs.contracts.expression.Expr as e;
    ghost use Rattle.std.specs.Coded.{codes};

    ghost coded = { Prim.hlevel (codes, e.the_row.coded) };

    ghost view = { λ w. record { problem = w.job.now; names = w.names.now; rows = w.rows.now } };

    ghost invariant = { λ w. AreOfAnswer w.job.now w.rows.now
        × All (λ row. All (HasName w.names.now) row.pattern) w.rows.now
        × AreLists w.job.now w.lists w.rows.now
        × HasRoomForAll w.room w.job.now w.rows.now
        × (0 < length w.text.items) };
}

impl<'a> ProofWriter<'a> {
    /// A writer for the proof of these rows, in their order. It walks through the sequences once.
    pub fn new(
        alloc: Global,
        job: &'a Job,
        names: &'a Names,
        rows: &'a [Row],
    ) -> Result<ProofWriter<'a>, NoMemory>
        requires frequent { AreOfAnswer job.now rows.now }
        requires named { All (λ row. All (HasName names.now) row.pattern) rows.now }
        ensures { IfOk result (λ writer. writer
            ≡ record { problem = job.now; names = names.now; rows = rows.now }) }
    {
        let items = longest_sequence(job.db());
        let pattern = longest_pattern(rows);
        Ok(ProofWriter {
            job,
            names,
            rows,
            lists: lists_of(alloc, job, rows)?,
            room: PathRoom::new(alloc, job.fst().states(), items, pattern)?,
            text: vec![in alloc; 0u8; PIECE]?,
        })
    }

    /// Writes the proof: each row, and below it one path over each sequence that has its pattern. After a
    /// fault a part of a proof from its start was written, and not all. Takes no memory.
    pub fn write<O: Sink>(&mut self, out: &mut O) -> Result<(), WriteFault>
        ensures written { OnOk result (GainsProof self.old.problem self.old.names self.old.rows
            (O.written out.old) (O.written out.new)) }
        ensures cut { OnErr result (GainsPart self.old.problem self.old.names self.old.rows
            (O.written out.old) (O.written out.new)) }
        ensures same { self.new ≡ self.old }
        ensures passed { OnOk result (O.faults out.new ≡ O.faults out.old) }
        ensures failed { OnErr result (Rose (O.faults out.old) (O.faults out.new)) }
        ensures never_falls { O.faults out.old ≤ O.faults out.new }
    {
        let source = Source {
            job: self.job,
            names: self.names,
            rows: self.rows,
            lists: &self.lists,
        };
        put_entries(out, self.text.as_mut_slice(), &source, &mut self.room)
    }
}

/// What a proof is written from.
#[derive(Drop)]
struct Source<'a> {
    job: &'a Job,
    names: &'a Names,
    rows: &'a [Row],
    lists: &'a Lists,
}

/// How many items the longest sequence has.
fn longest_sequence(db: &Db) -> usize
    ensures most { result ≤ most_length }
    ensures longest { (place : ℕ) → place < length db.now → length (sequence_at db.now place).items ≤ result }
{
    let mut most = 0;
    for seq in 0..db.sequences() {
        most = most.max(db.sequence(seq).len());
    }
    most
}

/// How many items the longest pattern has.
fn longest_pattern(rows: &[Row]) -> usize
    ensures { All (λ row. length row.pattern ≤ result) rows.now }
{
    let mut most = 0;
    for row in rows {
        most = most.max(row.pattern.items().len());
    }
    most
}

/// Puts all rows, each with its paths, and hands over what is left at the end.
fn put_entries<O: Sink>(
    out: &mut O,
    text: &mut [u8],
    source: &Source<'_>,
    room: &mut PathRoom,
) -> Result<(), WriteFault>
    requires text { 0 < length text.old }
    requires frequent { AreOfAnswer source.now.job.now source.now.rows.now }
    requires named { All (λ row. All (HasName source.now.names.now) row.pattern) source.now.rows.now }
    requires lists { AreLists source.now.job.now source.now.lists.now source.now.rows.now }
    requires room { HasRoomForAll room.old source.now.job.now source.now.rows.now }
    ensures written { OnOk result (GainsProof source.now.job.now source.now.names.now source.now.rows.now
        (O.written out.old) (O.written out.new)) }
    ensures cut { OnErr result (GainsPart source.now.job.now source.now.names.now source.now.rows.now
        (O.written out.old) (O.written out.new)) }
    ensures kept { HasRoomForAll room.new source.now.job.now source.now.rows.now }
    ensures passed { OnOk result (O.faults out.new ≡ O.faults out.old) }
    ensures failed { OnErr result (Rose (O.faults out.old) (O.faults out.new)) }
    ensures never_falls { O.faults out.old ≤ O.faults out.new }
{
    // The parts of the job fit.
    let _threshold = source.job.threshold();
    let mut held = 0;
    for (number, row) in source.rows.iter().enumerate() {
        let first = source.lists.starts[number];
        held = put_entry(out, text, held, source, room, row, first)?;
    }
    hand_over(out, &text[..held])
}

/// Puts a row, with a path over each sequence of the list that has its pattern.
fn put_entry<O: Sink>(
    out: &mut O,
    text: &mut [u8],
    filled: usize,
    source: &Source<'_>,
    room: &mut PathRoom,
    row: &Row,
    first: u32,
) -> Result<usize, WriteFault>
    requires text { 0 < length text.old }
    requires within { filled ≤ length text.old }
    requires frequent { IsFrequent (data_of source.now.job.now) row.now.pattern row.now.support }
    requires named { All (HasName source.now.names.now) row.now.pattern }
    requires listed { ListsAll source.now.job.now source.now.lists.now.listed.items first row.now.pattern }
    requires room { (place : ℕ) → place < length source.now.job.now.sequences
        → HasRoom room.old (length source.now.job.now.transducer.labels + 1)
        (length (items_of source.now.job.now place)) (length row.now.pattern) }
    ensures fits { IfOk result (λ n. n ≤ length text.new) }
    ensures held { IfOk result (λ n. HoldsEntry source.now.job.now source.now.names.now row.now
        (O.written out.old) (O.written out.new) (take n text.new) (take filled text.old)) }
    ensures cut { OnErr result (CutsEntry source.now.job.now source.now.names.now row.now
        (O.written out.old) (O.written out.new) (take filled text.old)) }
    ensures kept { (states n m : ℕ) → HasRoom room.old states n m → HasRoom room.new states n m }
    ensures passed { OnOk result (O.faults out.new ≡ O.faults out.old) }
    ensures failed { OnErr result (Rose (O.faults out.old) (O.faults out.new)) }
    ensures never_falls { O.faults out.old ≤ O.faults out.new }
{
    // The parts of the job fit.
    let _threshold = source.job.threshold();
    let behind_row = put_line(out, text, filled, row, source.names)?;
    let asked = Asked {
        job: source.job,
        row,
        listed: source.lists.listed.as_slice(),
        first,
    };
    put_paths(out, text, behind_row, &asked, room)
}
