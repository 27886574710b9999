//! Path lines, through a room that is handed to the sink when it is full.

ghost use Rattle.std.specs.Prelude.{◌≡◌, ◌≢◌, ℕ, ◌+◌, ◌≤◌, ◌<◌, ◌∷◌, ◌++◌, OnOk, OnErr, IfOk, length, take};
ghost use Rattle.std.specs.Fmt.{decimal};
ghost use Rattle.std.specs.List.{flat_map};
ghost use Rattle.mine_model.specs.Answer.{IsFrequent};
ghost use Rattle.mine_model.specs.Bytes.{space};
ghost use Rattle.mining_job.specs.Problems.{data_of, items_of};
ghost use Rattle.text_ports.specs.Faults.{Rose};
ghost use Rattle.pattern_writer.specs.Written.{IsHeld, IsCut};
ghost use Rattle.pattern_proof.specs.Listing.{ListsAll};
ghost use Rattle.pattern_proof.specs.ProofLines.{path_line_of};
ghost use Rattle.pattern_proof.specs.Putting.{HoldsPaths, CutsPaths};
ghost use Rattle.pattern_proof.specs.Reading.{numbers_of};
ghost use Rattle.pattern_proof.specs.Rooms.{HasRoom};

use super::finding::{PathRoom, find_path};
use super::listing::Listed;
use fst_compile::State;
use itoa::Buffer;
use mine_model::Row;
use mining_job::Job;
use pattern_writer::{WriteFault, put};
use text_ports::Sink;

/// A row, and a list of the sequences that are asked for paths that write its pattern, as in `Listed`.
#[derive(Drop)]
pub(crate) struct Asked<'a> {
    pub(crate) job: &'a Job,
    pub(crate) row: &'a Row,
    pub(crate) listed: &'a [Listed],
    pub(crate) first: u32,
}

/// Puts a path over each sequence of the list that has the row's pattern.
pub(crate) fn put_paths<O: Sink>(
    out: &mut O,
    text: &mut [u8],
    filled: usize,
    asked: &Asked<'_>,
    room: &mut PathRoom,
) -> Result<usize, WriteFault>
    requires text { 0 < length text.old }
    requires within { filled ≤ length text.old }
    requires frequent { IsFrequent (data_of asked.now.job.now)
        asked.now.row.now.pattern asked.now.row.now.support }
    requires listed { ListsAll asked.now.job.now asked.now.listed.now asked.now.first
        asked.now.row.now.pattern }
    requires room { (place : ℕ) → place < length asked.now.job.now.sequences
        → HasRoom room.old (length asked.now.job.now.transducer.labels + 1)
        (length (items_of asked.now.job.now place)) (length asked.now.row.now.pattern) }
    ensures fits { IfOk result (λ n. n ≤ length text.new) }
    ensures held { IfOk result (λ n. HoldsPaths asked.now.job.now asked.now.row.now
        (O.written out.old) (O.written out.new) (take n text.new) (take filled text.old)) }
    ensures cut { OnErr result (CutsPaths asked.now.job.now asked.now.row.now
        (O.written out.old) (O.written out.new) (take filled text.old)) }
    ensures kept { (states n m : ℕ) → HasRoom room.old states n m → HasRoom room.new states n m }
    ensures passed { OnOk result (O.faults out.new ≡ O.faults out.old) }
    ensures failed { OnErr result (Rose (O.faults out.old) (O.faults out.new)) }
    ensures never_falls { O.faults out.old ≤ O.faults out.new }
{
    // No sequence has a greater number than these.
    let _sequences = asked.job.db().sequences();
    let mut held = filled;
    let mut at = asked.first;
    while at > 0 {
        let listed = asked.listed[at as usize - 1];
        if find_path(room, asked.job, listed.place, asked.row.pattern.items()) {
            held = put_path(out, text, held, listed.place, room.states.as_slice())?;
        }
        at = listed.next;
    }
    Ok(held)
}

/// Puts the line of a path over the sequence with this number.
fn put_path<O: Sink>(
    out: &mut O,
    text: &mut [u8],
    filled: usize,
    place: u32,
    states: &[State],
) -> Result<usize, WriteFault>
    requires text { 0 < length text.old }
    requires within { filled ≤ length text.old }
    requires few { place < 4294967295 }
    ensures fits { IfOk result (λ n. n ≤ length text.new) }
    ensures held { IfOk result (λ n. IsHeld (O.written out.old) (O.written out.new) (take n text.new)
        (take filled text.old ++ path_line_of (record { place = place; states = numbers_of states.now }))) }
    ensures cut { OnErr result (IsCut (O.written out.old) (O.written out.new)
        (take filled text.old ++ path_line_of (record { place = place; states = numbers_of states.now }))) }
    ensures passed { OnOk result (O.faults out.new ≡ O.faults out.old) }
    ensures failed { OnErr result (Rose (O.faults out.old) (O.faults out.new)) }
    ensures never_falls { O.faults out.old ≤ O.faults out.new }
{
    let behind_line = put_number(out, text, filled, b'\t', place + 1)?;
    let behind_states = put_states(out, text, behind_line, states)?;
    put(out, text, behind_states, b"\n")
}

/// Puts the states, each behind a space.
fn put_states<O: Sink>(
    out: &mut O,
    text: &mut [u8],
    filled: usize,
    states: &[State],
) -> Result<usize, WriteFault>
    requires text { 0 < length text.old }
    requires within { filled ≤ length text.old }
    ensures fits { IfOk result (λ n. n ≤ length text.new) }
    ensures held { IfOk result (λ n. IsHeld (O.written out.old) (O.written out.new) (take n text.new)
        (take filled text.old ++ flat_map (λ state. space ∷ decimal state.0) states.now)) }
    ensures cut { OnErr result (IsCut (O.written out.old) (O.written out.new)
        (take filled text.old ++ flat_map (λ state. space ∷ decimal state.0) states.now)) }
    ensures passed { OnOk result (O.faults out.new ≡ O.faults out.old) }
    ensures failed { OnErr result (Rose (O.faults out.old) (O.faults out.new)) }
    ensures never_falls { O.faults out.old ≤ O.faults out.new }
{
    let mut held = filled;
    for state in states {
        held = put_number(out, text, held, b' ', state.0)?;
    }
    Ok(held)
}

/// Puts a byte and a number behind it.
fn put_number<O: Sink>(
    out: &mut O,
    text: &mut [u8],
    filled: usize,
    before: u8,
    number: u32,
) -> Result<usize, WriteFault>
    requires text { 0 < length text.old }
    requires within { filled ≤ length text.old }
    ensures fits { IfOk result (λ n. n ≤ length text.new) }
    ensures held { IfOk result (λ n. IsHeld (O.written out.old) (O.written out.new) (take n text.new)
        (take filled text.old ++ (before ∷ decimal number))) }
    ensures cut { OnErr result (IsCut (O.written out.old) (O.written out.new)
        (take filled text.old ++ (before ∷ decimal number))) }
    ensures passed { OnOk result (O.faults out.new ≡ O.faults out.old) }
    ensures failed { OnErr result (Rose (O.faults out.old) (O.faults out.new)) }
    ensures never_falls { O.faults out.old ≤ O.faults out.new }
{
    let mut digits = Buffer::new();
    let behind_byte = put(out, text, filled, &[before])?;
    put(out, text, behind_byte, digits.format(number).as_bytes())
}
