//! Blocks of sequences, each worked on by a thread of its own.

ghost use Rattle.std.specs.Prelude.{◌≡◌, ℕ, ◌+◌, ◌*◌, ◌≤◌, ◌<◌, length, map, All, IfOk, OnOk};
ghost use Rattle.mining_job.specs.declared.bound.Bound.{Bound as Bounded};
ghost use Rattle.mining_job.specs.Problems.{Problem};
ghost use Rattle.sequence_grids.specs.declared.kinds.Kinds.{Kinds as Known};
ghost use Rattle.sequence_grids.specs.Places.{IsAlphabet};
ghost use Rattle.place_records.specs.Twins.{twin_sets};
ghost use Rattle.place_records.specs.Filled.{AreKnown};
ghost use Rattle.place_records.specs.Blocks.{IsBlock};
ghost use Rattle.place_records.specs.Spans.{AreSpans, AreBlocks, IsReady};

use super::block::{Block, block_of};
use super::joining::{Joined, join};
use super::twin::Twin;
use mine_model::NoMemory;
use mining_job::{Bound, Job};
use rayon::prelude::*;
use sequence_grids::Alphabet;
use state_bits::StateSet;
use std::alloc::Global;
use std::thread::Threads;
use walk_places::Places;

/// The sequences from one number to before another.
#[derive(Clone, Copy, Debug)]
pub(crate) struct Span {
    pub(crate) from: u32,
    pub(crate) to: u32,
}

/// What a thread makes of a span: its sequences that complete, their records, and what these name by number.
#[derive(Drop)]
pub(crate) struct Piece<const W: usize> {
    pub(crate) twins: Vec<Twin<W>>,
    pub(crate) sequences: Vec<u32>,
    pub(crate) places: Places,
}

/// Joins the blocks of all sequences, which are made in waves, each block of a wave by a thread of its own.
pub(crate) fn join_all<R: Threads + Sync, const W: usize>(
    rt: &R,
    workers: u32,
    alloc: Global,
    job: &Job,
    bound: Bound,
    alphabet: &Alphabet,
    joined: &mut Joined<W>,
) -> Result<(), NoMemory>
    requires width { W ≤ 17 }
    requires room { length job.now.transducer.labels < 64 * W }
    requires some { 1 ≤ workers }
    requires alphabet { IsAlphabet job.now bound alphabet.now.tables alphabet.now.kinds }
    requires none { IsBlock job.now bound alphabet.now.kinds 0 0 (map twin_sets joined.old.twins.keys)
        joined.old.sequences.items joined.old.places }
    ensures { OnOk result (IsBlock job.now bound alphabet.now.kinds 0 (length job.now.sequences)
        (map twin_sets joined.new.twins.keys) joined.new.sequences.items joined.new.places) }
{
    let count = job.db().sequences();
    let mut at = 0;
    while at < count {
        let wave = wave_from(alloc, job, workers, at)?;
        join_wave(rt, alloc, job, bound, alphabet, &wave, at, joined)?;
        at = wave.to;
    }
    Ok(())
}

// The spans of a wave, and the number of the sequence behind them.
#[derive(Drop)]
struct Wave {
    spans: Vec<Span>,
    to: u32,
}

// As many spans as there are workers, from this number on, or fewer, where the sequences end before.
fn wave_from(alloc: Global, job: &Job, workers: u32, from: u32) -> Result<Wave, NoMemory>
    requires some { 1 ≤ workers }
    requires more { from < length job.now.sequences }
    ensures spans { IfOk result (λ wave. AreSpans from wave.spans.items wave.to) }
    ensures most { IfOk result (λ wave. wave.to ≤ length job.now.sequences) }
    ensures further { IfOk result (λ wave. from < wave.to) }
{
    let count = job.db().sequences();
    let mut spans = Vec::new(alloc);
    let mut at = from;
    while at < count && spans.len() < workers as usize {
        let to = end_of(job, at);
        spans.push(Span { from: at, to })?;
        at = to;
    }
    Ok(Wave { spans, to: at })
}

// How many places a block has before it ends with a sequence.
const PLACES: usize = 1 << 17;

// The number of the sequence behind a block that begins with this one.
fn end_of(job: &Job, from: u32) -> u32
    requires { from ≤ length job.now.sequences }
    ensures order { from ≤ result }
    ensures most { result ≤ length job.now.sequences }
    ensures further { from < length job.now.sequences → from < result }
{
    let count = job.db().sequences();
    let mut places: usize = 0;
    let mut to = from;
    while to < count && places < PLACES {
        places += job.db().sequence(to).len() + 1;
        to += 1;
    }
    to
}

// Makes the blocks of a wave, which begins with this sequence, and joins them.
fn join_wave<R: Threads + Sync, const W: usize>(
    rt: &R,
    alloc: Global,
    job: &Job,
    bound: Bound,
    alphabet: &Alphabet,
    wave: &Wave,
    at: u32,
    joined: &mut Joined<W>,
) -> Result<(), NoMemory>
    requires width { W ≤ 17 }
    requires room { length job.now.transducer.labels < 64 * W }
    requires alphabet { IsAlphabet job.now bound alphabet.now.tables alphabet.now.kinds }
    requires spans { AreSpans at wave.now.spans.items wave.now.to }
    requires most { wave.now.to ≤ length job.now.sequences }
    requires before { IsBlock job.now bound alphabet.now.kinds 0 at (map twin_sets joined.old.twins.keys)
        joined.old.sequences.items joined.old.places }
    ensures { OnOk result (IsBlock job.now bound alphabet.now.kinds 0 wave.now.to
        (map twin_sets joined.new.twins.keys) joined.new.sequences.items joined.new.places) }
{
    let _at = at;
    let width = StateSet::new();
    let spans = wave.spans.as_slice();
    let blocks = blocks_of(rt, alloc, job, bound, alphabet, &width, spans)?;
    join_blocks(alloc, joined, blocks.as_slice())
}

// Joins blocks that follow one another.
fn join_blocks<const W: usize>(
    alloc: Global,
    joined: &mut Joined<W>,
    blocks: &[Piece<W>],
) -> Result<(), NoMemory>
    requires width { W ≤ 17 }
    requires known { All (λ block. AreKnown (map twin_sets block.twins.items) block.places) blocks.now }
    ensures { OnOk result ((problem : Problem) (bound : Bounded) (kinds : Known) (at to : ℕ)
        → AreBlocks problem bound kinds at blocks.now to
        → IsBlock problem bound kinds 0 at (map twin_sets joined.old.twins.keys)
        joined.old.sequences.items joined.old.places
        → IsBlock problem bound kinds 0 to (map twin_sets joined.new.twins.keys)
        joined.new.sequences.items joined.new.places) }
{
    for block in blocks {
        join(alloc, joined, block)?;
    }
    Ok(())
}

// The blocks of the spans, in order, in sets as wide as this one.
fn blocks_of<R: Threads + Sync, const W: usize>(
    rt: &R,
    alloc: Global,
    job: &Job,
    bound: Bound,
    alphabet: &Alphabet,
    width: &StateSet<W>,
    spans: &[Span],
) -> Result<Vec<Piece<W>>, NoMemory>
    requires { All (IsReady W job.now bound alphabet.now) spans.now }
    ensures { IfOk result (λ blocks. (from to : ℕ) → AreSpans from spans.now to
        → AreBlocks job.now bound alphabet.now.kinds from blocks.items to) }
{
    spans
        .par_iter()
        .with_min_len(1)
        .map(
            |span: &Span| -> Result<Piece<W>, NoMemory>
                requires { IsReady W job.now bound alphabet.now span.now }
                ensures { IfOk result (λ block. IsBlock job.entry.now bound alphabet.entry.now.kinds
                    span.now.from span.now.to (map twin_sets block.twins.items) block.sequences.items
                    block.places) }
            { piece_of(alloc, job, bound, alphabet, width, *span) },
        )
        .collect::<Result<Vec<Piece<W>>, NoMemory>>(rt, alloc)?
}

// The block of a span, by tables of its own, in sets as wide as this one.
fn piece_of<const W: usize>(
    alloc: Global,
    job: &Job,
    bound: Bound,
    alphabet: &Alphabet,
    width: &StateSet<W>,
    span: Span,
) -> Result<Piece<W>, NoMemory>
    requires { IsReady W job.now bound alphabet.now span }
    ensures { IfOk result (λ block. IsBlock job.now bound alphabet.now.kinds span.from span.to
        (map twin_sets block.twins.items) block.sequences.items block.places) }
{
    let _width = width;
    let tables = alphabet.tables.copy(alloc)?;
    let Block {
        twins: own,
        sequences,
        places,
    } = block_of(
        alloc,
        job,
        bound,
        tables,
        &alphabet.kinds,
        span.from,
        span.to,
    )?;
    let mut twins = Vec::new(alloc);
    twins.extend_from_slice(own.as_slice())?;
    Ok(Piece {
        twins,
        sequences,
        places,
    })
}
