ghost use Rattle.std.specs.Prelude.{◌≡◌, IfOk};
ghost use Rattle.snapshot_project.specs.Snapshots.{bound_of};
ghost use Rattle.snapshot_project.specs.Terrains.{IsKept};

use super::terrain::AnyTerrain;
use mine_model::NoMemory;
use mining_job::{Bound, Job};
use std::alloc::Global;
use std::marker::Model;
use std::sync::Arc;

/// What a part is made of.
pub(crate) struct Ground<'a> {
    pub(crate) job: &'a Job,
    pub(crate) bound: Bound,
    pub(crate) sequences: Vec<u32>,
    pub(crate) terrain: AnyTerrain,
    // What the sequence of each place weighs; none where each weighs 1.
    pub(crate) weights: Vec<u32>,
    // The place of the first item of each sequence; none where each stand fits into four bytes.
    pub(crate) starts: Vec<u32>,
}

// Written out, since the sets in the terrain have one of three widths.
impl<'a> Drop for Ground<'a> {
    fn drop(self) {
        let Ground {
            job: _,
            bound: _,
            sequences: _,
            terrain: _,
            weights: _,
            starts: _,
        } = self;
    }
}

/// Sequences of a job under one bound, with what stands at their places: made once, and shared by all who
/// walk over it.
#[derive(Drop)]
pub struct Part<'a> {
    pub(crate) ground: Arc<Ground<'a>>,
}

impl<'a> Model for Part<'a> {
    ghost use Rattle.std.specs.Arc.{arc_value};
    ghost use Rattle.sequence_grids.specs.Grids.{GridList};

    ghost Value = { GridList };

    ghost use Rattle.mine_model.specs.contracts.expression.Expr as e;
    ghost use Rattle.std.specs.Coded.{codes};

    ghost coded = { Prim.hlevel (codes, e.the_row.coded) };

    ghost use Rattle.snapshot_project.specs.Terrains.{part_on, IsKept};

    ghost view = { λ p. part_on (arc_value p.ground) };

    ghost invariant = { λ p. IsKept (part_on (arc_value p.ground)) (arc_value p.ground).terrain
        (arc_value p.ground).weights.items (arc_value p.ground).starts.items };
}

impl<'a> Part<'a> {
    ghost use Rattle.snapshot_project.specs.Snapshots.{IsPart};
    ghost use Rattle.snapshot_project.specs.Layouts.{MayHaveStarts};

    /// The same part.
    pub fn share(&self) -> Result<Part<'a>, NoMemory>
        ensures { IfOk result (λ part. part ≡ self.now) }
    {
        Ok(Part {
            ground: self.ground.clone()?,
        })
    }

    /// The numbers of its sequences, rising.
    pub fn sequences(&self) -> &[u32]
        ensures { result.now ≡ self.now.sequences }
    {
        self.ground.sequences.as_slice()
    }

    /// The job whose sequences they are.
    pub(crate) fn job(&self) -> &'a Job
        ensures { result.now ≡ self.now.problem }
    {
        self.ground.job
    }

    /// The place of the first item of each sequence, where there may be stands that do not fit into four
    /// bytes, and else nothing.
    pub(crate) fn starts(&self) -> &[u32]
        ensures starts { MayHaveStarts self.now result.now }
        ensures part { IsPart self.now }
    {
        self.ground.starts.as_slice()
    }

    /// The rank that a pattern has to hold, where there is one.
    pub(crate) fn need(&self) -> Option<u32>
        ensures need { result ≡ self.now.bound.need }
        ensures part { IsPart self.now }
    {
        self.ground.bound.need
    }
}

// The part that is made of these.
pub(crate) fn part_of<'a>(
    alloc: Global,
    job: &'a Job,
    bound: Bound,
    sequences: Vec<u32>,
    terrain: AnyTerrain,
    weights: Vec<u32>,
    starts: Vec<u32>,
) -> Result<Part<'a>, NoMemory>
    requires kept { IsKept (record {
      problem = job.now;
      bound = bound;
      sequences = sequences.items;
    }) terrain weights.items starts.items }
    ensures { IfOk result (λ part. part ≡ record {
      problem = job.now;
      bound = bound;
      sequences = sequences.items;
    }) }
{
    let made = Ground {
        job,
        bound,
        sequences,
        terrain,
        weights,
        starts,
    };
    Ok(Part {
        ground: Arc::new(alloc, made)?,
    })
}

// The bound of a part: with a pivot, the ranks up to the pivot's, which is needed.
pub(crate) fn bound_by(ranks: u32, pivot: Option<u32>) -> Bound
    ensures { result ≡ bound_of ranks pivot }
{
    match pivot {
        Some(rank) => Bound {
            top: rank,
            need: pivot,
        },
        None => Bound {
            top: ranks,
            need: None,
        },
    }
}
