use mining_job::PartSeed;
use sequence_grids::Alphabet;
use snapshot_project::{Part, Snapshots};
use std::sync::Arc;

/// What a node grows from.
#[derive(Drop)]
pub(crate) enum State<'a> {
    /// The sequences of a root, which have no grids yet, and the alphabet of the job, which the roots share.
    Root(PartSeed, Arc<Alphabet>),
    /// A part, which the nodes below one root share, and what is kept of the prefix in it.
    Projected(Part<'a>, Snapshots),
}
