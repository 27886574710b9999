use super::steer::Steer;
use mining_job::Job;
use result_board::Board;
use std::alloc::Global;
use turn_lock::TurnLock;

/// What all workers of a search share.
#[derive(Drop)]
pub struct Crew<'a, S, R, G> {
    pub rt: &'a R,
    pub alloc: Global,
    /// Whose tree they grow.
    pub search: &'a S,
    /// What its nodes belong to.
    pub job: &'a Job,
    /// Where the labels are posted.
    pub board: &'a TurnLock<Board>,
    pub steer: &'a Steer,
    /// What a worker passes before each node.
    pub gate: &'a G,
}
