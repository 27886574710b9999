use super::state::State;
use mining_job::Job;
use node_pool::Task;
use std::marker::Model;

/// A node of the search tree: a root, which has no grids yet, or a prefix with what is kept of it.
#[derive(Drop)]
pub struct Node<'a> {
    pub(crate) job: &'a Job,
    /// The pivot, or 0, and the ranks of the prefix.
    pub(crate) label: Vec<u32>,
    pub(crate) state: State<'a>,
}

impl<'a> Model for Node<'a> {
    ghost use Rattle.dfs_growth.specs.Nodes.{Prefix, prefix_at};

    ghost Value = { Prefix };

    ghost use Rattle.mine_model.specs.contracts.expression.Expr as e;
    ghost use Rattle.std.specs.Coded.{codes};

    ghost coded = { Prim.hlevel (codes, e.the_row.coded) };

    ghost use Rattle.dfs_growth.specs.Projections.{IsNode};

    ghost view = { λ n. prefix_at n.job.now n.label.items };

    ghost invariant = { λ n. IsNode n.job.now n.label.items n.state };
}

impl<'a> Task for Node<'a> {
    type Ground = Job;

    ghost use Rattle.dfs_growth.specs.Nodes.{label_at};

    ghost label_of = { λ node. label_at node };

    ghost ground_of = { λ node. node.problem };
}
