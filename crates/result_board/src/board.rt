ghost use Rattle.std.specs.Prelude.{◌≡◌, ℕ, ◌<◌, List, [], ◌∷◌, ◌++◌, length, OnOk, OnErr};
ghost use Rattle.std.specs.Prelude.{vec_len, vec_capacity};
ghost use Rattle.std.specs.List.{filter_map};
ghost use Rattle.std.specs.Option.{option_to_list};
ghost use Rattle.search_tree.specs.SearchTree.{SearchTree, IsSearchTree};
ghost use Rattle.mining_job.specs.Problems.{data_of};
ghost use Rattle.result_board.specs.Board.{HasRow, AreRowsOf, labels_of};

use mine_model::{NoMemory, Row};
use mining_job::Job;
use search_tree::Label;
use std::alloc::Global;
use std::marker::Model;
use std::snapshot::Snapshot;
use turn_lock::Kept;

/// A label that was posted, which clauses alone read, and the number of the pass that posted it.
#[derive(Drop)]
struct Entry {
    number: u32,
    label: Snapshot<Label>,
}

/// The labels that were posted, and which pass posted which, with the rows of those that have one.
#[derive(Drop)]
pub struct Board {
    job: Snapshot<Job>,
    entries: Vec<Entry>,
    rows: Vec<Row>,
}

impl Model for Board {
    ghost use Rattle.result_board.specs.Board.{BoardRows, IsBoard};

    ghost Value = { BoardRows };

    ghost use Rattle.mine_model.specs.contracts.expression.Expr as e;
    ghost use Rattle.std.specs.Coded.{codes};

    ghost coded = { Prim.hlevel (codes, e.the_row.coded) };

    ghost use Rattle.result_board.specs.Entries.{history_of};

    ghost view = { λ b. record {
      problem = b.job.value;
      posted = history_of b.entries.items;
      rows = b.rows.items;
    } };

    ghost invariant = { λ b. IsBoard (record {
      problem = b.job.value;
      posted = history_of b.entries.items;
      rows = b.rows.items;
    }) };
}

impl Kept for Board {
    type Ground = Job;

    ghost history_of = { λ b. b.posted };

    ghost ground_of = { λ b. b.problem };
}

impl Board {
    /// The board of a job, with no label. Takes no memory.
    pub fn new(alloc: Global, job: &Job) -> Board
        ensures { result ≡ record { problem = job.now; posted = []; rows = [] } }
    {
        Board {
            job: Snapshot::of(job),
            entries: Vec::new(alloc),
            rows: Vec::new(alloc),
        }
    }

    /// Adds a label as the pass of this number, and its row, which is taken out. After `NoMemory` the row is
    /// still there.
    pub(crate) fn post(
        &mut self,
        number: u32,
        label: &Label,
        row: &mut Option<Row>,
    ) -> Result<(), NoMemory>
        requires { HasRow self.old.problem label.now row.old }
        ensures posted { OnOk result (self.new.posted ≡ self.old.posted ++ (number, label.now) ∷ []) }
        ensures stays { self.new.problem ≡ self.old.problem }
        ensures same { OnErr result (self.new ≡ self.old) }
        ensures kept { OnErr result (row.new ≡ row.old) }
    {
        self.entries.reserve(1)?;
        self.rows.reserve(1)?;
        self.entries.push_reserved(Entry {
            number,
            label: Snapshot::of(label),
        });
        push_row(&mut self.rows, row.take());
        Ok(())
    }

    /// The rows of the labels, in the order in which the labels were posted, and how many labels there are.
    pub fn into_parts(self) -> (Vec<Row>, u64)
        ensures rows { AreRowsOf self.problem (labels_of self.posted) result.0.items }
        ensures tree { (pivots : List ℕ) (tree : SearchTree)
            → IsSearchTree (data_of self.problem) self.problem.ranking.order pivots tree
            → result.0.items ≡ filter_map tree.row (labels_of self.posted) }
        ensures count { result.1 ≡ length self.posted }
    {
        let Board {
            job: _,
            entries,
            rows,
        } = self;
        (rows, entries.len() as u64)
    }
}

// Appends the row, where there is one, to rows that have room for one more.
fn push_row(rows: &mut Vec<Row>, row: Option<Row>)
    requires { vec_len rows.old < vec_capacity rows.old }
    ensures { rows.new.items ≡ rows.old.items ++ option_to_list row }
{
    if let Some(row) = row {
        rows.push_reserved(row);
    }
}
