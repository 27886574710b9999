ghost use Rattle.std.specs.Prelude.{◌≡◌, ◌≤◌, ◌<◌, length};
ghost use Rattle.std.specs.List.{AllByRecursion};
ghost use Rattle.mine_model.specs.Expression.{named_in};
ghost use Rattle.mine_model.specs.Numbered.{tree_of};
ghost use Rattle.mine_model.specs.Ranks.{AreRanks};
ghost use Rattle.fst_compile.specs.Transducer.{IsPositionAutomaton, IsTransducerOf};
ghost use Rattle.mining_job.specs.Problems.{IsWhole};

use fst_compile::Fst;
use mine_model::{Db, Hierarchy, Ranks};
use std::marker::Model;

/// What an engine mines: the sequences with their hierarchy, the transducer of the expression, the ranks of
/// the frequent items, and the threshold.
pub struct Job {
    hierarchy: Hierarchy,
    db: Db,
    fst: Fst,
    ranks: Ranks,
    threshold: u64,
}

// Written out, so that it is let go of by a call, and not part by part wherever one is.
impl Drop for Job {
    fn drop(self) {
        let Job {
            hierarchy: _,
            db: _,
            fst: _,
            ranks: _,
            threshold: _,
        } = self;
    }
}

impl Model for Job {
    ghost use Rattle.mining_job.specs.Problems.{Problem, IsWhole};

    ghost Value = { Problem };

    ghost use Rattle.mine_model.specs.contracts.expression.Expr as e;
    ghost use Rattle.std.specs.Coded.{codes};

    ghost coded = { Prim.hlevel (codes, e.the_row.coded) };

    ghost view = { λ j. record {
      hierarchy = j.hierarchy;
      sequences = j.db;
      transducer = j.fst;
      ranking = j.ranks;
      threshold = j.threshold;
    } };

    ghost invariant = { λ j. IsWhole (record {
      hierarchy = j.hierarchy;
      sequences = j.db;
      transducer = j.fst;
      ranking = j.ranks;
      threshold = j.threshold;
    }) };
}

impl Job {
    /// The job of these. Takes no memory.
    pub fn new(hierarchy: Hierarchy, db: Db, fst: Fst, ranks: Ranks, threshold: u64) -> Job
        requires items { AllByRecursion
            (λ sequence. AllByRecursion (λ t. t.0 < hierarchy.items) sequence.items) db }
        requires named { AllByRecursion (λ w. w.0 < hierarchy.items) (named_in (tree_of fst.expression)) }
        requires automaton { IsPositionAutomaton fst (tree_of fst.expression) }
        requires paths { IsTransducerOf fst (tree_of fst.expression) }
        requires ranks { AreRanks hierarchy.links db threshold ranks }
        requires ranked { length ranks.frequencies ≡ hierarchy.items }
        requires threshold { 1 ≤ threshold }
        ensures { result ≡ record {
          hierarchy = hierarchy;
          sequences = db;
          transducer = fst;
          ranking = ranks;
          threshold = threshold;
        } }
    {
        Job {
            hierarchy,
            db,
            fst,
            ranks,
            threshold,
        }
    }

    /// The hierarchy of the items. Takes no memory.
    pub fn hierarchy(&self) -> &Hierarchy
        ensures hierarchy { result.now ≡ self.now.hierarchy }
        ensures whole { IsWhole self.now }
    {
        &self.hierarchy
    }

    /// The sequences. Takes no memory.
    pub fn db(&self) -> &Db
        ensures sequences { result.now ≡ self.now.sequences }
        ensures whole { IsWhole self.now }
    {
        &self.db
    }

    /// The transducer of the expression. Takes no memory.
    pub fn fst(&self) -> &Fst
        ensures transducer { result.now ≡ self.now.transducer }
        ensures whole { IsWhole self.now }
    {
        &self.fst
    }

    /// The ranks of the frequent items. Takes no memory.
    pub fn ranks(&self) -> &Ranks
        ensures ranking { result.now ≡ self.now.ranking }
        ensures whole { IsWhole self.now }
    {
        &self.ranks
    }

    /// The least support of a frequent pattern. Takes no memory.
    pub fn threshold(&self) -> u64
        ensures threshold { result ≡ self.now.threshold }
        ensures whole { IsWhole self.now }
    {
        self.threshold
    }
}
