//! Laws over the definitions. Each is the contract of a function that does nothing.

ghost use Rattle.std.specs.Prelude.{◌≡◌, ℕ, List};
ghost use Rattle.mine_model.specs.Answer.{Data, NamedRow, IsAnswer};
ghost use Rattle.mine_model.specs.Counted.{IsCountingWork};
ghost use Rattle.mine_model.specs.Support.{HasSupport};
ghost use Rattle.mine_model.specs.Growth.{IsSearchWork};
ghost use Rattle.mine_model.specs.PartitionWork.{IsPartitionWork, IsBytewiseBefore};
ghost use Rattle.mine_model.specs.declared.mined.Work.{Work};

/// There is at most one answer.
pub fn at_most_one_answer()
    ensures { (data_of_run : Data (List ℕ)) (first second : List NamedRow)
        → IsAnswer data_of_run first → IsAnswer data_of_run second → first ≡ second }
{}

/// A pattern has at most one support.
pub fn at_most_one_support()
    ensures { (data_of_run : Data (List ℕ)) (pattern : List (List ℕ)) (m n : ℕ)
        → HasSupport data_of_run.links data_of_run.expression data_of_run.sequences pattern m
        → HasSupport data_of_run.links data_of_run.expression data_of_run.sequences pattern n → m ≡ n }
{}

/// At most one work is the counting work of the data of a run.
pub fn at_most_one_work()
    ensures { (data_of_run : Data (List ℕ)) (first second : Work)
        → IsCountingWork data_of_run first → IsCountingWork data_of_run second → first ≡ second }
{}

/// At most one work is that of a search by prefixes on the data of a run.
pub fn at_most_one_search_work()
    ensures { (data_of_run : Data (List ℕ)) (first second : Work)
        → IsSearchWork data_of_run first → IsSearchWork data_of_run second → first ≡ second }
{}

/// At most one work is that of a search by pivots on the data of a run.
pub fn at_most_one_partition_work()
    ensures { (data_of_run : Data (List ℕ)) (first second : Work)
        → IsPartitionWork IsBytewiseBefore data_of_run first
        → IsPartitionWork IsBytewiseBefore data_of_run second → first ≡ second }
{}
