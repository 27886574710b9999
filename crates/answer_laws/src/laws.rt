//! Laws over the definitions. Each is the contract of a function that does nothing.

ghost use Rattle.std.specs.Prelude.{ℕ, ◌≤◌, List};
ghost use Rattle.mine_model.specs.declared.fault.Fault.{Fault};
ghost use Rattle.mine_model.specs.Expression.{Tree};
ghost use Rattle.mine_model.specs.Grammar.{Use, ReadsAs};
ghost use Rattle.mine_model.specs.Refusal.{IsExpressionRefusal};
ghost use Rattle.mine_model.specs.Answer.{Data, NamedRow, IsAnswer};

/// Where the threshold is at least 1, the data of a run have an answer.
pub fn each_data_has_an_answer()
    ensures { (data_of_run : Data (List ℕ)) → 1 ≤ data_of_run.threshold
        → (answer : List NamedRow) × IsAnswer data_of_run answer }
{}

/// An expression that is not refused reads as a tree.
pub fn accepted_expression_reads_as_a_tree()
    ensures { (text : List ℕ) → ((fault : Fault) → IsExpressionRefusal text fault → ⊥)
        → (tree : Tree Use) × ReadsAs text tree }
{}
