//! Laws over the grammar. Each is the contract of a function that does nothing.

ghost use Rattle.std.specs.Prelude.{◌≡◌, ℕ, List};
ghost use Rattle.mine_model.specs.Expression.{Tree};
ghost use Rattle.mine_model.specs.Tokens.{Placed, AreTokens};
ghost use Rattle.mine_model.specs.Grammar.{Part, Use, Reads, ReadsAs};
ghost use Rattle.mine_model.specs.Refusal.{IsExpressionRefusal};
ghost use Rattle.mine_model.specs.declared.fault.Fault.{Fault};

/// Tokens read as at most one tree.
pub fn at_most_one_tree()
    ensures { (part : Part) (tokens : List Placed) (first second : Tree Use)
        → Reads part tokens first → Reads part tokens second → first ≡ second }
{}

/// A text is at most one list of tokens.
pub fn at_most_one_list_of_tokens()
    ensures { (text : List ℕ) (first second : List Placed)
        → AreTokens text first → AreTokens text second → first ≡ second }
{}

/// A text reads as at most one tree.
pub fn at_most_one_reading()
    ensures { (text : List ℕ) (first second : Tree Use)
        → ReadsAs text first → ReadsAs text second → first ≡ second }
{}

/// An expression has at most one first refusal.
pub fn at_most_one_expression_refusal()
    ensures { (text : List ℕ) (first second : Fault)
        → IsExpressionRefusal text first → IsExpressionRefusal text second → first ≡ second }
{}
