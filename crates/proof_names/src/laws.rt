//! Laws over the definitions. Each is the contract of a function that does nothing.

ghost use Rattle.std.specs.Prelude.{◌≡◌, ◌≢◌, ℕ, ◌≤◌, ◌⊎◌, ◌↔◌, true, false, List, [], map, length, Contains};
ghost use Rattle.std.specs.List.{AllByRecursion};
ghost use Rattle.mine_model.specs.declared.row.Row.{Row};
ghost use Rattle.mine_model.specs.declared.fault.Fault.{Fault};
ghost use Rattle.mine_model.specs.Answer.{Data, NamedRow, IsAnswer};
ghost use Rattle.mine_model.specs.Expression.{Tree, unfolded_leaves};
ghost use Rattle.mine_model.specs.Generation.{Generates, IsPatternOf};
ghost use Rattle.mine_model.specs.Growth.{WeighAtLeast};
ghost use Rattle.mine_model.specs.Hierarchy.{Link};
ghost use Rattle.mine_model.specs.Limits.{most_file_bytes, most_sequences, most_weight, most_leaves};
ghost use Rattle.mine_model.specs.Names.{HasName, named_row, IsFileName};
ghost use Rattle.mine_model.specs.Support.{HasSupport};
ghost use Rattle.mine_model.specs.Text.{lines_of, is_name_byte, IsSoundLine};
ghost use Rattle.mine_model.specs.Tokens.{Each};
ghost use Rattle.mining_job.specs.Problems.{Problem};
ghost use Rattle.fst_compile.specs.Shape.{unfold_tree};
ghost use Rattle.pattern_proof.specs.declared.fault.ProofFault.{ProofFault};
ghost use Rattle.pattern_proof.specs.Proofs.{IsGood, IsProofOf};
ghost use Rattle.pattern_proof.specs.Judging.{IsProofRefusal};
ghost use Rattle.pattern_proof.specs.Runs.{Passes};
ghost use Rattle.proof_names.specs.NamedProofs.{ProofRow, IsGoodProof, IsProofText};
ghost use Rattle.proof_names.specs.NamedRefusals.{IsProofFileRefusal};
ghost use Rattle.proof_names.specs.Numberings.{IsNumbering, AreKnown, fault_of};

/// By the numbers of names a proof is good just where it is good by names, with as many rows.
pub fn good_by_numbers_is_good_by_names()
    ensures { (d : Data (List ℕ)) (known names : List (List ℕ)) (problem : Problem)
        → IsNumbering d known names problem → (lines : List (List ℕ)) (count : ℕ)
        → (IsGood problem names lines count ↔ IsGoodProof d known lines count) }
{}

/// The first refusal by the numbers of names is the first refusal by names, and there is no other by names.
pub fn refused_by_numbers_is_refused_by_names()
    ensures { (d : Data (List ℕ)) (known names : List (List ℕ)) (problem : Problem)
        → IsNumbering d known names problem → (bytes : List ℕ)
        → ((fault : ProofFault) → IsProofRefusal problem names bytes fault
        → IsProofFileRefusal d known bytes (fault_of fault))
        × ((fault : Fault) → IsProofFileRefusal d known bytes fault
        → (own : ProofFault) × (fault ≡ fault_of own) × IsProofRefusal problem names bytes own) }
{}

/// Where a problem is the data by the numbers of their names, a good proof whose lines are sound is not
/// refused.
pub fn a_good_proof_by_names_is_not_refused()
    ensures { (d : Data (List ℕ)) (known names : List (List ℕ)) (problem : Problem)
        → IsNumbering d known names problem → (bytes : List ℕ) (count : ℕ)
        → length bytes ≤ most_file_bytes → AllByRecursion IsSoundLine (lines_of bytes)
        → IsGoodProof d known (lines_of bytes) count
        → (fault : Fault) → IsProofFileRefusal d known bytes fault → ⊥ }
{}

/// A proof of rows by the numbers of names is a proof of the rows with the names.
pub fn a_proof_by_numbers_is_a_proof_by_names()
    ensures { (d : Data (List ℕ)) (known names : List (List ℕ)) (problem : Problem)
        → IsNumbering d known names problem → (rows : List Row) (bytes : List ℕ)
        → AllByRecursion (λ row. AllByRecursion (HasName names) row.pattern) rows
        → IsProofOf problem names rows bytes → IsProofText d (map (named_row names) rows) bytes }
{}

/// At most one refusal of a proof file comes first, where the known names are of name bytes alone.
pub fn at_most_one_named_refusal()
    ensures { (d : Data (List ℕ)) (known : List (List ℕ)) → AllByRecursion (Each is_name_byte true) known
        → (bytes : List ℕ) (first second : Fault) → IsProofFileRefusal d known bytes first
        → IsProofFileRefusal d known bytes second → first ≡ second }
{}

/// A good proof has one number of rows, where the known names are of name bytes alone.
pub fn at_most_one_number_of_rows()
    ensures { (d : Data (List ℕ)) (known : List (List ℕ)) → AllByRecursion (Each is_name_byte true) known
        → (lines : List (List ℕ)) (first second : ℕ) → IsGoodProof d known lines first
        → IsGoodProof d known lines second → first ≡ second }
{}

/// Over a sequence there is a path that writes an output exactly where the expression generates the output.
pub fn paths_by_names_write_what_is_generated()
    ensures { (links : List (Link (List ℕ))) (tree : Tree (List ℕ)) (items output : List (List ℕ))
        → (((states : List ℕ) → Passes links (unfold_tree tree false) 0 states items output
        → Generates links tree false items output)
        × (Generates links tree false items output
        → (states : List ℕ) × Passes links (unfold_tree tree false) 0 states items output)) }
{}

/// Where it is decided of each sequence whether it has a pattern, all rows have a proof.
pub fn each_answer_has_a_proof()
    ensures { (d : Data (List ℕ)) → ((items pattern : List (List ℕ))
        → IsPatternOf d.links d.expression items pattern
        ⊎ (IsPatternOf d.links d.expression items pattern → ⊥))
        → (rows : List NamedRow) → (text : List ℕ) × IsProofText d rows text }
{}

/// The rows of a good proof are patterns, and their supports are at least what they say.
pub fn a_good_proof_by_names_proves()
    ensures { (d : Data (List ℕ)) (known : List (List ℕ))
        → (lines : List (List ℕ)) (count : ℕ) (good : IsGoodProof d known lines count)
        → (row : ProofRow) → Contains good.rows row
        → (row.row.pattern ≢ [])
        × WeighAtLeast (λ items. IsPatternOf d.links d.expression items row.row.pattern) d.sequences
        row.row.support
        × ((n : ℕ) → HasSupport d.links d.expression d.sequences row.row.pattern n → row.row.support ≤ n) }
{}

/// Where the known names are names of files, a proof of the answer is good.
pub fn the_answer_by_names_has_a_good_proof()
    ensures { (d : Data (List ℕ)) (known : List (List ℕ)) → AllByRecursion IsFileName known
        → AreKnown known d → length d.sequences ≤ most_sequences
        → AllByRecursion (λ sequence. sequence.weight ≤ most_weight) d.sequences
        → unfolded_leaves d.expression ≤ most_leaves → 1 ≤ d.threshold
        → (answer : List NamedRow) (bytes : List ℕ) → IsAnswer d answer → IsProofText d answer bytes
        → IsGoodProof d known (lines_of bytes) (length answer) }
{}
