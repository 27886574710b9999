//! Laws over the definitions. Each is the contract of a function that does nothing.

ghost use Rattle.std.specs.Prelude.{◌≡◌, ◌≢◌, ℕ, ◌≤◌, ◌⊎◌, Bool, List, [], map, length, Contains};
ghost use Rattle.std.specs.List.{AllByRecursion};
ghost use Rattle.mine_model.specs.declared.row.Row.{Row};
ghost use Rattle.mine_model.specs.Answer.{Rises};
ghost use Rattle.mine_model.specs.Generation.{IsPatternOf};
ghost use Rattle.mine_model.specs.Growth.{WeighAtLeast};
ghost use Rattle.mine_model.specs.Limits.{most_sequences, most_weight, most_leaves};
ghost use Rattle.mine_model.specs.Names.{HasName, AreDistinct, named_row};
ghost use Rattle.mine_model.specs.Numbered.{tree_of, AreFrequent};
ghost use Rattle.mine_model.specs.Refusal.{names_of, items_of, sequences_of};
ghost use Rattle.mine_model.specs.Support.{HasSupport};
ghost use Rattle.mine_model.specs.Text.{lines_of, IsSoundLine};
ghost use Rattle.mining_job.specs.Problems.{Problem, IsWhole, data_of};
ghost use Rattle.pattern_proof.specs.declared.fault.ProofFault.{ProofFault};
ghost use Rattle.pattern_proof.specs.ProofLines.{Entry, AreFileNames};
ghost use Rattle.pattern_proof.specs.Proofs.{IsGood, IsProofOf};
ghost use Rattle.pattern_proof.specs.Judging.{IsGoodLine, AreRefused, IsProofRefusal};

/// A proof of the answer is good.
pub fn the_answer_has_a_good_proof()
    ensures { (problem : Problem) → IsWhole problem → (names : List (List ℕ)) → AreFileNames names
        → length problem.sequences ≤ most_sequences
        → AllByRecursion (λ sequence. sequence.weight ≤ most_weight) problem.sequences
        → length problem.transducer.labels ≤ most_leaves
        → (rows : List Row) → AreFrequent (data_of problem) rows
        → AllByRecursion (λ row. AllByRecursion (HasName names) row.pattern) rows
        → Rises (map (named_row names) rows)
        → (bytes : List ℕ) → IsProofOf problem names rows bytes
        → IsGood problem names (lines_of bytes) (length rows) }
{}

/// The rows of a good proof are patterns, and their supports are at least what they say.
pub fn a_good_proof_proves()
    ensures { (problem : Problem) → IsWhole problem
        → (names : List (List ℕ)) (lines : List (List ℕ)) (rows : ℕ)
        → (good : IsGood problem names lines rows) → (entry : Entry) → Contains good.entries entry
        → (entry.row.pattern ≢ [])
        × WeighAtLeast (λ items. IsPatternOf problem.hierarchy.links
        (tree_of problem.transducer.expression) items entry.row.pattern) problem.sequences entry.row.support
        × ((n : ℕ) → HasSupport problem.hierarchy.links (tree_of problem.transducer.expression)
        problem.sequences entry.row.pattern n → entry.row.support ≤ n) }
{}

/// At most one refusal of a proof file comes first.
pub fn at_most_one_proof_refusal()
    ensures { (problem : Problem) (names : List (List ℕ)) → AreFileNames names → (bytes : List ℕ)
        (first second : ProofFault) → IsProofRefusal problem names bytes first
        → IsProofRefusal problem names bytes second → first ≡ second }
{}

/// A good proof whose lines are sound is not refused.
pub fn a_good_proof_is_not_refused()
    ensures { (problem : Problem) (names : List (List ℕ)) → AreFileNames names
        → (lines : List (List ℕ)) (rows : ℕ) → AllByRecursion IsSoundLine lines
        → IsGood problem names lines rows
        → (fault : ProofFault) → AreRefused problem names lines fault → ⊥ }
{}

/// Sound lines of which none is refused are a good proof, where each line can be decided.
pub fn an_unrefused_proof_is_good()
    ensures { (problem : Problem) (names : List (List ℕ)) → AreFileNames names
        → ((entries : List Entry) (text : List ℕ) → IsGoodLine problem names entries text
        ⊎ (IsGoodLine problem names entries text → ⊥))
        → (lines : List (List ℕ)) → AllByRecursion IsSoundLine lines
        → ((fault : ProofFault) → AreRefused problem names lines fault → ⊥)
        → (rows : ℕ) × IsGood problem names lines rows }
{}

/// Names that differ, and each of which stands on a line of a hierarchy file or in a sequence file, are names
/// of files.
pub fn names_in_files_are_names_of_files()
    ensures { (names : List (List ℕ)) → AreDistinct names
        → (lines : List (List ℕ)) (weighted : Bool) (bytes : List ℕ)
        → ((name : List ℕ) → Contains names name
        → Contains (names_of lines) name ⊎ Contains (items_of (sequences_of weighted bytes)) name)
        → AreFileNames names }
{}
