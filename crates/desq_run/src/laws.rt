//! Laws over the definitions. Each is the contract of a function that does nothing.

ghost use Rattle.std.specs.Prelude.{◌≡◌, ◌≢◌, ◌↔◌, ◌≤◌, ℕ, None, List, [], length, map, Contains};
ghost use Rattle.mine_model.specs.declared.fault.Fault.{Fault};
ghost use Rattle.mine_model.specs.Expression.{Tree};
ghost use Rattle.made_input.specs.Summary.{IsSummary};
ghost use Rattle.mine_model.specs.Answer.{NamedRow};
ghost use Rattle.mine_model.specs.AnswerText.{text_of};
ghost use Rattle.mine_model.specs.Limits.{most_file_bytes};
ghost use Rattle.command_line.specs.Words.{make, mine, prove, check, merged_in, IsCommand};
ghost use Rattle.command_line.specs.declared.share.Share.{Share};
ghost use Rattle.split_merge.specs.Shares.{IsPart};
ghost use Rattle.split_merge.specs.Merging.{IsMerge, AreAllNumbers, FileFault, IsMergeRefusal};
ghost use Rattle.desq_run.specs.Sources.{SaysTree};
ghost use Rattle.desq_run.specs.Ends.{Input, checked_in, known_names, IsFirstRefusal, IsAccepted, IsAnswerTo, IsPartTo, IsAnswerText, input_data};
ghost use Rattle.desq_run.specs.Said.{checked_text};
ghost use Rattle.desq_run.specs.Shared.{AreShareRuns, IsMergeRun};
ghost use Rattle.desq_run.specs.Checked.{IsCheckRun};
ghost use Rattle.mine_model.specs.Support.{HasSupport};
ghost use Rattle.mine_model.specs.Text.{lines_of};
ghost use Rattle.proof_names.specs.NamedProofs.{ProofRow, SayRows};

/// Of an input at most one refusal comes first.
pub fn at_most_one_first_refusal()
    ensures { (input : Input) (first second : Fault)
        → IsFirstRefusal input first → IsFirstRefusal input second → first ≡ second }
{}

/// The answer to an input has at most one text, and so has a check. An answer may have several proofs.
pub fn at_most_one_text()
    ensures { (input : Input) (first second : List ℕ) → input.command.task ≢ prove
        → IsAnswerText input first → IsAnswerText input second → first ≡ second }
{}

/// An accepted input of a command that mines has an answer, and without a share the answer has a text, and a
/// proof. Of a merge and of a check this is not said.
pub fn an_accepted_input_has_an_answer()
    ensures answer { (words : List (List ℕ)) (input : Input)
        → IsCommand words input.command → merged_in input.command.source ≡ [] → IsAccepted input
        → (answer : List NamedRow) × IsAnswerTo input.command.source input answer }
    ensures text { (words : List (List ℕ)) (input : Input)
        → IsCommand words input.command → merged_in input.command.source ≡ []
        → input.command.share ≡ None → checked_in input.command.task ≡ None → IsAccepted input
        → (text : List ℕ) × IsAnswerText input text }
{}

/// On made input the text of the answer is the summary of the answer to the expression.
pub fn made_output_is_the_summary()
    ensures { (input : Input) (count : ℕ) (expression text : List ℕ)
        → input.command.source ≡ make count expression → input.command.share ≡ None
        → input.command.task ≡ mine
        → IsAnswerText input text ↔ IsSummary count expression input.command.threshold text }
{}

/// A run for a share finds the part of the answer that the share has.
pub fn a_share_finds_its_part_of_the_answer()
    ensures { (input : Input) (share : Share) (answer part : List NamedRow)
        → IsAnswerTo input.command.source input answer → IsPartTo input.command.source input share part
        → (tree : Tree (List ℕ)) × SaysTree input.command.source tree
        × IsPart (input_data input tree) share.index share.of answer part }
{}

/// The outputs of the runs of all shares, in any order of the files, are not refused where none is too large,
/// and their merge has the bytes of the answer, where the input is not refused.
pub fn the_outputs_of_all_shares_merge_to_the_answer()
    ensures accepted { (input : Input) (of : ℕ) (part : ℕ → List NamedRow) (answer : List NamedRow)
        (numbers : List ℕ) (refused : FileFault)
        → AreShareRuns input of part → IsAccepted input
        → IsAnswerTo input.command.source input answer
        → AreAllNumbers of numbers
        → ((index : ℕ) → 1 ≤ index → index ≤ of → length (text_of (part index)) ≤ most_file_bytes)
        → IsMergeRefusal input.command.threshold (map text_of (map part numbers)) refused → ⊥ }
    ensures bytes { (input : Input) (of : ℕ) (part : ℕ → List NamedRow) (answer merge : List NamedRow)
        (numbers : List ℕ)
        → AreShareRuns input of part → IsAccepted input
        → IsAnswerTo input.command.source input answer
        → AreAllNumbers of numbers
        → IsMerge input.command.threshold (map text_of (map part numbers)) merge
        → text_of merge ≡ text_of answer }
    ensures run { (input merging : Input) (of : ℕ) (part : ℕ → List NamedRow) (answer : List NamedRow)
        (numbers : List ℕ)
        → AreShareRuns input of part → IsAccepted input
        → IsAnswerTo input.command.source input answer
        → AreAllNumbers of numbers
        → ((index : ℕ) → 1 ≤ index → index ≤ of → length (text_of (part index)) ≤ most_file_bytes)
        → IsMergeRun input (map text_of (map part numbers)) merging
        → IsAccepted merging × IsAnswerText merging (text_of answer) }
{}

/// A run that checks a proof tells how many rows the file has, and each of them is proved: its pattern is not
/// empty, and its support in the data is at least what the row says.
pub fn a_checked_proof_shows_its_rows()
    ensures { (input : Input) (file text : List ℕ)
        → input.command.task ≡ check file → IsAnswerText input text
        → (tree : Tree (List ℕ)) × SaysTree input.command.source tree
        × (rows : List ProofRow) × SayRows (known_names input) (lines_of input.proof) rows
        × (text ≡ checked_text (length rows))
        × ((row : ProofRow) → Contains rows row → (row.row.pattern ≢ [])
        × ((n : ℕ) → HasSupport (input_data input tree).links tree (input_data input tree).sequences
        row.row.pattern n → row.row.support ≤ n)) }
{}

/// What a run writes as a proof is good where a run checks it over the same data, and that run tells how many
/// rows the answer has. It is not refused where it is no larger than a file may be.
pub fn a_written_proof_passes_its_check()
    ensures good { (words : List (List ℕ)) (input checking : Input) (text : List ℕ)
        → IsCommand words input.command → input.command.task ≡ prove
        → IsAccepted input → IsAnswerText input text → IsCheckRun input text checking
        → (answer : List NamedRow) × IsAnswerTo input.command.source input answer
        × IsAnswerText checking (checked_text (length answer)) }
    ensures accepted { (words : List (List ℕ)) (input checking : Input) (text : List ℕ)
        → IsCommand words input.command → input.command.task ≡ prove
        → IsAccepted input → IsAnswerText input text → IsCheckRun input text checking
        → length text ≤ most_file_bytes → IsAccepted checking }
{}
