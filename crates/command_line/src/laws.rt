//! Laws over the definitions. Each is the contract of a function that does nothing.

ghost use Rattle.std.specs.Prelude.{◌≡◌, ◌≤◌, ◌↔◌, ℕ, false, IfSome, length, None, List, [], ◌∷◌, ◌++◌, codes};
ghost use Rattle.std.specs.List.{AllByRecursion};
ghost use Rattle.clap.specs.Words.{Text};
ghost use Rattle.mine_model.specs.Limits.{most_support};
ghost use Rattle.gap_front.specs.declared.rule.GapRule.{GapRule};
ghost use Rattle.gap_front.specs.Embedding.{IsRule};
ghost use Rattle.made_input.specs.Made.{most_made};
ghost use Rattle.command_line.specs.Words.{Command, IsCommand, IsNumber, IsUsage, SuitsTask, check, embed, make, merge, most_merged, prove, read};
ghost use Rattle.command_line.specs.Options.{options};
ghost use Rattle.command_line.specs.Items.{HaveSameValues, IsLine, Item, words_of};
ghost use Rattle.command_line.specs.PlainWords.{
  HasNoDashes,
  IsHelp,
  IsPlainWord,
  IsUse,
  plain_command,
};

/// Words say at most one command.
pub fn at_most_one_command()
    ensures { (words : List Text) (first second : Command) → IsCommand words first
        → IsCommand words second → first ≡ second }
{}

/// Words that are usage say no command.
pub fn usage_says_no_command()
    ensures { (words : List Text) (command : Command) → IsUsage words → IsCommand words command → ⊥ }
{}

/// The numbers of a rule that words say are in their ranges, and its least length is no greater than its
/// greatest.
pub fn a_rule_is_in_its_ranges()
    ensures { (words : List Text) (command : Command) (rule : GapRule) (file : Text)
        → IsCommand words command → command.source ≡ embed rule file
        → IsRule rule × (rule.min_length ≤ rule.max_length) }
{}

/// The number of sequences to be made that words say is in its range, and such words name no file and ask for
/// no weights.
pub fn made_input_names_no_file()
    ensures { (words : List Text) (command : Command) (count : ℕ) (expression : Text)
        → IsCommand words command → command.source ≡ make count expression
        → (1 ≤ count) × (count ≤ most_made) × (command.hierarchy ≡ None) × (command.weighted ≡ false) }
{}

/// A merge names 1 to 64 files, and its words say nothing else but the threshold.
pub fn a_merge_stands_alone()
    ensures { (words : List Text) (command : Command) (files : List Text)
        → IsCommand words command → command.source ≡ merge files
        → (1 ≤ length files) × (length files ≤ most_merged)
        × (command ≡ plain_command command.threshold (merge files)) }
{}

/// What `--support DIGITS EXPRESSION FILE` says, where neither word begins with a dash.
pub fn plain_words_say()
    ensures { (digits expression file : Text) (n : ℕ) → IsNumber 1 most_support digits n
        → IsPlainWord expression → IsPlainWord file
        → IsCommand (codes "--support" ∷ digits ∷ expression ∷ file ∷ [])
        (plain_command n (read expression file)) }
{}

/// What `--support DIGITS -- EXPRESSION FILE` says: behind `--` each word is taken as it is.
pub fn words_behind_dashes_say()
    ensures { (digits expression file : Text) (n : ℕ) → IsNumber 1 most_support digits n
        → IsCommand (codes "--support" ∷ digits ∷ codes "--" ∷ expression ∷ file ∷ [])
        (plain_command n (read expression file)) }
{}

/// What `--support DIGITS --merge FILE ..` says, with 1 to 64 files, where none of these words begins with a
/// dash.
pub fn merge_words_say()
    ensures { (digits : Text) (files : List Text) (n : ℕ) → IsNumber 1 most_support digits n
        → 1 ≤ length files → length files ≤ most_merged → AllByRecursion IsPlainWord files
        → IsCommand (codes "--support" ∷ digits ∷ codes "--merge" ∷ files) (plain_command n (merge files)) }
{}

/// A proof that words ask for is of the patterns of an expression in the sequences of a file, and of all of
/// them. Words that ask for the check of a proof ask neither for a simulated run nor for its counted work.
pub fn a_proof_is_of_a_file()
    ensures { (words : List Text) (command : Command) → IsCommand words command
        → SuitsTask command.task command }
{}

/// What `--support DIGITS --proof EXPRESSION FILE` says, where neither word begins with a dash.
pub fn proof_words_say()
    ensures { (digits expression file : Text) (n : ℕ) → IsNumber 1 most_support digits n
        → IsPlainWord expression → IsPlainWord file
        → IsCommand (codes "--support" ∷ digits ∷ codes "--proof" ∷ expression ∷ file ∷ [])
        (record (plain_command n (read expression file)) { task = prove }) }
{}

/// What `--support DIGITS --check PROOF EXPRESSION FILE` says, where none of the last three words begins with
/// a dash.
pub fn check_words_say()
    ensures { (digits proof expression file : Text) (n : ℕ) → IsNumber 1 most_support digits n
        → IsPlainWord proof → IsPlainWord expression → IsPlainWord file
        → IsCommand (codes "--support" ∷ digits ∷ codes "--check" ∷ proof ∷ expression ∷ file ∷ [])
        (record (plain_command n (read expression file)) { task = check proof }) }
{}

/// Words that ask for help or for the version say no command, whatever stands before and behind. Behind `--`
/// such a word is an expression or a file as any other.
pub fn help_is_usage()
    ensures { (before behind : List Text) (word : Text) → IsHelp word → HasNoDashes before
        → IsUsage (before ++ word ∷ behind) }
{}

/// Words in which one option stands twice say no command, whichever option it is and whatever stands before,
/// between and behind. Behind `--` there are no options.
pub fn a_repeated_option_is_usage()
    ensures { AllByRecursion (λ rule. IfSome rule.long (λ name.
        (before between behind : List Text) (first second : Text) → IsUse name first → IsUse name second
        → HasNoDashes before → HasNoDashes between
        → IsUsage (before ++ first ∷ (between ++ second ∷ behind)))) options }
{}

/// Options may stand anywhere in front of `--`: two lines say the same command where each option has the
/// same value in both, or stands in neither, and the words of no option are the same in the same order.
/// `--NAME VALUE` and `--NAME=VALUE` are one, and a word of no option may stand in front of `--` or behind
/// it. In a line each option stands once, a value that is a word of its own is plain, as is a word of no
/// option in front of `--`, other values and words are any text, and there may be any number of words of no
/// option.
pub fn options_may_stand_anywhere()
    ensures { (items others : List Item) (command : Command) → IsLine items → IsLine others
        → HaveSameValues items others
        → IsCommand (words_of items) command ↔ IsCommand (words_of others) command }
{}
