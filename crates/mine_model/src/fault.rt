use super::memory::NoMemory;

/// Which file a message speaks of.
#[derive(Clone, Copy, Debug, PartialEq, Eq)]
pub enum Which {
    Hierarchy,
    Sequences,
    /// A file of an output that is to be merged, by its number in the words, from 1.
    Merged(u32),
    /// The file of a proof that is to be checked.
    Proof,
}

/// Why a run did not end with its answer. Lines and columns count from 1, columns in bytes; the lines of a
/// file are counted with the empty ones. `specs/Status.antt` has the status and the message of each.
#[derive(Clone, Copy, Debug, PartialEq, Eq)]
pub enum Fault {
    /// The words are no command.
    Usage,
    /// No token begins here, or a quoted name is not closed.
    BadToken { column: u32 },
    /// A repeat has no right form, or its bounds, both within the limit, are the wrong way round.
    BadRepeat { column: u32 },
    /// The expression does not go on so, or ends too early.
    Unexpected { column: u32 },
    /// The name stands in neither file.
    Unknown { column: u32 },
    /// A control byte stands in a line.
    BadByte { file: Which, line: u64, column: u64 },
    /// The first field of the line is no weight.
    BadWeight { line: u64, column: u64 },
    /// The links up to this line lead from an item back to it.
    Cycle { line: u64 },
    /// The line of an output that is to be merged is no row, or not behind the row before it, or its pattern
    /// stands in an earlier line of this file or of one before it.
    BadRow { file: Which, line: u64 },
    /// The line of a proof is refused: it has not the form or the place of a row or of a path, its path shows
    /// nothing of its row, or the paths of its row weigh less than the row says.
    BadProof { line: u64 },
    /// The expression has too many bytes.
    ExprTooLong,
    /// A repeat has a number that is too great.
    RepeatLimit { column: u32 },
    /// Too many brackets are open, or too many postfix signs follow each other.
    TooDeep { column: u32 },
    /// The expression has too many leaves once its repetitions are written out. Greater counts are told as
    /// 1,000,000.
    TooManyLeaves { count: u32 },
    /// The file has too many bytes.
    TooLarge { file: Which },
    /// A name has too many bytes; the column is that of the first byte too many.
    NameTooLong { file: Which, line: u64, column: u64 },
    /// With this line there are too many different names.
    TooManyItems { file: Which, line: u64 },
    /// The items of the hierarchy have too many ancestors together.
    TooManyAncestors,
    /// With this line there are too many sequences.
    TooManySequences { line: u64 },
    /// The line has too many items.
    SequenceTooLong { line: u64 },
    /// Reading the file failed.
    Read { file: Which },
    /// Writing the answer failed.
    Write,
    /// There was not enough memory.
    NoMemory,
}

impl From<NoMemory> for Fault {
    ghost use Rattle.std.specs.Prelude.{◌≡◌};
    ghost use Rattle.mine_model.specs.declared.fault.Fault.TheVariants.{NoMemory};

    ghost from_gives = { λ _ e. e ≡ NoMemory };

    fn from(_e: NoMemory) -> Fault {
        Fault::NoMemory
    }
}
