use mine_model::NoMemory;
use thiserror::Error;

/// Why a proof file is refused, or was not read. Lines and columns count from 1.
#[derive(Clone, Copy, Debug, PartialEq, Eq, Error)]
pub enum ProofFault {
    /// Opening or reading it failed.
    #[error("read fault")]
    ReadFault,
    /// It has too many bytes.
    #[error("more than 67108864 bytes")]
    TooLarge,
    /// A control byte stands in a line.
    #[error("line {line} column {column}: bad byte")]
    BadByte { line: u64, column: u64 },
    /// A name has too many bytes; the column is that of the first byte too many.
    #[error("line {line} column {column}: name over 255 bytes")]
    NameTooLong { line: u64, column: u64 },
    /// The line proves nothing, or the row on it is not proved by the path lines below it.
    #[error("line {line}: refused")]
    BadProof { line: u64 },
    /// There was not enough memory.
    #[error("out of memory")]
    NoMemory,
}

impl From<NoMemory> for ProofFault {
    ghost use Rattle.std.specs.Prelude.{◌≡◌};
    ghost use Rattle.pattern_proof.specs.declared.fault.ProofFault.TheVariants.{NoMemory};

    ghost from_gives = { λ _ e. e ≡ NoMemory };

    fn from(_e: NoMemory) -> ProofFault {
        ProofFault::NoMemory
    }
}
