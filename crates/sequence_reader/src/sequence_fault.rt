use mine_model::{Fault, NoMemory, Which};
use text_ports::ReadFault;
use thiserror::Error;

/// Why a sequence file was not read. Lines and columns count from 1.
#[derive(Clone, Copy, Debug, PartialEq, Eq, Error)]
pub enum SequenceFault {
    /// Opening or reading the file failed.
    #[error("read fault")]
    ReadFault,
    /// The file has too many bytes.
    #[error("more than 67108864 bytes")]
    TooLarge,
    /// A control byte stands in a line.
    #[error("line {line} column {column}: bad byte")]
    BadByte { line: u64, column: u64 },
    /// A name has too many bytes; the column is that of the first byte too many.
    #[error("line {line} column {column}: name over 255 bytes")]
    NameTooLong { line: u64, column: u64 },
    /// With this line there are too many sequences.
    #[error("line {line}: more than 4194304 sequences")]
    TooManySequences { line: u64 },
    /// The first field of the line is no weight, or there is none.
    #[error("line {line} column {column}: bad weight")]
    BadWeight { line: u64, column: u64 },
    /// The line has too many items.
    #[error("line {line}: more than 65535 items in a sequence")]
    TooLong { line: u64 },
    /// With this line there are too many different names.
    #[error("line {line}: more than 1048576 items")]
    TooManyItems { line: u64 },
    /// There was not enough memory.
    #[error("out of memory")]
    NoMemory,
}

impl From<NoMemory> for SequenceFault {
    ghost use Rattle.std.specs.Prelude.{◌≡◌};
    ghost use Rattle.sequence_reader.specs.declared.sequence_fault.SequenceFault.TheVariants.{NoMemory};

    ghost from_gives = { λ _ e. e ≡ NoMemory };

    fn from(_e: NoMemory) -> SequenceFault {
        SequenceFault::NoMemory
    }
}

impl From<ReadFault> for SequenceFault {
    ghost use Rattle.std.specs.Prelude.{◌≡◌};
    ghost use Rattle.sequence_reader.specs.Faults.{fault_of_reading};

    ghost from_gives = { λ fault e. e ≡ fault_of_reading fault };

    fn from(fault: ReadFault) -> SequenceFault {
        match fault {
            ReadFault::Failed => SequenceFault::ReadFault,
            ReadFault::TooLarge => SequenceFault::TooLarge,
            ReadFault::NoMemory => SequenceFault::NoMemory,
        }
    }
}

impl From<SequenceFault> for Fault {
    ghost use Rattle.std.specs.Prelude.{◌≡◌};
    ghost use Rattle.sequence_reader.specs.Faults.{fault_of_sequences};

    ghost from_gives = { λ fault e. e ≡ fault_of_sequences fault };

    fn from(fault: SequenceFault) -> Fault {
        let file = Which::Sequences;
        match fault {
            SequenceFault::ReadFault => Fault::Read { file },
            SequenceFault::TooLarge => Fault::TooLarge { file },
            SequenceFault::BadByte { line, column } => Fault::BadByte { file, line, column },
            SequenceFault::NameTooLong { line, column } => Fault::NameTooLong {
                file,
                line,
                column,
            },
            SequenceFault::TooManySequences { line } => Fault::TooManySequences { line },
            SequenceFault::BadWeight { line, column } => Fault::BadWeight { line, column },
            SequenceFault::TooLong { line } => Fault::SequenceTooLong { line },
            SequenceFault::TooManyItems { line } => Fault::TooManyItems { file, line },
            SequenceFault::NoMemory => Fault::NoMemory,
        }
    }
}
