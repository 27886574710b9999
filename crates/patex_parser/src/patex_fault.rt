use mine_model::{Fault, NoMemory};
use thiserror::Error;

/// Why a text is no expression, or why its names could not be found. Columns count bytes from 1.
#[derive(Clone, Copy, Debug, PartialEq, Eq, Error)]
pub enum PatexFault {
    /// The text has too many bytes.
    #[error("more than 4096 bytes")]
    TooLong,
    /// No token begins here, or a quoted name is not closed.
    #[error("column {column}: bad token")]
    BadToken { column: u32 },
    /// A repeat has no right form, or its bounds are the wrong way round.
    #[error("column {column}: bad repeat")]
    BadRepeat { column: u32 },
    /// A repeat has a number that is too great.
    #[error("column {column}: repeat over 1024")]
    RepeatLimit { column: u32 },
    /// The expression does not go on so, or ends too early.
    #[error("column {column}: unexpected")]
    Unexpected { column: u32 },
    /// Too many brackets are open, or too many postfix signs follow each other.
    #[error("column {column}: nested over 128")]
    TooDeep { column: u32 },
    /// There are too many leaves once all repetitions are written out. Greater counts are told as 1,000,000.
    #[error("{count} leaves, over 1024")]
    TooManyLeaves { count: u32 },
    /// The name is not held.
    #[error("column {column}: unknown name")]
    Unknown { column: u32 },
    /// There was not enough memory.
    #[error("out of memory")]
    NoMemory,
}

impl From<NoMemory> for PatexFault {
    ghost use Rattle.std.specs.Prelude.{◌≡◌};
    ghost use Rattle.patex_parser.specs.declared.patex_fault.PatexFault.TheVariants.{NoMemory};

    ghost from_gives = { λ _ e. e ≡ NoMemory };

    fn from(_e: NoMemory) -> PatexFault {
        PatexFault::NoMemory
    }
}

impl From<PatexFault> for Fault {
    ghost use Rattle.std.specs.Prelude.{◌≡◌};
    ghost use Rattle.patex_parser.specs.Faults.{fault_of};

    ghost from_gives = { λ e fault. fault ≡ fault_of e };

    fn from(e: PatexFault) -> Fault {
        match e {
            PatexFault::TooLong => Fault::ExprTooLong,
            PatexFault::BadToken { column } => Fault::BadToken { column },
            PatexFault::BadRepeat { column } => Fault::BadRepeat { column },
            PatexFault::RepeatLimit { column } => Fault::RepeatLimit { column },
            PatexFault::Unexpected { column } => Fault::Unexpected { column },
            PatexFault::TooDeep { column } => Fault::TooDeep { column },
            PatexFault::TooManyLeaves { count } => Fault::TooManyLeaves { count },
            PatexFault::Unknown { column } => Fault::Unknown { column },
            PatexFault::NoMemory => Fault::NoMemory,
        }
    }
}
