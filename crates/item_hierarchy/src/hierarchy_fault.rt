use mine_model::{Fault, NoMemory, Which};
use thiserror::Error;

/// Why a hierarchy file was not read. Lines and columns count from 1, columns in bytes.
#[derive(Clone, Copy, Debug, PartialEq, Eq, Error)]
pub enum HierarchyFault {
    /// Reading the file failed.
    #[error("read fault")]
    ReadFault,
    /// The file has too many bytes.
    #[error("more than 67108864 bytes")]
    TooLarge,
    /// A control byte stands in the line.
    #[error("line {line} column {column}: bad byte")]
    BadByte { line: u64, column: u64 },
    /// A name has too many bytes; the column is that of the first byte too many.
    #[error("line {line} column {column}: name over 255 bytes")]
    NameTooLong { line: u64, column: u64 },
    /// With this line there are too many different names.
    #[error("line {line}: more than 1048576 items")]
    TooManyItems { line: u64 },
    /// There was not enough memory.
    #[error("out of memory")]
    NoMemory,
}

/// Why rows made no hierarchy.
#[derive(Clone, Copy, Debug, PartialEq, Eq, Error)]
pub enum CloseFault {
    /// The links up to this line lead from an item back to it.
    #[error("line {line}: cycle")]
    Cycle { line: u64 },
    /// The items have too many ancestors together.
    #[error("more than 33554432 ancestors")]
    TooManyAncestors,
    /// There was not enough memory.
    #[error("out of memory")]
    NoMemory,
}

impl From<NoMemory> for HierarchyFault {
    ghost use Rattle.std.specs.Prelude.{◌≡◌};
    ghost use Rattle.item_hierarchy.specs.declared.hierarchy_fault.HierarchyFault.TheVariants.{NoMemory};

    ghost from_gives = { λ _ e. e ≡ NoMemory };

    fn from(_e: NoMemory) -> HierarchyFault {
        HierarchyFault::NoMemory
    }
}

impl From<NoMemory> for CloseFault {
    ghost use Rattle.std.specs.Prelude.{◌≡◌};
    ghost use Rattle.item_hierarchy.specs.declared.hierarchy_fault.CloseFault.TheVariants.{NoMemory};

    ghost from_gives = { λ _ e. e ≡ NoMemory };

    fn from(_e: NoMemory) -> CloseFault {
        CloseFault::NoMemory
    }
}

impl From<HierarchyFault> for Fault {
    ghost use Rattle.std.specs.Prelude.{◌≡◌};
    ghost use Rattle.item_hierarchy.specs.Faults.{fault_of_hierarchy};

    ghost from_gives = { λ fault e. e ≡ fault_of_hierarchy fault };

    fn from(fault: HierarchyFault) -> Fault {
        let file = Which::Hierarchy;
        match fault {
            HierarchyFault::ReadFault => Fault::Read { file },
            HierarchyFault::TooLarge => Fault::TooLarge { file },
            HierarchyFault::BadByte { line, column } => Fault::BadByte { file, line, column },
            HierarchyFault::NameTooLong { line, column } => Fault::NameTooLong {
                file,
                line,
                column,
            },
            HierarchyFault::TooManyItems { line } => Fault::TooManyItems { file, line },
            HierarchyFault::NoMemory => Fault::NoMemory,
        }
    }
}

impl From<CloseFault> for Fault {
    ghost use Rattle.std.specs.Prelude.{◌≡◌};
    ghost use Rattle.item_hierarchy.specs.Faults.{fault_of_close};

    ghost from_gives = { λ fault e. e ≡ fault_of_close fault };

    fn from(fault: CloseFault) -> Fault {
        match fault {
            CloseFault::Cycle { line } => Fault::Cycle { line },
            CloseFault::TooManyAncestors => Fault::TooManyAncestors,
            CloseFault::NoMemory => Fault::NoMemory,
        }
    }
}
