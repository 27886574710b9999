//! Reads a whole file that is handed over in pieces.

ghost use Rattle.std.specs.Prelude.{◌≡◌, ℕ, ◌≤◌, ◌<◌, vec_len, IsTrue, IfOk, OnOk, IsErrOf, IfSome, length};
ghost use Rattle.mine_model.specs.Limits.{most_file_bytes};
ghost use Rattle.text_ports.specs.Faults.{Rose};

use super::files::{Failed, Files};
use std::alloc::{AllocError, Global};

/// The most bytes that are read at once.
const PIECE: usize = 16_384;

/// The most bytes of a file.
pub(crate) const MOST_FILE_BYTES: usize = 67_108_864;

/// Why a file was not read to its end.
#[derive(Clone, Copy, Debug, PartialEq, Eq)]
pub enum ReadFault {
    /// Opening or reading it failed.
    Failed,
    /// It has too many bytes.
    TooLarge,
    /// There was not enough memory.
    NoMemory,
}

impl From<Failed> for ReadFault {
    ghost use Rattle.std.specs.Prelude.{◌≡◌};
    ghost use Rattle.text_ports.specs.declared.reading.ReadFault.TheVariants.{Failed};

    ghost from_gives = { λ _ e. e ≡ Failed };

    fn from(_e: Failed) -> ReadFault {
        ReadFault::Failed
    }
}

impl From<AllocError> for ReadFault {
    ghost use Rattle.std.specs.Prelude.{◌≡◌};
    ghost use Rattle.text_ports.specs.declared.reading.ReadFault.TheVariants.{NoMemory};

    ghost from_gives = { λ _ e. e ≡ NoMemory };

    fn from(_e: AllocError) -> ReadFault {
        ReadFault::NoMemory
    }
}

/// The bytes of the file of this name, where they are not too many. After a refusal it may be partly read.
pub fn read_file<F: Files>(alloc: Global, files: &mut F, name: &str) -> Result<Vec<u8>, ReadFault>
    requires may { IsTrue (F.may files.old name.now) }
    ensures whole { IfOk result (λ v. IfSome (F.holds files.old name.now) (λ bytes. v.items ≡ bytes)) }
    ensures few { IfOk result (λ v. vec_len v ≤ most_file_bytes) }
    ensures too_large { IsErrOf result ReadFault.TooLarge
        → IfSome (F.holds files.old name.now) (λ bytes. most_file_bytes < length bytes) }
    ensures failed { IsErrOf result ReadFault.Failed → Rose (F.faults files.old) (F.faults files.new) }
    ensures same_names { F.may files.new ≡ F.may files.old }
    ensures same_files { F.holds files.new ≡ F.holds files.old }
    ensures passed { OnOk result (F.faults files.new ≡ F.faults files.old) }
    ensures never_falls { F.faults files.old ≤ F.faults files.new }
{
    files.open(name)?;
    let mut bytes = Vec::new(alloc);
    let mut buffer = [0u8; PIECE];
    while bytes.len() <= MOST_FILE_BYTES {
        let most = (MOST_FILE_BYTES + 1 - bytes.len()).min(PIECE);
        let count = files.read(&mut buffer[..most])?;
        if count == 0 {
            return Ok(bytes);
        }
        bytes.extend_from_slice(&buffer[..count])?;
    }
    Err(ReadFault::TooLarge)
}
