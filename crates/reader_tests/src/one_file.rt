//! The file that the tests of readers read.

ghost use Rattle.std.specs.Prelude.{◌<◌};

use std::alloc::{AllocError, Global};
use text_ports::{MemFile, MemFiles};

/// The file `f` with these bytes. A read gives at most `cut` of them, and the calls in `fails` fail.
pub(crate) fn one_file(
    alloc: Global,
    bytes: &[u8],
    cut: usize,
    fails: &[u64],
) -> Result<MemFiles, AllocError>
    requires { 0 < cut }
{
    let file = MemFile {
        name: Vec::from_slice(alloc, b"f")?,
        bytes: Vec::from_slice(alloc, bytes)?,
    };
    let files = vec![in alloc; file]?;
    Ok(MemFiles::new(files, Vec::from_slice(alloc, fails)?, cut))
}
