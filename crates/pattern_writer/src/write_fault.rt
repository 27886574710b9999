use thiserror::Error;

/// The answer was not written whole: its sink failed.
#[derive(Clone, Copy, Debug, PartialEq, Eq, Error)]
#[error("write fault")]
pub struct WriteFault;
