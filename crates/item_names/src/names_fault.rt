use thiserror::Error;

/// Why a name got no number.
#[derive(Clone, Copy, Debug, PartialEq, Eq, Error)]
pub enum NamesFault {
    /// As many names as may be are held, and this one is new.
    #[error("more than 1048576 items")]
    TooMany,
    /// There was not enough memory.
    #[error("out of memory")]
    NoMemory,
}
