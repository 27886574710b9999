/// A point that each worker of an engine passes with a block or a node in hand, before the work on it. It may
/// wait, and it changes nothing that the engine sees.
pub trait Gate: Sync {
    /// `worker` passes for its round number `round`, counted from 0.
    fn pass(&self, worker: u32, round: u64);
}

/// The gate that stands open: `pass` does nothing.
#[derive(Clone, Copy, Debug)]
pub struct OpenGate;

impl Gate for OpenGate {
    fn pass(&self, _worker: u32, _round: u64) {}
}
