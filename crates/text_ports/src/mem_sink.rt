ghost use Rattle.std.specs.Prelude.{◌≡◌, ℕ, ◌≤◌, ◌<◌, [], Some, IfOk, vec_len, vec_capacity};

use super::faults::Calls;
use super::files::Failed;
use super::sink::Sink;
use mine_model::NoMemory;
use std::alloc::Global;

/// A sink that holds what was written to it, and tells it. It makes short writes, it is full at last, and it
/// fails where it is told to.
pub struct MemSink {
    held: Vec<u8>,
    room: usize,
    cut: usize,
    calls: Calls,
    ghost cut_takes: { 0 < cut },
    ghost held_fits: { vec_len held ≤ room },
    ghost room_taken: { room ≤ vec_capacity held },
}

// Written out, so that it is let go of by a call, and not part by part wherever one is.
impl Drop for MemSink {
    fn drop(self) {
        let MemSink {
            held: _,
            room: _,
            cut: _,
            calls: _,
        } = self;
    }
}

impl MemSink {
    /// It has room for `room` bytes, for which it takes the memory here. A write takes at most `cut` bytes of
    /// its piece. The calls of `write` are counted from 1, and those in `fails` fail.
    pub fn new(alloc: Global, room: usize, cut: usize, fails: Vec<u64>) -> Result<MemSink, NoMemory>
        requires { 0 < cut }
        ensures written { IfOk result (λ sink. ⟦<MemSink as Sink>⟧.written sink ≡ Some []) }
        ensures faults { IfOk result (λ sink. ⟦<MemSink as Sink>⟧.faults sink ≡ 0) }
    {
        Ok(MemSink {
            held: Vec::with_capacity(alloc, room)?,
            room,
            cut,
            calls: Calls::new(fails),
        })
    }

    /// The bytes that were written.
    pub fn bytes(&self) -> &[u8]
        ensures { ⟦<MemSink as Sink>⟧.written self.now ≡ Some result.now }
    {
        self.held.as_slice()
    }
}

impl Sink for MemSink {
    ghost written = { λ sink. Some sink.held.items };

    ghost faults = { λ sink. sink.calls.faults };

    fn write(&mut self, piece: &[u8]) -> Result<usize, Failed> {
        self.calls.next()?;
        let room = self.room - self.held.len();
        let count = piece.len().min(self.cut).min(room);
        if count == 0 && !piece.is_empty() {
            return Err(self.calls.fail());
        }
        self.held.extend_from_slice(&piece[..count]).unwrap();
        Ok(count)
    }
}
