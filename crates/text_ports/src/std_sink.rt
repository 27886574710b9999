ghost use Rattle.std.specs.Prelude.{◌≡◌, ℕ, ◌≤◌, ◌<◌, None, IfOk, length};

use super::faults::{TRIES, raised};
use super::files::Failed;
use super::sink::Sink;
use std::io;
use std::io::{ErrorKind, Printer, Stderr, Write};

/// A stream of the process, or another writer. Nothing is told of what was written. Each write is followed by
/// a flush, and a stream that takes nothing of a piece that is not empty is a fault.
#[derive(Drop)]
pub struct StdSink<W> {
    stream: W,
    faults: u64,
}

impl<W: Write> StdSink<W> {
    /// The sink that writes to this stream.
    pub fn new(stream: W) -> StdSink<W>
        ensures { ⟦<StdSink<W> as Sink>⟧.faults result ≡ 0 }
    {
        StdSink { stream, faults: 0 }
    }
}

impl<'a, P: Print> StdSink<Printer<'a, P>> {
    /// Standard output.
    pub fn out(rt: &'a P) -> StdSink<Printer<'a, P>>
        ensures { ⟦<StdSink<Printer<'a, P>> as Sink>⟧.faults result ≡ 0 }
    {
        StdSink::new(io::writer(rt))
    }
}

impl StdSink<Stderr> {
    /// Standard error. It takes the runtime itself, since no bound of it writes bytes there.
    pub fn err(rt: &HostRuntime) -> StdSink<Stderr>
        ensures { ⟦<StdSink<Stderr> as Sink>⟧.faults result ≡ 0 }
    {
        StdSink::new(rt.stderr())
    }
}

impl<W: Write> Sink for StdSink<W> {
    ghost written = { λ _. None };

    ghost faults = { λ sink. sink.faults };

    fn write(&mut self, piece: &[u8]) -> Result<usize, Failed> {
        let outcome = write_some(&mut self.stream, piece);
        if outcome.is_err() {
            self.faults = raised(self.faults);
        }
        outcome
    }
}

/// One write of a piece, and a flush. A call that is interrupted is made again.
fn write_some<W: Write>(stream: &mut W, piece: &[u8]) -> Result<usize, Failed>
    ensures fits { IfOk result (λ n. n ≤ length piece.now) }
    ensures some { IfOk result (λ n. 0 < length piece.now → 0 < n) }
{
    for _ in 0..TRIES {
        match stream.write(piece) {
            Ok(count) => {
                if count == 0 && !piece.is_empty() {
                    return Err(Failed);
                }
                flush(stream)?;
                return Ok(count);
            }
            Err(error) if error.kind() == ErrorKind::Interrupted => {}
            Err(_) => return Err(Failed),
        }
    }
    Err(Failed)
}

/// Flushes the stream. A call that is interrupted is made again.
fn flush<W: Write>(stream: &mut W) -> Result<(), Failed> {
    for _ in 0..TRIES {
        match stream.flush() {
            Ok(()) => return Ok(()),
            Err(error) if error.kind() == ErrorKind::Interrupted => {}
            Err(_) => return Err(Failed),
        }
    }
    Err(Failed)
}
