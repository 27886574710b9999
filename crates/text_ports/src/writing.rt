//! Writes a whole text to a sink that takes it in pieces.

ghost use Rattle.std.specs.Prelude.{◌≡◌, ℕ, ◌+◌, ◌≤◌, ◌<◌, ◌++◌, Some, OnOk, OnErr, IfSome, length, take};
ghost use Rattle.text_ports.specs.Faults.{Rose};

use super::files::Failed;
use super::sink::Sink;

/// The most bytes that are handed to the sink at once.
const PIECE: usize = 65_536;

/// Writes the whole text, in order, as many bytes at a time as the sink takes, and hands it at most 65,536 at
/// once. It writes no empty piece. After a failure the sink has taken the first bytes of the text, and not
/// all.
pub fn write_all<S: Sink>(sink: &mut S, text: &[u8]) -> Result<(), Failed>
    ensures written { OnOk result (IfSome (S.written sink.old) (λ before.
        S.written sink.new ≡ Some (before ++ text.now))) }
    ensures cut { OnErr result (IfSome (S.written sink.old) (λ before. (n : ℕ) × (n < length text.now)
        × (S.written sink.new ≡ Some (before ++ take n text.now)))) }
    ensures passed { OnOk result (S.faults sink.new ≡ S.faults sink.old) }
    ensures failed { OnErr result (Rose (S.faults sink.old) (S.faults sink.new)) }
    ensures never_falls { S.faults sink.old ≤ S.faults sink.new }
{
    let mut at = 0;
    while at < text.len() {
        let end = at + (text.len() - at).min(PIECE);
        let count = sink.write(&text[at..end])?;
        at += count;
    }
    Ok(())
}
