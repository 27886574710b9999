//! Cuts bytes into pieces of whole lines.

ghost use Rattle.std.specs.Prelude.{◌≡◌, ◌≤◌, ◌<◌, ◌++◌, length, take, drop, All, IfOk};
ghost use Rattle.std.specs.List.{flat_map};
ghost use Rattle.text_ports.specs.Scanning.{lines_behind};

use mine_model::NoMemory;
use std::alloc::Global;

/// Pieces of about the same size, at most so many, each of whole lines.
pub(crate) fn cut<'a>(alloc: Global, bytes: &'a [u8], most: u32) -> Result<Vec<&'a [u8]>, NoMemory>
    requires { 0 < most }
    ensures lines { IfOk result (λ pieces.
        flat_map (λ piece. lines_behind piece.now) pieces.items ≡ lines_behind bytes.now) }
    ensures within { IfOk result (λ pieces. All (λ piece. length piece.now ≤ length bytes.now) pieces.items) }
{
    let size = bytes.len() / most as usize + 1;
    let mut pieces = Vec::new(alloc);
    let mut rest = bytes;
    while !rest.is_empty() {
        let (piece, behind) = rest.split_at(line_end(rest, size.min(rest.len())));
        pieces.push(piece)?;
        rest = behind;
    }
    Ok(pieces)
}

/// Where the next line begins behind this place, or the end of the bytes.
pub(crate) fn line_end(bytes: &[u8], from: usize) -> usize
    requires { from ≤ length bytes.now }
    ensures within { (from ≤ result) × (result ≤ length bytes.now) }
    ensures between { lines_behind bytes.now
        ≡ lines_behind (take result bytes.now) ++ lines_behind (drop result bytes.now) }
{
    let mut end = from;
    while end < bytes.len() {
        end += 1;
        if bytes[end - 1] == b'\n' {
            return end;
        }
    }
    end
}
