//! Scans a line: where it ends, and where its fields stand.

ghost use Rattle.std.specs.Prelude.{◌≡◌, ℕ, ◌≤◌, ◌<◌, ◌+◌, ◌==◌, ◌∷◌, true, false, if◌then◌else◌, [], length, take, drop, slice_index, IfOk, IfErr};
ghost use Rattle.std.specs.Int.{w64, trailing_zeros};
ghost use Rattle.std.specs.List.{AllByRecursion, slice_range};
ghost use Rattle.mine_model.specs.Text.{is_name_byte, is_blank, bad_byte, long_name, IsSoundLine};
ghost use Rattle.mine_model.specs.Tokens.{BeginsOtherwise};
ghost use Rattle.text_ports.specs.Lines.{AreFields};
ghost use Rattle.text_ports.specs.Scanning.{IsScanned, IsCut, StandsBehind, BeginsFaulty, lines_behind};

use super::lines::Span;
use std::simd::prelude::*;

/// The most bytes of a name.
const MOST_NAME_BYTES: usize = 255;

/// How many bytes are looked at together.
const LANES: usize = 16;

/// What stands behind a field or a blank.
#[derive(Clone, Copy, Debug)]
enum Behind {
    /// A blank.
    Blank,
    /// The line's end. The next line begins at `next`.
    LineEnd { next: usize },
    /// A byte that may stand in no line.
    BadByte,
}

/// Where a line ends, and where the next one begins.
#[derive(Clone, Copy, Debug)]
pub(crate) struct Cut {
    pub(crate) end: usize,
    pub(crate) next: usize,
}

/// Why a line was not scanned to its end. Columns count from 1.
#[derive(Clone, Copy, Debug)]
pub(crate) enum Stop {
    BadByte { column: usize },
    NameTooLong { column: usize },
    NoMemory,
}

/// Whether the byte is one of a name.
fn is_name(byte: u8) -> bool
    ensures { result ≡ is_name_byte byte }
{
    byte > b' ' && byte != 127
}

/// The place of the lowest bit that is set, or `LANES`.
#[inline(always)]
fn first_set(mask: u64) -> usize
    ensures { result ≡ (if mask == 0 then 16 else trailing_zeros w64 mask) }
{
    if mask == 0 {
        LANES
    } else {
        mask.trailing_zeros() as usize
    }
}

/// How many of the `LANES` bytes from here on come before the first that is none of a name.
#[inline(always)]
fn names_ahead(rest: &[u8], at: usize) -> usize
    requires { at + 16 ≤ length rest.now }
    ensures within { result ≤ 16 }
    ensures names { (k : ℕ) → at ≤ k → k < at + result → is_name_byte (slice_index rest.now k) ≡ true }
    ensures stop { result < 16 → is_name_byte (slice_index rest.now (at + result)) ≡ false }
{
    let bytes = u8x16::from_slice(&rest[at..]);
    let others = bytes.simd_lt(u8x16::splat(b'!')) | bytes.simd_eq(u8x16::splat(127));
    first_set(others.to_bitmask())
}

/// Where the run of name bytes ends that begins here.
fn name_end(rest: &[u8], from: usize) -> usize
    requires { from ≤ length rest.now }
    ensures names { AllByRecursion (λ b. is_name_byte b ≡ true) (slice_range rest.now from result) }
    ensures stop { BeginsOtherwise is_name_byte (drop result rest.now) }
    ensures within { (from ≤ result) × (result ≤ length rest.now) }
{
    let mut at = from;
    while rest.len() - at >= LANES {
        let count = names_ahead(rest, at);
        at += count;
        if count < LANES {
            return at;
        }
    }
    while at < rest.len() && is_name(rest[at]) {
        at += 1;
    }
    at
}

/// What stands here, where no byte of a name does.
fn look_behind(rest: &[u8], at: usize) -> Behind
    requires within { at ≤ length rest.now }
    requires no_name { BeginsOtherwise is_name_byte (drop at rest.now) }
    ensures { StandsBehind rest.now at result }
{
    let Some(byte) = rest.get(at) else {
        return Behind::LineEnd { next: at };
    };
    match *byte {
        b'\n' => Behind::LineEnd { next: at + 1 },
        b'\t' | b' ' => Behind::Blank,
        b'\r' => match rest.get(at + 1) {
            None => Behind::LineEnd { next: at + 1 },
            Some(b'\n') => Behind::LineEnd { next: at + 2 },
            Some(_) => Behind::BadByte,
        },
        _ => Behind::BadByte,
    }
}

/// Scans the field that begins here, if one does, and answers where it ends.
fn scan_field(rest: &[u8], at: usize, spans: &mut Vec<Span>) -> Result<usize, Stop>
    requires scanned { IsScanned rest.now at spans.old.items }
    ensures cut { IfOk result (λ end. (at ≤ end) × IsCut rest.now end spans.new.items
        × BeginsOtherwise is_name_byte (drop end rest.now)) }
    ensures long { (column : ℕ) → result ≡ Err (Stop.NameTooLong column)
        → BeginsFaulty rest.now long_name column }
    ensures good { (column : ℕ) → result ≡ Err (Stop.BadByte column) → ⊥ }
{
    let end = name_end(rest, at);
    if end == at {
        return Ok(end);
    }
    if end - at > MOST_NAME_BYTES {
        return Err(Stop::NameTooLong {
            column: at + MOST_NAME_BYTES + 1,
        });
    }
    match spans.push(Span { from: at, to: end }) {
        Ok(()) => Ok(end),
        Err(_) => Err(Stop::NoMemory),
    }
}

/// Scans the line that begins the bytes, and leaves the spans of its fields.
pub(crate) fn scan_line(rest: &[u8], spans: &mut Vec<Span>) -> Result<Cut, Stop>
    requires some { 0 < length rest.now }
    ensures lines { IfOk result (λ cut.
        lines_behind rest.now ≡ take cut.end rest.now ∷ lines_behind (drop cut.next rest.now)) }
    ensures within { IfOk result (λ cut.
        (cut.end ≤ cut.next) × (cut.next ≤ length rest.now) × (0 < cut.next)) }
    ensures fields { IfOk result (λ cut. AreFields (take cut.end rest.now) spans.new.items) }
    ensures sound { IfOk result (λ cut. IsSoundLine (take cut.end rest.now)) }
    ensures bad { (column : ℕ) → result ≡ Err (Stop.BadByte column) → BeginsFaulty rest.now bad_byte column }
    ensures long { (column : ℕ) → result ≡ Err (Stop.NameTooLong column)
        → BeginsFaulty rest.now long_name column }
{
    spans.clear();
    let mut at = 0;
    loop {
        let end = scan_field(rest, at, spans)?;
        match look_behind(rest, end) {
            Behind::Blank => at = end + 1,
            Behind::LineEnd { next } => return Ok(Cut { end, next }),
            Behind::BadByte => return Err(Stop::BadByte { column: end + 1 }),
        }
    }
}
