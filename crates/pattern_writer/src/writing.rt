//! The lines of an answer, through a room that is handed to the sink when it is full, and at the end.

ghost use Rattle.std.specs.Prelude.{◌≡◌, ℕ, ◌≤◌, ◌<◌, ◌∷◌, ◌++◌, Some, OnOk, OnErr, IfOk, IfSome, length, map, take, All};
ghost use Rattle.std.specs.List.{flat_map, join_with_byte};
ghost use Rattle.mine_model.specs.AnswerText.{line_of, text_of};
ghost use Rattle.mine_model.specs.Bytes.{space};
ghost use Rattle.mine_model.specs.Names.{name_of, HasName, named_row};
ghost use Rattle.text_ports.specs.Faults.{Rose};
ghost use Rattle.pattern_writer.specs.Written.{IsHeld, IsCut};

use super::write_fault::WriteFault;
use item_names::Names;
use itoa::Buffer;
use mine_model::{Item, Row};
use text_ports::{Failed, Sink, write_all};

/// Writes the lines of the rows, in their order: the support in decimal, a tab, the names joined by one
/// space, a line feed. The bytes are gathered in the room, and the sink gets them when it is full, and at the
/// end: it is handed no empty piece. After a fault a part of the lines from their start was written, and not
/// all. Takes no memory.
pub fn write<O: Sink>(
    rows: &[Row],
    names: &Names,
    out: &mut O,
    room: &mut [u8],
) -> Result<(), WriteFault>
    requires room { 32 ≤ length room.old }
    requires named { All (λ row. All (HasName names.now) row.pattern) rows.now }
    ensures written { OnOk result (IfSome (O.written out.old) (λ before.
        O.written out.new ≡ Some (before ++ text_of (map (named_row names.now) rows.now)))) }
    ensures cut { OnErr result (IfSome (O.written out.old) (λ before.
        (n : ℕ) × (n < length (text_of (map (named_row names.now) rows.now)))
        × (O.written out.new ≡ Some (before ++ take n (text_of (map (named_row names.now) rows.now)))))) }
    ensures passed { OnOk result (O.faults out.new ≡ O.faults out.old) }
    ensures failed { OnErr result (Rose (O.faults out.old) (O.faults out.new)) }
    ensures never_falls { O.faults out.old ≤ O.faults out.new }
{
    let mut held = 0;
    for row in rows {
        held = put_line(out, room, held, row, names)?;
    }
    hand_over(out, &room[..held])
}

/// Puts the line of a row into the room, behind the `filled` bytes that it holds, and hands the room over
/// when it is full. Answers how many bytes it holds then. Takes no memory.
pub fn put_line<O: Sink>(
    out: &mut O,
    room: &mut [u8],
    filled: usize,
    row: &Row,
    names: &Names,
) -> Result<usize, WriteFault>
    requires room { 0 < length room.old }
    requires within { filled ≤ length room.old }
    requires named { All (HasName names.now) row.now.pattern }
    ensures fits { IfOk result (λ n. n ≤ length room.new) }
    ensures held { IfOk result (λ n. IsHeld (O.written out.old) (O.written out.new) (take n room.new)
        (take filled room.old ++ line_of (named_row names.now row.now))) }
    ensures cut { OnErr result (IsCut (O.written out.old) (O.written out.new)
        (take filled room.old ++ line_of (named_row names.now row.now))) }
    ensures passed { OnOk result (O.faults out.new ≡ O.faults out.old) }
    ensures failed { OnErr result (Rose (O.faults out.old) (O.faults out.new)) }
    ensures never_falls { O.faults out.old ≤ O.faults out.new }
{
    let mut digits = Buffer::new();
    let behind_support = put(out, room, filled, digits.format(row.support).as_bytes())?;
    let behind_tab = put(out, room, behind_support, b"\t")?;
    let behind_names = put_names(out, room, behind_tab, row.pattern.items(), names)?;
    put(out, room, behind_names, b"\n")
}

fn put_names<O: Sink>(
    out: &mut O,
    room: &mut [u8],
    filled: usize,
    items: &[Item],
    names: &Names,
) -> Result<usize, WriteFault>
    requires room { 0 < length room.old }
    requires within { filled ≤ length room.old }
    requires named { All (HasName names.now) items.now }
    ensures fits { IfOk result (λ n. n ≤ length room.new) }
    ensures held { IfOk result (λ n. IsHeld (O.written out.old) (O.written out.new) (take n room.new)
        (take filled room.old ++ join_with_byte space (map (name_of names.now) items.now))) }
    ensures cut { OnErr result (IsCut (O.written out.old) (O.written out.new)
        (take filled room.old ++ join_with_byte space (map (name_of names.now) items.now))) }
    ensures passed { OnOk result (O.faults out.new ≡ O.faults out.old) }
    ensures failed { OnErr result (Rose (O.faults out.old) (O.faults out.new)) }
    ensures never_falls { O.faults out.old ≤ O.faults out.new }
{
    if items.is_empty() {
        return Ok(filled);
    }
    let behind_first = put(out, room, filled, names.text(items[0]))?;
    put_others(out, room, behind_first, &items[1..], names)
}

fn put_others<O: Sink>(
    out: &mut O,
    room: &mut [u8],
    filled: usize,
    items: &[Item],
    names: &Names,
) -> Result<usize, WriteFault>
    requires room { 0 < length room.old }
    requires within { filled ≤ length room.old }
    requires named { All (HasName names.now) items.now }
    ensures fits { IfOk result (λ n. n ≤ length room.new) }
    ensures held { IfOk result (λ n. IsHeld (O.written out.old) (O.written out.new) (take n room.new)
        (take filled room.old ++ flat_map (λ item. space ∷ name_of names.now item) items.now)) }
    ensures cut { OnErr result (IsCut (O.written out.old) (O.written out.new)
        (take filled room.old ++ flat_map (λ item. space ∷ name_of names.now item) items.now)) }
    ensures passed { OnOk result (O.faults out.new ≡ O.faults out.old) }
    ensures failed { OnErr result (Rose (O.faults out.old) (O.faults out.new)) }
    ensures never_falls { O.faults out.old ≤ O.faults out.new }
{
    let mut held = filled;
    for item in items {
        held = put_other(out, room, held, names.text(*item))?;
    }
    Ok(held)
}

fn put_other<O: Sink>(
    out: &mut O,
    room: &mut [u8],
    filled: usize,
    name: &[u8],
) -> Result<usize, WriteFault>
    requires room { 0 < length room.old }
    requires within { filled ≤ length room.old }
    ensures fits { IfOk result (λ n. n ≤ length room.new) }
    ensures held { IfOk result (λ n. IsHeld (O.written out.old) (O.written out.new) (take n room.new)
        (take filled room.old ++ (space ∷ name.now))) }
    ensures cut { OnErr result (IsCut (O.written out.old) (O.written out.new)
        (take filled room.old ++ (space ∷ name.now))) }
    ensures passed { OnOk result (O.faults out.new ≡ O.faults out.old) }
    ensures failed { OnErr result (Rose (O.faults out.old) (O.faults out.new)) }
    ensures never_falls { O.faults out.old ≤ O.faults out.new }
{
    let behind_space = put(out, room, filled, b" ")?;
    put(out, room, behind_space, name)
}

/// Copies the bytes into the room, behind the `filled` bytes that it holds, and hands the room over as often
/// as more bytes are left than it takes. Answers how many bytes it holds then. Takes no memory.
pub fn put<O: Sink>(
    out: &mut O,
    room: &mut [u8],
    filled: usize,
    bytes: &[u8],
) -> Result<usize, WriteFault>
    requires room { 0 < length room.old }
    requires within { filled ≤ length room.old }
    ensures fits { IfOk result (λ n. n ≤ length room.new) }
    ensures held { IfOk result (λ n. IsHeld (O.written out.old) (O.written out.new) (take n room.new)
        (take filled room.old ++ bytes.now)) }
    ensures cut { OnErr result (IsCut (O.written out.old) (O.written out.new) (take filled room.old
        ++ bytes.now)) }
    ensures passed { OnOk result (O.faults out.new ≡ O.faults out.old) }
    ensures failed { OnErr result (Rose (O.faults out.old) (O.faults out.new)) }
    ensures never_falls { O.faults out.old ≤ O.faults out.new }
{
    let mut held = filled;
    let mut at = 0;
    while bytes.len() - at > room.len() - held {
        let end = at + (room.len() - held);
        room[held..].copy_from_slice(&bytes[at..end]);
        hand_over(out, room)?;
        held = 0;
        at = end;
    }
    let end = held + (bytes.len() - at);
    room[held..end].copy_from_slice(&bytes[at..]);
    Ok(end)
}

/// Hands the bytes to the sink. Takes no memory.
pub fn hand_over<O: Sink>(out: &mut O, bytes: &[u8]) -> Result<(), WriteFault>
    ensures written { OnOk result (IfSome (O.written out.old) (λ before.
        O.written out.new ≡ Some (before ++ bytes.now))) }
    ensures cut { OnErr result (IsCut (O.written out.old) (O.written out.new) bytes.now) }
    ensures passed { OnOk result (O.faults out.new ≡ O.faults out.old) }
    ensures failed { OnErr result (Rose (O.faults out.old) (O.faults out.new)) }
    ensures never_falls { O.faults out.old ≤ O.faults out.new }
{
    match write_all(out, bytes) {
        Ok(()) => Ok(()),
        Err(Failed) => Err(WriteFault),
    }
}
