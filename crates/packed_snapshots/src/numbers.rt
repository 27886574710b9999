//! Numbers as bytes, seven bits a byte, the least first.

ghost use Rattle.std.specs.Prelude.{◌≡◌, ℕ, ◌+◌, ◌<◌, ◌≤◌, ◌^◌, ◌++◌, List, vec_len};
ghost use Rattle.std.specs.Vec.{vec_capacity};
ghost use Rattle.packed_snapshots.specs.Numbers.{IsNumber, most_bytes};
ghost use Rattle.packed_snapshots.specs.Ahead.{number_ahead, bytes_behind, IsAhead};

/// Appends the bytes of the number, for which there is room.
#[inline]
pub(crate) fn push_number(bytes: &mut Vec<u8>, number: u32)
    requires { vec_len bytes.old + most_bytes number ≤ vec_capacity bytes.old }
    ensures bytes { (own : List ℕ) × IsNumber number own × (bytes.new.items ≡ bytes.old.items ++ own) }
    ensures few { vec_len bytes.new ≤ vec_len bytes.old + most_bytes number }
    ensures capacity { vec_capacity bytes.old ≤ vec_capacity bytes.new }
{
    let mut rest = number;
    while rest >= 128 {
        bytes.push((rest % 128 + 128) as u8).unwrap();
        rest /= 128;
    }
    bytes.push(rest as u8).unwrap();
}

/// The number that the bytes begin with, and the bytes behind it.
#[inline]
pub(crate) fn take_number(bytes: &[u8]) -> (u32, &[u8])
    requires ahead { IsAhead bytes.now }
    requires small { number_ahead bytes.now < 2 ^ 32 }
    ensures number { result.0 ≡ number_ahead bytes.now }
    ensures rest { result.1.now ≡ bytes_behind bytes.now }
{
    let first = bytes[0];
    if first < 128 {
        (first as u32, &bytes[1..])
    } else {
        take_long_number(bytes)
    }
}

/// The same, of a number of any length.
fn take_long_number(bytes: &[u8]) -> (u32, &[u8])
    requires ahead { IsAhead bytes.now }
    requires small { number_ahead bytes.now < 2 ^ 32 }
    ensures number { result.0 ≡ number_ahead bytes.now }
    ensures rest { result.1.now ≡ bytes_behind bytes.now }
{
    let mut number = 0;
    let mut unit = 1;
    let mut at = 0;
    while bytes[at] >= 128 {
        number += unit * (bytes[at] as u32 - 128);
        unit *= 128;
        at += 1;
    }
    (number + unit * bytes[at] as u32, &bytes[at + 1..])
}
