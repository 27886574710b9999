//! Numbers in decimal digits, and where a byte stands in a text.

ghost use Rattle.std.specs.Prelude.{ℕ, ◌≤◌, ◌<◌, ◌^◌, length, drop, take, MatchOption};
ghost use Rattle.mine_model.specs.Grammar.{IsDecimal};
ghost use Rattle.mine_model.specs.Limits.{most_support};
ghost use Rattle.pattern_proof.specs.Pieces.{IsWithout, BeginsWith};

/// The greatest number that is read.
const MOST: u64 = 1_000_000_000_000_000_000;

/// The number that the digits say. None where they say none, or a greater one than any that is taken.
pub(crate) fn number_in(digits: &[u8]) -> Option<u64>
    ensures { MatchOption result ((n : ℕ) → IsDecimal digits.now n → n ≤ most_support → ⊥)
        (λ n. IsDecimal digits.now n × (n ≤ most_support)) }
{
    if digits.is_empty() {
        return None;
    }
    let mut value: u64 = 0;
    for digit in digits {
        if !digit.is_ascii_digit() {
            return None;
        }
        value = (value * 10 + u64::from(*digit - b'0')).min(MOST + 1);
    }
    if value > MOST {
        return None;
    }
    Some(value)
}

/// The same in 32 bits.
pub(crate) fn small_number_in(digits: &[u8]) -> Option<u32>
    ensures { MatchOption result ((n : ℕ) → IsDecimal digits.now n → n < 2 ^ 32 → ⊥)
        (λ n. IsDecimal digits.now n) }
{
    match number_in(digits) {
        Some(n) if n <= u64::from(u32::MAX) => Some(n as u32),
        _ => None,
    }
}

/// Where the byte stands first, or the end of the text.
pub(crate) fn place_of(byte: u8, text: &[u8]) -> usize
    ensures within { result ≤ length text.now }
    ensures before { IsWithout byte (take result text.now) }
    ensures behind { BeginsWith byte (drop result text.now) }
{
    let mut end = 0;
    while end < text.len() && text[end] != byte {
        end += 1;
    }
    end
}
