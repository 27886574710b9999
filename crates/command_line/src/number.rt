//! Numbers by their decimal digits.

ghost use Rattle.std.specs.Prelude.{◌≡◌, ℕ, ◌≤◌, ◌^◌, ◌≢◌, ◌↔◌, true, [], IsTrue, MatchOption};
ghost use Rattle.mine_model.specs.Tokens.{Each};
ghost use Rattle.std.specs.Char.{is_ascii_digit};
ghost use Rattle.mine_model.specs.Grammar.{value_of_digits};
ghost use Rattle.command_line.specs.Words.{IsNumber};

/// Whether the text is one or more decimal digits.
fn is_number(text: &[u8]) -> bool
    ensures { IsTrue result ↔ ((text.now ≢ []) × Each is_ascii_digit true text.now) }
{
    !text.is_empty() && text.iter().all(|byte| byte.is_ascii_digit())
}

/// The value of decimal digits. None where it is above what a `u64` holds.
fn value_of(digits: &[u8]) -> Option<u64>
    requires { Each is_ascii_digit true digits.now }
    ensures { MatchOption result (2 ^ 64 ≤ value_of_digits digits.now)
        (λ value. value_of_digits digits.now ≡ value) }
{
    let mut value: u64 = 0;
    for digit in digits {
        value = value
            .checked_mul(10)?
            .checked_add(u64::from(*digit - b'0'))?;
    }
    Some(value)
}

/// The number from `least` to `most` that the text says. None where it says none.
pub(crate) fn read_number(text: &[u8], least: u64, most: u64) -> Option<u64>
    ensures { MatchOption result ((n : ℕ) → IsNumber least most text.now n → ⊥)
        (λ n. IsNumber least most text.now n) }
{
    if !is_number(text) {
        return None;
    }
    match value_of(text) {
        Some(value) if least <= value && value <= most => Some(value),
        _ => None,
    }
}
