//! What a line of an output says.

ghost use Rattle.std.specs.Prelude.{◌≡◌, ◌≢◌, ℕ, ◌≤◌, ◌↔◌, [], ◌∷◌, ◌++◌, length, All, IsTrue, IfOk, OnOk, MatchOption};
ghost use Rattle.std.specs.List.{join_with_byte};
ghost use Rattle.mine_model.specs.Answer.{NamedRow};
ghost use Rattle.mine_model.specs.Bytes.{tab, space};
ghost use Rattle.mine_model.specs.Grammar.{IsDecimal};
ghost use Rattle.mine_model.specs.Limits.{most_support};
ghost use Rattle.mine_model.specs.Text.{IsSoundLine};
ghost use Rattle.text_ports.specs.Lines.{AreFields, IsWithin};
ghost use Rattle.item_names.specs.Fields.{texts_at};
ghost use Rattle.split_merge.specs.Merging.{IsRowLine};
ghost use Rattle.split_merge.specs.Taking.{IsSaidBy};

use mine_model::NoMemory;
use text_ports::Span;

/// The greatest support of a row.
const MOST_SUPPORT: u64 = 1_000_000_000_000_000_000;

/// Stands behind the support.
const TAB: u8 = b'\t';

/// Stands between two names.
const SPACE: u8 = b' ';

/// What a line says that has the form of a row: a support, and the fields that are names.
#[derive(Clone, Copy)]
pub(crate) struct Said<'a> {
    pub(crate) support: u64,
    pub(crate) names: &'a [Span],
}

/// What a line of an output says, with a support of at least so much, and its names joined by one space. None
/// where the line has not the form of a row.
pub(crate) fn row_in<'a>(
    text: &[u8],
    fields: &'a [Span],
    least: u64,
    joined: &mut Vec<u8>,
) -> Result<Option<Said<'a>>, NoMemory>
    requires { AreFields text.now fields.now }
    ensures said { IfOk result (λ said. MatchOption said
        ((row : NamedRow) → IsRowLine least text.now row → ⊥)
        (λ s. IsSaidBy least text.now s.support s.names.now joined.new.items)) }
{
    let Some((first, names)) = fields.split_first() else {
        return Ok(None);
    };
    if names.is_empty() {
        return Ok(None);
    }
    join(text, names, joined)?;
    let digits = &text[first.from..first.to];
    match support_in(digits, least) {
        Some(support) if is_spelled(text, digits, joined.as_slice()) => {
            Ok(Some(Said { support, names }))
        }
        _ => Ok(None),
    }
}

/// Leaves the names joined by one space.
fn join(text: &[u8], names: &[Span], joined: &mut Vec<u8>) -> Result<(), NoMemory>
    requires { All (IsWithin (length text.now)) names.now }
    ensures { OnOk result (joined.new.items ≡ join_with_byte space (texts_at text.now names.now)) }
{
    joined.clear();
    for (at, name) in names.iter().enumerate() {
        if at > 0 {
            joined.push(SPACE)?;
        }
        joined.extend_from_slice(&text[name.from..name.to])?;
    }
    Ok(())
}

/// Whether the text is the digits, a tab and the names.
fn is_spelled(text: &[u8], digits: &[u8], names: &[u8]) -> bool
    ensures { IsTrue result ↔ (text.now ≡ digits.now ++ tab ∷ names.now) }
{
    let Some(rest) = text.strip_prefix(digits) else {
        return false;
    };
    match rest.split_first() {
        Some((first, behind)) => *first == TAB && behind == names,
        None => false,
    }
}

/// The support that the digits say, from `least` up to the greatest one. None where they say none.
fn support_in(digits: &[u8], least: u64) -> Option<u64>
    ensures { MatchOption result ((n : ℕ) → IsDecimal digits.now n → least ≤ n → n ≤ most_support → ⊥)
        (λ n. IsDecimal digits.now n × (least ≤ n) × (n ≤ most_support)) }
{
    if digits.is_empty() {
        return None;
    }
    let mut value: u64 = 0;
    for digit in digits {
        if !digit.is_ascii_digit() {
            return None;
        }
        value = (value * 10 + u64::from(*digit - b'0')).min(MOST_SUPPORT + 1);
    }
    if value < least || value > MOST_SUPPORT {
        return None;
    }
    Some(value)
}
