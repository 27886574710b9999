//! The weight of a line.

ghost use Rattle.std.specs.Prelude.{◌≡◌, ℕ, ◌≤◌, Err, length, All, IfOk, OnOk, MatchOption};
ghost use Rattle.sequence_reader.specs.declared.sequence_fault.SequenceFault.TheVariants.{BadWeight};
ghost use Rattle.mine_model.specs.Limits.{most_weight};
ghost use Rattle.mine_model.specs.Text.{fields_of, placed_fields_of};
ghost use Rattle.std.specs.Char.{is_ascii_digit};
ghost use Rattle.mine_model.specs.Grammar.{IsDecimal};
ghost use Rattle.mine_model.specs.Refusal.{IsWeight, IsBadWeight, sequence_of};
ghost use Rattle.text_ports.specs.Lines.{AreFields, IsWithin};
ghost use Rattle.item_names.specs.Fields.{texts_at};

use super::sequence_fault::SequenceFault;
use text_ports::Span;

/// The greatest weight.
const MOST_WEIGHT: u64 = 1_000_000_000;

/// A line of which the weight is known.
#[derive(Clone, Copy, Debug)]
pub(crate) struct Weighed<'a> {
    pub(crate) weight: u64,
    /// The fields that are items.
    pub(crate) items: &'a [Span],
}

/// The weight that the digits say. None where they say none.
fn weight_in(digits: &[u8]) -> Option<u64>
    ensures { MatchOption result (IsWeight digits.now → ⊥)
        (λ n. IsDecimal digits.now n × (1 ≤ n) × (n ≤ most_weight)) }
{
    if digits.is_empty() {
        return None;
    }
    let mut value: u64 = 0;
    for digit in digits {
        if !digit.is_ascii_digit() {
            return None;
        }
        value = (value * 10 + u64::from(*digit - b'0')).min(MOST_WEIGHT + 1);
    }
    if value == 0 || value > MOST_WEIGHT {
        return None;
    }
    Some(value)
}

/// The weight of the line with this number, and its fields that are items: where lines have weights, the
/// first field is the weight.
pub(crate) fn weigh<'a>(
    weighted: bool,
    number: u64,
    text: &[u8],
    fields: &'a [Span],
) -> Result<Weighed<'a>, SequenceFault>
    requires { AreFields text.now fields.now }
    ensures said { IfOk result (λ line. sequence_of weighted (fields_of text.now)
        ≡ record { items = texts_at text.now line.items.now; weight = line.weight }) }
    ensures within { IfOk result (λ line. All (IsWithin (length text.now)) line.items.now) }
    ensures least { IfOk result (λ line. 1 ≤ line.weight) }
    ensures most { IfOk result (λ line. line.weight ≤ most_weight) }
    ensures weighed { OnOk result ((column : ℕ)
        → IsBadWeight weighted (placed_fields_of text.now) column → ⊥) }
    ensures bad { (fault : SequenceFault) → result ≡ Err fault → (column : ℕ)
        × (fault ≡ BadWeight number column) × IsBadWeight weighted (placed_fields_of text.now) column }
{
    if !weighted {
        return Ok(Weighed {
            weight: 1,
            items: fields,
        });
    }
    let Some((first, items)) = fields.split_first() else {
        return Err(SequenceFault::BadWeight {
            line: number,
            column: 1,
        });
    };
    match weight_in(&text[first.from..first.to]) {
        Some(weight) => Ok(Weighed { weight, items }),
        None => Err(SequenceFault::BadWeight {
            line: number,
            column: first.from as u64 + 1,
        }),
    }
}
