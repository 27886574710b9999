//! Facts that a test asserts, of which the first that does not hold is told.
#![tactic(auto)]

ghost use Rattle.std.specs.Prelude.{◌≡◌, ℕ, ◌<◌, true, false, Some, length, slice_get, IsNone, IfSome};

/// The number of the first fact that does not hold, counted from 0.
pub fn first_false(facts: &[bool]) -> Option<usize>
    ensures none { IsNone result → (k : ℕ) → k < length facts.now → slice_get facts.now k ≡ Some true }
    ensures here { IfSome result (λ number. slice_get facts.now number ≡ Some false) }
    ensures before { IfSome result (λ number. (k : ℕ) → k < number → slice_get facts.now k ≡ Some true) }
{
    for number in 0..facts.len() {
        if !facts[number] {
            return Some(number);
        }
    }
    None
}
