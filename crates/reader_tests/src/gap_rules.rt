//! Rules on gaps and lengths: how many item expressions they have, and which expression they are.

ghost use Rattle.std.specs.Prelude.{◌≤◌};
ghost use Rattle.gap_front.specs.Embedding.{most_gap, most_rule_length};

use gap_front::{GapRule, expression};
use mine_model::NoMemory;
use std::alloc::Global;
use test_facts::first_false;

// The leaves of a rule with this greatest gap and this greatest length.
fn leaves_of(max_gap: u32, max_length: u32) -> u64
    requires gap { max_gap ≤ most_gap }
    requires some { 1 ≤ max_length }
    requires most { max_length ≤ most_rule_length }
{
    let rule = GapRule {
        max_gap,
        min_length: 1,
        max_length,
        generalize: false,
    };
    rule.leaves()
}

#[test]
fn counts_the_leaves(rt: HostRuntime) {
    let facts = [
        leaves_of(1000, 1) == 3,
        leaves_of(0, 5) == 7,
        leaves_of(509, 3) == 1023,
        leaves_of(510, 3) == 1025,
        leaves_of(1000, 4) == 3006,
        leaves_of(1000, 1000) == 1_000_002,
    ];
    assert_eq!(rt; first_false(&facts), None);
}

// The expression of two to four items and gaps of up to seven, as it is printed.
fn put(alloc: Global) -> Result<String, NoMemory> {
    let rule = GapRule {
        max_gap: 7,
        min_length: 2,
        max_length: 4,
        generalize: true,
    };
    let made = expression(alloc, &rule)?;
    Ok(format!(in alloc; "{made:?}")?)
}

#[test]
fn puts_a_rule_as_an_expression(rt: HostRuntime) {
    let wanted =
        "Cat(Cat(Cat(Rep { inner: Leaf(Any), least: 0, most: None }, Cap(Leaf(AnyClimb))), \
         Rep { inner: Cat(Rep { inner: Leaf(Any), least: 0, most: Some(7) }, Cap(Leaf(AnyClimb))), \
         least: 1, most: Some(3) }), Rep { inner: Leaf(Any), least: 0, most: None })";
    assert_eq!(rt; put(rt.alloc()).as_deref(), Ok(wanted));
}
