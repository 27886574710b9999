//! Laws of frequencies, for every expression. Each is the contract of a function that does nothing.

ghost use Rattle.std.specs.Prelude.{ℕ, ◌≤◌, ◌↔◌, List, length, Contains};
ghost use Rattle.std.specs.List.{AllByRecursion};
ghost use Rattle.mine_model.specs.declared.item.Item.{Item};
ghost use Rattle.mine_model.specs.Hierarchy.{Link};
ghost use Rattle.mine_model.specs.Expression.{Tree};
ghost use Rattle.mine_model.specs.Generation.{IsPatternOf};
ghost use Rattle.mine_model.specs.Support.{Sequence, Counts, HasSupport, HoldsUnder, HasFrequency};
ghost use Rattle.mine_model.specs.Answer.{Data};
ghost use Rattle.mine_model.specs.Candidates.{IsFrequentItem, IsCandidate};

/// A pattern is no longer than a sequence that generates it, and each of its items is an item of the sequence
/// or stands above one.
pub fn pattern_stands_above_its_sequence()
    ensures shorter { (links : List (Link Item)) (expression : Tree Item) (sequence pattern : List Item)
        → IsPatternOf links expression sequence pattern → length pattern ≤ length sequence }
    ensures above { (links : List (Link Item)) (expression : Tree Item) (sequence pattern : List Item)
        → IsPatternOf links expression sequence pattern
        → (w : Item) → Contains pattern w → HoldsUnder links w sequence }
{}

/// A pattern's support is at most the frequency of each of its items.
pub fn support_is_at_most_a_frequency()
    ensures { (links : List (Link Item)) (expression : Tree Item) (sequences : List (Sequence Item))
        (pattern : List Item) (w : Item) (n m : ℕ)
        → HasSupport links expression sequences pattern n → Contains pattern w
        → HasFrequency links sequences w m → n ≤ m }
{}

/// Where each item has a frequency, a pattern whose support reaches the threshold has frequent items alone,
/// and its support is what is counted of it as a pattern of frequent items.
pub fn frequent_items_suffice()
    ensures items { (d : Data Item) → ((w : Item) → (m : ℕ) × HasFrequency d.links d.sequences w m)
        → (pattern : List Item) (n : ℕ) → HasSupport d.links d.expression d.sequences pattern n
        → d.threshold ≤ n → AllByRecursion (IsFrequentItem d.links d.sequences d.threshold) pattern }
    ensures counted { (d : Data Item) → ((w : Item) → (m : ℕ) × HasFrequency d.links d.sequences w m)
        → (pattern : List Item) (n : ℕ) → 1 ≤ d.threshold → d.threshold ≤ n
        → (HasSupport d.links d.expression d.sequences pattern n
        ↔ Counts (λ items. IsCandidate d items pattern) d.sequences n) }
{}
