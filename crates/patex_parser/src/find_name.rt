ghost use Rattle.std.specs.Prelude.{◌≡◌, ℕ, ◌↔◌, List, Some, slice_get, Contains, IsNone, IfSome};

use mine_model::Item;

/// Names with their numbers, to look up those of an expression.
pub trait FindName {
    /// The names that are held, each at its number.
    ghost names_of: { Self → List (List ℕ) };

    /// The number of a name, if it is held.
    fn find(&self, name: &[u8]) -> Option<Item>
        ensures none { IsNone result ↔ ¬ Contains (names_of self.now) name.now }
        ensures number { IfSome result (λ item. slice_get (names_of self.now) item.0 ≡ Some name.now) };
}
