//! Shares of the pivots.

ghost use Rattle.std.specs.Prelude.{◌≤◌, ◌↔◌, IsTrue};
ghost use Rattle.split_merge.specs.Shares.{IsInShare};

/// Whether the share with this index, counted from 1, of so many has the rank: of every so many ranks in a
/// row it has the one at its place.
pub fn is_in_share(index: u32, of: u32, rank: u32) -> bool
    requires least { 1 ≤ index }
    requires within { index ≤ of }
    ensures { IsTrue result ↔ IsInShare index of rank }
{
    rank > 0 && (rank - 1) % of == index - 1
}
