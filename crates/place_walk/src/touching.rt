//! Reading early.

ghost use Rattle.std.specs.Prelude.{◌<◌, ◌≤◌, length, All};

use super::stands::Stands;
use walk_places::Places;

// For so many stands at a time the records are read early.
const TOUCHED: usize = 64;

/// Reads the records of the next stands, one after another with nothing between, so that they come to the
/// processor side by side; the walk then finds them near. Up to which stand.
pub(crate) fn touch(places: &Places, stands: &Stands, from: usize, touched: &mut u32) -> usize
    requires from { from ≤ length stands.now }
    requires places { All (λ stand. stand.place < length places.now) stands.now }
    ensures { result ≤ length stands.now }
{
    let end = if stands.len() - from < TOUCHED {
        stands.len()
    } else {
        from + TOUCHED
    };
    for index in from..end {
        let entry = places.get(stands.get(index).place);
        *touched ^= entry.kind ^ entry.of;
    }
    end
}
