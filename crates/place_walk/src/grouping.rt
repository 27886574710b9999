//! The stands of one sequence after another.

ghost use Rattle.std.specs.Prelude.{◌<◌, length};
ghost use Rattle.place_walk.specs.Ways.{IsGroupEnd};

use super::stands::Stands;

/// Where the stands of the sequence end that begin here.
pub(crate) fn group_end(stands: &Stands, from: usize) -> usize
    requires { from < length stands.now }
    ensures { IsGroupEnd stands.now from result }
{
    let count = stands.len();
    let mut end = from + 1;
    'stands: while end < count && !stands.get(end).first {
        end += 1;
    }
    end
}
