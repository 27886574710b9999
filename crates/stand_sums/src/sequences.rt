//! The visits of one sequence after another.

ghost use Rattle.std.specs.Prelude.{◌<◌, length};
ghost use Rattle.stand_sums.specs.Kept.{IsSequenceEnd};

use place_walk::Visit;

/// Where the visits of the sequence end that begin here.
#[inline]
pub(crate) fn sequence_end(visits: &[Visit], from: usize) -> usize
    requires { from < length visits.now }
    ensures { IsSequenceEnd visits.now from result }
{
    let mut end = from + 1;
    'visits: while end < visits.len() && !visits[end].first {
        end += 1;
    }
    end
}
