//! What lies behind in a list that rises.

ghost use Rattle.std.specs.Prelude.{◌<◌, ◌≤◌, AllPairs, length, slice_index};
ghost use Rattle.waiting_stands.specs.Layouts.{IsLastUpTo};

/// The same as `last_up_to`, and at once where the numbers up to the value follow each other without a gap.
#[inline]
pub(crate) fn last_in_rising(list: &[u32], from: usize, value: u32) -> usize
    requires rising { AllPairs (λ low high. low < high) list.now }
    requires within { from < length list.now }
    requires not_above { slice_index list.now from ≤ value }
    ensures { IsLastUpTo list.now value result }
{
    let ahead = (value - list[from]) as usize;
    if ahead < list.len() - from && list[from + ahead] == value {
        from + ahead
    } else {
        last_up_to(list, from, value)
    }
}

/// The last index, from this one on, whose number is not above the value. It takes few steps where that is
/// near.
#[inline]
pub(crate) fn last_up_to(list: &[u32], from: usize, value: u32) -> usize
    requires within { from < length list.now }
    requires not_above { slice_index list.now from ≤ value }
    ensures { IsLastUpTo list.now value result }
{
    if list.len() - from > 1 && list[from + 1] <= value {
        gallop(list, from + 1, value)
    } else {
        from
    }
}

/// The same by steps, each twice as long as the one before it.
fn gallop(list: &[u32], from: usize, value: u32) -> usize
    requires within { from < length list.now }
    requires not_above { slice_index list.now from ≤ value }
    ensures { IsLastUpTo list.now value result }
{
    let mut low = from;
    let mut step = 1;
    'steps: while list.len() - low > step && list[low + step] <= value {
        low += step;
        step *= 2;
    }
    let most = list.len() - low;
    halve(list, low, low + step.min(most), value)
}

/// The same below an index whose number is above the value, or that is the end.
fn halve(list: &[u32], from: usize, to: usize, value: u32) -> usize
    requires some { from < to }
    requires within { to ≤ length list.now }
    requires not_above { slice_index list.now from ≤ value }
    requires above { to < length list.now → value < slice_index list.now to }
    ensures { IsLastUpTo list.now value result }
{
    let mut low = from;
    let mut high = to;
    'halves: while high - low > 1 {
        let middle = low + (high - low) / 2;
        if list[middle] <= value {
            low = middle;
        } else {
            high = middle;
        }
    }
    low
}
