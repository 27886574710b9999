//! Standpoints as lists of numbers.

ghost use Rattle.std.specs.Prelude.{◌≡◌, ◌<◌, [], length, All, OnOk, slice_get, option_map};
ghost use Rattle.candidate_graph.specs.Words.{key_of, point_of};

use mine_model::NoMemory;
use place_walk::{Stand, Stands};

/// The words of the standpoint, in place of those before.
pub(crate) fn write_key(words: &mut Vec<u32>, seen: bool, stands: &Stands) -> Result<(), NoMemory>
    ensures written { OnOk result (words.new.items ≡ key_of (record { seen = seen; stands = stands.now })) }
    ensures small { OnOk result (All (λ stand. stand.state < 65536) stands.now) }
{
    words.clear();
    words.push(if seen { 1 } else { 0 })?;
    for index in 0..stands.len() {
        let stand = stands.get(index);
        words.push(stand.place)?;
        words.push(u32::from(stand.state))?;
    }
    Ok(())
}

/// The stands of the standpoint with these words, in place of those before.
pub(crate) fn read_stands(words: &[u32], stands: &mut Vec<Stand>) -> Result<(), NoMemory>
    ensures { OnOk result (stands.new.items ≡ (point_of words.now).stands) }
{
    stands.clear();
    let mut at = 1;
    'words: while at < words.len() && at + 1 < words.len() {
        stands.push(Stand {
            place: words[at],
            state: (words[at + 1] % 65_536) as u16,
            first: at == 1,
        })?;
        at += 2;
    }
    Ok(())
}

/// Whether what is needed was seen there.
pub(crate) fn is_seen(words: &[u32]) -> bool
    ensures { result ≡ (point_of words.now).seen }
{
    match words.first() {
        Some(flag) => *flag == 1,
        None => false,
    }
}

/// The place of the first of the stands there, if there is one.
pub(crate) fn first_place(words: &[u32]) -> Option<u32>
    ensures { result ≡ option_map (λ stand. stand.place) (slice_get (point_of words.now).stands 0) }
{
    if words.len() < 3 {
        None
    } else {
        Some(words[1])
    }
}
