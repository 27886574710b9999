//! Sets of states.
ghost use Rattle.std.specs.Prelude.{◌<◌, ◌≤◌};

use mine_model::NoMemory;
use state_bits::StateSet;
use std::alloc::Global;
use test_facts::first_false;

/// Whether the members of a set of the states, added from the last on, are these. States that have no place
/// are left out.
fn are_members<const W: usize>(
    alloc: Global,
    states: &[u32],
    want: &[u32],
) -> Result<bool, NoMemory>
    requires { W ≤ 17 }
{
    let mut set = StateSet::<W>::new();
    for q in states.iter().rev() {
        if ((*q / 64) as usize) < W {
            set.add(*q);
        }
    }
    let members: Vec<u32> = set.iter().collect(alloc)?;
    Ok(members.as_slice() == want)
}

/// The number of the first set, of one word, of four and of seventeen, with other members.
fn first_wrong(alloc: Global) -> Result<Option<usize>, NoMemory> {
    let all = [0, 63, 64, 65, 127, 128, 255, 256, 1_023, 1_024, 1_087];
    let facts = [
        are_members::<1>(alloc, &all, &all[..2])?,
        are_members::<4>(alloc, &all, &all[..7])?,
        are_members::<17>(alloc, &all, &all)?,
    ];
    Ok(first_false(&facts))
}

#[test]
fn keeps_the_borders_of_words(rt: HostRuntime) {
    assert_eq!(rt; first_wrong(rt.alloc()), Ok(None));
}

/// The set of two states.
fn pair(first: u32, second: u32) -> StateSet<4>
    requires first { first < 256 }
    requires second { second < 256 }
{
    let mut set = StateSet::<4>::new();
    set.add(first);
    set.add(second);
    set
}

/// Of the sets of 63 and 64 and of 64 and 200, their union and the members that they have in common: the
/// number of the first wrong fact.
fn wrong_fact() -> Option<usize> {
    let first = pair(63, 64);
    let second = pair(64, 200);
    let mut common = first;
    common.intersect_with(&second);
    let mut all = first;
    all.union_with(&second);
    let is_common = common.words() == [0, 1, 0, 0].as_slice();
    common.clear();
    let facts = [
        all.has(63),
        all.has(64),
        all.has(200),
        !all.has(65),
        is_common,
        all != second,
        common.is_empty(),
        common == StateSet::new(),
    ];
    first_false(&facts)
}

#[test]
fn works_on_whole_sets(rt: HostRuntime) {
    assert_eq!(rt; wrong_fact(), None);
}
