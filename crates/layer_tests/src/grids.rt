//! What can still come of a place of a sequence.
use super::data::{A1, Lines, RUNNING, Shape, job};
use fst_compile::State;
use mine_model::{Item, NoMemory};
use mining_job::{Bound, Job};
use sequence_grids::Grid;
use std::alloc::Global;
use std::thread::Threads;

/// What is asked of a position and a state.
#[derive(Clone, Copy)]
enum Asked {
    Completes,
    Sees,
    Ends,
}

/// What is asked under which bound, the sequence, the position, the state, and the answer.
type Case = (Asked, Bound, (u32, u32, u32), bool);

/// The answer. None where there is no such place.
fn told(alloc: Global, job: &Job, case: Case) -> Result<Option<bool>, NoMemory> {
    let (asked, bound, (seq, pos, q), _) = case;
    if seq >= job.db().sequences() || q >= job.fst().states() {
        return Ok(None);
    }
    if pos as usize > job.db().sequence(seq).len() {
        return Ok(None);
    }
    let grid = Grid::new(alloc, job, seq, bound)?;
    Ok(Some(match asked {
        Asked::Completes => grid.completes(pos, State(q), false),
        Asked::Sees => grid.completes(pos, State(q), true),
        Asked::Ends => grid.ends(pos, State(q)),
    }))
}

/// The number of the first case with another answer.
fn wrong_of(alloc: Global, job: &Job, cases: &[Case]) -> Result<Option<usize>, NoMemory> {
    for (number, case) in cases.iter().enumerate() {
        if told(alloc, job, *case)? != Some(case.3) {
            return Ok(Some(number));
        }
    }
    Ok(None)
}

/// The same on the job of the expression and these lines.
fn first_wrong<T: Threads + Sync>(
    rt: &T,
    alloc: Global,
    shape: Shape,
    lines: Lines,
    cases: &[Case],
) -> Result<Option<usize>, NoMemory> {
    let job = job(rt, alloc, shape, lines, 1, 2)?;
    wrong_of(alloc, &job, cases)
}

const FREE: Bound = Bound { top: 5, need: None };

const LOW: Bound = Bound { top: 2, need: None };

const NEEDS_D: Bound = Bound {
    top: 5,
    need: Some(4),
};

const PLACES: [Case; 12] = [
    (Asked::Completes, FREE, (0, 0, 0), true),
    (Asked::Completes, FREE, (2, 0, 0), false),
    (Asked::Completes, FREE, (3, 0, 0), false),
    (Asked::Completes, FREE, (4, 0, 0), true),
    (Asked::Ends, FREE, (4, 3, 5), true),
    (Asked::Ends, FREE, (4, 3, 3), false),
    (Asked::Completes, LOW, (4, 0, 0), false),
    (Asked::Sees, LOW, (4, 3, 5), true),
    (Asked::Completes, LOW, (4, 3, 5), false),
    (Asked::Completes, NEEDS_D, (0, 0, 0), true),
    (Asked::Completes, NEEDS_D, (1, 0, 0), false),
    (Asked::Completes, NEEDS_D, (4, 0, 0), false),
];

#[test]
fn tells_what_completes_and_ends(rt: HostRuntime) {
    let wrong = first_wrong(&rt, rt.alloc(), Shape::Climbing, &RUNNING, &PLACES);
    assert_eq!(rt; wrong, Ok(None));
}

#[test]
fn tells_of_a_sequence_of_no_item(rt: HostRuntime) {
    let cases = [
        (Asked::Sees, FREE, (0, 0, 0), true),
        (Asked::Completes, FREE, (0, 0, 0), false),
        (Asked::Ends, FREE, (0, 0, 0), true),
    ];
    let wrong = first_wrong(&rt, rt.alloc(), Shape::Silent, &[(2, &[])], &cases);
    assert_eq!(rt; wrong, Ok(None));
}

/// The number of the first case with another answer, of `(a1){n}` and a sequence of as many items. It has
/// n + 1 states, and after k items only state k completes.
fn wrong_state<T: Threads + Sync>(
    rt: &T,
    alloc: Global,
    n: u32,
) -> Result<Option<usize>, NoMemory> {
    let items = vec![in alloc; A1; n as usize]?;
    let last = n.saturating_sub(1);
    let cases = [
        (Asked::Completes, FREE, (0, 0, 0), true),
        (Asked::Completes, FREE, (0, 0, 1), false),
        (Asked::Completes, FREE, (0, last, last), true),
        (Asked::Completes, FREE, (0, last, n), false),
        (Asked::Sees, FREE, (0, n, n), true),
        (Asked::Sees, FREE, (0, n, last), false),
        (Asked::Ends, FREE, (0, n, n), true),
        (Asked::Ends, FREE, (0, n, last), false),
    ];
    first_wrong(rt, alloc, Shape::Times(n), &[(2, items.as_slice())], &cases)
}

/// The first of these numbers of leaves with another answer, and the number of that case.
fn wrong_border<T: Threads + Sync>(
    rt: &T,
    alloc: Global,
) -> Result<Option<(u32, usize)>, NoMemory> {
    for n in [63, 64, 255, 256, 1_024] {
        if let Some(number) = wrong_state(rt, alloc, n)? {
            return Ok(Some((n, number)));
        }
    }
    Ok(None)
}

#[test]
fn has_each_state_at_the_borders_of_words(rt: HostRuntime) {
    assert_eq!(rt; wrong_border(&rt, rt.alloc()), Ok(None));
}

#[test]
fn goes_over_the_longest_sequence(rt: HostRuntime) {
    let cases = [
        (Asked::Completes, FREE, (0, 0, 0), false),
        (Asked::Sees, FREE, (0, 65_535, 5), true),
        (Asked::Sees, FREE, (0, 65_534, 5), true),
        (Asked::Sees, FREE, (0, 65_534, 4), false),
    ];
    let items = [A1; 65_535];
    let lines: [(u64, &[Item]); 1] = [(2, &items)];
    let wrong = first_wrong(&rt, rt.alloc(), Shape::Climbing, &lines, &cases);
    assert_eq!(rt; wrong, Ok(None));
}
