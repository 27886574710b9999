ghost use Rattle.std.specs.Prelude.{◌≡◌, All, map, Ok, IfOk};
ghost use Rattle.worker_threads.specs.Doing.{AreDone};

use mine_model::NoMemory;
use std::alloc::Global;
use std::thread;
use std::thread::Threads;

/// What `work` makes of each of these, in their order, unless one call wants memory. The first call runs in
/// this thread, at once even where no other can be made, and each other in a thread of its own, where one
/// can be made.
pub fn done_by_each<
    A: Send + Drop,
    B: Send + Drop,
    R: Threads + Sync,
    F: Fn(A) -> Result<B, NoMemory> + Sync,
>(rt: &R, alloc: Global, mut starts: Vec<A>, work: &F) -> Result<Vec<B>, NoMemory>
    requires { All (λ start. F.pre work.now start) starts.items }
    ensures { IfOk result (λ dones.
        AreDone (λ start done. F.post work.now start (Ok done)) starts.items dones.items) }
{
    if starts.is_empty() {
        return Ok(Vec::new(alloc));
    }
    let first = starts.remove(0);
    let (others, own) = thread::join(
        rt,
        || -> Result<Vec<Result<B, NoMemory>>, NoMemory>
            requires { All (λ start. F.pre work.now start) starts.items }
            ensures { IfOk result (λ results.
                AreDone (λ start done. F.post work.entry.now start done) starts.items results.items) }
        { tried::<A, B, R, F>(rt, starts, work) },
        || -> Result<B, NoMemory>
            requires { F.pre work.now first }
            ensures { F.post work.entry.now first result }
        { work(first) },
    );
    let mut results = others?;
    results.insert(0, own)?;
    let dones = all_ok(alloc, results)?;
    Ok(dones)
}

// What `work` makes of each of these, in their order.
fn tried<A: Send + Drop, B: Send + Drop, R: Threads + Sync, F: Fn(A) -> Result<B, NoMemory> + Sync>(
    rt: &R,
    starts: Vec<A>,
    work: &F,
) -> Result<Vec<Result<B, NoMemory>>, NoMemory>
    requires { All (λ start. F.pre work.now start) starts.items }
    ensures { IfOk result (λ results.
        AreDone (λ start done. F.post work.now start done) starts.items results.items) }
{
    let results = thread::map_vec(rt, starts, work)?;
    Ok(results)
}

// All results, unless one call wanted memory.
fn all_ok<B: Drop>(alloc: Global, results: Vec<Result<B, NoMemory>>) -> Result<Vec<B>, NoMemory>
    ensures { IfOk result (λ dones. results.items ≡ map Ok dones.items) }
{
    let mut dones = Vec::with_capacity(alloc, results.len())?;
    'results: for result in results {
        let done = result?;
        dones.push(done)?;
    }
    Ok(dones)
}
