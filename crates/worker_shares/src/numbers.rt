ghost use Rattle.std.specs.Prelude.{◌≡◌, ◌<◌, length, AllPairs, IfOk};
ghost use Rattle.std.specs.List.{AllByRecursion, range_with_len};
ghost use Rattle.worker_shares.specs.Shares.{numbers_of as the_numbers_of};

use mine_model::NoMemory;
use mining_job::Job;
use std::alloc::Global;

/// The numbers of a worker's sequences, of so many workers, rising. So the long sequences of a file that is
/// sorted by length do not all come to one worker.
pub fn numbers_of(alloc: Global, job: &Job, workers: u32, worker: u32) -> Result<Vec<u32>, NoMemory>
    requires { worker < workers }
    ensures numbers { IfOk result (λ numbers.
        numbers.items ≡ the_numbers_of workers worker (length job.now.sequences)) }
    ensures rising { IfOk result (λ numbers. AllPairs (λ low high. low < high) numbers.items) }
    ensures within { IfOk result (λ numbers.
        AllByRecursion (λ i. i < length job.now.sequences) numbers.items) }
{
    let mut numbers = Vec::new(alloc);
    for number in 0..job.db().sequences() {
        if number % workers != worker {
            continue;
        }
        numbers.push(number)?;
    }
    Ok(numbers)
}

/// The numbers of so many workers, from 0 on.
pub fn worker_numbers(alloc: Global, workers: u32) -> Result<Vec<u32>, NoMemory>
    ensures { IfOk result (λ numbers. numbers.items ≡ range_with_len 0 workers) }
{
    let mut numbers = Vec::with_capacity(alloc, workers as usize)?;
    for worker in 0..workers {
        numbers.push(worker)?;
    }
    Ok(numbers)
}
