//! The spread of items over threads, with the results in the order of the items.

ghost use Rattle.std.specs.Prelude.{◌≡◌, ◌<◌, ◌≤◌, ◌+◌, ◌-◌, ◌*◌, ◌/◌, ◌%◌, ◌^◌, min, length, IfOk};
ghost use Rattle.std.specs.List.{All, AllZip};
ghost use Rattle.std.specs.Thread.{IsSync};
ghost use Rattle.in_order_parallel.specs.Limits.{worker_limit};

use crate::{Gate, Job};
use std::alloc::{AllocError, Global};
use std::thread::{Threads, join};

/// The greatest number of workers.
pub const WORKER_LIMIT: u32 = 64;

// The gate of a part of the items, of which the first has the place `first`.
#[derive(Drop)]
struct Door<'a, G> {
    gate: &'a G,
    first: usize,
}

// The results of a part of the items, of which the first has the place `first`, on this thread.
fn in_turn<J: Job, G: Gate>(
    alloc: Global,
    items: &[J::In],
    first: usize,
    job: &J,
    gate: &G,
) -> Result<Vec<J::Out>, AllocError>
where
    J::Out: Drop,
    requires fits { first + length items.now < 2 ^ 64 }
    requires can_go { All (J.can_go job.now) items.now }
    ensures { IfOk result (λ answers. AllZip (J.gives job.now) items.now answers.items) }
{
    let mut answers = Vec::with_capacity(alloc, items.len())?;
    for (place, item) in items.iter().enumerate() {
        gate.pass(first + place);
        answers.push(job.go(item))?;
    }
    Ok(answers)
}

// How many of the items the first `front` of the workers have: the same number each, and the first of them
// one more where the items can't be shared evenly.
fn share_of(front: usize, workers: usize, items: usize) -> usize
    requires { front < workers }
    ensures exact { result ≡ items / workers * front + min (items % workers) front }
    ensures front_busy { workers ≤ items → front ≤ result }
    ensures back_busy { workers ≤ items → workers - front ≤ items - result }
    ensures within { result ≤ items }
{
    items / workers * front + (items % workers).min(front)
}

// The results of a part of the items, which go through the door, on as many threads as there are workers. Each
// worker has at least one item.
#[cycle(spread)]
fn spread<R: Threads + Sync, J: Job + Sync, G: Gate + Sync>(
    rt: &R,
    alloc: Global,
    items: &[J::In],
    job: &J,
    workers: usize,
    door: Door<'_, G>,
) -> Result<Vec<J::Out>, AllocError>
where
    J::In: Sync,
    J::Out: Drop + Send,
    requires busy { workers ≤ length items.now }
    requires fits { door.first + length items.now < 2 ^ 64 }
    requires can_go { All (J.can_go job.now) items.now }
    ensures { IfOk result (λ answers. AllZip (J.gives job.now) items.now answers.items) }
{
    let Door { gate, first } = door;
    if workers < 2 {
        return in_turn(alloc, items, first, job, gate);
    }
    let ahead = workers / 2;
    let behind = workers - ahead;
    let (front, back) = items.split_at(share_of(ahead, workers, items.len()));
    let middle = first + front.len();
    let (left, right) = join(
        rt,
        || -> Result<Vec<J::Out>, AllocError>
            requires { IsSync R.row × IsSync J.row × IsSync G.row × (ahead ≤ length front.now)
                × (first + length front.now < 2 ^ 64) × All (J.can_go job.now) front.now }
            ensures { IfOk result (λ v. AllZip (J.gives job.entry.now) front.entry.now v.items) }
        { spread(rt, alloc, front, job, ahead, Door { gate, first }) },
        || -> Result<Vec<J::Out>, AllocError>
            requires { IsSync R.row × IsSync J.row × IsSync G.row × (behind ≤ length back.now)
                × (middle + length back.now < 2 ^ 64) × All (J.can_go job.now) back.now }
            ensures { IfOk result (λ v. AllZip (J.gives job.entry.now) back.entry.now v.items) }
        {
            spread(
                rt,
                alloc,
                back,
                job,
                behind,
                Door {
                    gate,
                    first: middle,
                },
            )
        },
    );
    let mut answers = left?;
    let mut more = right?;
    answers.append(&mut more)?;
    Ok(answers)
}

/// One result for each item, in the order of the items and each as the job gives it, on at most as many
/// threads as there are workers, from 1 to 64. The items are spread evenly over the threads, of which each
/// has at least one. `gate.pass(n)` is called before the item with the place n, counted from 0.
pub fn map_in_order<R: Threads + Sync, J: Job + Sync, G: Gate + Sync>(
    rt: &R,
    alloc: Global,
    items: &[J::In],
    job: &J,
    workers: u32,
    gate: &G,
) -> Result<Vec<J::Out>, AllocError>
where
    J::In: Sync,
    J::Out: Drop + Send,
    requires some_worker { 0 < workers }
    requires few_workers { workers ≤ worker_limit }
    requires can_go { All (J.can_go job.now) items.now }
    ensures answers { IfOk result (λ answers. AllZip (J.gives job.now) items.now answers.items) }
{
    let busy = items.len().min(workers as usize);
    spread(rt, alloc, items, job, busy, Door { gate, first: 0 })
}
