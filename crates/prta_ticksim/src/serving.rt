//! Which job is served, and when that may change.

ghost use Rattle.std.specs.Prelude.{◌≡◌, ◌+◌, ◌-◌, ◌^◌, ◌<◌, ◌≤◌, true, nat_eq, min, length, position, slice_index, slice_set, IfSome};
ghost use Rattle.std.specs.Option.{option_map_or};
ghost use Rattle.prta_sheet.specs.Machine.{place, goes_before};
ghost use Rattle.prta_ticksim.specs.Times.{job_at};
ghost use Rattle.prta_ticksim.specs.Serving.{is_waiting, IsFirstWaiting, IsNextEvent};

use prta_jobs::Job;

// The place of the first of the jobs that wait at a time, by priority and then by release.
pub(crate) fn first_waiting(order: &[usize], jobs: &[Job], left: &[u32], now: u64) -> Option<usize>
    requires { length left.now ≡ length jobs.now }
    ensures { IsFirstWaiting order.now jobs.now left.now now (length jobs.now) result }
{
    let mut first = None;
    for i in 0..jobs.len() {
        if is_waiting(jobs, left, now, i) && is_ahead(order, jobs, i, first) {
            first = Some(i);
        }
    }
    first
}

// The first of the limit and the releases after a time.
pub(crate) fn next_event(jobs: &[Job], now: u64, limit: u64) -> u64
    requires { now < limit }
    ensures { IsNextEvent jobs.now now limit (length jobs.now) result }
{
    let mut event = limit;
    for job in jobs {
        if now < job.release && job.release < event {
            event = job.release;
        }
    }
    event
}

// Whether job i is released at or before a time and has time left.
fn is_waiting(jobs: &[Job], left: &[u32], now: u64, i: usize) -> bool
    requires job { i < length jobs.now }
    requires left { length left.now ≡ length jobs.now }
    ensures { result ≡ is_waiting jobs.now left.now now i }
{
    let job = &jobs[i];
    job.release <= now && 0 < left[i]
}

// Whether job i goes before the first one so far, if there is one.
fn is_ahead(order: &[usize], jobs: &[Job], i: usize, first: Option<usize>) -> bool
    requires job { i < length jobs.now }
    requires first { IfSome first (λ k. k < length jobs.now) }
    ensures { result ≡ option_map_or (λ k. goes_before order.now (job_at jobs.now i) (job_at jobs.now k)) first true }
{
    match first {
        Some(k) => goes_before(order, &jobs[i], &jobs[k]),
        None => true,
    }
}

// Whether a job is of higher priority than another one, or of the same and released earlier.
fn goes_before(order: &[usize], job: &Job, other: &Job) -> bool
    ensures { result ≡ goes_before order.now job.now other.now }
{
    let place = place_of(order, job.task);
    let other_place = place_of(order, other.task);
    place < other_place || (place == other_place && job.release < other.release)
}

// The place of a task in the order of priorities; the number of places where it has none.
fn place_of(order: &[usize], task: usize) -> usize
    ensures { result ≡ place order.now task }
{
    first_place(order, task).unwrap_or(order.len())
}

// The first place at which the task stands.
fn first_place(order: &[usize], task: usize) -> Option<usize>
    ensures { result ≡ position (λ other. nat_eq other task) order.now }
{
    order.iter().position(|other| *other == task)
}

// Serves job i from a time to another one at most, or to the job's end, and tells the time then.
pub(crate) fn serve(left: &mut [u32], ends: &mut [u64], i: usize, now: u64, until: u64) -> u64
    requires job { i < length left.old }
    requires ends { length ends.old ≡ length left.old }
    requires later { now < until }
    requires near { until ≤ 2 ^ 32 }
    ensures time { result ≡ now + min (until - now) (slice_index left.old i) }
    ensures left { left.new ≡ slice_set left.old i (slice_index left.old i - (result - now)) }
    ensures ends { ends.new ≡ slice_set ends.old i result }
{
    let ticks = (until - now).min(left[i] as u64);
    left[i] -= ticks as u32;
    ends[i] = now + ticks;
    now + ticks
}
