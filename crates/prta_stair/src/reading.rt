//! The value of a list at a place, by its steps.

ghost use Rattle.std.specs.Prelude.{◌≡◌, ◌+◌, ◌<◌, ◌≤◌, ◌^◌, length};
ghost use Rattle.prta_mass.specs.Chances.{before};
ghost use Rattle.prta_stair.specs.Steps.{value_at, cells_by_steps, place, AreRising};
ghost use Rattle.prta_stair.specs.Reading.{level, IsReached};

// How many steps stand c places before k or earlier, sought from a number on that do.
#[inline(always)]
pub(crate) fn reach(steps: &[(u32, u64)], c: usize, k: usize, start: usize) -> usize
    requires time { c < 2 ^ 32 }
    requires start { IsReached steps.now c k start }
    ensures reached { IsReached steps.now c k result }
    ensures next { result < length steps.now → k < place steps.now result + c }
{
    let mut i = start;
    while i < steps.len() && steps[i].0 as usize + c <= k {
        i += 1;
    }
    i
}

// How many steps stand c places before k or earlier, sought by halves.
pub(crate) fn seek(steps: &[(u32, u64)], c: usize, k: usize) -> usize
    requires time { c < 2 ^ 32 }
    requires rising { AreRising steps.now }
    ensures reached { IsReached steps.now c k result }
    ensures next { result < length steps.now → k < place steps.now result + c }
{
    let mut low = 0;
    let mut high = steps.len();
    while low < high {
        let middle = low + (high - low) / 2;
        if steps[middle].0 as usize + c <= k {
            low = middle + 1;
        } else {
            high = middle;
        }
    }
    low
}

// The value of the last of the first i steps, and 0 where there is none.
#[inline(always)]
pub(crate) fn last_of(steps: &[(u32, u64)], i: usize) -> u64
    requires { i ≤ length steps.now }
    ensures { result ≡ level steps.now i }
{
    if i == 0 { 0 } else { steps[i - 1].1 }
}

// The value c places before k, of which the first i steps stand there or earlier.
#[inline(always)]
pub(crate) fn value(steps: &[(u32, u64)], c: usize, k: usize, i: usize) -> u64
    requires rising { AreRising steps.now }
    requires reached { IsReached steps.now c k i }
    requires next { i < length steps.now → k < place steps.now i + c }
    ensures { result ≡ before (value_at steps.now) k c }
{
    last_of(steps, i)
}

// The list's value at k.
pub(crate) fn value_of(steps: &[(u32, u64)], k: usize) -> u64
    requires { AreRising steps.now }
    ensures { result ≡ value_at steps.now k }
{
    let i = seek(steps, 0, k);
    value(steps, 0, k, i)
}

// Writes the first cells of the list.
pub(crate) fn write_front(steps: &[(u32, u64)], room: &mut [u64])
    requires { AreRising steps.now }
    ensures { room.new ≡ cells_by_steps (length room.old) steps.now }
{
    let mut i = 0;
    for k in 0..room.len() {
        i = reach(steps, 0, k, i);
        room[k] = value(steps, 0, k, i);
    }
}
