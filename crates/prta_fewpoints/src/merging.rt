//! The table that a choice of times makes.

ghost use Rattle.std.specs.Prelude.{◌≡◌, ◌<◌, ◌^◌, IfOk};
ghost use Rattle.prta_mass.specs.Table.{total};
ghost use Rattle.prta_fewpoints.specs.Choices.{moved_to, weight_at, merged};

use prta_mass::NoMemory;
use std::alloc::Global;

// Each chosen time with the weight that is moved to it.
pub(crate) fn merged(
    alloc: Global,
    chosen: &[u32],
    pairs: &[(u32, u64)],
) -> Result<Vec<(u32, u64)>, NoMemory>
    requires { total pairs.now < 2 ^ 64 }
    ensures { IfOk result (λ points. points.items ≡ merged chosen.now pairs.now) }
{
    let mut points = Vec::with_capacity(alloc, chosen.len())?;
    for time in chosen {
        points.push((*time, weight_at(chosen, pairs, *time)))?;
    }
    Ok(points)
}

// The weight that is moved to a time.
fn weight_at(chosen: &[u32], pairs: &[(u32, u64)], time: u32) -> u64
    requires { total pairs.now < 2 ^ 64 }
    ensures { result ≡ weight_at chosen.now pairs.now time }
{
    let mut weight = 0;
    for pair in pairs {
        if moved_to(chosen, pair.0) == time {
            weight += pair.1;
        }
    }
    weight
}

// The least chosen time that isn't below this one.
fn moved_to(chosen: &[u32], time: u32) -> u32
    ensures { result ≡ moved_to chosen.now time }
{
    for c in chosen {
        if time <= *c {
            return *c;
        }
    }
    time
}
