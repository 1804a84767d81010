//! Lists of chances by the places where they rise, from a curve and back.

ghost use Rattle.std.specs.Prelude.{◌≡◌, IfOk, length};
ghost use Rattle.prta_certfile.specs.Steps.{steps_of, cells_by_steps, AreBelow};

use prta_backlog::Bench;
use prta_certfile::{StepList, steps_are_lists};
use prta_dist::{Curve, Kernel};
use prta_mass::NoMemory;
use std::alloc::Global;

/// The places where the list on the main curve rises, with its values there. Fails for want of memory alone.
pub fn take_steps<C: Curve, K: Kernel>(
    alloc: Global,
    bench: &Bench<C, K>,
) -> Result<StepList, NoMemory>
    ensures { IfOk result (λ steps. steps ≡ steps_of (C.cells bench.now.main)) }
{
    steps_are_lists();
    let mut steps = StepList::new(alloc);
    let mut value = 0;
    for place in 0..bench.main.cap() {
        let cell = bench.main.at(place);
        if cell > value {
            steps.push(place as u32, cell)?;
            value = cell;
        }
    }
    Ok(steps)
}

/// Makes the main curve the list with these steps; all else stays.
pub fn load_steps<C: Curve, K: Kernel>(bench: &mut Bench<C, K>, steps: &StepList)
    requires { AreBelow (length (C.cells bench.old.main)) steps.now }
    ensures main { C.cells bench.new.main ≡ cells_by_steps (length (C.cells bench.old.main)) steps.now }
    ensures cap { length (C.cells bench.new.main) ≡ length (C.cells bench.old.main) }
    ensures others { bench.new ≡ record bench.old { main = bench.new.main } }
{
    let _cap = bench.main.cap();
    bench.main.raise(0, 0);
    for (place, value) in steps.points() {
        bench.main.raise(*place as usize, *value);
    }
}
