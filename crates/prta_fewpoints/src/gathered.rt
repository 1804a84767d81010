//! What is gathered of the weights on the way to the next chosen time, and costs that may be missing.

ghost use Rattle.std.specs.Prelude.{◌≡◌, ◌+◌, ◌-◌, ◌*◌, ◌<◌, ◌≤◌, ◌^◌, IfSome};
ghost use Rattle.prta_fewpoints.specs.Recursion.{plus, lesser, reaches};

// Weights that were moved to one time, in ticks, and what that has cost: the sum of each times the ticks that it moved.
#[derive(Clone, Copy, Debug)]
pub(crate) struct Gathered {
    pub(crate) weight: u64,
    pub(crate) moved: u128,
    pub(crate) since: u32,
    ghost low: { moved ≤ weight * since },
}

impl Gathered {
    // Nothing yet.
    pub(crate) fn nothing() -> Gathered
        ensures weight { result.weight ≡ 0 }
        ensures moved { result.moved ≡ 0 }
        ensures since { result.since ≡ 0 }
    {
        Gathered {
            weight: 0,
            moved: 0,
            since: 0,
        }
    }

    // The cost with all of it moved on to this time.
    pub(crate) fn at(self, time: u32) -> u128
        requires { self.since ≤ time }
        ensures cost { result ≡ self.moved + self.weight * (time - self.since) }
        ensures low { result ≤ self.weight * time }
    {
        self.moved + self.weight as u128 * (time - self.since) as u128
    }

    // The same moved on to the time of a pair, and its weight added.
    pub(crate) fn with(self, time: u32, weight: u64) -> Gathered
        requires later { self.since ≤ time }
        requires fits { self.weight + weight < 2 ^ 64 }
        ensures weight { result.weight ≡ self.weight + weight }
        ensures moved { result.moved ≡ self.moved + self.weight * (time - self.since) }
        ensures since { result.since ≡ time }
    {
        Gathered {
            weight: self.weight + weight,
            moved: self.at(time),
            since: time,
        }
    }
}

// The sum with a cost that may be missing.
pub(crate) fn plus(here: u128, cost: Option<u128>) -> Option<u128>
    requires { IfSome cost (λ cost. here + cost < 2 ^ 128) }
    ensures { result ≡ plus here cost }
{
    match cost {
        Some(cost) => Some(here + cost),
        None => None,
    }
}

// The lesser of two costs that may be missing.
pub(crate) fn lesser(a: Option<u128>, b: Option<u128>) -> Option<u128>
    ensures { result ≡ lesser a b }
{
    match (a, b) {
        (Some(a), Some(b)) => Some(if a < b { a } else { b }),
        (Some(a), None) => Some(a),
        (None, b) => b,
    }
}

// The cost is there, and is the one looked for.
pub(crate) fn reaches(cost: Option<u128>, goal: Option<u128>) -> bool
    ensures { result ≡ reaches cost goal }
{
    match (cost, goal) {
        (Some(cost), Some(goal)) => cost == goal,
        _ => false,
    }
}
