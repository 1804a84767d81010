//! Tables with ticks added to each time.

ghost use Rattle.std.specs.Prelude.{◌≡◌, ◌+◌, ◌<◌, ◌^◌, length, All};
ghost use Rattle.prta_mass.specs.Added.{with_added, AddedTables};
ghost use Rattle.prta_mass.specs.WorkedAdded.{WorkedAdded};

// Writes the base, with s ticks added to each time, over as many points.
pub(crate) fn put_added(points: &mut [(u32, u64)], base: &[(u32, u64)], s: u32)
    requires as_many { length points.old ≡ length base.now }
    requires within { All (λ pair. pair.0 + s < 2 ^ 32) base.now }
    ensures { points.new ≡ with_added base.now s }
{
    for i in 0..points.len() {
        points[i] = (base[i].0 + s, base[i].1);
    }
}

/// What ticks that are added to each time of a table change, and what not.
pub fn added_tables()
    ensures { AddedTables }
{}

/// A worked table with ticks added.
pub fn worked_added()
    ensures { WorkedAdded }
{}
